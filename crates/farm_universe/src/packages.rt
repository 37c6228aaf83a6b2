//! What a paragraph of the packages text says.

ghost use Rattle.std.specs.Prelude.{IfOk, ◌<◌, ◌≤◌, length};
ghost use Rattle.deb_stanza.specs.Stanza.{paragraph_at};
ghost use Rattle.deb_text.specs.Answers.{Gives};
ghost use Rattle.farm_universe.specs.FieldView.{first_relations_in};
ghost use Rattle.farm_universe.specs.PackagesText.{package_relations_by};
ghost use Rattle.farm_universe.specs.View.{refusal_of};
ghost use Rattle.farm_universe.specs.Parts.{AreReads};
ghost use Rattle.farm_universe.specs.TableView.{IsListedPackage};

use crate::binary::{Package, PackageRelations};
use crate::error::FieldFault;
use crate::fields::{read_flag, read_name, read_relations, read_size, read_version};
use crate::limits::MOST_SIZE;
use crate::paragraph::Paragraph;
use deb_relation::Kind;
use deb_stanza::Paragraphs;
use rayon::prelude::*;
use std::alloc::{AllocError, Global};
use std::thread::Threads;

/// What a paragraph says.
#[derive(Drop)]
pub struct Listed {
    pub name: Vec<u8>,
    pub binary: Package,
}

/// Reads the relation fields of a paragraph.
#[tactic(auto, unfolding(crate::specs::PackagesText::package_relations_by))]
fn read_package_relations(
    alloc: Global,
    paragraph: &Paragraph,
) -> Result<PackageRelations, FieldFault>
    ensures { Gives refusal_of (λ relations. relations) result
        (package_relations_by first_relations_in paragraph.now) }
{
    Ok(PackageRelations {
        pre_depends: read_relations(alloc, Kind::Need, paragraph.field(b"Pre-Depends"))?,
        depends: read_relations(alloc, Kind::Need, paragraph.field(b"Depends"))?,
        conflicts: read_relations(alloc, Kind::Clash, paragraph.field(b"Conflicts"))?,
        breaks: read_relations(alloc, Kind::Clash, paragraph.field(b"Breaks"))?,
        provides: read_relations(alloc, Kind::Provide, paragraph.field(b"Provides"))?,
    })
}

/// Reads a paragraph of the packages text.
///
/// # Errors
///
/// The first of 201 and 121 of `Package`, 201 and 111 to 114 of `Version`, 202 of `Installed-Size`
/// and of `Essential`, and 121 to 129 of the relation fields. [`FieldFault::Memory`] where memory
/// is refused.
#[tactic(auto, unfolding(crate::specs::PackagesText::package_by))]
pub fn read_package(alloc: Global, paragraph: &Paragraph) -> Result<Listed, FieldFault>
    ensures { IsListedPackage paragraph.now result }
{
    let name = read_name(alloc, paragraph.needed(b"Package")?)?;
    let version = read_version(alloc, paragraph.needed(b"Version")?)?;
    let size = read_size(paragraph.field(b"Installed-Size"))?;
    let essential = read_flag(paragraph.field(b"Essential"))?;
    let relations = read_package_relations(alloc, paragraph)?;
    Ok(Listed {
        name,
        binary: Package::new(version, size, essential, relations),
    })
}

/// Reads the paragraphs from one up to another, each by itself, by as many threads as there are
/// processors.
pub fn read_packages(
    rt: &(impl Threads + Sync),
    alloc: Global,
    paragraphs: &Paragraphs,
    from: usize,
    to: usize,
) -> Result<Vec<Result<Listed, FieldFault>>, AllocError>
    requires ascends { from ≤ to }
    requires within { to ≤ length paragraphs.now }
    ensures { IfOk result (λ read. AreReads IsListedPackage paragraphs.now from to read.items) }
{
    (from..to)
        .into_par_iter()
        .with_min_len(1)
        .map(
            move |number: usize| -> Result<Listed, FieldFault>
                requires { number < length paragraphs.now }
                ensures { IsListedPackage (paragraph_at paragraphs.entry.now number) result }
            { read_package(alloc, &Paragraph::new(paragraphs, number)) },
        )
        .collect::<Vec<Result<Listed, FieldFault>>>(rt, alloc)
}
