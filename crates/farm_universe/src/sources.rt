//! What a paragraph of the sources text says.

ghost use Rattle.deb_text.specs.Answers.{Gives};
ghost use Rattle.farm_universe.specs.SourcesText.{source_name_at, build_fields_at, source_at};
ghost use Rattle.farm_universe.specs.SourceView.{listed_source_view};
ghost use Rattle.farm_universe.specs.View.{refusal_of};

use crate::error::FieldFault;
use crate::field_text::FieldText;
use crate::fields::{keep_relations, read_name, read_version};
use crate::paragraph::Paragraph;
use deb_relation::Kind;
use deb_version::Version;
use std::alloc::Global;

/// What builds of a source need, or what they exclude (Debian Policy 7.7).
#[derive(Drop)]
pub struct BuildFields {
    /// For every build.
    pub always: FieldText,
    /// For builds of packages of one architecture.
    pub arch: FieldText,
    /// For builds of packages of all architectures.
    pub indep: FieldText,
}

impl BuildFields {
    /// How many bytes the fields are written in.
    pub fn bytes(&self) -> usize {
        self.always
            .bytes()
            .saturating_add(self.arch.bytes())
            .saturating_add(self.indep.bytes())
    }
}

/// What is known of one version of a source package.
#[derive(Drop)]
pub struct Source {
    pub version: Version,
    pub needs: BuildFields,
    pub clashes: BuildFields,
}

impl Source {
    /// How many bytes the fields of a build are written in.
    pub fn bytes(&self) -> usize {
        self.needs.bytes().saturating_add(self.clashes.bytes())
    }
}

/// What a paragraph says.
#[derive(Drop)]
pub struct ListedSource {
    pub name: Vec<u8>,
    pub source: Source,
}

/// The name of the source: the field Package, else the field Source.
fn name_of<'a>(paragraph: &Paragraph<'a>) -> Result<&'a [u8], FieldFault>
    ensures { Gives refusal_of (λ name. name.now) result (source_name_at paragraph.now) }
{
    match paragraph.field(b"Package") {
        Some(name) => Ok(name),
        None => paragraph.needed(b"Source"),
    }
}

/// Reads three fields: for every build, for packages of one architecture, and for those of all.
#[tactic(auto, unfolding(crate::specs::SourcesText::build_fields_at))]
fn read_build_fields(
    alloc: Global,
    kind: Kind,
    paragraph: &Paragraph,
    always: &[u8],
    arch: &[u8],
    indep: &[u8],
) -> Result<BuildFields, FieldFault>
    ensures { Gives refusal_of (λ fields. fields) result
        (build_fields_at kind paragraph.now always.now arch.now indep.now) }
{
    Ok(BuildFields {
        always: keep_relations(alloc, kind, paragraph.field(always))?,
        arch: keep_relations(alloc, kind, paragraph.field(arch))?,
        indep: keep_relations(alloc, kind, paragraph.field(indep))?,
    })
}

/// Reads a paragraph of the sources text.
///
/// # Errors
///
/// The first of 201 and 121 of the name, 201 and 111 to 114 of `Version`, and 121 to 130 of the six
/// fields of a build. [`FieldFault::Memory`] where memory is refused.
#[tactic(auto, unfolding(crate::specs::SourcesText::source_at))]
pub fn read_source(alloc: Global, paragraph: &Paragraph) -> Result<ListedSource, FieldFault>
    ensures { Gives refusal_of listed_source_view result (source_at paragraph.now) }
{
    let name = read_name(alloc, name_of(paragraph)?)?;
    let version = read_version(alloc, paragraph.needed(b"Version")?)?;
    let needs = read_build_fields(
        alloc,
        Kind::BuildNeed,
        paragraph,
        b"Build-Depends",
        b"Build-Depends-Arch",
        b"Build-Depends-Indep",
    )?;
    let clashes = read_build_fields(
        alloc,
        Kind::BuildClash,
        paragraph,
        b"Build-Conflicts",
        b"Build-Conflicts-Arch",
        b"Build-Conflicts-Indep",
    )?;
    Ok(ListedSource {
        name,
        source: Source {
            version,
            needs,
            clashes,
        },
    })
}
