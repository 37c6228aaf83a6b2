//! A package, as an index has it.

ghost use Rattle.deb_text.specs.Answers.{Gives};
ghost use Rattle.deb_relation.specs.View.{refusal_of};
ghost use Rattle.import_closure.specs.Given.{given_at, given_view};

use crate::fields::{rank_of, read_flag, read_size, read_version};
use crate::relations::{GivenRelations, read_relations};
use crate::source::{GivenSource, read_source};
use deb_fields::{Paragraph, read_name};
use deb_profile::ArchNames;
use deb_relation::RelationError;
use deb_version::Version;
use std::alloc::Global;

/// What is known of a package of an index: its size in KiB, its rank by Priority, the source that
/// it comes from, and its relation fields as an architecture leaves them.
#[derive(Drop)]
pub struct Given {
    pub name: Vec<u8>,
    pub version: Version,
    pub size: u64,
    pub is_essential: bool,
    pub rank: u8,
    pub source: GivenSource,
    pub relations: GivenRelations,
}

/// Reads a paragraph of a Packages index, for an architecture of these names.
///
/// # Errors
///
/// 201 where Package or Version is absent, 121 where the name is none, 123 where the version is
/// none, 202 where Installed-Size is no number or Essential neither `yes` nor `no`; those of relation
/// fields; 121, 125 and 123 of Source.
#[tactic(auto, unfolding(crate::specs::Given::given_at))]
pub fn read_given(
    alloc: Global,
    names: &ArchNames,
    paragraph: &Paragraph,
) -> Result<Given, RelationError>
    ensures { Gives refusal_of given_view result (given_at names.now paragraph.now) }
{
    let name = read_name(alloc, paragraph.needed(b"Package")?)?;
    let version = read_version(alloc, paragraph.needed(b"Version")?)?;
    let size = read_size(paragraph.field(b"Installed-Size"))?;
    let is_essential = read_flag(paragraph.field(b"Essential"))?;
    let relations = read_relations(alloc, names, paragraph)?;
    let source = read_source(alloc, &name, version.text(), paragraph.field(b"Source"))?;
    Ok(Given {
        name,
        version,
        size,
        is_essential,
        rank: rank_of(paragraph.field(b"Priority")),
        source,
        relations,
    })
}
