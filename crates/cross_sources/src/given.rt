//! How the paragraph of a source is read.

ghost use Rattle.std.specs.Prelude.{◌≡◌};
ghost use Rattle.deb_text.specs.Common.{Gives};
ghost use Rattle.deb_relation.specs.View.{refusal_of};
ghost use Rattle.cross_sources.specs.GivenSource.{build_relations_at, given_source_at, given_view, name_of, relations_taken, relations_view};

use cross_index::{TAKEN_NAME, has_taken, read_field};
use cross_relations::Sides;
use deb_fields::{Paragraph, or_text};
use deb_relation::{Kind, RelationError, Relations};
use import_closure::{Source, read_source};
use std::alloc::Global;

/// The build relations of a source.
#[derive(Drop)]
pub struct BuildRelations {
    pub depends: Relations,
    pub depends_arch: Relations,
    pub depends_indep: Relations,
    pub conflicts: Relations,
    pub conflicts_arch: Relations,
    pub conflicts_indep: Relations,
}

/// A source, as its paragraph says.
#[derive(Drop)]
pub struct GivenSource {
    pub source: Source,
    pub relations: BuildRelations,
}

/// The name of the source of a paragraph: Package, or else Source, or else nothing.
pub fn name_of<'a>(paragraph: &Paragraph<'a>) -> &'a [u8]
    ensures { result.now ≡ name_of paragraph.now }
{
    match paragraph.field(b"Package") {
        Some(name) => name,
        None => or_text(paragraph.field(b"Source"), b""),
    }
}

/// Reads the build relations.
#[tactic(auto, unfolding(crate::specs::GivenSource::build_relations_at))]
fn read_relations(alloc: Global, paragraph: &Paragraph) -> Result<BuildRelations, RelationError>
    ensures { Gives refusal_of relations_view result (build_relations_at paragraph.now) }
{
    let depends = read_field(alloc, Kind::BuildNeed, paragraph, b"Build-Depends")?;
    let depends_arch = read_field(alloc, Kind::BuildNeed, paragraph, b"Build-Depends-Arch")?;
    let depends_indep = read_field(alloc, Kind::BuildNeed, paragraph, b"Build-Depends-Indep")?;
    let conflicts = read_field(alloc, Kind::BuildClash, paragraph, b"Build-Conflicts")?;
    let conflicts_arch = read_field(alloc, Kind::BuildClash, paragraph, b"Build-Conflicts-Arch")?;
    let conflicts_indep = read_field(alloc, Kind::BuildClash, paragraph, b"Build-Conflicts-Indep")?;
    Ok(BuildRelations {
        depends,
        depends_arch,
        depends_indep,
        conflicts,
        conflicts_arch,
        conflicts_indep,
    })
}

fn relations_taken(sides: &Sides, relations: &BuildRelations) -> bool
    ensures { result ≡ relations_taken sides.now (relations_view relations.now) }
{
    has_taken(sides, &relations.depends)
        || has_taken(sides, &relations.depends_arch)
        || has_taken(sides, &relations.depends_indep)
        || has_taken(sides, &relations.conflicts)
        || has_taken(sides, &relations.conflicts_arch)
        || has_taken(sides, &relations.conflicts_indep)
}

/// Reads a source.
///
/// # Errors
///
/// In this order: the first fault of its name and its version, as `read_source` of import_closure
/// tells it; that of its build relations; and [`TAKEN_NAME`] where a name in one is taken. 900 where
/// memory is refused.
#[tactic(auto, unfolding(crate::specs::GivenSource::given_source_at))]
pub fn read_given_source(
    alloc: Global,
    sides: &Sides,
    paragraph: &Paragraph,
) -> Result<GivenSource, RelationError>
    ensures { Gives refusal_of given_view result (given_source_at sides.now paragraph.now) }
{
    let source = read_source(alloc, paragraph)?;
    let relations = read_relations(alloc, paragraph)?;
    if relations_taken(sides, &relations) {
        return Err(RelationError { code: TAKEN_NAME });
    }
    Ok(GivenSource { source, relations })
}
