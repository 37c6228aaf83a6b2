//! The name and the version of a source.

ghost use Rattle.deb_text.specs.Answers.{Gives};
ghost use Rattle.deb_relation.specs.View.{refusal_of};
ghost use Rattle.import_closure.specs.SourceParagraph.{name_in, source_at, source_view};

use crate::read_version;
use deb_fields::{ABSENT, Paragraph, read_name};
use deb_relation::RelationError;
use deb_version::Version;
use std::alloc::Global;

/// A source of an index.
#[derive(Drop)]
pub struct Source {
    pub name: Vec<u8>,
    pub version: Version,
}

/// The value of Package, or else that of Source.
fn name_in<'a>(paragraph: &Paragraph<'a>) -> Result<&'a [u8], RelationError>
    ensures { Gives refusal_of (λ v. v.now) result (name_in paragraph.now) }
{
    if let Some(name) = paragraph.field(b"Package") {
        return Ok(name);
    }
    match paragraph.field(b"Source") {
        Some(name) => Ok(name),
        None => Err(RelationError { code: ABSENT }),
    }
}

/// Reads the name and the version of a source.
///
/// # Errors
///
/// 201 where one is absent, 121 where the name is none, 123 where the version is none.
#[tactic(auto, unfolding(crate::specs::SourceParagraph::source_at))]
pub fn read_source(alloc: Global, paragraph: &Paragraph) -> Result<Source, RelationError>
    ensures { Gives refusal_of source_view result (source_at paragraph.now) }
{
    let name = read_name(alloc, name_in(paragraph)?)?;
    let version = read_version(alloc, paragraph.needed(b"Version")?)?;
    Ok(Source { name, version })
}
