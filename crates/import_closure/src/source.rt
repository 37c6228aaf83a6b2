//! The source that a package comes from.

ghost use Rattle.std.specs.Prelude.{◌≡◌};
ghost use Rattle.std.specs.Option.{option_map};
ghost use Rattle.deb_text.specs.Answers.{Gives};
ghost use Rattle.deb_relation.specs.View.{refusal_of};
ghost use Rattle.import_closure.specs.Source.{inside, source_at, source_in, source_view, versioned_at};

use crate::fields::read_version;
use deb_fields::read_name;
use deb_relation::{NOT_CLOSED, RelationError};
use deb_text::{cut_at_first, trim};
use deb_version::Version;
use std::alloc::Global;

/// The name and the version of a source.
#[derive(Drop)]
pub struct GivenSource {
    pub name: Vec<u8>,
    pub version: Version,
}

/// What stands before the `)` at the end of a text, if there is one.
fn inside(text: &[u8]) -> Option<&[u8]>
    ensures { option_map (λ v. v.now) result ≡ inside text.now }
{
    let (front, rest) = cut_at_first(b')', text)?;
    if rest.is_empty() { Some(front) } else { None }
}

/// Reads `NAME (VERSION)`, of which this stands on both sides of the `(`.
#[tactic(auto, unfolding(crate::specs::Source::versioned_at))]
fn read_versioned(alloc: Global, name: &[u8], behind: &[u8]) -> Result<GivenSource, RelationError>
    ensures { Gives refusal_of source_view result (versioned_at name.now behind.now) }
{
    let name = read_name(alloc, trim(name))?;
    let Some(text) = inside(behind) else {
        return Err(RelationError { code: NOT_CLOSED });
    };
    let version = read_version(alloc, trim(text))?;
    Ok(GivenSource { name, version })
}

/// Reads the value of a field Source, of a package of this version: `NAME`, or `NAME (VERSION)`.
#[tactic(auto, unfolding(crate::specs::Source::source_at))]
fn read_value(alloc: Global, version: &[u8], text: &[u8]) -> Result<GivenSource, RelationError>
    ensures { Gives refusal_of source_view result (source_at version.now text.now) }
{
    if let Some((name, behind)) = cut_at_first(b'(', text) {
        return read_versioned(alloc, name, behind);
    }
    let name = read_name(alloc, text)?;
    let version = read_version(alloc, version)?;
    Ok(GivenSource { name, version })
}

/// Reads the source of a package of this name and this version: its own where the field is absent.
///
/// # Errors
///
/// 121 where its name is none, 125 where a bracket is not closed, 123 where its version is none.
pub fn read_source(
    alloc: Global,
    name: &[u8],
    version: &[u8],
    value: Option<&[u8]>,
) -> Result<GivenSource, RelationError>
    ensures { Gives refusal_of source_view result
        (source_in name.now version.now (option_map (λ v. v.now) value.entry)) }
{
    match value {
        Some(text) => read_value(alloc, version, text),
        None => read_value(alloc, version, name),
    }
}
