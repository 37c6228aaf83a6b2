//! Packages as an encoded text carries them along.

ghost use Rattle.std.specs.Prelude.{◌≡◌, [], Ok, IfOk};
ghost use Rattle.deb_text.specs.Common.{Gives, traverse};
ghost use Rattle.deb_relation.specs.View.{refusal_of};
ghost use Rattle.cross_relations.specs.Decoded.{own_name, own_side};
ghost use Rattle.cross_index.specs.Finished.{given_at};

use crate::reading::{multi_arch_in, read_field};
use crate::stop::{IndexStop, plain_stop};
use cross_laws::types::{Architecture, Side};
use cross_relations::{Binary, Five, Sides, host_stem};
use deb_fields::Paragraph;
use deb_relation::{Kind, RelationError, Relations};
use deb_stanza::Paragraphs;
use import_closure::read_version;
use std::alloc::Global;

/// The side of the package of an encoded name.
fn own_side(sides: &Sides, name: &[u8]) -> Side
    ensures { result ≡ own_side sides.now name.now }
{
    match host_stem(sides, name) {
        Some(_) => Side::Host,
        None => Side::Build,
    }
}

/// The name of the package of an encoded name.
fn own_name<'a>(sides: &Sides, name: &'a [u8]) -> &'a [u8]
    ensures { result.now ≡ own_name sides.now name.now }
{
    host_stem(sides, name).unwrap_or(name)
}

/// A field without an entry.
fn no_relations(alloc: Global) -> Relations
    ensures { result ≡ [] }
{
    Relations::from_entries(Vec::new(alloc))
}

/// Reads the package that a paragraph carries along, in the version that it has now. Its needs are
/// left out.
///
/// # Errors
///
/// 201 where Package or Version is absent, 123 where the version is none, 202 where Multi-Arch has
/// none of its values, and those of the relation fields. 900 where memory is refused.
#[tactic(auto, unfolding(crate::specs::Finished::given_at))]
pub fn read_given(
    alloc: Global,
    sides: &Sides,
    paragraph: &Paragraph,
) -> Result<Binary, RelationError>
    ensures { Gives refusal_of (λ binary. binary) result (given_at sides.now paragraph.now) }
{
    let name = paragraph.needed(b"Package")?;
    let version = read_version(alloc, paragraph.needed(b"Version")?)?;
    let multi_arch = multi_arch_in(paragraph.field(b"Multi-Arch"))?;
    let conflicts = read_field(alloc, Kind::Clash, paragraph, b"Given-Conflicts")?;
    let breaks = read_field(alloc, Kind::Clash, paragraph, b"Given-Breaks")?;
    let provides = read_field(alloc, Kind::Provide, paragraph, b"Given-Provides")?;
    let five = Five {
        pre_depends: no_relations(alloc),
        depends: no_relations(alloc),
        conflicts,
        breaks,
        provides,
    };
    let architecture = Architecture::Of(own_side(sides, name));
    let name = Vec::from_slice(alloc, own_name(sides, name))?;
    Ok(Binary::new(name, architecture, multi_arch, version, five))
}

/// Reads the packages that paragraphs carry along.
///
/// # Errors
///
/// That of the first paragraph which has one.
pub fn read_all(
    alloc: Global,
    sides: &Sides,
    paragraphs: &Paragraphs,
) -> Result<Vec<Binary>, IndexStop>
    ensures { IfOk result (λ all. traverse (given_at sides.now) paragraphs.now ≡ Ok all.items) }
{
    let mut all = Vec::new(alloc);
    for at in 0..paragraphs.count() {
        let binary = read_one(alloc, sides, &Paragraph::new(paragraphs, at))?;
        all.push(binary)?;
    }
    Ok(all)
}

fn read_one(alloc: Global, sides: &Sides, paragraph: &Paragraph) -> Result<Binary, IndexStop>
    ensures { IfOk result (λ binary. given_at sides.now paragraph.now ≡ Ok binary) }
{
    match read_given(alloc, sides, paragraph) {
        Ok(binary) => Ok(binary),
        Err(error) => Err(plain_stop(alloc, paragraph, error)),
    }
}
