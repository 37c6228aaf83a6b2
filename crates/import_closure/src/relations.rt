//! The relation fields of a package, as an architecture leaves them.

ghost use Rattle.std.specs.Prelude.{◌≡◌};
ghost use Rattle.std.specs.Option.{option_map};
ghost use Rattle.deb_text.specs.Answers.{Gives};
ghost use Rattle.deb_relation.specs.View.{refusal_of};
ghost use Rattle.import_closure.specs.Relations.{field_in, relations_in, relations_view};

use deb_fields::{Paragraph, or_text};
use deb_profile::{ArchNames, ProfileSet, reduce_text};
use deb_relation::{Kind, RelationError, Relations};
use std::alloc::Global;

/// The most entries that are kept of a field: one more than a farm has.
pub const MOST_ENTRIES: usize = 65_537;

/// The relation fields of a package.
#[derive(Drop)]
pub struct GivenRelations {
    pub pre_depends: Relations,
    pub depends: Relations,
    pub conflicts: Relations,
    pub breaks: Relations,
    pub provides: Relations,
}

/// Reads a relation field that may be absent.
fn read_field(
    alloc: Global,
    names: &ArchNames,
    kind: Kind,
    value: Option<&[u8]>,
) -> Result<Relations, RelationError>
    ensures { Gives refusal_of (λ field. field) result
        (field_in names.now kind (option_map (λ v. v.now) value.entry)) }
{
    let none = ProfileSet::none(alloc);
    reduce_text(alloc, or_text(value, b""), kind, names, &none, MOST_ENTRIES)
}

/// Reads the relation fields of a package.
///
/// # Errors
///
/// The first fault of Pre-Depends, Depends, Conflicts, Breaks and Provides, in this order.
#[tactic(auto, unfolding(crate::specs::Relations::relations_in))]
pub fn read_relations(
    alloc: Global,
    names: &ArchNames,
    paragraph: &Paragraph,
) -> Result<GivenRelations, RelationError>
    ensures { Gives refusal_of relations_view result (relations_in names.now paragraph.now) }
{
    let pre_depends = read_field(alloc, names, Kind::Need, paragraph.field(b"Pre-Depends"))?;
    let depends = read_field(alloc, names, Kind::Need, paragraph.field(b"Depends"))?;
    let conflicts = read_field(alloc, names, Kind::Clash, paragraph.field(b"Conflicts"))?;
    let breaks = read_field(alloc, names, Kind::Clash, paragraph.field(b"Breaks"))?;
    let provides = read_field(alloc, names, Kind::Provide, paragraph.field(b"Provides"))?;
    Ok(GivenRelations {
        pre_depends,
        depends,
        conflicts,
        breaks,
        provides,
    })
}
