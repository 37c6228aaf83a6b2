//! Whether a paragraph is that of an encoded source.

ghost use Rattle.std.specs.Prelude.{◌≡◌, Some, OnOk};
ghost use Rattle.std.specs.Option.{option_map};
ghost use Rattle.cross_laws.specs.Names.{Of, encoded};
ghost use Rattle.cross_sources.specs.EncodedSource.{HasOwn, IsSourceFor, SayAll};
ghost use Rattle.cross_sources.specs.GivenSource.{given_view, relations_view};
ghost use Rattle.cross_sources.specs.List.{list_for};
ghost use Rattle.cross_sources.specs.Relations.{made_for, way_of};

use crate::asked::Asked;
use crate::given::{BuildRelations, GivenSource};
use crate::list::rows_made;
use crate::relations::made_for;
use cross_index::{Unlike, judge_field, judge_says, judge_value};
use cross_laws::types::Side;
use cross_relations::{Sense, encoded_name};
use deb_fields::Paragraph;
use deb_relation::Kind;
use deb_text::trim;
use std::alloc::Global;

/// Judges a name, which is to be that of a source, encoded.
fn judge_name(
    alloc: Global,
    of: Asked,
    side: Side,
    given: &GivenSource,
    new: Option<&[u8]>,
) -> Result<(), Unlike>
    ensures { OnOk result (option_map (λ v. v.now) new.entry
        ≡ Some (encoded of.entry.sides.now (Of side) (given_view given.now).source.name)) }
{
    let made = encoded_name(alloc, of.sides, Sense::Of(side), &given.source.name)?;
    judge_value(new, Some(made.as_slice()))?;
    Ok(())
}

/// Judges a Package-List, which is to be the encoded one.
fn judge_list(
    alloc: Global,
    of: Asked,
    side: Side,
    old: Option<&[u8]>,
    new: Option<&[u8]>,
) -> Result<(), Unlike>
    ensures { OnOk result (option_map (λ v. v.now) new.entry
        ≡ option_map (list_for (way_of of.entry) side) (option_map (λ v. v.now) old.entry)) }
{
    match old {
        Some(value) => {
            let made = rows_made(alloc, of, side, value)?;
            judge_value(new, Some(trim(&made)))?;
            Ok(())
        }
        None => {
            judge_value(new, None)?;
            Ok(())
        }
    }
}

/// Judges what a paragraph says of a source itself.
fn judge_own(
    alloc: Global,
    of: Asked,
    side: Side,
    given: &GivenSource,
    old: &Paragraph,
    new: &Paragraph,
) -> Result<(), Unlike>
    ensures { OnOk result (HasOwn (way_of of.entry) side (given_view given.now) old.now new.now) }
{
    judge_name(alloc, of, side, given, new.field(b"Package"))?;
    judge_field(old, b"Version", new, b"Version")?;
    judge_field(old, b"Files", new, b"Files")?;
    judge_field(old, b"Checksums-Sha256", new, b"Checksums-Sha256")?;
    let list = old.field(b"Package-List");
    judge_list(alloc, of, side, list, new.field(b"Package-List"))?;
    Ok(())
}

/// Judges the build relations of a paragraph, which are to be these.
fn judge_relations(alloc: Global, made: &BuildRelations, new: &Paragraph) -> Result<(), Unlike>
    ensures { OnOk result (SayAll (relations_view made.now) new.now) }
{
    let (need, clash) = (Kind::BuildNeed, Kind::BuildClash);
    judge_says(alloc, new, need, b"Build-Depends", &made.depends)?;
    judge_says(alloc, new, need, b"Build-Depends-Arch", &made.depends_arch)?;
    judge_says(
        alloc,
        new,
        need,
        b"Build-Depends-Indep",
        &made.depends_indep,
    )?;
    judge_says(alloc, new, clash, b"Build-Conflicts", &made.conflicts)?;
    judge_says(
        alloc,
        new,
        clash,
        b"Build-Conflicts-Arch",
        &made.conflicts_arch,
    )?;
    judge_says(
        alloc,
        new,
        clash,
        b"Build-Conflicts-Indep",
        &made.conflicts_indep,
    )?;
    Ok(())
}

/// The same, which are to be those of a source, encoded.
fn judge_made(
    alloc: Global,
    of: Asked,
    side: Side,
    given: &GivenSource,
    new: &Paragraph,
) -> Result<(), Unlike>
    ensures { OnOk result
        (SayAll (made_for (way_of of.entry) side (given_view given.now).relations) new.now) }
{
    let made = made_for(alloc, of, side, &given.relations)?;
    judge_relations(alloc, &made, new)?;
    Ok(())
}

/// Judges a paragraph, which is to be that of a source, encoded for a side, which was read of the
/// given one.
pub fn judge_source(
    alloc: Global,
    of: Asked,
    side: Side,
    given: &GivenSource,
    old: &Paragraph,
    new: &Paragraph,
) -> Result<(), Unlike>
    ensures { OnOk result
        (IsSourceFor (way_of of.entry) side (given_view given.now) old.now new.now) }
{
    judge_own(alloc, of, side, given, old, new)?;
    judge_made(alloc, of, side, given, new)?;
    Ok(())
}
