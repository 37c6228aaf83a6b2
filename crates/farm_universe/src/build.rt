//! What a recipe builds, and how.

ghost use Rattle.std.specs.Prelude.{◌≡◌, ◌≤◌, ◌++◌, length, IfOk, IfErr, OnOk, None};
ghost use Rattle.std.specs.Option.{option_map};
ghost use Rattle.deb_text.specs.Answers.{Gives};
ghost use Rattle.deb_profile.specs.Reduction.{reduced};
ghost use Rattle.farm_universe.specs.FarmView.{IsLand, land_view};
ghost use Rattle.farm_universe.specs.FieldView.{first_entries};
ghost use Rattle.farm_universe.specs.RecipeSteps.{first_source_in, first_build_at};
ghost use Rattle.farm_universe.specs.RecipeText.{source_in, mode_of, mode_at, active_profiles_at, in_mode, left_in};
ghost use Rattle.farm_universe.specs.SourceView.{source_view, IsSourceTable};
ghost use Rattle.farm_universe.specs.View.{refusal_of};

use crate::error::FieldFault;
use crate::field_text::FieldText;
use crate::land::Land;
use crate::limits::KEPT_ENTRIES;
use crate::list::pinned;
use crate::paragraph::Paragraph;
use crate::source_table::{SourceTable, find_source};
use crate::sources::{BuildFields, Source};
use deb_profile::{ArchNames, ProfileSet};
use deb_relation::{Entry, Kind, Relations};
use farm_model::Mode;
use std::alloc::Global;

/// What a build needs, and what it excludes.
#[derive(Drop)]
pub struct Build {
    pub needs: Relations,
    pub clashes: Relations,
}

/// The source that a value `name (= version)` names, of which no more than two items are kept.
#[tactic(auto, unfolding(crate::specs::RecipeSteps::first_source_in))]
fn read_first_source<'a>(
    alloc: Global,
    sources: &'a SourceTable,
    text: &[u8],
) -> Result<&'a Source, FieldFault>
    requires { IsSourceTable (source_view sources.now) }
    ensures { Gives refusal_of (λ source. source.now) result
        (first_source_in (source_view sources.now) text.now) }
{
    let list = Relations::parse_first(alloc, text, Kind::Provide, 2)?;
    let [entry] = list.entries() else {
        return Err(FieldFault::UnknownSource);
    };
    let Some((name, version)) = pinned(entry) else {
        return Err(FieldFault::UnknownSource);
    };
    match find_source(sources, name, &version) {
        Some(source) => Ok(source),
        None => Err(FieldFault::UnknownSource),
    }
}

/// The source that a value `name (= version)` names.
#[tactic(auto, using(crate::proofs::FirstLaws::gives_source))]
fn read_source<'a>(
    alloc: Global,
    sources: &'a SourceTable,
    text: &[u8],
) -> Result<&'a Source, FieldFault>
    requires { IsSourceTable (source_view sources.now) }
    ensures { Gives refusal_of (λ source. source.now) result
        (source_in (source_view sources.now) text.now) }
{
    read_first_source(alloc, sources, text)
}

/// A mode by its name; none says that the recipe is built already.
fn mode_of(text: &[u8]) -> Result<Option<Mode>, FieldFault>
    ensures { Gives refusal_of (λ mode. mode) result (mode_of text.now) }
{
    if text == b"full".as_slice() {
        return Ok(Some(Mode::Full));
    }
    if text == b"arch".as_slice() {
        return Ok(Some(Mode::Arch));
    }
    if text == b"indep".as_slice() {
        return Ok(Some(Mode::Indep));
    }
    if text == b"built".as_slice() {
        return Ok(None);
    }
    Err(FieldFault::BadValue)
}

fn read_mode(value: Option<&[u8]>) -> Result<Option<Mode>, FieldFault>
    ensures { Gives refusal_of (λ mode. mode) result
        (mode_at (option_map (λ v. v.now) value.entry)) }
{
    match value {
        Some(text) => mode_of(text),
        None => Ok(Some(Mode::Full)),
    }
}

fn read_profiles(alloc: Global, value: Option<&[u8]>) -> Result<ProfileSet, FieldFault>
    ensures { Gives refusal_of (λ profiles. profiles) result
        (active_profiles_at (option_map (λ v. v.now) value.entry)) }
{
    match value {
        Some(text) => Ok(ProfileSet::parse(alloc, text)?),
        None => Ok(ProfileSet::none(alloc)),
    }
}

/// Puts what is left of a field behind other entries, as many as are kept of a build.
fn push_reduced(
    alloc: Global,
    entries: &mut Vec<Entry>,
    field: &FieldText,
    names: &ArchNames,
    profiles: &ProfileSet,
) -> Result<(), FieldFault>
    requires { length entries.old.items ≤ KEPT_ENTRIES }
    ensures entries { OnOk result (entries.new.items
        ≡ first_entries (entries.old.items ++ reduced names.now profiles.now field.now)) }
    ensures memory { IfErr result (λ e. refusal_of e ≡ None) }
{
    let left = field.reduce(alloc, names, profiles, KEPT_ENTRIES - entries.len())?;
    entries.append(&mut left.into_entries())?;
    Ok(())
}

/// The first entries of the fields of a mode, reduced.
#[tactic(auto, unfolding(crate::specs::RecipeText::in_mode))]
fn reduce_in_mode(
    alloc: Global,
    mode: Mode,
    fields: &BuildFields,
    names: &ArchNames,
    profiles: &ProfileSet,
) -> Result<Relations, FieldFault>
    ensures left { IfOk result
        (λ left. left ≡ first_entries (in_mode names.now profiles.now mode fields.now)) }
    ensures memory { IfErr result (λ e. refusal_of e ≡ None) }
{
    let mut entries = Vec::new(alloc);
    push_reduced(alloc, &mut entries, &fields.always, names, profiles)?;
    match mode {
        Mode::Full => {
            push_reduced(alloc, &mut entries, &fields.arch, names, profiles)?;
            push_reduced(alloc, &mut entries, &fields.indep, names, profiles)?;
            Ok(Relations::from_entries(entries))
        }
        Mode::Arch => {
            push_reduced(alloc, &mut entries, &fields.arch, names, profiles)?;
            Ok(Relations::from_entries(entries))
        }
        Mode::Indep => {
            push_reduced(alloc, &mut entries, &fields.indep, names, profiles)?;
            Ok(Relations::from_entries(entries))
        }
    }
}

/// The same; nothing for a recipe that is built already.
#[tactic(auto, unfolding(crate::specs::RecipeText::left_in))]
fn reduce_unbuilt(
    alloc: Global,
    mode: Option<Mode>,
    fields: &BuildFields,
    names: &ArchNames,
    profiles: &ProfileSet,
) -> Result<Relations, FieldFault>
    ensures left { IfOk result
        (λ left. left ≡ first_entries (left_in names.now profiles.now mode fields.now)) }
    ensures memory { IfErr result (λ e. refusal_of e ≡ None) }
{
    match mode {
        Some(mode) => reduce_in_mode(alloc, mode, fields, names, profiles),
        None => Ok(Relations::from_entries(Vec::new(alloc))),
    }
}

/// How many bytes of fields the source has that a paragraph names, for whoever reads builds ahead:
/// none where it names no source.
pub fn build_bytes(alloc: Global, land: &Land, paragraph: &Paragraph) -> usize
    requires { IsLand (land_view land.now) }
{
    let Some(text) = paragraph.field(b"Source") else {
        return 0;
    };
    match read_source(alloc, &land.sources, text) {
        Ok(source) => source.bytes(),
        Err(_) => 0,
    }
}

/// Reads the fields Source, Mode and Profiles, and keeps the first entries of the build.
///
/// # Errors
///
/// The first of 201, 121 to 128 and 206 of `Source`, 202 of `Mode`, and 131 of `Profiles`.
/// [`FieldFault::Memory`] where memory is refused.
#[tactic(auto, unfolding(crate::specs::RecipeSteps::first_build_at, crate::specs::RecipeText::build_at))]
pub fn read_build(alloc: Global, land: &Land, paragraph: &Paragraph) -> Result<Build, FieldFault>
    requires { IsLand (land_view land.now) }
    ensures { Gives refusal_of (λ build. build) result
        (first_build_at (land_view land.now) paragraph.now) }
{
    let source = read_source(alloc, &land.sources, paragraph.needed(b"Source")?)?;
    let mode = read_mode(paragraph.field(b"Mode"))?;
    let profiles = read_profiles(alloc, paragraph.field(b"Profiles"))?;
    let names = &land.architectures;
    Ok(Build {
        needs: reduce_unbuilt(alloc, mode, &source.needs, names, &profiles)?,
        clashes: reduce_unbuilt(alloc, mode, &source.clashes, names, &profiles)?,
    })
}
