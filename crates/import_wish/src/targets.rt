//! What a wish asks for by its targets, and the paragraph of a recipe `*`.

ghost use Rattle.std.specs.Prelude.{◌≡◌, ◌||◌, is_some};
ghost use Rattle.std.specs.Option.{option_map};
ghost use Rattle.deb_text.specs.Common.{Gives, words};
ghost use Rattle.deb_relation.specs.View.{refusal_of};
ghost use Rattle.import_wish.specs.Targets.{apart_at, every_at, every_view, finish_in, finish_of, have_common, is_every, is_of_one_build, is_star, stages_in, targets_in, wanted_at, wanted_view};

use crate::error::{NO_TARGET, TWICE};
use crate::fields::{read_mode, read_words};
use deb_fields::{BAD_VALUE, Paragraph, or_text};
use deb_profile::ProfileSet;
use deb_relation::{Kind, RelationError, Relations};
use deb_text::next_word;
use farm_model::Mode;
use std::alloc::Global;

/// When a choice has all that is wanted.
#[derive(Clone, Copy, Debug, PartialEq, Eq)]
pub enum Finish {
    /// The sources of the targets are built whole or light.
    Targets,
    /// So is each source that is built staged.
    All,
}

/// What a wish asks for by its targets: their entries, if there are any; the profiles that builds may
/// have beyond those of all, as words; and when a choice has all.
#[derive(Drop)]
pub struct Wanted<'a> {
    pub targets: Option<Relations>,
    pub stages: &'a [u8],
    pub finish: Finish,
}

/// What each build has that is chosen: its mode, and its profiles as words.
#[derive(Drop)]
pub struct EveryBuild {
    pub line: u32,
    pub mode: Mode,
    pub profiles: Vec<u8>,
}

/// Reads the targets, if there are any.
#[tactic(auto, unfolding(crate::specs::Targets::targets_in))]
fn read_entries(alloc: Global, value: Option<&[u8]>) -> Result<Option<Relations>, RelationError>
    ensures { Gives refusal_of (λ targets. targets) result
        (targets_in (option_map (λ v. v.now) value.entry)) }
{
    let Some(text) = value else {
        return Ok(None);
    };
    let entries = Relations::parse(alloc, text, Kind::Need)?;
    if entries.is_empty() {
        return Err(RelationError { code: NO_TARGET });
    }
    Ok(Some(entries))
}

/// Tells whether some of these words are profiles of a set.
fn have_common(profiles: &ProfileSet, text: &[u8]) -> bool
    ensures { result ≡ have_common profiles.now (words text.now) }
{
    let mut rest = text;
    while let Some((word, behind)) = next_word(rest) {
        if profiles.is_active(word) {
            return true;
        }
        rest = behind;
    }
    false
}

/// Reads words of which none is a profile of a set.
#[tactic(auto, unfolding(crate::specs::Targets::stages_in))]
fn read_stages<'a>(
    alloc: Global,
    profiles: &ProfileSet,
    text: &'a [u8],
) -> Result<&'a [u8], RelationError>
    ensures { Gives refusal_of (λ text. text.now) result
        (stages_in profiles.now text.entry.now) }
{
    let words = read_words(alloc, text)?;
    if have_common(profiles, &words) {
        return Err(RelationError { code: TWICE });
    }
    Ok(text)
}

fn finish_of(text: &[u8]) -> Result<Finish, RelationError>
    ensures { Gives refusal_of (λ finish. finish) result (finish_of text.now) }
{
    if text == b"targets".as_slice() {
        return Ok(Finish::Targets);
    }
    if text == b"all".as_slice() {
        return Ok(Finish::All);
    }
    Err(RelationError { code: BAD_VALUE })
}

fn read_finish(value: Option<&[u8]>) -> Result<Finish, RelationError>
    ensures { Gives refusal_of (λ finish. finish) result
        (finish_in (option_map (λ v. v.now) value.entry)) }
{
    match value {
        Some(text) => finish_of(text),
        None => Ok(Finish::Targets),
    }
}

/// Reads what the first paragraph asks for by targets, where all recipes have these profiles.
#[tactic(auto, unfolding(crate::specs::Targets::wanted_at))]
pub fn read_wanted<'a>(
    alloc: Global,
    profiles: &ProfileSet,
    paragraph: &Paragraph<'a>,
) -> Result<Wanted<'a>, RelationError>
    ensures { Gives refusal_of wanted_view result (wanted_at profiles.now paragraph.now) }
{
    let targets = read_entries(alloc, paragraph.field(b"Targets"))?;
    let stages = read_stages(alloc, profiles, or_text(paragraph.field(b"Stages"), b""))?;
    let finish = read_finish(paragraph.field(b"Finish"))?;
    Ok(Wanted {
        targets,
        stages,
        finish,
    })
}

fn is_of_one_build(paragraph: &Paragraph) -> bool
    ensures { result ≡ is_of_one_build paragraph.now }
{
    paragraph.field(b"Source").is_some()
        || paragraph.field(b"Steps").is_some()
        || paragraph.field(b"Scratch").is_some()
        || paragraph.field(b"Outputs").is_some()
        || paragraph.field(b"Drops").is_some()
}

fn is_star(name: Option<&[u8]>) -> bool
    ensures { result ≡ is_star (option_map (λ n. n.now) name.entry) }
{
    match name {
        Some(name) => name == b"*".as_slice(),
        None => false,
    }
}

/// Tells whether a paragraph is a recipe `*`.
pub fn is_every(paragraph: &Paragraph) -> bool
    ensures { result ≡ is_every paragraph.now }
{
    is_star(paragraph.field(b"Recipe"))
}

/// What a recipe `*` has where it does not say it, and the stages of the wish.
#[derive(Clone, Copy)]
pub struct Common<'a> {
    pub mode: Mode,
    pub profiles: &'a [u8],
    pub stages: &'a [u8],
}

/// Reads profiles that have nothing in common with the stages of the wish.
#[tactic(auto, unfolding(crate::specs::Targets::apart_at))]
fn read_apart(alloc: Global, text: &[u8], stages: &[u8]) -> Result<Vec<u8>, RelationError>
    ensures { Gives refusal_of (λ kept. kept.items) result (apart_at stages.now text.now) }
{
    let profiles = ProfileSet::parse(alloc, text)?;
    if have_common(&profiles, stages) {
        return Err(RelationError { code: TWICE });
    }
    Ok(Vec::from_slice(alloc, text)?)
}

/// Reads the paragraph of a recipe `*`.
///
/// # Errors
///
/// 203 where there is one before it; 202 where it has a field of one build alone, or the mode is none;
/// 131 where a profile is no word; 203 where one is among the stages.
#[tactic(auto, unfolding(crate::specs::Targets::every_at))]
pub fn read_every(
    alloc: Global,
    common: Common,
    is_second: bool,
    paragraph: &Paragraph,
) -> Result<EveryBuild, RelationError>
    ensures { Gives refusal_of every_view result (every_at common.entry.mode
        common.entry.profiles.now common.entry.stages.now is_second paragraph.now) }
{
    if is_second {
        return Err(RelationError { code: TWICE });
    }
    if is_of_one_build(paragraph) {
        return Err(RelationError { code: BAD_VALUE });
    }
    let mode = read_mode(paragraph.field(b"Mode"), common.mode)?;
    let text = or_text(paragraph.field(b"Profiles"), common.profiles);
    let profiles = read_apart(alloc, text, common.stages)?;
    Ok(EveryBuild {
        line: paragraph.line(),
        mode,
        profiles,
    })
}
