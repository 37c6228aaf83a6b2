//! The first paragraph of a wish for two architectures.

ghost use Rattle.std.specs.Prelude.{◌≡◌, IfOk};
ghost use Rattle.deb_text.specs.Common.{Gives, words};
ghost use Rattle.deb_relation.specs.View.{refusal_of};
ghost use Rattle.std.specs.Option.{option_copied, option_map};
ghost use Rattle.import_wish.specs.Head.{head_view};
ghost use Rattle.cross_wish.specs.Views.{cross_head_view};
ghost use Rattle.cross_wish.specs.Wish.{archive_free, cross_head_at, essential_at, essential_text, first_word, only_word, profiles_or, sides_at, with_profiles};

use crate::entries::{judge_free, read_entries};
use cross_relations::Sides;
use deb_fields::{ABSENT, BAD_VALUE, Paragraph, or_text};
use deb_relation::{RelationError, Relations};
use deb_text::next_word;
use import_wish::{Head, read_head};
use std::alloc::{AllocError, Global};

/// The profiles of builds for the host, where the wish does not say.
const PROFILES: &[u8] = b"cross nocheck";

/// What a wish says of all recipes; the two architectures; and what each build for the host needs
/// besides, as it is given.
#[derive(Drop)]
pub struct CrossHead<'a> {
    pub native: Head<'a>,
    pub sides: Sides<'a>,
    pub essential: Relations,
}

/// The word of a text that has one.
fn only_word(text: &[u8]) -> Option<&[u8]>
    ensures { option_map (λ word. word.now) result ≡ only_word (words text.now) }
{
    let (word, rest) = next_word(text)?;
    if next_word(rest).is_some() {
        return None;
    }
    Some(word)
}

fn first_word(text: &[u8]) -> Option<&[u8]>
    ensures { option_map (λ word. word.now) result ≡ first_word (words text.now) }
{
    let (word, _) = next_word(text)?;
    Some(word)
}

/// Reads the names of the two architectures.
///
/// # Errors
///
/// 201 where the host has no name; 202 where the other one is not one word, or where they are not the
/// names of two architectures.
#[tactic(auto, unfolding(crate::specs::Wish::sides_at))]
fn read_sides<'a>(paragraph: &Paragraph<'a>) -> Result<Sides<'a>, RelationError>
    ensures { Gives refusal_of (λ sides. sides) result (sides_at paragraph.now) }
{
    let Some(host) = first_word(or_text(paragraph.field(b"Architecture-Names"), b"")) else {
        return Err(RelationError { code: ABSENT });
    };
    let Some(build) = only_word(or_text(paragraph.field(b"Build-Architecture"), b"")) else {
        return Err(RelationError { code: BAD_VALUE });
    };
    match Sides::new(build, host) {
        Some(sides) => Ok(sides),
        None => Err(RelationError { code: BAD_VALUE }),
    }
}

fn judge_archive(sides: &Sides, archive: Option<&Relations>) -> Result<(), RelationError>
    ensures { Gives refusal_of (λ _. tt) result
        (archive_free sides.now (option_copied archive.entry)) }
{
    match archive {
        Some(entries) => judge_free(sides, entries),
        None => Ok(()),
    }
}

/// What each build for the host needs besides, where the wish does not say.
fn essential_text(alloc: Global, sides: &Sides) -> Result<Vec<u8>, AllocError>
    ensures { IfOk result (λ text. text.items ≡ essential_text sides.now) }
{
    let mut text = Vec::from_slice(alloc, b"build-essential, crossbuild-essential-")?;
    text.extend_from_slice(sides.host())?;
    Ok(text)
}

/// Reads what each build for the host needs besides.
fn read_essential(
    alloc: Global,
    sides: &Sides,
    value: Option<&[u8]>,
) -> Result<Relations, RelationError>
    ensures { Gives refusal_of (λ entries. entries) result
        (essential_at sides.now (option_map (λ v. v.now) value.entry)) }
{
    match value {
        Some(text) => read_entries(alloc, sides, text),
        None => {
            let text = essential_text(alloc, sides)?;
            read_entries(alloc, sides, &text)
        }
    }
}

/// The text of the profiles of recipes that have none of their own.
fn profiles_or<'a>(value: Option<&'a [u8]>, given: &'a [u8]) -> &'a [u8]
    ensures { result.now ≡ profiles_or (option_map (λ v. v.now) value.entry) given.now }
{
    match value {
        Some(_) => given,
        None => PROFILES,
    }
}

fn with_profiles<'a>(head: Head<'a>, value: Option<&'a [u8]>) -> Head<'a>
    ensures { head_view result
        ≡ with_profiles (option_map (λ v. v.now) value.entry) (head_view head.entry) }
{
    let profiles = profiles_or(value, head.profiles);
    Head { profiles, ..head }
}

/// Reads the first paragraph of a wish.
///
/// # Errors
///
/// Those of `read_head` of import_wish; then 202 where the architectures are not two, 707 where a name
/// in Archive is taken, and the faults of Build-Essential.
#[tactic(auto, unfolding(crate::specs::Wish::cross_head_at))]
pub fn read_cross_head<'a>(
    alloc: Global,
    paragraph: &Paragraph<'a>,
) -> Result<CrossHead<'a>, RelationError>
    ensures { Gives refusal_of cross_head_view result (cross_head_at paragraph.now) }
{
    let head = read_head(alloc, paragraph)?;
    let sides = read_sides(paragraph)?;
    judge_archive(&sides, head.archive.as_ref())?;
    let essential = read_essential(alloc, &sides, paragraph.field(b"Build-Essential"))?;
    Ok(CrossHead {
        native: with_profiles(head, paragraph.field(b"Profiles")),
        sides,
        essential,
    })
}
