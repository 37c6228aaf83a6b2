//! How the lists of architectures and profiles of an alternative are read.

ghost use Rattle.std.specs.Prelude.{◌≡◌, []};
ghost use Rattle.deb_text.specs.Common.{Gives, is_blank, behind, words};
ghost use Rattle.deb_relation.specs.Restrictions.{item_at, arch_at, arch_list_of, archs_in, archs_at, items_in, list_in, end_in, lists_at, profiles_at};
ghost use Rattle.deb_relation.specs.View.{refusal_of};

use crate::error::{
    BAD_ARCHITECTURES, BAD_NAME, BAD_PROFILES, NOT_CLOSED, RESTRICTION, RelationError,
};
use crate::kind::Kind;
use crate::restriction::{ArchList, Item, ProfileList, Word};
use crate::words::{WordRule, read_words};
use deb_text::{Class, cut_at_first, is_word, next_word, skip_front};
use std::alloc::Global;

/// The names of architectures, each with `!` before it or none.
#[derive(Drop)]
struct ArchRule {
    negated: bool,
}

impl WordRule for ArchRule {
    type Read = Word;

    ghost meaning = { λ rule. arch_at rule.negated };

    fn read(&self, alloc: Global, word: &[u8]) -> Result<Word, RelationError> {
        Ok(Word::from_slice(alloc, arch_name(self.negated, word)?)?)
    }
}

/// The name that a word of a list of architectures says.
///
/// # Errors
///
/// [`BAD_ARCHITECTURES`] where it says none.
#[tactic(auto, unfolding(crate::specs::Restrictions::arch_at))]
pub fn arch_name(negated: bool, word: &[u8]) -> Result<&[u8], RelationError>
    ensures { Gives refusal_of (λ name. name.now) result (arch_at negated word.now) }
{
    match word {
        [b'!', name @ ..] if negated && is_word(name) => Ok(name),
        _ if !negated && is_word(word) => Ok(word),
        _ => Err(RelationError {
            code: BAD_ARCHITECTURES,
        }),
    }
}

fn read_arch_list(alloc: Global, text: &[u8]) -> Result<ArchList, RelationError>
    ensures { Gives refusal_of (λ list. list) result (arch_list_of (words text.now)) }
{
    let Some((first, _)) = next_word(text) else {
        return Err(RelationError {
            code: BAD_ARCHITECTURES,
        });
    };
    let negated = matches!(first, [b'!', ..]);
    Ok(ArchList {
        negated,
        names: read_words(alloc, &ArchRule { negated }, text)?,
    })
}

fn read_archs_in(alloc: Global, text: &[u8]) -> Result<(Option<ArchList>, &[u8]), RelationError>
    ensures { Gives refusal_of (λ part. (part.0, part.1.now)) result (archs_in text.now) }
{
    let Some((inside, rest)) = cut_at_first(b']', text) else {
        return Err(RelationError { code: NOT_CLOSED });
    };
    Ok((Some(read_arch_list(alloc, inside)?), rest))
}

/// Reads the list of architectures, if a bracket stands at the front, and gives what stands behind
/// it too (Debian Policy 7.1).
///
/// # Errors
///
/// In this order: [`RESTRICTION`] in a kind that has none; [`NOT_CLOSED`] where no bracket closes
/// it; [`BAD_ARCHITECTURES`] for an empty or a mixed list or a bad item. 900 where memory is
/// refused.
#[tactic(auto, unfolding(crate::specs::Restrictions::archs_at))]
pub fn read_archs(
    alloc: Global,
    kind: Kind,
    text: &[u8],
) -> Result<(Option<ArchList>, &[u8]), RelationError>
    ensures { Gives refusal_of (λ part. (part.0, part.1.now)) result (archs_at kind text.now) }
{
    match text {
        [b'[', rest @ ..] => {
            if !kind.has_restrictions() {
                return Err(RelationError { code: RESTRICTION });
            }
            read_archs_in(alloc, rest)
        }
        _ => Ok((None, text)),
    }
}

/// The profiles of a list, each perhaps with `!` before it.
#[derive(Drop)]
struct ItemRule;

impl WordRule for ItemRule {
    type Read = Item;

    ghost meaning = { λ _. item_at };

    fn read(&self, alloc: Global, word: &[u8]) -> Result<Item, RelationError> {
        let (profile, negated) = profile_name(word)?;
        Ok(Item {
            word: Word::from_slice(alloc, profile)?,
            negated,
        })
    }
}

/// The profile that a word of a profile list says, and whether `!` stands before it.
///
/// # Errors
///
/// [`BAD_PROFILES`] where it says none.
#[tactic(auto, unfolding(crate::specs::Restrictions::item_at))]
pub fn profile_name(word: &[u8]) -> Result<(&[u8], bool), RelationError>
    ensures { Gives refusal_of (λ item. record { word = item.0.now; negated = item.1 }) result
        (item_at word.now) }
{
    let (negated, profile) = match word {
        [b'!', profile @ ..] => (true, profile),
        _ => (false, word),
    };
    if !is_word(profile) {
        return Err(RelationError { code: BAD_PROFILES });
    }
    Ok((profile, negated))
}

#[tactic(auto, unfolding(crate::specs::Restrictions::items_in))]
fn read_items(alloc: Global, text: &[u8]) -> Result<Vec<Item>, RelationError>
    ensures { Gives refusal_of (λ items. items.items) result (items_in text.now) }
{
    if next_word(text).is_none() {
        return Err(RelationError { code: BAD_PROFILES });
    }
    read_words(alloc, &ItemRule, text)
}

fn read_list(alloc: Global, text: &[u8]) -> Result<ProfileList, RelationError>
    ensures { Gives refusal_of (λ list. list) result (list_in (behind is_blank text.now)) }
{
    match skip_front(Class::Blank, text) {
        [b'<', items @ ..] => Ok(ProfileList::from_items(read_items(alloc, items)?)),
        _ => Err(RelationError { code: BAD_NAME }),
    }
}

/// Judges what stands behind the last list of profiles.
///
/// # Errors
///
/// [`NOT_CLOSED`] where one more list begins, and [`BAD_NAME`] for another byte.
pub fn check_end(text: &[u8]) -> Result<(), RelationError>
    ensures { Gives refusal_of (λ _. []) result (end_in (behind is_blank text.now)) }
{
    match skip_front(Class::Blank, text) {
        [] => Ok(()),
        [b'<', ..] => Err(RelationError { code: NOT_CLOSED }),
        _ => Err(RelationError { code: BAD_NAME }),
    }
}

fn read_lists(alloc: Global, text: &[u8]) -> Result<Vec<ProfileList>, RelationError>
    ensures { Gives refusal_of (λ lists. lists.items) result (lists_at text.now) }
{
    let mut lists = Vec::new(alloc);
    let mut rest = text;
    while let Some((list, after)) = cut_at_first(b'>', rest) {
        lists.push(read_list(alloc, list)?)?;
        rest = after;
    }
    check_end(rest)?;
    Ok(lists)
}

/// Reads the lists of profiles, to the end of the text (BuildProfileSpec).
///
/// # Errors
///
/// Of the first list with a fault: [`RESTRICTION`] in a kind that has none; [`NOT_CLOSED`] where no
/// bracket closes it; [`BAD_PROFILES`] for an empty list or a bad item; [`BAD_NAME`] for a byte
/// that begins none. 900 where memory is refused.
#[tactic(auto, unfolding(crate::specs::Restrictions::profiles_at))]
pub fn read_profiles(
    alloc: Global,
    kind: Kind,
    text: &[u8],
) -> Result<Vec<ProfileList>, RelationError>
    ensures { Gives refusal_of (λ lists. lists.items) result (profiles_at kind text.now) }
{
    if !kind.has_restrictions() && matches!(skip_front(Class::Blank, text), [b'<', ..]) {
        return Err(RelationError { code: RESTRICTION });
    }
    read_lists(alloc, text)
}
