//! The sets of build profiles that are tried for a source.

ghost use Rattle.std.specs.Prelude.{◌≡◌, ◌++◌, ◌∷◌, [], ◌+◌, ◌≤◌, drop, length, map, IfOk, OnOk};
ghost use Rattle.deb_text.specs.Words.{spaced};
ghost use Rattle.stage_builds.specs.Profiles.{few_sets, sets_below, sets_of_size, tried_sets};

use deb_text::push_pieces;
use std::alloc::{AllocError, Global};

/// The most profiles of which all sets are tried.
pub const MOST_PROFILES: usize = 6;

fn with_word<'a>(
    alloc: Global,
    front: &[&'a [u8]],
    word: &'a [u8],
) -> Result<Vec<&'a [u8]>, AllocError>
    ensures { IfOk result (λ set. map (λ other. other.now) set.items
        ≡ map (λ other. other.now) front.now ++ word.now ∷ []) }
{
    let mut set = Vec::from_slice(alloc, front)?;
    set.push(word)?;
    Ok(set)
}

/// Puts the sets of so many words behind others, of those from a place on, each behind a front.
fn push_sets<'a>(
    alloc: Global,
    sets: &mut Vec<Vec<&'a [u8]>>,
    front: &[&'a [u8]],
    words: &[&'a [u8]],
    from: usize,
    size: usize,
) -> Result<(), AllocError>
    ensures { OnOk result (map (λ set. map (λ word. word.now) set.items) sets.new.items
        ≡ map (λ set. map (λ word. word.now) set.items) sets.old.items
        ++ map (λ set. map (λ word. word.now) front.now ++ set)
        (sets_of_size size (map (λ word. word.now) (drop from words.now)))) }
{
    if size == 0 {
        sets.push(Vec::from_slice(alloc, front)?)?;
        return Ok(());
    }
    if from >= words.len() {
        return Ok(());
    }
    let longer = with_word(alloc, front, words[from])?;
    push_sets(alloc, sets, &longer, words, from + 1, size - 1)?;
    push_sets(alloc, sets, front, words, from + 1, size)?;
    Ok(())
}

/// Puts all sets of some words behind others, the smaller ones first.
fn push_all_sets<'a>(
    alloc: Global,
    sets: &mut Vec<Vec<&'a [u8]>>,
    words: &[&'a [u8]],
) -> Result<(), AllocError>
    requires { length words.now ≤ MOST_PROFILES }
    ensures { OnOk result (map (λ set. map (λ word. word.now) set.items) sets.new.items
        ≡ map (λ set. map (λ word. word.now) set.items) sets.old.items
        ++ sets_below (length words.now + 1) (map (λ word. word.now) words.now)) }
{
    for size in 0..words.len() + 1 {
        push_sets(alloc, sets, &[], words, 0, size)?;
    }
    Ok(())
}

/// Puts the set of none of some words, those of one, and that of all behind others.
fn push_few_sets<'a>(
    alloc: Global,
    sets: &mut Vec<Vec<&'a [u8]>>,
    words: &[&'a [u8]],
) -> Result<(), AllocError>
    ensures { OnOk result (map (λ set. map (λ word. word.now) set.items) sets.new.items
        ≡ map (λ set. map (λ word. word.now) set.items) sets.old.items
        ++ few_sets (map (λ word. word.now) words.now)) }
{
    sets.push(Vec::new(alloc))?;
    for word in words {
        sets.push(with_word(alloc, &[], *word)?)?;
    }
    sets.push(Vec::from_slice(alloc, words)?)?;
    Ok(())
}

/// The sets of some words that are tried, the smaller ones first: all, or of more than
/// [`MOST_PROFILES`] words none, each alone, and all together.
pub fn tried_sets<'a>(alloc: Global, words: &[&'a [u8]]) -> Result<Vec<Vec<&'a [u8]>>, AllocError>
    ensures { IfOk result (λ sets. map (λ set. map (λ word. word.now) set.items) sets.items
        ≡ tried_sets (map (λ word. word.now) words.now)) }
{
    let mut sets = Vec::new(alloc);
    if words.len() <= MOST_PROFILES {
        push_all_sets(alloc, &mut sets, words)?;
    } else {
        push_few_sets(alloc, &mut sets, words)?;
    }
    Ok(sets)
}

/// The text of the profiles of every build, and of some more.
pub fn profiles_text(alloc: Global, base: &[u8], more: &[&[u8]]) -> Result<Vec<u8>, AllocError>
    ensures { IfOk result (λ text. text.items
        ≡ base.now ++ spaced (map (λ word. word.now) more.now)) }
{
    let mut text = Vec::from_slice(alloc, base)?;
    for word in more {
        push_pieces(&mut text, &[b" ", word])?;
    }
    Ok(text)
}
