//! Lists of words by number, the other way round.

ghost use Rattle.std.specs.Prelude.{◌≡◌, ◌<◌, ◌==◌, ◌&&◌, ◌||◌, [], ℕ, IfOk, OnOk, length};
ghost use Rattle.clause_kernel.specs.Rows.{word_has};
ghost use Rattle.sat_rows.specs.Found.{among};
ghost use Rattle.sat_rows.specs.Links.{nth_list, AreTurned};

use crate::found::Found;
use std::alloc::{AllocError, Global};

/// Counts the words of a list under their numbers.
fn count_words(counts: &mut [usize], found: &Found) {
    for at in found.words() {
        if let Some(count) = counts.get_mut(at.number) {
            *count = count.saturating_add(1);
        }
    }
}

/// How many words lists have under each of so many numbers.
fn counts(alloc: Global, lists: &[Found], count: usize) -> Result<Vec<usize>, AllocError>
    ensures { IfOk result (λ counts. length counts.items ≡ count) }
{
    let mut counts = vec![in alloc; 0usize; count]?;
    for place in 0..lists.len() {
        count_words(&mut counts, &lists[place]);
    }
    Ok(counts)
}

/// An empty list for each count, with room for as many words: most have few, and would grow often.
fn empty_lists(alloc: Global, counts: &[usize]) -> Result<Vec<Found>, AllocError>
    ensures long { IfOk result (λ lists. length lists.items ≡ length counts.now) }
    ensures none { IfOk result (λ lists. (j : ℕ) → nth_list lists.items j ≡ []) }
{
    let mut lists = Vec::with_capacity(alloc, counts.len())?;
    for number in 0..counts.len() {
        lists.push(Found::with_room(alloc, counts[number])?)?;
    }
    Ok(lists)
}

/// Puts variants under a number of the list at a place, if there is one.
fn put(lists: &mut Vec<Found>, place: usize, number: usize, word: u64) -> Result<(), AllocError>
    ensures long { OnOk result (length lists.new.items ≡ length lists.old.items) }
    ensures put { OnOk result ((j i b : ℕ) → j < length lists.old.items
        → among (nth_list lists.new.items j) i b ≡ (among (nth_list lists.old.items j) i b
        || ((j == place) && ((i == number) && word_has word b)))) }
{
    if place < lists.len() {
        lists[place].add(number, word)?;
    }
    Ok(())
}

/// Puts each word of those found into the list at its number, under this number.
fn put_all(lists: &mut Vec<Found>, found: &Found, number: usize) -> Result<(), AllocError>
    ensures long { OnOk result (length lists.new.items ≡ length lists.old.items) }
    ensures put { OnOk result ((j i b : ℕ) → j < length lists.old.items
        → among (nth_list lists.new.items j) i b ≡ (among (nth_list lists.old.items j) i b
        || ((i == number) && among found.now j b))) }
{
    for at in found.words() {
        put(lists, at.number, number, at.word)?;
    }
    Ok(())
}

/// What lists have under so many numbers, in lists by these.
pub fn turned(alloc: Global, lists: &[Found], count: usize) -> Result<Vec<Found>, AllocError>
    ensures { IfOk result (λ turned. AreTurned lists.now count turned.items) }
{
    let counts = counts(alloc, lists, count)?;
    let mut turned = empty_lists(alloc, &counts)?;
    for number in 0..lists.len() {
        put_all(&mut turned, &lists[number], number)?;
    }
    Ok(turned)
}
