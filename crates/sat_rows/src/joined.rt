//! To whom variants lead by many entries, as one list for each.

ghost use Rattle.std.specs.Prelude.{◌≡◌, ◌&&◌, ◌||◌, [], ℕ, IfOk, OnOk, slice_get, slice_index_or};
ghost use Rattle.std.specs.Option.{option_map};
ghost use Rattle.clause_kernel.specs.Rows.{word_has};
ghost use Rattle.sat_rows.specs.Found.{among};
ghost use Rattle.sat_rows.specs.Links.{nth_list, IsJoined, AreJoined};

use crate::found::{Found, NumberWord};
use crate::word::has_bit;
use std::alloc::{AllocError, Global};
use std::marker::Model;

/// From how many entries of a name on the lists of its variants are made.
pub const MANY: usize = 64;

/// How many words the lists of a universe may take.
const MOST_WORDS: usize = 1_048_576;

/// To whom the variants of one name lead, by bit: all of them, or the first ones.
#[derive(Drop)]
pub struct Joined {
    lists: Vec<Found>,
}

impl Model for Joined {
    ghost use Rattle.std.specs.Prelude.{List};
    ghost use Rattle.sat_rows.specs.declared.found.NumberWord.{NumberWord};

    ghost Value = { List (List NumberWord) };

    ghost view = { λ joined. joined.lists.items };
}

impl Joined {
    /// The list of a variant, if there is one.
    pub fn get(&self, bit: u32) -> Option<&Found>
        ensures { option_map (λ found. found.now) result ≡ slice_get self.now bit }
    {
        self.lists.get(bit as usize)
    }
}

/// The list of an entry.
pub fn words_at(lists: &[Found], entry: usize) -> &[NumberWord]
    ensures { result.now ≡ nth_list lists.now entry }
{
    match lists.get(entry) {
        Some(found) => found.words(),
        None => &[],
    }
}

/// How many words stand in the lists of entries, for a variant for each bit up to the last one.
fn cost(entries: &[NumberWord], by_entry: &[Found], bits: u32) -> usize {
    let mut cost = 0usize;
    for entry in entries {
        cost = cost.saturating_add(words_at(by_entry, entry.number).len());
    }
    cost.saturating_mul(bits as usize)
}

/// How many bits the variants of a name take that have entries.
fn bits_of(entries: &[NumberWord]) -> u32 {
    let mut word = 0;
    for entry in entries {
        word |= entry.word;
    }
    64 - u64::leading_zeros(word)
}

/// Puts the variants of an entry, where a variant has it.
fn add_entry(
    found: &mut Found,
    entry: &NumberWord,
    by_entry: &[Found],
    bit: u32,
) -> Result<(), AllocError>
    ensures { OnOk result ((m c : ℕ) → among found.new m c ≡ (among found.old m c
        || (word_has entry.now.word bit && among (nth_list by_entry.now entry.now.number) m c))) }
{
    if !has_bit(entry.word, bit) {
        return Ok(());
    }
    found.add_all(words_at(by_entry, entry.number))?;
    Ok(())
}

/// To whom the variant of a bit leads.
fn joined_at(
    alloc: Global,
    entries: &[NumberWord],
    by_entry: &[Found],
    bit: u32,
) -> Result<Found, AllocError>
    ensures { IfOk result (IsJoined entries.now by_entry.now bit) }
{
    let mut found = Found::new(alloc);
    for entry in entries {
        add_entry(&mut found, entry, by_entry, bit)?;
    }
    Ok(found)
}

/// To whom the variants of the first bits lead.
fn joined_name(
    alloc: Global,
    entries: &[NumberWord],
    by_entry: &[Found],
    bits: u32,
) -> Result<Joined, AllocError>
    ensures { IfOk result (AreJoined entries.now by_entry.now) }
{
    let mut lists = Vec::new(alloc);
    for bit in 0..bits {
        lists.push(joined_at(alloc, entries, by_entry, bit)?)?;
    }
    Ok(Joined { lists })
}

/// Of how many bits of a name the lists are made, and what is left of the words then.
fn share(entries: &[NumberWord], by_entry: &[Found], left: usize) -> (u32, usize) {
    let bits = bits_of(entries);
    let cost = cost(entries, by_entry, bits);
    if entries.len() < MANY || cost > left {
        (0, left)
    } else {
        (bits, left - cost)
    }
}

/// To whom the variants of each name lead, where they have many entries.
pub fn all_joined(
    alloc: Global,
    by_name: &[Found],
    by_entry: &[Found],
) -> Result<Vec<Joined>, AllocError>
    ensures { IfOk result (λ joined. (n : ℕ) → AreJoined (nth_list by_name.now n) by_entry.now
        (slice_index_or joined.items n [])) }
{
    let mut left = MOST_WORDS;
    let mut joined = Vec::new(alloc);
    for name in 0..by_name.len() {
        let entries = words_at(by_name, name);
        let (bits, rest) = share(entries, by_entry, left);
        left = rest;
        joined.push(joined_name(alloc, entries, by_entry, bits)?)?;
    }
    Ok(joined)
}
