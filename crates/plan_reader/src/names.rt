//! The names in a line, looked up in the universe.

ghost use Rattle.std.specs.Prelude.{◌≡◌, ◌<◌, [], length, All, IfOk};
ghost use Rattle.deb_text.specs.Common.{Gives, traverse, words};
ghost use Rattle.farm_model.specs.Common.{member, names};
ghost use Rattle.plan_reader.specs.Drafts.{known_name, known_base, known_recipe, recipe_names, set_of, instruction_of};
ghost use Rattle.plan_reader.specs.RecipeNumbers.{AreFirstPlaces};
ghost use Rattle.plan_model.specs.Sound.{has_double};
ghost use Rattle.plan_reader.specs.Seen.{Marks};
ghost use Rattle.plan_reader.specs.LineErrors.{refusal_of_line};
ghost use Rattle.plan_reader.specs.View.{wording_of};

use crate::error::LineError;
use crate::form::Wording;
use deb_profile::{ProfileSet, strip_entry};
use deb_text::next_word;
use farm_universe::Universe;
use indexmap::IndexMap;
use plan_model::{Instruction, Members};
use std::alloc::{AllocError, Global};

/// The most names that are compared with each other.
const FEW: usize = 64;

/// A universe, and its recipes by their names.
#[derive(Clone, Copy)]
pub struct Names<'a> {
    pub universe: &'a Universe,
    pub recipes: &'a IndexMap<Vec<u8>, u32>,
    ghost listed: { AreFirstPlaces (recipe_names universe.now) recipes.now.entries },
}

/// The number of a package's name.
///
/// # Errors
///
/// [`UnknownName`](LineError::UnknownName).
#[tactic(auto, unfolding(crate::specs::Drafts::known_name))]
fn known_name(universe: &Universe, word: &[u8]) -> Result<u32, LineError>
    ensures value { Gives refusal_of_line (λ name. name) result (known_name universe.now word.now) }
    ensures known { IfOk result (λ name. name < names universe.now) }
{
    match universe.find(word) {
        Some(name) => Ok(name),
        None => Err(LineError::UnknownName),
    }
}

/// The number of the base chroot of a name.
///
/// # Errors
///
/// [`UnknownName`](LineError::UnknownName).
pub fn known_base(universe: &Universe, word: &[u8]) -> Result<u32, LineError>
    ensures { Gives refusal_of_line (λ base. base) result (known_base universe.now word.now) }
{
    for base in 0..universe.bases() {
        if word == universe.base(base).name() {
            return Ok(base);
        }
    }
    Err(LineError::UnknownName)
}

/// The number of a recipe's name.
///
/// # Errors
///
/// [`UnknownName`](LineError::UnknownName).
#[tactic(auto, unfolding(crate::specs::Drafts::known_recipe))]
fn known_recipe(names: Names<'_>, word: &[u8]) -> Result<u32, LineError>
    ensures { Gives refusal_of_line (λ recipe. recipe) result
        (known_recipe names.entry.universe.now word.now) }
{
    match names.recipes.get(word) {
        Some(recipe) => Ok(*recipe),
        None => Err(LineError::UnknownName),
    }
}

fn known_names(alloc: Global, universe: &Universe, text: &[u8]) -> Result<Vec<u32>, LineError>
    ensures value { Gives refusal_of_line (λ numbers. numbers.items) result
        (traverse (known_name universe.now) (words text.now)) }
    ensures known { IfOk result (λ numbers. All (λ n. n < names universe.now) numbers.items) }
{
    let mut numbers = Vec::new(alloc);
    let mut rest = text;
    while let Some((word, after)) = next_word(rest) {
        numbers.push(known_name(universe, word)?)?;
        rest = after;
    }
    Ok(numbers)
}

/// Tells whether a number stands twice, where `seen` is clear and has a place for each number.
fn finds_double(numbers: &[u32], seen: &mut [bool]) -> bool
    requires known { All (λ n. n < length seen.old) numbers.now }
    requires clear { Marks seen.old [] }
    ensures { result ≡ has_double numbers.now }
{
    for i in 0..numbers.len() {
        let number = numbers[i] as usize;
        if seen[number] {
            return true;
        }
        seen[number] = true;
    }
    false
}

fn is_among(numbers: &[u32], number: u32) -> bool
    ensures { result ≡ member numbers.now number }
{
    numbers.iter().any(|other| *other == number)
}

/// Tells whether a number stands twice, by comparing each with those behind it.
fn stands_twice(numbers: &[u32]) -> bool
    ensures { result ≡ has_double numbers.now }
{
    for i in 0..numbers.len() {
        if is_among(&numbers[i + 1..], numbers[i]) {
            return true;
        }
    }
    false
}

fn has_double(alloc: Global, numbers: &[u32], bound: u32) -> Result<bool, AllocError>
    requires { All (λ n. n < bound) numbers.now }
    ensures { IfOk result (λ answer. answer ≡ has_double numbers.now) }
{
    // most sets are small, and a mark for each name costs more than to compare them
    if numbers.len() <= FEW {
        return Ok(stands_twice(numbers));
    }
    let mut seen = vec![in alloc; false; bound as usize]?;
    Ok(finds_double(numbers, &mut seen))
}

/// The set of these names.
///
/// # Errors
///
/// [`UnknownName`](LineError::UnknownName) for one of them; [`NameTwice`](LineError::NameTwice).
/// 900 where memory ran out.
#[tactic(auto, unfolding(crate::specs::Drafts::set_of))]
fn read_set(alloc: Global, universe: &Universe, names: &[u8]) -> Result<Members, LineError>
    ensures { Gives refusal_of_line (λ members. members) result
        (set_of universe.now (words names.now)) }
{
    let members = known_names(alloc, universe, names)?;
    if has_double(alloc, &members, universe.names())? {
        return Err(LineError::NameTwice);
    }
    Ok(Members::new(members))
}

/// The instruction that a line says.
///
/// # Errors
///
/// [`UnknownName`](LineError::UnknownName) for a package or a recipe;
/// [`NameTwice`](LineError::NameTwice) in a set; or that memory ran out.
#[tactic(auto, unfolding(crate::specs::Drafts::instruction_of))]
pub fn read_instruction(
    alloc: Global,
    names: Names<'_>,
    wording: Wording<'_>,
) -> Result<Instruction, LineError>
    ensures { Gives refusal_of_line (λ instruction. instruction) result
        (instruction_of names.entry.universe.now (wording_of wording.entry)) }
{
    let universe = names.universe;
    match wording {
        Wording::Unpack { name, relation } => Ok(Instruction::Unpack {
            name: known_name(universe, &name)?,
            relation,
        }),
        Wording::Configure(words) => {
            Ok(Instruction::Configure(read_set(alloc, universe, words)?))
        }
        Wording::Deconfigure(words) => {
            Ok(Instruction::Deconfigure(read_set(alloc, universe, words)?))
        }
        Wording::Remove(words) => Ok(Instruction::Remove(read_set(alloc, universe, words)?)),
        Wording::Build(recipe) => Ok(Instruction::Build(known_recipe(names, recipe)?)),
        Wording::Publish(recipe) => Ok(Instruction::Publish(known_recipe(names, recipe)?)),
        Wording::Wait(entry) => {
            let none = ProfileSet::none(alloc);
            let left = strip_entry(alloc, entry, universe.arch_names(), &none)?;
            Ok(Instruction::Wait(left))
        }
        Wording::When { name, relation } => Ok(Instruction::When {
            name: known_name(universe, &name)?,
            relation,
        }),
        Wording::Else => Ok(Instruction::Otherwise),
    }
}
