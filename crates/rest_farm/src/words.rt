//! What words say of recipes, and which of them are refused.

ghost use Rattle.std.specs.Prelude.{◌≡◌, IfNone, IfSome};
ghost use Rattle.rest_farm.specs.Words as spec;

use crate::names::{Name, Names};

/// What a word says of a recipe.
#[derive(Clone, Copy, Debug, PartialEq, Eq)]
pub enum RecipeWord {
    /// `--without`: it is given up.
    Without,
    /// `--again`: it is wanted anew.
    Again,
    /// `--built`: it is built.
    Built,
}

/// A word, and the recipe that it names.
#[derive(Drop)]
pub struct SaidWord {
    pub word: RecipeWord,
    pub name: Name,
}

/// Why a word on a recipe is refused (722).
#[derive(Clone, Copy, Debug, PartialEq, Eq)]
pub enum WordFault {
    /// The farm has no such recipe.
    NoRecipe,
    /// It is published, and the word does not want it anew.
    Published,
    /// Two words say two things of it.
    Two,
    /// It is wanted anew, and nothing says how it is built.
    Bare,
}

/// A word that is refused, by its place among the words, and why.
#[derive(Clone, Copy, Debug, PartialEq, Eq)]
pub struct RefusedWord {
    pub place: usize,
    pub fault: WordFault,
}

/// What words are judged by: names of recipes that the farm has, of those that it has with
/// `Mode: built`, and of those that were published; and those that words give up, want anew and say
/// to be built.
#[derive(Clone, Copy)]
pub struct WordRules<'a> {
    pub recipes: &'a Names,
    pub bare: &'a Names,
    pub published: &'a Names,
    pub given_up: &'a Names,
    pub wanted_anew: &'a Names,
    pub said_built: &'a Names,
}

fn wants_anew(word: RecipeWord) -> bool
    ensures { result ≡ spec.wants_anew word }
{
    matches!(word, RecipeWord::Again)
}

/// Tells whether two of three are true.
fn are_two(a: bool, b: bool, c: bool) -> bool
    ensures { result ≡ spec.are_two a b c }
{
    (a && b) || (a && c) || (b && c)
}

/// Tells whether two words say two things of a recipe.
fn says_two(rules: WordRules<'_>, name: &[u8]) -> bool
    ensures { result ≡ spec.says_two rules.entry name.now }
{
    let given_up = rules.given_up.has(name);
    let wanted_anew = rules.wanted_anew.has(name);
    let said_built = rules.said_built.has(name);
    are_two(given_up, wanted_anew, said_built)
}

/// Why a word is refused that the farm has the recipe of.
fn known_fault(rules: WordRules<'_>, word: RecipeWord, name: &[u8]) -> Option<WordFault>
    ensures { result ≡ spec.known_fault rules.entry word name.now }
{
    if !wants_anew(word) && rules.published.has(name) {
        return Some(WordFault::Published);
    }
    if says_two(rules, name) {
        return Some(WordFault::Two);
    }
    if wants_anew(word) && rules.bare.has(name) {
        return Some(WordFault::Bare);
    }
    None
}

/// Why a word on a recipe is refused, if it is.
fn word_fault(rules: WordRules<'_>, said: &SaidWord) -> Option<WordFault>
    ensures { result ≡ spec.fault_of rules.entry said.now }
{
    let name = said.name.bytes();
    if !rules.recipes.has(name) {
        return Some(WordFault::NoRecipe);
    }
    known_fault(rules, said.word, name)
}

/// The first of some words that is refused (722), and why.
pub fn first_fault(rules: WordRules<'_>, words: &[SaidWord]) -> Option<RefusedWord>
    ensures fine { IfNone result (spec.AreFine rules.entry words.now) }
    ensures refused { IfSome result (spec.IsFirstFault rules.entry words.now) }
{
    for place in 0..words.len() {
        match word_fault(rules, &words[place]) {
            Some(fault) => return Some(RefusedWord { place, fault }),
            None => {}
        }
    }
    None
}
