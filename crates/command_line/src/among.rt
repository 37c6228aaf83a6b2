//! What stands among the words.

ghost use Rattle.std.specs.Prelude.{◌≡◌, ◌==◌, map, true};
ghost use Rattle.std.specs.List.{ends_with, list_all, list_any};
ghost use Rattle.std.specs.Str.{bytes_eq};
ghost use Rattle.command_line.specs.Words.{AreFarmWords, ArePathWords, EndsWord, IsWord};

use crate::request::{FarmPaths, Paths};
use std::convert::AsStr;

/// Tells whether a word is this text.
pub fn is_word<S: AsStr>(words: &[S], text: &str) -> bool
    ensures { result ≡ list_any (λ word. bytes_eq (S.text word) text.now) words.now }
{
    words.iter().any(|word| word.as_str() == text)
}

/// Tells whether a word ends with this text.
pub fn ends_word<S: AsStr>(words: &[S], text: &str) -> bool
    ensures { result ≡ list_any (λ word. ends_with (λ a b. a == b) (S.text word) text.now)
        words.now }
{
    words
        .iter()
        .any(|word| word.as_str().as_bytes().ends_with(text.as_bytes()))
}

/// Tells whether each of these texts ends a word.
pub fn end_words<S: AsStr>(words: &[S], texts: &[&str]) -> bool
    ensures { result ≡ list_all (λ text. list_any
        (λ word. ends_with (λ a b. a == b) (S.text word) text.now) words.now) texts.now }
{
    texts.iter().all(|text| ends_word(words, text))
}

/// Tells whether the names of the four files are words.
pub fn are_words<S: AsStr>(words: &[S], paths: Paths<'_>) -> bool
    ensures { result ≡ true → ArePathWords (map S.text words.now) paths.entry }
{
    if !is_word(words, paths.packages) {
        return false;
    }
    if !is_word(words, paths.sources) {
        return false;
    }
    if !is_word(words, paths.farm) {
        return false;
    }
    is_word(words, paths.plan)
}

/// Tells whether the names of the three files are words.
pub fn are_farm_words<S: AsStr>(words: &[S], paths: FarmPaths<'_>) -> bool
    ensures { result ≡ true → AreFarmWords (map S.text words.now) paths.entry }
{
    if !is_word(words, paths.packages) {
        return false;
    }
    if !is_word(words, paths.sources) {
        return false;
    }
    is_word(words, paths.farm)
}
