//! Texts cut in two, or at their ends.

ghost use Rattle.std.specs.Prelude.{◌≡◌, ◌+◌, ◌<◌, ◌≤◌, ◌∷◌, true, false, length, IfSome, IfNone};
ghost use Rattle.std.specs.List.{list_any, prefix_len, slice_split};
ghost use Rattle.std.specs.Option.{option_map};
ghost use Rattle.memchr.specs.Find.{IsFirstByte};
ghost use Rattle.deb_text.specs.Bytes.{is_byte};
ghost use Rattle.deb_text.specs.Classes.{in_class};
ghost use Rattle.deb_text.specs.Cuts.{before, after, before_last, after_last, front, behind, length_left, parts_left, trimmed, without_end};

use crate::classes::{Class, has};
use memchr::{memchr, memrchr};

/// A text of fewer bytes is searched byte by byte.
const MANY: usize = 32;

/// Cuts a text at the first such byte: gives what stands before it and what stands after it.
pub fn cut_at_first(byte: u8, text: &[u8]) -> Option<(&[u8], &[u8])>
    ensures none { IfNone result (list_any (is_byte byte) text.now ≡ false) }
    ensures found { IfSome result (λ cut. list_any (is_byte byte) text.now ≡ true) }
    ensures before { IfSome result (λ cut. cut.0.now ≡ before (is_byte byte) text.now) }
    ensures after { IfSome result (λ cut. cut.1.now ≡ after (is_byte byte) text.now) }
    ensures shorter { IfSome result (λ cut. length cut.1.now < length text.now) }
{
    let at = first_place(byte, text)?;
    Some((&text[..at], &text[at + 1..]))
}

/// The place of the first such byte.
fn first_place(byte: u8, text: &[u8]) -> Option<usize>
    ensures { IsFirstByte (is_byte byte) text.now result }
{
    if text.len() < MANY {
        first_place_by_bytes(byte, text)
    } else {
        memchr(byte, text)
    }
}

fn first_place_by_bytes(byte: u8, text: &[u8]) -> Option<usize>
    ensures { IsFirstByte (is_byte byte) text.now result }
{
    for (place, b) in text.iter().enumerate() {
        if *b == byte {
            return Some(place);
        }
    }
    None
}

/// Cuts a text at the last such byte: gives what stands before it and what stands after it.
pub fn cut_at_last(byte: u8, text: &[u8]) -> Option<(&[u8], &[u8])>
    ensures none { IfNone result (list_any (is_byte byte) text.now ≡ false) }
    ensures found { IfSome result (λ cut. list_any (is_byte byte) text.now ≡ true) }
    ensures before { IfSome result (λ cut. cut.0.now ≡ before_last (is_byte byte) text.now) }
    ensures after { IfSome result (λ cut. cut.1.now ≡ after_last (is_byte byte) text.now) }
{
    let at = memrchr(byte, text)?;
    Some((&text[..at], &text[at + 1..]))
}

fn front_len(class: Class, text: &[u8]) -> usize
    ensures value { result ≡ prefix_len (in_class class) text.now }
    ensures bound { result ≤ length text.now }
{
    text.iter().take_while(|b| has(class, **b)).count()
}

/// Splits a text behind its longest front of a class.
#[tactic(auto, using(crate::proofs::CutLaws::front_take, crate::proofs::CutLaws::behind_drop))]
pub fn split_front(class: Class, text: &[u8]) -> (&[u8], &[u8])
    ensures front { result.0.now ≡ front (in_class class) text.now }
    ensures rest { result.1.now ≡ behind (in_class class) text.now }
{
    text.split_at(front_len(class, text))
}

/// Gives what stands behind the longest front of a class.
pub fn skip_front(class: Class, text: &[u8]) -> &[u8]
    ensures { result.now ≡ behind (in_class class) text.now }
{
    split_front(class, text).1
}

/// Takes the spaces, tabs and newlines off both ends of a text.
pub fn trim(text: &[u8]) -> &[u8]
    ensures { result.now ≡ trimmed text.now }
{
    skip_end(Class::Blank, skip_front(Class::Blank, text))
}

fn skip_end(class: Class, text: &[u8]) -> &[u8]
    ensures { result.now ≡ without_end (in_class class) text.now }
{
    let mut rest = text;
    while let [others @ .., last] = rest {
        if !has(class, *last) {
            return rest;
        }
        rest = others;
    }
    rest
}

/// Takes the first part of a text that is cut at each such byte, and gives what is left, if
/// anything is.
pub fn next_part(byte: u8, text: &[u8]) -> (&[u8], Option<&[u8]>)
    ensures parts { slice_split (is_byte byte) text.now
        ≡ result.0.now ∷ parts_left (is_byte byte) (option_map (λ rest. rest.now) result.1) }
    ensures shorter { length_left (option_map (λ rest. rest.now) result.1) ≤ length text.now }
{
    match cut_at_first(byte, text) {
        Some((part, rest)) => (part, Some(rest)),
        None => (text, None),
    }
}
