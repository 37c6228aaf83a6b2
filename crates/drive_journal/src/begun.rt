//! What the text of a journal is to a run.

ghost use Rattle.std.specs.Prelude.{◌≡◌};
ghost use Rattle.std.specs.List.{list_all};
ghost use Rattle.deb_text.specs.Common.{is_byte, lines_of, words};
ghost use Rattle.deb_text.specs.Cuts.{without_end};
ghost use Rattle.drive_journal.specs.Finding.{finding_in};
ghost use Rattle.drive_journal.specs.HeadText as spec;
ghost use Rattle.drive_journal.specs.HeadText.{finding, first_other, run_by, run_in};

use crate::whole_part;
use deb_text::{next_line, next_word};

/// What the text of a journal is to a run of four texts.
#[derive(Clone, Copy)]
pub enum Found<'t> {
    /// Nothing was asked by then: the journal is to be begun.
    Fresh,
    /// It is of this run, and these are its entries: whole lines.
    Known { run: &'t [u8], entries: &'t [u8] },
    /// This line of it does not fit, the first being 1: another text, or no journal.
    Misfit(u64),
}

/// The first line of a text that is another one than in the head.
fn first_other(text: &[u8], head: &[u8]) -> u64
    ensures { result ≡ first_other 1 (lines_of text.now) (lines_of head.now) }
{
    let (mut text, mut head) = (text, head);
    let mut number = 1;
    while let Some((line, behind)) = next_line(text) {
        let Some((wanted, more)) = next_line(head) else {
            return number;
        };
        if line != wanted {
            return number;
        }
        (text, head) = (behind, more);
        number += 1;
    }
    number
}

fn is_hex_byte(byte: u8) -> bool
    ensures { result ≡ spec.is_hex_byte byte }
{
    matches!(byte, b'0'..=b'9' | b'a'..=b'f')
}

fn is_hex(word: &[u8]) -> bool
    ensures { result ≡ list_all spec.is_hex_byte word.now }
{
    word.iter().all(|byte| is_hex_byte(*byte))
}

/// Tells whether a word can be the stamp of a run.
fn is_stamp(word: &[u8]) -> bool
    ensures { result ≡ spec.is_stamp word.now }
{
    word.len() == 16 && is_hex(word)
}

/// The run that a line names, ahead of these entries.
fn run_by<'t>(line: &'t [u8], entries: &'t [u8]) -> Found<'t>
    ensures { finding_in result ≡ run_by (lines_of entries.now) (words line.now) }
{
    let Some((verb, rest)) = next_word(line) else {
        return Found::Misfit(6);
    };
    let Some((run, rest)) = next_word(rest) else {
        return Found::Misfit(6);
    };
    if verb == b"run".as_slice() && is_stamp(run) && next_word(rest).is_none() {
        return Found::Known { run, entries };
    }
    Found::Misfit(6)
}

fn behind_head(text: &[u8]) -> Found<'_>
    ensures { finding_in result ≡ run_in (lines_of text.now) }
{
    match next_line(text) {
        Some((line, entries)) => run_by(line, entries),
        None => Found::Fresh,
    }
}

fn without_zeros(text: &[u8]) -> &[u8]
    ensures { result.now ≡ without_end (is_byte 0) text.now }
{
    let mut rest = text;
    while let [others @ .., last] = rest {
        if *last != 0 {
            return rest;
        }
        rest = others;
    }
    rest
}

/// Tells whether a text was torn within this head. A machine that goes down may leave zeros in
/// place of what was written last.
fn is_torn(head: &[u8], text: &[u8]) -> bool
    ensures { result ≡ spec.is_torn head.now text.now }
{
    head.starts_with(without_zeros(text))
}

/// Tells what the text of a journal is to a run whose journals have this head. What was torn within
/// the head, or within the line of the run, was not told to anybody.
#[tactic(auto, unfolding(crate::specs::HeadText::finding))]
pub fn find<'t>(head: &[u8], text: &'t [u8]) -> Found<'t>
    ensures { finding_in result ≡ finding head.now text.now }
{
    let whole = whole_part(text);
    if whole.starts_with(head) {
        return behind_head(&whole[head.len()..]);
    }
    if is_torn(head, text) {
        return Found::Fresh;
    }
    Found::Misfit(first_other(text, head))
}
