//! How a line of a journal is read.

ghost use Rattle.std.specs.Prelude.{◌≡◌, []};
ghost use Rattle.std.specs.Option.{option_map};
ghost use Rattle.deb_text.specs.Words.{words};
ghost use Rattle.drive_journal.specs.Entries.{branch_by, note_by, noted_of};
ghost use Rattle.drive_journal.specs.Said.{note_in, noted_in};

use crate::entry::{Entry, Said};
use deb_text::{next_word, read_number};

fn read_bare(verb: &[u8]) -> Option<Said<'_>>
    ensures { option_map note_in result ≡ note_by verb.now [] }
{
    if verb == b"ask".as_slice() {
        return Some(Said::Asked);
    }
    if verb == b"done".as_slice() {
        return Some(Said::Done);
    }
    if verb == b"failed".as_slice() {
        return Some(Said::Failed);
    }
    if verb == b"again".as_slice() {
        return Some(Said::AskedAgain);
    }
    None
}

fn read_branch(word: &[u8]) -> Option<Said<'_>>
    ensures { option_map note_in result ≡ branch_by word.now }
{
    if word == b"first".as_slice() {
        return Some(Said::Branched(true));
    }
    if word == b"second".as_slice() {
        return Some(Said::Branched(false));
    }
    None
}

/// What a verb says with what stands behind the number.
fn read_said<'t>(verb: &'t [u8], text: &'t [u8]) -> Option<Said<'t>>
    ensures { option_map note_in result ≡ note_by verb.now (words text.now) }
{
    let Some((name, text)) = next_word(text) else {
        return read_bare(verb);
    };
    let Some((version, text)) = next_word(text) else {
        if verb == b"branch".as_slice() {
            return read_branch(name);
        }
        return None;
    };
    if next_word(text).is_none() && verb == b"pick".as_slice() {
        return Some(Said::Picked { name, version });
    }
    None
}

/// Reads a line as an entry, if it is one: words between blanks, the number as 1 to 15 digits.
#[tactic(auto, unfolding(crate::specs::Entries::noted_of))]
pub fn read_entry(line: &[u8]) -> Option<Entry<'_>>
    ensures { option_map noted_in result ≡ noted_of line.now }
{
    let (verb, text) = next_word(line)?;
    let (lane, text) = next_word(text)?;
    let (number, text) = next_word(text)?;
    let number = read_number(number)?;
    let said = read_said(verb, text)?;
    Some(Entry { lane, number, said })
}
