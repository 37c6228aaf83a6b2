//! The digest of the lines of a journal.

ghost use Rattle.std.specs.Prelude.{◌≡◌, ◌++◌, IfOk, OnOk, is_some};
ghost use Rattle.std.specs.String.{string_bytes};
ghost use Rattle.deb_text.specs.Lines.{lines_of};
ghost use Rattle.deb_text.specs.Words.{text_of};
ghost use Rattle.drive_journal.specs.Entries.{unended};
ghost use Rattle.drive_replay.specs.Following.{end_by};
ghost use Rattle.leg_runs.specs.Legs as spec;

use deb_text::{next_line, push_pieces};
use drive_journal::{read_end, whole_part};
use sha2::{Digest, Sha256};
use std::alloc::{AllocError, Global};

/// Tells whether a line is the one that ends a journal: the last one.
fn is_end(line: &[u8], behind: &[u8]) -> bool
    ensures { result ≡ is_some (end_by (lines_of behind.now) line.now) }
{
    match next_line(behind) {
        Some(_) => false,
        None => read_end(line).is_some(),
    }
}

fn push_line(text: &mut Vec<u8>, line: &[u8]) -> Result<(), AllocError>
    ensures { OnOk result (text.new.items ≡ text.old.items ++ spec.with_end line.now) }
{
    push_pieces(text, &[line, b"\n"])
}

/// Puts the lines of a journal behind a text, but for the one that ends it.
#[tactic(auto, using(crate::proofs::SumLaws::sums))]
fn push_lines(text: &mut Vec<u8>, lines: &[u8]) -> Result<(), AllocError>
    ensures { OnOk result
        (text.new.items ≡ text.old.items ++ text_of (unended (lines_of lines.now))) }
{
    let mut rest = lines;
    while let Some((line, behind)) = next_line(rest) {
        if is_end(line, behind) {
            return Ok(());
        }
        push_line(text, line)?;
        rest = behind;
    }
    Ok(())
}

/// The SHA-256 digest of the whole lines of a journal, but for the one that ends it, as hex digits.
pub fn journal_sum(alloc: Global, journal: &[u8]) -> Result<String, AllocError>
    ensures { IfOk result (λ sum. string_bytes sum ≡ spec.journal_sum journal.now) }
{
    let mut text = Vec::new(alloc);
    push_lines(&mut text, whole_part(journal))?;
    hex::encode(alloc, Sha256::digest(text.as_slice()))
}
