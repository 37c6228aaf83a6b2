//! All blocks of an index.

ghost use Rattle.std.specs.Prelude.{◌≡◌, ◌≤◌, ◌⊎◌, length, IfOk, IfErr, Ok};
ghost use Rattle.std.specs.List.{flat_map};
ghost use Rattle.deb_text.specs.Answers.{Fails, refusal_of};
ghost use Rattle.debian_index.specs.Index.{AreBlocks, AreSingle, IsTooLong, paragraphs_from, paragraphs_in};

use crate::blocks::{Block, judge_block};
use crate::rows::{row_size, rows_to_blank};
use deb_stanza::TEXT_TOO_LONG;
use deb_text::Fault;
use std::alloc::Global;

/// The most bytes that an index has.
pub const MOST_INDEX_BYTES: usize = 1_073_741_824;

/// Puts the blocks of a text in order, each once it was read.
fn cut_blocks(alloc: Global, text: &[u8]) -> Result<Vec<Block>, Fault>
    requires { length text.now ≤ MOST_INDEX_BYTES }
    ensures read { IfOk result (λ blocks.
        paragraphs_from 1 text.now ≡ Ok (flat_map (paragraphs_in text.now) blocks.items)) }
    ensures within { IfOk result (λ blocks. AreBlocks text.now blocks.items) }
    ensures single { IfOk result (λ blocks. AreSingle text.now blocks.items) }
    ensures refused { IfErr result (λ e.
        Fails refusal_of e (paragraphs_from 1 text.now) ⊎ IsTooLong text.now e) }
{
    let mut blocks = Vec::new(alloc);
    let mut start = 0;
    let mut number = 1;
    while start < text.len() {
        let rest = &text[start..];
        let rows = rows_to_blank(rest, 0);
        if rows.size == 0 {
            start += row_size(rest);
            number += 1;
        } else {
            if let Err(fault) = judge_block(alloc, number, &rest[..rows.size]) {
                return Err(fault);
            }
            blocks.push(Block {
                start,
                size: rows.size,
                number,
            })?;
            start += rows.size;
            number += rows.lines;
        }
    }
    Ok(blocks)
}

/// The blocks of an index that are its paragraphs: lines between blank lines. Each was read, as
/// Debian Policy 5.1 has paragraphs, and is one; a block of comments alone is none.
///
/// # Errors
///
/// The fault has file 0. [`TEXT_TOO_LONG`] at line 0, where the index has more than
/// [`MOST_INDEX_BYTES`] bytes. Then the first fault of those that
/// [`Paragraphs::read`](deb_stanza::Paragraphs::read) tells of texts, at its line; and
/// [`TEXT_TOO_LONG`] at the first line of a block that is longer than texts may be.
pub fn cut_index(alloc: Global, text: &[u8]) -> Result<Vec<Block>, Fault>
    ensures read { IfOk result (λ blocks.
        paragraphs_from 1 text.now ≡ Ok (flat_map (paragraphs_in text.now) blocks.items)) }
    ensures within { IfOk result (λ blocks. AreBlocks text.now blocks.items) }
    ensures single { IfOk result (λ blocks. AreSingle text.now blocks.items) }
    ensures refused { IfErr result (λ e.
        Fails refusal_of e (paragraphs_from 1 text.now) ⊎ IsTooLong text.now e) }
{
    if text.len() > MOST_INDEX_BYTES {
        return Err(Fault {
            file: 0,
            line: 0,
            code: TEXT_TOO_LONG,
        });
    }
    cut_blocks(alloc, text)
}
