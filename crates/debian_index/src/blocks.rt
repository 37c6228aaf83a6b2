//! Blocks of lines, and whether one can be read.

ghost use Rattle.std.specs.Prelude.{◌≡◌, ◌+◌, ◌-◌, ◌<◌, ◌≤◌, ◌^◌, length, IfOk, if◌then◌else◌};
ghost use Rattle.deb_text.specs.Common.{Gives, fault_at, is_memory, refusal_of, control_lines, lines_of};
ghost use Rattle.deb_stanza.specs.Stanza.{paragraphs_of};
ghost use Rattle.debian_index.specs.Index.{IsBlock, block_at, bytes_in, later};

use deb_stanza::{MOST_BYTES, Paragraphs, TEXT_TOO_LONG};
use deb_text::Fault;
use std::alloc::Global;

/// Where a block of lines stands in its text, in bytes, and the number of its first line.
#[derive(Clone, Copy)]
pub struct Block {
    pub start: usize,
    pub size: usize,
    pub number: u32,
}

impl Block {
    /// The bytes of the block.
    pub fn bytes<'a>(&self, text: &'a [u8]) -> &'a [u8]
        requires { IsBlock text.now self.now }
        ensures { result.now ≡ bytes_in text.now self.now }
    {
        &text[self.start..self.start + self.size]
    }
}

/// A fault of a block, told in the text.
fn told_from(number: u32, fault: Fault) -> Fault
    requires some { 0 < number }
    requires room { number + fault.line < 2 ^ 32 }
    ensures { result ≡ (if is_memory fault then fault
        else fault_at fault.file (fault.line + (number - 1)) fault.code) }
{
    if fault == Fault::MEMORY {
        return fault;
    }
    Fault {
        line: fault.line + (number - 1),
        ..fault
    }
}

/// Reads the paragraphs of a block whose first line has this number. The paragraphs themselves
/// count their lines from 1.
///
/// # Errors
///
/// [`TEXT_TOO_LONG`] at its first line, where the block has more than [`MOST_BYTES`] bytes; else
/// those of [`Paragraphs::read`], told in the text.
pub fn read_block(alloc: Global, number: u32, block: &[u8]) -> Result<Paragraphs, Fault>
    requires some { 0 < number }
    requires room { number + length (lines_of block.now) < 2 ^ 32 }
    ensures read { Gives refusal_of (λ _. paragraphs_of (control_lines number block.now)) result
        (block_at number block.now) }
    ensures lines { IfOk result (λ paragraphs. later (number - 1) paragraphs
        ≡ paragraphs_of (control_lines number block.now)) }
{
    if block.len() > MOST_BYTES {
        return Err(Fault {
            file: 0,
            line: number,
            code: TEXT_TOO_LONG,
        });
    }
    match Paragraphs::read(alloc, block) {
        Ok(paragraphs) => Ok(paragraphs),
        Err(fault) => Err(told_from(number, fault)),
    }
}

/// Tells whether a block can be read.
///
/// # Errors
///
/// Those of [`read_block`].
pub fn judge_block(alloc: Global, number: u32, block: &[u8]) -> Result<(), Fault>
    requires some { 0 < number }
    requires room { number + length (lines_of block.now) < 2 ^ 32 }
    ensures { Gives refusal_of (λ _. paragraphs_of (control_lines number block.now)) result
        (block_at number block.now) }
{
    match read_block(alloc, number, block) {
        Ok(_) => Ok(()),
        Err(fault) => Err(fault),
    }
}
