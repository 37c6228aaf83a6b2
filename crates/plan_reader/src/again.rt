//! Lines of a plan that come again, as most do.

ghost use Rattle.std.specs.Prelude.{◌≡◌, ◌+◌, ◌<◌, ◌≤◌, [], length, drop, get_or, Ok, IfSome};
ghost use Rattle.deb_text.specs.Answers.{Gives};
ghost use Rattle.farm_model.specs.Universe.{Universe};
ghost use Rattle.plan_reader.specs.LineErrors.{refusal_of_line};
ghost use Rattle.plan_reader.specs.Parts.{AreSaidByLines, Says};
ghost use Rattle.plan_reader.specs.Said.{InstructionSaid, said_at};
ghost use Rattle.plan_reader.specs.View.{said_of};

use crate::copies::copy_instruction;
use crate::error::LineError;
use crate::names::Names;
use crate::said::{LineRead, Said, Standing, read_line};
use crate::same::is_same;
use deb_stanza::Lines;
use plan_model::Instruction;
use std::alloc::{AllocError, Global};
use std::mem;

/// How many slots there are, by the hash of a line.
const SLOTS: usize = 16_384;

/// How many bytes at the end of a line its hash is made of.
const HASHED: usize = 16;

/// What the hash is multiplied by, an odd number whose bits are mixed.
const FACTOR: u64 = 0x9e37_79b9_7f4a_7c15;

/// Where a line stood that may be the same as one that comes: the last one of its hash.
#[derive(Drop)]
pub struct Earlier {
    slots: Vec<usize>,
}

/// The slot of a line.
fn slot_of(line: &[u8]) -> usize {
    let mut hash = line.len() as u64;
    for byte in &line[line.len().saturating_sub(HASHED)..] {
        hash = (hash ^ *byte as u64).wrapping_mul(FACTOR);
    }
    (hash >> 32) as usize % SLOTS
}

impl Earlier {
    /// No line so far.
    pub fn new(alloc: Global) -> Result<Earlier, AllocError> {
        Ok(Earlier {
            slots: vec![in alloc; 0; SLOTS]?,
        })
    }

    /// Notes the place of a line, and gives a place where the same line may have stood.
    fn replace(&mut self, line: &[u8], place: usize) -> usize {
        let slot = slot_of(line);
        if slot >= self.slots.len() {
            return place;
        }
        mem::replace(&mut self.slots[slot], place)
    }
}

/// The instruction that a line says, where the one at a place of the part is the same line.
fn known_at<'a>(
    lines: &Lines<'_>,
    first: usize,
    read: &'a [LineRead<'_>],
    place: usize,
    line: &[u8],
) -> Option<(Standing, &'a Instruction)>
    requires { first + length read.now ≤ length lines.now }
    ensures { (u : Universe) → AreSaidByLines u (drop first lines.now) read.now → IfSome result
        (λ known. said_at u line.now ≡ Ok (InstructionSaid known.0 (Ok known.1.now))) }
{
    let _lines = lines.count();
    if place >= read.len() || !is_same(lines.line(first + place), line) {
        return None;
    }
    match &read[place] {
        Ok(Said::Instruction(standing, Ok(instruction))) => Some((*standing, instruction)),
        _ => None,
    }
}

/// What a line says, of which this is known.
fn said_again<'a>(alloc: Global, standing: Standing, instruction: &Instruction) -> LineRead<'a>
    ensures { Gives refusal_of_line said_of result
        (Ok (InstructionSaid standing (Ok instruction.now))) }
{
    match copy_instruction(alloc, instruction) {
        Ok(copy) => Ok(Said::Instruction(standing, Ok(copy))),
        Err(_) => Err(LineError::Memory),
    }
}

/// What the line behind those of a part says that are read.
pub fn read_next<'t>(
    alloc: Global,
    names: Names<'_>,
    lines: &Lines<'t>,
    first: usize,
    read: &[LineRead<'t>],
    earlier: &mut Earlier,
) -> LineRead<'t>
    requires within { first + length read.now < length lines.now }
    requires said { AreSaidByLines names.universe.now (drop first lines.now) read.now }
    ensures { Says names.entry.universe.now (get_or lines.now (first + length read.now) (0, []))
        result }
{
    let _lines = lines.count();
    let line = lines.line(first + read.len());
    let place = earlier.replace(line, read.len());
    match known_at(lines, first, read, place, line) {
        Some((standing, instruction)) => said_again(alloc, standing, instruction),
        None => read_line(alloc, names, line),
    }
}
