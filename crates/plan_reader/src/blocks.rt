//! The blocks of a plan: their instructions, or the lines of these. A block that uses another keeps
//! the use, and no copy of what it stands for.

ghost use Rattle.std.specs.Prelude.{◌≡◌, ◌∷◌, ◌++◌, ◌<◌, [], false, length, option_to_list, IfOk, OnOk};
ghost use Rattle.std.specs.List.{list_any};
ghost use Rattle.std.specs.Str.{bytes_eq};
ghost use Rattle.deb_text.specs.Answers.{Gives};
ghost use Rattle.plan_reader.specs.BlockTable.{part_steps, turns, AreParts, AreRows, Closes, whole_named, write, write_use};
ghost use Rattle.plan_reader.specs.Drafts.{block_named};
ghost use Rattle.plan_reader.specs.LineErrors.{refusal_of_line};

use crate::copies::copy_instruction;
use crate::error::{LineError, MOST_INSTRUCTIONS};
use indexmap::IndexMap;
use plan_model::Instruction;
use std::alloc::{AllocError, Global};
use std::marker::Model;

/// What stands in blocks.
pub trait BlockStep: Drop {
    /// Gives a copy.
    fn copy(&self, alloc: Global) -> Result<Self, AllocError>
        ensures { IfOk result (λ copy. copy ≡ self.now) };
}

impl BlockStep for Instruction {
    fn copy(&self, alloc: Global) -> Result<Instruction, AllocError> {
        copy_instruction(alloc, self)
    }
}

/// The line of an instruction.
impl BlockStep for u32 {
    fn copy(&self, _alloc: Global) -> Result<u32, AllocError> {
        Ok(*self)
    }
}

/// A part of a block: a step by its place in `steps`, or a use of an earlier row.
#[derive(Clone, Copy)]
pub enum Part {
    Step(usize),
    Use(usize),
}

/// The parts of a block that has two at least, the last one first.
#[derive(Drop)]
pub struct Row {
    pub parts: Vec<Part>,
}

/// What a block stands for: one part, unless it has no step; and how many steps.
#[derive(Clone, Copy)]
pub struct Whole {
    pub part: Option<Part>,
    pub count: usize,
}

/// The blocks that have ended, and the open one.
#[derive(Drop)]
pub struct Blocks<T> {
    /// The steps that stand in blocks.
    steps: Vec<T>,
    rows: Vec<Row>,
    ended: IndexMap<Vec<u8>, Whole>,
    /// The parts of the open block, and how many steps they stand for.
    parts: Vec<Part>,
    count: usize,
}

impl<T> Model for Blocks<T> {
    ghost use Rattle.std.specs.Prelude.{map, reverse};
    ghost use Rattle.plan_reader.specs.BlockTable.{BlockList, block_of, part_steps, IsTable};

    ghost Value = { BlockList T };

    ghost view = { λ it. record {
      ended = map (block_of it.steps.items it.rows.items) it.ended.entries;
      written = part_steps it.steps.items it.rows.items (reverse it.parts.items);
    } };

    ghost invariant = { λ it.
        IsTable it.steps.items it.rows.items it.ended.entries it.parts.items it.count };
}

fn push_part(parts: &mut Vec<Part>, part: Option<Part>) -> Result<(), AllocError>
    ensures { OnOk result (parts.new.items ≡ parts.old.items ++ option_to_list part) }
{
    if let Some(part) = part {
        parts.push(part)?;
    }
    Ok(())
}

/// Takes one part from those that are left: a step goes out, a row is opened.
fn take_turn<T: BlockStep>(
    alloc: Global,
    steps: &[T],
    rows: &[Row],
    left: &mut Vec<Part>,
    next: Part,
    out: &mut Vec<T>,
) -> Result<(), AllocError>
    requires table { AreRows (length steps.now) 0 rows.now }
    requires known { AreParts (length steps.now) (length rows.now) (left.now.items ++ next ∷ []) }
    ensures same { OnOk result (out.new.items ++ part_steps steps.now rows.now left.new.items
        ≡ out.old.items ++ part_steps steps.now rows.now (left.old.items ++ next ∷ [])) }
    ensures less { OnOk result (turns rows.now left.new.items
        < turns rows.now (left.old.items ++ next ∷ [])) }
    ensures known { OnOk result (AreParts (length steps.now) (length rows.now) left.new.items) }
{
    match next {
        Part::Step(i) => out.push(steps[i].copy(alloc)?)?,
        Part::Use(b) => left.extend_from_slice(&rows[b].parts)?,
    }
    Ok(())
}

/// The steps that a part stands for, none where there is no part.
fn open_part<T: BlockStep>(
    alloc: Global,
    steps: &[T],
    rows: &[Row],
    part: Option<Part>,
) -> Result<Vec<T>, AllocError>
    requires table { AreRows (length steps.now) 0 rows.now }
    requires known { AreParts (length steps.now) (length rows.now) (option_to_list part) }
    ensures { IfOk result (λ out. out.items ≡ part_steps steps.now rows.now
        (option_to_list part)) }
{
    let mut out = Vec::new(alloc);
    let mut left = Vec::new(alloc);
    push_part(&mut left, part)?;
    while let Some(next) = left.pop() {
        take_turn(alloc, steps, rows, &mut left, next, &mut out)?;
    }
    Ok(out)
}

fn find(ended: &IndexMap<Vec<u8>, Whole>, name: &[u8]) -> Result<Whole, LineError>
    ensures { Gives refusal_of_line (λ whole. whole) result
        (whole_named ended.now.entries name.now) }
{
    match ended.get(name) {
        Some(whole) => Ok(*whole),
        None => Err(LineError::UnknownBlock),
    }
}

/// Makes one part of the parts of a block, and a row where there are two at least.
fn close(rows: &mut Vec<Row>, mut parts: Vec<Part>) -> Result<Option<Part>, AllocError>
    ensures { IfOk result (λ part. Closes rows.old.items parts.items rows.new.items part) }
{
    match parts.len() {
        0 => Ok(None),
        1 => Ok(Some(parts[0])),
        _ => {
            let place = rows.len();
            parts.reverse();
            rows.push(Row { parts })?;
            Ok(Some(Part::Use(place)))
        }
    }
}

impl<T: BlockStep> Blocks<T> {
    /// No block.
    pub fn new(alloc: Global) -> Blocks<T>
        ensures { result ≡ record { ended = []; written = [] } }
    {
        Blocks {
            steps: Vec::new(alloc),
            rows: Vec::new(alloc),
            ended: IndexMap::new(alloc),
            parts: Vec::new(alloc),
            count: 0,
        }
    }

    /// Tells whether a block of this name has ended.
    pub fn has(&self, name: &[u8]) -> bool
        ensures { result ≡ list_any (λ b. bytes_eq name.now b.name) self.now.ended }
    {
        self.ended.contains_key(name)
    }

    /// Puts a step into the open block.
    ///
    /// # Errors
    ///
    /// [`OverLimit`](LineError::OverLimit), or that memory ran out.
    pub fn add(self, step: T) -> Result<Blocks<T>, LineError>
        ensures { Gives refusal_of_line (λ next. next) result (write self (step ∷ [])) }
    {
        let Blocks {
            mut steps,
            rows,
            ended,
            mut parts,
            count,
        } = self;
        if count >= MOST_INSTRUCTIONS {
            return Err(LineError::OverLimit);
        }
        parts.push(Part::Step(steps.len()))?;
        steps.push(step)?;
        Ok(Blocks {
            steps,
            rows,
            ended,
            parts,
            count: count + 1,
        })
    }

    /// Puts what a block stands for into the open one, as a use.
    ///
    /// # Errors
    ///
    /// [`UnknownBlock`](LineError::UnknownBlock), [`OverLimit`](LineError::OverLimit), or that
    /// memory ran out.
    pub fn add_use(self, name: &[u8]) -> Result<Blocks<T>, LineError>
        ensures { Gives refusal_of_line (λ next. next) result (write_use self name.now) }
    {
        let Blocks {
            steps,
            rows,
            ended,
            mut parts,
            count,
        } = self;
        let whole = find(&ended, name)?;
        if whole.count > MOST_INSTRUCTIONS - count {
            return Err(LineError::OverLimit);
        }
        push_part(&mut parts, whole.part)?;
        Ok(Blocks {
            steps,
            rows,
            ended,
            parts,
            count: count + whole.count,
        })
    }

    /// Ends the open block, whose name is new.
    pub fn end(self, alloc: Global, name: Vec<u8>) -> Result<Blocks<T>, AllocError>
        requires { list_any (λ b. bytes_eq name.items b.name) self.ended ≡ false }
        ensures { IfOk result (λ next. next ≡ record {
          ended = self.ended ++ record { name = name.items; body = self.written } ∷ [];
          written = [];
        }) }
    {
        let Blocks {
            steps,
            mut rows,
            mut ended,
            parts,
            count,
        } = self;
        let part = close(&mut rows, parts)?;
        ended.insert(name, Whole { part, count })?;
        Ok(Blocks {
            steps,
            rows,
            ended,
            parts: Vec::new(alloc),
            count: 0,
        })
    }

    /// What stands in a block that has ended.
    ///
    /// # Errors
    ///
    /// [`UnknownBlock`](LineError::UnknownBlock), or that memory ran out.
    pub fn body(&self, alloc: Global, name: &[u8]) -> Result<Vec<T>, LineError>
        ensures { Gives refusal_of_line (λ xs. xs.items) result
            (block_named self.now.ended name.now) }
    {
        let whole = find(&self.ended, name)?;
        Ok(open_part(alloc, &self.steps, &self.rows, whole.part)?)
    }
}
