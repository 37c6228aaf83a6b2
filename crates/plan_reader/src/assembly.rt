//! What the lines of a plan say so far.

ghost use Rattle.std.specs.Prelude.{◌≡◌, ◌∷◌, ◌++◌, ◌+◌, ◌≤◌, [], true, false, length, IfOk, OnOk};
ghost use Rattle.std.specs.List.{list_any};
ghost use Rattle.std.specs.Str.{bytes_eq};
ghost use Rattle.deb_text.specs.Answers.{Gives, refusal_of};
ghost use Rattle.plan_reader.specs.BlockTable.{write};
ghost use Rattle.plan_reader.specs.Drafts.{empty, is_open, all_lanes, noted, published_once, with_instructions};
ghost use Rattle.plan_model.specs.Common.{published_by, count, has_double};
ghost use Rattle.plan_reader.specs.Drafts.{open_block, open_lane, end_open, published as recipes_of, add_to_open, add_use};
ghost use Rattle.plan_reader.specs.Ends.{finished, IsWithinLimits};
ghost use Rattle.plan_reader.specs.LineErrors.{refusal_of_line};
ghost use Rattle.plan_reader.specs.SectionView.{put_in};
ghost use Rattle.plan_reader.specs.View.{side_of};

use crate::blocks::Blocks;
use crate::error::{FILE, LineError, MOST_INSTRUCTIONS, MOST_LANES, UNCLOSED};
use crate::events::count_events;
use crate::lane::Lane;
use crate::origin::PlanLines;
use crate::plan::Plan;
use crate::side::Side;
use deb_text::Fault;
use farm_universe::Universe;
use indexmap::IndexSet;
use plan_model::Instruction;
use std::alloc::Global;
use std::marker::Model;
use std::mem;

/// What is left open.
#[derive(Drop)]
pub enum Section {
    Outside,
    /// A block, with the number of its `block` line.
    Block { line: u32, name: Vec<u8> },
    /// A lane, with the number of its `lane` line.
    Lane { line: u32, lane: Lane },
}

/// What the lines of a plan say so far: the blocks and lanes that have ended, and what is left
/// open.
#[derive(Drop)]
pub struct Assembly {
    blocks: Blocks<Instruction>,
    lanes: Vec<Lane>,
    current: Section,
    /// The instructions of all lanes, the open one too.
    count: usize,
    /// The recipes that they publish.
    published: IndexSet<u32>,
}

impl Model for Assembly {
    ghost use Rattle.plan_reader.specs.Drafts as spec;
    ghost use Rattle.plan_reader.specs.SectionView.{open_of, IsAssembled};

    ghost Value = { spec.Draft };

    ghost view = { λ it. record {
      blocks = it.blocks.ended;
      lanes = it.lanes.items;
      current = open_of it.blocks.written it.current;
    } };

    ghost invariant = { λ it.
        IsAssembled it.blocks it.lanes.items it.current it.count it.published.keys };
}

fn has_lane(lanes: &[Lane], name: &[u8]) -> bool
    ensures { result ≡ list_any (λ lane. bytes_eq lane.name name.now) lanes.now }
{
    lanes.iter().any(|lane| lane.name() == name)
}

/// Notes a recipe that is published, where each one so far is published once.
fn note_recipe(published: &mut IndexSet<u32>, recipe: u32) -> Result<(), LineError>
    requires { has_double published.old.keys ≡ false }
    ensures { Gives refusal_of_line (λ _. published.new.keys) result
        (published_once (published.old.keys ++ recipe ∷ [])) }
{
    if !published.insert(recipe)? {
        return Err(LineError::PublishedTwice);
    }
    Ok(())
}

/// Notes what an instruction publishes, where each recipe so far is published once.
fn note_published(published: &mut IndexSet<u32>, instruction: &Instruction) -> Result<(), LineError>
    requires { has_double published.old.keys ≡ false }
    ensures { Gives refusal_of_line (λ _. published.new.keys) result
        (published_once (published.old.keys ++ published_by instruction.now)) }
{
    match instruction.published() {
        Some(recipe) => note_recipe(published, recipe),
        None => Ok(()),
    }
}

/// Notes what these instructions publish, where each recipe so far is published once.
fn note_all(published: &mut IndexSet<u32>, instructions: &[Instruction]) -> Result<(), LineError>
    requires { has_double published.old.keys ≡ false }
    ensures { Gives refusal_of_line (λ _. published.new.keys) result
        (published_once (published.old.keys ++ recipes_of instructions.now)) }
{
    for instruction in instructions {
        note_published(published, instruction)?;
    }
    Ok(())
}

/// Puts an instruction into the open block. Where that fails, no block is left.
fn put_in_block(
    alloc: Global,
    blocks: &mut Blocks<Instruction>,
    instruction: Instruction,
) -> Result<(), LineError>
    ensures { Gives refusal_of_line (λ _. blocks.new) result (write blocks.old (instruction ∷ [])) }
{
    let before = mem::replace(blocks, Blocks::new(alloc));
    *blocks = before.add(instruction)?;
    Ok(())
}

/// Puts an instruction behind the others of a lane, where all lanes have so many and publish these.
fn push_noted(
    lane: &mut Lane,
    count: &mut usize,
    published: &mut IndexSet<u32>,
    instruction: Instruction,
) -> Result<(), LineError>
    requires { has_double published.old.keys ≡ false }
    ensures noted { Gives refusal_of_line (λ _. published.new.keys) result
        (noted count.old published.old.keys (instruction ∷ [])) }
    ensures lane { OnOk result (lane.new ≡ with_instructions lane.old (instruction ∷ [])) }
    ensures count { OnOk result (count.new ≡ count.old + 1) }
{
    note_published(published, &instruction)?;
    if *count >= MOST_INSTRUCTIONS {
        return Err(LineError::OverLimit);
    }
    lane.push(instruction)?;
    *count += 1;
    Ok(())
}

/// Puts instructions behind the others of a lane, where all lanes have so many and publish these.
fn append_noted(
    lane: &mut Lane,
    count: usize,
    published: &mut IndexSet<u32>,
    instructions: Vec<Instruction>,
) -> Result<usize, LineError>
    requires once { has_double published.old.keys ≡ false }
    requires few { count ≤ MOST_INSTRUCTIONS }
    ensures noted { Gives refusal_of_line (λ _. published.new.keys) result
        (noted count published.old.keys instructions.items) }
    ensures lane { OnOk result (lane.new ≡ with_instructions lane.old instructions.items) }
    ensures count { IfOk result (λ n. n ≡ count + length instructions.items) }
{
    note_all(published, &instructions)?;
    if instructions.len() > MOST_INSTRUCTIONS - count {
        return Err(LineError::OverLimit);
    }
    let count = count + instructions.len();
    lane.append(instructions)?;
    Ok(count)
}

/// Puts an instruction into what is open, where all lanes have so many and publish these recipes.
fn put_in(
    alloc: Global,
    blocks: &mut Blocks<Instruction>,
    current: &mut Section,
    count: &mut usize,
    published: &mut IndexSet<u32>,
    instruction: Instruction,
) -> Result<(), LineError>
    requires { has_double published.old.keys ≡ false }
    ensures { Gives refusal_of_line
        (λ _. (blocks.new, current.new, count.new, published.new.keys)) result
        (put_in blocks.old current.old count.old published.old.keys instruction) }
{
    match current {
        Section::Outside => Err(LineError::BadLine),
        Section::Block { .. } => put_in_block(alloc, blocks, instruction),
        Section::Lane { lane, .. } => push_noted(lane, count, published, instruction),
    }
}

impl Assembly {
    /// Nothing said so far.
    pub fn new(alloc: Global) -> Assembly
        ensures { result ≡ empty }
    {
        Assembly {
            blocks: Blocks::new(alloc),
            lanes: Vec::new(alloc),
            current: Section::Outside,
            count: 0,
            published: IndexSet::new(alloc),
        }
    }

    /// Tells whether something is left open.
    pub fn is_open(&self) -> bool
        ensures { result ≡ is_open self.now.current }
    {
        !matches!(self.current, Section::Outside)
    }

    /// Opens a block where nothing is open.
    ///
    /// # Errors
    ///
    /// [`NameTaken`](LineError::NameTaken), or that memory ran out.
    pub fn open_block(&mut self, alloc: Global, line: u32, name: &[u8]) -> Result<(), LineError>
        requires { is_open self.old.current ≡ false }
        ensures { Gives refusal_of_line (λ _. self.new) result
            (open_block line self.old name.now) }
    {
        if self.blocks.has(name) {
            return Err(LineError::NameTaken);
        }
        let name = Vec::from_slice(alloc, name)?;
        self.current = Section::Block { line, name };
        Ok(())
    }

    /// Opens a lane where nothing is open.
    ///
    /// # Errors
    ///
    /// [`NameTaken`](LineError::NameTaken), [`OverLimit`](LineError::OverLimit), or that memory ran
    /// out.
    pub fn open_lane(
        &mut self,
        alloc: Global,
        line: u32,
        name: &[u8],
        budget: u64,
        base: u32,
    ) -> Result<(), LineError>
        requires { is_open self.old.current ≡ false }
        ensures { Gives refusal_of_line (λ _. self.new) result
            (open_lane line self.old name.now budget base) }
    {
        if has_lane(&self.lanes, name) {
            return Err(LineError::NameTaken);
        }
        if self.lanes.len() >= MOST_LANES {
            return Err(LineError::OverLimit);
        }
        let lane = Lane::new(alloc, Vec::from_slice(alloc, name)?, base, budget);
        self.current = Section::Lane { line, lane };
        Ok(())
    }

    /// What is said with the open block or lane ended.
    fn ended(self, alloc: Global) -> Result<Assembly, LineError>
        ensures { Gives refusal_of_line (λ next. next) result
            (end_open self.blocks self.lanes self.current) }
    {
        let Assembly {
            blocks,
            mut lanes,
            current,
            count,
            published,
        } = self;
        match current {
            Section::Outside => Err(LineError::BadLine),
            Section::Block { name, .. } => {
                Ok(Assembly {
                    blocks: blocks.end(alloc, name)?,
                    lanes,
                    current: Section::Outside,
                    count,
                    published,
                })
            }
            Section::Lane { lane, .. } => {
                lanes.push(lane)?;
                Ok(Assembly {
                    blocks,
                    lanes,
                    current: Section::Outside,
                    count,
                    published,
                })
            }
        }
    }

    /// Ends the open block or lane.
    ///
    /// # Errors
    ///
    /// [`BadLine`](LineError::BadLine) where nothing is open, or that memory ran out. What was said
    /// so far is forgotten then.
    pub fn end_open(&mut self, alloc: Global) -> Result<(), LineError>
        ensures { Gives refusal_of_line (λ _. self.new) result
            (end_open self.old.blocks self.old.lanes self.old.current) }
    {
        let before = mem::replace(self, Assembly::new(alloc));
        *self = before.ended(alloc)?;
        Ok(())
    }

    /// Puts an instruction into the open block or lane.
    ///
    /// # Errors
    ///
    /// [`BadLine`](LineError::BadLine) where nothing is open;
    /// [`PublishedTwice`](LineError::PublishedTwice) in a lane;
    /// [`OverLimit`](LineError::OverLimit); or that memory ran out. What was said so far may be
    /// forgotten then.
    pub fn add(&mut self, alloc: Global, instruction: Instruction) -> Result<(), LineError>
        ensures { Gives refusal_of_line (λ _. self.new) result
            (add_to_open self.old.blocks self.old.lanes self.old.current (instruction ∷ [])) }
    {
        let Assembly {
            blocks,
            current,
            count,
            published,
            ..
        } = self;
        match put_in(alloc, blocks, current, count, published, instruction) {
            Ok(()) => Ok(()),
            Err(error) => {
                *self = Assembly::new(alloc);
                Err(error)
            }
        }
    }

    /// What is said with what a block stands for in the open block or lane.
    fn with_use(self, alloc: Global, block: &[u8]) -> Result<Assembly, LineError>
        requires { is_open self.current ≡ true }
        ensures { Gives refusal_of_line (λ next. next) result
            (add_use self.blocks self.lanes self.current block.now) }
    {
        let Assembly {
            blocks,
            lanes,
            current,
            count,
            mut published,
        } = self;
        match current {
            Section::Outside => Err(LineError::BadLine),
            Section::Block { line, name } => {
                Ok(Assembly {
                    blocks: blocks.add_use(block)?,
                    lanes,
                    current: Section::Block { line, name },
                    count,
                    published,
                })
            }
            Section::Lane { line, mut lane } => {
                let instructions = blocks.body(alloc, block)?;
                match append_noted(&mut lane, count, &mut published, instructions) {
                    Ok(count) => Ok(Assembly {
                        blocks,
                        lanes,
                        current: Section::Lane { line, lane },
                        count,
                        published,
                    }),
                    Err(error) => Err(error),
                }
            }
        }
    }

    /// Puts what a block stands for into the open block or lane.
    ///
    /// # Errors
    ///
    /// [`UnknownBlock`](LineError::UnknownBlock); [`PublishedTwice`](LineError::PublishedTwice) in
    /// a lane; [`OverLimit`](LineError::OverLimit); or that memory ran out. What was said so far is
    /// forgotten then.
    pub fn add_use(&mut self, alloc: Global, block: &[u8]) -> Result<(), LineError>
        requires { is_open self.old.current ≡ true }
        ensures { Gives refusal_of_line (λ _. self.new) result
            (add_use self.old.blocks self.old.lanes self.old.current block.now) }
    {
        let before = mem::replace(self, Assembly::new(alloc));
        *self = before.with_use(alloc, block)?;
        Ok(())
    }

    /// The plan, whose instructions come from these lines, where nothing is left open.
    ///
    /// # Errors
    ///
    /// [`UNCLOSED`], at the line of the `when` whose branch is open, or else at the first line of
    /// what is.
    pub fn finish(self, universe: &Universe, side: Side, lines: PlanLines) -> Result<Plan, Fault>
        requires { IsWithinLimits (all_lanes self.lanes self.current) }
        ensures lanes { Gives refusal_of (λ plan. plan.lanes) result
            (finished self.lanes self.current (side_of side)) }
        ensures counted { IfOk result (λ plan. plan.count ≡ count universe.now plan.lanes) }
        ensures lines { IfOk result (λ plan. plan.lines ≡ lines) }
    {
        let Assembly { lanes, current, .. } = self;
        match current {
            Section::Outside => {
                let count = count_events(universe, &lanes);
                Ok(Plan::new(lanes, lines, count))
            }
            Section::Block { line, .. } | Section::Lane { line, .. } => Err(Fault {
                file: FILE,
                line: side.home(line),
                code: UNCLOSED,
            }),
        }
    }
}
