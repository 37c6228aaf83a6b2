//! The points of a plan, its waits and its `when`s, by number, and the outputs of its lanes, each
//! with the point whose counts hold at its publish.

ghost use Rattle.std.specs.Prelude.{◌≡◌, ◌<◌, ◌+◌, ◌++◌, suc, length, map, IfOk, OnOk};
ghost use Rattle.farm_model.specs.Packages.{outputs};
ghost use Rattle.plan_model.specs.Plan.{lane, outputs_of};
ghost use Rattle.known_rows.specs.Points.{last_after};
ghost use Rattle.known_rows.specs.Marks.{output_with, marks_of, all_marks, outputs_with_points, AreLanes, ArePast, HavePast};

use farm_model::Variant;
use farm_universe::Universe;
use plan_reader::{Instruction, Plan};
use std::alloc::{AllocError, Global};

/// A wait or a `when`: its lane and place, how many outputs the lane has before it, and the point
/// whose counts hold there.
#[derive(Clone, Copy)]
pub struct Mark {
    pub lane: usize,
    pub place: usize,
    pub own: usize,
    pub before: Option<usize>,
}

/// An output of a lane, and the number of the point whose counts hold at its publish.
#[derive(Clone, Copy)]
pub struct Output {
    pub variant: Variant,
    pub point: Option<usize>,
}

/// An instruction of a lane, by its place.
#[derive(Clone, Copy)]
pub struct LaneAt<'a> {
    pub lane: usize,
    pub place: usize,
    pub instruction: &'a Instruction,
}

/// The points whose counts hold at a place, and ahead of the `when` that is open there.
#[derive(Clone, Copy)]
pub struct LastPoints {
    pub here: Option<usize>,
    pub ahead: Option<usize>,
}

/// What a lane has behind it at a place: how many outputs it made, and the point whose counts hold.
#[derive(Clone, Copy)]
pub struct Past {
    pub own: usize,
    pub last: Option<usize>,
}

/// The outputs of a lane in order, and what it has behind it at each of its places.
#[derive(Drop)]
pub struct LaneOutputs {
    pub outputs: Vec<Output>,
    pub past: Vec<Past>,
}

/// The points of a plan, lane by lane, and the outputs of each lane.
#[derive(Drop)]
pub struct Marks {
    pub marks: Vec<Mark>,
    pub lanes: Vec<LaneOutputs>,
}

/// Puts the outputs of a recipe behind the others.
fn push_outputs(
    universe: &Universe,
    recipe: u32,
    point: Option<usize>,
    found: &mut Vec<Output>,
) -> Result<(), AllocError>
    ensures { OnOk result (found.new.items
        ≡ found.old.items ++ map (output_with point) (outputs universe.now recipe)) }
{
    let given = universe.outputs(recipe);
    for variant in given {
        found.push(Output {
            variant: *variant,
            point,
        })?;
    }
    Ok(())
}

/// Puts a point behind the others, if the instruction is one.
fn push_mark(instruction: &Instruction, mark: Mark, marks: &mut Vec<Mark>) -> Result<(), AllocError>
    ensures { OnOk result (marks.new.items ≡ marks.old.items
        ++ marks_of instruction.now mark.lane mark.place mark.own mark.before) }
{
    match instruction {
        Instruction::Wait(_) | Instruction::When { .. } => {
            marks.push(mark)?;
            Ok(())
        }
        Instruction::Unpack { .. }
        | Instruction::Configure(_)
        | Instruction::Deconfigure(_)
        | Instruction::Remove(_)
        | Instruction::Build(_)
        | Instruction::Publish(_)
        | Instruction::Otherwise
        | Instruction::EndWhen => Ok(()),
    }
}

/// Puts the outputs of an instruction behind the others, if it is a publish.
fn push_made(
    universe: &Universe,
    instruction: &Instruction,
    point: Option<usize>,
    found: &mut Vec<Output>,
) -> Result<(), AllocError>
    ensures { OnOk result (found.new.items ≡ found.old.items
        ++ map (output_with point) (outputs_of universe.now instruction.now)) }
{
    match instruction {
        Instruction::Publish(recipe) => push_outputs(universe, *recipe, point, found),
        Instruction::Unpack { .. }
        | Instruction::Configure(_)
        | Instruction::Deconfigure(_)
        | Instruction::Remove(_)
        | Instruction::Build(_)
        | Instruction::Wait(_)
        | Instruction::When { .. }
        | Instruction::Otherwise
        | Instruction::EndWhen => Ok(()),
    }
}

/// The points behind an instruction, where the next point has this number. What a `when` looks for
/// counts in its first branch alone: behind it lies what counted ahead of the `when`.
fn behind(instruction: &Instruction, next: usize, last: LastPoints) -> LastPoints
    ensures { result ≡ last_after instruction.now next last }
{
    match instruction {
        Instruction::Wait(_) => LastPoints {
            here: Some(next),
            ahead: last.ahead,
        },
        Instruction::When { .. } => LastPoints {
            here: Some(next),
            ahead: last.here,
        },
        Instruction::Otherwise | Instruction::EndWhen => LastPoints {
            here: last.ahead,
            ahead: last.ahead,
        },
        Instruction::Unpack { .. }
        | Instruction::Configure(_)
        | Instruction::Deconfigure(_)
        | Instruction::Remove(_)
        | Instruction::Build(_)
        | Instruction::Publish(_) => last,
    }
}

/// Goes past one instruction of a lane.
pub fn pass(
    universe: &Universe,
    at: LaneAt<'_>,
    last: &mut LastPoints,
    marks: &mut Vec<Mark>,
    outputs: &mut Vec<Output>,
) -> Result<(), AllocError>
    ensures last { OnOk result
        (last.new ≡ last_after at.entry.instruction.now (length marks.old.items) last.old) }
    ensures marks { OnOk result (marks.new.items ≡ marks.old.items
        ++ marks_of at.entry.instruction.now at.entry.lane at.entry.place
        (length outputs.old.items) last.old.here) }
    ensures outputs { OnOk result (outputs.new.items ≡ outputs.old.items
        ++ map (output_with last.old.here) (outputs_of universe.now at.entry.instruction.now)) }
{
    let next = marks.len();
    let mark = Mark {
        lane: at.lane,
        place: at.place,
        own: outputs.len(),
        before: last.here,
    };
    push_mark(at.instruction, mark, marks)?;
    push_made(universe, at.instruction, last.here, outputs)?;
    *last = behind(at.instruction, next, *last);
    Ok(())
}

/// Goes over a lane: its points are put behind those of the lanes before it.
fn walk_lane(
    alloc: Global,
    universe: &Universe,
    plan: &Plan,
    number: usize,
    marks: &mut Vec<Mark>,
) -> Result<LaneOutputs, AllocError>
    requires lane { number < length plan.now.lanes }
    requires marks { marks.old.items ≡ all_marks universe.now plan.now.lanes number }
    ensures marks { OnOk result
        (marks.new.items ≡ all_marks universe.now plan.now.lanes (number + 1)) }
    ensures outputs { IfOk result (λ found. found.outputs.items
        ≡ outputs_with_points universe.now plan.now.lanes number
        (length (lane plan.now.lanes number).instructions)) }
    ensures past { IfOk result (λ found. ArePast universe.now plan.now.lanes number
        (suc (length (lane plan.now.lanes number).instructions)) found.past.items) }
{
    let instructions = plan.lane(number).instructions();
    let mut outputs = Vec::new(alloc);
    let mut past = Vec::with_capacity(alloc, instructions.len() + 1)?;
    let mut last = LastPoints {
        here: None,
        ahead: None,
    };
    for place in 0..instructions.len() {
        past.push(Past {
            own: outputs.len(),
            last: last.here,
        })?;
        let at = LaneAt {
            lane: number,
            place,
            instruction: &instructions[place],
        };
        pass(universe, at, &mut last, marks, &mut outputs)?;
    }
    past.push(Past {
        own: outputs.len(),
        last: last.here,
    })?;
    Ok(LaneOutputs { outputs, past })
}

/// Goes over all lanes.
pub fn walk(alloc: Global, universe: &Universe, plan: &Plan) -> Result<Marks, AllocError>
    ensures marks { IfOk result (λ found. found.marks.items
        ≡ all_marks universe.now plan.now.lanes (length plan.now.lanes)) }
    ensures lanes { IfOk result (λ found. AreLanes universe.now plan.now.lanes found.lanes.items) }
    ensures past { IfOk result (λ found. HavePast universe.now plan.now.lanes found.lanes.items) }
{
    let mut marks = Vec::new(alloc);
    let mut lanes = Vec::new(alloc);
    for number in 0..plan.lanes() {
        lanes.push(walk_lane(alloc, universe, plan, number, &mut marks)?)?;
    }
    Ok(Marks { marks, lanes })
}
