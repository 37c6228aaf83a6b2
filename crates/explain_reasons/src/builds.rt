//! Where a recipe is built that is not surely built.

ghost use Rattle.std.specs.Prelude.{◌≡◌, ◌<◌, length};
ghost use Rattle.plan_model.specs.Branches as branches;
ghost use Rattle.plan_model.specs.Plan.{lane, instruction_at};
ghost use Rattle.explain_reasons.specs.Builder as spec;

use plan_reader::{Instruction, Plan};

/// Outside of all branches, or in the first or the second branch of the `when` at a place.
#[derive(Clone, Copy)]
pub enum Side {
    Outside,
    First(usize),
    Second(usize),
}

/// Where a recipe is built. Lanes and instructions go by their places, from 0.
#[derive(Clone, Copy)]
pub enum Builder {
    /// Ahead, on this side: in this branch alone of its `when`, or outside of all branches.
    Branch(Side),
    /// By the lane itself, further on.
    Later { place: usize },
    /// By another lane.
    Other { lane: usize, place: usize },
    /// By no lane.
    Nobody,
}

/// On which side it goes on behind the instruction at a place of a lane.
fn side_behind(plan: &Plan, number: usize, place: usize, side: Side) -> Side
    requires { number < length plan.now.lanes }
    ensures { spec.side_of result ≡ branches.side_behind_some place (spec.side_of side)
        (instruction_at plan.now.lanes number place) }
{
    match plan.instruction(number, place) {
        Some(Instruction::When { .. }) => Side::First(place),
        Some(Instruction::Otherwise) => match side {
            Side::First(when) => Side::Second(when),
            Side::Outside | Side::Second(_) => side,
        },
        Some(Instruction::EndWhen) => Side::Outside,
        _ => side,
    }
}

/// On which side a place of a lane lies.
fn side_at(plan: &Plan, number: usize, end: usize) -> Side
    requires { number < length plan.now.lanes }
    ensures { spec.side_of result ≡ branches.side_at (lane plan.now.lanes number).instructions end }
{
    let mut side = Side::Outside;
    for place in 0..end {
        side = side_behind(plan, number, place, side);
    }
    side
}

/// The place of the first build of a recipe in a lane.
fn first_build(plan: &Plan, number: usize, recipe: u32) -> Option<usize>
    requires { number < length plan.now.lanes }
    ensures { result ≡ spec.first_build plan.now.lanes number recipe }
{
    let instructions = plan.lane(number).instructions();
    instructions.iter().position(|it| matches!(it, Instruction::Build(built) if *built == recipe))
}

/// The first build of a recipe in the first lane that has one.
fn first_builder(plan: &Plan, recipe: u32) -> Option<Builder>
    ensures { result ≡ spec.first_builder plan.now.lanes recipe }
{
    (0..plan.lanes()).fold(None, |found, lane| match found {
        Some(_) => found,
        None => first_build(plan, lane, recipe).map(|place| Builder::Other { lane, place }),
    })
}

/// Gives where a recipe is built that is not surely built at a place of a lane: its first build in
/// this lane, or else in the first lane that has one.
pub fn find_builder(plan: &Plan, number: usize, place: usize, recipe: u32) -> Builder
    requires { number < length plan.now.lanes }
    ensures { result ≡ spec.builder plan.now.lanes number place recipe }
{
    let Some(built) = first_build(plan, number, recipe) else {
        return first_builder(plan, recipe).unwrap_or(Builder::Nobody);
    };
    if built < place {
        Builder::Branch(side_at(plan, number, built))
    } else {
        Builder::Later { place: built }
    }
}
