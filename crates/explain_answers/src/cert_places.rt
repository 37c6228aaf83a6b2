//! What the lines of a certificate are for: the instructions of a plan behind which it has one,
//! which are waits, publishes and `when`s, and the items of its order.

use farm_universe::Universe;
use plan_reader::{Instruction, Plan};
use std::alloc::{AllocError, Global};

/// An instruction by the number of its lane and by its place there, the first being 0.
#[derive(Clone, Copy, PartialEq, Eq)]
pub struct Place {
    pub lane: usize,
    pub at: usize,
}

/// The instructions of a lane; none for a number past the last.
pub fn instructions(plan: &Plan, lane: usize) -> &[Instruction] {
    if lane < plan.lanes() {
        plan.lane(lane).instructions()
    } else {
        &[]
    }
}

/// Gives the instructions of a plan that have lines, in their order.
pub fn places(alloc: Global, plan: &Plan) -> Result<Vec<Place>, AllocError> {
    let mut places = Vec::new(alloc);
    for lane in 0..plan.lanes() {
        let all = instructions(plan, lane);
        for at in 0..all.len() {
            if all[at].teaches() {
                places.push(Place { lane, at })?;
            }
        }
    }
    Ok(places)
}

/// The last instruction whose line says what a lane knows ahead of a place; behind a branch, one
/// ahead of its `when`.
pub fn row_ahead(plan: &Plan, place: Place) -> Option<Place> {
    let lane = place.lane;
    let all = instructions(plan, lane);
    let mut is_behind_branch = false;
    for at in (0..place.at.min(all.len())).rev() {
        match &all[at] {
            Instruction::Otherwise | Instruction::EndWhen => is_behind_branch = true,
            Instruction::When { .. } if is_behind_branch => is_behind_branch = false,
            instruction if instruction.teaches() && !is_behind_branch => {
                return Some(Place { lane, at });
            }
            _ => {}
        }
    }
    None
}

/// The first wait or publish of a lane that these items of an order leave.
pub fn next_step(universe: &Universe, plan: &Plan, items: &[u32], lane: usize) -> Option<Place> {
    let mut left = items.iter().filter(|item| **item as usize == lane).count();
    let all = instructions(plan, lane);
    for at in 0..all.len() {
        let steps = match &all[at] {
            Instruction::Wait(_) => 1,
            Instruction::Publish(recipe) => universe.outputs(*recipe).len(),
            _ => 0,
        };
        if left < steps {
            return Some(Place { lane, at });
        }
        left -= steps;
    }
    None
}
