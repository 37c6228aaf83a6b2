//! The waits and outputs of each lane, in turn.

ghost use Rattle.std.specs.Prelude.{◌≡◌, ◌+◌, ◌<◌, ◌++◌, length, map, All, Some, IfOk, OnOk};
ghost use Rattle.farm_model.specs.Common.{outputs, IsUniverse};
ghost use Rattle.plan_model.specs.Common.{items_of, lane, instruction_at};
ghost use Rattle.plan_cert.specs.declared.events.Event as of;
ghost use Rattle.plan_cert.specs.Events.{order_item_of, IsEvent, AreEvents, AreLaneEvents};

use farm_universe::{Universe, Variant};
use plan_reader::{Instruction, Plan};
use std::alloc::{AllocError, Global};

/// A wait, by its place in the lane, or an output.
#[derive(Clone, Copy)]
pub enum Event {
    Pass(usize),
    Give(Variant),
}

/// The events of a lane.
#[derive(Drop)]
pub struct LaneEvents {
    pub events: Vec<Event>,
}

/// Puts the outputs of a recipe behind the others.
fn push_outputs(universe: &Universe, recipe: u32, events: &mut Vec<Event>) -> Result<(), AllocError>
    ensures { OnOk result (events.new.items
        ≡ events.old.items ++ map of.Event.Give (outputs universe.now recipe)) }
{
    let outputs = universe.outputs(recipe);
    for output in outputs {
        events.push(Event::Give(*output))?;
    }
    Ok(())
}

/// Puts the events of an instruction behind the others.
fn push_events(
    universe: &Universe,
    plan: &Plan,
    number: usize,
    place: usize,
    instruction: &Instruction,
    events: &mut Vec<Event>,
) -> Result<(), AllocError>
    requires sound { IsUniverse universe.now }
    requires at { instruction_at plan.now.lanes number place ≡ Some instruction.now }
    requires each { All (IsEvent universe.now plan.now.lanes number) events.old.items }
    ensures each { OnOk result
        (All (IsEvent universe.now plan.now.lanes number) events.new.items) }
    ensures items { OnOk result (map (order_item_of plan.now.lanes number) events.new.items
        ≡ map (order_item_of plan.now.lanes number) events.old.items
        ++ items_of universe.now instruction.now) }
{
    match instruction {
        Instruction::Publish(recipe) => {
            push_outputs(universe, *recipe, events)?;
            Ok(())
        }
        Instruction::Wait(_) => {
            events.push(Event::Pass(place))?;
            Ok(())
        }
        Instruction::Unpack { .. } => Ok(()),
        Instruction::Configure(_) => Ok(()),
        Instruction::Deconfigure(_) => Ok(()),
        Instruction::Remove(_) => Ok(()),
        Instruction::Build(_) => Ok(()),
        Instruction::When { .. } => Ok(()),
        Instruction::Otherwise => Ok(()),
        Instruction::EndWhen => Ok(()),
    }
}

/// The events of a lane.
fn lane_events(
    alloc: Global,
    universe: &Universe,
    plan: &Plan,
    number: usize,
) -> Result<LaneEvents, AllocError>
    requires sound { IsUniverse universe.now }
    requires lane { number < length plan.now.lanes }
    ensures { IfOk result (λ of. AreEvents universe.now plan.now.lanes number
        (length (lane plan.now.lanes number).instructions) of.events.items) }
{
    let instructions = plan.lane(number).instructions();
    let mut events = Vec::new(alloc);
    for place in 0..instructions.len() {
        let instruction = &instructions[place];
        push_events(universe, plan, number, place, instruction, &mut events)?;
    }
    Ok(LaneEvents { events })
}

/// The events of each lane.
pub fn all_events(
    alloc: Global,
    universe: &Universe,
    plan: &Plan,
) -> Result<Vec<LaneEvents>, AllocError>
    requires sound { IsUniverse universe.now }
    ensures { IfOk result (λ lanes. AreLaneEvents universe.now plan.now.lanes
        (length plan.now.lanes) lanes.items) }
{
    let mut lanes = Vec::new(alloc);
    for number in 0..plan.lanes() {
        lanes.push(lane_events(alloc, universe, plan, number)?)?;
    }
    Ok(lanes)
}
