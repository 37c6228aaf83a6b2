//! What may be in the archive at a place of a lane.

ghost use Rattle.std.specs.Prelude.{◌≡◌, ◌<◌, ◌||◌, Bool, length, IfOk, OnOk};
ghost use Rattle.std.specs.List.{list_any};
ghost use Rattle.farm_model.specs.Common.{names, IsUniverse};
ghost use Rattle.farm_model.specs.declared.types.Variant.{Variant};
ghost use Rattle.plan_model.specs.Known.{gives, possible};
ghost use Rattle.sat_rows.specs.Rows.{IsRowOf};

use bit_rows::Row;
use farm_universe::Universe;
use known_rows::initial_row;
use plan_reader::{Instruction, Lane, Plan};
use std::alloc::{AllocError, Global};

/// Adds the outputs of a recipe.
fn add_recipe(universe: &Universe, row: &mut Row, recipe: u32) -> Result<(), AllocError>
    requires sound { IsUniverse universe.now }
    requires row { length row.old ≡ names universe.now }
    ensures long { OnOk result (length row.new ≡ names universe.now) }
    ensures added { OnOk result ((test : Variant → Bool) → IsRowOf universe.now test row.old
        → IsRowOf universe.now (λ v. test v || gives universe.now v (Instruction.Publish recipe))
        row.new) }
{
    let outputs = universe.outputs(recipe);
    for output in outputs {
        row.set_bit(output.name as usize, output.bit)?;
    }
    Ok(())
}

/// Adds the outputs of an instruction.
pub fn add_outputs(
    universe: &Universe,
    row: &mut Row,
    instruction: &Instruction,
) -> Result<(), AllocError>
    requires sound { IsUniverse universe.now }
    requires row { length row.old ≡ names universe.now }
    ensures long { OnOk result (length row.new ≡ names universe.now) }
    ensures added { OnOk result ((test : Variant → Bool) → IsRowOf universe.now test row.old
        → IsRowOf universe.now (λ v. test v || gives universe.now v instruction.now) row.new) }
{
    match instruction {
        Instruction::Publish(recipe) => add_recipe(universe, row, *recipe),
        Instruction::Unpack { .. }
        | Instruction::Configure(_)
        | Instruction::Deconfigure(_)
        | Instruction::Remove(_)
        | Instruction::Build(_)
        | Instruction::Wait(_)
        | Instruction::When { .. }
        | Instruction::Otherwise
        | Instruction::EndWhen => Ok(()),
    }
}

/// Adds the outputs of a lane.
fn add_lane(universe: &Universe, row: &mut Row, lane: &Lane) -> Result<(), AllocError>
    requires sound { IsUniverse universe.now }
    requires row { length row.old ≡ names universe.now }
    ensures long { OnOk result (length row.new ≡ names universe.now) }
    ensures added { OnOk result ((test : Variant → Bool) → IsRowOf universe.now test row.old
        → IsRowOf universe.now
        (λ v. test v || list_any (gives universe.now v) lane.now.instructions) row.new) }
{
    let instructions = lane.instructions();
    for instruction in instructions {
        add_outputs(universe, row, instruction)?;
    }
    Ok(())
}

/// What may be in the archive when a lane begins: the initial archive, and what other lanes make.
pub fn possible_row(
    alloc: Global,
    universe: &Universe,
    plan: &Plan,
    number: usize,
) -> Result<Row, AllocError>
    requires sound { IsUniverse universe.now }
    ensures { IfOk result (IsRowOf universe.now (possible universe.now plan.now.lanes number 0)) }
{
    let mut row = initial_row(alloc, universe)?;
    for other in 0..plan.lanes() {
        if other != number {
            add_lane(universe, &mut row, plan.lane(other))?;
        }
    }
    Ok(row)
}
