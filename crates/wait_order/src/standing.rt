//! Where a lane stands while an order of the waits is looked for, and how it goes on.

ghost use Rattle.std.specs.Prelude.{◌≡◌, ◌<◌, length, map, IfOk, OnOk};
ghost use Rattle.farm_model.specs.Common.{names, outputs, initial, IsUniverse};
ghost use Rattle.plan_model.specs.Order.{Give};
ghost use Rattle.sat_rows.specs.Rows.{IsRowOf};
ghost use Rattle.wait_order.specs.Standing.{Makes, IsMade, IsStanding, IsAdvance};

use crate::wait_rows::WaitRows;
use bit_rows::Row;
use farm_universe::Universe;
use plan_reader::{Instruction, Plan};
use sat_rows::Tables;
use std::alloc::{AllocError, Global};

/// A plan over a universe with its rows, whose lanes are taken on.
#[derive(Clone, Copy)]
pub struct Course<'p> {
    pub alloc: Global,
    pub universe: &'p Universe,
    pub tables: &'p Tables,
    pub plan: &'p Plan,
    ghost sound: { IsUniverse universe.now },
    ghost tables_are: { tables.now ≡ universe.now },
}

/// Where a lane stands.
#[derive(Drop)]
pub struct Standing {
    pub place: usize,
}

/// Publishes the outputs of a recipe.
fn publish(
    universe: &Universe,
    number: u32,
    recipe: u32,
    archive: &mut Row,
    order: &mut Vec<u32>,
) -> Result<(), AllocError>
    requires sound { IsUniverse universe.now }
    requires archive { length archive.old ≡ names universe.now }
    ensures long { OnOk result (length archive.new ≡ names universe.now) }
    ensures made { OnOk result (Makes universe.now number (map Give (outputs universe.now recipe))
        order.old.items archive.old order.new.items archive.new) }
{
    let outputs = universe.outputs(recipe);
    for output in outputs {
        order.push(number)?;
        archive.set_bit(output.name as usize, output.bit)?;
    }
    Ok(())
}

/// Makes the waits and outputs of an instruction, unless it has to wait.
fn make<'p>(
    course: Course<'p>,
    number: u32,
    instruction: &'p Instruction,
    rows: &mut WaitRows<'p>,
    archive: &mut Row,
    order: &mut Vec<u32>,
) -> Result<bool, AllocError>
    requires archive { length archive.old ≡ names course.universe.now }
    requires rows { rows.old ≡ course.universe.now }
    ensures made { IfOk result (IsMade course.entry.universe.now number instruction.now
        order.old.items archive.old order.new.items archive.new) }
    ensures rows { rows.new ≡ rows.old }
{
    match instruction {
        Instruction::Wait(entry) => {
            if !rows.passes(course.alloc, course.universe, course.tables, entry, archive)? {
                return Ok(false);
            }
            order.push(number)?;
            Ok(true)
        }
        Instruction::Publish(recipe) => {
            publish(course.universe, number, *recipe, archive, order)?;
            Ok(true)
        }
        Instruction::Unpack { .. }
        | Instruction::Configure(_)
        | Instruction::Deconfigure(_)
        | Instruction::Remove(_)
        | Instruction::Build(_)
        | Instruction::When { .. }
        | Instruction::Otherwise
        | Instruction::EndWhen => Ok(true),
    }
}

/// Takes a lane on as far as it goes, and tells whether it moved.
pub fn advance<'p>(
    course: Course<'p>,
    number: u32,
    at: &mut Standing,
    rows: &mut WaitRows<'p>,
    archive: &mut Row,
    order: &mut Vec<u32>,
) -> Result<bool, AllocError>
    requires lane { number < length course.plan.now.lanes }
    requires standing { IsStanding course.universe.now course.plan.now.lanes number at.old }
    requires archive { length archive.old ≡ names course.universe.now }
    requires rows { rows.old ≡ course.universe.now }
    ensures advance { IfOk result (IsAdvance course.entry.universe.now course.entry.plan.now.lanes
        number at.old at.new order.old.items archive.old order.new.items archive.new) }
    ensures rows { rows.new ≡ rows.old }
{
    let instructions = course.plan.lane(number as usize).instructions();
    let start = at.place;
    for place in start..instructions.len() {
        let made = make(course, number, &instructions[place], rows, archive, order)?;
        if !made {
            return Ok(start < place);
        }
        at.place = place + 1;
    }
    Ok(start < instructions.len())
}
