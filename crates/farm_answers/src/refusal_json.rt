//! Refusals as members of an object.

ghost use Rattle.std.specs.Prelude.{◌≡◌, IfOk};
ghost use Rattle.deb_text.specs.Lists.{lists};
ghost use Rattle.farm_answers.specs.Refusals as spec;
ghost use Rattle.farm_answers.specs.Refusals.{refused};
ghost use Rattle.plan_verifier.specs.declared.refusal.Refusal.TheVariants.{Text, Unsafe, Uneven, Stuck, Memory};
ghost use Rattle.serde_json.specs.View.{members_view, view};

use deb_text::Fault;
use farm_universe::Trap;
use plan_reader::file_name;
use plan_verifier::{Refusal, STUCK, UNEVEN, UNSAFE};
use serde_json::{Map, Value, put};
use shown_text::text_value;
use std::alloc::{AllocError, Global};

/// The code of want of memory.
const WANTS_MEMORY: u16 = 900;

/// A name as an object of one member.
fn name_value(alloc: Global, name: &[u8]) -> Result<Value, AllocError>
    ensures { IfOk result (λ value. view value ≡ spec.name_data name.now) }
{
    let mut members = Map::new(alloc);
    put(&mut members, alloc, "name", text_value(alloc, name)?)?;
    Ok(Value::Object(members))
}

/// The members that every refusal has.
fn refused(alloc: Global, code: u16) -> Result<Map<String, Value>, AllocError>
    ensures { IfOk result (λ members. members_view members.entries ≡ refused code) }
{
    let mut members = Map::new(alloc);
    put(&mut members, alloc, "code", Value::from(code))?;
    put(
        &mut members,
        alloc,
        "verdict",
        Value::try_from_str(alloc, "refused")?,
    )?;
    Ok(members)
}

/// The members of a fault of a text.
fn of_fault(alloc: Global, fault: &Fault) -> Result<Map<String, Value>, AllocError>
    ensures { IfOk result (λ members. members_view members.entries
        ≡ spec.fault_members fault.now) }
{
    let mut members = refused(alloc, fault.code)?;
    let file = text_value(alloc, file_name(fault.file).as_bytes())?;
    put(&mut members, alloc, "file", file)?;
    put(&mut members, alloc, "line", Value::from(fault.line))?;
    Ok(members)
}

/// The members of a refusal at an instruction of a lane.
fn of_place(
    alloc: Global,
    code: u16,
    lane: &[u8],
    instruction: u32,
) -> Result<Map<String, Value>, AllocError>
    ensures { IfOk result (λ members. members_view members.entries
        ≡ spec.place_members code lane.now instruction) }
{
    let mut members = refused(alloc, code)?;
    put(&mut members, alloc, "instruction", Value::from(instruction))?;
    put(&mut members, alloc, "lane", text_value(alloc, lane)?)?;
    Ok(members)
}

/// The members of an unsafe instruction.
fn of_trap(
    alloc: Global,
    lane: &[u8],
    instruction: u32,
    trap: Trap,
) -> Result<Map<String, Value>, AllocError>
    ensures { IfOk result (λ members. members_view members.entries
        ≡ spec.trap_members lane.now instruction trap) }
{
    let mut members = of_place(alloc, UNSAFE, lane, instruction)?;
    put(
        &mut members,
        alloc,
        "trap",
        Value::try_from_str(alloc, trap.text())?,
    )?;
    Ok(members)
}

/// The names of lanes, each an object of one member.
fn name_list(alloc: Global, names: &[Vec<u8>]) -> Result<Value, AllocError>
    ensures { IfOk result (λ value. view value ≡ spec.names_data (lists names.now)) }
{
    let mut values = Vec::new(alloc);
    for name in names {
        values.push(name_value(alloc, name)?)?;
    }
    Ok(Value::Array(values))
}

/// The members of stuck lanes.
fn of_stuck(alloc: Global, lanes: &[Vec<u8>]) -> Result<Map<String, Value>, AllocError>
    ensures { IfOk result (λ members. members_view members.entries
        ≡ spec.stuck_members (lists lanes.now)) }
{
    let mut members = refused(alloc, STUCK)?;
    put(&mut members, alloc, "lanes", name_list(alloc, lanes)?)?;
    Ok(members)
}

/// The members of a refusal.
pub fn of_refusal(alloc: Global, refusal: &Refusal) -> Result<Map<String, Value>, AllocError>
    ensures { IfOk result (λ members. members_view members.entries
        ≡ spec.refusal_members refusal.now) }
{
    match refusal {
        Refusal::Text(fault) => of_fault(alloc, fault),
        Refusal::Unsafe {
            lane,
            instruction,
            trap,
        } => of_trap(alloc, lane, *instruction, *trap),
        Refusal::Uneven { lane, instruction } => of_place(alloc, UNEVEN, lane, *instruction),
        Refusal::Stuck { lanes } => of_stuck(alloc, lanes),
        Refusal::Memory => refused(alloc, WANTS_MEMORY),
    }
}
