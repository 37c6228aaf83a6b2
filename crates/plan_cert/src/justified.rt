//! Which rows of a plan are justified: each has no more than the inclusions allow.

ghost use Rattle.std.specs.Prelude.{◌≡◌, ◌≢◌, ◌↔◌, ◌<◌, ℕ, Bool, suc, true, IsTrue, length, Some, IfOk, IsNone, IfSome};
ghost use Rattle.cert_text.specs.Certificates.{IsNewRow};
ghost use Rattle.deb_relation.specs.Relations as relations;
ghost use Rattle.farm_model.specs.Common.{names, initial, IsUniverse};
ghost use Rattle.farm_model.specs.declared.types.Variant.{Variant};
ghost use Rattle.plan_model.specs.declared.instructions.Instruction as model;
ghost use Rattle.plan_model.specs.Common.{is_of, possible, Follows, lane, IsInstruction, IsSound};
ghost use Rattle.verdict_laws.specs.Places.{IsJustified};
ghost use Rattle.sat_rows.specs.Rows.{IsRowOf};
ghost use Rattle.plan_cert.specs.PlaceRows.{place_rows_of};
ghost use Rattle.plan_cert.specs.Opens.{open_at, IsAskedRow};
ghost use Rattle.plan_cert.specs.Origins.{AreOrigins};
ghost use Rattle.plan_cert.specs.Stated.{in_row};
ghost use Rattle.plan_cert.specs.Checked.{IsLaneChecked, AreChecked};

use crate::claim::Claim;
use crate::facts::{Question, are_facts, with_outputs};
use crate::opens::{open_behind, place_before};
use crate::origins::{Origins, find_origins};
use bit_rows::Row;
use cert_text::CertFault;
use deb_relation::{Entry, Op, view_relation};
use deb_version::Version;
use farm_universe::Universe;
use plan_reader::Instruction;
use plan_verifier::{add_outputs, possible_row};
use sat_rows::{Tables, mask};
use std::alloc::{AllocError, Global};

/// A place of a lane under a claim: what may be in the archive there, and the place of the `when`
/// that is open there, if one is.
#[derive(Clone, Copy)]
struct At<'a> {
    claim: Claim<'a>,
    origins: &'a Origins,
    there: &'a Row,
    number: usize,
    place: usize,
    when: Option<usize>,
    ghost origins_are: { AreOrigins claim.universe.now claim.plan.now.lanes origins.now },
    ghost there_is: { IsRowOf claim.universe.now
        (possible claim.universe.now claim.plan.now.lanes number place) there.now },
    ghost in_plan: { number < length claim.plan.now.lanes },
    ghost in_lane: { place < length (lane claim.plan.now.lanes number).instructions },
    ghost when_is: { when ≡ open_at claim.plan.now.lanes number place },
}

/// Tells whether all of `new` follows from each variant of `asked` that may be there.
fn may_follow(at: At<'_>, asked: Row, new: &Row) -> Result<bool, AllocError>
    requires sound { IsUniverse at.claim.universe.now }
    requires asked { length asked ≡ names at.claim.universe.now }
    requires new { IsNewRow at.claim.universe.now new.now }
    ensures { IfOk result (λ yes. (test : Variant → Bool)
        → IsRowOf at.entry.claim.universe.now test asked → IsTrue yes
        ↔ ((v : Variant) → in_row new.now v ≡ true → Follows at.entry.claim.universe.now
        at.entry.claim.plan.now.lanes (place_rows_of at.entry.claim.known.now) at.entry.number
        at.entry.place v test)) }
{
    if !new.within(at.there) {
        return Ok(false);
    }
    let mut sources = asked;
    sources.and_into(at.there);
    let yes = are_facts(Question {
        claim: at.claim,
        origins: at.origins,
        sources: &sources,
        new,
    })?;
    Ok(yes)
}

/// The entry that an instruction waits for, if it waits.
pub fn waited(instruction: &Instruction) -> Option<&Entry>
    ensures some { IfSome result (λ entry. instruction.now ≡ model.Instruction.Wait entry.now) }
    ensures none { IsNone result → (e : relations.Entry)
        → instruction.now ≢ model.Instruction.Wait e }
{
    match instruction {
        Instruction::Wait(entry) => Some(entry),
        Instruction::Unpack { .. }
        | Instruction::Configure(_)
        | Instruction::Deconfigure(_)
        | Instruction::Remove(_)
        | Instruction::Build(_)
        | Instruction::Publish(_)
        | Instruction::When { .. }
        | Instruction::Otherwise
        | Instruction::EndWhen => None,
    }
}

/// The variants of a name that a `when` looks for.
fn name_row(
    alloc: Global,
    universe: &Universe,
    name: u32,
    relation: &Option<(Op, Version)>,
) -> Result<Row, AllocError>
    requires { name < names universe.now }
    ensures { IfOk result (IsRowOf universe.now (is_of universe.now name relation.now)) }
{
    let mut row = Row::new(alloc, universe.names() as usize)?;
    row.set_word(name as usize, mask(universe, name, view_relation(relation)))?;
    Ok(row)
}

/// The variants that an instruction looks for, if it waits or chooses a branch.
fn asked_row(
    alloc: Global,
    universe: &Universe,
    tables: &Tables,
    instruction: &Instruction,
) -> Result<Option<Row>, AllocError>
    requires instruction { IsInstruction universe.now instruction.now }
    requires tables { tables.now ≡ universe.now }
    ensures { IfOk result (IsAskedRow universe.now instruction.now) }
{
    match instruction {
        Instruction::Wait(entry) => {
            let row = tables.entry_row(alloc, universe, entry)?;
            Ok(Some(row))
        }
        Instruction::When { name, relation } => {
            let row = name_row(alloc, universe, *name, relation)?;
            Ok(Some(row))
        }
        Instruction::Unpack { .. } => Ok(None),
        Instruction::Configure(_) => Ok(None),
        Instruction::Deconfigure(_) => Ok(None),
        Instruction::Remove(_) => Ok(None),
        Instruction::Build(_) => Ok(None),
        Instruction::Publish(_) => Ok(None),
        Instruction::Otherwise => Ok(None),
        Instruction::EndWhen => Ok(None),
    }
}

/// Tells whether the row behind an instruction is justified.
fn is_justified(alloc: Global, at: At<'_>) -> Result<bool, AllocError>
    requires { IsSound at.claim.universe.now at.claim.plan.now.lanes }
    ensures { IfOk result (λ yes. IsTrue yes ↔ IsJustified at.entry.claim.universe.now
        at.entry.claim.plan.now.lanes (place_rows_of at.entry.claim.known.now) at.entry.number
        (suc at.entry.place)) }
{
    let claim = at.claim;
    let number = at.number;
    let place = at.place;
    let _lanes = claim.plan.lanes();
    let instruction = &claim.plan.lane(number).instructions()[place];
    let from = place_before(instruction, place, at.when);
    if claim.known.knows_within(number, place + 1, from) {
        return Ok(true);
    }
    let before = claim.known.listed(number, from);
    let after = claim.known.listed(number, place + 1);
    if let Some(recipe) = instruction.published() {
        let count = claim.universe.outputs(recipe).len();
        let row = with_outputs(claim.universe, before, recipe, count)?;
        return Ok(after.within(&row));
    }
    if let Some(asked) = asked_row(alloc, claim.universe, claim.tables, instruction)? {
        let mut new = after.clone()?;
        new.take_out(before);
        let yes = may_follow(at, asked, &new)?;
        return Ok(yes);
    }
    Ok(false)
}

/// Finds the first row behind an instruction of a lane that is not justified.
fn check_lane(
    alloc: Global,
    claim: Claim<'_>,
    origins: &Origins,
    number: usize,
) -> Result<(), CertFault>
    requires sound { IsSound claim.universe.now claim.plan.now.lanes }
    requires origins { AreOrigins claim.universe.now claim.plan.now.lanes origins.now }
    requires lane { number < length claim.plan.now.lanes }
    ensures { IsLaneChecked claim.entry.universe.now claim.entry.plan.now.lanes
        (place_rows_of claim.entry.known.now) number result }
{
    let _lanes = claim.plan.lanes();
    let instructions = claim.plan.lane(number).instructions();
    let mut there = possible_row(alloc, claim.universe, claim.plan, number)?;
    let mut when = None;
    for place in 0..instructions.len() {
        let at = At {
            claim,
            origins,
            there: &there,
            number,
            place,
            when,
        };
        if !is_justified(alloc, at)? {
            return Err(CertFault::Row {
                lane: number as u32,
                instruction: place as u32 + 1,
            });
        }
        let instruction = &instructions[place];
        add_outputs(claim.universe, &mut there, instruction)?;
        when = open_behind(instruction, place, when);
    }
    Ok(())
}

/// Checks that known rows, which begin with the initial archive, keep to the inclusions.
///
/// # Errors
///
/// [`CertFault::Row`] with the first row that does not, of the first lane that has one.
/// [`CertFault::Memory`] where memory is refused.
pub fn check_rows(alloc: Global, claim: Claim<'_>) -> Result<(), CertFault>
    requires sound { IsSound claim.universe.now claim.plan.now.lanes }
    requires starts { (l : ℕ) (v : Variant) → l < length claim.plan.now.lanes
        → place_rows_of claim.known.now l 0 v ≡ true → initial claim.universe.now v ≡ true }
    ensures { AreChecked claim.entry.universe.now claim.entry.plan.now.lanes
        (place_rows_of claim.entry.known.now) result }
{
    let origins = find_origins(alloc, claim.universe, claim.plan)?;
    for number in 0..claim.plan.lanes() {
        check_lane(alloc, claim, &origins, number)?;
    }
    Ok(())
}
