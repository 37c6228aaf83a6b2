//! The known rows that a certificate states.

ghost use Rattle.std.specs.Prelude.{◌≡◌, ◌+◌, ◌<◌, length, Some, IfOk, OnOk};
ghost use Rattle.cert_text.specs.Certificates.{IsCertificate};
ghost use Rattle.farm_model.specs.Sound.{IsUniverse};
ghost use Rattle.plan_model.specs.Common.{lane, instruction_at, row_before};
ghost use Rattle.verdict_laws.specs.Agreeing.{Agree};
ghost use Rattle.plan_cert.specs.PlaceRows.{place_rows_of};
ghost use Rattle.plan_cert.specs.PlaceRows.{IsRowAt, IsExtended, AreRowNumbers};
ghost use Rattle.plan_cert.specs.Stated.{rows_before, listed_rows, stated_rows};

use crate::opens::{open_behind, place_before};
use crate::stated_rows::{LanePlaces, StatedRows};
use bit_rows::Row;
use cert_text::Certificate;
use farm_universe::Universe;
use known_rows::initial_row;
use plan_reader::{Instruction, Plan};
use std::alloc::{AllocError, Global};

/// A certificate of a plan over a universe.
#[derive(Clone, Copy)]
struct Stating<'a> {
    universe: &'a Universe,
    plan: &'a Plan,
    certificate: &'a Certificate,
    ghost certificate_is: { IsCertificate universe.now plan.now.lanes certificate.now },
}

/// An instruction of a lane, by its place.
#[derive(Clone, Copy)]
struct LaneAt<'a> {
    number: usize,
    place: usize,
    instruction: &'a Instruction,
}

/// Puts the row behind an instruction behind the others, where there is one. Gives how many rows of
/// the lane there are by then, and the number of the row that holds: without a row of its own that
/// from which what is known goes on.
fn add_row(
    stating: Stating<'_>,
    at: LaneAt<'_>,
    used: usize,
    before: usize,
    rows: &mut Vec<Row>,
) -> Result<(usize, usize), AllocError>
    requires lane { at.number < length stating.plan.now.lanes }
    requires at { instruction_at stating.plan.now.lanes at.number at.place
        ≡ Some at.instruction.now }
    requires used { used ≡ rows_before stating.plan.now.lanes at.number at.place }
    requires before { IsRowAt stating.universe.now
        (listed_rows stating.plan.now.lanes stating.certificate.now at.number
        (row_before stating.plan.now.lanes at.number at.place at.instruction.now))
        rows.old.items before }
    ensures used { IfOk result (λ next. next.0
        ≡ rows_before stating.entry.plan.now.lanes at.entry.number (at.entry.place + 1)) }
    ensures more { OnOk result
        (IsExtended stating.entry.universe.now rows.old.items rows.new.items) }
    ensures row { IfOk result (λ next. IsRowAt stating.entry.universe.now
        (listed_rows stating.entry.plan.now.lanes stating.entry.certificate.now at.entry.number
        (at.entry.place + 1)) rows.new.items next.1) }
{
    if !at.instruction.teaches() {
        return Ok((used, before));
    }
    let listed = &stating.certificate.lane_rows(at.number)[used];
    rows.push(listed.clone()?)?;
    Ok((used + 1, rows.len() - 1))
}

/// Puts the rows of a lane behind the others.
fn lane_places(
    alloc: Global,
    stating: Stating<'_>,
    number: usize,
    rows: &mut Vec<Row>,
) -> Result<LanePlaces, AllocError>
    requires { number < length stating.plan.now.lanes }
    ensures more { OnOk result
        (IsExtended stating.entry.universe.now rows.old.items rows.new.items) }
    ensures numbers { IfOk result (λ places. AreRowNumbers stating.entry.universe.now
        (listed_rows stating.entry.plan.now.lanes stating.entry.certificate.now number)
        (length (lane stating.entry.plan.now.lanes number).instructions) places rows.new.items) }
{
    let instructions = stating.plan.lane(number).instructions();
    let mut numbers = Vec::new(alloc);
    let mut used = 0;
    let mut when = None;
    rows.push(Row::new(alloc, stating.universe.names() as usize)?)?;
    numbers.push(rows.len() - 1)?;
    for place in 0..instructions.len() {
        let instruction = &instructions[place];
        let before = numbers[place_before(instruction, place, when)];
        let at = LaneAt {
            number,
            place,
            instruction,
        };
        let next = add_row(stating, at, used, before, rows)?;
        used = next.0;
        numbers.push(next.1)?;
        when = open_behind(instruction, place, when);
    }
    Ok(LanePlaces::new(numbers))
}

/// What the lanes of a plan know, as a certificate states it: at each place the initial archive and
/// the row that is listed behind the last wait, publish or `when` before the place. Behind a branch
/// that ends holds the row ahead of its `when`.
pub fn stated_known(
    alloc: Global,
    universe: &Universe,
    plan: &Plan,
    certificate: &Certificate,
) -> Result<StatedRows, AllocError>
    requires sound { IsUniverse universe.now }
    requires certificate { IsCertificate universe.now plan.now.lanes certificate.now }
    ensures universe { IfOk result (λ known. known.universe ≡ universe.now) }
    ensures plan { IfOk result (λ known. known.plan ≡ plan.now.lanes) }
    ensures rows { IfOk result (λ known. Agree plan.now.lanes (place_rows_of known)
        (stated_rows universe.now plan.now.lanes certificate.now)) }
{
    let archive = initial_row(alloc, universe)?;
    let mut rows = Vec::new(alloc);
    let mut places = Vec::new(alloc);
    let stating = Stating {
        universe,
        plan,
        certificate,
    };
    for number in 0..plan.lanes() {
        places.push(lane_places(alloc, stating, number, &mut rows)?)?;
    }
    Ok(StatedRows::new(universe, plan, places, archive, rows))
}
