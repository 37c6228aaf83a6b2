//! Notes on the unsafe instructions of a plan's lanes, and on branches that part.

ghost use Rattle.std.specs.Prelude.{◌≡◌, ◌<◌, ◌++◌, length, true, Some, IfOk, OnOk};
ghost use Rattle.may_rows.specs.Words.{may_of};
ghost use Rattle.plan_model.specs.Join as join;
ghost use Rattle.plan_verifier.specs.Stage.{IsWhole, of_stage};
ghost use Rattle.explain_lanes.specs.LaneNotes as spec;
ghost use Rattle.explain_lanes.specs.Notes.{all_facts, further_facts};
ghost use Rattle.explain_reasons.specs.Removals.{lane_hazard, lane_left, left_warnings};

use crate::further::{Further, further_of};
use crate::note::{Note, Told, note_at};
use crate::subject::{Publications, Spot, Subject};
use crate::text::Piece::Instruction;
use crate::text::Text;
use crate::why::Inquiry;
use explain_reasons::{LaneHazard, Left, look_along, reasons, unmet_entries};
use farm_report::refusal_text;
use farm_universe::Universe;
use known_rows::KnownWords;
use may_rows::MayHold;
use plan_verifier::walk::walk_to;
use plan_verifier::{Branch, Refusal, Stage};
use std::alloc::{AllocError, Global};

/// Tells whether a name is in one phase in two chroots.
#[tactic(auto, using(crate::proofs::Hazards::phase_is))]
fn is_same_phase(first: &MayHold, second: &MayHold, name: u32) -> bool
    ensures { result ≡ join.is_same_phase ((may_of first.now).slots name)
        ((may_of second.now).slots name) }
{
    if first.is_unpacked(name) {
        second.is_unpacked(name)
    } else if first.is_configured(name) {
        second.is_configured(name)
    } else {
        !second.is_present(name)
    }
}

/// The first name that is not in one phase.
fn parting_name(universe: &Universe, first: &MayHold, second: &MayHold) -> Option<u32>
    ensures { result ≡ spec.parting_name universe.now (may_of first.now) (may_of second.now) }
{
    (0..universe.names()).find(|name| !is_same_phase(first, second, *name))
}

/// The first name that is not in one phase, with its lines put behind a text.
#[tactic(auto, using(crate::proofs::Hazards::some_parts))]
fn push_phases(
    text: &mut Text<'_>,
    universe: &Universe,
    first: &MayHold,
    second: &MayHold,
) -> Result<u32, AllocError>
    requires { join.phases_differ universe.now (may_of first.now) (may_of second.now) ≡ true }
    ensures { IfOk result (λ name. Some name
        ≡ spec.parting_name universe.now (may_of first.now) (may_of second.now)) }
{
    let Some(name) = parting_name(universe, first, second) else {
        unreachable!()
    };
    text.say(b"  behind the first branch ", &[])?;
    text.push_held(first, name, None, false)?;
    text.say(b"\n  behind the second branch ", &[])?;
    text.push_held(second, name, None, false)?;
    text.say(b"\n", &[])?;
    Ok(name)
}

/// The line of the refusal for an instruction that may meet a trap, or for the `when` of branches
/// that part.
fn hazard_line(at: Spot<'_>, hazard: LaneHazard) -> Result<Vec<u8>, AllocError> {
    let lane = Vec::from_slice(at.of.alloc, at.of.plan.lane(at.lane).name())?;
    let instruction = hazard.instruction;
    let refusal = match hazard.trap {
        Some(trap) => Refusal::Unsafe {
            lane,
            instruction,
            trap,
        },
        None => Refusal::Uneven { lane, instruction },
    };
    refusal_text(at.of.alloc, &refusal)
}

/// What is told of a lane's first hazard, and further, and that as lines behind others: why the
/// instruction may meet a trap, or what may be held behind each branch of the first name whose phases
/// differ.
#[tactic(auto, using(crate::proofs::Hazards::within_lane))]
fn push_told<K: KnownWords>(
    text: &mut Text<'_>,
    stage: &Stage<'_, K>,
    at: Spot<'_>,
    hazard: LaneHazard,
) -> Result<(Told, Further), AllocError>
    requires stage { IsWhole K.known stage.now }
    requires same { at.of.plan.now ≡ stage.now.plan.now }
    requires hazard { Some hazard ≡ of_stage K.known stage.now lane_hazard at.lane }
    ensures told { IfOk result (λ found. Some found.0 ≡ of_stage K.known stage.now
        spec.hazard_told at.entry.lane hazard.place hazard.trap) }
    ensures further { IfOk result (λ found. further_facts found.1 ≡ of_stage K.known stage.now
        spec.told_further at.entry.lane hazard.place found.0) }
{
    let alloc = at.of.alloc;
    // The walk has come to this place before: it can end for want of memory alone.
    let Ok(may) = walk_to(alloc, stage, at.lane, hazard.place) else {
        return Err(AllocError);
    };
    let Some(trap) = hazard.trap else {
        let Branch::Second { first, .. } = &may.branch else {
            unreachable!()
        };
        let name = push_phases(text, stage.universe, first, &may.here)?;
        return Ok((Told::Uneven(name), Further::Nothing));
    };
    let found = reasons(alloc, stage, at.lane, hazard.place, &may, trap)?;
    let Some(reason) = found.first().copied() else {
        unreachable!()
    };
    let further = further_of(alloc, stage, at.lane, &may.here, reason)?;
    let unmet = unmet_entries(found);
    let inquiry = Inquiry {
        stage,
        spot: at,
        state: &may.here,
        reason,
        further: &further,
        unmet: &unmet,
    };
    inquiry.push_why(text)?;
    Ok((Told::Trap(reason), further))
}

/// Puts the note on a lane's first hazard behind others, where it has one: the line of its refusal,
/// where the instruction stands, and what is told. Puts what its `remove`s may leave behind `left`.
#[tactic(auto, using(crate::proofs::Hazards::told_in_lane))]
fn push_lane<K: KnownWords>(
    notes: &mut Vec<Note>,
    left: &mut Vec<Left>,
    stage: &Stage<'_, K>,
    of: Subject<'_>,
    lane: usize,
) -> Result<(), AllocError>
    requires stage { IsWhole K.known stage.now }
    requires same { of.plan.now ≡ stage.now.plan.now }
    requires in_plan { lane < length stage.now.plan.now.lanes }
    ensures notes { OnOk result (all_facts notes.new.items ≡ all_facts notes.old.items
        ++ of_stage K.known stage.now spec.lane_notes stage.now.plan.now.lines.lanes lane) }
    ensures left { OnOk result (left.new.items ≡ left.old.items
        ++ of_stage K.known stage.now lane_left lane) }
{
    let Some(hazard) = look_along(of.alloc, stage, lane, left)? else {
        return Ok(());
    };
    let place = hazard.instruction.saturating_sub(1) as usize;
    let at = Spot { of, lane, place };
    let mut text = Text::new(of);
    text.say(b"%\n", &[Instruction(lane, place)])?;
    let (told, further) = push_told(&mut text, stage, at, hazard)?;
    let mut note = note_at(at, hazard.trap, told, further, text.bytes)?;
    note.head = hazard_line(at, hazard)?;
    notes.push(note)?;
    Ok(())
}

/// Gives what is said of the unsafe instructions of a plan: for each lane that has one a note on
/// the first, with the line of its refusal, its line in the plan, and why. None for a plan that is
/// safe. Puts what the `remove`s of the lanes may leave behind `left`, in one walk over each lane.
#[tactic(auto, using(explain_reasons::proofs::FirstLaws::all_more), unfolding(crate::specs::LaneNotes::unsafe_notes, explain_reasons::specs::Removals::left_warnings))]
pub fn lane_notes<K: KnownWords>(
    alloc: Global,
    stage: &Stage<'_, K>,
    left: &mut Vec<Left>,
) -> Result<Vec<Note>, AllocError>
    requires { IsWhole K.known stage.now }
    ensures notes { IfOk result (λ notes. all_facts notes.items ≡ of_stage K.known stage.now
        spec.unsafe_notes stage.now.plan.now.lines.lanes) }
    ensures left { OnOk result (left.new.items ≡ left.old.items
        ++ of_stage K.known stage.now left_warnings) }
{
    let publications = Publications::of_plan(alloc, stage.universe, stage.plan)?;
    let of = Subject {
        alloc,
        universe: stage.universe,
        tables: stage.tables,
        plan: stage.plan,
        outputs: stage.outputs,
        publications: &publications,
    };
    let mut notes = Vec::new(alloc);
    for lane in 0..stage.plan.lanes() {
        push_lane(&mut notes, left, stage, of, lane)?;
    }
    Ok(notes)
}

/// The notes on the unsafe instructions of a plan that is refused for one, or for branches that
/// part, begin with one on the instruction of that refusal. It does nothing.
#[tactic(auto, using(crate::proofs::NoteLaws::notes_begin_with_the_verdict))]
pub fn notes_begin_with_the_verdict()
    ensures { spec.NotesBeginWithTheVerdict }
{}

/// Each lane that has an unsafe instruction, or branches that part, has one note on the first. It
/// does nothing.
#[tactic(auto, using(crate::proofs::NoteLaws::each_hazard_is_told))]
pub fn each_hazard_is_told()
    ensures { spec.EachHazardIsTold }
{}
