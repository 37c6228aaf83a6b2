//! What a lane asks a driver for.

ghost use Rattle.std.specs.Prelude.{◌≡◌, is_err};
ghost use Rattle.std.specs.Option.{option_map};
ghost use Rattle.drive_journal.specs.Said.{note_in};
ghost use Rattle.deb_text.specs.Lists.{lists};
ghost use Rattle.drive_protocol.specs.RequestText as request;
ghost use Rattle.drive_run.specs.Questions as spec;
ghost use Rattle.report_sink.specs.Sinks.{IsWritten};

use crate::known::Known;
use drive_journal::Said;
use drive_protocol::{Head, write_instruction, write_open, write_unpack};
use drive_replay::Note;
use farm_universe::Variant;
use lane_runner::Place;
use plan_reader::{Instruction, name_of, version_of};
use plan_verifier::Accepted;
use report_sink::{Sink, WriteFailed, whether_written};

/// What a lane asks for at a place.
#[derive(Clone, Copy)]
pub enum Asked {
    /// A chroot, as its base is.
    Chroot,
    /// The unpack of this very variant.
    Unpack(Variant),
    /// What its instruction says.
    Instruction,
}

/// A question of a lane.
#[derive(Clone, Copy)]
pub struct Question<'a> {
    pub place: Place<'a>,
    pub asked: Asked,
}

/// The instruction that a lane stands at.
pub fn instruction_at<'a>(place: Place<'a>) -> Option<&'a Instruction>
    ensures { option_map (λ x. x.now) result ≡ spec.instruction_of place.entry.accepted.now.plan
        place.entry.lane place.entry.instruction }
{
    let plan = place.accepted.plan();
    if place.lane as usize >= plan.lanes() {
        return None;
    }
    let index = place.instruction.checked_sub(1)?;
    plan.instruction(place.lane as usize, index as usize)
}

/// What the base chroot of a lane has.
fn base_packages(accepted: &Accepted, lane: u32) -> &[Variant]
    ensures { result.now ≡ spec.base_packages accepted.now lane }
{
    let plan = accepted.plan();
    if lane as usize >= plan.lanes() {
        return &[];
    }
    accepted.keeps();
    let base = plan.lane(lane as usize).base();
    accepted.universe().base(base).packages()
}

/// What the journal says of a question of which an earlier run has noted this.
pub fn said_of<'a>(question: Question<'a>, note: Note) -> Said<'a>
    ensures { note_in result ≡ spec.said_of note.failed
        question.entry.place.accepted.now.universe question.entry.asked }
{
    if note.failed {
        return Said::AskedAgain;
    }
    let universe = question.place.accepted.universe();
    match question.asked {
        Asked::Unpack(variant) => Said::Picked {
            name: name_of(universe, variant.name),
            version: version_of(universe, variant),
        },
        Asked::Chroot | Asked::Instruction => Said::Asked,
    }
}

impl Question<'_> {
    /// Its number: that of the lane's instruction, or 0 for the chroot.
    pub fn number(self) -> u32
        ensures { result ≡ spec.number_of (spec.wanted self.entry) }
    {
        match self.asked {
            Asked::Chroot => 0,
            Asked::Unpack(_) | Asked::Instruction => self.place.instruction,
        }
    }
}

/// How the line of a question begins.
fn head_of<'a>(known: &'a Known, question: Question<'_>) -> Head<'a>
    ensures { request.head_text result.again result.lane.now result.number result.chroot.now
        ≡ spec.head_of known.now (spec.wanted question.entry) }
{
    let lane = question.place.lane;
    Head {
        again: known.noted(question).asked,
        lane: known.lane(lane),
        number: question.number(),
        chroot: known.chroot(lane),
    }
}

/// Writes the line of what an instruction says, if there is one.
fn write_at<S: Sink>(
    out: &mut S,
    head: Head<'_>,
    known: &Known,
    place: Place<'_>,
) -> Result<(), WriteFailed>
    ensures written { IsWritten (S.state out.old) (S.state out.new) (spec.instruction_text
        (request.head_text head.entry.again head.entry.lane.now head.entry.number
        head.entry.chroot.now) place.entry.accepted.now.universe (lists known.now.recipes.items)
        place.entry.chroot.now.slots (spec.instruction_of place.entry.accepted.now.plan
        place.entry.lane place.entry.instruction)) }
    ensures told { is_err result ≡ (S.state out.new).failed }
{
    let universe = place.accepted.universe();
    let recipes = known.recipes.as_slice();
    match instruction_at(place) {
        Some(of) => write_instruction(out, head, universe, recipes, place.chroot, of),
        None => whether_written(out),
    }
}

/// Writes the line of a question.
///
/// # Errors
///
/// [`WriteFailed`] where the sink has failed.
#[tactic(auto, unfolding(crate::specs::Questions::question_text))]
pub fn write_question<S: Sink>(
    out: &mut S,
    known: &Known,
    question: Question<'_>,
) -> Result<(), WriteFailed>
    ensures written { IsWritten (S.state out.old) (S.state out.new)
        (spec.question_text known.now (spec.wanted question.entry)) }
    ensures told { is_err result ≡ (S.state out.new).failed }
{
    let place = question.place;
    let universe = place.accepted.universe();
    let head = head_of(known, question);
    match question.asked {
        Asked::Chroot => write_open(
            out,
            head,
            universe,
            base_packages(place.accepted, place.lane),
        ),
        Asked::Unpack(variant) => write_unpack(out, head, universe, variant),
        Asked::Instruction => write_at(out, head, known, place),
    }
}
