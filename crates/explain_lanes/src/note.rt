//! Notes on a plan, and what they tell.

ghost use Rattle.std.specs.Prelude.{◌≡◌, IfOk};
ghost use Rattle.explain_lanes.specs.Notes as spec;

use crate::further::Further;
use crate::subject::Spot;
use deb_text::Fault;
use explain_reasons::Reason;
use farm_universe::{Trap, Variant};
use plan_reader::Origin;
use std::alloc::AllocError;

/// Why a lane is stuck.
#[derive(Clone, Copy)]
pub enum Group {
    /// No lane publishes what satisfies its entry.
    Unpublished,
    /// It waits for itself, over other lanes or not.
    Circle,
    /// It waits for lanes that are stuck.
    Behind,
}

/// What a note tells. Names and lanes are told by their numbers.
#[derive(Clone, Copy)]
pub enum Told {
    /// Why an instruction may meet its trap.
    Trap(Reason),
    /// The first name that the branches of a `when` leave in different phases.
    Uneven(u32),
    /// Why a lane is stuck, and the lane that it waits for.
    Stuck(Group, Option<usize>),
    /// A circle of lanes that wait for each other, from this one on.
    Circle(usize),
    /// A wait waits for nothing, since this is in the archive from the start.
    FromStart(Variant),
    /// A wait waits for this, which a lane publishes, or for so many more.
    Coming(Variant, usize),
    /// A text cannot be read.
    Text(Fault),
}

/// An instruction that a note is about: the name of its lane, its number there from 1, its line in
/// the plan's text with that of the `use` that brings it in, and the trap that it may meet.
#[derive(Drop)]
pub struct NotePlace {
    pub lane: Vec<u8>,
    pub instruction: u64,
    pub origin: Option<Origin>,
    pub trap: Option<Trap>,
}

/// One thing that is told of a plan, and what is told further, the instruction that it is about, if
/// any, and how it is spelled, of which no contract says more: of what is unsafe the line of its
/// refusal, and the lines below it.
#[derive(Drop)]
pub struct Note {
    pub told: Told,
    pub further: Further,
    pub place: Option<NotePlace>,
    pub head: Vec<u8>,
    pub text: Vec<u8>,
}

impl Told {
    /// The word of the kind of what is told, by which a script goes.
    #[tactic(auto, unfolding(crate::specs::Notes::kind_word))]
    pub const fn word(self) -> &'static str
        ensures { result.now ≡ spec.kind_word self }
    {
        match self {
            Told::Trap(Reason::Missing(_)) => "missing",
            Told::Trap(Reason::OverBudget { .. }) => "over-budget",
            Told::Trap(Reason::Full { .. }) => "full",
            Told::Trap(Reason::Unmet(..)) => "unmet",
            Told::Trap(Reason::Unsettled(_)) => "unsettled",
            Told::Trap(Reason::BuildNeed(..)) => "build-need",
            Told::Trap(Reason::Conflict(..)) => "conflict",
            Told::Trap(Reason::Breaks(..)) => "breaks",
            Told::Trap(Reason::BuildConflict(..)) => "build-conflict",
            Told::Trap(Reason::WrongState(_)) => "wrong-state",
            Told::Trap(Reason::Essential(_)) => "essential",
            Told::Trap(Reason::NotBuilt(_)) => "not-built",
            Told::Trap(Reason::StillNeeded(..)) => "still-needed",
            Told::Uneven(_) => "uneven",
            Told::Stuck(Group::Unpublished, _) => "unpublished",
            Told::Stuck(Group::Circle, _) => "in-circle",
            Told::Stuck(Group::Behind, _) => "behind",
            Told::Circle(_) => "circle",
            Told::FromStart(_) | Told::Coming(_, _) => "wait",
            Told::Text(_) => "text",
        }
    }
}

/// A note on an instruction that may meet a trap, or on one without.
pub(crate) fn note_at(
    at: Spot<'_>,
    trap: Option<Trap>,
    told: Told,
    further: Further,
    text: Vec<u8>,
) -> Result<Note, AllocError>
    ensures { IfOk result (λ note. spec.facts note ≡ spec.note_at
        at.entry.of.plan.now.lanes at.entry.of.plan.now.lines.lanes at.entry.lane
        at.entry.place trap told (spec.further_facts further)) }
{
    let place = NotePlace {
        lane: Vec::from_slice(at.of.alloc, at.of.plan.lane(at.lane).name())?,
        instruction: at.number() as u64,
        origin: at.of.plan.lines().origin(at.lane, at.place),
        trap,
    };
    Ok(Note {
        told,
        further,
        place: Some(place),
        head: Vec::new(at.of.alloc),
        text,
    })
}
