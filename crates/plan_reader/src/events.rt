//! How many events a plan has.

ghost use Rattle.std.specs.Prelude.{◌≡◌, ◌<◌, ◌≤◌, ◌^◌, ◌*◌, ◌+◌, ℕ, length};
ghost use Rattle.plan_reader.specs.Drafts.{instructions_of};
ghost use Rattle.plan_reader.specs.Ends.{IsWithinLimits};
ghost use Rattle.plan_reader.specs.LongestWays.{ways_of, AreWithin};
ghost use Rattle.plan_model.specs.Plan.{events_of, ways_ahead, ways, count};

use crate::lane::Lane;
use farm_universe::Universe;
use plan_model::Instruction;

/// The most events to a lane's end: from here, from behind the next `else`, and from behind the
/// next `end`.
#[derive(Clone, Copy)]
pub struct Ways {
    pub here: usize,
    pub past_else: usize,
    pub past_end: usize,
}

/// A publish has one for each output, an `else` and an `end` none, any other instruction one.
fn events_of(universe: &Universe, instruction: &Instruction) -> usize
    ensures events { result ≡ events_of universe.now instruction.now }
    ensures few { result < 2 ^ 32 }
{
    match instruction {
        Instruction::Publish(recipe) => universe.outputs(*recipe).len(),
        Instruction::Otherwise | Instruction::EndWhen => 0,
        Instruction::Unpack { .. }
        | Instruction::Configure(_)
        | Instruction::Deconfigure(_)
        | Instruction::Remove(_)
        | Instruction::Build(_)
        | Instruction::Wait(_)
        | Instruction::When { .. } => 1,
    }
}

/// Ahead of an instruction, from the ways behind it.
fn ways_ahead(universe: &Universe, instruction: &Instruction, behind: Ways) -> Ways
    requires { AreWithin (2 ^ 60) behind }
    ensures ways { ways_of result ≡ ways_ahead universe.now instruction.now (ways_of behind) }
    ensures few { (n : ℕ) → AreWithin n behind → AreWithin (n + 2 ^ 32) result }
{
    let events = events_of(universe, instruction);
    match instruction {
        Instruction::When { .. } => Ways {
            here: behind.here.max(behind.past_else) + 1,
            ..behind
        },
        Instruction::Otherwise => Ways {
            here: behind.past_end,
            past_else: behind.here,
            past_end: behind.past_end,
        },
        Instruction::EndWhen => Ways {
            past_end: behind.here,
            ..behind
        },
        Instruction::Unpack { .. }
        | Instruction::Configure(_)
        | Instruction::Deconfigure(_)
        | Instruction::Remove(_)
        | Instruction::Build(_)
        | Instruction::Publish(_)
        | Instruction::Wait(_) => Ways {
            here: events + behind.here,
            ..behind
        },
    }
}

fn lane_events(universe: &Universe, instructions: &[Instruction]) -> usize
    requires { length instructions.now ≤ 65536 }
    ensures events { result ≡ (ways universe.now instructions.now).here }
    ensures few { result ≤ length instructions.now * 2 ^ 32 }
{
    let mut ways = Ways {
        here: 0,
        past_else: 0,
        past_end: 0,
    };
    for i in (0..instructions.len()).rev() {
        ways = ways_ahead(universe, &instructions[i], ways);
    }
    ways.here
}

/// The events of all lanes, each on its longest way.
pub fn count_events(universe: &Universe, lanes: &[Lane]) -> usize
    requires { IsWithinLimits lanes.now }
    ensures { result ≡ count universe.now lanes.now }
{
    let mut events = 0;
    for lane in lanes {
        events += lane_events(universe, lane.instructions());
    }
    events
}
