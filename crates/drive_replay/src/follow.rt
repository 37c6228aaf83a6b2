//! A core that follows a journal, entry by entry.

ghost use Rattle.std.specs.Prelude.{◌≡◌, ◌<◌, ◌≤◌, ◌+◌, ◌^◌};
ghost use Rattle.std.specs.Option.{option_map};
ghost use Rattle.drive_journal.specs.Said.{note_in, noted_in};
ghost use Rattle.drive_replay.specs.Follow as spec;
ghost use Rattle.drive_replay.specs.Following.{life_of};

use crate::notes::Notes;
use crate::steps::{here, instruction_at, moves, stands, turns};
use drive_journal::{Entry, Said, read_entry, read_time};
use drive_protocol::lane_named;
use farm_core::Core;
use farm_universe::Variant;
use plan_reader::{Instruction, name_of, version_of};

/// A core that follows a journal, and what is noted by now.
#[derive(Drop)]
pub struct Follower<'a> {
    pub core: Core<'a>,
    pub notes: Notes,
}

/// A name and a version, as an entry tells them.
#[derive(Clone, Copy)]
struct Told<'t> {
    name: &'t [u8],
    version: &'t [u8],
}

/// Tells whether an `ask` may be of an instruction.
fn is_asked(instruction: Option<&Instruction>) -> bool
    ensures { result ≡ spec.is_asked (option_map (λ x. x.now) instruction.entry) }
{
    match instruction {
        Some(
            Instruction::Configure(_)
            | Instruction::Deconfigure(_)
            | Instruction::Remove(_)
            | Instruction::Build(_)
            | Instruction::Publish(_),
        ) => true,
        _ => false,
    }
}

fn unpacked_name(instruction: Option<&Instruction>) -> Option<u32>
    ensures { result ≡ spec.unpacked_name (option_map (λ x. x.now) instruction.entry) }
{
    match instruction {
        Some(Instruction::Unpack { name, .. }) => Some(*name),
        _ => None,
    }
}

/// The variant of a name that a lane's chroot holds.
fn held_bit(core: &Core, lane: u32, name: u32) -> Option<u32>
    ensures { result ≡ spec.held_bit core.now lane name }
{
    if lane as usize >= core.plan().lanes() {
        return None;
    }
    match core.chroot(lane).current(name) {
        Some(variant) => Some(variant.bit),
        None => None,
    }
}

/// Where a lane goes from the `when` that it stands at, into its first branch or its second.
fn when_place(core: &Core, lane: u32, first: bool) -> Option<usize>
    ensures { result ≡ spec.when_place core.now lane first }
{
    let plan = core.plan();
    if lane as usize >= plan.lanes() {
        return None;
    }
    let of = plan.lane(lane as usize);
    let place = core.done(lane) as usize;
    match of.instructions().get(place) {
        Some(Instruction::When { .. }) if first => Some(of.next_place(place)),
        Some(Instruction::When { .. }) => Some(of.else_place(place)),
        _ => None,
    }
}

impl Follower<'_> {
    /// Takes a lane to an instruction at which it may ask.
    fn ahead(&mut self, lane: u32, number: u64) -> Option<()>
        ensures farm { option_map (λ _. self.new.core) result
            ≡ spec.ahead (life_of self.old) lane number }
        ensures notes { self.new.notes ≡ self.old.notes }
    {
        if !self.notes.of(lane, 0).done || self.notes.asked(lane).is_some() {
            return None;
        }
        stands(&mut self.core, lane, number)
    }

    fn ask_chroot(&mut self, lane: u32) -> Option<()>
        ensures life { option_map (λ _. life_of self.new) result
            ≡ spec.chroot_asked (life_of self.old) lane }
        ensures grown { self.new.notes.ranks ≤ self.old.notes.ranks + 1 }
    {
        if self.notes.of(lane, 0).asked {
            return None;
        }
        self.notes.note_ask(lane, 0);
        Some(())
    }

    fn ask_here(&mut self, lane: u32, number: u64) -> Option<()>
        ensures life { option_map (λ _. life_of self.new) result
            ≡ spec.here_asked (life_of self.old) lane number self.old.core }
        ensures grown { self.new.notes.ranks ≤ self.old.notes.ranks + 1 }
    {
        if !is_asked(here(&self.core, lane)) {
            return None;
        }
        self.notes.note_ask(lane, number);
        Some(())
    }

    /// Follows an `ask`.
    fn ask(&mut self, lane: u32, number: u64) -> Option<()>
        ensures life { option_map (λ _. life_of self.new) result
            ≡ spec.asked_for (life_of self.old) lane number }
        ensures grown { self.new.notes.ranks ≤ self.old.notes.ranks + 1 }
    {
        if number == 0 {
            return self.ask_chroot(lane);
        }
        self.ahead(lane, number)?;
        self.ask_here(lane, number)
    }

    /// Notes a variant that was picked, if it is spelled so.
    fn take(&mut self, lane: u32, number: u64, told: Told<'_>, variant: Variant) -> Option<()>
        requires { self.old.notes.ranks + 1 < 2 ^ 64 }
        ensures life { option_map (λ _. life_of self.new) result
            ≡ spec.if_spelled (life_of self.old) lane number told.entry.name.now told.entry.version.now
            self.old.core variant }
        ensures grown { self.new.notes.ranks ≤ self.old.notes.ranks + 1 }
    {
        let universe = self.core.universe();
        if name_of(universe, variant.name) != told.name
            || version_of(universe, variant) != told.version
        {
            return None;
        }
        self.notes.note_pick(lane, number, variant.bit);
        Some(())
    }

    /// Unpacks the name with this number, if its variant is spelled so.
    fn unpack(&mut self, lane: u32, number: u64, told: Told<'_>, name: u32) -> Option<()>
        requires { self.old.notes.ranks + 1 < 2 ^ 64 }
        ensures life { option_map (λ _. life_of self.new) result
            ≡ spec.unpacked_as (life_of self.old) lane number told.entry.name.now told.entry.version.now
            self.old.core name }
        ensures grown { self.new.notes.ranks ≤ self.old.notes.ranks + 1 }
    {
        moves(&mut self.core, lane)?;
        let bit = held_bit(&self.core, lane, name)?;
        self.take(lane, number, told, Variant { name, bit })
    }

    /// Follows a `pick`.
    fn pick(&mut self, lane: u32, number: u64, told: Told<'_>) -> Option<()>
        requires { self.old.notes.ranks + 1 < 2 ^ 64 }
        ensures life { option_map (λ _. life_of self.new) result
            ≡ spec.picked (life_of self.old) lane number told.entry.name.now told.entry.version.now }
        ensures grown { self.new.notes.ranks ≤ self.old.notes.ranks + 1 }
    {
        self.ahead(lane, number)?;
        let name = unpacked_name(here(&self.core, lane))?;
        self.unpack(lane, number, told, name)
    }

    fn go_into(&mut self, lane: u32, number: u64, first: bool) -> Option<()>
        requires { self.old.notes.ranks + 1 < 2 ^ 64 }
        ensures life { option_map (λ _. life_of self.new) result
            ≡ spec.gone_into (life_of self.old) lane number first self.old.core }
        ensures grown { self.new.notes.ranks ≤ self.old.notes.ranks + 1 }
    {
        let place = when_place(&self.core, lane, first)?;
        moves(&mut self.core, lane)?;
        if self.core.done(lane) as usize != place {
            return None;
        }
        self.notes.note_branch(lane, number, first);
        Some(())
    }

    /// Follows a `branch`.
    fn branch(&mut self, lane: u32, number: u64, first: bool) -> Option<()>
        requires { self.old.notes.ranks + 1 < 2 ^ 64 }
        ensures life { option_map (λ _. life_of self.new) result
            ≡ spec.branched (life_of self.old) lane number first }
        ensures grown { self.new.notes.ranks ≤ self.old.notes.ranks + 1 }
    {
        self.ahead(lane, number)?;
        self.go_into(lane, number, first)
    }

    fn make_all(&mut self, lane: u32, number: u64, recipe: u32) -> Option<()>
        requires { self.old.notes.ranks + 1 < 2 ^ 64 }
        ensures life { option_map (λ _. life_of self.new) result
            ≡ spec.all_made (life_of self.old) lane number recipe }
        ensures grown { self.new.notes.ranks ≤ self.old.notes.ranks + 1 }
    {
        let outputs = self.core.universe().outputs(recipe).len();
        turns(&mut self.core, lane, outputs)?;
        self.notes.note_done(lane, number);
        self.notes.note_rank(lane, number);
        Some(())
    }

    fn carry_out(&mut self, lane: u32, number: u64, instruction: &Instruction) -> Option<()>
        requires { self.old.notes.ranks + 1 < 2 ^ 64 }
        ensures life { option_map (λ _. life_of self.new) result
            ≡ spec.carried_out (life_of self.old) lane number instruction.now }
        ensures grown { self.new.notes.ranks ≤ self.old.notes.ranks + 1 }
    {
        match instruction {
            Instruction::Publish(recipe) => return self.make_all(lane, number, *recipe),
            Instruction::Unpack { .. } => {}
            _ => moves(&mut self.core, lane)?,
        }
        self.notes.note_done(lane, number);
        Some(())
    }

    fn finish(&mut self, lane: u32, number: u64) -> Option<()>
        requires { self.old.notes.ranks + 1 < 2 ^ 64 }
        ensures life { option_map (λ _. life_of self.new) result
            ≡ spec.finished_at (life_of self.old) lane number }
        ensures grown { self.new.notes.ranks ≤ self.old.notes.ranks + 1 }
    {
        if number == 0 {
            self.notes.note_done(lane, 0);
            return Some(());
        }
        let instruction = instruction_at(self.core.plan(), lane, number - 1)?;
        self.carry_out(lane, number, instruction)
    }

    /// Follows a `done`.
    fn done(&mut self, lane: u32, number: u64) -> Option<()>
        requires { self.old.notes.ranks + 1 < 2 ^ 64 }
        ensures life { option_map (λ _. life_of self.new) result
            ≡ spec.finished (life_of self.old) lane number }
        ensures grown { self.new.notes.ranks ≤ self.old.notes.ranks + 1 }
    {
        if self.notes.asked(lane) != Some(number) {
            return None;
        }
        self.finish(lane, number)
    }

    /// Follows a `failed`.
    fn fail(&mut self, lane: u32, number: u64) -> Option<()>
        ensures life { option_map (λ _. life_of self.new) result
            ≡ spec.failed (life_of self.old) lane number }
        ensures grown { self.new.notes.ranks ≤ self.old.notes.ranks + 1 }
    {
        if self.notes.asked(lane) != Some(number) {
            return None;
        }
        self.notes.note_failure(lane, number);
        Some(())
    }

    /// Follows an `again`.
    fn ask_again(&mut self, lane: u32, number: u64) -> Option<()>
        ensures life { option_map (λ _. life_of self.new) result
            ≡ spec.asked_again (life_of self.old) lane number }
        ensures grown { self.new.notes.ranks ≤ self.old.notes.ranks + 1 }
    {
        if self.notes.asked(lane) != Some(number) {
            return None;
        }
        self.notes.note_again(lane, number);
        Some(())
    }

    fn follow_said(&mut self, lane: u32, number: u64, said: Said<'_>) -> Option<()>
        requires { self.old.notes.ranks + 1 < 2 ^ 64 }
        ensures life { option_map (λ _. life_of self.new) result
            ≡ spec.followed_note (life_of self.old) lane number (note_in said.entry) }
        ensures grown { self.new.notes.ranks ≤ self.old.notes.ranks + 1 }
    {
        match said {
            Said::Asked => self.ask(lane, number),
            Said::Picked { name, version } => self.pick(lane, number, Told { name, version }),
            Said::Branched(first) => self.branch(lane, number, first),
            Said::Done => self.done(lane, number),
            Said::Failed => self.fail(lane, number),
            Said::AskedAgain => self.ask_again(lane, number),
        }
    }

    /// Follows an entry, if the core can.
    #[tactic(auto, unfolding(crate::specs::Follow::followed))]
    fn follow(&mut self, entry: Entry<'_>) -> Option<()>
        requires { self.old.notes.ranks + 1 < 2 ^ 64 }
        ensures life { option_map (λ _. life_of self.new) result
            ≡ spec.followed (life_of self.old) (noted_in entry.entry) }
        ensures grown { self.new.notes.ranks ≤ self.old.notes.ranks + 1 }
    {
        let lane = lane_named(self.core.plan(), entry.lane)?;
        self.follow_said(lane, entry.number, entry.said)
    }

    /// Follows a line of a journal, if it is an entry and the core can, or tells when the next one
    /// was written.
    pub fn follow_line(&mut self, line: &[u8]) -> Option<()>
        requires { self.old.notes.ranks + 1 < 2 ^ 64 }
        ensures life { option_map (λ _. life_of self.new) result
            ≡ spec.line_followed (life_of self.old) line.now }
        ensures grown { self.new.notes.ranks ≤ self.old.notes.ranks + 1 }
    {
        if let Some(seconds) = read_time(line) {
            self.notes.note_time(seconds);
            return Some(());
        }
        let entry = read_entry(line)?;
        self.follow(entry)
    }
}
