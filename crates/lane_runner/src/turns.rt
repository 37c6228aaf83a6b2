//! A lane that takes its turns one by one.

ghost use Rattle.std.specs.Prelude.{◌≡◌, ◌<◌, ◌++◌, ◌∷◌, [], ℕ, suc, Bool, None, Some, IfSome, IsSome, length};
ghost use Rattle.chroot_state.specs.Held.{IsHeld, opened};
ghost use Rattle.deb_relation.specs.Relations.{Entry};
ghost use Rattle.farm_archive.specs.declared.publication.Publication as publication;
ghost use Rattle.archive_laws.specs.Records.{after_draw};
ghost use Rattle.farm_model.specs.declared.types.Variant as variant;
ghost use Rattle.lane_runner.specs.Calls.{HasKept, IsBranched, IsLastOutput, IsPicked, IsRunning, IsSameEnd};
ghost use Rattle.lane_runner.specs.OnWay.{IsEnded, IsFresh};
ghost use Rattle.lane_runner.specs.declared.turn.Turn.TheVariants.{Moved, Unpacked, Branched, Published, Waits};
ghost use Rattle.plan_model.specs.Plan.{instruction_at};
ghost use Rattle.plan_model.specs.declared.instructions.Instruction.TheVariants.{Publish, Wait};
ghost use Rattle.plan_model.specs.Plan as plan;

use crate::archive::LaneArchive;
use crate::runner::{Runner, lane_of};
use crate::turn::Turn;
use chroot_state::Chroot;
use plan_reader::Instruction;
use plan_verifier::Accepted;

/// A lane that takes its turns one by one, whenever its caller says so: where it stands, its
/// chroot, and its end of the archive.
#[derive(Drop)]
pub struct LaneTurns<'a, E: LaneArchive + Drop> {
    pub accepted: &'a Accepted,
    pub runner: Runner,
    pub chroot: Chroot,
    pub end: E,
}

impl<'a, E: LaneArchive + Drop> LaneTurns<'a, E> {
    /// A lane at its beginning, in its base chroot, with an end of the archive that has not been
    /// used.
    pub fn new(accepted: &'a Accepted, lane: u32, chroot: Chroot, end: E) -> LaneTurns<'a, E>
        requires lane { lane < length accepted.now.plan }
        requires ours { (E.about end ≡ accepted.now) × (E.lane end ≡ lane) }
        requires chroot { (chroot ≡ opened accepted.now.universe
            (plan.lane accepted.now.plan lane).base) × IsHeld accepted.now.universe chroot }
        requires fresh { IsFresh accepted.now.universe (plan.lane accepted.now.plan lane)
            (E.log end) }
        ensures end { result.end ≡ end }
        ensures running { IsRunning result.accepted.now result.runner result.chroot
            (E.about result.end) (E.lane result.end) (E.log result.end) }
    {
        let runner = Runner::new(accepted, lane, &chroot, &end);
        LaneTurns {
            accepted,
            runner,
            chroot,
            end,
        }
    }

    /// Takes the lane's turn, if it is not at its end: carries out an instruction, makes the next
    /// output of a publish, looks which branch to take, or whether a wait passes. No trap is met.
    pub fn turn(&mut self) -> Option<Turn>
        requires running { IsRunning self.old.accepted.now self.old.runner self.old.chroot
            (E.about self.old.end) (E.lane self.old.end) (E.log self.old.end) }
        ensures same { IsSameEnd (E.home self.old.end) (E.about self.old.end) (E.lane self.old.end)
            (E.home self.new.end) (E.about self.new.end) (E.lane self.new.end) }
        ensures kept { HasKept (E.log self.old.end) (E.log self.new.end) }
        ensures running { IsRunning self.new.accepted.now self.new.runner self.new.chroot
            (E.about self.new.end) (E.lane self.new.end) (E.log self.new.end) }
        ensures ended { result ≡ None → IsEnded self.new.accepted.now.universe
            self.new.accepted.now.plan self.new.runner.lane self.new.runner.spent self.new.chroot
            (E.log self.new.end) }
        ensures last { (h : publication.Publication) → result ≡ Some (Published h)
            → IsLastOutput self.new.accepted.now.universe self.new.accepted.now.plan
            (E.lane self.new.end) (E.log self.new.end) h }
        ensures drawn { (h : publication.Publication) → result ≡ Some (Published h)
            → (E.log self.new.end).serials ≡ (E.log self.old.end).serials ++ h.serial ∷ [] }
        ensures moved { result ≡ Some Moved → self.old.runner.done < self.new.runner.done }
        ensures picked { (v : variant.Variant) → result ≡ Some (Unpacked v)
            → (self.old.runner.done < self.new.runner.done)
            × IsPicked self.new.accepted.now self.old.runner.lane (suc self.old.runner.done)
            self.new.chroot (E.log self.new.end) v }
        ensures branched { (holds : Bool) → result ≡ Some (Branched holds)
            → (self.old.runner.done < self.new.runner.done)
            × IsBranched self.new.accepted.now self.old.runner.lane (suc self.old.runner.done)
            (E.log self.new.end) holds }
        ensures waits { result ≡ Some Waits → (self.new.runner ≡ self.old.runner)
            × ((entry : Entry) × (instruction_at self.old.accepted.now.plan self.old.runner.lane
            self.old.runner.done ≡ Some (Wait entry))) }
    {
        if self.runner.has_ended(self.accepted) {
            return None;
        }
        Some(
            self.runner
                .turn(self.accepted, &mut self.chroot, &mut self.end),
        )
    }

    /// Draws a serial for the output that comes next, where the lane stands at a publish, and
    /// leaves the lane there for good. Gives back its end of the archive.
    pub fn draw(self) -> (Option<u64>, E)
        requires running { IsRunning self.accepted.now self.runner self.chroot (E.about self.end)
            (E.lane self.end) (E.log self.end) }
        ensures same { IsSameEnd (E.home self.entry.end) (E.about self.entry.end)
            (E.lane self.entry.end) (E.home result.1) (E.about result.1) (E.lane result.1) }
        ensures drawn { IfSome result.0
            (λ serial. E.log result.1 ≡ after_draw serial (E.log self.entry.end)) }
        ensures none { result.0 ≡ None → result.1 ≡ self.entry.end }
        ensures some { (recipe : ℕ) → instruction_at self.entry.accepted.now.plan
            self.entry.runner.lane self.entry.runner.done ≡ Some (Publish recipe)
            → IsSome result.0 }
    {
        let LaneTurns {
            accepted,
            runner,
            chroot,
            mut end,
        } = self;
        if runner.has_ended(accepted) {
            return (None, end);
        }
        match &lane_of(accepted, runner.lane).instructions()[runner.done as usize] {
            Instruction::Publish(recipe) => {
                let serial = runner.draw(accepted, &chroot, &mut end, *recipe);
                (Some(serial), end)
            }
            _ => (None, end),
        }
    }
}
