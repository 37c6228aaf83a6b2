//! One turn of a lane.

ghost use Rattle.std.specs.Prelude.{◌≡◌, ◌<◌, ◌≤◌, ◌++◌, ◌∷◌, [], ℕ, suc, Bool, true, false, Some, length};
ghost use Rattle.deb_relation.specs.Relations.{Entry};
ghost use Rattle.farm_archive.specs.declared.publication.Publication as publication;
ghost use Rattle.archive_laws.specs.Records.{Record};
ghost use Rattle.farm_model.specs.declared.types.Variant as variant;
ghost use Rattle.lane_runner.specs.Calls.{HasKept, IsBranched, IsLastOutput, IsPicked, IsRunning, IsSameEnd};
ghost use Rattle.lane_runner.specs.OnWay.{IsOnWay};
ghost use Rattle.lane_runner.specs.declared.turn.Turn.TheVariants.{Moved, Unpacked, Branched, Published, Waits};
ghost use Rattle.plan_reader.specs.declared.error.TheConstants.{MOST_INSTRUCTIONS};
ghost use Rattle.plan_model.specs.Common.{instruction_at, lane, is_archive_step};
ghost use Rattle.plan_model.specs.declared.instructions.Instruction.TheVariants.{Wait};
ghost use Rattle.plan_verifier.specs.Accepted.{known_rows};

use crate::archive::LaneArchive;
use crate::runner::{Runner, lane_of};
use chroot_state::Chroot;
use farm_archive::Publication;
use farm_universe::Variant;
use plan_reader::Instruction;
use plan_verifier::Accepted;

/// What a lane did at its turn.
#[derive(Clone, Copy, Debug, PartialEq, Eq)]
pub enum Turn {
    /// It is behind its instruction.
    Moved,
    /// It has unpacked this.
    Unpacked(Variant),
    /// It is in a branch of its `when`, the first one or not.
    Branched(bool),
    /// It has published this, an output of the publish that it stood at.
    Published(Publication),
    /// It waits for the archive.
    Waits,
}

impl Runner {
    /// Tells whether the lane has no instruction left.
    pub fn has_ended(&self, accepted: &Accepted) -> bool
        requires { self.now.lane < length accepted.now.plan }
        ensures ends { result ≡ true
            → length (lane accepted.now.plan self.now.lane).instructions ≤ self.now.done }
        ensures left { result ≡ false
            → self.now.done < length (lane accepted.now.plan self.now.lane).instructions }
        ensures few { result ≡ false → self.now.done < MOST_INSTRUCTIONS }
    {
        self.done as usize >= lane_of(accepted, self.lane).instructions().len()
    }

    /// Carries out an instruction that does not look at the archive.
    fn local(&mut self, accepted: &Accepted, chroot: &mut Chroot, instruction: &Instruction)
        requires local { is_archive_step instruction.now ≡ false }
        requires here { instruction_at accepted.now.plan self.old.lane self.old.done
            ≡ Some instruction.now }
        requires on { (r : Record) × IsOnWay accepted.now.universe accepted.now.plan
            (known_rows accepted.now) self.old chroot.old r }
        ensures lane { self.new.lane ≡ self.old.lane }
        ensures moves { self.old.done < self.new.done }
        ensures on { (r : Record) → IsOnWay accepted.now.universe accepted.now.plan
            (known_rows accepted.now) self.old chroot.old r
            → IsOnWay accepted.now.universe accepted.now.plan (known_rows accepted.now) self.new
            chroot.new r }
    {
        accepted.keeps();
        let universe = accepted.universe();
        let lane = lane_of(accepted, self.lane);
        match instruction {
            Instruction::Configure(members) => {
                self.configure(universe, lane, chroot, members.as_slice());
            }
            Instruction::Deconfigure(members) => {
                self.deconfigure(universe, lane, chroot, members.as_slice());
            }
            Instruction::Remove(members) => {
                self.remove(universe, lane, chroot, members.as_slice());
            }
            Instruction::Build(recipe) => self.build(universe, lane, *recipe),
            // no lane stands at an `else` or an `end`
            _ => unreachable!(),
        }
    }

    /// Takes the lane's turn: carries out an instruction, makes the next output of a publish, looks
    /// which branch to take, or whether a wait passes. No trap is met.
    pub fn turn<A: LaneArchive>(
        &mut self,
        accepted: &Accepted,
        chroot: &mut Chroot,
        archive: &mut A,
    ) -> Turn
        requires running { IsRunning accepted.now self.old chroot.old (A.about archive.old)
            (A.lane archive.old) (A.log archive.old) }
        requires left { self.old.done
            < length (lane accepted.now.plan self.old.lane).instructions }
        ensures same { IsSameEnd (A.home archive.old) (A.about archive.old) (A.lane archive.old)
            (A.home archive.new) (A.about archive.new) (A.lane archive.new) }
        ensures kept { HasKept (A.log archive.old) (A.log archive.new) }
        ensures running { IsRunning accepted.now self.new chroot.new (A.about archive.new)
            (A.lane archive.new) (A.log archive.new) }
        ensures last { (h : publication.Publication) → result ≡ Published h
            → IsLastOutput accepted.now.universe accepted.now.plan (A.lane archive.new)
            (A.log archive.new) h }
        ensures drawn { (h : publication.Publication) → result ≡ Published h
            → (A.log archive.new).serials ≡ (A.log archive.old).serials ++ h.serial ∷ [] }
        ensures moved { result ≡ Moved → self.old.done < self.new.done }
        ensures picked { (v : variant.Variant) → result ≡ Unpacked v
            → (self.old.done < self.new.done) × (self.new.done ≤ MOST_INSTRUCTIONS)
            × IsPicked accepted.now self.old.lane (suc self.old.done) chroot.new
            (A.log archive.new) v }
        ensures branched { (holds : Bool) → result ≡ Branched holds
            → (self.old.done < self.new.done)
            × IsBranched accepted.now self.old.lane (suc self.old.done) (A.log archive.new)
            holds }
        ensures waits { result ≡ Waits → (self.new ≡ self.old) × ((entry : Entry)
            × (instruction_at accepted.now.plan self.old.lane self.old.done ≡ Some (Wait entry))) }
    {
        let instruction = &lane_of(accepted, self.lane).instructions()[self.done as usize];
        match instruction {
            Instruction::Unpack { name, relation } => {
                Turn::Unpacked(self.unpack(accepted, chroot, archive, *name, relation))
            }
            Instruction::Publish(recipe) => {
                Turn::Published(self.publish(accepted, chroot, archive, *recipe))
            }
            Instruction::Wait(entry) => {
                if self.wait(accepted, chroot, archive, entry) {
                    Turn::Moved
                } else {
                    Turn::Waits
                }
            }
            Instruction::When { name, relation } => {
                Turn::Branched(self.branch(accepted, chroot, archive, *name, relation))
            }
            _ => {
                self.local(accepted, chroot, instruction);
                Turn::Moved
            }
        }
    }
}
