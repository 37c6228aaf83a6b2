//! In which branch a line stands.

ghost use Rattle.std.specs.Prelude.{◌≡◌};
ghost use Rattle.plan_reader.specs.Drafts.{is_outside, is_first};
ghost use Rattle.plan_reader.specs.Said.{allows};
ghost use Rattle.plan_reader.specs.View.{side_of};
ghost use Rattle.plan_model.specs.Branches.{second_of, side_behind, home};

use crate::said::Standing;
use plan_model::Instruction;

/// In which branch the next line of a plan stands, with the number of the line of its `when`.
#[derive(Clone, Copy)]
pub enum Side {
    Outside,
    First(u32),
    Second(u32),
}

impl Side {
    /// Tells whether the next line stands outside of all branches.
    pub const fn is_outside(self) -> bool
        ensures { result ≡ is_outside (side_of self) }
    {
        matches!(self, Side::Outside)
    }

    const fn is_first(self) -> bool
        ensures { result ≡ is_first (side_of self) }
    {
        matches!(self, Side::First(_))
    }

    /// Tells whether an instruction may stand here that stands so by its kind.
    pub const fn allows(self, standing: Standing) -> bool
        ensures { result ≡ allows (side_of self) standing }
    {
        match standing {
            Standing::Anywhere => true,
            Standing::OutOfBranches | Standing::OpensBranches => self.is_outside(),
            Standing::InFirstBranch => self.is_first(),
        }
    }

    /// Behind an `else`.
    const fn second(self) -> Side
        ensures { side_of result ≡ second_of (side_of self) }
    {
        match self {
            Side::First(line) => Side::Second(line),
            Side::Outside | Side::Second(_) => self,
        }
    }

    /// Behind an instruction, which stands at the line of this number.
    pub fn behind(self, number: u32, instruction: &Instruction) -> Side
        ensures { side_of result ≡ side_behind number (side_of self) instruction.now }
    {
        match instruction {
            Instruction::When { .. } => Side::First(number),
            Instruction::Otherwise => self.second(),
            Instruction::EndWhen => Side::Outside,
            Instruction::Unpack { .. }
            | Instruction::Configure(_)
            | Instruction::Deconfigure(_)
            | Instruction::Remove(_)
            | Instruction::Build(_)
            | Instruction::Publish(_)
            | Instruction::Wait(_) => self,
        }
    }

    /// The line of the open `when`; outside of all branches, this line.
    pub const fn home(self, line: u32) -> u32
        ensures { result ≡ home (side_of self) line }
    {
        match self {
            Side::Outside => line,
            Side::First(when) | Side::Second(when) => when,
        }
    }
}
