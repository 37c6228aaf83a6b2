//! The instructions of a lane.

ghost use Rattle.std.specs.Prelude.{◌≡◌, [], IfSome, IfNone};
ghost use Rattle.plan_model.specs.Known.{teaches, published_by};
ghost use Rattle.plan_model.specs.declared.instructions.Instruction.TheVariants.{Publish};

use deb_relation::{Entry, Op};
use deb_version::Version;
use std::marker::Model;

/// The members of a set of packages, by the numbers of their names, as they were written.
#[derive(Drop)]
pub struct Members {
    names: Vec<u32>,
}

impl Model for Members {
    ghost use Rattle.std.specs.Prelude.{List, ℕ};

    ghost Value = { List ℕ };

    ghost view = { λ members. members.names.items };
}

impl Members {
    /// Makes a set of these names.
    pub fn new(names: Vec<u32>) -> Members
        ensures { result ≡ names.items }
    {
        Members { names }
    }

    /// Gives the names in their order.
    pub fn as_slice(&self) -> &[u32]
        ensures { result.now ≡ self.now }
    {
        self.names.as_slice()
    }
}

/// One instruction of a lane. Names and recipes go by their numbers in the universe.
#[derive(Drop)]
pub enum Instruction {
    /// Unpacks the highest variant of the name that is in the archive and in the relation.
    Unpack {
        name: u32,
        relation: Option<(Op, Version)>,
    },
    /// Configures unpacked packages together.
    Configure(Members),
    /// Takes configured packages back to unpacked.
    Deconfigure(Members),
    /// Removes packages and all that is known of them.
    Remove(Members),
    /// Builds a recipe in the chroot.
    Build(u32),
    /// Publishes the outputs of a recipe that was built, one by one.
    Publish(u32),
    /// Waits until some variant in the archive satisfies the entry.
    Wait(Entry),
    /// Begins two branches: the first is taken where the archive has a variant of the name in the
    /// relation.
    When {
        name: u32,
        relation: Option<(Op, Version)>,
    },
    /// Ends the first branch of the open `when`, and begins the second one.
    Otherwise,
    /// Ends the second branch.
    EndWhen,
}

impl Instruction {
    /// Tells whether a lane may know more behind the instruction: it waits, publishes or looks
    /// which branch to take.
    pub fn teaches(&self) -> bool
        ensures { result ≡ teaches self.now }
    {
        match self {
            Instruction::Wait(_) | Instruction::Publish(_) | Instruction::When { .. } => true,
            Instruction::Unpack { .. }
            | Instruction::Configure(_)
            | Instruction::Deconfigure(_)
            | Instruction::Remove(_)
            | Instruction::Build(_)
            | Instruction::Otherwise
            | Instruction::EndWhen => false,
        }
    }

    /// The recipe that the instruction publishes, if it publishes one.
    pub fn published(&self) -> Option<u32>
        ensures some { IfSome result (λ recipe. self.now ≡ Publish recipe) }
        ensures none { IfNone result (published_by self.now ≡ []) }
    {
        match self {
            Instruction::Publish(recipe) => Some(*recipe),
            Instruction::Unpack { .. }
            | Instruction::Configure(_)
            | Instruction::Deconfigure(_)
            | Instruction::Remove(_)
            | Instruction::Build(_)
            | Instruction::Wait(_)
            | Instruction::When { .. }
            | Instruction::Otherwise
            | Instruction::EndWhen => None,
        }
    }
}
