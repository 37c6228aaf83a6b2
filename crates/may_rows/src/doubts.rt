//! Which entries of what is configured are not known to be met.

ghost use Rattle.std.specs.Prelude.{◌≡◌, ◌++◌, true, false, []};
ghost use Rattle.may_rows.specs.Met.{IsDoubted, IsDoubtAfter, upgrades};
ghost use Rattle.may_rows.specs.Words.{may_of};

use crate::state::MayHold;
use plan_reader::Instruction;
use std::alloc::Global;
use std::marker::Model;

/// How many names a list keeps. Where there are more, all that is present is looked at once.
const MOST_NAMES: usize = 64;

/// What a build has to look at: the entries that one of a few names satisfies, and whether a few
/// names are unpacked alone.
#[derive(Drop)]
pub struct Doubts {
    /// Whether something is known at all.
    pub(crate) known: bool,
    /// The names that were unpacked over since each entry of what is configured was known to be
    /// met.
    pub(crate) over: Vec<u32>,
    /// The names that were unpacked or deconfigured since all was known to be configured.
    pub(crate) loose: Vec<u32>,
}

impl Model for Doubts {
    ghost use Rattle.may_rows.specs.Met.{Doubt};

    ghost Value = { Doubt };

    ghost view = { λ doubts. record {
      known = doubts.known;
      over = doubts.over.items;
      loose = doubts.loose.items;
    } };
}

/// Tells whether an instruction unpacks a variant over a configured one.
pub(crate) fn upgrades(state: &MayHold, instruction: &Instruction) -> bool
    ensures { result ≡ upgrades (may_of state.now) instruction.now }
{
    match instruction {
        Instruction::Unpack { name, relation: _ } => state.is_configured(*name),
        Instruction::Configure(_)
        | Instruction::Deconfigure(_)
        | Instruction::Remove(_)
        | Instruction::Build(_)
        | Instruction::Publish(_)
        | Instruction::Wait(_)
        | Instruction::When { .. }
        | Instruction::Otherwise
        | Instruction::EndWhen => false,
    }
}

/// Puts names behind a few others, where they stay few and there is room. Tells whether it did.
fn add_few(names: &mut Vec<u32>, more: &[u32]) -> bool
    ensures { result ≡ true → names.new.items ≡ names.old.items ++ more.now }
{
    names.len() < MOST_NAMES && more.len() < MOST_NAMES && names.extend_from_slice(more).is_ok()
}

impl Doubts {
    /// Nothing is known.
    pub fn new(alloc: Global) -> Doubts
        ensures { result ≡ record { known = false; over = []; loose = [] } }
    {
        Doubts {
            known: false,
            over: Vec::new(alloc),
            loose: Vec::new(alloc),
        }
    }

    /// Notes names that are unpacked over, and some that may be unpacked alone. Where there is no
    /// room for them, nothing is known any more.
    fn note(&mut self, over: &[u32], loose: &[u32])
        ensures { IsDoubted self.old over.now loose.now self.new }
    {
        self.known = self.known && add_few(&mut self.over, over) && add_few(&mut self.loose, loose);
    }

    /// Knows nothing any more: what a chroot may hold has changed otherwise than by an instruction.
    pub fn forget(&mut self)
        ensures { self.new ≡ record { known = false; over = []; loose = [] } }
    {
        self.known = false;
        self.over.clear();
        self.loose.clear();
    }

    /// Goes past a safe instruction, where `upgraded` tells whether it unpacked a variant over a
    /// configured one.
    pub(crate) fn pass(&mut self, instruction: &Instruction, upgraded: bool)
        ensures { IsDoubtAfter upgraded instruction.now self.old self.new }
    {
        match instruction {
            Instruction::Unpack { name, relation: _ } => {
                let name = [*name];
                let over: &[u32] = if upgraded { &name } else { &[] };
                self.note(over, &name);
            }
            Instruction::Deconfigure(members) => self.note(&[], members.as_slice()),
            Instruction::Build(_) => {
                self.known = true;
                self.over.clear();
                self.loose.clear();
            }
            Instruction::Configure(_)
            | Instruction::Remove(_)
            | Instruction::Publish(_)
            | Instruction::Wait(_)
            | Instruction::When { .. }
            | Instruction::Otherwise
            | Instruction::EndWhen => {}
        }
    }
}
