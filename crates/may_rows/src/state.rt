//! What a chroot may hold at a place of a lane, and the tests of its rows.

ghost use Rattle.std.specs.Prelude.{◌≡◌, Bool, length, slice_index};
ghost use Rattle.deb_relation.specs.Relations.{Entry};
ghost use Rattle.farm_model.specs.Common.{variant, satisfies, satisfies_entry, Universe};
ghost use Rattle.farm_model.specs.declared.types.Variant.{Variant};
ghost use Rattle.plan_model.specs.Common.{some_name, may_hold, surely_met, is_surely_unpacked, is_surely_configured, is_surely_present, was_built};
ghost use Rattle.sat_rows.specs.Rows.{IsRowOf};
ghost use Rattle.may_rows.specs.Words.{AreWords, may_of, some_name_inside};

use bit_rows::Row;
use deb_relation::Atom;
use farm_universe::Universe;
use sat_rows::{Tables, word_of};
use std::marker::Model;

/// For each name, by number, what a chroot may hold of it: a word whose bits are variants.
#[derive(Drop)]
pub struct MayHold {
    /// What may be present, 0 for an absent name.
    pub(crate) here: Vec<u64>,
    /// The same where it is configured, else 0.
    pub(crate) ready: Vec<u64>,
    /// What may have been configured last.
    pub(crate) last: Vec<u64>,
    /// What is in one of `here` and `last`, where something was configured before.
    pub(crate) both: Vec<u64>,
    /// The most disk space that may be taken, in KiB.
    pub(crate) used: u64,
    /// The most that the lane has spent, in steps.
    pub(crate) cost: u64,
    /// For each recipe whether it was surely built.
    pub(crate) built: Vec<bool>,
}

impl Model for MayHold {
    ghost use Rattle.may_rows.specs.Words.{Words};

    ghost Value = { Words };

    ghost view = { λ m. record {
      here = m.here.items;
      ready = m.ready.items;
      last = m.last.items;
      both = m.both.items;
      used = m.used;
      cost = m.cost;
      built = m.built.items;
    } };
}

impl MayHold {
    /// What may be present of a name.
    pub fn here_word(&self, name: u32) -> u64
        ensures { result ≡ slice_index self.now.here name }
    {
        word_of(&self.here, name)
    }

    /// What may be configured of a name.
    pub fn ready_word(&self, name: u32) -> u64
        ensures { result ≡ slice_index self.now.ready name }
    {
        word_of(&self.ready, name)
    }

    /// What may have been configured last of a name.
    pub fn last_word(&self, name: u32) -> u64
        ensures { result ≡ slice_index self.now.last name }
    {
        word_of(&self.last, name)
    }

    /// Tells whether a name surely holds an unpacked variant that is not configured.
    pub fn is_unpacked(&self, name: u32) -> bool
        ensures { result ≡ is_surely_unpacked ((may_of self.now).slots name) }
    {
        self.here_word(name) != 0 && self.ready_word(name) == 0
    }

    /// Tells whether a name surely holds a configured variant.
    pub fn is_configured(&self, name: u32) -> bool
        ensures { result ≡ is_surely_configured ((may_of self.now).slots name) }
    {
        self.here_word(name) != 0 && self.ready_word(name) != 0
    }

    /// Tells whether a name surely holds a variant.
    pub fn is_present(&self, name: u32) -> bool
        ensures { result ≡ is_surely_present ((may_of self.now).slots name) }
    {
        self.here_word(name) != 0
    }

    /// Tells whether a recipe was surely built.
    pub fn was_built(&self, recipe: u32) -> bool
        ensures { result ≡ was_built self.now.built recipe }
    {
        match self.built.get(recipe as usize) {
            Some(built) => *built,
            None => false,
        }
    }

    /// The most disk space that may be taken, in KiB.
    pub fn used(&self) -> u64
        ensures { result ≡ self.now.used }
    {
        self.used
    }

    /// The most that the lane has spent, in steps.
    pub fn cost(&self) -> u64
        ensures { result ≡ self.now.cost }
    {
        self.cost
    }

    /// Tells whether an entry is surely met, by the row of what satisfies it (Debian Policy 7.2).
    pub fn surely_meets(&self, row: &Row) -> bool
        requires { length self.now.ready ≡ length row.now }
        ensures { (u : Universe) (e : Entry) → AreWords u self.now
            → IsRowOf u (satisfies_entry u e) row.now
            → result ≡ surely_met u (may_of self.now) e }
    {
        row.is_met_by(&self.ready)
    }

    /// Tells whether a present variant may be in a row.
    pub fn may_hit(&self, row: &Row) -> bool
        requires { length self.now.here ≡ length row.now }
        ensures { (u : Universe) (p : Variant → Bool) → AreWords u self.now → IsRowOf u p row.now
            → result ≡ some_name u (may_of self.now)
            (λ n s. may_hold u n (λ b. p (variant n b)) s) }
    {
        row.is_hit_by(&self.here)
    }

    /// Tells whether some name has configured variants, and all of them are in a row.
    pub fn has_ready_inside(&self, row: &Row) -> bool
        requires { length self.now.ready ≡ length row.now }
        ensures { (u : Universe) (p : Variant → Bool) → AreWords u self.now → IsRowOf u p row.now
            → result ≡ some_name_inside u self.now.ready p }
    {
        row.is_met_by(&self.ready)
    }

    /// Tells whether some name was configured before, and its present and its last configured
    /// variants all satisfy an alternative.
    pub fn both_satisfy(&self, universe: &Universe, tables: &Tables, atom: &Atom) -> bool
        requires same { tables.now ≡ universe.now }
        requires words { AreWords universe.now self.now }
        ensures { result
            ≡ some_name_inside universe.now self.now.both (satisfies universe.now atom.now) }
    {
        tables.has_name_inside(universe, atom, &self.both)
    }
}
