//! Whether all that is present is configured, with each of its entries met.

ghost use Rattle.std.specs.Prelude.{◌≡◌, ◌||◌, ℕ, true, false, length};
ghost use Rattle.std.specs.List.{list_any};
ghost use Rattle.deb_relation.specs.Relations.{Entry};
ghost use Rattle.farm_model.specs.Common.{some_below, unmet, entries, names, Universe};
ghost use Rattle.plan_model.specs.May as may;
ghost use Rattle.plan_model.specs.Risk.{may_be_unsettled};
ghost use Rattle.may_rows.specs.Met as spec;
ghost use Rattle.may_rows.specs.Met.{MayMiss, AreDoubts};
ghost use Rattle.may_rows.specs.Words.{AreWords, may_of};

use crate::doubts::Doubts;
use crate::entries::{misses_depends, misses_pre_depends};
use crate::members::may_hold_configured;
use crate::state::MayHold;
use clause_kernel::same;
use farm_universe::relations::VariantTest;
use farm_universe::{Universe, Variant};
use sat_rows::{Tables, mask};

/// The variants with a Depends or Pre-Depends entry that may not be met.
#[derive(Drop)]
struct MissesEntry<'a> {
    tables: &'a Tables,
    state: &'a MayHold,
}

impl VariantTest for MissesEntry<'_> {
    ghost fits = { λ u t. (t.tables.now ≡ u) × AreWords u t.state.now };

    ghost test = { λ u t v.
        unmet (may.surely_met u (may_of t.state.now)) (entries u v) };

    fn passes(&self, universe: &Universe, variant: Variant) -> bool {
        misses_depends(universe, self.tables, self.state, variant)
            || misses_pre_depends(universe, self.tables, self.state, variant)
    }
}

/// Tells whether a configured variant of a name may have an entry that is not met.
fn misses_at(universe: &Universe, tables: &Tables, state: &MayHold, name: u32) -> bool
    requires same { tables.now ≡ universe.now }
    requires state { AreWords universe.now state.now }
    ensures { result ≡ spec.misses_at universe.now (may_of state.now) name }
{
    may_hold_configured(universe, state, name, &MissesEntry { tables, state })
}

/// Tells whether a configured variant of some name may have an entry that is not met.
fn some_misses(universe: &Universe, tables: &Tables, state: &MayHold) -> bool
    requires same { tables.now ≡ universe.now }
    requires state { AreWords universe.now state.now }
    ensures { result ≡ spec.some_misses universe.now (may_of state.now) }
{
    let count = universe.names();
    for name in 0..count {
        if misses_at(universe, tables, state, name) {
            return true;
        }
    }
    false
}

/// Tells whether some name may hold an unpacked variant alone, by all words.
fn any_unpacked(state: &MayHold) -> bool
    requires { length state.now.here ≡ length state.now.ready }
    ensures { (u : Universe) → AreWords u state.now → result
        ≡ some_below (names u) (λ n. may.is_surely_unpacked ((may_of state.now).slots n)) }
{
    !same(&state.here, &state.ready)
}

/// Tells whether one of these names may hold an unpacked variant alone.
fn some_unpacked_among(state: &MayHold, among: &[u32]) -> bool
    ensures { result
        ≡ list_any (λ k. may.is_surely_unpacked ((may_of state.now).slots k)) among.now }
{
    among.iter().any(|name| state.is_unpacked(*name))
}

/// Tells whether some name may hold an unpacked variant alone, where only what is in doubt is
/// looked at.
fn some_unpacked(state: &MayHold, doubts: &Doubts) -> bool
    requires { length state.now.here ≡ length state.now.ready }
    ensures { (u : Universe) → AreWords u state.now
        → AreDoubts u (may_of state.now) doubts.now → result
        ≡ some_below (names u) (λ n. may.is_surely_unpacked ((may_of state.now).slots n)) }
{
    if doubts.known {
        some_unpacked_among(state, &doubts.loose)
    } else {
        any_unpacked(state)
    }
}

/// Tells whether a configured variant may have an entry that is not met, and that a variant of a
/// name satisfies.
fn misses_over(universe: &Universe, tables: &Tables, state: &MayHold, over: u32) -> bool
    requires same { tables.now ≡ universe.now }
    requires state { AreWords universe.now state.now }
    ensures some { result ≡ true → spec.some_misses universe.now (may_of state.now) ≡ true }
    ensures none { result ≡ false → (n b : ℕ) (e : Entry)
        → MayMiss universe.now (may_of state.now) n b e
        → spec.may_serve universe.now e over ≡ false }
{
    let all = mask(universe, over, None);
    tables.is_missed(over, all, &state.ready)
}

/// Tells whether a configured variant may have an entry that is not met, and that a variant of one
/// of the names that were unpacked over satisfies.
fn some_misses_over(universe: &Universe, tables: &Tables, state: &MayHold, over: &[u32]) -> bool
    requires same { tables.now ≡ universe.now }
    requires state { AreWords universe.now state.now }
    ensures some { result ≡ true → spec.some_misses universe.now (may_of state.now) ≡ true }
    ensures none { result ≡ false → (n b : ℕ) (e : Entry)
        → MayMiss universe.now (may_of state.now) n b e
        → list_any (spec.may_serve universe.now e) over.now ≡ false }
{
    for place in 0..over.len() {
        if misses_over(universe, tables, state, over[place]) {
            return true;
        }
    }
    false
}

/// Tells whether a configured variant of some name may have an entry that is not met, where only
/// what is in doubt is looked at.
fn some_doubted(universe: &Universe, tables: &Tables, state: &MayHold, doubts: &Doubts) -> bool
    requires same { tables.now ≡ universe.now }
    requires state { AreWords universe.now state.now }
    requires doubts { AreDoubts universe.now (may_of state.now) doubts.now }
    ensures { result ≡ spec.some_misses universe.now (may_of state.now) }
{
    if doubts.known {
        some_misses_over(universe, tables, state, &doubts.over)
    } else {
        some_misses(universe, tables, state)
    }
}

/// Tells whether a present variant may be unpacked alone, or have an entry that may not be met.
/// `doubts` tells which entries of what is configured are not known to be met.
pub fn may_be_unsettled(
    universe: &Universe,
    tables: &Tables,
    state: &MayHold,
    doubts: &Doubts,
) -> bool
    requires same { tables.now ≡ universe.now }
    requires state { AreWords universe.now state.now }
    requires doubts { AreDoubts universe.now (may_of state.now) doubts.now }
    ensures { result ≡ may_be_unsettled universe.now (may_of state.now) }
{
    some_unpacked(state, doubts) || some_doubted(universe, tables, state, doubts)
}
