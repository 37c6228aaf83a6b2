//! The Pre-Depends entries of a variant that may not be met ahead of its unpack.

ghost use Rattle.std.specs.Prelude.{◌≡◌, ◌<◌, not, length, slice_get};
ghost use Rattle.std.specs.List.{list_any};
ghost use Rattle.farm_model.specs.Common.{unmet, pre_depends, satisfies, IsKnown};
ghost use Rattle.sat_rows.specs.Rows.{nth_entry};
ghost use Rattle.may_rows.specs.Words.{AreWords, may_of, surely_met_ahead, alternative_inside, some_name_inside};

use crate::numbers::{NumberTest, some_number};
use crate::state::MayHold;
use deb_relation::Entry;
use farm_universe::{Universe, Variant};
use sat_rows::Tables;

/// The alternatives of an entry that some name surely meets, with what it holds and with what was
/// configured last.
#[derive(Drop)]
struct MetAlternatives<'a> {
    tables: &'a Tables,
    state: &'a MayHold,
    entry: &'a Entry,
}

impl NumberTest for MetAlternatives<'_> {
    ghost fits = { λ u t. (t.tables.now ≡ u) × AreWords u t.state.now };

    ghost count = { λ u t. length t.entry.now };

    ghost test = { λ u t j. alternative_inside u t.state.now.both (slice_get t.entry.now j) };

    fn passes(&self, universe: &Universe, number: usize) -> bool {
        self.state
            .both_satisfy(universe, self.tables, self.entry.alternative(number))
    }
}

/// Tells whether some name surely meets an alternative of the entry with both.
fn meets_alternative(universe: &Universe, tables: &Tables, state: &MayHold, entry: &Entry) -> bool
    requires same { tables.now ≡ universe.now }
    requires state { AreWords universe.now state.now }
    ensures { result ≡ list_any
        (λ a. some_name_inside universe.now state.now.both (satisfies universe.now a)) entry.now }
{
    some_number(
        universe,
        entry.len(),
        &MetAlternatives {
            tables,
            state,
            entry,
        },
    )
}

/// Tells whether a Pre-Depends entry is surely met ahead of an unpack, where the state holds
/// nothing of the name that is unpacked.
pub fn meets_ahead(
    universe: &Universe,
    tables: &Tables,
    state: &MayHold,
    variant: Variant,
    entry: usize,
) -> bool
    requires same { tables.now ≡ universe.now }
    requires state { AreWords universe.now state.now }
    requires known { IsKnown universe.now variant }
    requires there { entry < length (pre_depends universe.now variant) }
    ensures { result ≡ surely_met_ahead universe.now (may_of state.now)
        (nth_entry (pre_depends universe.now variant) entry) }
{
    let alternatives = universe.relations(variant).pre_depends.entry(entry);
    state.has_ready_inside(tables.pre_depends(variant, entry))
        || meets_alternative(universe, tables, state, alternatives)
}

/// The Pre-Depends entries of a variant that may not be met ahead of its unpack.
#[derive(Drop)]
struct MissedAhead<'a> {
    tables: &'a Tables,
    state: &'a MayHold,
    variant: Variant,
}

impl NumberTest for MissedAhead<'_> {
    ghost fits = { λ u t.
        (t.tables.now ≡ u) × (AreWords u t.state.now × IsKnown u t.variant) };

    ghost count = { λ u t. length (pre_depends u t.variant) };

    ghost test = { λ u t i.
        not (surely_met_ahead u (may_of t.state.now) (nth_entry (pre_depends u t.variant) i)) };

    fn passes(&self, universe: &Universe, number: usize) -> bool {
        !meets_ahead(universe, self.tables, self.state, self.variant, number)
    }
}

/// Tells whether some Pre-Depends entry of a variant may not be met ahead of its unpack, where the
/// state holds nothing of the variant's name.
pub fn misses_ahead(universe: &Universe, tables: &Tables, state: &MayHold, variant: Variant) -> bool
    requires same { tables.now ≡ universe.now }
    requires state { AreWords universe.now state.now }
    requires known { IsKnown universe.now variant }
    ensures { result ≡ unmet (surely_met_ahead universe.now (may_of state.now))
        (pre_depends universe.now variant) }
{
    let count = universe.relations(variant).pre_depends.len();
    some_number(
        universe,
        count,
        &MissedAhead {
            tables,
            state,
            variant,
        },
    )
}
