//! An unpack under a may map.

ghost use Rattle.std.specs.Prelude.{◌≡◌, ◌<◌, ◌≤◌, ◌+◌, ◌*◌, ◌&&◌, ◌==◌, ℕ, Bool, true, not, length, OnOk};
ghost use Rattle.clause_kernel.specs.Rows.{word_has};
ghost use Rattle.farm_model.specs.Common.{unmet, first_trap};
ghost use Rattle.farm_model.specs.declared.types.Variant.{Variant};
ghost use Rattle.farm_model.specs.Packages as packages;
ghost use Rattle.plan_model.specs.May as may;
ghost use Rattle.may_rows.specs.Words.{AreWords, may_of, surely_met_ahead};
ghost use Rattle.plan_model.specs.Common.{size_cost, greatest_cost};
ghost use Rattle.sat_rows.specs.Rows.{IsWordFor};
ghost use Rattle.may_rows.specs.Picks.{AreOfArchive};
ghost use Rattle.may_rows.specs.Walk.{Answers, IsOfLane};
ghost use Rattle.may_rows.specs.Unpacks.{cleared_risks};

use crate::ahead::misses_ahead;
use crate::instruction::{ArchiveWords, LaneOf};
use crate::pick::pick;
use crate::sets::some_of;
use crate::space::{greatest_size, may_exceed, may_overflow};
use crate::state::MayHold;
use deb_relation::Op;
use deb_version::Version;
use farm_universe::limits::{MOST_NAMES, MOST_SIZE};
use farm_universe::relations::VariantTest;
use farm_universe::{Trap, Universe, Variant};
use plan_reader::Instruction;
use sat_rows::Tables;

/// The variants with a Pre-Depends entry that may not be met ahead of their unpack.
#[derive(Drop)]
struct MissesAhead<'a> {
    tables: &'a Tables,
    state: &'a MayHold,
}

impl VariantTest for MissesAhead<'_> {
    ghost fits = { λ u t. (t.tables.now ≡ u) × AreWords u t.state.now };

    ghost test = { λ u t v.
        unmet (surely_met_ahead u (may_of t.state.now)) (packages.pre_depends u v) };

    fn passes(&self, universe: &Universe, variant: Variant) -> bool {
        misses_ahead(universe, self.tables, self.state, variant)
    }
}

/// The variants that may be in conflict with a present one of another name (Debian Policy 7.4).
#[derive(Drop)]
struct MayConflict<'a> {
    tables: &'a Tables,
    state: &'a MayHold,
}

impl VariantTest for MayConflict<'_> {
    ghost fits = { λ u t. (t.tables.now ≡ u) × AreWords u t.state.now };

    ghost test = { λ u t v. may.some_name u (may_of t.state.now)
        (λ n s. not (n == v.name)
        && may.may_hold u n (λ d. packages.conflict u v (packages.variant n d)) s) };

    fn passes(&self, universe: &Universe, variant: Variant) -> bool {
        let state = self.state;
        self.tables.conflicts_with_some(variant, &state.here)
    }
}

/// The variants that may break a configured one of another name (Policy 7.3).
#[derive(Drop)]
struct MayBreak<'a> {
    tables: &'a Tables,
    state: &'a MayHold,
}

impl VariantTest for MayBreak<'_> {
    ghost fits = { λ u t. (t.tables.now ≡ u) × AreWords u t.state.now };

    ghost test = { λ u t v. may.some_name u (may_of t.state.now)
        (λ n s. not (n == v.name)
        && may.may_hold_configured u n (λ d. packages.breaks u v (packages.variant n d)) s) };

    fn passes(&self, universe: &Universe, variant: Variant) -> bool {
        let state = self.state;
        self.tables.breaks_some(variant, &state.ready)
    }
}

/// What an unpack of a variant of this size, in KiB, costs.
fn size_cost(size: u64) -> u64
    requires { size ≤ MOST_SIZE }
    ensures { result ≡ size_cost size }
{
    1 + size / 1024
}

/// What an unpack of a variant of a set costs at most.
pub(crate) fn unpack_cost(universe: &Universe, name: u32, set: u64) -> u64
    ensures { result ≡ greatest_cost universe.now name (word_has set) }
{
    size_cost(greatest_size(universe, name, set))
}

/// The first trap that an unpack of a variant of a set may meet, where the state holds nothing of
/// its name and `used` KiB may be taken before it.
#[tactic(auto, unfolding(farm_model::specs::Traps::first_trap))]
fn unpack_risk(of: LaneOf<'_>, state: &MayHold, used: u64, name: u32, set: u64) -> Option<Trap>
    requires state { AreWords of.universe.now state.now }
    requires based { of.lane.now.base < length of.universe.now.bases }
    requires within { state.now.cost ≤ of.lane.now.budget }
    requires small { used ≤ MOST_NAMES * MOST_SIZE }
    ensures { result ≡ first_trap (cleared_risks of.entry.universe.now of.entry.lane.now
        (may_of state.now) used name (word_has set)) }
{
    let universe = of.universe;
    let tables = of.tables;
    let size = greatest_size(universe, name, set);
    if may_exceed(of.lane.budget(), state, size_cost(size)) {
        return Some(Trap::OverBudget); // X14
    }
    if some_of(universe, name, set, &MissesAhead { tables, state }) {
        return Some(Trap::PreDepends); // X2
    }
    if some_of(universe, name, set, &MayConflict { tables, state }) {
        return Some(Trap::Conflict); // X3
    }
    if some_of(universe, name, set, &MayBreak { tables, state }) {
        return Some(Trap::BreaksOther); // X4
    }
    if may_overflow(universe, of.lane, used, size) {
        return Some(Trap::Full); // X5
    }
    None
}

/// Unpacks a variant of a name, one that is in the relation and as high as the highest that is
/// surely in the archive, or tells the first trap that this may meet. `words` is what of the name
/// is in the archive.
///
/// # Errors
///
/// The first trap that the unpack may meet. The state then holds nothing of the name, or is as it
/// was.
pub fn unpack(
    of: LaneOf<'_>,
    state: &mut MayHold,
    name: u32,
    relation: &Option<(Op, Version)>,
    words: ArchiveWords,
) -> Result<(), Trap>
    requires named { name < packages.names of.universe.now }
    requires of_lane { IsOfLane of.universe.now of.lane.now state.old }
    requires known_there { (b : ℕ) → word_has words.known b ≡ true → word_has words.there b ≡ true }
    ensures answer { (in_it may_be : Variant → Bool)
        → AreOfArchive of.entry.universe.now in_it may_be
        → IsWordFor of.entry.universe.now in_it name words.known
        → IsWordFor of.entry.universe.now may_be name words.there
        → Answers of.entry.universe.now of.entry.lane.now in_it may_be (may_of state.old)
        (Instruction.Unpack name relation.now) (may_of state.new) result }
    ensures of_lane { OnOk result (IsOfLane of.entry.universe.now of.entry.lane.now state.new) }
{
    let universe = of.universe;
    let Some(set) = pick(universe, name, relation, words.known, words.there) else {
        return Err(Trap::Missing); // X1
    };
    let _names = universe.names();
    let last = state.last_word(name);
    let used = state.used();
    state.put(universe, name, 0, 0, 0);
    if let Some(trap) = unpack_risk(of, state, used, name, set) {
        return Err(trap);
    }
    state.put(universe, name, set, 0, last);
    state.spend(unpack_cost(universe, name, set));
    Ok(())
}
