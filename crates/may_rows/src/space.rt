//! The disk space that a chroot may take, in KiB.

ghost use Rattle.std.specs.Prelude.{◌≡◌, ◌<◌, ◌≤◌, ◌+◌, ◌^◌, nat_lt, length, if◌then◌else◌};
ghost use Rattle.clause_kernel.specs.Rows.{word_has};
ghost use Rattle.farm_model.specs.Packages.{variant, variants, size};
ghost use Rattle.farm_universe.specs.Kept.{IsKept};
ghost use Rattle.plan_model.specs.May as may;
ghost use Rattle.plan_model.specs.Plan.{capacity};

use crate::sets::{has_bit, variant_count};
use crate::state::MayHold;
use farm_universe::limits::MOST_SIZE;
use farm_universe::{Universe, Variant};
use plan_reader::Lane;

/// The size of a variant, where it is in the set, or 0.
#[tactic(auto, using(farm_universe::proofs::SizeLaws::size_small))]
fn size_in(universe: &Universe, name: u32, set: u64, bit: u32) -> u64
    requires known { bit < variants universe.now name }
    requires within { bit < 64 }
    requires kept { IsKept universe.now }
    ensures size { result ≡ (if word_has set bit then size universe.now (variant name bit) else 0) }
    ensures small { result ≤ MOST_SIZE }
{
    if has_bit(set, bit) {
        universe.size(Variant { name, bit })
    } else {
        0
    }
}

/// The greatest size of the variants in a set.
#[tactic(auto, using(crate::proofs::Sizes::greatest_of_none))]
pub fn greatest_size(universe: &Universe, name: u32, set: u64) -> u64
    ensures size { result ≡ may.greatest_size universe.now name (word_has set) }
    ensures small { result ≤ MOST_SIZE }
{
    if set == 0 {
        return 0;
    }
    let count = variant_count(universe, name);
    let mut greatest = 0;
    for bit in 0..count {
        let size = size_in(universe, name, set, bit);
        greatest = size.max(greatest);
    }
    greatest
}

/// Tells whether a further cost may be over the budget.
pub fn may_exceed(budget: u64, state: &MayHold, cost: u64) -> bool
    requires { state.now.cost ≤ budget }
    ensures { result ≡ nat_lt budget (state.now.cost + cost) }
{
    budget - state.cost < cost
}

/// Tells whether the space of a lane's chroot may not suffice for a further size, where so much
/// may be taken.
#[tactic(auto, unfolding(plan_model::specs::Plan::capacity))]
pub fn may_overflow(universe: &Universe, lane: &Lane, used: u64, size: u64) -> bool
    requires based { lane.now.base < length universe.now.bases }
    requires fits { used + size < 2 ^ 64 }
    ensures { result ≡ nat_lt (capacity universe.now lane.now) (used + size) }
{
    universe.base(lane.base()).capacity() < used + size
}
