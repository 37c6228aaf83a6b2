//! The largest packages that a chroot may hold.

ghost use Rattle.std.specs.Prelude.{◌≡◌, ◌<◌};
ghost use Rattle.clause_kernel.specs.Rows.{word_has};
ghost use Rattle.farm_model.specs.Packages.{variants};
ghost use Rattle.may_rows.specs.Words.{may_of};
ghost use Rattle.explain_reasons.specs.Largest as spec;
ghost use Rattle.explain_reasons.specs.Listed.{held};

use farm_universe::{Universe, Variant};
use may_rows::{MayHold, has_bit, variant_count};

/// A variant that a chroot may hold, with its size in KiB.
#[derive(Clone, Copy)]
pub struct Holder {
    pub variant: Variant,
    pub size: u64,
}

/// Tells whether one stands before another: the larger one, of equal ones that of the lower name.
fn is_before(one: Holder, other: Holder) -> bool
    ensures { result ≡ spec.is_before one other }
{
    one.size > other.size || one.size == other.size && one.variant.name < other.variant.name
}

/// The one of two that stands before the other.
fn earlier(first: Option<Holder>, second: Option<Holder>) -> Option<Holder>
    ensures { result ≡ spec.earlier first second }
{
    match (first, second) {
        (Some(one), Some(other)) if !is_before(other, one) => Some(one),
        (Some(one), None) => Some(one),
        (_, other) => other,
    }
}

/// A variant of a set, where it takes some space.
fn holder_at(universe: &Universe, name: u32, set: u64, bit: u32) -> Option<Holder>
    requires known { bit < variants universe.now name }
    requires within { bit < 64 }
    ensures { result ≡ spec.holder_at universe.now name (word_has set) bit }
{
    let variant = Variant { name, bit };
    let size = universe.size(variant);
    if has_bit(set, bit) && 0 < size {
        Some(Holder { variant, size })
    } else {
        None
    }
}

/// The largest variant of a set that takes some space, the lowest of equal ones.
#[tactic(auto, unfolding(crate::specs::Largest::earliest))]
fn largest_of(universe: &Universe, name: u32, set: u64) -> Option<Holder>
    ensures { result ≡ spec.holder_in universe.now name (word_has set) }
{
    (0..variant_count(universe, name)).fold(
        None,
        |first, bit| earlier(first, holder_at(universe, name, set, bit)),
    )
}

/// The largest variant that a name may hold and that takes some space, where it stands behind the
/// last one.
#[tactic(auto, using(crate::proofs::HeldLists::held_is))]
fn largest_behind(
    universe: &Universe,
    state: &MayHold,
    name: u32,
    last: Option<Holder>,
) -> Option<Holder>
    ensures { result ≡ spec.behind last
        (spec.holder_in universe.now name (held ((may_of state.now).slots name))) }
{
    match (last, largest_of(universe, name, state.here_word(name))) {
        (Some(last), Some(found)) if !is_before(last, found) => None,
        (_, found) => found,
    }
}

/// Gives the largest package that a chroot may hold behind this one, or of all: names by the
/// largest variant that they may hold, the larger first, of equal ones the lower name. None where
/// no further one takes any space.
#[tactic(auto, unfolding(crate::specs::Largest::earliest))]
pub fn next_largest(universe: &Universe, state: &MayHold, last: Option<Holder>) -> Option<Holder>
    ensures { result ≡ spec.next_largest universe.now (may_of state.now) last }
{
    (0..universe.names()).fold(
        None,
        |first, name| earlier(first, largest_behind(universe, state, name, last)),
    )
}
