//! Why a base chroot is not settled.

ghost use Rattle.std.specs.Prelude.{◌≡◌, All, nat_le};
ghost use Rattle.farm_model.specs.Sound.{IsKnown};
ghost use Rattle.explain_faults.specs.Bases as spec;

use crate::found::{Found, Wrong};
use deb_relation::{Entry, Relations};
use farm_model::Variant;
use farm_universe::Universe;
use farm_universe::relations::{satisfies_any, satisfies_entry};

/// What is asked of the members of a base chroot: one version of each name, each entry of Depends and
/// Pre-Depends satisfied, none that excludes another.
#[derive(Clone, Copy)]
pub enum Check {
    Names,
    Needs,
    Clashes,
}

/// Variants of a universe.
#[derive(Clone, Copy)]
pub struct Members<'a> {
    pub universe: &'a Universe,
    pub variants: &'a [Variant],
    ghost known: { All (IsKnown universe.now) variants.now },
}

fn is_met(members: Members<'_>, entry: &Entry) -> bool
    ensures { result ≡ spec.is_met members.entry.universe.now members.entry.variants.now entry.now }
{
    members
        .variants
        .iter()
        .any(|member| satisfies_entry(members.universe, entry, *member))
}

/// The place of the first entry that no member satisfies.
#[tactic(auto, unfolding(crate::specs::Bases::first_unmet))]
fn first_unmet(members: Members<'_>, field: &Relations) -> Option<usize>
    ensures { result
        ≡ spec.first_unmet members.entry.universe.now members.entry.variants.now field.now }
{
    field
        .entries()
        .iter()
        .position(|entry| !is_met(members, entry))
}

fn is_twice(variants: &[Variant], member: Variant) -> bool
    ensures { result ≡ spec.is_twice variants.now member }
{
    variants.iter().any(|other| other.name == member.name && other.bit != member.bit)
}

/// Tells whether the first of two is of another name than the second, and conflicts with it or
/// breaks it.
fn excludes(members: Members<'_>, member: Variant, other: Variant) -> bool
    requires member { IsKnown members.universe.now member }
    requires other { IsKnown members.universe.now other }
    ensures { result ≡ spec.excludes members.entry.universe.now member other }
{
    let relations = members.universe.relations(member);
    other.name != member.name
        && (satisfies_any(members.universe, &relations.conflicts, other)
            || satisfies_any(members.universe, &relations.breaks, other))
}

/// The place of the first member that one excludes.
fn first_excluded(members: Members<'_>, member: Variant) -> Option<usize>
    requires { IsKnown members.universe.now member }
    ensures { result
        ≡ spec.first_excluded members.entry.universe.now members.entry.variants.now member }
{
    members
        .variants
        .iter()
        .position(|other| excludes(members, member, *other))
}

/// What is wrong with a member, by this check.
#[tactic(auto, unfolding(crate::specs::Bases::wrong_with))]
fn wrong_with(members: Members<'_>, check: Check, member: Variant) -> Option<Wrong>
    requires { IsKnown members.universe.now member }
    ensures { result
        ≡ spec.wrong_with members.entry.universe.now members.entry.variants.now check member }
{
    let relations = members.universe.relations(member);
    match check {
        Check::Names => is_twice(members.variants, member).then_some(Wrong::Twice),
        Check::Needs => {
            let unmet = first_unmet(members, &relations.depends).map(Wrong::Depends);
            unmet.or(first_unmet(members, &relations.pre_depends).map(Wrong::PreDepends))
        }
        Check::Clashes => first_excluded(members, member).map(Wrong::Excludes),
    }
}

/// The first member with which something is wrong, by this check.
fn first_wrong(members: Members<'_>, check: Check) -> Option<Found>
    ensures { result ≡ spec.first_wrong members.entry.universe.now members.entry.variants.now check
        0 members.entry.variants.now }
{
    for place in 0..members.variants.len() {
        if let Some(wrong) = wrong_with(members, check, members.variants[place]) {
            return Some(Found::Member(place, wrong));
        }
    }
    None
}

/// Tells whether variants fit into this room, in KiB.
fn fit(universe: &Universe, variants: &[Variant], room: u64) -> bool
    requires { All (IsKnown universe.now) variants.now }
    ensures { result ≡ nat_le (spec.size_of_all universe.now variants.now) room }
{
    match variants {
        [] => true,
        [first, rest @ ..] => match room.checked_sub(universe.size(*first)) {
            Some(left) => fit(universe, rest, left),
            None => false,
        },
    }
}

/// Tells why variants cannot be what a base chroot of this capacity, in KiB, holds: two of a name,
/// an entry of Depends or Pre-Depends that none of them satisfies, one that excludes another, or
/// sizes over the capacity, whichever comes first; `None` where they can.
#[tactic(auto, unfolding(crate::specs::Bases::cause_of))]
pub fn unsettled_cause(members: Members<'_>, capacity: u64) -> Option<Found>
    ensures { result
        ≡ spec.cause_of members.entry.universe.now capacity members.entry.variants.now }
{
    let wrong = first_wrong(members, Check::Names)
        .or(first_wrong(members, Check::Needs))
        .or(first_wrong(members, Check::Clashes));
    let fits = fit(members.universe, members.variants, capacity);
    wrong.or((!fits).then_some(Found::TooLarge))
}
