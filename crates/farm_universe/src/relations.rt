//! Which variants satisfy an entry, and how two of them exclude each other (Debian Policy 7).

ghost use Rattle.std.specs.Prelude.{◌≡◌, Bool};
ghost use Rattle.std.specs.List.{list_any};
ghost use Rattle.deb_relation.specs.Common.{package_satisfies, facts_of};
ghost use Rattle.farm_model.specs.Packages as packages;
ghost use Rattle.farm_model.specs.Common.{IsKnown, Universe};
ghost use Rattle.farm_model.specs.declared.types.Variant.{Variant};

use crate::universe::Universe;
use deb_relation::{Atom, Entry, Facts, Relations, satisfies};
use farm_model::Variant;

/// A test of the variants of a universe.
pub trait VariantTest {
    ghost fits: { Universe → Self → Type 0 } = { λ _ _. Unit {0} };

    ghost test: { Universe → Self → Variant → Bool };

    fn passes(&self, universe: &Universe, variant: Variant) -> bool
        requires fits { fits universe.now self.now }
        requires known { IsKnown universe.now variant }
        ensures { result ≡ test universe.now self.now variant };
}

/// What relations see of a variant.
fn facts(universe: &Universe, variant: Variant) -> Facts<'_>
    requires { IsKnown universe.now variant }
    ensures { facts_of result ≡ packages.facts universe.now variant }
{
    Facts {
        name: universe.name_text(variant.name),
        version: universe.version(variant),
        provides: &universe.relations(variant).provides,
    }
}

fn meets(facts: &Facts, entry: &Entry) -> bool
    ensures { result ≡ list_any (package_satisfies (facts_of facts.now)) entry.now }
{
    entry
        .alternatives()
        .iter()
        .any(|atom| satisfies(facts, atom))
}

fn meets_any(facts: &Facts, entries: &Relations) -> bool
    ensures { result
        ≡ list_any (λ e. list_any (package_satisfies (facts_of facts.now)) e) entries.now }
{
    entries.entries().iter().any(|entry| meets(facts, entry))
}

/// Tells whether a variant satisfies some alternative of an entry (Debian Policy 7.1).
pub fn satisfies_entry(universe: &Universe, entry: &Entry, variant: Variant) -> bool
    requires { IsKnown universe.now variant }
    ensures { result ≡ packages.satisfies_entry universe.now entry.now variant }
{
    meets(&facts(universe, variant), entry)
}

/// Tells whether a variant satisfies some entry of a field.
pub fn satisfies_any(universe: &Universe, entries: &Relations, variant: Variant) -> bool
    requires { IsKnown universe.now variant }
    ensures { result ≡ packages.satisfies_any universe.now entries.now variant }
{
    meets_any(&facts(universe, variant), entries)
}

/// Tells whether one of two variants declares a conflict with the other (Debian Policy 7.4).
#[tactic(auto, unfolding(farm_model::specs::Packages::conflict))]
pub fn conflict(universe: &Universe, variant: Variant, other: Variant) -> bool
    requires known { IsKnown universe.now variant }
    requires known_other { IsKnown universe.now other }
    ensures { result ≡ packages.conflict universe.now variant other }
{
    satisfies_any(universe, &universe.relations(variant).conflicts, other)
        || satisfies_any(universe, &universe.relations(other).conflicts, variant)
}

/// Tells whether the first variant breaks the second (Debian Policy 7.3).
#[tactic(auto, unfolding(farm_model::specs::Packages::breaks))]
pub fn breaks(universe: &Universe, variant: Variant, other: Variant) -> bool
    requires known { IsKnown universe.now variant }
    requires known_other { IsKnown universe.now other }
    ensures { result ≡ packages.breaks universe.now variant other }
{
    satisfies_any(universe, &universe.relations(variant).breaks, other)
}

/// The variants that satisfy an entry.
#[derive(Drop)]
pub struct SatisfiesEntry<'a> {
    pub entry: &'a Entry,
}

impl VariantTest for SatisfiesEntry<'_> {
    ghost test = { λ u t v. packages.satisfies_entry u t.entry.now v };

    fn passes(&self, universe: &Universe, variant: Variant) -> bool {
        satisfies_entry(universe, self.entry, variant)
    }
}

/// The variants that satisfy an alternative.
#[derive(Drop)]
pub struct SatisfiesAtom<'a> {
    pub atom: &'a Atom,
}

impl VariantTest for SatisfiesAtom<'_> {
    ghost test = { λ u t v. packages.satisfies u t.atom.now v };

    fn passes(&self, universe: &Universe, variant: Variant) -> bool {
        universe.satisfies(variant, self.atom)
    }
}

/// The variants that are in conflict with this one.
#[derive(Drop)]
pub struct ConflictsWith {
    pub variant: Variant,
}

impl VariantTest for ConflictsWith {
    ghost fits = { λ u t. IsKnown u t.variant };

    ghost test = { λ u t v. packages.conflict u t.variant v };

    fn passes(&self, universe: &Universe, variant: Variant) -> bool {
        conflict(universe, self.variant, variant)
    }
}

/// The variants that this one breaks.
#[derive(Drop)]
pub struct IsBrokenBy {
    pub variant: Variant,
}

impl VariantTest for IsBrokenBy {
    ghost fits = { λ u t. IsKnown u t.variant };

    ghost test = { λ u t v. packages.breaks u t.variant v };

    fn passes(&self, universe: &Universe, variant: Variant) -> bool {
        breaks(universe, self.variant, variant)
    }
}

/// The variants that break this one.
#[derive(Drop)]
pub struct BreakersOf {
    pub variant: Variant,
}

impl VariantTest for BreakersOf {
    ghost fits = { λ u t. IsKnown u t.variant };

    ghost test = { λ u t v. packages.breaks u v t.variant };

    fn passes(&self, universe: &Universe, variant: Variant) -> bool {
        breaks(universe, variant, self.variant)
    }
}
