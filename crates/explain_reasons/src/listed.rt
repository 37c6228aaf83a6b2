//! What is listed of each of some variants, and the entries that may not be met, or for which another
//! variant may be needed.

ghost use Rattle.std.specs.Prelude.{◌≡◌, ◌<◌, ◌++◌, not, length, All, OnOk, flat_map};
ghost use Rattle.std.specs.List.{list_any};
ghost use Rattle.farm_model.specs.Common.{satisfies_entry, IsKnown};
ghost use Rattle.sat_rows.specs.Rows.{nth_entry};
ghost use Rattle.may_rows.specs.Words.{AreWords, may_of};
ghost use Rattle.explain_reasons.specs.Listed.{IsPlaceOfLane, Lists};
ghost use Rattle.explain_reasons.specs.Reasons as spec;

use crate::held::push_if;
use crate::place::Place;
use crate::types::{Field, Found, Pushed, Reason};
use deb_relation::{Entry, Relations};
use farm_universe::relations::{breaks, conflict, satisfies_any, satisfies_entry};
use farm_universe::{Universe, Variant};
use may_rows::{MayHold, meets_ahead};

/// What asks for packages by its entries.
#[derive(Clone, Copy)]
pub enum Asking<'a> {
    /// A field of a variant.
    Of(Variant, Field),
    /// The Pre-Depends of a variant, ahead of its unpack, where nothing of its name is held.
    Ahead(Variant),
    /// The needs of a recipe.
    Needs(u32),
    /// A field of a variant, of which those entries count that one of these satisfies.
    Still(&'a [Variant], Variant, Field),
}

/// Tells whether some variant satisfies an entry.
fn some_satisfies(universe: &Universe, entry: &Entry, variants: &[Variant]) -> bool
    requires { All (IsKnown universe.now) variants.now }
    ensures { result ≡ list_any (satisfies_entry universe.now entry.now) variants.now }
{
    variants
        .iter()
        .any(|it| satisfies_entry(universe, entry, *it))
}

impl Asking<'_> {
    /// The entries.
    fn entries<'u>(self, universe: &'u Universe) -> &'u Relations
        requires { spec.IsAsking universe.now self }
        ensures { result.now ≡ spec.asked universe.now self.entry }
    {
        match self {
            Asking::Of(variant, Field::Depends) | Asking::Still(_, variant, Field::Depends) => {
                &universe.relations(variant).depends
            }
            Asking::Of(variant, Field::PreDepends)
            | Asking::Still(_, variant, Field::PreDepends)
            | Asking::Ahead(variant) => &universe.relations(variant).pre_depends,
            Asking::Needs(recipe) => universe.recipe(recipe).needs(),
        }
    }

    /// Tells whether an entry counts.
    fn counts(self, universe: &Universe, entry: usize) -> bool
        requires asking { spec.IsAsking universe.now self }
        requires there { entry < length (spec.asked universe.now self) }
        ensures { result ≡ spec.counts universe.now self.entry
            (nth_entry (spec.asked universe.now self.entry) entry) }
    {
        let asked = self.entries(universe).entry(entry);
        match self {
            Asking::Still(these, ..) => some_satisfies(universe, asked, these),
            Asking::Of(..) | Asking::Ahead(_) | Asking::Needs(_) => true,
        }
    }

    /// What is told of an entry that may not be met.
    fn reason(self, entry: usize) -> Reason
        ensures { result ≡ spec.told self.entry entry }
    {
        match self {
            Asking::Of(variant, field) => Reason::Unmet(variant, field, entry),
            Asking::Ahead(variant) => Reason::Unmet(variant, Field::PreDepends, entry),
            Asking::Needs(recipe) => Reason::BuildNeed(recipe, entry),
            Asking::Still(_, owner, field) => Reason::StillNeeded(owner, field, entry),
        }
    }
}

/// How a variant and one of another name exclude each other.
#[derive(Clone, Copy)]
pub enum Exclusion {
    /// They are in conflict, declared by either.
    Conflict,
    /// The one breaks the other.
    Breaks,
    /// The other breaks the one.
    Broken,
}

/// What is listed of a variant.
#[derive(Clone, Copy)]
pub enum Asked<'a> {
    /// Its entries of a field that a state may not meet.
    Unmet(Field, &'a MayHold),
    /// All of its entries that a state may not meet.
    Unsettled(&'a MayHold),
    /// Its Pre-Depends entries that a state may not meet ahead of its unpack.
    Ahead(&'a MayHold),
    /// All of its entries for which one of these may be needed, and that a state may not meet.
    Needed(&'a [Variant], &'a MayHold),
    /// Those of these that exclude it, or that it excludes.
    Excluded(Exclusion, &'a [Variant]),
    /// That it is Essential.
    Essential,
    /// That it satisfies a clash of a recipe.
    Clash(u32),
}

/// Puts it behind others which of some variants of other names exclude a variant so.
fn push_excluded(
    universe: &Universe,
    how: Exclusion,
    variant: Variant,
    others: &[Variant],
    found: &mut Vec<Reason>,
) -> Pushed
    requires known { IsKnown universe.now variant }
    requires known_others { All (IsKnown universe.now) others.now }
    ensures { OnOk result (found.new.items
        ≡ found.old.items ++ flat_map (spec.excluded universe.now how variant) others.now) }
{
    for place in 0..others.len() {
        let other = others[place];
        let differs = other.name != variant.name;
        match how {
            Exclusion::Conflict => {
                let test = differs && conflict(universe, variant, other);
                push_if(found, test, Reason::Conflict(variant, other))?;
            }
            Exclusion::Breaks => {
                let test = differs && breaks(universe, variant, other);
                push_if(found, test, Reason::Breaks(variant, other))?;
            }
            Exclusion::Broken => {
                let test = differs && breaks(universe, other, variant);
                push_if(found, test, Reason::Breaks(other, variant))?;
            }
        }
    }
    Ok(())
}

impl Place<'_> {
    /// Tells whether a state may not meet an entry.
    fn may_miss(&self, state: &MayHold, asking: Asking<'_>, entry: usize) -> bool
        requires place { IsPlaceOfLane self.now }
        requires words { AreWords self.now.universe.now state.now }
        requires asking { spec.IsAsking self.now.universe.now asking }
        requires there { entry < length (spec.asked self.now.universe.now asking) }
        ensures { result ≡ not (spec.meets self.now.universe.now (may_of state.now) asking.entry
            (nth_entry (spec.asked self.now.universe.now asking.entry) entry)) }
    {
        match asking {
            Asking::Of(variant, field) | Asking::Still(_, variant, field) => match field {
                Field::Depends => !state.surely_meets(self.tables.depends(variant, entry)),
                Field::PreDepends => !state.surely_meets(self.tables.pre_depends(variant, entry)),
            },
            Asking::Ahead(variant) => {
                !meets_ahead(self.universe, self.tables, state, variant, entry)
            }
            Asking::Needs(recipe) => !state.surely_meets(self.tables.needs(recipe, entry)),
        }
    }

    /// Puts the entries that count and that a state may not meet behind others.
    #[tactic(auto, unfolding(crate::specs::Listed::passing))]
    pub fn push_entries(
        &self,
        state: &MayHold,
        asking: Asking<'_>,
        found: &mut Vec<Reason>,
    ) -> Pushed
        requires place { IsPlaceOfLane self.now }
        requires words { AreWords self.now.universe.now state.now }
        requires asking { spec.IsAsking self.now.universe.now asking }
        ensures { OnOk result (found.new.items ≡ found.old.items
            ++ spec.unmet self.now.universe.now (may_of state.now) asking.entry) }
    {
        for entry in 0..asking.entries(self.universe).len() {
            let test = asking.counts(self.universe, entry) && self.may_miss(state, asking, entry);
            push_if(found, test, asking.reason(entry))?;
        }
        Ok(())
    }

    /// Puts what is asked of a variant behind others.
    fn push_of(&self, asked: Asked<'_>, variant: Variant, found: &mut Vec<Reason>) -> Pushed
        requires place { IsPlaceOfLane self.now }
        requires fits { spec.IsFit self.now.universe.now asked }
        requires known { IsKnown self.now.universe.now variant }
        ensures { OnOk result (found.new.items
            ≡ found.old.items ++ spec.answers self.now.universe.now asked.entry variant) }
    {
        match asked {
            Asked::Unmet(field, state) => {
                self.push_entries(state, Asking::Of(variant, field), found)
            }
            Asked::Unsettled(state) => {
                self.push_entries(state, Asking::Of(variant, Field::Depends), found)?;
                self.push_entries(state, Asking::Of(variant, Field::PreDepends), found)
            }
            Asked::Ahead(state) => self.push_entries(state, Asking::Ahead(variant), found),
            Asked::Needed(these, state) => {
                self.push_entries(state, Asking::Still(these, variant, Field::Depends), found)?;
                self.push_entries(
                    state,
                    Asking::Still(these, variant, Field::PreDepends),
                    found,
                )
            }
            Asked::Excluded(how, others) => {
                push_excluded(self.universe, how, variant, others, found)
            }
            Asked::Essential => {
                let is_essential = self.universe.essential(variant);
                push_if(found, is_essential, Reason::Essential(variant))
            }
            Asked::Clash(recipe) => {
                let clashes = self.universe.recipe(recipe).clashes();
                let test = satisfies_any(self.universe, clashes, variant);
                push_if(found, test, Reason::BuildConflict(recipe, variant))
            }
        }
    }

    /// What is asked of each of some variants.
    pub fn list_each(&self, asked: Asked<'_>, variants: &[Variant]) -> Found
        requires place { IsPlaceOfLane self.now }
        requires fits { spec.IsFit self.now.universe.now asked }
        requires known { All (IsKnown self.now.universe.now) variants.now }
        ensures { Lists result (flat_map (spec.answers self.now.universe.now asked.entry)
            variants.now) }
    {
        let mut found = Vec::new(self.alloc);
        for place in 0..variants.len() {
            self.push_of(asked, variants[place], &mut found)?;
        }
        Ok(found)
    }
}
