//! What notes tell further: what may be held of what could meet an entry, and what a lane needs.

ghost use Rattle.std.specs.Prelude.{◌≡◌, ◌<◌, ◌++◌, length, IfOk, OnOk, option_map};
ghost use Rattle.farm_model.specs.Packages.{variants};
ghost use Rattle.may_rows.specs.Words.{may_of};
ghost use Rattle.plan_verifier.specs.Stage.{IsWhole, of_stage};
ghost use Rattle.explain_lanes.specs.LaneNotes as spec;
ghost use Rattle.explain_lanes.specs.Notes.{further_facts};

use crate::entries::{entry_of, need_of};
use crate::variants::could_meet;
use deb_relation::Entry;
use explain_reasons::{Reason, lane_cost, push_if};
use farm_universe::relations::satisfies_entry;
use farm_universe::{Universe, Variant};
use known_rows::KnownWords;
use may_rows::{MayHold, has_bit, variant_count};
use plan_verifier::Stage;
use std::alloc::{AllocError, Global};

/// What a note tells further, of which most notes have nothing.
#[derive(Drop)]
pub enum Further {
    Nothing,
    /// Of an entry that is not surely met what may be held of the names that could meet it, of a
    /// configured one what does not satisfy it.
    MayBe(Vec<Variant>),
    /// Of a budget that is too small what the lane needs at most, where that is known.
    Needs(Option<u64>),
    /// The lanes of a circle.
    Lanes(Vec<usize>),
}

/// Tells whether a variant may be held, and is not configured or does not satisfy an entry.
#[tactic(auto, using(crate::proofs::Fields::held_at))]
fn is_no_help(universe: &Universe, state: &MayHold, entry: &Entry, variant: Variant) -> bool
    requires known { variant.bit < variants universe.now variant.name }
    requires within { variant.bit < 64 }
    ensures { result ≡ spec.is_no_help universe.now entry.now
        ((may_of state.now).slots variant.name) variant }
{
    let is_held = has_bit(state.here_word(variant.name), variant.bit);
    is_held && !(state.is_configured(variant.name) && satisfies_entry(universe, entry, variant))
}

/// Puts what may be held of a name that could meet an entry, and does not help with it, behind
/// others.
#[tactic(auto, unfolding(explain_reasons::specs::Listed::variants_in))]
fn push_name(
    found: &mut Vec<Variant>,
    universe: &Universe,
    state: &MayHold,
    entry: &Entry,
    name: u32,
) -> Result<(), AllocError>
    ensures { OnOk result (found.new.items ≡ found.old.items
        ++ spec.of_name universe.now (may_of state.now) entry.now name) }
{
    let is_likely = could_meet(universe, entry, name);
    for bit in 0..variant_count(universe, name) {
        let variant = Variant { name, bit };
        let test = is_likely && is_no_help(universe, state, entry, variant);
        push_if(found, test, variant)?;
    }
    Ok(())
}

/// What is told further of an entry that is not surely met: what may be held of the names that could
/// meet it; of a configured one what does not satisfy it.
#[tactic(auto, unfolding(crate::specs::LaneNotes::may_be))]
fn entry_further(
    alloc: Global,
    universe: &Universe,
    state: &MayHold,
    entry: Option<&Entry>,
) -> Result<Further, AllocError>
    ensures { IfOk result (λ further. further_facts further
        ≡ spec.entry_further universe.now (may_of state.now) (option_map (λ e. e.now) entry.entry)) }
{
    let Some(entry) = entry else {
        return Ok(Further::Nothing);
    };
    let mut found = Vec::new(alloc);
    for name in 0..universe.names() {
        push_name(&mut found, universe, state, entry, name)?;
    }
    if found.is_empty() {
        return Ok(Further::Nothing);
    }
    Ok(Further::MayBe(found))
}

/// Gives what is told further of a reason, by what may be held at its place.
pub fn further_of<K: KnownWords>(
    alloc: Global,
    stage: &Stage<'_, K>,
    number: usize,
    state: &MayHold,
    reason: Reason,
) -> Result<Further, AllocError>
    requires stage { IsWhole K.known stage.now }
    requires lane { number < length stage.now.plan.now.lanes }
    ensures { IfOk result (λ further. further_facts further
        ≡ of_stage K.known stage.now spec.reason_further number (may_of state.now) reason) }
{
    let universe = stage.universe;
    match reason {
        Reason::Unmet(variant, field, entry) => {
            let entry = entry_of(universe, variant, field, entry);
            entry_further(alloc, universe, state, entry)
        }
        Reason::BuildNeed(recipe, entry) => {
            entry_further(alloc, universe, state, need_of(universe, recipe, entry))
        }
        Reason::OverBudget { .. } => Ok(Further::Needs(lane_cost(stage, number))),
        _ => Ok(Further::Nothing),
    }
}
