//! Whether a leg goes on where another has stopped.

ghost use Rattle.std.specs.Prelude.{◌≡◌, true, false, IfOk};
ghost use Rattle.std.specs.List.{list_all};
ghost use Rattle.std.specs.Option.{option_map};
ghost use Rattle.deb_text.specs.Words.{words};
ghost use Rattle.leg_runs.specs.Fits as spec;
ghost use Rattle.leg_runs.specs.Fits.{ContinuesRun, GoesOnFrom};
ghost use Rattle.leg_runs.specs.Reads.{run_of};
ghost use Rattle.leg_laws.specs.Named.{is_listed};

use crate::leg::Leg;
use deb_text::next_word;
use farm_core::Core;
use farm_universe::Universe;
use rest_farm::{Item, Items, goes_on, initial_items};
use std::alloc::{AllocError, Global};

/// Tells whether a text is these two words.
fn are_words(text: &[u8], run: &[u8], sum: &[u8]) -> bool
    ensures { result ≡ spec.are_words (words text.now) run.now sum.now }
{
    let Some((word, rest)) = next_word(text) else {
        return false;
    };
    let Some((other, rest)) = next_word(rest) else {
        return false;
    };
    next_word(rest).is_none() && word == run && other == sum
}

/// Tells whether the field `After` names a run, and the lines of its journal.
fn is_named(after: Option<&[u8]>, run: &[u8], sum: &[u8]) -> bool
    ensures { result
        ≡ spec.is_named (option_map (λ value. value.now) after.entry) run.now sum.now }
{
    match after {
        Some(value) => are_words(value, run, sum),
        None => false,
    }
}

/// Tells whether no run goes on from a journal by now, or this one does.
pub fn is_next(next: Option<&[u8]>, run: &[u8]) -> bool
    ensures { result ≡ spec.is_next (option_map (λ name. name.now) next.entry) run.now }
{
    match next {
        Some(next) => next == run,
        None => true,
    }
}

fn are_all_in(list: &Items, items: &[Item]) -> bool
    ensures { result ≡ list_all (λ i. is_listed list.now i) items.now }
{
    items.iter().all(|item| list.has_item(item))
}

/// Tells whether the farm of a leg names the run of the one before, and the lines of its journal.
pub fn names_run(before: &Leg<'_>, leg: &Leg<'_>) -> bool
    ensures { result ≡ spec.is_named (run_of leg.now).after (run_of before.now).name
        (run_of before.now).sum }
{
    let after = leg.field(b"After");
    is_named(after, &before.said.name, before.said.sum.as_bytes())
}

/// Tells whether the texts of a leg say that it goes on where another has stopped: they name that
/// run, and what was withdrawn stays so.
fn is_said(before: &Leg<'_>, leg: &Leg<'_>) -> bool
    ensures { result ≡ spec.is_said (run_of before.now) (run_of leg.now) }
{
    names_run(before, leg) && are_all_in(&leg.said.gone, before.said.gone.list())
}

/// Tells whether a farm goes on where a run has stopped, whatever came into its archive by hand.
fn continues_run(
    alloc: Global,
    run: &Core<'_>,
    gone: &Items,
    farm: &Universe,
) -> Result<bool, AllocError>
    ensures right { IfOk result (λ yes. yes ≡ true → ContinuesRun run.now gone.now farm.now) }
    ensures wrong { IfOk result (λ yes. yes ≡ false → ¬ (ContinuesRun run.now gone.now farm.now)) }
{
    let there = initial_items(alloc, farm)?;
    let yes = goes_on(alloc, run, &there, gone, farm)?;
    Ok(yes)
}

/// Tells whether a leg goes on where another has stopped.
pub fn goes_on_from(alloc: Global, before: &Leg<'_>, leg: &Leg<'_>) -> Result<bool, AllocError>
    ensures right { IfOk result (λ yes. yes ≡ true
        → GoesOnFrom (run_of before.now) (run_of leg.now)) }
    ensures wrong { IfOk result (λ yes. yes ≡ false
        → ¬ (GoesOnFrom (run_of before.now) (run_of leg.now))) }
{
    if !is_said(before, leg) {
        return Ok(false);
    }
    let (run, gone) = (&before.follower.core, &leg.said.gone);
    let yes = continues_run(alloc, run, gone, leg.follower.core.universe())?;
    Ok(yes)
}
