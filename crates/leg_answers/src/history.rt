//! The story of the legs of a chain, the first one first.

ghost use Rattle.std.specs.Prelude.{◌≡◌, true, IfOk, OnOk};
ghost use Rattle.leg_runs.specs.Fits.{GoesOnFrom, is_next};
ghost use Rattle.leg_runs.specs.Reads.{IsPlanned, IsRead, run_of, text_of};
ghost use Rattle.leg_answers.specs.Stories.{AreSeams, IsSeam, IsStoryTold};
ghost use Rattle.plan_reader.specs.TextsView.{texts_view};

use crate::facts::LegFacts;
use crate::seam::{Seam, push_seam};
use crate::story::{Kept, Lines, push_gone, push_last, push_leg, push_published};
use crate::why::{Why, why_not};
use leg_runs::{Leg, LegFault, LegTexts, goes_on_from, is_next, planned_of, read_leg};
use plan_reader::Planned;
use rest_farm::Items;
use std::alloc::{AllocError, Global};

/// The story of a chain: its lines, and whether nothing is wrong with it.
#[derive(Drop)]
pub struct History {
    pub text: Vec<u8>,
    pub is_right: bool,
}

/// A story as far as it is told.
#[derive(Drop)]
struct Story {
    lines: Lines,
    is_right: bool,
}

/// A leg whose farm and plan are read.
#[derive(Clone, Copy)]
struct Read<'a> {
    of: LegTexts<'a>,
    planned: &'a Planned,
}

fn gone_of(alloc: Global, leg: &Leg<'_>) -> Result<Items, AllocError> {
    let mut items = Vec::new(alloc);
    for item in leg.said.gone.list() {
        items.push(item.clone()?)?;
    }
    Items::of(alloc, items)
}

/// Keeps what is told of a leg.
fn keep(
    alloc: Global,
    lines: &mut Lines,
    leg: &Leg<'_>,
    facts: LegFacts,
) -> Result<(), AllocError> {
    let gone = gone_of(alloc, leg)?;
    lines.kept.push(Kept { facts, gone })?;
    Ok(())
}

/// Tells of the first leg.
fn tell_first(alloc: Global, lines: &mut Lines, leg: &Leg<'_>) -> Result<(), AllocError> {
    let facts = LegFacts::of(alloc, leg)?;
    push_leg(&mut lines.text, 0, leg, &facts)?;
    let _is_once = push_published(alloc, lines, leg)?;
    keep(alloc, lines, leg, facts)
}

/// Why a leg does not go on, if it does not.
fn why_in(
    alloc: Global,
    goes_on: bool,
    before: &Leg<'_>,
    leg: &Leg<'_>,
    ends: (&LegFacts, &LegFacts),
) -> Result<Option<Why>, AllocError> {
    if goes_on {
        return Ok(None);
    }
    Ok(Some(why_not(alloc, before, leg, ends)?))
}

/// Tells of a leg after another, given whether it goes on there. Tells whether nothing that it has
/// published was published before.
fn tell_leg<'x>(
    alloc: Global,
    lines: &mut Lines,
    before: &'x Leg<'x>,
    leg: &'x Leg<'x>,
    goes_on: bool,
) -> Result<bool, AllocError> {
    let number = lines.number();
    let start = LegFacts::of(alloc, before)?;
    let end = LegFacts::of(alloc, leg)?;
    push_leg(&mut lines.text, number, leg, &end)?;
    let why = why_in(alloc, goes_on, before, leg, (&start, &end))?;
    let seam = Seam {
        number,
        before: &*before,
        leg: &*leg,
        start: &start,
        end: &end,
    };
    let follows = is_next(before.next_run, &leg.said.name);
    push_seam(&mut lines.text, seam, why.as_ref(), follows)?;
    let is_once = push_published(alloc, lines, leg)?;
    keep(alloc, lines, leg, end)?;
    Ok(is_once)
}

/// Tells of a leg after another.
fn tell_joined(
    alloc: Global,
    story: &mut Story,
    before: &Leg<'_>,
    leg: &Leg<'_>,
) -> Result<(), AllocError>
    ensures { OnOk result (story.new.is_right ≡ true → (story.old.is_right ≡ true)
        × GoesOnFrom (run_of before.now) (run_of leg.now)
        × (is_next (run_of before.now).next (run_of leg.now).name ≡ true)) }
{
    let goes_on = goes_on_from(alloc, before, leg)?;
    let is_next = is_next(before.next_run, &leg.said.name);
    let is_once = tell_leg(alloc, &mut story.lines, before, leg, goes_on)?;
    story.is_right = story.is_right && goes_on && is_next && is_once;
    Ok(())
}

fn tell_behind(
    alloc: Global,
    story: &mut Story,
    before: &Leg<'_>,
    read: Read<'_>,
) -> Result<(), LegFault>
    requires { IsPlanned (texts_view read.of.texts) read.planned.now }
    ensures { OnOk result (story.new.is_right ≡ true → (story.old.is_right ≡ true)
        × ((text : _) → IsRead text before.now → IsSeam text (text_of read.entry.of))) }
{
    match read_leg(alloc, read.of, read.planned) {
        Ok(leg) => Ok(tell_joined(alloc, story, before, &leg)?),
        Err(fault) => Err(fault),
    }
}

fn tell_both(
    alloc: Global,
    story: &mut Story,
    before: Read<'_>,
    leg: Read<'_>,
) -> Result<(), LegFault>
    requires before { IsPlanned (texts_view before.of.texts) before.planned.now }
    requires leg { IsPlanned (texts_view leg.of.texts) leg.planned.now }
    ensures { OnOk result (story.new.is_right ≡ true → (story.old.is_right ≡ true)
        × IsSeam (text_of before.entry.of) (text_of leg.entry.of)) }
{
    match read_leg(alloc, before.of, before.planned) {
        Ok(first) => tell_behind(alloc, story, &first, leg),
        Err(fault) => Err(fault),
    }
}

fn tell_read(
    alloc: Global,
    story: &mut Story,
    before: Read<'_>,
    of: LegTexts<'_>,
) -> Result<(), LegFault>
    requires before { IsPlanned (texts_view before.of.texts) before.planned.now }
    ensures { OnOk result (story.new.is_right ≡ true → (story.old.is_right ≡ true)
        × IsSeam (text_of before.entry.of) (text_of of.entry)) }
{
    match planned_of(alloc, of.texts) {
        Ok(planned) => tell_both(
            alloc,
            story,
            before,
            Read {
                of,
                planned: &planned,
            },
        ),
        Err(fault) => Err(fault),
    }
}

/// Tells of a leg after another, by their texts.
fn tell_next(
    alloc: Global,
    story: &mut Story,
    before: LegTexts<'_>,
    of: LegTexts<'_>,
) -> Result<(), LegFault>
    ensures { OnOk result (story.new.is_right ≡ true → (story.old.is_right ≡ true)
        × IsSeam (text_of before.entry) (text_of of.entry)) }
{
    match planned_of(alloc, before.texts) {
        Ok(planned) => tell_read(
            alloc,
            story,
            Read {
                of: before,
                planned: &planned,
            },
            of,
        ),
        Err(fault) => Err(fault),
    }
}

/// Tells of the first leg, by its texts.
fn begin(alloc: Global, lines: &mut Lines, of: LegTexts<'_>) -> Result<(), LegFault> {
    match planned_of(alloc, of.texts) {
        Ok(planned) => {
            let leg = read_leg(alloc, of, &planned)?;
            Ok(tell_first(alloc, lines, &leg)?)
        }
        Err(fault) => Err(fault),
    }
}

/// Tells of legs after a first one.
fn tell_rest(
    alloc: Global,
    story: &mut Story,
    first: LegTexts<'_>,
    legs: &[LegTexts<'_>],
) -> Result<(), LegFault>
    ensures { OnOk result (story.new.is_right ≡ true → AreSeams first.entry legs.now) }
{
    let mut before = first;
    let mut rest = legs;
    while let [next, others @ ..] = rest {
        tell_next(alloc, story, before, *next)?;
        before = *next;
        rest = others;
    }
    Ok(())
}

/// Ends a story.
fn finish(story: Story) -> Result<History, AllocError>
    ensures { IfOk result (λ h. h.is_right ≡ true → story.is_right ≡ true) }
{
    let Story { lines, is_right } = story;
    let Lines { text, kept, .. } = lines;
    let mut text = text;
    let is_out = push_gone(&mut text, &kept)?;
    push_last(&mut text, &kept)?;
    Ok(History {
        text,
        is_right: is_right && is_out,
    })
}

fn history_from(
    alloc: Global,
    first: LegTexts<'_>,
    legs: &[LegTexts<'_>],
) -> Result<History, LegFault>
    ensures { IfOk result (λ h. h.is_right ≡ true → AreSeams first.entry legs.now) }
{
    let mut story = Story {
        lines: Lines::new(alloc),
        is_right: true,
    };
    begin(alloc, &mut story.lines, first)?;
    tell_rest(alloc, &mut story, first, legs)?;
    Ok(finish(story)?)
}

/// Tells the story of legs, the first one first: of each its run, and what that has published by
/// which recipe; and what is wrong with it. Nothing is wrong only where each goes on from the one
/// before, which no other run has ended. `None` of no legs.
///
/// # Errors
///
/// [`LegFault`] of the first leg that is not read.
pub fn history_of(alloc: Global, legs: &[LegTexts<'_>]) -> Result<Option<History>, LegFault>
    ensures { IfOk result (IsStoryTold legs.now) }
{
    let [first, rest @ ..] = legs else {
        return Ok(None);
    };
    Ok(Some(history_from(alloc, *first, rest)?))
}
