//! Events as objects.

use crate::members::{Shown, instruction_number, push_text};
use crate::verbs::{recipe_of, verb};
use crate::{push_count, waited};
use deb_text::push_pieces;
use farm_model::Variant;
use plan_reader::push_variant;
use std::alloc::{AllocError, Global};
use timed_run::Event;

/// Puts a member whose value is a variant behind a text, if there is one.
fn push_variant_member(
    alloc: Global,
    text: &mut Vec<u8>,
    shown: &Shown<'_>,
    name: &[u8],
    variant: Option<Variant>,
) -> Result<(), AllocError> {
    let Some(variant) = variant else {
        return Ok(());
    };
    let mut spelled = Vec::new(alloc);
    push_variant(&mut spelled, shown.run.universe, variant)?;
    push_text(alloc, text, name, &spelled)
}

/// Puts the members that tell the instruction of an event behind a text.
fn push_instruction(
    alloc: Global,
    text: &mut Vec<u8>,
    shown: &Shown<'_>,
    event: &Event,
) -> Result<(), AllocError> {
    push_count(text, b",\"instruction\":", instruction_number(event))?;
    push_variant_member(alloc, text, shown, b",\"output\":", event.output)?;
    let Some(instruction) = shown.run.instruction(event) else {
        return Ok(());
    };
    if let Some(recipe) = recipe_of(instruction) {
        let name = shown.run.universe.recipe_name(recipe);
        push_text(alloc, text, b",\"recipe\":", name)?;
    }
    push_pieces(text, &[b",\"verb\":\"", verb(instruction), b"\""])
}

/// Puts the output that an event waits for behind a text.
fn push_cause(
    alloc: Global,
    text: &mut Vec<u8>,
    shown: &Shown<'_>,
    number: usize,
) -> Result<(), AllocError> {
    let Some(cause) = shown.facts.cause(number) else {
        return Ok(());
    };
    let Some(event) = shown.run.event(cause) else {
        return Ok(());
    };
    push_count(
        text,
        b",\"waits_for\":{\"instruction\":",
        instruction_number(event),
    )?;
    push_pieces(text, &[b",\"lane\":", shown.name(event.lane)])?;
    push_variant_member(alloc, text, shown, b",\"variant\":", event.output)?;
    push_pieces(text, &[b"}"])
}

/// Puts the event of a number behind a text.
fn push_event(
    alloc: Global,
    text: &mut Vec<u8>,
    shown: &Shown<'_>,
    number: usize,
    event: &Event,
) -> Result<(), AllocError> {
    let waits = waited(event) > 0;
    push_count(text, b"{\"begin\":", event.begin)?;
    push_count(text, b",\"end\":", event.end)?;
    if waits {
        push_count(text, b",\"free\":", event.free)?;
    }
    push_instruction(alloc, text, shown, event)?;
    if waits {
        push_cause(alloc, text, shown, number)?;
    }
    push_pieces(text, &[b"}"])
}

/// Puts the events of these numbers behind a text, commas between.
pub(crate) fn push_events(
    alloc: Global,
    text: &mut Vec<u8>,
    shown: &Shown<'_>,
    numbers: &[usize],
) -> Result<(), AllocError> {
    let mut comma: &[u8] = b"";
    for number in numbers {
        if let Some(event) = shown.run.event(*number) {
            push_pieces(text, &[comma])?;
            push_event(alloc, text, shown, *number, event)?;
            comma = b",";
        }
    }
    Ok(())
}
