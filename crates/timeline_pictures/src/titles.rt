//! What is told of a piece of a lane when one points at it.

use crate::drawing::Drawing;
use crate::pieces::{Kind, Piece};
use crate::xml::push_xml;
use deb_text::push_pieces;
use plan_reader::{lane_name, push_variant};
use std::alloc::{AllocError, Global};
use timeline::{TimedPlan, push_count};

/// The number of the instruction of an event, counted from 1; 0 for a number that is no event's.
fn instruction_number(run: &TimedPlan<'_>, number: usize) -> u128 {
    match run.event(number) {
        Some(event) => u128::from(event.place).saturating_add(1),
        None => 0,
    }
}

/// The name of the recipe that an event builds; nothing where it is no build.
pub(crate) fn recipe_name<'a>(run: &TimedPlan<'a>, number: usize) -> &'a [u8] {
    match run.event(number) {
        Some(event) => match run.built(event) {
            Some(recipe) => run.universe.recipe_name(recipe),
            None => b"",
        },
        None => b"",
    }
}

/// Puts the instructions of a piece behind a text.
fn push_instructions(
    text: &mut Vec<u8>,
    run: &TimedPlan<'_>,
    piece: Piece,
) -> Result<(), AllocError> {
    let first = instruction_number(run, piece.first);
    let last = instruction_number(run, piece.last);
    if first == last {
        push_count(text, b"instruction ", first)
    } else {
        push_count(text, b"instructions ", first)?;
        push_count(text, b" to ", last)
    }
}

/// Puts the output that an event waits for behind a text, with its lane.
fn push_cause(
    alloc: Global,
    text: &mut Vec<u8>,
    drawing: &Drawing<'_>,
    number: usize,
) -> Result<(), AllocError> {
    let Some(cause) = drawing.facts.cause(number) else {
        return Ok(());
    };
    let Some(event) = drawing.run.event(cause) else {
        return Ok(());
    };
    let mut words = Vec::new(alloc);
    push_pieces(&mut words, &[b" for "])?;
    if let Some(variant) = event.output {
        push_variant(&mut words, drawing.run.universe, variant)?;
    }
    push_pieces(
        &mut words,
        &[b" of lane ", lane_name(drawing.run.plan, event.lane)],
    )?;
    push_xml(alloc, text, &words)
}

/// Puts what a piece is behind a text.
fn push_what(
    alloc: Global,
    text: &mut Vec<u8>,
    drawing: &Drawing<'_>,
    piece: Piece,
) -> Result<(), AllocError> {
    if piece.is_pure(Kind::Wait) {
        push_pieces(text, &[b"waits"])?;
        push_cause(alloc, text, drawing, piece.last)?;
        push_pieces(text, &[b", "])
    } else if piece.is_one_build() {
        push_pieces(text, &[b"builds "])?;
        push_xml(alloc, text, recipe_name(drawing.run, piece.first))?;
        push_pieces(text, &[b", "])
    } else if piece.builds > 0 {
        push_count(text, b"builds ", piece.builds as u128)?;
        push_pieces(text, &[b" recipes, "])
    } else {
        Ok(())
    }
}

/// Puts what is told of a piece behind a text.
pub(crate) fn push_title(
    alloc: Global,
    text: &mut Vec<u8>,
    drawing: &Drawing<'_>,
    piece: Piece,
) -> Result<(), AllocError> {
    push_count(text, b"<title>", piece.begin)?;
    push_count(text, b" to ", piece.end)?;
    push_pieces(text, &[b": "])?;
    push_what(alloc, text, drawing, piece)?;
    push_instructions(text, drawing.run, piece)?;
    push_pieces(text, &[b"</title>"])
}
