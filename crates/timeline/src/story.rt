//! What the lines are told of, and the words that several of them share.

use crate::{Facts, TimedPlan, push_count};
use deb_text::push_pieces;
use farm_universe::Universe;
use plan_reader::{PlanLines, lane_name, push_variant};
use std::alloc::AllocError;
use timed_run::Event;

/// A timed run, what it shows, and the lines of the plan's text.
#[derive(Clone, Copy)]
pub(crate) struct Story<'a> {
    pub(crate) run: &'a TimedPlan<'a>,
    pub(crate) facts: &'a Facts,
    pub(crate) lines: &'a PlanLines,
}

/// The number of an event's instruction, counted from 1.
pub(crate) fn instruction_number(event: &Event) -> u128 {
    u128::from(event.place).saturating_add(1)
}

/// Puts the variant that an event gives behind a text.
fn push_output(text: &mut Vec<u8>, universe: &Universe, event: &Event) -> Result<(), AllocError> {
    match event.output {
        Some(variant) => push_variant(text, universe, variant),
        None => Ok(()),
    }
}

impl<'a> Story<'a> {
    /// The name of the lane of an event.
    pub(crate) fn lane_of(&self, event: &Event) -> &'a [u8] {
        lane_name(self.run.plan, event.lane)
    }

    /// Puts the line of an event's instruction in the plan behind a text, with that of the `use`
    /// that brings it in.
    pub(crate) fn push_place(&self, text: &mut Vec<u8>, event: &Event) -> Result<(), AllocError> {
        let Some(origin) = self.lines.origin(event.lane, event.place as usize) else {
            return push_pieces(text, &[b"plan"]);
        };
        push_count(text, b"plan line ", u128::from(origin.line))?;
        match origin.used {
            Some(line) => push_count(text, b", by the use at line ", u128::from(line)),
            None => Ok(()),
        }
    }

    /// Puts what the event of a number waits for behind a text, with the lane that gives it.
    pub(crate) fn push_cause(&self, text: &mut Vec<u8>, number: usize) -> Result<(), AllocError> {
        let Some(cause) = self.facts.cause(number) else {
            return Ok(());
        };
        let Some(event) = self.run.event(cause) else {
            return Ok(());
        };
        push_pieces(text, &[b" waits for "])?;
        push_output(text, self.run.universe, event)?;
        push_pieces(text, &[b" of lane ", self.lane_of(event)])
    }
}
