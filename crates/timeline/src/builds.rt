//! The builds by how much later they could end.

use crate::best::{Best, Ranked};
use crate::push_count;
use crate::story::{Story, instruction_number};
use deb_text::push_pieces;
use std::alloc::{AllocError, Global};
use timed_run::Event;

/// The most builds that are told.
const MOST_BUILDS: usize = 10;

fn took(event: &Event) -> u128 {
    event.end.saturating_sub(event.begin)
}

/// The builds that could end later by the least, the longest of equal ones first.
fn tightest(alloc: Global, story: &Story<'_>) -> Result<Best, AllocError> {
    let mut best = Best::new(alloc, MOST_BUILDS);
    for number in 0..story.run.events.len() {
        let event = &story.run.events[number];
        if story.run.built(event).is_some() {
            best.offer(Ranked {
                rank: story.facts.slack(number),
                next: u128::MAX - took(event),
                number,
            })?;
        }
    }
    Ok(best)
}

/// Puts the line of a build behind a text.
fn push_build(text: &mut Vec<u8>, story: &Story<'_>, number: usize) -> Result<(), AllocError> {
    let Some(event) = story.run.event(number) else {
        return Ok(());
    };
    let Some(recipe) = story.run.built(event) else {
        return Ok(());
    };
    push_pieces(text, &[b"build ", story.run.universe.recipe_name(recipe)])?;
    push_count(text, b" takes ", took(event))?;
    push_count(text, b" slack ", story.facts.slack(number))?;
    push_pieces(text, &[b", lane ", story.lane_of(event)])?;
    push_count(text, b" instruction ", instruction_number(event))?;
    push_pieces(text, &[b"\n"])
}

/// Puts the builds that hold up the end most behind a text, those without slack first.
pub(crate) fn push_builds(
    alloc: Global,
    text: &mut Vec<u8>,
    story: &Story<'_>,
) -> Result<(), AllocError> {
    let best = tightest(alloc, story)?;
    for ranked in best.found() {
        push_build(text, story, ranked.number)?;
    }
    Ok(())
}
