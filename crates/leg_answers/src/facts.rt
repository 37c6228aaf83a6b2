//! What is told of a leg beside others.

use deb_relation::{Kind, Relations};
use drive_replay::Follower;
use farm_universe::Universe;
use leg_runs::Leg;
use plan_reader::Instruction;
use rest_farm::{Item, Items, known_item};
use std::alloc::{AllocError, Global};

/// What the archive of a leg has at its start and at its end, in its order, and what was published;
/// how many recipes that are, and how many lanes are not at their end.
#[derive(Drop)]
pub struct LegFacts {
    pub at_start: Items,
    pub at_end: Items,
    pub published: Items,
    pub recipes: u64,
    pub lanes_left: u64,
}

/// The items of the archive at a farm's beginning, in the order of the field.
fn archive_items(
    alloc: Global,
    farm: &Universe,
    value: Option<&[u8]>,
) -> Result<Vec<Item>, AllocError> {
    let mut items = Vec::new(alloc);
    let Ok(entries) = Relations::parse(alloc, value.unwrap_or(b""), Kind::Provide) else {
        return Err(AllocError);
    };
    for entry in entries.entries() {
        if let Some(variant) = farm.item_variant(entry) {
            if let Some(item) = known_item(alloc, farm, variant)? {
                items.push(item)?;
            }
        }
    }
    Ok(items)
}

fn published_items(alloc: Global, run: &Follower<'_>) -> Result<Vec<Item>, AllocError> {
    let mut items = Vec::new(alloc);
    for publication in run.core.history() {
        if let Some(item) = known_item(alloc, run.core.universe(), publication.variant)? {
            items.push(item)?;
        }
    }
    Ok(items)
}

fn copies(alloc: Global, first: &[Item], second: &[Item]) -> Result<Vec<Item>, AllocError> {
    let mut items = Vec::new(alloc);
    for item in first {
        items.push(item.clone()?)?;
    }
    for item in second {
        items.push(item.clone()?)?;
    }
    Ok(items)
}

/// How many publishes of a lane are done.
fn publishes_in(run: &Follower<'_>, lane: usize) -> u64 {
    if lane >= run.core.plan().lanes() {
        return 0;
    }
    let instructions = run.core.plan().lane(lane).instructions();
    let mut count = 0u64;
    for place in 0..instructions.len() {
        let note = run.notes.of(lane as u32, place as u64 + 1);
        if note.done && matches!(&instructions[place], Instruction::Publish(_)) {
            count = count.saturating_add(1);
        }
    }
    count
}

fn publishes(run: &Follower<'_>) -> u64 {
    let mut count = 0u64;
    for lane in 0..run.core.plan().lanes() {
        count = count.saturating_add(publishes_in(run, lane));
    }
    count
}

/// How many lanes are not at their end.
fn lanes_left(run: &Follower<'_>) -> u64 {
    let plan = run.core.plan();
    let mut count = 0u64;
    for lane in 0..plan.lanes() {
        if (run.core.done(lane as u32) as usize) < plan.lane(lane).instructions().len() {
            count = count.saturating_add(1);
        }
    }
    count
}

impl LegFacts {
    /// The facts of a leg.
    pub fn of(alloc: Global, leg: &Leg<'_>) -> Result<LegFacts, AllocError> {
        let run = &leg.follower;
        let value = leg.field(b"Archive");
        let at_start = archive_items(alloc, run.core.universe(), value)?;
        let published = published_items(alloc, run)?;
        let at_end = copies(alloc, &at_start, &published)?;
        Ok(LegFacts {
            at_start: Items::of(alloc, at_start)?,
            at_end: Items::of(alloc, at_end)?,
            published: Items::of(alloc, published)?,
            recipes: publishes(run),
            lanes_left: lanes_left(run),
        })
    }
}
