//! What open publishes may have put into the archive.

use crate::lists::{distinct, listed};
use crate::stop::{Stop, push_item_line, recipe_line, refused};
use deb_text::push_pieces;
use drive_replay::Follower;
use plan_reader::{Instruction, lane_name};
use rest_farm::{Fate, Item, Items, WantedRecipe, first_clash, known_item};
use std::alloc::{AllocError, Global};

/// What open publishes may have put into the archive: first that of this run, by their places with
/// the lanes in which they are open; then that of earlier runs.
#[derive(Drop)]
pub struct Pending {
    pub items: Items,
    lanes: Vec<usize>,
}

/// The recipe whose publish is open in a lane.
fn open_publish(run: &Follower<'_>, lane: usize) -> Option<u32> {
    let plan = run.core.plan();
    if lane >= plan.lanes() {
        return None;
    }
    let number = run.notes.asked(lane as u32)?;
    if number == 0 {
        return None;
    }
    match plan.lane(lane).instructions().get((number - 1) as usize) {
        Some(Instruction::Publish(recipe)) => Some(*recipe),
        _ => None,
    }
}

fn push_outputs(
    alloc: Global,
    run: &Follower<'_>,
    recipe: u32,
    items: &mut Vec<Item>,
) -> Result<(), AllocError> {
    for variant in run.core.universe().outputs(recipe) {
        if let Some(item) = known_item(alloc, run.core.universe(), *variant)? {
            items.push(item)?;
        }
    }
    Ok(())
}

/// Puts a number behind others until they are so many.
fn fill(numbers: &mut Vec<usize>, number: usize, count: usize) -> Result<(), AllocError> {
    for _ in numbers.len()..count {
        numbers.push(number)?;
    }
    Ok(())
}

impl Pending {
    /// What open publishes may have put into the archive, given what the run has left there, and the
    /// field `Pending` of its farm.
    pub fn of(
        alloc: Global,
        run: &Follower<'_>,
        left: &Items,
        before: Option<&[u8]>,
    ) -> Result<Pending, AllocError> {
        let mut items = Vec::new(alloc);
        let mut lanes = Vec::new(alloc);
        for lane in 0..run.core.plan().lanes() {
            if let Some(recipe) = open_publish(run, lane) {
                push_outputs(alloc, run, recipe, &mut items)?;
                fill(&mut lanes, lane, items.len())?;
            }
        }
        for item in &listed(alloc, before)? {
            if !left.has_item(item) {
                items.push(item.clone()?)?;
            }
        }
        let items = Items::of(alloc, items)?;
        Ok(Pending { items, lanes })
    }

    /// What the farm that goes on has in its field `Pending`: what is not in its archive.
    pub fn kept(&self, alloc: Global, archive: &Items) -> Result<Items, AllocError> {
        let mut items = Vec::new(alloc);
        let list = self.items.list();
        for place in 0..list.len() {
            let item = &list[list.len() - 1 - place];
            if !archive.has_item(item) {
                items.push(item.clone()?)?;
            }
        }
        distinct(alloc, items)
    }

    /// The lane in which the publish of an item is open.
    fn lane_of(&self, item: &Item) -> Option<usize> {
        let place = self.items.first(item)?;
        self.lanes.get(place).copied()
    }
}

fn clash_lines(
    alloc: Global,
    run: &Follower<'_>,
    pending: &Pending,
    recipe: &WantedRecipe,
    item: &Item,
) -> Result<Vec<u8>, AllocError> {
    let mut lines = recipe_line(alloc, b"725", recipe.name.bytes())?;
    let Some(lane) = pending.lane_of(item) else {
        let why = b" may be in the archive by now: its publish was open in an earlier run";
        push_item_line(&mut lines, b"  ", item, why)?;
        return Ok(lines);
    };
    let mut why = Vec::new(alloc);
    let name = lane_name(run.core.plan(), lane);
    let front = b" may be in the archive by now: its publish is open in lane ";
    push_pieces(&mut why, &[front, name])?;
    push_item_line(&mut lines, b"  ", item, &why)?;
    Ok(lines)
}

/// Refuses a recipe of another build that gives what an open publish may have put into the archive
/// (725).
pub fn judge_pending(
    alloc: Global,
    run: &Follower<'_>,
    pending: &Pending,
    fate: Fate,
    recipe: &WantedRecipe,
) -> Result<(), Stop> {
    let Some(place) = first_clash(&pending.items, fate, recipe) else {
        return Ok(());
    };
    match recipe.outputs.get(place) {
        Some(item) => Err(refused(clash_lines(alloc, run, pending, recipe, item))),
        None => Ok(()),
    }
}
