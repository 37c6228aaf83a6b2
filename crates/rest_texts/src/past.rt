//! What a run has done by the time at which it stopped.

use crate::lists::{distinct, listed};
use drive_replay::{Follower, Note};
use plan_reader::Instruction;
use rest_farm::{Item, Items, known_item};
use std::alloc::{AllocError, Global};

/// What has become of a recipe in a run: it is built, it is published, and the lane in which its
/// publish is open.
#[derive(Clone, Copy)]
pub struct Progress {
    pub is_built: bool,
    pub is_published: bool,
    pub open_publish: Option<usize>,
}

/// What a run has left in the archive, in its order; the recipes that it has published, in the order
/// of their publishes; and what has become of each recipe.
#[derive(Drop)]
pub struct Past {
    pub left: Items,
    pub published: Vec<u32>,
    recipes: Vec<Progress>,
}

const UNTOUCHED: Progress = Progress {
    is_built: false,
    is_published: false,
    open_publish: None,
};

/// Notes an instruction with what a journal has noted of it.
fn note_in(recipes: &mut Vec<Progress>, instruction: &Instruction, note: Note, lane: usize) {
    match instruction {
        Instruction::Build(recipe) => {
            if let Some(progress) = recipes.get_mut(*recipe as usize) {
                progress.is_built = progress.is_built || note.done;
            }
        }
        Instruction::Publish(recipe) => {
            if let Some(progress) = recipes.get_mut(*recipe as usize) {
                progress.is_published = progress.is_published || note.done;
                if note.asked && !note.done {
                    progress.open_publish = Some(lane);
                }
            }
        }
        _ => {}
    }
}

/// A recipe that is published, behind the number of the event.
fn published_by(instruction: &Instruction, note: Note) -> Option<(u64, u32)> {
    match (instruction, note.rank) {
        (Instruction::Publish(recipe), Some(rank)) if note.done => Some((rank, *recipe)),
        _ => None,
    }
}

fn progress_of(alloc: Global, run: &Follower<'_>) -> Result<Vec<Progress>, AllocError> {
    let mut recipes = vec![in alloc; UNTOUCHED; run.core.universe().recipes() as usize]?;
    let plan = run.core.plan();
    for lane in 0..plan.lanes() {
        let instructions = plan.lane(lane).instructions();
        for place in 0..instructions.len() {
            let note = run.notes.of(lane as u32, place as u64 + 1);
            note_in(&mut recipes, &instructions[place], note, lane);
        }
    }
    Ok(recipes)
}

fn published_of(alloc: Global, run: &Follower<'_>) -> Result<Vec<u32>, AllocError> {
    let mut ranked = Vec::new(alloc);
    let plan = run.core.plan();
    for lane in 0..plan.lanes() {
        let instructions = plan.lane(lane).instructions();
        for place in 0..instructions.len() {
            let note = run.notes.of(lane as u32, place as u64 + 1);
            if let Some(published) = published_by(&instructions[place], note) {
                ranked.push(published)?;
            }
        }
    }
    ranked.sort()?;
    let mut published = Vec::new(alloc);
    for (_, recipe) in &ranked {
        published.push(*recipe)?;
    }
    Ok(published)
}

fn push_history(
    alloc: Global,
    run: &Follower<'_>,
    items: &mut Vec<Item>,
) -> Result<(), AllocError> {
    for publication in run.core.history() {
        if let Some(item) = known_item(alloc, run.core.universe(), publication.variant)? {
            items.push(item)?;
        }
    }
    Ok(())
}

impl Past {
    /// What a run has done, given the field `Archive` of its farm.
    pub fn of(
        alloc: Global,
        run: &Follower<'_>,
        archive: Option<&[u8]>,
    ) -> Result<Past, AllocError> {
        let mut items = listed(alloc, archive)?;
        push_history(alloc, run, &mut items)?;
        Ok(Past {
            left: distinct(alloc, items)?,
            published: published_of(alloc, run)?,
            recipes: progress_of(alloc, run)?,
        })
    }

    /// What has become of a recipe.
    pub fn progress(&self, recipe: usize) -> Progress {
        match self.recipes.get(recipe) {
            Some(progress) => *progress,
            None => UNTOUCHED,
        }
    }
}
