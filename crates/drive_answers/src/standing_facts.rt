//! What is told of where the lanes of a run stand.

ghost use Rattle.drive_replay.specs.Following.{IsReached};
ghost use Rattle.farm_model.specs.Universe.{Universe};
ghost use Rattle.plan_reader.specs.CountedPlan.{CountedPlan};

use crate::standing_times::{LaneTime, Times};
use deb_relation::Entry;
use drive_replay::{Follower, NOTHING, Note, Standing};
use farm_universe::relations::satisfies_entry;
use farm_universe::{Universe, Variant};
use plan_reader::{Instruction, Plan, push_instruction};
use std::alloc::{AllocError, Global};

/// A run that is told of: its universe, its plan, its name, if it has begun, and when it ends, if
/// that is known.
#[derive(Clone, Copy)]
pub struct Told<'a> {
    pub universe: &'a Universe,
    pub plan: &'a Plan,
    pub name: Option<&'a [u8]>,
    pub times: Option<&'a Times>,
}

/// What is done of a plan.
#[derive(Clone, Copy)]
pub struct Progress {
    pub published: u64,
    pub recipes: u64,
    pub steps: u64,
    pub of_steps: u64,
    pub done: u64,
}

/// How long the builds that are done have taken, and the steps of these.
#[derive(Clone, Copy)]
pub struct Pace {
    pub seconds: u64,
    pub steps: u64,
}

/// An output, and the lane that gives it.
#[derive(Clone, Copy)]
pub struct Output {
    pub variant: Variant,
    pub lane: usize,
}

/// Where a lane stands: how many of its instructions are done, at what cost, what it is at, whether
/// that has failed and since when it is open, if times are noted, and if it is a wait, for what.
#[derive(Drop)]
pub struct LaneFacts {
    pub at: u64,
    pub of: u64,
    pub spent: u64,
    pub standing: Standing,
    pub failed: bool,
    pub since: Option<u64>,
    pub text: Vec<u8>,
    pub awaited: Option<Output>,
}

/// Where a run stands: what is done, how many seconds after its beginning and at what pace, if times
/// are noted, what is published, in its order, the recipes that are built and not published, in the
/// order of the plan, and the lanes; and the run that goes on from it, if one does.
#[derive(Drop)]
pub struct Facts {
    pub next_run: Option<Vec<u8>>,
    pub progress: Progress,
    pub seconds: Option<u64>,
    pub pace: Pace,
    pub published: Vec<Output>,
    pub unpublished: Vec<u32>,
    pub lanes: Vec<LaneFacts>,
}

impl Told<'_> {
    /// The times of a lane, if they are known.
    pub fn time(&self, lane: usize) -> Option<LaneTime> {
        self.times?.lanes.get(lane).copied()
    }
}

fn steps_of(universe: &Universe, recipe: u32) -> u64 {
    if recipe < universe.recipes() {
        universe.recipe(recipe).steps()
    } else {
        0
    }
}

impl Progress {
    /// Counts an instruction, and whether it is done.
    fn add(&mut self, universe: &Universe, instruction: &Instruction, is_done: bool) {
        if is_done {
            self.done = self.done.saturating_add(1);
        }
        let Instruction::Publish(recipe) = instruction else {
            return;
        };
        let steps = steps_of(universe, *recipe);
        self.recipes = self.recipes.saturating_add(1);
        self.of_steps = self.of_steps.saturating_add(steps);
        if is_done {
            self.published = self.published.saturating_add(1);
            self.steps = self.steps.saturating_add(steps);
        }
    }
}

/// What is done of the plan of a run.
fn progress_of(run: &Follower<'_>) -> Progress {
    let mut progress = Progress {
        published: 0,
        recipes: 0,
        steps: 0,
        of_steps: 0,
        done: 0,
    };
    let plan = run.core.plan();
    for lane in 0..plan.lanes() {
        if run.notes.of(lane as u32, 0).done {
            progress.done = progress.done.saturating_add(1);
        }
        let instructions = plan.lane(lane).instructions();
        for place in 0..instructions.len() {
            let is_done = run.notes.of(lane as u32, place as u64 + 1).done;
            progress.add(run.core.universe(), &instructions[place], is_done);
        }
    }
    progress
}

impl Pace {
    /// Counts an instruction that is done, if it is a build.
    fn add(&mut self, universe: &Universe, instruction: &Instruction, note: Note) {
        let Instruction::Build(recipe) = instruction else {
            return;
        };
        let seconds = note.until.saturating_sub(note.since);
        self.seconds = self.seconds.saturating_add(seconds);
        self.steps = self.steps.saturating_add(steps_of(universe, *recipe));
    }
}

/// At what pace builds are done.
fn pace_of(run: &Follower<'_>) -> Pace {
    let mut pace = Pace {
        seconds: 0,
        steps: 0,
    };
    let plan = run.core.plan();
    for lane in 0..plan.lanes() {
        let instructions = plan.lane(lane).instructions();
        for place in 0..instructions.len() {
            let note = run.notes.of(lane as u32, place as u64 + 1);
            if note.done {
                pace.add(run.core.universe(), &instructions[place], note);
            }
        }
    }
    pace
}

/// Which recipes are published.
fn published_recipes(alloc: Global, run: &Follower<'_>) -> Result<Vec<bool>, AllocError> {
    let mut published = vec![in alloc; false; run.core.universe().recipes() as usize]?;
    let plan = run.core.plan();
    for lane in 0..plan.lanes() {
        let instructions = plan.lane(lane).instructions();
        for place in 0..instructions.len() {
            if !run.notes.of(lane as u32, place as u64 + 1).done {
                continue;
            }
            if let Instruction::Publish(recipe) = &instructions[place] {
                mark(&mut published, *recipe);
            }
        }
    }
    Ok(published)
}

fn mark(recipes: &mut Vec<bool>, recipe: u32) {
    if let Some(is_marked) = recipes.get_mut(recipe as usize) {
        *is_marked = true;
    }
}

fn is_marked(recipes: &[bool], recipe: u32) -> bool {
    match recipes.get(recipe as usize) {
        Some(is_marked) => *is_marked,
        None => true,
    }
}

/// The recipes that are built and not published, in the order of the plan.
fn unpublished_of(alloc: Global, run: &Follower<'_>) -> Result<Vec<u32>, AllocError> {
    let mut told = published_recipes(alloc, run)?;
    let mut unpublished = Vec::new(alloc);
    let plan = run.core.plan();
    for lane in 0..plan.lanes() {
        let instructions = plan.lane(lane).instructions();
        for place in 0..instructions.len() {
            if !run.notes.of(lane as u32, place as u64 + 1).done {
                continue;
            }
            let Instruction::Build(recipe) = &instructions[place] else {
                continue;
            };
            if !is_marked(&told, *recipe) {
                unpublished.push(*recipe)?;
                mark(&mut told, *recipe);
            }
        }
    }
    Ok(unpublished)
}

/// What is published, in its order.
fn outputs_of(alloc: Global, run: &Follower<'_>) -> Result<Vec<Output>, AllocError> {
    let mut outputs = Vec::new(alloc);
    for publication in run.core.history() {
        outputs.push(Output {
            variant: publication.variant,
            lane: publication.lane as usize,
        })?;
    }
    Ok(outputs)
}

/// How many instructions of each lane are done.
fn places_of(alloc: Global, run: &Follower<'_>) -> Result<Vec<u64>, AllocError> {
    let mut places = Vec::new(alloc);
    for lane in 0..run.core.plan().lanes() {
        places.push(run.place(lane as u32))?;
    }
    Ok(places)
}

/// Tells whether a variant satisfies an entry.
fn is_met(universe: &Universe, entry: &Entry, variant: Variant) -> bool {
    variant.name < universe.names()
        && variant.bit < universe.variants(variant.name)
        && satisfies_entry(universe, entry, variant)
}

/// An output of an instruction that satisfies an entry, the first where there are several.
fn output_for(universe: &Universe, instruction: &Instruction, entry: &Entry) -> Option<Variant> {
    let Instruction::Publish(recipe) = instruction else {
        return None;
    };
    for variant in universe.outputs(*recipe) {
        if is_met(universe, entry, *variant) {
            return Some(*variant);
        }
    }
    None
}

/// The first output still to come that satisfies an entry.
fn next_output(run: &Follower<'_>, places: &[u64], entry: &Entry) -> Option<Output> {
    let plan = run.core.plan();
    for lane in 0..plan.lanes() {
        let first = match places.get(lane) {
            Some(place) => *place as usize,
            None => 0,
        };
        let instructions = plan.lane(lane).instructions();
        for place in first..instructions.len() {
            let found = output_for(run.core.universe(), &instructions[place], entry);
            if let Some(variant) = found {
                return Some(Output { variant, lane });
            }
        }
    }
    None
}

/// The instruction of this number, counted from 1.
fn instruction_of<'a>(run: &Follower<'a>, lane: u32, number: u64) -> Option<&'a Instruction> {
    let place = number.checked_sub(1)?;
    let plan = run.core.plan();
    if lane as usize >= plan.lanes() {
        return None;
    }
    let instructions = plan.lane(lane as usize).instructions();
    instructions.get(place as usize)
}

/// The words of the instruction of this number; those of a lane's chroot for 0.
fn words_of(
    alloc: Global,
    run: &Follower<'_>,
    lane: u32,
    number: u64,
) -> Result<Vec<u8>, AllocError> {
    let mut text = Vec::new(alloc);
    match instruction_of(run, lane, number) {
        Some(instruction) => push_instruction(&mut text, run.core.universe(), instruction)?,
        None => text.extend_from_slice(b"open")?,
    }
    Ok(text)
}

/// The number of the instruction that a lane is at, 0 for its chroot; none at its end.
pub fn number_of(standing: Standing) -> Option<u64> {
    match standing {
        Standing::Open(number) | Standing::Next(number) | Standing::Waits(number) => Some(number),
        Standing::Ended => None,
    }
}

/// What a lane waits for.
fn awaited_at(run: &Follower<'_>, places: &[u64], lane: u32, standing: Standing) -> Option<Output> {
    let Standing::Waits(number) = standing else {
        return None;
    };
    match instruction_of(run, lane, number) {
        Some(Instruction::Wait(entry)) => next_output(run, places, entry),
        _ => None,
    }
}

/// How many instructions a lane has.
fn length_of(run: &Follower<'_>, lane: u32) -> u64 {
    let plan = run.core.plan();
    if lane as usize >= plan.lanes() {
        return 0;
    }
    plan.lane(lane as usize).instructions().len() as u64
}

/// What is noted of what is open in a lane.
fn open_note(run: &Follower<'_>, lane: u32, standing: Standing) -> Option<Note> {
    match standing {
        Standing::Open(number) => Some(run.notes.of(lane, number)),
        _ => None,
    }
}

/// Since when something is open, if times are noted.
fn since_of(run: &Follower<'_>, note: Option<Note>) -> Option<u64> {
    let _seconds = run.notes.seconds()?;
    Some(note?.since)
}

/// Where a lane stands, once all have gone past what nobody is asked for.
fn lane_facts(
    alloc: Global,
    run: &Follower<'_>,
    places: &[u64],
    lane: u32,
) -> Result<LaneFacts, AllocError> {
    let standing = run.standing(lane);
    let note = open_note(run, lane, standing);
    let text = match number_of(standing) {
        Some(number) => words_of(alloc, run, lane, number)?,
        None => Vec::new(alloc),
    };
    Ok(LaneFacts {
        at: places.get(lane as usize).copied().unwrap_or(0),
        of: length_of(run, lane),
        spent: run.spent(lane),
        standing,
        failed: note.unwrap_or(NOTHING).failed,
        since: since_of(run, note),
        text,
        awaited: awaited_at(run, places, lane, standing),
    })
}

/// A name of one's own.
fn copied(alloc: Global, name: Option<&[u8]>) -> Result<Option<Vec<u8>>, AllocError> {
    match name {
        Some(name) => Ok(Some(Vec::from_slice(alloc, name)?)),
        None => Ok(None),
    }
}

impl Facts {
    /// Where a run stands, from which the run of this name may go on. Its lanes go past what nobody
    /// is asked for.
    pub fn of(
        alloc: Global,
        run: &mut Follower<'_>,
        next_run: Option<&[u8]>,
    ) -> Result<Facts, AllocError>
        ensures { (u : Universe) (p : CountedPlan) → IsReached u p run.old.core
            → IsReached u p run.new.core }
    {
        let next_run = copied(alloc, next_run)?;
        let progress = progress_of(run);
        let pace = pace_of(run);
        let published = outputs_of(alloc, run)?;
        let unpublished = unpublished_of(alloc, run)?;
        let places = places_of(alloc, run)?;
        run.rest();
        let mut lanes = Vec::new(alloc);
        for lane in 0..run.core.plan().lanes() {
            lanes.push(lane_facts(alloc, run, &places, lane as u32)?)?;
        }
        Ok(Facts {
            next_run,
            progress,
            seconds: run.notes.seconds(),
            pace,
            published,
            unpublished,
            lanes,
        })
    }
}
