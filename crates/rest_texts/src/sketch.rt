//! The sketch of the lanes of the farm that goes on.

use crate::packages::{Farm, HEAD, headed};
use crate::settled::Settled;
use deb_text::{next_line, next_word, push_pieces};
use drive_replay::Follower;
use plan_reader::{Instruction, Lane};
use std::alloc::{AllocError, Global};

/// A sketch; which recipes it builds, by their places; and the lanes of the run that are left out,
/// since the farm does not have their chroots.
#[derive(Drop)]
pub struct MadeSketch {
    text: Vec<u8>,
    placed: Vec<bool>,
    pub lanes_gone: Vec<usize>,
}

impl MadeSketch {
    fn new(alloc: Global, text: Vec<u8>, count: usize) -> Result<MadeSketch, AllocError> {
        Ok(MadeSketch {
            text,
            placed: vec![in alloc; false; count]?,
            lanes_gone: Vec::new(alloc),
        })
    }

    /// Tells whether a lane builds a recipe.
    pub fn has(&self, place: usize) -> bool {
        match self.placed.get(place) {
            Some(is_placed) => *is_placed,
            None => true,
        }
    }

    /// The text of the sketch.
    pub fn into_text(self) -> Vec<u8> {
        let MadeSketch {
            text,
            placed: _,
            lanes_gone: _,
        } = self;
        text
    }

    fn place(&mut self, place: usize) {
        if let Some(is_placed) = self.placed.get_mut(place) {
            *is_placed = true;
        }
    }
}

/// The place of a recipe that a lane builds, that is left, and that no lane builds ahead of it.
fn next_build(
    run: &Follower<'_>,
    farm: Farm<'_>,
    settled: &Settled,
    sketch: &MadeSketch,
    instruction: &Instruction,
) -> Option<usize> {
    let Instruction::Build(recipe) = instruction else {
        return None;
    };
    let name = run.core.universe().recipe_name(*recipe);
    let place = settled.left_place(farm.text, farm.recipes, name)?;
    if sketch.has(place) {
        return None;
    }
    Some(place)
}

/// The recipes that a lane has to build yet, by their places.
fn builds_of(
    alloc: Global,
    run: &Follower<'_>,
    farm: Farm<'_>,
    settled: &Settled,
    sketch: &mut MadeSketch,
    lane: &Lane,
) -> Result<Vec<usize>, AllocError> {
    let mut builds = Vec::new(alloc);
    for instruction in lane.instructions() {
        if let Some(place) = next_build(run, farm, settled, sketch, instruction) {
            sketch.place(place);
            builds.push(place)?;
        }
    }
    Ok(builds)
}

/// Puts lines behind a sketch for those of some recipes that are built, or that are not.
fn push_builds(
    text: &mut Vec<u8>,
    settled: &Settled,
    builds: &[usize],
    built: bool,
) -> Result<(), AllocError> {
    for place in builds {
        if settled.fate(*place).is_built() != built {
            continue;
        }
        if let Some(recipe) = settled.recipes.get(*place) {
            push_pieces(text, &[b"  build ", recipe.name.bytes(), b"\n"])?;
        }
    }
    Ok(())
}

fn chroot_of<'a>(run: &Follower<'a>, lane: &Lane) -> &'a [u8] {
    let universe = run.core.universe();
    if lane.base() >= universe.bases() {
        return b"";
    }
    universe.base(lane.base()).name()
}

/// Puts a lane behind a sketch: first what is built by now, since that waits for its publish alone.
fn push_lane(
    alloc: Global,
    run: &Follower<'_>,
    farm: Farm<'_>,
    settled: &Settled,
    sketch: &mut MadeSketch,
    lane: &Lane,
) -> Result<(), AllocError> {
    let builds = builds_of(alloc, run, farm, settled, sketch, lane)?;
    let chroot = chroot_of(run, lane);
    push_pieces(
        &mut sketch.text,
        &[b"lane ", lane.name(), b" chroot ", chroot, b"\n"],
    )?;
    push_builds(&mut sketch.text, settled, &builds, true)?;
    push_builds(&mut sketch.text, settled, &builds, false)?;
    sketch.text.extend_from_slice(b"end\n")
}

fn has_chroot(farm: Farm<'_>, name: &[u8]) -> bool {
    for number in 1..farm.text.count() {
        if farm.text.value(number, b"Chroot") == Some(name) {
            return true;
        }
    }
    false
}

/// The sketch of the lanes of a run, each with what it has to build yet.
fn sketch_of(
    alloc: Global,
    run: &Follower<'_>,
    farm: Farm<'_>,
    settled: &Settled,
) -> Result<MadeSketch, AllocError> {
    let mut text = Vec::from_slice(alloc, HEAD)?;
    text.extend_from_slice(b"plan 1\n")?;
    let mut sketch = MadeSketch::new(alloc, text, settled.recipes.len())?;
    let plan = run.core.plan();
    for number in 0..plan.lanes() {
        let lane = plan.lane(number);
        if has_chroot(farm, chroot_of(run, lane)) {
            push_lane(alloc, run, farm, settled, &mut sketch, lane)?;
        } else {
            sketch.lanes_gone.push(number)?;
        }
    }
    Ok(sketch)
}

/// The recipe that a line of a sketch builds.
fn built_by(line: &[u8]) -> Option<&[u8]> {
    let (verb, rest) = next_word(line)?;
    if verb != b"build".as_slice() {
        return None;
    }
    Some(next_word(rest)?.0)
}

/// A sketch that is given, as it stands. Its faults are left for whoever drafts a plan by it.
fn given_sketch(
    alloc: Global,
    text: &[u8],
    farm: Farm<'_>,
    settled: &Settled,
) -> Result<MadeSketch, AllocError> {
    let mut sketch = MadeSketch::new(alloc, headed(alloc, text)?, settled.recipes.len())?;
    let mut rest = text;
    while let Some((line, behind)) = next_line(rest) {
        rest = behind;
        if let Some(name) = built_by(line) {
            if let Some(place) = settled.left_place(farm.text, farm.recipes, name) {
                sketch.place(place);
            }
        }
    }
    Ok(sketch)
}

/// The sketch of the farm that goes on: the given one, or that of the lanes of the run.
pub fn sketch_by(
    alloc: Global,
    run: &Follower<'_>,
    farm: Farm<'_>,
    settled: &Settled,
    given: Option<&[u8]>,
) -> Result<MadeSketch, AllocError> {
    match given {
        Some(text) => given_sketch(alloc, text, farm, settled),
        None => sketch_of(alloc, run, farm, settled),
    }
}
