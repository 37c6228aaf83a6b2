//! The boxes and edges of the graph of needs.

use crate::bits::Bits;
use crate::needs::{Needs, without_detours};
use farm_universe::Universe;
use plan_reader::{Instruction, Plan};
use std::alloc::{AllocError, Global};
use timeline::TimedPlan;

/// A recipe that is drawn; and whether it is one of those that were asked for.
#[derive(Clone, Copy)]
pub(crate) struct RecipeBox {
    pub(crate) recipe: u32,
    pub(crate) marked: bool,
}

/// A recipe, and one that needs it.
#[derive(Clone, Copy)]
pub(crate) struct Need {
    pub(crate) from: u32,
    pub(crate) to: u32,
}

/// The recipes that are drawn, and the needs between them, each in the order of the farm.
#[derive(Drop)]
pub(crate) struct NeedsGraph {
    pub(crate) boxes: Vec<RecipeBox>,
    pub(crate) edges: Vec<Need>,
}

/// The recipes that a lane builds.
fn built_in(alloc: Global, plan: &Plan, count: usize) -> Result<Bits, AllocError> {
    let mut built = Bits::none(alloc, count)?;
    for number in 0..plan.lanes() {
        for instruction in plan.lane(number).instructions() {
            if let Instruction::Build(recipe) = instruction {
                built.put(*recipe as usize);
            }
        }
    }
    Ok(built)
}

/// Tells whether a name is among these.
fn is_among(names: &[&str], name: &[u8]) -> bool {
    names.iter().any(|other| other.as_bytes() == name)
}

/// The recipes of these names.
fn named(alloc: Global, universe: &Universe, names: &[&str]) -> Result<Bits, AllocError> {
    let mut marked = Bits::none(alloc, universe.recipes() as usize)?;
    for recipe in 0..universe.recipes() {
        if is_among(names, universe.recipe_name(recipe)) {
            marked.put(recipe as usize);
        }
    }
    Ok(marked)
}

/// Those of a set, what they need, and what needs them.
fn around(alloc: Global, rows: &[Bits], marked: &Bits) -> Result<Bits, AllocError> {
    let mut shown = Bits::none(alloc, rows.len())?;
    shown.join(marked);
    for recipe in 0..rows.len() {
        let row = &rows[recipe];
        if marked.has(recipe) {
            shown.join(row);
        }
        if row.meets(marked) {
            shown.put(recipe);
        }
    }
    Ok(shown)
}

/// The boxes of these recipes.
fn boxes_of(
    alloc: Global,
    universe: &Universe,
    shown: &Bits,
    marked: &Bits,
) -> Result<Vec<RecipeBox>, AllocError> {
    let mut boxes = Vec::new(alloc);
    for recipe in 0..universe.recipes() {
        if shown.has(recipe as usize) {
            boxes.push(RecipeBox {
                recipe,
                marked: marked.has(recipe as usize),
            })?;
        }
    }
    Ok(boxes)
}

/// Tells whether a need is drawn: one that some of these recipes have or meet, or each.
fn is_drawn(need: Need, among: Option<&Bits>) -> bool {
    match among {
        Some(marked) => marked.has(need.from as usize) || marked.has(need.to as usize),
        None => true,
    }
}

/// Adds the needs of a recipe that are drawn.
fn add_needs(
    edges: &mut Vec<Need>,
    universe: &Universe,
    row: &Bits,
    to: u32,
    among: Option<&Bits>,
) -> Result<(), AllocError> {
    for from in 0..universe.recipes() {
        let need = Need { from, to };
        if row.has(from as usize) && is_drawn(need, among) {
            edges.push(need)?;
        }
    }
    Ok(())
}

/// The needs of recipes, those of some alone, or all.
fn edges_of(
    alloc: Global,
    universe: &Universe,
    rows: &[Bits],
    among: Option<&Bits>,
) -> Result<Vec<Need>, AllocError> {
    let mut edges = Vec::new(alloc);
    for to in 0..universe.recipes() {
        if let Some(row) = rows.get(to as usize) {
            add_needs(&mut edges, universe, row, to, among)?;
        }
    }
    Ok(edges)
}

/// The graph of all builds, without needs that others imply.
fn whole(alloc: Global, run: &TimedPlan<'_>) -> Result<NeedsGraph, AllocError> {
    let needs = Needs::of(alloc, run)?;
    let rows = without_detours(alloc, &needs)?;
    let built = built_in(alloc, run.plan, rows.len())?;
    let none = Bits::none(alloc, rows.len())?;
    Ok(NeedsGraph {
        boxes: boxes_of(alloc, run.universe, &built, &none)?,
        edges: edges_of(alloc, run.universe, &rows, None)?,
    })
}

impl NeedsGraph {
    /// The graph of all builds of a timed run, without the needs that others imply; or, of recipes of
    /// these names, all needs that they have and meet.
    pub(crate) fn of(
        alloc: Global,
        run: &TimedPlan<'_>,
        names: &[&str],
    ) -> Result<NeedsGraph, AllocError> {
        if names.is_empty() {
            return whole(alloc, run);
        }
        let needs = Needs::of(alloc, run)?;
        let marked = named(alloc, run.universe, names)?;
        let shown = around(alloc, needs.rows(), &marked)?;
        Ok(NeedsGraph {
            boxes: boxes_of(alloc, run.universe, &shown, &marked)?,
            edges: edges_of(alloc, run.universe, needs.rows(), Some(&marked))?,
        })
    }
}
