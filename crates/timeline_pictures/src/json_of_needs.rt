//! The graph of needs as JSON.

use crate::json::{push_text, truth};
use crate::needs_graph::{Need, NeedsGraph, RecipeBox};
use deb_text::push_pieces;
use farm_universe::Universe;
use std::alloc::{AllocError, Global};
use timeline::TimedPlan;

/// Puts a box behind a text.
fn push_box(
    alloc: Global,
    text: &mut Vec<u8>,
    universe: &Universe,
    of: RecipeBox,
) -> Result<(), AllocError> {
    push_pieces(text, &[b"{\"marked\":", truth(of.marked)])?;
    push_text(
        alloc,
        text,
        b",\"recipe\":",
        universe.recipe_name(of.recipe),
    )?;
    push_pieces(text, &[b"}"])
}

/// Puts an edge behind a text.
fn push_need(
    alloc: Global,
    text: &mut Vec<u8>,
    universe: &Universe,
    need: Need,
) -> Result<(), AllocError> {
    push_text(alloc, text, b"{\"from\":", universe.recipe_name(need.from))?;
    push_text(alloc, text, b",\"to\":", universe.recipe_name(need.to))?;
    push_pieces(text, &[b"}"])
}

/// Gives the graph that [`needs_dot`](crate::needs_dot) gives as one JSON object, and a newline.
pub fn needs_json(
    alloc: Global,
    run: &TimedPlan<'_>,
    names: &[&str],
) -> Result<Vec<u8>, AllocError> {
    let graph = NeedsGraph::of(alloc, run, names)?;
    let mut text = Vec::from_slice(alloc, b"{\"edges\":[")?;
    let mut comma: &[u8] = b"";
    for need in graph.edges.as_slice() {
        push_pieces(&mut text, &[comma])?;
        push_need(alloc, &mut text, run.universe, *need)?;
        comma = b",";
    }
    push_pieces(&mut text, &[b"],\"nodes\":["])?;
    comma = b"";
    for of in graph.boxes.as_slice() {
        push_pieces(&mut text, &[comma])?;
        push_box(alloc, &mut text, run.universe, *of)?;
        comma = b",";
    }
    push_pieces(&mut text, &[b"]}\n"])?;
    Ok(text)
}
