//! The graph of needs as a text for graphviz.

use crate::dot::push_quoted;
use crate::needs_graph::{Need, NeedsGraph, RecipeBox};
use deb_text::push_pieces;
use farm_universe::Universe;
use std::alloc::{AllocError, Global};
use timeline::TimedPlan;

/// What the text begins with: time goes to the right, and all is small, since boxes may be many.
const HEAD: &[u8] = b"digraph needs {
  rankdir=LR;
  nodesep=0.1;
  ranksep=0.3;
  node [shape=box, fontsize=10, height=0.2, margin=0.05];
  edge [arrowsize=0.6];
";

/// Puts the line of a box behind a text.
fn push_box(text: &mut Vec<u8>, universe: &Universe, of: RecipeBox) -> Result<(), AllocError> {
    push_pieces(text, &[b"  "])?;
    push_quoted(text, universe.recipe_name(of.recipe))?;
    let style: &[u8] = if of.marked { b" [style=bold]" } else { b"" };
    push_pieces(text, &[style, b";\n"])
}

/// Puts the line of an edge behind a text.
fn push_need(text: &mut Vec<u8>, universe: &Universe, need: Need) -> Result<(), AllocError> {
    push_pieces(text, &[b"  "])?;
    push_quoted(text, universe.recipe_name(need.from))?;
    push_pieces(text, &[b" -> "])?;
    push_quoted(text, universe.recipe_name(need.to))?;
    push_pieces(text, &[b";\n"])
}

/// Gives which build of a plan needs which in its timed run as a text for graphviz: a box for each
/// recipe that a lane builds, with edges from those that it needs. An edge is left out if other needs
/// lead from its beginning to its end. If there are names, it gives the recipes of these, marked, all
/// that they need directly, and all that needs them.
pub fn needs_dot(
    alloc: Global,
    run: &TimedPlan<'_>,
    names: &[&str],
) -> Result<Vec<u8>, AllocError> {
    let graph = NeedsGraph::of(alloc, run, names)?;
    let mut text = Vec::new(alloc);
    push_pieces(&mut text, &[HEAD])?;
    for of in graph.boxes.as_slice() {
        push_box(&mut text, run.universe, *of)?;
    }
    for need in graph.edges.as_slice() {
        push_need(&mut text, run.universe, *need)?;
    }
    push_pieces(&mut text, &[b"}\n"])?;
    Ok(text)
}
