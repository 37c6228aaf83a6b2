//! The graph of a plan as a text for graphviz.

use crate::drawn::DrawnPlan;
use crate::edges::{Edge, entry_at};
use crate::graph::Graph;
use crate::nodes::Node;
use deb_text::push_pieces;
use plan_reader::{lane_name, push_entry};
use std::alloc::{AllocError, Global};
use timeline::push_count;

/// Puts a text behind another, as it stands between the quotes of graphviz.
fn push_escaped(text: &mut Vec<u8>, words: &[u8]) -> Result<(), AllocError> {
    for byte in words {
        if *byte == b'"' || *byte == b'\\' {
            text.push(b'\\')?;
        }
        text.push(*byte)?;
    }
    Ok(())
}

/// Puts a text in quotes behind another.
pub(crate) fn push_quoted(text: &mut Vec<u8>, words: &[u8]) -> Result<(), AllocError> {
    text.push(b'"')?;
    push_escaped(text, words)?;
    text.push(b'"')?;
    Ok(())
}

/// Puts the identifier of a node behind a text: its lane and its recipe.
fn push_node_name(
    text: &mut Vec<u8>,
    drawn: &DrawnPlan<'_>,
    node: &Node,
) -> Result<(), AllocError> {
    text.push(b'"')?;
    push_escaped(text, lane_name(drawn.plan, node.lane))?;
    text.push(b' ')?;
    push_escaped(text, drawn.universe.recipe_name(node.recipe))?;
    text.push(b'"')?;
    Ok(())
}

/// Puts the line of a node behind a text.
fn push_node(
    text: &mut Vec<u8>,
    drawn: &DrawnPlan<'_>,
    node: &Node,
    is_bold: bool,
) -> Result<(), AllocError> {
    push_pieces(text, &[b"    "])?;
    push_node_name(text, drawn, node)?;
    push_pieces(text, &[b" [label="])?;
    push_quoted(text, drawn.universe.recipe_name(node.recipe))?;
    let style: &[u8] = if is_bold { b", style=bold" } else { b"" };
    push_pieces(text, &[style, b"];\n"])
}

/// Puts the line that joins a node to the one before it in its lane behind a text, if there is one.
fn push_order(
    text: &mut Vec<u8>,
    drawn: &DrawnPlan<'_>,
    before: Option<&Node>,
    node: &Node,
) -> Result<(), AllocError> {
    let Some(before) = before else {
        return Ok(());
    };
    push_pieces(text, &[b"    "])?;
    push_node_name(text, drawn, before)?;
    push_pieces(text, &[b" -> "])?;
    push_node_name(text, drawn, node)?;
    push_pieces(text, &[b" [color=grey, arrowhead=none];\n"])
}

/// Puts the nodes of a lane behind a text, from the one of this number on, and tells the number
/// behind them.
fn push_nodes(
    text: &mut Vec<u8>,
    drawn: &DrawnPlan<'_>,
    graph: &Graph,
    lane: usize,
    first: usize,
) -> Result<usize, AllocError> {
    let nodes = graph.nodes.nodes.as_slice();
    let mut before: Option<&Node> = None;
    for number in first..nodes.len() {
        let node = &nodes[number];
        if node.lane != lane {
            return Ok(number);
        }
        push_node(text, drawn, node, graph.marks.is_on_path(number))?;
        push_order(text, drawn, before, node)?;
        before = Some(node);
    }
    Ok(nodes.len())
}

/// Puts a cluster for each lane behind a text.
fn push_lanes(text: &mut Vec<u8>, drawn: &DrawnPlan<'_>, graph: &Graph) -> Result<(), AllocError> {
    let mut next = 0;
    for lane in 0..drawn.plan.lanes() {
        push_count(text, b"  subgraph cluster_", lane as u128)?;
        push_pieces(text, &[b" {\n    label="])?;
        push_quoted(text, lane_name(drawn.plan, lane))?;
        push_pieces(text, &[b";\n"])?;
        next = push_nodes(text, drawn, graph, lane, next)?;
        push_pieces(text, &[b"  }\n"])?;
    }
    Ok(())
}

/// How an edge is drawn.
fn style_of(edge: &Edge) -> &'static [u8] {
    match (edge.alternatives, edge.bold) {
        (true, true) => b", style=\"dashed,bold\"",
        (true, false) => b", style=\"dashed\"",
        (false, true) => b", style=\"bold\"",
        (false, false) => b"",
    }
}

/// Puts the entry that an edge stands for behind a text, in quotes.
fn push_label(
    alloc: Global,
    text: &mut Vec<u8>,
    drawn: &DrawnPlan<'_>,
    edge: &Edge,
) -> Result<(), AllocError> {
    let mut label = Vec::new(alloc);
    if let Some(entry) = entry_at(drawn, edge.wait) {
        push_entry(&mut label, entry)?;
    }
    push_quoted(text, &label)
}

/// Puts the line of an edge behind a text.
fn push_edge(
    alloc: Global,
    text: &mut Vec<u8>,
    drawn: &DrawnPlan<'_>,
    graph: &Graph,
    edge: &Edge,
) -> Result<(), AllocError> {
    let nodes = graph.nodes.nodes.as_slice();
    if let (Some(from), Some(to)) = (nodes.get(edge.from), nodes.get(edge.to)) {
        push_pieces(text, &[b"  "])?;
        push_node_name(text, drawn, from)?;
        push_pieces(text, &[b" -> "])?;
        push_node_name(text, drawn, to)?;
        push_pieces(text, &[b" [label="])?;
        push_label(alloc, text, drawn, edge)?;
        let colour: &[u8] = if edge.idle { b"black" } else { b"grey" };
        push_pieces(text, &[b", color=", colour, style_of(edge), b"];\n"])?;
    }
    Ok(())
}

/// Gives a plan as a text for graphviz: a box for each build and its publish in a cluster for each
/// lane, and an edge for each wait from the builds that may end it to the one that it holds up. An
/// edge is dashed where several may, grey where the wait costs no time, and bold on the critical path
/// and between lanes that are stuck.
pub fn plan_dot(alloc: Global, drawn: &DrawnPlan<'_>) -> Result<Vec<u8>, AllocError> {
    let graph = Graph::of(alloc, drawn)?;
    let mut text = Vec::new(alloc);
    push_pieces(
        &mut text,
        &[b"digraph plan {\n  rankdir=LR;\n  newrank=true;\n  node [shape=box];\n"],
    )?;
    push_lanes(&mut text, drawn, &graph)?;
    for edge in graph.edges.as_slice() {
        push_edge(alloc, &mut text, drawn, &graph, edge)?;
    }
    push_pieces(&mut text, &[b"}\n"])?;
    Ok(text)
}
