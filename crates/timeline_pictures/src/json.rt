//! The graph of a plan as JSON.

use crate::drawn::DrawnPlan;
use crate::edges::{Edge, entry_at};
use crate::graph::Graph;
use crate::nodes::Node;
use deb_text::push_pieces;
use plan_reader::{lane_name, push_entry};
use shown_text::text_value;
use std::alloc::{AllocError, Global};
use timeline::push_count;

/// Puts a name, with what stands around it, and a text in quotes behind another.
pub(crate) fn push_text(
    alloc: Global,
    text: &mut Vec<u8>,
    name: &[u8],
    value: &[u8],
) -> Result<(), AllocError> {
    let value = text_value(alloc, value)?.to_vec(alloc)?;
    push_pieces(text, &[name, &value])
}

/// Puts a name, with what stands around it, and the number of an instruction behind a text.
fn push_instruction(
    text: &mut Vec<u8>,
    name: &[u8],
    number: Option<usize>,
) -> Result<(), AllocError> {
    match number {
        Some(number) => push_count(text, name, number as u128),
        None => push_pieces(text, &[name, b"null"]),
    }
}

/// Puts a node behind a text.
fn push_node(
    alloc: Global,
    text: &mut Vec<u8>,
    drawn: &DrawnPlan<'_>,
    node: &Node,
) -> Result<(), AllocError> {
    push_instruction(text, b"{\"build\":", node.build)?;
    push_text(alloc, text, b",\"lane\":", lane_name(drawn.plan, node.lane))?;
    push_instruction(text, b",\"publish\":", node.publish)?;
    push_text(
        alloc,
        text,
        b",\"recipe\":",
        drawn.universe.recipe_name(node.recipe),
    )?;
    push_pieces(text, &[b"}"])
}

/// Puts the name of a member, and a node by its lane and its recipe, behind a text.
fn push_end(
    alloc: Global,
    text: &mut Vec<u8>,
    drawn: &DrawnPlan<'_>,
    name: &[u8],
    node: &Node,
) -> Result<(), AllocError> {
    push_pieces(text, &[name])?;
    push_text(alloc, text, b"{\"lane\":", lane_name(drawn.plan, node.lane))?;
    push_text(
        alloc,
        text,
        b",\"recipe\":",
        drawn.universe.recipe_name(node.recipe),
    )?;
    push_pieces(text, &[b"}"])
}

/// A truth as JSON has it.
pub(crate) fn truth(is_so: bool) -> &'static [u8] {
    if is_so { b"true" } else { b"false" }
}

/// Puts what is known of a wait behind a text.
fn push_wait(
    alloc: Global,
    text: &mut Vec<u8>,
    drawn: &DrawnPlan<'_>,
    edge: &Edge,
) -> Result<(), AllocError> {
    push_pieces(
        text,
        &[
            b"{\"alternatives\":",
            truth(edge.alternatives),
            b",\"bold\":",
            truth(edge.bold),
        ],
    )?;
    let mut entry = Vec::new(alloc);
    if let Some(wanted) = entry_at(drawn, edge.wait) {
        push_entry(&mut entry, wanted)?;
    }
    push_text(alloc, text, b",\"entry\":", &entry)
}

/// Puts an edge behind a text.
fn push_edge(
    alloc: Global,
    text: &mut Vec<u8>,
    drawn: &DrawnPlan<'_>,
    graph: &Graph,
    edge: &Edge,
) -> Result<(), AllocError> {
    let nodes = graph.nodes.nodes.as_slice();
    push_wait(alloc, text, drawn, edge)?;
    if let Some(from) = nodes.get(edge.from) {
        push_end(alloc, text, drawn, b",\"from\":", from)?;
    }
    push_pieces(text, &[b",\"idle\":", truth(edge.idle)])?;
    if let Some(to) = nodes.get(edge.to) {
        push_end(alloc, text, drawn, b",\"to\":", to)?;
    }
    push_pieces(text, &[b"}"])
}

/// Gives the graph of a plan as one JSON object, and a newline: its builds as nodes, and the waits
/// that they may end as edges.
pub fn plan_graph_json(alloc: Global, drawn: &DrawnPlan<'_>) -> Result<Vec<u8>, AllocError> {
    let graph = Graph::of(alloc, drawn)?;
    let mut text = Vec::from_slice(alloc, b"{\"edges\":[")?;
    let mut comma: &[u8] = b"";
    for edge in graph.edges.as_slice() {
        push_pieces(&mut text, &[comma])?;
        push_edge(alloc, &mut text, drawn, &graph, edge)?;
        comma = b",";
    }
    push_pieces(&mut text, &[b"],\"nodes\":["])?;
    comma = b"";
    for node in graph.nodes.nodes.as_slice() {
        push_pieces(&mut text, &[comma])?;
        push_node(alloc, &mut text, drawn, node)?;
        comma = b",";
    }
    push_pieces(&mut text, &[b"]}\n"])?;
    Ok(text)
}
