//! The graph of a plan.

use crate::drawn::DrawnPlan;
use crate::edges::{Edge, edges_of};
use crate::marks::Marks;
use crate::nodes::Nodes;
use std::alloc::{AllocError, Global};

/// The graph of a plan: its builds, what is marked of them, and the waits that join them.
#[derive(Drop)]
pub(crate) struct Graph {
    pub(crate) nodes: Nodes,
    pub(crate) marks: Marks,
    pub(crate) edges: Vec<Edge>,
}

impl Graph {
    /// The graph of a plan.
    pub(crate) fn of(alloc: Global, drawn: &DrawnPlan<'_>) -> Result<Graph, AllocError> {
        let nodes = Nodes::of(alloc, drawn.plan)?;
        let marks = Marks::of(alloc, drawn, &nodes)?;
        let edges = edges_of(alloc, drawn, &nodes, &marks)?;
        Ok(Graph {
            nodes,
            marks,
            edges,
        })
    }
}
