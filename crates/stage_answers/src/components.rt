//! Strong components of a graph: nodes from which each of the others can be reached.

use std::alloc::{AllocError, Global};

/// By node: those that it leads to, each once.
#[derive(Drop)]
pub(crate) struct Graph {
    pub(crate) edges: Vec<Vec<u32>>,
}

/// A walk over nodes, each of which is seen once.
#[derive(Drop)]
struct Walk {
    is_seen: Vec<bool>,
    /// Nodes under way, and how many of those that each leads to were looked at.
    path: Vec<(u32, usize)>,
    /// Those that are done, each behind all that it leads to.
    done: Vec<u32>,
}

impl Graph {
    /// As many nodes, none of which leads to another.
    pub(crate) fn new(alloc: Global, count: usize) -> Result<Graph, AllocError> {
        let mut edges = Vec::new(alloc);
        for _ in 0..count {
            edges.push(Vec::new(alloc))?;
        }
        Ok(Graph { edges })
    }

    /// Those that a node leads to.
    pub(crate) fn of(&self, node: u32) -> &[u32] {
        match self.edges.get(node as usize) {
            Some(others) => others,
            None => &[],
        }
    }

    pub(crate) fn add(&mut self, node: u32, other: u32) -> Result<(), AllocError> {
        if let Some(others) = self.edges.get_mut(node as usize) {
            others.push(other)?;
        }
        Ok(())
    }

    /// The same nodes, each of which leads to those that lead to it here.
    fn reversed(&self, alloc: Global) -> Result<Graph, AllocError> {
        let mut back = Graph::new(alloc, self.edges.len())?;
        let mut node = 0u32;
        for others in &self.edges {
            for other in others {
                back.add(*other, node)?;
            }
            node = node.saturating_add(1);
        }
        Ok(back)
    }
}

impl Walk {
    fn new(alloc: Global, count: usize) -> Result<Walk, AllocError> {
        Ok(Walk {
            is_seen: Vec::from_elem(alloc, false, count)?,
            path: Vec::new(alloc),
            done: Vec::new(alloc),
        })
    }

    /// Goes to a node, if it was not seen.
    fn enter(&mut self, node: u32) -> Result<(), AllocError> {
        if let Some(seen) = self.is_seen.get_mut(node as usize) {
            if !*seen {
                *seen = true;
                self.path.push((node, 0))?;
            }
        }
        Ok(())
    }

    /// The next node that the last one of the path leads to; or leaves that one.
    fn step(&mut self, graph: &Graph) -> Result<(), AllocError> {
        let Some((node, at)) = self.path.pop() else {
            return Ok(());
        };
        match graph.of(node).get(at) {
            Some(other) => {
                self.path.push((node, at.saturating_add(1)))?;
                self.enter(*other)
            }
            None => {
                self.done.push(node)?;
                Ok(())
            }
        }
    }

    /// Walks to all that can be reached from a node and was not seen.
    fn go(&mut self, graph: &Graph, node: u32) -> Result<(), AllocError> {
        self.enter(node)?;
        for _ in 0..usize::MAX {
            if self.path.is_empty() {
                break;
            }
            self.step(graph)?;
        }
        Ok(())
    }
}

/// All nodes, each behind those that it leads to where these do not lead to it.
fn finished(alloc: Global, graph: &Graph) -> Result<Vec<u32>, AllocError> {
    let mut walk = Walk::new(alloc, graph.edges.len())?;
    let mut node = 0u32;
    for _ in 0..graph.edges.len() {
        walk.go(graph, node)?;
        node = node.saturating_add(1);
    }
    Ok(walk.done)
}

/// The sizes of the strong components of more than one node, the largest first.
pub(crate) fn component_sizes(alloc: Global, graph: &Graph) -> Result<Vec<usize>, AllocError> {
    let order = finished(alloc, graph)?;
    let back = graph.reversed(alloc)?;
    let mut walk = Walk::new(alloc, graph.edges.len())?;
    let mut sizes = Vec::new(alloc);
    for node in order.iter().rev() {
        let before = walk.done.len();
        walk.go(&back, *node)?;
        let size = walk.done.len().saturating_sub(before);
        if size > 1 {
            sizes.push(size)?;
        }
    }
    sizes.sort()?;
    sizes.reverse();
    Ok(sizes)
}
