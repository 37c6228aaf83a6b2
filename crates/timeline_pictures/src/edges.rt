//! The waits of a plan that its builds end.

use crate::drawn::DrawnPlan;
use crate::marks::Marks;
use crate::nodes::Nodes;
use crate::sources::{published, sources};
use deb_relation::Entry;
use plan_reader::Instruction;
use std::alloc::{AllocError, Global};
use timeline::Givers;

/// A wait that a build may end, from that build to the one that it holds up, by their numbers.
#[derive(Clone, Copy)]
pub(crate) struct Edge {
    pub(crate) from: usize,
    pub(crate) to: usize,
    pub(crate) wait: Place,
    /// Another box may end it too.
    pub(crate) alternatives: bool,
    /// It is on the critical path, or joins two lanes that are stuck.
    pub(crate) bold: bool,
    /// It takes time in the timed run, or there is none.
    pub(crate) idle: bool,
}

/// Where an instruction stands: the number of its lane, and how many stand before it there.
#[derive(Clone, Copy)]
pub(crate) struct Place {
    pub(crate) lane: usize,
    pub(crate) place: usize,
}

/// What edges are made of.
#[derive(Clone, Copy)]
struct Joined<'a> {
    drawn: &'a DrawnPlan<'a>,
    nodes: &'a Nodes,
    marks: &'a Marks,
    givers: &'a Givers,
}

/// The entry that the instruction at a place waits for.
pub(crate) fn entry_at<'a>(drawn: &DrawnPlan<'a>, at: Place) -> Option<&'a Entry> {
    if at.lane >= drawn.plan.lanes() {
        return None;
    }
    match drawn.plan.lane(at.lane).instructions().get(at.place) {
        Some(Instruction::Wait(entry)) => Some(entry),
        _ => None,
    }
}

impl<'a> Joined<'a> {
    /// The edge from a build to another that a wait holds up.
    fn edge(&self, from: usize, to: usize, wait: Place, alternatives: bool) -> Edge {
        let mark = self.marks.mark(wait.lane, wait.place);
        let is_circle = match self.nodes.nodes.get(from) {
            Some(node) => self.marks.is_stuck(wait.lane) && self.marks.is_stuck(node.lane),
            None => false,
        };
        Edge {
            from,
            to,
            wait,
            alternatives,
            bold: mark.on_path || is_circle,
            idle: mark.waits || self.drawn.run.is_none(),
        }
    }

    /// Adds the edges of a wait for an entry.
    fn add_wait(
        &self,
        alloc: Global,
        edges: &mut Vec<Edge>,
        wait: Place,
        entry: &Entry,
    ) -> Result<(), AllocError> {
        let Some(to) = self.nodes.next(wait.lane, wait.place) else {
            return Ok(());
        };
        let found = sources(alloc, self.drawn.universe, self.givers, entry)?;
        for from in found.as_slice() {
            edges.push(self.edge(*from, to, wait, found.len() > 1))?;
        }
        Ok(())
    }

    /// Adds the edges of the waits of a lane.
    fn add_lane(
        &self,
        alloc: Global,
        edges: &mut Vec<Edge>,
        lane: usize,
        count: usize,
    ) -> Result<(), AllocError> {
        for place in 0..count {
            let wait = Place { lane, place };
            if let Some(entry) = entry_at(self.drawn, wait) {
                self.add_wait(alloc, edges, wait, entry)?;
            }
        }
        Ok(())
    }
}

/// The edges of a plan, by the places of their waits.
pub(crate) fn edges_of(
    alloc: Global,
    drawn: &DrawnPlan<'_>,
    nodes: &Nodes,
    marks: &Marks,
) -> Result<Vec<Edge>, AllocError> {
    let givers = published(alloc, drawn.universe, &nodes.nodes)?;
    let joined = Joined {
        drawn,
        nodes,
        marks,
        givers: &givers,
    };
    let mut edges = Vec::new(alloc);
    for lane in 0..drawn.plan.lanes() {
        let count = drawn.plan.lane(lane).instructions().len();
        joined.add_lane(alloc, &mut edges, lane, count)?;
    }
    Ok(edges)
}
