//! What a timed run says of the waits of a plan and of its builds.

use crate::drawn::DrawnPlan;
use crate::nodes::Nodes;
use plan_reader::{Plan, lane_name};
use std::alloc::{AllocError, Global};
use timed_run::Event;
use timeline::{TimedPlan, waited};

/// What is known of an instruction: its lane waits there, and the critical path comes through it.
#[derive(Clone, Copy)]
pub(crate) struct Mark {
    pub(crate) waits: bool,
    pub(crate) on_path: bool,
}

const NONE: Mark = Mark {
    waits: false,
    on_path: false,
};

/// Marks of instructions by lane and place, of nodes by number, and of lanes that are stuck.
#[derive(Drop)]
pub(crate) struct Marks {
    places: Vec<Vec<Mark>>,
    nodes: Vec<bool>,
    stuck: Vec<bool>,
}

/// Tells whether a name is among these.
fn is_among(names: &[Vec<u8>], name: &[u8]) -> bool {
    for other in names {
        if other.as_slice() == name {
            return true;
        }
    }
    false
}

/// Instructions without marks.
fn no_marks(alloc: Global, plan: &Plan) -> Result<Vec<Vec<Mark>>, AllocError> {
    let mut places = Vec::new(alloc);
    for number in 0..plan.lanes() {
        let count = plan.lane(number).instructions().len();
        places.push(vec![in alloc; NONE; count]?)?;
    }
    Ok(places)
}

/// Puts a mark where there is a place for it.
fn put(marks: &mut Vec<bool>, number: usize) {
    if let Some(mark) = marks.get_mut(number) {
        *mark = true;
    }
}

impl Marks {
    /// Marks an event at which its lane waits.
    fn note_wait(&mut self, event: &Event, on_path: bool) {
        let Some(places) = self.places.get_mut(event.lane) else {
            return;
        };
        if let Some(mark) = places.get_mut(event.place as usize) {
            mark.waits = true;
            mark.on_path = mark.on_path || on_path;
        }
    }

    /// Marks an event of the critical path.
    fn note_path(&mut self, run: &TimedPlan<'_>, nodes: &Nodes, event: &Event) {
        if waited(event) > 0 {
            self.note_wait(event, true);
        }
        if run.built(event).is_some() {
            if let Some(number) = nodes.next(event.lane, event.place as usize) {
                put(&mut self.nodes, number);
            }
        }
    }

    fn note_run(&mut self, run: &TimedPlan<'_>, nodes: &Nodes) {
        for event in run.events {
            if waited(event) > 0 {
                self.note_wait(event, false);
            }
        }
        for number in run.path {
            if let Some(event) = run.event(*number) {
                self.note_path(run, nodes, event);
            }
        }
    }

    /// What is marked of a plan.
    pub(crate) fn of(
        alloc: Global,
        drawn: &DrawnPlan<'_>,
        nodes: &Nodes,
    ) -> Result<Marks, AllocError> {
        let mut stuck = Vec::new(alloc);
        for number in 0..drawn.plan.lanes() {
            stuck.push(is_among(drawn.stuck, lane_name(drawn.plan, number)))?;
        }
        let mut marks = Marks {
            places: no_marks(alloc, drawn.plan)?,
            nodes: vec![in alloc; false; nodes.nodes.len()]?,
            stuck,
        };
        if let Some(run) = &drawn.run {
            marks.note_run(run, nodes);
        }
        Ok(marks)
    }

    /// The mark of an instruction.
    pub(crate) fn mark(&self, lane: usize, place: usize) -> Mark {
        match self.places.get(lane) {
            Some(places) => places.get(place).copied().unwrap_or(NONE),
            None => NONE,
        }
    }

    /// Tells whether the critical path comes through a node.
    pub(crate) fn is_on_path(&self, number: usize) -> bool {
        self.nodes.get(number).copied().unwrap_or(false)
    }

    /// Tells whether a lane is stuck.
    pub(crate) fn is_stuck(&self, lane: usize) -> bool {
        self.stuck.get(lane).copied().unwrap_or(false)
    }
}
