//! The builds of a plan, each with its publish.

use indexmap::IndexMap;
use plan_reader::{Instruction, Lane, Plan};
use std::alloc::{AllocError, Global};

/// A build of a lane with its publish: the numbers of the first instructions of each, from 1.
#[derive(Clone, Copy)]
pub(crate) struct Node {
    pub(crate) lane: usize,
    pub(crate) recipe: u32,
    pub(crate) build: Option<usize>,
    pub(crate) publish: Option<usize>,
}

/// The builds of a plan in the order of its lanes, and which of them each instruction comes to.
#[derive(Drop)]
pub(crate) struct Nodes {
    pub(crate) nodes: Vec<Node>,
    /// By lane: by place the number of the build at or behind it that comes next.
    next: Vec<Vec<Option<usize>>>,
}

/// The recipe that an instruction builds or publishes.
fn recipe_of(instruction: &Instruction) -> Option<u32> {
    match instruction {
        Instruction::Build(recipe) | Instruction::Publish(recipe) => Some(*recipe),
        _ => None,
    }
}

/// The number of a recipe's node in a lane, which is added where there is none.
fn number_of(
    nodes: &mut Vec<Node>,
    known: &mut IndexMap<u32, usize>,
    lane: usize,
    recipe: u32,
) -> Result<usize, AllocError> {
    if let Some(number) = known.get(&recipe) {
        return Ok(*number);
    }
    let number = nodes.len();
    nodes.push(Node {
        lane,
        recipe,
        build: None,
        publish: None,
    })?;
    known.insert(recipe, number)?;
    Ok(number)
}

/// Writes down where a node is first built or published.
fn note(nodes: &mut Vec<Node>, number: usize, instruction: &Instruction, place: usize) {
    if let Some(node) = nodes.get_mut(number) {
        let at = Some(place.saturating_add(1));
        match instruction {
            Instruction::Build(_) => node.build = node.build.or(at),
            Instruction::Publish(_) => node.publish = node.publish.or(at),
            _ => {}
        }
    }
}

/// Adds the nodes of a lane, and gives by place the node that is built or published there.
fn add_lane(
    alloc: Global,
    nodes: &mut Vec<Node>,
    number: usize,
    lane: &Lane,
) -> Result<Vec<Option<usize>>, AllocError> {
    let mut known = IndexMap::new(alloc);
    let mut places = Vec::new(alloc);
    let instructions = lane.instructions();
    for place in 0..instructions.len() {
        let instruction = &instructions[place];
        let node = match recipe_of(instruction) {
            Some(recipe) => Some(number_of(nodes, &mut known, number, recipe)?),
            None => None,
        };
        if let Some(node) = node {
            note(nodes, node, instruction, place);
        }
        places.push(node)?;
    }
    Ok(places)
}

/// Fills each place that has none with what is behind it.
fn fill(places: &mut Vec<Option<usize>>) {
    let mut next = None;
    for step in 0..places.len() {
        let place = places.len() - 1 - step;
        if places[place].is_some() {
            next = places[place];
        } else {
            places[place] = next;
        }
    }
}

impl Nodes {
    /// The builds of a plan.
    pub(crate) fn of(alloc: Global, plan: &Plan) -> Result<Nodes, AllocError> {
        let mut nodes = Vec::new(alloc);
        let mut next = Vec::new(alloc);
        for number in 0..plan.lanes() {
            let mut places = add_lane(alloc, &mut nodes, number, plan.lane(number))?;
            fill(&mut places);
            next.push(places)?;
        }
        Ok(Nodes { nodes, next })
    }

    /// The number of the build or publish that a lane comes to at or behind a place.
    pub(crate) fn next(&self, lane: usize, place: usize) -> Option<usize> {
        *self.next.get(lane)?.get(place)?
    }
}
