//! Which builds give what a wait waits for.

use crate::nodes::Node;
use deb_relation::{Atom, Entry};
use farm_universe::Universe;
use std::alloc::{AllocError, Global};
use timeline::{Giver, Givers};

/// Adds what a node publishes.
fn add_node(
    givers: &mut Givers,
    universe: &Universe,
    number: usize,
    node: &Node,
) -> Result<(), AllocError> {
    if node.publish.is_none() {
        return Ok(());
    }
    for variant in universe.outputs(node.recipe) {
        givers.add(
            universe,
            Giver {
                variant: *variant,
                number: Some(number),
            },
        )?;
    }
    Ok(())
}

/// What these nodes publish, by their numbers.
pub(crate) fn published(
    alloc: Global,
    universe: &Universe,
    nodes: &[Node],
) -> Result<Givers, AllocError> {
    let mut givers = Givers::new(alloc, universe)?;
    for number in 0..nodes.len() {
        add_node(&mut givers, universe, number, &nodes[number])?;
    }
    Ok(givers)
}

/// Adds the numbers of those that satisfy an alternative.
fn add_sources(
    found: &mut Vec<usize>,
    universe: &Universe,
    givers: &Givers,
    atom: &Atom,
) -> Result<(), AllocError> {
    for item in givers.listed(atom) {
        if item.owner.satisfies(universe, atom) {
            if let Some(number) = item.owner.number {
                found.push(number)?;
            }
        }
    }
    Ok(())
}

/// The numbers of those of which an output satisfies an entry, each once and in ascending order.
pub(crate) fn sources(
    alloc: Global,
    universe: &Universe,
    givers: &Givers,
    entry: &Entry,
) -> Result<Vec<usize>, AllocError> {
    let mut found = Vec::new(alloc);
    for atom in entry.alternatives() {
        add_sources(&mut found, universe, givers, atom)?;
    }
    found.sort_unstable();
    found.dedup();
    Ok(found)
}
