//! The waits that nothing could end.

use crate::warning::push_warning;
use deb_relation::Entry;
use explain_faults::Piece::Number;
use explain_faults::{Pushed, WordSet};
use farm_model::Variant;
use farm_universe::Universe;
use plan_reader::{Instruction, Plan};
use std::alloc::{AllocError, Global};

/// The names that packages provide.
fn provided_names(alloc: Global, universe: &Universe) -> Result<WordSet, AllocError> {
    let mut found = WordSet::new(alloc);
    for name in 0..universe.names() {
        for bit in 0..universe.variants(name) {
            let relations = universe.relations(Variant { name, bit });
            for entry in relations.provides.entries() {
                for atom in entry.alternatives() {
                    found.add(atom.name())?;
                }
            }
        }
    }
    Ok(found)
}

/// Tells whether a package could meet an entry in some version.
fn could_meet(universe: &Universe, provided: &WordSet, entry: &Entry) -> bool {
    entry.alternatives().iter().any(|atom| universe.find(atom.name()).is_some()
        || provided.has(atom.name()))
}

/// Puts a warning of each wait whose entry no package could meet behind others.
pub fn push_waits(alloc: Global, lines: &mut Vec<u8>, universe: &Universe, plan: &Plan) -> Pushed {
    let provided = provided_names(alloc, universe)?;
    for number in 0..plan.lanes() {
        for place in 0..plan.lane(number).instructions().len() {
            match plan.instruction(number, place) {
                Some(Instruction::Wait(entry)) if !could_meet(universe, &provided, entry) => {
                    let origin = plan.lines().origin(number, place);
                    let line = origin.map_or(0, |origin| u64::from(origin.line));
                    let words = b"plan line %0: no package is or provides what this waits for";
                    push_warning(lines, words, &[Number(line)])?;
                }
                _ => {}
            }
        }
    }
    Ok(())
}
