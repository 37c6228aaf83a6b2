//! What is in the archive from the start, and what the events of a run give.

use crate::givers::{Giver, Givers};
use crate::timed_plan::TimedPlan;
use farm_model::Variant;
use farm_universe::Universe;
use std::alloc::{AllocError, Global};
use timed_run::Event;

/// Adds the variants of a name that are in the archive from the start.
fn add_initial(givers: &mut Givers, universe: &Universe, name: u32) -> Result<(), AllocError> {
    if name >= universe.names() {
        return Ok(());
    }
    let mut left = universe.initial(name);
    for bit in 0..universe.variants(name) {
        if left & 1 == 1 {
            givers.add(
                universe,
                Giver {
                    variant: Variant { name, bit },
                    number: None,
                },
            )?;
        }
        left >>= 1;
    }
    Ok(())
}

/// Adds what an event gives, if it gives something.
fn add_output(
    givers: &mut Givers,
    universe: &Universe,
    number: usize,
    event: &Event,
) -> Result<(), AllocError> {
    match event.output {
        Some(variant) => givers.add(
            universe,
            Giver {
                variant,
                number: Some(number),
            },
        ),
        None => Ok(()),
    }
}

/// What is in the archive from the start, and then the outputs of a run by the numbers of their
/// events.
pub(crate) fn archive_of(alloc: Global, run: &TimedPlan<'_>) -> Result<Givers, AllocError> {
    let universe = run.universe;
    let mut givers = Givers::new(alloc, universe)?;
    for name in 0..universe.names() {
        add_initial(&mut givers, universe, name)?;
    }
    for number in 0..run.events.len() {
        add_output(&mut givers, universe, number, &run.events[number])?;
    }
    Ok(givers)
}
