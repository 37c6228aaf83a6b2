//! Whether a farm goes on where a schedule of another has stopped.

use crate::spelling::{read_items, read_schedule};
use case_files::TableRow;
use deb_text::Fault;
use farm_core::{Core, run_schedule};
use farm_universe::Universe;
use plan_reader::{Texts, assemble, texts_of};
use rest_farm::goes_on;
use std::alloc::{AllocError, Global};

/// What divides the texts of two farms.
const BETWEEN: &[u8] = b"\n====\n";

/// Cuts a text at the divider.
fn cut(text: &[u8]) -> (&[u8], &[u8]) {
    for place in 0..text.len() {
        if let Some(rest) = text[place..].strip_prefix(BETWEEN) {
            return (&text[..place], rest);
        }
    }
    (text, b"")
}

fn read_farm(alloc: Global, texts: Texts<'_>) -> Result<Universe, Fault> {
    let farm = Universe::read(alloc, texts.packages, texts.sources, texts.farm);
    match farm {
        Ok(farm) => Ok(farm),
        Err(refused) => Err(refused.fault),
    }
}

fn judge(
    alloc: Global,
    run: &Core<'_>,
    farm: &Universe,
    row: TableRow,
) -> Result<&'static [u8], AllocError> {
    let brought = read_items(alloc, row.arg(1))?;
    let gone = read_items(alloc, row.arg(2))?;
    if goes_on(alloc, run, &brought, &gone, farm)? {
        Ok(b"yes")
    } else {
        Ok(b"no")
    }
}

/// The answer of a farm behind the end of a schedule.
fn judge_behind(
    alloc: Global,
    universe: &Universe,
    text: &[u8],
    farm: &Universe,
    row: TableRow,
) -> Result<&'static [u8], AllocError> {
    let _names = universe.names();
    let Ok(plan) = assemble(alloc, universe, text) else {
        return Ok(b"no plan");
    };
    let schedule = read_schedule(alloc, row.arg(0))?;
    let outcome = run_schedule(alloc, universe, &plan, &schedule)?;
    if outcome.trap.is_some() {
        return Ok(b"a trap");
    }
    judge(alloc, &outcome.core, farm, row)
}

/// The answer to `goes_on`: `yes` or `no`.
pub fn goes_on_word(alloc: Global, row: TableRow) -> Result<&'static [u8], AllocError> {
    let (first, second) = cut(row.text);
    let first = texts_of(first);
    let Ok(universe) = read_farm(alloc, first) else {
        return Ok(b"no first farm");
    };
    let Ok(farm) = read_farm(alloc, texts_of(second)) else {
        return Ok(b"no second farm");
    };
    judge_behind(alloc, &universe, first.plan, &farm, row)
}
