//! What is wanted, by a sketch or by a number of lanes.

ghost use Rattle.std.specs.Prelude.{◌≡◌, ◌++◌, ◌∷◌, [], IfOk, OnOk, if◌then◌else◌, length, map, ◌<◌};
ghost use Rattle.std.specs.List.{list_any, range_with_len};
ghost use Rattle.farm_model.specs.Chroot.{member};
ghost use Rattle.draft_plan.specs.Wanted as spec;

use crate::lanes::parts_of;
use crate::{Wanted, WantedLane, sketch_of};
use farm_universe::Universe;
use plan_reader::Plan;
use std::alloc::{AllocError, Global};

/// Tells whether a lane is named for a recipe.
fn is_named(lanes: &[WantedLane], recipe: u32) -> bool
    ensures { result ≡ list_any (λ w. member w.builds recipe) lanes.now }
{
    lanes.iter().any(|lane| lane.builds.contains(&recipe))
}

/// Puts a recipe behind others, unless some lane is named for it.
fn push_free(rest: &mut Vec<u32>, lanes: &[WantedLane], recipe: u32) -> Result<(), AllocError>
    ensures { OnOk result (rest.new.items ≡ rest.old.items
        ++ (if spec.is_free lanes.now recipe then recipe ∷ [] else [])) }
{
    if !is_named(lanes, recipe) {
        rest.push(recipe)?;
    }
    Ok(())
}

/// The recipes, of so many, that no lane is named for.
fn rest_of(alloc: Global, count: u32, lanes: &[WantedLane]) -> Result<Vec<u32>, AllocError>
    ensures { IfOk result (λ rest. rest.items ≡ spec.rest_of count lanes.now) }
{
    let mut rest = Vec::new(alloc);
    for recipe in 0..count {
        push_free(&mut rest, lanes, recipe)?;
    }
    Ok(rest)
}

/// What is wanted by a sketch: its lanes and their builds, and with `takes_rest` all other recipes
/// in any lane.
pub(crate) fn by_sketch(
    alloc: Global,
    universe: &Universe,
    plan: &Plan,
    takes_rest: bool,
) -> Result<Wanted, AllocError>
    ensures { IfOk result (λ wanted. wanted ≡ spec.by_sketch takes_rest universe.now plan.now.lanes) }
{
    let parts = parts_of(alloc, plan)?;
    let lanes = sketch_of(alloc, &parts)?;
    let free = if takes_rest {
        rest_of(alloc, universe.recipes(), &lanes)?
    } else {
        Vec::new(alloc)
    };
    Ok(Wanted { lanes, free })
}

/// The lane of a number, over the base chroots in turn.
fn numbered_lane(alloc: Global, number: u32, bases: u32) -> Result<WantedLane, AllocError>
    requires { 0 < bases }
    ensures { IfOk result (λ lane. lane ≡ spec.numbered_lane bases number) }
{
    let name = format!(in alloc; "lane{}", number as u64 + 1)?;
    Ok(WantedLane {
        name: Vec::from_slice(alloc, name.as_bytes())?,
        base: number % bases,
        budget: None,
        builds: Vec::new(alloc),
    })
}

/// So many lanes over the base chroots in turn.
fn numbered_lanes(alloc: Global, count: u32, bases: u32) -> Result<Vec<WantedLane>, AllocError>
    requires { 0 < bases }
    ensures { IfOk result (λ lanes. lanes.items
        ≡ map (spec.numbered_lane bases) (range_with_len 0 count)) }
{
    let mut lanes = Vec::new(alloc);
    for number in 0..count {
        let lane = numbered_lane(alloc, number, bases)?;
        lanes.push(lane)?;
    }
    Ok(lanes)
}

/// The numbers of so many recipes.
fn all_recipes(alloc: Global, count: u32) -> Result<Vec<u32>, AllocError>
    ensures { IfOk result (λ all. all.items ≡ range_with_len 0 count) }
{
    let mut all = Vec::new(alloc);
    for recipe in 0..count {
        all.push(recipe)?;
    }
    Ok(all)
}

/// What is wanted by a number of lanes: these over the base chroots in turn, and all recipes in any
/// of them.
pub(crate) fn by_number(
    alloc: Global,
    universe: &Universe,
    count: u32,
) -> Result<Wanted, AllocError>
    requires { 0 < length universe.now.bases }
    ensures { IfOk result (λ wanted. wanted ≡ spec.by_number universe.now count) }
{
    let lanes = numbered_lanes(alloc, count, universe.bases())?;
    let free = all_recipes(alloc, universe.recipes())?;
    Ok(Wanted { lanes, free })
}
