//! Names of recipes that no lane builds.

ghost use Rattle.std.specs.Prelude.{◌≡◌, not};
ghost use Rattle.std.specs.List.{list_any};
ghost use Rattle.timeline_pictures.specs.Built as spec;

use crate::json::push_text;
use deb_text::push_pieces;
use farm_universe::Universe;
use plan_reader::{Instruction, Plan};
use shown_text::push_value;
use std::alloc::{AllocError, Global};

/// Tells whether an instruction builds the recipe of this name.
fn builds_named(universe: &Universe, name: &[u8], instruction: &Instruction) -> bool
    ensures { result ≡ spec.builds_named universe.now name.now instruction.now }
{
    match instruction {
        Instruction::Build(recipe) => name == universe.recipe_name(*recipe),
        _ => false,
    }
}

/// Tells whether one of these instructions does.
fn some_builds(universe: &Universe, name: &[u8], instructions: &[Instruction]) -> bool
    ensures { result ≡ list_any (spec.builds_named universe.now name.now) instructions.now }
{
    instructions
        .iter()
        .any(|instruction| builds_named(universe, name, instruction))
}

/// Tells whether some lane builds the recipe of this name.
fn is_built(universe: &Universe, plan: &Plan, name: &[u8]) -> bool
    ensures { result ≡ spec.is_built universe.now plan.now.lanes name.now }
{
    (0..plan.lanes()).any(|lane| some_builds(universe, name, plan.lane(lane).instructions()))
}

/// Tells whether no lane builds the recipe of this name.
fn is_unbuilt(universe: &Universe, plan: &Plan, name: &str) -> bool
    ensures { result ≡ not (spec.is_built universe.now plan.now.lanes name.now) }
{
    !is_built(universe, plan, name.as_bytes())
}

/// The first of some names of which no lane builds the recipe.
pub fn first_unbuilt<'a>(universe: &Universe, plan: &Plan, names: &[&'a str]) -> Option<&'a str>
    ensures { result ≡ spec.first_unbuilt universe.now plan.now.lanes names.now }
{
    names
        .iter()
        .copied()
        .find(|name| is_unbuilt(universe, plan, *name))
}

/// Tells whether a recipe has this name.
fn has_recipe(universe: &Universe, name: &[u8]) -> bool {
    (0..universe.recipes()).any(|recipe| universe.recipe_name(recipe) == name)
}

/// Gives the lines that refuse the name of a recipe which no lane builds.
pub fn unbuilt_text(alloc: Global, universe: &Universe, name: &str) -> Result<Vec<u8>, AllocError> {
    let mut text = Vec::from_slice(alloc, b"refused 461 recipe ")?;
    push_value(&mut text, name.as_bytes())?;
    let why: &[u8] = if has_recipe(universe, name.as_bytes()) {
        b"\n  no lane builds it\n"
    } else {
        b"\n  the farm has no such recipe\n"
    };
    push_pieces(&mut text, &[why])?;
    Ok(text)
}

/// Gives the same as one JSON object, and a newline.
pub fn unbuilt_json(alloc: Global, name: &str) -> Result<Vec<u8>, AllocError> {
    let mut text = Vec::new(alloc);
    push_text(
        alloc,
        &mut text,
        b"{\"code\":461,\"recipe\":",
        name.as_bytes(),
    )?;
    push_pieces(&mut text, &[b",\"verdict\":\"refused\"}\n"])?;
    Ok(text)
}
