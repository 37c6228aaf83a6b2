//! Lists of recipes.

ghost use Rattle.std.specs.Prelude.{◌≡◌, ◌++◌, not, ◌&&◌, ◌||◌, IsTrue, IfOk, OnOk, option_to_list};
ghost use Rattle.std.specs.List.{list_all};
ghost use Rattle.farm_model.specs.Chroot.{member};
ghost use Rattle.plan_model.specs.Sound.{has_double};
ghost use Rattle.draft_plan.specs.Follows.{among, besides};
ghost use Rattle.draft_plan.specs.Wished.{builds, built_by, all_builds, pinned};

use crate::lane::LaneParts;
use crate::wished::WantedLane;
use plan_model::Instruction;
use std::alloc::{AllocError, Global};

/// Tells whether a recipe is in a list.
pub fn has(recipes: &[u32], recipe: u32) -> bool
    ensures { result ≡ member recipes.now recipe }
{
    recipes.contains(&recipe)
}

/// The recipe that an instruction builds, if it builds one.
pub fn built_by(instruction: &Instruction) -> Option<u32>
    ensures { built_by instruction.now ≡ option_to_list result }
{
    match instruction {
        Instruction::Build(recipe) => Some(*recipe),
        Instruction::Unpack { .. }
        | Instruction::Configure(_)
        | Instruction::Deconfigure(_)
        | Instruction::Remove(_)
        | Instruction::Publish(_)
        | Instruction::Wait(_)
        | Instruction::When { .. }
        | Instruction::Otherwise
        | Instruction::EndWhen => None,
    }
}

/// Puts the recipes that instructions build behind others, in order.
pub fn push_builds(recipes: &mut Vec<u32>, instructions: &[Instruction]) -> Result<(), AllocError>
    ensures { OnOk result (recipes.new.items ≡ recipes.old.items ++ builds instructions.now) }
{
    for instruction in instructions {
        match built_by(instruction) {
            Some(recipe) => recipes.push(recipe)?,
            None => {}
        }
    }
    Ok(())
}

/// The recipes that lanes build, lane by lane.
pub fn all_builds(alloc: Global, lanes: &[LaneParts<'_>]) -> Result<Vec<u32>, AllocError>
    ensures { IfOk result (λ recipes. recipes.items ≡ all_builds lanes.now) }
{
    let mut recipes = Vec::new(alloc);
    for lane in lanes {
        push_builds(&mut recipes, lane.instructions)?;
    }
    Ok(recipes)
}

/// The recipes that lanes are named for, lane by lane.
pub fn pinned(alloc: Global, lanes: &[WantedLane]) -> Result<Vec<u32>, AllocError>
    ensures { IfOk result (λ recipes. recipes.items ≡ pinned lanes.now) }
{
    let mut recipes = Vec::new(alloc);
    for lane in lanes {
        recipes.extend_from_slice(&lane.builds)?;
    }
    Ok(recipes)
}

/// Those of a list that are among others.
pub fn among(alloc: Global, others: &[u32], recipes: &[u32]) -> Result<Vec<u32>, AllocError>
    ensures { IfOk result (λ kept. kept.items ≡ among others.now recipes.now) }
{
    let mut kept = Vec::new(alloc);
    for recipe in recipes {
        if has(others, *recipe) {
            kept.push(*recipe)?;
        }
    }
    Ok(kept)
}

/// Those of a list that are not among others.
pub fn besides(alloc: Global, others: &[u32], recipes: &[u32]) -> Result<Vec<u32>, AllocError>
    ensures { IfOk result (λ kept. kept.items ≡ besides others.now recipes.now) }
{
    let mut kept = Vec::new(alloc);
    for recipe in recipes {
        if !has(others, *recipe) {
            kept.push(*recipe)?;
        }
    }
    Ok(kept)
}

/// Tells whether no recipe stands twice in a list.
pub fn are_distinct(recipes: &[u32]) -> bool
    ensures { result ≡ not (has_double recipes.now) }
{
    for place in 0..recipes.len() {
        if has(&recipes[place + 1..], recipes[place]) {
            return false;
        }
    }
    true
}

/// Tells whether each of a list is in one list and not in another.
pub fn are_within(recipes: &[u32], inside: &[u32], outside: &[u32]) -> bool
    ensures { result ≡ list_all (λ r. member inside.now r && not (member outside.now r))
        recipes.now }
{
    for recipe in recipes {
        if !has(inside, *recipe) || has(outside, *recipe) {
            return false;
        }
    }
    true
}

/// Tells whether each of a list is in one of two lists.
pub fn are_in_either(recipes: &[u32], one: &[u32], other: &[u32]) -> bool
    ensures { result ≡ list_all (λ r. member one.now r || member other.now r) recipes.now }
{
    for recipe in recipes {
        if !has(one, *recipe) && !has(other, *recipe) {
            return false;
        }
    }
    true
}

/// Tells whether two lists are the same.
pub fn are_same(one: &[u32], other: &[u32]) -> bool
    ensures { IsTrue result → one.now ≡ other.now }
{
    one == other
}

/// Tells whether two texts are the same.
pub fn is_same_text(one: &[u8], other: &[u8]) -> bool
    ensures { IsTrue result → one.now ≡ other.now }
{
    one == other
}
