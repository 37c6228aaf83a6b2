//! Whether a plan is what was wanted.

ghost use Rattle.std.specs.Prelude.{◌≡◌, true, false, not, ◌&&◌, ◌||◌, IsTrue, IfOk, IfSome, None};
ghost use Rattle.std.specs.List.{list_all, AllZip};
ghost use Rattle.farm_model.specs.Chroot.{member};
ghost use Rattle.plan_model.specs.Sound.{has_double};
ghost use Rattle.draft_plan.specs.Follows.{is_plain, are_published, Follows, LaneFollows};

use crate::lane::LaneParts;
use crate::lists::{
    all_builds, among, are_distinct, are_in_either, are_same, are_within, besides, is_same_text,
    pinned, push_builds,
};
use crate::wished::{Wanted, WantedLane};
use deb_relation::Op;
use plan_model::Instruction;
use std::alloc::{AllocError, Global};

/// Tells whether an instruction is no part of a branch, and unpacks one version.
fn is_plain(instruction: &Instruction) -> bool
    ensures { result ≡ is_plain instruction.now }
{
    match instruction {
        Instruction::Unpack {
            relation: Some((Op::Equal, _)),
            ..
        } => true,
        Instruction::Unpack { .. }
        | Instruction::When { .. }
        | Instruction::Otherwise
        | Instruction::EndWhen => false,
        Instruction::Configure(_)
        | Instruction::Deconfigure(_)
        | Instruction::Remove(_)
        | Instruction::Build(_)
        | Instruction::Publish(_)
        | Instruction::Wait(_) => true,
    }
}

fn are_plain(instructions: &[Instruction]) -> bool
    ensures { result ≡ list_all is_plain instructions.now }
{
    for instruction in instructions {
        if !is_plain(instruction) {
            return false;
        }
    }
    true
}

/// Tells whether each build is published right behind it, and nothing else is.
fn are_published(instructions: &[Instruction]) -> bool
    ensures { result ≡ are_published None instructions.now }
{
    let mut open: Option<u32> = None;
    for instruction in instructions {
        match (open, instruction) {
            (None, Instruction::Build(recipe)) => open = Some(*recipe),
            (None, Instruction::Publish(_)) => return false,
            (None, _) => {}
            (Some(recipe), Instruction::Publish(published)) => {
                if *published != recipe {
                    return false;
                }
                open = None;
            }
            (Some(_), _) => return false,
        }
    }
    open.is_none()
}

/// Tells whether a lane has the name, the base chroot and the budget that are wanted.
fn has_head(wanted: &WantedLane, lane: &LaneParts<'_>) -> bool
    ensures name { IsTrue result → lane.now.name ≡ wanted.now.name }
    ensures base { IsTrue result → lane.now.base ≡ wanted.now.base }
    ensures budget { IsTrue result → IfSome wanted.now.budget (λ b. lane.now.budget ≡ b) }
{
    if !is_same_text(lane.name, &wanted.name) || lane.base != wanted.base {
        return false;
    }
    match wanted.budget {
        Some(budget) => lane.budget == budget,
        None => true,
    }
}

/// Tells whether a lane is what was wanted of it.
fn lane_follows(
    alloc: Global,
    named: &[u32],
    left_out: &[u32],
    wanted: &WantedLane,
    lane: &LaneParts<'_>,
) -> Result<bool, AllocError>
    ensures { IfOk result
        (λ b. IsTrue b → LaneFollows named.now left_out.now wanted.now lane.now) }
{
    if !has_head(wanted, lane)
        || !are_plain(lane.instructions)
        || !are_published(lane.instructions)
    {
        return Ok(false);
    }
    let mut builds = Vec::new(alloc);
    push_builds(&mut builds, lane.instructions)?;
    let own = among(alloc, named, &builds)?;
    let expected = besides(alloc, left_out, &wanted.builds)?;
    Ok(are_same(&own, &expected))
}

/// Tells whether lanes are what was wanted of them, one by one.
fn lanes_follow(
    alloc: Global,
    named: &[u32],
    left_out: &[u32],
    wanted: &[WantedLane],
    lanes: &[LaneParts<'_>],
) -> Result<bool, AllocError>
    ensures { IfOk result
        (λ b. IsTrue b → AllZip (LaneFollows named.now left_out.now) wanted.now lanes.now) }
{
    let mut rest = wanted;
    for lane in lanes {
        let Some((first, behind)) = rest.split_first() else {
            return Ok(false);
        };
        if !lane_follows(alloc, named, left_out, first, lane)? {
            return Ok(false);
        }
        rest = behind;
    }
    Ok(rest.is_empty())
}

/// Tells whether each recipe that is wanted is built once or left out, and nothing else is built.
fn builds_follow(builds: &[u32], wanted: &[u32], left_out: &[u32]) -> bool
    ensures once { IsTrue result → has_double builds.now ≡ false }
    ensures wanted { IsTrue result → list_all
        (λ r. member wanted.now r && not (member left_out.now r)) builds.now ≡ true }
    ensures all { IsTrue result → list_all
        (λ r. member builds.now r || member left_out.now r) wanted.now ≡ true }
{
    are_distinct(builds)
        && are_within(builds, wanted, left_out)
        && are_in_either(wanted, builds, left_out)
}

/// Tells whether a plan is what was wanted, some recipes being left out: it has the lanes that are
/// wanted, builds in each what that is named for, in order, and publishes it right behind; each
/// recipe is built once in all lanes, or left out; no branch is there, and each unpack is of one
/// version.
pub fn follows(
    alloc: Global,
    wanted: &Wanted,
    left_out: &[u32],
    lanes: &[LaneParts<'_>],
) -> Result<bool, AllocError>
    ensures { IfOk result (λ b. IsTrue b → Follows wanted.now left_out.now lanes.now) }
{
    let mut named = pinned(alloc, &wanted.lanes)?;
    if !lanes_follow(alloc, &named, left_out, &wanted.lanes, lanes)? {
        return Ok(false);
    }
    named.extend_from_slice(&wanted.free)?;
    let builds = all_builds(alloc, lanes)?;
    Ok(builds_follow(&builds, &named, left_out))
}
