//! Refusals of builds that no lane takes, and of plans that are too long.

use crate::about::{About, push_number};
use deb_text::push_pieces;
use draft_lanes::Refusal;
use plan_reader::MOST_INSTRUCTIONS;
use std::alloc::{AllocError, Global};

/// The line below a refusal 800.
pub(crate) const GIVEN_UP: &[u8] = b"  the search was given up\n";

/// The number of a refusal.
fn code_of(refusal: &Refusal) -> &'static [u8] {
    match refusal {
        Refusal::GaveUp { .. } => b"800",
        Refusal::NoOrder { .. } | Refusal::Stays { .. } => b"803",
        Refusal::TooSmall { .. } => b"804",
        Refusal::NoWait { .. } => b"805",
        Refusal::OverBudget { .. } => b"806",
        Refusal::NoPlace { .. } => b"808",
    }
}

/// The first line of a refusal.
fn push_head(text: &mut Vec<u8>, about: &About<'_>, refusal: &Refusal) -> Result<(), AllocError> {
    let recipe = about.recipe_name(refusal.recipe());
    let lane = about.lane_name(refusal.lane());
    push_pieces(text, &[b"refused "])?;
    push_pieces(text, &[code_of(refusal)])?;
    push_pieces(text, &[b" recipe ", recipe])?;
    push_pieces(text, &[b" lane ", lane, b"\n"])
}

/// The budget that a lane is to have.
fn budget_of(about: &About<'_>, lane: usize) -> u64 {
    match about.lanes.get(lane) {
        Some(lane) => lane.budget.unwrap_or(0),
        None => 0,
    }
}

/// The chroot of a lane, and what it can hold.
fn push_capacity(text: &mut Vec<u8>, about: &About<'_>, lane: usize) -> Result<(), AllocError> {
    let base = match about.lanes.get(lane) {
        Some(lane) => lane.base as usize,
        None => usize::MAX,
    };
    push_pieces(text, &[b" KiB, chroot ", about.base_name(base)])?;
    push_number(text, b" has ", about.numbers.capacity(base))
}

/// What a lane costs, and what it may.
fn push_cost(text: &mut Vec<u8>, cost: u64, budget: u64) -> Result<(), AllocError> {
    push_number(text, b"  costs ", cost)?;
    push_number(text, b", budget ", budget)?;
    push_pieces(text, &[b"\n"])
}

/// The lines below the first one.
fn push_cause(text: &mut Vec<u8>, about: &About<'_>, refusal: &Refusal) -> Result<(), AllocError> {
    match refusal {
        Refusal::NoOrder { stuck, .. } => {
            for variant in stuck {
                about.push_variant(text, b"  no order is found in which ", *variant)?;
                push_pieces(text, &[b" is installed\n"])?;
            }
            Ok(())
        }
        Refusal::GaveUp { .. } => push_pieces(text, &[GIVEN_UP]),
        Refusal::Stays { variant, .. } => {
            about.push_variant(text, b"  no order is found in which ", *variant)?;
            push_pieces(text, &[b" is removed\n"])
        }
        Refusal::TooSmall { wanted, lane, .. } => {
            push_number(
                text,
                b"  nothing is found that fits: the first needs ",
                *wanted,
            )?;
            push_capacity(text, about, *lane)?;
            push_pieces(text, &[b"\n"])
        }
        Refusal::NoWait { variant, .. } => {
            about.push_variant(text, b"  no wait tells for sure that ", *variant)?;
            push_pieces(text, &[b" is there\n"])
        }
        Refusal::OverBudget { cost, lane, .. } => push_cost(text, *cost, budget_of(about, *lane)),
        Refusal::NoPlace { .. } => push_pieces(
            text,
            &[b"  what it needs cannot be there with what the lane holds\n"],
        ),
    }
}

/// The lines of a refusal of a recipe that no lane takes (800, 803 to 806 and 808).
pub fn refusal_note(about: &About<'_>, refusal: &Refusal) -> Result<Vec<u8>, AllocError> {
    let mut text = Vec::new(about.alloc);
    push_head(&mut text, about, refusal)?;
    push_cause(&mut text, about, refusal)?;
    Ok(text)
}

/// The lines of a lane that costs more than its budget (806), both in steps.
pub fn overrun_note(
    alloc: Global,
    lane: &[u8],
    cost: u64,
    budget: u64,
) -> Result<Vec<u8>, AllocError> {
    let mut text = Vec::new(alloc);
    push_pieces(&mut text, &[b"refused 806 lane ", lane, b"\n"])?;
    push_cost(&mut text, cost, budget)?;
    Ok(text)
}

/// The lines of a plan that has too many instructions (807).
pub fn length_note(alloc: Global, count: usize) -> Result<Vec<u8>, AllocError> {
    let mut text = Vec::new(alloc);
    push_pieces(&mut text, &[b"refused 807\n"])?;
    push_number(&mut text, b"  the plan has ", count as u64)?;
    push_number(
        &mut text,
        b" instructions, at most ",
        MOST_INSTRUCTIONS as u64,
    )?;
    push_pieces(&mut text, &[b"\n"])?;
    Ok(text)
}

/// The lines of a farm that has no base chroot (809).
pub fn no_chroot_note(alloc: Global) -> Result<Vec<u8>, AllocError> {
    Vec::from_slice(alloc, b"refused 809\n  the farm has no base chroot\n")
}

/// The line that names recipes which are left out; nothing where there are none.
pub fn left_out_note(about: &About<'_>, left: &[usize]) -> Result<Vec<u8>, AllocError> {
    let mut text = Vec::new(about.alloc);
    if left.is_empty() {
        return Ok(text);
    }
    push_pieces(&mut text, &[b"left out:"])?;
    for recipe in left {
        push_pieces(&mut text, &[b" ", about.recipe_name(*recipe)])?;
    }
    push_pieces(&mut text, &[b"\n"])?;
    Ok(text)
}
