//! For which need of a recipe something is installed.

use crate::about::About;
use crate::written::push_need;
use deb_text::push_pieces;
use draft_lanes::Ground;
use draft_search::at;
use std::alloc::AllocError;

/// A recipe that cannot be built, and what its chroot would hold if all were there.
#[derive(Drop)]
pub(crate) struct Stuck {
    pub(crate) recipe: usize,
    /// The number of the base chroot among those of the lanes.
    pub(crate) ground: usize,
    pub(crate) found: Vec<usize>,
    pub(crate) edges: Vec<Edge>,
}

/// That a recipe comes after another.
#[derive(Clone, Copy)]
pub(crate) struct Edge {
    pub(crate) to: usize,
    /// The variant of that one that is to be installed; nothing where it stands before in the lane.
    pub(crate) variant: Option<usize>,
}

/// Tells whether a base chroot holds a variant.
pub(crate) fn is_held(about: &About<'_>, ground: &Ground, variant: usize) -> bool {
    at(&ground.held, about.numbers.name(variant), usize::MAX) == variant
}

/// Puts those of a set that meet an entry behind others, each once.
fn push_meeting(
    about: &About<'_>,
    found: &[usize],
    todo: &mut Vec<usize>,
    entry: usize,
) -> Result<(), AllocError> {
    for variant in about.numbers.meets(entry) {
        if found.contains(variant) && !todo.contains(variant) {
            todo.push(*variant)?;
        }
    }
    Ok(())
}

/// Tells whether a variant of a set is there for an entry: it meets that, or is needed by what
/// does.
fn is_for(
    about: &About<'_>,
    ground: &Ground,
    found: &[usize],
    entry: usize,
    variant: usize,
) -> Result<bool, AllocError> {
    let mut todo = Vec::new(about.alloc);
    push_meeting(about, found, &mut todo, entry)?;
    for place in 0..found.len() {
        let Some(member) = todo.get(place).copied() else {
            break;
        };
        if !is_held(about, ground, member) {
            for other in about.numbers.entries_of(member) {
                push_meeting(about, found, &mut todo, *other)?;
            }
        }
    }
    Ok(todo.contains(&variant))
}

/// The line of the need for which a variant is installed.
fn push_reason(
    text: &mut Vec<u8>,
    about: &About<'_>,
    stuck: &Stuck,
    ground: &Ground,
    variant: usize,
) -> Result<(), AllocError> {
    for (number, entry) in about.numbers.needs(stuck.recipe).iter().enumerate() {
        if is_for(about, ground, &stuck.found, *entry, variant)? {
            return push_need(text, about, stuck.recipe, number);
        }
    }
    push_pieces(
        text,
        &[
            b"  recipe ",
            about.recipe_name(stuck.recipe),
            b" over its base chroot\n",
        ],
    )
}

/// The lines on why a recipe comes after another.
pub(crate) fn push_edge(
    text: &mut Vec<u8>,
    about: &About<'_>,
    grounds: &[Ground],
    stuck: &Stuck,
    edge: Edge,
) -> Result<(), AllocError> {
    let to = about.recipe_name(edge.to);
    match (edge.variant, grounds.get(stuck.ground)) {
        (Some(variant), Some(ground)) => {
            push_reason(text, about, stuck, ground, variant)?;
            about.push_variant(text, b"    ", variant)?;
            push_pieces(text, &[b" of recipe ", to, b"\n"])
        }
        _ => push_pieces(
            text,
            &[
                b"  recipe ",
                about.recipe_name(stuck.recipe),
                b" stands behind recipe ",
                to,
                b" in its lane\n",
            ],
        ),
    }
}
