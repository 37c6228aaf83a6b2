//! The lines of a timed run.

use crate::bars::push_bars;
use crate::bounds::push_bounds;
use crate::builds::push_builds;
use crate::critical_path::push_path;
use crate::lane_lines::{push_lanes, push_waits};
use crate::story::Story;
use crate::{Facts, TimedPlan, push_count};
use deb_text::push_pieces;
use std::alloc::{AllocError, Global};

/// What is told of a timed run.
#[derive(Clone, Copy)]
pub struct Layout {
    /// A bar for each lane, in place of its longest waits.
    pub bars: bool,
    /// The critical path is told whole, however many lines it takes.
    pub full: bool,
}

/// Gives the lines of a timed run: when it ends, the times of each lane, its longest waits or a bar,
/// the critical path, below which times no plan comes, and the builds by how much later they could
/// end.
pub fn timeline_text(
    alloc: Global,
    run: &TimedPlan<'_>,
    layout: Layout,
) -> Result<Vec<u8>, AllocError> {
    let facts = Facts::of(alloc, run)?;
    let story = Story {
        run,
        facts: &facts,
        lines: run.plan.lines(),
    };
    let mut text = Vec::new(alloc);
    push_count(&mut text, b"ends at ", run.end)?;
    push_pieces(&mut text, &[b"\n"])?;
    push_lanes(&mut text, &story)?;
    if layout.bars {
        push_bars(alloc, &mut text, &story)?;
    } else {
        push_waits(alloc, &mut text, &story)?;
    }
    push_path(alloc, &mut text, &story, layout.full)?;
    push_bounds(&mut text, &story)?;
    push_builds(alloc, &mut text, &story)?;
    Ok(text)
}
