//! What is drawn, and where.

use crate::frame::Frame;
use std::alloc::{AllocError, Global};
use timeline::{Facts, TimedPlan};

/// A timed run, what it shows, its space, and by event whether the critical path comes through it.
#[derive(Clone, Copy)]
pub(crate) struct Drawing<'a> {
    pub(crate) run: &'a TimedPlan<'a>,
    pub(crate) facts: &'a Facts,
    pub(crate) frame: &'a Frame,
    pub(crate) on_path: &'a [bool],
}

/// By event: whether the critical path comes through it.
pub(crate) fn path_marks(alloc: Global, run: &TimedPlan<'_>) -> Result<Vec<bool>, AllocError> {
    let mut marks = vec![in alloc; false; run.events.len()]?;
    for number in run.path {
        if let Some(mark) = marks.get_mut(*number) {
            *mark = true;
        }
    }
    Ok(marks)
}

impl<'a> Drawing<'a> {
    /// Tells whether the critical path comes through an event.
    pub(crate) fn is_on_path(&self, number: usize) -> bool {
        self.on_path.get(number).copied().unwrap_or(false)
    }
}
