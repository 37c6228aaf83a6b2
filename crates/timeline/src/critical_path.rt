//! The lines of the critical path.

use crate::story::{Story, instruction_number};
use crate::{push_count, waited};
use deb_text::push_pieces;
use std::alloc::{AllocError, Global};
use timed_run::Event;

/// The most lines of a path that are told in the short form.
const MOST_LINES: usize = 40;

/// Lines of text, and where each of them ends.
#[derive(Drop)]
struct Lines {
    text: Vec<u8>,
    ends: Vec<usize>,
}

impl Lines {
    /// Ends the line that is open.
    fn end_line(&mut self) -> Result<(), AllocError> {
        push_pieces(&mut self.text, &[b"\n"])?;
        let end = self.text.len();
        self.ends.push(end)?;
        Ok(())
    }

    /// Where so many lines end.
    fn end_of(&self, count: usize) -> usize {
        match count.checked_sub(1) {
            Some(last) => self.ends.get(last).copied().unwrap_or(0),
            None => 0,
        }
    }

    /// Puts the lines behind a text, those in the middle left out where there are too many.
    fn push_short(&self, text: &mut Vec<u8>) -> Result<(), AllocError> {
        let count = self.ends.len();
        if count <= MOST_LINES {
            return push_pieces(text, &[&self.text]);
        }
        let half = MOST_LINES / 2;
        let first = self.text.get(..self.end_of(half)).unwrap_or(b"");
        let last = self.text.get(self.end_of(count - half)..).unwrap_or(b"");
        push_pieces(text, &[first])?;
        push_count(text, b"  .. ", (count - MOST_LINES) as u128)?;
        push_pieces(text, &[b" lines\n", last])
    }
}

/// Events of one lane that follow each other with no wait between, by the numbers of the first one
/// and of the last.
#[derive(Clone, Copy)]
struct Stretch {
    first: usize,
    last: usize,
}

/// Puts the line of the wait before a stretch, where there is one.
fn push_wait(
    lines: &mut Lines,
    story: &Story<'_>,
    number: usize,
    event: &Event,
) -> Result<(), AllocError> {
    if waited(event) == 0 {
        return Ok(());
    }
    push_pieces(&mut lines.text, &[b"  lane ", story.lane_of(event)])?;
    story.push_cause(&mut lines.text, number)?;
    push_count(
        &mut lines.text,
        b" at instruction ",
        instruction_number(event),
    )?;
    lines.end_line()
}

/// Puts the line of the events from one to another of a lane.
fn push_span(
    lines: &mut Lines,
    story: &Story<'_>,
    first: &Event,
    last: &Event,
) -> Result<(), AllocError> {
    push_pieces(&mut lines.text, &[b"  lane ", story.lane_of(first)])?;
    if first.place == last.place {
        push_count(&mut lines.text, b" instruction ", instruction_number(first))?;
    } else {
        push_count(
            &mut lines.text,
            b" instructions ",
            instruction_number(first),
        )?;
        push_count(&mut lines.text, b" to ", instruction_number(last))?;
    }
    let took = last.end.saturating_sub(first.begin);
    push_count(&mut lines.text, b", ", took)?;
    lines.end_line()
}

/// Puts the lines of a stretch, if there is one.
fn push_stretch(
    lines: &mut Lines,
    story: &Story<'_>,
    stretch: Option<Stretch>,
) -> Result<(), AllocError> {
    let Some(Stretch { first, last }) = stretch else {
        return Ok(());
    };
    if let (Some(begun), Some(ended)) = (story.run.event(first), story.run.event(last)) {
        push_wait(lines, story, first, begun)?;
        push_span(lines, story, begun, ended)?;
    }
    Ok(())
}

/// Tells whether an event goes on in the stretch that is open.
fn goes_on(story: &Story<'_>, number: usize) -> bool {
    match story.run.event(number) {
        Some(event) => waited(event) == 0,
        None => false,
    }
}

/// All lines of the path: one for each stretch, and one for each wait that joins two.
fn path_lines(alloc: Global, story: &Story<'_>) -> Result<Lines, AllocError> {
    let mut lines = Lines {
        text: Vec::new(alloc),
        ends: Vec::new(alloc),
    };
    let path = story.run.path;
    let mut open: Option<Stretch> = None;
    for step in 0..path.len() {
        let number = path[path.len() - 1 - step];
        open = match open {
            Some(stretch) if goes_on(story, number) => Some(Stretch {
                first: stretch.first,
                last: number,
            }),
            ended => {
                push_stretch(&mut lines, story, ended)?;
                Some(Stretch {
                    first: number,
                    last: number,
                })
            }
        };
    }
    push_stretch(&mut lines, story, open)?;
    Ok(lines)
}

/// Puts the critical path behind a text, whole or its first and last lines.
pub(crate) fn push_path(
    alloc: Global,
    text: &mut Vec<u8>,
    story: &Story<'_>,
    is_full: bool,
) -> Result<(), AllocError> {
    push_count(text, b"critical path ", story.run.end)?;
    push_pieces(text, &[b"\n"])?;
    let lines = path_lines(alloc, story)?;
    if is_full {
        push_pieces(text, &[&lines.text])
    } else {
        lines.push_short(text)
    }
}
