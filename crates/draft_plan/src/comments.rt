//! The comments at the head of a drafted plan.

use crate::About;
use crate::looked::Lanes;
use deb_text::push_pieces;
use draft_lanes::Step;
use itoa::Buffer;
use memchr::{memchr, memrchr};
use std::alloc::{AllocError, Global};

/// How many recipes lanes build, and the one of these that is published last.
fn builds_of(found: &Lanes) -> (usize, Option<usize>) {
    let mut count = 0usize;
    let mut last: Option<usize> = None;
    for lane in &found.lanes {
        for step in lane.steps() {
            if let Step::Publish(recipe) = step {
                count = count.saturating_add(1);
                let is_later = match last {
                    Some(other) => found.published.time(*recipe) > found.published.time(other),
                    None => true,
                };
                if is_later {
                    last = Some(*recipe);
                }
            }
        }
    }
    (count, last)
}

/// When the last lane comes to its end, if costs are times.
fn makespan(found: &Lanes) -> u64 {
    let mut end = 0;
    for lane in &found.lanes {
        end = lane.time().max(end);
    }
    end
}

/// The builds up to one, each of which its lane went on to behind the one before it.
fn path_to(
    about: &About<'_>,
    found: &Lanes,
    last: usize,
    count: usize,
) -> Result<Vec<usize>, AllocError> {
    let mut path = Vec::new(about.alloc);
    let mut next = Some(last);
    for _ in 0..count {
        let Some(recipe) = next else {
            break;
        };
        path.push(recipe)?;
        next = found.published.behind(recipe);
    }
    path.reverse();
    Ok(path)
}

/// Puts the comments at the head of a plan behind a text: how many builds there are, when they come
/// to their end, and which of them that depends on.
pub(crate) fn push_comments(
    text: &mut Vec<u8>,
    about: &About<'_>,
    found: &Lanes,
) -> Result<(), AllocError> {
    let (count, last) = builds_of(found);
    let (mut builds, mut end) = (Buffer::new(), Buffer::new());
    let builds = builds.format(count as u64).as_bytes();
    let end = end.format(makespan(found)).as_bytes();
    push_pieces(text, &[b"# ", builds, b" builds, makespan ", end, b"\n"])?;
    let Some(last) = last else {
        return Ok(());
    };
    push_pieces(text, &[b"# critical path:"])?;
    for recipe in &path_to(about, found, last, count)? {
        push_pieces(text, &[b" ", about.recipe_name(*recipe)])?;
    }
    push_pieces(text, &[b"\n"])
}

/// A plan's text with another makespan in its first line, of which it is the last word.
pub(crate) fn with_makespan(alloc: Global, text: &[u8], end: u128) -> Result<Vec<u8>, AllocError> {
    let line = memchr(b'\n', text).unwrap_or(text.len());
    let word = memrchr(b' ', &text[..line]).unwrap_or(line);
    let mut digits = Buffer::new();
    let end = digits.format(end).as_bytes();
    let mut timed = Vec::new(alloc);
    push_pieces(&mut timed, &[&text[..word], b" ", end, &text[line..]])?;
    Ok(timed)
}
