//! The paragraphs of a text, of which each part is read by several threads, and then put behind
//! what stands before it by one of them, in the order of the paragraphs.

ghost use Rattle.std.specs.Prelude.{◌≡◌, ◌+◌, ◌<◌, ◌≤◌, IfErr, OnOk, drop, false, length};
ghost use Rattle.deb_text.specs.Common.{Fails, refusal_of as fault_of, steps};
ghost use Rattle.farm_universe.specs.Parts.{AreParts};

use crate::paragraph::Paragraph;
use crate::steps::ParagraphStep;
use deb_stanza::Paragraphs;
use deb_text::Fault;
use std::alloc::Global;

/// How many bytes of fields threads read before one puts them behind the others. At most two parts
/// are kept at a time, which bounds what is kept of a text that is over a limit.
pub const PART_BYTES: usize = 1_048_576;

/// How many bytes of packages threads read sooner than one does: to start them for fewer would take
/// longer.
pub const BYTES_FOR_THREADS: usize = PART_BYTES / 4;

/// Tells whether a part of so many bytes that begins at this paragraph holds all that are left.
pub fn is_short(paragraphs: &Paragraphs, first: usize, bytes: usize) -> bool
    ensures some { result ≡ false → first < length paragraphs.now }
{
    let count = paragraphs.count();
    first >= count || paragraphs.part_end(first, bytes) == count
}

/// Puts what was read of the paragraphs from this one on behind what is read so far.
///
/// # Errors
///
/// The first fault that the step tells.
pub fn take_part<S: ParagraphStep>(
    alloc: Global,
    step: &S,
    so_far: &mut S::SoFar,
    paragraphs: &Paragraphs,
    first: usize,
    parts: Vec<S::Part>,
) -> Result<(), Fault>
    requires ready { S.ready step.now }
    requires fits { S.fits step.now so_far.old }
    requires within { first + length parts.items ≤ length paragraphs.now }
    requires parts { AreParts (S.is_part step.now) paragraphs.now first parts.items }
    ensures goes { OnOk result
        (steps (S.step step.now) (S.said so_far.old) (drop first paragraphs.now)
        ≡ steps (S.step step.now) (S.said so_far.new)
        (drop (first + length parts.items) paragraphs.now)) }
    ensures fails { IfErr result (λ e. Fails fault_of e
        (steps (S.step step.now) (S.said so_far.old) (drop first paragraphs.now))) }
    ensures kept { OnOk result (S.fits step.now so_far.new) }
{
    // so that one more than the number of a paragraph is a number too
    let _count = paragraphs.count();
    let mut number = first;
    for part in parts {
        let paragraph = Paragraph::new(paragraphs, number);
        step.take(alloc, so_far, &paragraph, part)?;
        number += 1;
    }
    Ok(())
}
