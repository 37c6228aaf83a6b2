//! The paragraphs of a text: each is read by itself, and then put behind those before it.

ghost use Rattle.std.specs.Prelude.{IfOk, drop};
ghost use Rattle.deb_text.specs.Common.{Gives, refusal_of as fault_of, steps};

use crate::paragraph::Paragraph;
use deb_stanza::Paragraphs;
use deb_text::Fault;
use std::alloc::Global;

/// How what is read so far goes on by a paragraph.
pub trait ParagraphStep {
    ghost use Rattle.std.specs.Prelude.{OnOk, Result};
    ghost use Rattle.deb_text.specs.declared.fault.Fault.{Fault};
    ghost use Rattle.deb_stanza.specs.Stanza as stanza;

    /// What is read so far.
    type SoFar: Drop;

    /// What is read of a paragraph, whatever stands before it.
    type Part: Drop;

    /// What is read so far, as it is said.
    ghost Said: { Type 0 };

    ghost said: { Self.SoFar → Said };

    /// What a paragraph is read against.
    ghost ready: { Self → Type 0 } = { λ _. Unit {0} };

    /// What is read of a paragraph.
    ghost is_part: { Self → stanza.Paragraph → Self.Part → Type 0 };

    /// What is true of what is read so far at each paragraph.
    ghost fits: { Self → Self.SoFar → Type 0 };

    ghost step: { Self → Said → stanza.Paragraph → Result Said Fault };

    /// Reads a paragraph by itself. A fault of it is told when it is taken.
    fn read(&self, alloc: Global, paragraph: &Paragraph) -> Self::Part
        requires { ready self.now }
        ensures { is_part self.now paragraph.now result };

    /// Puts what was read of a paragraph behind what is read so far.
    fn take(
        &self,
        alloc: Global,
        so_far: &mut Self::SoFar,
        paragraph: &Paragraph,
        part: Self::Part,
    ) -> Result<(), Fault>
        requires ready { ready self.now }
        requires fits { fits self.now so_far.old }
        requires part { is_part self.now paragraph.now part }
        ensures read { Gives fault_of (λ _. said so_far.new) result
            (step self.now (said so_far.old) paragraph.now) }
        ensures kept { OnOk result (fits self.now so_far.new) };
}

/// Goes on by all paragraphs from this one on, up to the first fault.
///
/// # Errors
///
/// The first fault that the step tells.
pub fn read_steps<S: ParagraphStep>(
    alloc: Global,
    step: &S,
    empty: S::SoFar,
    paragraphs: &Paragraphs,
    first: usize,
) -> Result<S::SoFar, Fault>
    requires ready { S.ready step.now }
    requires fits { S.fits step.now empty }
    ensures read { Gives fault_of S.said result
        (steps (S.step step.now) (S.said empty) (drop first paragraphs.now)) }
    ensures kept { IfOk result (S.fits step.now) }
{
    let mut so_far = empty;
    for number in first..paragraphs.count() {
        let paragraph = Paragraph::new(paragraphs, number);
        let part = step.read(alloc, &paragraph);
        step.take(alloc, &mut so_far, &paragraph, part)?;
    }
    Ok(so_far)
}
