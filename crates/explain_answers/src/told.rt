//! How a verdict and what explains it are written.

ghost use Rattle.std.specs.Prelude.{◌≡◌, ◌++◌, IfOk, OnOk};
ghost use Rattle.farm_answers.specs.Answers.{IsAnswered, IsJust, no_status, told_verdict};
ghost use Rattle.explain_answers.specs.Explanations as spec;
ghost use Rattle.explain_answers.specs.Explanations.{Tells};
ghost use Rattle.explain_answers.specs.Facts.{about};
ghost use Rattle.serde_json.specs.View.{members_view};

use crate::explanation::{Explanation, Notes};
use crate::note_json::{Subject, reason_list};
use explain_lanes::Note;
use farm_answers::{OutsideFault, check_json, of_verdict, status_of, write_answer};
use farm_report::write_check;
use plan_verifier::{Accepted, Refusal};
use report_sink::{Sink, WriteSink, write_text};
use serde_json::{Map, Value, put};
use shown_text::{answer_line, line_list};
use std::alloc::{AllocError, Global};

/// Puts the lines of notes behind a text, of the first without the line of a refusal, which is the
/// verdict's own.
fn push_notes(text: &mut Vec<u8>, notes: &[Note]) -> Result<(), AllocError>
    ensures { OnOk result (text.new.items ≡ text.old.items ++ spec.note_lines notes.now) }
{
    let [first, more @ ..] = notes else {
        return Ok(());
    };
    text.extend_from_slice(&first.text)?;
    for note in more {
        text.extend_from_slice(&note.head)?;
        text.extend_from_slice(&note.text)?;
    }
    Ok(())
}

/// What the notes of an explanation are on.
fn subject_of<'a>(explanation: &'a Explanation, notes: &'a Notes) -> Subject<'a>
    ensures { about result
        ≡ spec.subject_of explanation.now.verdict explanation.now.refused notes.now.about }
{
    match (&explanation.verdict, &explanation.refused) {
        (Ok(accepted), _) => Subject::Farm(accepted.universe(), accepted.plan()),
        (Err(_), Some(examined)) => Subject::Farm(examined.universe(), examined.plan()),
        (Err(_), None) => Subject::Fault(&notes.about),
    }
}

/// The members of a verdict with what explains it.
fn of_explained(
    alloc: Global,
    explanation: &Explanation,
    notes: &Notes,
) -> Result<Map<String, Value>, AllocError>
    ensures { IfOk result (λ members. members_view members.entries
        ≡ spec.explained_members explanation.now notes.now) }
{
    let mut members = of_verdict(alloc, &explanation.verdict)?;
    let warnings = line_list(alloc, &notes.warnings)?;
    put(&mut members, alloc, "warnings", warnings)?;
    let reasons = reason_list(alloc, subject_of(explanation, notes), &notes.reasons)?;
    put(&mut members, alloc, "reasons", reasons)?;
    Ok(members)
}

/// A verdict, its notes and the warnings, as JSON or as lines.
fn explained_text(
    alloc: Global,
    explanation: &Explanation,
    notes: &Notes,
    json: bool,
) -> Result<Vec<u8>, AllocError>
    ensures { IfOk result (λ text. text.items ≡ spec.explained_text json explanation.now notes.now) }
{
    let verdict = &explanation.verdict;
    if !json {
        let mut out = WriteSink::new(Vec::new(alloc));
        let Ok(()) = write_check(&mut out, verdict) else {
            return Err(AllocError);
        };
        let mut text = out.into_inner();
        push_notes(&mut text, &notes.reasons)?;
        text.extend_from_slice(&notes.warnings)?;
        return Ok(text);
    }
    let members = of_explained(alloc, explanation, notes)?;
    answer_line(alloc, &Value::Object(members))
}

/// Writes a verdict alone, as JSON or not, where no memory is left to say more.
fn write_alone<'a, S: Sink>(
    alloc: Global,
    verdict: &Result<Accepted, Refusal>,
    json: bool,
    out: &mut S,
) -> Result<u8, OutsideFault<'a>>
    ensures { IsAnswered (IsJust (told_verdict json verdict.now) no_status) (S.state out.old)
        (S.state out.new) result }
{
    if json {
        let line = check_json(alloc, verdict)?;
        write_text(out, line.as_slice())?;
        return Err(OutsideFault::CutShort);
    }
    write_check(out, verdict)?;
    Err(OutsideFault::CutShort)
}

/// Writes a verdict with what explains it, as JSON or not, and gives the status.
///
/// # Errors
///
/// [`OutsideFault::CutShort`] where memory is refused, or was behind the verdict, which is written
/// then; [`OutsideFault::OutOfMemory`] where none is left for that, and nothing is written then;
/// and [`OutsideFault::WriteFailed`] where the sink fails, with a first part of the answer.
pub fn write_explanation<'a, S: Sink>(
    alloc: Global,
    explanation: &Explanation,
    json: bool,
    out: &mut S,
) -> Result<u8, OutsideFault<'a>>
    ensures { IsAnswered (Tells json explanation.now) (S.state out.old) (S.state out.new) result }
{
    let verdict = &explanation.verdict;
    let Some(notes) = &explanation.notes else {
        return write_alone(alloc, verdict, json, out);
    };
    match explained_text(alloc, explanation, notes, json) {
        Ok(text) => write_answer(out, text.as_slice(), status_of(verdict.is_ok())),
        Err(AllocError) => write_alone(alloc, verdict, json, out),
    }
}
