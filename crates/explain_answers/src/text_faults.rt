//! What explains texts that cannot be read.

ghost use Rattle.std.specs.Prelude.{IfOk};
ghost use Rattle.deb_text.specs.Answers.{Fails};
ghost use Rattle.farm_answers.specs.Answers.{planned_in};
ghost use Rattle.explain_answers.specs.Explanations.{AreFaultNotes, IsExplanation, TellsItem};
ghost use Rattle.plan_reader.specs.TextsView.{texts_view};
ghost use Rattle.farm_universe.specs.Before.{Leaves, before_plan, refused_for};

use crate::explanation::{Explanation, Notes};
use deb_text::Fault;
use deb_text::files::{FARM, PACKAGES, PLAN, SOURCES};
use explain_faults::{
    FaultNote, exchanged_look, farm_note, field_note, index_limit, is_of_field, plan_note,
    push_fault_note, push_look, word_note,
};
use explain_lanes::{Further, Note, Told};
use farm_universe::{Refused, UNKNOWN_SOURCE, UNKNOWN_VARIANT};
use plan_reader::{Texts, UNKNOWN_NAME};
use plan_verifier::Refusal;
use std::alloc::{AllocError, Global};
use std::mem::ManuallyDrop;

/// The text of the file of a number; no byte for another number.
fn text_in<'a>(texts: Texts<'a>, file: u8) -> &'a [u8] {
    match file {
        PACKAGES => texts.packages,
        SOURCES => texts.sources,
        FARM => texts.farm,
        PLAN => texts.plan,
        _ => b"",
    }
}

/// The note on the item, the field, the limit, the word or the line that a fault is about.
#[tactic(auto, unfolding(explain_faults::specs::Found::farm_item_line))]
fn about_note(alloc: Global, refused: &Refused, texts: Texts<'_>) -> Result<FaultNote, AllocError>
    ensures { IfOk result (λ note.
        TellsItem refused.now.before texts.entry.farm.now refused.now.fault note.facts) }
{
    let fault = &refused.fault;
    let text = text_in(texts, fault.file);
    if fault.file == PLAN {
        return match &refused.before {
            Some(universe) if fault.code == UNKNOWN_NAME => {
                word_note(alloc, universe, text, fault.line)
            }
            _ => plan_note(alloc, fault, text),
        };
    }
    if is_of_field(fault.code) {
        return field_note(alloc, fault, text);
    }
    if fault.file != FARM {
        let mut note = FaultNote::none(alloc);
        if let Some(limit) = index_limit(alloc, fault.file, text, fault.code, fault.line)? {
            note.text = Vec::from_slice(alloc, limit.text())?;
        }
        return Ok(note);
    }
    match &refused.before {
        Some(before) => farm_note(alloc, before, texts.farm, fault.code, fault.line),
        None => Ok(FaultNote::none(alloc)),
    }
}

/// The note on a fault, and what it is about, without warnings.
fn fault_notes(alloc: Global, refused: &Refused, texts: Texts<'_>) -> Result<Notes, AllocError>
    ensures { IfOk result
        (AreFaultNotes refused.now.before texts.entry.farm.now refused.now.fault) }
{
    let fault = refused.fault;
    let about = about_note(alloc, refused, texts)?;
    let mut text = Vec::new(alloc);
    push_fault_note(alloc, &mut text, &fault, text_in(texts, fault.file))?;
    if fault.code == UNKNOWN_VARIANT || fault.code == UNKNOWN_SOURCE {
        push_look(&mut text, exchanged_look(texts.packages, texts.sources))?;
    }
    text.extend_from_slice(&about.text)?;
    let mut reasons = Vec::new(alloc);
    reasons.push(Note {
        told: Told::Text(fault),
        further: Further::Nothing,
        place: None,
        head: Vec::new(alloc),
        text,
    })?;
    Ok(Notes {
        reasons,
        about: about.facts,
        warnings: Vec::new(alloc),
    })
}

/// Explains the first fault of the texts. Want of memory is none.
///
/// # Errors
///
/// Where the fault is want of memory.
pub fn explain_refused(
    alloc: Global,
    refused: Refused,
    texts: Texts<'_>,
) -> Result<Explanation, AllocError>
    requires fails { Fails refused_for refused (planned_in (texts_view texts)) }
    requires before { Leaves refused
        (before_plan texts.packages.now texts.sources.now texts.farm.now) }
    ensures { IfOk result (IsExplanation (texts_view texts.entry)) }
{
    let fault = refused.fault;
    if fault == Fault::MEMORY {
        return Err(AllocError);
    }
    // The program ends with its answer: what stood before the fault goes with it.
    let refused = ManuallyDrop::new(refused);
    let notes = fault_notes(alloc, &*refused, texts).ok();
    Ok(Explanation {
        verdict: Err(Refusal::Text(fault)),
        refused: None,
        notes,
    })
}
