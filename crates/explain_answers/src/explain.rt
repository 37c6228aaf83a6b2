//! What is answered where a verdict is explained.

ghost use Rattle.std.specs.Prelude.{IfOk};
ghost use Rattle.explain_answers.specs.Explanations.{AnswersExplain, IsExplained, IsExplanation};
ghost use Rattle.farm_answers.specs.Answers.{IsAnswered};
ghost use Rattle.plan_reader.specs.TextsView.{texts_view};

use crate::explanation::{Explanation, plan_notes};
use crate::text_faults::explain_refused;
use crate::told::write_explanation;
use farm_answers::OutsideFault;
use plan_reader::Texts;
use plan_verifier::{Examined, Ready, Refusal, read_ready};
use report_sink::Sink;
use std::alloc::{AllocError, Global};
use std::mem::ManuallyDrop;
use std::thread::Threads;

/// Explains the verdict on a plan.
fn explain_examined(
    rt: &(impl Threads + Sync),
    alloc: Global,
    examined: Examined,
    texts: Texts<'_>,
) -> Result<Explanation, AllocError>
    ensures { IfOk result (IsExplained examined) }
{
    match examined.verdict(rt, alloc) {
        Ok(grounds) => {
            let passed: Result<(), Refusal> = Ok(());
            let notes = plan_notes(rt, alloc, &examined, texts, &passed).ok();
            Ok(Explanation {
                verdict: Ok(examined.accept(grounds)),
                refused: None,
                notes,
            })
        }
        Err(Refusal::Memory) => Err(AllocError),
        Err(refusal) => {
            let verdict = Err(refusal);
            let notes = plan_notes(rt, alloc, &examined, texts, &verdict).ok();
            Ok(Explanation {
                verdict,
                refused: Some(examined),
                notes,
            })
        }
    }
}

/// Explains the verdict on four texts.
fn explain_texts(
    rt: &(impl Threads + Sync),
    alloc: Global,
    texts: Texts<'_>,
) -> Result<Explanation, AllocError>
    ensures { IfOk result (IsExplanation (texts_view texts.entry)) }
{
    match read_ready(
        rt,
        alloc,
        texts.packages,
        texts.sources,
        texts.farm,
        texts.plan,
    ) {
        Ok(Ready { planned, tables }) => {
            let examined = Examined::by_tables(rt, alloc, planned, tables?)?;
            explain_examined(rt, alloc, examined, texts)
        }
        Err(refused) => explain_refused(alloc, refused, texts),
    }
}

/// Answers with the verdict on four texts and what explains it, and gives the status: below a fault
/// of a text what was expected there, below an instruction that may go wrong why, below stuck lanes
/// for what they wait, and below an acceptance what each wait waits for; and behind the verdict on
/// a plan the warnings. As JSON it is one object on a line.
///
/// # Errors
///
/// [`OutsideFault::OutOfMemory`] where memory is refused, and nothing is written then;
/// [`OutsideFault::CutShort`] where it is refused once the verdict is known, which is written then;
/// and [`OutsideFault::WriteFailed`] where the sink fails, with a first part of the answer.
pub fn answer_explain<'a, S: Sink>(
    rt: &(impl Threads + Sync),
    alloc: Global,
    texts: Texts<'_>,
    json: bool,
    out: &mut S,
) -> Result<u8, OutsideFault<'a>>
    ensures { IsAnswered (AnswersExplain json (texts_view texts.entry)) (S.state out.old)
        (S.state out.new) result }
{
    // The program ends with its answer: what it has read goes with it, and not piece by piece.
    let explanation = ManuallyDrop::new(explain_texts(rt, alloc, texts)?);
    write_explanation(alloc, &*explanation, json, out)
}
