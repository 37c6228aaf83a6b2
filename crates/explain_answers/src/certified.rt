//! What is answered where the verdict on a certificate is explained.

ghost use Rattle.std.specs.Prelude.{◌≡◌, ◌++◌, IfOk};
ghost use Rattle.explain_answers.specs.CertExplained.{AnswersExplainCert};
ghost use Rattle.farm_answers.specs.Answers.{IsAnswered};
ghost use Rattle.plan_reader.specs.TextsView.{texts_view};
ghost use Rattle.farm_report.specs.CertText.{cert_text};

use crate::cert_notes::refusal_notes;
use cert_text::CertFault;
use farm_answers::{OutsideFault, answer_verdict, check_text, status_of, write_answer};
use farm_report::write_cert_verdict;
use plan_reader::{Planned, Texts};
use plan_verifier::{Refusal, read_ready};
use report_sink::{Sink, WriteSink};
use std::alloc::{AllocError, Global};
use std::mem::ManuallyDrop;
use std::thread::Threads;

/// The line of a verdict on a certificate, and the lines that tell why it is refused.
fn certified_text(
    alloc: Global,
    planned: &Planned,
    cert: &[u8],
    verdict: &Result<(), CertFault>,
) -> Result<Vec<u8>, AllocError>
    ensures { IfOk result (λ text. (rest : _)
        × (text.items ≡ cert_text planned.now.plan.lanes verdict.now ++ rest)) }
{
    let mut out = WriteSink::new(Vec::new(alloc));
    let Ok(()) = write_cert_verdict(&mut out, &planned.plan, verdict) else {
        return Err(AllocError);
    };
    let mut text = out.into_inner();
    if let Err(fault) = verdict {
        text.extend_from_slice(&refusal_notes(alloc, planned, cert, *fault)?)?;
    }
    Ok(text)
}

/// Answers as `verify-cert` does, and says below a refusal why: the line of the certificate, the
/// line of the plan, what was expected there, and of a row with too much the first variant.
///
/// # Errors
///
/// [`OutsideFault::OutOfMemory`] where memory is refused, and nothing is written then; and
/// [`OutsideFault::WriteFailed`] where the sink fails, with a first part of the answer.
pub fn answer_explain_cert<'a, S: Sink>(
    rt: &(impl Threads + Sync),
    alloc: Global,
    texts: Texts<'_>,
    cert: &[u8],
    out: &mut S,
) -> Result<u8, OutsideFault<'a>>
    ensures { IsAnswered (AnswersExplainCert cert.now (texts_view texts.entry)) (S.state out.old)
        (S.state out.new) result }
{
    let made = read_ready(
        rt,
        alloc,
        texts.packages,
        texts.sources,
        texts.farm,
        texts.plan,
    );
    let ready = match made {
        Ok(ready) => ready,
        Err(refused) => return answer_verdict(Err(Refusal::from(refused)), out),
    };
    // The program ends with its answer: what it has read goes with it.
    let kept = ManuallyDrop::new(ready);
    let ready = &*kept;
    let verdict = check_text(rt, alloc, ready, cert);
    if verdict == Err(CertFault::Memory) {
        return Err(OutsideFault::OutOfMemory);
    }
    let text = certified_text(alloc, &ready.planned, cert, &verdict)?;
    write_answer(out, text.as_slice(), status_of(verdict.is_ok()))
}
