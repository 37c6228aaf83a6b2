//! What is answered about certificates.

ghost use Rattle.std.specs.Prelude.{◌≡◌, IfOk, OnErr};
ghost use Rattle.cert_text.specs.CertText.{certificate_of};
ghost use Rattle.farm_answers.specs.Answers.{IsAnswered};
ghost use Rattle.farm_answers.specs.CertAnswers.{AnswersCert, AnswersVerifyCert, IsCertAnswered, IsTextVerdict, MayTellLength, ShowsCert, TellsCert};
ghost use Rattle.plan_reader.specs.TextsView.{texts_view};
ghost use Rattle.plan_model.specs.Sound.{IsSound};

use crate::answers::{answer_verdict, status_of};
use crate::fault::OutsideFault;
use crate::source::MOST_FILE;
use crate::status::FINE;
use cert_text::{CertFault, read};
use cert_writer::write_certificate;
use farm_report::write_cert_verdict;
use itoa::Buffer;
use plan_cert::check_by_tables;
use plan_reader::{Plan, Texts};
use plan_verifier::{Accepted, Ready, Refusal, check, read_ready};
use report_sink::{Sink, write_pieces};
use std::alloc::Global;
use std::mem::ManuallyDrop;
use std::thread::Threads;

/// Says on the error output that a certificate of so many bytes is longer than a text that is read
/// may be, where it is.
fn tell_length<E: Sink>(errors: &mut E, count: u64)
    ensures { MayTellLength (E.state errors.old) (E.state errors.new) }
{
    if count < u64::from(MOST_FILE) {
        return;
    }
    let mut digits = Buffer::new();
    let number = digits.format(count).as_bytes();
    let head: &[u8] = b"portfarm: a certificate of ";
    let end: &[u8] = b" bytes is longer than verify-cert takes\n";
    let _written = write_pieces(errors, &[head, number, end]);
}

/// Answers with the certificate of an accepted plan.
fn answer_accepted<'a, S: Sink, E: Sink>(
    alloc: Global,
    accepted: &Accepted,
    out: &mut S,
    errors: &mut E,
) -> Result<u8, OutsideFault<'a>>
    ensures answer { IsCertAnswered (ShowsCert accepted.now) (S.state out.old) (S.state out.new)
        result }
    ensures line { MayTellLength (E.state errors.old) (E.state errors.new) }
    ensures quiet { OnErr result (E.state errors.new ≡ E.state errors.old) }
{
    match write_certificate(alloc, accepted, out) {
        Ok(count) => {
            tell_length(errors, count);
            Ok(FINE)
        }
        Err(stop) => Err(OutsideFault::from(stop)),
    }
}

/// Answers with a certificate of the plan that four texts stand for where it is accepted, else with
/// the refusal, and gives the status. The certificate is written as it is made. That of a plan at
/// the limits may be longer than a text that is read may be: then the error output says so.
///
/// # Errors
///
/// [`OutsideFault::OutOfMemory`] where memory is refused, and nothing is written then;
/// [`OutsideFault::CutShort`] where it is refused while the certificate is written, and
/// [`OutsideFault::WriteFailed`] where the sink fails, each with a first part of the answer.
pub fn answer_cert<'a, S: Sink, E: Sink>(
    rt: &(impl Threads + Sync),
    alloc: Global,
    texts: Texts<'_>,
    out: &mut S,
    errors: &mut E,
) -> Result<u8, OutsideFault<'a>>
    ensures answer { IsCertAnswered (AnswersCert (texts_view texts.entry)) (S.state out.old)
        (S.state out.new) result }
    ensures line { MayTellLength (E.state errors.old) (E.state errors.new) }
    ensures quiet { OnErr result (E.state errors.new ≡ E.state errors.old) }
{
    let verdict = check(
        rt,
        alloc,
        texts.packages,
        texts.sources,
        texts.farm,
        texts.plan,
    );
    match verdict {
        Ok(accepted) => {
            // The program ends with its answer: what it has read goes with it.
            let kept = ManuallyDrop::new(accepted);
            answer_accepted(alloc, &*kept, out, errors)
        }
        Err(refusal) => answer_verdict(Err(refusal), out),
    }
}

/// Reads the certificate of a plan, and checks it.
///
/// # Errors
///
/// The fault of the text, or else of the certificate.
pub fn check_text(
    rt: &(impl Threads + Sync),
    alloc: Global,
    ready: &Ready,
    cert: &[u8],
) -> Result<(), CertFault>
    requires sound { IsSound ready.now.planned.universe ready.now.planned.plan.lanes }
    requires tables { IfOk ready.now.tables (λ tables. tables ≡ ready.now.planned.universe) }
    ensures { IsTextVerdict ready.now.planned.universe ready.now.planned.plan.lanes
        (certificate_of ready.now.planned.universe ready.now.planned.plan.lanes cert.now) result }
{
    let universe = &ready.planned.universe;
    let plan = &ready.planned.plan;
    let certificate = read(alloc, universe, plan, cert)?;
    let kept = ManuallyDrop::new(certificate);
    match &ready.tables {
        Ok(tables) => check_by_tables(rt, alloc, universe, tables, plan, &*kept),
        Err(_) => Err(CertFault::Memory),
    }
}

/// Answers with the verdict on a certificate. Want of memory is none.
fn answer_certified<'a, S: Sink>(
    plan: &Plan,
    verdict: Result<(), CertFault>,
    out: &mut S,
) -> Result<u8, OutsideFault<'a>>
    ensures { IsAnswered (TellsCert plan.now.lanes verdict) (S.state out.old) (S.state out.new)
        result }
{
    if verdict == Err(CertFault::Memory) {
        return Err(OutsideFault::OutOfMemory);
    }
    write_cert_verdict(out, plan, &verdict)?;
    Ok(status_of(verdict.is_ok()))
}

/// Answers with the verdict on the text of a certificate of the plan that four texts stand for, or
/// with their first fault, and gives the status. The plan itself is not judged: a certificate that
/// passes shows that it is safe.
///
/// # Errors
///
/// [`OutsideFault::OutOfMemory`] where memory is refused, and nothing is written then; and
/// [`OutsideFault::WriteFailed`] where the sink fails, with a first part of the answer.
pub fn answer_verify_cert<'a, S: Sink>(
    rt: &(impl Threads + Sync),
    alloc: Global,
    texts: Texts<'_>,
    cert: &[u8],
    out: &mut S,
) -> Result<u8, OutsideFault<'a>>
    ensures { IsAnswered (AnswersVerifyCert cert.now (texts_view texts.entry)) (S.state out.old)
        (S.state out.new) result }
{
    let made = read_ready(
        rt,
        alloc,
        texts.packages,
        texts.sources,
        texts.farm,
        texts.plan,
    );
    let ready = match made {
        Ok(ready) => ready,
        Err(refused) => return answer_verdict(Err(Refusal::from(refused)), out),
    };
    let kept = ManuallyDrop::new(ready);
    let ready = &*kept;
    let verdict = check_text(rt, alloc, ready, cert);
    answer_certified(&ready.planned.plan, verdict, out)
}
