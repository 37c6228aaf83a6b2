//! A verdict, and what explains it.

ghost use Rattle.std.specs.Prelude.{◌≡◌, IfErr, IfOk, Err};
ghost use Rattle.explain_answers.specs.Explanations.{AreNotes, IsWhy, IsWhyRefused, unsafe_in};
ghost use Rattle.explain_lanes.specs.Notes.{all_facts};
ghost use Rattle.plan_verifier.specs.Examined.{IsExamined};
ghost use Rattle.plan_verifier.specs.Verdict.{IsVerdictOn};

use explain_faults::FaultFacts;
use explain_lanes::{Note, lane_notes, push_left, stuck_notes, waits_notes};
use explain_reasons::Left;
use explain_warnings::warnings;
use plan_reader::Texts;
use plan_verifier::{Accepted, Examined, Refusal};
use std::alloc::{AllocError, Global};
use std::thread::{Threads, join};

/// The notes that explain a verdict, what a text is refused for, where one is, and the lines of the
/// warnings.
#[derive(Drop)]
pub struct Notes {
    pub reasons: Vec<Note>,
    pub about: FaultFacts,
    pub warnings: Vec<u8>,
}

/// A verdict, the plan that was refused, if one was read, and what explains the verdict; of which
/// there is nothing where memory was refused behind it.
#[derive(Drop)]
pub struct Explanation {
    pub verdict: Result<Accepted, Refusal>,
    pub refused: Option<Examined>,
    pub notes: Option<Notes>,
}

/// The notes on what is unsafe in the lanes, and what `remove` may leave unpacked with an entry
/// that nothing meets, by one look along each lane; and beside that, since neither asks for the
/// other, the lines of the warnings of the texts.
fn lanes_beside_texts(
    rt: &(impl Threads + Sync),
    alloc: Global,
    examined: &Examined,
    texts: Texts<'_>,
) -> (
    Result<(Vec<Note>, Vec<Left>), AllocError>,
    Result<Vec<u8>, AllocError>,
)
    requires { IsExamined examined.now }
    ensures { IfOk result.0 (λ along. all_facts along.0.items ≡ unsafe_in examined.now) }
{
    let (packages, sources) = (texts.packages, texts.sources);
    let (farm, plan) = (texts.farm, texts.plan);
    join(
        rt,
        move || -> Result<(Vec<Note>, Vec<Left>), AllocError>
            requires { IsExamined examined.now }
            ensures { IfOk result
                (λ along. all_facts along.0.items ≡ unsafe_in examined.entry.now) }
        {
            let mut left = Vec::new(alloc);
            let hazards = lane_notes(alloc, &examined.stage(), &mut left)?;
            Ok((hazards, left))
        },
        move || -> Result<Vec<u8>, AllocError> {
            let texts = Texts {
                packages,
                sources,
                farm,
                plan,
            };
            warnings(alloc, texts, examined.universe(), examined.plan())
        },
    )
}

/// Why a plan is refused, where this is unsafe in its lanes.
#[tactic(auto, using(explain_lanes::proofs::OnStuck::notes_are_on_the_stuck))]
fn refusal_notes(
    alloc: Global,
    examined: &Examined,
    hazards: Vec<Note>,
    refusal: &Refusal,
) -> Result<Vec<Note>, AllocError>
    requires examined { IsExamined examined.now }
    requires hazards { all_facts hazards.items ≡ unsafe_in examined.now }
    requires refused { IsVerdictOn examined.now.universe examined.now.plan (Err refusal.now) }
    ensures { IfOk result
        (λ reasons. IsWhyRefused examined.now refusal.now (all_facts reasons.items)) }
{
    match refusal {
        Refusal::Stuck { .. } => stuck_notes(alloc, &examined.stage()),
        Refusal::Unsafe { .. } => Ok(hazards),
        Refusal::Uneven { .. } => Ok(hazards),
        Refusal::Text(_) => Ok(hazards),
        Refusal::Memory => Ok(hazards),
    }
}

/// Why a verdict on a plan is one, where this is unsafe in its lanes.
fn reasons_of<A>(
    alloc: Global,
    examined: &Examined,
    hazards: Vec<Note>,
    verdict: &Result<A, Refusal>,
) -> Result<Vec<Note>, AllocError>
    requires examined { IsExamined examined.now }
    requires hazards { all_facts hazards.items ≡ unsafe_in examined.now }
    requires refused { IfErr verdict.now
        (λ refusal. IsVerdictOn examined.now.universe examined.now.plan (Err refusal)) }
    ensures { IfOk result (λ reasons. IsWhy examined.now verdict.now (all_facts reasons.items)) }
{
    match verdict {
        Ok(_) => waits_notes(alloc, &examined.stage()),
        Err(refusal) => refusal_notes(alloc, examined, hazards, refusal),
    }
}

/// Why a verdict on a plan is one, and the warnings.
pub fn plan_notes<A>(
    rt: &(impl Threads + Sync),
    alloc: Global,
    examined: &Examined,
    texts: Texts<'_>,
    verdict: &Result<A, Refusal>,
) -> Result<Notes, AllocError>
    requires examined { IsExamined examined.now }
    requires refused { IfErr verdict.now
        (λ refusal. IsVerdictOn examined.now.universe examined.now.plan (Err refusal)) }
    ensures { IfOk result (AreNotes examined.now verdict.now) }
{
    let (along, found) = lanes_beside_texts(rt, alloc, examined, texts);
    let (hazards, left) = along?;
    let mut warnings = found?;
    let (universe, plan) = (examined.universe(), examined.plan());
    push_left(alloc, &mut warnings, universe, plan, &left)?;
    let reasons = reasons_of(alloc, examined, hazards, verdict)?;
    Ok(Notes {
        reasons,
        about: FaultFacts::none(),
        warnings,
    })
}
