//! A plan is looked for, written, and judged.

ghost use Rattle.std.specs.Prelude.{◌≡◌, IfOk, IfSome, IsTrue, Some, true};
ghost use Rattle.deb_text.specs.Answers.{refusal_of};
ghost use Rattle.draft_plan.specs.declared.drafted.Drafted.TheVariants.{Wrong};
ghost use Rattle.draft_plan.specs.Follows.{Follows};
ghost use Rattle.draft_plan.specs.Drafted.{Answers, AnswersSketch, AnswersNumber, IsDrafted, IsEnd, SaysEnd};
ghost use Rattle.plan_reader.specs.Planned.{planned_of};
ghost use Rattle.plan_reader.specs.TextsView.{texts_view};
ghost use Rattle.farm_universe.specs.UniverseText.{universe_of};

use crate::comments::with_makespan;
use crate::lanes::parts_of;
use crate::looked::{Lanes, Looked, look};
use crate::plan_text::plan_text;
use crate::wanted::{by_number, by_sketch};
use crate::wish::{recipes_of, wish_of};
use crate::{About, Wanted, follows, no_chroot_note};
use deb_text::{Fault, cut_at_first, cut_at_last, is_same_text};
use draft_lanes::Watch;
use draft_numbers::numbers_of;
use farm_universe::Universe;
use itoa::Buffer;
use plan_reader::{Texts, assemble};
use plan_verifier::{Accepted, Refusal, check};
use std::alloc::{AllocError, Global};
use std::mem::ManuallyDrop;
use std::thread::Threads;
use timed_farm::accepted_timed_run;

/// What drafting comes to.
#[derive(Drop)]
pub enum Drafted {
    /// The text of a plan that is accepted and is what was wanted, but for these recipes, which are
    /// left out; lines on these; and when the timed run of the plan ends.
    Plan {
        text: Vec<u8>,
        left: Vec<u32>,
        told: Vec<u8>,
        end: u128,
    },
    /// There is no plan, as these lines say.
    Refused(Vec<u8>),
    /// The texts have a fault.
    Wrong(Fault),
    /// A plan was drafted that is not accepted, or is not what was wanted: a fault of the program.
    Failed,
}

/// What is answered with.
#[derive(Drop)]
enum Written {
    /// The text of a plan, which recipes are left out, and lines on these.
    Plan(Vec<u8>, Vec<u32>, Vec<u8>),
    Refused(Vec<u8>),
    Nothing,
}

/// The text of the lanes that were found.
fn write_found(about: &About<'_>, found: Lanes) -> Result<Written, AllocError> {
    match plan_text(about, &found)? {
        Ok(text) => {
            let left = recipes_of(about.alloc, &found.left)?;
            let Lanes { told, .. } = found;
            Ok(Written::Plan(text, left, told))
        }
        Err(lines) => Ok(Written::Refused(lines)),
    }
}

/// Looks for a plan, and writes it.
fn write<W: Watch>(
    alloc: Global,
    texts: Texts<'_>,
    universe: &Universe,
    wanted: &Wanted,
    is_partial: bool,
    watch: &W,
) -> Result<Written, AllocError> {
    let numbers = numbers_of(alloc, universe)?;
    let about = About {
        alloc,
        universe,
        numbers: &numbers,
        texts,
        lanes: &wanted.lanes,
    };
    match look(&about, wish_of(alloc, wanted)?, is_partial, watch)? {
        Looked::Found(found) => write_found(&about, found),
        Looked::Refused(lines) => Ok(Written::Refused(lines)),
        Looked::Nothing => Ok(Written::Nothing),
    }
}

/// Tells whether an accepted plan is what was wanted.
fn is_wanted(
    alloc: Global,
    wanted: &Wanted,
    left: &[u32],
    accepted: &Accepted,
) -> Result<bool, AllocError>
    ensures { IfOk result (λ b. IsTrue b → Follows wanted.now left.now accepted.now.plan) }
{
    let parts = parts_of(alloc, accepted.plan())?;
    follows(alloc, wanted, left, &parts)
}

/// When the timed run of an accepted plan ends, where it is what was wanted.
fn end_of(
    alloc: Global,
    wanted: &Wanted,
    left: &[u32],
    accepted: &Accepted,
) -> Result<Option<u128>, AllocError>
    ensures { IfOk result (λ end. IfSome end (IsEnd wanted.now left.now accepted.now)) }
{
    if !is_wanted(alloc, wanted, left, accepted)? {
        return Ok(None);
    }
    let time = ManuallyDrop::new(accepted_timed_run(alloc, accepted)?);
    Ok(Some(time.run.end))
}

/// When the timed run of a text ends, where it is a plan that is accepted and is what was wanted.
fn judged(
    rt: &(impl Threads + Sync),
    alloc: Global,
    texts: Texts<'_>,
    wanted: &Wanted,
    left: &[u32],
    text: &[u8],
) -> Result<Option<u128>, AllocError>
    ensures { IfOk result (λ end.
        IfSome end (IsDrafted (texts_view texts.entry) wanted.now left.now text.now)) }
{
    // The program ends with its answer: what was judged goes with it, and not piece by piece.
    let verdict = ManuallyDrop::new(check(
        rt,
        alloc,
        texts.packages,
        texts.sources,
        texts.farm,
        text,
    ));
    match &*verdict {
        Ok(accepted) => end_of(alloc, wanted, left, accepted),
        Err(Refusal::Memory) => Err(AllocError),
        Err(_) => Ok(None),
    }
}

/// Tells whether the last word of a text's first line is this number.
fn says_end(text: &[u8], end: u128) -> bool
    ensures { result ≡ true → SaysEnd text.now end }
{
    let Some((line, _)) = cut_at_first(b'\n', text) else {
        return false;
    };
    let Some((_, word)) = cut_at_last(b' ', line) else {
        return false;
    };
    let mut digits = Buffer::new();
    is_same_text(word, digits.format(end).as_bytes())
}

/// The text of a plan with the end of its timed run in its first line; that text and that end, where
/// the plan is accepted and is what was wanted. The search has a clock of its own: where it was
/// right, the text stays as it is, and else the other one is judged again.
fn timed(
    rt: &(impl Threads + Sync),
    alloc: Global,
    texts: Texts<'_>,
    wanted: &Wanted,
    left: &[u32],
    text: Vec<u8>,
) -> Result<Option<(Vec<u8>, u128)>, AllocError>
    ensures { IfOk result (λ timed. IfSome timed (λ pair.
        IsDrafted (texts_view texts.entry) wanted.now left.now pair.0.items pair.1
        × SaysEnd pair.0.items pair.1)) }
{
    let Some(end) = judged(rt, alloc, texts, wanted, left, &text)? else {
        return Ok(None);
    };
    if says_end(&text, end) {
        return Ok(Some((text, end)));
    }
    let other = with_makespan(alloc, &text, end)?;
    match judged(rt, alloc, texts, wanted, left, &other)? {
        Some(end) if says_end(&other, end) => Ok(Some((other, end))),
        _ => Ok(None),
    }
}

/// Judges the text of a plan, of which some recipes are left out.
fn judge(
    rt: &(impl Threads + Sync),
    alloc: Global,
    texts: Texts<'_>,
    wanted: &Wanted,
    is_partial: bool,
    plan: (Vec<u8>, Vec<u32>, Vec<u8>),
) -> Result<Drafted, AllocError>
    ensures { IfOk result (Answers (texts_view texts.entry) is_partial wanted.now) }
{
    let (text, left, told) = plan;
    if !is_partial && !left.is_empty() {
        return Ok(Drafted::Failed);
    }
    match timed(rt, alloc, texts, wanted, &left, text)? {
        Some((text, end)) => {
            Ok(Drafted::Plan {
                text,
                left,
                told,
                end,
            })
        }
        None => Ok(Drafted::Failed),
    }
}

/// Judges a plan that was looked for and written, where there is one.
fn answer(
    rt: &(impl Threads + Sync),
    alloc: Global,
    texts: Texts<'_>,
    wanted: &Wanted,
    is_partial: bool,
    written: Written,
) -> Result<Drafted, AllocError>
    ensures { IfOk result (Answers (texts_view texts.entry) is_partial wanted.now) }
{
    match written {
        Written::Plan(text, left, told) => {
            judge(rt, alloc, texts, wanted, is_partial, (text, left, told))
        }
        Written::Refused(lines) => Ok(Drafted::Refused(lines)),
        Written::Nothing => Ok(Drafted::Failed),
    }
}

/// That the texts have a fault. Want of memory is none.
fn wrong(fault: Fault) -> Result<Drafted, AllocError>
    ensures { IfOk result (λ drafted. (drafted ≡ Wrong fault)
        × (refusal_of fault ≡ Some fault)) }
{
    if fault == Fault::MEMORY {
        return Err(AllocError);
    }
    Ok(Drafted::Wrong(fault))
}

/// Drafts a plan by a sketch, which is the last of the texts: it has the lanes of the sketch, and
/// each builds what the sketch builds there. With `takes_rest` all other recipes are built in some
/// lane. With `is_partial` what is in the way is left out. Meanwhile somebody hears how far that has
/// come.
///
/// The plan is accepted by [`check`], and is what was wanted.
#[tactic(auto, unfolding(plan_reader::specs::Planned::planned_of))]
pub fn draft_by_sketch<W: Watch>(
    rt: &(impl Threads + Sync),
    alloc: Global,
    texts: Texts<'_>,
    takes_rest: bool,
    is_partial: bool,
    watch: &W,
) -> Result<Drafted, AllocError>
    ensures { IfOk result (AnswersSketch (texts_view texts.entry) takes_rest is_partial
        (planned_of texts.entry.packages.now texts.entry.sources.now texts.entry.farm.now
        texts.entry.plan.now)) }
{
    let read = Universe::read_side_by_side(rt, alloc, texts.packages, texts.sources, texts.farm);
    let kept = match read {
        Ok(universe) => ManuallyDrop::new(universe),
        Err(refused) => return wrong(refused.fault),
    };
    let universe = &*kept;
    if universe.bases() == 0 {
        return Ok(Drafted::Refused(no_chroot_note(alloc)?));
    }
    match assemble(alloc, universe, texts.plan) {
        Ok(plan) => {
            let wanted = by_sketch(alloc, universe, &plan, takes_rest)?;
            let written = write(alloc, texts, universe, &wanted, is_partial, watch)?;
            answer(rt, alloc, texts, &wanted, is_partial, written)
        }
        Err(fault) => wrong(fault),
    }
}

/// Drafts a plan of so many lanes over the base chroots in turn, in which every recipe of the farm
/// is built. With `is_partial` what is in the way is left out. The last of the texts is not looked
/// at. Meanwhile somebody hears how far that has come.
///
/// The plan is accepted by [`check`], and is what was wanted.
pub fn draft_by_number<W: Watch>(
    rt: &(impl Threads + Sync),
    alloc: Global,
    texts: Texts<'_>,
    lanes: u32,
    is_partial: bool,
    watch: &W,
) -> Result<Drafted, AllocError>
    ensures { IfOk result (AnswersNumber (texts_view texts.entry) lanes is_partial
        (universe_of texts.entry.packages.now texts.entry.sources.now texts.entry.farm.now)) }
{
    let read = Universe::read_side_by_side(rt, alloc, texts.packages, texts.sources, texts.farm);
    let kept = match read {
        Ok(universe) => ManuallyDrop::new(universe),
        Err(refused) => return wrong(refused.fault),
    };
    let universe = &*kept;
    if universe.bases() == 0 {
        return Ok(Drafted::Refused(no_chroot_note(alloc)?));
    }
    let wanted = by_number(alloc, universe, lanes)?;
    let written = write(alloc, texts, universe, &wanted, is_partial, watch)?;
    answer(rt, alloc, texts, &wanted, is_partial, written)
}
