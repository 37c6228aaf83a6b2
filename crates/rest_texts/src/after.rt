//! The texts of what is left of a run, by its texts and its journal.

ghost use Rattle.std.specs.Prelude.{◌≡◌, IfOk};
ghost use Rattle.drive_journal.specs.HeadText.{head_text};
ghost use Rattle.plan_model.specs.Common.{count, IsSound};
ghost use Rattle.plan_reader.specs.TextsView.{texts_view};
ghost use Rattle.rest_texts.specs.Afters.{IsLedTo, IsRestAfter, IsWithoutTexts, OfAfter, head_in};
ghost use Rattle.rest_texts.specs.Rests.{IsRestOf};
ghost use Rattle.rest_texts.specs.Words.{items_came, items_withdrawn};
ghost use Rattle.deb_text.specs.Lines.{lines_of};
ghost use Rattle.drive_journal.specs.HeadText.{IsKnown, finding};

use crate::control::line_at;
use crate::rest::{Given, Rest, Stopped, rest_of};
use crate::stop::{Stop, refused_at};
use crate::words::Said;
use deb_text::{Fault, cut_at_first};
use drive_journal::{
    Found, Sums, Texts as JournalTexts, find, head_of, read_end, run_name_of, whole_part,
};
use drive_replay::{Follower, ReplayFault, follow_journal};
use plan_reader::{Planned, Texts, read_texts};
use std::alloc::{AllocError, Global};

/// The line of a journal in which its first entry stands: five lines of its head and one of the run
/// are ahead of it.
pub const FIRST_ENTRY: u64 = 7;

/// A run, by its texts and the text of its journal.
#[derive(Clone, Copy)]
pub struct Run<'a> {
    pub texts: Texts<'a>,
    pub journal: &'a [u8],
}

/// What comes of a run by its journal: the texts of what is left, or why there are none; the name of
/// the run that goes on from this one, where the journal has ended; or the first line of the journal
/// that does not fit.
#[derive(Drop)]
pub enum After {
    Rest(Rest),
    Ended(Vec<u8>),
    Misfit(u64),
}

/// A journal as it was found, and the digests of its texts.
#[derive(Clone, Copy)]
struct Kept<'a> {
    of: Run<'a>,
    sums: &'a Sums,
    run: &'a [u8],
    entries: &'a [u8],
}

/// What is given in place of texts of the run, and what words say.
#[derive(Clone, Copy)]
struct Asked<'a> {
    given: Given<'a>,
    said: Said<'a>,
}

fn sums_of(alloc: Global, texts: Texts<'_>) -> Result<Sums, AllocError>
    ensures { IfOk result (λ sums. head_text sums ≡ head_in (texts_view texts.entry)) }
{
    Sums::of(
        alloc,
        JournalTexts {
            packages: texts.packages,
            sources: texts.sources,
            farm: texts.farm,
            plan: texts.plan,
        },
    )
}

/// What comes of a run that has followed its journal.
fn after_life(
    alloc: Global,
    kept: Kept<'_>,
    run: &Follower<'_>,
    asked: Asked<'_>,
) -> Result<After, AllocError>
    ensures { IfOk result (OfAfter (IsRestOf run.now.core (items_came asked.entry.said)
        (items_withdrawn asked.entry.said))) }
{
    let name = run_name_of(alloc, kept.sums, kept.run)?;
    let stopped = Stopped {
        run,
        name: &name,
        journal: whole_part(kept.of.journal),
        packages: kept.of.texts.packages,
        sources: kept.of.texts.sources,
        farm: kept.of.texts.farm,
    };
    Ok(After::Rest(rest_of(alloc, stopped, asked.given, asked.said)?))
}

/// The run that a journal names in its last line, where that ends it and has this number.
fn next_run_at(journal: &[u8], line: u64) -> Option<&[u8]> {
    let journal = whole_part(journal);
    let number = u32::try_from(line).ok()?;
    if line_at(journal, number.saturating_add(1)).is_some() {
        return None;
    }
    read_end(line_at(journal, number)?)
}

/// What comes of a run whose core cannot follow this line of its journal.
fn after_line(alloc: Global, journal: &[u8], line: u64) -> Result<After, AllocError>
    ensures { IfOk result IsWithoutTexts }
{
    match next_run_at(journal, line) {
        Some(run) => Ok(After::Ended(Vec::from_slice(alloc, run)?)),
        None => Ok(After::Misfit(line)),
    }
}

/// What comes of the run of a plan.
fn after_planned(
    alloc: Global,
    kept: Kept<'_>,
    planned: &Planned,
    asked: Asked<'_>,
) -> Result<After, AllocError>
    requires counted { planned.now.plan.count ≡ count planned.now.universe planned.now.plan.lanes }
    requires sound { IsSound planned.now.universe planned.now.plan.lanes }
    ensures { IfOk result (OfAfter (IsLedTo planned.now.universe planned.now.plan
        kept.entry.entries.now (items_came asked.entry.said) (items_withdrawn asked.entry.said))) }
{
    let (universe, plan) = (&planned.universe, &planned.plan);
    match follow_journal(alloc, universe, plan, kept.entries, FIRST_ENTRY) {
        Ok(run) => after_life(alloc, kept, &run, asked),
        Err(ReplayFault::Misfit(line)) => after_line(alloc, kept.of.journal, line),
        Err(ReplayFault::Memory) => Err(AllocError),
    }
}

fn refused(alloc: Global, fault: Fault) -> Result<After, AllocError>
    ensures { IfOk result IsWithoutTexts }
{
    match refused_at(alloc, fault) {
        Stop::Refused(lines) => Ok(After::Rest(Rest::Refused(lines))),
        Stop::OutOfMemory => Err(AllocError),
    }
}

/// The line at which a journal is torn before its first entry.
fn torn_at(journal: &[u8]) -> u64 {
    let mut rest = journal;
    let mut number = 1u64;
    while let Some((_, behind)) = cut_at_first(b'\n', rest) {
        rest = behind;
        number = number.saturating_add(1);
    }
    number
}

/// What comes of a run by its entries.
fn after_known(alloc: Global, kept: Kept<'_>, asked: Asked<'_>) -> Result<After, AllocError>
    requires { finding (head_in (texts_view kept.of.texts)) kept.of.journal.now
        ≡ IsKnown kept.run.now (lines_of kept.entries.now) }
    ensures { IfOk result (OfAfter (IsRestAfter (texts_view kept.entry.of.texts)
        kept.entry.of.journal.now (items_came asked.entry.said) (items_withdrawn asked.entry.said))) }
{
    let texts = kept.of.texts;
    match read_texts(alloc, texts.packages, texts.sources, texts.farm, texts.plan) {
        Ok(planned) => after_planned(alloc, kept, &planned, asked),
        Err(fault) => refused(alloc, fault),
    }
}

/// The first fault of texts whose journal does not fit, or that.
fn after_misfit(alloc: Global, texts: Texts<'_>, line: u64) -> Result<After, AllocError>
    ensures { IfOk result IsWithoutTexts }
{
    match read_texts(alloc, texts.packages, texts.sources, texts.farm, texts.plan) {
        Ok(_) => Ok(After::Misfit(line)),
        Err(fault) => refused(alloc, fault),
    }
}

/// Makes the texts of what is left of a run, by the text of its journal.
pub fn rest_after(
    alloc: Global,
    of: Run<'_>,
    given: Given<'_>,
    said: Said<'_>,
) -> Result<After, AllocError>
    ensures { IfOk result (OfAfter (IsRestAfter (texts_view of.entry.texts) of.entry.journal.now
        (items_came said.entry) (items_withdrawn said.entry))) }
{
    let sums = sums_of(alloc, of.texts)?;
    let head = head_of(alloc, &sums)?;
    match find(head.as_slice(), of.journal) {
        Found::Known { run, entries } => {
            let kept = Kept {
                of,
                sums: &sums,
                run,
                entries,
            };
            after_known(alloc, kept, Asked { given, said })
        }
        Found::Misfit(line) => after_misfit(alloc, of.texts, line),
        Found::Fresh => after_misfit(alloc, of.texts, torn_at(of.journal)),
    }
}
