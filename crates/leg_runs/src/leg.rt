//! A leg of a chain: a run over texts of its own, as far as its journal leads.

ghost use Rattle.std.specs.Prelude.{◌≡◌, codes, IfOk, Ok};
ghost use Rattle.std.specs.Option.{option_map};
ghost use Rattle.deb_stanza.specs.Stanza.{paragraphs_at};
ghost use Rattle.deb_text.specs.Lines.{lines_of};
ghost use Rattle.drive_journal.specs.HeadText.{IsKnown, finding, head_text};
ghost use Rattle.leg_runs.specs.Legs.{head_value, paragraphs_in, sums_in};
ghost use Rattle.leg_runs.specs.Reads.{IsPlanned, IsRead, IsSaid, text_of};
ghost use Rattle.plan_model.specs.Common.{count, IsSound};
ghost use Rattle.plan_reader.specs.Planned.{planned_of};
ghost use Rattle.plan_reader.specs.TextsView.{texts_view};
ghost use Rattle.leg_runs.specs.Listed.{listed_items};

use crate::fields;
use crate::fields::{read_farm, text_fault};
use crate::listed::listed;
use crate::sum::journal_sum;
use deb_stanza::Paragraphs;
use deb_text::{Fault, cut_at_first};
use drive_journal::{Found, Sums, Texts as JournalTexts, find, head_of, run_name_of};
use drive_replay::{Follower, ReplayFault, follow_to_end};
use plan_reader::{Planned, Texts, read_texts};
use rest_farm::Items;
use std::alloc::{AllocError, Global};

/// The line of a journal in which its first entry stands: five lines of its head and one of the run
/// are ahead of it.
pub const FIRST_ENTRY: u64 = 7;

/// The four texts of a leg, and the text of its journal.
#[derive(Clone, Copy)]
pub struct LegTexts<'a> {
    pub texts: Texts<'a>,
    pub journal: &'a [u8],
}

/// Why a leg is not read.
#[derive(Clone, Copy)]
pub enum LegFault {
    /// The first fault of its texts.
    Text(Fault),
    /// This line of its journal is of other texts, or fits neither the plan nor the lines before it.
    Misfit(u64),
    /// Its journal breaks off at this line, ahead of the run's name or at it.
    Torn(u64),
    /// Memory is refused.
    Memory,
}

impl From<AllocError> for LegFault {
    fn from(_error: AllocError) -> LegFault {
        LegFault::Memory
    }
}

/// What the texts of a leg say, beside its farm and its plan: the name of its run, the digest of the
/// lines of its journal, the paragraphs of its farm text, and what that withdraws.
#[derive(Drop)]
pub struct Said {
    pub name: Vec<u8>,
    pub sum: String,
    pub farm: Paragraphs,
    pub gone: Items,
}

/// A leg that is read: its core, as its journal leads to it, and the run that goes on from there, if
/// the journal names it.
#[derive(Drop)]
pub struct Leg<'a> {
    pub follower: Follower<'a>,
    pub next_run: Option<&'a [u8]>,
    pub said: Said,
}

impl Leg<'_> {
    /// The value of a field of the first paragraph of its farm text, if it is there.
    pub fn field(&self, name: &[u8]) -> Option<&[u8]>
        ensures { option_map (λ value. value.now) result
            ≡ head_value self.now.said.farm name.now }
    {
        fields::head_value(&self.said.farm, name)
    }
}

/// A journal as it was found, and the digests of its texts.
#[derive(Clone, Copy)]
struct Kept<'k, 'a> {
    of: LegTexts<'a>,
    sums: &'k Sums,
    stamp: &'a [u8],
    entries: &'a [u8],
}

/// Reads the farm and the plan of four texts.
///
/// # Errors
///
/// [`LegFault::Text`] and [`LegFault::Memory`].
pub fn planned_of(alloc: Global, texts: Texts<'_>) -> Result<Planned, LegFault>
    ensures { IfOk result (IsPlanned (texts_view texts.entry)) }
{
    match read_texts(alloc, texts.packages, texts.sources, texts.farm, texts.plan) {
        Ok(planned) => Ok(planned),
        Err(fault) => Err(text_fault(fault)),
    }
}

fn sums_of(alloc: Global, texts: Texts<'_>) -> Result<Sums, AllocError>
    ensures { IfOk result (λ sums. sums ≡ sums_in (texts_view texts.entry)) }
{
    Sums::of(
        alloc,
        JournalTexts {
            packages: texts.packages,
            sources: texts.sources,
            farm: texts.farm,
            plan: texts.plan,
        },
    )
}

fn gone_of(alloc: Global, farm: &Paragraphs) -> Result<Items, AllocError>
    ensures { IfOk result (λ gone. gone
        ≡ listed_items (head_value farm.now (codes "Withdrawn"))) }
{
    let items = listed(alloc, fields::head_value(farm, b"Withdrawn"))?;
    Items::of(alloc, items)
}

/// What texts say whose farm text has these paragraphs.
fn said_by(alloc: Global, kept: Kept<'_, '_>, farm: Paragraphs) -> Result<Said, AllocError>
    requires sums { kept.sums.now ≡ sums_in (texts_view kept.of.texts) }
    requires farm { farm ≡ paragraphs_in (paragraphs_at kept.of.texts.farm.now) }
    ensures { IfOk result (IsSaid (text_of kept.entry.of) kept.entry.stamp.now) }
{
    let name = run_name_of(alloc, kept.sums, kept.stamp)?;
    let sum = journal_sum(alloc, kept.of.journal)?;
    let gone = gone_of(alloc, &farm)?;
    Ok(Said {
        name,
        sum,
        farm,
        gone,
    })
}

fn said_of(alloc: Global, kept: Kept<'_, '_>) -> Result<Said, LegFault>
    requires sums { kept.sums.now ≡ sums_in (texts_view kept.of.texts) }
    ensures { IfOk result (IsSaid (text_of kept.entry.of) kept.entry.stamp.now) }
{
    let farm = read_farm(alloc, kept.of.texts.farm)?;
    Ok(said_by(alloc, kept, farm)?)
}

/// Follows the entries of a journal.
fn follow<'a>(
    alloc: Global,
    kept: Kept<'_, 'a>,
    planned: &'a Planned,
    said: Said,
) -> Result<Leg<'a>, LegFault>
    requires read { planned_of kept.of.texts.packages.now kept.of.texts.sources.now
        kept.of.texts.farm.now kept.of.texts.plan.now
        ≡ Ok (record { universe = planned.now.universe; plan = planned.now.plan.lanes }) }
    requires counted { planned.now.plan.count ≡ count planned.now.universe planned.now.plan.lanes }
    requires sound { IsSound planned.now.universe planned.now.plan.lanes }
    requires found { finding (head_text (sums_in (texts_view kept.of.texts))) kept.of.journal.now
        ≡ IsKnown kept.stamp.now (lines_of kept.entries.now) }
    requires said { IsSaid (text_of kept.of) kept.stamp.now said }
    ensures { IfOk result (IsRead (text_of kept.entry.of)) }
{
    let (universe, plan) = (&planned.universe, &planned.plan);
    match follow_to_end(alloc, universe, plan, kept.entries, FIRST_ENTRY) {
        Ok(run) => Ok(Leg {
            follower: run.follower,
            next_run: run.next_run,
            said,
        }),
        Err(ReplayFault::Misfit(line)) => Err(LegFault::Misfit(line)),
        Err(ReplayFault::Memory) => Err(LegFault::Memory),
    }
}

fn known_leg<'a>(
    alloc: Global,
    kept: Kept<'_, 'a>,
    planned: &'a Planned,
) -> Result<Leg<'a>, LegFault>
    requires planned { IsPlanned (texts_view kept.of.texts) planned.now }
    requires sums { kept.sums.now ≡ sums_in (texts_view kept.of.texts) }
    requires found { finding (head_text (sums_in (texts_view kept.of.texts))) kept.of.journal.now
        ≡ IsKnown kept.stamp.now (lines_of kept.entries.now) }
    ensures { IfOk result (IsRead (text_of kept.entry.of)) }
{
    match said_of(alloc, kept) {
        Ok(said) => follow(alloc, kept, planned, said),
        Err(fault) => Err(fault),
    }
}

/// The line at which a journal breaks off ahead of its first entry.
fn torn_at(journal: &[u8]) -> u64 {
    let mut rest = journal;
    let mut number = 1u64;
    while let Some((_, behind)) = cut_at_first(b'\n', rest) {
        rest = behind;
        number = number.saturating_add(1);
    }
    number
}

/// Reads a leg whose farm and plan are read: its journal is followed to its end.
///
/// # Errors
///
/// [`LegFault`], in the order of the lines of the journal.
pub fn read_leg<'a>(
    alloc: Global,
    of: LegTexts<'a>,
    planned: &'a Planned,
) -> Result<Leg<'a>, LegFault>
    requires { IsPlanned (texts_view of.texts) planned.now }
    ensures { IfOk result (IsRead (text_of of.entry)) }
{
    let sums = sums_of(alloc, of.texts)?;
    let head = head_of(alloc, &sums)?;
    match find(head.as_slice(), of.journal) {
        Found::Known { run, entries } => {
            let kept = Kept {
                of,
                sums: &sums,
                stamp: run,
                entries,
            };
            known_leg(alloc, kept, planned)
        }
        Found::Misfit(line) => Err(LegFault::Misfit(line)),
        Found::Fresh => Err(LegFault::Torn(torn_at(of.journal))),
    }
}
