//! An earlier journal, followed from its first entry to its last.

ghost use Rattle.std.specs.Prelude.{◌≡◌, ◌<◌, ◌+◌, ◌^◌, IfErr, IfOk, length};
ghost use Rattle.std.specs.Option.{option_map};
ghost use Rattle.deb_text.specs.Lines.{lines_of};
ghost use Rattle.drive_journal.specs.Entries.{next_run};
ghost use Rattle.drive_replay.specs.Following.{IsFollowed, IsFollowedToEnd, IsMisfit, IsMisfitBeforeEnd, IsReached, end_by, first_life, life_of};
ghost use Rattle.drive_replay.specs.Laws.{IsReplay};
ghost use Rattle.plan_model.specs.Common.{count, IsPlan};

use crate::follow::Follower;
use crate::notes::Notes;
use deb_text::next_line;
use drive_journal::read_end;
use farm_core::Core;
use farm_universe::Universe;
use plan_reader::Plan;
use std::alloc::{AllocError, Global};

/// Why a journal is not followed.
#[derive(Clone, Copy)]
pub enum ReplayFault {
    /// This line of it fits neither the plan nor the lines before it.
    Misfit(u64),
    /// Memory is refused.
    Memory,
}

impl From<AllocError> for ReplayFault {
    ghost use Rattle.drive_replay.specs.declared.journal.ReplayFault.TheVariants.{Memory};

    ghost from_gives = { λ _ fault. fault ≡ Memory };

    fn from(_error: AllocError) -> ReplayFault {
        ReplayFault::Memory
    }
}

/// A follower ahead of the first entry.
fn first_follower<'a>(
    alloc: Global,
    universe: &'a Universe,
    plan: &'a Plan,
) -> Result<Follower<'a>, AllocError>
    requires plan { IsPlan universe.now plan.now.lanes }
    requires counted { plan.now.count ≡ count universe.now plan.now.lanes }
    ensures { IfOk result (λ f. life_of f ≡ first_life universe.now plan.now) }
{
    let core = Core::open(alloc, universe, plan)?;
    let notes = Notes::new(alloc, plan)?;
    Ok(Follower { core, notes })
}

/// Follows entries, one after another.
fn follow_entries<'a>(
    alloc: Global,
    universe: &'a Universe,
    plan: &'a Plan,
    entries: &[u8],
    first: u64,
) -> Result<Follower<'a>, ReplayFault>
    requires plan { IsPlan universe.now plan.now.lanes }
    requires counted { plan.now.count ≡ count universe.now plan.now.lanes }
    requires short { first + length entries.now < 2 ^ 64 }
    ensures followed { IfOk result (λ f. IsFollowed universe.now plan.now first entries.now
        (life_of f)) }
    ensures misfit { IfErr result (IsMisfit universe.now plan.now first entries.now) }
{
    let mut follower = first_follower(alloc, universe, plan)?;
    let mut rest = entries;
    let mut number = first;
    while let Some((line, behind)) = next_line(rest) {
        if follower.follow_line(line).is_none() {
            return Err(ReplayFault::Misfit(number));
        }
        rest = behind;
        number += 1;
    }
    Ok(follower)
}

/// Follows the entries of a journal by the core of a plan, from the first state on. The first of
/// them stands in the line of this number. Gives the core as they leave it, in a state that a run of
/// the plan reaches, and what they note.
///
/// # Errors
///
/// [`ReplayFault::Misfit`] with the first line that is no entry, or that the core cannot follow.
/// [`ReplayFault::Memory`] where memory is refused.
pub fn follow_journal<'a>(
    alloc: Global,
    universe: &'a Universe,
    plan: &'a Plan,
    entries: &[u8],
    first: u64,
) -> Result<Follower<'a>, ReplayFault>
    requires plan { IsPlan universe.now plan.now.lanes }
    requires counted { plan.now.count ≡ count universe.now plan.now.lanes }
    requires short { first + length entries.now < 2 ^ 64 }
    ensures followed { IfOk result (λ f. IsFollowed universe.now plan.now first entries.now
        (life_of f)) }
    ensures misfit { IfErr result (IsMisfit universe.now plan.now first entries.now) }
    ensures reached { IfOk result (λ f. IsReached universe.now plan.now f.core) }
{
    let follower = follow_entries(alloc, universe, plan, entries, first)?;
    Ok(follower)
}

/// A core that has followed a journal, and the run that goes on from there, if the journal names it.
#[derive(Drop)]
pub struct Followed<'a, 't> {
    pub follower: Follower<'a>,
    pub next_run: Option<&'t [u8]>,
}

/// The run that a line names which ends a journal: the last one.
fn end_in<'t>(line: &'t [u8], behind: &[u8]) -> Option<&'t [u8]>
    ensures { option_map (λ run. run.now) result ≡ end_by (lines_of behind.now) line.now }
{
    match next_line(behind) {
        Some(_) => None,
        None => read_end(line),
    }
}

/// Follows entries, one after another, up to the line that ends their journal.
#[tactic(auto, using(crate::proofs::Ends::ends))]
fn follow_lines<'a, 't>(
    alloc: Global,
    universe: &'a Universe,
    plan: &'a Plan,
    entries: &'t [u8],
    first: u64,
) -> Result<Followed<'a, 't>, ReplayFault>
    requires plan { IsPlan universe.now plan.now.lanes }
    requires counted { plan.now.count ≡ count universe.now plan.now.lanes }
    requires short { first + length entries.now < 2 ^ 64 }
    ensures followed { IfOk result (λ f. IsFollowedToEnd universe.now plan.now first entries.now
        (life_of f.follower)) }
    ensures next { IfOk result (λ f. option_map (λ run. run.now) f.next_run
        ≡ next_run (lines_of entries.now)) }
    ensures misfit { IfErr result (IsMisfitBeforeEnd universe.now plan.now first entries.now) }
{
    let mut follower = first_follower(alloc, universe, plan)?;
    let mut rest = entries;
    let mut number = first;
    while let Some((line, behind)) = next_line(rest) {
        let next_run = end_in(line, behind);
        if next_run.is_some() {
            return Ok(Followed { follower, next_run });
        }
        if follower.follow_line(line).is_none() {
            return Err(ReplayFault::Misfit(number));
        }
        rest = behind;
        number += 1;
    }
    let next_run = None;
    Ok(Followed { follower, next_run })
}

/// Follows the entries of a journal as [`follow_journal`] does, but for its last line where that ends
/// it, and gives the run that goes on from there.
///
/// # Errors
///
/// [`ReplayFault::Misfit`] with the first line that is no entry, or that the core cannot follow: a
/// line that ends a journal is none ahead of others. [`ReplayFault::Memory`] where memory is refused.
pub fn follow_to_end<'a, 't>(
    alloc: Global,
    universe: &'a Universe,
    plan: &'a Plan,
    entries: &'t [u8],
    first: u64,
) -> Result<Followed<'a, 't>, ReplayFault>
    requires plan { IsPlan universe.now plan.now.lanes }
    requires counted { plan.now.count ≡ count universe.now plan.now.lanes }
    requires short { first + length entries.now < 2 ^ 64 }
    ensures followed { IfOk result (λ f. IsFollowedToEnd universe.now plan.now first entries.now
        (life_of f.follower)) }
    ensures next { IfOk result (λ f. option_map (λ run. run.now) f.next_run
        ≡ next_run (lines_of entries.now)) }
    ensures misfit { IfErr result (IsMisfitBeforeEnd universe.now plan.now first entries.now) }
    ensures reached { IfOk result (λ f. IsReached universe.now plan.now f.follower.core) }
{
    let followed = follow_lines(alloc, universe, plan, entries, first)?;
    Ok(followed)
}

/// What the entries of a journal note, where the core of a plan can follow them: it is of a run of
/// that core, whose order at the archive decides its picks.
///
/// # Errors
///
/// Those of [`follow_journal`].
pub fn replay(
    alloc: Global,
    universe: &Universe,
    plan: &Plan,
    entries: &[u8],
    first: u64,
) -> Result<Notes, ReplayFault>
    requires plan { IsPlan universe.now plan.now.lanes }
    requires counted { plan.now.count ≡ count universe.now plan.now.lanes }
    requires short { first + length entries.now < 2 ^ 64 }
    ensures followed { IfOk result (IsReplay universe.now plan.now first entries.now) }
    ensures misfit { IfErr result (IsMisfit universe.now plan.now first entries.now) }
{
    Ok(follow_journal(alloc, universe, plan, entries, first)?.notes)
}
