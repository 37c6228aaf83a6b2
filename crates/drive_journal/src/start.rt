//! How a run goes on by its journal.

ghost use Rattle.std.specs.Prelude.{◌≡◌, [], IfErr, IfOk, IfSome, length, true};
ghost use Rattle.deb_text.specs.Lines.{lines_of};
ghost use Rattle.drive_journal.specs.HeadText.{IsFresh, IsKnown};
ghost use Rattle.drive_journal.specs.Resuming.{GoesOn, IsBegun, IsBegunInPart, IsLeft, IsNoMisfit, IsRefused, IsResumed, Keeps, taken};

use crate::kept::JournalFile;
use crate::{Found, find, run_line_of, whole_part};
use report_sink::write_pieces;
use std::alloc::{AllocError, Global};
use std::io::ErrorKind;

/// A run that goes on, or begins: its stamp, and the entries of its journal, whole lines.
#[derive(Drop)]
pub struct Resumed {
    pub stamp: Vec<u8>,
    pub entries: Vec<u8>,
}

/// Why no run goes on by a journal.
#[derive(Clone, Copy, PartialEq, Eq)]
pub enum StoreFault {
    /// It cannot be read.
    Unread,
    /// This line of it, the first being 1, is not that of a journal of these texts.
    Misfit(u64),
    /// It cannot be written or cut.
    Failed,
    /// Memory is refused.
    Memory,
}

impl From<AllocError> for StoreFault {
    ghost use Rattle.drive_journal.specs.declared.start.StoreFault.TheVariants.{Memory};

    ghost from_gives = { λ _ fault. fault ≡ Memory };

    fn from(_error: AllocError) -> StoreFault {
        StoreFault::Memory
    }
}

/// Writes the head of a journal and the line of its run behind what it holds, for good.
fn begin<J: JournalFile>(
    alloc: Global,
    journal: &mut J,
    head: &[u8],
    stamp: &[u8],
) -> Result<(), StoreFault>
    ensures begun { IfOk result (λ _. IsBegun head.now stamp.now (J.state journal.old)
        (J.state journal.new)) }
    ensures kept { IfOk result (λ _. J.is_kept journal.new ≡ true) }
    ensures fault { IfErr result IsNoMisfit }
    ensures left { IfErr result (λ _. IsBegunInPart head.now stamp.now (J.state journal.old)
        (J.state journal.new)) }
{
    let line = run_line_of(alloc, stamp)?;
    if write_pieces(journal, &[head, line.as_slice()]).is_err() {
        return Err(StoreFault::Failed);
    }
    if journal.keep() && journal.keep_name() {
        Ok(())
    } else {
        Err(StoreFault::Failed)
    }
}

/// Cuts a journal to so many of the bytes that it holds, for good: what a run that was killed has
/// written is not kept yet.
fn cut_to<J: JournalFile>(journal: &mut J, held: usize, count: usize) -> Result<(), StoreFault>
    requires { IfSome (J.state journal.old).contents (λ bytes. length bytes ≡ held) }
    ensures cut { IfOk result (λ _. (J.state journal.new).contents
        ≡ taken count (J.state journal.old).contents) }
    ensures kept { IfOk result (λ _. J.is_kept journal.new ≡ true) }
    ensures fault { IfErr result IsNoMisfit }
    ensures left { IfErr result (λ _. IsLeft (J.state journal.old) (J.state journal.new) count) }
{
    let is_done = if count == held {
        journal.keep()
    } else {
        journal.cut(count)
    };
    if is_done {
        Ok(())
    } else {
        Err(StoreFault::Failed)
    }
}

/// Begins a run in a journal of which nothing counts.
fn begin_anew<J: JournalFile>(
    alloc: Global,
    journal: &mut J,
    text: &[u8],
    head: &[u8],
    stamp: &[u8],
) -> Result<Resumed, StoreFault>
    requires { IfSome (J.state journal.old).contents (λ bytes. bytes ≡ text.now) }
    ensures begun { IfOk result (λ run. IfSome (J.state journal.old).contents (λ _.
        GoesOn head.now stamp.now text.now IsFresh (J.state journal.new).contents run)) }
    ensures kept { IfOk result (λ _. J.is_kept journal.new ≡ true) }
    ensures fault { IfErr result IsNoMisfit }
    ensures left { IfErr result (λ _. IfSome (J.state journal.old).contents (λ _.
        Keeps head.now stamp.now text.now IsFresh (J.state journal.new).contents)) }
{
    let run = Resumed {
        stamp: Vec::from_slice(alloc, stamp)?,
        entries: Vec::new(alloc),
    };
    cut_to(journal, text.len(), 0)?;
    begin(alloc, journal, head, stamp)?;
    Ok(run)
}

/// Goes on by a journal of these entries, of which a torn last line is cut off.
#[tactic(auto, using(crate::proofs::Cutting::whole_taken))]
fn go_on<J: JournalFile>(
    alloc: Global,
    journal: &mut J,
    text: &[u8],
    run: &[u8],
    entries: &[u8],
) -> Result<Resumed, StoreFault>
    requires { IfSome (J.state journal.old).contents (λ bytes. bytes ≡ text.now) }
    ensures goes { IfOk result (λ r. IfSome (J.state journal.old).contents (λ _.
        GoesOn [] [] text.now (IsKnown run.now (lines_of entries.now)) (J.state journal.new).contents
        r)) }
    ensures kept { IfOk result (λ _. J.is_kept journal.new ≡ true) }
    ensures fault { IfErr result IsNoMisfit }
    ensures left { IfErr result (λ _. IfSome (J.state journal.old).contents (λ _.
        Keeps [] [] text.now (IsKnown run.now (lines_of entries.now))
        (J.state journal.new).contents)) }
{
    let resumed = Resumed {
        stamp: Vec::from_slice(alloc, run)?,
        entries: Vec::from_slice(alloc, entries)?,
    };
    cut_to(journal, text.len(), whole_part(text).len())?;
    Ok(resumed)
}

/// Goes on by a journal that holds this text.
fn resume_text<J: JournalFile>(
    alloc: Global,
    journal: &mut J,
    text: &[u8],
    head: &[u8],
    stamp: &[u8],
) -> Result<Resumed, StoreFault>
    requires { IfSome (J.state journal.old).contents (λ bytes. bytes ≡ text.now) }
    ensures resumed { IfOk result (IsResumed head.now stamp.now (J.state journal.old)
        (J.state journal.new)) }
    ensures kept { IfOk result (λ _. J.is_kept journal.new ≡ true) }
    ensures refused { IfErr result (IsRefused head.now stamp.now (J.state journal.old)
        (J.state journal.new)) }
{
    match find(head, text) {
        Found::Fresh => begin_anew(alloc, journal, text, head, stamp),
        Found::Known { run, entries } => go_on(alloc, journal, text, run, entries),
        Found::Misfit(line) => Err(StoreFault::Misfit(line)),
    }
}

/// Goes on by the journal of a run whose journals have this head; where nothing was asked yet, it
/// is begun anew under this stamp. A last line that was torn, of which nobody was told, is cut off.
///
/// # Errors
///
/// [`StoreFault::Misfit`] where the journal is of other texts, or none: it is left as it is then.
/// [`StoreFault::Unread`] where it cannot be read, [`StoreFault::Failed`] where it cannot be
/// written or cut, and [`StoreFault::Memory`] where memory is refused: a journal of these texts
/// still has its whole lines.
pub fn resume<J: JournalFile>(
    alloc: Global,
    journal: &mut J,
    head: &[u8],
    stamp: &[u8],
) -> Result<Resumed, StoreFault>
    ensures resumed { IfOk result (IsResumed head.now stamp.now (J.state journal.old)
        (J.state journal.new)) }
    ensures kept { IfOk result (λ _. J.is_kept journal.new ≡ true) }
    ensures refused { IfErr result (IsRefused head.now stamp.now (J.state journal.old)
        (J.state journal.new)) }
{
    match journal.read(alloc) {
        Ok(text) => resume_text(alloc, journal, text.as_slice(), head, stamp),
        Err(error) if error.kind() == ErrorKind::OutOfMemory => Err(StoreFault::Memory),
        Err(_) => Err(StoreFault::Unread),
    }
}
