//! Entries that are kept for good.

ghost use Rattle.std.specs.Prelude.{◌≡◌, not};
ghost use Rattle.drive_journal.specs.Entries.{noted_text};
ghost use Rattle.drive_journal.specs.Said.{noted_in};
ghost use Rattle.drive_run.specs.Replies.{may_lose};
ghost use Rattle.report_sink.specs.Sinks.{IsWritten};

use drive_journal::{Entry, Journal, write_entry};

/// Writes an entry to a journal, and tells whether all that this has taken stays.
pub fn keep_entry<J: Journal>(journal: &mut J, entry: Entry<'_>) -> bool
    ensures written { IsWritten (J.state journal.old) (J.state journal.new)
        (noted_text (noted_in entry.entry)) }
    ensures told { may_lose (J.state journal.new) (J.is_kept journal.new) ≡ not result }
{
    if write_entry(journal, entry).is_err() {
        return false;
    }
    journal.keep()
}
