//! The journal of a drive: its head and its entries, where it is kept, and how a run goes on by it.
//!
//! Proved: the line of an entry (`noted_text`), and what a line says (`noted_of`); those of no lane,
//! which tell a time or end a journal (`time_text`, `time_of`; `end_text`, `next_of`); a line that
//! was written is read again (`write_entry`, `write_time`, `write_end`), and the whole lines of a
//! text that was cut off anywhere are the first of its whole lines (`whole_part`). The head, with the SHA-256 of the four texts
//! (`head_of`), the line and the name of its run (`run_line_of`, `run_name_of`), and whether a text
//! begins with that head or at which line it does not (`find`). Of a journal whose bytes are known:
//! where nothing was asked it is begun anew, one of these texts is left with its whole lines, also
//! where memory, a write or a cut fails, and any other is left as it is; where a run goes on, what
//! the journal holds is kept for good (`resume`). Not proved: what a machine's file keeps.
#![tactic(auto)]

mod begun;
mod entry;
mod head;
mod kept;
mod read;
mod start;
mod unlaned;
mod whole;

pub use begun::{Found, find};
pub use entry::{Entry, Said, write_entry};
pub use head::{Sums, Texts, head_of, run_line_of, run_name_of, stamp_of};
pub use kept::{Journal, JournalFile, OpenFault, Unkept};
pub use read::read_entry;
pub use start::{Resumed, StoreFault, resume};
pub use unlaned::{read_end, read_time, write_end, write_time};
pub use whole::whole_part;
