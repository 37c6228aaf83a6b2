//! Packages indexes of two architectures, encoded in the names of one, for cross builds: texts go in,
//! and encoded texts come out, which an import reads as they stand.
//!
//! How paragraphs are put together need not be believed: each is read again by itself, and held
//! against the given one. Proved, memory apart: `encode_packages` gives a text only where each
//! paragraph is so read as the package, encoded (`IsEncodedIndex`), `finish_packages` only where each
//! says what its package excludes among all (`IsFinished`), and `encode_entries` likewise; which
//! paragraphs are kept, or the first fault of one (`kept_at`). Not proved: that a text is encoded
//! rather than refused as `Unlike`, what is said of a refused item, and that the reader cuts the whole
//! text where the paragraphs end. Cases hold these.
#![tactic(auto)]

mod encoded_package;
mod entries;
mod error;
mod finish;
mod given;
mod index;
mod judge;
mod piece;
mod reading;
mod rows;
mod stop;

pub use entries::{EntriesStop, encode_entries};
pub use error::TAKEN_NAME;
pub use finish::finish_packages;
pub use given::read_all;
pub use index::{EncodedIndex, encode_packages};
pub use judge::{Unlike, judge_closed, judge_count, judge_field, judge_says, judge_value, unread};
pub use reading::{has_taken, read_field, read_kept};
pub use stop::{IndexStop, Refusal, plain_stop, stop_at, stop_unlike};
