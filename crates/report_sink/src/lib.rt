//! Where texts go: sinks of bytes, and the writing of texts to them.
//!
//! Proved: a sink takes the first bytes of a write, or fails for good; a text is written whole, or
//! a first part of it where the sink has failed, which 601 says exactly. Not proved: what a
//! machine's writer does with the bytes.
#![tactic(auto)]

mod failures;
mod sink;
mod texts;
mod write_sink;

pub use failures::{SinkFailed, WRITE_FAILED, WriteFailed};
pub use sink::{Sink, whether_written};
pub use texts::{write_pieces, write_text};
pub use write_sink::WriteSink;
