//! What a question is answered with: a text, or why there is none.

use deb_relation::RelationError;
use deb_text::Fault;
use deb_version::VersionError;
use std::alloc::{AllocError, AllocFailed, Global};

/// Why a question has no text for an answer.
#[derive(Clone, Copy)]
pub enum Refusal {
    /// A value is refused with this code.
    Code(u16),
    /// A text is refused with this fault.
    Told(Fault),
    /// No layer has such a question.
    NoQuestion,
}

/// An answer.
pub type Answer = Result<Vec<u8>, Refusal>;

impl From<VersionError> for Refusal {
    fn from(error: VersionError) -> Refusal {
        Refusal::Code(error.code)
    }
}

impl From<RelationError> for Refusal {
    fn from(error: RelationError) -> Refusal {
        Refusal::Code(error.code)
    }
}

impl From<Fault> for Refusal {
    fn from(fault: Fault) -> Refusal {
        Refusal::Told(fault)
    }
}

impl From<AllocError> for Refusal {
    fn from(_error: AllocError) -> Refusal {
        Refusal::Told(Fault::MEMORY)
    }
}

impl<T: Drop> From<AllocFailed<T>> for Refusal {
    fn from(_error: AllocFailed<T>) -> Refusal {
        Refusal::Told(Fault::MEMORY)
    }
}

/// A text as the answer.
pub fn text(alloc: Global, text: &[u8]) -> Answer {
    Ok(Vec::from_slice(alloc, text)?)
}

/// A text, or that there is none.
pub fn text_or_none(alloc: Global, found: Option<&[u8]>) -> Answer {
    text(alloc, found.unwrap_or(b"(none)"))
}

/// Two texts, with ` / ` between them.
pub fn two_texts(alloc: Global, first: &[u8], second: &[u8]) -> Answer {
    let mut answer = Vec::from_slice(alloc, first)?;
    answer.extend_from_slice(b" / ")?;
    answer.extend_from_slice(second)?;
    Ok(answer)
}

/// Yes or no.
pub fn yes_or_no(alloc: Global, holds: bool) -> Answer {
    text(alloc, if holds { b"yes" } else { b"no" })
}

/// A number.
pub fn number(alloc: Global, number: u64) -> Answer {
    Ok(format!(in alloc; "{number}")?.into_bytes())
}

/// The text of an answer or of a refusal.
pub fn spelled(alloc: Global, answer: Answer) -> Result<Vec<u8>, AllocError> {
    match answer {
        Ok(text) => Ok(text),
        Err(Refusal::Code(code)) => Ok(format!(in alloc; "refused {code}")?.into_bytes()),
        Err(Refusal::Told(fault)) => Ok(format!(in alloc; "refused: {fault}")?.into_bytes()),
        Err(Refusal::NoQuestion) => Vec::from_slice(alloc, b"no such question"),
    }
}
