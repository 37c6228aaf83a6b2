//! What no command answers: how standard input is cut into texts, and how a certificate that was
//! read is printed.

use crate::machine::Parts;
use cert_text::{print, read};
use plan_reader::{Planned, read_texts, texts_of};
use std::alloc::{AllocError, Global};

fn push_text(text: &mut String, word: &str, bytes: &[u8]) -> Result<(), AllocError> {
    writeln!(text, "{word} \"{}\"", bytes.escape_ascii())
}

/// The four texts that an input is cut into, each in a line of its own.
pub fn divided_text(alloc: Global, input: &[u8]) -> Result<Vec<u8>, AllocError> {
    let texts = texts_of(input);
    let mut text = String::new(alloc);
    push_text(&mut text, "packages", texts.packages)?;
    push_text(&mut text, "sources", texts.sources)?;
    push_text(&mut text, "farm", texts.farm)?;
    push_text(&mut text, "plan", texts.plan)?;
    Ok(text.into_bytes())
}

/// The certificate of a text as it is printed, or the message of its fault.
fn certificate_text(alloc: Global, planned: &Planned, text: &[u8]) -> Result<Vec<u8>, AllocError> {
    let Planned { universe, plan } = planned;
    match read(alloc, universe, plan, text) {
        Ok(certificate) => print(alloc, universe, plan, &certificate),
        Err(fault) => Ok(format!(in alloc; "{fault}\n")?.into_bytes()),
    }
}

/// The certificate of the file `cert` as it is printed, or the message of the first fault.
pub fn printed_text(alloc: Global, parts: &Parts<'_>) -> Result<Vec<u8>, AllocError> {
    let read = read_texts(
        alloc,
        parts.text(b"packages"),
        parts.text(b"sources"),
        parts.text(b"farm"),
        parts.text(b"plan"),
    );
    match read {
        Ok(planned) => certificate_text(alloc, &planned, parts.text(b"cert")),
        Err(fault) => Ok(format!(in alloc; "{fault}\n")?.into_bytes()),
    }
}
