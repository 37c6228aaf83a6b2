//! Questions about the control data in the text above them.

use crate::answer::{Answer, Refusal, number, text_or_none};
use crate::texts;
use case_files::TableRow;
use deb_stanza::{Paragraphs, plain_lines};
use deb_text::read_number;
use std::alloc::Global;

/// Answers `paragraphs`, `line_of PARAGRAPH`, `value PARAGRAPH NAME`, `plain_lines` and
/// `plain_line PLACE`. Paragraphs and places count from 0.
pub fn answer(alloc: Global, row: TableRow) -> Answer {
    match row.question {
        "paragraphs" => paragraphs(alloc, row.text),
        "plain_lines" => count_of_lines(alloc, row.text),
        "line_of" => line_of(alloc, row.text, place_of(row.arg(0))?),
        "plain_line" => plain_line(alloc, row.text, place_of(row.arg(0))?),
        "value" => value(alloc, row.text, place_of(row.arg(0))?, row.arg(1)),
        _ => texts::answer(alloc, row),
    }
}

fn place_of(word: &[u8]) -> Result<usize, Refusal> {
    match read_number(word) {
        Some(place) => Ok(place as usize),
        None => Err(Refusal::NoQuestion),
    }
}

fn paragraphs(alloc: Global, text: &[u8]) -> Answer {
    number(alloc, Paragraphs::read(alloc, text)?.count() as u64)
}

fn count_of_lines(alloc: Global, text: &[u8]) -> Answer {
    number(alloc, plain_lines(alloc, text)?.count() as u64)
}

fn line_of(alloc: Global, text: &[u8], place: usize) -> Answer {
    let paragraphs = Paragraphs::read(alloc, text)?;
    if place >= paragraphs.count() {
        return text_or_none(alloc, None);
    }
    number(alloc, u64::from(paragraphs.line_of(place)))
}

fn value(alloc: Global, text: &[u8], place: usize, name: &[u8]) -> Answer {
    let paragraphs = Paragraphs::read(alloc, text)?;
    if place >= paragraphs.count() {
        return text_or_none(alloc, None);
    }
    text_or_none(alloc, paragraphs.field(place, name))
}

/// The number of a line, and the line itself.
fn plain_line(alloc: Global, text: &[u8], place: usize) -> Answer {
    let lines = plain_lines(alloc, text)?;
    if place >= lines.count() {
        return text_or_none(alloc, None);
    }
    numbered(alloc, lines.number(place), lines.line(place))
}

fn numbered(alloc: Global, place: u32, line: &[u8]) -> Answer {
    let mut answer = format!(in alloc; "{place}:")?.into_bytes();
    answer.extend_from_slice(line)?;
    Ok(answer)
}
