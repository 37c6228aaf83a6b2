//! How much the finished packages are.

use cross_index::read_field;
use deb_fields::Paragraph;
use deb_relation::Kind;
use deb_stanza::{MOST_BYTES, Paragraphs};
use deb_text::{next_line, push_pieces};
use farm_universe::limits::MOST_ENTRIES;
use import_farm::{COUNTS, HEAD, ImportedTexts, push_number};
use std::alloc::{AllocError, Global};

const FIELDS: [(&[u8], Kind); 5] = [
    (b"Pre-Depends", Kind::Need),
    (b"Depends", Kind::Need),
    (b"Conflicts", Kind::Clash),
    (b"Breaks", Kind::Clash),
    (b"Provides", Kind::Provide),
];

/// The bytes of the longer one of the texts of packages and of sources, and how many relation
/// entries all packages have.
#[derive(Clone, Copy)]
pub struct Counts {
    pub bytes: usize,
    pub entries: usize,
}

fn entries_of(alloc: Global, paragraph: &Paragraph) -> usize {
    let mut count: usize = 0;
    for (name, kind) in &FIELDS {
        if let Ok(field) = read_field(alloc, *kind, paragraph, *name) {
            count = count.saturating_add(field.len());
        }
    }
    count
}

fn all_entries(alloc: Global, packages: &[u8]) -> usize {
    let Ok(paragraphs) = Paragraphs::read(alloc, packages) else {
        return 0;
    };
    let mut count: usize = 0;
    for at in 0..paragraphs.count() {
        count = count.saturating_add(entries_of(alloc, &Paragraph::new(&paragraphs, at)));
    }
    count
}

/// Counts the texts of a farm.
pub fn counted(alloc: Global, texts: &ImportedTexts) -> Counts {
    let bytes = texts.packages.len().max(texts.sources.len());
    Counts {
        bytes: bytes.saturating_sub(HEAD.len()),
        entries: all_entries(alloc, &texts.packages),
    }
}

/// What is counted anew, its count and its limit.
fn rows(of: Counts) -> [(&'static [u8], usize, usize); 2] {
    [
        (b"bytes of a text", of.bytes, MOST_BYTES),
        (b"relation entries", of.entries, MOST_ENTRIES),
    ]
}

fn push_count(
    text: &mut Vec<u8>,
    row: (&'static [u8], usize, usize),
    ahead: &[u8],
    between: &[u8],
) -> Result<(), AllocError> {
    let (what, count, most) = row;
    text.extend_from_slice(ahead)?;
    text.extend_from_slice(what)?;
    text.extend_from_slice(if ahead.is_empty() { b" " } else { b": " })?;
    push_number(text, count as u64)?;
    text.extend_from_slice(between)?;
    push_number(text, most as u64)?;
    text.extend_from_slice(b"\n")
}

/// The lines of the refusal of what is over a limit, if anything is.
pub fn over_lines(alloc: Global, of: Counts) -> Result<Option<Vec<u8>>, AllocError> {
    let mut lines = Vec::from_slice(alloc, b"refused 710 wish line 0\n")?;
    let mut is_over = false;
    for row in rows(of) {
        if row.1 > row.2 {
            is_over = true;
            push_count(&mut lines, row, b"  ", b", at most ")?;
        }
    }
    Ok(if is_over { Some(lines) } else { None })
}

/// Puts the line on a count behind a text: with the count anew, where it is one of these.
fn push_line(text: &mut Vec<u8>, of: Counts, line: &[u8]) -> Result<(), AllocError> {
    for row in rows(of) {
        if line.starts_with(row.0) {
            return push_count(text, row, b"", b" of ");
        }
    }
    push_pieces(text, &[line, b"\n"])
}

/// Puts the lines on counts behind a text, with which other lines begin, and gives those.
pub fn push_counts<'a>(
    text: &mut Vec<u8>,
    of: Counts,
    lines: &'a [u8],
) -> Result<&'a [u8], AllocError> {
    let mut rest = lines;
    for _ in 0..COUNTS {
        let Some((line, behind)) = next_line(rest) else {
            return Ok(rest);
        };
        push_line(text, of, line)?;
        rest = behind;
    }
    Ok(rest)
}
