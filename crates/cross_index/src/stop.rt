//! Why an index is not encoded.

use crate::error::TAKEN_NAME;
use crate::judge::Unlike;
use crate::reading::read_field;
use cross_relations::{Sides, is_taken};
use deb_fields::{ABSENT, BAD_VALUE, Paragraph, or_text};
use deb_relation::{Entry, Kind, RelationError, Relations};
use deb_stanza::Fault;
use deb_text::{Class, MEMORY, next_part, skip_front, split_front};
use std::alloc::{AllocError, AllocFailed, Global};

/// A refusal of an index: its line, its code, and what is said of the item at fault, if anything is.
#[derive(Drop)]
pub struct Refusal {
    pub line: u32,
    pub code: u16,
    pub about: Vec<u8>,
}

/// Why an index is not encoded.
#[derive(Drop)]
pub enum IndexStop {
    /// Memory was refused.
    OutOfMemory,
    /// The index is refused.
    Refused(Refusal),
    /// The paragraph of a package that was written, of the one at this line, is not read as that
    /// package: an error of this program.
    Unlike(u32),
}

impl IndexStop {
    /// The stop of a part of a text, with so many lines above it.
    pub fn below(self, lines: u32) -> IndexStop {
        match self {
            IndexStop::OutOfMemory => IndexStop::OutOfMemory,
            IndexStop::Refused(refusal) => IndexStop::Refused(Refusal {
                line: refusal.line.saturating_add(lines),
                code: refusal.code,
                about: refusal.about,
            }),
            IndexStop::Unlike(line) => IndexStop::Unlike(line.saturating_add(lines)),
        }
    }
}

impl From<AllocError> for IndexStop {
    fn from(_error: AllocError) -> IndexStop {
        IndexStop::OutOfMemory
    }
}

impl<T: Drop> From<AllocFailed<T>> for IndexStop {
    fn from(_error: AllocFailed<T>) -> IndexStop {
        IndexStop::OutOfMemory
    }
}

/// The stop at a fault of the form of a text.
pub fn stop_at(alloc: Global, fault: Fault) -> IndexStop {
    if fault == Fault::MEMORY {
        return IndexStop::OutOfMemory;
    }
    IndexStop::Refused(Refusal {
        line: fault.line,
        code: fault.code,
        about: Vec::new(alloc),
    })
}

fn first_in_entry<'a>(sides: &Sides, entry: &'a Entry) -> Option<&'a [u8]> {
    for atom in entry.alternatives() {
        if is_taken(sides, atom.name()) {
            return Some(atom.name());
        }
    }
    None
}

fn first_in_field<'a>(sides: &Sides, field: &'a Relations) -> Option<&'a [u8]> {
    for entry in field.entries() {
        if let Some(name) = first_in_entry(sides, entry) {
            return Some(name);
        }
    }
    None
}

/// The first name in a field of relations that is taken, if there is one.
fn taken_in_field(
    alloc: Global,
    sides: &Sides,
    kind: Kind,
    paragraph: &Paragraph,
    name: &[u8],
) -> Result<Option<Vec<u8>>, AllocError> {
    let Ok(field) = read_field(alloc, kind, paragraph, name) else {
        return Ok(None);
    };
    match first_in_field(sides, &field) {
        Some(taken) => Ok(Some(Vec::from_slice(alloc, taken)?)),
        None => Ok(None),
    }
}

const RELATIONS: [(&[u8], Kind); 5] = [
    (b"Pre-Depends", Kind::Need),
    (b"Depends", Kind::Need),
    (b"Conflicts", Kind::Clash),
    (b"Breaks", Kind::Clash),
    (b"Provides", Kind::Provide),
];

/// The first name in the relations of a paragraph that is taken.
fn taken_in_relations(
    alloc: Global,
    sides: &Sides,
    paragraph: &Paragraph,
) -> Result<Vec<u8>, AllocError> {
    for (name, kind) in &RELATIONS {
        if let Some(taken) = taken_in_field(alloc, sides, *kind, paragraph, *name)? {
            return Ok(taken);
        }
    }
    Ok(Vec::new(alloc))
}

fn leading(text: &[u8]) -> &[u8] {
    split_front(Class::Name, skip_front(Class::Blank, text)).0
}

/// The first item of a list whose name is taken, by that name.
fn taken_item<'a>(sides: &Sides, value: &'a [u8]) -> Option<&'a [u8]> {
    let mut left = Some(value);
    while let Some(rest) = left {
        let (item, after) = next_part(b',', rest);
        let name = leading(item);
        if is_taken(sides, name) {
            return Some(name);
        }
        left = after;
    }
    None
}

/// The first name of a paragraph that is taken: its own, that of its source, one that it provides
/// or one in its relations.
fn first_taken(
    alloc: Global,
    sides: &Sides,
    paragraph: &Paragraph,
    name: &[u8],
) -> Result<Vec<u8>, AllocError> {
    if is_taken(sides, name) {
        return Vec::from_slice(alloc, name);
    }
    let source = leading(or_text(paragraph.field(b"Source"), b""));
    if is_taken(sides, source) {
        return Vec::from_slice(alloc, source);
    }
    match taken_item(sides, or_text(paragraph.field(b"Provides"), b"")) {
        Some(item) => Vec::from_slice(alloc, item),
        None => taken_in_relations(alloc, sides, paragraph),
    }
}

/// Tells whether a value of Multi-Arch is refused, with this Architecture.
fn is_refused(multi_arch: &[u8], architecture: &[u8]) -> bool {
    if multi_arch == b"same".as_slice() {
        return architecture == b"all".as_slice();
    }
    multi_arch != b"no".as_slice()
        && multi_arch != b"foreign".as_slice()
        && multi_arch != b"allowed".as_slice()
}

/// Puts what is said of a bad value of Multi-Arch behind the name of a binary, or nothing in its
/// place where the value is well.
fn about_value(alloc: Global, paragraph: &Paragraph, name: &[u8]) -> Result<Vec<u8>, AllocError> {
    let value = or_text(paragraph.field(b"Multi-Arch"), b"no");
    let architecture = or_text(paragraph.field(b"Architecture"), b"");
    if !is_refused(value, architecture) {
        return Ok(Vec::new(alloc));
    }
    let mut about = Vec::from_slice(alloc, name)?;
    about.extend_from_slice(b" has Multi-Arch: ")?;
    about.extend_from_slice(value)?;
    if value == b"same".as_slice() {
        about.extend_from_slice(b" and Architecture: all")?;
    }
    Ok(about)
}

/// What is said of an absent field of a package of this name.
fn about_absent(alloc: Global, paragraph: &Paragraph, name: &[u8]) -> Result<Vec<u8>, AllocError> {
    if paragraph.field(b"Architecture").is_some() {
        return Ok(Vec::new(alloc));
    }
    let mut about = Vec::from_slice(alloc, name)?;
    about.extend_from_slice(b" has no Architecture")?;
    Ok(about)
}

/// What is said of the item of a paragraph at which it is refused with a code.
fn about(
    alloc: Global,
    sides: &Sides,
    paragraph: &Paragraph,
    code: u16,
) -> Result<Vec<u8>, AllocError> {
    let name = or_text(paragraph.field(b"Package"), b"");
    if code == TAKEN_NAME {
        let mut about = first_taken(alloc, sides, paragraph, name)?;
        about.extend_from_slice(b" has the form of an encoded name")?;
        return Ok(about);
    }
    if code == ABSENT {
        return about_absent(alloc, paragraph, name);
    }
    if code == BAD_VALUE {
        return about_value(alloc, paragraph, name);
    }
    Ok(Vec::new(alloc))
}

/// The stop where what was written of the paragraph at this line is not taken.
pub fn stop_unlike(unlike: Unlike, line: u32) -> IndexStop {
    match unlike {
        Unlike::OutOfMemory => IndexStop::OutOfMemory,
        Unlike::Differs => IndexStop::Unlike(line),
    }
}

/// The stop at an error of a paragraph, of which nothing more is said.
pub fn plain_stop(alloc: Global, paragraph: &Paragraph, error: RelationError) -> IndexStop {
    if error.code == MEMORY {
        return IndexStop::OutOfMemory;
    }
    IndexStop::Refused(Refusal {
        line: paragraph.line(),
        code: error.code,
        about: Vec::new(alloc),
    })
}

/// The stop at an error of a paragraph.
pub fn stop_of(
    alloc: Global,
    sides: &Sides,
    paragraph: &Paragraph,
    error: RelationError,
) -> IndexStop {
    if error.code == MEMORY {
        return IndexStop::OutOfMemory;
    }
    match about(alloc, sides, paragraph, error.code) {
        Ok(about) => IndexStop::Refused(Refusal {
            line: paragraph.line(),
            code: error.code,
            about,
        }),
        Err(_) => IndexStop::OutOfMemory,
    }
}
