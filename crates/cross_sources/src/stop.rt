//! Why a source is refused, as it is told.

use crate::given::name_of;
use cross_index::{IndexStop, Refusal, TAKEN_NAME, read_field};
use cross_relations::{Sides, is_taken};
use deb_fields::Paragraph;
use deb_relation::{Entry, Kind, RelationError, Relations};
use deb_text::MEMORY;
use std::alloc::{AllocError, Global};

const FIELDS: [(&[u8], Kind); 6] = [
    (b"Build-Depends", Kind::BuildNeed),
    (b"Build-Depends-Arch", Kind::BuildNeed),
    (b"Build-Depends-Indep", Kind::BuildNeed),
    (b"Build-Conflicts", Kind::BuildClash),
    (b"Build-Conflicts-Arch", Kind::BuildClash),
    (b"Build-Conflicts-Indep", Kind::BuildClash),
];

fn first_in_entry<'a>(sides: &Sides, entry: &'a Entry) -> Option<&'a [u8]> {
    for atom in entry.alternatives() {
        if is_taken(sides, atom.name()) {
            return Some(atom.name());
        }
    }
    None
}

/// The first name in entries that is taken.
pub fn first_taken<'a>(sides: &Sides, field: &'a Relations) -> Option<&'a [u8]> {
    for entry in field.entries() {
        if let Some(name) = first_in_entry(sides, entry) {
            return Some(name);
        }
    }
    None
}

/// The first name in the build relations of a paragraph that is taken, or else its own.
fn taken_name(alloc: Global, sides: &Sides, paragraph: &Paragraph) -> Result<Vec<u8>, AllocError> {
    if is_taken(sides, name_of(paragraph)) {
        return Vec::from_slice(alloc, name_of(paragraph));
    }
    for (name, kind) in &FIELDS {
        if let Ok(field) = read_field(alloc, *kind, paragraph, *name) {
            if let Some(taken) = first_taken(sides, &field) {
                return Vec::from_slice(alloc, taken);
            }
        }
    }
    Ok(Vec::new(alloc))
}

/// What is said of a name that is taken.
pub fn about_taken(alloc: Global, name: &[u8]) -> Result<Vec<u8>, AllocError> {
    let mut about = Vec::from_slice(alloc, name)?;
    about.extend_from_slice(b" has the form of an encoded name")?;
    Ok(about)
}

fn about(
    alloc: Global,
    sides: &Sides,
    paragraph: &Paragraph,
    code: u16,
) -> Result<Vec<u8>, AllocError> {
    if code != TAKEN_NAME {
        return Ok(Vec::new(alloc));
    }
    about_taken(alloc, &taken_name(alloc, sides, paragraph)?)
}

/// The stop at an error of the paragraph of a source.
pub fn source_stop(
    alloc: Global,
    sides: &Sides,
    paragraph: &Paragraph,
    error: RelationError,
) -> IndexStop {
    if error.code == MEMORY {
        return IndexStop::OutOfMemory;
    }
    match about(alloc, sides, paragraph, error.code) {
        Ok(about) => IndexStop::Refused(Refusal {
            line: paragraph.line(),
            code: error.code,
            about,
        }),
        Err(_) => IndexStop::OutOfMemory,
    }
}
