//! The paragraph of a source, as it is written.

use crate::given::BuildRelations;
use cross_relations::push_field;
use deb_relation::Relations;
use deb_text::{Class, begins_with, cut_at_first, is_comment, next_line};
use std::alloc::{AllocError, Global};

/// What is written of a source in place of the given values: its encoded name, the rows of its
/// Package-List, and its build relations.
#[derive(Drop)]
pub struct Anew {
    pub name: Vec<u8>,
    pub list: Vec<u8>,
    pub relations: BuildRelations,
}

/// How far a paragraph is written: whether the field under way is copied, and whether it has had a
/// field Build-Depends.
#[derive(Clone, Copy)]
struct At {
    is_copied: bool,
    has_depends: bool,
}

fn is_same_name(a: &[u8], b: &[u8]) -> bool {
    a.eq_ignore_ascii_case(b)
}

/// The name under which a field is copied as it stands, if it is.
fn copied_name(name: &[u8]) -> Option<&'static [u8]> {
    if is_same_name(name, b"Version") {
        return Some(b"Version");
    }
    if is_same_name(name, b"Files") {
        return Some(b"Files");
    }
    if is_same_name(name, b"Checksums-Sha256") {
        return Some(b"Checksums-Sha256");
    }
    None
}

/// The build relations of a field, and its name.
fn relations_of<'a>(name: &[u8], of: &'a BuildRelations) -> Option<(&'static [u8], &'a Relations)> {
    if is_same_name(name, b"Build-Depends-Arch") {
        return Some((b"Build-Depends-Arch", &of.depends_arch));
    }
    if is_same_name(name, b"Build-Depends-Indep") {
        return Some((b"Build-Depends-Indep", &of.depends_indep));
    }
    if is_same_name(name, b"Build-Conflicts") {
        return Some((b"Build-Conflicts", &of.conflicts));
    }
    if is_same_name(name, b"Build-Conflicts-Arch") {
        return Some((b"Build-Conflicts-Arch", &of.conflicts_arch));
    }
    if is_same_name(name, b"Build-Conflicts-Indep") {
        return Some((b"Build-Conflicts-Indep", &of.conflicts_indep));
    }
    None
}

fn push_depends(alloc: Global, text: &mut Vec<u8>, of: &Anew) -> Result<(), AllocError> {
    push_field(alloc, text, b"Build-Depends", &of.relations.depends)
}

/// Puts what is written anew of a field behind a text.
fn push_anew(alloc: Global, text: &mut Vec<u8>, of: &Anew, name: &[u8]) -> Result<(), AllocError> {
    if is_same_name(name, b"Build-Depends") {
        return push_depends(alloc, text, of);
    }
    if is_same_name(name, b"Package-List") {
        text.extend_from_slice(b"Package-List:")?;
        text.extend_from_slice(&of.list)?;
        return text.extend_from_slice(b"\n");
    }
    match relations_of(name, &of.relations) {
        Some((name, field)) => push_field(alloc, text, name, field),
        None => Ok(()),
    }
}

/// Puts what a field comes to behind a text, of which the first line has this value.
fn push_begun(
    alloc: Global,
    text: &mut Vec<u8>,
    of: &Anew,
    at: At,
    name: &[u8],
    value: &[u8],
) -> Result<At, AllocError> {
    let has_depends = at.has_depends || is_same_name(name, b"Build-Depends");
    let Some(copied) = copied_name(name) else {
        push_anew(alloc, text, of, name)?;
        return Ok(At {
            is_copied: false,
            has_depends,
        });
    };
    text.extend_from_slice(copied)?;
    text.extend_from_slice(b":")?;
    text.extend_from_slice(value)?;
    text.extend_from_slice(b"\n")?;
    Ok(At {
        is_copied: true,
        has_depends,
    })
}

/// Puts a line that continues a field behind a text, where the field is copied.
fn push_continued(text: &mut Vec<u8>, at: At, line: &[u8]) -> Result<At, AllocError> {
    if at.is_copied {
        text.extend_from_slice(line)?;
        text.extend_from_slice(b"\n")?;
    }
    Ok(at)
}

/// Puts what a line comes to behind a text.
fn push_line(
    alloc: Global,
    text: &mut Vec<u8>,
    of: &Anew,
    at: At,
    line: &[u8],
) -> Result<At, AllocError> {
    if is_comment(line) {
        return Ok(at);
    }
    if begins_with(Class::Space, line) {
        return push_continued(text, at, line);
    }
    match cut_at_first(b':', line) {
        Some((name, value)) => push_begun(alloc, text, of, at, name, value),
        None => Ok(at),
    }
}

/// Puts what is known of a source behind a text: its name, and its fields in their order.
/// Build-Depends stands last where the source has none.
pub fn push_source(
    alloc: Global,
    text: &mut Vec<u8>,
    of: &Anew,
    block: &[u8],
) -> Result<(), AllocError> {
    text.extend_from_slice(b"Package: ")?;
    text.extend_from_slice(&of.name)?;
    text.extend_from_slice(b"\n")?;
    let mut at = At {
        is_copied: false,
        has_depends: false,
    };
    let mut rest = block;
    while let Some((line, behind)) = next_line(rest) {
        at = push_line(alloc, text, of, at, line)?;
        rest = behind;
    }
    if !at.has_depends {
        push_depends(alloc, text, of)?;
    }
    text.extend_from_slice(b"\n")
}
