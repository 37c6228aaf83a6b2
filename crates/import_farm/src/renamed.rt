//! Relations to packages of the same build, with the versions that the build gives.

ghost use Rattle.std.specs.Prelude.{◌≡◌, ◌++◌, OnOk, IsTrue};
ghost use Rattle.import_farm.specs.Rewriting.{GetsBehind, IsRenamed, IsReplaced, IsReversioned, is_inside, is_one_line};

use deb_text::{Class, cut_at_first, skip_front, split_front, trim};
use deb_version::Version;
use std::alloc::AllocError;

/// A package of a build: its name, the version in the index, and that under which the build gives
/// it.
#[derive(Drop)]
pub struct Sister {
    pub name: Vec<u8>,
    pub old: Vec<u8>,
    pub new: Version,
}

/// The packages of a build, and whether relations with each operator are renamed, or those with `=`
/// alone.
#[derive(Clone, Copy)]
pub struct Sisters<'a> {
    pub all: &'a [Sister],
    pub any_operator: bool,
}

fn divides(byte: u8) -> bool {
    matches!(byte, b' ' | b'\t' | b'\n' | b',' | b'|')
}

/// The name that stands last in a text, without its qualifier.
fn last_name(text: &[u8]) -> &[u8] {
    let mut last: &[u8] = b"";
    for piece in text.split(|byte| divides(*byte)) {
        if !piece.is_empty() {
            last = piece;
        }
    }
    match cut_at_first(b':', last) {
        Some((name, _)) => name,
        None => last,
    }
}

/// Cuts an operator off the front of a text.
fn split_operator(text: &[u8]) -> (&[u8], &[u8])
    ensures { text.now ≡ result.0.now ++ result.1.now }
{
    match text {
        [b'=', ..] => text.split_at(1),
        [b'<', b'<' | b'=', ..] | [b'>', b'>' | b'=', ..] => text.split_at(2),
        _ => text.split_at(0),
    }
}

/// The package of a build with this name in this version.
fn find<'a>(sisters: Sisters<'a>, name: &[u8], version: &[u8]) -> Option<&'a Sister> {
    sisters.all.iter().find(|sister| sister.name.as_slice() == name
        && sister.old.as_slice() == version)
}

/// Tells whether a text has no bracket and no newline.
fn is_inside(text: &[u8]) -> bool
    ensures { result ≡ is_inside text.now }
{
    text.iter()
        .all(|byte| !(*byte == b'\n' || *byte == b'(' || *byte == b')'))
}

/// Puts a version behind a text, and before it the operator and the spaces that stand before one in
/// brackets.
fn push_behind_operator(
    text: &mut Vec<u8>,
    inside: &[u8],
    version: &Version,
) -> Result<(), AllocError>
    requires { IsTrue (is_inside inside.now) }
    ensures { OnOk result (GetsBehind (IsReplaced inside.now) text.old.items text.new.items) }
{
    let (front, rest) = split_front(Class::Space, inside);
    let (operator, rest) = split_operator(rest);
    let (between, _) = split_front(Class::Space, rest);
    text.extend_from_slice(front)?;
    text.extend_from_slice(operator)?;
    text.extend_from_slice(between)?;
    text.extend_from_slice(version.text())?;
    Ok(())
}

/// The package of a build that what stands in brackets behind a name is about, if it is renamed.
fn sister_in<'a>(sisters: Sisters<'a>, name: &[u8], inside: &[u8]) -> Option<&'a Sister> {
    let (operator, rest) = split_operator(skip_front(Class::Space, inside));
    if operator == b"=".as_slice() || sisters.any_operator {
        find(sisters, name, trim(rest))
    } else {
        None
    }
}

/// Puts what stands in brackets behind a name, with the version that the build gives.
fn push_inside(
    text: &mut Vec<u8>,
    sisters: Sisters,
    name: &[u8],
    inside: &[u8],
) -> Result<(), AllocError>
    ensures { OnOk result (GetsBehind (IsReplaced inside.now) text.old.items text.new.items) }
{
    match sister_in(sisters, name, inside) {
        Some(sister) if is_inside(inside) => push_behind_operator(text, inside, &sister.new),
        _ => text.extend_from_slice(inside),
    }
}

/// Puts a line of a relation field behind a text, with the versions that the build gives.
pub fn push_renamed(text: &mut Vec<u8>, sisters: Sisters, row: &[u8]) -> Result<(), AllocError>
    ensures { OnOk result (GetsBehind (IsRenamed row.now) text.old.items text.new.items) }
{
    let mut rest = row;
    while let Some((before, behind)) = cut_at_first(b'(', rest) {
        let Some((inside, after)) = cut_at_first(b')', behind) else {
            break;
        };
        text.extend_from_slice(before)?;
        text.extend_from_slice(b"(")?;
        push_inside(text, sisters, last_name(before), inside)?;
        text.extend_from_slice(b")")?;
        rest = after;
    }
    text.extend_from_slice(rest)?;
    Ok(())
}

/// Puts a line `Version: OLD` behind a text, with another version.
pub fn push_version(
    text: &mut Vec<u8>,
    row: &[u8],
    old: &[u8],
    new: &Version,
) -> Result<(), AllocError>
    requires { IsTrue (is_one_line row.now) }
    ensures { OnOk result (GetsBehind (IsReversioned row.now) text.old.items text.new.items) }
{
    let Some((name, value)) = cut_at_first(b':', row) else {
        return text.extend_from_slice(row);
    };
    let body = skip_front(Class::Space, value);
    let Some(behind) = body.strip_prefix(old) else {
        return text.extend_from_slice(row);
    };
    text.extend_from_slice(name)?;
    text.extend_from_slice(b": ")?;
    text.extend_from_slice(new.text())?;
    text.extend_from_slice(behind)?;
    Ok(())
}
