//! The paragraph of a package under another version.

ghost use Rattle.std.specs.Prelude.{◌≡◌, ◌++◌, OnOk, IsTrue};
ghost use Rattle.deb_text.specs.Lines.{lines_of};
ghost use Rattle.import_farm.specs.Rewriting.{AreRowsOf, GetsBehind, IsRowOf, closed, field_at, field_of, is_one_line, is_relation};
ghost use Rattle.std.specs.Str.{str_eq_ignore_ascii_case};

use crate::renamed::{Sister, Sisters, push_renamed, push_version};
use deb_text::{cut_at_first, is_comment, next_line};
use std::alloc::AllocError;

/// What is done with the lines of a field.
#[derive(Clone, Copy)]
pub enum Field {
    Kept,
    Version,
    Relations,
}

/// Tells whether two names are the same but for the case of ASCII letters.
fn is_same_name(a: &[u8], b: &[u8]) -> bool
    ensures { result ≡ str_eq_ignore_ascii_case a.now b.now }
{
    a.eq_ignore_ascii_case(b)
}

/// Tells whether a field of this name is one of the relation fields that are rewritten.
fn is_relation(name: &[u8]) -> bool
    ensures { result ≡ is_relation name.now }
{
    is_same_name(name, b"pre-depends")
        || is_same_name(name, b"depends")
        || is_same_name(name, b"conflicts")
        || is_same_name(name, b"breaks")
        || is_same_name(name, b"provides")
}

/// What is done with the lines of the field of a name.
fn field_of(name: &[u8]) -> Field
    ensures { result ≡ field_of name.now }
{
    if is_same_name(name, b"version") {
        return Field::Version;
    }
    if is_relation(name) {
        return Field::Relations;
    }
    Field::Kept
}

/// The field that a line belongs to, behind lines of a field.
fn field_at(row: &[u8], field: Field) -> Field
    ensures { result ≡ field_at row.now field }
{
    match row {
        [b' ' | b'\t' | b'#', ..] => field,
        _ => match cut_at_first(b':', row) {
            Some((name, _)) => field_of(name),
            None => field,
        },
    }
}

fn push_row(
    text: &mut Vec<u8>,
    row: &[u8],
    field: Field,
    of: &Sister,
    sisters: Sisters,
) -> Result<(), AllocError>
    requires { IsTrue (is_one_line row.now) }
    ensures { OnOk result (GetsBehind (IsRowOf field row.now) text.old.items text.new.items) }
{
    if is_comment(row) {
        return text.extend_from_slice(row);
    }
    match field {
        Field::Kept => text.extend_from_slice(row),
        Field::Version => push_version(text, row, &of.old, &of.new),
        Field::Relations => push_renamed(text, sisters, row),
    }
}

/// Puts the paragraph of a package behind a text, with the version under which its build gives it,
/// also where it speaks of packages of the same build.
pub fn push_rewritten(
    text: &mut Vec<u8>,
    block: &[u8],
    of: &Sister,
    sisters: Sisters,
) -> Result<(), AllocError>
    ensures { OnOk result (GetsBehind (AreRowsOf Field.Kept (lines_of block.now)) text.old.items text.new.items) }
{
    let mut field = Field::Kept;
    let mut rest = block;
    while let Some((row, behind)) = next_line(rest) {
        field = field_at(row, field);
        push_row(text, row, field, of, sisters)?;
        text.extend_from_slice(b"\n")?;
        rest = behind;
    }
    Ok(())
}

/// Puts a block behind a text as it stands, with a newline at its end.
pub fn push_block(text: &mut Vec<u8>, block: &[u8]) -> Result<(), AllocError>
    ensures { OnOk result (text.new.items ≡ text.old.items ++ closed block.now) }
{
    text.extend_from_slice(block)?;
    if !block.ends_with(b"\n") {
        text.extend_from_slice(b"\n")?;
    }
    Ok(())
}
