//! The answers to questions about a farm.

ghost use Rattle.std.specs.Prelude.{◌≡◌, ◌<◌};
ghost use Rattle.farm_model.specs.Packages.{names};

use crate::asked::{Exclusion, excluded, satisfying};
use crate::plain::first_difference;
use crate::question::{alternative_of, row_asked, variant_of};
use crate::values::{Test, passing_text, value_text};
use bit_rows::Row;
use case_files::TableRow;
use farm_universe::{Universe, Variant};
use sat_rows::Tables;
use std::alloc::{AllocError, Global};

/// Answers `compare`, `conflicts NAME VERSION`, `breaks NAME VERSION`, `broken-by NAME VERSION`,
/// `alternative NAME VERSION NUMBER NUMBER`, `satisfies FIELD` and `wanted FIELD`, or with the value
/// or the row that another question asks for.
pub fn answer(
    alloc: Global,
    universe: &Universe,
    tables: &Tables,
    row: TableRow,
) -> Result<Vec<u8>, AllocError>
    requires { tables.now ≡ universe.now }
{
    match row.question {
        "compare" => first_difference(alloc, universe, tables),
        "conflicts" => excluded_text(alloc, universe, tables, Exclusion::Conflicts, row),
        "breaks" => excluded_text(alloc, universe, tables, Exclusion::Breaks, row),
        "broken-by" => excluded_text(alloc, universe, tables, Exclusion::BrokenBy, row),
        "alternative" => alternative_text(alloc, universe, tables, row),
        "satisfies" => passing_text(alloc, universe, row.arg(0), Test::Satisfies),
        "wanted" => passing_text(alloc, universe, row.arg(0), Test::IsWanted),
        "find" | "variant" | "chroot" | "architectures" => value_text(alloc, universe, row),
        _ => asked_text(alloc, universe, row_asked(universe, tables, row)),
    }
}

fn excluded_text(
    alloc: Global,
    universe: &Universe,
    tables: &Tables,
    kind: Exclusion,
    row: TableRow,
) -> Result<Vec<u8>, AllocError>
    requires { tables.now ≡ universe.now }
{
    match variant_of(universe, row) {
        Some(variant) => {
            let others = excluded(alloc, universe, tables, kind, variant)?;
            spelled(alloc, universe, &others)
        }
        None => asked_text(alloc, universe, None),
    }
}

fn alternative_text(
    alloc: Global,
    universe: &Universe,
    tables: &Tables,
    row: TableRow,
) -> Result<Vec<u8>, AllocError>
    requires { tables.now ≡ universe.now }
{
    match alternative_of(universe, row) {
        Some(atom) => spelled(alloc, universe, &satisfying(alloc, universe, tables, atom)?),
        None => asked_text(alloc, universe, None),
    }
}

fn asked_text(
    alloc: Global,
    universe: &Universe,
    found: Option<&Row>,
) -> Result<Vec<u8>, AllocError> {
    match found {
        Some(row) => spelled(alloc, universe, row),
        None => Vec::from_slice(alloc, b"no such row"),
    }
}

/// Puts a variant behind a text, as `gcc (= 14-1)`, and a comma ahead of it where there is one before.
pub fn push_variant(text: &mut String, name: &[u8], version: &[u8]) -> Result<(), AllocError> {
    if !text.is_empty() {
        text.push_str(", ")?;
    }
    write!(
        text,
        "{} (= {})",
        name.escape_ascii(),
        version.escape_ascii()
    )
}

/// Puts the variants of a word behind a text.
fn push_word(text: &mut String, universe: &Universe, name: u32, word: u64) -> Result<(), AllocError>
    requires { name < names universe.now }
{
    for bit in 0..universe.variants(name) {
        if word & 1u64.checked_shl(bit).unwrap_or(0) != 0 {
            let version = universe.version(Variant { name, bit }).text();
            push_variant(text, universe.name_text(name), version)?;
        }
    }
    Ok(())
}

/// The variants of a row, as `libc6 (= 2.36-1), libgcc (= 14-1)`, or `none`.
fn spelled(alloc: Global, universe: &Universe, row: &Row) -> Result<Vec<u8>, AllocError> {
    let mut text = String::new(alloc);
    for name in 0..universe.names() {
        if (name as usize) < row.len() {
            push_word(&mut text, universe, name, row.word(name as usize))?;
        }
    }
    if text.is_empty() {
        text.push_str("none")?;
    }
    Ok(text.into_bytes())
}
