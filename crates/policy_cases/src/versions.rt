//! Questions about versions.

use crate::answer::{Answer, text};
use crate::fields;
use case_files::TableRow;
use deb_text::read_number;
use deb_version::{Version, VersionError};
use std::alloc::Global;
use std::cmp::Ordering;

/// Answers `version TEXT`, `order A B` and `version_message CODE`.
pub fn answer(alloc: Global, row: TableRow) -> Answer {
    match row.question {
        "version" => read(alloc, row.arg(0)),
        "version_message" => message(alloc, row.arg(0)),
        "order" => order(alloc, row.arg(0), row.arg(1)),
        _ => fields::answer(alloc, row),
    }
}

/// The text of a version's copy.
fn read(alloc: Global, spelling: &[u8]) -> Answer {
    let version = Version::parse(alloc, spelling)?;
    text(alloc, version.clone()?.text())
}

fn message(alloc: Global, code: &[u8]) -> Answer {
    let code = read_number(code).unwrap_or(0).min(999) as u16;
    let error = VersionError { code };
    Ok(format!(in alloc; "{error}")?.into_bytes())
}

fn order(alloc: Global, a: &[u8], b: &[u8]) -> Answer {
    let a = Version::parse(alloc, a)?;
    let b = Version::parse(alloc, b)?;
    text(alloc, order_of(&a, &b).as_bytes())
}

/// `<`, `=` or `>`, where all ways to compare the versions say so.
fn order_of(a: &Version, b: &Version) -> &'static str {
    let order = a.compare(b);
    let same = b.compare(a) == order.reverse()
        && a.cmp(b) == order
        && a.partial_cmp(b) == Some(order)
        && (a == b) == order.is_eq();
    if same { sign(order) } else { "?" }
}

fn sign(order: Ordering) -> &'static str {
    match order {
        Ordering::Less => "<",
        Ordering::Equal => "=",
        Ordering::Greater => ">",
    }
}
