//! Questions about relation fields, and about which package satisfies an alternative.

use crate::answer::{Answer, Refusal, yes_or_no};
use crate::profiles;
use crate::spelling::{spelled_atom, spelled_entry, spelled_field};
use case_files::TableRow;
use deb_relation::{Atom, Entry, Facts, Kind, RelationError, Relations, in_relation, satisfies};
use deb_text::read_number;
use deb_version::Version;
use std::alloc::{AllocError, Global};

/// Answers `relation_message CODE`, `in_relation ALTERNATIVE VERSION`,
/// `satisfies NAME VERSION PROVIDES ALTERNATIVE`, and what is read of a field.
pub fn answer(alloc: Global, row: TableRow) -> Answer {
    match row.question {
        "relation_message" => message(alloc, row.arg(0)),
        "in_relation" => stands_in(alloc, row.arg(0), row.arg(1)),
        "satisfies" => is_satisfied(alloc, row),
        _ => match kind_of(row.word(0)) {
            Some(kind) => read(alloc, kind, row),
            None => profiles::answer(alloc, row),
        },
    }
}

fn kind_of(word: &str) -> Option<Kind> {
    match word {
        "Need" => Some(Kind::Need),
        "Clash" => Some(Kind::Clash),
        "Provide" => Some(Kind::Provide),
        "BuildNeed" => Some(Kind::BuildNeed),
        "BuildClash" => Some(Kind::BuildClash),
        _ => None,
    }
}

/// Answers `field KIND TEXT`, `entry KIND TEXT`, `alternative KIND TEXT`, `unrestricted KIND TEXT`
/// and `sizes KIND TEXT`.
fn read(alloc: Global, kind: Kind, row: TableRow) -> Answer {
    let text = row.arg(1);
    match row.question {
        "field" => spell_field(alloc, kind, text),
        "entry" => spell_entry(alloc, kind, text),
        "alternative" => spell_alternative(alloc, kind, text),
        "unrestricted" => spell_unrestricted(alloc, kind, text),
        "sizes" => spell_sizes(alloc, kind, text),
        _ => profiles::answer(alloc, row),
    }
}

/// The copy of a field.
fn spell_field(alloc: Global, kind: Kind, text: &[u8]) -> Answer {
    let field = Relations::parse(alloc, text, kind)?;
    spelled_field(alloc, &field.clone()?)
}

/// The field of one entry.
fn spell_entry(alloc: Global, kind: Kind, text: &[u8]) -> Answer {
    let entry = Entry::parse(alloc, text, kind)?;
    spelled_field(alloc, &Relations::from_entries(only(alloc, entry)?))
}

/// The entry of one alternative.
fn spell_alternative(alloc: Global, kind: Kind, text: &[u8]) -> Answer {
    let atom = Atom::parse(alloc, text, kind)?;
    spelled_entry(alloc, &Entry::from_alternatives(only(alloc, atom)?))
}

/// An alternative without its restrictions.
fn spell_unrestricted(alloc: Global, kind: Kind, text: &[u8]) -> Answer {
    without_restrictions(alloc, &Atom::parse(alloc, text, kind)?)
}

fn without_restrictions(alloc: Global, atom: &Atom) -> Answer {
    let left = Atom::unrestricted(alloc, atom.name(), atom.qualifier(), atom.relation())?;
    spelled_atom(alloc, &left)
}

fn spell_sizes(alloc: Global, kind: Kind, text: &[u8]) -> Answer {
    sizes_of(alloc, &Relations::parse(alloc, text, kind)?)
}

/// A list of one item.
fn only<T: Drop>(alloc: Global, item: T) -> Result<Vec<T>, Refusal> {
    let mut items = Vec::new(alloc);
    items.push(item)?;
    Ok(items)
}

/// How many alternatives each entry has, and the name of each entry's last one.
fn sizes_of(alloc: Global, field: &Relations) -> Answer {
    let mut answer = String::new(alloc);
    if field.is_empty() {
        answer.push_str("(none)")?;
    }
    for number in 0..field.len() {
        push_size(&mut answer, field.entry(number))?;
    }
    Ok(answer.into_bytes())
}

fn push_size(answer: &mut String, entry: &Entry) -> Result<(), AllocError> {
    let alternatives = entry.len();
    let last = match entry.alternatives().last() {
        Some(atom) => atom.name(),
        None => b"".as_slice(),
    };
    write!(answer, "{alternatives} {} ", last.escape_ascii())
}

fn stands_in(alloc: Global, atom: &[u8], version: &[u8]) -> Answer {
    let atom = Atom::parse(alloc, atom, Kind::Need)?;
    holds_of(alloc, &atom, version)
}

/// Tells whether a version stands in an alternative's relation.
fn holds_of(alloc: Global, atom: &Atom, version: &[u8]) -> Answer {
    let version = Version::parse(alloc, version)?;
    yes_or_no(alloc, in_relation(atom.relation(), &version.view()))
}

fn is_satisfied(alloc: Global, row: TableRow) -> Answer {
    let version = Version::parse(alloc, row.arg(1))?;
    let provides = Relations::parse(alloc, row.arg(2), Kind::Provide)?;
    let facts = Facts {
        name: row.arg(0),
        version: &version,
        provides: &provides,
    };
    is_satisfied_by(alloc, &facts, row.arg(3))
}

fn is_satisfied_by(alloc: Global, facts: &Facts, atom: &[u8]) -> Answer {
    let atom = Atom::parse(alloc, atom, Kind::Need)?;
    yes_or_no(alloc, satisfies(facts, &atom))
}

fn message(alloc: Global, code: &[u8]) -> Answer {
    let code = read_number(code).unwrap_or(0).min(999) as u16;
    let error = RelationError { code };
    Ok(format!(in alloc; "{error}")?.into_bytes())
}
