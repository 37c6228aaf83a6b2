//! Questions about restrictions. The text above them has the names of the architecture.

use crate::answer::{Answer, Refusal, yes_or_no};
use crate::spelling::spelled_field;
use crate::stanzas;
use case_files::TableRow;
use deb_profile::{ArchNames, ProfileSet, keeps, reduce};
use deb_relation::{Atom, Entry, Facts, Kind, Relations, satisfies};
use deb_text::next_word;
use deb_version::Version;
use std::alloc::Global;

/// Answers `arch_names TEXT`, `matches NAME`, `is_active PROFILES PROFILE`,
/// `keeps PROFILES ALTERNATIVE`, `reduced PROFILES FIELD` and
/// `satisfies_reduced NAME VERSION PROVIDES ALTERNATIVE`.
pub fn answer(alloc: Global, row: TableRow) -> Answer {
    match row.question {
        "arch_names" => spell_names(alloc, row.arg(0)),
        "matches" => is_matched(alloc, row.text, row.arg(0)),
        "is_active" => is_active(alloc, row.arg(0), row.arg(1)),
        "keeps" => is_kept(alloc, row),
        "reduced" => spell_reduced(alloc, row),
        "satisfies_reduced" => is_satisfied(alloc, row),
        _ => stanzas::answer(alloc, row),
    }
}

fn profiles(alloc: Global, text: &[u8]) -> Result<ProfileSet, Refusal> {
    if text.is_empty() {
        return Ok(ProfileSet::none(alloc));
    }
    Ok(ProfileSet::parse(alloc, text)?)
}

fn spell_names(alloc: Global, text: &[u8]) -> Answer {
    let mut answer = Vec::new(alloc);
    let names = ArchNames::parse(alloc, text)?;
    let mut rest = names.text();
    while let Some((name, after)) = next_word(rest) {
        answer.extend_from_slice(name)?;
        answer.push(b';')?;
        rest = after;
    }
    Ok(answer)
}

fn is_matched(alloc: Global, names: &[u8], name: &[u8]) -> Answer {
    yes_or_no(alloc, ArchNames::parse(alloc, names)?.matches(name))
}

fn is_active(alloc: Global, active: &[u8], profile: &[u8]) -> Answer {
    yes_or_no(alloc, profiles(alloc, active)?.is_active(profile))
}

fn is_kept(alloc: Global, row: TableRow) -> Answer {
    let names = ArchNames::parse(alloc, row.text)?;
    let active = profiles(alloc, row.arg(0))?;
    is_kept_for(alloc, &names, &active, row.arg(1))
}

fn is_kept_for(alloc: Global, names: &ArchNames, active: &ProfileSet, atom: &[u8]) -> Answer {
    let atom = Atom::parse(alloc, atom, Kind::BuildNeed)?;
    yes_or_no(alloc, keeps(&atom, names, active))
}

/// What is left of a field for the architecture of these names.
fn reduced(
    alloc: Global,
    names: &[u8],
    active: &[u8],
    kind: Kind,
    field: &[u8],
) -> Result<Relations, Refusal> {
    let names = ArchNames::parse(alloc, names)?;
    let active = profiles(alloc, active)?;
    reduced_for(alloc, &names, &active, kind, field)
}

fn reduced_for(
    alloc: Global,
    names: &ArchNames,
    active: &ProfileSet,
    kind: Kind,
    field: &[u8],
) -> Result<Relations, Refusal> {
    let field = Relations::parse(alloc, field, kind)?;
    Ok(reduce(alloc, &field, names, active)?)
}

fn spell_reduced(alloc: Global, row: TableRow) -> Answer {
    let left = reduced(alloc, row.text, row.arg(0), Kind::BuildNeed, row.arg(1))?;
    spelled_field(alloc, &left)
}

fn is_satisfied(alloc: Global, row: TableRow) -> Answer {
    let version = Version::parse(alloc, row.arg(1))?;
    let provides = reduced(alloc, row.text, b"", Kind::Provide, row.arg(2))?;
    let facts = Facts {
        name: row.arg(0),
        version: &version,
        provides: &provides,
    };
    is_satisfied_by(alloc, &facts, row.text, row.arg(3))
}

fn is_satisfied_by(alloc: Global, facts: &Facts, names: &[u8], atom: &[u8]) -> Answer {
    let wanted = reduced(alloc, names, b"", Kind::Need, atom)?;
    yes_or_no(alloc, satisfies_all(facts, wanted.entries()))
}

fn satisfies_all(facts: &Facts, entries: &[Entry]) -> bool {
    for entry in entries {
        if !satisfies_some(facts, entry) {
            return false;
        }
    }
    true
}

fn satisfies_some(facts: &Facts, entry: &Entry) -> bool {
    for atom in entry.alternatives() {
        if satisfies(facts, atom) {
            return true;
        }
    }
    false
}
