//! Which of the notes of an import no longer hold once its packages are finished: what a further
//! build provides then has its version.

use deb_relation::{Entry, Relations};
use deb_text::{next_line, push_pieces};
use farm_lookup::{Asker, Unmet, unmet_needs};
use farm_universe::Universe;
use plan_reader::push_entry;
use std::alloc::{AllocError, Global};
use std::collections::BTreeSet;

/// What a note says of an entry.
fn said_of(alloc: Global, entry: &Entry) -> Result<Vec<u8>, AllocError> {
    let mut words = Vec::from_slice(alloc, b": ")?;
    push_entry(&mut words, entry)?;
    words.extend_from_slice(b" is met by nothing")?;
    Ok(words)
}

fn entries_of(alloc: Global, unmet: &[Unmet]) -> Result<Relations, AllocError> {
    let mut entries = Vec::with_capacity(alloc, unmet.len())?;
    for one in unmet {
        entries.push(one.entry.clone()?)?;
    }
    Ok(Relations::from_entries(entries))
}

fn is_of_list(asker: Asker) -> bool {
    match asker {
        Asker::Archive => true,
        _ => false,
    }
}

/// What notes say of those of some entries that nothing in a farm meets.
fn still_said(
    alloc: Global,
    universe: &Universe,
    unmet: &[Unmet],
) -> Result<BTreeSet<Vec<u8>>, AllocError> {
    let mut still = BTreeSet::new(alloc);
    let entries = entries_of(alloc, unmet)?;
    for one in &unmet_needs(alloc, universe, &entries, &[])? {
        if is_of_list(one.asker) {
            still.insert(said_of(alloc, &one.entry)?)?;
        }
    }
    Ok(still)
}

/// What notes say of those of some entries that something in a farm meets.
pub fn said_no_more(
    alloc: Global,
    universe: &Universe,
    unmet: &[Unmet],
) -> Result<Vec<Vec<u8>>, AllocError> {
    let mut met = Vec::new(alloc);
    if unmet.is_empty() {
        return Ok(met);
    }
    let still = still_said(alloc, universe, unmet)?;
    for one in unmet {
        let said = said_of(alloc, &one.entry)?;
        if !still.contains(&said) {
            met.push(said)?;
        }
    }
    Ok(met)
}

fn has_part(line: &[u8], part: &[u8]) -> bool {
    for at in 0..line.len() {
        if line.get(at..).unwrap_or(b"").starts_with(part) {
            return true;
        }
    }
    false
}

/// Puts lines behind a text, without the notes that say this.
pub fn push_lines(text: &mut Vec<u8>, lines: &[u8], met: &[Vec<u8>]) -> Result<(), AllocError> {
    if met.is_empty() {
        return text.extend_from_slice(lines);
    }
    let mut rest = lines;
    while let Some((line, behind)) = next_line(rest) {
        if !met.iter().any(|said| has_part(line, said)) {
            push_pieces(text, &[line, b"\n"])?;
        }
        rest = behind;
    }
    Ok(())
}
