//! Questions about builds that need and give things. Each line of the text is a build, whose place is
//! its number from 0 on: its source, its weight, `dear` or `cheap`, what it needs and what it gives.
//!
//!     choose END              made              leads-to PLACES END

use crate::spelling::{read_number, read_row};
use case_files::TableRow;
use deb_text::next_line;
use stage_choice::{StagedBuild, choose, leads_to, made_of};
use std::alloc::{AllocError, Global};

/// A number of things or sources.
fn small(number: u64) -> u32 {
    number.min(65_535) as u32
}

/// Things, divided by commas; `-` for none.
fn read_things(alloc: Global, text: &[u8]) -> Result<Vec<u32>, AllocError> {
    let mut things = Vec::new(alloc);
    for number in &read_row(alloc, text)? {
        things.push(small(*number))?;
    }
    Ok(things)
}

/// The build of a line's words.
fn read_build(alloc: Global, words: &[&[u8]]) -> Result<Option<StagedBuild>, AllocError> {
    let [source, weight, kind, needs, gives] = words else {
        return Ok(None);
    };
    let (needs, gives) = (read_things(alloc, *needs)?, read_things(alloc, *gives)?);
    Ok(Some(StagedBuild {
        source: small(read_number(*source)),
        needs,
        gives,
        weight: read_number(*weight),
        is_dear: *kind == b"dear".as_slice(),
    }))
}

/// The words of a line, divided by single spaces.
fn words_of<'a>(alloc: Global, line: &'a [u8]) -> Result<Vec<&'a [u8]>, AllocError> {
    let mut words = Vec::new(alloc);
    for word in line.split(|byte| *byte == b' ') {
        words.push(word)?;
    }
    Ok(words)
}

/// The builds of a text, each in a line; a line that has none is left out.
fn read_builds(alloc: Global, text: &[u8]) -> Result<Vec<StagedBuild>, AllocError> {
    let mut builds = Vec::new(alloc);
    let mut rest = text;
    while let Some((line, behind)) = next_line(rest) {
        match read_build(alloc, &words_of(alloc, line)?)? {
            Some(build) => builds.push(build)?,
            None => {}
        }
        rest = behind;
    }
    Ok(builds)
}

/// The text of some places, as `0 2 1`, or `none`.
fn places_text(alloc: Global, places: &[usize]) -> Result<String, AllocError> {
    let mut text = String::new(alloc);
    for place in places {
        if !text.is_empty() {
            text.push_str(" ")?;
        }
        write!(text, "{place}")?;
    }
    if text.is_empty() {
        text.push_str("none")?;
    }
    Ok(text)
}

/// What is chosen, as `1 0, rounds 2`, or `no order`.
fn choice_text(alloc: Global, builds: &[StagedBuild], end: usize) -> Result<Vec<u8>, AllocError> {
    match choose(alloc, builds, end)? {
        Some(choice) => {
            let mut text = places_text(alloc, &choice.order)?;
            let rounds = choice.rounds;
            write!(text, ", rounds {rounds}")?;
            Ok(text.into_bytes())
        }
        None => Vec::from_slice(alloc, b"no order"),
    }
}

/// Whether an order leads to an end, as `yes` or `no`.
fn leads_text(
    alloc: Global,
    builds: &[StagedBuild],
    order: &[u8],
    end: usize,
) -> Result<Vec<u8>, AllocError> {
    let mut places = Vec::new(alloc);
    for number in &read_row(alloc, order)? {
        places.push(small(*number) as usize)?;
    }
    let said = leads_to(alloc, builds, &places, end)?;
    Vec::from_slice(alloc, if said { b"yes" } else { b"no" })
}

/// Answers `choose`, `made` and `leads-to`; nothing where another question is asked.
pub fn answer(alloc: Global, row: TableRow) -> Result<Option<Vec<u8>>, AllocError> {
    let builds = read_builds(alloc, row.text)?;
    let text = match row.question {
        "choose" => choice_text(alloc, &builds, small(read_number(row.arg(0))) as usize)?,
        "made" => places_text(alloc, made_of(alloc, &builds)?.order())?.into_bytes(),
        "leads-to" => {
            let end = small(read_number(row.arg(1))) as usize;
            leads_text(alloc, &builds, row.arg(0), end)?
        }
        _ => return Ok(None),
    };
    Ok(Some(text))
}
