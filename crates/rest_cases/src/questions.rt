//! The questions of tables:
//!
//!     fate FACTS OUTPUTS ARCHIVE WITHDRAWN     what becomes of a recipe that gives these. FACTS has
//!                                              letters: g given up, a wanted anew, p published,
//!                                              b built, m of `Mode: built`; `-` for none
//!     brought LEFT WITHDRAWN GIVEN             what came into the archive by hand
//!     archive LEFT BROUGHT WITHDRAWN           the archive of the farm that goes on
//!     goes_on SCHEDULE BROUGHT WITHDRAWN       whether the second farm goes on where this schedule of
//!                                              the first one has stopped. The text above has both, a
//!                                              line `====` between them, each divided as on standard
//!                                              input

use crate::continuations::goes_on_word;
use crate::spelling::{read_items, read_list, spelled_list};
use case_files::{TableAnswers, TableRow};
use rest_farm::{Ahead, Fate, RecipeFacts, archive_items, brought_items, fate_of};
use std::alloc::{AllocError, Global};

/// The answers of what is left of runs.
#[derive(Drop)]
pub struct RestAnswers;

impl<R> TableAnswers<R> for RestAnswers {
    fn answer_to(&self, _rt: &R, alloc: Global, row: TableRow) -> Result<Vec<u8>, AllocError> {
        answer(alloc, row)
    }
}

fn answer(alloc: Global, row: TableRow) -> Result<Vec<u8>, AllocError> {
    match row.question {
        "fate" => fate_text(alloc, row),
        "brought" => brought_text(alloc, row),
        "archive" => archive_text(alloc, row),
        "goes_on" => Vec::from_slice(alloc, goes_on_word(alloc, row)?),
        _ => Vec::from_slice(alloc, b"no such question"),
    }
}

fn facts_of(letters: &[u8]) -> RecipeFacts {
    RecipeFacts {
        is_given_up: letters.contains(&b'g'),
        is_wanted_anew: letters.contains(&b'a'),
        is_published: letters.contains(&b'p'),
        is_built: letters.contains(&b'b'),
        is_bare: letters.contains(&b'm'),
    }
}

fn fate_word(fate: Fate) -> &'static [u8] {
    match fate {
        Fate::GivenUp => b"given up",
        Fate::Published => b"published",
        Fate::There => b"there",
        Fate::Partly => b"partly there",
        Fate::Withdrawn => b"withdrawn",
        Fate::Built => b"built",
        Fate::Unbuilt => b"not built",
        Fate::Left => b"left",
    }
}

fn fate_text(alloc: Global, row: TableRow) -> Result<Vec<u8>, AllocError> {
    let outputs = read_list(alloc, row.arg(1))?;
    let archive = read_items(alloc, row.arg(2))?;
    let gone = read_items(alloc, row.arg(3))?;
    let fate = fate_of(facts_of(row.arg(0)), &outputs, &archive, &gone);
    Vec::from_slice(alloc, fate_word(fate))
}

fn brought_text(alloc: Global, row: TableRow) -> Result<Vec<u8>, AllocError> {
    let left = read_items(alloc, row.arg(0))?;
    let gone = read_items(alloc, row.arg(1))?;
    let given = read_list(alloc, row.arg(2))?;
    spelled_list(alloc, &brought_items(alloc, &left, &gone, &given)?)
}

fn archive_text(alloc: Global, row: TableRow) -> Result<Vec<u8>, AllocError> {
    let left = read_items(alloc, row.arg(0))?;
    let brought = read_items(alloc, row.arg(1))?;
    let gone = read_items(alloc, row.arg(2))?;
    let of = Ahead {
        left: &left,
        brought: &brought,
        gone: &gone,
    };
    spelled_list(alloc, &archive_items(alloc, of)?)
}
