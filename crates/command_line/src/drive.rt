//! What `drive` and `status` ask for.

ghost use Rattle.std.specs.Prelude.{◌≡◌, IfErr, IfOk, map, true};
ghost use Rattle.std.specs.Option.{option_map};
ghost use Rattle.command_line.specs.Words.{ArePathWords, IsAskedBy, IsJournalWord, IsRefusedFor, IsRequestedBy};

use crate::among::ends_word;
use crate::command::{INPUT, JOURNAL, JSON, PROGRESS};
use crate::request::{Asked, Paths, Request, WordsFault, not_there, wrong};
use clap::ArgMatches;
use std::alloc::Global;
use std::convert::AsStr;

/// Tells whether a file is to be read from standard input, which has the answers of the driver.
fn names_input(paths: &Paths<'_>) -> bool {
    let names = [paths.packages, paths.sources, paths.farm, paths.plan];
    names.iter().any(|name| *name == INPUT)
}

/// Tells whether a word ends with the name of a file, if there is one.
pub fn is_named<S: AsStr>(words: &[S], journal: Option<&str>) -> bool
    ensures { result ≡ true → IsJournalWord (map S.text words.now)
        (option_map (λ name. name.now) journal.entry) }
{
    match journal {
        Some(name) => ends_word(words, name),
        None => true,
    }
}

/// What `drive` asks for.
pub fn drive_of<'a, S: AsStr>(
    alloc: Global,
    words: &'a [S],
    matches: &ArgMatches<'a>,
    paths: Paths<'a>,
) -> Result<Asked<'a>, WordsFault>
    requires paths { ArePathWords (map S.text words.now) paths }
    ensures asked { IfOk result (IsAskedBy (map S.text words.entry.now)) }
    ensures refused { IfErr result (IsRefusedFor (map S.text words.entry.now)) }
{
    if names_input(&paths) {
        let text = "error: `-` cannot stand for a file here: standard input has the answers\n";
        return Err(wrong(alloc, text));
    }
    let journal = matches.get_str(JOURNAL);
    if !is_named(words, journal) {
        return Err(not_there(alloc));
    }
    Ok(Asked::Drive {
        paths,
        journal,
        progress: matches.get_flag(PROGRESS),
    })
}

/// What `status` asks for, by the name of the journal.
pub fn status_of<'a, S: AsStr>(
    alloc: Global,
    words: &'a [S],
    matches: &ArgMatches<'a>,
    journal: &'a str,
    paths: Paths<'a>,
) -> Result<Request<'a>, WordsFault>
    requires paths { ArePathWords (map S.text words.now) paths }
    ensures asked { IfOk result (IsRequestedBy (map S.text words.entry.now)) }
    ensures refused { IfErr result (IsRefusedFor (map S.text words.entry.now)) }
{
    if !ends_word(words, journal) {
        return Err(not_there(alloc));
    }
    Ok(Request::Status {
        journal,
        paths,
        json: matches.get_flag(JSON),
    })
}
