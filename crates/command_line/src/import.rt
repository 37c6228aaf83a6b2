//! What `import` asks for.

ghost use Rattle.std.specs.Prelude.{IfErr, IfOk, map};
ghost use Rattle.command_line.specs.Words.{AreImportWords, EndWords, IsAskedBy, IsRefusedFor, IsWord};

use crate::among::{end_words, is_word};
use crate::command::{ARCHIVE, FOLDER, FORBID, FORCE, INPUT, PACKAGES, SOURCES, WISH};
use crate::request::{Asked, WordsFault, not_there, word_of, wrong};
use clap::ArgMatches;
use std::alloc::Global;
use std::convert::AsStr;

/// The files of an import: indexes of what is there at the beginning, of what builds give and of
/// sources; the names of recipes that are not to be chosen; the wish; the folder of the texts; and
/// whether files of others are replaced there.
#[derive(Drop)]
pub struct ImportWords<'a> {
    pub archive: Vec<&'a str>,
    pub packages: Vec<&'a str>,
    pub sources: Vec<&'a str>,
    pub forbidden: Vec<&'a str>,
    pub wish: &'a str,
    pub folder: &'a str,
    pub force: bool,
}

/// The names behind an option that may stand more than once.
pub fn names_behind<'a, S: AsStr>(
    alloc: Global,
    words: &'a [S],
    matches: &ArgMatches<'a>,
    option: &str,
) -> Result<Vec<&'a str>, WordsFault>
    ensures found { IfOk result (λ names. EndWords (map S.text words.entry.now) names.items) }
    ensures refused { IfErr result (IsRefusedFor (map S.text words.entry.now)) }
{
    let Some(names) = matches.get_strs(option) else {
        return Ok(Vec::new(alloc));
    };
    if !end_words(words, names) {
        return Err(not_there(alloc));
    }
    Ok(Vec::from_slice(alloc, names)?)
}

/// How often standard input stands among names.
fn inputs_among(names: &[&str]) -> usize {
    names.iter().filter(|name| **name == INPUT).count()
}

/// Tells whether standard input stands for more than one file.
fn asks_twice(asked: &ImportWords<'_>) -> bool {
    let indexes = inputs_among(&asked.archive).saturating_add(inputs_among(&asked.packages));
    let all = indexes.saturating_add(inputs_among(&asked.sources));
    all.saturating_add(usize::from(asked.wish == INPUT)) > 1
}

/// What these words ask for.
fn asked_for<'a, S: AsStr>(
    alloc: Global,
    words: &'a [S],
    asked: ImportWords<'a>,
) -> Result<Asked<'a>, WordsFault>
    requires { AreImportWords (map S.text words.now) asked }
    ensures asked { IfOk result (IsAskedBy (map S.text words.entry.now)) }
    ensures refused { IfErr result (IsRefusedFor (map S.text words.entry.now)) }
{
    if asks_twice(&asked) {
        return Err(wrong(alloc, "error: `-` can stand for one file alone\n"));
    }
    Ok(Asked::Import(asked))
}

/// What the indexes, the wish and the folder ask for.
fn with_indexes<'a, S: AsStr>(
    alloc: Global,
    words: &'a [S],
    matches: &ArgMatches<'a>,
    wish: &'a str,
    folder: &'a str,
) -> Result<Asked<'a>, WordsFault>
    requires wish { IsWord (map S.text words.now) wish.now }
    requires folder { IsWord (map S.text words.now) folder.now }
    ensures asked { IfOk result (IsAskedBy (map S.text words.entry.now)) }
    ensures refused { IfErr result (IsRefusedFor (map S.text words.entry.now)) }
{
    let archive = names_behind(alloc, words, matches, ARCHIVE)?;
    let packages = names_behind(alloc, words, matches, PACKAGES)?;
    let sources = names_behind(alloc, words, matches, SOURCES)?;
    let forbidden = names_behind(alloc, words, matches, FORBID)?;
    let asked = ImportWords {
        archive,
        packages,
        sources,
        forbidden,
        wish,
        folder,
        force: matches.get_flag(FORCE),
    };
    asked_for(alloc, words, asked)
}

/// What `import` asks for.
pub fn import_of<'a, S: AsStr>(
    alloc: Global,
    words: &'a [S],
    matches: &ArgMatches<'a>,
) -> Result<Asked<'a>, WordsFault>
    ensures asked { IfOk result (IsAskedBy (map S.text words.entry.now)) }
    ensures refused { IfErr result (IsRefusedFor (map S.text words.entry.now)) }
{
    let wish = word_of(matches, WISH);
    let folder = word_of(matches, FOLDER);
    if !is_word(words, wish) {
        return Err(not_there(alloc));
    }
    if !is_word(words, folder) {
        return Err(not_there(alloc));
    }
    with_indexes(alloc, words, matches, wish, folder)
}
