//! What `after` asks for.

ghost use Rattle.std.specs.Prelude.{◌≡◌, IfErr, IfOk, map, true};
ghost use Rattle.command_line.specs.Words.{AreAfterFiles, AreGivenWords, IsAskedBy, IsRefusedFor};

use crate::among::{are_words, ends_word, is_word};
use crate::command::{
    CAME, FOLDER, FORCE, INPUT, JOURNAL, NEW_FARM, NEW_PACKAGES, NEW_SOURCES, SKETCH, WITHDRAW,
};
use crate::drive::is_named;
use crate::import::names_behind;
use crate::request::{Asked, Paths, WordsFault, not_there, paths_of, word_of, wrong};
use clap::ArgMatches;
use std::alloc::{AllocError, Global};
use std::convert::AsStr;

/// What a word says of a recipe.
#[derive(Clone, Copy, PartialEq, Eq)]
pub enum RecipeOption {
    /// It is given up.
    Without,
    /// It is wanted anew.
    Again,
    /// It is built.
    Built,
}

/// A recipe that a word names, and what it says of that.
#[derive(Clone, Copy)]
pub struct RecipeSaid<'a> {
    pub option: RecipeOption,
    pub name: &'a str,
}

/// The files that are given in place of those of the run, and of a sketch of its lanes.
#[derive(Clone, Copy)]
pub struct NewPaths<'a> {
    pub packages: Option<&'a str>,
    pub sources: Option<&'a str>,
    pub farm: Option<&'a str>,
    pub sketch: Option<&'a str>,
}

/// The files of a run and its journal, those that are given in their place, and the folder of the
/// texts that are made.
#[derive(Clone, Copy)]
pub struct AfterFiles<'a> {
    pub paths: Paths<'a>,
    pub journal: &'a str,
    pub given: NewPaths<'a>,
    pub folder: &'a str,
}

/// The files of a run and of what comes of it; what is said of recipes, in the order of the words;
/// what is withdrawn and what came by hand, each as `NAME=VERSION`; and whether files of others are
/// replaced in the folder.
#[derive(Drop)]
pub struct AfterWords<'a> {
    pub files: AfterFiles<'a>,
    pub recipes: Vec<RecipeSaid<'a>>,
    pub withdrawn: Vec<&'a str>,
    pub came: Vec<&'a str>,
    pub force: bool,
}

/// What a word begins to say of a recipe, and the name that it has itself.
fn option_in(word: &str) -> Option<(RecipeOption, Option<&str>)> {
    if let Some(rest) = word.strip_prefix("--without") {
        return Some((RecipeOption::Without, rest.strip_prefix('=')));
    }
    if let Some(rest) = word.strip_prefix("--again") {
        return Some((RecipeOption::Again, rest.strip_prefix('=')));
    }
    if let Some(rest) = word.strip_prefix("--built") {
        return Some((RecipeOption::Built, rest.strip_prefix('=')));
    }
    None
}

/// What words say of recipes, in their order. The parser has taken them, so that a name is the
/// option's own or the next word.
fn said_in<'a, S: AsStr>(alloc: Global, words: &'a [S]) -> Result<Vec<RecipeSaid<'a>>, AllocError> {
    let mut said = Vec::new(alloc);
    for place in 0..words.len() {
        let Some((option, own)) = option_in(words[place].as_str()) else {
            continue;
        };
        let next = match words.get(place.saturating_add(1)) {
            Some(word) => word.as_str(),
            None => "",
        };
        let name = own.unwrap_or(next);
        said.push(RecipeSaid { option, name })?;
    }
    Ok(said)
}

fn new_paths<'a>(matches: &ArgMatches<'a>) -> NewPaths<'a> {
    NewPaths {
        packages: matches.get_str(NEW_PACKAGES),
        sources: matches.get_str(NEW_SOURCES),
        farm: matches.get_str(NEW_FARM),
        sketch: matches.get_str(SKETCH),
    }
}

fn files_of<'a>(matches: &ArgMatches<'a>) -> AfterFiles<'a> {
    AfterFiles {
        paths: paths_of(matches),
        journal: word_of(matches, JOURNAL),
        given: new_paths(matches),
        folder: word_of(matches, FOLDER),
    }
}

fn is_input(name: Option<&str>) -> bool {
    name == Some(INPUT)
}

/// For how many files standard input stands.
fn inputs_in(files: AfterFiles<'_>) -> usize {
    let (paths, given) = (files.paths, files.given);
    let names = [
        Some(paths.packages),
        Some(paths.sources),
        Some(paths.farm),
        Some(paths.plan),
        Some(files.journal),
        given.packages,
        given.sources,
        given.farm,
        given.sketch,
    ];
    names.iter().filter(|name| is_input(**name)).count()
}

/// Tells whether words end with the names of the files that are given.
fn are_given<S: AsStr>(words: &[S], given: NewPaths<'_>) -> bool
    ensures { result ≡ true → AreGivenWords (map S.text words.now) given.entry }
{
    if !is_named(words, given.packages) {
        return false;
    }
    if !is_named(words, given.sources) {
        return false;
    }
    if !is_named(words, given.farm) {
        return false;
    }
    is_named(words, given.sketch)
}

/// Tells whether the names of all files are from the words.
fn are_files<S: AsStr>(words: &[S], files: AfterFiles<'_>) -> bool
    ensures { result ≡ true → AreAfterFiles (map S.text words.now) files.entry }
{
    if !are_words(words, files.paths) {
        return false;
    }
    if !ends_word(words, files.journal) {
        return false;
    }
    if !is_word(words, files.folder) {
        return false;
    }
    are_given(words, files.given)
}

/// What these files and the words ask for.
fn with_files<'a, S: AsStr>(
    alloc: Global,
    words: &'a [S],
    matches: &ArgMatches<'a>,
    files: AfterFiles<'a>,
) -> Result<Asked<'a>, WordsFault>
    requires files { AreAfterFiles (map S.text words.now) files }
    ensures asked { IfOk result (IsAskedBy (map S.text words.entry.now)) }
    ensures refused { IfErr result (IsRefusedFor (map S.text words.entry.now)) }
{
    let withdrawn = names_behind(alloc, words, matches, WITHDRAW)?;
    let came = names_behind(alloc, words, matches, CAME)?;
    let recipes = said_in(alloc, words)?;
    Ok(Asked::After(AfterWords {
        files,
        recipes,
        withdrawn,
        came,
        force: matches.get_flag(FORCE),
    }))
}

/// What `after` asks for.
pub fn after_of<'a, S: AsStr>(
    alloc: Global,
    words: &'a [S],
    matches: &ArgMatches<'a>,
) -> Result<Asked<'a>, WordsFault>
    ensures asked { IfOk result (IsAskedBy (map S.text words.entry.now)) }
    ensures refused { IfErr result (IsRefusedFor (map S.text words.entry.now)) }
{
    let files = files_of(matches);
    if inputs_in(files) > 1 {
        return Err(wrong(alloc, "error: `-` can stand for one file alone\n"));
    }
    if !are_files(words, files) {
        return Err(not_there(alloc));
    }
    with_files(alloc, words, matches, files)
}
