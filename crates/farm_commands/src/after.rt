//! What `after` answers.

ghost use Rattle.std.specs.Prelude.{◌≡◌, IfOk, map};
ghost use Rattle.farm_answers.specs.Files.{named};
ghost use Rattle.farm_answers.specs.declared.source.TheConstants.{MOST_FILE};
ghost use Rattle.farm_commands.specs.Folders.{IsRead};
ghost use Rattle.farm_commands.specs.Afters.{AreRestFiles, AreRunTexts, IsAfter, IsRestOfFiles, texts_in};
ghost use Rattle.farm_commands.specs.Makings.{IsTold, head_by};
ghost use Rattle.farm_commands.specs.declared.making.Maker.TheVariants.{After as ByAfter};
ghost use Rattle.plan_reader.specs.TextsView.{texts_view};
ghost use Rattle.rest_texts.specs.Afters.{OfAfter, OfRest};

use crate::folder::Folder;
use crate::inputs::read_one;
use crate::making::{Maker, Target, write_made};
use crate::tell::{MakingFault, REFUSED, tell};
use crate::text_files::rest_files_in;
use command_line::{AfterFiles, AfterWords, NewPaths, RecipeOption, RecipeSaid};
use farm_answers::MOST_FILE;
use plan_reader::Texts;
use report_sink::{Sink, write_text};
use rest_farm::{Name, RecipeWord, SaidWord};
use rest_texts::{After, Given, Rest, Run, Said, rest_after};
use std::alloc::{AllocError, Global};

/// The texts of a run, and its journal.
#[derive(Drop)]
pub struct RunTexts {
    pub packages: Vec<u8>,
    pub sources: Vec<u8>,
    pub farm: Vec<u8>,
    pub plan: Vec<u8>,
    pub journal: Vec<u8>,
}

impl RunTexts {
    fn lent(&self) -> Run<'_>
        ensures texts { texts_view result.texts ≡ texts_in self.now }
        ensures journal { result.journal.now ≡ self.now.journal.items }
    {
        Run {
            texts: Texts {
                packages: &self.packages,
                sources: &self.sources,
                farm: &self.farm,
                plan: &self.plan,
            },
            journal: &self.journal,
        }
    }
}

/// The texts that are given in place of those of the run, and of a sketch of its lanes.
#[derive(Drop)]
struct NewTexts {
    packages: Option<Vec<u8>>,
    sources: Option<Vec<u8>>,
    farm: Option<Vec<u8>>,
    sketch: Option<Vec<u8>>,
}

fn lent_text(text: &Option<Vec<u8>>) -> Option<&[u8]> {
    match text {
        Some(text) => Some(text.as_slice()),
        None => None,
    }
}

impl NewTexts {
    fn lent(&self) -> Given<'_> {
        Given {
            packages: lent_text(&self.packages),
            sources: lent_text(&self.sources),
            farm: lent_text(&self.farm),
            sketch: lent_text(&self.sketch),
        }
    }
}

fn read_new<F: Folder>(
    alloc: Global,
    folder: &F,
    path: Option<&str>,
) -> Result<Option<Vec<u8>>, MakingFault> {
    match path {
        Some(path) => Ok(Some(read_one(alloc, folder, path, MOST_FILE)?)),
        None => Ok(None),
    }
}

/// Reads the files that are given in place of those of the run.
fn read_given<F: Folder>(
    alloc: Global,
    folder: &F,
    given: NewPaths<'_>,
) -> Result<NewTexts, MakingFault> {
    let packages = read_new(alloc, folder, given.packages)?;
    let sources = read_new(alloc, folder, given.sources)?;
    let farm = read_new(alloc, folder, given.farm)?;
    let sketch = read_new(alloc, folder, given.sketch)?;
    Ok(NewTexts {
        packages,
        sources,
        farm,
        sketch,
    })
}

/// Reads a journal. One that is longer than a text may be is refused, since its first part would tell
/// of an earlier state.
fn read_journal<F: Folder>(alloc: Global, folder: &F, path: &str) -> Result<Vec<u8>, MakingFault>
    ensures { IfOk result (λ bytes.
        IsRead MOST_FILE (named (F.held folder.now) (F.given folder.now) path.now) bytes.items) }
{
    let journal = read_one(alloc, folder, path, MOST_FILE)?;
    if journal.len() >= MOST_FILE as usize {
        return Err(MakingFault::TooLong(Vec::from_slice(alloc, path.as_bytes())?));
    }
    Ok(journal)
}

/// Reads the files of a run.
fn read_run<F: Folder>(
    alloc: Global,
    folder: &F,
    files: AfterFiles<'_>,
) -> Result<RunTexts, MakingFault>
    ensures { IfOk result
        (AreRunTexts (named (F.held folder.now) (F.given folder.now)) files.entry) }
{
    let paths = files.paths;
    let packages = read_one(alloc, folder, paths.packages, MOST_FILE)?;
    let sources = read_one(alloc, folder, paths.sources, MOST_FILE)?;
    let farm = read_one(alloc, folder, paths.farm, MOST_FILE)?;
    let plan = read_one(alloc, folder, paths.plan, MOST_FILE)?;
    let journal = read_journal(alloc, folder, files.journal)?;
    Ok(RunTexts {
        packages,
        sources,
        farm,
        plan,
        journal,
    })
}

fn word_of(option: RecipeOption) -> RecipeWord {
    match option {
        RecipeOption::Without => RecipeWord::Without,
        RecipeOption::Again => RecipeWord::Again,
        RecipeOption::Built => RecipeWord::Built,
    }
}

/// What words say of recipes.
fn recipe_words(alloc: Global, said: &[RecipeSaid<'_>]) -> Result<Vec<SaidWord>, AllocError> {
    let mut words = Vec::new(alloc);
    for recipe in said {
        let name = Name::of(alloc, recipe.name.as_bytes())?;
        words.push(SaidWord {
            word: word_of(recipe.option),
            name,
        })?;
    }
    Ok(words)
}

/// The bytes of words.
fn bytes_of<'a>(alloc: Global, words: &[&'a str]) -> Result<Vec<&'a [u8]>, AllocError>
    ensures { IfOk result (λ texts. map (λ text. text.now) texts.items
        ≡ map (λ word. word.now) words.now) }
{
    let mut texts = Vec::new(alloc);
    for word in words {
        texts.push(word.as_bytes())?;
    }
    Ok(texts)
}

/// Makes the texts of what is left of a run, by the files that words name.
fn read_and_make<F: Folder>(
    alloc: Global,
    folder: &F,
    asked: &AfterWords<'_>,
) -> Result<After, MakingFault>
    ensures { IfOk result
        (OfAfter (IsRestOfFiles (named (F.held folder.now) (F.given folder.now)) asked.now)) }
{
    let given = read_given(alloc, folder, asked.files.given)?;
    let run = read_run(alloc, folder, asked.files)?;
    let recipes = recipe_words(alloc, &asked.recipes)?;
    let withdrawn = bytes_of(alloc, &asked.withdrawn)?;
    let came = bytes_of(alloc, &asked.came)?;
    let said = Said {
        recipes: &recipes,
        withdrawn: &withdrawn,
        came: &came,
    };
    Ok(rest_after(alloc, run.lent(), given.lent(), said)?)
}

fn target_of<'a>(asked: &AfterWords<'a>) -> Target<'a>
    ensures maker { result.maker ≡ ByAfter }
    ensures force { result.force ≡ asked.now.force }
{
    Target {
        folder: asked.files.folder,
        maker: Maker::After,
        force: asked.force,
    }
}

/// Writes the files of what is left of a run and the answer, and gives the status.
fn tell_rest<F: Folder, S: Sink>(
    alloc: Global,
    folder: &mut F,
    asked: &AfterWords<'_>,
    rest: &Rest,
    out: &mut S,
) -> Result<u8, MakingFault>
    requires { OfRest (IsRestOfFiles (named (F.held folder.old) (F.given folder.old)) asked.now)
        rest.now }
    ensures { IsTold (AreRestFiles (named (F.held folder.old) (F.given folder.old)) asked.now)
        (head_by ByAfter) asked.now.force (F.held folder.old) (F.held folder.new)
        (S.state out.old) (S.state out.new) result }
{
    match rest {
        Rest::Texts(made, sketch, lines) => {
            let files = rest_files_in(alloc, asked.files.folder, made, sketch)?;
            write_made(alloc, folder, target_of(asked), &files, lines, out)
        }
        Rest::Refused(lines) => {
            write_text(out, lines)?;
            Ok(REFUSED)
        }
        Rest::Wrong => Err(MakingFault::Wrong),
    }
}

/// Makes the texts, writes the files and the answer, and gives the status.
fn answer<F: Folder, S: Sink>(
    alloc: Global,
    folder: &mut F,
    asked: &AfterWords<'_>,
    out: &mut S,
) -> Result<u8, MakingFault>
    ensures { IsTold (AreRestFiles (named (F.held folder.old) (F.given folder.old)) asked.now)
        (head_by ByAfter) asked.now.force (F.held folder.old) (F.held folder.new)
        (S.state out.old) (S.state out.new) result }
{
    match read_and_make(alloc, folder, asked)? {
        After::Rest(rest) => tell_rest(alloc, folder, asked, &rest, out),
        After::Ended(run) => Err(MakingFault::Ended(run)),
        After::Misfit(line) => Err(MakingFault::Misfit(line)),
    }
}

/// Makes the texts of what is left of a run, writes them to the files `packages`, `sources`, `farm` and
/// `sketch` of a folder, tells of them, and gives the status: 0; 1 for a refusal, which writes no file;
/// 3 where a file cannot be read or written, or is none that `after` has made and no force is used,
/// where the journal does not fit or has ended, where memory is refused, or the answer cannot be
/// written. What is said of the last ones stands on the error output.
pub fn after_files<F: Folder, S: Sink, E: Sink>(
    alloc: Global,
    folder: &mut F,
    asked: &AfterWords<'_>,
    out: &mut S,
    errors: &mut E,
) -> u8
    ensures { IsAfter (F.held folder.old) (F.held folder.new) (F.given folder.old) asked.now
        (S.state out.old) (S.state out.new) result }
{
    match answer(alloc, folder, asked, out) {
        Ok(status) => status,
        Err(fault) => tell(&fault, errors),
    }
}
