//! What becomes of the recipes of the farm that is wanted.

use crate::archives::Archives;
use crate::control::{ControlText, Keyed};
use crate::lists::{names_in, push_name};
use crate::past::Past;
use crate::stop::{Stop, push_item_line, recipe_line, refused};
use crate::wanted::RECIPE;
use crate::words::SaidNames;
use deb_text::push_pieces;
use farm_universe::Universe;
use rest_farm::{
    Fate, Items, Name, Names, RecipeNames, RefusedWord, SaidWord, WantedRecipe, WordFault,
    WordRules, all_fates, first_fault,
};
use std::alloc::{AllocError, Global};

/// The recipes of the farm that is wanted, what becomes of each, and the names of those that were
/// published, by this run or an earlier one.
#[derive(Drop)]
pub struct Settled {
    pub recipes: Vec<WantedRecipe>,
    pub fates: Vec<Fate>,
    pub published: Names,
    pub said: SaidNames,
}

/// The names of the recipes that were published: those of the field `Done`, then those of the run.
pub fn published_names(
    alloc: Global,
    universe: &Universe,
    past: &Past,
    done: Option<&[u8]>,
) -> Result<Names, AllocError> {
    let mut names = names_in(alloc, done)?;
    for recipe in &past.published {
        push_name(alloc, &mut names, universe.recipe_name(*recipe))?;
    }
    Names::of(alloc, names)
}

/// The names of the recipes of a farm; of those with `Mode: built` alone.
fn recipe_names(
    alloc: Global,
    recipes: &[WantedRecipe],
    bare_alone: bool,
) -> Result<Names, AllocError> {
    let mut names = Vec::new(alloc);
    for recipe in recipes {
        if recipe.is_bare || !bare_alone {
            names.push(Name::of(alloc, recipe.name.bytes())?)?;
        }
    }
    Names::of(alloc, names)
}

fn why_refused(fault: WordFault) -> &'static [u8] {
    match fault {
        WordFault::NoRecipe => b"the farm has no such recipe",
        WordFault::Published => b"it is published",
        WordFault::Two => b"two words say two things of it",
        WordFault::Bare => b"the farm does not say how it is built: its Mode is built",
    }
}

fn word_lines(
    alloc: Global,
    words: &[SaidWord],
    fault: RefusedWord,
) -> Result<Vec<u8>, AllocError> {
    let name = match words.get(fault.place) {
        Some(said) => said.name.bytes(),
        None => b"",
    };
    let mut lines = recipe_line(alloc, b"722", name)?;
    push_pieces(&mut lines, &[b"  ", why_refused(fault.fault), b"\n"])?;
    Ok(lines)
}

/// Refuses the first word on a recipe that cannot be followed (722).
fn judge_words(
    alloc: Global,
    words: &[SaidWord],
    said: &SaidNames,
    published: &Names,
    recipes: &[WantedRecipe],
) -> Result<(), Stop> {
    let all = recipe_names(alloc, recipes, false)?;
    let bare = recipe_names(alloc, recipes, true)?;
    let rules = WordRules {
        recipes: &all,
        bare: &bare,
        published,
        given_up: &said.given_up,
        wanted_anew: &said.wanted_anew,
        said_built: &said.said_built,
    };
    match first_fault(rules, words) {
        Some(fault) => Err(refused(word_lines(alloc, words, fault))),
        None => Ok(()),
    }
}

/// Puts a line behind a text for each item that a recipe gives and a list has, or does not have.
fn push_lines(
    lines: &mut Vec<u8>,
    recipe: &WantedRecipe,
    list: &Items,
    wanted: bool,
    end: &[u8],
) -> Result<(), AllocError> {
    for item in &recipe.outputs {
        if list.has_item(item) == wanted {
            push_item_line(lines, b"  ", item, end)?;
        }
    }
    Ok(())
}

fn partly_lines(
    alloc: Global,
    archives: &Archives,
    recipe: &WantedRecipe,
) -> Result<Vec<u8>, AllocError> {
    let mut lines = recipe_line(alloc, b"721", recipe.name.bytes())?;
    push_lines(
        &mut lines,
        recipe,
        &archives.archive,
        true,
        b" is in the archive",
    )?;
    push_lines(&mut lines, recipe, &archives.archive, false, b" is not")?;
    Ok(lines)
}

fn withdrawn_lines(
    alloc: Global,
    archives: &Archives,
    recipe: &WantedRecipe,
) -> Result<Vec<u8>, AllocError> {
    let mut lines = recipe_line(alloc, b"721", recipe.name.bytes())?;
    let end = b" was withdrawn; another version is to be built";
    push_lines(&mut lines, recipe, &archives.gone, true, end)?;
    Ok(lines)
}

fn unbuilt_lines(alloc: Global, recipe: &WantedRecipe) -> Result<Vec<u8>, AllocError> {
    let mut lines = recipe_line(alloc, b"722", recipe.name.bytes())?;
    lines.extend_from_slice(b"  its Mode is built, and no build of it has ended\n")?;
    Ok(lines)
}

/// Refuses a recipe for what becomes of it.
fn judge_fate(
    alloc: Global,
    archives: &Archives,
    recipe: &WantedRecipe,
    fate: Fate,
) -> Result<(), Stop> {
    match fate {
        Fate::Partly => Err(refused(partly_lines(alloc, archives, recipe))),
        Fate::Withdrawn => Err(refused(withdrawn_lines(alloc, archives, recipe))),
        Fate::Unbuilt => Err(refused(unbuilt_lines(alloc, recipe))),
        Fate::GivenUp | Fate::Published | Fate::There | Fate::Built | Fate::Left => Ok(()),
    }
}

fn judge_fates(
    alloc: Global,
    archives: &Archives,
    recipes: &[WantedRecipe],
    fates: &[Fate],
) -> Result<(), Stop> {
    for (recipe, fate) in recipes.iter().zip(fates) {
        judge_fate(alloc, archives, recipe, *fate)?;
    }
    Ok(())
}

/// What words and runs say of recipes.
pub fn names_of<'a>(said: &'a SaidNames, published: &'a Names) -> RecipeNames<'a> {
    RecipeNames {
        given_up: &said.given_up,
        wanted_anew: &said.wanted_anew,
        said_built: &said.said_built,
        published,
    }
}

/// What becomes of the recipes of the farm that is wanted.
///
/// # Errors
///
/// Refusal 722 of the first word that cannot be followed; then 721 or 722 of the first recipe that
/// can be neither left nor left out.
pub fn settle(
    alloc: Global,
    archives: &Archives,
    words: &[SaidWord],
    published: Names,
    recipes: Vec<WantedRecipe>,
) -> Result<Settled, Stop> {
    let said = SaidNames::of(alloc, words)?;
    judge_words(alloc, words, &said, &published, &recipes)?;
    let names = names_of(&said, &published);
    let fates = all_fates(alloc, names, &archives.archive, &archives.gone, &recipes)?;
    judge_fates(alloc, archives, &recipes, &fates)?;
    Ok(Settled {
        recipes,
        fates,
        published,
        said,
    })
}

impl Settled {
    /// What becomes of the recipe of this place.
    pub fn fate(&self, place: usize) -> Fate {
        match self.fates.get(place) {
            Some(fate) => *fate,
            None => Fate::GivenUp,
        }
    }

    /// How many recipes are left.
    pub fn left(&self) -> usize {
        self.fates.iter().filter(|fate| fate.is_left()).count()
    }

    /// The place of the recipe of a name, if it is left.
    pub fn left_place(&self, farm: &ControlText<'_>, keyed: &Keyed, name: &[u8]) -> Option<usize> {
        let place = keyed.find(farm, RECIPE, name)?;
        if self.fate(place).is_left() {
            Some(place)
        } else {
            None
        }
    }
}
