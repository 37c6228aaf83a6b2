//! The recipes that no lane of the plan builds, the sources that recipes name, and the outputs that
//! the Package-List of their source has, and does not give to such a build.

use crate::warning::push_warning;
use deb_profile::{ArchNames, ProfileSet};
use deb_relation::{Entry, Kind};
use deb_stanza::Paragraphs;
use deb_version::VersionRef;
use debian_index::{Build, given_names};
use explain_faults::Piece::{Number, Words};
use explain_faults::{Entries, Paragraph, Pushed, first_words};
use farm_model::Mode;
use farm_universe::{Universe, pinned};
use plan_reader::{Instruction, Plan};
use std::alloc::{AllocError, Global};

/// Tells whether some lane builds the recipe of this name.
fn is_built(universe: &Universe, name: &[u8], plan: &Plan) -> bool {
    for number in 0..plan.lanes() {
        for instruction in plan.lane(number).instructions() {
            if let Instruction::Build(recipe) = instruction {
                if name == universe.recipe_name(*recipe) {
                    return true;
                }
            }
        }
    }
    false
}

/// Puts a warning of each recipe that no lane builds behind others.
pub fn push_recipes(
    lines: &mut Vec<u8>,
    universe: &Universe,
    plan: &Plan,
    farm: &Paragraphs,
) -> Pushed {
    for place in 1..farm.count() {
        let paragraph = Paragraph { among: farm, place };
        match paragraph.value(b"Recipe") {
            Some(name) if !is_built(universe, name, plan) => {
                let pieces = [Number(u64::from(paragraph.line())), Words(name)];
                push_warning(
                    lines,
                    b"farm line %0: no lane builds the recipe %1",
                    &pieces,
                )?;
            }
            _ => {}
        }
    }
    Ok(())
}

/// The name of a source.
pub fn source_name(source: Paragraph<'_>) -> &[u8] {
    match source.value(b"Package") {
        Some(name) => name,
        None => source.value(b"Source").unwrap_or(b""),
    }
}

/// A recipe, the item `name (= version)` of its field Source, and the Package-List of that source,
/// once it is found: no byte where it has none.
#[derive(Drop)]
pub struct RecipeSource<'a> {
    recipe: Paragraph<'a>,
    source: Option<Entry>,
    list: Option<Vec<u8>>,
}

/// Tells whether an item names this source, which has this name, in whatever form its version is
/// written.
fn names_source(item: &Entry, name: &[u8], source: Paragraph<'_>) -> bool {
    match (pinned(item), source.value(b"Version")) {
        (Some((wanted, version)), Some(text)) if wanted == name => match VersionRef::parse(text) {
            Ok(other) => version.compare(&other).is_eq(),
            Err(_) => false,
        },
        _ => false,
    }
}

impl RecipeSource<'_> {
    /// Keeps the Package-List of a source of this name, where the recipe names it.
    pub fn look(&mut self, alloc: Global, name: &[u8], source: Paragraph<'_>) -> Pushed {
        match &self.source {
            Some(item) if self.list.is_none() && names_source(item, name, source) => {
                let list = source.value(b"Package-List").unwrap_or(b"");
                self.list = Some(Vec::from_slice(alloc, list)?);
                Ok(())
            }
            _ => Ok(()),
        }
    }
}

/// The recipes of a farm text, of which no source was looked at.
pub fn recipe_sources(
    alloc: Global,
    farm: &Paragraphs,
) -> Result<Vec<RecipeSource<'_>>, AllocError> {
    let mut recipes = Vec::new(alloc);
    for place in 1..farm.count() {
        let recipe = Paragraph { among: farm, place };
        if recipe.has(b"Recipe") {
            let source = Entries::of(alloc, Kind::Provide, recipe.value(b"Source"))?.next()?;
            let list = None;
            recipes.push(RecipeSource {
                recipe,
                source,
                list,
            })?;
        }
    }
    Ok(recipes)
}

/// Tells whether a Package-List has a row `name deb section priority` for the package of this name,
/// perhaps with marks.
fn is_listed(list: &[u8], name: &[u8]) -> bool {
    list.split(|byte| *byte == b'\n').any(|row| {
        let [given, kind, _, priority, ..] = first_words(row);
        given == name && kind == b"deb".as_slice() && !priority.is_empty()
    })
}

/// The names in a Package-List that the build of a recipe gives, of this paragraph. Its profiles
/// were read with the farm text, so nothing but memory can be wrong with them.
fn names_given<'a>(
    alloc: Global,
    names: &ArchNames,
    recipe: Paragraph<'_>,
    list: &'a [u8],
) -> Result<Vec<&'a [u8]>, AllocError> {
    let profiles = recipe.value(b"Profiles").unwrap_or(b"");
    let Ok(profiles) = ProfileSet::parse(alloc, profiles) else {
        return Err(AllocError);
    };
    let mode = match recipe.value(b"Mode") {
        Some(text) if text == b"arch".as_slice() => Mode::Arch,
        Some(text) if text == b"indep".as_slice() => Mode::Indep,
        _ => Mode::Full,
    };
    let profiles = &profiles;
    let build = Build {
        names,
        profiles,
        mode,
    };
    given_names(alloc, list, &build)
}

/// Puts a warning of each output of a recipe that its source lists, and does not give to such a
/// build, behind others.
fn push_of_recipe(
    alloc: Global,
    lines: &mut Vec<u8>,
    names: &ArchNames,
    of: &RecipeSource<'_>,
) -> Pushed {
    let Some(list) = &of.list else {
        return Ok(());
    };
    let given = names_given(alloc, names, of.recipe, list)?;
    let line = Number(u64::from(of.recipe.line()));
    let words = b"farm line %0: by the Package-List of its source this recipe does not build %1";
    let mut outputs = Entries::of(alloc, Kind::Provide, of.recipe.value(b"Outputs"))?;
    while let Some(output) = outputs.next()? {
        match pinned(&output) {
            Some((name, _)) if is_listed(list, name) && !given.contains(&name) => {
                push_warning(lines, words, &[line, Words(name)])?;
            }
            _ => {}
        }
    }
    Ok(())
}

/// Puts a warning behind others of each output of a recipe that the Package-List of its source has,
/// and that is not built for the farm's architecture in the recipe's mode under its profiles.
pub fn push_outputs(
    alloc: Global,
    lines: &mut Vec<u8>,
    names: &ArchNames,
    recipes: &[RecipeSource<'_>],
) -> Pushed {
    for recipe in recipes {
        push_of_recipe(alloc, lines, names, recipe)?;
    }
    Ok(())
}
