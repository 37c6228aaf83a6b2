//! The builds of the recipes that the wish has itself.

use crate::Scope;
use crate::growing::Ways;
use crate::kind::{Kind, kind_of};
use crate::way::{OwnRecipe, OwnWay, read_own_way};
use deb_profile::ProfileSet;
use deb_text::next_word;
use import_closure::{Build, Shelf, SourceHere, SourceShelf};
use import_wish::WishedRecipe;
use std::alloc::{AllocError, Global};

/// A recipe that the wish has itself, and its build.
#[derive(Clone, Copy)]
pub struct OwnBuild<'a> {
    pub recipe: &'a WishedRecipe,
    pub build: &'a Build,
}

/// The profiles of a text that are not those of a set.
fn further_words<'a>(
    alloc: Global,
    base: &ProfileSet,
    text: &'a [u8],
) -> Result<Vec<&'a [u8]>, AllocError> {
    let mut further = Vec::new(alloc);
    let mut rest = text;
    while let Some((word, behind)) = next_word(rest) {
        if !base.is_active(word) {
            further.push(word)?;
        }
        rest = behind;
    }
    Ok(further)
}

/// The kind of a recipe's build, by the profiles that it has beyond those of all recipes.
fn own_kind(scope: Scope, profiles: &[u8]) -> Result<Kind, AllocError> {
    let further = further_words(scope.alloc, scope.asked.bases.own, profiles)?;
    Ok(kind_of(&further))
}

fn own_recipe(number: u32, source: &SourceHere) -> Result<OwnRecipe, AllocError> {
    Ok(OwnRecipe {
        number,
        source: SourceHere {
            number: source.number,
            version: source.version.clone()?,
        },
    })
}

/// In which way a recipe is built.
fn own_way(scope: Scope, number: u32, own: OwnBuild) -> Result<OwnWay, AllocError> {
    let profiles = &own.recipe.way.profiles;
    Ok(OwnWay {
        recipe: own_recipe(number, &own.build.source)?,
        mode: own.recipe.way.mode,
        profiles: Vec::from_slice(scope.alloc, profiles)?,
        kind: own_kind(scope, profiles)?,
    })
}

/// Adds the build of a recipe of this number.
fn add_own(
    scope: Scope,
    shelf: &mut Shelf,
    sources: &mut SourceShelf,
    ways: &mut Ways,
    number: u32,
    own: OwnBuild,
) -> Result<(), AllocError> {
    let source = ways.source(scope, shelf, sources, &own.recipe.source.name)?;
    let way = own_way(scope, number, own)?;
    let way = read_own_way(scope, shelf, &mut ways.stock, source, way, own.build)?;
    ways.ways.push(way)?;
    Ok(())
}

/// Adds the builds of the recipes that the wish has itself, in its order. No others are there yet.
pub fn add_own_builds(
    scope: Scope,
    shelf: &mut Shelf,
    sources: &mut SourceShelf,
    ways: &mut Ways,
) -> Result<(), AllocError> {
    let mut number = 0u32;
    for own in scope.asked.own {
        add_own(scope, shelf, sources, ways, number, *own)?;
        number = number.saturating_add(1);
    }
    Ok(())
}
