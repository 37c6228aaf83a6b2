//! The words of an import of an encoded wish, whose lines are told as those of the wish.

ghost use Rattle.std.specs.Prelude.{IfOk};
ghost use Rattle.import_farm.specs.Notes.{HasNotes};

use cross_wish::SPREAD;
use import_closure::{BuildStop, Shelf, SourceShelf};
use import_farm::{COUNTS, Count, Farm, Inputs, Read, Refusal, RefusedRecipe, Tell, Told};
use std::alloc::{AllocError, Global};
use std::marker::PhantomData;

/// Words what an import tells as `T` does.
pub struct CrossLines<T: Tell> {
    of: PhantomData<T>,
}

fn copy_stop(alloc: Global, stop: &BuildStop) -> Result<BuildStop, AllocError> {
    match stop {
        BuildStop::OutOfMemory => Ok(BuildStop::OutOfMemory),
        BuildStop::UnknownSource => Ok(BuildStop::UnknownSource),
        BuildStop::NotGiven(name) => Ok(BuildStop::NotGiven(Vec::from_slice(alloc, name)?)),
        BuildStop::NothingGiven(lack) => Ok(BuildStop::NothingGiven(*lack)),
    }
}

/// A refused recipe, at its line in the wish.
fn recipe_of(alloc: Global, recipe: &RefusedRecipe) -> Result<RefusedRecipe, AllocError> {
    let version = match &recipe.version {
        Some(version) => Some(Vec::from_slice(alloc, version)?),
        None => None,
    };
    Ok(RefusedRecipe {
        line: recipe.line / SPREAD,
        name: Vec::from_slice(alloc, &recipe.name)?,
        source: Vec::from_slice(alloc, &recipe.source)?,
        version,
        stop: copy_stop(alloc, &recipe.stop)?,
    })
}

fn recipes_of(alloc: Global, refused: &[RefusedRecipe]) -> Result<Vec<RefusedRecipe>, AllocError> {
    let mut recipes = Vec::with_capacity(alloc, refused.len())?;
    for recipe in refused {
        recipes.push(recipe_of(alloc, recipe)?)?;
    }
    Ok(recipes)
}

impl<T: Tell> Tell for CrossLines<T> {
    fn farm_lines(
        alloc: Global,
        shelf: &mut Shelf,
        sources: &SourceShelf,
        told: Told,
        farm: Farm,
    ) -> Result<Vec<u8>, AllocError> {
        T::farm_lines(alloc, shelf, sources, told, farm)
    }

    fn recipe_lines(
        alloc: Global,
        shelf: &mut Shelf,
        sources: &SourceShelf,
        read: Read,
        refused: &[RefusedRecipe],
    ) -> Result<Vec<u8>, AllocError> {
        let refused = recipes_of(alloc, refused)?;
        T::recipe_lines(alloc, shelf, sources, read, &refused)
    }

    fn limit_lines(
        alloc: Global,
        shelf: &mut Shelf,
        told: Told,
        counts: &[Count; COUNTS],
    ) -> Result<Vec<u8>, AllocError> {
        T::limit_lines(alloc, shelf, told, counts)
    }

    fn refusal_lines(
        alloc: Global,
        inputs: Inputs,
        refusal: &Refusal,
    ) -> Result<Vec<u8>, AllocError> {
        T::refusal_lines(alloc, inputs, refusal)
    }
}
