//! Recipes that are forbidden: their builds are left out, and the choice is made again.

use deb_text::push_pieces;
use import_closure::{Shelf, SourceShelf};
use import_farm::Stop;
use stage_answers::{Answer, Choosing, ChosenRecipe, choose_again, chosen_recipes};
use stage_builds::{Scope, Ways};
use stage_obstacles::{Asked, obstacle_lines};
use std::alloc::AllocError;

/// Lets a choice go on that ended with builds.
///
/// # Errors
///
/// The refusal 708 or 709 where there is no way; that the program is wrong where what was chosen is no
/// answer.
pub fn judge_choice(
    scope: Scope,
    answer: &Answer,
    forbidden: &[usize],
    shelf: &Shelf,
    sources: &SourceShelf,
) -> Result<(), Stop> {
    match &answer.answered.choosing {
        Choosing::Builds(_) => Ok(()),
        Choosing::Wrong => Err(Stop::Wrong),
        Choosing::NoWay => {
            let asked = Asked {
                scope,
                ways: &answer.ways,
                goals: &answer.answered.goals,
                forbidden,
            };
            Err(Stop::Told(obstacle_lines(asked, shelf, sources)?))
        }
    }
}

fn is_own(ways: &Ways, place: usize) -> bool {
    match ways.ways.get(place) {
        Some(way) => way.own.is_some(),
        None => false,
    }
}

/// The place of the build of the recipe of a name, if it was chosen.
fn place_of(ways: &Ways, recipes: &[ChosenRecipe], name: &[u8]) -> Option<usize> {
    for recipe in recipes {
        if recipe.name.as_slice() == name && !is_own(ways, recipe.place) {
            return Some(recipe.place);
        }
    }
    None
}

fn push_note(notes: &mut Vec<u8>, name: &str) -> Result<(), AllocError> {
    push_pieces(
        notes,
        &[
            b"note: --forbid ",
            name.as_bytes(),
            b": no recipe that was chosen has this name\n",
        ],
    )
}

/// The place of the build that a name forbids; a note where none was chosen of this name.
fn forbidden_place(
    scope: Scope,
    shelf: &mut Shelf,
    answer: &mut Answer,
    name: &str,
    notes: &mut Vec<u8>,
) -> Result<Option<usize>, AllocError> {
    let recipes = chosen_recipes(scope, shelf, answer)?;
    let place = place_of(&answer.ways, &recipes, name.as_bytes());
    if place.is_none() {
        push_note(notes, name)?;
    }
    Ok(place)
}

/// Chooses again without the build of a further place.
fn choose_without(
    scope: Scope,
    answer: &mut Answer,
    forbidden: &mut Vec<usize>,
    place: usize,
) -> Result<(), AllocError> {
    forbidden.push(place)?;
    choose_again(scope, answer, forbidden)
}

/// Chooses again without the recipe of each of some names, one after another.
///
/// # Errors
///
/// Those of [`judge_choice`].
pub fn forbid_all(
    scope: Scope,
    answer: &mut Answer,
    names: &[&str],
    shelf: &mut Shelf,
    sources: &SourceShelf,
    notes: &mut Vec<u8>,
) -> Result<(), Stop> {
    let mut forbidden = Vec::new(scope.alloc);
    for name in names {
        if let Some(place) = forbidden_place(scope, shelf, answer, name, notes)? {
            choose_without(scope, answer, &mut forbidden, place)?;
            judge_choice(scope, answer, &forbidden, shelf, sources)?;
        }
    }
    Ok(())
}
