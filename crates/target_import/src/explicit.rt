//! The explicit wish of a choice, and what is told of it.

use crate::asked::{
    Left, Prepared, bases_of, build_essential, own_builds, reduced_of, scope_of, sets_of,
};
use crate::forbid::{forbid_all, judge_choice};
use crate::notes::{push_beginning_notes, push_source_notes};
use crate::unmet_targets::unmet_lines;
use deb_relation::Relations;
use import_closure::{PackageNames, Shelf, SourceShelf};
use import_farm::{Builds, HEAD, RefusedRecipe, Stop, Tell, read_builds};
use import_wish::WishedRecipe;
use stage_answers::{
    Answer, NoAnswer, UnmetTarget, WishHead, WishedBase, choose_for_targets, chosen_recipes,
    push_table, push_wish,
};
use stage_builds::Scope;
use std::alloc::{AllocError, Global};

/// What a choice comes to: the text of the explicit wish, the lines that tell of the choice, notes on
/// it, and the names of what is there at the beginning, if that is not all of the archive's index.
#[derive(Drop)]
pub struct Chosen {
    pub wish: Vec<u8>,
    pub table: Vec<u8>,
    pub notes: Vec<u8>,
    pub begin: Option<PackageNames>,
}

/// The text of the explicit wish.
fn wish_text(
    scope: Scope,
    left: Left,
    bases: &[WishedBase],
    shelf: &mut Shelf,
    answer: &mut Answer,
) -> Result<Vec<u8>, AllocError> {
    let recipes = chosen_recipes(scope, shelf, answer)?;
    let given = &left.read.of.wish.head;
    let head = WishHead {
        architectures: &given.architectures,
        mode: given.mode,
        profiles: given.profiles,
        chroots: bases,
    };
    let mut text = Vec::from_slice(scope.alloc, HEAD)?;
    push_wish(&mut text, scope, head, answer, &recipes)?;
    Ok(text)
}

/// The lines that tell of a choice.
fn table_of(
    scope: Scope,
    shelf: &Shelf,
    sources: &SourceShelf,
    answer: &Answer,
) -> Result<Vec<u8>, AllocError> {
    let mut table = Vec::new(scope.alloc);
    push_table(&mut table, scope, shelf, sources, answer)?;
    Ok(table)
}

/// What builds that were chosen come to.
fn chosen_of(
    scope: Scope,
    left: Left,
    bases: &[WishedBase],
    shelf: &mut Shelf,
    sources: &SourceShelf,
    answer: &mut Answer,
) -> Result<Chosen, Stop> {
    let mut notes = Vec::new(scope.alloc);
    judge_choice(scope, answer, &[], shelf, sources)?;
    push_beginning_notes(&mut notes, scope, shelf, answer)?;
    forbid_all(scope, answer, left.forbidden, shelf, sources, &mut notes)?;
    push_source_notes(&mut notes, answer)?;
    let wish = wish_text(scope, left, bases, shelf, answer)?;
    let table = table_of(scope, shelf, sources, answer)?;
    let begin = answer.ways.stock.beginning_names(scope, shelf)?;
    Ok(Chosen {
        wish,
        table,
        notes,
        begin,
    })
}

/// The lines of the refusals of the wish's own recipes whose builds cannot be made.
fn recipe_lines<T: Tell>(
    alloc: Global,
    left: Left,
    refused: &[RefusedRecipe],
    shelf: &mut Shelf,
    sources: &SourceShelf,
) -> Result<Vec<u8>, AllocError> {
    if refused.is_empty() {
        return Ok(Vec::new(alloc));
    }
    T::recipe_lines(alloc, shelf, sources, left.read, refused)
}

/// The line of the wish's first paragraph.
fn first_line(left: Left) -> u32 {
    if left.read.paragraphs.count() == 0 {
        return 0;
    }
    left.read.paragraphs.line_of(0)
}

/// Refuses targets that the indexes cannot have, and recipes whose builds cannot be made.
fn refuse<T: Tell>(
    scope: Scope,
    left: Left,
    refused: &[RefusedRecipe],
    (unmet, lacking): (&[UnmetTarget], &[u32]),
    shelf: &mut Shelf,
    sources: &SourceShelf,
) -> Result<Vec<u8>, AllocError> {
    let mut lines = unmet_lines(scope, shelf, sources, first_line(left), unmet, lacking)?;
    let more = recipe_lines::<T>(scope.alloc, left, refused, shelf, sources)?;
    lines.extend_from_slice(&more)?;
    Ok(lines)
}

/// Chooses builds, and tells of them; else why there are none.
fn choose_in<T: Tell>(
    scope: Scope,
    left: Left,
    bases: &[WishedBase],
    refused: &[RefusedRecipe],
    shelf: &mut Shelf,
    sources: &mut SourceShelf,
) -> Result<Chosen, Stop> {
    match choose_for_targets(scope, shelf, sources) {
        Ok(answer) => {
            let lines = recipe_lines::<T>(scope.alloc, left, refused, shelf, sources)?;
            if !lines.is_empty() {
                return Err(Stop::Told(lines));
            }
            let mut answer = answer;
            chosen_of(scope, left, bases, shelf, sources, &mut answer)
        }
        Err(NoAnswer::Targets(unmet, lacking)) => {
            let targets = (unmet.as_slice(), lacking.as_slice());
            let lines = refuse::<T>(scope, left, refused, targets, shelf, sources)?;
            Err(Stop::Told(lines))
        }
        Err(NoAnswer::OutOfMemory) => Err(Stop::OutOfMemory),
    }
}

/// The same where what is asked for is prepared.
fn choose_prepared<'a, T: Tell>(
    left: Left<'a>,
    prepared: &'a Prepared<'a>,
    bases: &'a [WishedBase<'a>],
    refused: &[RefusedRecipe],
    shelf: &mut Shelf,
    sources: &mut SourceShelf,
) -> Result<Chosen, Stop> {
    let scope = scope_of(left.alloc, left, prepared);
    choose_in::<T>(scope, left, bases, refused, shelf, sources)
}

/// The recipes that a wish has itself, if all their builds can be made.
fn own_recipes<'a>(left: Left<'a>, builds: &Builds) -> &'a [WishedRecipe] {
    if builds.refused.is_empty() {
        let wish = left.read.of.wish;
        &wish.items.recipes
    } else {
        &[]
    }
}

/// The same where the base chroots are known.
fn choose_based<'a, T: Tell>(
    left: Left<'a>,
    builds: &'a Builds,
    bases: &'a [WishedBase<'a>],
    shelf: &mut Shelf,
    sources: &mut SourceShelf,
) -> Result<Chosen, Stop> {
    let prepared = Prepared {
        sets: sets_of(left.alloc, left)?,
        reduced: reduced_of(left.alloc, left, bases)?,
        own: own_builds(left.alloc, own_recipes(left, builds), &builds.made)?,
    };
    choose_prepared::<T>(left, &prepared, bases, &builds.refused, shelf, sources)
}

/// The same where the packages of the base chroot are known that stands where the wish names none.
fn choose_standard<'a, T: Tell>(
    left: Left<'a>,
    builds: &'a Builds,
    standard: &'a Relations,
    shelf: &mut Shelf,
    sources: &mut SourceShelf,
) -> Result<Chosen, Stop> {
    let bases = bases_of(left.alloc, left.read.of.wish, standard)?;
    choose_based::<T>(left, builds, &bases, shelf, sources)
}

/// The same where the builds of the wish's own recipes are read.
fn choose_with<'a, T: Tell>(
    left: Left<'a>,
    builds: &'a Builds,
    shelf: &mut Shelf,
    sources: &mut SourceShelf,
) -> Result<Chosen, Stop> {
    let standard = build_essential(left.alloc)?;
    choose_standard::<T>(left, builds, &standard, shelf, sources)
}

/// Chooses builds for a wish that leaves a choice, and tells of them; else why there are none.
pub fn choose<T: Tell>(
    left: Left,
    shelf: &mut Shelf,
    sources: &mut SourceShelf,
) -> Result<Chosen, Stop> {
    let builds = read_builds(left.alloc, left.read.of, shelf, sources)?;
    choose_with::<T>(left, &builds, shelf, sources)
}
