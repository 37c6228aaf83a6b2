//! The recipes of a wish for two architectures.

ghost use Rattle.std.specs.Prelude.{◌≡◌, IfOk};
ghost use Rattle.deb_text.specs.Common.{Gives, lists, words};
ghost use Rattle.deb_relation.specs.View.{refusal_of};
ghost use Rattle.std.specs.List.{list_any};
ghost use Rattle.std.specs.Option.{option_map};
ghost use Rattle.cross_laws.specs.Names.{is_taken};
ghost use Rattle.import_wish.specs.Recipe.{recipe_view};
ghost use Rattle.cross_wish.specs.Views.{cross_head_view, cross_recipe_view};
ghost use Rattle.cross_wish.specs.Wish.{cross_recipe_at, mode_for, mode_free, names_free, outputs_taken, profiles_for, side_at};

use crate::head::CrossHead;
use cross_index::TAKEN_NAME;
use cross_laws::types::Side;
use cross_relations::{Sides, is_taken};
use deb_fields::{BAD_VALUE, Paragraph};
use deb_relation::RelationError;
use farm_model::Mode;
use import_wish::{WishedRecipe, read_recipe};
use std::alloc::{AllocError, Global};

/// A recipe, as it is given, and the side for which it is built; what it is built with, which is
/// `arch` for the host; and its profiles.
#[derive(Drop)]
pub struct CrossRecipe {
    pub native: WishedRecipe,
    pub side: Side,
    pub mode: Mode,
    pub profiles: Vec<u8>,
}

/// Reads for which side a recipe is built.
fn side_of(sides: &Sides, value: Option<&[u8]>) -> Result<Side, RelationError>
    ensures { Gives refusal_of (λ side. side) result
        (side_at sides.now (option_map (λ v. v.now) value.entry)) }
{
    let Some(text) = value else {
        return Ok(Side::Host);
    };
    if text == sides.build() {
        return Ok(Side::Build);
    }
    if text == sides.host() {
        return Ok(Side::Host);
    }
    Err(RelationError { code: BAD_VALUE })
}

/// Refuses a mode of a build for the host that is not `arch`.
fn judge_mode(side: Side, value: Option<&[u8]>) -> Result<(), RelationError>
    ensures { Gives refusal_of (λ _. tt) result
        (mode_free side (option_map (λ v. v.now) value.entry)) }
{
    match side {
        Side::Build => Ok(()),
        Side::Host => {
            let Some(text) = value else {
                return Ok(());
            };
            if text == b"arch".as_slice() {
                return Ok(());
            }
            Err(RelationError { code: BAD_VALUE })
        }
    }
}

fn is_one_taken(sides: &Sides, name: &Vec<u8>) -> bool
    ensures { result ≡ is_taken sides.now name.now.items }
{
    is_taken(sides, name)
}

fn any_taken(sides: &Sides, names: &[Vec<u8>]) -> bool
    ensures { result ≡ list_any (λ name. is_taken sides.now name.items) names.now }
{
    names.iter().any(|name| is_one_taken(sides, name))
}

fn some_taken(sides: &Sides, names: &[Vec<u8>]) -> bool
    ensures { result ≡ list_any (is_taken sides.now) (lists names.now) }
{
    any_taken(sides, names)
}

fn outputs_taken(sides: &Sides, outputs: Option<&Vec<Vec<u8>>>) -> bool
    ensures { result ≡ outputs_taken sides.now
        (option_map (λ names. lists names.now.items) outputs.entry) }
{
    match outputs {
        Some(names) => some_taken(sides, names),
        None => false,
    }
}

/// Refuses a recipe whose source or outputs have a name that is taken.
fn judge_names(sides: &Sides, recipe: &WishedRecipe) -> Result<(), RelationError>
    ensures { Gives refusal_of (λ _. tt) result (names_free sides.now (recipe_view recipe.now)) }
{
    if is_taken(sides, &recipe.source.name) || outputs_taken(sides, recipe.outputs.as_ref()) {
        return Err(RelationError { code: TAKEN_NAME });
    }
    Ok(())
}

fn mode_for(side: Side, mode: Mode) -> Mode
    ensures { result ≡ mode_for side mode }
{
    match side {
        Side::Build => mode,
        Side::Host => Mode::Arch,
    }
}

/// The profiles of a recipe: those of the wish are for builds for the host alone.
#[tactic(auto, unfolding(deb_text::specs::Words::words))]
fn profiles_for(
    alloc: Global,
    side: Side,
    own: Option<&[u8]>,
    profiles: &[u8],
) -> Result<Vec<u8>, AllocError>
    ensures { IfOk result (λ made. words made.items
        ≡ profiles_for side (option_map (λ v. v.now) own.entry) (words profiles.now)) }
{
    match side {
        Side::Host => Vec::from_slice(alloc, profiles),
        Side::Build => match own {
            Some(_) => Vec::from_slice(alloc, profiles),
            None => Ok(Vec::new(alloc)),
        },
    }
}

/// Reads the paragraph of a recipe, behind recipes of other names.
///
/// # Errors
///
/// Those of `read_recipe` of import_wish; then 202 where Host-Architecture names neither architecture,
/// or a build for the host has another mode than `arch`; 707 where the name of its source or of an
/// output is taken.
#[tactic(auto, unfolding(crate::specs::Wish::cross_recipe_at))]
pub fn read_cross_recipe(
    alloc: Global,
    head: &CrossHead,
    others: &[Vec<u8>],
    paragraph: &Paragraph,
) -> Result<CrossRecipe, RelationError>
    ensures { Gives refusal_of cross_recipe_view result
        (cross_recipe_at (cross_head_view head.now) (lists others.now) paragraph.now) }
{
    let native = read_recipe(alloc, &head.native, others, paragraph)?;
    let side = side_of(&head.sides, paragraph.field(b"Host-Architecture"))?;
    judge_mode(side, paragraph.field(b"Mode"))?;
    judge_names(&head.sides, &native)?;
    let mode = mode_for(side, native.way.mode);
    let own = paragraph.field(b"Profiles");
    let profiles = profiles_for(alloc, side, own, &native.way.profiles)?;
    Ok(CrossRecipe {
        native,
        side,
        mode,
        profiles,
    })
}
