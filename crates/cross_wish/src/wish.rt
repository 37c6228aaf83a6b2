//! A wish for two architectures as a whole.

ghost use Rattle.std.specs.Prelude.{◌≡◌, Ok, IfOk, OnOk};
ghost use Rattle.cross_wish.specs.Views.{cross_chroot_view, cross_head_view, cross_items_view, cross_recipe_view, cross_wish_view};
ghost use Rattle.cross_wish.specs.Wish.{cross_chroot_at, cross_recipe_at, cross_wish_at, first_at, items_from, more_chroots, more_recipes, no_items, step_at, with_chroot, with_item, with_recipe};

use crate::about::{about_chroot, about_head, about_recipe};
use crate::chroot::{CrossChroot, read_cross_chroot};
use crate::head::{CrossHead, read_cross_head};
use crate::recipe::{CrossRecipe, read_cross_recipe};
use cross_index::{IndexStop, Refusal};
use deb_fields::{ABSENT, Paragraph};
use deb_relation::RelationError;
use deb_stanza::Paragraphs;
use deb_text::MEMORY;
use std::alloc::{AllocError, Global};

/// The recipes and the base chroots of a wish, in their order, and their names.
#[derive(Drop)]
pub struct CrossItems {
    pub recipes: Vec<CrossRecipe>,
    pub recipe_names: Vec<Vec<u8>>,
    pub chroots: Vec<CrossChroot>,
    pub chroot_names: Vec<Vec<u8>>,
}

/// What a wish says.
#[derive(Drop)]
pub struct CrossWish<'a> {
    pub head: CrossHead<'a>,
    pub items: CrossItems,
}

fn no_items(alloc: Global) -> CrossItems
    ensures { cross_items_view result ≡ no_items }
{
    CrossItems {
        recipes: Vec::new(alloc),
        recipe_names: Vec::new(alloc),
        chroots: Vec::new(alloc),
        chroot_names: Vec::new(alloc),
    }
}

/// The stop at an error of a paragraph, of which this is said.
fn stop_at(
    alloc: Global,
    paragraph: &Paragraph,
    error: RelationError,
    about: Result<Vec<u8>, AllocError>,
) -> IndexStop {
    if error.code == MEMORY {
        return IndexStop::OutOfMemory;
    }
    match about {
        Ok(about) => IndexStop::Refused(Refusal {
            line: paragraph.line(),
            code: error.code,
            about,
        }),
        Err(_) => IndexStop::OutOfMemory,
    }
}

fn push_recipe(alloc: Global, items: &mut CrossItems, recipe: CrossRecipe) -> Result<(), AllocError>
    ensures { OnOk result (cross_items_view items.new
        ≡ more_recipes (cross_items_view items.old) (cross_recipe_view recipe)) }
{
    let name = Vec::from_slice(alloc, &recipe.native.name)?;
    items.recipe_names.push(name)?;
    items.recipes.push(recipe)?;
    Ok(())
}

fn new_recipe(
    alloc: Global,
    head: &CrossHead,
    items: &CrossItems,
    paragraph: &Paragraph,
) -> Result<CrossRecipe, IndexStop>
    ensures { IfOk result (λ recipe. cross_recipe_at (cross_head_view head.now)
        (cross_items_view items.now).recipe_names paragraph.now ≡ Ok (cross_recipe_view recipe)) }
{
    match read_cross_recipe(alloc, head, &items.recipe_names, paragraph) {
        Ok(recipe) => Ok(recipe),
        Err(error) => {
            let about = about_recipe(alloc, head, &items.recipe_names, paragraph, error.code);
            Err(stop_at(alloc, paragraph, error, about))
        }
    }
}

#[tactic(auto, unfolding(crate::specs::Wish::with_recipe))]
fn add_recipe(
    alloc: Global,
    head: &CrossHead,
    items: &mut CrossItems,
    paragraph: &Paragraph,
) -> Result<(), IndexStop>
    ensures { OnOk result (with_recipe (cross_head_view head.now) (cross_items_view items.old)
        paragraph.now ≡ Ok (cross_items_view items.new)) }
{
    let recipe = new_recipe(alloc, head, items, paragraph)?;
    push_recipe(alloc, items, recipe)?;
    Ok(())
}

fn push_chroot(alloc: Global, items: &mut CrossItems, chroot: CrossChroot) -> Result<(), AllocError>
    ensures { OnOk result (cross_items_view items.new
        ≡ more_chroots (cross_items_view items.old) (cross_chroot_view chroot)) }
{
    let name = Vec::from_slice(alloc, &chroot.native.name)?;
    items.chroot_names.push(name)?;
    items.chroots.push(chroot)?;
    Ok(())
}

fn new_chroot(
    alloc: Global,
    head: &CrossHead,
    items: &CrossItems,
    paragraph: &Paragraph,
) -> Result<CrossChroot, IndexStop>
    ensures { IfOk result (λ chroot. cross_chroot_at (cross_head_view head.now)
        (cross_items_view items.now).chroot_names paragraph.now ≡ Ok (cross_chroot_view chroot)) }
{
    match read_cross_chroot(alloc, head, &items.chroot_names, paragraph) {
        Ok(chroot) => Ok(chroot),
        Err(error) => {
            let about = about_chroot(alloc, head, paragraph, error.code);
            Err(stop_at(alloc, paragraph, error, about))
        }
    }
}

#[tactic(auto, unfolding(crate::specs::Wish::with_chroot))]
fn add_chroot(
    alloc: Global,
    head: &CrossHead,
    items: &mut CrossItems,
    paragraph: &Paragraph,
) -> Result<(), IndexStop>
    ensures { OnOk result (with_chroot (cross_head_view head.now) (cross_items_view items.old)
        paragraph.now ≡ Ok (cross_items_view items.new)) }
{
    let chroot = new_chroot(alloc, head, items, paragraph)?;
    push_chroot(alloc, items, chroot)?;
    Ok(())
}

/// Takes a paragraph behind others: with the field Recipe a recipe, else a base chroot.
fn add(
    alloc: Global,
    head: &CrossHead,
    items: &mut CrossItems,
    paragraph: &Paragraph,
) -> Result<(), IndexStop>
    ensures { OnOk result (step_at (cross_head_view head.now) (cross_items_view items.old)
        paragraph.now ≡ Ok (cross_items_view items.new)) }
{
    if paragraph.field(b"Recipe").is_some() {
        add_recipe(alloc, head, items, paragraph)
    } else {
        add_chroot(alloc, head, items, paragraph)
    }
}

fn read_first<'a>(alloc: Global, paragraph: &Paragraph<'a>) -> Result<CrossHead<'a>, IndexStop>
    ensures { IfOk result (λ head. first_at paragraph.now ≡ Ok (cross_head_view head)) }
{
    match read_cross_head(alloc, paragraph) {
        Ok(head) => Ok(head),
        Err(error) => {
            let about = about_head(alloc, paragraph, error.code);
            Err(stop_at(alloc, paragraph, error, about))
        }
    }
}

/// Reads all paragraphs but the first.
fn read_items(
    alloc: Global,
    head: &CrossHead,
    paragraphs: &Paragraphs,
) -> Result<CrossItems, IndexStop>
    ensures { IfOk result (λ items.
        items_from (cross_head_view head.now) paragraphs.now ≡ Ok (cross_items_view items)) }
{
    let mut items = no_items(alloc);
    for number in 1..paragraphs.count() {
        let paragraph = Paragraph::new(paragraphs, number);
        add(alloc, head, &mut items, &paragraph)?;
    }
    Ok(items)
}

/// Reads the paragraphs of a wish.
///
/// # Errors
///
/// 201 at line 0 where there is no paragraph; else the first fault of a paragraph, at its first line.
#[tactic(auto, unfolding(crate::specs::Wish::cross_wish_at))]
pub fn read_cross_wish(alloc: Global, paragraphs: &Paragraphs) -> Result<CrossWish<'_>, IndexStop>
    ensures { IfOk result (λ wish. cross_wish_at paragraphs.now ≡ Ok (cross_wish_view wish)) }
{
    if paragraphs.count() == 0 {
        return Err(IndexStop::Refused(Refusal {
            line: 0,
            code: ABSENT,
            about: Vec::new(alloc),
        }));
    }
    let head = read_first(alloc, &Paragraph::new(paragraphs, 0))?;
    let items = read_items(alloc, &head, paragraphs)?;
    Ok(CrossWish { head, items })
}
