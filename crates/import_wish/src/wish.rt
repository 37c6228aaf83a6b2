//! A wish as a whole.

ghost use Rattle.std.specs.Prelude.{◌≡◌, OnOk};
ghost use Rattle.std.specs.Option.{option_map};
ghost use Rattle.deb_text.specs.Answers.{Gives, refusal_of as fault_of};
ghost use Rattle.deb_relation.specs.View.{refusal_of};
ghost use Rattle.import_wish.specs.Head.{head_view};
ghost use Rattle.import_wish.specs.Wish.{alone_at, choice_of, first_at, items_from, items_view, more_chroots, more_recipes, no_items, step_at, wish_at, wish_view, with_chroot, with_every, with_every_of, with_item, with_recipe};
ghost use Rattle.import_wish.specs.Targets.{every_view};
ghost use Rattle.import_wish.specs.Chroot.{chroot_at, chroot_view};
ghost use Rattle.import_wish.specs.Recipe.{recipe_at, recipe_view};

use crate::chroot::{WishedChroot, read_chroot};
use crate::head::{Head, read_head};
use crate::recipe::{WishedRecipe, read_recipe};
use crate::targets::{Common, EveryBuild, is_every, read_every};
use deb_fields::{ABSENT, Paragraph};
use deb_relation::RelationError;
use deb_stanza::Paragraphs;
use deb_text::Fault;
use farm_model::Mode;
use std::alloc::{AllocError, Global};

/// The recipes and the base chroots of a wish, in their order, and their names; and what each build
/// has that is chosen, if a recipe `*` says it.
#[derive(Drop)]
pub struct WishItems {
    pub recipes: Vec<WishedRecipe>,
    pub recipe_names: Vec<Vec<u8>>,
    pub chroots: Vec<WishedChroot>,
    pub chroot_names: Vec<Vec<u8>>,
    pub every: Option<EveryBuild>,
}

/// What a wish says.
#[derive(Drop)]
pub struct Wish<'a> {
    pub head: Head<'a>,
    pub items: WishItems,
}

impl Wish<'_> {
    /// The mode and the profiles, as words, of each build that is chosen, if the wish leaves a choice.
    pub fn choice(&self) -> Option<(Mode, &[u8])>
        ensures { option_map (λ c. (c.0, c.1.now)) result ≡ choice_of (wish_view self.now) }
    {
        match &self.items.every {
            Some(every) => Some((every.mode, &every.profiles)),
            None => match &self.head.wanted.targets {
                Some(_) => Some((self.head.mode, self.head.profiles)),
                None => None,
            },
        }
    }
}

/// No recipe and no chroot.
fn no_items(alloc: Global) -> WishItems
    ensures { items_view result ≡ no_items }
{
    WishItems {
        recipes: Vec::new(alloc),
        recipe_names: Vec::new(alloc),
        chroots: Vec::new(alloc),
        chroot_names: Vec::new(alloc),
        every: None,
    }
}

/// Reads a recipe behind the others.
fn new_recipe(
    alloc: Global,
    head: &Head,
    items: &WishItems,
    paragraph: &Paragraph,
) -> Result<WishedRecipe, RelationError>
    ensures { Gives refusal_of recipe_view result
        (recipe_at (head_view head.now) (items_view items.now).recipe_names paragraph.now) }
{
    read_recipe(alloc, head, &items.recipe_names, paragraph)
}

/// Puts a recipe behind the others.
fn push_recipe(alloc: Global, items: &mut WishItems, recipe: WishedRecipe) -> Result<(), AllocError>
    ensures { OnOk result (items_view items.new
        ≡ more_recipes (items_view items.old) (recipe_view recipe)) }
{
    let name = Vec::from_slice(alloc, &recipe.name)?;
    items.recipe_names.push(name)?;
    items.recipes.push(recipe)?;
    Ok(())
}

/// Reads a recipe, and puts it behind the others.
#[tactic(auto, unfolding(crate::specs::Wish::with_recipe))]
fn add_recipe(
    alloc: Global,
    head: &Head,
    items: &mut WishItems,
    paragraph: &Paragraph,
) -> Result<(), RelationError>
    ensures { Gives refusal_of (λ _. items_view items.new) result
        (with_recipe (head_view head.now) (items_view items.old) paragraph.now) }
{
    let recipe = new_recipe(alloc, head, items, paragraph)?;
    push_recipe(alloc, items, recipe)?;
    Ok(())
}

/// Reads a base chroot behind the others.
fn new_chroot(
    alloc: Global,
    items: &WishItems,
    paragraph: &Paragraph,
) -> Result<WishedChroot, RelationError>
    ensures { Gives refusal_of chroot_view result
        (chroot_at (items_view items.now).chroot_names paragraph.now) }
{
    read_chroot(alloc, &items.chroot_names, paragraph)
}

/// Puts a base chroot behind the others.
fn push_chroot(alloc: Global, items: &mut WishItems, chroot: WishedChroot) -> Result<(), AllocError>
    ensures { OnOk result (items_view items.new
        ≡ more_chroots (items_view items.old) (chroot_view chroot)) }
{
    let name = Vec::from_slice(alloc, &chroot.name)?;
    items.chroot_names.push(name)?;
    items.chroots.push(chroot)?;
    Ok(())
}

/// Reads a base chroot, and puts it behind the others.
#[tactic(auto, unfolding(crate::specs::Wish::with_chroot))]
fn add_chroot(
    alloc: Global,
    items: &mut WishItems,
    paragraph: &Paragraph,
) -> Result<(), RelationError>
    ensures { Gives refusal_of (λ _. items_view items.new) result
        (with_chroot (items_view items.old) paragraph.now) }
{
    let chroot = new_chroot(alloc, items, paragraph)?;
    push_chroot(alloc, items, chroot)?;
    Ok(())
}

/// What a recipe `*` has where it does not say it.
fn common_of<'a>(head: &'a Head<'a>) -> Common<'a>
    ensures mode { result.mode ≡ head.entry.now.mode }
    ensures profiles { result.profiles.now ≡ head.entry.now.profiles.now }
    ensures stages { result.stages.now ≡ head.entry.now.wanted.stages.now }
{
    Common {
        mode: head.mode,
        profiles: head.profiles,
        stages: head.wanted.stages,
    }
}

/// Puts what each build has that is chosen to the others.
fn set_every(items: &mut WishItems, every: EveryBuild)
    ensures { items_view items.new ≡ with_every_of (items_view items.old) (every_view every) }
{
    items.every = Some(every);
}

/// Reads a recipe `*`.
#[tactic(auto, unfolding(crate::specs::Wish::with_every))]
fn add_every(
    alloc: Global,
    head: &Head,
    items: &mut WishItems,
    paragraph: &Paragraph,
) -> Result<(), RelationError>
    ensures { Gives refusal_of (λ _. items_view items.new) result
        (with_every (head_view head.now) (items_view items.old) paragraph.now) }
{
    let every = read_every(alloc, common_of(head), items.every.is_some(), paragraph)?;
    set_every(items, every);
    Ok(())
}

/// Goes on by a paragraph: with the field Recipe a recipe, `*` or of a name, else a base chroot.
fn add(
    alloc: Global,
    head: &Head,
    items: &mut WishItems,
    paragraph: &Paragraph,
) -> Result<(), RelationError>
    ensures { Gives refusal_of (λ _. items_view items.new) result
        (with_item (head_view head.now) (items_view items.old) paragraph.now) }
{
    if is_every(paragraph) {
        add_every(alloc, head, items, paragraph)
    } else if paragraph.field(b"Recipe").is_some() {
        add_recipe(alloc, head, items, paragraph)
    } else {
        add_chroot(alloc, items, paragraph)
    }
}

/// The same, a fault told at the paragraph.
fn take(
    alloc: Global,
    head: &Head,
    items: &mut WishItems,
    paragraph: &Paragraph,
) -> Result<(), Fault>
    ensures { Gives fault_of (λ _. items_view items.new) result
        (step_at (head_view head.now) (items_view items.old) paragraph.now) }
{
    match add(alloc, head, items, paragraph) {
        Ok(()) => Ok(()),
        Err(error) => Err(Fault::place(0, paragraph.line(), error.code)),
    }
}

/// Reads the first paragraph, a fault told at its line.
fn read_first<'a>(alloc: Global, paragraph: &Paragraph<'a>) -> Result<Head<'a>, Fault>
    ensures { Gives fault_of head_view result (first_at paragraph.now) }
{
    match read_head(alloc, paragraph) {
        Ok(head) => Ok(head),
        Err(error) => Err(Fault::place(0, paragraph.line(), error.code)),
    }
}

/// Reads all paragraphs but the first.
fn read_items(alloc: Global, head: &Head, paragraphs: &Paragraphs) -> Result<WishItems, Fault>
    ensures { Gives fault_of items_view result (items_from (head_view head.now) paragraphs.now) }
{
    let mut items = no_items(alloc);
    for number in 1..paragraphs.count() {
        let paragraph = Paragraph::new(paragraphs, number);
        if let Err(fault) = take(alloc, head, &mut items, &paragraph) {
            return Err(fault);
        }
    }
    Ok(items)
}

/// Refuses a recipe `*` where nothing is asked for beside it.
fn judge_alone(head: &Head, items: &WishItems) -> Result<(), Fault>
    ensures { Gives fault_of (λ _. tt) result
        (alone_at (head_view head.now) (items_view items.now)) }
{
    match &items.every {
        Some(every) if items.recipes.is_empty() && head.wanted.targets.is_none() => {
            Err(Fault::place(0, every.line, ABSENT))
        }
        _ => Ok(()),
    }
}

/// Reads the paragraphs of a wish.
///
/// # Errors
///
/// The fault has file 0. 201 at line 0 where there is no paragraph; else the first fault of a
/// paragraph, told at its first line; 201 at a recipe `*` where there are no targets and no other
/// recipe. [`Fault::MEMORY`] where memory is refused.
#[tactic(auto, unfolding(crate::specs::Wish::wish_at))]
pub fn read_wish(alloc: Global, paragraphs: &Paragraphs) -> Result<Wish<'_>, Fault>
    ensures { Gives fault_of wish_view result (wish_at paragraphs.now) }
{
    if paragraphs.count() == 0 {
        return Err(Fault {
            file: 0,
            line: 0,
            code: ABSENT,
        });
    }
    let head = read_first(alloc, &Paragraph::new(paragraphs, 0))?;
    let items = read_items(alloc, &head, paragraphs)?;
    judge_alone(&head, &items)?;
    Ok(Wish { head, items })
}
