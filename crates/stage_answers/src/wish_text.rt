//! The explicit wish: the text of what is chosen, which is a wish without targets.

use crate::answer::Answer;
use crate::recipe_names::ChosenRecipe;
use crate::words::push_words;
use deb_relation::Relations;
use deb_text::{next_word, push_pieces};
use farm_model::Mode;
use import_wish::WishedRecipe;
use itoa::Buffer;
use plan_reader::push_entry;
use stage_builds::{OwnBuild, Scope, Way};
use std::alloc::AllocError;

/// A base chroot of the wish: its name, its capacity in KiB, and its packages.
#[derive(Clone, Copy)]
pub struct WishedBase<'a> {
    pub name: &'a [u8],
    pub capacity: u64,
    pub packages: &'a Relations,
}

/// What the wish says of all builds: the names of the architecture as they were written, the mode and
/// the profiles of its first paragraph, and its base chroots.
#[derive(Clone, Copy)]
pub struct WishHead<'a> {
    pub architectures: &'a [u8],
    pub mode: Mode,
    pub profiles: &'a [u8],
    pub chroots: &'a [WishedBase<'a>],
}

fn mode_text(mode: Mode) -> &'static [u8] {
    match mode {
        Mode::Full => b"full",
        Mode::Arch => b"arch",
        Mode::Indep => b"indep",
    }
}

fn has_words(text: &[u8]) -> bool {
    next_word(text).is_some()
}

/// Puts a field of these words behind a text.
fn push_field(text: &mut Vec<u8>, name: &[u8], words: &[u8]) -> Result<(), AllocError> {
    push_pieces(text, &[name, b":"])?;
    push_words(text, words, b" ")?;
    text.extend_from_slice(b"\n")
}

fn push_head(text: &mut Vec<u8>, head: WishHead) -> Result<(), AllocError> {
    push_field(text, b"Architecture-Names", head.architectures)?;
    push_field(text, b"Mode", mode_text(head.mode))?;
    if has_words(head.profiles) {
        push_field(text, b"Profiles", head.profiles)?;
    }
    Ok(())
}

/// Puts the source of a build with its version behind a text.
fn push_source(text: &mut Vec<u8>, answer: &Answer, way: &Way) -> Result<(), AllocError> {
    let Some(grown) = answer.ways.sources.get(way.source as usize) else {
        return Ok(());
    };
    push_pieces(text, &[b"Source: ", &grown.name])?;
    if let Some(source) = answer.ways.source_here(way) {
        push_pieces(text, &[b" (= ", source.version.text(), b")"])?;
    }
    text.extend_from_slice(b"\n")
}

/// Puts names behind a text, a comma between two.
fn push_names(text: &mut Vec<u8>, names: &[Vec<u8>]) -> Result<(), AllocError> {
    for (at, name) in names.iter().enumerate() {
        if at > 0 {
            text.extend_from_slice(b", ")?;
        }
        text.extend_from_slice(name)?;
    }
    Ok(())
}

/// Puts what a recipe says beside its source behind a text: mode and profiles where they are not those
/// of the first paragraph, and outputs where they are not all.
fn push_rest(
    text: &mut Vec<u8>,
    head: WishHead,
    way: &Way,
    outputs: Option<&Vec<Vec<u8>>>,
) -> Result<(), AllocError> {
    if way.mode != head.mode {
        push_field(text, b"Mode", mode_text(way.mode))?;
    }
    if has_words(&way.profiles) || has_words(head.profiles) {
        push_field(text, b"Profiles", &way.profiles)?;
    }
    match outputs {
        Some(names) => push_outputs(text, names),
        None => Ok(()),
    }
}

fn push_outputs(text: &mut Vec<u8>, names: &[Vec<u8>]) -> Result<(), AllocError> {
    text.extend_from_slice(b"Outputs: ")?;
    push_names(text, names)?;
    text.extend_from_slice(b"\n")
}

/// Puts a field of a number behind a text, if there is one.
fn push_size(text: &mut Vec<u8>, name: &[u8], size: Option<u64>) -> Result<(), AllocError> {
    let Some(size) = size else {
        return Ok(());
    };
    let mut buffer = Buffer::new();
    push_pieces(text, &[name, b": ", buffer.format(size).as_bytes(), b"\n"])
}

/// Puts the fields that the wish's own recipe has beside these behind a text.
fn push_own(text: &mut Vec<u8>, recipe: &WishedRecipe) -> Result<(), AllocError> {
    push_size(text, b"Steps", recipe.way.steps)?;
    push_size(text, b"Scratch", recipe.way.scratch)?;
    if let Some(names) = &recipe.outputs {
        push_outputs(text, names)?;
    }
    if has_words(&recipe.drops) {
        push_field(text, b"Drops", &recipe.drops)?;
    }
    Ok(())
}

fn push_recipe(
    text: &mut Vec<u8>,
    scope: Scope,
    head: WishHead,
    answer: &Answer,
    recipe: &ChosenRecipe,
) -> Result<(), AllocError> {
    let Some(way) = answer.ways.ways.get(recipe.place) else {
        return Ok(());
    };
    push_pieces(text, &[b"\nRecipe: ", &recipe.name, b"\n"])?;
    push_source(text, answer, way)?;
    push_rest(text, head, way, recipe.outputs.as_ref())?;
    match own_of(scope.asked.own, way) {
        Some(own) => push_own(text, own),
        None => Ok(()),
    }
}

/// The recipe that the wish has itself for a build.
fn own_of<'a>(recipes: &[OwnBuild<'a>], way: &Way) -> Option<&'a WishedRecipe> {
    match &way.own {
        Some(own) => Some(recipes.get(own.number as usize)?.recipe),
        None => None,
    }
}

fn push_entries(text: &mut Vec<u8>, entries: &Relations) -> Result<(), AllocError> {
    for (at, entry) in entries.entries().iter().enumerate() {
        text.extend_from_slice(if at > 0 { b", " } else { b" " })?;
        push_entry(text, entry)?;
    }
    Ok(())
}

fn push_chroot(text: &mut Vec<u8>, chroot: WishedBase) -> Result<(), AllocError> {
    let mut buffer = Buffer::new();
    push_pieces(text, &[b"\nChroot: ", chroot.name, b"\nCapacity: "])?;
    text.extend_from_slice(buffer.format(chroot.capacity).as_bytes())?;
    text.extend_from_slice(b"\nPackages:")?;
    push_entries(text, chroot.packages)?;
    text.extend_from_slice(b"\n")
}

/// Puts the explicit wish behind a text: its first paragraph, a recipe for each build that is chosen,
/// and the base chroots.
pub fn push_wish(
    text: &mut Vec<u8>,
    scope: Scope,
    head: WishHead,
    answer: &Answer,
    recipes: &[ChosenRecipe],
) -> Result<(), AllocError> {
    push_head(text, head)?;
    for recipe in recipes {
        push_recipe(text, scope, head, answer, recipe)?;
    }
    for chroot in head.chroots {
        push_chroot(text, *chroot)?;
    }
    Ok(())
}
