//! What is said of a refused paragraph of a wish.

use crate::head::CrossHead;
use cross_index::TAKEN_NAME;
use cross_relations::{Sides, is_architecture, is_taken};
use cross_sources::{about_taken, first_taken};
use deb_fields::{BAD_VALUE, Paragraph, or_text};
use deb_relation::{Kind, Relations};
use deb_text::next_word;
use import_wish::{WishedRecipe, read_head, read_recipe};
use std::alloc::{AllocError, Global};

fn nothing(alloc: Global) -> Result<Vec<u8>, AllocError> {
    Ok(Vec::new(alloc))
}

fn first_word(text: &[u8]) -> &[u8] {
    match next_word(text) {
        Some((word, _)) => word,
        None => b"",
    }
}

/// What is said of a name in the entries of a field that is taken: nothing where none is.
fn about_entries(alloc: Global, sides: &Sides, text: &[u8]) -> Result<Vec<u8>, AllocError> {
    let Ok(entries) = Relations::parse(alloc, text, Kind::Need) else {
        return nothing(alloc);
    };
    match first_taken(sides, &entries) {
        Some(name) => about_taken(alloc, name),
        None => nothing(alloc),
    }
}

/// What is said where the architectures are not two.
fn about_sides(alloc: Global, paragraph: &Paragraph) -> Result<Vec<u8>, AllocError> {
    if read_head(alloc, paragraph).is_err() {
        return nothing(alloc);
    }
    let host = first_word(or_text(paragraph.field(b"Architecture-Names"), b""));
    if is_architecture(host) {
        return Vec::from_slice(
            alloc,
            b"Build-Architecture is another one than the first of Architecture-Names",
        );
    }
    let mut about = Vec::from_slice(alloc, host)?;
    about.extend_from_slice(b" is no architecture")?;
    Ok(about)
}

/// What is said of a name of the first paragraph that is taken.
fn about_fields(alloc: Global, paragraph: &Paragraph) -> Result<Vec<u8>, AllocError> {
    let host = first_word(or_text(paragraph.field(b"Architecture-Names"), b""));
    let build = first_word(or_text(paragraph.field(b"Build-Architecture"), b""));
    let Some(sides) = Sides::new(build, host) else {
        return nothing(alloc);
    };
    let archive = or_text(paragraph.field(b"Archive"), b"");
    let about = about_entries(alloc, &sides, archive)?;
    if !about.is_empty() {
        return Ok(about);
    }
    let essential = or_text(paragraph.field(b"Build-Essential"), b"");
    about_entries(alloc, &sides, essential)
}

/// What is said of the first paragraph, which is refused with a code.
pub fn about_head(alloc: Global, paragraph: &Paragraph, code: u16) -> Result<Vec<u8>, AllocError> {
    if code == TAKEN_NAME {
        return about_fields(alloc, paragraph);
    }
    if code == BAD_VALUE {
        return about_sides(alloc, paragraph);
    }
    nothing(alloc)
}

fn about_names(alloc: Global, sides: &Sides, recipe: &WishedRecipe) -> Result<Vec<u8>, AllocError> {
    if is_taken(sides, &recipe.source.name) {
        return about_taken(alloc, &recipe.source.name);
    }
    let Some(outputs) = &recipe.outputs else {
        return nothing(alloc);
    };
    for name in outputs {
        if is_taken(sides, name) {
            return about_taken(alloc, name);
        }
    }
    nothing(alloc)
}

/// What is said of a recipe whose Host-Architecture or Mode is refused.
fn about_side(alloc: Global, sides: &Sides, paragraph: &Paragraph) -> Result<Vec<u8>, AllocError> {
    let host = or_text(paragraph.field(b"Host-Architecture"), sides.host());
    if host == sides.build() || host == sides.host() {
        return Vec::from_slice(alloc, b"a cross build has mode arch");
    }
    let mut about = Vec::from_slice(alloc, b"no such architecture here: ")?;
    about.extend_from_slice(host)?;
    Ok(about)
}

/// What is said of a recipe, which is refused with a code.
pub fn about_recipe(
    alloc: Global,
    head: &CrossHead,
    others: &[Vec<u8>],
    paragraph: &Paragraph,
    code: u16,
) -> Result<Vec<u8>, AllocError> {
    let Ok(recipe) = read_recipe(alloc, &head.native, others, paragraph) else {
        return nothing(alloc);
    };
    if code == TAKEN_NAME {
        return about_names(alloc, &head.sides, &recipe);
    }
    if code == BAD_VALUE {
        return about_side(alloc, &head.sides, paragraph);
    }
    nothing(alloc)
}

/// What is said of a base chroot, which is refused with a code.
pub fn about_chroot(
    alloc: Global,
    head: &CrossHead,
    paragraph: &Paragraph,
    code: u16,
) -> Result<Vec<u8>, AllocError> {
    if code != TAKEN_NAME {
        return nothing(alloc);
    }
    let packages = or_text(paragraph.field(b"Packages"), b"");
    about_entries(alloc, &head.sides, packages)
}
