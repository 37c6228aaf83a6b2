//! The wish in the names of one architecture, as an import reads it. A paragraph stands there at
//! [`SPREAD`] times its line, so that its line is known again.

use crate::chroot::CrossChroot;
use crate::entries::push_seen;
use crate::head::CrossHead;
use crate::recipe::CrossRecipe;
use crate::wish::CrossWish;
use cross_relations::{Sense, Sides, encoded_name};
use deb_text::{next_word, push_pieces};
use farm_model::Mode;
use itoa::Buffer;
use std::alloc::{AllocError, Global};

/// How many lines stand for one of the wish.
pub const SPREAD: u32 = 16;

/// A text with paragraphs, and the number of its next line.
#[derive(Drop)]
struct Spread {
    text: Vec<u8>,
    line: u32,
}

impl Spread {
    /// Puts empty lines behind the text, up to where the paragraph of a line stands.
    fn go_to(&mut self, line: u32) -> Result<(), AllocError> {
        let place = line.saturating_mul(SPREAD);
        for _ in self.line..place {
            self.text.extend_from_slice(b"\n")?;
        }
        self.line = place.max(self.line);
        Ok(())
    }

    /// Counts the lines that were put behind so many bytes of the text.
    fn count(&mut self, from: usize) {
        for byte in self.text.get(from..).unwrap_or(b"") {
            if *byte == b'\n' {
                self.line = self.line.saturating_add(1);
            }
        }
    }
}

fn push_row(text: &mut Vec<u8>, name: &[u8], value: &[u8]) -> Result<(), AllocError> {
    push_pieces(text, &[name, b": ", value, b"\n"])
}

/// Puts words behind a text as the value of a field.
fn push_words(text: &mut Vec<u8>, name: &[u8], words: &[u8]) -> Result<(), AllocError> {
    push_pieces(text, &[name, b":"])?;
    let mut rest = words;
    while let Some((word, behind)) = next_word(rest) {
        push_pieces(text, &[b" ", word])?;
        rest = behind;
    }
    text.extend_from_slice(b"\n")
}

fn push_count(text: &mut Vec<u8>, name: &[u8], count: Option<u64>) -> Result<(), AllocError> {
    let Some(count) = count else {
        return Ok(());
    };
    push_pieces(text, &[name, b": "])?;
    text.extend_from_slice(Buffer::new().format(count).as_bytes())?;
    text.extend_from_slice(b"\n")
}

fn push_head(
    alloc: Global,
    spread: &mut Spread,
    head: &CrossHead,
    line: u32,
) -> Result<(), AllocError> {
    spread.go_to(line)?;
    let from = spread.text.len();
    let text = &mut spread.text;
    push_words(text, b"Architecture-Names", &head.native.architectures)?;
    if let Some(archive) = &head.native.archive {
        push_seen(alloc, text, &head.sides, b"Archive", archive)?;
    }
    spread.count(from);
    Ok(())
}

fn push_source(
    alloc: Global,
    text: &mut Vec<u8>,
    sides: &Sides,
    recipe: &CrossRecipe,
) -> Result<(), AllocError> {
    let source = &recipe.native.source;
    let name = encoded_name(alloc, sides, Sense::Of(recipe.side), &source.name)?;
    push_pieces(text, &[b"Source: ", &name])?;
    if let Some(version) = &source.version {
        push_pieces(text, &[b" (= ", version, b")"])?;
    }
    text.extend_from_slice(b"\n")
}

fn push_output(
    alloc: Global,
    text: &mut Vec<u8>,
    sides: &Sides,
    recipe: &CrossRecipe,
    before: &[u8],
    name: &[u8],
) -> Result<(), AllocError> {
    let name = encoded_name(alloc, sides, Sense::Of(recipe.side), name)?;
    push_pieces(text, &[before, &name])
}

fn push_outputs(
    alloc: Global,
    text: &mut Vec<u8>,
    sides: &Sides,
    recipe: &CrossRecipe,
) -> Result<(), AllocError> {
    let Some(names) = &recipe.native.outputs else {
        return Ok(());
    };
    let mut before: &[u8] = b"Outputs: ";
    for name in names {
        push_output(alloc, text, sides, recipe, before, name)?;
        before = b", ";
    }
    text.extend_from_slice(b"\n")
}

fn mode_text(mode: Mode) -> &'static [u8] {
    match mode {
        Mode::Full => b"full",
        Mode::Arch => b"arch",
        Mode::Indep => b"indep",
    }
}

fn push_way(text: &mut Vec<u8>, recipe: &CrossRecipe) -> Result<(), AllocError> {
    push_row(text, b"Mode", mode_text(recipe.mode))?;
    push_words(text, b"Profiles", &recipe.profiles)?;
    push_count(text, b"Steps", recipe.native.way.steps)?;
    push_count(text, b"Scratch", recipe.native.way.scratch)
}

fn push_recipe(
    alloc: Global,
    spread: &mut Spread,
    sides: &Sides,
    recipe: &CrossRecipe,
) -> Result<(), AllocError> {
    spread.go_to(recipe.native.line)?;
    let from = spread.text.len();
    let text = &mut spread.text;
    push_row(text, b"Recipe", &recipe.native.name)?;
    push_source(alloc, text, sides, recipe)?;
    push_way(text, recipe)?;
    push_outputs(alloc, text, sides, recipe)?;
    spread.count(from);
    Ok(())
}

fn push_chroot(
    alloc: Global,
    spread: &mut Spread,
    sides: &Sides,
    chroot: &CrossChroot,
) -> Result<(), AllocError> {
    spread.go_to(chroot.line)?;
    let from = spread.text.len();
    let text = &mut spread.text;
    push_row(text, b"Chroot", &chroot.native.name)?;
    push_count(text, b"Capacity", Some(chroot.native.capacity))?;
    push_seen(alloc, text, sides, b"Packages", &chroot.native.packages)?;
    spread.count(from);
    Ok(())
}

/// Puts the base chroots from a number on that stand ahead of a line behind a text, and gives the
/// number of the next one.
fn push_chroots(
    alloc: Global,
    spread: &mut Spread,
    sides: &Sides,
    chroots: &[CrossChroot],
    from: usize,
    line: u32,
) -> Result<usize, AllocError> {
    let mut next = from;
    for at in from..chroots.len() {
        if chroots[at].line >= line {
            return Ok(next);
        }
        push_chroot(alloc, spread, sides, &chroots[at])?;
        next = at + 1;
    }
    Ok(next)
}

/// Puts the base chroot that stands where the wish names none behind a text.
fn push_buildd(alloc: Global, spread: &mut Spread, head: &CrossHead) -> Result<(), AllocError> {
    spread.text.extend_from_slice(b"\nChroot: buildd\n")?;
    push_seen(
        alloc,
        &mut spread.text,
        &head.sides,
        b"Packages",
        &head.essential,
    )
}

/// Puts the recipes and the base chroots behind a text, in the order of their lines.
fn push_items(alloc: Global, spread: &mut Spread, wish: &CrossWish) -> Result<(), AllocError> {
    let (sides, items) = (&wish.head.sides, &wish.items);
    let mut next = 0;
    for recipe in &items.recipes {
        let line = recipe.native.line;
        next = push_chroots(alloc, spread, sides, &items.chroots, next, line)?;
        push_recipe(alloc, spread, sides, recipe)?;
    }
    push_chroots(alloc, spread, sides, &items.chroots, next, u32::MAX)?;
    if items.chroots.is_empty() {
        push_buildd(alloc, spread, &wish.head)?;
    }
    Ok(())
}

/// The text of a wish in the names of one architecture, whose first paragraph is at this line.
pub fn encoded_wish(alloc: Global, wish: &CrossWish, line: u32) -> Result<Vec<u8>, AllocError> {
    let mut spread = Spread {
        text: Vec::new(alloc),
        line: 1,
    };
    push_head(alloc, &mut spread, &wish.head, line)?;
    push_items(alloc, &mut spread, wish)?;
    Ok(spread.text)
}
