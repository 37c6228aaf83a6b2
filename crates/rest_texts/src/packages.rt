//! The packages text of the farm that goes on.

use crate::control::{ControlText, Keyed, is_same_block, push_block};
use crate::lists::{distinct, listed, push_items};
use crate::settled::Settled;
use crate::stop::{Stop, refused_at};
use crate::wanted::RECIPE;
use deb_text::files::PACKAGES;
use deb_version::Version;
use rest_farm::{Item, Items};
use std::alloc::{AllocError, Global};

/// What each text begins with.
pub const HEAD: &[u8] = b"# made by portfarm after\n";

/// A packages text, with its paragraphs by the names of their packages.
#[derive(Drop)]
struct Packages<'a> {
    text: ControlText<'a>,
    keyed: Keyed,
}

/// The packages text of the farm that goes on; what of it comes from the old text, and what is in
/// the archive with other fields than there.
#[derive(Drop)]
pub struct MadePackages {
    pub text: Vec<u8>,
    pub carried: Vec<Item>,
    pub changed: Vec<Item>,
}

/// A text, with the line ahead of it that says who made it.
pub fn headed(alloc: Global, text: &[u8]) -> Result<Vec<u8>, AllocError> {
    let mut made = Vec::new(alloc);
    if !text.starts_with(HEAD) {
        made.extend_from_slice(HEAD)?;
    }
    made.extend_from_slice(text)?;
    Ok(made)
}

fn read_packages(alloc: Global, text: &[u8]) -> Result<Packages<'_>, Stop> {
    match ControlText::read(alloc, text) {
        Ok(text) => {
            let keyed = Keyed::of(alloc, &text, 0, b"Package")?;
            Ok(Packages { text, keyed })
        }
        Err(fault) => Err(refused_at(alloc, fault.in_file(PACKAGES))),
    }
}

impl<'a> Packages<'a> {
    /// Tells whether a paragraph is of an item. Those that cannot be read are left to the reader of
    /// the texts.
    fn is_of(&self, alloc: Global, number: usize, item: &Item) -> bool {
        if self.text.value(number, b"Package") != Some(item.name()) {
            return false;
        }
        let version = self.text.value(number, b"Version").unwrap_or(b"");
        match Version::parse(alloc, version) {
            Ok(version) => version.compare(item.version()).is_eq(),
            Err(_) => false,
        }
    }

    /// The paragraph of an item.
    fn find(&self, alloc: Global, item: &Item) -> Option<usize> {
        for place in self.keyed.listed(item.name()) {
            if self.is_of(alloc, place.entry, item) {
                return Some(place.entry);
            }
        }
        None
    }
}

/// The farm that is wanted: its text, and its recipes.
#[derive(Clone, Copy)]
pub struct Farm<'a> {
    pub text: &'a ControlText<'a>,
    pub recipes: &'a Keyed,
}

/// What the packages text has to have: what is in the archive, what base chroots hold, and what
/// recipes give that are left.
fn asked_items(
    alloc: Global,
    archive: &Items,
    farm: Farm<'_>,
    settled: &Settled,
) -> Result<Items, AllocError> {
    let mut items = Vec::new(alloc);
    push_items(&mut items, archive.list())?;
    for number in 1..farm.text.count() {
        if farm.text.value(number, RECIPE).is_none() {
            let held = listed(alloc, farm.text.value(number, b"Packages"))?;
            push_items(&mut items, &held)?;
        }
    }
    for (recipe, fate) in settled.recipes.iter().zip(&settled.fates) {
        if fate.is_left() {
            push_items(&mut items, &recipe.outputs)?;
        }
    }
    distinct(alloc, items)
}

/// Puts the lines of a paragraph behind a text, a blank line ahead of them.
fn push_old(made: &mut Vec<u8>, old: &Packages<'_>, number: usize) -> Result<(), AllocError> {
    made.extend_from_slice(b"\n")?;
    push_block(made, old.text.block(number), &[])
}

/// Takes the old paragraph of an item where the given text has none, and notes where it has another.
fn take(
    alloc: Global,
    old: &Packages<'_>,
    given: &Packages<'_>,
    archive: &Items,
    item: &Item,
    made: &mut MadePackages,
) -> Result<(), AllocError> {
    let Some(before) = old.find(alloc, item) else {
        return Ok(());
    };
    let Some(now) = given.find(alloc, item) else {
        push_old(&mut made.text, old, before)?;
        made.carried.push(item.clone()?)?;
        return Ok(());
    };
    let is_same = is_same_block(given.text.block(now), old.text.block(before));
    if !is_same && archive.has_item(item) {
        made.changed.push(item.clone()?)?;
    }
    Ok(())
}

/// A text without the blank lines at its end, and with the line ahead of it that says who made it.
fn without_blanks(alloc: Global, text: &[u8]) -> Result<Vec<u8>, AllocError> {
    let mut made = headed(alloc, text)?;
    for _ in 0..text.len() {
        if made.last() != Some(&b'\n') {
            break;
        }
        made.pop();
    }
    made.extend_from_slice(b"\n")?;
    Ok(made)
}

/// The given packages text, and below it the old paragraphs of what it lacks.
fn joined(
    alloc: Global,
    texts: (&[u8], &[u8]),
    archive: &Items,
    asked: &Items,
) -> Result<MadePackages, Stop> {
    let (before, text) = texts;
    let old = read_packages(alloc, before)?;
    let given = read_packages(alloc, text)?;
    let mut made = MadePackages {
        text: without_blanks(alloc, text)?,
        carried: Vec::new(alloc),
        changed: Vec::new(alloc),
    };
    for item in asked.list() {
        take(alloc, &old, &given, archive, item, &mut made)?;
    }
    if made.carried.is_empty() {
        made.text = headed(alloc, text)?;
    }
    Ok(made)
}

/// The packages text of the farm that goes on, of the old one and of one that is given in its place.
///
/// # Errors
///
/// The first fault of the paragraphs of the given text.
pub fn packages_of(
    alloc: Global,
    old: &[u8],
    given: Option<&[u8]>,
    archive: &Items,
    farm: Farm<'_>,
    settled: &Settled,
) -> Result<MadePackages, Stop> {
    let Some(text) = given else {
        return Ok(MadePackages {
            text: headed(alloc, old)?,
            carried: Vec::new(alloc),
            changed: Vec::new(alloc),
        });
    };
    let asked = asked_items(alloc, archive, farm, settled)?;
    joined(alloc, (old, text), archive, &asked)
}
