//! What words say, and the items that they name.

ghost use Rattle.std.specs.Prelude.{◌≡◌, IfOk};
ghost use Rattle.rest_texts.specs.Said.{word_item};

use crate::stop::{Stop, refused};
use deb_text::{cut_at_first, push_pieces};
use deb_version::Version;
use rest_farm::{Item, Name, Names, RecipeWord, SaidWord};
use std::alloc::{AllocError, Global};

/// What words say: of recipes; that items are withdrawn, and that they came by hand, each as
/// `NAME=VERSION`.
#[derive(Clone, Copy)]
pub struct Said<'a> {
    pub recipes: &'a [SaidWord],
    pub withdrawn: &'a [&'a [u8]],
    pub came: &'a [&'a [u8]],
}

/// The recipes that words name.
#[derive(Drop)]
pub struct SaidNames {
    pub given_up: Names,
    pub wanted_anew: Names,
    pub said_built: Names,
}

fn names_by(alloc: Global, words: &[SaidWord], wanted: RecipeWord) -> Result<Names, AllocError> {
    let mut names = Vec::new(alloc);
    for said in words {
        if said.word == wanted {
            names.push(Name::of(alloc, said.name.bytes())?)?;
        }
    }
    Names::of(alloc, names)
}

impl SaidNames {
    /// The recipes that words name, by what they say of them.
    pub fn of(alloc: Global, words: &[SaidWord]) -> Result<SaidNames, AllocError> {
        Ok(SaidNames {
            given_up: names_by(alloc, words, RecipeWord::Without)?,
            wanted_anew: names_by(alloc, words, RecipeWord::Again)?,
            said_built: names_by(alloc, words, RecipeWord::Built)?,
        })
    }
}

/// The first line of a refusal of an item.
pub fn item_lines(
    alloc: Global,
    name: &[u8],
    version: &[u8],
    why: &[&[u8]],
) -> Result<Vec<u8>, AllocError> {
    let mut lines = Vec::from_slice(alloc, b"refused 724 ")?;
    push_pieces(&mut lines, &[name, b" (= ", version, b")\n  "])?;
    push_pieces(&mut lines, why)?;
    push_pieces(&mut lines, &[b"\n"])?;
    Ok(lines)
}

fn no_version(alloc: Global, name: &[u8], version: &[u8]) -> Stop {
    refused(item_lines(alloc, name, version, &[b"this is no version"]))
}

fn read_parts(alloc: Global, name: &[u8], version: &[u8]) -> Result<Item, Stop>
    ensures { IfOk result (λ item. item ≡ record { name = name.now; version = version.now }) }
{
    let Ok(parsed) = Version::parse(alloc, version) else {
        return Err(no_version(alloc, name, version));
    };
    Ok(Item::new(Vec::from_slice(alloc, name)?, parsed))
}

/// The item that a word names, as `gcc=14-1`.
///
/// # Errors
///
/// Refusal 724 where no version stands behind the first `=`.
pub fn read_word(alloc: Global, word: &[u8]) -> Result<Item, Stop>
    ensures { IfOk result (λ item. item ≡ word_item word.now) }
{
    match cut_at_first(b'=', word) {
        Some((name, version)) => read_parts(alloc, name, version),
        None => Err(no_version(alloc, word, b"")),
    }
}
