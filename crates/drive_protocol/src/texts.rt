//! The words of all recipes of a farm text.

ghost use Rattle.std.specs.Prelude.{◌≡◌, ◌<◌, IfOk, length};
ghost use Rattle.deb_stanza.specs.Stanza.{paragraph_at, paragraphs_at};
ghost use Rattle.deb_text.specs.Lists.{lists};
ghost use Rattle.drive_protocol.specs.RecipeWords as spec;

use crate::paragraph::words_at;
use deb_stanza::Paragraphs;
use deb_text::Fault;
use std::alloc::{AllocError, Global};

fn is_recipe(paragraphs: &Paragraphs, place: usize) -> bool
    requires { place < length paragraphs.now }
    ensures { result ≡ spec.is_recipe (paragraph_at paragraphs.now place) }
{
    paragraphs.field(place, b"Recipe").is_some()
}

/// The words of the recipes among these paragraphs.
fn words_of(alloc: Global, paragraphs: &Paragraphs) -> Result<Vec<Vec<u8>>, AllocError>
    ensures { IfOk result (λ all. lists all.items ≡ spec.words_in paragraphs.now) }
{
    let mut all = Vec::new(alloc);
    for place in 1..paragraphs.count() {
        if is_recipe(paragraphs, place) {
            all.push(words_at(alloc, paragraphs, place)?)?;
        }
    }
    Ok(all)
}

/// Gives the words of each recipe of a farm text beside its name, a space before each, in the order
/// in which a universe that is read from the text numbers them. A text with a fault has none.
pub fn read_recipe_words(alloc: Global, farm: &[u8]) -> Result<Vec<Vec<u8>>, AllocError>
    ensures { IfOk result (λ all. lists all.items ≡ spec.all_recipe_words farm.now) }
{
    match Paragraphs::read(alloc, farm) {
        Ok(paragraphs) => words_of(alloc, &paragraphs),
        Err(Fault::MEMORY) => Err(AllocError),
        Err(_) => Ok(Vec::new(alloc)),
    }
}
