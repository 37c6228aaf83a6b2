//! Whether a text is a wish that leaves a choice.

ghost use Rattle.std.specs.Prelude.{◌≡◌, drop, IfOk};
ghost use Rattle.std.specs.List.{list_any};
ghost use Rattle.import_wish.specs.Targets.{has_targets, is_every, leaves_choice, leaves_choice_in};

use crate::targets::is_every;
use deb_fields::Paragraph;
use deb_stanza::Paragraphs;
use deb_text::Fault;
use std::alloc::{AllocError, Global};

fn has_targets(paragraphs: &Paragraphs) -> bool
    ensures { result ≡ has_targets paragraphs.now }
{
    if paragraphs.count() == 0 {
        return false;
    }
    Paragraph::new(paragraphs, 0).field(b"Targets").is_some()
}

fn has_every(paragraphs: &Paragraphs) -> bool
    ensures { result ≡ list_any is_every (drop 1 paragraphs.now) }
{
    for number in 1..paragraphs.count() {
        if is_every(&Paragraph::new(paragraphs, number)) {
            return true;
        }
    }
    false
}

/// Tells whether the paragraphs of a wish leave a choice.
pub fn leaves_choice(paragraphs: &Paragraphs) -> bool
    ensures { result ≡ leaves_choice paragraphs.now }
{
    has_targets(paragraphs) || has_every(paragraphs)
}

/// Tells whether a text is a wish that leaves a choice: its first paragraph has `Targets`, or a recipe
/// is `*`.
pub fn leaves_a_choice(alloc: Global, wish: &[u8]) -> Result<bool, AllocError>
    ensures { IfOk result (λ said. said ≡ leaves_choice_in wish.now) }
{
    match Paragraphs::read(alloc, wish) {
        Ok(paragraphs) => Ok(leaves_choice(&paragraphs)),
        Err(fault) => {
            if fault == Fault::MEMORY {
                return Err(AllocError);
            }
            Ok(false)
        }
    }
}
