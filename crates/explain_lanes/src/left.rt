//! What a `remove` may leave behind, as lines.

use crate::entries::asked_entry;
use crate::text::Piece::Line;
use crate::text::Text;
use deb_text::push_pieces;
use explain_reasons::Left;
use farm_universe::Universe;
use plan_reader::Plan;
use std::alloc::{AllocError, Global};

/// The words of a warning.
fn left_words<'a>(
    alloc: Global,
    universe: &'a Universe,
    plan: &'a Plan,
    warning: Left,
) -> Result<Vec<u8>, AllocError> {
    let mut text = Text {
        universe,
        plan,
        bytes: Vec::new(alloc),
    };
    text.say(b"%: this may leave ", &[Line(warning.lane, warning.place)])?;
    match asked_entry(universe, warning.reason) {
        Some(asked) => text.say(b"% unpacked without its %: %", &asked.pieces)?,
        None => text.say(b"a package without what it needs", &[])?,
    }
    Ok(text.bytes)
}

/// Puts a line for each warning of what may be left behind a text.
pub fn push_left(
    alloc: Global,
    text: &mut Vec<u8>,
    universe: &Universe,
    plan: &Plan,
    warnings: &[Left],
) -> Result<(), AllocError> {
    for warning in warnings {
        let words = left_words(alloc, universe, plan, *warning)?;
        push_pieces(text, &[b"warning: ", &words, b"\n"])?;
    }
    Ok(())
}
