//! Why targets cannot be had: needs that nothing can meet, or a circle; and what would break it.

use crate::circle::push_circle;
use crate::given::{Asked, what_is_had};
use crate::hints::{push_before, push_droppable};
use crate::hopeless::hopeless_lines;
use crate::looked::look_at_all;
use import_closure::{Shelf, SourceShelf};
use std::alloc::AllocError;

/// The lines of the refusals 708, or else those of 709.
pub fn obstacle_lines(
    asked: Asked,
    shelf: &Shelf,
    sources: &SourceShelf,
) -> Result<Vec<u8>, AllocError> {
    let had = what_is_had(asked, shelf, sources)?;
    let all = look_at_all(&had, asked, shelf)?;
    let mut lines = hopeless_lines(&had, asked, shelf, &all)?;
    if lines.is_empty() {
        push_circle(&mut lines, &had, asked, shelf, &all)?;
        push_droppable(&mut lines, &had, asked)?;
        push_before(&mut lines, &had, asked)?;
    }
    Ok(lines)
}
