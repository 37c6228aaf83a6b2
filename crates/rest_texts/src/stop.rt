//! Why there is no farm that goes on, and what lines are made of.

use deb_text::{Fault, push_pieces};
use itoa::Buffer;
use plan_reader::file_name;
use rest_farm::Item;
use std::alloc::{AllocError, AllocFailed, Global};

/// Why there is no farm that goes on: the lines of a refusal, or want of memory.
#[derive(Drop)]
pub enum Stop {
    Refused(Vec<u8>),
    OutOfMemory,
}

impl From<AllocError> for Stop {
    fn from(_error: AllocError) -> Stop {
        Stop::OutOfMemory
    }
}

impl<T: Drop> From<AllocFailed<T>> for Stop {
    fn from(_error: AllocFailed<T>) -> Stop {
        Stop::OutOfMemory
    }
}

/// Puts a number behind a text.
pub fn push_number(text: &mut Vec<u8>, number: u64) -> Result<(), AllocError> {
    let mut buffer = Buffer::new();
    text.extend_from_slice(buffer.format(number).as_bytes())
}

/// Puts an item behind a text, as `gcc (= 14-1)`.
pub fn push_item(text: &mut Vec<u8>, item: &Item) -> Result<(), AllocError> {
    push_pieces(text, &[item.name(), b" (= ", item.version().text(), b")"])
}

/// Puts a line behind a text that tells of an item.
pub fn push_item_line(
    text: &mut Vec<u8>,
    front: &[u8],
    item: &Item,
    end: &[u8],
) -> Result<(), AllocError> {
    text.extend_from_slice(front)?;
    push_item(text, item)?;
    push_pieces(text, &[end, b"\n"])
}

/// Puts a line behind a text that begins with a number.
pub fn push_count_line(
    text: &mut Vec<u8>,
    front: &[u8],
    count: usize,
    end: &[u8],
) -> Result<(), AllocError> {
    text.extend_from_slice(front)?;
    push_number(text, count as u64)?;
    text.extend_from_slice(end)
}

/// The refusal that lines tell.
pub fn refused(lines: Result<Vec<u8>, AllocError>) -> Stop {
    match lines {
        Ok(lines) => Stop::Refused(lines),
        Err(AllocError) => Stop::OutOfMemory,
    }
}

/// The first line of a refusal of a recipe, as `refused 722 recipe gmp`.
pub fn recipe_line(alloc: Global, code: &[u8], name: &[u8]) -> Result<Vec<u8>, AllocError> {
    let mut lines = Vec::from_slice(alloc, b"refused ")?;
    push_pieces(&mut lines, &[code, b" recipe ", name, b"\n"])?;
    Ok(lines)
}

fn fault_lines(alloc: Global, fault: Fault) -> Result<Vec<u8>, AllocError> {
    let mut lines = Vec::from_slice(alloc, b"refused ")?;
    push_number(&mut lines, u64::from(fault.code))?;
    push_pieces(
        &mut lines,
        &[b" ", file_name(fault.file).as_bytes(), b" line "],
    )?;
    push_number(&mut lines, u64::from(fault.line))?;
    lines.extend_from_slice(b"\n")?;
    Ok(lines)
}

/// The refusal of a text for its first fault.
pub fn refused_at(alloc: Global, fault: Fault) -> Stop {
    if fault == Fault::MEMORY {
        return Stop::OutOfMemory;
    }
    refused(fault_lines(alloc, fault))
}

fn made_lines(alloc: Global, fault: Fault, line: &[u8]) -> Result<Vec<u8>, AllocError> {
    let mut lines = fault_lines(alloc, fault)?;
    push_pieces(&mut lines, &[b"  ", line, b"\n"])?;
    Ok(lines)
}

/// The refusal of a text that was made, with the line of its first fault.
pub fn refused_made(alloc: Global, fault: Fault, line: Option<&[u8]>) -> Stop {
    match line {
        Some(line) => refused(made_lines(alloc, fault, line)),
        None => refused_at(alloc, fault),
    }
}
