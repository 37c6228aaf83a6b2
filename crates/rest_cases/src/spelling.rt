//! How tables spell variants, `gcc=14-1,make=4`, and schedules, `0,0,1`. Nothing is `-`.

use deb_text::{cut_at_first, push_pieces, read_number};
use deb_version::Version;
use rest_farm::{Item, Items};
use std::alloc::{AllocError, Global};

/// Puts a variant behind a list, if its version is one.
fn push_item(list: &mut Vec<Item>, alloc: Global, piece: &[u8]) -> Result<(), AllocError> {
    let (name, version) = cut_at_first(b'=', piece).unwrap_or((piece, b""));
    if let Ok(version) = Version::parse(alloc, version) {
        list.push(Item::new(Vec::from_slice(alloc, name)?, version))?;
    }
    Ok(())
}

/// The variants of a list.
pub fn read_list(alloc: Global, text: &[u8]) -> Result<Vec<Item>, AllocError> {
    let mut list = Vec::new(alloc);
    for piece in text.split(|byte| *byte == b',') {
        push_item(&mut list, alloc, piece)?;
    }
    Ok(list)
}

pub fn read_items(alloc: Global, text: &[u8]) -> Result<Items, AllocError> {
    Items::of(alloc, read_list(alloc, text)?)
}

/// The lanes of a schedule, by number.
pub fn read_schedule(alloc: Global, text: &[u8]) -> Result<Vec<u32>, AllocError> {
    let mut lanes = Vec::new(alloc);
    for piece in text.split(|byte| *byte == b',') {
        if let Some(number) = read_number(piece) {
            lanes.push(number.min(u64::from(u32::MAX)) as u32)?;
        }
    }
    Ok(lanes)
}

/// The text of a list.
pub fn spelled_list(alloc: Global, items: &[Item]) -> Result<Vec<u8>, AllocError> {
    let mut text = Vec::new(alloc);
    for item in items {
        if !text.is_empty() {
            text.extend_from_slice(b",")?;
        }
        text.extend_from_slice(item.name())?;
        push_pieces(&mut text, &[b"=", item.version().text()])?;
    }
    if text.is_empty() {
        text.extend_from_slice(b"-")?;
    }
    Ok(text)
}
