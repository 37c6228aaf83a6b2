//! Questions about the names of architectures.

use crate::answer::{Answer, Refusal};
use case_files::TableRow;
use debian_index::architecture_names;
use std::alloc::Global;

/// Answers `architecture_names NAME`: each name ended by a `;`.
pub fn answer(alloc: Global, row: TableRow) -> Answer {
    match row.question {
        "architecture_names" => spell_names(alloc, row.arg(0)),
        _ => Err(Refusal::NoQuestion),
    }
}

fn spell_names(alloc: Global, architecture: &[u8]) -> Answer {
    let mut answer = Vec::new(alloc);
    for name in &architecture_names(alloc, architecture)? {
        answer.extend_from_slice(name)?;
        answer.push(b';')?;
    }
    Ok(answer)
}
