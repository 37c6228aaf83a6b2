//! The questions of tables. Each layer answers its own, and leaves the others to the next.

use crate::answer::spelled;
use crate::versions;
use case_files::{TableAnswers, TableRow};
use std::alloc::{AllocError, Global};

/// The answers of the libraries of the Debian layers.
#[derive(Drop)]
pub struct PolicyAnswers;

impl<R> TableAnswers<R> for PolicyAnswers {
    fn answer_to(&self, _rt: &R, alloc: Global, row: TableRow) -> Result<Vec<u8>, AllocError> {
        spelled(alloc, versions::answer(alloc, row))
    }
}
