//! Who words what an import tells.

ghost use Rattle.std.specs.Prelude.{IfOk};
ghost use Rattle.import_farm.specs.Notes.{HasNotes};

use crate::counts::{COUNTS, Count};
use crate::imported::Inputs;
use crate::refusals::{Refusal, RefusedRecipe};
use crate::taken::{Read, Taken};
use farm_lookup::Unmet;
use farm_universe::Universe;
use import_closure::{Shelf, SourceShelf};
use std::alloc::{AllocError, Global};

/// What an import was given, and what was taken of it.
#[derive(Clone, Copy)]
pub struct Told<'a> {
    pub read: Read<'a>,
    pub taken: &'a Taken,
}

/// The farm that was made, how much it is, and what nothing in it meets.
#[derive(Clone, Copy)]
pub struct Farm<'a> {
    pub universe: &'a Universe,
    pub counts: &'a [Count; COUNTS],
    pub unmet: &'a [Unmet],
}

/// What nothing in a farm meets, and the lines on the farm.
#[derive(Drop)]
pub struct Judgement {
    pub unmet: Vec<Unmet>,
    pub lines: Vec<u8>,
}

/// Words what an import tells. Of the words no more is promised than a note on each entry that
/// nothing meets.
pub trait Tell {
    /// The lines on a farm.
    fn farm_lines(
        alloc: Global,
        shelf: &mut Shelf,
        sources: &SourceShelf,
        told: Told,
        farm: Farm,
    ) -> Result<Vec<u8>, AllocError>
        ensures { IfOk result (λ lines. HasNotes farm.entry.unmet.now lines.items) };

    /// The lines of the refusals of recipes whose builds cannot be made.
    fn recipe_lines(
        alloc: Global,
        shelf: &mut Shelf,
        sources: &SourceShelf,
        read: Read,
        refused: &[RefusedRecipe],
    ) -> Result<Vec<u8>, AllocError>;

    /// The lines of the refusal of what is over a limit.
    fn limit_lines(
        alloc: Global,
        shelf: &mut Shelf,
        told: Told,
        counts: &[Count; COUNTS],
    ) -> Result<Vec<u8>, AllocError>;

    /// The lines of another refusal of texts.
    fn refusal_lines(
        alloc: Global,
        inputs: Inputs,
        refusal: &Refusal,
    ) -> Result<Vec<u8>, AllocError>;
}
