//! What notes are about.

use crate::WantedLane;
use deb_text::push_pieces;
use draft_search::FarmNumbers;
use farm_universe::{Universe, Variant};
use itoa::Buffer;
use plan_reader::{Texts, name_of, push_variant};
use std::alloc::{AllocError, Global};

/// A farm, with its texts and its numbers, and the lanes that are wanted.
#[derive(Clone, Copy)]
pub struct About<'a> {
    pub alloc: Global,
    pub universe: &'a Universe,
    pub numbers: &'a FarmNumbers,
    pub texts: Texts<'a>,
    pub lanes: &'a [WantedLane],
}

/// A number as the universe counts.
fn short(number: usize) -> u32 {
    u32::try_from(number).unwrap_or(u32::MAX)
}

impl<'a> About<'a> {
    /// The variant of a number.
    pub fn variant(&self, number: usize) -> Variant {
        let facts = self.numbers.facts(number);
        Variant {
            name: short(facts.name),
            bit: short(facts.bit),
        }
    }

    /// The name of a recipe.
    pub fn recipe_name(&self, recipe: usize) -> &'a [u8] {
        self.universe.recipe_name(short(recipe))
    }

    /// The name of a lane; nothing for a number past the last.
    pub fn lane_name(&self, lane: usize) -> &'a [u8] {
        match self.lanes.get(lane) {
            Some(lane) => &lane.name,
            None => b"",
        }
    }

    /// The name of a base chroot; nothing for a number past the last.
    pub fn base_name(&self, base: usize) -> &'a [u8] {
        let number = short(base);
        if number < self.universe.bases() {
            self.universe.base(number).name()
        } else {
            b""
        }
    }

    /// A name of a package, by its number.
    pub fn name(&self, number: usize) -> &'a [u8] {
        name_of(self.universe, short(number))
    }

    /// Puts words, and `NAME (= VERSION)` of a variant, behind a text.
    pub fn push_variant(
        &self,
        text: &mut Vec<u8>,
        words: &[u8],
        number: usize,
    ) -> Result<(), AllocError> {
        push_pieces(text, &[words])?;
        push_variant(text, self.universe, self.variant(number))
    }
}

/// Puts words and a number behind a text.
pub fn push_number(text: &mut Vec<u8>, words: &[u8], number: u64) -> Result<(), AllocError> {
    let mut digits = Buffer::new();
    let number = digits.format(number);
    push_pieces(text, &[words, number.as_bytes()])
}
