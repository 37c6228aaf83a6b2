//! What a row of a certificate has beyond what its lane can know there.

use crate::cert_places::{Place, instructions, row_ahead};
use bit_rows::Row;
use cert_text::Certificate;
use deb_relation::view_relation;
use explain_lanes::{Publications, is_initial, is_known as is_variant, satisfies};
use farm_universe::{Universe, Variant};
use plan_reader::{Instruction, Plan};

/// A certificate of a plan, with where the plan publishes what.
#[derive(Clone, Copy)]
pub struct Claim<'a> {
    pub universe: &'a Universe,
    pub plan: &'a Plan,
    pub publications: &'a Publications,
    pub certificate: &'a Certificate,
}

/// Tells whether a row has a variant.
fn has(row: &Row, variant: Variant) -> bool {
    let name = variant.name as usize;
    name < row.len() && variant.bit < 64 && row.has(name, variant.bit)
}

/// The row of a certificate for an instruction.
fn row_of(claim: Claim<'_>, place: Place) -> Option<&Row> {
    if place.lane >= claim.certificate.lanes() {
        return None;
    }
    let all = instructions(claim.plan, place.lane).iter().take(place.at);
    let ahead = all.filter(|instruction| instruction.teaches()).count();
    claim.certificate.lane_rows(place.lane).get(ahead)
}

/// Tells whether a lane knows a variant ahead of a place, as the certificate says, where that is
/// not of the initial archive.
fn is_known(claim: Claim<'_>, place: Place, variant: Variant) -> bool {
    let row = row_ahead(claim.plan, place).and_then(|place| row_of(claim, place));
    matches!(row, Some(row) if has(row, variant))
}

/// Tells whether a variant is in the archive wherever another one is, that is not of the initial
/// archive.
fn comes_with(claim: Claim<'_>, variant: Variant, other: Variant) -> bool {
    let Some(found) = claim.publications.of(other) else {
        return false;
    };
    let place = Place {
        lane: found.lane,
        at: found.instruction.saturating_sub(1),
    };
    let mut outputs = claim.universe.outputs(found.recipe).iter();
    variant == other
        || outputs
            .take_while(|output| **output != other)
            .any(|output| *output == variant)
        || is_known(claim, place, variant)
}

/// Tells whether a variant may be in the archive ahead of an instruction.
fn may_be_there(claim: Claim<'_>, place: Place, variant: Variant) -> bool {
    match claim.publications.of(variant) {
        Some(found) => found.lane != place.lane || found.instruction <= place.at,
        None => is_initial(claim.universe, variant),
    }
}

/// Tells whether a lane goes on behind an instruction by this variant.
fn lets_on(universe: &Universe, instruction: &Instruction, variant: Variant) -> bool {
    match instruction {
        Instruction::Wait(entry) => satisfies(universe, entry, variant),
        Instruction::When { name, relation } => {
            variant.name == *name
                && is_variant(universe, variant)
                && universe.is_wanted(variant, view_relation(relation))
        }
        _ => false,
    }
}

/// Tells whether an instruction gives a variant that is not of the initial archive: publishes it, or
/// goes on only by variants with which it comes.
fn gives(claim: Claim<'_>, place: Place, variant: Variant) -> bool {
    let universe = claim.universe;
    let Some(instruction) = instructions(claim.plan, place.lane).get(place.at) else {
        return false;
    };
    if let Instruction::Publish(recipe) = instruction {
        return universe.outputs(*recipe).contains(&variant);
    }
    let goes_on_without = (0..universe.names()).any(|name| {
        (0..universe.variants(name))
            .map(|bit| Variant { name, bit })
            .any(|other| {
                lets_on(universe, instruction, other)
                    && may_be_there(claim, place, other)
                    && !comes_with(claim, variant, other)
            })
    });
    !goes_on_without && may_be_there(claim, place, variant)
}

/// The first variant that the row for an instruction has, and that its lane cannot know there.
pub fn too_many(claim: Claim<'_>, place: Place) -> Option<Variant> {
    let row = row_of(claim, place)?;
    (0..claim.universe.names()).find_map(|name| {
        (0..claim.universe.variants(name))
            .map(|bit| Variant { name, bit })
            .find(|variant| {
                has(row, *variant)
                    && !is_known(claim, place, *variant)
                    && !gives(claim, place, *variant)
            })
    })
}
