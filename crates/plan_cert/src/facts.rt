//! What is in the archive whenever some variant of a set is.

ghost use Rattle.std.specs.Prelude.{◌≡◌, ◌↔◌, ◌<◌, ◌≤◌, ◌||◌, ℕ, Bool, true, IsTrue, length, take, All, IfOk, IsNone, IfSome};
ghost use Rattle.cert_text.specs.Certificates.{IsNewRow};
ghost use Rattle.farm_model.specs.Common.{names, outputs, contains, initial, IsUniverse, IsKnown};
ghost use Rattle.farm_model.specs.declared.types.Variant.{Variant};
ghost use Rattle.plan_model.specs.Plan.{lane};
ghost use Rattle.sat_rows.specs.Rows.{IsRowOf};
ghost use Rattle.plan_cert.specs.PlaceRows.{place_rows_of};
ghost use Rattle.plan_cert.specs.Origins.{AreLanePublishes, AreOrigins};
ghost use Rattle.plan_cert.specs.Stated.{in_row};
ghost use Rattle.plan_cert.specs.Facts.{HasNoSource, IsFirstSource, IsKnownWith, IsKnownAt, AreFacts};

use crate::claim::Claim;
use crate::origins::Origins;
use bit_rows::Row;
use farm_universe::{Universe, Variant};
use plan_reader::Instruction;
use std::alloc::AllocError;

/// Two sets of variants under a claim: what may be facts of all variants of `sources`, none of it in
/// the initial archive, and where what is in an archive comes from.
#[derive(Clone, Copy)]
pub struct Question<'a> {
    pub claim: Claim<'a>,
    pub origins: &'a Origins,
    pub sources: &'a Row,
    pub new: &'a Row,
    ghost sound: { IsUniverse claim.universe.now },
    ghost origins_are: { AreOrigins claim.universe.now claim.plan.now.lanes origins.now },
    ghost sources_long: { length sources.now ≡ names claim.universe.now },
    ghost new_is: { IsNewRow claim.universe.now new.now },
}

/// The first of these variants that is among the sources.
fn first_source(question: Question<'_>, variants: &[Variant]) -> Option<usize>
    requires { All (IsKnown question.claim.universe.now) variants.now }
    ensures found { IfSome result
        (IsFirstSource (in_row question.entry.sources.now) variants.now) }
    ensures none { IsNone result
        → HasNoSource (in_row question.entry.sources.now) variants.now (length variants.now) }
{
    for n in 0..variants.len() {
        let variant = variants[n];
        if question.sources.has(variant.name as usize, variant.bit) {
            return Some(n);
        }
    }
    None
}

/// A row with the first outputs of a recipe, so many of them.
pub fn with_outputs(
    universe: &Universe,
    before: &Row,
    recipe: u32,
    count: usize,
) -> Result<Row, AllocError>
    requires sound { IsUniverse universe.now }
    requires long { length before.now ≡ names universe.now }
    requires count { count ≤ length (outputs universe.now recipe) }
    ensures long { IfOk result (λ row. length row ≡ names universe.now) }
    ensures added { IfOk result (λ row. (test : Variant → Bool)
        → IsRowOf universe.now test before.now → IsRowOf universe.now
        (λ v. test v || contains (take count (outputs universe.now recipe)) v) row) }
{
    let outputs = universe.outputs(recipe);
    let mut row = before.clone()?;
    for n in 0..count {
        let output = outputs[n];
        row.set_bit(output.name as usize, output.bit)?;
    }
    Ok(row)
}

/// Tells whether all of `new` is there with each output of a recipe that is among the sources,
/// where `before` is known ahead of its publish.
fn is_known_with(question: Question<'_>, before: &Row, recipe: u32) -> Result<bool, AllocError>
    requires { length before.now ≡ names question.claim.universe.now }
    ensures { IfOk result (λ yes. (known : Variant → Bool)
        → IsRowOf question.entry.claim.universe.now known before.now
        → ((v : Variant) → known v ≡ true → IsKnown question.entry.claim.universe.now v)
        → IsTrue yes ↔ IsKnownWith question.entry.claim.universe.now
        (in_row question.entry.sources.now) (in_row question.entry.new.now) known recipe) }
{
    let universe = question.claim.universe;
    let outputs = universe.outputs(recipe);
    let Some(first) = first_source(question, outputs) else {
        return Ok(true);
    };
    if question.new.within(before) {
        return Ok(true);
    }
    let row = with_outputs(universe, before, recipe, first + 1)?;
    Ok(question.new.within(&row))
}

/// Tells so of the publish at a place, if there is one.
fn is_known_at(question: Question<'_>, number: usize, place: usize) -> Result<bool, AllocError>
    requires lane { number < length question.claim.plan.now.lanes }
    requires place { place < length (lane question.claim.plan.now.lanes number).instructions }
    ensures { IfOk result (λ yes. IsTrue yes ↔ IsKnownAt question.entry.claim.universe.now
        question.entry.claim.plan.now.lanes (place_rows_of question.entry.claim.known.now)
        (in_row question.entry.sources.now) (in_row question.entry.new.now) number place) }
{
    let claim = question.claim;
    let Some(recipe) = claim.plan.lane(number).instructions()[place].published() else {
        return Ok(true);
    };
    let before = claim.known.listed(number, place);
    let yes = is_known_with(question, before, recipe)?;
    Ok(yes)
}

/// Tells so of all publishes of a lane, which stand at these places.
fn is_known_in(question: Question<'_>, number: usize, places: &[usize]) -> Result<bool, AllocError>
    requires lane { number < length question.claim.plan.now.lanes }
    requires places { AreLanePublishes question.claim.plan.now.lanes number places.now }
    ensures { IfOk result (λ yes. IsTrue yes
        ↔ ((k : ℕ) → IsKnownAt question.entry.claim.universe.now
        question.entry.claim.plan.now.lanes (place_rows_of question.entry.claim.known.now)
        (in_row question.entry.sources.now) (in_row question.entry.new.now) number k)) }
{
    for n in 0..places.len() {
        if !is_known_at(question, number, places[n])? {
            return Ok(false);
        }
    }
    Ok(true)
}

/// Tells whether all of `new` is in the initial archive, if some of `sources` is.
fn is_initial(question: Question<'_>) -> bool
    ensures { IsTrue result ↔ ((c v : Variant) → in_row question.entry.sources.now c ≡ true
        → in_row question.entry.new.now v ≡ true
        → initial question.entry.claim.universe.now c ≡ true
        → initial question.entry.claim.universe.now v ≡ true) }
{
    if !question.origins.archive.hits(question.sources) {
        return true;
    }
    question.new.within(&question.origins.archive)
}

/// Tells whether each variant of `new` is in the archive whenever some variant of `sources` is.
pub fn are_facts(question: Question<'_>) -> Result<bool, AllocError>
    ensures { IfOk result (λ yes. IsTrue yes ↔ AreFacts question.entry.claim.universe.now
        question.entry.claim.plan.now.lanes (place_rows_of question.entry.claim.known.now)
        (in_row question.entry.sources.now) (in_row question.entry.new.now)) }
{
    if !is_initial(question) {
        return Ok(false);
    }
    for number in 0..question.claim.plan.lanes() {
        let places = question.origins.publishes[number].places.as_slice();
        if !is_known_in(question, number, places)? {
            return Ok(false);
        }
    }
    Ok(true)
}
