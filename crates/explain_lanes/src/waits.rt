//! What the waits of an accepted plan wait for.

ghost use Rattle.std.specs.Prelude.{◌≡◌, ◌<◌, ◌++◌, length, IfOk, OnOk, filter, find};
ghost use Rattle.explain_lanes.specs.Notes.{all_facts};
ghost use Rattle.farm_model.specs.Packages.{initial};
ghost use Rattle.plan_verifier.specs.Stage.{IsWhole};
ghost use Rattle.explain_lanes.specs.Waits as spec;

use crate::further::Further;
use crate::note::{Note, Told, note_at};
use crate::stuck::wait_at;
use crate::subject::{Publications, Spot, Subject};
use crate::text::Piece::{Lane, Number, Package};
use crate::text::{Said, Text};
use crate::variants::{is_initial, satisfying};
use deb_relation::Entry;
use farm_universe::{Universe, Variant};
use known_rows::KnownWords;
use may_rows::{has_bit, variant_count};
use plan_verifier::Stage;
use std::alloc::{AllocError, Global};

/// The first of these variants that is in the archive from the start.
fn first_initial(universe: &Universe, variants: &[Variant]) -> Option<Variant>
    ensures { result ≡ find (initial universe.now) variants.now }
{
    variants
        .iter()
        .copied()
        .find(|variant| is_initial(universe, *variant))
}

/// Tells whether a variant may be in the archive at an instruction.
#[tactic(auto, using(farm_universe::proofs::PlaceLaws::named))]
fn may_be_there(at: Spot<'_>, variant: Variant) -> bool
    ensures { result ≡ spec.may_be_there at.entry.of.universe.now at.entry.of.plan.now.lanes
        at.entry.lane at.entry.place variant }
{
    let Variant { name, bit } = variant;
    let (universe, outputs) = (at.of.universe, at.of.outputs);
    bit < variant_count(universe, name)
        && has_bit(
            outputs.possible_word(universe, at.lane, at.place, name),
            bit,
        )
}

/// Those of some variants that may be in the archive at an instruction.
fn sources(at: Spot<'_>, variants: &[Variant]) -> Result<Vec<Variant>, AllocError>
    ensures { IfOk result (λ found. found.items ≡ filter (spec.may_be_there
        at.entry.of.universe.now at.entry.of.plan.now.lanes at.entry.lane at.entry.place)
        variants.now) }
{
    variants
        .iter()
        .copied()
        .filter(|variant| may_be_there(at, *variant))
        .collect(at.of.alloc)
}

/// What is told of a wait by its entry.
fn entry_told(at: Spot<'_>, entry: &Entry) -> Result<Option<Told>, AllocError>
    ensures { IfOk result (λ told. told ≡ spec.entry_told at.entry.of.universe.now
        at.entry.of.plan.now.lanes at.entry.lane at.entry.place entry.now) }
{
    let variants = satisfying(at.of, entry)?;
    if let Some(variant) = first_initial(at.of.universe, &variants) {
        return Ok(Some(Told::FromStart(variant)));
    }
    let sources = sources(at, &variants)?;
    match sources.as_slice() {
        [] => Ok(None),
        [first, more @ ..] => Ok(Some(Told::Coming(*first, more.len()))),
    }
}

/// The line of a wait: what it waits for, where that is published, and how many more would do.
fn wait_text(at: Spot<'_>, told: Told) -> Result<Vec<u8>, AllocError> {
    let mut text = Text::new(at.of);
    let number = Number(at.number() as u64);
    text.say(b"lane % instruction % waits for ", &[Lane(at.lane), number])?;
    match told {
        Told::FromStart(variant) => {
            let package = [Package(variant)];
            text.say(b"nothing: % is in the archive from the start", &package)?;
        }
        Told::Coming(variant, more) => {
            text.say(b"%", &[Package(variant)])?;
            if let Some(found) = at.of.publications.of(variant) {
                let number = Number(found.instruction as u64);
                text.say(b" of lane % instruction %", &[Lane(found.lane), number])?;
            }
            if more > 0 {
                text.say(b", or % more", &[Number(more as u64)])?;
            }
        }
        _ => {}
    }
    text.say(b"\n", &[])?;
    Ok(text.bytes)
}

/// Puts the note on an instruction behind others, where it is a wait of which something is told.
fn push_wait(notes: &mut Vec<Note>, at: Spot<'_>) -> Said
    ensures { OnOk result (all_facts notes.new.items ≡ all_facts notes.old.items
        ++ spec.place_notes at.entry.of.universe.now at.entry.of.plan.now.lanes
        at.entry.of.plan.now.lines.lanes at.entry.lane at.entry.place) }
{
    let Some(entry) = wait_at(at.of.plan, at.lane, at.place) else {
        return Ok(());
    };
    if let Some(told) = entry_told(at, entry)? {
        let text = wait_text(at, told)?;
        notes.push(note_at(at, None, told, Further::Nothing, text)?)?;
    }
    Ok(())
}

/// Puts the notes on the waits of a lane behind others.
fn push_lane(notes: &mut Vec<Note>, of: Subject<'_>, lane: usize) -> Said
    requires { lane < length of.plan.now.lanes }
    ensures { OnOk result (all_facts notes.new.items ≡ all_facts notes.old.items
        ++ spec.lane_waits of.entry.universe.now of.entry.plan.now.lanes of.entry.plan.now.lines.lanes
        lane) }
{
    for place in 0..of.plan.lane(lane).instructions().len() {
        push_wait(notes, Spot { of, lane, place })?;
    }
    Ok(())
}

/// Gives the notes on what the waits of an accepted plan wait for, lane by lane and in each lane in
/// order: of the variants that satisfy the entry, by their names and versions, the first that is in
/// the archive from the start; or else the first that a lane publishes, this one ahead of the wait,
/// and how many more do. None on a wait for which there is neither.
#[tactic(auto, unfolding(crate::specs::Waits::waits_notes))]
pub fn waits_notes<K: KnownWords>(
    alloc: Global,
    stage: &Stage<'_, K>,
) -> Result<Vec<Note>, AllocError>
    requires { IsWhole K.known stage.now }
    ensures { IfOk result (λ notes. all_facts notes.items ≡ spec.waits_notes
        stage.now.universe.now stage.now.plan.now.lanes stage.now.plan.now.lines.lanes) }
{
    let publications = Publications::of_plan(alloc, stage.universe, stage.plan)?;
    let of = Subject {
        alloc,
        universe: stage.universe,
        tables: stage.tables,
        plan: stage.plan,
        outputs: stage.outputs,
        publications: &publications,
    };
    let mut notes = Vec::new(alloc);
    for lane in 0..stage.plan.lanes() {
        push_lane(&mut notes, of, lane)?;
    }
    Ok(notes)
}
