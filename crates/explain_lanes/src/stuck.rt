//! Which lane a lane waits for where it stands, and notes on the lanes of a plan that are stuck.

ghost use Rattle.std.specs.Prelude.{◌≡◌, ◌<◌, ◌++◌, length, drop, IfOk, OnOk, option_map};
ghost use Rattle.std.specs.List.{list_any};
ghost use Rattle.explain_lanes.specs.Notes.{all_facts};
ghost use Rattle.plan_verifier.specs.Stage.{IsWhole};
ghost use Rattle.wait_order.specs.Standing.{place_of};
ghost use Rattle.explain_lanes.specs.Stuck.{ShowsStuck};
ghost use Rattle.explain_lanes.specs.Stuck as spec;

use crate::further::Further;
use crate::note::{Group, Note, Told, note_at};
use crate::origins::push_publisher;
use crate::subject::{Publications, Spot, Subject};
use crate::text::Piece::{Lane, Number, Package};
use crate::text::{Piece, Said, Text};
use crate::variants::{satisfies, satisfying};
use deb_relation::Entry;
use farm_universe::{Universe, Variant};
use known_rows::KnownWords;
use may_rows::variant_count;
use plan_reader::{Instruction, Plan};
use plan_verifier::Stage;
use std::alloc::{AllocError, Global};
use wait_order::{Settled, Standing, settle};

/// The entry of the wait at a place of a lane, where there is one.
pub fn wait_at(plan: &Plan, number: usize, place: usize) -> Option<&Entry>
    requires { number < length plan.now.lanes }
    ensures { option_map (λ e. e.now) result ≡ spec.wait_at plan.now.lanes number place }
{
    match plan.instruction(number, place)? {
        Instruction::Wait(entry) => Some(entry),
        _ => None,
    }
}

/// Tells whether an instruction publishes what satisfies an entry.
fn serves(universe: &Universe, entry: &Entry, instruction: &Instruction) -> bool
    ensures { result ≡ spec.serves universe.now entry.now instruction.now }
{
    match instruction {
        Instruction::Publish(recipe) => universe
            .outputs(*recipe)
            .iter()
            .any(|output| satisfies(universe, entry, *output)),
        _ => false,
    }
}

/// Tells whether some of these instructions, from a place on, publishes what satisfies an entry.
fn will_serve(
    universe: &Universe,
    entry: &Entry,
    instructions: &[Instruction],
    place: usize,
) -> bool
    ensures { result ≡ list_any (spec.serves universe.now entry.now) (drop place instructions.now) }
{
    instructions
        .iter()
        .skip(place)
        .any(|instruction| serves(universe, entry, instruction))
}

/// The first lane that publishes what satisfies an entry where it stands or behind.
fn first_server(universe: &Universe, plan: &Plan, ats: &[Standing], entry: &Entry) -> Option<usize>
    requires { length ats.now ≡ length plan.now.lanes }
    ensures { result
        ≡ spec.first_server universe.now plan.now.lanes (place_of ats.now) entry.now }
{
    (0..plan.lanes()).find(|lane| {
        will_serve(
            universe,
            entry,
            plan.lane(*lane).instructions(),
            ats[*lane].place,
        )
    })
}

/// For each lane the one that it waits for where it stands.
fn nexts(
    alloc: Global,
    universe: &Universe,
    plan: &Plan,
    ats: &[Standing],
) -> Result<Vec<Option<usize>>, AllocError>
    requires { length ats.now ≡ length plan.now.lanes }
    ensures { IfOk result (λ nexts. nexts.items
        ≡ spec.nexts universe.now plan.now.lanes (place_of ats.now)) }
{
    (0..plan.lanes())
        .map(|lane| first_server(universe, plan, ats, wait_at(plan, lane, ats[lane].place)?))
        .collect(alloc)
}

/// The lane that a lane waits for.
fn next_of(nexts: &[Option<usize>], number: usize) -> Option<usize>
    ensures { result ≡ spec.next_of nexts.now number }
{
    nexts.get(number).copied().flatten()
}

/// The lane that is so many lanes on.
fn follow(nexts: &[Option<usize>], number: usize, count: usize) -> Option<usize>
    ensures { result ≡ spec.follow nexts.now number count }
{
    (0..count).fold(Some(number), |at, _| next_of(nexts, at?))
}

/// How many other lanes lie on the way from a lane to itself, where there is a way.
fn way_back(nexts: &[Option<usize>], number: usize) -> Option<usize>
    ensures { result ≡ spec.way_back nexts.now number }
{
    (0..nexts.len()).find(|passed| {
        matches!(follow(nexts, number, *passed + 1), Some(lane) if lane == number)
    })
}

/// Tells whether a lane stands in a group, by the lane that each lane waits for.
fn stands_in(nexts: &[Option<usize>], group: Group, number: usize) -> bool
    ensures { result ≡ spec.stands_in nexts.now group number }
{
    match group {
        Group::Unpublished => next_of(nexts, number).is_none(),
        Group::Circle => way_back(nexts, number).is_some(),
        Group::Behind => { next_of(nexts, number).is_some() && way_back(nexts, number).is_none() }
    }
}

/// The first lane that waits in a circle.
fn circle_start(nexts: &[Option<usize>]) -> Option<usize>
    ensures { result ≡ spec.circle_start nexts.now }
{
    (0..nexts.len()).find(|number| way_back(nexts, *number).is_some())
}

/// A lane, and the others that lie on the way to itself.
fn lanes_round(
    alloc: Global,
    nexts: &[Option<usize>],
    first: usize,
) -> Result<Vec<usize>, AllocError>
    ensures { IfOk result (λ lanes. lanes.items ≡ spec.lanes_round nexts.now first) }
{
    let others = way_back(nexts, first).unwrap_or(0);
    (0..nexts.len())
        .filter(|passed| *passed <= others)
        .filter_map(|passed| follow(nexts, first, passed))
        .collect(alloc)
}

/// A plan whose lanes stand still: where each stands, and for which it waits there.
#[derive(Clone, Copy)]
struct Halted<'a> {
    of: Subject<'a>,
    ats: &'a [Standing],
    nexts: &'a [Option<usize>],
    ghost long: { length ats.now ≡ length of.plan.now.lanes },
}

/// A line for each variant of a name that could meet an entry, none of which satisfies it.
fn push_unfit(text: &mut Text<'_>, of: Subject<'_>, entry: &Entry) -> Said {
    for name in &text.likely_or_near(of, entry)? {
        for bit in 0..variant_count(of.universe, *name) {
            let package = Package(Variant { name: *name, bit });
            text.say(b"  % does not satisfy it\n", &[package])?;
        }
    }
    Ok(())
}

/// What is said of a lane that waits for this where it stands: a line for each variant that
/// satisfies the entry, with who publishes it; where there is none, what does not satisfy it.
fn lane_text(at: Spot<'_>, group: Group, entry: &Entry) -> Result<Vec<u8>, AllocError> {
    let mut text = Text::new(at.of);
    let words: &[u8] = match group {
        Group::Unpublished => b"lane % instruction % waits for what no lane publishes\n%\n",
        Group::Circle => b"lane % instruction % waits in a circle\n%\n",
        Group::Behind => b"lane % instruction % waits for stuck lanes\n%\n",
    };
    let line = Piece::Instruction(at.lane, at.place);
    text.say(words, &[Lane(at.lane), Number(at.number() as u64), line])?;
    let found = satisfying(at.of, entry)?;
    if found.is_empty() {
        push_unfit(&mut text, at.of, entry)?;
    }
    let own = b"  %, which this lane publishes behind it %\n";
    let other = b"  %, which lane % publishes %\n";
    for variant in &found {
        push_publisher(&mut text, at, *variant, own, other)?;
    }
    Ok(text.bytes)
}

/// Puts the note on a lane behind others, where it waits and is of the group.
fn push_lane(notes: &mut Vec<Note>, halted: Halted<'_>, group: Group, lane: usize) -> Said
    requires { lane < length halted.of.plan.now.lanes }
    ensures { OnOk result (all_facts notes.new.items ≡ all_facts notes.old.items ++ spec.lane_notes
        halted.entry.of.plan.now.lanes halted.entry.of.plan.now.lines.lanes
        halted.entry.nexts.now group lane (place_of halted.entry.ats.now lane)) }
{
    let (of, place) = (halted.of, halted.ats[lane].place);
    let Some(entry) = wait_at(of.plan, lane, place) else {
        return Ok(());
    };
    if !stands_in(halted.nexts, group, lane) {
        return Ok(());
    }
    let at = Spot { of, lane, place };
    let text = lane_text(at, group, entry)?;
    let told = Told::Stuck(group, next_of(halted.nexts, lane));
    notes.push(note_at(at, None, told, Further::Nothing, text)?)?;
    Ok(())
}

/// Puts the notes on the lanes of a group behind others.
fn push_group(notes: &mut Vec<Note>, halted: Halted<'_>, group: Group) -> Said
    ensures { OnOk result (all_facts notes.new.items ≡ all_facts notes.old.items
        ++ spec.group_notes halted.entry.of.plan.now.lanes halted.entry.of.plan.now.lines.lanes
        halted.entry.nexts.now (place_of halted.entry.ats.now) group) }
{
    for lane in 0..halted.of.plan.lanes() {
        push_lane(notes, halted, group, lane)?;
    }
    Ok(())
}

/// The line of a circle.
fn circle_text(of: Subject<'_>, first: usize, lanes: &[usize]) -> Result<Vec<u8>, AllocError> {
    let mut text = Text::new(of);
    text.say(b"% waits for ", &[Lane(first)])?;
    for lane in lanes.iter().skip(1) {
        text.say(b"%, % waits for ", &[Lane(*lane), Lane(*lane)])?;
    }
    text.say(b"%\n", &[Lane(first)])?;
    Ok(text.bytes)
}

/// Puts a note on one circle of lanes behind others, from its first lane in file order; none where
/// no lane waits in a circle. `nexts` has the lane that each lane waits for.
fn push_circle(notes: &mut Vec<Note>, of: Subject<'_>, nexts: &[Option<usize>]) -> Said
    ensures { OnOk result (all_facts notes.new.items
        ≡ all_facts notes.old.items ++ spec.circle_notes nexts.now) }
{
    if let Some(first) = circle_start(nexts) {
        let lanes = lanes_round(of.alloc, nexts, first)?;
        let text = circle_text(of, first, &lanes)?;
        notes.push(Note {
            told: Told::Circle(first),
            further: Further::Lanes(lanes),
            place: None,
            head: Vec::new(of.alloc),
            text,
        })?;
    }
    Ok(())
}

/// The notes on all lanes, and on one circle.
#[tactic(auto, unfolding(crate::specs::Stuck::halted_notes))]
fn halted_notes(halted: Halted<'_>) -> Result<Vec<Note>, AllocError>
    ensures { IfOk result (λ notes. all_facts notes.items ≡ spec.halted_notes
        halted.entry.of.plan.now.lanes halted.entry.of.plan.now.lines.lanes
        halted.entry.nexts.now (place_of halted.entry.ats.now)) }
{
    let mut notes = Vec::new(halted.of.alloc);
    push_group(&mut notes, halted, Group::Unpublished)?;
    push_group(&mut notes, halted, Group::Circle)?;
    push_group(&mut notes, halted, Group::Behind)?;
    push_circle(&mut notes, halted.of, halted.nexts)?;
    Ok(notes)
}

/// Gives the notes on the lanes of a plan that are stuck: of each the wait that it stands at, why
/// it is stuck there, and the lane that it waits for; behind all one circle of lanes that wait for
/// each other, if there is one. Where the plan is refused for stuck lanes, these are the lanes of
/// the refusal, by [`crate::notes_are_on_the_stuck`].
pub fn stuck_notes<K: KnownWords>(
    alloc: Global,
    stage: &Stage<'_, K>,
) -> Result<Vec<Note>, AllocError>
    requires { IsWhole K.known stage.now }
    ensures { IfOk result (λ notes. ShowsStuck stage.now.universe.now stage.now.plan.now.lanes
        stage.now.plan.now.lines.lanes (all_facts notes.items)) }
{
    let Settled { standings, .. } = settle(alloc, stage.universe, stage.tables, stage.plan)?;
    let nexts = nexts(alloc, stage.universe, stage.plan, &standings)?;
    let publications = Publications::of_plan(alloc, stage.universe, stage.plan)?;
    let of = Subject {
        alloc,
        universe: stage.universe,
        tables: stage.tables,
        plan: stage.plan,
        outputs: stage.outputs,
        publications: &publications,
    };
    let halted = Halted {
        of,
        ats: &standings,
        nexts: &nexts,
    };
    let notes = halted_notes(halted)?;
    Ok(notes)
}

/// The notes on the stuck lanes of a plan that is refused for them are on the lanes of that refusal,
/// and each of those has one. It does nothing.
pub fn notes_are_on_the_stuck()
    ensures { spec.NotesAreOnTheStuck }
{}
