//! The lines of a text by their numbers, the first words of a line, and what is said of a line of a
//! plan: the one that it repeats, or the word of it that is not known.

ghost use Rattle.std.specs.Prelude.{◌≡◌, drop, option_map, false, None, Some, IfOk, IfSome};
ghost use Rattle.deb_text.specs.Words.{words};
ghost use Rattle.deb_profile.specs.Restriction.{is_among};
ghost use Rattle.farm_model.specs.Sound.{IsKnown};
ghost use Rattle.explain_faults.specs.PlanLines.{line_at};
ghost use Rattle.explain_faults.specs.PlanLines as spec;

use crate::found::{FaultFacts, FaultNote};
use crate::near::{NearNames, is_near_or_longer};
use crate::spelling::Piece::{Number, Value, Words};
use crate::spelling::{Pushed, say};
use deb_stanza::{OwnLine, numbered_lines};
use deb_text::{Class, Fault, next_line, next_word, split_front};
use farm_model::Variant;
use farm_universe::Universe;
use plan_reader::{NAME_TAKEN, NO_PLAN, PUBLISHED_TWICE};
use std::alloc::{AllocError, Global};

/// Gives the line of a text that has this number, without its newline. Lines count from 1: there
/// is none of number 0, and none behind the last.
pub fn line_at(text: &[u8], number: u32) -> Option<&[u8]>
    ensures { option_map (λ line. line.now) result ≡ spec.line_at text.now number }
{
    if number == 0 {
        return None;
    }
    let mut rest = text;
    for _ in 1..number {
        let (_, behind) = next_line(rest)?;
        rest = behind;
    }
    let (line, _) = next_line(rest)?;
    Some(line)
}

/// The first word of a text and what stands behind it; no byte where there is none.
pub fn first_word(text: &[u8]) -> (&[u8], &[u8])
    ensures word { result.0.now ≡ spec.first_of (words text.now) }
    ensures behind { words result.1.now ≡ drop 1 (words text.now) }
{
    next_word(text).unwrap_or((b"", text))
}

/// The first six words of a text; no byte for each that is not there.
pub fn first_words(text: &[u8]) -> [&[u8]; 6] {
    let mut words: [&[u8]; 6] = [b"", b"", b"", b"", b"", b""];
    let mut rest = text;
    for place in 0..6 {
        let (word, behind) = first_word(rest);
        words[place] = word;
        rest = behind;
    }
    words
}

/// The first two words of a line; no byte for one that is not there.
fn beginning(line: &[u8]) -> (&[u8], &[u8])
    ensures { (result.0.now, result.1.now) ≡ spec.beginning line.now }
{
    let (head, rest) = first_word(line);
    let (name, _) = first_word(rest);
    (head, name)
}

/// The number of the first line in lanes, or in blocks, that begins so, above the one of this number.
fn first_in(in_lanes: bool, begun: (&[u8], &[u8]), number: u32, lines: &[OwnLine]) -> Option<u32>
    ensures { result
        ≡ spec.first_in in_lanes (begun.entry.0.now, begun.entry.1.now) number false lines.now }
{
    let (mut is_in_lane, mut left) = (false, lines);
    while let [line, rest @ ..] = left {
        if number as usize <= line.number {
            return None;
        }
        let (first, second) = beginning(line.bytes);
        is_in_lane = first == b"lane".as_slice() || (is_in_lane && first != b"block".as_slice());
        let is_there = is_in_lane && in_lanes || !(is_in_lane || in_lanes);
        if is_there && first == begun.0 && second == begun.1 {
            return Some(line.number as u32);
        }
        left = rest;
    }
    None
}

/// The number of the line above that the plan's line of this number repeats.
#[tactic(auto, unfolding(crate::specs::PlanLines::repeated))]
fn repeated(alloc: Global, plan: &[u8], number: u32) -> Result<Option<u32>, AllocError>
    ensures { IfOk result (λ above. above ≡ spec.repeated plan.now number) }
{
    let Some(line) = line_at(plan, number) else {
        return Ok(None);
    };
    let lines = numbered_lines(alloc, plan)?;
    let begun = beginning(line);
    let in_lane = first_in(true, begun, number, &lines);
    if in_lane.is_some() || begun.0 == b"use".as_slice() {
        return Ok(in_lane);
    }
    Ok(first_in(false, begun, number, &lines))
}

/// Gives the note on a plan without lines, at [`NO_PLAN`], or on the line that the refused one
/// repeats, at [`NAME_TAKEN`] and [`PUBLISHED_TWICE`]; none at other refusals.
pub fn plan_note(alloc: Global, fault: &Fault, plan: &[u8]) -> Result<FaultNote, AllocError>
    ensures { IfOk result (λ note. note.facts.plan_line ≡ spec.line_told plan.now fault.now) }
{
    if fault.code == NO_PLAN && fault.line == 0 {
        let line: &[u8] = if plan.is_empty() {
            b"  the plan is empty\n"
        } else {
            b"  the plan has blank lines and comments alone\n"
        };
        let text = Vec::from_slice(alloc, line)?;
        return Ok(FaultNote::of(FaultFacts::none(), text));
    }
    if fault.code != NAME_TAKEN && fault.code != PUBLISHED_TWICE {
        return Ok(FaultNote::none(alloc));
    }
    let plan_line = repeated(alloc, plan, fault.line)?;
    let Some(above) = plan_line else {
        return Ok(FaultNote::none(alloc));
    };
    let mut text = Vec::new(alloc);
    let line = line_at(plan, above).unwrap_or(b"");
    let pieces = [Number(u64::from(above)), Value(line)];
    say(&mut text, b"  plan line %0: %1\n", &pieces)?;
    let facts = FaultFacts {
        plan_line,
        ..FaultFacts::none()
    };
    Ok(FaultNote::of(facts, text))
}

/// The most base chroots that are told where none is near.
const MOST_BASES_TOLD: u32 = 3;

/// What a word of a plan names.
#[derive(Clone, Copy)]
pub enum Kind {
    Package,
    Recipe,
    Chroot,
}

impl Kind {
    fn text(self) -> &'static [u8] {
        match self {
            Kind::Package => b"package",
            Kind::Recipe => b"recipe",
            Kind::Chroot => b"base chroot",
        }
    }
}

/// A word that is not known, and its place where it stands among several packages, the first being
/// 1.
#[derive(Clone, Copy)]
struct Unknown<'a> {
    kind: Kind,
    word: &'a [u8],
    place: Option<usize>,
}

/// Tells whether there is a package, a recipe or a base chroot of this name.
#[tactic(auto, unfolding(farm_model::specs::Packages::recipe, farm_model::specs::Packages::base))]
fn is_known(universe: &Universe, kind: Kind, word: &[u8]) -> bool
    ensures { result ≡ is_among (spec.names_of universe.now kind) word.now }
{
    match kind {
        Kind::Package => return universe.find(word).is_some(),
        Kind::Recipe => {
            for recipe in 0..universe.recipes() {
                if word == universe.recipe_name(recipe) {
                    return true;
                }
            }
        }
        Kind::Chroot => {
            for base in 0..universe.bases() {
                if word == universe.base(base).name() {
                    return true;
                }
            }
        }
    }
    false
}

/// The first word of a text that is not known.
fn first_unknown<'a>(universe: &Universe, kind: Kind, text: &'a [u8]) -> Option<Unknown<'a>>
    ensures { option_map (λ it. it.word.now) result
        ≡ spec.first_unknown universe.now kind (words text.now) }
{
    let mut rest = text;
    let mut place: usize = 0;
    while let Some((word, behind)) = next_word(rest) {
        place = place.saturating_add(1);
        if !is_known(universe, kind, word) {
            let is_alone = place == 1 && next_word(behind).is_none();
            let place = if is_alone { None } else { Some(place) };
            return Some(Unknown { kind, word, place });
        }
        rest = behind;
    }
    None
}

/// The first word of a line that is not known, among those that the line names.
fn unknown_in<'a>(universe: &Universe, line: &'a [u8]) -> Option<Unknown<'a>>
    ensures { option_map (λ it. it.word.now) result ≡ spec.unknown_in universe.now line.now }
{
    let (head, text) = first_word(line);
    if head == b"unpack".as_slice() || head == b"when".as_slice() {
        let (name, _) = split_front(Class::Name, first_word(text).0);
        first_unknown(universe, Kind::Package, name)
    } else if head == b"lane".as_slice() {
        let (_, behind) = first_word(text);
        first_unknown(universe, Kind::Chroot, first_word(behind).1)
    } else if head == b"build".as_slice() || head == b"publish".as_slice() {
        first_unknown(universe, Kind::Recipe, text)
    } else {
        first_unknown(universe, Kind::Package, text)
    }
}

/// The first variant that provides a package that is not known.
fn provider_of(universe: &Universe, unknown: Unknown<'_>) -> Option<Variant>
    ensures { IfSome result (IsKnown universe.now) }
{
    if !matches!(unknown.kind, Kind::Package) {
        return None;
    }
    for name in 0..universe.names() {
        for bit in 0..universe.variants(name) {
            let variant = Variant { name, bit };
            let mut provided = universe.relations(variant).provides.entries().iter();
            if provided.any(|entry| {
                entry
                    .alternatives()
                    .iter()
                    .any(|item| item.name() == unknown.word)
            }) {
                return Some(variant);
            }
        }
    }
    None
}

/// The name of a number; `None` behind the last.
fn name_of(universe: &Universe, kind: Kind, number: u32) -> Option<&[u8]> {
    match kind {
        Kind::Package if number < universe.names() => Some(universe.name_text(number)),
        Kind::Recipe if number < universe.recipes() => Some(universe.recipe_name(number)),
        Kind::Chroot if number < universe.bases() => Some(universe.base(number).name()),
        _ => None,
    }
}

/// The names that are near a word.
fn names_near<'a>(
    alloc: Global,
    universe: &'a Universe,
    kind: Kind,
    word: &[u8],
) -> Result<NearNames<'a>, AllocError> {
    let mut near = NearNames::new(alloc);
    for number in 0..u32::MAX {
        let Some(name) = name_of(universe, kind, number) else {
            return Ok(near);
        };
        if is_near_or_longer(word, name) {
            near.keep(name)?;
        }
    }
    Ok(near)
}

/// Puts which word is not known, and what may be meant, behind a text.
fn push_unknown(
    alloc: Global,
    text: &mut Vec<u8>,
    universe: &Universe,
    unknown: Unknown<'_>,
) -> Pushed {
    let Unknown { kind, word, place } = unknown;
    let pieces = [Words(kind.text()), Value(word)];
    say(text, b"  no %0 is called `%1`", &pieces)?;
    if let (Kind::Package, Some(place)) = (kind, place) {
        say(text, b" (package %0 of the line)", &[Number(place as u64)])?;
    }
    let near = names_near(alloc, universe, kind, word)?;
    near.push(text, b"")?;
    if near.is_empty() && matches!(kind, Kind::Chroot) {
        if universe.bases() == 0 {
            say(text, b"; the farm has none", &[])?;
        }
        let mut words: &[u8] = b"; the farm has %0";
        for base in 0..universe.bases().min(MOST_BASES_TOLD) {
            say(text, words, &[Words(universe.base(base).name())])?;
            words = b", %0";
        }
    }
    say(text, b"\n", &[])
}

/// Gives the note on the first word that is no name of this universe, among those that the plan's
/// line of this number names; none where each is known.
pub fn word_note(
    alloc: Global,
    universe: &Universe,
    plan: &[u8],
    line: u32,
) -> Result<FaultNote, AllocError>
    ensures { IfOk result (λ note. option_map (λ word. word.items) note.facts.word
        ≡ spec.word_told universe.now (line_at plan.now line)) }
{
    let Some(line) = line_at(plan, line) else {
        return Ok(FaultNote::none(alloc));
    };
    let Some(unknown) = unknown_in(universe, line) else {
        return Ok(FaultNote::none(alloc));
    };
    let mut text = Vec::new(alloc);
    match provider_of(universe, unknown) {
        Some(variant) => {
            let name = plan_reader::name_of(universe, variant.name);
            let version = universe.version(variant).text();
            let pieces = [Words(unknown.word), Words(name), Words(version)];
            let words = b"  %0 is virtual: %1 (= %2) provides it\n";
            say(&mut text, words, &pieces)?;
        }
        None => push_unknown(alloc, &mut text, universe, unknown)?,
    }
    let facts = FaultFacts {
        word: Some(Vec::from_slice(alloc, unknown.word)?),
        ..FaultFacts::none()
    };
    Ok(FaultNote::of(facts, text))
}
