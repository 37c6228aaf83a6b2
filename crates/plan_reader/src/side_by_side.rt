//! A text read as a plan by several threads.

ghost use Rattle.std.specs.Prelude.{◌≡◌, ◌+◌, ◌*◌, ◌<◌, ◌≤◌, length, drop, fold, IfOk, MatchResult};
ghost use Rattle.deb_text.specs.Common.{Fails, Gives, refusal_of, steps};
ghost use Rattle.farm_model.specs.Sound.{IsUniverse};
ghost use Rattle.plan_reader.specs.Parts.{ArePartsSaid, AreSaidByLines, IsPartSaid};
ghost use Rattle.plan_reader.specs.PlanLines.{lines_in, lines_of, no_lines_read, reading_with};
ghost use Rattle.plan_reader.specs.PlanText.{take_line, reading_of};
ghost use Rattle.plan_reader.specs.PlanText.{plan_in, plan_of};
ghost use Rattle.plan_model.specs.Common.{count, IsPlan};

use crate::again::{Earlier, read_next};
use crate::names::Names;
use crate::placing::{Traced, nothing_read, place_line};
use crate::plan::Plan;
use crate::reader::{check_head, finish, read_lines, read_plan, read_rest};
use crate::recipe_numbers::recipe_numbers;
use crate::said::LineRead;
use deb_stanza::Lines;
use deb_text::Fault;
use farm_universe::Universe;
use rayon::prelude::*;
use std::alloc::{AllocError, Global};
use std::marker::Model;
use std::thread::Threads;

/// A plan of fewer lines is read by one thread: to wake others would take longer.
const FEWEST_LINES: usize = 2048;

/// A plan of more lines is read by one thread, which keeps nothing of a line but what it says of
/// the plan: what several threads read ahead takes more memory than the line itself.
const MOST_LINES: usize = 262_144;

/// How many parts the lines are cut into, which are read side by side.
const PARTS: usize = 8;

/// What the lines of a part say, line by line.
#[derive(Drop)]
struct Part<'t> {
    lines: Vec<LineRead<'t>>,
}

impl<'t> Model for Part<'t> {
    ghost use Rattle.std.specs.Prelude.{List, Result};
    ghost use Rattle.plan_reader.specs.declared.error.LineError as error;
    ghost use Rattle.plan_reader.specs.declared.said.Said as said;

    ghost Value = { List (Result said.Said error.LineError) };

    ghost view = { λ part. part.lines.items };
}

/// Reads so many lines from a place on, each by itself.
fn read_part<'t>(
    alloc: Global,
    names: Names<'_>,
    lines: &Lines<'t>,
    first: usize,
    count: usize,
) -> Result<Part<'t>, AllocError>
    requires { first + count ≤ length lines.now }
    ensures { IsPartSaid names.entry.universe.now count (drop first lines.now) result }
{
    let _lines = lines.count();
    let mut read = Vec::with_capacity(alloc, count)?;
    let mut earlier = Earlier::new(alloc)?;
    for _i in first..first + count {
        read.push(read_next(alloc, names, lines, first, &read, &mut earlier))?;
    }
    Ok(Part { lines: read })
}

/// Reads the lines behind the first one in parts of so many, by as many threads as there are
/// processors. What does not fill a part is left.
fn read_parts<'t>(
    rt: &(impl Threads + Sync),
    alloc: Global,
    names: Names<'_>,
    lines: &Lines<'t>,
    count: usize,
) -> Result<Vec<Result<Part<'t>, AllocError>>, AllocError>
    requires { 1 + PARTS * count ≤ length lines.now }
    ensures { IfOk result
        (λ parts. ArePartsSaid names.entry.universe.now count (drop 1 lines.now) parts.items) }
{
    (0..PARTS)
        .into_par_iter()
        .with_min_len(1)
        .map(
            move |number: usize| -> Result<Part<'_>, AllocError>
                requires room { 1 + PARTS * count ≤ length lines.now }
                requires there { number < PARTS }
                ensures { IsPartSaid names.entry.universe.now count
                    (drop (1 + number * count) lines.entry.now) result }
            {
                let _lines = lines.count();
                read_part(alloc, names, lines, 1 + number * count, count)
            },
        )
        .collect::<Vec<Result<Part<'_>, AllocError>>>(rt, alloc)
}

/// Goes on by the lines of a part, which stand from a place on, and gives the place behind them.
fn place_part(
    alloc: Global,
    universe: &Universe,
    lines: &Lines,
    first: usize,
    so_far: &mut Traced,
    part: Part<'_>,
) -> Result<usize, Fault>
    requires { AreSaidByLines universe.now (drop first lines.now) part }
    ensures reading { MatchResult result
        (λ next. (next ≡ first + length part.entry)
        × (steps (take_line universe.entry.now) so_far.old.reading (drop first lines.now)
        ≡ steps (take_line universe.entry.now) so_far.new.reading (drop next lines.now)))
        (λ fault. Fails refusal_of fault
        (steps (take_line universe.entry.now) so_far.old.reading (drop first lines.now))) }
    ensures lines { IfOk result
        (λ next. fold reading_with so_far.old.lines (drop first lines.now)
        ≡ fold reading_with so_far.new.lines (drop next lines.now)) }
{
    let _lines = lines.count();
    let mut at = first;
    for read in part.lines {
        place_line(alloc, universe, lines.number(at), so_far, read)?;
        at += 1;
    }
    Ok(at)
}

/// What the lines behind the first one come to, of which these parts are read.
#[tactic(auto, unfolding(crate::specs::PlanText::reading_of))]
fn place_parts(
    alloc: Global,
    names: Names<'_>,
    lines: &Lines,
    count: usize,
    parts: Vec<Result<Part<'_>, AllocError>>,
) -> Result<Traced, Fault>
    requires { ArePartsSaid names.universe.now count (drop 1 lines.now) parts.items }
    ensures reading { Gives refusal_of (λ so_far. so_far.reading) result
        (reading_of names.entry.universe.now (drop 1 lines.now)) }
    ensures lines { IfOk result
        (λ so_far. so_far.lines ≡ fold reading_with no_lines_read (drop 1 lines.now)) }
{
    let mut so_far = nothing_read(alloc);
    let mut next = 1;
    for part in parts {
        next = place_part(alloc, names.universe, lines, next, &mut so_far, part?)?;
    }
    read_rest(alloc, names, lines, next, so_far)
}

/// What the lines behind the first one come to.
fn read_sections(
    rt: &(impl Threads + Sync),
    alloc: Global,
    names: Names<'_>,
    lines: &Lines,
) -> Result<Traced, Fault>
    requires { 0 < length lines.now }
    ensures reading { Gives refusal_of (λ so_far. so_far.reading) result
        (reading_of names.entry.universe.now (drop 1 lines.now)) }
    ensures lines { IfOk result
        (λ so_far. so_far.lines ≡ fold reading_with no_lines_read (drop 1 lines.now)) }
{
    let count = (lines.count() - 1) / PARTS;
    let parts = read_parts(rt, alloc, names, lines, count)?;
    place_parts(alloc, names, lines, count, parts)
}

fn read_long_plan(
    rt: &(impl Threads + Sync),
    alloc: Global,
    universe: &Universe,
    lines: &Lines,
) -> Result<Plan, Fault>
    ensures lanes { Gives refusal_of (λ plan. plan.lanes) result (plan_in universe.now lines.now) }
    ensures counted { IfOk result (λ plan. plan.count ≡ count universe.now plan.lanes) }
    ensures lines { IfOk result (λ plan. plan.lines ≡ lines_in lines.now) }
{
    check_head(lines)?;
    let recipes = recipe_numbers(alloc, universe)?;
    let names = Names {
        universe,
        recipes: &recipes,
    };
    let so_far = read_sections(rt, alloc, names, lines)?;
    finish(universe, lines, so_far)
}

#[tactic(auto, unfolding(crate::specs::PlanText::plan_of))]
fn read_text(
    rt: &(impl Threads + Sync),
    alloc: Global,
    universe: &Universe,
    text: &[u8],
) -> Result<Plan, Fault>
    ensures lanes { Gives refusal_of (λ plan. plan.lanes) result (plan_of universe.now text.now) }
    ensures counted { IfOk result (λ plan. plan.count ≡ count universe.now plan.lanes) }
    ensures lines { IfOk result (λ plan. plan.lines ≡ lines_of text.now) }
{
    let lines = read_lines(alloc, text)?;
    if lines.count() < FEWEST_LINES || lines.count() > MOST_LINES {
        return read_plan(alloc, universe, &lines);
    }
    read_long_plan(rt, alloc, universe, &lines)
}

/// Reads a plan as [`assemble`](crate::assemble) does, a long one by as many threads as there are
/// processors.
///
/// # Errors
///
/// Those of [`assemble`](crate::assemble).
pub fn assemble_side_by_side(
    rt: &(impl Threads + Sync),
    alloc: Global,
    universe: &Universe,
    text: &[u8],
) -> Result<Plan, Fault>
    ensures plan { Gives refusal_of (λ plan. plan.lanes) result (plan_of universe.now text.now) }
    ensures counted { IfOk result (λ plan. plan.count ≡ count universe.now plan.lanes) }
    ensures sound { IfOk result (λ plan. IsUniverse universe.now → IsPlan universe.now plan.lanes) }
    ensures lines { IfOk result (λ plan. plan.lines ≡ lines_of text.now) }
{
    read_text(rt, alloc, universe, text)
}
