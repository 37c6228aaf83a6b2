//! A text read as a plan.

ghost use Rattle.std.specs.Prelude.{◌≡◌, ◌<◌, length, drop, fold, IfOk, OnOk};
ghost use Rattle.std.specs.Option.{option_map};
ghost use Rattle.deb_stanza.specs.Plain.{plain_lines_at};
ghost use Rattle.deb_text.specs.Common.{Gives, fault_at, refusal_of, steps};
ghost use Rattle.farm_model.specs.Sound.{IsUniverse};
ghost use Rattle.farm_universe.specs.Told.{in_file};
ghost use Rattle.plan_reader.specs.Drafts.{all_lanes};
ghost use Rattle.plan_reader.specs.Ends.{IsWithinLimits};
ghost use Rattle.plan_reader.specs.Parts.{behind_head};
ghost use Rattle.plan_reader.specs.PlanLines.{lines_in, lines_of, no_lines_read, reading_with};
ghost use Rattle.plan_reader.specs.PlanText.{end_of, take_line, reading_of};
ghost use Rattle.plan_reader.specs.PlanText.{plan_in, plan_of};
ghost use Rattle.plan_model.specs.Common.{count, IsPlan};

use crate::error::{FILE, NO_PLAN};
use crate::names::Names;
use crate::origin::PlanLines;
use crate::placing::{Reading, Traced, nothing_read, place_line};
use crate::plan::Plan;
use crate::recipe_numbers::recipe_numbers;
use crate::said::read_line;
use deb_stanza::{Lines, plain_lines};
use deb_text::{Fault, is_head};
use farm_universe::Universe;
use std::alloc::Global;

fn take_line(
    alloc: Global,
    names: Names<'_>,
    so_far: &mut Traced,
    number: u32,
    line: &[u8],
) -> Result<(), Fault>
    ensures reading { Gives refusal_of (λ _. so_far.new.reading) result
        (take_line names.entry.universe.now so_far.old.reading (number, line.now)) }
    ensures lines { OnOk result
        (so_far.new.lines ≡ reading_with so_far.old.lines (number, line.now)) }
{
    let read = read_line(alloc, names, line);
    place_line(alloc, names.universe, number, so_far, read)
}

/// What the lines from a place on come to, behind those before them.
///
/// # Errors
///
/// The first fault of a line; or that memory ran out.
pub fn read_rest(
    alloc: Global,
    names: Names<'_>,
    lines: &Lines,
    first: usize,
    mut so_far: Traced,
) -> Result<Traced, Fault>
    ensures reading { Gives refusal_of (λ next. next.reading) result
        (steps (take_line names.entry.universe.now) so_far.reading (drop first lines.now)) }
    ensures lines { IfOk result
        (λ next. next.lines ≡ fold reading_with so_far.lines (drop first lines.now)) }
{
    for i in first..lines.count() {
        take_line(alloc, names, &mut so_far, lines.number(i), lines.line(i))?;
    }
    Ok(so_far)
}

/// What the lines behind the first one come to.
#[tactic(auto, unfolding(crate::specs::PlanText::reading_of))]
fn read_sections(alloc: Global, names: Names<'_>, lines: &Lines) -> Result<Traced, Fault>
    ensures reading { Gives refusal_of (λ so_far. so_far.reading) result
        (reading_of names.entry.universe.now (drop 1 lines.now)) }
    ensures lines { IfOk result
        (λ so_far. so_far.lines ≡ fold reading_with no_lines_read (drop 1 lines.now)) }
{
    read_rest(alloc, names, lines, 1, nothing_read(alloc))
}

fn in_plan(fault: Fault) -> Fault
    ensures { refusal_of result
        ≡ option_map (λ fault. fault_at FILE fault.line fault.code) (refusal_of fault) }
{
    fault.in_file(FILE)
}

/// Cuts the text of a plan into its lines.
///
/// # Errors
///
/// The first fault of [`plain_lines`], in the file of the plan; 900 where memory is refused.
pub fn read_lines(alloc: Global, text: &[u8]) -> Result<Lines, Fault>
    ensures { Gives refusal_of (λ lines. lines) result (in_file FILE (plain_lines_at text.now)) }
{
    plain_lines(alloc, text).map_err(in_plan)
}

const fn no_plan(line: u32) -> Fault
    ensures { result ≡ fault_at FILE line NO_PLAN }
{
    Fault {
        file: FILE,
        line,
        code: NO_PLAN,
    }
}

/// Checks the first line.
///
/// # Errors
///
/// [`NO_PLAN`].
pub fn check_head(lines: &Lines) -> Result<(), Fault>
    ensures head { Gives refusal_of (λ _. drop 1 lines.now) result (behind_head lines.now) }
    ensures there { OnOk result (0 < length lines.now) }
{
    if lines.count() == 0 {
        return Err(no_plan(0));
    }
    if !is_head(b"plan".as_slice(), lines.line(0)) {
        return Err(no_plan(lines.number(0)));
    }
    Ok(())
}

/// The plan that lines come to, where nothing is left open.
///
/// # Errors
///
/// [`UNCLOSED`](crate::UNCLOSED).
pub fn finish(universe: &Universe, lines: &Lines, so_far: Traced) -> Result<Plan, Fault>
    requires there { 0 < length lines.now }
    requires limits { IsWithinLimits
        (all_lanes so_far.reading.draft.lanes so_far.reading.draft.current) }
    ensures lanes { Gives refusal_of (λ plan. plan.lanes) result (end_of so_far.reading) }
    ensures counted { IfOk result (λ plan. plan.count ≡ count universe.now plan.lanes) }
    ensures lines { so_far.lines ≡ fold reading_with no_lines_read (drop 1 lines.now)
        → IfOk result (λ plan. plan.lines ≡ lines_in lines.now) }
{
    let Traced {
        reading: Reading { draft, side },
        lines: traced,
    } = so_far;
    let lines = PlanLines {
        first: lines.number(0),
        lanes: traced.lanes(),
    };
    draft.finish(universe, side, lines)
}

/// Reads the lines of a plan, one after the other.
///
/// # Errors
///
/// Those of [`assemble`], apart from a text that is too long.
pub fn read_plan(alloc: Global, universe: &Universe, lines: &Lines) -> Result<Plan, Fault>
    ensures lanes { Gives refusal_of (λ plan. plan.lanes) result (plan_in universe.now lines.now) }
    ensures counted { IfOk result (λ plan. plan.count ≡ count universe.now plan.lanes) }
    ensures lines { IfOk result (λ plan. plan.lines ≡ lines_in lines.now) }
{
    check_head(lines)?;
    let recipes = recipe_numbers(alloc, universe)?;
    let names = Names {
        universe,
        recipes: &recipes,
    };
    let so_far = read_sections(alloc, names, lines)?;
    finish(universe, lines, so_far)
}

#[tactic(auto, unfolding(crate::specs::PlanText::plan_of))]
fn read_text(alloc: Global, universe: &Universe, text: &[u8]) -> Result<Plan, Fault>
    ensures lanes { Gives refusal_of (λ plan. plan.lanes) result (plan_of universe.now text.now) }
    ensures counted { IfOk result (λ plan. plan.count ≡ count universe.now plan.lanes) }
    ensures lines { IfOk result (λ plan. plan.lines ≡ lines_of text.now) }
{
    let lines = read_lines(alloc, text)?;
    read_plan(alloc, universe, &lines)
}

/// Reads a plan, whose names are those of a universe.
///
/// Below a first line `plan 1` stand lanes, each from `lane NAME chroot CHROOT budget NUMBER` to
/// `end`, and blocks, each from `block NAME` to `end`. In them stand `unpack NAME`,
/// `unpack NAME (OP VERSION)`, `configure`, `deconfigure` and `remove` with one name or more,
/// `build RECIPE`, `publish RECIPE`, `wait ENTRY`, and `use BLOCK` for what a block above comes to.
/// Two branches stand between `when NAME` or `when NAME (OP VERSION)`, `else` and `end`; in them
/// stands no `publish`, `wait`, `use` or `when`.
/// An entry is reduced to the farm's architecture, and its names need not be known. Blank lines and
/// comments mean nothing.
///
/// # Errors
///
/// All of file [`FILE`]: 105 at line 0 for a text over 67,108,864 bytes. Then the first line with a
/// fault: [`NO_PLAN`] for the first line, at line 0 where there is none; else, of one line in this
/// order, [`BAD_LINE`](crate::BAD_LINE), [`UNKNOWN_NAME`](crate::UNKNOWN_NAME),
/// [`NAME_TWICE`](crate::NAME_TWICE), [`UNKNOWN_BLOCK`](crate::UNKNOWN_BLOCK),
/// [`NAME_TAKEN`](crate::NAME_TAKEN), [`PUBLISHED_TWICE`](crate::PUBLISHED_TWICE), told where a
/// lane comes to publish a recipe again, and [`OVER_LIMIT`](crate::OVER_LIMIT), told for more than
/// 64 lanes, and for more than 65,536 instructions of all lanes or of a block. Last
/// [`UNCLOSED`](crate::UNCLOSED), at the line of a `when`, a lane or a block without `end`, the
/// innermost one. 900 of file 0 and line 0 where memory ran out. Nothing is left behind.
pub fn assemble(alloc: Global, universe: &Universe, text: &[u8]) -> Result<Plan, Fault>
    ensures plan { Gives refusal_of (λ plan. plan.lanes) result (plan_of universe.now text.now) }
    ensures counted { IfOk result (λ plan. plan.count ≡ count universe.now plan.lanes) }
    ensures sound { IfOk result (λ plan. IsUniverse universe.now → IsPlan universe.now plan.lanes) }
    ensures lines { IfOk result (λ plan. plan.lines ≡ lines_of text.now) }
{
    read_text(alloc, universe, text)
}
