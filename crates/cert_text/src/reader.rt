//! A text read as a certificate.

ghost use Rattle.std.specs.Prelude.{◌≡◌, ◌+◌, ◌^◌, ◌<◌, ◌≤◌, All, length, drop, slice_index, IfOk, OnOk};
ghost use Rattle.std.specs.List.{sum_by};
ghost use Rattle.std.specs.Option.{option_map};
ghost use Rattle.cert_text.specs.Certificates.{IsCertificate, count_rows, row_places};
ghost use Rattle.cert_text.specs.CertText.{first_row, rows_in, lanes_in, order_at, rest_in, certificate_in, in_text, certificate_of};
ghost use Rattle.cert_text.specs.Faults.{refusal_of};
ghost use Rattle.cert_text.specs.Items.{EachIsSaid};
ghost use Rattle.cert_text.specs.declared.fault.CertFault.TheVariants.{Text};
ghost use Rattle.deb_stanza.specs.Plain.{plain_lines_at};
ghost use Rattle.deb_stanza.specs.declared.error.TheConstants.{MOST_BYTES};
ghost use Rattle.deb_text.specs.Common.{Gives, refusal_of as fault_of, lines_of, lists, traverse};

use crate::certificate::Certificate;
use crate::fault::CertFault;
use crate::line::{read_known, read_order};
use crate::places::row_places;
use crate::repeats::Repeats;
use crate::spelled::{Spelled, spelled_variants};
use bit_rows::Row;
use deb_stanza::{Lines, plain_lines};
use deb_text::{Fault, is_head, next_line};
use farm_universe::Universe;
use plan_reader::{Lane, Plan};
use std::alloc::Global;

/// The lines of a text that is read over a universe, and the number of the line past the last one.
#[derive(Clone, Copy)]
struct Source<'a, 't> {
    spelled: Spelled<'a>,
    lines: &'a Lines<'t>,
    end: u32,
}

/// The row that the line at this place says.
fn read_first<'t>(
    alloc: Global,
    source: Source<'_, 't>,
    repeats: &mut Repeats<'t>,
    name: &[u8],
    number: u32,
    at: usize,
) -> Result<Row, CertFault>
    requires at { at ≤ length source.lines.now }
    requires kept { EachIsSaid source.spelled.universe.now repeats.old }
    ensures row { Gives refusal_of (λ row. row) result (first_row source.entry.spelled.universe.now
        source.entry.end name.now number (drop at source.entry.lines.now)) }
    ensures there { OnOk result (at < length source.entry.lines.now) }
    ensures kept { OnOk result (EachIsSaid source.entry.spelled.universe.now repeats.new) }
{
    if at == source.lines.count() {
        return Err(CertFault::Text { line: source.end });
    }
    let line = source.lines.line(at);
    match read_known(alloc, source.spelled, repeats, name, number, line)? {
        Some(row) => Ok(row),
        None => Err(CertFault::Text {
            line: source.lines.number(at),
        }),
    }
}

/// The rows of a lane, by the lines from this place on.
fn read_rows(
    alloc: Global,
    source: Source<'_, '_>,
    name: &[u8],
    numbers: &[u32],
    start: usize,
) -> Result<Vec<Row>, CertFault>
    requires start { start ≤ length source.lines.now }
    requires fits { length source.lines.now < 2 ^ 64 }
    ensures rows { Gives refusal_of (λ rows. rows.items) result
        (rows_in source.entry.spelled.universe.now
        source.entry.end name.now numbers.now (drop start source.entry.lines.now)) }
    ensures count { IfOk result (λ rows. length rows.items ≡ length numbers.now) }
    ensures there { OnOk result (start + length numbers.now ≤ length source.entry.lines.now) }
{
    let mut repeats = Repeats::new(alloc);
    let mut rows = Vec::new(alloc);
    for i in 0..numbers.len() {
        let row = read_first(alloc, source, &mut repeats, name, numbers[i], start + i)?;
        rows.push(row)?;
    }
    Ok(rows)
}

fn read_lane(
    alloc: Global,
    source: Source<'_, '_>,
    lane: &Lane,
    start: usize,
) -> Result<Vec<Row>, CertFault>
    requires few { length lane.now.instructions ≤ 65536 }
    requires start { start ≤ length source.lines.now }
    requires fits { length source.lines.now < 2 ^ 64 }
    ensures rows { Gives refusal_of (λ rows. rows.items) result
        (rows_in source.entry.spelled.universe.now
        source.entry.end lane.now.name (row_places lane.now) (drop start source.entry.lines.now)) }
    ensures count { IfOk result (λ rows. length rows.items ≡ count_rows lane.now) }
    ensures there { OnOk result (start + count_rows lane.now ≤ length source.entry.lines.now) }
{
    let numbers = row_places(alloc, lane)?;
    read_rows(alloc, source, lane.name(), &numbers, start)
}

/// The rows of all lanes, by the lines behind the first one, and the place behind those lines.
fn read_lanes(
    alloc: Global,
    source: Source<'_, '_>,
    plan: &Plan,
) -> Result<(Vec<Vec<Row>>, usize), CertFault>
    requires some { 0 < length source.lines.now }
    requires fits { length source.lines.now < 2 ^ 64 }
    ensures rows { Gives refusal_of (λ read. lists read.0.items) result (lanes_in
        source.entry.spelled.universe.now source.entry.end plan.now.lanes
        (drop 1 source.entry.lines.now)) }
    ensures behind { IfOk result (λ read. read.1 ≡ 1 + sum_by count_rows plan.now.lanes) }
{
    let mut rows = Vec::new(alloc);
    let mut at = 1;
    for number in 0..plan.lanes() {
        let lane_rows = read_lane(alloc, source, plan.lane(number), at)?;
        at += lane_rows.len();
        rows.push(lane_rows)?;
    }
    Ok((rows, at))
}

/// The lane of an item of the order.
fn read_item(plan: &Plan, number: u32, line: &[u8]) -> Result<u32, CertFault>
    ensures { Gives refusal_of (λ lane. lane) result (order_at plan.now.lanes (number, line.now)) }
{
    match read_order(plan, line) {
        Some(lane) => Ok(lane),
        None => Err(CertFault::Text { line: number }),
    }
}

/// The order of lanes, by the lines from this place on.
fn read_items(
    alloc: Global,
    plan: &Plan,
    lines: &Lines,
    start: usize,
) -> Result<Vec<u32>, CertFault>
    ensures { Gives refusal_of (λ order. order.items) result
        (traverse (order_at plan.now.lanes) (drop start lines.now)) }
{
    let mut order = Vec::new(alloc);
    for i in start..lines.count() {
        order.push(read_item(plan, lines.number(i), lines.line(i))?)?;
    }
    Ok(order)
}

/// The certificate of the lines behind the first one.
#[tactic(auto, unfolding(crate::specs::CertText::rest_in))]
fn read_rest(alloc: Global, source: Source<'_, '_>, plan: &Plan) -> Result<Certificate, CertFault>
    requires some { 0 < length source.lines.now }
    requires fits { length source.lines.now < 2 ^ 64 }
    ensures { Gives refusal_of (λ certificate. certificate) result (rest_in
        source.entry.spelled.universe.now plan.now.lanes source.entry.end
        (drop 1 source.entry.lines.now)) }
{
    let (rows, behind) = read_lanes(alloc, source, plan)?;
    let order = read_items(alloc, plan, source.lines, behind)?;
    Ok(Certificate::new(rows, order))
}

fn read_certificate(
    alloc: Global,
    source: Source<'_, '_>,
    plan: &Plan,
) -> Result<Certificate, CertFault>
    ensures { Gives refusal_of (λ certificate. certificate) result (certificate_in
        source.entry.spelled.universe.now plan.now.lanes source.entry.end source.entry.lines.now) }
{
    let lines = source.lines;
    if lines.count() == 0 {
        return Err(CertFault::Text { line: source.end });
    }
    if !is_head(b"cert".as_slice(), lines.line(0)) {
        return Err(CertFault::Text {
            line: lines.number(0),
        });
    }
    read_rest(alloc, source, plan)
}

/// The fault of a text at its line.
fn in_text(fault: Fault) -> CertFault
    ensures { refusal_of result ≡ option_map (λ fault. Text fault.line) (fault_of fault) }
{
    if fault == Fault::MEMORY {
        CertFault::Memory
    } else {
        CertFault::Text { line: fault.line }
    }
}

fn read_lines(alloc: Global, text: &[u8]) -> Result<Lines<'_>, CertFault>
    ensures { Gives refusal_of (λ lines. lines) result (in_text (plain_lines_at text.now)) }
{
    match plain_lines(alloc, text) {
        Ok(lines) => Ok(lines),
        Err(fault) => Err(in_text(fault)),
    }
}

/// The number of the line past the last one.
fn end_of(text: &[u8]) -> u32
    requires { length text.now ≤ MOST_BYTES }
    ensures { result ≡ length (lines_of text.now) + 1 }
{
    let mut end = 1;
    let mut rest = text;
    while let Some((_, behind)) = next_line(rest) {
        rest = behind;
        end += 1;
    }
    end
}

#[tactic(auto, unfolding(crate::specs::CertText::certificate_of))]
fn read_text(
    alloc: Global,
    universe: &Universe,
    plan: &Plan,
    text: &[u8],
) -> Result<Certificate, CertFault>
    ensures { Gives refusal_of (λ certificate. certificate) result
        (certificate_of universe.now plan.now.lanes text.now) }
{
    let lines = read_lines(alloc, text)?;
    let variants = spelled_variants(alloc, universe)?;
    let spelled = Spelled {
        universe,
        variants: &variants,
    };
    let source = Source {
        spelled,
        lines: &lines,
        end: end_of(text),
    };
    read_certificate(alloc, source, plan)
}

/// Reads the certificate of a plan over a universe.
///
/// Below a first line `cert 1` stand, for each lane and each of its waits, publishes and `when`s in
/// order, `known LANE NUMBER: NAME (= VERSION), ..` by name number and version, without the initial
/// archive, and then items `order LANE`. NUMBER is the instruction's, its colon stands at once
/// after it, and the list is written as a Provides field is. Blank lines and comments mean nothing.
///
/// # Errors
///
/// [`CertFault::Text`]: line 0 for a text over 67,108,864 bytes; else the first line that is not
/// what stands there, or the line past the last one where lines are missing. [`CertFault::Memory`]
/// where memory ran out. Nothing is left behind.
pub fn read(
    alloc: Global,
    universe: &Universe,
    plan: &Plan,
    text: &[u8],
) -> Result<Certificate, CertFault>
    ensures certificate { Gives refusal_of (λ certificate. certificate) result
        (certificate_of universe.now plan.now.lanes text.now) }
    ensures fits { IfOk result (IsCertificate universe.now plan.now.lanes) }
{
    read_text(alloc, universe, plan, text)
}
