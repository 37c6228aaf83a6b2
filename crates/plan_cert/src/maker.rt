//! The certificate of an accepted plan.

ghost use Rattle.std.specs.Prelude.{◌≡◌, ◌+◌, ◌<◌, ◌≤◌, length, IfOk, OnOk};
ghost use Rattle.cert_text.specs.Certificates.{IsNewRow, IsCertificate};
ghost use Rattle.deb_text.specs.Lists.{lists};
ghost use Rattle.farm_model.specs.Common.{initial, IsUniverse};
ghost use Rattle.plan_model.specs.Common.{KeepsRows, lane};
ghost use Rattle.plan_verifier.specs.Accepted.{known_rows};
ghost use Rattle.sat_rows.specs.Rows.{IsRowOf};
ghost use Rattle.known_rows.specs.KnownRows.{rows_of};
ghost use Rattle.plan_cert.specs.Certified.{Certifies};
ghost use Rattle.plan_cert.specs.Made.{IsNewAt, IsCertificateOf, AreNewRows, AreNewLanes};

use bit_rows::Row;
use cert_text::Certificate;
use farm_universe::Universe;
use known_rows::{Known, initial_row};
use plan_reader::Plan;
use plan_verifier::Accepted;
use std::alloc::{AllocError, Global};

/// What the lanes of a plan know, and the initial archive.
#[derive(Clone, Copy)]
struct Making<'a> {
    universe: &'a Universe,
    plan: &'a Plan,
    known: &'a Known,
    archive: &'a Row,
    ghost of_universe: { known.now.universe ≡ universe.now },
    ghost of_plan: { known.now.plan ≡ plan.now.lanes },
    ghost sound: { IsUniverse known.now.universe },
    ghost archive_is: { IsRowOf known.now.universe (initial known.now.universe) archive.now },
}

/// What a lane knows at a place, without the initial archive.
fn new_row(
    alloc: Global,
    making: Making<'_>,
    number: usize,
    place: usize,
) -> Result<Row, AllocError>
    requires keeps { KeepsRows making.known.now.universe making.known.now.plan
        (rows_of making.known.now) }
    requires lane { number < length making.known.now.plan }
    requires place { place ≤ length (lane making.known.now.plan number).instructions }
    ensures shape { IfOk result (IsNewRow making.entry.known.now.universe) }
    ensures exact { IfOk result (IsNewAt making.entry.known.now.universe
        (rows_of making.entry.known.now) number place) }
{
    let mut row = making
        .known
        .row(alloc, making.universe, making.archive, number, place)?;
    row.take_out(making.archive);
    Ok(row)
}

/// Puts the row behind the instruction at a place behind the others, where there is one.
fn add_row(
    alloc: Global,
    making: Making<'_>,
    number: usize,
    place: usize,
    rows: &mut Vec<Row>,
) -> Result<(), AllocError>
    requires keeps { KeepsRows making.known.now.universe making.known.now.plan
        (rows_of making.known.now) }
    requires lane { number < length making.known.now.plan }
    requires place { place < length (lane making.known.now.plan number).instructions }
    requires rows { AreNewRows making.known.now.universe making.known.now.plan
        (rows_of making.known.now) number place rows.old.items }
    ensures { OnOk result (AreNewRows making.entry.known.now.universe making.entry.known.now.plan
        (rows_of making.entry.known.now) number (place + 1) rows.new.items) }
{
    let instructions = making.plan.lane(number).instructions();
    if !instructions[place].teaches() {
        return Ok(());
    }
    rows.push(new_row(alloc, making, number, place + 1)?)?;
    Ok(())
}

/// The rows of a lane, one behind each wait, publish and `when`.
fn lane_rows(alloc: Global, making: Making<'_>, number: usize) -> Result<Vec<Row>, AllocError>
    requires keeps { KeepsRows making.known.now.universe making.known.now.plan
        (rows_of making.known.now) }
    requires lane { number < length making.known.now.plan }
    ensures { IfOk result (λ rows. AreNewRows making.entry.known.now.universe
        making.entry.known.now.plan (rows_of making.entry.known.now) number
        (length (lane making.entry.known.now.plan number).instructions) rows.items) }
{
    let mut rows = Vec::new(alloc);
    for place in 0..making.plan.lane(number).instructions().len() {
        add_row(alloc, making, number, place, &mut rows)?;
    }
    Ok(rows)
}

/// The rows of each lane.
fn all_rows(alloc: Global, making: Making<'_>) -> Result<Vec<Vec<Row>>, AllocError>
    requires { KeepsRows making.known.now.universe making.known.now.plan
        (rows_of making.known.now) }
    ensures { IfOk result (λ lanes. AreNewLanes making.entry.known.now.universe
        making.entry.known.now.plan (rows_of making.entry.known.now)
        (length making.entry.known.now.plan) (lists lanes.items)) }
{
    let mut lanes = Vec::new(alloc);
    for number in 0..making.plan.lanes() {
        lanes.push(lane_rows(alloc, making, number)?)?;
    }
    Ok(lanes)
}

/// Makes the certificate of an accepted plan: by lane a row behind each wait, publish and `when`,
/// which is all that the lane knows there of the archive without the initial archive; and the order
/// in which the plan was accepted.
///
/// [`check_certificate`](crate::check_certificate) does not refuse it.
pub fn certificate(alloc: Global, accepted: &Accepted) -> Result<Certificate, AllocError>
    ensures shape { IfOk result (IsCertificate accepted.now.universe accepted.now.plan) }
    ensures exact { IfOk result (IsCertificateOf accepted.now.universe accepted.now.plan
        (known_rows accepted.now) accepted.now.order) }
    ensures certifies { IfOk result (Certifies accepted.now.universe accepted.now.plan) }
{
    accepted.keeps();
    let universe = accepted.universe();
    let archive = initial_row(alloc, universe)?;
    let making = Making {
        universe,
        plan: accepted.plan(),
        known: accepted.known(),
        archive: &archive,
    };
    let rows = all_rows(alloc, making)?;
    let order = Vec::from_slice(alloc, accepted.order())?;
    Ok(Certificate::new(rows, order))
}
