//! The verdict on a certificate.

ghost use Rattle.std.specs.Prelude.{◌≡◌, OnOk};
ghost use Rattle.cert_text.specs.Certificates.{IsCertificate};
ghost use Rattle.plan_model.specs.Common.{KeepsRows, IsSafe, IsSound};
ghost use Rattle.plan_cert.specs.PlaceRows.{place_rows_of};
ghost use Rattle.plan_cert.specs.Certified.{IsCertVerdict};
ghost use Rattle.plan_cert.specs.Checked.{AreSafe};
ghost use Rattle.plan_cert.specs.Stated.{stated_rows};
ghost use Rattle.verdict_laws.specs.Agreeing.{Agree};

use crate::claim::Claim;
use crate::justified::check_rows;
use crate::order::check_order;
use crate::stated::stated_known;
use cert_text::{CertFault, Certificate};
use farm_universe::Universe;
use known_rows::Outputs;
use plan_reader::Plan;
use plan_verifier::{Stage, WalkError, walk_lanes};
use sat_rows::Tables;
use std::alloc::Global;
use std::thread::Threads;

/// Checks that each instruction is safe under known rows.
fn check_safety(
    rt: &(impl Threads + Sync),
    alloc: Global,
    claim: Claim<'_>,
) -> Result<(), CertFault>
    requires sound { IsSound claim.universe.now claim.plan.now.lanes }
    requires keeps { KeepsRows claim.universe.now claim.plan.now.lanes
        (place_rows_of claim.known.now) }
    ensures { AreSafe claim.entry.universe.now claim.entry.plan.now.lanes
        (place_rows_of claim.entry.known.now) result }
{
    let outputs = Outputs::of(alloc, claim.universe, claim.plan)?;
    let stage = Stage {
        universe: claim.universe,
        tables: claim.tables,
        plan: claim.plan,
        outputs: &outputs,
        known: claim.known,
    };
    match walk_lanes(rt, alloc, &stage) {
        Ok(_) => Ok(()),
        Err(
            WalkError::Unsafe {
                lane,
                instruction,
                trap,
            },
        ) => Err(CertFault::Unsafe {
            lane,
            instruction,
            trap,
        }),
        Err(WalkError::Uneven { lane, instruction }) => {
            Err(CertFault::Uneven { lane, instruction })
        }
        Err(WalkError::Memory) => Err(CertFault::Memory),
    }
}

/// Checks a certificate that makes this claim: its rows, then each instruction, then its order.
fn check_claim(
    rt: &(impl Threads + Sync),
    alloc: Global,
    claim: Claim<'_>,
    certificate: &Certificate,
) -> Result<(), CertFault>
    requires sound { IsSound claim.universe.now claim.plan.now.lanes }
    requires certificate { IsCertificate claim.universe.now claim.plan.now.lanes certificate.now }
    requires rows { Agree claim.plan.now.lanes (place_rows_of claim.known.now)
        (stated_rows claim.universe.now claim.plan.now.lanes certificate.now) }
    ensures verdict { IsCertVerdict claim.entry.universe.now claim.entry.plan.now.lanes
        certificate.now result }
    ensures safe { OnOk result (IsSafe claim.entry.universe.now claim.entry.plan.now.lanes) }
{
    check_rows(alloc, claim)?;
    check_safety(rt, alloc, claim)?;
    check_order(alloc, claim, certificate.order())?;
    Ok(())
}

/// Checks a certificate of a plan as [`check_certificate`] does, by the rows of its universe.
///
/// # Errors
///
/// Those of [`check_certificate`].
pub fn check_by_tables(
    rt: &(impl Threads + Sync),
    alloc: Global,
    universe: &Universe,
    tables: &Tables,
    plan: &Plan,
    certificate: &Certificate,
) -> Result<(), CertFault>
    requires sound { IsSound universe.now plan.now.lanes }
    requires tables { tables.now ≡ universe.now }
    requires certificate { IsCertificate universe.now plan.now.lanes certificate.now }
    ensures verdict { IsCertVerdict universe.now plan.now.lanes certificate.now result }
    ensures safe { OnOk result (IsSafe universe.now plan.now.lanes) }
{
    let known = stated_known(alloc, universe, plan, certificate)?;
    let claim = Claim {
        universe,
        tables,
        plan,
        known: &known,
    };
    check_claim(rt, alloc, claim, certificate)
}

/// Checks a certificate of a plan over a universe, whoever made it: its rows, joined with the
/// initial archive, are known at each place; under them each instruction is safe; and its list is
/// an order of the waits and outputs.
///
/// Where it does not refuse it, no interleaving of the plan's lanes meets a trap, in every
/// unfinished state some lane can step, and no run is longer than the plan's count of events.
///
/// # Errors
///
/// The first of these. [`CertFault::Row`] with the first row that is not justified, of the first
/// lane that has one. Of the first lane that has an unsafe instruction, [`CertFault::Unsafe`] with
/// the first one and the first trap that it may meet, or [`CertFault::Uneven`] with the `when`
/// whose branches leave some name in different phases, found at their `end`. [`CertFault::Order`]
/// with the first item of the list that cannot step, or one more than their number where lanes are
/// left. [`CertFault::Memory`] where memory ran out.
pub fn check_certificate(
    rt: &(impl Threads + Sync),
    alloc: Global,
    universe: &Universe,
    plan: &Plan,
    certificate: &Certificate,
) -> Result<(), CertFault>
    requires sound { IsSound universe.now plan.now.lanes }
    requires certificate { IsCertificate universe.now plan.now.lanes certificate.now }
    ensures verdict { IsCertVerdict universe.now plan.now.lanes certificate.now result }
    ensures safe { OnOk result (IsSafe universe.now plan.now.lanes) }
{
    let tables = Tables::build(rt, alloc, universe)?;
    check_by_tables(rt, alloc, universe, &tables, plan, certificate)
}
