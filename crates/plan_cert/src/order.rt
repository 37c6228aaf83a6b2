//! Whether a list of lanes is an order of their waits and outputs.

ghost use Rattle.std.specs.Prelude.{◌≡◌, ◌+◌, ◌<◌, ◌≤◌, ℕ, length, slice_index, All, IfOk, IsNone, IfSome};
ghost use Rattle.farm_model.specs.Common.{names, IsUniverse};
ghost use Rattle.plan_cert.specs.Broken.{IsOrderChecked};
ghost use Rattle.plan_cert.specs.Events.{order_item_of, IsEvent, AreLaneEvents, lane_items, IsMade, IsStep};

use crate::claim::Claim;
use crate::events::{Event, LaneEvents, all_events};
use crate::justified::waited;
use bit_rows::Row;
use cert_text::CertFault;
use known_rows::initial_row;
use std::alloc::{AllocError, Global};

/// The plan of a claim, with the events of each of its lanes.
#[derive(Clone, Copy)]
struct PlanEvents<'a> {
    claim: Claim<'a>,
    lanes: &'a [LaneEvents],
    ghost sound: { IsUniverse claim.universe.now },
}

/// Makes an event, unless it is a wait that does not pass, and tells whether it is made.
fn make(
    alloc: Global,
    claim: Claim<'_>,
    number: usize,
    event: Event,
    archive: &mut Row,
) -> Result<bool, AllocError>
    requires sound { IsUniverse claim.universe.now }
    requires lane { number < length claim.plan.now.lanes }
    requires event { IsEvent claim.universe.now claim.plan.now.lanes number event }
    requires archive { length archive.old ≡ names claim.universe.now }
    ensures { IfOk result (IsMade claim.entry.universe.now number
        (order_item_of claim.entry.plan.now.lanes number event) archive.old archive.new) }
{
    match event {
        Event::Pass(place) => {
            let Some(entry) = waited(&claim.plan.lane(number).instructions()[place]) else {
                return Ok(false);
            };
            let row = claim.tables.entry_row(alloc, claim.universe, entry)?;
            Ok(archive.hits(&row))
        }
        Event::Give(output) => {
            archive.set_bit(output.name as usize, output.bit)?;
            Ok(true)
        }
    }
}

/// Makes the next event of a lane, if there is one that can be made, and tells whether it did.
fn step(
    alloc: Global,
    of: PlanEvents<'_>,
    number: usize,
    made: &mut [usize],
    archive: &mut Row,
) -> Result<bool, AllocError>
    requires lane { number < length of.claim.plan.now.lanes }
    requires events { AreLaneEvents of.claim.universe.now of.claim.plan.now.lanes
        (length of.claim.plan.now.lanes) of.lanes.now }
    requires made { length made.old ≡ length of.claim.plan.now.lanes }
    requires archive { length archive.old ≡ names of.claim.universe.now }
    ensures { IfOk result (IsStep of.entry.claim.universe.now of.entry.claim.plan.now.lanes number
        made.old made.new archive.old archive.new) }
{
    let events = of.lanes[number].events.as_slice();
    let next = made[number];
    if next >= events.len() {
        return Ok(false);
    }
    if !make(alloc, of.claim, number, events[next], archive)? {
        return Ok(false);
    }
    made[number] = next + 1;
    Ok(true)
}

/// The first lane that has an event left.
fn first_left(of: PlanEvents<'_>, made: &[usize]) -> Option<usize>
    requires events { AreLaneEvents of.claim.universe.now of.claim.plan.now.lanes
        (length of.claim.plan.now.lanes) of.lanes.now }
    requires made { length made.now ≡ length of.claim.plan.now.lanes }
    ensures some { IfSome result (λ l. l < length of.entry.claim.plan.now.lanes) }
    ensures left { IfSome result (λ l. slice_index made.now l < length
        (lane_items of.entry.claim.universe.now of.entry.claim.plan.now.lanes l)) }
    ensures none { IsNone result → (l : ℕ) → l < length of.entry.claim.plan.now.lanes → length
        (lane_items of.entry.claim.universe.now of.entry.claim.plan.now.lanes l)
        ≤ slice_index made.now l }
{
    for number in 0..of.lanes.len() {
        if made[number] < of.lanes[number].events.len() {
            return Some(number);
        }
    }
    None
}

/// Checks that a list of lanes is an order of their waits and outputs.
///
/// # Errors
///
/// [`CertFault::Order`] with the first item that cannot be made, or with one more than their number
/// where all can and a lane has something left. [`CertFault::Memory`] where memory is refused.
pub fn check_order(alloc: Global, claim: Claim<'_>, order: &[u32]) -> Result<(), CertFault>
    requires sound { IsUniverse claim.universe.now }
    requires lanes { All (λ l. l < length claim.plan.now.lanes) order.now }
    ensures { IsOrderChecked claim.entry.universe.now claim.entry.plan.now.lanes order.now result }
{
    let lanes = all_events(alloc, claim.universe, claim.plan)?;
    let mut made = vec![in alloc; 0usize; claim.plan.lanes()]?;
    let mut archive = initial_row(alloc, claim.universe)?;
    let of = PlanEvents {
        claim,
        lanes: &lanes,
    };
    for item in 0..order.len() {
        let number = order[item] as usize;
        if !step(alloc, of, number, &mut made, &mut archive)? {
            return Err(CertFault::Order {
                item: item as u64 + 1,
            });
        }
    }
    if let Some(_lane) = first_left(of, &made) {
        return Err(CertFault::Order {
            item: order.len() as u64 + 1,
        });
    }
    Ok(())
}
