//! What the library says of an accepted plan.

ghost use Rattle.std.specs.Prelude.{◌≡◌, ◌<◌, ◌≤◌, length};
ghost use Rattle.plan_model.specs.Plan.{lane};

use farm_universe::Universe;
use known_rows::{Known, KnownWords};
use plan_cert::{certificate, check_certificate, print};
use plan_reader::{lane_name, listing};
use plan_verifier::Accepted;
use std::alloc::{AllocError, Global};
use std::thread::Threads;

/// What each lane costs at most, a line each.
fn push_costs(text: &mut String, accepted: &Accepted) -> Result<(), AllocError> {
    for lane in 0..accepted.plan().lanes() {
        writeln!(text, "lane {lane} cost {}", accepted.lane_cost(lane))?;
    }
    Ok(())
}

/// The listing of the plan that it keeps, its count and what its lanes cost at most; the certificate
/// that is made of it, and whether that is accepted.
pub fn library_text(
    rt: &(impl Threads + Sync),
    alloc: Global,
    accepted: &Accepted,
) -> Result<Vec<u8>, AllocError> {
    accepted.keeps();
    let (universe, plan) = (accepted.universe(), accepted.plan());
    let made = certificate(alloc, accepted)?;
    let mut text = listing(alloc, universe, plan)?;
    let mut costs = format!(in alloc; "count {}\n", plan.count())?;
    push_costs(&mut costs, accepted)?;
    text.extend_from_slice(costs.as_bytes())?;
    text.extend_from_slice(&print(alloc, universe, plan, &made)?)?;
    text.extend_from_slice(match check_certificate(rt, alloc, universe, plan, &made) {
        Ok(()) => b"certified\n".as_slice(),
        Err(_) => b"refused\n".as_slice(),
    })?;
    Ok(text)
}

/// The words of what a lane knows at a place, as `  3: 1 3 0`.
fn push_words(
    text: &mut String,
    universe: &Universe,
    known: &Known,
    number: usize,
    place: usize,
) -> Result<(), AllocError>
    requires of_universe { known.now.universe ≡ universe.now }
    requires lane { number < length known.now.plan }
    requires place { place ≤ length (lane known.now.plan number).instructions }
{
    write!(text, "  {place}:")?;
    for name in 0..universe.names() {
        let word = known.word(universe, number, place, name);
        write!(text, " {word}")?;
    }
    text.push_str("\n")
}

/// What a lane knows at each place, from its beginning to its end.
fn push_lane(
    text: &mut String,
    accepted: &Accepted,
    known: &Known,
    number: usize,
) -> Result<(), AllocError>
    requires of_universe { known.now.universe ≡ accepted.now.universe }
    requires of_plan { known.now.plan ≡ accepted.now.plan }
    requires lane { number < length accepted.now.plan }
{
    accepted.keeps();
    let plan = accepted.plan();
    writeln!(text, "lane {}", lane_name(plan, number).escape_ascii())?;
    let last = plan.lane(number).instructions().len();
    for place in 0..=last {
        push_words(text, accepted.universe(), known, number, place)?;
    }
    Ok(())
}

/// What the lanes of an accepted plan know: at each place of each lane a word for each name.
pub fn known_text(alloc: Global, accepted: &Accepted) -> Result<Vec<u8>, AllocError> {
    accepted.keeps();
    let mut text = String::new(alloc);
    for number in 0..accepted.plan().lanes() {
        push_lane(&mut text, accepted, accepted.known(), number)?;
    }
    Ok(text.into_bytes())
}
