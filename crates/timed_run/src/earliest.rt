//! Which lane has the next event.

ghost use Rattle.std.specs.Prelude.{◌≡◌, ◌<◌, ◌+◌, ◌^◌, ℕ, true, Some, None, length, slice_get, nat_lt};
ghost use Rattle.timed_run.specs.Clocks.{moment_of, FoundTo};
ghost use Rattle.timed_run.specs.declared.clock.Clock.{Clock};
ghost use Rattle.timed_run.specs.Moments.{number_of, IsNextTo};
ghost use Rattle.timed_run.specs.declared.earliest.Next.{Next};

use crate::Clock;
use crate::farm::Farm;

/// When an event counts: its time, and whether it begins or ends there. What ends comes first.
#[derive(Clone, Copy)]
pub struct Moment {
    time: u128,
    begins: bool,
}

/// Tells whether a moment is before another.
fn is_before(a: Moment, b: Moment) -> bool
    ensures { result ≡ nat_lt (number_of a) (number_of b) }
{
    a.time < b.time || (a.time == b.time && !a.begins && b.begins)
}

/// The moment of a lane's next event: an output counts when it ends, anything else when it begins.
fn next_moment<F: Farm>(farm: &F, lane: usize, time: u128) -> Moment
    requires there { lane < length (F.plan farm.now) }
    requires fits { time + 1 < 2 ^ 128 }
    ensures { number_of result ≡ moment_of (F.plan farm.now) (F.state farm.now) lane time }
{
    if farm.gives(lane) {
        Moment {
            time: time + 1,
            begins: false,
        }
    } else {
        Moment { time, begins: true }
    }
}

/// A lane with the moment of its next event.
#[derive(Clone, Copy)]
struct Next {
    lane: usize,
    moment: Moment,
}

/// Tells whether a moment is before that of another lane, if there is another.
fn is_earlier(moment: Moment, other: Option<Next>) -> bool
    ensures none { other ≡ None → result ≡ true }
    ensures some { (next : Next) → other ≡ Some next
        → result ≡ nat_lt (number_of moment) (number_of next.moment) }
{
    match other {
        None => true,
        Some(other) => is_before(moment, other.moment),
    }
}

/// Tells whether there is a lane whose moment is before any that a lane may have which is free at
/// this time, so that it need not be asked for its instruction.
fn ends_sooner(found: Option<Next>, free: u128) -> bool
    ensures { result ≡ true
        → (next : Next) × (found ≡ Some next) × (next.moment.time < free) }
{
    match found {
        None => false,
        Some(next) => next.moment.time < free,
    }
}

/// The lane that has the next event among those before this one and this one.
fn nearer<F: Farm>(farm: &F, clocks: &[Clock], lane: usize, found: Option<Next>) -> Option<Next>
    requires long { length clocks.now ≡ length (F.plan farm.now) }
    requires there { lane < length clocks.now }
    requires fit { (l : ℕ) (c : Clock) → slice_get clocks.now l ≡ Some c → c.next + 1 < 2 ^ 128 }
    requires found { IsNextTo (F.plan farm.now) (F.state farm.now) clocks.now lane found }
    ensures { IsNextTo (F.plan farm.now) (F.state farm.now) clocks.now (lane + 1) result }
{
    let clock = clocks[lane];
    if !clock.awake {
        return found;
    }
    if ends_sooner(found, clock.next) {
        return found;
    }
    let moment = next_moment(farm, lane, clock.next);
    if is_earlier(moment, found) {
        return Some(Next { lane, moment });
    }
    found
}

/// The lane that is awake and has the next event, the first in file order where several have it at
/// one moment.
pub fn earliest<F: Farm>(farm: &F, clocks: &[Clock]) -> Option<usize>
    requires long { length clocks.now ≡ length (F.plan farm.now) }
    requires fit { (l : ℕ) (c : Clock) → slice_get clocks.now l ≡ Some c → c.next + 1 < 2 ^ 128 }
    ensures { FoundTo (F.plan farm.now) (F.state farm.now) clocks.now (length clocks.now) result }
{
    let mut found: Option<Next> = None;
    for lane in 0..clocks.len() {
        found = nearer(farm, clocks, lane, found);
    }
    match found {
        Some(next) => Some(next.lane),
        None => None,
    }
}
