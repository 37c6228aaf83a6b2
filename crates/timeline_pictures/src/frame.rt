//! Where things stand in the picture. Lengths are in tenths of its units.

use plan_reader::lane_name;
use timeline::TimedPlan;

/// The length of the whole time.
pub(crate) const CHART: u128 = 11_000;

/// Where the first lane begins, from the top.
pub(crate) const TOP: u128 = 640;

/// From one lane to the next.
const PITCH: u128 = 380;

/// The height of a bar, and of that with the stripe of the critical path.
pub(crate) const BAR: u128 = 200;

pub(crate) const BAR_AND_STRIPE: u128 = 250;

/// What is below the lanes.
const BOTTOM: u128 = 480;

/// The width of a letter of a name, about.
pub(crate) const LETTER: u128 = 72;

/// The longest name that has its full width.
pub(crate) const LONGEST_NAME: usize = 60;

/// The space of a picture: how wide the names are, and how wide and high it is. All times are up to
/// `end`.
#[derive(Clone, Copy)]
pub(crate) struct Frame {
    end: u128,
    pub(crate) left: u128,
    pub(crate) width: u128,
    pub(crate) height: u128,
}

/// How many digits a number has.
fn digits(number: u128) -> u128 {
    let mut count = 1u128;
    let mut power = 10u128;
    for _ in 0..38 {
        if number < power {
            return count;
        }
        power = power.saturating_mul(10);
        count = count.saturating_add(1);
    }
    count
}

/// The length of the longest name of a lane.
fn longest_name(run: &TimedPlan<'_>) -> usize {
    let mut longest = 0;
    for number in 0..run.plan.lanes() {
        longest = lane_name(run.plan, number).len().max(longest);
    }
    longest
}

/// How wide so many letters are.
pub(crate) fn letters(count: usize) -> u128 {
    (count as u128).saturating_mul(LETTER)
}

impl Frame {
    /// The space that a timed run takes.
    pub(crate) fn of(run: &TimedPlan<'_>) -> Frame {
        let names = letters(longest_name(run).min(LONGEST_NAME));
        let left = names.saturating_add(300).max(1_500);
        let right = digits(run.end).saturating_mul(LETTER).saturating_add(300);
        let rows = (run.plan.lanes() as u128).saturating_mul(PITCH);
        Frame {
            end: run.end,
            left,
            width: left.saturating_add(CHART).saturating_add(right),
            height: rows.saturating_add(TOP).saturating_add(BOTTOM),
        }
    }

    /// Where a time stands, from the beginning of the chart.
    pub(crate) fn across(&self, time: u128) -> u128 {
        time.saturating_mul(CHART)
            .checked_div(self.end)
            .unwrap_or(0)
    }

    /// How wide a span of time is.
    pub(crate) fn span(&self, begin: u128, end: u128) -> u128 {
        self.across(end).saturating_sub(self.across(begin))
    }

    /// Where a lane begins, from the top.
    pub(crate) fn down(&self, lane: usize) -> u128 {
        (lane as u128).saturating_mul(PITCH).saturating_add(TOP)
    }

    /// Where the lanes end, from the top.
    pub(crate) fn below(&self) -> u128 {
        self.height.saturating_sub(BOTTOM)
    }
}
