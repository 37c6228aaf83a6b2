//! Which lane stopped a run, and why.

ghost use Rattle.std.specs.Prelude.{◌≡◌, ◌<◌, ◌^◌, IfSome, IsNone, length};
ghost use Rattle.farm_executor.specs.Ends.{HasNoEndWith, IsCause, IsFirstWith};
ghost use Rattle.farm_executor.specs.declared.causes.TheConstants.{NOT_STARTED};
ghost use Rattle.lane_runner.specs.declared.run.TheConstants.{GAVE_UP};

use lane_runner::{GAVE_UP, LaneStop};

/// The lane's thread could not be started.
pub const NOT_STARTED: u16 = 503;

/// The number of the first lane that ended with a code.
fn first_with(ends: &[LaneStop], code: u16) -> Option<u32>
    requires few { length ends.now < 2 ^ 32 }
    ensures first { IfSome result (IsFirstWith code ends.now) }
    ensures none { IsNone result → HasNoEndWith code ends.now }
{
    for lane in 0..ends.len() {
        if ends[lane].code == code {
            return Some(lane as u32);
        }
    }
    None
}

/// Why a run stopped, as the ends of its lanes tell, in file order: the code and the first lane of
/// that code. A lane that was not started goes before one that gave up; an end of any other code is
/// no cause. It takes no memory.
pub fn cause(ends: &[LaneStop]) -> Option<(u16, u32)>
    requires few { length ends.now < 2 ^ 32 }
    ensures cause { IfSome result (λ c. IsCause ends.now c.0 c.1) }
    ensures none { IsNone result → HasNoEndWith NOT_STARTED ends.now
        × HasNoEndWith GAVE_UP ends.now }
{
    if let Some(lane) = first_with(ends, NOT_STARTED) {
        return Some((NOT_STARTED, lane));
    }
    let lane = first_with(ends, GAVE_UP)?;
    Some((GAVE_UP, lane))
}
