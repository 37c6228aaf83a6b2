//! Schedules as the command line has them.

ghost use Rattle.std.specs.Prelude.{◌≡◌, ◌+◌, ◌≤◌, map, min, true, IfOk};
ghost use Rattle.std.specs.List.{list_all, slice_split};
ghost use Rattle.deb_text.specs.Common.{Gives, is_byte, is_digit, number, traverse};
ghost use Rattle.command_line.specs.Schedule as spec;
ghost use Rattle.command_line.specs.Schedule.{lane_at, schedule_of, refusal_of};

use deb_text::{Class, all_in, next_part};
use std::alloc::{AllocError, AllocFailed, Global};

/// The greatest number of a lane.
const MOST_LANE: u64 = 4_294_967_295;

/// Why a text is not read as a schedule.
#[derive(Clone, Copy, Debug, PartialEq, Eq)]
pub enum ScheduleFault {
    /// It is none: something between its commas is no number of a lane.
    BadSchedule,
    /// Memory ran out.
    Memory,
}

impl From<AllocError> for ScheduleFault {
    ghost use Rattle.command_line.specs.declared.schedule.ScheduleFault.{ScheduleFault};

    ghost from_gives = { λ _ fault. fault ≡ ScheduleFault.Memory };

    fn from(_error: AllocError) -> ScheduleFault {
        ScheduleFault::Memory
    }
}

impl<T: Drop> From<AllocFailed<T>> for ScheduleFault {
    ghost use Rattle.command_line.specs.declared.schedule.ScheduleFault.{ScheduleFault};

    ghost from_gives = { λ _ fault. fault ≡ ScheduleFault.Memory };

    fn from(_error: AllocFailed<T>) -> ScheduleFault {
        ScheduleFault::Memory
    }
}

/// Gives the number that digits spell, or one more than the greatest of a lane where it is over
/// that.
fn capped_number(digits: &[u8]) -> u64
    requires { list_all is_digit digits.now ≡ true }
    ensures { result ≡ min (number digits.now) (MOST_LANE + 1) }
{
    let mut number: u64 = 0;
    for digit in digits {
        number = (number * 10 + u64::from(*digit - b'0')).min(MOST_LANE + 1);
    }
    number
}

/// Reads the number of a lane: one digit or more.
///
/// # Errors
///
/// [`ScheduleFault::BadSchedule`] for any other text, and for a number over 4,294,967,295.
pub fn read_lane(text: &[u8]) -> Result<u32, ScheduleFault>
    ensures { Gives refusal_of (λ lane. lane) result (lane_at text.now) }
{
    if text.is_empty() || !all_in(Class::Digit, text) {
        return Err(ScheduleFault::BadSchedule);
    }
    let number = capped_number(text);
    if number > MOST_LANE {
        return Err(ScheduleFault::BadSchedule);
    }
    Ok(number as u32)
}

/// Reads the numbers of lanes between commas.
fn read_lanes(alloc: Global, text: &[u8]) -> Result<Vec<u32>, ScheduleFault>
    ensures { Gives refusal_of (λ lanes. lanes.items) result
        (traverse lane_at (slice_split (is_byte 44) text.now)) }
{
    let mut lanes = Vec::new(alloc);
    let mut left = Some(text);
    while let Some(items) = left {
        let (item, behind) = next_part(b',', items);
        lanes.push(read_lane(item)?)?;
        left = behind;
    }
    Ok(lanes)
}

fn spaced(byte: u8) -> u8
    ensures { result ≡ spec.spaced byte }
{
    if byte == b',' { b' ' } else { byte }
}

/// Puts spaces in place of the commas of a file of lanes.
pub fn space_lanes(alloc: Global, text: &[u8]) -> Result<Vec<u8>, AllocError>
    ensures { IfOk result (λ lanes. lanes.items ≡ map spec.spaced text.now) }
{
    text.iter().map(|byte| spaced(*byte)).collect(alloc)
}

/// Reads a schedule: numbers of lanes in decimal, at most 4,294,967,295, joined by commas. Zeros
/// may lead a number, and the empty text is the empty schedule.
///
/// # Errors
///
/// [`ScheduleFault::BadSchedule`] for any other text, and [`ScheduleFault::Memory`] where memory is
/// refused.
pub fn read_schedule(alloc: Global, text: &[u8]) -> Result<Vec<u32>, ScheduleFault>
    ensures { Gives refusal_of (λ schedule. schedule.items) result (schedule_of text.now) }
{
    if text.is_empty() {
        return Ok(Vec::new(alloc));
    }
    read_lanes(alloc, text)
}
