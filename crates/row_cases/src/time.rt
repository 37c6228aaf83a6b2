//! How long the rows of a farm take to build.

use deb_text::{next_line, read_number};
use farm_universe::Universe;
use sat_rows::Tables;
use std::io;
use std::rt::Clock;
use std::thread::Threads;
use std::time::Instant;

/// How often the rows are to be built, where the first line asks for their time.
pub fn times_asked(cases: &[u8]) -> Option<u64> {
    let (line, _) = next_line(cases)?;
    read_number(line.strip_prefix(b"time\t")?)
}

fn nanoseconds_since(rt: &impl Clock, start: Instant) -> io::Result<u128> {
    Ok(start.elapsed(rt)?.as_nanos())
}

/// The nanoseconds that it takes to build the rows once.
fn time_of(
    rt: &(impl Threads + Sync + AllocGlobal + Clock),
    universe: &Universe,
) -> io::Result<u128> {
    let start = Instant::now(rt)?;
    let _tables = Tables::build(rt, rt.alloc(), universe)?;
    nanoseconds_since(rt, start)
}

/// Builds the rows so often, and gives the nanoseconds of the shortest time.
///
/// # Errors
///
/// Where memory is refused or the clock cannot be read.
pub fn least_time(
    rt: &(impl Threads + Sync + AllocGlobal + Clock),
    universe: &Universe,
    times: u64,
) -> io::Result<u128> {
    let mut least = u128::MAX;
    for _ in 0..times {
        least = least.min(time_of(rt, universe)?);
    }
    Ok(least)
}
