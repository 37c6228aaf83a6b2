//! What a schedule comes to, as it is printed.

ghost use Rattle.std.specs.Prelude.{◌≡◌, is_err};
ghost use Rattle.farm_report.specs.StateText as spec;
ghost use Rattle.report_sink.specs.Sinks.{IsWritten};

use crate::lines::write_counted;
use crate::state::write_state;
use crate::state_lines::write_trap;
use farm_core::{Outcome, Stop};
use plan_reader::{Plan, lane_name};
use report_sink::{Sink, WriteFailed};

/// How a schedule of this length ended.
fn write_end<S: Sink>(
    out: &mut S,
    plan: &Plan,
    stop: &Option<Stop>,
    schedule_len: usize,
) -> Result<(), WriteFailed>
    ensures written { IsWritten (S.state out.old) (S.state out.new)
        (spec.end_text plan.now.lanes stop.now schedule_len) }
    ensures told { is_err result ≡ (S.state out.new).failed }
{
    match stop {
        Some(stop) => {
            let lane = lane_name(plan, stop.lane as usize);
            let trap = stop.trap.text().as_bytes();
            write_trap(out, stop.step, lane, stop.instruction, trap)
        }
        None => write_counted(out, b"ran", schedule_len as u64),
    }
}

/// Writes what a schedule of this length came to: `ran N`, N being its length, or its trap, and
/// then the state that it led to. It takes no memory, and a sink that had failed before is not
/// written to.
///
/// # Errors
///
/// [`WriteFailed`] where the sink has failed. It has then taken a first part of the lines.
pub fn write_step<S: Sink>(
    out: &mut S,
    outcome: &Outcome<'_>,
    schedule_len: usize,
) -> Result<(), WriteFailed>
    ensures written { IsWritten (S.state out.old) (S.state out.new)
        (spec.step_text outcome.now.core outcome.now.trap schedule_len) }
    ensures told { is_err result ≡ (S.state out.new).failed }
{
    write_end(out, outcome.core.plan(), &outcome.trap, schedule_len)?;
    write_state(out, &outcome.core)
}
