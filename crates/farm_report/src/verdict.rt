//! The verdict as it is printed.

ghost use Rattle.std.specs.Prelude.{◌≡◌, IfOk, is_err, length};
ghost use Rattle.std.specs.List.{flat_map, range_with_len};
ghost use Rattle.farm_report.specs.VerdictText as spec;
ghost use Rattle.report_sink.specs.Sinks.{IsWritten};

use crate::lines::{
    write_counted, write_fault, write_lane, write_memory, write_row, write_stuck, write_unsafe,
};
use plan_reader::file_name;
use plan_verifier::{Accepted, Refusal, UNEVEN, UNSAFE};
use report_sink::{Sink, WriteFailed, WriteSink, whether_written, write_text};
use std::alloc::{AllocError, Global};

fn write_lanes<S: Sink>(out: &mut S, accepted: &Accepted) -> Result<(), WriteFailed>
    ensures written { IsWritten (S.state out.old) (S.state out.new)
        (flat_map (spec.cost_line accepted.now)
        (range_with_len 0 (length accepted.now.plan))) }
    ensures told { is_err result ≡ (S.state out.new).failed }
{
    let plan = accepted.plan();
    for number in 0..plan.lanes() {
        let lane = plan.lane(number);
        let cost = accepted.lane_cost(number);
        write_lane(out, lane.name(), cost, lane.budget())?;
    }
    whether_written(out)
}

fn write_accepted<S: Sink>(out: &mut S, accepted: &Accepted) -> Result<(), WriteFailed>
    ensures written { IsWritten (S.state out.old) (S.state out.new)
        (spec.accepted_text accepted.now) }
    ensures told { is_err result ≡ (S.state out.new).failed }
{
    let plan = accepted.plan();
    write_text(out, b"accepted\n")?;
    write_counted(out, b"lanes", plan.lanes() as u64)?;
    write_counted(out, b"count", plan.count() as u64)?;
    write_lanes(out, accepted)
}

fn write_refusal<S: Sink>(out: &mut S, refusal: &Refusal) -> Result<(), WriteFailed>
    ensures written { IsWritten (S.state out.old) (S.state out.new)
        (spec.refusal_text refusal.now) }
    ensures told { is_err result ≡ (S.state out.new).failed }
{
    match refusal {
        Refusal::Text(fault) => {
            let file = file_name(fault.file);
            write_fault(out, fault.code, file.as_bytes(), fault.line)
        }
        Refusal::Unsafe {
            lane,
            instruction,
            trap,
        } => write_unsafe(out, UNSAFE, lane, *instruction, trap.text().as_bytes()),
        Refusal::Uneven { lane, instruction } => write_row(out, UNEVEN, lane, *instruction),
        Refusal::Stuck { lanes } => write_stuck(out, lanes),
        Refusal::Memory => write_memory(out),
    }
}

/// Writes the lines of a verdict. It takes no memory, and a sink that had failed before is not
/// written to.
///
/// # Errors
///
/// [`WriteFailed`] where the sink has failed. It has then taken a first part of the lines.
pub fn write_check<S: Sink>(
    out: &mut S,
    verdict: &Result<Accepted, Refusal>,
) -> Result<(), WriteFailed>
    ensures written { IsWritten (S.state out.old) (S.state out.new)
        (spec.verdict_text verdict.now) }
    ensures told { is_err result ≡ (S.state out.new).failed }
{
    match verdict {
        Ok(accepted) => write_accepted(out, accepted),
        Err(refusal) => write_refusal(out, refusal),
    }
}

/// Gives the line of a refusal.
pub fn refusal_text(alloc: Global, refusal: &Refusal) -> Result<Vec<u8>, AllocError>
    ensures { IfOk result (λ text. text.items ≡ spec.refusal_text refusal.now) }
{
    let mut out = WriteSink::new(Vec::new(alloc));
    match write_refusal(&mut out, refusal) {
        Ok(()) => Ok(out.into_inner()),
        Err(WriteFailed) => Err(AllocError),
    }
}
