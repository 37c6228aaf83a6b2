//! What the checker of a certificate answers, as it is printed.

ghost use Rattle.std.specs.Prelude.{◌≡◌, is_err};
ghost use Rattle.farm_report.specs.CertText as spec;
ghost use Rattle.report_sink.specs.Sinks.{IsWritten};

use crate::lines::{write_memory, write_refused_at, write_row, write_unsafe};
use cert_text::{BAD_ORDER, BAD_TEXT, CertFault, NOT_JUSTIFIED, UNEVEN, UNSAFE};
use plan_reader::{Plan, lane_name};
use report_sink::{Sink, WriteFailed, write_text};

fn write_fault<S: Sink>(out: &mut S, plan: &Plan, fault: CertFault) -> Result<(), WriteFailed>
    ensures written { IsWritten (S.state out.old) (S.state out.new)
        (spec.fault_text plan.now.lanes fault) }
    ensures told { is_err result ≡ (S.state out.new).failed }
{
    match fault {
        CertFault::Text { line } => write_refused_at(out, BAD_TEXT, b"line", line as u64),
        CertFault::Row { lane, instruction } => {
            write_row(
                out,
                NOT_JUSTIFIED,
                lane_name(plan, lane as usize),
                instruction,
            )
        }
        CertFault::Unsafe {
            lane,
            instruction,
            trap,
        } => {
            let name = lane_name(plan, lane as usize);
            write_unsafe(out, UNSAFE, name, instruction, trap.text().as_bytes())
        }
        CertFault::Uneven { lane, instruction } => {
            write_row(out, UNEVEN, lane_name(plan, lane as usize), instruction)
        }
        CertFault::Order { item } => write_refused_at(out, BAD_ORDER, b"item", item),
        CertFault::Memory => write_memory(out),
    }
}

/// Writes what the checker of a certificate of a plan answers: `certified`, or its fault. It takes
/// no memory, and a sink that had failed before is not written to.
///
/// # Errors
///
/// [`WriteFailed`] where the sink has failed. It has then taken a first part of the line.
pub fn write_cert_verdict<S: Sink>(
    out: &mut S,
    plan: &Plan,
    verdict: &Result<(), CertFault>,
) -> Result<(), WriteFailed>
    ensures written { IsWritten (S.state out.old) (S.state out.new)
        (spec.cert_text plan.now.lanes verdict.now) }
    ensures told { is_err result ≡ (S.state out.new).failed }
{
    match verdict {
        Ok(()) => write_text(out, b"certified\n"),
        Err(fault) => write_fault(out, plan, *fault),
    }
}
