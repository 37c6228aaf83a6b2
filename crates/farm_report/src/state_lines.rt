//! The lines of a state and of a trap, each written to a sink. A sink that had failed before is not
//! written to.

ghost use Rattle.std.specs.Prelude.{◌≡◌, is_err};
ghost use Rattle.farm_report.specs.AnswerLines.{trap_line, published_line, at_line, variant_line};
ghost use Rattle.report_sink.specs.Sinks.{IsWritten};

use itoa::Buffer;
use report_sink::{Sink, WriteFailed, write_pieces};

/// The line of a trap, as `trap 7 lane a instruction 3 X7 Depends`.
///
/// # Errors
///
/// [`WriteFailed`] where the sink has failed. It has then taken a first part of the line.
pub fn write_trap<S: Sink>(
    out: &mut S,
    step: usize,
    lane: &[u8],
    instruction: usize,
    trap: &[u8],
) -> Result<(), WriteFailed>
    ensures written { IsWritten (S.state out.old) (S.state out.new)
        (trap_line step lane.now instruction trap.now) }
    ensures told { is_err result ≡ (S.state out.new).failed }
{
    let (mut step_digits, mut place_digits) = (Buffer::new(), Buffer::new());
    let step = step_digits.format(step);
    let instruction = place_digits.format(instruction);
    write_pieces(
        out,
        &[
            b"trap ",
            step.as_bytes(),
            b" lane ",
            lane,
            b" instruction ",
            instruction.as_bytes(),
            b" ",
            trap,
            b"\n",
        ],
    )
}

/// The line of a publication, as `published 0 a gcc 14-1`.
///
/// # Errors
///
/// [`WriteFailed`] where the sink has failed. It has then taken a first part of the line.
pub fn write_published<'a, S: Sink>(
    out: &mut S,
    serial: u64,
    lane: &'a [u8],
    name: &'a [u8],
    version: &'a [u8],
) -> Result<(), WriteFailed>
    ensures written { IsWritten (S.state out.old) (S.state out.new)
        (published_line serial lane.now name.now version.now) }
    ensures told { is_err result ≡ (S.state out.new).failed }
{
    let mut digits = Buffer::new();
    let serial = digits.format(serial);
    write_pieces(
        out,
        &[
            b"published ",
            serial.as_bytes(),
            b" ",
            lane,
            b" ",
            name,
            b" ",
            version,
            b"\n",
        ],
    )
}

/// The line of a lane in a state, as `lane a at 3 spent 4 used 2048`.
///
/// # Errors
///
/// [`WriteFailed`] where the sink has failed. It has then taken a first part of the line.
pub fn write_at<S: Sink>(
    out: &mut S,
    name: &[u8],
    done: u64,
    spent: u64,
    used: u64,
) -> Result<(), WriteFailed>
    ensures written { IsWritten (S.state out.old) (S.state out.new)
        (at_line name.now done spent used) }
    ensures told { is_err result ≡ (S.state out.new).failed }
{
    let (mut done_digits, mut spent_digits) = (Buffer::new(), Buffer::new());
    let mut used_digits = Buffer::new();
    let done = done_digits.format(done);
    let spent = spent_digits.format(spent);
    let used = used_digits.format(used);
    write_pieces(
        out,
        &[
            b"lane ",
            name,
            b" at ",
            done.as_bytes(),
            b" spent ",
            spent.as_bytes(),
            b" used ",
            used.as_bytes(),
            b"\n",
        ],
    )
}

/// The line of a present variant, as `  gcc 14-1 configured`.
///
/// # Errors
///
/// [`WriteFailed`] where the sink has failed. It has then taken a first part of the line.
pub fn write_variant<S: Sink>(
    out: &mut S,
    name: &[u8],
    version: &[u8],
    phase: &[u8],
) -> Result<(), WriteFailed>
    ensures written { IsWritten (S.state out.old) (S.state out.new)
        (variant_line name.now version.now phase.now) }
    ensures told { is_err result ≡ (S.state out.new).failed }
{
    write_pieces(out, &[b"  ", name, b" ", version, b" ", phase, b"\n"])
}
