//! The lines of an answer, each written to a sink. A sink that had failed before is not written
//! to.

ghost use Rattle.std.specs.Prelude.{◌≡◌, is_err};
ghost use Rattle.deb_text.specs.Common.{lists, spaced};
ghost use Rattle.farm_report.specs.AnswerLines.{counted_line, lane_cost_line, fault_line, unsafe_line, row_line, refused_at_line, memory_line, stuck_line};
ghost use Rattle.report_sink.specs.Sinks.{IsWritten};

use itoa::Buffer;
use plan_verifier::STUCK;
use report_sink::{Sink, WriteFailed, whether_written, write_pieces, write_text};

/// A line of a word and a number, as `lanes 2`.
///
/// # Errors
///
/// [`WriteFailed`] where the sink has failed. It has then taken a first part of the line.
pub fn write_counted<S: Sink>(out: &mut S, word: &[u8], number: u64) -> Result<(), WriteFailed>
    ensures written { IsWritten (S.state out.old) (S.state out.new) (counted_line word.now number) }
    ensures told { is_err result ≡ (S.state out.new).failed }
{
    let mut digits = Buffer::new();
    let number = digits.format(number);
    write_pieces(out, &[word, b" ", number.as_bytes(), b"\n"])
}

/// The line of a lane in an acceptance, as `lane a cost 4 budget 4`.
///
/// # Errors
///
/// [`WriteFailed`] where the sink has failed. It has then taken a first part of the line.
pub fn write_lane<S: Sink>(
    out: &mut S,
    name: &[u8],
    cost: u64,
    budget: u64,
) -> Result<(), WriteFailed>
    ensures written { IsWritten (S.state out.old) (S.state out.new)
        (lane_cost_line name.now cost budget) }
    ensures told { is_err result ≡ (S.state out.new).failed }
{
    let (mut cost_digits, mut budget_digits) = (Buffer::new(), Buffer::new());
    let cost = cost_digits.format(cost);
    let budget = budget_digits.format(budget);
    write_pieces(
        out,
        &[
            b"lane ",
            name,
            b" cost ",
            cost.as_bytes(),
            b" budget ",
            budget.as_bytes(),
            b"\n",
        ],
    )
}

/// The line of a text's fault, as `refused 303 plan line 2`.
///
/// # Errors
///
/// [`WriteFailed`] where the sink has failed. It has then taken a first part of the line.
pub fn write_fault<S: Sink>(
    out: &mut S,
    code: u16,
    file: &[u8],
    line: u32,
) -> Result<(), WriteFailed>
    ensures written { IsWritten (S.state out.old) (S.state out.new)
        (fault_line code file.now line) }
    ensures told { is_err result ≡ (S.state out.new).failed }
{
    let (mut code_digits, mut line_digits) = (Buffer::new(), Buffer::new());
    let code = code_digits.format(code);
    let line = line_digits.format(line);
    write_pieces(
        out,
        &[
            b"refused ",
            code.as_bytes(),
            b" ",
            file,
            b" line ",
            line.as_bytes(),
            b"\n",
        ],
    )
}

/// The line of want of memory.
///
/// # Errors
///
/// [`WriteFailed`] where the sink has failed. It has then taken a first part of the line.
pub fn write_memory<S: Sink>(out: &mut S) -> Result<(), WriteFailed>
    ensures written { IsWritten (S.state out.old) (S.state out.new) memory_line }
    ensures told { is_err result ≡ (S.state out.new).failed }
{
    write_text(out, b"refused 900\n")
}

/// The line of a refusal at a number, as `refused 454 item 2`.
///
/// # Errors
///
/// [`WriteFailed`] where the sink has failed. It has then taken a first part of the line.
pub fn write_refused_at<S: Sink>(
    out: &mut S,
    code: u16,
    word: &[u8],
    number: u64,
) -> Result<(), WriteFailed>
    ensures written { IsWritten (S.state out.old) (S.state out.new)
        (refused_at_line code word.now number) }
    ensures told { is_err result ≡ (S.state out.new).failed }
{
    let (mut code_digits, mut digits) = (Buffer::new(), Buffer::new());
    let refused = code_digits.format(code);
    let number = digits.format(number);
    write_pieces(
        out,
        &[
            b"refused ",
            refused.as_bytes(),
            b" ",
            word,
            b" ",
            number.as_bytes(),
            b"\n",
        ],
    )
}

/// The line of a row, as `refused 452 lane a instruction 3`.
///
/// # Errors
///
/// [`WriteFailed`] where the sink has failed. It has then taken a first part of the line.
pub fn write_row<S: Sink>(
    out: &mut S,
    code: u16,
    lane: &[u8],
    instruction: u32,
) -> Result<(), WriteFailed>
    ensures written { IsWritten (S.state out.old) (S.state out.new)
        (row_line code lane.now instruction) }
    ensures told { is_err result ≡ (S.state out.new).failed }
{
    let (mut code_digits, mut place_digits) = (Buffer::new(), Buffer::new());
    let refused = code_digits.format(code);
    let instruction = place_digits.format(instruction);
    write_pieces(
        out,
        &[
            b"refused ",
            refused.as_bytes(),
            b" lane ",
            lane,
            b" instruction ",
            instruction.as_bytes(),
            b"\n",
        ],
    )
}

/// The line of an unsafe instruction, as `refused 401 lane a instruction 3 X7 Depends`.
///
/// # Errors
///
/// [`WriteFailed`] where the sink has failed. It has then taken a first part of the line.
pub fn write_unsafe<S: Sink>(
    out: &mut S,
    code: u16,
    lane: &[u8],
    instruction: u32,
    trap: &[u8],
) -> Result<(), WriteFailed>
    ensures written { IsWritten (S.state out.old) (S.state out.new)
        (unsafe_line code lane.now instruction trap.now) }
    ensures told { is_err result ≡ (S.state out.new).failed }
{
    let (mut code_digits, mut place_digits) = (Buffer::new(), Buffer::new());
    let refused = code_digits.format(code);
    let instruction = place_digits.format(instruction);
    write_pieces(
        out,
        &[
            b"refused ",
            refused.as_bytes(),
            b" lane ",
            lane,
            b" instruction ",
            instruction.as_bytes(),
            b" ",
            trap,
            b"\n",
        ],
    )
}

/// Names, each behind a space.
fn write_names<S: Sink>(out: &mut S, names: &[Vec<u8>]) -> Result<(), WriteFailed>
    ensures written { IsWritten (S.state out.old) (S.state out.new) (spaced (lists names.now)) }
    ensures told { is_err result ≡ (S.state out.new).failed }
{
    for name in names {
        write_pieces(out, &[b" ", name.as_slice()])?;
    }
    whether_written(out)
}

/// The line of stuck lanes, as `refused 402 lanes a b`.
///
/// # Errors
///
/// [`WriteFailed`] where the sink has failed. It has then taken a first part of the line.
pub fn write_stuck<S: Sink>(out: &mut S, lanes: &[Vec<u8>]) -> Result<(), WriteFailed>
    ensures written { IsWritten (S.state out.old) (S.state out.new) (stuck_line (lists lanes.now)) }
    ensures told { is_err result ≡ (S.state out.new).failed }
{
    let mut code_digits = Buffer::new();
    let code = code_digits.format(STUCK);
    write_pieces(out, &[b"refused ", code.as_bytes(), b" lanes"])?;
    write_names(out, lanes)?;
    write_text(out, b"\n")
}
