//! A run of all lanes that came to its end, as it is printed.

ghost use Rattle.std.specs.Prelude.{◌≡◌, ◌<◌, ℕ, Some, is_err, length, slice_get};
ghost use Rattle.std.specs.List.{flat_map, range_with_len};
ghost use Rattle.farm_model.specs.Chroot.{used};
ghost use Rattle.farm_report.specs.RunText.{lane_end_text, run_text};
ghost use Rattle.report_sink.specs.Sinks.{IsWritten};

use crate::state::{write_lane_lines, write_publications};
use chroot_state::Chroot;
use farm_core::Publication;
use farm_universe::Universe;
use plan_reader::Plan;
use report_sink::{Sink, WriteFailed, whether_written, write_text};

/// A lane that has done all its instructions.
fn write_lane_end<S: Sink>(
    out: &mut S,
    universe: &Universe,
    plan: &Plan,
    chroots: &[Chroot],
    spent: &[u64],
    number: usize,
) -> Result<(), WriteFailed>
    requires number { number < length plan.now.lanes }
    requires chroots { length chroots.now ≡ length plan.now.lanes }
    requires spent { length spent.now ≡ length plan.now.lanes }
    requires used { (l : ℕ) (c : _) → slice_get chroots.now l ≡ Some c
        → c.used ≡ used universe.now c.slots }
    ensures written { IsWritten (S.state out.old) (S.state out.new)
        (lane_end_text universe.now plan.now.lanes chroots.now spent.now number) }
    ensures told { is_err result ≡ (S.state out.new).failed }
{
    let lane = plan.lane(number);
    let done = lane.instructions().len() as u64;
    write_lane_lines(
        out,
        universe,
        lane.name(),
        done,
        spent[number],
        &chroots[number],
    )
}

/// The lanes at their ends, in file order.
fn write_lane_ends<S: Sink>(
    out: &mut S,
    universe: &Universe,
    plan: &Plan,
    chroots: &[Chroot],
    spent: &[u64],
) -> Result<(), WriteFailed>
    requires chroots { length chroots.now ≡ length plan.now.lanes }
    requires spent { length spent.now ≡ length plan.now.lanes }
    requires used { (l : ℕ) (c : _) → slice_get chroots.now l ≡ Some c
        → c.used ≡ used universe.now c.slots }
    ensures written { IsWritten (S.state out.old) (S.state out.new)
        (flat_map (lane_end_text universe.now plan.now.lanes chroots.now spent.now)
        (range_with_len 0 (length plan.now.lanes))) }
    ensures told { is_err result ≡ (S.state out.new).failed }
{
    for number in 0..plan.lanes() {
        write_lane_end(out, universe, plan, chroots, spent, number)?;
    }
    whether_written(out)
}

/// Writes a run of all lanes that came to its end: `finished`, what was published, by serial, and
/// each lane in file order, with what it has spent, in steps, and what its chroot holds. It takes
/// no memory, and a sink that had failed before is not written to.
///
/// # Errors
///
/// [`WriteFailed`] where the sink has failed. It has then taken a first part of the lines.
pub fn write_run<S: Sink>(
    out: &mut S,
    universe: &Universe,
    plan: &Plan,
    chroots: &[Chroot],
    spent: &[u64],
    history: &[Publication],
) -> Result<(), WriteFailed>
    requires chroots { length chroots.now ≡ length plan.now.lanes }
    requires spent { length spent.now ≡ length plan.now.lanes }
    requires used { (l : ℕ) (c : _) → slice_get chroots.now l ≡ Some c
        → c.used ≡ used universe.now c.slots }
    ensures written { IsWritten (S.state out.old) (S.state out.new)
        (run_text universe.now plan.now.lanes chroots.now spent.now history.now) }
    ensures told { is_err result ≡ (S.state out.new).failed }
{
    write_text(out, b"finished\n")?;
    write_publications(out, universe, plan, history)?;
    write_lane_ends(out, universe, plan, chroots, spent)
}
