//! The state of a farm, as it is printed.

ghost use Rattle.std.specs.Prelude.{◌≡◌, ◌<◌, is_err, length};
ghost use Rattle.std.specs.List.{flat_map, range_with_len};
ghost use Rattle.farm_model.specs.Common.{slot, used, names};
ghost use Rattle.farm_report.specs.StateText as spec;
ghost use Rattle.plan_model.specs.Common.{lane, lane_state};
ghost use Rattle.report_sink.specs.Sinks.{IsWritten};

use crate::state_lines::{write_at, write_published, write_variant};
use chroot_state::{Chroot, Phase};
use farm_core::{Core, Publication};
use farm_universe::Universe;
use plan_reader::{Plan, lane_name, name_of, version_of};
use report_sink::{Sink, WriteFailed, whether_written};

fn write_publication<S: Sink>(
    out: &mut S,
    universe: &Universe,
    plan: &Plan,
    publication: &Publication,
) -> Result<(), WriteFailed>
    ensures written { IsWritten (S.state out.old) (S.state out.new)
        (spec.published_text universe.now plan.now.lanes publication.now) }
    ensures told { is_err result ≡ (S.state out.new).failed }
{
    let variant = publication.variant;
    let lane = lane_name(plan, publication.lane as usize);
    let name = name_of(universe, variant.name);
    let version = version_of(universe, variant);
    write_published(out, publication.serial, lane, name, version)
}

/// Writes publications, each with its serial.
///
/// # Errors
///
/// [`WriteFailed`] where the sink has failed. It has then taken a first part of the lines.
pub fn write_publications<S: Sink>(
    out: &mut S,
    universe: &Universe,
    plan: &Plan,
    history: &[Publication],
) -> Result<(), WriteFailed>
    ensures written { IsWritten (S.state out.old) (S.state out.new)
        (flat_map (spec.published_text universe.now plan.now.lanes) history.now) }
    ensures told { is_err result ≡ (S.state out.new).failed }
{
    for publication in history {
        write_publication(out, universe, plan, publication)?;
    }
    whether_written(out)
}

fn phase_word(phase: Phase) -> &'static str
    ensures { result.now ≡ spec.phase_word phase }
{
    match phase {
        Phase::Absent => "",
        Phase::Unpacked => "unpacked",
        Phase::Configured => "configured",
    }
}

/// What a chroot holds of a name; nothing of one that is absent.
fn write_held<S: Sink>(
    out: &mut S,
    universe: &Universe,
    chroot: &Chroot,
    name: u32,
) -> Result<(), WriteFailed>
    ensures written { IsWritten (S.state out.old) (S.state out.new)
        (spec.held_text universe.now name (slot chroot.now.slots name)) }
    ensures told { is_err result ≡ (S.state out.new).failed }
{
    let Some(variant) = chroot.current(name) else {
        return whether_written(out);
    };
    let phase = phase_word(chroot.phase(name));
    let name = name_of(universe, variant.name);
    write_variant(out, name, version_of(universe, variant), phase.as_bytes())
}

/// What a chroot holds, by the number of the name.
fn write_chroot<S: Sink>(
    out: &mut S,
    universe: &Universe,
    chroot: &Chroot,
) -> Result<(), WriteFailed>
    ensures written { IsWritten (S.state out.old) (S.state out.new)
        (flat_map (λ n. spec.held_text universe.now n (slot chroot.now.slots n))
        (range_with_len 0 (names universe.now))) }
    ensures told { is_err result ≡ (S.state out.new).failed }
{
    for name in 0..universe.names() {
        write_held(out, universe, chroot, name)?;
    }
    whether_written(out)
}

/// Writes how far a lane of this name has come, what it has spent, in steps, and what its chroot
/// holds.
///
/// # Errors
///
/// [`WriteFailed`] where the sink has failed. It has then taken a first part of the lines.
pub fn write_lane_lines<S: Sink>(
    out: &mut S,
    universe: &Universe,
    name: &[u8],
    done: u64,
    spent: u64,
    chroot: &Chroot,
) -> Result<(), WriteFailed>
    requires { chroot.now.used ≡ used universe.now chroot.now.slots }
    ensures written { IsWritten (S.state out.old) (S.state out.new)
        (spec.lane_lines universe.now name.now done spent chroot.now.slots) }
    ensures told { is_err result ≡ (S.state out.new).failed }
{
    write_at(out, name, done, spent, chroot.used())?;
    write_chroot(out, universe, chroot)
}

fn write_lane_state<S: Sink>(out: &mut S, core: &Core<'_>, number: u32) -> Result<(), WriteFailed>
    requires { number < length core.now.plan.lanes }
    ensures written { IsWritten (S.state out.old) (S.state out.new)
        (spec.lane_text core.now.universe (lane core.now.plan.lanes number)
        (lane_state core.now.state number)) }
    ensures told { is_err result ≡ (S.state out.new).failed }
{
    let name = lane_name(core.plan(), number as usize);
    let (done, spent) = (u64::from(core.done(number)), core.spent(number));
    let chroot = core.chroot(number);
    write_lane_lines(out, core.universe(), name, done, spent, chroot)
}

fn write_lanes<S: Sink>(out: &mut S, core: &Core<'_>) -> Result<(), WriteFailed>
    ensures written { IsWritten (S.state out.old) (S.state out.new)
        (flat_map (λ l. spec.lane_text core.now.universe (lane core.now.plan.lanes l)
        (lane_state core.now.state l)) (range_with_len 0 (length core.now.plan.lanes))) }
    ensures told { is_err result ≡ (S.state out.new).failed }
{
    for number in 0..core.plan().lanes() {
        write_lane_state(out, core, number as u32)?;
    }
    whether_written(out)
}

/// Writes what was published, by serial, and then each lane in file order.
///
/// # Errors
///
/// [`WriteFailed`] where the sink has failed. It has then taken a first part of the lines.
pub fn write_state<S: Sink>(out: &mut S, core: &Core<'_>) -> Result<(), WriteFailed>
    ensures written { IsWritten (S.state out.old) (S.state out.new)
        (spec.state_text core.now.universe core.now.plan.lanes core.now.state) }
    ensures told { is_err result ≡ (S.state out.new).failed }
{
    write_publications(out, core.universe(), core.plan(), core.history())?;
    write_lanes(out, core)
}
