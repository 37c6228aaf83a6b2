//! The two lanes of a plan in one thread, which take their turns one by one.

ghost use Rattle.std.specs.Prelude.{◌≡◌, ◌<◌, ◌∷◌, [], IfSome, length};
ghost use Rattle.lane_runner.specs.Calls.{IsRunning, IsSameEnd};
ghost use Rattle.run_cases.specs.Lanes.{IsSeatedIn};
ghost use Rattle.word_archive.specs.Seats.{opened_seats};

use crate::archive::push_closed;
use crate::lines::{push_published, push_variant};
use crate::watched::{NOTHING, Seen, Watched, push_seen, watch};
use farm_executor::{Link, Providers, lanes_in_turns};
use farm_universe::Universe;
use lane_runner::{LaneTurns, Turn};
use plan_verifier::Accepted;
use std::alloc::{AllocError, Global};
use word_archive::{LaneSeat, LaneSeats, SharedArchive};

/// A lane with its seat.
type Lane<'a, 'p> = LaneTurns<'a, Link<'a, 'p>>;

/// The two lanes of a list.
fn two<'a, 'p>(mut lanes: Vec<Lane<'a, 'p>>) -> Option<(Lane<'a, 'p>, Lane<'a, 'p>)>
    ensures { IfSome result (λ r. lanes.entry.items ≡ r.0 ∷ r.1 ∷ []) }
{
    let b = lanes.pop()?;
    let a = lanes.pop()?;
    if lanes.is_empty() { Some((a, b)) } else { None }
}

/// The two lanes of an archive that was just opened, and its seats without theirs.
fn lanes_of<'a, 'p>(
    alloc: Global,
    accepted: &'a Accepted,
    archive: &'a SharedArchive<'p>,
    providers: &'a Providers,
    seats: LaneSeats,
) -> Option<(Lane<'a, 'p>, Lane<'a, 'p>, LaneSeats)>
    requires about { archive.now.accepted.now ≡ accepted.now }
    requires seats { seats ≡ opened_seats archive.now.table.shared.table_id
        archive.now.accepted.now }
    ensures first { IfSome result (λ r. IsSeatedIn r.0.accepted.now r.0.runner r.0.chroot
        r.0.end.seat r.2) }
    ensures second { IfSome result (λ r. IsSeatedIn r.1.accepted.now r.1.runner r.1.chroot
        r.1.end.seat r.2) }
    ensures seats { IfSome result (λ r. (r.2.table ≡ seats.table) × (r.2.about ≡ seats.about)) }
{
    let (lanes, seats) = lanes_in_turns(alloc, accepted, archive, providers, seats).ok()?;
    let (a, b) = two(lanes)?;
    Some((a, b, seats))
}

/// Such a lane whose end tells what it saw.
type Seeing<'a, 'p> = LaneTurns<'a, Watched<Link<'a, 'p>>>;

/// Takes a lane's turn, and tells what it saw of the archive.
fn turn(lane: &mut Seeing<'_, '_>) -> (Option<Turn>, Seen)
    requires running { IsRunning lane.old.accepted.now lane.old.runner lane.old.chroot
        lane.old.end.end.seat.about lane.old.end.end.seat.lane lane.old.end.end.seat.log }
    ensures running { IsRunning lane.new.accepted.now lane.new.runner lane.new.chroot
        lane.new.end.end.seat.about lane.new.end.end.seat.lane lane.new.end.end.seat.log }
    ensures same { IsSameEnd lane.old.end.end.seat.table lane.old.end.end.seat.about
        lane.old.end.end.seat.lane lane.new.end.end.seat.table lane.new.end.end.seat.about
        lane.new.end.end.seat.lane }
{
    lane.end.seen = NOTHING;
    let turn = lane.turn();
    (turn, lane.end.seen)
}

/// Takes the turn of one of two lanes, and tells what it saw.
fn turn_of(a: &mut Seeing<'_, '_>, b: &mut Seeing<'_, '_>, lane: usize) -> (Option<Turn>, Seen)
    requires first { IsRunning a.old.accepted.now a.old.runner a.old.chroot
        a.old.end.end.seat.about a.old.end.end.seat.lane a.old.end.end.seat.log }
    requires second { IsRunning b.old.accepted.now b.old.runner b.old.chroot
        b.old.end.end.seat.about b.old.end.end.seat.lane b.old.end.end.seat.log }
    ensures first { IsRunning a.new.accepted.now a.new.runner a.new.chroot
        a.new.end.end.seat.about a.new.end.end.seat.lane a.new.end.end.seat.log }
    ensures second { IsRunning b.new.accepted.now b.new.runner b.new.chroot
        b.new.end.end.seat.about b.new.end.end.seat.lane b.new.end.end.seat.log }
    ensures same_first { IsSameEnd a.old.end.end.seat.table a.old.end.end.seat.about
        a.old.end.end.seat.lane a.new.end.end.seat.table a.new.end.end.seat.about
        a.new.end.end.seat.lane }
    ensures same_second { IsSameEnd b.old.end.end.seat.table b.old.end.end.seat.about
        b.old.end.end.seat.lane b.new.end.end.seat.table b.new.end.end.seat.about
        b.new.end.end.seat.lane }
{
    if lane == 0 {
        return turn(a);
    }
    turn(b)
}

/// What comes of a turn.
fn push_turn(text: &mut String, universe: &Universe, turn: Option<Turn>) -> Result<(), AllocError> {
    match turn {
        None => text.push_str("ended\n"),
        Some(Turn::Moved) => text.push_str("moved\n"),
        Some(Turn::Waits) => text.push_str("waits\n"),
        Some(Turn::Branched(holds)) => writeln!(text, "branched {holds}"),
        Some(Turn::Published(output)) => push_published(text, universe, output),
        Some(Turn::Unpacked(variant)) => {
            text.push_str("unpacked ")?;
            push_variant(text, universe, variant)?;
            text.push_str("\n")
        }
    }
}

/// Takes turns, those of the first lane by 0, and puts what comes of each behind a text, with what
/// its lane has seen of the archive.
fn play(
    text: &mut String,
    universe: &Universe,
    a: &mut Seeing<'_, '_>,
    b: &mut Seeing<'_, '_>,
    lanes: &[usize],
) -> Result<(), AllocError>
    requires first { IsRunning a.old.accepted.now a.old.runner a.old.chroot
        a.old.end.end.seat.about a.old.end.end.seat.lane a.old.end.end.seat.log }
    requires second { IsRunning b.old.accepted.now b.old.runner b.old.chroot
        b.old.end.end.seat.about b.old.end.end.seat.lane b.old.end.end.seat.log }
    ensures first { IsSameEnd a.old.end.end.seat.table a.old.end.end.seat.about
        a.old.end.end.seat.lane a.new.end.end.seat.table a.new.end.end.seat.about
        a.new.end.end.seat.lane }
    ensures second { IsSameEnd b.old.end.end.seat.table b.old.end.end.seat.about
        b.old.end.end.seat.lane b.new.end.end.seat.table b.new.end.end.seat.about
        b.new.end.end.seat.lane }
{
    for lane in lanes {
        let (turn, seen) = turn_of(a, b, *lane);
        push_seen(text, seen)?;
        push_turn(text, universe, turn)?;
    }
    Ok(())
}

/// Takes back the seats of two lanes.
fn give_both(seats: &mut LaneSeats, a: LaneSeat, b: LaneSeat)
    requires first { (a.table ≡ seats.old.table) × (a.about ≡ seats.old.about)
        × (a.lane < length seats.old.logs) }
    requires second { (b.table ≡ seats.old.table) × (b.about ≡ seats.old.about)
        × (b.lane < length seats.old.logs) }
    ensures { (seats.new.table ≡ seats.old.table) × (seats.new.about ≡ seats.old.about) }
{
    seats.give(a);
    seats.give(b);
}

/// Lets two lanes take their turns, and puts what comes of them behind a text; nothing where there
/// are not two lanes, or memory is refused.
fn play_lanes(
    text: &mut String,
    accepted: &Accepted,
    archive: &SharedArchive<'_>,
    seats: LaneSeats,
    turns: &[usize],
) -> Option<LaneSeats>
    requires about { archive.now.accepted.now ≡ accepted.now }
    requires seats { seats ≡ opened_seats archive.now.table.shared.table_id
        archive.now.accepted.now }
    ensures { IfSome result (λ r. (r.table ≡ seats.table) × (r.about ≡ seats.about)) }
{
    let alloc = *text.allocator();
    let providers = Providers::of(alloc, accepted.universe()).ok()?;
    let (a, b, mut seats) = lanes_of(alloc, accepted, archive, &providers, seats)?;
    let mut a = watch(a);
    let mut b = watch(b);
    let played = play(text, accepted.universe(), &mut a, &mut b, turns);
    give_both(&mut seats, a.end.end.seat, b.end.end.seat);
    played.ok()?;
    Some(seats)
}

/// Leaves the first of two lanes behind its first turn and then behind the draw of its first serial,
/// and tells that, with the seats.
fn leave_drawn(
    alloc: Global,
    accepted: &Accepted,
    archive: &SharedArchive<'_>,
    seats: LaneSeats,
) -> Option<(Option<u64>, LaneSeats)>
    requires about { archive.now.accepted.now ≡ accepted.now }
    requires seats { seats ≡ opened_seats archive.now.table.shared.table_id
        archive.now.accepted.now }
    ensures { IfSome result (λ r. (r.1.table ≡ seats.table) × (r.1.about ≡ seats.about)) }
{
    let providers = Providers::of(alloc, accepted.universe()).ok()?;
    let (mut a, b, mut seats) = lanes_of(alloc, accepted, archive, &providers, seats)?;
    let _built = a.turn();
    let (serial, end) = a.draw();
    give_both(&mut seats, end.seat, b.end.seat);
    Some((serial, seats))
}

/// What comes of the turns of two lanes, and what the archive has then.
///
/// # Errors
///
/// [`AllocError`] where memory is refused, or there are not two lanes.
pub fn turns_text(
    alloc: Global,
    accepted: &Accepted,
    turns: &[usize],
) -> Result<Vec<u8>, AllocError> {
    let (archive, seats) = SharedArchive::open(alloc, accepted)?;
    let mut text = String::new(alloc);
    let Some(seats) = play_lanes(&mut text, accepted, &archive, seats, turns) else {
        return Err(AllocError);
    };
    let closed = archive.close(alloc, seats)?;
    push_closed(&mut text, accepted.universe(), &closed)?;
    Ok(text.into_bytes())
}

/// The serial that the first lane draws behind its first turn, and what the archive has where it then
/// goes no further.
///
/// # Errors
///
/// [`AllocError`] where memory is refused, or there are not two lanes.
pub fn drawn_text(alloc: Global, accepted: &Accepted) -> Result<Vec<u8>, AllocError> {
    let (archive, seats) = SharedArchive::open(alloc, accepted)?;
    let Some((serial, seats)) = leave_drawn(alloc, accepted, &archive, seats) else {
        return Err(AllocError);
    };
    let closed = archive.close(alloc, seats)?;
    let mut text = String::new(alloc);
    match serial {
        Some(serial) => writeln!(text, "drew {serial}")?,
        None => text.push_str("drew none\n")?,
    }
    push_closed(&mut text, accepted.universe(), &closed)?;
    Ok(text.into_bytes())
}
