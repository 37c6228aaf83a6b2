//! The shared archive of a plan, opened and closed with seats that come back.

ghost use Rattle.std.specs.Prelude.{◌≡◌};

use crate::lines::push_history;
use farm_universe::Universe;
use plan_verifier::Accepted;
use std::alloc::{AllocError, Global};
use word_archive::{Closed, LaneSeats, SharedArchive};

/// What an archive has when it is closed: the word of each name, and the publications by serial.
pub fn push_closed(
    text: &mut String,
    universe: &Universe,
    closed: &Closed,
) -> Result<(), AllocError> {
    text.push_str("words")?;
    for word in &closed.words {
        write!(text, " {word}")?;
    }
    text.push_str("\n")?;
    push_history(text, universe, &closed.history)
}

/// What an archive has whose seats come back unused.
pub fn opened_text(alloc: Global, accepted: &Accepted) -> Result<Vec<u8>, AllocError> {
    let (archive, seats) = SharedArchive::open(alloc, accepted)?;
    let closed = archive.close(alloc, seats)?;
    let mut text = String::new(alloc);
    push_closed(&mut text, accepted.universe(), &closed)?;
    Ok(text.into_bytes())
}

/// Whether the seat of each of these lanes was in when it was asked for, one after the other.
pub fn seats_text(
    alloc: Global,
    accepted: &Accepted,
    lanes: &[usize],
) -> Result<Vec<u8>, AllocError> {
    let (_archive, mut seats) = SharedArchive::open(alloc, accepted)?;
    let mut text = String::new(alloc);
    for lane in lanes {
        text.push_str(if seats.take(*lane).is_some() {
            "taken\n"
        } else {
            "not there\n"
        })?;
    }
    Ok(text.into_bytes())
}

/// Whether a lane is told of a halt, where its seat is in. The seat is given back.
fn is_told(archive: &SharedArchive<'_>, seats: &mut LaneSeats, lane: usize) -> bool
    requires table { seats.old.table ≡ archive.now.table.shared.table_id }
    requires about { seats.old.about ≡ archive.now.accepted.now }
    ensures table { seats.new.table ≡ seats.old.table }
    ensures about { seats.new.about ≡ seats.old.about }
{
    match seats.take(lane) {
        Some(mut seat) => {
            let is_told = archive.halted(&mut seat);
            seats.give(seat);
            is_told
        }
        None => false,
    }
}

/// Puts whether the first two lanes are told of a halt behind a text.
fn push_told(
    text: &mut String,
    archive: &SharedArchive<'_>,
    seats: &mut LaneSeats,
) -> Result<(), AllocError>
    requires table { seats.old.table ≡ archive.now.table.shared.table_id }
    requires about { seats.old.about ≡ archive.now.accepted.now }
    ensures table { seats.new.table ≡ seats.old.table }
    ensures about { seats.new.about ≡ seats.old.about }
{
    let first = is_told(archive, seats, 0);
    let second = is_told(archive, seats, 1);
    writeln!(text, "told {first} {second}")
}

/// Whether the first two lanes are told of a halt before the base seat has halted, and after it;
/// and what the archive has then.
pub fn stopped_text(alloc: Global, accepted: &Accepted) -> Result<Vec<u8>, AllocError> {
    let (archive, mut seats) = SharedArchive::open(alloc, accepted)?;
    let mut text = String::new(alloc);
    push_told(&mut text, &archive, &mut seats)?;
    seats.stop(&archive);
    push_told(&mut text, &archive, &mut seats)?;
    let closed = archive.close(alloc, seats)?;
    push_closed(&mut text, accepted.universe(), &closed)?;
    Ok(text.into_bytes())
}

/// Puts the words that the first lane loads behind a text, where it has a seat; then it halts.
fn push_loaded(
    text: &mut String,
    archive: &SharedArchive<'_>,
    seats: &mut LaneSeats,
    accepted: &Accepted,
) -> Result<(), AllocError>
    requires table { seats.old.table ≡ archive.now.table.shared.table_id }
    requires about { seats.old.about ≡ archive.now.accepted.now }
    requires accepted { archive.now.accepted.now ≡ accepted.now }
    ensures table { seats.new.table ≡ seats.old.table }
    ensures about { seats.new.about ≡ seats.old.about }
{
    let Some(mut seat) = seats.take(0) else {
        return text.push_str("no seat\n");
    };
    let words = if accepted.universe().names() == 3 {
        Some((
            archive.load(&mut seat, 0),
            archive.load(&mut seat, 1),
            archive.load(&mut seat, 2),
        ))
    } else {
        None
    };
    archive.halt(&mut seat);
    seats.give(seat);
    match words {
        Some((first, second, third)) => writeln!(text, "loaded {first} {second} {third}"),
        None => text.push_str("there are not three names\n"),
    }
}

/// The words of three names that the first lane loads ahead of its halt, whether the first two lanes
/// are told of that, and what the archive has then.
pub fn halted_text(alloc: Global, accepted: &Accepted) -> Result<Vec<u8>, AllocError> {
    let (archive, mut seats) = SharedArchive::open(alloc, accepted)?;
    let mut text = String::new(alloc);
    push_loaded(&mut text, &archive, &mut seats, accepted)?;
    let told = is_told(&archive, &mut seats, 1);
    writeln!(text, "the second lane is told {told}")?;
    let closed = archive.close(alloc, seats)?;
    push_closed(&mut text, accepted.universe(), &closed)?;
    Ok(text.into_bytes())
}
