//! What halts an archive from outside its lanes.

ghost use Rattle.std.specs.Prelude.{◌≡◌, true};

use word_archive::{LaneSeats, SharedArchive};

/// What halts an archive from outside its lanes: the seat that no lane has.
pub trait Base {
    /// How it may have changed, once it has halted the archive.
    ghost stops: { Self → Self → Type 0 };

    /// Halts the archive for all lanes.
    fn stop(&mut self)
        ensures { stops self.old self.new };
}

/// The seats of an archive beside it, with the base seat.
#[derive(Drop)]
pub struct BaseSeat<'a, 'p> {
    pub archive: &'a SharedArchive<'p>,
    pub seats: LaneSeats,
    pub ghost same: { (seats.table ≡ archive.now.table.shared.table_id)
        × (seats.about ≡ archive.now.accepted.now) },
}

impl Base for BaseSeat<'_, '_> {
    ghost stops = { λ old new. new.seats ≡ record (old.seats) { stopped = true } };

    fn stop(&mut self) {
        self.seats.stop(self.archive);
    }
}
