//! The seats of an archive: one for each lane, and the base seat.

ghost use Rattle.std.specs.Prelude.{◌≡◌, ◌⊎◌, ◌<◌, ◌≤◌, length, slice_get, slice_set, IfSome, IsNone, Some, None, true};
ghost use Rattle.word_archive.specs.Seats.{seat_of};

use crate::rule::{Stops, View};
use crate::shared::SharedArchive;
use atomic_table::Seat;
use farm_universe::Variant;
use std::marker::Model;

/// A lane's seat. It stands at the lane's next archive step: an unpack, a wait, a `when`,
/// or an output.
#[derive(Drop)]
pub struct LaneSeat {
    pub(crate) seat: Seat<(), View>,
    pub(crate) lane: usize,
    pub(crate) outputs: Vec<Variant>,
    pub(crate) serials: Vec<u64>,
    pub(crate) made: usize,
}

impl Model for LaneSeat {
    ghost use Rattle.std.specs.Vec.{vec_capacity};
    ghost use Rattle.word_archive.specs.Seats.{LaneSeatOf, IsSeat};
    ghost use Rattle.word_archive.specs.Views.{record_in};

    ghost Value = { LaneSeatOf };

    ghost view = { λ s. record {
      table = s.seat.table_id;
      about = s.seat.me.0.about;
      lane = s.lane;
      log = record_in s.seat.me.0;
    } };

    ghost invariant = { λ s. IsSeat s.seat.me s.lane s.outputs.items s.serials.items
        (vec_capacity s.serials) s.made };
}

/// The seats of all lanes, of which some may be out, with the base seat.
#[derive(Drop)]
pub struct LaneSeats {
    pub(crate) base: Seat<(), View>,
    pub(crate) seats: Vec<Option<LaneSeat>>,
}

impl Model for LaneSeats {
    ghost use Rattle.std.specs.Prelude.{map};
    ghost use Rattle.word_archive.specs.Seats.{LaneSeatsOf, IsSeats, log_of};

    ghost Value = { LaneSeatsOf };

    ghost view = { λ s. record {
      table = s.base.table_id;
      about = s.base.me.0.about;
      stopped = s.base.me.0.stopped;
      logs = map log_of s.seats.items;
    } };

    ghost invariant = { λ s. IsSeats s.base.table_id s.base.me s.seats.items };
}

impl LaneSeats {
    /// Takes the seat of a lane. `None` where it is out, and where the plan has no such lane.
    pub fn take(&mut self, lane: usize) -> Option<LaneSeat>
        ensures none { IsNone result → (self.new ≡ self.old)
            × ((length self.old.logs ≤ lane) ⊎ (slice_get self.old.logs lane ≡ Some None)) }
        ensures out { length self.old.logs ≤ lane → IsNone result }
        ensures seat { IfSome result (λ q.
            (q ≡ seat_of self.old.table self.old.about lane q.log)
            × (slice_get self.old.logs lane ≡ Some (Some q.log))
            × (self.new ≡ record self.old { logs = slice_set self.old.logs lane None })) }
    {
        if lane >= self.seats.len() {
            return None;
        }
        self.seats[lane].take()
    }

    /// Takes a seat back, with what its lane's record says by then.
    pub fn give(&mut self, seat: LaneSeat)
        requires table { seat.table ≡ self.old.table }
        requires about { seat.about ≡ self.old.about }
        requires lane { seat.lane < length self.old.logs }
        ensures { self.new
            ≡ record self.old { logs = slice_set self.old.logs seat.lane (Some seat.log) } }
    {
        let lane = seat.lane;
        self.seats[lane] = Some(seat);
    }

    /// Halts the base seat: from then on each lane that looks is told so.
    pub fn stop(&mut self, archive: &SharedArchive<'_>)
        requires table { self.old.table ≡ archive.now.table.shared.table_id }
        requires about { self.old.about ≡ archive.now.accepted.now }
        ensures { self.new ≡ record self.old { stopped = true } }
    {
        let word = archive.table.word_count() - 1;
        archive
            .table
            .shared
            .fetch_or::<Stops>(&mut self.base, word, 1);
    }
}
