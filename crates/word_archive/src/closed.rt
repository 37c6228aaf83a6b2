//! How an archive is closed: its words, and what its lanes have published, by serial.

ghost use Rattle.std.specs.Prelude.{◌≡◌, ◌≤◌, ◌++◌, ◌∷◌, [], ℕ, List, Some, length, map, take, IfOk, OnOk, IsPermutation};
ghost use Rattle.std.specs.List.Sorted.{IsNonDecreasingBy};
ghost use Rattle.farm_model.specs.Packages.{names};
ghost use Rattle.archive_laws.specs.Records.{Record};
ghost use Rattle.word_archive.specs.History.{IsClosed, first_published, lane_published, lanes_published};
ghost use Rattle.word_archive.specs.Seats.{SeatsInPlace, back, log_of};
ghost use Rattle.word_archive.specs.Views.{base_view};

use crate::rule::{BackAgain, View};
use crate::seats::{LaneSeat, LaneSeats};
use crate::shared::SharedArchive;
use atomic_table::Seat;
use farm_archive::Publication;
use farm_universe::Variant;
use std::alloc::{AllocError, Global};

/// What an archive came to.
#[derive(Drop)]
pub struct Closed {
    /// The variants that are there, for each name.
    pub words: Vec<u64>,
    /// The publications, by serial.
    pub history: Vec<Publication>,
}

/// Adds the first outputs of a lane.
fn add_outputs(
    lane: u32,
    outputs: &[Variant],
    serials: &[u64],
    made: usize,
    history: &mut Vec<Publication>,
) -> Result<(), AllocError>
    requires outputs { made ≤ length outputs.now }
    requires serials { made ≤ length serials.now }
    ensures { OnOk result (history.new.items
        ≡ history.old.items ++ first_published lane outputs.now serials.now made) }
{
    for i in 0..made {
        history.push(Publication {
            serial: serials[i],
            lane,
            variant: outputs[i],
        })?;
    }
    Ok(())
}

impl LaneSeat {
    /// Adds what the lane has published.
    fn add_published(&self, lane: u32, history: &mut Vec<Publication>) -> Result<(), AllocError>
        requires lane { self.now.lane ≡ lane }
        ensures { OnOk result (history.new.items ≡ history.old.items
            ++ lane_published self.now.about self.now.lane (Some (Some self.now.log))) }
    {
        add_outputs(
            lane,
            self.outputs.as_slice(),
            self.serials.as_slice(),
            self.made,
            history,
        )
    }
}

impl SharedArchive<'_> {
    /// Closes the archive, with the seats that are in. Where all are in, the words and the history
    /// are those of the records that were given back; where one is out, nothing is told of them.
    ///
    /// # Errors
    ///
    /// Where memory is refused. The archive and the seats are gone.
    pub fn close(self, alloc: Global, seats: LaneSeats) -> Result<Closed, AllocError>
        requires table { seats.table ≡ self.table.shared.table_id }
        requires about { seats.about ≡ self.accepted.now }
        ensures { IfOk result (λ v. (records : List Record)
            → seats.logs ≡ map (λ r. Some r) records
            → (words : List ℕ) × (v.words.items ≡ take (names seats.about.universe) words)
            × IsClosed seats.about words records seats.stopped v.history.items) }
    {
        self.accepted.keeps();
        let names = self.accepted.universe().names() as usize;
        let mut words = Vec::with_capacity(alloc, names)?;
        let LaneSeats { mut base, seats } = seats;
        let history = self.history(alloc, seats.as_slice())?;
        self.join_all(&mut base, seats);
        let SharedArchive { accepted: _, table } = self;
        let closed = table.close_with(base);
        for n in 0..names {
            words.push_reserved(closed.word(n));
        }
        closed.free();
        Ok(Closed { words, history })
    }

    /// What the lanes have published, by serial.
    fn history(
        &self,
        alloc: Global,
        seats: &[Option<LaneSeat>],
    ) -> Result<Vec<Publication>, AllocError>
        requires seats { SeatsInPlace self.now.table.shared.table_id self.now.accepted.now 0
            seats.now }
        requires lanes { length seats.now ≡ length self.now.accepted.now.plan }
        ensures same { IfOk result (λ v. IsPermutation (lanes_published self.now.accepted.now
            (map log_of seats.now) (length seats.now)) v.items) }
        ensures order { IfOk result (λ v. IsNonDecreasingBy (λ h. h.serial) v.items) }
    {
        let mut history = self.published(alloc, seats)?;
        history.sort_by_key(|h| h.serial)?;
        Ok(history)
    }

    /// What the lanes have published, lane by lane.
    fn published(
        &self,
        alloc: Global,
        seats: &[Option<LaneSeat>],
    ) -> Result<Vec<Publication>, AllocError>
        requires seats { SeatsInPlace self.now.table.shared.table_id self.now.accepted.now 0
            seats.now }
        requires lanes { length seats.now ≡ length self.now.accepted.now.plan }
        ensures { IfOk result (λ v. v.items ≡ lanes_published self.now.accepted.now
            (map log_of seats.now) (length seats.now)) }
    {
        let mut history = Vec::new(alloc);
        let _lanes = self.accepted.plan().lanes();
        for lane in 0..seats.len() {
            if let Some(seat) = &seats[lane] {
                seat.add_published(lane as u32, &mut history)?;
            }
        }
        Ok(history)
    }

    /// Joins the seats that are in with the base seat.
    fn join_all(&self, base: &mut Seat<(), View>, mut seats: Vec<Option<LaneSeat>>)
        requires table { base.old.table_id ≡ self.now.table.shared.table_id }
        requires base { base.old.me ≡ (
          base_view self.now.accepted.now base.old.me.0.next
              base.old.me.0.stopped [],
          [],
        ) }
        requires seats { SeatsInPlace base.old.table_id self.now.accepted.now 0 seats.items }
        ensures { (base.new.table_id ≡ base.old.table_id)
            × (base.new.me ≡ (
              base_view self.now.accepted.now base.old.me.0.next
                  base.old.me.0.stopped (back 0 seats.items),
              [],
            )) }
    {
        for lane in 0..seats.len() {
            let seat = seats[lane].take();
            self.join(base, lane, seat);
        }
    }

    /// Joins the seat of a lane with the base seat, where it is in.
    fn join(&self, base: &mut Seat<(), View>, lane: usize, seat: Option<LaneSeat>)
        requires table { base.old.table_id ≡ self.now.table.shared.table_id }
        requires base { base.old.me ≡ (
          base_view self.now.accepted.now base.old.me.0.next
              base.old.me.0.stopped base.old.me.0.mine,
          [],
        ) }
        requires seat { SeatsInPlace base.old.table_id self.now.accepted.now lane (seat ∷ []) }
        ensures { (base.new.table_id ≡ base.old.table_id)
            × (base.new.me ≡ (
              base_view self.now.accepted.now base.old.me.0.next
                  base.old.me.0.stopped (base.old.me.0.mine ++ back lane (seat ∷ [])),
              [],
            )) }
    {
        if let Some(seat) = seat {
            self.join_one(base, seat);
        }
    }

    /// Joins a lane's seat with the base seat.
    fn join_one(&self, base: &mut Seat<(), View>, seat: LaneSeat)
        requires table { base.old.table_id ≡ self.now.table.shared.table_id }
        requires base { base.old.me ≡ (
          base_view self.now.accepted.now base.old.me.0.next
              base.old.me.0.stopped base.old.me.0.mine,
          [],
        ) }
        requires seat { seat.table ≡ base.old.table_id }
        ensures { (base.new.table_id ≡ base.old.table_id)
            × (base.new.me ≡ (
              base_view self.now.accepted.now base.old.me.0.next
                  base.old.me.0.stopped (base.old.me.0.mine ++ (seat.lane, seat.log) ∷ []),
              [],
            )) }
    {
        let LaneSeat { seat, .. } = seat;
        self.table.shared.join_seat::<BackAgain>(base, seat);
    }
}
