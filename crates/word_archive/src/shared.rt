//! The archive, and how it is opened: a word for each name, the serial word and the halt word, and
//! a seat for each lane.

ghost use Rattle.std.specs.Prelude.{◌≡◌, ◌+◌, ◌<◌, ◌≤◌, ◌++◌, ◌∷◌, [], false, length, IfOk};
ghost use Rattle.std.specs.Vec.{vec_capacity};
ghost use Rattle.farm_model.specs.Packages.{names};
ghost use Rattle.archive_laws.specs.Records.{blank};
ghost use Rattle.plan_model.specs.Plan as plan;
ghost use Rattle.plan_model.specs.Plan.{lane_outputs};
ghost use Rattle.word_archive.specs.Seats.{seat_of, opened_seats};
ghost use Rattle.word_archive.specs.Serials.{SerialsFit};
ghost use Rattle.word_archive.specs.Views.{base_view};

use crate::rule::{Law, NextLane, View};
use crate::seats::{LaneSeat, LaneSeats};
use atomic_table::{Seat, Table};
use farm_universe::{Universe, Variant};
use plan_reader::Lane;
use plan_verifier::Accepted;
use std::alloc::{AllocError, Global};

/// The archive of an accepted plan, as words that its lanes share.
#[derive(Drop)]
pub struct SharedArchive<'a> {
    pub(crate) accepted: &'a Accepted,
    pub(crate) table: Table<(), View, Accepted, Law, Global>,
    pub ghost of_plan: { table.shared.key ≡ accepted.now },
    pub ghost wide: { table.shared.table_id.words ≡ names accepted.now.universe + 2 },
    pub ghost small: { SerialsFit accepted.now },
    pub ghost bare: { table.shared.table_id.slots ≡ 0 },
}

/// The words at the start: the initial archive, no serial drawn, and no halt.
fn opening_words(alloc: Global, accepted: &Accepted) -> Result<Vec<u64>, AllocError>
    requires { length accepted.now.universe.initial ≡ names accepted.now.universe }
    ensures { IfOk result (λ v. v.items ≡ accepted.now.universe.initial ++ 0 ∷ 0 ∷ []) }
{
    let mut words = Vec::new(alloc);
    let universe = accepted.universe();
    for name in 0..universe.names() {
        words.push(universe.initial(name))?;
    }
    words.push(0)?;
    words.push(0)?;
    Ok(words)
}

/// What a lane publishes, in its order.
fn outputs_of(alloc: Global, universe: &Universe, lane: &Lane) -> Result<Vec<Variant>, AllocError>
    ensures { IfOk result (λ v. v.items ≡ lane_outputs universe.now lane.now) }
{
    let mut outputs = Vec::new(alloc);
    for instruction in lane.instructions() {
        if let Some(recipe) = instruction.published() {
            outputs.extend_from_slice(universe.outputs(recipe))?;
        }
    }
    Ok(outputs)
}

impl<'a> SharedArchive<'a> {
    /// Opens the archive of a plan, with a seat for each lane. No other call but `close` takes
    /// memory.
    pub fn open(
        alloc: Global,
        accepted: &'a Accepted,
    ) -> Result<(SharedArchive<'a>, LaneSeats), AllocError>
        ensures { IfOk result (λ r. (r.0.accepted.now ≡ accepted.now)
            × (r.1 ≡ opened_seats r.0.table.shared.table_id accepted.now)) }
    {
        accepted.keeps();
        let _events = accepted.plan().count();
        let words = opening_words(alloc, accepted)?;
        let (table, base) = Table::of_words(alloc, words.as_slice(), accepted)?;
        let archive = SharedArchive { accepted, table };
        let seats = archive.seats(alloc, base)?;
        Ok((archive, seats))
    }

    /// Makes the seat of each lane.
    fn seats(&self, alloc: Global, mut base: Seat<(), View>) -> Result<LaneSeats, AllocError>
        requires table { base.table_id ≡ self.now.table.shared.table_id }
        requires base { base.me ≡ (base_view self.now.accepted.now 0 false [], []) }
        ensures { IfOk result (λ r.
            r ≡ opened_seats self.now.table.shared.table_id self.now.accepted.now) }
    {
        let mut seats = Vec::new(alloc);
        let universe = self.accepted.universe();
        let plan = self.accepted.plan();
        for lane in 0..plan.lanes() {
            let outputs = outputs_of(alloc, universe, plan.lane(lane))?;
            let serials = Vec::with_capacity(alloc, outputs.len())?;
            seats.push(Some(self.split(&mut base, lane, outputs, serials)))?;
        }
        Ok(LaneSeats { base, seats })
    }

    /// Splits the seat of the next lane off the base seat.
    fn split(
        &self,
        base: &mut Seat<(), View>,
        lane: usize,
        outputs: Vec<Variant>,
        serials: Vec<u64>,
    ) -> LaneSeat
        requires outputs { outputs.items ≡ lane_outputs self.now.accepted.now.universe
            (plan.lane self.now.accepted.now.plan lane) }
        requires serials { (serials.items ≡ []) × (length outputs.items ≤ vec_capacity serials) }
        requires table { base.old.table_id ≡ self.now.table.shared.table_id }
        requires base { base.old.me ≡ (base_view self.now.accepted.now lane false [], []) }
        requires lane { lane < length self.now.accepted.now.plan }
        ensures base { (base.new.table_id ≡ base.old.table_id)
            × (base.new.me ≡ (base_view self.now.accepted.now (lane + 1) false [], [])) }
        ensures seat { result ≡ seat_of base.old.table_id self.now.accepted.now lane
            (blank self.now.accepted.now.universe (plan.lane self.now.accepted.now.plan lane)) }
    {
        self.accepted.keeps();
        LaneSeat {
            seat: self.table.shared.split_seat::<NextLane>(base),
            lane,
            outputs,
            serials,
            made: 0,
        }
    }
}
