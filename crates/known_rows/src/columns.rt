//! The columns of all lanes.

ghost use Rattle.std.specs.Prelude.{◌≡◌, ◌<◌, ◌∷◌, [], length, IfOk};
ghost use Rattle.farm_model.specs.Universe as farm;
ghost use Rattle.plan_model.specs.Plan as model;
ghost use Rattle.known_rows.specs.Column as spec;
ghost use Rattle.known_rows.specs.Column.{of_list, IsPointBelow, ArePointsIn};
ghost use Rattle.known_rows.specs.Marks.{AreLanes};
ghost use Rattle.known_rows.specs.Columns.{AreColumns, IsLaneColumn};
ghost use Rattle.known_rows.specs.Visit.{IsVisit};

use crate::column::{Point, column, count_at};
use crate::marks::LaneOutputs;
use crate::visit::Visit;
use rayon::prelude::*;
use std::alloc::{AllocError, Global};
use std::marker::Model;
use std::thread::Threads;

/// Of fewer points one thread makes all columns: to wake others would take longer.
const POINTS_FOR_THREADS: usize = 512;

/// How many outputs of one lane each point knows.
#[derive(Drop)]
pub struct Counts {
    counts: Vec<u64>,
}

impl Model for Counts {
    ghost use Rattle.std.specs.Prelude.{List, ℕ};

    ghost Value = { List ℕ };

    ghost view = { λ counts. counts.counts.items };
}

impl Counts {
    /// The count of one point.
    pub fn one(alloc: Global, count: u64) -> Result<Counts, AllocError>
        ensures { IfOk result (λ counts. counts ≡ count ∷ []) }
    {
        Ok(Counts {
            counts: vec![in alloc; count; 1]?,
        })
    }

    /// What a point knows, or 0 where there is none.
    pub fn at(&self, point: Option<usize>) -> u64
        requires { IsPointBelow (length self.now) point }
        ensures { result ≡ spec.count_at (of_list self.now) point }
    {
        count_at(&self.counts, point)
    }
}

/// The greatest counts of the outputs of one lane.
fn lane_column(
    alloc: Global,
    lanes: &[LaneOutputs],
    number: usize,
    points: &[Point],
    visit: &Visit,
) -> Result<Counts, AllocError>
    requires placed { ArePointsIn (length points.now) points.now }
    requires visit { IsVisit points.now visit.now }
    requires there { number < length lanes.now }
    ensures { IfOk result (IsLaneColumn lanes.now points.now number) }
{
    let total = lanes[number].outputs.len() as u64;
    Ok(Counts {
        counts: column(alloc, number, total, points, visit)?,
    })
}

/// The fewest columns that one thread makes.
fn columns_at_once(lanes: &[LaneOutputs], points: &[Point]) -> usize {
    if points.len() < POINTS_FOR_THREADS {
        lanes.len()
    } else {
        1
    }
}

/// The greatest counts of each lane's outputs, by as many threads as there are processors: no
/// column asks for another.
pub fn columns(
    rt: &(impl Threads + Sync),
    alloc: Global,
    lanes: &[LaneOutputs],
    points: &[Point],
    visit: &Visit,
) -> Result<Vec<Counts>, AllocError>
    requires placed { ArePointsIn (length points.now) points.now }
    requires visit { IsVisit points.now visit.now }
    ensures { IfOk result (λ columns. (u : farm.Universe) (p : model.Plan)
        → AreLanes u p lanes.now → AreColumns u p points.now columns.items (length p)) }
{
    let columns = (0..lanes.len())
        .into_par_iter()
        .with_min_len(columns_at_once(lanes, points))
        .map(
            move |number: usize| -> Result<Counts, AllocError>
                requires placed { ArePointsIn (length points.now) points.now }
                requires visit { IsVisit points.now visit.now }
                requires there { number < length lanes.now }
                ensures { IfOk result
                    (IsLaneColumn lanes.entry.now points.entry.now number) }
            { lane_column(alloc, lanes, number, points, visit) },
        )
        .collect::<Result<Vec<Counts>, AllocError>>(rt, alloc)??;
    Ok(columns)
}
