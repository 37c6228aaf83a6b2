//! How many outputs of one lane each point knows: the greatest counts, by rounds over the points.

ghost use Rattle.std.specs.Prelude.{◌≡◌, ℕ, ◌+◌, ◌<◌, ◌≤◌, length, All, Some, slice_get, slice_index, true, false, IfOk};
ghost use Rattle.std.specs.List.{sum};
ghost use Rattle.known_rows.specs.declared.column.Point.{Point};
ghost use Rattle.known_rows.specs.Column as spec;
ghost use Rattle.known_rows.specs.Column.{of_list, IsPointBelow, ArePlaced, IsPlaced, ArePointsIn, IsAbove, IsGreatestColumn};
ghost use Rattle.known_rows.specs.Visit.{IsVisit, AreSettled};

use crate::visit::Visit;
use std::alloc::{AllocError, Global};

/// An output that a point looks for: the point whose counts hold at its publish, its lane, and its
/// number there, from 1.
#[derive(Clone, Copy)]
pub struct Source {
    pub point: Option<usize>,
    pub lane: usize,
    pub count: u64,
}

/// A wait or a `when`: its lane and place, the outputs of the lane before it, the point whose
/// counts hold ahead of it, and the outputs that it looks for.
#[derive(Drop)]
pub struct Point {
    pub lane: usize,
    pub place: usize,
    pub own: u64,
    pub before: Option<usize>,
    pub sources: Vec<Source>,
}

/// What a point knows, or 0 where there is none.
pub fn count_at(x: &[u64], point: Option<usize>) -> u64
    requires { IsPointBelow (length x.now) point }
    ensures { result ≡ spec.count_at (of_list x.now) point }
{
    match point {
        None => 0,
        Some(w) => x[w],
    }
}

fn known(lane: usize, x: &[u64], source: Source) -> u64
    requires { IsPointBelow (length x.now) source.point }
    ensures { result ≡ spec.known lane (of_list x.now) source }
{
    if source.lane == lane {
        source.count
    } else {
        count_at(x, source.point)
    }
}

fn least(lane: usize, x: &[u64], total: u64, sources: &[Source]) -> u64
    requires { ArePlaced (length x.now) sources.now }
    ensures { result ≡ spec.least lane (of_list x.now) total sources.now }
{
    let mut best = total;
    for source in sources {
        best = best.min(known(lane, x, *source));
    }
    best
}

#[tactic(auto, unfolding(crate::specs::Column::bound))]
fn bound(lane: usize, total: u64, x: &[u64], p: &Point) -> u64
    requires { IsPlaced (length x.now) p.now }
    ensures { result ≡ spec.bound lane total (of_list x.now) p.now }
{
    if p.lane == lane {
        p.own
    } else {
        count_at(x, p.before).max(least(lane, x, total, &p.sources))
    }
}

/// Takes the count of a point down to what it may know, and tells whether it was more.
fn tighten(lane: usize, total: u64, points: &[Point], x: &mut [u64], w: usize) -> bool
    requires placed { ArePointsIn (length x.old) points.now }
    requires long { length x.old ≡ length points.now }
    requires there { w < length points.now }
    ensures above { IsAbove lane total points.now x.old → IsAbove lane total points.now x.new }
    ensures smaller { result ≡ true → sum x.new < sum x.old }
    ensures same { result ≡ false → x.new ≡ x.old }
    ensures stable { result ≡ false → (p : Point) → slice_get points.now w ≡ Some p
        → slice_index x.old w ≤ spec.bound lane total (of_list x.old) p }
{
    let limit = bound(lane, total, x, &points[w]);
    if limit < x[w] {
        x[w] = limit;
        return true;
    }
    false
}

/// Takes every count down once, and tells whether one was more.
fn round(lane: usize, total: u64, points: &[Point], x: &mut [u64]) -> bool
    requires placed { ArePointsIn (length x.old) points.now }
    requires long { length x.old ≡ length points.now }
    ensures above { IsAbove lane total points.now x.old → IsAbove lane total points.now x.new }
    ensures smaller { result ≡ true → sum x.new < sum x.old }
    ensures stable { result ≡ false → (w : ℕ) (p : Point) → slice_get points.now w ≡ Some p
        → slice_index x.new w ≤ spec.bound lane total (of_list x.new) p }
{
    let mut changed = false;
    for w in 0..points.len() {
        if tighten(lane, total, points, x, w) {
            changed = true;
        }
    }
    changed
}

/// Looks at the point of a place of the visit.
fn look(lane: usize, total: u64, points: &[Point], visit: &Visit, x: &mut [u64], k: usize)
    requires placed { ArePointsIn (length x.old) points.now }
    requires long { length x.old ≡ length points.now }
    requires visit { IsVisit points.now visit.now }
    requires there { k < length visit.now.order.items }
    ensures above { IsAbove lane total points.now x.old → IsAbove lane total points.now x.new }
    ensures settled { AreSettled lane total points.now visit.now x.old k
        → AreSettled lane total points.now visit.now x.new (k + 1) }
{
    let w = visit.order[k];
    x[w] = bound(lane, total, x, &points[w]);
}

/// The counts behind a look at each point, in the order of the visit.
fn first_look(
    alloc: Global,
    lane: usize,
    total: u64,
    points: &[Point],
    visit: &Visit,
) -> Result<Vec<u64>, AllocError>
    requires placed { ArePointsIn (length points.now) points.now }
    requires visit { IsVisit points.now visit.now }
    ensures long { IfOk result (λ counts. length counts.items ≡ length points.now) }
    ensures above { IfOk result (λ counts. IsAbove lane total points.now counts.items) }
    ensures settled { IfOk result (λ counts. AreSettled lane total points.now visit.now counts.items
        (length visit.now.order.items)) }
{
    let mut counts = vec![in alloc; total; points.len()]?;
    for k in 0..visit.order.len() {
        look(lane, total, points, visit, &mut counts, k);
    }
    Ok(counts)
}

/// Tells whether a point is known to know no more than it may.
fn is_settled(lane: usize, total: u64, points: &[Point], x: &[u64], w: usize) -> bool
    requires placed { ArePointsIn (length x.now) points.now }
    requires long { length x.now ≡ length points.now }
    ensures { result ≡ true → (p : Point) → slice_get points.now w ≡ Some p
        → slice_index x.now w ≤ spec.bound lane total (of_list x.now) p }
{
    w < points.len() && x[w] <= bound(lane, total, x, &points[w])
}

/// Tells whether each of these points is known to know no more than it may.
fn are_settled(lane: usize, total: u64, points: &[Point], x: &[u64], late: &[usize]) -> bool
    requires placed { ArePointsIn (length x.now) points.now }
    requires long { length x.now ≡ length points.now }
    ensures { result ≡ true → All (λ w. (p : Point) → slice_get points.now w ≡ Some p
        → slice_index x.now w ≤ spec.bound lane total (of_list x.now) p) late.now }
{
    for w in late {
        if !is_settled(lane, total, points, x, *w) {
            return false;
        }
    }
    true
}

/// The greatest counts of the outputs of one lane, of which there are `total`. `visit` decides the
/// time and not the answer: where no point is late, one look at each is all.
pub fn column(
    alloc: Global,
    lane: usize,
    total: u64,
    points: &[Point],
    visit: &Visit,
) -> Result<Vec<u64>, AllocError>
    requires placed { ArePointsIn (length points.now) points.now }
    requires visit { IsVisit points.now visit.now }
    ensures { IfOk result (λ counts. IsGreatestColumn lane total points.now counts.items) }
{
    let mut counts = first_look(alloc, lane, total, points, visit)?;
    if are_settled(lane, total, points, &counts, &visit.late) {
        return Ok(counts);
    }
    while round(lane, total, points, &mut counts) {}
    Ok(counts)
}
