//! An order in which the points of a plan may pass, for the first look of the columns at them.

ghost use Rattle.std.specs.Prelude.{◌≡◌, ◌⊎◌, ℕ, ◌<◌, length, All, Some, slice_get, true, IfOk, OnOk};
ghost use Rattle.std.specs.List.{Contains};
ghost use Rattle.known_rows.specs.declared.column.Point.{Point};
ghost use Rattle.known_rows.specs.declared.column.Source.{Source};
ghost use Rattle.known_rows.specs.Visit.{IsEarlier, BuildsOnEarlier, IsInTurn, IsAtPlace, AreAtPlaces, IsVisit};

use crate::column::{Point, Source};
use std::alloc::{AllocError, Global};

/// The points in the order of the first look at them, the place of each, and those that build on a
/// point that comes no earlier.
#[derive(Drop)]
pub struct Visit {
    pub order: Vec<usize>,
    pub places: Vec<usize>,
    pub late: Vec<usize>,
}

/// Tells whether a point has passed. Where there is none, the lane's beginning has.
fn has_passed(passed: &[bool], point: Option<usize>) -> bool {
    match point {
        None => true,
        Some(w) => w < passed.len() && passed[w],
    }
}

/// Tells whether a source is there.
fn is_there(passed: &[bool], sources: &[Source]) -> bool {
    for source in sources {
        if has_passed(passed, source.point) {
            return true;
        }
    }
    false
}

/// The numbers of the points with none ahead of them: the first of a lane, and those behind `when`s
/// that a lane begins with.
fn starts(alloc: Global, points: &[Point]) -> Result<Vec<usize>, AllocError> {
    let mut starts = Vec::new(alloc);
    for w in 0..points.len() {
        if points[w].before.is_none() {
            starts.push(w)?;
        }
    }
    Ok(starts)
}

/// Tells whether a lane goes on past a point that does not pass: it is a `when`, and the next point
/// does not build on it.
fn is_passed_over(points: &[Point], w: usize, end: usize) -> bool
    requires { w < length points.now }
{
    let next = w + 1;
    if next >= end || next >= points.len() {
        return false;
    }
    match points[next].before {
        None => true,
        Some(before) => before != w,
    }
}

/// Takes a lane as far as it goes, from one of its points on, and gives the point at which it
/// stops.
fn advance(
    points: &[Point],
    from: usize,
    end: usize,
    passed: &mut [bool],
    visit: &mut Vec<usize>,
) -> Result<usize, AllocError>
    requires long { length passed.old ≡ length points.now }
    ensures { OnOk result (length passed.new ≡ length points.now) }
{
    for w in from..end.min(points.len()) {
        if !has_passed(passed, points[w].before) {
            return Ok(w);
        }
        if is_there(passed, &points[w].sources) {
            passed[w] = true;
            visit.push(w)?;
        } else if !is_passed_over(points, w, end) {
            return Ok(w);
        }
    }
    Ok(end)
}

/// Takes each lane as far as it goes, and tells whether a point passed.
fn round(
    points: &[Point],
    starts: &[usize],
    nexts: &mut [usize],
    passed: &mut [bool],
    visit: &mut Vec<usize>,
) -> Result<bool, AllocError>
    requires long { length passed.old ≡ length points.now }
    requires lanes { length nexts.old ≡ length starts.now }
    ensures long { OnOk result (length passed.new ≡ length points.now) }
    ensures lanes { OnOk result (length nexts.new ≡ length starts.now) }
{
    let mut moved = false;
    for lane in 0..starts.len() {
        let end = if starts.len() - lane > 1 {
            starts[lane + 1]
        } else {
            points.len()
        };
        let next = advance(points, nexts[lane], end, passed, visit)?;
        moved |= next > nexts[lane];
        nexts[lane] = next;
    }
    Ok(moved)
}

/// Puts the points that did not pass behind the others.
fn add_others(passed: &[bool], visit: &mut Vec<usize>) -> Result<(), AllocError> {
    for w in 0..passed.len() {
        if !passed[w] {
            visit.push(w)?;
        }
    }
    Ok(())
}

/// The points that pass, in an order in which they do, and then the others. No point builds on a
/// `when`, so one that does not pass is looked at once the others have their counts.
fn order(alloc: Global, points: &[Point]) -> Result<Vec<usize>, AllocError> {
    let starts = starts(alloc, points)?;
    let mut nexts = starts.clone()?;
    let mut passed = vec![in alloc; false; points.len()]?;
    let mut visit = Vec::new(alloc);
    for _turn in 0..points.len() {
        if !round(points, &starts, &mut nexts, &mut passed, &mut visit)? {
            break;
        }
    }
    add_others(&passed, &mut visit)?;
    Ok(visit)
}

/// For each of so many points its place in the order.
fn places(alloc: Global, order: &[usize], count: usize) -> Result<Vec<usize>, AllocError>
    ensures { IfOk result (λ places. length places.items ≡ count) }
{
    let mut places = vec![in alloc; order.len(); count]?;
    for k in 0..order.len() {
        if order[k] < count {
            places[order[k]] = k;
        }
    }
    Ok(places)
}

/// Tells whether the point at a place of the order is there, and has this place.
fn is_at_place(order: &[usize], places: &[usize], k: usize) -> bool
    requires { k < length order.now }
    ensures { result ≡ true → IsAtPlace order.now places.now k }
{
    let w = order[k];
    w < places.len() && places[w] == k
}

/// Tells whether each point of the order is there, and stands in it once.
fn are_at_places(order: &[usize], places: &[usize]) -> bool
    ensures { result ≡ true → AreAtPlaces order.now places.now }
{
    for k in 0..order.len() {
        if !is_at_place(order, places, k) {
            return false;
        }
    }
    true
}

/// The order where each of its points stands in it once, so that a look need not ask for that; else
/// none, which makes all points late.
fn once_each(alloc: Global, order: Vec<usize>, places: &[usize]) -> Vec<usize>
    ensures { AreAtPlaces result.items places.now }
{
    if are_at_places(&order, places) {
        order
    } else {
        Vec::new(alloc)
    }
}

/// Tells whether a point is known to stand before a place. Where there is none, the lane's
/// beginning does.
fn is_earlier(places: &[usize], k: usize, point: Option<usize>) -> bool
    ensures { result ≡ true → IsEarlier places.now k point }
{
    match point {
        None => true,
        Some(w) => w < places.len() && places[w] < k,
    }
}

/// Tells whether the points of these sources are known to stand before a place.
fn are_earlier(places: &[usize], k: usize, sources: &[Source]) -> bool
    ensures { result ≡ true → All (λ (s : Source). IsEarlier places.now k s.point) sources.now }
{
    for source in sources {
        if !is_earlier(places, k, source.point) {
            return false;
        }
    }
    true
}

/// Tells whether all that a point builds on is known to stand before a place.
fn is_ready(places: &[usize], k: usize, p: &Point) -> bool
    ensures { result ≡ true → BuildsOnEarlier places.now k p.now }
{
    is_earlier(places, k, p.before) && are_earlier(places, k, &p.sources)
}

/// Tells whether a point is known to stand at its place in the order, behind all that it builds on.
fn is_in_turn(order: &[usize], places: &[usize], w: usize, p: &Point) -> bool
    requires { w < length places.now }
    ensures { result ≡ true → IsInTurn order.now places.now w p.now }
{
    let k = places[w];
    k < order.len() && order[k] == w && is_ready(places, k, p)
}

/// Puts a point behind the others, unless it is known to be in turn.
fn add_late(
    order: &[usize],
    places: &[usize],
    w: usize,
    p: &Point,
    late: &mut Vec<usize>,
) -> Result<(), AllocError>
    requires { w < length places.now }
    ensures kept { OnOk result
        ((v : ℕ) → Contains late.old.items v → Contains late.new.items v) }
    ensures placed { OnOk result
        (Contains late.new.items w ⊎ IsInTurn order.now places.now w p.now) }
{
    if is_in_turn(order, places, w, p) {
        return Ok(());
    }
    late.push(w)?;
    Ok(())
}

/// The points that are not known to be in turn.
fn late(
    alloc: Global,
    points: &[Point],
    order: &[usize],
    places: &[usize],
) -> Result<Vec<usize>, AllocError>
    requires { length places.now ≡ length points.now }
    ensures { IfOk result (λ late. (w : ℕ) (p : Point) → slice_get points.now w ≡ Some p
        → Contains late.items w ⊎ IsInTurn order.now places.now w p) }
{
    let mut late = Vec::new(alloc);
    for w in 0..points.len() {
        add_late(order, places, w, &points[w], &mut late)?;
    }
    Ok(late)
}

/// The visit of the points of a plan.
pub fn visit_of(alloc: Global, points: &[Point]) -> Result<Visit, AllocError>
    ensures { IfOk result (IsVisit points.now) }
{
    let order = order(alloc, points)?;
    let places = places(alloc, &order, points.len())?;
    let order = once_each(alloc, order, &places);
    let late = late(alloc, points, &order, &places)?;
    Ok(Visit {
        order,
        places,
        late,
    })
}
