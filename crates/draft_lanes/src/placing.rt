//! Builds in lanes: which lane makes which build, when, and all lines that it takes.

use crate::install::{Build, install};
use crate::levels::{build_cost, lane_cost, levels};
use crate::order::Order;
use crate::refusal::Refusal;
use crate::watch::Watch;
use crate::wish::Wish;
use crate::{Lane, Published};
use draft_search::{FarmNumbers, Search, at, put};
use std::alloc::{AllocError, Global};

/// What the placing of builds comes to.
#[derive(Drop)]
pub enum Placed {
    /// All lanes, in their order, and what they published.
    Lanes(Vec<Lane>, Published),
    /// A recipe that no lane takes.
    Refused(Refusal),
    /// No plan, for another reason.
    Nothing,
}

/// What is looked at while builds are placed.
#[derive(Clone, Copy)]
struct Given<'a> {
    alloc: Global,
    farm: &'a FarmNumbers,
    wish: &'a Wish,
    order: &'a Order,
}

/// A build that can begin: when, and how it stands among those that can.
#[derive(Clone, Copy, Drop)]
struct Ready {
    recipe: usize,
    /// When all that it comes after is published, and when it can begin at the soonest.
    soonest: u64,
    begin: u64,
    level: u64,
    turn: usize,
}

impl Ready {
    /// Tells whether this one goes first: it can begin sooner, or has more behind it.
    fn is_before(&self, other: &Ready) -> bool {
        if self.begin != other.begin {
            return self.begin < other.begin;
        }
        if self.level != other.level {
            return self.level > other.level;
        }
        self.turn < other.turn
    }
}

/// The lanes while they are written.
#[derive(Drop)]
struct Placing {
    lanes: Vec<Lane>,
    published: Published,
    levels: Vec<u64>,
    /// By recipe: its lane, if one is named.
    lane_of: Vec<Option<usize>>,
    /// By recipe: it is placed; after how many others no lane took it; and why.
    is_placed: Vec<bool>,
    failed_at: Vec<Option<usize>>,
    failed: Vec<Refusal>,
    placed: usize,
    /// By lane: how many of its builds are placed.
    begun: Vec<usize>,
}

fn new_lanes(given: Given<'_>) -> Result<Vec<Lane>, AllocError> {
    let mut lanes = Vec::new(given.alloc);
    for wish in &given.wish.lanes {
        lanes.push(Lane::new(given.alloc, given.farm, wish.base)?)?;
    }
    Ok(lanes)
}

impl Placing {
    fn new(given: Given<'_>) -> Result<Placing, AllocError> {
        let alloc = given.alloc;
        let count = given.farm.recipes();
        let mut failed_at = Vec::new(alloc);
        for _ in 0..count {
            failed_at.push(None)?;
        }
        Ok(Placing {
            lanes: new_lanes(given)?,
            published: Published::new(alloc, given.farm, given.order.through())?,
            levels: levels(alloc, given.farm, given.order)?,
            lane_of: given.wish.lane_of(alloc, given.farm)?,
            is_placed: vec![in alloc; false; count]?,
            failed_at,
            failed: Vec::new(alloc),
            placed: 0,
            begun: vec![in alloc; 0; given.wish.lanes.len()]?,
        })
    }

    /// When a lane comes to its end.
    fn time(&self, lane: usize) -> u64 {
        match self.lanes.get(lane) {
            Some(lane) => lane.time(),
            None => u64::MAX,
        }
    }

    /// When the lanes that may build a recipe come to an end at the soonest.
    fn free_time(&self, recipe: usize) -> u64 {
        match at(&self.lane_of, recipe, None) {
            Some(lane) => self.time(lane),
            None => {
                let mut soonest = u64::MAX;
                for lane in &self.lanes {
                    soonest = soonest.min(lane.time());
                }
                soonest
            }
        }
    }

    /// Tells when a recipe can begin, if all that it comes after is placed, and it was not refused
    /// since the last build.
    fn ready(&self, given: Given<'_>, recipe: usize) -> Option<Ready> {
        if at(&self.is_placed, recipe, true)
            || at(&self.failed_at, recipe, None) == Some(self.placed)
        {
            return None;
        }
        let mut soonest = 0u64;
        for earlier in given.order.after(recipe) {
            if !at(&self.is_placed, *earlier, false) {
                return None;
            }
            soonest = soonest.max(self.published.time(*earlier));
        }
        Some(Ready {
            recipe,
            soonest,
            begin: soonest.max(self.free_time(recipe)),
            level: at(&self.levels, recipe, 0),
            turn: given.order.turn(recipe),
        })
    }

    /// The one of two that goes first.
    fn first_of(&self, best: Option<Ready>, other: Option<Ready>) -> Option<Ready> {
        match (best, other) {
            (Some(best), Some(other)) => {
                if other.is_before(&best) {
                    Some(other)
                } else {
                    Some(best)
                }
            }
            (None, other) => other,
            (best, None) => best,
        }
    }

    /// The build that is placed next.
    fn next(&self, given: Given<'_>) -> Option<Ready> {
        let mut best = None;
        for recipe in &given.wish.free {
            best = self.first_of(best, self.ready(given, *recipe));
        }
        for lane in 0..given.wish.lanes.len() {
            let builds = given.wish.builds(lane);
            match builds.get(at(&self.begun, lane, usize::MAX)) {
                Some(recipe) => best = self.first_of(best, self.ready(given, *recipe)),
                None => {}
            }
        }
        best
    }

    /// The lanes that may take a build, the one in which it ends first at the beginning.
    fn lanes_for(&self, given: Given<'_>, ready: Ready) -> Result<Vec<usize>, AllocError> {
        let mut lanes = Vec::new(given.alloc);
        match at(&self.lane_of, ready.recipe, None) {
            Some(lane) => lanes.push(lane)?,
            None => {
                let mut ends = Vec::new(given.alloc);
                for (number, lane) in self.lanes.iter().enumerate() {
                    let cost = lane_cost(given.farm, given.order, ready.recipe, lane);
                    let end = lane.time().max(ready.soonest).saturating_add(cost);
                    ends.push((end, number))?;
                }
                ends.sort()?;
                for (_, number) in &ends {
                    lanes.push(*number)?;
                }
            }
        }
        Ok(lanes)
    }

    /// Why a lane that holds what a build needs does not take it: its budget, where the lane was not
    /// named.
    fn too_much(&self, given: Given<'_>, number: usize, recipe: usize) -> Option<Refusal> {
        let lane = self.lanes.get(number)?;
        if at(&self.lane_of, recipe, None).is_none() {
            let cost = lane.cost().saturating_add(build_cost(given.farm, recipe));
            match given.wish.budget(number) {
                Some(budget) => {
                    if cost > budget {
                        return Some(Refusal::OverBudget {
                            recipe,
                            lane: number,
                            cost,
                        });
                    }
                }
                None => {}
            }
        }
        None
    }

    /// Installs what a build needs in a lane.
    fn install_in(
        &mut self,
        given: Given<'_>,
        search: &mut Search,
        recipe: usize,
        number: usize,
    ) -> Result<Option<Refusal>, AllocError> {
        let build = Build {
            farm: given.farm,
            published: &self.published,
            recipe,
            lane: number,
        };
        match self.lanes.get_mut(number) {
            Some(lane) => install(search, build, lane),
            None => Ok(Some(Refusal::NoPlace {
                recipe,
                lane: number,
            })),
        }
    }

    /// Adds a build to a lane. Gives why the lane does not take it; it is as it was then.
    fn build_in(
        &mut self,
        given: Given<'_>,
        search: &mut Search,
        recipe: usize,
        number: usize,
    ) -> Result<Option<Refusal>, AllocError> {
        let saved = match self.lanes.get(number) {
            Some(lane) => lane.save()?,
            None => {
                return Ok(Some(Refusal::NoPlace {
                    recipe,
                    lane: number,
                }));
            }
        };
        let refusal = match self.install_in(given, search, recipe, number)? {
            Some(refusal) => Some(refusal),
            None => self.too_much(given, number, recipe),
        };
        match self.lanes.get_mut(number) {
            Some(lane) => {
                if refusal.is_some() {
                    lane.go_back(saved);
                } else {
                    lane.build(given.farm, recipe, &mut self.published)?;
                }
            }
            None => {}
        }
        Ok(refusal)
    }

    /// Adds a build to the first lane that takes it. Gives the first refusal where none does.
    fn build_somewhere(
        &mut self,
        given: Given<'_>,
        search: &mut Search,
        ready: Ready,
    ) -> Result<Option<Refusal>, AllocError> {
        let mut first = None;
        let lanes = self.lanes_for(given, ready)?;
        for lane in &lanes {
            match self.build_in(given, search, ready.recipe, *lane)? {
                Some(refusal) => {
                    if first.is_none() {
                        first = Some(refusal);
                    }
                }
                None => return Ok(None),
            }
        }
        Ok(first)
    }

    /// Writes down that a build is placed.
    fn note_placed(&mut self, recipe: usize) {
        put(&mut self.is_placed, recipe, true);
        self.placed = self.placed.saturating_add(1);
        match at(&self.lane_of, recipe, None) {
            Some(lane) => {
                let begun = at(&self.begun, lane, 0).saturating_add(1);
                put(&mut self.begun, lane, begun);
            }
            None => {}
        }
    }

    /// Of the recipes that no lane took, the refusal of the one that can be built first.
    fn first_failure(self, order: &Order) -> Option<Refusal> {
        let Placing {
            failed,
            is_placed,
            ..
        } = self;
        let mut first: Option<Refusal> = None;
        for refusal in failed {
            if at(&is_placed, refusal.recipe(), true) {
                continue;
            }
            let is_first = match &first {
                Some(other) => order.turn(refusal.recipe()) <= order.turn(other.recipe()),
                None => true,
            };
            if is_first {
                first = Some(refusal);
            }
        }
        first
    }

    /// Places one build. Gives a refusal that no further build can lift.
    fn place_one(
        &mut self,
        given: Given<'_>,
        search: &mut Search,
        ready: Ready,
    ) -> Result<Option<Refusal>, AllocError> {
        match self.build_somewhere(given, search, ready)? {
            None => {
                self.note_placed(ready.recipe);
                Ok(None)
            }
            Some(refusal) => {
                if !refusal.may_pass() {
                    return Ok(Some(refusal));
                }
                put(&mut self.failed_at, ready.recipe, Some(self.placed));
                self.failed.push(refusal)?;
                Ok(None)
            }
        }
    }
}

/// Places all builds of an order: of those that can begin soonest the one with the most work behind
/// it, in the lane in which it ends first. A build is placed behind all that it waits for, so waits
/// are never circular. Meanwhile somebody hears how far that has come.
pub fn place<W: Watch>(
    alloc: Global,
    farm: &FarmNumbers,
    search: &mut Search,
    wish: &Wish,
    order: &Order,
    watch: &W,
) -> Result<Placed, AllocError> {
    let given = Given {
        alloc,
        farm,
        wish,
        order,
    };
    let mut placing = Placing::new(given)?;
    let count = order.through().len().saturating_add(1);
    for _ in 0..count.saturating_mul(count) {
        watch.places(placing.placed, order.through().len());
        match placing.next(given) {
            Some(ready) => match placing.place_one(given, search, ready)? {
                Some(refusal) => return Ok(Placed::Refused(refusal)),
                None => {}
            },
            None => break,
        }
    }
    finish(placing, order)
}

/// The lanes where all builds are placed.
fn finish(placing: Placing, order: &Order) -> Result<Placed, AllocError> {
    if placing.placed == order.through().len() {
        let Placing {
            lanes,
            published,
            ..
        } = placing;
        return Ok(Placed::Lanes(lanes, published));
    }
    match placing.first_failure(order) {
        Some(refusal) => Ok(Placed::Refused(refusal)),
        None => Ok(Placed::Nothing),
    }
}
