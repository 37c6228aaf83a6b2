//! Which builds can be made at all, each after which others.

use crate::wish::{Wish, before_of};
use draft_search::{Ask, Clauses, FarmNumbers, Found, Search, at, put};
use std::alloc::{AllocError, Global};

/// A base chroot as a search sees it.
#[derive(Drop)]
pub struct Ground {
    pub base: usize,
    /// By name: the variant that it holds.
    pub held: Vec<usize>,
    /// What it holds, what is Essential first.
    pub keep: Vec<usize>,
}

/// The recipes in an order in which they can be built, and what each needs of the others.
#[derive(Drop)]
pub struct Order {
    alloc: Global,
    /// The recipes that are wanted, the base chroots of their lanes, the lane of each, and the one
    /// before it there.
    wanted: Vec<usize>,
    grounds: Vec<Ground>,
    lane_of: Vec<Option<usize>>,
    before: Vec<Option<usize>>,
    /// By recipe: whether it is through, and its place among those, from 1.
    is_through: Vec<bool>,
    turn: Vec<usize>,
    through: Vec<usize>,
    /// By recipe: what its chroot is to hold, and whose outputs are among that.
    install: Vec<Vec<usize>>,
    after: Vec<Vec<usize>>,
    /// By recipe: which of those that are wanted are tried again behind it.
    waiting: Vec<Vec<usize>>,
    is_queued: Vec<bool>,
    /// By recipe: the search was given up when it was tried last.
    gave_up: Vec<bool>,
}

/// How recipes are tried: of which farm and wish, and whether loosely.
#[derive(Clone, Copy)]
struct Tries<'a> {
    farm: &'a FarmNumbers,
    wish: &'a Wish,
    is_loose: bool,
}

/// So many empty lists.
fn empty_lists(alloc: Global, count: usize) -> Result<Vec<Vec<usize>>, AllocError> {
    let mut lists = Vec::new(alloc);
    for _ in 0..count {
        lists.push(Vec::new(alloc))?;
    }
    Ok(lists)
}

/// Those of variants that are Essential, then the others.
pub(crate) fn essential_first(
    alloc: Global,
    farm: &FarmNumbers,
    variants: &[usize],
) -> Result<Vec<usize>, AllocError> {
    let mut sorted = Vec::with_capacity(alloc, variants.len())?;
    for variant in variants {
        if farm.facts(*variant).is_essential {
            sorted.push(*variant)?;
        }
    }
    for variant in variants {
        if !farm.facts(*variant).is_essential {
            sorted.push(*variant)?;
        }
    }
    Ok(sorted)
}

fn ground_of(alloc: Global, farm: &FarmNumbers, base: usize) -> Result<Ground, AllocError> {
    let mut held = vec![in alloc; usize::MAX; farm.names()]?;
    for variant in farm.base(base) {
        put(&mut held, farm.name(*variant), *variant);
    }
    Ok(Ground {
        base,
        held,
        keep: essential_first(alloc, farm, farm.base(base))?,
    })
}

/// The base chroots of lanes, each once.
fn grounds_of(alloc: Global, farm: &FarmNumbers, wish: &Wish) -> Result<Vec<Ground>, AllocError> {
    let mut grounds: Vec<Ground> = Vec::new(alloc);
    for lane in &wish.lanes {
        if !grounds.iter().any(|ground| ground.base == lane.base) {
            grounds.push(ground_of(alloc, farm, lane.base)?)?;
        }
    }
    Ok(grounds)
}

impl Order {
    /// Nothing is tried yet.
    fn new(alloc: Global, farm: &FarmNumbers, wish: &Wish) -> Result<Order, AllocError> {
        let count = farm.recipes();
        let wanted = wish.recipes(alloc)?;
        let number = wanted.len();
        Ok(Order {
            alloc,
            wanted,
            grounds: grounds_of(alloc, farm, wish)?,
            lane_of: wish.lane_of(alloc, farm)?,
            before: before_of(alloc, farm, wish)?,
            is_through: vec![in alloc; false; count]?,
            turn: vec![in alloc; 0; count]?,
            through: Vec::new(alloc),
            install: empty_lists(alloc, count)?,
            after: empty_lists(alloc, count)?,
            waiting: empty_lists(alloc, count)?,
            is_queued: vec![in alloc; true; number]?,
            gave_up: vec![in alloc; false; count]?,
        })
    }

    /// The recipes that are wanted.
    pub fn wanted(&self) -> &[usize] {
        &self.wanted
    }

    /// The recipes that can be built, in an order in which they can.
    pub fn through(&self) -> &[usize] {
        &self.through
    }

    /// Tells whether a recipe can be built.
    pub fn is_through(&self, recipe: usize) -> bool {
        at(&self.is_through, recipe, false)
    }

    /// Tells whether it is not known if a recipe can be built, since the search was given up.
    pub fn gave_up(&self, recipe: usize) -> bool {
        at(&self.gave_up, recipe, false)
    }

    /// The place of a recipe among those that can be built, from 1.
    pub fn turn(&self, recipe: usize) -> usize {
        at(&self.turn, recipe, 0)
    }

    /// The recipe that stands before one in its lane.
    pub fn before(&self, recipe: usize) -> Option<usize> {
        at(&self.before, recipe, None)
    }

    /// What the chroot is to hold for a recipe.
    pub fn install(&self, recipe: usize) -> &[usize] {
        match self.install.get(recipe) {
            Some(install) => install,
            None => &[],
        }
    }

    /// The recipes whose outputs are installed for a recipe.
    pub fn after(&self, recipe: usize) -> &[usize] {
        match self.after.get(recipe) {
            Some(after) => after,
            None => &[],
        }
    }

    /// The first of those that are to be tried, taken out of the queue.
    fn take_next(&mut self) -> Option<usize> {
        for place in 0..self.is_queued.len() {
            if at(&self.is_queued, place, false) {
                put(&mut self.is_queued, place, false);
                return Some(place);
            }
        }
        None
    }

    /// Has one that is wanted tried again behind a recipe.
    fn wait_behind(&mut self, recipe: usize, place: usize) -> Result<(), AllocError> {
        match self.waiting.get_mut(recipe) {
            Some(waiting) => {
                if !waiting.contains(&place) {
                    waiting.push(place)?;
                }
            }
            None => {}
        }
        Ok(())
    }

    /// The base chroots of the lanes, each once.
    pub fn grounds(&self) -> &[Ground] {
        &self.grounds
    }

    /// Tells whether a recipe may be built over a base chroot.
    pub fn is_over(&self, wish: &Wish, recipe: usize, base: usize) -> bool {
        match at(&self.lane_of, recipe, None) {
            Some(lane) => wish.base(lane) == base,
            None => true,
        }
    }

    /// Has one that is wanted tried again behind each recipe that gives something which a search
    /// looked at and could not have.
    fn wait_for_missing(
        &mut self,
        farm: &FarmNumbers,
        search: &Search,
        place: usize,
    ) -> Result<(), AllocError> {
        for variant in search.missing() {
            match farm.facts(*variant).giver {
                Some((recipe, _)) => self.wait_behind(recipe, place)?,
                None => {}
            }
        }
        Ok(())
    }

    /// What is asked of a search for a recipe over a base chroot.
    fn ask<'x>(
        &'x self,
        tries: Tries<'x>,
        recipe: usize,
        ground: &'x Ground,
        more: &'x Clauses,
    ) -> Ask<'x> {
        Ask {
            farm: tries.farm,
            held: &ground.held,
            built: &self.is_through,
            turn: &self.turn,
            known: None,
            keep: &ground.keep,
            needs: tries.farm.needs(recipe),
            clashes: tries.farm.clashes(recipe),
            more,
            is_loose: tries.is_loose,
        }
    }

    /// Looks for a chroot for a recipe over a base chroot, and for what helps it there.
    fn look(
        &self,
        tries: Tries<'_>,
        search: &mut Search,
        recipe: usize,
        ground: &Ground,
    ) -> Result<(Found, Vec<usize>), AllocError> {
        let more = Clauses::new(self.alloc);
        let ask = self.ask(tries, recipe, ground, &more);
        let found = search.find(ask)?;
        let helpers = match &found {
            Found::Held(found) => ask.helpers(self.alloc, found)?,
            Found::Nothing | Found::OutOfFuel => Vec::new(self.alloc),
        };
        Ok((found, helpers))
    }

    /// Adds the recipes that give variants which a base chroot does not hold, each once.
    fn push_givers(
        &self,
        farm: &FarmNumbers,
        ground: usize,
        variants: &[usize],
        givers: &mut Vec<usize>,
    ) -> Result<(), AllocError> {
        for variant in variants {
            match farm.facts(*variant).giver {
                Some((giver, _)) => {
                    if !self.is_in_ground(farm, ground, *variant) && !givers.contains(&giver) {
                        givers.push(giver)?;
                    }
                }
                None => {}
            }
        }
        Ok(())
    }

    /// A recipe is through: what it gives may be installed from now on.
    fn pass(
        &mut self,
        recipe: usize,
        found: Vec<usize>,
        after: Vec<usize>,
    ) -> Result<(), AllocError> {
        set_list(&mut self.after, recipe, after);
        set_list(&mut self.install, recipe, found);
        put(&mut self.is_through, recipe, true);
        self.through.push(recipe)?;
        put(&mut self.turn, recipe, self.through.len());
        self.queue_waiting(recipe)
    }

    fn is_in_ground(&self, farm: &FarmNumbers, ground: usize, variant: usize) -> bool {
        match self.grounds.get(ground) {
            Some(ground) => at(&ground.held, farm.name(variant), usize::MAX) == variant,
            None => false,
        }
    }

    /// Has tried again what waits for a recipe.
    fn queue_waiting(&mut self, recipe: usize) -> Result<(), AllocError> {
        let waiting = match self.waiting.get(recipe) {
            Some(waiting) => waiting.clone()?,
            None => return Ok(()),
        };
        for place in &waiting {
            let other = at(&self.wanted, *place, usize::MAX);
            if !self.is_through(other) {
                put(&mut self.is_queued, *place, true);
            }
        }
        Ok(())
    }

    /// Looks for a chroot for one that is wanted over a base chroot. Tells what that came to, and
    /// has it through where there is one.
    fn try_ground(
        &mut self,
        tries: Tries<'_>,
        search: &mut Search,
        place: usize,
        number: usize,
    ) -> Result<bool, AllocError> {
        let recipe = at(&self.wanted, place, usize::MAX);
        let (found, helpers) = match self.grounds.get(number) {
            Some(ground) => {
                if !self.is_over(tries.wish, recipe, ground.base) {
                    return Ok(false);
                }
                self.look(tries, search, recipe, ground)?
            }
            None => return Ok(false),
        };
        match found {
            Found::Held(found) => {
                let mut after: Vec<usize> = Vec::new(self.alloc);
                self.push_givers(tries.farm, number, &found, &mut after)?;
                self.push_givers(tries.farm, number, &helpers, &mut after)?;
                self.pass(recipe, found, after)?;
                return Ok(true);
            }
            Found::OutOfFuel => put(&mut self.gave_up, recipe, true),
            Found::Nothing => {}
        }
        self.wait_for_missing(tries.farm, search, place)?;
        Ok(false)
    }

    /// Tries one that is wanted over each of its base chroots. Tells whether it is through.
    fn try_recipe(
        &mut self,
        tries: Tries<'_>,
        search: &mut Search,
        place: usize,
    ) -> Result<bool, AllocError> {
        let recipe = at(&self.wanted, place, usize::MAX);
        put(&mut self.gave_up, recipe, false);
        for number in 0..self.grounds.len() {
            if self.try_ground(tries, search, place, number)? {
                put(&mut self.gave_up, recipe, false);
                return Ok(true);
            }
        }
        Ok(false)
    }

    /// The one before a recipe in its lane, if that is not through.
    fn held_up_by(&self, recipe: usize) -> Option<usize> {
        match self.before(recipe) {
            Some(earlier) if !self.is_through(earlier) => Some(earlier),
            _ => None,
        }
    }

    /// Tries all in the queue, each again once one is built that gives what was missing.
    fn try_queued(&mut self, tries: Tries<'_>, search: &mut Search) -> Result<(), AllocError> {
        let count = self.wanted.len().saturating_add(1);
        for _ in 0..count.saturating_mul(count) {
            let Some(place) = self.take_next() else {
                break;
            };
            match self.held_up_by(at(&self.wanted, place, usize::MAX)) {
                Some(earlier) => self.wait_behind(earlier, place)?,
                None => {
                    let _ = self.try_recipe(tries, search, place)?;
                }
            }
        }
        Ok(())
    }

    /// Has the first one through for which there is a chroot that is asked for loosely; `false` where
    /// there is none.
    fn try_loosely(&mut self, tries: Tries<'_>, search: &mut Search) -> Result<bool, AllocError> {
        let loosely = Tries {
            is_loose: true,
            ..tries
        };
        for place in 0..self.wanted.len() {
            let recipe = at(&self.wanted, place, usize::MAX);
            if !self.is_through(recipe)
                && self.held_up_by(recipe).is_none()
                && self.try_recipe(loosely, search, place)?
            {
                return Ok(true);
            }
        }
        Ok(false)
    }

    /// Finds in which order the recipes that are wanted can be built, with as few waits as may be:
    /// loosely only where nothing else goes on.
    pub fn find(
        alloc: Global,
        farm: &FarmNumbers,
        search: &mut Search,
        wish: &Wish,
    ) -> Result<Order, AllocError> {
        let mut order = Order::new(alloc, farm, wish)?;
        let tries = Tries {
            farm,
            wish,
            is_loose: false,
        };
        for _ in 0..=order.wanted.len() {
            order.try_queued(tries, search)?;
            if !order.try_loosely(tries, search)? {
                break;
            }
        }
        Ok(order)
    }

    /// The recipes that are not through.
    pub fn stuck(&self, alloc: Global) -> Result<Vec<usize>, AllocError> {
        let mut stuck = Vec::new(alloc);
        for recipe in &self.wanted {
            if !self.is_through(*recipe) {
                stuck.push(*recipe)?;
            }
        }
        Ok(stuck)
    }
}

/// Puts a list in the place of the one of a number.
fn set_list(lists: &mut Vec<Vec<usize>>, number: usize, list: Vec<usize>) {
    match lists.get_mut(number) {
        Some(place) => *place = list,
        None => {}
    }
}
