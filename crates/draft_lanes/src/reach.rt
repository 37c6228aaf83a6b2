//! The way from what a chroot holds to what it is to hold.

use crate::chroot::NONE;
use crate::lane::{Lane, Step};
use crate::marks::Marks;
use crate::published::Published;
use crate::tests_of::Hindrance;
use draft_search::{FarmNumbers, at, put};
use std::alloc::AllocError;

/// Why a chroot does not come to hold what is wanted.
#[derive(Drop)]
pub enum Stop {
    /// No order was found. These are not configured, and these others would meet entries of theirs
    /// that nothing configured meets.
    NoOrder {
        stuck: Vec<usize>,
        others: Vec<usize>,
    },
    /// This variant is Essential, and would have to be removed.
    Stays(usize),
    /// No wait tells for sure that this variant is there.
    NoWait(usize),
    /// The chroot would have to hold so many KiB once this variant is unpacked.
    Full {
        wanted: u64,
        variant: usize,
    },
}

/// What a chroot is to hold: the variants in the order of their numbers, and their names.
#[derive(Clone, Copy)]
struct Goal<'a> {
    variants: &'a [usize],
    names: &'a Marks,
}

/// What one turn of a lane came to.
enum Turn {
    /// Something was done.
    Moved,
    /// Nothing is left to unpack.
    Done,
    Stopped(Stop),
}

impl Lane {
    /// What is wanted and not there, in its order.
    fn lacking(&self, farm: &FarmNumbers, target: &[usize]) -> Result<Vec<usize>, AllocError> {
        let mut lacking = Vec::new(self.alloc);
        for variant in target {
            if !self.chroot.has(farm, *variant) {
                lacking.push(*variant)?;
            }
        }
        Ok(lacking)
    }

    /// Unpacks all that can be, in its order, or makes room for one; `false` where that is nothing.
    fn unpack_all(
        &mut self,
        farm: &FarmNumbers,
        todo: &[usize],
        wanted: &Marks,
    ) -> Result<Result<bool, Stop>, AllocError> {
        let mut is_moved = false;
        for variant in todo {
            if self.is_sure(farm, *variant) {
                match self.hindrance(farm, *variant)? {
                    Hindrance::Nothing => {
                        let size = self.used().saturating_add(farm.facts(*variant).size);
                        if size > self.capacity {
                            return self.room_or_full(farm, *variant, wanted, size);
                        }
                        self.unpack(farm, *variant)?;
                        is_moved = true;
                    }
                    Hindrance::PreDepends | Hindrance::Names(_) => {}
                }
            }
        }
        Ok(Ok(is_moved))
    }

    /// Makes room for a variant with which the chroot would hold so many KiB, or tells that it is
    /// full.
    fn room_or_full(
        &mut self,
        farm: &FarmNumbers,
        variant: usize,
        names: &Marks,
        wanted: u64,
    ) -> Result<Result<bool, Stop>, AllocError> {
        if self.make_room(farm, variant, names)? {
            return Ok(Ok(true));
        }
        Ok(Err(Stop::Full { wanted, variant }))
    }

    /// Those that are not there for sure, the one that was published last at the end.
    fn last_unsure(
        &self,
        farm: &FarmNumbers,
        published: &Published,
        todo: &[usize],
    ) -> Option<(usize, usize)> {
        let mut last: Option<(usize, usize)> = None;
        let mut highest = (0, 0);
        for variant in todo {
            if !self.is_sure(farm, *variant) {
                match farm.facts(*variant).giver {
                    Some((recipe, place)) => {
                        let turn = (at(published.turns(), recipe, 0), place);
                        if last.is_none() || turn > highest {
                            last = Some((recipe, place));
                            highest = turn;
                        }
                    }
                    None => {}
                }
            }
        }
        last
    }

    /// The first output of a recipe, from a place on, for which a wait tells surely.
    fn sure_output(
        farm: &FarmNumbers,
        published: &Published,
        recipe: usize,
        from: usize,
    ) -> Option<(usize, usize)> {
        for (place, output) in farm.outputs(recipe).iter().enumerate() {
            if place >= from {
                let mut is_sure = true;
                for twin in farm.twins(*output) {
                    if published.may_come(farm, *twin) {
                        is_sure = false;
                    }
                }
                if is_sure {
                    return Some((place, *output));
                }
            }
        }
        None
    }

    /// Knows what the lane that published a recipe knew, and outputs of it.
    fn learn(&mut self, published: &Published, recipe: usize, outputs: usize) {
        for (other, count) in published.known(recipe).iter().enumerate() {
            let known = at(&self.known, other, 0).max(*count);
            put(&mut self.known, other, known);
        }
        let known = at(&self.known, recipe, 0).max(outputs);
        put(&mut self.known, recipe, known);
        let time = published.time(recipe);
        if time > self.time {
            self.time = time;
            self.cause = Some(recipe);
        }
    }

    /// Waits until all is there for sure: first for what is published last, since its lane knew of
    /// others.
    fn wait_for(
        &mut self,
        farm: &FarmNumbers,
        published: &Published,
        todo: &[usize],
    ) -> Result<Option<Stop>, AllocError> {
        for _ in 0..=todo.len() {
            let Some((recipe, place)) = self.last_unsure(farm, published, todo) else {
                return Ok(None);
            };
            match Lane::sure_output(farm, published, recipe, place) {
                Some((sure, output)) => {
                    self.say(Step::Wait(output), 0)?;
                    self.learn(published, recipe, sure.saturating_add(1));
                }
                None => return Ok(Some(Stop::NoWait(at(farm.outputs(recipe), place, NONE)))),
            }
        }
        Ok(None)
    }

    /// One turn: unpacks, or waits, or configures, or takes something out of the way.
    fn turn(
        &mut self,
        farm: &FarmNumbers,
        published: &Published,
        goal: Goal<'_>,
        clearings: &mut usize,
    ) -> Result<Turn, AllocError> {
        let todo = self.lacking(farm, goal.variants)?;
        if todo.is_empty() {
            return Ok(Turn::Done);
        }
        match self.unpack_all(farm, &todo, goal.names)? {
            Ok(true) => return Ok(Turn::Moved),
            Ok(false) => {}
            Err(stop) => return Ok(Turn::Stopped(stop)),
        }
        if self.last_unsure(farm, published, &todo).is_some() {
            return match self.wait_for(farm, published, &todo)? {
                Some(stop) => Ok(Turn::Stopped(stop)),
                None => Ok(Turn::Moved),
            };
        }
        if self.configure_all(farm)? {
            return Ok(Turn::Moved);
        }
        if *clearings > 0 && self.clear_one(farm, &todo)? {
            *clearings = clearings.saturating_sub(1);
            return Ok(Turn::Moved);
        }
        Ok(Turn::Stopped(self.no_order(farm, goal.variants)?))
    }

    /// That no order was found.
    fn no_order(&self, farm: &FarmNumbers, target: &[usize]) -> Result<Stop, AllocError> {
        let mut stuck = Vec::new(self.alloc);
        for variant in target {
            if !self.chroot.has_configured(farm, *variant) {
                stuck.push(*variant)?;
            }
        }
        let mut others = Vec::new(self.alloc);
        for variant in &stuck {
            for entry in farm.entries_of(*variant) {
                if !self.is_met(farm, *entry) {
                    for other in farm.meets(*entry) {
                        if !stuck.contains(other) && !others.contains(other) {
                            others.push(*other)?;
                        }
                    }
                }
            }
        }
        Ok(Stop::NoOrder { stuck, others })
    }

    /// The names of a list of variants.
    fn names_of(&self, farm: &FarmNumbers, variants: &[usize]) -> Result<Marks, AllocError> {
        let mut names = Marks::new(self.alloc, self.chroot.names())?;
        for variant in variants {
            names.add(farm.name(*variant));
        }
        Ok(names)
    }

    /// What is there and not wanted.
    fn unwanted(&self, wanted: &Marks) -> Result<Marks, AllocError> {
        let mut unwanted = Marks::new(self.alloc, self.chroot.names())?;
        for name in 0..self.chroot.names() {
            if self.chroot.is_there(name) && !wanted.has(name) {
                unwanted.add(name);
            }
        }
        Ok(unwanted)
    }

    /// What is there, Essential and not wanted.
    fn staying(&self, farm: &FarmNumbers, wanted: &Marks) -> Option<usize> {
        for name in 0..self.chroot.names() {
            let held = self.chroot.held(name);
            if held != NONE && !wanted.has(name) && farm.facts(held).is_essential {
                return Some(held);
            }
        }
        None
    }

    /// Takes out of a set one that meets an entry which nothing outside of it meets. Gives it.
    fn keep_one(&self, farm: &FarmNumbers, entry: usize, gone: &mut Marks) -> Option<usize> {
        for variant in farm.meets(entry) {
            if self.chroot.has(farm, *variant) && !gone.has(farm.name(*variant)) {
                return None;
            }
        }
        for variant in farm.meets(entry) {
            let name = farm.name(*variant);
            if self.chroot.has(farm, *variant) && gone.has(name) {
                gone.take_out(name);
                return Some(*variant);
            }
        }
        None
    }

    /// Takes out of a set what those outside of it need as they are now.
    fn keep_needed(&self, farm: &FarmNumbers, gone: &mut Marks) -> Result<(), AllocError> {
        let mut todo = Vec::new(self.alloc);
        for name in 0..self.chroot.names() {
            if self.chroot.is_there(name) && !gone.has(name) {
                todo.push(self.chroot.held(name))?;
            }
        }
        for _ in 0..=self.chroot.names() {
            let Some(variant) = todo.pop() else {
                break;
            };
            for entry in farm.entries_of(variant) {
                match self.keep_one(farm, *entry, gone) {
                    Some(kept) => todo.push(kept)?,
                    None => {}
                }
            }
        }
        Ok(())
    }

    /// Removes what is not wanted, but for what the others still need.
    fn remove_first(&mut self, farm: &FarmNumbers, wanted: &Marks) -> Result<(), AllocError> {
        let mut gone = self.unwanted(wanted)?;
        if gone.is_empty() {
            return Ok(());
        }
        self.keep_needed(farm, &mut gone)?;
        if gone.is_empty() {
            return Ok(());
        }
        self.remove_set(farm, &gone)
    }

    /// Configures the rest, and removes what could not go before.
    fn finish(
        &mut self,
        farm: &FarmNumbers,
        target: &[usize],
        wanted: &Marks,
    ) -> Result<Option<Stop>, AllocError> {
        self.configure_on(farm)?;
        let rest = self.unwanted(wanted)?;
        if !rest.is_empty() {
            self.take_away(farm, &rest)?;
            self.configure_on(farm)?;
        }
        for name in 0..self.chroot.names() {
            if self.chroot.is_unpacked(name) {
                return Ok(Some(self.no_order(farm, target)?));
            }
        }
        Ok(None)
    }

    /// Goes from a settled chroot to the settled one that holds exactly these variants, in the order
    /// of their numbers: what is there for sure is unpacked first, then it waits for the rest. Tells
    /// why it cannot; some lines are written then, and the lane is to go back.
    pub fn reach(
        &mut self,
        farm: &FarmNumbers,
        published: &Published,
        target: &[usize],
    ) -> Result<Option<Stop>, AllocError> {
        let wanted = self.names_of(farm, target)?;
        match self.staying(farm, &wanted) {
            Some(variant) => return Ok(Some(Stop::Stays(variant))),
            None => {}
        }
        self.remove_first(farm, &wanted)?;
        let goal = Goal {
            variants: target,
            names: &wanted,
        };
        let mut clearings = target.len().saturating_add(1);
        let size = target.len().saturating_add(2);
        for _ in 0..size.saturating_mul(size.saturating_mul(3)) {
            match self.turn(farm, published, goal, &mut clearings)? {
                Turn::Moved => {}
                Turn::Done => return self.finish(farm, target, &wanted),
                Turn::Stopped(stop) => return Ok(Some(stop)),
            }
        }
        Ok(Some(self.no_order(farm, target)?))
    }
}
