//! What is wanted of a plan.

use draft_search::{FarmNumbers, at, put};
use std::alloc::{AllocError, Global};

/// A lane that is wanted: its base chroot, what it may spend, and its builds in order.
#[derive(Drop)]
pub struct LaneWish {
    pub base: usize,
    /// In steps; nothing where the lane may spend what it takes.
    pub budget: Option<u64>,
    pub builds: Vec<usize>,
}

/// The lanes that are wanted, and the recipes that any of them may build.
#[derive(Drop)]
pub struct Wish {
    pub lanes: Vec<LaneWish>,
    pub free: Vec<usize>,
}

impl Wish {
    /// The base chroot of a lane; another number past the last one.
    pub fn base(&self, lane: usize) -> usize {
        match self.lanes.get(lane) {
            Some(wish) => wish.base,
            None => usize::MAX,
        }
    }

    /// What a lane may spend, if that is limited.
    pub fn budget(&self, lane: usize) -> Option<u64> {
        match self.lanes.get(lane) {
            Some(wish) => wish.budget,
            None => None,
        }
    }

    /// The builds of a lane.
    pub fn builds(&self, lane: usize) -> &[usize] {
        match self.lanes.get(lane) {
            Some(wish) => &wish.builds,
            None => &[],
        }
    }

    /// All recipes that are wanted, lane by lane, then those that any lane may build.
    pub fn recipes(&self, alloc: Global) -> Result<Vec<usize>, AllocError> {
        let mut recipes = Vec::new(alloc);
        for lane in &self.lanes {
            recipes.extend_from_slice(&lane.builds)?;
        }
        recipes.extend_from_slice(&self.free)?;
        Ok(recipes)
    }

    /// By recipe: the lane that is to build it, if one is named.
    pub fn lane_of(
        &self,
        alloc: Global,
        farm: &FarmNumbers,
    ) -> Result<Vec<Option<usize>>, AllocError> {
        let mut lane_of = vec![in alloc; None; farm.recipes()]?;
        for (number, lane) in self.lanes.iter().enumerate() {
            for recipe in &lane.builds {
                put(&mut lane_of, *recipe, Some(number));
            }
        }
        Ok(lane_of)
    }

    /// The wish without some recipes.
    pub fn without(&self, alloc: Global, left: &[usize]) -> Result<Wish, AllocError> {
        let mut lanes = Vec::new(alloc);
        for lane in &self.lanes {
            lanes.push(LaneWish {
                base: lane.base,
                budget: lane.budget,
                builds: others(alloc, &lane.builds, left)?,
            })?;
        }
        Ok(Wish {
            lanes,
            free: others(alloc, &self.free, left)?,
        })
    }
}

/// Those of a list that are not in another.
fn others(alloc: Global, recipes: &[usize], left: &[usize]) -> Result<Vec<usize>, AllocError> {
    let mut others = Vec::new(alloc);
    for recipe in recipes {
        if !left.contains(recipe) {
            others.push(*recipe)?;
        }
    }
    Ok(others)
}

/// By recipe: the one that stands before it in its lane, if one does.
pub fn before_of(
    alloc: Global,
    farm: &FarmNumbers,
    wish: &Wish,
) -> Result<Vec<Option<usize>>, AllocError> {
    let mut before = vec![in alloc; None; farm.recipes()]?;
    for lane in &wish.lanes {
        for place in 1..lane.builds.len() {
            let earlier = at(&lane.builds, place - 1, usize::MAX);
            put(
                &mut before,
                at(&lane.builds, place, usize::MAX),
                Some(earlier),
            );
        }
    }
    Ok(before)
}
