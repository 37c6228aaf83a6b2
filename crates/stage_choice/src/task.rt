//! What is asked: builds, who of them needs a thing, and the end.

use crate::StagedBuild;
use std::alloc::{AllocError, Global};

/// By thing: the builds that need it.
#[derive(Drop)]
pub(crate) struct Askers {
    lists: Vec<Vec<usize>>,
}

/// A number behind that of each thing of a list, and not below another.
fn behind(things: &[u32], least: usize) -> usize {
    let mut count = least;
    for thing in things {
        count = count.max(*thing as usize + 1);
    }
    count
}

/// A number behind that of each thing.
pub(crate) fn thing_count(builds: &[StagedBuild]) -> usize {
    let mut count = 0;
    for build in builds {
        count = behind(&build.gives, behind(&build.needs, count));
    }
    count
}

impl Askers {
    /// Those of some builds who need a thing, for each thing.
    pub(crate) fn new(
        alloc: Global,
        builds: &[StagedBuild],
        places: &[usize],
    ) -> Result<Askers, AllocError> {
        let mut askers = Askers {
            lists: Vec::new(alloc),
        };
        for _ in 0..thing_count(builds) {
            askers.lists.push(Vec::new(alloc))?;
        }
        for place in places {
            match builds.get(*place) {
                Some(build) => askers.add_all(&build.needs, *place)?,
                None => {}
            }
        }
        Ok(askers)
    }

    fn add_all(&mut self, things: &[u32], place: usize) -> Result<(), AllocError> {
        for thing in things {
            match self.lists.get_mut(*thing as usize) {
                Some(list) => list.push(place)?,
                None => {}
            }
        }
        Ok(())
    }

    /// How many things there are.
    pub(crate) fn things(&self) -> usize {
        self.lists.len()
    }

    /// Those who need a thing.
    pub(crate) fn of(&self, thing: u32) -> &[usize] {
        match self.lists.get(thing as usize) {
            Some(list) => list.as_slice(),
            None => &[],
        }
    }
}

/// The builds, those who need a thing among the ones that are looked at, and the build that is the
/// end.
#[derive(Clone, Copy)]
pub(crate) struct Task<'a> {
    pub(crate) alloc: Global,
    pub(crate) builds: &'a [StagedBuild],
    pub(crate) askers: &'a Askers,
    pub(crate) end: usize,
}

impl<'a> Task<'a> {
    /// What the build of a place needs.
    pub(crate) fn needs(self, place: usize) -> &'a [u32] {
        match self.builds.get(place) {
            Some(build) => build.needs.as_slice(),
            None => &[],
        }
    }

    /// What the build of a place gives.
    pub(crate) fn gives(self, place: usize) -> &'a [u32] {
        match self.builds.get(place) {
            Some(build) => build.gives.as_slice(),
            None => &[],
        }
    }
}
