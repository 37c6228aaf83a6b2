//! A chroot that comes to hold what a recipe needs.

use crate::order::essential_first;
use crate::refusal::Refusal;
use crate::{Lane, Published, Stop};
use draft_search::{Ask, Clauses, FarmNumbers, Found, Literal, Search, at};
use std::alloc::AllocError;

/// How often another content of the chroot is tried, where one is not reached or does not fit.
const TRIES: usize = 20;

/// A build that is to be placed.
#[derive(Clone, Copy)]
pub(crate) struct Build<'a> {
    pub(crate) farm: &'a FarmNumbers,
    pub(crate) published: &'a Published,
    pub(crate) recipe: usize,
    /// The number of the lane.
    pub(crate) lane: usize,
}

/// What a chroot is to hold, in the order of names, and what helps it there.
#[derive(Drop)]
struct Target {
    found: Vec<usize>,
    helpers: Vec<usize>,
}

/// What a lane keeps for a build, if it can: the packages of its base chroot at the versions that
/// they have come to, and what is Essential.
fn kept(farm: &FarmNumbers, lane: &Lane) -> Result<Vec<usize>, AllocError> {
    let mut kept = Vec::new(lane.alloc);
    for variant in farm.base(lane.base()) {
        let held = at(lane.held(), farm.name(*variant), usize::MAX);
        if held != usize::MAX {
            kept.push(held)?;
        } else {
            kept.push(*variant)?;
        }
    }
    for held in lane.held() {
        if *held != usize::MAX && farm.facts(*held).is_essential && !kept.contains(held) {
            kept.push(*held)?;
        }
    }
    essential_first(lane.alloc, farm, &kept)
}

/// What is asked of a search in a lane.
fn ask_of<'x>(build: Build<'x>, lane: &'x Lane, keep: &'x [usize], more: &'x Clauses) -> Ask<'x> {
    Ask {
        farm: build.farm,
        held: lane.held(),
        built: build.published.built(),
        turn: build.published.turns(),
        known: Some(lane.known()),
        keep,
        needs: build.farm.needs(build.recipe),
        clashes: build.farm.clashes(build.recipe),
        more,
        is_loose: false,
    }
}

/// Looks for what the chroot is to hold, loosely where nothing else is found; or tells why there is
/// nothing.
fn look(
    search: &mut Search,
    build: Build<'_>,
    lane: &Lane,
    more: &Clauses,
) -> Result<Result<Target, Refusal>, AllocError> {
    let (recipe, number) = (build.recipe, build.lane);
    let keep = kept(build.farm, lane)?;
    let ask = ask_of(build, lane, &keep, more);
    match search.find_any(ask)? {
        Found::Held(mut found) => {
            let helpers = ask.helpers(lane.alloc, &found)?;
            found.sort()?;
            Ok(Ok(Target { found, helpers }))
        }
        Found::Nothing => Ok(Err(Refusal::NoPlace {
            recipe,
            lane: number,
        })),
        Found::OutOfFuel => Ok(Err(Refusal::GaveUp {
            recipe,
            lane: number,
        })),
    }
}

/// Brings a lane to hold a set that some are in, and then a target. `false` where it does not come
/// there, and the lane is as it was.
fn try_way(
    search: &mut Search,
    build: Build<'_>,
    lane: &mut Lane,
    some: &[usize],
    target: &[usize],
) -> Result<bool, AllocError> {
    let mut more = Clauses::new(lane.alloc);
    for variant in some {
        more.push(Literal::present(*variant))?;
        let _ = more.close()?;
    }
    let keep = kept(build.farm, lane)?;
    let ask = Ask {
        needs: &[],
        clashes: &[],
        ..ask_of(build, lane, &keep, &more)
    };
    let way = match search.find(ask)? {
        Found::Held(mut way) => {
            way.sort()?;
            way
        }
        Found::Nothing | Found::OutOfFuel => return Ok(false),
    };
    let saved = lane.save()?;
    if lane.reach(build.farm, build.published, &way)?.is_none()
        && lane.reach(build.farm, build.published, target)?.is_none()
    {
        return Ok(true);
    }
    lane.go_back(saved);
    Ok(false)
}

/// Brings a lane to hold a target by way of what helps it there, with that or alone. `false` where
/// it does not come there, and the lane is as it was.
fn go_by_way(
    search: &mut Search,
    build: Build<'_>,
    lane: &mut Lane,
    target: &Target,
) -> Result<bool, AllocError> {
    if target.helpers.is_empty() {
        return Ok(false);
    }
    let mut all = target.found.clone()?;
    all.extend_from_slice(&target.helpers)?;
    if try_way(search, build, lane, &all, &target.found)? {
        return Ok(true);
    }
    try_way(search, build, lane, &target.helpers, &target.found)
}

/// Learns of a set that does not fit that its largest are not there together.
fn learn_largest(
    more: &mut Clauses,
    build: Build<'_>,
    lane: &Lane,
    found: &[usize],
) -> Result<(), AllocError> {
    let mut sizes = Vec::new(lane.alloc);
    for variant in found {
        let size = build.farm.facts(*variant).size;
        sizes.push((u64::MAX - size, *variant))?;
    }
    sizes.sort()?;
    let mut taken = build.farm.recipe(build.recipe).scratch;
    for (_, variant) in &sizes {
        if taken <= lane.capacity {
            more.push(Literal::absent(*variant))?;
            taken = taken.saturating_add(build.farm.facts(*variant).size);
        }
    }
    let _ = more.close()?;
    Ok(())
}

/// The refusal of a set that does not fit in the chroot with the disk space of the build.
fn too_small(
    more: &mut Clauses,
    build: Build<'_>,
    lane: &Lane,
    found: &[usize],
) -> Result<Option<Refusal>, AllocError> {
    let mut wanted = build.farm.recipe(build.recipe).scratch;
    for variant in found {
        wanted = wanted.saturating_add(build.farm.facts(*variant).size);
    }
    if wanted <= lane.capacity {
        return Ok(None);
    }
    learn_largest(more, build, lane, found)?;
    Ok(Some(Refusal::TooSmall {
        recipe: build.recipe,
        lane: build.lane,
        wanted,
    }))
}

/// Learns of a chroot that does not come to hold a set what is to be otherwise in the next one.
fn learn(more: &mut Clauses, farm: &FarmNumbers, stop: &Stop) -> Result<(), AllocError> {
    match stop {
        Stop::NoOrder { stuck, others } => {
            for variant in stuck {
                more.push(Literal::absent(*variant))?;
            }
            for variant in others {
                more.push(Literal::present(*variant))?;
            }
        }
        Stop::NoWait(variant) | Stop::Full { variant, .. } => {
            more.push(Literal::absent(*variant))?;
        }
        Stop::Stays(variant) => {
            let name = farm.name(*variant);
            for other in farm.first(name)..farm.end(name) {
                more.push(Literal::present(other))?;
            }
        }
    }
    let _ = more.close()?;
    Ok(())
}

/// The refusal of a chroot that does not come to hold a set.
fn refusal_of(build: Build<'_>, stop: Stop) -> Refusal {
    let (recipe, lane) = (build.recipe, build.lane);
    match stop {
        Stop::NoOrder { stuck, .. } => Refusal::NoOrder {
            recipe,
            lane,
            stuck,
        },
        Stop::NoWait(variant) => Refusal::NoWait {
            recipe,
            lane,
            variant,
        },
        Stop::Stays(variant) => Refusal::Stays {
            recipe,
            lane,
            variant,
        },
        Stop::Full { wanted, .. } => Refusal::TooSmall {
            recipe,
            lane,
            wanted,
        },
    }
}

/// One try. Gives nothing where the lane holds what is wanted.
fn try_once(
    search: &mut Search,
    build: Build<'_>,
    lane: &mut Lane,
    more: &mut Clauses,
) -> Result<Option<Refusal>, AllocError> {
    let target = match look(search, build, lane, more)? {
        Ok(target) => target,
        Err(refusal) => return Ok(Some(refusal)),
    };
    let refusal = too_small(more, build, lane, &target.found)?;
    if refusal.is_some() {
        return Ok(refusal);
    }
    let saved = lane.save()?;
    let Some(stop) = lane.reach(build.farm, build.published, &target.found)? else {
        return Ok(None);
    };
    lane.go_back(saved);
    if go_by_way(search, build, lane, &target)? {
        return Ok(None);
    }
    learn(more, build.farm, &stop)?;
    Ok(Some(refusal_of(build, stop)))
}

/// Brings a lane to hold what a recipe needs. Where it does not come there, what was stuck is not
/// to be there together, or else something more; what does not fit is not to be there together.
/// Gives why it cannot, and the lane is as it was.
pub(crate) fn install(
    search: &mut Search,
    build: Build<'_>,
    lane: &mut Lane,
) -> Result<Option<Refusal>, AllocError> {
    let mut more = Clauses::new(lane.alloc);
    let mut why = None;
    for _ in 0..TRIES {
        match try_once(search, build, lane, &mut more)? {
            None => return Ok(None),
            Some(refusal) => {
                let is_last = refusal.ends_tries();
                why = Some(first_of(why, refusal));
                if is_last {
                    break;
                }
            }
        }
    }
    Ok(why)
}

/// The first cause, where there was one.
fn first_of(first: Option<Refusal>, other: Refusal) -> Refusal {
    match first {
        Some(refusal) => refusal,
        None => other,
    }
}
