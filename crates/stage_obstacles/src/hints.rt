//! What would break all circles: needs to be dropped, or sources to be built before.

use crate::given::{Asked, Had, is_unmet, source_name, things_of};
use crate::hopeless::push_need;
use crate::needs::Need;
use crate::spelled::push_number;
use deb_text::push_pieces;
use stage_builds::{Kind, Way};
use stage_choice::{StagedBuild, choose, made_of};
use std::alloc::{AllocError, Global};

/// What a need that is dropped, or a source that is built before, weighs: more than all builds.
const PRICE: u64 = 1_000_000_000_000;

/// The most needs that are told.
const MOST_LINES: usize = 10;

/// A build by its place, and which of its needs it would have to be without.
#[derive(Drop)]
struct Without {
    place: usize,
    needs: Vec<usize>,
}

fn copied(alloc: Global, build: &StagedBuild) -> Result<StagedBuild, AllocError> {
    Ok(StagedBuild {
        source: build.source,
        needs: Vec::from_slice(alloc, &build.needs)?,
        gives: Vec::from_slice(alloc, &build.gives)?,
        weight: build.weight,
        is_dear: false,
    })
}

/// The builds that can be chosen of, without their end, none of them dear.
fn copied_all(alloc: Global, builds: &[StagedBuild]) -> Result<Vec<StagedBuild>, AllocError> {
    let mut copies = Vec::new(alloc);
    for build in builds {
        copies.push(copied(alloc, build)?)?;
    }
    Ok(copies)
}

/// Of further builds, which are the dear ones, those that would do; nothing where all would not. The
/// end is the last of all.
fn chosen_with(
    alloc: Global,
    had: &Had,
    more: Vec<StagedBuild>,
) -> Result<Option<Vec<usize>>, AllocError> {
    let mut builds = copied_all(alloc, &had.builds)?;
    let first = builds.len().saturating_sub(1);
    let count = more.len();
    let Some(end) = builds.pop() else {
        return Ok(None);
    };
    for build in more {
        builds.push(build)?;
    }
    builds.push(end)?;
    let Some(choice) = choose(alloc, &builds, first.saturating_add(count))? else {
        return Ok(None);
    };
    let mut chosen = Vec::new(alloc);
    for place in 0..count {
        if choice.order.contains(&first.saturating_add(place)) {
            chosen.push(place)?;
        }
    }
    Ok(Some(chosen))
}

/// The things that the needs of a build need, without those of these numbers.
fn needs_without(
    had: &Had,
    asked: Asked,
    place: usize,
    dropped: &[usize],
) -> Result<Vec<u32>, AllocError> {
    let mut things = Vec::new(asked.scope.alloc);
    for (number, need) in had.needs_of(place).iter().enumerate() {
        if !dropped.contains(&number) {
            things.extend_from_slice(things_of(asked, need))?;
        }
    }
    things.sort()?;
    let mut once = Vec::new(asked.scope.alloc);
    for thing in &things {
        if once.last() != Some(thing) {
            once.push(*thing)?;
        }
    }
    Ok(once)
}

/// A build without some of its needs.
fn build_without(had: &Had, asked: Asked, without: &Without) -> Result<StagedBuild, AllocError> {
    let alloc = asked.scope.alloc;
    let count = without.needs.len() as u64;
    let (source, gives) = match asked.ways.ways.get(without.place) {
        Some(way) => (way.source, Vec::from_slice(alloc, &way.outputs)?),
        None => (u32::MAX, Vec::new(alloc)),
    };
    Ok(StagedBuild {
        source,
        needs: needs_without(had, asked, without.place, &without.needs)?,
        gives,
        weight: PRICE.saturating_mul(count),
        is_dear: true,
    })
}

/// The needs of the build of a place that cannot be met by what can be had.
fn lacks_at(had: &Had, asked: Asked, place: usize) -> Result<Vec<usize>, AllocError> {
    let mut needs = Vec::new(asked.scope.alloc);
    for (number, need) in had.needs_of(place).iter().enumerate() {
        if had.is_lacking(asked, need) {
            needs.push(number)?;
        }
    }
    Ok(needs)
}

/// Each build that lacks something, without all that it lacks.
fn all_without(had: &Had, asked: Asked) -> Result<Vec<Without>, AllocError> {
    let mut all = Vec::new(asked.scope.alloc);
    for (place, way) in asked.ways.ways.iter().enumerate() {
        if way.own.is_none() && !asked.forbidden.contains(&place) {
            let needs = lacks_at(had, asked, place)?;
            if !needs.is_empty() {
                all.push(Without { place, needs })?;
            }
        }
    }
    Ok(all)
}

fn builds_without(
    had: &Had,
    asked: Asked,
    all: &[Without],
) -> Result<Vec<StagedBuild>, AllocError> {
    let mut builds = Vec::new(asked.scope.alloc);
    for without in all {
        builds.push(build_without(had, asked, without)?)?;
    }
    Ok(builds)
}

/// Tells whether the end can be made if these builds go without these needs.
fn suffice(had: &Had, asked: Asked, all: &[Without]) -> Result<bool, AllocError> {
    let alloc = asked.scope.alloc;
    let mut builds = builds_without(had, asked, all)?;
    for build in &had.builds {
        builds.push(copied(alloc, build)?)?;
    }
    let end = builds.len().saturating_sub(1);
    Ok(made_of(alloc, &builds)?.has(end))
}

fn copied_without(alloc: Global, all: &[Without]) -> Result<Vec<Without>, AllocError> {
    let mut copies = Vec::new(alloc);
    for without in all {
        copies.push(Without {
            place: without.place,
            needs: Vec::from_slice(alloc, &without.needs)?,
        })?;
    }
    Ok(copies)
}

/// The same where the build of a number keeps a need.
fn with_need(
    alloc: Global,
    all: &[Without],
    number: usize,
    kept: usize,
) -> Result<Vec<Without>, AllocError> {
    let mut copies = copied_without(alloc, all)?;
    if let Some(without) = copies.get_mut(number) {
        let mut needs = Vec::new(alloc);
        for need in &without.needs {
            if *need != kept {
                needs.push(*need)?;
            }
        }
        without.needs = needs;
    }
    Ok(copies)
}

/// Puts back those needs of the build of a number that need not be dropped.
fn put_back(
    had: &Had,
    asked: Asked,
    found: &mut Vec<Without>,
    number: usize,
) -> Result<(), AllocError> {
    let Some(without) = found.get(number) else {
        return Ok(());
    };
    let place = without.place;
    let needs = Vec::from_slice(asked.scope.alloc, &without.needs)?;
    for need in &needs {
        let is_met = match had.needs_of(place).get(*need) {
            Some(need) => !is_unmet(asked, need),
            None => false,
        };
        if is_met {
            let tried = with_need(asked.scope.alloc, found, number, *need)?;
            if suffice(had, asked, &tried)? {
                *found = tried;
            }
        }
    }
    Ok(())
}

/// Of all builds without what they lack those that would do.
fn chosen_without(had: &Had, asked: Asked) -> Result<Vec<Without>, AllocError> {
    let alloc = asked.scope.alloc;
    let all = all_without(had, asked)?;
    let builds = builds_without(had, asked, &all)?;
    let mut found = Vec::new(alloc);
    let Some(chosen) = chosen_with(alloc, had, builds)? else {
        return Ok(found);
    };
    for number in &chosen {
        if let Some(without) = all.get(*number) {
            found.push(Without {
                place: without.place,
                needs: Vec::from_slice(alloc, &without.needs)?,
            })?;
        }
    }
    Ok(found)
}

/// A need of a build that is to be dropped: how many needs of the build are, the name of its source, its
/// number among all, and which need it is.
#[derive(PartialEq, Eq, PartialOrd, Ord, Drop)]
struct Dropped {
    count: usize,
    source: Vec<u8>,
    number: usize,
    at: usize,
    place: usize,
    need: usize,
}

fn push_dropped(
    asked: Asked,
    number: usize,
    without: &Without,
    dropped: &mut Vec<Dropped>,
) -> Result<(), AllocError> {
    let Some(way) = asked.ways.ways.get(without.place) else {
        return Ok(());
    };
    for (at, need) in without.needs.iter().enumerate() {
        dropped.push(Dropped {
            count: without.needs.len(),
            source: Vec::from_slice(asked.scope.alloc, source_name(asked, way.source))?,
            number,
            at,
            place: without.place,
            need: *need,
        })?;
    }
    Ok(())
}

/// Needs that would suffice if a profile dropped them: those of builds with few such needs first.
fn droppable(had: &Had, asked: Asked) -> Result<Vec<Dropped>, AllocError> {
    let mut found = chosen_without(had, asked)?;
    for number in 0..found.len() {
        put_back(had, asked, &mut found, number)?;
    }
    let mut dropped = Vec::new(asked.scope.alloc);
    for (number, without) in found.iter().enumerate() {
        push_dropped(asked, number, without, &mut dropped)?;
    }
    dropped.sort()?;
    Ok(dropped)
}

fn need_at<'a>(had: &'a Had, dropped: &Dropped) -> Option<&'a Need> {
    had.needs_of(dropped.place).get(dropped.need)
}

fn push_droppable_line(
    text: &mut Vec<u8>,
    had: &Had,
    asked: Asked,
    dropped: &Dropped,
) -> Result<(), AllocError> {
    let Some(way) = asked.ways.ways.get(dropped.place) else {
        return Ok(());
    };
    match need_at(had, dropped) {
        Some(need) => {
            text.extend_from_slice(b"  ")?;
            push_need(text, asked, way, need, false)?;
            text.extend_from_slice(b"\n")
        }
        None => Ok(()),
    }
}

fn push_more(text: &mut Vec<u8>, count: usize) -> Result<(), AllocError> {
    if count <= MOST_LINES {
        return Ok(());
    }
    text.extend_from_slice(b"    and ")?;
    push_number(text, count.saturating_sub(MOST_LINES) as u64)?;
    text.extend_from_slice(b" more\n")
}

/// Puts the lines on needs that would suffice if a profile dropped them behind a text.
pub fn push_droppable(text: &mut Vec<u8>, had: &Had, asked: Asked) -> Result<(), AllocError> {
    let dropped = droppable(had, asked)?;
    if dropped.is_empty() {
        return Ok(());
    }
    text.extend_from_slice(b"  droppable by a profile ")?;
    if dropped.len() == 1 {
        text.extend_from_slice(b"this")?;
    } else {
        text.extend_from_slice(b"these ")?;
        push_number(text, dropped.len() as u64)?;
    }
    text.extend_from_slice(b" would suffice:\n")?;
    for one in dropped.iter().take(MOST_LINES) {
        push_droppable_line(text, had, asked, one)?;
    }
    push_more(text, dropped.len())
}

/// The whole build of a source, if it gives something that cannot be had.
fn whole_build<'a>(had: &Had, asked: Asked<'a>, source: u32) -> Option<&'a Way> {
    for way in asked.ways.of_source(source) {
        if way.kind == Kind::Whole {
            if way.outputs.iter().any(|thing| !had.made.gives(*thing)) {
                return Some(way);
            }
        }
    }
    None
}

/// A build of a source that needs nothing, since it is built before.
fn built_before(alloc: Global, way: &Way) -> Result<StagedBuild, AllocError> {
    Ok(StagedBuild {
        source: way.source,
        needs: Vec::new(alloc),
        gives: Vec::from_slice(alloc, &way.outputs)?,
        weight: PRICE,
        is_dear: true,
    })
}

/// The sources that would suffice if their packages were there at the beginning, by name.
fn before(had: &Had, asked: Asked) -> Result<Vec<u32>, AllocError> {
    let alloc = asked.scope.alloc;
    let mut sources = Vec::new(alloc);
    let mut more = Vec::new(alloc);
    for number in asked.ways.by_name.values() {
        if let Some(way) = whole_build(had, asked, *number) {
            more.push(built_before(alloc, way)?)?;
            sources.push(*number)?;
        }
    }
    let mut found = Vec::new(alloc);
    if let Some(chosen) = chosen_with(alloc, had, more)? {
        for number in &chosen {
            if let Some(source) = sources.get(*number) {
                found.push(*source)?;
            }
        }
    }
    Ok(found)
}

/// Puts the line on sources that would suffice if they were built before behind a text.
pub fn push_before(text: &mut Vec<u8>, had: &Had, asked: Asked) -> Result<(), AllocError> {
    let sources = before(had, asked)?;
    if sources.is_empty() {
        return Ok(());
    }
    if sources.len() == 1 {
        text.extend_from_slice(b"  or with this source built before:")?;
    } else {
        text.extend_from_slice(b"  or with these ")?;
        push_number(text, sources.len() as u64)?;
        text.extend_from_slice(b" sources built before:")?;
    }
    for source in &sources {
        push_pieces(text, &[b" ", source_name(asked, *source)])?;
    }
    text.extend_from_slice(b"\n")
}
