//! The builds to choose of.

use stage_builds::{Kind, OwnBuild, Way, Ways, rank_of};
use std::alloc::{AllocError, Global};

/// Where a build stands among those to choose of: by its name, which is that of its source or of the
/// wish's recipe, and by its kind; of equal ones those of the wish first.
#[derive(PartialEq, Eq, PartialOrd, Ord, Drop)]
struct Standing {
    name: Vec<u8>,
    rank: u8,
    number: usize,
    place: usize,
}

/// Tells whether one of some builds is no worse than another.
fn has_no_worse(ways: &[Way], kept: &[usize], way: &Way) -> bool {
    kept.iter().any(|place| is_no_worse_at(ways, *place, way))
}

fn is_no_worse_at(ways: &[Way], place: usize, way: &Way) -> bool {
    match ways.get(place) {
        Some(other) => other.is_no_worse(way),
        None => false,
    }
}

/// Tells whether a build is no worse than that of a place.
fn beats(ways: &[Way], way: &Way, place: usize) -> bool {
    match ways.get(place) {
        Some(other) => way.is_no_worse(other),
        None => true,
    }
}

/// Those of some builds than which another is worse.
fn better_ones(
    alloc: Global,
    ways: &[Way],
    kept: &[usize],
    way: &Way,
) -> Result<Vec<usize>, AllocError> {
    let mut better = Vec::new(alloc);
    for place in kept {
        if !beats(ways, way, *place) {
            better.push(*place)?;
        }
    }
    Ok(better)
}

/// Keeps a build, unless one that is kept is no worse; and then drops those than which it is no worse.
fn keep(
    alloc: Global,
    ways: &[Way],
    kept: &mut Vec<usize>,
    place: usize,
    way: &Way,
) -> Result<(), AllocError> {
    if way.lacks_some || has_no_worse(ways, kept, way) {
        return Ok(());
    }
    *kept = better_ones(alloc, ways, kept, way)?;
    kept.push(place)?;
    Ok(())
}

/// The builds of a source from one place up to another, without those that are forbidden.
#[derive(Clone, Copy)]
struct Tried<'a> {
    alloc: Global,
    ways: &'a [Way],
    forbidden: &'a [usize],
    first: usize,
    end: usize,
}

/// Keeps those of a kind.
fn keep_kind(tried: Tried, kept: &mut Vec<usize>, kind: Kind) -> Result<(), AllocError> {
    for place in tried.first..tried.end {
        match tried.ways.get(place) {
            Some(way) if way.kind == kind && !tried.forbidden.contains(&place) => {
                keep(tried.alloc, tried.ways, kept, place, way)?;
            }
            _ => {}
        }
    }
    Ok(())
}

/// The places of the builds of a source to choose of, by kind.
fn of_source(tried: Tried) -> Result<Vec<usize>, AllocError> {
    let mut kept = Vec::new(tried.alloc);
    for kind in [Kind::Whole, Kind::Light, Kind::Staged] {
        keep_kind(tried, &mut kept, kind)?;
    }
    Ok(kept)
}

/// Puts a build of this name behind others.
fn push_standing(
    alloc: Global,
    ways: &[Way],
    name: &[u8],
    place: usize,
    found: &mut Vec<Standing>,
) -> Result<(), AllocError> {
    let Some(way) = ways.get(place) else {
        return Ok(());
    };
    found.push(Standing {
        name: Vec::from_slice(alloc, name)?,
        rank: rank_of(way.kind),
        number: found.len(),
        place,
    })?;
    Ok(())
}

/// The name of the wish's own recipe of a number.
pub fn own_name<'a>(recipes: &[OwnBuild<'a>], number: u32) -> &'a [u8] {
    match recipes.get(number as usize) {
        Some(own) => &own.recipe.name,
        None => b"",
    }
}

/// Puts the builds of the wish's own recipes behind others, all whose needs something meets.
fn push_own(
    alloc: Global,
    ways: &[Way],
    recipes: &[OwnBuild],
    found: &mut Vec<Standing>,
) -> Result<(), AllocError> {
    for (place, way) in ways.iter().enumerate() {
        if let Some(own) = &way.own {
            if !way.lacks_some {
                push_standing(alloc, ways, own_name(recipes, own.number), place, found)?;
            }
        }
    }
    Ok(())
}

/// The same of those of a source to choose of.
fn push_source(
    alloc: Global,
    ways: &Ways,
    forbidden: &[usize],
    number: u32,
    found: &mut Vec<Standing>,
) -> Result<(), AllocError> {
    let Some(source) = ways.sources.get(number as usize) else {
        return Ok(());
    };
    let tried = Tried {
        alloc,
        ways: &ways.ways,
        forbidden,
        first: source.first,
        end: source.first.saturating_add(source.count),
    };
    for place in &of_source(tried)? {
        push_standing(alloc, &ways.ways, &source.name, *place, found)?;
    }
    Ok(())
}

/// The places of the builds to choose of, by name and kind: those of the wish's own recipes; and of each source
/// those that are not forbidden, without those for which there is another that is no worse in kind,
/// needs no more and gives no less; each all of whose needs something meets.
pub fn choosable(
    alloc: Global,
    ways: &Ways,
    recipes: &[OwnBuild],
    forbidden: &[usize],
) -> Result<Vec<usize>, AllocError> {
    let mut found = Vec::new(alloc);
    push_own(alloc, &ways.ways, recipes, &mut found)?;
    for number in ways.by_name.values() {
        push_source(alloc, ways, forbidden, *number, &mut found)?;
    }
    found.sort()?;
    let mut places = Vec::new(alloc);
    for standing in &found {
        places.push(standing.place)?;
    }
    Ok(places)
}
