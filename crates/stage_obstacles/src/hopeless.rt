//! Needs that nothing can meet: the refusal 708.

use crate::given::{Asked, Had, below, is_unmet, recipe_name, source_name};
use crate::looked::{AllLooked, Looked, first_out_of_reach, is_hopeless};
use crate::needs::Need;
use crate::spelled::{push_block_package, push_written, source_of};
use deb_text::{next_word, push_pieces};
use import_closure::Shelf;
use plan_reader::push_entry;
use stage_answers::Goal;
use stage_builds::{Kind, Way};
use std::alloc::AllocError;
use std::collections::BTreeSet;

/// The profiles of a build between brackets, if it has any.
fn push_profiles(text: &mut Vec<u8>, profiles: &[u8]) -> Result<(), AllocError> {
    let mut before: &[u8] = b" <";
    let mut rest = profiles;
    while let Some((word, behind)) = next_word(rest) {
        push_pieces(text, &[before, word])?;
        before = b" ";
        rest = behind;
    }
    if before == b" ".as_slice() {
        text.extend_from_slice(b">")?;
    }
    Ok(())
}

/// Puts who has a need behind a text: the wish's own recipe, or a source with the profiles of its build.
fn push_who(
    text: &mut Vec<u8>,
    asked: Asked,
    way: &Way,
    has_profiles: bool,
) -> Result<(), AllocError> {
    if let Some(name) = recipe_name(asked, way) {
        return push_pieces(text, &[b"  recipe ", name]);
    }
    push_pieces(text, &[b"  source ", source_name(asked, way.source)])?;
    if has_profiles {
        push_profiles(text, &way.profiles)?;
    }
    Ok(())
}

/// Puts a need of a build behind a text, as the source writes it.
pub fn push_need(
    text: &mut Vec<u8>,
    asked: Asked,
    way: &Way,
    need: &Need,
    has_profiles: bool,
) -> Result<(), AllocError> {
    push_who(text, asked, way, has_profiles)?;
    push_pieces(text, &[b" ", need.field, b": "])?;
    push_written(asked.scope.alloc, text, &need.written)
}

/// Puts the need of a package behind a text that nothing meets.
fn push_unmet_of(
    text: &mut Vec<u8>,
    asked: Asked,
    shelf: &Shelf,
    number: u32,
) -> Result<(), AllocError> {
    text.extend_from_slice(b"\n    ")?;
    push_block_package(text, shelf, number)?;
    text.extend_from_slice(b" Depends: ")?;
    if let Some(entry) = asked.ways.stock.unmet(number) {
        push_entry(text, entry)?;
    }
    text.extend_from_slice(b" is met by nothing\n")
}

/// Puts a thing behind a text that no build gives.
fn push_not_given(
    text: &mut Vec<u8>,
    asked: Asked,
    shelf: &Shelf,
    thing: u32,
) -> Result<(), AllocError> {
    text.extend_from_slice(b"\n    ")?;
    if let Some(number) = asked.ways.stock.things.block(thing) {
        push_block_package(text, shelf, number)?;
        push_pieces(
            text,
            &[
                b" is given by no build of source ",
                source_of(shelf, number),
            ],
        )?;
    }
    text.extend_from_slice(b"\n")
}

/// Puts the lines on a need that nothing can meet behind a text.
fn push_why(
    text: &mut Vec<u8>,
    had: &Had,
    asked: Asked,
    shelf: &Shelf,
    way: &Way,
    need: &Need,
) -> Result<(), AllocError> {
    push_need(text, asked, way, need, true)?;
    if !is_unmet(asked, need) {
        return match first_out_of_reach(had, asked, need) {
            Some(thing) => push_not_given(text, asked, shelf, thing),
            None => text.extend_from_slice(b"\n"),
        };
    }
    match below(asked, need) {
        Some(below) => match below.unmet {
            Some(number) => push_unmet_of(text, asked, shelf, number),
            None => text.extend_from_slice(b"\n"),
        },
        None => text.extend_from_slice(b" is met by nothing\n"),
    }
}

/// Tells whether a final build of a source gives a thing.
fn is_given(asked: Asked, source: u32, thing: u32) -> bool {
    asked.ways.of_source(source).iter().any(|way| {
        way.kind != Kind::Staged && way.outputs.iter().any(|other| *other == thing)
    })
}

/// The first thing of a goal that no final build of its source gives.
fn first_not_given(asked: Asked, goal: &Goal) -> Option<u32> {
    let mut first: Option<u32> = None;
    for thing in &goal.things {
        if !is_given(asked, goal.source, *thing) {
            first = match first {
                Some(other) if other <= *thing => Some(other),
                _ => Some(*thing),
            };
        }
    }
    first
}

/// Puts the line on a source of which no final build gives all that is asked for behind a text.
fn push_no_final(
    text: &mut Vec<u8>,
    asked: Asked,
    shelf: &Shelf,
    goal: &Goal,
) -> Result<(), AllocError> {
    text.extend_from_slice(b"  no build that is whole or light gives ")?;
    let thing = first_not_given(asked, goal);
    match thing {
        Some(thing) => {
            if let Some(number) = asked.ways.stock.things.block(thing) {
                push_block_package(text, shelf, number)?;
            }
        }
        None => text.extend_from_slice(b"all that is asked for")?,
    }
    text.extend_from_slice(b"\n")
}

/// The first need of the build of a place that nothing can meet.
fn first_hopeless<'a>(had: &'a Had, asked: Asked, place: usize) -> Option<&'a Need> {
    for need in had.needs_of(place) {
        if had.is_lacking(asked, need) && is_hopeless(had, asked, need) {
            return Some(need);
        }
    }
    None
}

fn push_first_line(text: &mut Vec<u8>, name: &[u8]) -> Result<(), AllocError> {
    push_pieces(text, &[b"refused 708 source ", name, b"\n"])
}

/// Puts the lines on a build of which nothing can meet a need behind a text, its source once.
fn push_build(
    text: &mut Vec<u8>,
    had: &Had,
    asked: Asked,
    shelf: &Shelf,
    place: usize,
    told: &mut BTreeSet<u32>,
) -> Result<(), AllocError> {
    let Some(way) = asked.ways.ways.get(place) else {
        return Ok(());
    };
    let Some(need) = first_hopeless(had, asked, place) else {
        return Ok(());
    };
    if told.insert(way.source)? {
        push_first_line(text, source_name(asked, way.source))?;
        push_why(text, had, asked, shelf, way, need)?;
    }
    Ok(())
}

/// Puts the lines on a goal that no build meets behind a text, its source once.
fn push_goal(
    text: &mut Vec<u8>,
    had: &Had,
    asked: Asked,
    shelf: &Shelf,
    looked: &Looked,
    told: &mut BTreeSet<u32>,
) -> Result<(), AllocError> {
    let Some(goal) = had.goal_of(asked, looked.asked) else {
        return Ok(());
    };
    if told.insert(goal.source)? {
        push_first_line(text, source_name(asked, goal.source))?;
        push_no_final(text, asked, shelf, goal)?;
    }
    Ok(())
}

/// The lines of the refusals of all sources of which nothing can meet a need; none where there are no
/// such sources.
pub fn hopeless_lines(
    had: &Had,
    asked: Asked,
    shelf: &Shelf,
    all: &AllLooked,
) -> Result<Vec<u8>, AllocError> {
    let mut text = Vec::new(asked.scope.alloc);
    let mut told = BTreeSet::new(asked.scope.alloc);
    for looked in &all.list {
        match looked.way {
            Some(place) => push_build(&mut text, had, asked, shelf, place, &mut told)?,
            None => push_goal(&mut text, had, asked, shelf, looked, &mut told)?,
        }
    }
    Ok(text)
}
