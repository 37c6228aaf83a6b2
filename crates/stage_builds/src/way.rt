//! Builds that may be chosen, by the numbers of what they need and give.

ghost use Rattle.std.specs.Prelude.{◌≡◌, IfOk};

use crate::Scope;
use crate::kind::Kind;
use crate::known::Seen;
use crate::source_builds::SourceBuild;
use crate::stock::Stock;
use deb_relation::{Entry, Relations};
use farm_model::Mode;
use import_closure::{Build, Shelf, SourceHere};
use std::alloc::{AllocError, Global};

/// A recipe that the wish has itself: its number there, and its source.
#[derive(Drop)]
pub struct OwnRecipe {
    pub number: u32,
    pub source: SourceHere,
}

/// A build that may be chosen: its source by number, its mode, its profiles as a text, and its kind; and
/// the recipe that the wish has for it, if it has one. A thing is the number of a package.
#[derive(Drop)]
pub struct Way {
    pub source: u32,
    pub own: Option<OwnRecipe>,
    pub mode: Mode,
    pub profiles: Vec<u8>,
    pub kind: Kind,
    /// What it gives, in the order of numbers.
    pub outputs: Vec<u32>,
    /// What is to be given for its needs to be installed, beyond what is there at the beginning, in
    /// the order of numbers.
    pub needs: Vec<u32>,
    /// By need, in the order of fields and entries: the block of the package that meets it, if one
    /// does.
    pub met_by: Vec<Option<u32>>,
    /// Nothing meets one of its needs, or a need of what is needed.
    pub lacks_some: bool,
}

/// The things that a build gives, in the order of numbers.
fn outputs_of(
    scope: Scope,
    shelf: &Shelf,
    stock: &mut Stock,
    build: &Build,
) -> Result<Vec<u32>, AllocError> {
    let mut seen = Seen::new(scope.alloc);
    seen.begin();
    let mut outputs = Vec::new(scope.alloc);
    for number in &build.outputs {
        let thing = stock.things.number(scope.alloc, shelf, *number)?;
        if seen.see(thing)? {
            outputs.push(thing)?;
        }
    }
    outputs.sort()?;
    Ok(outputs)
}

/// The needs of a build, as far as they were looked at.
#[derive(Drop)]
struct Needs {
    things: Vec<u32>,
    met_by: Vec<Option<u32>>,
    lacks_some: bool,
}

/// Takes what is below the package that meets a need.
fn take_below(
    needs: &mut Needs,
    seen: &mut Seen,
    stock: &Stock,
    number: u32,
) -> Result<(), AllocError> {
    let Some(below) = stock.below(number) else {
        return Ok(());
    };
    if below.unmet.is_some() {
        needs.lacks_some = true;
    }
    for thing in &below.things {
        if seen.see(*thing)? {
            needs.things.push(*thing)?;
        }
    }
    Ok(())
}

/// Meets a need.
fn meet(
    scope: Scope,
    shelf: &mut Shelf,
    stock: &mut Stock,
    entry: &Entry,
    needs: &mut Needs,
    seen: &mut Seen,
) -> Result<(), AllocError> {
    let met_by = stock.chosen_for(scope, shelf, entry)?;
    match met_by {
        Some(number) => {
            stock.find_below(scope, shelf, number)?;
            take_below(needs, seen, stock, number)?;
        }
        None => needs.lacks_some = true,
    }
    needs.met_by.push(met_by)?;
    Ok(())
}

/// Meets the needs of some fields.
fn meet_all(
    scope: Scope,
    shelf: &mut Shelf,
    stock: &mut Stock,
    fields: &[Relations],
    needs: &mut Needs,
) -> Result<(), AllocError> {
    let mut seen = Seen::new(scope.alloc);
    seen.begin();
    for field in fields {
        for entry in field.entries() {
            meet(scope, shelf, stock, entry, needs, &mut seen)?;
        }
    }
    needs.things.sort()
}

/// The needs of a build.
fn needs_of(
    scope: Scope,
    shelf: &mut Shelf,
    stock: &mut Stock,
    fields: &[Relations],
) -> Result<Needs, AllocError> {
    let mut needs = Needs {
        things: Vec::new(scope.alloc),
        met_by: Vec::new(scope.alloc),
        lacks_some: false,
    };
    meet_all(scope, shelf, stock, fields, &mut needs)?;
    Ok(needs)
}

/// A build that is chosen, with what it needs and gives.
fn way_of(
    alloc: Global,
    mode: Mode,
    source: u32,
    build: &SourceBuild,
    outputs: Vec<u32>,
    needs: Needs,
) -> Result<Way, AllocError>
    ensures { IfOk result (λ way. way.kind ≡ build.now.kind) }
{
    Ok(Way {
        source,
        own: None,
        mode,
        profiles: Vec::from_slice(alloc, &build.profiles)?,
        kind: build.kind,
        outputs,
        needs: needs.things,
        met_by: needs.met_by,
        lacks_some: needs.lacks_some,
    })
}

/// The build of a source of this number, with what it needs and gives.
pub(crate) fn read_way(
    scope: Scope,
    shelf: &mut Shelf,
    stock: &mut Stock,
    source: u32,
    build: &SourceBuild,
) -> Result<Way, AllocError>
    ensures { IfOk result (λ way. way.kind ≡ build.now.kind) }
{
    let outputs = outputs_of(scope, shelf, stock, &build.build)?;
    let needs = needs_of(scope, shelf, stock, &build.build.needs)?;
    way_of(scope.alloc, scope.asked.mode, source, build, outputs, needs)
}

/// A recipe that the wish has itself, in which way it is built, and its kind.
#[derive(Drop)]
pub(crate) struct OwnWay {
    pub(crate) recipe: OwnRecipe,
    pub(crate) mode: Mode,
    pub(crate) profiles: Vec<u8>,
    pub(crate) kind: Kind,
}

/// The build of a recipe of the wish, whose source has this number, with what it needs and gives.
pub(crate) fn read_own_way(
    scope: Scope,
    shelf: &mut Shelf,
    stock: &mut Stock,
    source: u32,
    own: OwnWay,
    build: &Build,
) -> Result<Way, AllocError> {
    let outputs = outputs_of(scope, shelf, stock, build)?;
    let needs = needs_of(scope, shelf, stock, &build.needs)?;
    Ok(own_way(source, own, outputs, needs))
}

fn own_way(source: u32, own: OwnWay, outputs: Vec<u32>, needs: Needs) -> Way {
    Way {
        source,
        own: Some(own.recipe),
        mode: own.mode,
        profiles: own.profiles,
        kind: own.kind,
        outputs,
        needs: needs.things,
        met_by: needs.met_by,
        lacks_some: needs.lacks_some,
    }
}

/// Tells whether a list has all numbers of another, both in the order of numbers.
pub(crate) fn has_all(numbers: &[u32], others: &[u32]) -> bool {
    let mut at: usize = 0;
    for other in others {
        let mut is_there = false;
        for place in at..numbers.len() {
            if numbers[place] >= *other {
                is_there = numbers[place] == *other;
                at = place;
                break;
            }
        }
        if !is_there {
            return false;
        }
    }
    true
}

/// The rank of a kind, the one that is wanted most first.
pub fn rank_of(kind: Kind) -> u8 {
    match kind {
        Kind::Whole => 0,
        Kind::Light => 1,
        Kind::Staged => 2,
    }
}

impl Way {
    /// Tells whether it is no worse in kind than another of its source, needs no more and gives no
    /// less.
    pub fn is_no_worse(&self, other: &Way) -> bool {
        rank_of(self.kind) <= rank_of(other.kind)
            && has_all(&other.needs, &self.needs)
            && has_all(&self.outputs, &other.outputs)
    }
}
