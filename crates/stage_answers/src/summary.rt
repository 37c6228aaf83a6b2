//! What is told of a choice.

use crate::answer::Answer;
use crate::choosing::Choosing;
use crate::components::{Graph, component_sizes};
use crate::goal::Goal;
use import_closure::Shelf;
use stage_builds::{Kind, Scope, Way, Ways};
use std::alloc::{AllocError, Global};

/// How large a choice is: of the targets the entries and the packages that are to be built; how many
/// sources these and the wish's own recipes have; of the sources that are needed if all are built whole how many they are, the sizes of
/// their strong components, and how many need themselves; of the answer its builds, those that are
/// staged and light, its sources, those that are built staged and then for good, and its longest
/// chain.
#[derive(Drop)]
pub struct Summary {
    pub targets: usize,
    pub packages: usize,
    pub wanted: usize,
    pub whole: usize,
    pub components: Vec<usize>,
    pub loops: usize,
    pub builds: usize,
    pub staged: usize,
    pub light: usize,
    pub sources: usize,
    pub again: usize,
    pub depth: usize,
}

/// The whole build of a source.
fn whole_of(ways: &Ways, source: u32) -> Option<&Way> {
    for way in ways.of_source(source) {
        if way.kind == Kind::Whole {
            return Some(way);
        }
    }
    None
}

/// The sources of some things, each once.
fn sources_of(
    alloc: Global,
    by_thing: &[Option<u32>],
    things: &[u32],
) -> Result<Vec<u32>, AllocError> {
    let mut sources = Vec::new(alloc);
    for thing in things {
        if let Some(Some(source)) = by_thing.get(*thing as usize) {
            sources.push(*source)?;
        }
    }
    sources.sort()?;
    let mut once = Vec::new(alloc);
    for source in &sources {
        if once.last() != Some(source) {
            once.push(*source)?;
        }
    }
    Ok(once)
}

/// Which source needs packages of which, if all are built whole: from some sources on.
#[derive(Drop)]
struct Whole {
    graph: Graph,
    found: Vec<u32>,
    is_found: Vec<bool>,
}

impl Whole {
    fn find(&mut self, source: u32) -> Result<(), AllocError> {
        if let Some(found) = self.is_found.get_mut(source as usize) {
            if !*found {
                *found = true;
                self.found.push(source)?;
            }
        }
        Ok(())
    }

    /// Takes what a source needs.
    fn take(
        &mut self,
        alloc: Global,
        ways: &Ways,
        by_thing: &[Option<u32>],
        source: u32,
    ) -> Result<(), AllocError> {
        let Some(way) = whole_of(ways, source) else {
            return Ok(());
        };
        for other in &sources_of(alloc, by_thing, &way.needs)? {
            self.graph.add(source, *other)?;
            self.find(*other)?;
        }
        Ok(())
    }

    fn take_all(
        &mut self,
        alloc: Global,
        ways: &Ways,
        by_thing: &[Option<u32>],
    ) -> Result<(), AllocError> {
        for at in 0..usize::MAX {
            let Some(source) = self.found.get(at).copied() else {
                return Ok(());
            };
            self.take(alloc, ways, by_thing, source)?;
        }
        Err(AllocError)
    }

    /// How many sources need themselves.
    fn loops(&self) -> usize {
        let mut count: usize = 0;
        for source in &self.found {
            if self.graph.of(*source).contains(source) {
                count = count.saturating_add(1);
            }
        }
        count
    }
}

fn whole_graph(
    alloc: Global,
    shelf: &Shelf,
    ways: &Ways,
    goals: &[Goal],
) -> Result<Whole, AllocError> {
    let count = ways.sources.len();
    let by_thing = ways.thing_sources(alloc, shelf)?;
    let mut whole = Whole {
        graph: Graph::new(alloc, count)?,
        found: Vec::new(alloc),
        is_found: Vec::from_elem(alloc, false, count)?,
    };
    for goal in goals {
        whole.find(goal.source)?;
    }
    whole.take_all(alloc, ways, &by_thing)?;
    Ok(whole)
}

/// The sources of the builds at some places that are staged, or else of those that are not.
fn sources_at(
    alloc: Global,
    ways: &Ways,
    order: &[usize],
    are_staged: bool,
) -> Result<Vec<bool>, AllocError> {
    let mut has = Vec::from_elem(alloc, false, ways.sources.len())?;
    for place in order {
        if let Some(way) = ways.ways.get(*place) {
            if (way.kind == Kind::Staged) == are_staged {
                set(&mut has, way.source);
            }
        }
    }
    Ok(has)
}

fn set(has: &mut [bool], source: u32) {
    if let Some(known) = has.get_mut(source as usize) {
        *known = true;
    }
}

/// How many builds at some places are of a kind.
fn count_of(ways: &Ways, order: &[usize], kind: Kind) -> usize {
    let mut count: usize = 0;
    for place in order {
        match ways.ways.get(*place) {
            Some(way) if way.kind == kind => count = count.saturating_add(1),
            _ => {}
        }
    }
    count
}

/// How many sources are in one of two sets, and how many in both.
fn counts_of(staged: &[bool], final_ones: &[bool]) -> (usize, usize) {
    let mut one: usize = 0;
    let mut both: usize = 0;
    for (is_staged, is_final) in staged.iter().zip(final_ones) {
        if *is_staged || *is_final {
            one = one.saturating_add(1);
        }
        if *is_staged && *is_final {
            both = both.saturating_add(1);
        }
    }
    (one, both)
}

fn order_of(answer: &Answer) -> (&[usize], usize) {
    match &answer.answered.choosing {
        Choosing::Builds(chosen) => (chosen.order.as_slice(), chosen.depth),
        Choosing::NoWay | Choosing::Wrong => (&[], 0),
    }
}

/// Of how many sources these goals are.
fn source_count(goals: &[Goal]) -> usize {
    let mut count: usize = 0;
    for (at, goal) in goals.iter().enumerate() {
        let others = goals.get(..at).unwrap_or(&[]);
        if !others.iter().any(|other| other.source == goal.source) {
            count = count.saturating_add(1);
        }
    }
    count
}

/// How large a choice is.
pub fn summary_of(scope: Scope, shelf: &Shelf, answer: &Answer) -> Result<Summary, AllocError> {
    let alloc = scope.alloc;
    let ways = &answer.ways;
    let goals = answer.answered.goals.get(..answer.wanted).unwrap_or(&[]);
    let whole = whole_graph(alloc, shelf, ways, goals)?;
    let (order, depth) = order_of(answer);
    let staged = sources_at(alloc, ways, order, true)?;
    let final_ones = sources_at(alloc, ways, order, false)?;
    let (sources, again) = counts_of(&staged, &final_ones);
    Ok(Summary {
        targets: scope.asked.targets.len(),
        packages: answer.members.len(),
        wanted: source_count(answer.answered.goals.get(..answer.count).unwrap_or(&[])),
        whole: whole.found.len(),
        components: component_sizes(alloc, &whole.graph)?,
        loops: whole.loops(),
        builds: order.len(),
        staged: count_of(ways, order, Kind::Staged),
        light: count_of(ways, order, Kind::Light),
        sources,
        again,
        depth,
    })
}
