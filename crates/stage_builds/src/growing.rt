//! The builds of all sources that may be needed.

use crate::Scope;
use crate::known::Seen;
use crate::source::chosen_source;
use crate::source_builds::{SourceBuilds, builds_of};
use crate::stock::Stock;
use crate::way::{Way, read_way};
use import_closure::{Shelf, SourceHere, SourceShelf};
use std::alloc::{AllocError, Global};
use std::collections::BTreeMap;

/// A source that may be needed: its name, the version that is built, if the indexes have one, and
/// where its builds stand among all.
#[derive(Drop)]
pub struct GrownSource {
    pub name: Vec<u8>,
    pub source: Option<SourceHere>,
    pub first: usize,
    pub count: usize,
    /// How many profiles its builds may have, if these are too many for all sets of them.
    pub too_many: Option<usize>,
    is_grown: bool,
}

/// The builds of all sources that may be needed, those of one source together.
#[derive(Drop)]
pub struct Ways {
    pub stock: Stock,
    pub ways: Vec<Way>,
    pub sources: Vec<GrownSource>,
    /// The numbers of sources by name.
    pub by_name: BTreeMap<Vec<u8>, u32>,
    /// Things whose sources were looked at.
    seen: Seen,
}

/// A source whose builds were not looked at.
fn grown_source(
    alloc: Global,
    name: &[u8],
    source: Option<SourceHere>,
) -> Result<GrownSource, AllocError> {
    Ok(GrownSource {
        name: Vec::from_slice(alloc, name)?,
        source,
        first: 0,
        count: 0,
        too_many: None,
        is_grown: false,
    })
}

impl Ways {
    /// No source was looked at.
    pub fn new(scope: Scope, shelf: &mut Shelf) -> Result<Ways, AllocError> {
        Ok(Ways {
            stock: Stock::new(scope, shelf)?,
            ways: Vec::new(scope.alloc),
            sources: Vec::new(scope.alloc),
            by_name: BTreeMap::new(scope.alloc),
            seen: Seen::new(scope.alloc),
        })
    }

    /// The builds of a source.
    pub fn of_source(&self, number: u32) -> &[Way] {
        let Some(source) = self.sources.get(number as usize) else {
            return &[];
        };
        let end = source.first.saturating_add(source.count);
        self.ways.get(source.first..end).unwrap_or(&[])
    }

    /// The source of a build, as the indexes have it.
    pub fn source_here<'b>(&'b self, way: &'b Way) -> Option<&'b SourceHere> {
        if let Some(own) = &way.own {
            return Some(&own.source);
        }
        match self.sources.get(way.source as usize) {
            Some(grown) => grown.source.as_ref(),
            None => None,
        }
    }

    /// Tells whether the indexes have a source.
    pub fn has_source(&self, number: u32) -> bool {
        match self.sources.get(number as usize) {
            Some(source) => source.source.is_some(),
            None => false,
        }
    }

    fn add_source(
        &mut self,
        scope: Scope,
        name: &[u8],
        source: Option<SourceHere>,
    ) -> Result<u32, AllocError> {
        let number = self.sources.len();
        if number >= u32::MAX as usize {
            return Err(AllocError);
        }
        let key = Vec::from_slice(scope.alloc, name)?;
        self.sources.push(grown_source(scope.alloc, name, source)?)?;
        self.by_name.insert(key, number as u32)?;
        Ok(number as u32)
    }

    /// The number of a source. It gets one where it has none.
    pub(crate) fn source(
        &mut self,
        scope: Scope,
        shelf: &mut Shelf,
        sources: &mut SourceShelf,
        name: &[u8],
    ) -> Result<u32, AllocError> {
        if let Some(number) = self.by_name.get(name) {
            return Ok(*number);
        }
        let source = chosen_source(scope, shelf, sources, name)?;
        self.add_source(scope, name, source)
    }

    /// The builds of a source that is there, as the indexes have them.
    fn read_builds(
        &self,
        scope: Scope,
        shelf: &mut Shelf,
        sources: &mut SourceShelf,
        number: u32,
    ) -> Result<Option<SourceBuilds>, AllocError> {
        let Some(grown) = self.sources.get(number as usize) else {
            return Ok(None);
        };
        match &grown.source {
            Some(source) if !grown.is_grown => Ok(Some(builds_of(
                scope,
                shelf,
                sources,
                &grown.name,
                source,
            )?)),
            _ => Ok(None),
        }
    }

    fn push_ways(
        &mut self,
        scope: Scope,
        shelf: &mut Shelf,
        number: u32,
        builds: &SourceBuilds,
    ) -> Result<(), AllocError> {
        let first = self.ways.len();
        for build in &builds.builds {
            let way = read_way(scope, shelf, &mut self.stock, number, build)?;
            self.ways.push(way)?;
        }
        if let Some(grown) = self.sources.get_mut(number as usize) {
            grown.first = first;
            grown.count = self.ways.len().saturating_sub(first);
            grown.too_many = builds.too_many;
            grown.is_grown = true;
        }
        Ok(())
    }

    /// Adds the builds of a source, once.
    fn grow_source(
        &mut self,
        scope: Scope,
        shelf: &mut Shelf,
        sources: &mut SourceShelf,
        number: u32,
    ) -> Result<(), AllocError> {
        match self.read_builds(scope, shelf, sources, number)? {
            Some(builds) => self.push_ways(scope, shelf, number, &builds),
            None => Ok(()),
        }
    }

    /// The source of a thing's package. It gets a number where it has none.
    pub fn source_of(
        &mut self,
        scope: Scope,
        shelf: &mut Shelf,
        sources: &mut SourceShelf,
        block: u32,
    ) -> Result<u32, AllocError> {
        let Some(given) = shelf.given(block) else {
            return Err(AllocError);
        };
        let name = Vec::from_slice(scope.alloc, &given.source.name)?;
        self.source(scope, shelf, sources, &name)
    }

    /// The number of the source of a thing's package, if that was looked at.
    pub fn source_of_thing(&self, shelf: &Shelf, thing: u32) -> Option<u32> {
        let block = self.stock.things.block(thing)?;
        let given = shelf.given(block)?;
        self.by_name.get(&given.source.name).copied()
    }

    /// By thing: the number of its source, if that was looked at.
    pub fn thing_sources(
        &self,
        alloc: Global,
        shelf: &Shelf,
    ) -> Result<Vec<Option<u32>>, AllocError> {
        let mut sources = Vec::new(alloc);
        let mut thing = 0u32;
        for _ in 0..self.stock.things.count() {
            sources.push(self.source_of_thing(shelf, thing))?;
            thing = thing.saturating_add(1);
        }
        Ok(sources)
    }

    /// Adds the builds of the source of a thing, if it was not yet seen.
    fn grow_thing(
        &mut self,
        scope: Scope,
        shelf: &mut Shelf,
        sources: &mut SourceShelf,
        thing: u32,
    ) -> Result<(), AllocError> {
        if !self.seen.see(thing)? {
            return Ok(());
        }
        let Some(block) = self.stock.things.block(thing) else {
            return Ok(());
        };
        let number = self.source_of(scope, shelf, sources, block)?;
        self.grow_source(scope, shelf, sources, number)
    }

    /// Adds the builds of the sources of some things, then those of the sources of what these need,
    /// and so on. Each source is looked at once.
    pub fn grow(
        &mut self,
        scope: Scope,
        shelf: &mut Shelf,
        sources: &mut SourceShelf,
        things: &[u32],
    ) -> Result<(), AllocError> {
        self.seen.begin();
        for thing in things {
            self.grow_thing(scope, shelf, sources, *thing)?;
        }
        for at in 0..usize::MAX {
            let Some(way) = self.ways.get(at) else {
                return Ok(());
            };
            let needs = Vec::from_slice(scope.alloc, &way.needs)?;
            for thing in &needs {
                self.grow_thing(scope, shelf, sources, *thing)?;
            }
        }
        Err(AllocError)
    }
}
