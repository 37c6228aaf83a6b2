//! Packages that meet needs, and what is to be given for them to be installed.

use crate::Scope;
use crate::beginning::{Beginning, ForAll, needs_of};
use crate::known::Seen;
use crate::things::Things;
use deb_relation::{Entry, Relations};
use import_closure::{PackageNames, Shelf};
use std::alloc::AllocError;
use std::collections::HashMap;

/// A package that meets a need: what it is, whether it is there at the beginning, the packages that
/// meet its own needs, and the first need that nothing meets.
#[derive(Drop)]
struct Package {
    thing: u32,
    is_there: bool,
    needs: Vec<u32>,
    unmet: Option<Entry>,
}

/// What is to be given for a package to be installed, itself too, in the order of numbers; and the
/// block of one whose needs nothing meets, if there is one.
#[derive(Drop)]
pub struct Below {
    pub things: Vec<u32>,
    pub unmet: Option<u32>,
}

/// What is there at the beginning, and the packages that were looked at, by block.
#[derive(Drop)]
pub struct Stock {
    beginning: Beginning,
    pub things: Things,
    packages: HashMap<u32, Package>,
    below: HashMap<u32, Below>,
    seen_blocks: Seen,
    seen_things: Seen,
}

/// What was found so far below a package.
#[derive(Drop)]
struct Found {
    todo: Vec<u32>,
    below: Below,
}

impl Stock {
    /// Nothing was looked at but what is there at the beginning.
    pub(crate) fn new(scope: Scope, shelf: &mut Shelf) -> Result<Stock, AllocError> {
        Ok(Stock {
            beginning: Beginning::new(scope, shelf)?,
            things: Things::new(scope.alloc),
            packages: HashMap::new(scope.alloc),
            below: HashMap::new(scope.alloc),
            seen_blocks: Seen::new(scope.alloc),
            seen_things: Seen::new(scope.alloc),
        })
    }

    /// Which packages are for all architectures.
    pub fn for_all(&mut self) -> &mut ForAll {
        &mut self.beginning.for_all
    }

    /// The names of what is there at the beginning, where that is not all of the archive's index.
    pub fn beginning_names(
        &mut self,
        scope: Scope,
        shelf: &Shelf,
    ) -> Result<Option<PackageNames>, AllocError> {
        self.beginning.names(scope, shelf)
    }

    /// The best that is there at the beginning for an entry.
    pub fn best_there(
        &mut self,
        scope: Scope,
        shelf: &mut Shelf,
        entry: &Entry,
    ) -> Result<Option<u32>, AllocError> {
        self.beginning.best(scope, shelf, entry)
    }

    /// Tells whether a package is there at the beginning, by name and version.
    pub fn is_there(
        &mut self,
        scope: Scope,
        shelf: &mut Shelf,
        number: u32,
    ) -> Result<bool, AllocError> {
        self.beginning.has(scope, shelf, number)
    }

    /// The package that meets an entry: the best of what is there, where that can be installed by
    /// what is there alone; else the best of the target's index; else the best of what is there.
    pub(crate) fn chosen_for(
        &mut self,
        scope: Scope,
        shelf: &mut Shelf,
        entry: &Entry,
    ) -> Result<Option<u32>, AllocError> {
        let there = self.beginning.best(scope, shelf, entry)?;
        if let Some(number) = there {
            if self.beginning.is_closed(scope, shelf, number)? {
                return Ok(there);
            }
        }
        let best = shelf.best(scope.alloc, scope.target, entry)?;
        Ok(if best.is_some() { best } else { there })
    }

    /// Meets the needs of a field.
    fn meet(
        &mut self,
        scope: Scope,
        shelf: &mut Shelf,
        field: &Relations,
        package: &mut Package,
    ) -> Result<(), AllocError> {
        for entry in field.entries() {
            match self.chosen_for(scope, shelf, entry)? {
                Some(number) => package.needs.push(number)?,
                None => keep_first(&mut package.unmet, entry)?,
            }
        }
        Ok(())
    }

    /// Looks at the package of a block.
    fn read_package(
        &mut self,
        scope: Scope,
        shelf: &mut Shelf,
        number: u32,
    ) -> Result<Package, AllocError> {
        let mut package = Package {
            thing: self.things.number(scope.alloc, shelf, number)?,
            is_there: self.beginning.has(scope, shelf, number)?,
            needs: Vec::new(scope.alloc),
            unmet: None,
        };
        for field in &needs_of(scope.alloc, shelf, number)? {
            self.meet(scope, shelf, field, &mut package)?;
        }
        Ok(package)
    }

    /// Looks at the package of a block, if that was not done.
    fn look_at(&mut self, scope: Scope, shelf: &mut Shelf, number: u32) -> Result<(), AllocError> {
        if self.packages.get(&number).is_none() {
            let package = self.read_package(scope, shelf, number)?;
            self.packages.insert(number, package)?;
        }
        Ok(())
    }

    /// Takes what is below a package from what is known.
    fn take_below(&mut self, found: &mut Found, number: u32) -> Result<bool, AllocError> {
        let Some(below) = self.below.get(&number) else {
            return Ok(false);
        };
        for thing in &below.things {
            if self.seen_things.see(*thing)? {
                found.below.things.push(*thing)?;
            }
        }
        if found.below.unmet.is_none() {
            found.below.unmet = below.unmet;
        }
        Ok(true)
    }

    /// Takes a package that was looked at, and puts what it needs behind what is still to be looked
    /// at.
    fn take_package(&mut self, found: &mut Found, number: u32) -> Result<(), AllocError> {
        let Some(package) = self.packages.get(&number) else {
            return Ok(());
        };
        if !package.is_there {
            if self.seen_things.see(package.thing)? {
                found.below.things.push(package.thing)?;
            }
        }
        if found.below.unmet.is_none() && package.unmet.is_some() {
            found.below.unmet = Some(number);
        }
        for other in &package.needs {
            if self.seen_blocks.see(*other)? {
                found.todo.push(*other)?;
            }
        }
        Ok(())
    }

    fn take(
        &mut self,
        scope: Scope,
        shelf: &mut Shelf,
        found: &mut Found,
        number: u32,
    ) -> Result<(), AllocError> {
        if self.take_below(found, number)? {
            return Ok(());
        }
        self.look_at(scope, shelf, number)?;
        self.take_package(found, number)
    }

    /// Goes over all that is below the packages that are to be looked at.
    fn take_all(
        &mut self,
        scope: Scope,
        shelf: &mut Shelf,
        found: &mut Found,
    ) -> Result<(), AllocError> {
        for at in 0..usize::MAX {
            let Some(number) = found.todo.get(at).copied() else {
                return Ok(());
            };
            self.take(scope, shelf, found, number)?;
        }
        Err(AllocError)
    }

    /// What is to be given for a package to be installed, as it is not yet known.
    fn read_below(
        &mut self,
        scope: Scope,
        shelf: &mut Shelf,
        number: u32,
    ) -> Result<Below, AllocError> {
        let mut found = nothing_found(scope, number)?;
        self.seen_blocks.begin();
        self.seen_things.begin();
        self.seen_blocks.see(number)?;
        self.take_all(scope, shelf, &mut found)?;
        found.below.things.sort()?;
        Ok(found.below)
    }

    /// Finds what is to be given for a package to be installed.
    pub(crate) fn find_below(
        &mut self,
        scope: Scope,
        shelf: &mut Shelf,
        number: u32,
    ) -> Result<(), AllocError> {
        if self.below.get(&number).is_none() {
            let below = self.read_below(scope, shelf, number)?;
            self.below.insert(number, below)?;
        }
        Ok(())
    }

    /// What is to be given for a package to be installed, once it was found.
    pub fn below(&self, number: u32) -> Option<&Below> {
        self.below.get(&number)
    }

    /// The first need of a package that nothing meets.
    pub fn unmet(&self, number: u32) -> Option<&Entry> {
        match self.packages.get(&number) {
            Some(package) => package.unmet.as_ref(),
            None => None,
        }
    }
}

fn nothing_found(scope: Scope, number: u32) -> Result<Found, AllocError> {
    let mut todo = Vec::new(scope.alloc);
    todo.push(number)?;
    Ok(Found {
        todo,
        below: Below {
            things: Vec::new(scope.alloc),
            unmet: None,
        },
    })
}

/// Keeps an entry, if none is kept.
fn keep_first(kept: &mut Option<Entry>, entry: &Entry) -> Result<(), AllocError> {
    if kept.is_none() {
        *kept = Some(entry.clone()?);
    }
    Ok(())
}
