//! Clauses: of the literals of each, one holds.

use crate::{at, put};
use std::alloc::{AllocError, Global};

/// That a variant is in the chroot, or that it is not.
#[derive(Clone, Copy, PartialEq, Eq, Drop)]
pub struct Literal {
    pub variant: usize,
    pub holds: bool,
}

impl Literal {
    /// That a variant is in the chroot.
    pub fn present(variant: usize) -> Literal {
        Literal {
            variant,
            holds: true,
        }
    }

    /// That a variant is not in the chroot.
    pub fn absent(variant: usize) -> Literal {
        Literal {
            variant,
            holds: false,
        }
    }

    /// The contrary.
    pub fn contrary(self) -> Literal {
        Literal {
            variant: self.variant,
            holds: !self.holds,
        }
    }
}

/// Clauses by number, in one piece of memory. Literals go to the clause that is open, until it is
/// closed.
#[derive(Drop)]
pub struct Clauses {
    literals: Vec<Literal>,
    ends: Vec<usize>,
}

impl Clauses {
    /// No clause.
    pub fn new(alloc: Global) -> Clauses {
        Clauses {
            literals: Vec::new(alloc),
            ends: Vec::new(alloc),
        }
    }

    /// How many clauses were closed.
    pub fn len(&self) -> usize {
        self.ends.len()
    }

    /// Tells whether no clause was closed.
    pub fn is_empty(&self) -> bool {
        self.ends.is_empty()
    }

    /// Puts a literal at the end of the open clause.
    pub fn push(&mut self, literal: Literal) -> Result<(), AllocError> {
        self.literals.push(literal)?;
        Ok(())
    }

    /// Ends the open clause, and gives its number.
    pub fn close(&mut self) -> Result<usize, AllocError> {
        let number = self.ends.len();
        let end = self.literals.len();
        self.ends.push(end)?;
        Ok(number)
    }

    /// Where the literals of a clause begin.
    fn begin(&self, number: usize) -> usize {
        if number == 0 {
            return 0;
        }
        match self.ends.get(number - 1) {
            Some(end) => *end,
            None => self.literals.len(),
        }
    }

    /// Where the literals of a clause end.
    fn end(&self, number: usize) -> usize {
        match self.ends.get(number) {
            Some(end) => *end,
            None => self.begin(number),
        }
    }

    /// The literals of a clause; none past the last one.
    pub fn of(&self, number: usize) -> &[Literal] {
        let (begin, end) = (self.begin(number), self.end(number));
        if begin <= end && end <= self.literals.len() {
            &self.literals[begin..end]
        } else {
            &[]
        }
    }

    /// The literals of all clauses.
    pub(crate) fn all(&self) -> &[Literal] {
        &self.literals
    }

    /// The literal of a clause at a place.
    pub(crate) fn literal(&self, number: usize, place: usize) -> Option<Literal> {
        match self.of(number).get(place) {
            Some(literal) => Some(*literal),
            None => None,
        }
    }

    /// Exchanges two literals of a clause.
    pub(crate) fn swap(&mut self, number: usize, place: usize, other: usize) {
        let begin = self.begin(number);
        let (a, b) = (begin.saturating_add(place), begin.saturating_add(other));
        if a < self.literals.len() && b < self.literals.len() {
            self.literals.swap(a, b);
        }
    }

    /// Drops all clauses.
    pub(crate) fn clear(&mut self) {
        self.literals.clear();
        self.ends.clear();
    }
}

/// Which clauses watch a literal: each clause two of its own. A watch stands in the list of the
/// literal that it watches.
#[derive(Drop)]
pub(crate) struct Watches {
    /// By variant: the first watch of its presence, and of its absence.
    present: Vec<Option<usize>>,
    absent: Vec<Option<usize>>,
    /// By watch: its clause, and the next one of its list.
    watches: Vec<Watch>,
}

/// One of the two watches of a clause.
#[derive(Clone, Copy, Drop)]
pub(crate) struct Watch {
    pub(crate) clause: usize,
    pub(crate) next: Option<usize>,
}

impl Watches {
    /// No watch, over so many variants.
    pub(crate) fn new(alloc: Global, count: usize) -> Result<Watches, AllocError> {
        let mut present = Vec::new(alloc);
        let mut absent = Vec::new(alloc);
        for _ in 0..count {
            present.push(None)?;
            absent.push(None)?;
        }
        Ok(Watches {
            present,
            absent,
            watches: Vec::new(alloc),
        })
    }

    /// How many watches there are.
    pub(crate) fn len(&self) -> usize {
        self.watches.len()
    }

    /// The first watch of a literal.
    pub(crate) fn first(&self, literal: Literal) -> Option<usize> {
        if literal.holds {
            at(&self.present, literal.variant, None)
        } else {
            at(&self.absent, literal.variant, None)
        }
    }

    /// Says which watch of a literal is the first.
    pub(crate) fn set_first(&mut self, literal: Literal, first: Option<usize>) {
        if literal.holds {
            put(&mut self.present, literal.variant, first);
        } else {
            put(&mut self.absent, literal.variant, first);
        }
    }

    /// A watch.
    pub(crate) fn watch(&self, number: usize) -> Option<Watch> {
        match self.watches.get(number) {
            Some(watch) => Some(*watch),
            None => None,
        }
    }

    /// Puts a watch at the head of a literal's list.
    pub(crate) fn link(&mut self, number: usize, literal: Literal) {
        let next = self.first(literal);
        match self.watches.get_mut(number) {
            Some(watch) => watch.next = next,
            None => {}
        }
        self.set_first(literal, Some(number));
    }

    /// A further watch of a clause, at the head of a literal's list.
    pub(crate) fn add(&mut self, clause: usize, literal: Literal) -> Result<(), AllocError> {
        let number = self.watches.len();
        self.watches.push(Watch { clause, next: None })?;
        self.link(number, literal);
        Ok(())
    }

    /// Drops all watches, which watch these literals.
    pub(crate) fn clear(&mut self, literals: &[Literal]) {
        for literal in literals {
            self.set_first(*literal, None);
        }
        self.watches.clear();
    }
}
