//! What is decided about each variant, in the order in which it was.

use crate::clauses::Literal;
use crate::{at, put};
use std::alloc::{AllocError, Global};

/// What is decided about a variant.
#[derive(Clone, Copy, PartialEq, Eq, Drop)]
pub(crate) enum Value {
    Open,
    Present,
    Absent,
}

/// Why a literal holds, or why what is decided cannot all hold.
#[derive(Clone, Copy, Drop)]
pub(crate) enum Cause {
    /// Of the literals of this clause one holds.
    Clause(usize),
    /// These two variants cannot be there together.
    Apart(usize, usize),
}

/// The literals that hold, in the order in which they came, and at which choice and why each did.
#[derive(Drop)]
pub(crate) struct Trail {
    values: Vec<Value>,
    level: Vec<usize>,
    reason: Vec<Option<Cause>>,
    literals: Vec<Literal>,
    /// How many literals there were at each choice.
    choices: Vec<usize>,
}

impl Trail {
    /// Nothing is decided, over so many variants.
    pub(crate) fn new(alloc: Global, count: usize) -> Result<Trail, AllocError> {
        let mut trail = Trail {
            values: Vec::new(alloc),
            level: Vec::new(alloc),
            reason: Vec::new(alloc),
            literals: Vec::new(alloc),
            choices: Vec::new(alloc),
        };
        for _ in 0..count {
            trail.values.push(Value::Open)?;
            trail.level.push(0)?;
            trail.reason.push(None)?;
        }
        Ok(trail)
    }

    /// How many literals hold.
    pub(crate) fn len(&self) -> usize {
        self.literals.len()
    }

    /// How many choices were made.
    pub(crate) fn choices(&self) -> usize {
        self.choices.len()
    }

    /// What is decided about a variant.
    pub(crate) fn value(&self, variant: usize) -> Value {
        at(&self.values, variant, Value::Absent)
    }

    /// Tells whether a literal holds; nothing where it is open.
    pub(crate) fn holds(&self, literal: Literal) -> Option<bool> {
        match self.value(literal.variant) {
            Value::Open => None,
            Value::Present => Some(literal.holds),
            Value::Absent => Some(!literal.holds),
        }
    }

    /// How many choices had been made when a variant was decided.
    pub(crate) fn level(&self, variant: usize) -> usize {
        at(&self.level, variant, 0)
    }

    /// Why a variant was decided; nothing where it was chosen.
    pub(crate) fn reason(&self, variant: usize) -> Option<Cause> {
        at(&self.reason, variant, None)
    }

    /// The literal at a place.
    pub(crate) fn literal(&self, place: usize) -> Option<Literal> {
        match self.literals.get(place) {
            Some(literal) => Some(*literal),
            None => None,
        }
    }

    /// The literals in their order.
    pub(crate) fn literals(&self) -> &[Literal] {
        &self.literals
    }

    /// Writes down that a literal holds, and why.
    pub(crate) fn assign(
        &mut self,
        literal: Literal,
        reason: Option<Cause>,
    ) -> Result<(), AllocError> {
        let value = if literal.holds {
            Value::Present
        } else {
            Value::Absent
        };
        let level = self.choices.len();
        put(&mut self.values, literal.variant, value);
        put(&mut self.level, literal.variant, level);
        put(&mut self.reason, literal.variant, reason);
        self.literals.push(literal)?;
        Ok(())
    }

    /// Chooses a variant.
    pub(crate) fn choose(&mut self, variant: usize) -> Result<(), AllocError> {
        let place = self.literals.len();
        self.choices.push(place)?;
        self.assign(Literal::present(variant), None)
    }

    /// Goes back to where so many choices had been made.
    pub(crate) fn go_back(&mut self, choices: usize) {
        let kept = at(&self.choices, choices, self.literals.len());
        for place in kept..self.literals.len() {
            match self.literals.get(place) {
                Some(literal) => put(&mut self.values, literal.variant, Value::Open),
                None => {}
            }
        }
        self.literals.truncate(kept);
        self.choices.truncate(choices);
    }

    /// Forgets all that was decided.
    pub(crate) fn clear(&mut self) {
        for place in 0..self.literals.len() {
            match self.literals.get(place) {
                Some(literal) => put(&mut self.values, literal.variant, Value::Open),
                None => {}
            }
        }
        self.literals.clear();
        self.choices.clear();
    }
}
