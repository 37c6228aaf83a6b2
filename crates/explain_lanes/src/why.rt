//! Why an instruction may meet a trap, as lines, and what helps with that.

ghost use Rattle.std.specs.Prelude.{◌≡◌};
ghost use Rattle.plan_verifier.specs.Stage.{IsWhole};

use crate::entries::asked_entry;
use crate::further::Further;
use crate::origins::push_origin;
use crate::subject::Spot;
use crate::text::Piece::{At, Lane, Line, Number, Package, Recipe, Words};
use crate::text::{Piece, Said, Text};
use crate::variants::{is_known, satisfies};
use deb_relation::{Entry, Relations};
use explain_reasons::{Builder, Reason, Side, find_builder, next_largest};
use farm_universe::Variant;
use known_rows::KnownWords;
use may_rows::MayHold;
use plan_verifier::Stage;
use std::alloc::AllocError;

/// How many entries that are not surely met are shown, with the first.
const MOST_SHOWN: usize = 10;

/// How many of the largest packages are shown.
const MOST_HOLDERS: u32 = 3;

/// An unsafe instruction that is asked about: what its lane knows, what may be held there, why it
/// may meet a trap, what is told further of that, and all entries that are not surely met where one
/// is the reason.
#[derive(Drop)]
pub struct Inquiry<'s, 'k, 'a, K> {
    pub stage: &'s Stage<'k, K>,
    pub spot: Spot<'a>,
    pub state: &'a MayHold,
    pub reason: Reason,
    pub further: &'a Further,
    pub unmet: &'a [Reason],
    ghost same: { spot.of.plan.now ≡ stage.now.plan.now },
}

/// Puts the first of some entries that a variant satisfies behind a text, with whose it is and its
/// field, and that it does. Tells whether there is one.
fn push_satisfied<'a>(
    text: &mut Text<'_>,
    owner: Piece<'a>,
    field: &'a [u8],
    entries: &'a Relations,
    variant: Variant,
) -> Result<bool, AllocError> {
    let universe = text.universe;
    let mut entries = entries.entries().iter();
    let Some(entry) = entries.find(|entry| satisfies(universe, entry, variant)) else {
        return Ok(false);
    };
    let pieces = [owner, Words(field), Piece::Entry(entry), Package(variant)];
    text.say(b"  % %: %\n  % satisfies it\n", &pieces)?;
    Ok(true)
}

/// The same of the entries by which a variant is in conflict with another.
fn push_conflict(text: &mut Text<'_>, variant: Variant, by: Variant) -> Result<bool, AllocError> {
    let universe = text.universe;
    if !is_known(universe, variant) {
        return Ok(false);
    }
    let conflicts = &universe.relations(variant).conflicts;
    push_satisfied(text, Package(variant), b"Conflicts", conflicts, by)
}

/// The entry by which two exclude each other, which of them satisfies it, and where they come from:
/// of a conflict the entry of the first, or else of the second.
fn push_exclusion(text: &mut Text<'_>, at: Spot<'_>, reason: Reason) -> Said {
    let universe = text.universe;
    match reason {
        Reason::Conflict(variant, other) => {
            if !push_conflict(text, variant, other)? {
                push_conflict(text, other, variant)?;
            }
            push_origin(text, at, variant)?;
            push_origin(text, at, other)
        }
        Reason::Breaks(breaker, broken) if is_known(universe, breaker) => {
            let breaks = &universe.relations(breaker).breaks;
            push_satisfied(text, Package(breaker), b"Breaks", breaks, broken)?;
            push_origin(text, at, breaker)?;
            push_origin(text, at, broken)
        }
        Reason::BuildConflict(recipe, variant) if recipe < universe.recipes() => {
            let clashes = universe.recipe(recipe).clashes();
            push_satisfied(text, Recipe(recipe), b"Build-Conflicts", clashes, variant)?;
            push_origin(text, at, variant)
        }
        _ => Ok(()),
    }
}

/// That a recipe is not surely built, and where it is built.
fn push_builder(text: &mut Text<'_>, at: Spot<'_>, recipe: u32) -> Said {
    text.say(b"  % is not surely built\n", &[Recipe(recipe)])?;
    let (side, when): (&[u8], usize) = match find_builder(at.of.plan, at.lane, at.place, recipe) {
        Builder::Branch(Side::Outside) => return Ok(()),
        Builder::Branch(Side::First(when)) => (b"first", when),
        Builder::Branch(Side::Second(when)) => (b"second", when),
        Builder::Later { place } => {
            return text.say(b"  this lane builds it later %\n", &[At(at.lane, place)]);
        }
        Builder::Other { lane, place } => {
            return text.say(b"  lane % builds it %\n", &[Lane(lane), At(lane, place)]);
        }
        Builder::Nobody => return text.say(b"  no lane builds it\n", &[]),
    };
    let pieces = [Words(side), Line(at.lane, when)];
    text.say(b"  built in the % branch alone of the when at %\n", &pieces)
}

impl<K: KnownWords> Inquiry<'_, '_, '_, K> {
    /// What may be held of a name, as a line.
    fn push_held(&self, text: &mut Text<'_>, name: u32, unmet: Option<&Entry>) -> Said {
        text.say(b"  ", &[])?;
        text.push_held(self.state, name, unmet, self.spot.is_unpack())?;
        text.say(b"\n", &[])
    }

    /// A line for each entry that is not surely met but the first, and how many there are past the
    /// tenth.
    fn push_also_unmet(&self, text: &mut Text<'_>) -> Said {
        for number in 1..self.unmet.len() {
            if number == MOST_SHOWN {
                let left = (self.unmet.len() - number) as u64;
                return text.say(b"  and % more\n", &[Number(left)]);
            }
            if let Some(asked) = asked_entry(text.universe, self.unmet[number]) {
                text.say(b"  also not surely met: % %: %\n", &asked.pieces)?;
            }
        }
        Ok(())
    }

    /// The entry that is not surely met, what may be held of each name that could meet it, what
    /// would meet it, which others are not met, and what makes the instruction safe.
    fn push_unmet(&self, text: &mut Text<'_>) -> Said
        requires { IsWhole K.known self.now.stage.now }
    {
        let Some(asked) = asked_entry(text.universe, self.reason) else {
            return Ok(());
        };
        let entry = asked.entry;
        text.say(b"  % %: %\n", &asked.pieces)?;
        for name in &text.likely_or_near(self.spot.of, entry)? {
            self.push_held(text, *name, Some(entry))?;
        }
        if let Reason::Unmet(variant, ..) = self.reason {
            push_origin(text, self.spot, variant)?;
        }
        self.push_remedy(text, entry)?;
        self.push_also_unmet(text)?;
        self.push_pin(text, entry)
    }

    /// The entry for which a member is still needed, and where its owner comes from.
    fn push_needed(&self, text: &mut Text<'_>, owner: Variant) -> Said {
        if let Some(asked) = asked_entry(text.universe, self.reason) {
            text.say(b"  % %: %\n", &asked.pieces)?;
        }
        push_origin(text, self.spot, owner)
    }

    /// A line for each of the largest packages that the chroot may hold.
    fn push_largest(&self, text: &mut Text<'_>) -> Said {
        let mut last = None;
        for _ in 0..MOST_HOLDERS {
            let Some(holder) = next_largest(text.universe, self.state, last) else {
                return Ok(());
            };
            let pieces = [Package(holder.variant), Number(holder.size)];
            text.say(b"  % takes % KiB\n", &pieces)?;
            last = Some(holder);
        }
        Ok(())
    }

    /// Puts why the instruction may meet its trap behind a text, with what helps.
    pub fn push_why(&self, text: &mut Text<'_>) -> Said
        requires { IsWhole K.known self.now.stage.now }
    {
        match self.reason {
            Reason::Missing(name) => self.push_missing(text, name),
            Reason::OverBudget {
                spent,
                cost,
                budget,
            } => {
                let numbers = [Number(spent), Number(cost), Number(budget)];
                text.say(b"  spent at most %, % more, budget %\n", &numbers)?;
                if let Further::Needs(Some(cost)) = self.further {
                    text.say(b"  this lane needs at most %\n", &[Number(*cost)])?;
                }
                Ok(())
            }
            Reason::Full {
                used,
                added,
                capacity,
            } => {
                let numbers = [Number(used), Number(added), Number(capacity)];
                text.say(b"  in use at most % KiB, % more, capacity %\n", &numbers)?;
                self.push_largest(text)
            }
            Reason::Unmet(..) | Reason::BuildNeed(..) => self.push_unmet(text),
            Reason::Unsettled(name) | Reason::WrongState(name) => self.push_held(text, name, None),
            Reason::Conflict(..) | Reason::Breaks(..) | Reason::BuildConflict(..) => {
                push_exclusion(text, self.spot, self.reason)
            }
            Reason::Essential(variant) => {
                text.say(b"  % is Essential\n", &[Package(variant)])?;
                push_origin(text, self.spot, variant)
            }
            Reason::NotBuilt(recipe) => push_builder(text, self.spot, recipe),
            Reason::StillNeeded(owner, ..) => self.push_needed(text, owner),
        }
    }
}
