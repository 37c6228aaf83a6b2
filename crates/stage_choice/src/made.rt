//! Builds in an order in which they can be made, and what they give.

ghost use Rattle.std.specs.Prelude.{◌≡◌, ◌++◌, ◌∷◌, [], ℕ, List, IfOk, OnOk, IsTrue};
ghost use Rattle.stage_choice.specs.declared.build.StagedBuild.{StagedBuild};
ghost use Rattle.stage_choice.specs.Orders.{has, gives, given, can_follow};
ghost use Rattle.stage_choice.specs.Made.{IsMade};

use crate::StagedBuild;
use crate::marks::{has_mark, have_marks, mark, mark_all, no_marks};
use std::alloc::{AllocError, Global};

/// Builds that can be made, by place, each behind those that give what it needs.
#[derive(Drop)]
pub struct Made {
    order: Vec<usize>,
    is_made: Vec<bool>,
    is_given: Vec<bool>,
}

impl Made {
    /// No build.
    pub(crate) fn new(alloc: Global, builds: &[StagedBuild]) -> Result<Made, AllocError>
        ensures made { IfOk result (λ made. IsMade builds.now made) }
        ensures none { IfOk result (λ made. made.order.items ≡ []) }
    {
        Ok(Made {
            order: Vec::new(alloc),
            is_made: no_marks(alloc, builds.len())?,
            is_given: Vec::new(alloc),
        })
    }

    /// The builds in their order.
    pub fn order(&self) -> &[usize]
        ensures { result.now ≡ self.now.order.items }
    {
        &self.order
    }

    /// Tells whether a build is one of them.
    pub fn has(&self, place: usize) -> bool
        ensures { (builds : List StagedBuild) → IsMade builds self.now → result ≡ has self.now.order.items place }
    {
        has_mark(&self.is_made, place)
    }

    /// Tells whether they give a thing.
    pub fn gives(&self, thing: u32) -> bool
        ensures { (builds : List StagedBuild) → IsMade builds self.now → result ≡ has (given builds self.now.order.items) thing }
    {
        has_mark(&self.is_given, thing as usize)
    }

    /// Tells whether a build is none of them and can be made after them.
    pub(crate) fn can_follow(&self, builds: &[StagedBuild], place: usize) -> bool
        requires { IsMade builds.now self.now }
        ensures { result ≡ can_follow builds.now self.now.order.items place }
    {
        match builds.get(place) {
            Some(build) => !has_mark(&self.is_made, place)
                && have_marks(&self.is_given, &build.needs),
            None => false,
        }
    }

    /// Makes a further build.
    pub(crate) fn push(&mut self, builds: &[StagedBuild], place: usize) -> Result<(), AllocError>
        requires made { IsMade builds.now self.old }
        requires next { IsTrue (can_follow builds.now self.old.order.items place) }
        ensures made { OnOk result (IsMade builds.now self.new) }
        ensures order { OnOk result (self.new.order.items ≡ self.old.order.items ++ place ∷ []) }
    {
        mark_all(&mut self.is_given, gifts_of(builds, place))?;
        mark(&mut self.is_made, place)?;
        self.order.push(place)?;
        Ok(())
    }
}

/// What the build of a place gives; nothing past the last one.
fn gifts_of(builds: &[StagedBuild], place: usize) -> &[u32]
    ensures { result.now ≡ gives builds.now place }
{
    match builds.get(place) {
        Some(build) => &build.gives,
        None => &[],
    }
}
