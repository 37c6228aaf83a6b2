//! The choice.

ghost use Rattle.std.specs.Prelude.{◌≡◌, ℕ, List, IfOk, IfSome, IfNone};
ghost use Rattle.stage_choice.specs.Orders.{LeadsTo};

use crate::StagedBuild;
use crate::reach::{leads_to, order_to};
use crate::small::{round_count, small_order};
use std::alloc::{AllocError, Global};

/// Builds with which an end can be made.
#[derive(Drop)]
pub struct Choice {
    /// Their places, without the end's, in an order in which they can be made: of those that can be
    /// next, the first place.
    pub order: Vec<usize>,
    /// How many rounds it takes to make them, if in each all is made that can be.
    pub rounds: usize,
}

/// A small order that leads to the end; or else another one, which does.
fn checked_order(
    alloc: Global,
    builds: &[StagedBuild],
    end: usize,
    other: Vec<usize>,
) -> Result<Vec<usize>, AllocError>
    requires { LeadsTo builds.now other.items end }
    ensures { IfOk result (λ order. LeadsTo builds.now order.items end) }
{
    let order = small_order(alloc, builds, end)?;
    if leads_to(alloc, builds, &order, end)? {
        return Ok(order);
    }
    Ok(other)
}

/// Builds that lead to an end, the build of a place: few dear ones, and of such choices a small sum
/// of weights. The first place decides between equal ones. Nothing where all builds together do not
/// lead to it.
pub fn choose(
    alloc: Global,
    builds: &[StagedBuild],
    end: usize,
) -> Result<Option<Choice>, AllocError>
    ensures found { IfOk result (λ found. IfSome found (λ choice. LeadsTo builds.now choice.order.items end)) }
    ensures none { IfOk result (λ found. IfNone found ((order : List ℕ) → ¬ LeadsTo builds.now order end)) }
{
    match order_to(alloc, builds, end)? {
        Some(other) => {
            let order = checked_order(alloc, builds, end, other)?;
            let rounds = round_count(alloc, builds, &order)?;
            Ok(Some(Choice { order, rounds }))
        }
        None => Ok(None),
    }
}
