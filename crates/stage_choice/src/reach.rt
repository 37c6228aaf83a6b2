//! What can be made, and whether an order leads to an end.

ghost use Rattle.std.specs.Prelude.{◌≡◌, ◌+◌, ◌<◌, ◌↔◌, ℕ, List, true, false, length, OnOk, IfOk, IfSome, IfNone, IsTrue, MatchOption};
ghost use Rattle.stage_choice.specs.Orders.{has, can_follow, LeadsTo, IsWhole, IsAheadOf};
ghost use Rattle.stage_choice.specs.Made.{IsMade};

use crate::StagedBuild;
use crate::made::Made;
use std::alloc::{AllocError, Global};

/// Tells whether builds can be made in an order, each once, and an end after them.
pub fn leads_to(
    alloc: Global,
    builds: &[StagedBuild],
    order: &[usize],
    end: usize,
) -> Result<bool, AllocError>
    ensures { IfOk result (λ said. IsTrue said ↔ LeadsTo builds.now order.now end) }
{
    let mut made = Made::new(alloc, builds)?;
    for place in order {
        if !made.can_follow(builds, *place) {
            return Ok(false);
        }
        made.push(builds, *place)?;
    }
    Ok(made.can_follow(builds, end))
}

/// Makes a build if it can be made. Tells whether it was.
fn make(made: &mut Made, builds: &[StagedBuild], place: usize) -> Result<bool, AllocError>
    requires { IsMade builds.now made.old }
    ensures made { OnOk result (IsMade builds.now made.new) }
    ensures longer { IfOk result (λ is_made. is_made ≡ true → length made.new.order.items ≡ length made.old.order.items + 1) }
    ensures same { IfOk result (λ is_made. is_made ≡ false → made.new.order.items ≡ made.old.order.items) }
    ensures none { IfOk result (λ is_made. is_made ≡ false → can_follow builds.now made.new.order.items place ≡ false) }
{
    if !made.can_follow(builds, place) {
        return Ok(false);
    }
    made.push(builds, place)?;
    Ok(true)
}

/// Goes once through all builds, and makes each that can be made then. Tells whether one was.
fn make_more(made: &mut Made, builds: &[StagedBuild]) -> Result<bool, AllocError>
    requires { IsMade builds.now made.old }
    ensures made { OnOk result (IsMade builds.now made.new) }
    ensures longer { IfOk result (λ is_more. is_more ≡ true → length made.old.order.items < length made.new.order.items) }
    ensures whole { IfOk result (λ is_more. is_more ≡ false → IsWhole builds.now made.new.order.items) }
{
    let mut is_more = false;
    for place in 0..builds.len() {
        if make(made, builds, place)? {
            is_more = true;
        }
    }
    Ok(is_more)
}

/// All builds that can be made, one after another.
pub fn made_of(alloc: Global, builds: &[StagedBuild]) -> Result<Made, AllocError>
    ensures made { IfOk result (λ made. IsMade builds.now made) }
    ensures whole { IfOk result (λ made. IsWhole builds.now made.order.items) }
{
    let mut made = Made::new(alloc, builds)?;
    while make_more(&mut made, builds)? {}
    Ok(made)
}

/// Those ahead of a place in an order; nothing where it is not there.
fn ahead_of(alloc: Global, order: &[usize], end: usize) -> Result<Option<Vec<usize>>, AllocError>
    ensures { IfOk result (λ found. MatchOption found (has order.now end ≡ false) (λ ahead. IsAheadOf order.now end ahead.items)) }
{
    for (number, place) in order.iter().enumerate() {
        if *place == end {
            return Ok(Some(Vec::from_slice(alloc, &order[..number])?));
        }
    }
    Ok(None)
}

/// An order that leads to an end, of whatever builds. Nothing where there is none.
pub(crate) fn order_to(
    alloc: Global,
    builds: &[StagedBuild],
    end: usize,
) -> Result<Option<Vec<usize>>, AllocError>
    ensures found { IfOk result (λ found. IfSome found (λ order. LeadsTo builds.now order.items end)) }
    ensures none { IfOk result (λ found. IfNone found ((order : List ℕ) → ¬ LeadsTo builds.now order end)) }
{
    let made = made_of(alloc, builds)?;
    ahead_of(alloc, made.order(), end)
}
