//! What a plan is a sketch of.

ghost use Rattle.std.specs.Prelude.{◌≡◌, ◌++◌, [], IfOk, OnOk};
ghost use Rattle.draft_plan.specs.Wished.{builds, first_of, sketched, sketch};

use crate::lane::LaneParts;
use crate::lists::{built_by, has};
use crate::wished::WantedLane;
use plan_model::Instruction;
use std::alloc::{AllocError, Global};

/// The recipes that instructions build, but for those that were seen, each once. They are seen
/// from then on.
fn first_builds(
    alloc: Global,
    seen: &mut Vec<u32>,
    instructions: &[Instruction],
) -> Result<Vec<u32>, AllocError>
    ensures found { IfOk result
        (λ found. found.items ≡ first_of seen.old.items (builds instructions.now)) }
    ensures seen { IfOk result (λ found. seen.new.items ≡ seen.old.items ++ found.items) }
{
    let mut found = Vec::new(alloc);
    for instruction in instructions {
        match built_by(instruction) {
            Some(recipe) => {
                if !has(seen, recipe) {
                    seen.push(recipe)?;
                    found.push(recipe)?;
                }
            }
            None => {}
        }
    }
    Ok(found)
}

/// What a lane is a sketch of, where some recipes were seen.
fn sketched(
    alloc: Global,
    seen: &mut Vec<u32>,
    lane: &LaneParts<'_>,
) -> Result<WantedLane, AllocError>
    ensures wanted { IfOk result (λ wanted. wanted ≡ sketched seen.old.items lane.now) }
    ensures seen { IfOk result (λ wanted. seen.new.items ≡ seen.old.items ++ wanted.builds) }
{
    let name = Vec::from_slice(alloc, lane.name)?;
    let builds = first_builds(alloc, seen, lane.instructions)?;
    Ok(WantedLane {
        name,
        base: lane.base,
        budget: Some(lane.budget),
        builds,
    })
}

/// What the lanes of a plan are a sketch of: their names, base chroots and budgets, and of each the
/// recipes that it builds, a recipe's first build of them all alone.
pub fn sketch_of(alloc: Global, lanes: &[LaneParts<'_>]) -> Result<Vec<WantedLane>, AllocError>
    ensures { IfOk result (λ wanted. wanted.items ≡ sketch [] lanes.now) }
{
    let mut seen = Vec::new(alloc);
    let mut wanted = Vec::new(alloc);
    for lane in lanes {
        wanted.push(sketched(alloc, &mut seen, lane)?)?;
    }
    Ok(wanted)
}
