//! What is chosen for targets.

ghost use Rattle.std.specs.Prelude.{IfOk, OnOk};
ghost use Rattle.stage_answers.specs.Answers.{IsChosen};

use crate::choosing::{Answered, choose_builds};
use crate::goal::{Goal, first_goals, goals_of, push_own_goals, things_of};
use crate::members::{UnmetTarget, built_members, read_members};
use import_closure::{Shelf, SourceShelf};
use stage_builds::{Scope, Ways, add_own_builds};
use std::alloc::AllocError;

/// What is chosen for targets: all builds that could be, the goals, of which those of the targets come
/// first and then those of the wish's own recipes, and how the choice ended.
#[derive(Drop)]
pub struct Answer {
    /// The blocks of the packages of the targets that are to be built.
    pub members: Vec<u32>,
    /// How many goals are those of the targets, and how many of the targets or of the wish's own
    /// recipes.
    pub wanted: usize,
    pub count: usize,
    pub ways: Ways,
    pub answered: Answered,
}

/// Why nothing can be chosen for targets: entries that no package meets, and blocks of packages whose
/// source the indexes lack; or memory is refused.
#[derive(Drop)]
pub enum NoAnswer {
    Targets(Vec<UnmetTarget>, Vec<u32>),
    OutOfMemory,
}

impl From<AllocError> for NoAnswer {
    fn from(_error: AllocError) -> NoAnswer {
        NoAnswer::OutOfMemory
    }
}

/// Chooses among all builds that may be needed for these goals.
fn choose_among(
    scope: Scope,
    shelf: &mut Shelf,
    sources: &mut SourceShelf,
    ways: &mut Ways,
    goals: Vec<Goal>,
) -> Result<Answered, AllocError>
    ensures { IfOk result
        (λ answered. IsChosen scope.entry.asked.bases ways.new.ways.items
        answered.goals.items answered.choosing) }
{
    let things = things_of(scope.alloc, &goals)?;
    ways.grow(scope, shelf, sources, &things)?;
    choose_builds(scope, ways, goals, &[])
}

fn answer_with(
    scope: Scope,
    shelf: &mut Shelf,
    sources: &mut SourceShelf,
    members: Vec<u32>,
    ways: Ways,
    goals: Vec<Goal>,
) -> Result<Answer, AllocError>
    ensures { IfOk result (λ answer. IsChosen scope.entry.asked.bases
        answer.ways.ways.items answer.answered.goals.items answer.answered.choosing) }
{
    let mut ways = ways;
    let mut goals = goals;
    let wanted = goals.len();
    push_own_goals(scope.alloc, &ways.ways, &mut goals)?;
    let count = goals.len();
    let answered = choose_among(scope, shelf, sources, &mut ways, goals)?;
    Ok(Answer {
        members,
        wanted,
        count,
        ways,
        answered,
    })
}

/// Finds the goals of the targets, and chooses builds for them.
fn answer_for(
    scope: Scope,
    shelf: &mut Shelf,
    sources: &mut SourceShelf,
    unmet: Vec<UnmetTarget>,
    members: Vec<u32>,
    ways: Ways,
) -> Result<Answer, NoAnswer>
    ensures { IfOk result (λ answer. IsChosen scope.entry.asked.bases
        answer.ways.ways.items answer.answered.goals.items answer.answered.choosing) }
{
    let mut ways = ways;
    let mut lacking = Vec::new(scope.alloc);
    let goals = goals_of(scope, shelf, sources, &mut ways, &members, &mut lacking)?;
    if !unmet.is_empty() || !lacking.is_empty() {
        return Err(NoAnswer::Targets(unmet, lacking));
    }
    Ok(answer_with(scope, shelf, sources, members, ways, goals)?)
}

/// The members of the targets that are to be built.
fn members_of(
    scope: Scope,
    shelf: &mut Shelf,
    ways: &mut Ways,
    blocks: &[u32],
) -> Result<Vec<u32>, AllocError> {
    built_members(scope, shelf, ways.stock.for_all(), blocks)
}

/// Chooses builds for the targets of a wish.
///
/// # Errors
///
/// [`NoAnswer::Targets`] where the target's index or the Sources indexes lack something that the
/// targets are made of.
pub fn choose_for_targets(
    scope: Scope,
    shelf: &mut Shelf,
    sources: &mut SourceShelf,
) -> Result<Answer, NoAnswer>
    ensures { IfOk result (λ answer. IsChosen scope.entry.asked.bases
        answer.ways.ways.items answer.answered.goals.items answer.answered.choosing) }
{
    let members = read_members(scope, shelf)?;
    let mut ways = Ways::new(scope, shelf)?;
    add_own_builds(scope, shelf, sources, &mut ways)?;
    let built = members_of(scope, shelf, &mut ways, &members.blocks)?;
    answer_for(scope, shelf, sources, members.unmet, built, ways)
}

/// Chooses again, without the builds at some places that are forbidden.
pub fn choose_again(
    scope: Scope,
    answer: &mut Answer,
    forbidden: &[usize],
) -> Result<(), AllocError>
    ensures { OnOk result (IsChosen scope.entry.asked.bases
        answer.new.ways.ways.items answer.new.answered.goals.items answer.new.answered.choosing) }
{
    let goals = first_goals(scope.alloc, &answer.answered.goals, answer.count)?;
    answer.answered = choose_builds(scope, &answer.ways, goals, forbidden)?;
    Ok(())
}
