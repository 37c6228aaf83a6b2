//! What the instruction at a place of a lane goes by, and tests of budgets, of space and of members.

ghost use Rattle.std.specs.Prelude.{◌≡◌, ◌<◌, length};
ghost use Rattle.may_rows.specs.Words.{may_of};
ghost use Rattle.plan_model.specs.Plan.{lane};
ghost use Rattle.explain_reasons.specs.Listed.{IsPlaceOfLane, Lists, of_place, one_if};
ghost use Rattle.explain_reasons.specs.Reasons as spec;

use crate::held::{Phase, push_if};
use crate::types::{Found, Reason};
use farm_universe::Universe;
use may_rows::MayHold;
use plan_reader::{Lane, Plan};
use sat_rows::Tables;
use std::alloc::Global;

/// A universe with its rows, a lane over it, and what the lane's chroot may hold at a place. Its
/// calls fail where memory is refused, and else never.
#[derive(Clone, Copy)]
pub struct Place<'a> {
    pub alloc: Global,
    pub universe: &'a Universe,
    pub tables: &'a Tables,
    pub lane: &'a Lane,
    pub state: &'a MayHold,
}

/// How many instructions a lane has.
pub fn lane_length(plan: &Plan, number: usize) -> usize
    requires { number < length plan.now.lanes }
    ensures { result ≡ length (lane plan.now.lanes number).instructions }
{
    plan.lane(number).instructions().len()
}

impl Place<'_> {
    /// A reason alone, where a test passes.
    pub fn list_if(&self, test: bool, reason: Reason) -> Found
        ensures { Lists result (one_if test reason) }
    {
        let mut found = Vec::new(self.alloc);
        push_if(&mut found, test, reason)?;
        Ok(found)
    }

    /// That a further cost may be over the budget of the lane.
    pub fn list_over_budget(&self, cost: u64) -> Found
        requires { IsPlaceOfLane self.now }
        ensures { Lists result (spec.over_budget self.now.lane.now (may_of self.now.state.now)
            cost) }
    {
        let spent = self.state.cost();
        let budget = self.lane.budget();
        let reason = Reason::OverBudget {
            spent,
            cost,
            budget,
        };
        self.list_if(budget - spent < cost, reason)
    }

    /// That the space of the lane's chroot may not suffice for a further size.
    #[tactic(auto, unfolding(plan_model::specs::Plan::capacity))]
    pub fn list_too_full(&self, added: u64) -> Found
        requires { IsPlaceOfLane self.now }
        ensures { Lists result (of_place self.now spec.too_full added) }
    {
        let used = self.state.used();
        let capacity = self.universe.base(self.lane.base()).capacity();
        let reason = Reason::Full {
            used,
            added,
            capacity,
        };
        self.list_if(capacity < used || capacity - used < added, reason)
    }

    /// Which members are not surely in a phase.
    pub fn list_wrong_state(&self, members: &[u32], phase: Phase) -> Found
        ensures { Lists result (spec.wrong_state phase members.now (may_of self.now.state.now)) }
    {
        let wrong = members.iter().filter(|it| !phase.holds(self.state, **it));
        wrong.map(|it| Reason::WrongState(*it)).collect(self.alloc)
    }
}
