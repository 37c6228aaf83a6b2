//! Plans that would trap if what a lane may hold were taken for less than it is.
#![tactic(auto, unfolding(crate::proofs::Computed::by_computation))]

ghost use Rattle.std.specs.Prelude.{◌≡◌, ◌∷◌, [], true, Some, None};
ghost use Rattle.farm_model.specs.declared.types.Trap.TheVariants.{Missing, BreaksOther, Full, Depends, Broken, StillNeeded, OverBudget};
ghost use Rattle.farm_model.specs.Packages.{variant};
ghost use Rattle.plan_model.specs.Run.{result_of};
ghost use Rattle.verdict_laws.specs.Greatest.{is_settled};
ghost use Rattle.worked_farms.specs.KnownMore.{none_more};
ghost use Rattle.worked_farms.specs.Orders.{left_after};
ghost use Rattle.worked_farms.specs.Verdict.{Costs, Refused, verdict_of, trap_at};
ghost use Rattle.worked_farms.specs.Growing.{growing, beside_known, new_lib, new_aa, uses_lib, unpacks_beside, configures_beside, removes_lib, takes_lib, makers, any_tool, second_tool, two_makers, two_makers_known};

/// A dependency is surely met only where every version that may be held satisfies it.
pub fn every_held_version_satisfies()
    ensures refused { verdict_of growing uses_lib (beside_known new_lib) 0 ≡ Refused 4 Depends }
    ensures known_keeps { is_settled growing uses_lib (beside_known new_lib) ≡ true }
    ensures no_more { none_more growing uses_lib (beside_known new_lib) ≡ true }
    ensures early { (result_of growing uses_lib (0 ∷ 0 ∷ 0 ∷ 0 ∷ [])).stop ≡ trap_at 4 0 4 Depends }
    ensures late { (result_of growing uses_lib (1 ∷ 1 ∷ 0 ∷ 0 ∷ 0 ∷ 0 ∷ [])).stop ≡ None }
{}

/// An unpack is judged for each version that it may take: one of them breaks what is configured.
pub fn some_version_breaks()
    ensures refused { verdict_of growing unpacks_beside (beside_known new_aa) 0
        ≡ Refused 3 BreaksOther }
    ensures known_keeps { is_settled growing unpacks_beside (beside_known new_aa) ≡ true }
    ensures no_more { none_more growing unpacks_beside (beside_known new_aa) ≡ true }
    ensures late { (result_of growing unpacks_beside (1 ∷ 1 ∷ 0 ∷ 0 ∷ 0 ∷ [])).stop
        ≡ trap_at 5 0 3 BreaksOther }
    ensures early { (result_of growing unpacks_beside (0 ∷ 0 ∷ 0 ∷ [])).stop ≡ None }
{}

/// A configure is judged for each version that is beside it: one of them breaks the package.
pub fn broken_by_some_version()
    ensures refused { verdict_of growing configures_beside (beside_known new_aa) 0
        ≡ Refused 3 Broken }
    ensures known_keeps { is_settled growing configures_beside (beside_known new_aa) ≡ true }
    ensures no_more { none_more growing configures_beside (beside_known new_aa) ≡ true }
    ensures late { (result_of growing configures_beside (1 ∷ 1 ∷ 0 ∷ 0 ∷ 0 ∷ [])).stop
        ≡ trap_at 5 0 3 Broken }
    ensures early { (result_of growing configures_beside (0 ∷ 0 ∷ 0 ∷ [])).stop ≡ None }
{}

/// A removal is judged for each version that stays: one of them needs what goes.
pub fn needed_by_some_version()
    ensures refused { verdict_of growing removes_lib (beside_known new_aa) 0
        ≡ Refused 5 StillNeeded }
    ensures known_keeps { is_settled growing removes_lib (beside_known new_aa) ≡ true }
    ensures no_more { none_more growing removes_lib (beside_known new_aa) ≡ true }
    ensures late { (result_of growing removes_lib (1 ∷ 1 ∷ 0 ∷ 0 ∷ 0 ∷ 0 ∷ 0 ∷ [])).stop
        ≡ trap_at 7 0 5 StillNeeded }
    ensures early { (result_of growing removes_lib (0 ∷ 0 ∷ 0 ∷ 0 ∷ 0 ∷ [])).stop ≡ None }
{}

/// The greatest size of what an unpack may take counts, in space and in cost.
pub fn greatest_size_counts()
    ensures space { verdict_of growing (takes_lib 1 100) (beside_known new_lib) 0 ≡ Refused 1 Full }
    ensures known_keeps { is_settled growing (takes_lib 1 100) (beside_known new_lib) ≡ true }
    ensures no_more { none_more growing (takes_lib 1 100) (beside_known new_lib) ≡ true }
    ensures large { (result_of growing (takes_lib 1 100) (1 ∷ 1 ∷ 0 ∷ [])).stop
        ≡ trap_at 3 0 1 Full }
    ensures small { (result_of growing (takes_lib 1 100) (0 ∷ [])).stop ≡ None }

    ensures cost { verdict_of growing (takes_lib 0 3) (beside_known new_lib) 0
        ≡ Refused 1 OverBudget }
    ensures too_dear_known_keeps { is_settled growing (takes_lib 0 3) (beside_known new_lib)
        ≡ true }
    ensures dear { (result_of growing (takes_lib 0 3) (1 ∷ 1 ∷ 0 ∷ [])).stop
        ≡ trap_at 3 0 1 OverBudget }
    ensures cheap { (result_of growing (takes_lib 0 3) (0 ∷ [])).stop ≡ None }
    ensures enough { verdict_of growing (takes_lib 0 4) (beside_known new_lib) 0 ≡ Costs 4 }
    ensures cost_of_b { verdict_of growing (takes_lib 0 4) (beside_known new_lib) 1 ≡ Costs 2 }
    ensures enough_known_keeps { is_settled growing (takes_lib 0 4) (beside_known new_lib) ≡ true }
    ensures no_more_than_enough { none_more growing (takes_lib 0 4) (beside_known new_lib) ≡ true }
    ensures order { left_after growing (takes_lib 0 4) (1 ∷ []) ≡ Some [] }
{}

/// A wait that one of two versions may pass knows what comes with either, and not with one alone.
pub fn every_satisfier_counts()
    ensures refused { verdict_of makers (two_makers any_tool) (two_makers_known []) 0
        ≡ Refused 2 Missing }
    ensures known_keeps { is_settled makers (two_makers any_tool) (two_makers_known []) ≡ true }
    ensures no_more { none_more makers (two_makers any_tool) (two_makers_known []) ≡ true }
    ensures by_first { (result_of makers (two_makers any_tool) (1 ∷ 1 ∷ 0 ∷ 0 ∷ [])).stop
        ≡ trap_at 4 0 2 Missing }
    ensures by_second { (result_of makers (two_makers any_tool) (2 ∷ 2 ∷ 2 ∷ 0 ∷ 0 ∷ [])).stop
        ≡ None }
    ensures exact { verdict_of makers (two_makers second_tool)
        (two_makers_known (variant 1 0 ∷ variant 0 1 ∷ [])) 0 ≡ Costs 1 }
    ensures exact_known_keeps { is_settled makers (two_makers second_tool)
        (two_makers_known (variant 1 0 ∷ variant 0 1 ∷ [])) ≡ true }
    ensures no_more_than_exact { none_more makers (two_makers second_tool)
        (two_makers_known (variant 1 0 ∷ variant 0 1 ∷ [])) ≡ true }
    ensures order { left_after makers (two_makers second_tool) (1 ∷ 2 ∷ 2 ∷ 0 ∷ []) ≡ Some [] }
{}
