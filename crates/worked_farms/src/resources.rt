//! Disk space and budgets.
#![tactic(auto, unfolding(crate::proofs::Computed::by_computation))]

ghost use Rattle.std.specs.Prelude.{◌≡◌};
ghost use Rattle.farm_model.specs.declared.types.Trap.TheVariants.{Full, OverBudget};
ghost use Rattle.worked_farms.specs.Verdict.{Passes, Traps};
ghost use Rattle.worked_farms.specs.Resources.{small_farm, unpack_and_configure, upgrading, upgrade, used_after, scratching, build_stage1};

/// A lane with libc6 costs 1 and 1 for each MiB, and 1 to configure it.
pub fn budget_just_suffices()
    ensures enough { Passes small_farm (unpack_and_configure 4) 4 }
    ensures too_small { Traps small_farm (unpack_and_configure 3) 2 OverBudget }
{}

/// While a version takes the place of another, both sizes count; afterwards the new one alone.
pub fn old_and_new_size_together()
    ensures fits { Passes (upgrading 6656) upgrade 4 }
    ensures too_small { Traps (upgrading 6655) upgrade 1 Full }
    ensures used_after { used_after (upgrading 6656) upgrade ≡ 5632 }
{}

/// A build wants room for its scratch space.
pub fn scratch_space_counts()
    ensures fits { Passes (scratching 3048) build_stage1 20 }
    ensures too_small { Traps (scratching 3047) build_stage1 1 Full }
{}
