//! Several lanes that wait for each other's outputs.
#![tactic(auto, unfolding(crate::proofs::Computed::by_computation))]

ghost use Rattle.std.specs.Prelude.{◌≡◌, ◌∷◌, [], true, false, Some, None};
ghost use Rattle.farm_model.specs.Chroot.{used};
ghost use Rattle.farm_model.specs.declared.types.Trap.TheVariants.{Missing, Depends, OverBudget};
ghost use Rattle.plan_model.specs.Common.{count, start, lane_state, is_finished, result_of, start_board};
ghost use Rattle.verdict_laws.specs.Greatest.{is_settled};
ghost use Rattle.verdict_laws.specs.Stuck.{lanes_left};
ghost use Rattle.worked_farms.specs.Verdict.{Costs, Refused, verdict_of, trap_at};
ghost use Rattle.worked_farms.specs.Toolchain.{gcc_stage1, gmp, toolchain, newer, one_recipe};
ghost use Rattle.worked_farms.specs.KnownMore.{none_more};
ghost use Rattle.worked_farms.specs.Orders.{lanes_going, left_after};
ghost use Rattle.worked_farms.specs.Waiting.{only_stage1, handing_after, handing, handing_known, handed, ended_in, newest_or_exact, newest_or_exact_known, between, between_known, through_another_after, through_another, through_another_known, circle, circle_known, self_circle, self_circle_known};

/// Two lanes hand a compiler to each other: a builds its first stage, b makes libgmp with that, and
/// a builds the rest with libgmp.
pub fn two_lanes_hand_a_compiler_to_each_other()
    ensures events { count toolchain handing ≡ 12 }
    ensures cost_of_a { verdict_of toolchain handing (handing_known (gcc_stage1 ∷ [])) 0
        ≡ Costs 64 }
    ensures cost_of_b { verdict_of toolchain handing (handing_known (gcc_stage1 ∷ [])) 1
        ≡ Costs 14 }

    ensures known_keeps { is_settled toolchain handing (handing_known (gcc_stage1 ∷ [])) ≡ true }
    ensures no_more { none_more toolchain handing (handing_known (gcc_stage1 ∷ [])) ≡ true }
    ensures order { left_after toolchain handing (0 ∷ 1 ∷ 1 ∷ 0 ∷ 0 ∷ []) ≡ Some [] }

    ensures end { result_of toolchain handing
        (0 ∷ 0 ∷ 1 ∷ 1 ∷ 1 ∷ 1 ∷ 1 ∷ 0 ∷ 0 ∷ 0 ∷ 0 ∷ 0 ∷ []) ≡ ended_in handed }
    ensures finished { is_finished handing handed ≡ true }
    ensures used_by_a { used toolchain (lane_state handed 0).chroot ≡ 2560 }
    ensures used_by_b { used toolchain (lane_state handed 1).chroot ≡ 3072 }

    ensures without_the_wait { (result_of toolchain (handing_after []) (0 ∷ 0 ∷ 0 ∷ [])).stop
        ≡ trap_at 3 0 3 Missing }

    // Events of lanes that are blocked, have ended or are unknown change nothing.
    ensures blocked_between { result_of toolchain handing
        (1 ∷ 0 ∷ 0 ∷ 0 ∷ 7 ∷ 1 ∷ 1 ∷ 1 ∷ 1 ∷ 1 ∷ 1 ∷ 0 ∷ 0 ∷ 0 ∷ 0 ∷ 0 ∷ 0 ∷ []) ≡ ended_in handed }
{}

/// An unpack of any version may take a newer one than the lane waited for, with other needs; an
/// unpack of an exact version does not.
pub fn exact_version_avoids_depends()
    ensures refused { verdict_of newer (newest_or_exact None) newest_or_exact_known 0
        ≡ Refused 3 Depends }
    ensures known_keeps { is_settled newer (newest_or_exact None) newest_or_exact_known ≡ true }
    ensures newer_first { (result_of newer (newest_or_exact None)
        (1 ∷ 1 ∷ 1 ∷ 1 ∷ 0 ∷ 0 ∷ 0 ∷ [])).stop ≡ trap_at 7 0 3 Depends }
    ensures newer_later { (result_of newer (newest_or_exact None)
        (1 ∷ 1 ∷ 0 ∷ 0 ∷ 0 ∷ 1 ∷ 1 ∷ [])).stop ≡ None }

    ensures events { count newer (newest_or_exact only_stage1) ≡ 7 }
    ensures cost_of_a { verdict_of newer (newest_or_exact only_stage1) newest_or_exact_known 0
        ≡ Costs 3 }
    ensures cost_of_b { verdict_of newer (newest_or_exact only_stage1) newest_or_exact_known 1
        ≡ Costs 62 }
    ensures exact_known_keeps { is_settled newer (newest_or_exact only_stage1)
        newest_or_exact_known ≡ true }
    ensures no_more { none_more newer (newest_or_exact only_stage1) newest_or_exact_known ≡ true }
    ensures order { left_after newer (newest_or_exact only_stage1) (1 ∷ 0 ∷ 1 ∷ []) ≡ Some [] }
    ensures exact { (result_of newer (newest_or_exact only_stage1)
        (1 ∷ 1 ∷ 1 ∷ 1 ∷ 0 ∷ 0 ∷ 0 ∷ [])).stop ≡ None }
{}

/// A wait for the first of two outputs does not know the second: the lane may step between the two.
/// A wait for the second knows both.
pub fn wait_knows_one_output_too_few()
    ensures refused { verdict_of (one_recipe (gcc_stage1 ∷ gmp ∷ [])) (between 50)
        (between_known (gcc_stage1 ∷ [])) 1 ≡ Refused 2 Missing }
    ensures known_keeps { is_settled (one_recipe (gcc_stage1 ∷ gmp ∷ [])) (between 50)
        (between_known (gcc_stage1 ∷ [])) ≡ true }
    ensures no_more { none_more (one_recipe (gcc_stage1 ∷ gmp ∷ [])) (between 50)
        (between_known (gcc_stage1 ∷ [])) ≡ true }
    ensures between_the_two { (result_of (one_recipe (gcc_stage1 ∷ gmp ∷ [])) (between 50)
        (0 ∷ 0 ∷ 1 ∷ 1 ∷ [])).stop ≡ trap_at 4 1 2 Missing }
    ensures behind_both { (result_of (one_recipe (gcc_stage1 ∷ gmp ∷ [])) (between 50)
        (0 ∷ 0 ∷ 0 ∷ 1 ∷ 1 ∷ 1 ∷ [])).stop ≡ None }

    ensures events { count (one_recipe (gmp ∷ gcc_stage1 ∷ [])) (between 50) ≡ 6 }
    ensures cost_of_a { verdict_of (one_recipe (gmp ∷ gcc_stage1 ∷ [])) (between 50)
        (between_known (gmp ∷ gcc_stage1 ∷ [])) 0 ≡ Costs 22 }
    ensures cost_of_b { verdict_of (one_recipe (gmp ∷ gcc_stage1 ∷ [])) (between 50)
        (between_known (gmp ∷ gcc_stage1 ∷ [])) 1 ≡ Costs 2 }
    ensures both_known_keeps { is_settled (one_recipe (gmp ∷ gcc_stage1 ∷ [])) (between 50)
        (between_known (gmp ∷ gcc_stage1 ∷ [])) ≡ true }
    ensures no_more_than_both { none_more (one_recipe (gmp ∷ gcc_stage1 ∷ [])) (between 50)
        (between_known (gmp ∷ gcc_stage1 ∷ [])) ≡ true }
    ensures order { left_after (one_recipe (gmp ∷ gcc_stage1 ∷ [])) (between 50)
        (0 ∷ 0 ∷ 1 ∷ []) ≡ Some [] }
    ensures too_soon { left_after (one_recipe (gmp ∷ gcc_stage1 ∷ [])) (between 50)
        (0 ∷ 1 ∷ []) ≡ None }
    ensures other_order { (result_of (one_recipe (gmp ∷ gcc_stage1 ∷ [])) (between 50)
        (0 ∷ 0 ∷ 1 ∷ 0 ∷ 1 ∷ 1 ∷ 1 ∷ [])).stop ≡ None }
{}

/// A publish is charged whole with its first output.
pub fn publish_is_charged_at_once()
    ensures enough { verdict_of (one_recipe (gmp ∷ gcc_stage1 ∷ [])) (between 22)
        (between_known (gmp ∷ gcc_stage1 ∷ [])) 0 ≡ Costs 22 }
    ensures enough_known_keeps { is_settled (one_recipe (gmp ∷ gcc_stage1 ∷ [])) (between 22)
        (between_known (gmp ∷ gcc_stage1 ∷ [])) ≡ true }
    ensures spent { (lane_state (result_of (one_recipe (gmp ∷ gcc_stage1 ∷ [])) (between 22)
        (0 ∷ 0 ∷ [])).state 0).spent ≡ 22 }
    ensures made { (lane_state (result_of (one_recipe (gmp ∷ gcc_stage1 ∷ [])) (between 22)
        (0 ∷ 0 ∷ [])).state 0).made ≡ 1 }
    ensures too_small { verdict_of (one_recipe (gmp ∷ gcc_stage1 ∷ [])) (between 21)
        (between_known (gmp ∷ gcc_stage1 ∷ [])) 0 ≡ Refused 2 OverBudget }
    ensures too_small_known_keeps { is_settled (one_recipe (gmp ∷ gcc_stage1 ∷ [])) (between 21)
        (between_known (gmp ∷ gcc_stage1 ∷ [])) ≡ true }
    ensures traps { (result_of (one_recipe (gmp ∷ gcc_stage1 ∷ [])) (between 21)
        (0 ∷ 0 ∷ [])).stop ≡ trap_at 2 0 2 OverBudget }
{}

/// A lane that waits for libgmp knows the gcc that another lane waited for to make it.
pub fn known_through_another_lane()
    ensures events { count toolchain through_another ≡ 10 }
    ensures cost_of_a { verdict_of toolchain through_another through_another_known 0 ≡ Costs 21 }
    ensures cost_of_b { verdict_of toolchain through_another through_another_known 1 ≡ Costs 14 }
    ensures cost_of_c { verdict_of toolchain through_another through_another_known 2 ≡ Costs 3 }
    ensures known_keeps { is_settled toolchain through_another through_another_known ≡ true }
    ensures no_more { none_more toolchain through_another through_another_known ≡ true }
    ensures order { left_after toolchain through_another (0 ∷ 1 ∷ 1 ∷ 2 ∷ []) ≡ Some [] }
    ensures end { (result_of toolchain through_another
        (0 ∷ 0 ∷ 1 ∷ 1 ∷ 1 ∷ 1 ∷ 1 ∷ 2 ∷ 2 ∷ 2 ∷ [])).stop ≡ None }
    ensures without_the_wait { (result_of toolchain (through_another_after []) (2 ∷ [])).stop
        ≡ trap_at 1 2 1 Missing }
{}

/// Lanes that wait in a circle never step: none of their waits and outputs can be made. So it is
/// with a lane that waits for what it makes itself. Each instruction by itself is safe.
pub fn circle_never_steps()
    ensures cost_of_a { verdict_of toolchain circle circle_known 0 ≡ Costs 21 }
    ensures cost_of_b { verdict_of toolchain circle circle_known 1 ≡ Costs 14 }
    ensures known_keeps { is_settled toolchain circle circle_known ≡ true }
    ensures no_more { none_more toolchain circle circle_known ≡ true }
    ensures self_cost { verdict_of toolchain self_circle self_circle_known 0 ≡ Costs 21 }
    ensures self_known_keeps { is_settled toolchain self_circle self_circle_known ≡ true }
    ensures self_no_more { none_more toolchain self_circle self_circle_known ≡ true }

    ensures none_goes { lanes_going toolchain (start_board toolchain circle) ≡ [] }
    ensures both_left { lanes_left (start_board toolchain circle) ≡ 0 ∷ 1 ∷ [] }
    ensures self_goes_not { lanes_going toolchain (start_board toolchain self_circle) ≡ [] }
    ensures self_left { lanes_left (start_board toolchain self_circle) ≡ 0 ∷ [] }
    ensures events { result_of toolchain circle (0 ∷ 1 ∷ 7 ∷ [])
        ≡ ended_in (start toolchain circle) }
{}
