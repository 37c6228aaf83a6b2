//! Plans that would trap if what a present name may hold were taken for less than it is.
#![tactic(auto, unfolding(crate::proofs::Computed::by_computation))]

ghost use Rattle.std.specs.Prelude.{◌≡◌, ◌∷◌, [], true, None};
ghost use Rattle.farm_model.specs.declared.types.Trap.TheVariants.{Conflict, BreaksOther, StillNeeded};
ghost use Rattle.plan_model.specs.Run.{result_of};
ghost use Rattle.verdict_laws.specs.Greatest.{is_settled};
ghost use Rattle.worked_farms.specs.KnownMore.{none_more};
ghost use Rattle.worked_farms.specs.Verdict.{Refused, verdict_of, trap_at};
ghost use Rattle.worked_farms.specs.Holding.{holding, holding_known, excludes_beside, breaks_beside, removes_beside};

/// An unpack is judged for each version that a present name may hold: one of them is in conflict.
pub fn conflicts_with_some_held_version()
    ensures refused { verdict_of holding excludes_beside holding_known 0 ≡ Refused 2 Conflict }
    ensures known_keeps { is_settled holding excludes_beside holding_known ≡ true }
    ensures no_more { none_more holding excludes_beside holding_known ≡ true }
    ensures late { (result_of holding excludes_beside (1 ∷ 1 ∷ 0 ∷ 0 ∷ [])).stop
        ≡ trap_at 4 0 2 Conflict }
    ensures early { (result_of holding excludes_beside (0 ∷ 0 ∷ [])).stop ≡ None }
{}

/// An unpack is judged for each version that a configured name may hold: one of them is broken.
pub fn breaks_some_held_version()
    ensures refused { verdict_of holding breaks_beside holding_known 0 ≡ Refused 3 BreaksOther }
    ensures known_keeps { is_settled holding breaks_beside holding_known ≡ true }
    ensures no_more { none_more holding breaks_beside holding_known ≡ true }
    ensures late { (result_of holding breaks_beside (1 ∷ 1 ∷ 0 ∷ 0 ∷ 0 ∷ [])).stop
        ≡ trap_at 5 0 3 BreaksOther }
    ensures early { (result_of holding breaks_beside (0 ∷ 0 ∷ 0 ∷ [])).stop ≡ None }
{}

/// A removal is judged for each version that a member may hold: one of them is still needed.
pub fn needs_some_held_version()
    ensures refused { verdict_of holding removes_beside holding_known 0 ≡ Refused 7 StillNeeded }
    ensures known_keeps { is_settled holding removes_beside holding_known ≡ true }
    ensures no_more { none_more holding removes_beside holding_known ≡ true }
    ensures early { (result_of holding removes_beside (0 ∷ 0 ∷ 0 ∷ 0 ∷ 0 ∷ 0 ∷ 0 ∷ [])).stop
        ≡ trap_at 7 0 7 StillNeeded }
    ensures late { (result_of holding removes_beside
        (1 ∷ 1 ∷ 0 ∷ 0 ∷ 0 ∷ 0 ∷ 0 ∷ 0 ∷ 0 ∷ [])).stop ≡ None }
{}
