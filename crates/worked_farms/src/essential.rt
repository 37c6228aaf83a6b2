//! Packages that must not be removed.
#![tactic(auto, unfolding(crate::proofs::Computed::by_computation))]

ghost use Rattle.std.specs.Prelude.{◌≡◌, ◌∷◌, [], true, None, codes};
ghost use Rattle.farm_model.specs.declared.types.Trap.TheVariants.{Essential};
ghost use Rattle.plan_model.specs.Run.{result_of};
ghost use Rattle.verdict_laws.specs.Greatest.{is_settled};
ghost use Rattle.worked_farms.specs.KnownMore.{none_more};
ghost use Rattle.worked_farms.specs.Verdict.{Costs, Refused, verdict_of, trap_at, Passes, Traps};
ghost use Rattle.worked_farms.specs.Essential.{kept, removed_essential, deconfigured_essential, removed_while_needed, replaced, removed_once_replaced, exactly, later, removed_beside, known_beside};

/// An Essential package stays, whether or not something still needs it. It may be deconfigured, and
/// what has taken its place may go where that is not Essential.
pub fn essential_stays()
    ensures removed { Traps kept removed_essential 2 Essential }
    ensures needed_too { Traps kept removed_while_needed 4 Essential }
    ensures deconfigured { Passes kept deconfigured_essential 3 }
    ensures replaced { Passes replaced removed_once_replaced 3 }
{}

/// A removal is judged for each version that a member may hold: one of them is Essential.
pub fn some_version_is_essential()
    ensures refused { verdict_of later (removed_beside None) known_beside 0 ≡ Refused 2 Essential }
    ensures known_keeps { is_settled later (removed_beside None) known_beside ≡ true }
    ensures no_more { none_more later (removed_beside None) known_beside ≡ true }
    ensures late { (result_of later (removed_beside None) (1 ∷ 1 ∷ 0 ∷ 0 ∷ [])).stop
        ≡ trap_at 4 0 2 Essential }
    ensures early { (result_of later (removed_beside None) (0 ∷ 0 ∷ [])).stop ≡ None }
    ensures by_version { verdict_of later (removed_beside (exactly (codes "1"))) known_beside 0
        ≡ Costs 2 }
{}
