//! Packages that exclude each other, and packages that are still needed.
#![tactic(auto, unfolding(crate::proofs::Computed::by_computation))]

ghost use Rattle.std.specs.Prelude.{◌∷◌, [], ◌++◌};
ghost use Rattle.farm_model.specs.declared.types.Trap.TheVariants.{Conflict, BreaksOther, Broken, StillNeeded};
ghost use Rattle.plan_model.specs.declared.instructions.Instruction.TheVariants.{Configure, Deconfigure, Remove};
ghost use Rattle.worked_farms.specs.Notation.{lone};
ghost use Rattle.worked_farms.specs.Verdict.{Passes, Traps};
ghost use Rattle.worked_farms.specs.Toolchain.{libc6, libgmp, newer};
ghost use Rattle.worked_farms.specs.Excluding.{first, second, third, declares_one, mail_servers, only_first, first_then_second, second_then_first, breaking_farm, beside_configured, beside_deconfigured, providers, with_all_three, withdrawn};

/// A conflict counts whichever of the two declares it, and a package is in no conflict with itself.
pub fn conflict_from_either_side()
    ensures declared_by_present { Traps declares_one first_then_second 2 Conflict }
    ensures declared_by_unpacked { Traps declares_one second_then_first 2 Conflict }
    ensures itself { Passes mail_servers only_first 1 }
    ensures each_other { Traps mail_servers first_then_second 2 Conflict }
{}

/// A package that breaks another is not unpacked while that one is configured, and keeps it from
/// being configured again.
pub fn breaks_configured_alone()
    ensures configured { Traps breaking_farm beside_configured 3 BreaksOther }
    ensures deconfigured { Passes breaking_farm (lone beside_deconfigured) 4 }
    ensures configured_again { Traps breaking_farm
        (lone (beside_deconfigured ++ Configure (second ∷ []) ∷ [])) 5 Broken }
{}

/// What a configured package depends on stays, unless that package goes with it.
pub fn still_needed_stays()
    ensures removed { Traps newer (withdrawn (Remove (libc6 ∷ []))) 1 StillNeeded }
    ensures removed_together { Passes newer (withdrawn (Remove (libc6 ∷ libgmp ∷ []))) 2 }
    ensures deconfigured { Traps newer (withdrawn (Deconfigure (libc6 ∷ []))) 1 StillNeeded }
    ensures deconfigured_together { Passes newer (withdrawn (Deconfigure (libc6 ∷ libgmp ∷ []))) 2 }
{}

/// One of two packages that provide what a third needs may go, and not both.
pub fn other_provider_suffices()
    ensures one { Passes providers (with_all_three (Remove (first ∷ []) ∷ [])) 7 }
    ensures both { Traps providers
        (with_all_three (Remove (first ∷ second ∷ []) ∷ [])) 5 StillNeeded }
    ensures all { Passes providers
        (with_all_three (Deconfigure (third ∷ second ∷ first ∷ []) ∷ [])) 9 }
{}
