//! Packages that need each other.
#![tactic(auto, unfolding(crate::proofs::Computed::by_computation))]

ghost use Rattle.std.specs.Prelude.{◌∷◌, [], ◌++◌, codes};
ghost use Rattle.farm_model.specs.declared.types.Trap.TheVariants.{Depends, PreDepends};
ghost use Rattle.plan_model.specs.declared.instructions.Instruction.TheVariants.{Configure};
ghost use Rattle.worked_farms.specs.Notation.{lone};
ghost use Rattle.worked_farms.specs.Verdict.{Passes, Traps};
ghost use Rattle.worked_farms.specs.Configuring.{cycle, pre_cycle, together, bb_first, one_by_one, lib, app, library, upgraded, before_configured, after_configured, after_removed};

/// Two packages that depend on each other are configured together, and not one after the other.
pub fn cycle_configured_together()
    ensures together { Passes cycle together 4 }
    ensures one_by_one { Traps cycle one_by_one 3 Depends }
{}

/// Of two packages that Pre-Depend on each other neither is ever unpacked.
pub fn cycle_of_pre_depends_never_unpacked()
    ensures aa_first { Traps pre_cycle together 1 PreDepends }
    ensures bb_first { Traps pre_cycle bb_first 1 PreDepends }
{}

/// A Pre-Depends is met ahead of an unpack by a package that is unpacked and was configured, where
/// both versions satisfy it; not where one is too early, nor where none was ever configured, nor
/// where that was before a removal.
pub fn pre_depends_by_unpacked_once_configured()
    ensures upgraded { Passes (library (codes "1")) (lone upgraded) 4 }
    ensures too_early { Traps (library (codes "2")) (lone upgraded) 4 PreDepends }
    ensures never { Traps (library (codes "1")) before_configured 2 PreDepends }
    ensures removed { Traps (library (codes "1")) after_removed 5 PreDepends }
{}

/// To configure a package its Pre-Depends wants a configured one: a member of the set does not
/// count.
pub fn pre_depends_by_no_member()
    ensures member { Traps (library (codes "1"))
        (lone (upgraded ++ Configure (app ∷ lib ∷ []) ∷ [])) 5 PreDepends }
    ensures configured { Passes (library (codes "1")) after_configured 4 }
{}
