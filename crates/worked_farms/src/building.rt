//! Builds and what they need of a chroot.
#![tactic(auto, unfolding(crate::proofs::Computed::by_computation))]

ghost use Rattle.farm_model.specs.declared.types.Trap.TheVariants.{WrongState, Unsettled, BuildDepends, BuildConflict, NotBuilt};
ghost use Rattle.worked_farms.specs.Verdict.{Passes, Traps};
ghost use Rattle.worked_farms.specs.Toolchain.{toolchain};
ghost use Rattle.worked_farms.specs.Building.{clashing, build_in_empty, build_beside_configured, build_beside_unpacked, configure_absent, build_gmp, publish_gmp};

/// A build wants a chroot in which all is configured, and nothing that it conflicts with.
pub fn build_beside_nothing_it_conflicts_with()
    ensures alone { Passes clashing build_in_empty 2 }
    ensures beside_configured { Traps clashing build_beside_configured 3 BuildConflict }
    ensures beside_unpacked { Traps clashing build_beside_unpacked 2 Unsettled }
{}

/// What is absent is not configured.
pub fn only_unpacked_is_configured()
    ensures { Traps clashing configure_absent 1 WrongState }
{}

/// A build wants its needs, and a publish wants the build.
pub fn build_then_publish()
    ensures needs { Traps toolchain build_gmp 1 BuildDepends }
    ensures not_built { Traps toolchain publish_gmp 1 NotBuilt }
{}
