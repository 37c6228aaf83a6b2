//! What satisfies a relation, and what an unpack takes.
#![tactic(auto, unfolding(crate::proofs::Computed::by_computation))]

ghost use Rattle.std.specs.Prelude.{◌≡◌, Some, None, codes};
ghost use Rattle.deb_relation.specs.declared.operator.Op.TheVariants.{Earlier, EarlierOrEqual, Equal, LaterOrEqual};
ghost use Rattle.farm_model.specs.declared.types.Trap.TheVariants.{Depends};
ghost use Rattle.farm_model.specs.declared.types.Slot.TheVariants.{Absent, Unpacked};
ghost use Rattle.worked_farms.specs.Verdict.{Passes, Traps};
ghost use Rattle.worked_farms.specs.Providing.{bare_atom, versioned, provider, one_then_the_other, taken};

/// A Provides satisfies a relation with a version only where it states a version in it.
pub fn bare_provides_satisfies_no_version()
    ensures bare { Traps (provider bare_atom) one_then_the_other 4 Depends }
    ensures versioned { Passes (provider versioned) one_then_the_other 4 }
{}

/// An unpack takes the highest version in its relation, by the order of versions.
pub fn unpack_takes_the_highest()
    ensures of_all { taken None ≡ Unpacked 2 None }
    ensures earlier { taken (Some (Earlier, codes "1.1")) ≡ Unpacked 1 None }
    ensures up_to { taken (Some (EarlierOrEqual, codes "1.0~rc1")) ≡ Unpacked 0 None }
    ensures equal { taken (Some (Equal, codes "1.0-0")) ≡ Unpacked 1 None }
    ensures none { taken (Some (LaterOrEqual, codes "2")) ≡ Absent }
{}
