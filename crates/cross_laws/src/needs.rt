//! Rows of the rules on needs: who meets what.
#![tactic(auto, unfolding(crate::proofs::Computed::by_computation))]

ghost use Rattle.std.specs.Prelude.{◌≡◌, codes, true, false};
ghost use Rattle.cross_laws.specs.declared.types.MultiArch.TheVariants.{No, Same, Foreign, Allowed};
ghost use Rattle.cross_laws.specs.Paragraphs.{by_a_build, does_meet, in_version, of_all, of_amd64, of_riscv64, by_amd64, by_riscv64, providing};

/// Rule 1: what is of all architectures counts as a package of the build architecture.
pub fn all_counts_as_build()
    ensures build { does_meet by_amd64 (codes "data") (of_all (codes "data") No) ≡ true }
    ensures not_host { does_meet by_a_build (codes "data") (of_all (codes "data") No) ≡ false }
{}

/// Rule 2: without a qualifier a need is of the side of the package, or the build, that has it.
pub fn need_is_of_its_side()
    ensures host { does_meet by_a_build (codes "libz") (of_riscv64 (codes "libz") Same) ≡ true }
    ensures not_build { does_meet by_a_build (codes "libz") (of_amd64 (codes "libz") Same)
        ≡ false }
    ensures build { does_meet by_amd64 (codes "libz") (of_amd64 (codes "libz") Same) ≡ true }
    ensures not_host { does_meet by_amd64 (codes "libz") (of_riscv64 (codes "libz") Same)
        ≡ false }
{}

/// Rule 3: a `foreign` package of the other side meets it too, in its own version.
pub fn foreign_meets_across()
    ensures foreign { does_meet by_a_build (codes "make (>= 3)")
        (in_version (codes "4") (of_amd64 (codes "make") Foreign)) ≡ true }
    ensures too_old { does_meet by_a_build (codes "make (>= 3)")
        (in_version (codes "2") (of_amd64 (codes "make") Foreign)) ≡ false }
    ensures not_foreign { does_meet by_a_build (codes "make (>= 3)")
        (in_version (codes "4") (of_amd64 (codes "make") No)) ≡ false }
    ensures all_and_foreign { does_meet by_a_build (codes "helper")
        (of_all (codes "helper") Foreign) ≡ true }
{}

/// Rule 4: a package of the host serves those of the host alone.
pub fn host_serves_host()
    ensures foreign { does_meet by_riscv64 (codes "make") (of_riscv64 (codes "make") Foreign)
        ≡ true }
    ensures foreign_across { does_meet by_amd64 (codes "make") (of_riscv64 (codes "make") Foreign)
        ≡ false }
    ensures allowed { does_meet by_riscv64 (codes "python3:any")
        (of_riscv64 (codes "python3") Allowed)
        ≡ true }
    ensures allowed_across { does_meet by_amd64 (codes "python3:any")
        (of_riscv64 (codes "python3") Allowed)
        ≡ false }
{}

/// Rule 5: `:any` is met by what is `allowed`, of either side, and by nothing else.
pub fn any_is_met_by_allowed()
    ensures allowed { does_meet by_a_build (codes "python3:any (>= 3)")
        (in_version (codes "3.13") (of_amd64 (codes "python3") Allowed)) ≡ true }
    ensures foreign { does_meet by_a_build (codes "perl:any") (of_amd64 (codes "perl") Foreign)
        ≡ false }
    ensures own_side { does_meet by_a_build (codes "tcl:any") (of_riscv64 (codes "tcl") No)
        ≡ false }
    ensures same { does_meet by_amd64 (codes "tcl:any") (of_amd64 (codes "tcl") Same) ≡ false }
    ensures without_any { does_meet by_a_build (codes "python3")
        (of_amd64 (codes "python3") Allowed) ≡ false }
{}

/// Rule 6: with the name of an architecture a need is of that one, whoever has it.
pub fn named_is_of_its_side()
    ensures host { does_meet by_a_build (codes "libz:riscv64") (of_riscv64 (codes "libz") Same)
        ≡ true }
    ensures build { does_meet by_a_build (codes "tool:amd64") (of_amd64 (codes "tool") No)
        ≡ true }
    ensures not_host { does_meet by_a_build (codes "tool:amd64") (of_riscv64 (codes "tool") No)
        ≡ false }
    ensures foreign { does_meet by_a_build (codes "make:riscv64") (of_amd64 (codes "make") Foreign)
        ≡ false }
    ensures foreign_of_it { does_meet by_a_build (codes "make:amd64")
        (of_amd64 (codes "make") Foreign) ≡ true }
    ensures third { does_meet by_a_build (codes "libi:i386") (of_amd64 (codes "libi") Foreign)
        ≡ false }
{}

/// Rule 7: `:native` of a build is met by a package of the build architecture that is not
/// `foreign`; of a package it is met by nothing.
pub fn native_is_of_the_build_side()
    ensures build { does_meet by_a_build (codes "libz:native") (of_amd64 (codes "libz") Same)
        ≡ true }
    ensures all { does_meet by_a_build (codes "data:native") (of_all (codes "data") No) ≡ true }
    ensures not_host { does_meet by_a_build (codes "libz:native") (of_riscv64 (codes "libz") Same)
        ≡ false }
    ensures foreign { does_meet by_a_build (codes "make:native") (of_amd64 (codes "make") Foreign)
        ≡ false }
    ensures of_a_package { does_meet by_amd64 (codes "libz:native") (of_amd64 (codes "libz") Same)
        ≡ false }
{}

/// Rule 8: what is provided counts as the package does that provides it, or as the architecture
/// that it names.
pub fn provided_counts_as_its_package()
    ensures foreign { does_meet by_a_build (codes "debhelper-compat (= 13)")
        (providing (codes "debhelper-compat (= 13)") (of_all (codes "debhelper") Foreign))
        ≡ true }
    ensures own_side { does_meet by_a_build (codes "libz")
        (providing (codes "libz") (of_riscv64 (codes "libz-ng") No)) ≡ true }
    ensures other_side { does_meet by_a_build (codes "libz")
        (providing (codes "libz") (of_amd64 (codes "libz-ng") No)) ≡ false }
    ensures allowed { does_meet by_a_build (codes "python3-api:any")
        (providing (codes "python3-api") (of_amd64 (codes "python3") Allowed)) ≡ true }
    ensures host_across { does_meet by_amd64 (codes "make-api")
        (providing (codes "make-api") (of_riscv64 (codes "make") Foreign)) ≡ false }
    ensures named { does_meet by_amd64 (codes "cc")
        (providing (codes "cc:amd64") (of_riscv64 (codes "gcc") No)) ≡ true }
    ensures named_alone { does_meet by_riscv64 (codes "cc")
        (providing (codes "cc:amd64") (of_riscv64 (codes "gcc") Foreign)) ≡ false }
    ensures no_version { does_meet by_a_build (codes "libz (>= 1)")
        (providing (codes "libz") (of_riscv64 (codes "libz-ng") No)) ≡ false }
{}
