//! Rows of the rules on clashes: who excludes whom.
#![tactic(auto, unfolding(crate::proofs::Computed::by_computation))]

ghost use Rattle.std.specs.Prelude.{◌≡◌, codes, true, false};
ghost use Rattle.cross_laws.specs.declared.types.MultiArch.TheVariants.{No, Same, Foreign, Allowed};
ghost use Rattle.cross_laws.specs.Excludes.{breaks, conflicts};
ghost use Rattle.cross_laws.specs.Paragraphs.{breaking, build_clash_hits, conflicting, in_version, jpeg_of_riscv64, of_all, of_amd64, of_riscv64, providing, sides};

/// Rule 9: without a qualifier a clash is of all architectures.
pub fn clash_is_of_all()
    ensures across { conflicts sides (conflicting (codes "old") (of_riscv64 (codes "libz") Same))
        (of_amd64 (codes "old") No) ≡ true }
    ensures own_side { conflicts sides (conflicting (codes "old") (of_riscv64 (codes "libz") Same))
        (of_riscv64 (codes "old") No) ≡ true }
    ensures from_the_other { conflicts sides (of_amd64 (codes "old") No)
        (conflicting (codes "old") (of_riscv64 (codes "libz") Same)) ≡ true }
    ensures provided { conflicts sides (conflicting (codes "mta") (of_riscv64 (codes "exim") No))
        (providing (codes "mta") (of_amd64 (codes "postfix") No)) ≡ true }
    ensures any { breaks sides (breaking (codes "old:any (<< 2)") (of_riscv64 (codes "libz") Same))
        (of_amd64 (codes "old") No) ≡ true }
    ensures not_as_new { breaks sides
        (breaking (codes "old (<< 2)") (of_riscv64 (codes "libz") Same))
        (in_version (codes "2") (of_amd64 (codes "old") No)) ≡ false }
    ensures declared_by_the_other { breaks sides (of_amd64 (codes "old") No)
        (breaking (codes "old") (of_riscv64 (codes "libz") Same)) ≡ false }
    ensures of_a_build { build_clash_hits (codes "old") (of_amd64 (codes "old") No) ≡ true }
{}

/// Rule 10: with a qualifier a clash is of that architecture alone.
pub fn named_clash_is_of_its_side()
    ensures host { conflicts sides
        (conflicting (codes "old:riscv64") (of_riscv64 (codes "libz") Same))
        (of_riscv64 (codes "old") Same) ≡ true }
    ensures not_build { conflicts sides
        (conflicting (codes "old:riscv64") (of_riscv64 (codes "libz") Same))
        (of_amd64 (codes "old") Same) ≡ false }
    ensures foreign { conflicts sides
        (conflicting (codes "old:riscv64") (of_riscv64 (codes "libz") Same))
        (of_amd64 (codes "old") Foreign) ≡ false }
    ensures all { conflicts sides (conflicting (codes "old:amd64") (of_riscv64 (codes "libz") Same))
        (of_all (codes "old") No) ≡ true }
    ensures third { conflicts sides
        (conflicting (codes "old:i386") (of_riscv64 (codes "libz") Same))
        (of_riscv64 (codes "old") Same) ≡ false }
    ensures native_of_a_build { build_clash_hits (codes "old:native") (of_amd64 (codes "old") No)
        ≡ true }
    ensures native_not_host { build_clash_hits (codes "old:native") (of_riscv64 (codes "old") No)
        ≡ false }
{}

/// Rule 11: two architectures of a package exclude each other unless both are `same`.
pub fn only_same_are_together()
    ensures both { conflicts sides (of_amd64 (codes "libz") Same) (of_riscv64 (codes "libz") Same)
        ≡ false }
    ensures neither { conflicts sides (of_amd64 (codes "tool") No) (of_riscv64 (codes "tool") No)
        ≡ true }
    ensures build_alone { conflicts sides (of_amd64 (codes "libz") Same)
        (of_riscv64 (codes "libz") No) ≡ true }
    ensures host_alone { conflicts sides (of_amd64 (codes "libz") No)
        (of_riscv64 (codes "libz") Same) ≡ true }
    ensures foreign { conflicts sides (of_amd64 (codes "make") Foreign)
        (of_riscv64 (codes "make") Foreign)
        ≡ true }
    ensures allowed { conflicts sides (of_amd64 (codes "perl") Allowed)
        (of_riscv64 (codes "perl") Allowed)
        ≡ true }
    ensures other_names { conflicts sides (of_amd64 (codes "tool") No)
        (of_riscv64 (codes "make") No) ≡ false }
{}

/// Rule 12: two that are `same` are configured in equal versions alone, by the order of versions.
pub fn same_are_of_one_version()
    ensures one { breaks sides (of_amd64 (codes "libz") Same) (of_riscv64 (codes "libz") Same)
        ≡ false }
    ensures newer { breaks sides (of_amd64 (codes "libz") Same)
        (in_version (codes "2") (of_riscv64 (codes "libz") Same)) ≡ true }
    ensures older { breaks sides (in_version (codes "2") (of_riscv64 (codes "libz") Same))
        (of_amd64 (codes "libz") Same) ≡ true }
    ensures rebuilt { breaks sides (in_version (codes "1+b1") (of_amd64 (codes "libz") Same))
        (of_riscv64 (codes "libz") Same) ≡ true }
    ensures spelled_otherwise { breaks sides (of_amd64 (codes "libz") Same)
        (in_version (codes "0:1") (of_riscv64 (codes "libz") Same)) ≡ false }
    ensures no_conflict { conflicts sides (of_amd64 (codes "libz") Same)
        (in_version (codes "2") (of_riscv64 (codes "libz") Same)) ≡ false }
{}

/// Rule 13: a clash hits no package of the same name on the other side.
pub fn clash_spares_its_own_name()
    ensures sister { conflicts sides jpeg_of_riscv64
        (providing (codes "jpeg-dev") (of_amd64 (codes "jpeg") Same)) ≡ false }
    ensures other_provider { conflicts sides jpeg_of_riscv64
        (providing (codes "jpeg-dev") (of_amd64 (codes "turbo") Same)) ≡ true }
    ensures named { conflicts sides
        (conflicting (codes "jpeg:amd64") (of_riscv64 (codes "jpeg") Same))
        (of_amd64 (codes "jpeg") Same) ≡ false }
    ensures breaks_itself { breaks sides
        (breaking (codes "libz (<< 2)") (of_riscv64 (codes "libz") Same))
        (of_amd64 (codes "libz") Same) ≡ false }
{}
