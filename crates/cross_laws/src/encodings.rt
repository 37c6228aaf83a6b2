//! Rows of the encoding: what becomes of names and fields, and what is not clear.
#![tactic(auto, unfolding(crate::proofs::Computed::by_computation))]

ghost use Rattle.std.specs.Prelude.{◌≡◌, codes, true, false, [], ◌∷◌};
ghost use Rattle.cross_laws.specs.declared.types.MultiArch.TheVariants.{No, Same, Foreign, Allowed};
ghost use Rattle.cross_laws.specs.Names.{is_mark, is_taken};
ghost use Rattle.cross_laws.specs.Encoding.{encoded_clashes, encoded_name, encoded_needs, encoded_package};
ghost use Rattle.cross_laws.specs.Clear.{IsClear};
ghost use Rattle.cross_laws.specs.Paragraphs.{by_a_build, clashes, conflicting, encoded_conflicts_among, encoded_provides_of, in_version, is_clear_beside, is_clear_need, jpeg_of_riscv64, jpegs, needs, of_amd64, of_riscv64, by_amd64, by_riscv64, provides, providing, sides};

/// The names of the host end in its name, and such names, `.any` and `.one` are taken.
pub fn names_have_marks()
    ensures host { encoded_name sides (of_riscv64 (codes "libc6") Same) ≡ codes "libc6.riscv64" }
    ensures build { encoded_name sides (of_amd64 (codes "libc6") Same) ≡ codes "libc6" }
    ensures of_the_host { is_taken sides (codes "libc6.riscv64") ≡ true }
    ensures of_any { is_taken sides (codes "python3.any") ≡ true }
    ensures of_one { is_taken sides (codes "make.one") ≡ true }
    ensures other_marks { is_taken sides (codes "libc6.1") ≡ false }
    ensures no_mark { is_taken sides (codes "riscv64") ≡ false }
    ensures a_host { is_mark (codes "riscv64") ≡ true }
    ensures no_host { is_mark (codes "any") ≡ false }
    ensures no_other_host { is_mark (codes "one") ≡ false }
{}

/// Needs, as those of a package or a build of a side.
pub fn needs_are_encoded()
    ensures host { encoded_needs sides by_riscv64
        (needs (codes "libc6 (>= 2.38), python3:any, make"))
        ≡ needs
        (codes "libc6.riscv64 (>= 2.38), python3.any | python3.any.riscv64, make.riscv64") }
    ensures build { encoded_needs sides by_amd64
        (needs (codes "libc6 | libc6:riscv64, python3:any"))
        ≡ needs (codes "libc6 | libc6.riscv64, python3.any") }
    ensures of_a_build { encoded_needs sides by_a_build
        (needs (codes "libz:native, libi:i386, tool:amd64"))
        ≡ needs (codes "libz, libi:no-i386, tool") }
    ensures native_of_a_package { encoded_needs sides by_amd64 (needs (codes "libz:native"))
        ≡ needs (codes "libz:no-native") }
    ensures restrictions { encoded_needs sides by_a_build
        (needs (codes "libz [linux-any] <!stage1>"))
        ≡ needs (codes "libz.riscv64 [linux-any] <!stage1>") }
{}

/// What a package is and provides.
pub fn provides_are_encoded()
    ensures foreign { encoded_provides_of
        (in_version (codes "4.4.1-2") (of_amd64 (codes "make") Foreign))
        ≡ provides (codes "make.riscv64 (= 4.4.1-2), make.one (= 4.4.1-2)") }
    ensures foreign_of_the_host { encoded_provides_of (of_riscv64 (codes "make") Foreign)
        ≡ provides (codes "make.one (= 1)") }
    ensures allowed { encoded_provides_of (of_amd64 (codes "python3") Allowed)
        ≡ provides (codes "python3.any (= 1), python3.one (= 1)") }
    ensures allowed_of_the_host { encoded_provides_of (of_riscv64 (codes "python3") Allowed)
        ≡ provides (codes "python3.any.riscv64 (= 1), python3.one (= 1)") }
    ensures items { encoded_provides_of
        (providing (codes "compat (= 13)") (of_amd64 (codes "dh") Foreign))
        ≡ provides (codes "compat (= 13), compat.riscv64 (= 13), dh.riscv64 (= 1), dh.one (= 1)") }
    ensures items_of_the_host { encoded_provides_of
        (providing (codes "libz, cc:amd64") (of_riscv64 (codes "libz-ng") No))
        ≡ provides (codes "libz.riscv64, cc, libz-ng.one (= 1)") }
{}

/// What a package, or a build, excludes.
pub fn clashes_are_encoded()
    ensures not_same { (encoded_package sides [] (of_amd64 (codes "make") Foreign)).conflicts
        ≡ clashes (codes "make.one") }
    ensures same { (encoded_package sides [] (of_amd64 (codes "zlib1g") Same)).conflicts ≡ [] }
    ensures versions { (encoded_package sides [] (of_amd64 (codes "zlib1g") Same)).breaks
        ≡ clashes (codes "zlib1g.one (<< 1), zlib1g.one (>> 1)") }
    ensures both_sides { (encoded_package sides []
        (conflicting (codes "old, new:riscv64, odd:i386")
        (of_riscv64 (codes "libz") Same))).conflicts
        ≡ clashes (codes "old, old.riscv64, new.riscv64") }
    ensures of_a_build { encoded_clashes sides (clashes (codes "old (<< 2), libz:native"))
        ≡ clashes (codes "old (<< 2), old.riscv64 (<< 2), libz") }
    ensures others_for_its_own { encoded_conflicts_among jpegs jpeg_of_riscv64 ≡ clashes
        (codes "turbo (= 1)") }
    ensures own_by_the_other_side { encoded_conflicts_among jpegs
        (conflicting (codes "jpeg-dev") (of_riscv64 (codes "jpeg") Same))
        ≡ clashes (codes "turbo (= 1)") }
{}

/// A need that names an architecture, and a package that is `foreign`, are not clear.
pub fn clear_needs()
    ensures other_side { is_clear_need (of_amd64 (codes "make") Foreign) (codes "make:riscv64")
        ≡ false }
    ensures native { is_clear_need (of_amd64 (codes "make") Foreign) (codes "make:native")
        ≡ false }
    ensures own_side { is_clear_need (of_amd64 (codes "make") Foreign) (codes "make:amd64")
        ≡ true }
    ensures unsaid { is_clear_need (of_amd64 (codes "make") Foreign) (codes "make") ≡ true }
    ensures not_foreign { is_clear_need (of_amd64 (codes "make") No) (codes "make:riscv64")
        ≡ true }
    ensures of_the_host { is_clear_need (of_riscv64 (codes "make") Foreign) (codes "make:riscv64")
        ≡ true }
    ensures taken { is_clear_need (of_amd64 (codes "make") No) (codes "libc6.riscv64") ≡ false }
{}

/// A package with a clash with itself is clear, unless another provides the name of one that it
/// hits in that very version.
pub fn clear_clashes()
    ensures itself { IsClear sides jpegs jpeg_of_riscv64 }
    ensures very_version { is_clear_beside
        (providing (codes "turbo (= 1)") (of_amd64 (codes "compat") No)) ≡ false }
    ensures other_version { is_clear_beside
        (providing (codes "turbo (= 2)") (of_amd64 (codes "compat") No)) ≡ true }
    ensures other_side { is_clear_beside
        (providing (codes "turbo (= 1)") (of_riscv64 (codes "compat") No)) ≡ true }
    ensures hit_too { is_clear_beside
        (providing (codes "turbo (= 1), jpeg-dev") (of_amd64 (codes "compat") No)) ≡ true }
{}
