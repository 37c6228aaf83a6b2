//! The laws, each the contract of a function that does nothing.

ghost use Rattle.cross_laws.specs.Laws.{BuildClashLaw, ClashLaw, NamesAreInjective, NeedLaw, OwnNeedLaw, PreNeedLaw};

/// An encoded name is decoded: no two names of the two architectures become one.
pub fn names_are_injective()
    ensures { NamesAreInjective }
{}

/// A variant satisfies an encoded entry exactly if its package meets the entry.
pub fn need_law()
    ensures { NeedLaw }
{}

/// Variants that are held together satisfy all entries of one exactly if their packages meet those
/// of its package.
pub fn own_need_law()
    ensures { OwnNeedLaw }
{}

/// Two variants of a name satisfy one alternative of an encoded entry exactly if their packages
/// meet one of the entry.
pub fn pre_need_law()
    ensures { PreNeedLaw }
{}

/// Two variants exclude each other exactly if their packages do.
pub fn clash_law()
    ensures { ClashLaw }
{}

/// A variant satisfies an encoded clash of a build exactly if the clash hits its package.
pub fn build_clash_law()
    ensures { BuildClashLaw }
{}
