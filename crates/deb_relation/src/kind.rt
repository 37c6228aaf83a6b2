//! The kinds of relation fields.

ghost use Rattle.std.specs.Prelude.{◌≡◌};
ghost use Rattle.deb_relation.specs.Kinds.{is_provide, has_alternatives, has_restrictions};

/// A kind of relation field, which says what may stand in it.
#[derive(Clone, Copy, PartialEq, Eq)]
pub enum Kind {
    /// Depends and Pre-Depends: alternatives.
    Need,
    /// Conflicts and Breaks.
    Clash,
    /// Provides: `=` is the only operator.
    Provide,
    /// Build-Depends, also -Arch and -Indep: alternatives and restrictions.
    BuildNeed,
    /// Build-Conflicts, also -Arch and -Indep: restrictions.
    BuildClash,
}

impl Kind {
    /// Tells whether a version stands behind `=` alone (Debian Policy 7.5).
    pub(crate) fn is_provide(self) -> bool
        ensures { result ≡ is_provide self }
    {
        matches!(self, Kind::Provide)
    }

    /// Tells whether an entry may have several alternatives.
    pub fn has_alternatives(self) -> bool
        ensures { result ≡ has_alternatives self }
    {
        matches!(self, Kind::Need | Kind::BuildNeed)
    }

    /// Tells whether an alternative may have architectures and profiles.
    pub(crate) fn has_restrictions(self) -> bool
        ensures { result ≡ has_restrictions self }
    {
        matches!(self, Kind::BuildNeed | Kind::BuildClash)
    }
}
