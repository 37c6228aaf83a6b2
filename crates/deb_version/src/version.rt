//! Versions of packages.

ghost use Rattle.std.specs.Prelude.{◌≡◌, Ok, IfOk, refl};
ghost use Rattle.std.proofs.Common.{rules};
ghost use Rattle.std.specs.Cmp.{partial_equiv_from_equiv, po};
ghost use Rattle.std.specs.Cmp.Rules.{comparing};
ghost use Rattle.std.specs.Ordering.{as_partial_cmp, eq_by_cmp};
ghost use Rattle.deb_version.specs.OrderLaws.{text_cmp_total, text_eq_equiv};
ghost use Rattle.deb_version.specs.Grammar.{version_at, parts_at, text_cmp};
ghost use Rattle.deb_text.specs.Answers.{Gives};
ghost use Rattle.deb_version.specs.View.{refusal_of};

use crate::borrowed::VersionRef;
use crate::error::VersionError;
use std::alloc::{AllocError, Global};
use std::cmp::Ordering;
use std::marker::Model;

/// A version of a package, `[epoch:]upstream[-revision]`, as Debian Policy 5.6.12 describes it.
///
/// A contract sees its text. Versions that Policy takes for equal are equal, however they are
/// written: `1.0`, `1.0-0` and `0:1.0` are.
#[derive(Drop)]
pub struct Version {
    pub(crate) text: Vec<u8>,
    pub(crate) epoch: u32,
    /// Where the upstream begins in the text, and where it ends.
    pub(crate) start: u16,
    pub(crate) end: u16,
}

impl Model for Version {
    ghost use Rattle.std.specs.Prelude.{ℕ, List};
    ghost use Rattle.deb_version.specs.Places.{IsVersion};

    ghost Value = { List ℕ };

    ghost view = { λ v. v.text.items };

    ghost invariant = { λ v. IsVersion v.text.items v.epoch v.start v.end };
}

impl Version {
    /// Reads a version as [`VersionRef::parse`] does, and copies it.
    ///
    /// # Errors
    ///
    /// Those of [`VersionRef::parse`]. Last, 900 where memory ran out. Nothing is kept then.
    pub fn parse(alloc: Global, text: &[u8]) -> Result<Version, VersionError>
        ensures parts { Gives refusal_of parts_at result (version_at text.now) }
        ensures text { IfOk result (λ version. version ≡ text.now) }
    {
        Ok(VersionRef::parse(text)?.to_version(alloc)?)
    }

    /// The version, whose text stays where it is.
    pub fn view(&self) -> VersionRef<'_>
        ensures { result ≡ self.now }
    {
        VersionRef {
            text: &self.text,
            epoch: self.epoch,
            start: self.start,
            end: self.end,
        }
    }

    /// The text, as it was written.
    pub fn text(&self) -> &[u8]
        ensures text { result.now ≡ self.now }
        ensures version { version_at self.now ≡ Ok (parts_at self.now) }
    {
        &self.text
    }

    /// Compares two versions: their epochs, then their upstreams, then their revisions. The call
    /// takes no memory.
    pub fn compare(&self, other: &Version) -> Ordering
        ensures order { result ≡ text_cmp self.now other.now }
    {
        self.view().compare(&other.view())
    }
}

impl Clone for Version {
    ghost is_clone = { λ version copy. copy ≡ version };

    fn clone(&self) -> Result<Version, AllocError> {
        Ok(Version {
            text: self.text.clone()?,
            epoch: self.epoch,
            start: self.start,
            end: self.end,
        })
    }
}

impl PartialEq for Version {
    ghost eq = { eq_by_cmp text_cmp };

    ghost laws = { partial_equiv_from_equiv text_eq_equiv };

    fn eq(&self, other: &Version) -> bool {
        self.compare(other).is_eq()
    }
}

impl Eq for Version {
    ghost laws = { text_eq_equiv };
}

impl PartialOrd for Version {
    ghost partial_cmp = { as_partial_cmp text_cmp };

    ghost laws = { po text_cmp_total (λ _ _. refl) };

    fn partial_cmp(&self, other: &Version) -> Option<Ordering> {
        Some(self.compare(other))
    }
}

impl Ord for Version {
    ghost cmp = { text_cmp };

    ghost total = { text_cmp_total };

    ghost matches_partial_cmp = { Prim.search (comparing, rules) };

    ghost matches_eq = { Prim.search (comparing, rules) };

    fn cmp(&self, other: &Version) -> Ordering {
        self.compare(other)
    }
}
