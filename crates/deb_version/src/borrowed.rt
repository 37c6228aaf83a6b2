//! Versions whose texts are kept elsewhere, and how versions are read and compared.

ghost use Rattle.std.specs.Prelude.{◌≡◌, true, Err, IfErr, IfOk};
ghost use Rattle.std.specs.Result.{is_ok};
ghost use Rattle.deb_text.specs.Answers.{Gives};
ghost use Rattle.deb_version.specs.Grammar.{version_at, parts_at, text_cmp};
ghost use Rattle.deb_version.specs.Order.{revision_of};
ghost use Rattle.deb_version.specs.View.{refusal_of};

use crate::error::{BAD_CHARACTER, EMPTY_PART, EPOCH_TOO_LARGE, TOO_LONG, VersionError};
use crate::grammar::{
    MAX_LENGTH, Pieces, cut_into_pieces, epoch_of, has_bad_byte, has_empty_piece, start_of,
};
use crate::order::compare_parts;
use crate::version::Version;
use deb_text::is_same_text;
use std::alloc::{AllocError, Global};
use std::cmp::Ordering;
use std::marker::Model;

/// A version whose text is kept elsewhere. A contract sees its text, as it does for a [`Version`].
#[derive(Drop)]
pub struct VersionRef<'a> {
    pub(crate) text: &'a [u8],
    pub(crate) epoch: u32,
    /// Where the upstream begins in the text, and where it ends: comparing needs no search.
    pub(crate) start: u16,
    pub(crate) end: u16,
}

impl<'a> Model for VersionRef<'a> {
    ghost use Rattle.std.specs.Prelude.{ℕ, List};
    ghost use Rattle.deb_version.specs.Places.{IsVersion};

    ghost Value = { List ℕ };

    ghost view = { λ v. v.text.now };

    ghost invariant = { λ v. IsVersion v.text.now v.epoch v.start v.end };
}

impl<'a> VersionRef<'a> {
    /// Reads a version, and keeps nothing of its text.
    ///
    /// Upstream may have letters, digits and `. + - ~`, and colons where an epoch is present; a
    /// revision may have letters, digits and `+ . ~`. Upstream need not begin with a digit.
    ///
    /// # Errors
    ///
    /// In this order: [`TOO_LONG`] over 512 bytes; [`EMPTY_PART`] where the epoch, the upstream or
    /// the revision is there and empty; [`BAD_CHARACTER`] where one has a byte that it may not
    /// have; [`EPOCH_TOO_LARGE`] over 2147483647.
    #[tactic(auto, unfolding(crate::specs::Grammar::version_at))]
    pub fn parse(text: &'a [u8]) -> Result<VersionRef<'a>, VersionError>
        ensures parts { Gives refusal_of parts_at result (version_at text.now) }
        ensures text { IfOk result (λ version. version ≡ text.now) }
        ensures fault { IfErr result (λ error. version_at text.now ≡ Err error.code) }
    {
        if text.len() > MAX_LENGTH {
            return Err(VersionError { code: TOO_LONG });
        }
        let pieces = cut_into_pieces(text);
        if has_empty_piece(&pieces) {
            return Err(VersionError { code: EMPTY_PART });
        }
        if has_bad_byte(&pieces) {
            return Err(VersionError {
                code: BAD_CHARACTER,
            });
        }
        let Some(epoch) = epoch_of(&pieces) else {
            return Err(VersionError {
                code: EPOCH_TOO_LARGE,
            });
        };
        let start = start_of(&pieces);
        Ok(VersionRef {
            text,
            epoch,
            start: start as u16,
            end: (start + pieces.upstream.len()) as u16,
        })
    }

    /// Takes a text that is known to be a version. Its bytes are not judged again.
    #[tactic(auto, unfolding(crate::specs::Grammar::version_at))]
    pub fn known(text: &'a [u8]) -> VersionRef<'a>
        requires { is_ok (version_at text.now) ≡ true }
        ensures { result ≡ text.now }
    {
        let pieces = cut_into_pieces(text);
        let start = start_of(&pieces);
        VersionRef {
            text,
            epoch: epoch_of(&pieces).unwrap_or(0),
            start: start as u16,
            end: (start + pieces.upstream.len()) as u16,
        }
    }

    /// The text, as it was written.
    pub fn text(&self) -> &'a [u8]
        ensures text { result.now ≡ self.now }
        ensures version { is_ok (version_at self.now) ≡ true }
    {
        self.text
    }

    /// Copies the version.
    pub fn to_version(&self, alloc: Global) -> Result<Version, AllocError>
        ensures { IfOk result (λ version. version ≡ self.now) }
    {
        Ok(Version {
            text: Vec::from_slice(alloc, self.text)?,
            epoch: self.epoch,
            start: self.start,
            end: self.end,
        })
    }

    /// Compares two versions: their epochs, then their upstreams, then their revisions. The call
    /// takes no memory.
    #[tactic(auto, unfolding(crate::specs::Order::version_cmp))]
    pub fn compare(&self, other: &VersionRef) -> Ordering
        ensures order { result ≡ text_cmp self.now other.now }
    {
        if is_same_text(self.text, other.text) {
            return Ordering::Equal;
        }
        match self.epoch.cmp(&other.epoch) {
            Ordering::Equal => {}
            unequal => return unequal,
        }
        match compare_parts(self.upstream(), other.upstream()) {
            Ordering::Equal => {}
            unequal => return unequal,
        }
        compare_parts(self.revision_or_zero(), other.revision_or_zero())
    }

    fn upstream(&self) -> &'a [u8]
        ensures { result.now ≡ (parts_at self.now).upstream }
    {
        &self.text[usize::from(self.start)..usize::from(self.end)]
    }

    /// The revision, which is `0` where it is absent.
    fn revision_or_zero(&self) -> &'a [u8]
        ensures { result.now ≡ revision_of (parts_at self.now) }
    {
        let end = usize::from(self.end);
        if end < self.text.len() {
            &self.text[end + 1..]
        } else {
            b"0"
        }
    }
}
