//! The grammar of versions: the pieces of a text, and what is wrong with them.

ghost use Rattle.std.specs.Prelude.{◌≡◌, ◌≤◌, nat_lt, true, false, MatchOption};
ghost use Rattle.std.specs.List.{list_all};
ghost use Rattle.deb_text.specs.Common.{is_digit, number};
ghost use Rattle.deb_version.specs.Grammar.{is_revision_byte, is_upstream_byte, pieces_of, has_empty_piece, has_bad_byte, epoch_number};
ghost use Rattle.deb_version.specs.Places.{start_of};
ghost use Rattle.deb_version.specs.View.{pieces_view};

use deb_text::{Class, all_in, cut_at_first, cut_at_last};

/// The longest text of a version, in bytes. The limit is this crate's own.
pub const MAX_LENGTH: usize = 512;

/// The greatest epoch, as in dpkg.
pub const MAX_EPOCH: u32 = 2_147_483_647;

/// A text, cut at its first colon and at the last hyphen behind that.
#[derive(Clone, Copy)]
pub struct Pieces<'a> {
    pub epoch: Option<&'a [u8]>,
    pub upstream: &'a [u8],
    pub revision: Option<&'a [u8]>,
}

/// Cuts a text into its pieces.
pub fn cut_into_pieces(text: &[u8]) -> Pieces<'_>
    ensures { pieces_view result ≡ pieces_of text.now }
{
    let (epoch, rest) = match cut_at_first(b':', text) {
        Some((epoch, rest)) => (Some(epoch), rest),
        None => (None, text),
    };
    let (upstream, revision) = match cut_at_last(b'-', rest) {
        Some((upstream, revision)) => (upstream, Some(revision)),
        None => (rest, None),
    };
    Pieces {
        epoch,
        upstream,
        revision,
    }
}

/// Where the upstream begins in the text.
pub fn start_of(pieces: &Pieces) -> usize
    requires { start_of (pieces_view pieces.now) ≤ MAX_LENGTH }
    ensures { result ≡ start_of (pieces_view pieces.now) }
{
    match pieces.epoch {
        Some(epoch) => epoch.len() + 1,
        None => 0,
    }
}

/// Tells whether a piece is empty.
pub fn has_empty_piece(pieces: &Pieces) -> bool
    ensures { result ≡ has_empty_piece (pieces_view pieces.now) }
{
    pieces.upstream.is_empty()
        || pieces.epoch.is_some_and(|epoch| epoch.is_empty())
        || pieces.revision.is_some_and(|revision| revision.is_empty())
}

/// Tells whether a piece has a byte that it may not have.
pub fn has_bad_byte(pieces: &Pieces) -> bool
    ensures { result ≡ has_bad_byte (pieces_view pieces.now) }
{
    pieces
        .epoch
        .is_some_and(|epoch| !all_in(Class::Digit, epoch))
        || !is_upstream(pieces.upstream, pieces.epoch.is_some())
        || pieces
            .revision
            .is_some_and(|revision| !is_revision(revision))
}

/// The epoch, which is 0 where it is absent, unless it is over [`MAX_EPOCH`].
pub fn epoch_of(pieces: &Pieces) -> Option<u32>
    requires { has_bad_byte (pieces_view pieces.now) ≡ false }
    ensures { MatchOption result (nat_lt MAX_EPOCH (epoch_number (pieces_view pieces.now)) ≡ true)
        (λ epoch. (nat_lt MAX_EPOCH (epoch_number (pieces_view pieces.now)) ≡ false)
        × (epoch ≡ epoch_number (pieces_view pieces.now))) }
{
    match pieces.epoch {
        None => Some(0),
        Some(digits) => number_of(digits),
    }
}

fn is_revision(piece: &[u8]) -> bool
    ensures { result ≡ list_all is_revision_byte piece.now }
{
    piece.iter().all(|b| b.is_ascii_alphanumeric() || matches!(b, b'+' | b'.' | b'~'))
}

fn is_upstream(piece: &[u8], has_epoch: bool) -> bool
    ensures { result ≡ list_all (is_upstream_byte has_epoch) piece.now }
{
    piece.iter().all(|b| {
        b.is_ascii_alphanumeric()
            || matches!(b, b'+' | b'.' | b'~' | b'-')
            || has_epoch && *b == b':'
    })
}

/// The number of these digits, where it is an epoch's.
fn number_of(digits: &[u8]) -> Option<u32>
    requires { list_all is_digit digits.now ≡ true }
    ensures { MatchOption result (nat_lt MAX_EPOCH (number digits.now) ≡ true)
        (λ n. (nat_lt MAX_EPOCH (number digits.now) ≡ false) × (n ≡ number digits.now)) }
{
    let mut number = 0;
    for digit in digits {
        number = number * 10 + u64::from(*digit - b'0');
        if number > u64::from(MAX_EPOCH) {
            return None;
        }
    }
    Some(number as u32)
}
