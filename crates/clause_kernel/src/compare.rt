//! Tests of two rows of one length.

ghost use Rattle.std.specs.Prelude.{◌≡◌, ◌↔◌, ◌==◌, not, ℕ, Bool, IsTrue, length};
ghost use Rattle.clause_kernel.specs.Kernels.{some_pair, shares_bit, meets, lies_in, hits, met, within, same_rows};
ghost use Rattle.clause_kernel.specs.Rows.{Hits, Met, Within};

use super::BLOCK;
use std::simd::prelude::*;

/// Tells whether some position has a bit set in both rows.
pub fn hits(a: &[u64], b: &[u64]) -> bool
    requires { length a.now ≡ length b.now }
    ensures test { result ≡ hits a.now b.now }
    ensures bits { IsTrue result ↔ Hits a.now b.now }
{
    some_pair::<SharesBit>(a, b)
}

/// Tells whether some position of `a` has a bit set, with all its set bits set in `b`.
pub fn met(a: &[u64], b: &[u64]) -> bool
    requires { length a.now ≡ length b.now }
    ensures test { result ≡ met a.now b.now }
    ensures bits { IsTrue result ↔ Met a.now b.now }
{
    some_pair::<IsMet>(a, b)
}

/// Tells whether each bit set in `a` is set in `b`.
pub fn within(a: &[u64], b: &[u64]) -> bool
    requires { length a.now ≡ length b.now }
    ensures test { result ≡ within a.now b.now }
    ensures bits { IsTrue result ↔ Within a.now b.now }
{
    !some_pair::<LeavesBit>(a, b)
}

/// Tells whether the rows are equal.
pub fn same(a: &[u64], b: &[u64]) -> bool
    requires { length a.now ≡ length b.now }
    ensures test { result ≡ same_rows a.now b.now }
    ensures equal { IsTrue result ↔ (a.now ≡ b.now) }
{
    !some_pair::<Differs>(a, b)
}

// A test of two words, one at a time or eight.
trait PairTest {
    ghost test: { ℕ → ℕ → Bool };

    fn any_lane(x: u64x8, y: u64x8) -> bool
        requires x_len { length x ≡ 8 }
        requires y_len { length y ≡ 8 }
        ensures { result ≡ some_pair test x y };

    fn word(x: u64, y: u64) -> bool
        ensures { result ≡ test x y };
}

struct SharesBit;

impl PairTest for SharesBit {
    ghost test = { shares_bit };

    #[inline(always)]
    fn any_lane(x: u64x8, y: u64x8) -> bool {
        (x & y).simd_ne(u64x8::splat(0)).any()
    }

    #[inline(always)]
    fn word(x: u64, y: u64) -> bool {
        x & y != 0
    }
}

struct IsMet;

impl PairTest for IsMet {
    ghost test = { meets };

    #[inline(always)]
    fn any_lane(x: u64x8, y: u64x8) -> bool {
        (x.simd_ne(u64x8::splat(0)) & (x & y).simd_eq(x)).any()
    }

    #[inline(always)]
    fn word(x: u64, y: u64) -> bool {
        x != 0 && x & y == x
    }
}

struct LeavesBit;

impl PairTest for LeavesBit {
    ghost test = { λ x y. not (lies_in x y) };

    #[inline(always)]
    fn any_lane(x: u64x8, y: u64x8) -> bool {
        (x & y).simd_ne(x).any()
    }

    #[inline(always)]
    fn word(x: u64, y: u64) -> bool {
        x & y != x
    }
}

struct Differs;

impl PairTest for Differs {
    ghost test = { λ x y. not (x == y) };

    #[inline(always)]
    fn any_lane(x: u64x8, y: u64x8) -> bool {
        x.simd_ne(y).any()
    }

    #[inline(always)]
    fn word(x: u64, y: u64) -> bool {
        x != y
    }
}

// Whether some position passes the test.
fn some_pair<T: PairTest>(a: &[u64], b: &[u64]) -> bool
    requires { length a.now ≡ length b.now }
    ensures { result ≡ some_pair T.test a.now b.now }
{
    let mut at = 0;
    while a.len() - at >= BLOCK {
        if T::any_lane(u64x8::from_slice(&a[at..]), u64x8::from_slice(&b[at..])) {
            return true;
        }
        at += BLOCK;
    }
    while at < a.len() {
        if T::word(a[at], b[at]) {
            return true;
        }
        at += 1;
    }
    false
}
