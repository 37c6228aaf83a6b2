//! Changes of one row by another of its length.

ghost use Rattle.std.specs.Prelude.{◌≡◌, ◌<◌, ◌^◌, ℕ, length, slice_index, bit_and, bit_or};
ghost use Rattle.std.specs.Int.{bit_not};
ghost use Rattle.std.specs.Simd.Lanes.{zip2};
ghost use mir.Syntax.{w64};
ghost use Rattle.clause_kernel.specs.Kernels.{joined, common, remaining};
ghost use Rattle.clause_kernel.specs.Rows.{HasEither, HasBoth, HasRest};

use super::BLOCK;
use std::simd::prelude::*;

/// Joins the bits of `b` to those of `a`.
pub fn or_into(a: &mut [u64], b: &[u64])
    requires { length a.old ≡ length b.now }
    ensures row { a.new ≡ joined a.old b.now }
    ensures bits { HasEither a.old b.now a.new }
{
    change_each::<Joins>(a, b)
}

/// Keeps the bits of `a` that `b` has.
pub fn and_into(a: &mut [u64], b: &[u64])
    requires { length a.old ≡ length b.now }
    ensures row { a.new ≡ common a.old b.now }
    ensures bits { HasBoth a.old b.now a.new }
{
    change_each::<Keeps>(a, b)
}

/// Takes the bits of `b` out of `a`.
pub fn take_out(a: &mut [u64], b: &[u64])
    requires { length a.old ≡ length b.now }
    ensures row { a.new ≡ remaining a.old b.now }
    ensures bits { HasRest a.old b.now a.new }
{
    change_each::<TakesOut>(a, b)
}

// A change of a word by another, one at a time or eight.
trait PairChange {
    ghost change: { ℕ → ℕ → ℕ };

    fn lanes(x: u64x8, y: u64x8) -> u64x8
        requires x_len { length x ≡ 8 }
        requires y_len { length y ≡ 8 }
        ensures { result ≡ zip2 change x y };

    fn word(x: u64, y: u64) -> u64
        ensures { result ≡ change x y };
}

struct Joins;

impl PairChange for Joins {
    ghost change = { bit_or };

    #[inline(always)]
    fn lanes(x: u64x8, y: u64x8) -> u64x8 {
        x | y
    }

    #[inline(always)]
    fn word(x: u64, y: u64) -> u64 {
        x | y
    }
}

struct Keeps;

impl PairChange for Keeps {
    ghost change = { bit_and };

    #[inline(always)]
    fn lanes(x: u64x8, y: u64x8) -> u64x8 {
        x & y
    }

    #[inline(always)]
    fn word(x: u64, y: u64) -> u64 {
        x & y
    }
}

struct TakesOut;

impl PairChange for TakesOut {
    ghost change = { λ x y. bit_and x (bit_not w64 y) };

    #[inline(always)]
    fn lanes(x: u64x8, y: u64x8) -> u64x8 {
        x & !y
    }

    #[inline(always)]
    fn word(x: u64, y: u64) -> u64 {
        x & !y
    }
}

// Changes the word at each position of `a` by that of `b`.
fn change_each<T: PairChange>(a: &mut [u64], b: &[u64])
    requires { length a.old ≡ length b.now }
    ensures row { a.new ≡ zip2 T.change a.old b.now }
    ensures fits { (i : ℕ) → slice_index a.old i < 2 ^ 64 }
{
    let mut at = 0;
    while a.len() - at >= BLOCK {
        let changed = T::lanes(u64x8::from_slice(&a[at..]), u64x8::from_slice(&b[at..]));
        changed.copy_to_slice(&mut a[at..]);
        at += BLOCK;
    }
    while at < a.len() {
        a[at] = T::word(a[at], b[at]);
        at += 1;
    }
}
