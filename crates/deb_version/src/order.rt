//! The order of the parts of versions, in one pass over their bytes.

ghost use Rattle.std.specs.Prelude.{◌≡◌, ◌+◌, ◌==◌, ◌<◌, false, [], ◌∷◌, length, IfSome, IfNone};
ghost use Rattle.deb_text.specs.Common.{is_digit, number, first_is, front, behind};
ghost use Rattle.std.specs.Ordering.{nat_cmp};
ghost use Rattle.deb_version.specs.Order.{rank_of, word_cmp, run_cmp, part_cmp};
ghost use Rattle.deb_version.specs.Runs.{is_other, is_zero, front_rank, first_run, after_run};

use std::cmp::Ordering;

/// The weight of a word's end: after `~` and before the letters.
const END_RANK: u16 = 1;

/// Compares two parts, an upstream or a revision each.
pub fn compare_parts(a: &[u8], b: &[u8]) -> Ordering
    ensures { result ≡ part_cmp a.now b.now }
{
    let mut xs = a;
    let mut ys = b;
    loop {
        if are_used_up(xs, ys) {
            return Ordering::Equal;
        }
        let (order, after_x, after_y) = compare_runs(xs, ys);
        if order.is_ne() {
            return order;
        }
        xs = after_x;
        ys = after_y;
    }
}

fn are_used_up(a: &[u8], b: &[u8]) -> bool
    ensures { result ≡ (length a.now + length b.now == 0) }
{
    a.is_empty() && b.is_empty()
}

/// Compares the first runs, and gives what stands behind them where they are equal.
#[tactic(auto, using(crate::proofs::RunLaws::number_plain, crate::proofs::RunLaws::behind_plain))]
fn compare_runs<'a, 'b>(a: &'a [u8], b: &'b [u8]) -> (Ordering, &'a [u8], &'b [u8])
    ensures order { result.0 ≡ run_cmp (first_run a.now) (first_run b.now) }
    ensures rest { result.0 ≡ Ordering.Equal
        → (result.1.now ≡ after_run a.now) × (result.2.now ≡ after_run b.now) }
{
    match compare_words(a, b) {
        (Ordering::Equal, xs, ys) => compare_digits(without_zeros(xs), without_zeros(ys)),
        unequal => unequal,
    }
}

/// Compares the words at the front, and gives what stands behind them where they are equal.
fn compare_words<'a, 'b>(a: &'a [u8], b: &'b [u8]) -> (Ordering, &'a [u8], &'b [u8])
    ensures order { result.0 ≡ word_cmp (front is_other a.now) (front is_other b.now) }
    ensures rest { result.0 ≡ Ordering.Equal
        → (result.1.now ≡ behind is_other a.now) × (result.2.now ≡ behind is_other b.now) }
{
    let mut xs = a;
    let mut ys = b;
    loop {
        let x = front_rank(xs);
        let y = front_rank(ys);
        if x != y {
            return (x.cmp(&y), xs, ys);
        }
        if x == END_RANK {
            return (Ordering::Equal, xs, ys);
        }
        xs = &xs[1..];
        ys = &ys[1..];
    }
}

/// The weight of the first byte, or `END_RANK` at a digit and at the end.
fn front_rank(part: &[u8]) -> u16
    ensures { result ≡ front_rank part.now }
{
    match part.first() {
        Some(b) if !b.is_ascii_digit() => rank_of(*b),
        _ => END_RANK,
    }
}

fn rank_of(b: u8) -> u16
    ensures { result ≡ rank_of b }
{
    if b == b'~' {
        0
    } else if b.is_ascii_alphabetic() {
        u16::from(b)
    } else {
        u16::from(b) + 256
    }
}

fn without_zeros(part: &[u8]) -> &[u8]
    ensures rest { result.now ≡ behind is_zero part.now }
    ensures plain { first_is is_zero result.now ≡ false }
{
    let mut xs = part;
    while let [b'0', rest @ ..] = xs {
        xs = rest;
    }
    xs
}

/// Compares two numbers of digits, neither of which begins with a zero, and gives what stands
/// behind them where they are equal. The first digit that differs decides, unless one number is
/// longer.
fn compare_digits<'a, 'b>(a: &'a [u8], b: &'b [u8]) -> (Ordering, &'a [u8], &'b [u8])
    requires a_plain { first_is is_zero a.now ≡ false }
    requires b_plain { first_is is_zero b.now ≡ false }
    ensures order { result.0
        ≡ nat_cmp (number (front is_digit a.now)) (number (front is_digit b.now)) }
    ensures rest { result.0 ≡ Ordering.Equal
        → (result.1.now ≡ behind is_digit a.now) × (result.2.now ≡ behind is_digit b.now) }
{
    let mut xs = a;
    let mut ys = b;
    let mut so_far = Ordering::Equal;
    loop {
        match (split_digit(xs), split_digit(ys)) {
            (None, None) => return (so_far, xs, ys),
            (None, Some(_)) => return (Ordering::Less, xs, ys),
            (Some(_), None) => return (Ordering::Greater, xs, ys),
            (Some((x, after_x)), Some((y, after_y))) => {
                so_far = so_far.then(x.cmp(&y));
                xs = after_x;
                ys = after_y;
            }
        }
    }
}

/// The digit at the front, and what stands behind it.
fn split_digit(part: &[u8]) -> Option<(u8, &[u8])>
    ensures none { IfNone result
        ((front is_digit part.now ≡ []) × (behind is_digit part.now ≡ part.now)) }
    ensures digit { IfSome result (λ x. front is_digit part.now ≡ x.0 ∷ front is_digit x.1.now) }
    ensures rest { IfSome result (λ x. behind is_digit part.now ≡ behind is_digit x.1.now) }
    ensures shorter { IfSome result (λ x. length x.1.now < length part.now) }
{
    match part {
        [first, rest @ ..] if first.is_ascii_digit() => Some((*first, rest)),
        _ => None,
    }
}
