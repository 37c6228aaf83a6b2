//! Tests of the numbers below a count: the entries of a list, the alternatives of an entry.

ghost use Rattle.std.specs.Prelude.{◌≡◌, ◌<◌, ℕ, Bool};
ghost use Rattle.farm_model.specs.Common.{some_below, Universe};

use farm_universe::Universe;

/// A test of the numbers below a count.
pub trait NumberTest {
    ghost fits: { Universe → Self → Type 0 } = { λ _ _. Unit {0} };

    ghost count: { Universe → Self → ℕ };

    ghost test: { Universe → Self → ℕ → Bool };

    fn passes(&self, universe: &Universe, number: usize) -> bool
        requires fits { fits universe.now self.now }
        requires within { number < count universe.now self.now }
        ensures { result ≡ test universe.now self.now number };
}

/// Tells whether some number below the count passes.
pub fn some_number<T: NumberTest>(universe: &Universe, count: usize, test: &T) -> bool
    requires fits { T.fits universe.now test.now }
    requires count { count ≡ T.count universe.now test.now }
    ensures { result
        ≡ some_below (T.count universe.now test.now) (T.test universe.now test.now) }
{
    for number in 0..count {
        if test.passes(universe, number) {
            return true;
        }
    }
    false
}
