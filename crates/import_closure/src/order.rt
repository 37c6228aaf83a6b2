//! Which of two packages that satisfy an alternative is the better one.

ghost use Rattle.std.specs.Prelude.{◌≡◌};
ghost use Rattle.import_closure.specs.Given.{given_view};
ghost use Rattle.import_closure.specs.Choice.{comes_before, is_higher, provider_before, then_by};

use crate::Given;
use std::cmp::Ordering;

/// Tells whether what was compared is below, or equal and this decides.
fn then_by(order: Ordering, equal: bool) -> bool
    ensures { result ≡ then_by order equal }
{
    match order {
        Ordering::Less => true,
        Ordering::Equal => equal,
        Ordering::Greater => false,
    }
}

fn is_higher(one: &Given, other: &Given) -> bool
    ensures { result ≡ is_higher (given_view one.now) (given_view other.now) }
{
    match one.version.compare(&other.version) {
        Ordering::Greater => true,
        _ => false,
    }
}

/// Of two that provide a name: by Priority, then by name, then by version.
fn provider_before(one: &Given, other: &Given) -> bool
    ensures { result ≡ provider_before (given_view one.now) (given_view other.now) }
{
    let names = one.name.as_slice().cmp(other.name.as_slice());
    then_by(
        one.rank.cmp(&other.rank),
        then_by(names, is_higher(one, other)),
    )
}

/// Tells whether a package is better than another where both satisfy an alternative with a name:
/// that name itself before those that provide it, in its highest version; of these that with the
/// highest Priority, then with the first name, then with the highest version.
pub fn comes_before(name: &[u8], one: &Given, other: &Given) -> bool
    ensures { result ≡ comes_before name.now (given_view one.now) (given_view other.now) }
{
    let is_own = name == one.name.as_slice();
    if name == other.name.as_slice() {
        return is_own && is_higher(one, other);
    }
    is_own || provider_before(one, other)
}
