//! Laws of the inclusions of known rows, place by place.

ghost use Rattle.verdict_laws.specs.Places.{EachTestIsExact, KeepingIsByPlace, SettledRowsAreKeeping, FirstUnjustifiedIsOne};
ghost use Rattle.verdict_laws.specs.Agreeing.{AgreeingRowsAreAlike};
ghost use Rattle.verdict_laws.specs.Carried.{GreatestIsCarried};

/// At each place of a plan the test of the inclusion passes exactly where the inclusion holds.
pub fn each_test_is_exact()
    ensures { EachTestIsExact }
{}

/// Rows keep to the inclusions exactly where they do at each place.
pub fn keeping_is_by_place()
    ensures { KeepingIsByPlace }
{}

/// Rows keep to the inclusions exactly where the test of all places passes.
pub fn settled_rows_are_keeping()
    ensures { SettledRowsAreKeeping }
{}

/// Two places that are the first whose row is not justified are the same.
pub fn first_unjustified_is_one()
    ensures { FirstUnjustifiedIsOne }
{}

/// Rows that agree at the places of a plan are justified at the same places, and the same is unsafe
/// under them.
pub fn agreeing_rows_are_alike()
    ensures { AgreeingRowsAreAlike }
{}

/// The greatest rows have the initial archive at each place, and lose nothing along a lane but what
/// its branches taught.
pub fn greatest_is_carried()
    ensures { GreatestIsCarried }
{}
