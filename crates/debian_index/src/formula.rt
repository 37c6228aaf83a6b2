//! Build profiles of a mark, as `profile=stage1+!nodoc,cross`.

ghost use Rattle.std.specs.Prelude.{◌≡◌};
ghost use Rattle.std.specs.List.{list_all, list_any, slice_split};
ghost use Rattle.deb_text.specs.Bytes.{is_byte};
ghost use Rattle.deb_profile.specs.Restriction.{is_among};
ghost use Rattle.deb_relation.specs.Holding.{item_holds};
ghost use Rattle.debian_index.specs.Given.{formula_holds, item_of};

use deb_profile::ProfileSet;
use deb_text::next_part;

/// Tells whether a profile is active; with `!`, whether it is not.
fn term_holds(term: &[u8], active: &ProfileSet) -> bool
    ensures { result ≡ item_holds (is_among active.now) (item_of term.now) }
{
    match term {
        [b'!', profile @ ..] => !active.is_active(profile),
        _ => active.is_active(term),
    }
}

/// Tells whether all terms between `+` hold.
fn all_hold(terms: &[u8], active: &ProfileSet) -> bool
    ensures { result ≡ list_all (λ term. item_holds (is_among active.now) (item_of term))
        (slice_split (is_byte 43) terms.now) }
{
    let mut left = Some(terms);
    while let Some(rest) = left {
        let (term, after) = next_part(b'+', rest);
        if !term_holds(term, active) {
            return false;
        }
        left = after;
    }
    true
}

/// Tells whether the terms of one part between `,` hold.
pub fn formula_holds(formula: &[u8], active: &ProfileSet) -> bool
    ensures { result ≡ formula_holds (is_among active.now) formula.now }
{
    let mut left = Some(formula);
    while let Some(rest) = left {
        let (terms, after) = next_part(b',', rest);
        if all_hold(terms, active) {
            return true;
        }
        left = after;
    }
    false
}
