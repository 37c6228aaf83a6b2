//! The marks behind a row of a `Package-List`: words `KEY=VALUE`.

ghost use Rattle.std.specs.Prelude.{◌≡◌};
ghost use Rattle.std.specs.List.{list_any, slice_split};
ghost use Rattle.std.specs.Option.{option_map};
ghost use Rattle.deb_text.specs.Common.{is_byte, words};
ghost use Rattle.deb_profile.specs.Restriction.{is_among};
ghost use Rattle.debian_index.specs.Given.{fits_place, is_made, mark_in, marks_met, places_of, profiles_fit};

use crate::formula::formula_holds;
use deb_profile::{ArchNames, ProfileSet};
use deb_text::{cut_at_first, next_part, next_word};
use farm_model::Mode;

/// What an architecture of all architectures is written as.
const ALL: &[u8] = b"all";

/// The value of the first mark with a key.
fn mark<'a>(marks: &'a [u8], key: &[u8]) -> Option<&'a [u8]>
    ensures { option_map (λ value. value.now) result ≡ mark_in key.now (words marks.now) }
{
    let mut rest = marks;
    while let Some((word, after)) = next_word(rest) {
        if let Some((name, value)) = cut_at_first(b'=', word) {
            if key == name {
                return Some(value);
            }
        }
        rest = after;
    }
    None
}

/// The architectures of a row, as they are written: `any` where it has none.
fn places(marks: &[u8]) -> &[u8]
    ensures { result.now ≡ places_of (words marks.now) }
{
    mark(marks, b"arch").unwrap_or(b"any")
}

/// Tells whether one of the places between `,` is the architecture's.
fn has_place(places: &[u8], names: &ArchNames) -> bool
    ensures { result ≡ list_any (is_among names.now) (slice_split (is_byte 44) places.now) }
{
    let mut left = Some(places);
    while let Some(rest) = left {
        let (place, after) = next_part(b',', rest);
        if names.matches(place) {
            return true;
        }
        left = after;
    }
    false
}

/// Tells whether a package of these places is one of the architecture's.
fn fits_place(places: &[u8], names: &ArchNames) -> bool
    ensures { result ≡ fits_place (is_among names.now) places.now }
{
    places == ALL || has_place(places, names)
}

/// Tells whether builds of a mode make packages of all architectures, or else of one.
fn is_made(mode: Mode, places: &[u8]) -> bool
    ensures { result ≡ is_made mode places.now }
{
    match mode {
        Mode::Full => true,
        Mode::Arch => places != ALL,
        Mode::Indep => places == ALL,
    }
}

/// Tells whether the profiles of a row are those of a build.
fn profiles_fit(marks: &[u8], active: &ProfileSet) -> bool
    ensures { result ≡ profiles_fit (is_among active.now) (words marks.now) }
{
    match mark(marks, b"profile") {
        Some(formula) => formula_holds(formula, active),
        None => true,
    }
}

/// Tells whether a build makes the package of a row with these marks.
pub fn are_met(marks: &[u8], names: &ArchNames, active: &ProfileSet, mode: Mode) -> bool
    ensures { result ≡ marks_met (is_among names.now) (is_among active.now) mode (words marks.now) }
{
    let places = places(marks);
    is_made(mode, places) && fits_place(places, names) && profiles_fit(marks, active)
}
