//! A line of a certificate by itself.

ghost use Rattle.std.specs.Prelude.{◌≡◌, ◌<◌, length, IfOk, IfSome, OnOk};
ghost use Rattle.cert_text.specs.Items.{EachIsSaid};
ghost use Rattle.cert_text.specs.CertLines.{numbered_row, known_row, lane_names, order_lane};
ghost use Rattle.deb_text.specs.Groups.{place_in};
ghost use Rattle.std.specs.Str.{bytes_eq};

use crate::list::read_row;
use crate::repeats::Repeats;
use crate::spelled::Spelled;
use bit_rows::Row;
use deb_text::{Class, cut_at_first, next_word, read_number, skip_front, split_front};
use plan_reader::Plan;
use std::alloc::{AllocError, Global};

/// The row behind this number and its colon.
#[tactic(auto, unfolding(crate::specs::CertLines::numbered_row))]
fn read_numbered<'t>(
    alloc: Global,
    spelled: Spelled<'_>,
    repeats: &mut Repeats<'t>,
    number: u32,
    text: &'t [u8],
) -> Result<Option<Row>, AllocError>
    requires { EachIsSaid spelled.universe.now repeats.old }
    ensures row { IfOk result
        (λ row. row ≡ numbered_row spelled.entry.universe.now number text.now) }
    ensures kept { OnOk result (EachIsSaid spelled.entry.universe.now repeats.new) }
{
    let Some((digits, list)) = cut_at_first(b':', text) else {
        return Ok(None);
    };
    match read_number(digits) {
        Some(n) => {
            if n != u64::from(number) {
                return Ok(None);
            }
            read_row(alloc, spelled, repeats, list)
        }
        None => Ok(None),
    }
}

/// The row of a line `known NAME NUMBER: ..` of this name and number, if the line is one.
#[tactic(auto, unfolding(crate::specs::CertLines::known_row))]
pub fn read_known<'t>(
    alloc: Global,
    spelled: Spelled<'_>,
    repeats: &mut Repeats<'t>,
    name: &[u8],
    number: u32,
    line: &'t [u8],
) -> Result<Option<Row>, AllocError>
    requires { EachIsSaid spelled.universe.now repeats.old }
    ensures row { IfOk result
        (λ row. row ≡ known_row spelled.entry.universe.now name.now number line.now) }
    ensures kept { OnOk result (EachIsSaid spelled.entry.universe.now repeats.new) }
{
    let (word, rest) = split_front(Class::Solid, skip_front(Class::Blank, line));
    let (lane, rest) = split_front(Class::Solid, skip_front(Class::Blank, rest));
    if word != b"known".as_slice() || lane != name {
        return Ok(None);
    }
    read_numbered(
        alloc,
        spelled,
        repeats,
        number,
        skip_front(Class::Blank, rest),
    )
}

/// The number of the lane of a name.
fn lane_of(plan: &Plan, name: &[u8]) -> Option<u32>
    ensures { result ≡ place_in bytes_eq (lane_names plan.now.lanes) name.now }
{
    for number in 0..plan.lanes() {
        if name == plan.lane(number).name() {
            return Some(number as u32);
        }
    }
    None
}

/// The lane of a line `order LANE`, if the line is one.
#[tactic(auto, unfolding(crate::specs::CertLines::order_lane))]
pub fn read_order(plan: &Plan, line: &[u8]) -> Option<u32>
    ensures { result ≡ order_lane plan.now.lanes line.now }
{
    let (word, rest) = next_word(line)?;
    let (name, rest) = next_word(rest)?;
    if next_word(rest).is_some() || word != b"order".as_slice() {
        return None;
    }
    lane_of(plan, name)
}
