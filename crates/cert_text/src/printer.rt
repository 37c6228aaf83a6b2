//! The text of a certificate.

ghost use Rattle.std.specs.Prelude.{◌≡◌, ◌<◌, ◌≤◌, ◌++◌, codes, length, All, IfOk, OnOk};
ghost use Rattle.std.specs.List.{flat_map, zip};
ghost use Rattle.cert_text.specs.Certificates.{IsCertificate, IsNewRow, count_rows};
ghost use Rattle.cert_text.specs.Printed.{variant_text, more_text, list_text, known_line, known_lines, order_line, certificate_text};
ghost use Rattle.cert_text.specs.Rows.{IsOfUniverse, row_variants, named_in_row};
ghost use Rattle.farm_model.specs.Packages.{names};
ghost use Rattle.farm_universe.specs.Kept.{IsKept};
ghost use Rattle.plan_reader.specs.Ends.{IsWithinLimits};
ghost use Rattle.plan_reader.specs.Listing.{name_of_number};

use crate::certificate::Certificate;
use crate::places::row_places;
use bit_rows::Row;
use deb_text::push_pieces;
use farm_model::Variant;
use farm_universe::Universe;
use plan_reader::{Lane, Plan};
use std::alloc::{AllocError, Global};

/// Puts the variants of a name that a row has behind others.
fn push_named(
    universe: &Universe,
    row: &Row,
    name: u32,
    found: &mut Vec<Variant>,
) -> Result<(), AllocError>
    requires kept { IsKept universe.now }
    requires long { length row.now ≡ names universe.now }
    requires name { name < names universe.now }
    ensures { OnOk result (found.new.items
        ≡ found.old.items ++ named_in_row universe.now row.now name) }
{
    for bit in 0..universe.variants(name) {
        if row.has(name as usize, bit) {
            found.push(Variant { name, bit })?;
        }
    }
    Ok(())
}

/// The variants of a row by name number and bit.
fn row_variants(alloc: Global, universe: &Universe, row: &Row) -> Result<Vec<Variant>, AllocError>
    requires { length row.now ≡ names universe.now }
    ensures row { IfOk result (λ found. found.items ≡ row_variants universe.now row.now) }
    ensures known { IfOk result (λ found. All (IsOfUniverse universe.now) found.items) }
{
    let mut found = Vec::new(alloc);
    for name in 0..universe.names() {
        if row.word(name as usize) != 0 {
            push_named(universe, row, name, &mut found)?;
        }
    }
    Ok(found)
}

#[tactic(auto, unfolding(crate::specs::Printed::variant_text))]
fn push_variant(text: &mut Vec<u8>, universe: &Universe, variant: Variant) -> Result<(), AllocError>
    requires { IsOfUniverse universe.now variant }
    ensures { OnOk result (text.new.items ≡ text.old.items ++ variant_text universe.now variant) }
{
    let name = universe.name_text(variant.name);
    push_pieces(
        text,
        &[name, b" (= ", universe.version(variant).text(), b")"],
    )
}

/// Puts variants behind a text, a comma and a space ahead of each.
fn push_more(
    text: &mut Vec<u8>,
    universe: &Universe,
    variants: &[Variant],
) -> Result<(), AllocError>
    requires { All (IsOfUniverse universe.now) variants.now }
    ensures { OnOk result (text.new.items ≡ text.old.items ++ more_text universe.now variants.now) }
{
    for i in 0..variants.len() {
        text.extend_from_slice(b", ")?;
        push_variant(text, universe, variants[i])?;
    }
    Ok(())
}

fn push_list(
    text: &mut Vec<u8>,
    universe: &Universe,
    variants: &[Variant],
) -> Result<(), AllocError>
    requires { All (IsOfUniverse universe.now) variants.now }
    ensures { OnOk result (text.new.items ≡ text.old.items ++ list_text universe.now variants.now) }
{
    match variants {
        [] => Ok(()),
        [first, more @ ..] => {
            text.extend_from_slice(b" ")?;
            push_variant(text, universe, *first)?;
            push_more(text, universe, more)
        }
    }
}

#[tactic(auto, unfolding(crate::specs::Printed::known_line))]
fn push_known(
    alloc: Global,
    text: &mut Vec<u8>,
    universe: &Universe,
    name: &[u8],
    place: u32,
    row: &Row,
) -> Result<(), AllocError>
    requires { length row.now ≡ names universe.now }
    ensures { OnOk result
        (text.new.items ≡ text.old.items ++ known_line universe.now name.now (place, row.now)) }
{
    let number = format!(in alloc; "{place}")?;
    push_pieces(text, &[b"known ", name, b" ", number.as_bytes(), b":"])?;
    push_list(text, universe, &row_variants(alloc, universe, row)?)?;
    text.extend_from_slice(b"\n")?;
    Ok(())
}

fn push_lane(
    alloc: Global,
    text: &mut Vec<u8>,
    universe: &Universe,
    lane: &Lane,
    rows: &[Row],
) -> Result<(), AllocError>
    requires few { length lane.now.instructions ≤ 65536 }
    requires counted { length rows.now ≡ count_rows lane.now }
    requires long { All (IsNewRow universe.now) rows.now }
    ensures { OnOk result
        (text.new.items ≡ text.old.items ++ known_lines universe.now (lane.now, rows.now)) }
{
    let places = row_places(alloc, lane)?;
    for i in 0..rows.len() {
        push_known(alloc, text, universe, lane.name(), places[i], &rows[i])?;
    }
    Ok(())
}

fn push_order(text: &mut Vec<u8>, plan: &Plan, order: &[u32]) -> Result<(), AllocError>
    requires { All (λ l. l < length plan.now.lanes) order.now }
    ensures { OnOk result
        (text.new.items ≡ text.old.items ++ flat_map (order_line plan.now.lanes) order.now) }
{
    for i in 0..order.len() {
        push_pieces(
            text,
            &[b"order ", plan.lane(order[i] as usize).name(), b"\n"],
        )?;
    }
    Ok(())
}

/// Prints the certificate of a plan that was read over this universe: `cert 1`; for each lane and
/// each of its waits, publishes and `when`s a line `known LANE NUMBER: NAME (= VERSION), ..` by
/// name number and version, NUMBER being the instruction's; then `order LANE` for each item of the
/// order. A lane that knows nothing more there has a line that ends at its colon. Versions stand as
/// the packages text spells them.
#[tactic(auto, unfolding(crate::specs::Printed::certificate_text))]
pub fn print(
    alloc: Global,
    universe: &Universe,
    plan: &Plan,
    certificate: &Certificate,
) -> Result<Vec<u8>, AllocError>
    requires { IsCertificate universe.now plan.now.lanes certificate.now }
    ensures { IfOk result (λ text.
        text.items ≡ certificate_text universe.now plan.now.lanes certificate.now) }
{
    let mut text = Vec::from_slice(alloc, b"cert 1\n")?;
    for number in 0..plan.lanes() {
        push_lane(
            alloc,
            &mut text,
            universe,
            plan.lane(number),
            certificate.lane_rows(number),
        )?;
    }
    push_order(&mut text, plan, certificate.order())?;
    Ok(text)
}
