//! The row of a list of variants.

ghost use Rattle.std.specs.Prelude.{◌≡◌, None, All, length, IfOk, OnOk};
ghost use Rattle.std.specs.Option.{option_map};
ghost use Rattle.cert_text.specs.Items.{EachIsSaid};
ghost use Rattle.cert_text.specs.Rows.{is_behind, variants_behind, row_at};
ghost use Rattle.farm_model.specs.Packages.{names};
ghost use Rattle.farm_universe.specs.Kept.{IsKept};
ghost use Rattle.farm_universe.specs.ListText.{variant_words};

use crate::repeats::{Repeats, variant_repeated};
use crate::spelled::Spelled;
use bit_rows::Row;
use deb_relation::next_entry;
use farm_model::Variant;
use std::alloc::{AllocError, Global};

/// Tells whether a variant has a later name than the last one or, of the same name, a higher bit.
pub fn is_behind(last: Option<Variant>, variant: Variant) -> bool
    ensures { result ≡ is_behind last variant }
{
    match last {
        Some(last) => {
            last.name < variant.name || last.name == variant.name && last.bit < variant.bit
        }
        None => true,
    }
}

/// The row that a list of variants says, if it says one: each item comes behind the one before it,
/// and none is in the initial archive.
pub fn read_row<'t>(
    alloc: Global,
    spelled: Spelled<'_>,
    repeats: &mut Repeats<'t>,
    text: &'t [u8],
) -> Result<Option<Row>, AllocError>
    requires { EachIsSaid spelled.universe.now repeats.old }
    ensures row { IfOk result (λ row. row ≡ row_at spelled.entry.universe.now text.now) }
    ensures kept { OnOk result (EachIsSaid spelled.entry.universe.now repeats.new) }
{
    let universe = spelled.universe;
    repeats.begin_line();
    let mut row = Row::new(alloc, universe.names() as usize)?;
    let mut last = None;
    let mut left = Some(text);
    while let Some((item, after)) = next_entry(left) {
        let Some(variant) = variant_repeated(alloc, spelled, repeats, item)? else {
            return Ok(None);
        };
        if !is_behind(last, variant) || universe.is_initial(variant) {
            return Ok(None);
        }
        row.set_bit(variant.name as usize, variant.bit)?;
        last = Some(variant);
        left = after;
    }
    Ok(Some(row))
}
