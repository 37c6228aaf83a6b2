//! Fields of the first paragraph of a farm text.

ghost use Rattle.std.specs.Prelude.{◌≡◌, IfOk};
ghost use Rattle.std.specs.Option.{option_map};
ghost use Rattle.deb_stanza.specs.Stanza.{paragraphs_at};
ghost use Rattle.leg_runs.specs.Legs.{head_value, paragraphs_in};

use crate::leg::LegFault;
use deb_stanza::Paragraphs;
use deb_text::Fault;
use deb_text::files::FARM;
use std::alloc::Global;

/// What ends the reading of a text.
pub fn text_fault(fault: Fault) -> LegFault {
    if fault == Fault::MEMORY {
        LegFault::Memory
    } else {
        LegFault::Text(fault)
    }
}

/// Reads the paragraphs of a farm text.
pub fn read_farm(alloc: Global, text: &[u8]) -> Result<Paragraphs, LegFault>
    ensures { IfOk result (λ farm. farm ≡ paragraphs_in (paragraphs_at text.now)) }
{
    match Paragraphs::read(alloc, text) {
        Ok(farm) => Ok(farm),
        Err(fault) => Err(text_fault(fault.in_file(FARM))),
    }
}

/// The value of a field of the first paragraph, if it is there.
pub fn head_value<'p>(farm: &'p Paragraphs, name: &[u8]) -> Option<&'p [u8]>
    ensures { option_map (λ value. value.now) result ≡ head_value farm.now name.now }
{
    if farm.count() == 0 {
        return None;
    }
    farm.field(0, name)
}
