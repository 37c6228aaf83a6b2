//! The four parts that dpkg takes an architecture for.

ghost use Rattle.std.specs.Prelude.{◌≡◌};
ghost use Rattle.std.specs.List.{find};
ghost use Rattle.std.specs.Option.{option_map};
ghost use Rattle.std.specs.Str.{bytes_eq};
ghost use Rattle.debian_index.specs.Tuples.{tuple_at, parts_of, system_at, whole_at};

use crate::tables::{Row, SYSTEMS, WHOLE};
use deb_text::cut_at_last;

/// The ABI, the C library, the system and the processor of an architecture.
#[derive(Clone, Copy)]
pub struct Tuple<'a> {
    pub abi: &'a [u8],
    pub library: &'a [u8],
    pub system: &'a [u8],
    pub processor: &'a [u8],
}

/// The row of a name.
fn row_in<'a>(rows: &'a [Row], name: &[u8]) -> Option<&'a Row>
    ensures { option_map (λ row. row.now) result
        ≡ find (λ row. bytes_eq name.now row.0.now) rows.now }
{
    rows.iter().find(|row| name == row.0)
}

/// The parts of an architecture that is named otherwise.
fn whole_tuple(name: &[u8]) -> Option<Tuple<'_>>
    ensures { option_map parts_of result ≡ whole_at name.now }
{
    let (_, abi, library, system, processor) = *row_in(&WHOLE, name)?;
    Some(Tuple {
        abi,
        library,
        system,
        processor,
    })
}

/// The parts of a processor under a system, if that is known.
fn system_tuple<'a>(name: &[u8], processor: &'a [u8]) -> Option<Tuple<'a>>
    ensures { option_map parts_of result ≡ system_at name.now processor.now }
{
    let (_, abi, library, system, _) = *row_in(&SYSTEMS, name)?;
    Some(Tuple {
        abi,
        library,
        system,
        processor,
    })
}

/// What dpkg takes an architecture for, if it knows the system that the name begins with. A name
/// without a hyphen is that of a processor, with GNU's library on Linux.
pub fn tuple_of(architecture: &[u8]) -> Option<Tuple<'_>>
    ensures { option_map parts_of result ≡ tuple_at architecture.now }
{
    if let Some(tuple) = whole_tuple(architecture) {
        return Some(tuple);
    }
    match cut_at_last(b'-', architecture) {
        Some((system, processor)) => system_tuple(system, processor),
        None => Some(Tuple {
            abi: b"base",
            library: b"gnu",
            system: b"linux",
            processor: architecture,
        }),
    }
}
