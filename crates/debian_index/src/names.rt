//! The names of an architecture.

ghost use Rattle.std.specs.Prelude.{◌≡◌, [], ◌∷◌, ◌++◌, IfOk, OnOk, drop, Some};
ghost use Rattle.deb_text.specs.Lists.{lists};
ghost use Rattle.debian_index.specs.Names.{any, joined, names_of, spread, wildcards_of, with_system};
ghost use Rattle.debian_index.specs.Tuples.{parts_of, tuple_at};

use crate::tuple::{Tuple, tuple_of};
use deb_text::cut_at_first;
use std::alloc::{AllocError, Global};

/// What stands in a name for any part.
const ANY: &[u8] = b"any";

/// The system of an architecture that has none in its name.
const LINUX: &[u8] = b"linux";

/// A part, a hyphen and a text.
fn joined(alloc: Global, part: &[u8], tail: &[u8]) -> Result<Vec<u8>, AllocError>
    ensures { IfOk result (λ name. name.items ≡ joined part.now tail.now) }
{
    let mut name = Vec::from_slice(alloc, part)?;
    name.push(b'-')?;
    name.extend_from_slice(tail)?;
    Ok(name)
}

/// Each tail behind a part, and behind `any`.
fn spread(alloc: Global, part: &[u8], tails: &[Vec<u8>]) -> Result<Vec<Vec<u8>>, AllocError>
    ensures { IfOk result (λ names. lists names.items ≡ spread part.now (lists tails.now)) }
{
    let mut names = Vec::new(alloc);
    for tail in tails {
        names.push(joined(alloc, part, tail)?)?;
        names.push(joined(alloc, ANY, tail)?)?;
    }
    Ok(names)
}

/// A name, and `any`.
fn with_any(alloc: Global, name: &[u8]) -> Result<Vec<Vec<u8>>, AllocError>
    ensures { IfOk result (λ names. lists names.items ≡ name.now ∷ any ∷ []) }
{
    let mut names = Vec::new(alloc);
    names.push(Vec::from_slice(alloc, name)?)?;
    names.push(Vec::from_slice(alloc, ANY)?)?;
    Ok(names)
}

/// Puts names behind others.
fn push_all(alloc: Global, names: &mut Vec<Vec<u8>>, others: &[Vec<u8>]) -> Result<(), AllocError>
    ensures { OnOk result (lists names.new.items ≡ lists names.old.items ++ lists others.now) }
{
    for other in others {
        names.push(Vec::from_slice(alloc, other)?)?;
    }
    Ok(())
}

/// Puts all but the first of some names behind others.
#[tactic(auto, using(crate::proofs::SpreadLaws::all_but_first))]
fn push_but_first(
    alloc: Global,
    names: &mut Vec<Vec<u8>>,
    others: &[Vec<u8>],
) -> Result<(), AllocError>
    ensures { OnOk result (lists names.new.items
        ≡ lists names.old.items ++ drop 1 (lists others.now)) }
{
    if let [_, rest @ ..] = others {
        push_all(alloc, names, rest)?;
    }
    Ok(())
}

/// Puts the wildcards of two, three and four parts behind other names.
fn push_wildcards(alloc: Global, names: &mut Vec<Vec<u8>>, tuple: &Tuple) -> Result<(), AllocError>
    ensures { OnOk result (lists names.new.items
        ≡ lists names.old.items ++ wildcards_of (Some (parts_of tuple.now))) }
{
    let ends = with_any(alloc, tuple.processor)?;
    let two = spread(alloc, tuple.system, &ends)?;
    let three = spread(alloc, tuple.library, &two)?;
    let four = spread(alloc, tuple.abi, &three)?;
    push_but_first(alloc, names, &two)?;
    push_but_first(alloc, names, &three)?;
    push_but_first(alloc, names, &four)?;
    Ok(())
}

/// Puts the wildcards of an architecture behind other names.
fn push_known(
    alloc: Global,
    names: &mut Vec<Vec<u8>>,
    architecture: &[u8],
) -> Result<(), AllocError>
    ensures { OnOk result (lists names.new.items
        ≡ lists names.old.items ++ wildcards_of (tuple_at architecture.now)) }
{
    if let Some(tuple) = tuple_of(architecture) {
        push_wildcards(alloc, names, &tuple)?;
    }
    Ok(())
}

/// Puts an architecture that has no system in its name behind other names, with its system.
fn push_with_system(
    alloc: Global,
    names: &mut Vec<Vec<u8>>,
    architecture: &[u8],
) -> Result<(), AllocError>
    ensures { OnOk result (lists names.new.items
        ≡ lists names.old.items ++ with_system architecture.now) }
{
    if cut_at_first(b'-', architecture).is_none() {
        names.push(joined(alloc, LINUX, architecture)?)?;
    }
    Ok(())
}

/// The names that match an architecture: its own, `any`, where it has no hyphen that with its
/// system, and the wildcards of its parts by dpkg's tables. Where dpkg does not know the system
/// that the name begins with, there are no wildcards.
pub fn architecture_names(alloc: Global, architecture: &[u8]) -> Result<Vec<Vec<u8>>, AllocError>
    ensures { IfOk result (λ names. lists names.items ≡ names_of architecture.now) }
{
    let mut names = with_any(alloc, architecture)?;
    push_with_system(alloc, &mut names, architecture)?;
    push_known(alloc, &mut names, architecture)?;
    Ok(names)
}
