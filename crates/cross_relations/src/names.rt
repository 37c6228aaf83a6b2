//! Names in the universe of two architectures.

ghost use Rattle.std.specs.Prelude.{◌≡◌, ◌++◌, IfOk, OnOk};
ghost use Rattle.std.specs.Option.{option_map};
ghost use Rattle.cross_laws.specs.Names.{encoded, is_taken, mark_of, marked};
ghost use Rattle.cross_relations.specs.Senses.{sense_of};
ghost use Rattle.cross_relations.specs.Decoded.{host_stem, shown};

use crate::sides::Sides;
use cross_laws::types::Side;
use deb_text::cut_at_last;
use std::alloc::{AllocError, Global};

/// What an encoded name means.
#[derive(Clone, Copy)]
pub enum Sense {
    /// `n` or `n.HOST`: the package of a side.
    Of(Side),
    /// `n.any` or `n.any.HOST`: what `n:any` asks for, where a package of a side serves it.
    ForAny(Side),
    /// `n.one`: the package of either side.
    One,
}

/// A name with a mark behind it.
fn marked(alloc: Global, name: &[u8], mark: &[u8]) -> Result<Vec<u8>, AllocError>
    ensures { IfOk result (λ made. made.items ≡ marked name.now mark.now) }
{
    let room = name.len().saturating_add(mark.len()).saturating_add(1);
    let mut made = Vec::with_capacity(alloc, room)?;
    made.extend_from_slice(name)?;
    made.push(b'.')?;
    made.extend_from_slice(mark)?;
    Ok(made)
}

/// The encoded name of a name in a sense.
#[tactic(auto, unfolding(cross_laws::specs::Names::encoded))]
pub fn encoded_name(
    alloc: Global,
    sides: &Sides,
    sense: Sense,
    name: &[u8],
) -> Result<Vec<u8>, AllocError>
    ensures { IfOk result (λ made. made.items ≡ encoded sides.now (sense_of sense) name.now) }
{
    match sense {
        Sense::Of(side) => match side {
            Side::Build => Vec::from_slice(alloc, name),
            Side::Host => marked(alloc, name, sides.host()),
        },
        Sense::ForAny(side) => match side {
            Side::Build => marked(alloc, name, b"any"),
            Side::Host => {
                let for_any = marked(alloc, name, b"any")?;
                marked(alloc, &for_any, sides.host())
            }
        },
        Sense::One => marked(alloc, name, b"one"),
    }
}

/// What stands after the last full stop of a name, or nothing.
fn mark_of(name: &[u8]) -> &[u8]
    ensures { result.now ≡ mark_of name.now }
{
    match cut_at_last(b'.', name) {
        Some((_, mark)) => mark,
        None => b"",
    }
}

/// Tells whether a name has the form of an encoded one: it ends in `.HOST`, `.any` or `.one`.
#[tactic(auto, unfolding(cross_laws::specs::Names::is_taken))]
pub fn is_taken(sides: &Sides, name: &[u8]) -> bool
    ensures { result ≡ is_taken sides.now name.now }
{
    let mark = mark_of(name);
    mark == sides.host() || mark == b"any".as_slice() || mark == b"one".as_slice()
}

/// The name of a package of the host of which this is the encoded one, if it is one.
pub fn host_stem<'a>(sides: &Sides, name: &'a [u8]) -> Option<&'a [u8]>
    ensures { option_map (λ stem. stem.now) result ≡ host_stem sides.now name.now }
{
    let (stem, mark) = cut_at_last(b'.', name)?;
    if mark == sides.host() {
        Some(stem)
    } else {
        None
    }
}

/// Puts an encoded name behind a text as people know it: `libc6.riscv64` as `libc6:riscv64`, and
/// one without the mark of the host as it stands.
pub fn push_shown(text: &mut Vec<u8>, sides: &Sides, name: &[u8]) -> Result<(), AllocError>
    ensures { OnOk result (text.new.items ≡ text.old.items ++ shown sides.now name.now) }
{
    match host_stem(sides, name) {
        Some(stem) => {
            text.extend_from_slice(stem)?;
            text.push(b':')?;
            text.extend_from_slice(sides.host())?;
            Ok(())
        }
        None => text.extend_from_slice(name),
    }
}
