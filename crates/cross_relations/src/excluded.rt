//! What a package excludes among others, under the names of both architectures.

ghost use Rattle.std.specs.Prelude.{◌≡◌, [], ◌∷◌, ◌++◌, filter, map, if◌then◌else◌, Some, None, IfOk, OnOk};
ghost use Rattle.std.specs.List.{flat_map};
ghost use Rattle.cross_laws.specs.Binary.{is_same};
ghost use Rattle.cross_laws.specs.Encoding.{alone, clash_of, clashes_of, encoded_breaks, encoded_conflicts, one_of, singles};
ghost use Rattle.cross_laws.specs.Excludes.{hits_other};

use crate::binary::{Binary, is_same};
use crate::clashes::push_clash;
use crate::hits::{hits_other, is_replaced};
use crate::names::Sense;
use crate::provides::{push_itself, push_named};
use crate::sides::Sides;
use deb_relation::{Atom, Entry, Op, Relations};
use std::alloc::{AllocError, Global};

/// Puts a clash with a binary, of its side alone, behind others, if a clash hits it.
fn push_if_hit(
    alloc: Global,
    made: &mut Vec<Entry>,
    sides: &Sides,
    binary: &Binary,
    atom: &Atom,
    other: &Binary,
) -> Result<(), AllocError>
    ensures { OnOk result (made.new.items ≡ made.old.items ++ singles (map (alone sides.now)
        (filter (hits_other sides.now binary.now atom.now) (other.now ∷ [])))) }
{
    if hits_other(sides, binary, atom, other) {
        push_itself(alloc, made, sides, Sense::Of(other.side()), other)?;
        return Ok(());
    }
    Ok(())
}

/// Puts clashes with all packages that a clash hits behind others.
fn push_hit(
    alloc: Global,
    made: &mut Vec<Entry>,
    sides: &Sides,
    all: &[Binary],
    binary: &Binary,
    atom: &Atom,
) -> Result<(), AllocError>
    ensures { OnOk result (made.new.items ≡ made.old.items ++ singles (map (alone sides.now)
        (filter (hits_other sides.now binary.now atom.now) all.now))) }
{
    for other in all {
        push_if_hit(alloc, made, sides, binary, atom, other)?;
    }
    Ok(())
}

/// Puts what a clash of a package comes to behind others.
fn push_clash_of(
    alloc: Global,
    made: &mut Vec<Entry>,
    sides: &Sides,
    all: &[Binary],
    binary: &Binary,
    atom: &Atom,
) -> Result<(), AllocError>
    ensures { OnOk result (made.new.items ≡ made.old.items
        ++ singles (clash_of sides.now all.now binary.now atom.now)) }
{
    if is_replaced(sides, all, binary, atom) {
        push_hit(alloc, made, sides, all, binary, atom)?;
        return Ok(());
    }
    push_clash(alloc, made, sides, false, atom)?;
    Ok(())
}

/// Puts what an entry of clashes of a package comes to behind others.
fn push_entry_of(
    alloc: Global,
    made: &mut Vec<Entry>,
    sides: &Sides,
    all: &[Binary],
    binary: &Binary,
    entry: &Entry,
) -> Result<(), AllocError>
    ensures { OnOk result (made.new.items ≡ made.old.items
        ++ singles (flat_map (clash_of sides.now all.now binary.now) entry.now)) }
{
    for atom in entry.alternatives() {
        push_clash_of(alloc, made, sides, all, binary, atom)?;
    }
    Ok(())
}

/// Puts what a field of clashes of a package comes to behind others.
fn push_field_of(
    alloc: Global,
    made: &mut Vec<Entry>,
    sides: &Sides,
    all: &[Binary],
    binary: &Binary,
    field: &Relations,
) -> Result<(), AllocError>
    ensures { OnOk result (made.new.items ≡ made.old.items
        ++ singles (clashes_of sides.now all.now binary.now field.now)) }
{
    for entry in field.entries() {
        push_entry_of(alloc, made, sides, all, binary, entry)?;
    }
    Ok(())
}

/// Puts the clash of what is not `same` with the package of the other architecture behind others.
fn push_not_same(
    alloc: Global,
    made: &mut Vec<Entry>,
    sides: &Sides,
    binary: &Binary,
) -> Result<(), AllocError>
    ensures { OnOk result (made.new.items ≡ made.old.items
        ++ singles (if is_same binary.now.multi_arch then []
        else one_of sides.now binary.now None ∷ [])) }
{
    if is_same(binary.multi_arch()) {
        return Ok(());
    }
    push_named(alloc, made, sides, Sense::One, binary.name(), None)?;
    Ok(())
}

/// Puts the clashes of what is `same` with the other versions of its name behind others.
fn push_versions(
    alloc: Global,
    made: &mut Vec<Entry>,
    sides: &Sides,
    binary: &Binary,
) -> Result<(), AllocError>
    ensures { OnOk result (made.new.items ≡ made.old.items
        ++ singles (if is_same binary.now.multi_arch
        then one_of sides.now binary.now (Some (Op.Earlier, binary.now.rest.version))
        ∷ one_of sides.now binary.now (Some (Op.Later, binary.now.rest.version)) ∷ []
        else [])) }
{
    if is_same(binary.multi_arch()) {
        let earlier = Some((Op::Earlier, binary.version()));
        push_named(alloc, made, sides, Sense::One, binary.name(), earlier)?;
        let later = Some((Op::Later, binary.version()));
        push_named(alloc, made, sides, Sense::One, binary.name(), later)?;
        return Ok(());
    }
    Ok(())
}

/// Encodes what may not be there with a binary, among all of these: its clashes, and one with the
/// package of the other architecture where it is not `same`.
pub fn encode_conflicts(
    alloc: Global,
    sides: &Sides,
    all: &[Binary],
    binary: &Binary,
) -> Result<Relations, AllocError>
    ensures { IfOk result
        (λ made. made ≡ singles (encoded_conflicts sides.now all.now binary.now)) }
{
    let mut made = Vec::new(alloc);
    push_field_of(alloc, &mut made, sides, all, binary, binary.conflicts())?;
    push_not_same(alloc, &mut made, sides, binary)?;
    Ok(Relations::from_entries(made))
}

/// Encodes what may not be configured with a binary, among all of these: its clashes, and those
/// with other versions of its name where it is `same`.
pub fn encode_breaks(
    alloc: Global,
    sides: &Sides,
    all: &[Binary],
    binary: &Binary,
) -> Result<Relations, AllocError>
    ensures { IfOk result
        (λ made. made ≡ singles (encoded_breaks sides.now all.now binary.now)) }
{
    let mut made = Vec::new(alloc);
    push_field_of(alloc, &mut made, sides, all, binary, binary.breaks())?;
    push_versions(alloc, &mut made, sides, binary)?;
    Ok(Relations::from_entries(made))
}
