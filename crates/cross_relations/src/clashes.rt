//! Clashes: which packages of both architectures an entry excludes.

ghost use Rattle.std.specs.Prelude.{◌≡◌, [], ◌∷◌, ◌++◌, true, map, IfOk, OnOk};
ghost use Rattle.std.specs.List.{flat_map};
ghost use Rattle.cross_laws.specs.Binary.{Any};
ghost use Rattle.cross_laws.specs.Encoding.{clash_senses, encoded_clash, encoded_clashes, renamed, singles};
ghost use Rattle.cross_relations.specs.Senses.{asked_of, sense_of};

use crate::asked::{Asked, asked_by};
use crate::names::Sense;
use crate::needs::renamed;
use crate::sides::Sides;
use cross_laws::types::Side;
use deb_relation::{Atom, Entry, Relations};
use std::alloc::{AllocError, Global};

/// Puts an entry of one alternative behind others.
pub fn push_single(alloc: Global, made: &mut Vec<Entry>, atom: Atom) -> Result<(), AllocError>
    ensures { OnOk result (made.new.items ≡ made.old.items ++ (atom ∷ []) ∷ []) }
{
    let mut alternatives = Vec::with_capacity(alloc, 1)?;
    alternatives.push(atom)?;
    made.push(Entry::from_alternatives(alternatives))?;
    Ok(())
}

/// Puts an alternative under its name in a sense behind others, as an entry.
pub fn push_sense(
    alloc: Global,
    made: &mut Vec<Entry>,
    sides: &Sides,
    atom: &Atom,
    sense: Sense,
) -> Result<(), AllocError>
    ensures { OnOk result (made.new.items
        ≡ made.old.items ++ (renamed sides.now atom.now (sense_of sense) ∷ []) ∷ []) }
{
    let atom = renamed(alloc, sides, atom, sense)?;
    push_single(alloc, made, atom)?;
    Ok(())
}

/// Puts a clash with the packages of both sides behind others.
fn push_both(
    alloc: Global,
    made: &mut Vec<Entry>,
    sides: &Sides,
    atom: &Atom,
) -> Result<(), AllocError>
    ensures { OnOk result (made.new.items ≡ made.old.items
        ++ singles (map (renamed sides.now atom.now) (clash_senses true Any))) }
{
    push_sense(alloc, made, sides, atom, Sense::Of(Side::Build))?;
    push_sense(alloc, made, sides, atom, Sense::Of(Side::Host))?;
    Ok(())
}

/// Puts the clashes that an alternative asks for by its qualifier behind others.
fn push_asked(
    alloc: Global,
    made: &mut Vec<Entry>,
    sides: &Sides,
    is_build: bool,
    atom: &Atom,
    asked: Asked,
) -> Result<(), AllocError>
    ensures { OnOk result (made.new.items ≡ made.old.items
        ++ singles (map (renamed sides.now atom.now) (clash_senses is_build (asked_of asked)))) }
{
    match asked {
        Asked::Unsaid => push_both(alloc, made, sides, atom),
        Asked::Any => push_both(alloc, made, sides, atom),
        Asked::Named(side) => push_sense(alloc, made, sides, atom, Sense::Of(side)),
        Asked::Native => {
            if is_build {
                return push_sense(alloc, made, sides, atom, Sense::Of(Side::Build));
            }
            Ok(())
        }
        Asked::Elsewhere => Ok(()),
    }
}

/// Puts the clashes of a binary, or else of a build, that an alternative asks for behind others.
pub fn push_clash(
    alloc: Global,
    made: &mut Vec<Entry>,
    sides: &Sides,
    is_build: bool,
    atom: &Atom,
) -> Result<(), AllocError>
    ensures { OnOk result (made.new.items
        ≡ made.old.items ++ singles (encoded_clash sides.now is_build atom.now)) }
{
    let asked = asked_by(sides, atom.qualifier());
    push_asked(alloc, made, sides, is_build, atom, asked)?;
    Ok(())
}

/// Puts the clashes of a build that an entry asks for behind others.
fn push_entry(
    alloc: Global,
    made: &mut Vec<Entry>,
    sides: &Sides,
    entry: &Entry,
) -> Result<(), AllocError>
    ensures { OnOk result (made.new.items
        ≡ made.old.items ++ singles (flat_map (encoded_clash sides.now true) entry.now)) }
{
    for atom in entry.alternatives() {
        push_clash(alloc, made, sides, true, atom)?;
    }
    Ok(())
}

/// Encodes a field of clashes of a build: each becomes one with a package of either side, or with
/// that of the side that its qualifier names; `:native` names the architecture on which is built.
pub fn encode_build_clashes(
    alloc: Global,
    sides: &Sides,
    field: &Relations,
) -> Result<Relations, AllocError>
    ensures { IfOk result (λ made. made ≡ encoded_clashes sides.now field.now) }
{
    let mut made = Vec::with_capacity(alloc, field.len())?;
    for entry in field.entries() {
        push_entry(alloc, &mut made, sides, entry)?;
    }
    Ok(Relations::from_entries(made))
}
