//! Needs: what an entry asks for in the names of both architectures.

ghost use Rattle.std.specs.Prelude.{◌≡◌, [], ◌∷◌, ◌++◌, IfOk, OnOk, codes, unwrap_or};
ghost use Rattle.std.specs.Option.{option_copied, option_map};
ghost use Rattle.cross_laws.specs.Binary.{Any, Native};
ghost use Rattle.cross_laws.specs.Encoding.{encoded_entry, encoded_need, encoded_needs, named_or_unmet, need_senses, renamed, unmet};
ghost use Rattle.cross_relations.specs.Senses.{asked_of, asker_of, sense_of};

use crate::asked::{Asked, Asker, asked_by};
use crate::names::{Sense, encoded_name};
use crate::sides::Sides;
use cross_laws::types::Side;
use deb_relation::{ArchList, Atom, Entry, ProfileList, Relations};
use std::alloc::{AllocError, Global};

/// Copies the architectures of an alternative.
fn copy_archs(list: Option<&ArchList>) -> Result<Option<ArchList>, AllocError>
    ensures { IfOk result (λ copy. copy ≡ option_copied list.entry) }
{
    match list {
        Some(list) => Ok(Some(list.clone()?)),
        None => Ok(None),
    }
}

/// Copies the lists of profiles of an alternative.
fn copy_profiles(alloc: Global, lists: &[ProfileList]) -> Result<Vec<ProfileList>, AllocError>
    ensures { IfOk result (λ copies. copies.items ≡ lists.now) }
{
    let mut copies = Vec::with_capacity(alloc, lists.len())?;
    for list in lists {
        copies.push(list.clone()?)?;
    }
    Ok(copies)
}

/// An alternative under another name and another qualifier.
fn under(
    alloc: Global,
    atom: &Atom,
    name: &[u8],
    qualifier: Option<&[u8]>,
) -> Result<Atom, AllocError>
    ensures { IfOk result (λ made. made ≡ record atom.now {
      name = name.now;
      qualifier = option_map (λ q. q.now) qualifier.entry;
    }) }
{
    let archs = copy_archs(atom.archs())?;
    let profiles = copy_profiles(alloc, atom.profiles())?;
    Atom::new(alloc, name, qualifier, atom.relation(), archs, profiles)
}

/// An alternative under its name in a sense, without a qualifier.
pub fn renamed(alloc: Global, sides: &Sides, atom: &Atom, sense: Sense) -> Result<Atom, AllocError>
    ensures { IfOk result (λ made. made ≡ renamed sides.now atom.now (sense_of sense)) }
{
    let name = encoded_name(alloc, sides, sense, atom.name())?;
    under(alloc, atom, &name, None)
}

/// A qualifier that no package has, made of another one.
fn unmet_qualifier(alloc: Global, qualifier: Option<&[u8]>) -> Result<Vec<u8>, AllocError>
    ensures { IfOk result (λ made. made.items
        ≡ codes "no-" ++ unwrap_or (option_map (λ q. q.now) qualifier.entry) []) }
{
    let mut made = Vec::from_slice(alloc, b"no-")?;
    made.extend_from_slice(qualifier.unwrap_or(b""))?;
    Ok(made)
}

/// The alternative that nothing meets.
fn unmet(alloc: Global, atom: &Atom) -> Result<Atom, AllocError>
    ensures { IfOk result (λ made. made ≡ unmet atom.now) }
{
    let qualifier = unmet_qualifier(alloc, atom.qualifier())?;
    under(alloc, atom, atom.name(), Some(qualifier.as_slice()))
}

/// Puts an alternative under its name in a sense behind others.
fn push_renamed(
    alloc: Global,
    made: &mut Vec<Atom>,
    sides: &Sides,
    atom: &Atom,
    sense: Sense,
) -> Result<(), AllocError>
    ensures { OnOk result (made.new.items
        ≡ made.old.items ++ renamed sides.now atom.now (sense_of sense) ∷ []) }
{
    made.push(renamed(alloc, sides, atom, sense)?)?;
    Ok(())
}

/// Puts an alternative that nothing meets behind others.
fn push_unmet(alloc: Global, made: &mut Vec<Atom>, atom: &Atom) -> Result<(), AllocError>
    ensures { OnOk result (made.new.items ≡ made.old.items ++ unmet atom.now ∷ []) }
{
    made.push(unmet(alloc, atom)?)?;
    Ok(())
}

/// Puts what `:any` asks for behind other alternatives.
fn push_for_any(
    alloc: Global,
    made: &mut Vec<Atom>,
    sides: &Sides,
    at: Asker,
    atom: &Atom,
) -> Result<(), AllocError>
    ensures { OnOk result (made.new.items ≡ made.old.items
        ++ named_or_unmet sides.now atom.now (need_senses (asker_of at) Any)) }
{
    match at.side {
        Side::Build => push_renamed(alloc, made, sides, atom, Sense::ForAny(Side::Build)),
        Side::Host => {
            push_renamed(alloc, made, sides, atom, Sense::ForAny(Side::Build))?;
            push_renamed(alloc, made, sides, atom, Sense::ForAny(Side::Host))?;
            Ok(())
        }
    }
}

/// Puts what `:native` asks for behind other alternatives.
fn push_native(
    alloc: Global,
    made: &mut Vec<Atom>,
    sides: &Sides,
    at: Asker,
    atom: &Atom,
) -> Result<(), AllocError>
    ensures { OnOk result (made.new.items ≡ made.old.items
        ++ named_or_unmet sides.now atom.now (need_senses (asker_of at) Native)) }
{
    if at.is_build {
        return push_renamed(alloc, made, sides, atom, Sense::Of(Side::Build));
    }
    push_unmet(alloc, made, atom)
}

/// Puts what an alternative asks for by its qualifier behind others.
fn push_asked(
    alloc: Global,
    made: &mut Vec<Atom>,
    sides: &Sides,
    at: Asker,
    atom: &Atom,
    asked: Asked,
) -> Result<(), AllocError>
    ensures { OnOk result (made.new.items ≡ made.old.items
        ++ named_or_unmet sides.now atom.now (need_senses (asker_of at) (asked_of asked))) }
{
    match asked {
        Asked::Unsaid => push_renamed(alloc, made, sides, atom, Sense::Of(at.side)),
        Asked::Any => push_for_any(alloc, made, sides, at, atom),
        Asked::Native => push_native(alloc, made, sides, at, atom),
        Asked::Named(side) => push_renamed(alloc, made, sides, atom, Sense::Of(side)),
        Asked::Elsewhere => push_unmet(alloc, made, atom),
    }
}

/// Puts what meets an alternative behind others.
fn push_need(
    alloc: Global,
    made: &mut Vec<Atom>,
    sides: &Sides,
    at: Asker,
    atom: &Atom,
) -> Result<(), AllocError>
    ensures { OnOk result (made.new.items
        ≡ made.old.items ++ encoded_need sides.now (asker_of at) atom.now) }
{
    let asked = asked_by(sides, atom.qualifier());
    push_asked(alloc, made, sides, at, atom, asked)?;
    Ok(())
}

/// Encodes an entry of needs. An alternative becomes one that asks for the package of a side, or
/// for what serves `:any`; one with the qualifier of another architecture is met by nothing.
pub fn encode_entry(
    alloc: Global,
    sides: &Sides,
    at: Asker,
    entry: &Entry,
) -> Result<Entry, AllocError>
    ensures { IfOk result (λ made. made ≡ encoded_entry sides.now (asker_of at) entry.now) }
{
    let mut made = Vec::with_capacity(alloc, entry.len())?;
    for atom in entry.alternatives() {
        push_need(alloc, &mut made, sides, at, atom)?;
    }
    Ok(Entry::from_alternatives(made))
}

/// Encodes a field of needs, entry by entry.
pub fn encode_needs(
    alloc: Global,
    sides: &Sides,
    at: Asker,
    field: &Relations,
) -> Result<Relations, AllocError>
    ensures { IfOk result (λ made. made ≡ encoded_needs sides.now (asker_of at) field.now) }
{
    let mut made = Vec::with_capacity(alloc, field.len())?;
    for entry in field.entries() {
        made.push(encode_entry(alloc, sides, at, entry)?)?;
    }
    Ok(Relations::from_entries(made))
}
