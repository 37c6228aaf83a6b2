//! What a package provides under the names of both architectures.

ghost use Rattle.std.specs.Prelude.{◌≡◌, [], ◌∷◌, ◌++◌, IfOk, OnOk};
ghost use Rattle.std.specs.List.{flat_map};
ghost use Rattle.cross_laws.specs.Binary.{atoms, itself};
ghost use Rattle.cross_laws.specs.Names.{encoded};
ghost use Rattle.cross_laws.specs.Encoding.{encoded_provides, further, offered, plain, senses, singles};
ghost use Rattle.cross_relations.specs.Provides.{item_in, item_of, of_item, own_offers};
ghost use Rattle.cross_relations.specs.Senses.{asked_of, sense_of, senses_of, standing_of};

use crate::asked::{Asked, asked_by};
use crate::binary::Binary;
use crate::clashes::push_single;
use crate::names::{Sense, encoded_name};
use crate::sides::Sides;
use cross_laws::types::{MultiArch, Side};
use deb_relation::{Atom, Entry, Op, Relations};
use deb_version::VersionRef;
use std::alloc::{AllocError, Global};

/// By what a package counts for others: its side, and its value of Multi-Arch.
#[derive(Clone, Copy)]
pub struct Standing {
    pub side: Side,
    pub multi_arch: MultiArch,
}

/// In which further sense a package counts, if it does: one of the build architecture that is
/// `foreign` as that of the host too, and one that is `allowed` for whoever asks for `:any`.
fn further(own: Standing) -> Option<Sense>
    ensures { senses_of result ≡ further (standing_of own) }
{
    match own.multi_arch {
        MultiArch::No => None,
        MultiArch::Same => None,
        MultiArch::Foreign => match own.side {
            Side::Build => Some(Sense::Of(Side::Host)),
            Side::Host => None,
        },
        MultiArch::Allowed => Some(Sense::ForAny(own.side)),
    }
}

/// Puts a name in a sense, with a relation, behind what a package provides.
pub fn push_named(
    alloc: Global,
    made: &mut Vec<Entry>,
    sides: &Sides,
    sense: Sense,
    name: &[u8],
    relation: Option<(Op, VersionRef)>,
) -> Result<(), AllocError>
    ensures { OnOk result (made.new.items ≡ made.old.items
        ++ (plain (encoded sides.now (sense_of sense) name.now) relation.entry ∷ []) ∷ []) }
{
    let name = encoded_name(alloc, sides, sense, name)?;
    let atom = Atom::unrestricted(alloc, &name, None, relation)?;
    push_single(alloc, made, atom)?;
    Ok(())
}

/// Puts an item of Provides in a sense behind others.
fn push_item(
    alloc: Global,
    made: &mut Vec<Entry>,
    sides: &Sides,
    sense: Sense,
    item: &Atom,
) -> Result<(), AllocError>
    ensures { OnOk result (made.new.items ≡ made.old.items
        ++ singles (of_item sides.now item.now (sense_of sense ∷ []))) }
{
    push_named(alloc, made, sides, sense, item.name(), item.relation())?;
    Ok(())
}

/// The same in a sense that may be none.
fn push_item_in(
    alloc: Global,
    made: &mut Vec<Entry>,
    sides: &Sides,
    sense: Option<Sense>,
    item: &Atom,
) -> Result<(), AllocError>
    ensures { OnOk result (made.new.items ≡ made.old.items
        ++ singles (of_item sides.now item.now (senses_of sense))) }
{
    match sense {
        Some(sense) => push_item(alloc, made, sides, sense, item),
        None => Ok(()),
    }
}

/// Puts an item of Provides that counts as its package does behind others.
fn push_own_item(
    alloc: Global,
    made: &mut Vec<Entry>,
    sides: &Sides,
    own: Standing,
    item: &Atom,
) -> Result<(), AllocError>
    ensures { OnOk result (made.new.items ≡ made.old.items
        ++ singles (of_item sides.now item.now (senses (standing_of own)))) }
{
    push_item(alloc, made, sides, Sense::Of(own.side), item)?;
    push_item_in(alloc, made, sides, further(own), item)?;
    Ok(())
}

/// Puts an item of Provides, as its qualifier lets it count, behind others.
fn push_asked(
    alloc: Global,
    made: &mut Vec<Entry>,
    sides: &Sides,
    own: Standing,
    item: &Atom,
    asked: Asked,
) -> Result<(), AllocError>
    ensures { OnOk result (made.new.items ≡ made.old.items
        ++ singles (item_of sides.now (standing_of own) item.now (asked_of asked))) }
{
    match asked {
        Asked::Unsaid => push_own_item(alloc, made, sides, own, item),
        Asked::Named(side) => push_item(alloc, made, sides, Sense::Of(side), item),
        Asked::Any => Ok(()),
        Asked::Native => Ok(()),
        Asked::Elsewhere => Ok(()),
    }
}

/// Puts an item of Provides in each sense in which it counts behind others.
fn push_each(
    alloc: Global,
    made: &mut Vec<Entry>,
    sides: &Sides,
    own: Standing,
    item: &Atom,
) -> Result<(), AllocError>
    ensures { OnOk result (made.new.items ≡ made.old.items
        ++ singles (item_in sides.now (standing_of own) item.now)) }
{
    let asked = asked_by(sides, item.qualifier());
    push_asked(alloc, made, sides, own, item, asked)?;
    Ok(())
}

/// Puts the items of an entry of Provides behind others.
fn push_entry(
    alloc: Global,
    made: &mut Vec<Entry>,
    sides: &Sides,
    own: Standing,
    entry: &Entry,
) -> Result<(), AllocError>
    ensures { OnOk result (made.new.items ≡ made.old.items
        ++ singles (flat_map (item_in sides.now (standing_of own)) entry.now)) }
{
    for item in entry.alternatives() {
        push_each(alloc, made, sides, own, item)?;
    }
    Ok(())
}

/// Puts the items of Provides behind others.
fn push_items(
    alloc: Global,
    made: &mut Vec<Entry>,
    sides: &Sides,
    own: Standing,
    field: &Relations,
) -> Result<(), AllocError>
    ensures { OnOk result (made.new.items ≡ made.old.items
        ++ singles (flat_map (item_in sides.now (standing_of own)) (atoms field.now))) }
{
    for entry in field.entries() {
        push_entry(alloc, made, sides, own, entry)?;
    }
    Ok(())
}

/// Puts the package itself in a sense behind others.
pub fn push_itself(
    alloc: Global,
    made: &mut Vec<Entry>,
    sides: &Sides,
    sense: Sense,
    binary: &Binary,
) -> Result<(), AllocError>
    ensures { OnOk result (made.new.items ≡ made.old.items
        ++ singles (offered sides.now (itself binary.now) (sense_of sense) ∷ [])) }
{
    let relation = Some((Op::Equal, binary.version()));
    push_named(alloc, made, sides, sense, binary.name(), relation)?;
    Ok(())
}

/// Puts the package itself in a further sense, if there is one, and as one of the two of its name
/// behind others.
fn push_own(
    alloc: Global,
    made: &mut Vec<Entry>,
    sides: &Sides,
    sense: Option<Sense>,
    binary: &Binary,
) -> Result<(), AllocError>
    ensures { OnOk result (made.new.items ≡ made.old.items
        ++ singles (own_offers sides.now binary.now (senses_of sense))) }
{
    match sense {
        Some(sense) => {
            push_itself(alloc, made, sides, sense, binary)?;
            push_itself(alloc, made, sides, Sense::One, binary)?;
            Ok(())
        }
        None => push_itself(alloc, made, sides, Sense::One, binary),
    }
}

/// Encodes what a package provides: each item, as it counts for both architectures; the package
/// itself, where it counts under another name too; and that it is one of the two of its name.
pub fn encode_provides(
    alloc: Global,
    sides: &Sides,
    binary: &Binary,
) -> Result<Relations, AllocError>
    ensures { IfOk result (λ made. made ≡ singles (encoded_provides sides.now binary.now)) }
{
    let mut made = Vec::new(alloc);
    let own = binary.standing();
    push_items(alloc, &mut made, sides, own, binary.provides())?;
    push_own(alloc, &mut made, sides, further(own), binary)?;
    Ok(Relations::from_entries(made))
}
