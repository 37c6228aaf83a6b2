//! One alternative of a relation.

ghost use Rattle.std.specs.Prelude.{◌≡◌, [], IfOk, IfSome, None, true};
ghost use Rattle.std.specs.Option.{option_copied, option_map};
ghost use Rattle.std.specs.Result.{is_ok};
ghost use Rattle.deb_version.specs.Grammar.{version_at};
ghost use Rattle.deb_relation.specs.Bare.{is_bare_atom, plain};

use crate::operator::Op;
use crate::relation::{copy_relation, view_relation};
use crate::restriction::{ArchList, ProfileList};
use crate::store::{Cuts, ROOM, SMALL_BLOCK, Store, Whole, joined_in, joined_in_block};
use deb_version::VersionRef;
use std::alloc::{AllocError, Global};
use std::boxed::Box;
use std::marker::Model;

/// One alternative, `name:qualifier (op version) [architectures] <profiles> ..` (Debian Policy
/// 7.1). It takes 16 bytes, and a block where its texts have more than eleven.
#[derive(Drop)]
pub struct Atom {
    pub(crate) store: Store,
}

impl Model for Atom {
    ghost use Rattle.deb_relation.specs.Relations as spec;
    ghost use Rattle.deb_relation.specs.Stored.{IsKept, kept_in};

    ghost Value = { spec.Atom };

    ghost view = { λ atom. kept_in atom.store };

    ghost invariant = { λ atom. IsKept atom.store };
}

/// The version of a relation, if there is one.
fn version_of<'a>(relation: &Option<(Op, VersionRef<'a>)>) -> Option<&'a [u8]>
    ensures text { option_map (λ v. v.now) result ≡ option_map (λ r. r.1) relation.now }
    ensures version { IfSome relation.now (λ r. is_ok (version_at r.1) ≡ true) }
{
    match relation {
        Some((_, version)) => Some(version.text()),
        None => None,
    }
}

/// The operator of a relation, or any where there is none.
fn operator_of(relation: &Option<(Op, VersionRef)>) -> Op
    ensures { IfSome relation.now (λ r. result ≡ r.0) }
{
    match relation {
        Some((op, _)) => *op,
        None => Op::Equal,
    }
}

/// Keeps an alternative by its parts, each in a block of its own.
fn keep_whole(
    alloc: Global,
    name: &[u8],
    qualifier: Option<&[u8]>,
    relation: Option<(Op, VersionRef)>,
    archs: Option<ArchList>,
    profiles: Vec<ProfileList>,
) -> Result<Atom, AllocError>
    ensures { IfOk result (λ atom. atom ≡ record {
      name = name.now;
      qualifier = option_map (λ q. q.now) qualifier.entry;
      relation = relation.entry;
      archs = archs;
      profiles = profiles.items;
    }) }
{
    let whole = Whole {
        name: Vec::from_slice(alloc, name)?,
        qualifier: copy_qualifier(alloc, qualifier)?,
        relation: copy_relation(alloc, relation)?,
        archs,
        profiles,
    };
    Ok(Atom {
        store: Store::Whole(Box::new(alloc, whole)?),
    })
}

fn copy_qualifier(alloc: Global, text: Option<&[u8]>) -> Result<Option<Vec<u8>>, AllocError>
    ensures { IfOk result
        (λ copy. option_map (λ q. q.items) copy ≡ option_map (λ q. q.now) text.entry) }
{
    match text {
        Some(text) => Ok(Some(Vec::from_slice(alloc, text)?)),
        None => Ok(None),
    }
}

impl Atom {
    /// Makes an alternative of its parts.
    pub fn new(
        alloc: Global,
        name: &[u8],
        qualifier: Option<&[u8]>,
        relation: Option<(Op, VersionRef)>,
        archs: Option<ArchList>,
        profiles: Vec<ProfileList>,
    ) -> Result<Atom, AllocError>
        ensures { IfOk result (λ atom. atom ≡ record {
          name = name.now;
          qualifier = option_map (λ q. q.now) qualifier.entry;
          relation = relation.entry;
          archs = archs;
          profiles = profiles.items;
        }) }
    {
        if archs.is_none() && profiles.is_empty() {
            return Atom::unrestricted(alloc, name, qualifier, relation);
        }
        keep_whole(alloc, name, qualifier, relation, archs, profiles)
    }

    /// Makes an alternative that is not restricted to architectures or profiles.
    pub fn unrestricted(
        alloc: Global,
        name: &[u8],
        qualifier: Option<&[u8]>,
        relation: Option<(Op, VersionRef)>,
    ) -> Result<Atom, AllocError>
        ensures { IfOk result (λ atom. atom ≡ record {
          name = name.now;
          qualifier = option_map (λ q. q.now) qualifier.entry;
          relation = relation.entry;
          archs = None;
          profiles = [];
        }) }
    {
        let version = version_of(&relation);
        let Some(cuts) = Cuts::of(name, qualifier, version, operator_of(&relation)) else {
            return keep_whole(alloc, name, qualifier, relation, None, Vec::new(alloc));
        };
        if cuts.version_end() <= ROOM {
            return Ok(Atom {
                store: Store::Here(cuts, joined_in::<ROOM>(name, qualifier, version)),
            });
        }
        if cuts.version_end() <= SMALL_BLOCK {
            let text = joined_in::<SMALL_BLOCK>(name, qualifier, version);
            return Ok(Atom {
                store: Store::Small(cuts, Box::new(alloc, text)?),
            });
        }
        let text = joined_in_block(alloc, name, qualifier, version)?;
        Ok(Atom {
            store: Store::Large(cuts, Box::new(alloc, text)?),
        })
    }

    /// The name.
    pub fn name(&self) -> &[u8]
        ensures { result.now ≡ self.now.name }
    {
        match &self.store {
            Store::Here(cuts, text) => cuts.name(text),
            Store::Small(cuts, text) => cuts.name(text.as_slice()),
            Store::Large(cuts, text) => cuts.name(text),
            Store::Whole(whole) => &whole.name,
        }
    }

    /// The qualifier behind the name.
    pub fn qualifier(&self) -> Option<&[u8]>
        ensures { option_map (λ q. q.now) result ≡ self.now.qualifier }
    {
        match &self.store {
            Store::Here(cuts, text) => cuts.qualifier(text),
            Store::Small(cuts, text) => cuts.qualifier(text.as_slice()),
            Store::Large(cuts, text) => cuts.qualifier(text),
            Store::Whole(whole) => whole.qualifier.as_deref(),
        }
    }

    /// The relation to a version, if there is one.
    pub fn relation(&self) -> Option<(Op, VersionRef<'_>)>
        ensures { result ≡ self.now.relation }
    {
        match &self.store {
            Store::Here(cuts, text) => cuts.relation(text),
            Store::Small(cuts, text) => cuts.relation(text.as_slice()),
            Store::Large(cuts, text) => cuts.relation(text),
            Store::Whole(whole) => view_relation(&whole.relation),
        }
    }

    /// The architectures to which the alternative is restricted, if it is.
    pub fn archs(&self) -> Option<&ArchList>
        ensures { option_copied result ≡ self.now.archs }
    {
        match &self.store {
            Store::Whole(whole) => whole.archs.as_ref(),
            _ => None,
        }
    }

    /// The lists of profiles to which the alternative is restricted; none where it is not.
    pub fn profiles(&self) -> &[ProfileList]
        ensures { result.now ≡ self.now.profiles }
    {
        match &self.store {
            Store::Whole(whole) => &whole.profiles,
            _ => &[],
        }
    }

    /// Tells whether the alternative has a name and a relation alone: no qualifier, and no
    /// restriction.
    pub fn is_bare(&self) -> bool
        ensures bare { result ≡ is_bare_atom self.now }
        ensures plain { result ≡ true → self.now ≡ plain self.now }
    {
        match &self.store {
            Store::Here(cuts, _) | Store::Small(cuts, _) | Store::Large(cuts, _) => {
                !cuts.has_qualifier()
            }
            Store::Whole(whole) => {
                whole.qualifier.is_none() && whole.archs.is_none() && whole.profiles.is_empty()
            }
        }
    }
}

impl Clone for Atom {
    ghost is_clone = { λ atom copy. copy ≡ atom };

    fn clone(&self) -> Result<Atom, AllocError> {
        let store = match &self.store {
            Store::Here(cuts, text) => Store::Here(*cuts, *text),
            Store::Small(cuts, text) => Store::Small(*cuts, text.clone()?),
            Store::Large(cuts, text) => Store::Large(*cuts, text.clone()?),
            Store::Whole(whole) => Store::Whole(whole.clone()?),
        };
        Ok(Atom { store })
    }
}
