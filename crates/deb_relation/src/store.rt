//! How an alternative is kept, in as few bytes as will do: a text may have millions of them.

ghost use Rattle.std.specs.Prelude.{◌≡◌, ◌+◌, ◌<◌, ◌≤◌, ◌==◌, ◌++◌, not, IfOk, IfSome, length, take};
ghost use Rattle.std.specs.Option.{option_map};
ghost use Rattle.deb_relation.specs.Stored.{AreCut, IsLength, Measures, joined, qualifier_in, relation_in, version_end, version_start};

use crate::operator::Op;
use crate::restriction::{ArchList, ProfileList};
use deb_version::{Version, VersionRef};
use std::alloc::{AllocError, Global};
use std::boxed::Box;
use std::marker::Model;

/// How many bytes an alternative has room for in itself.
pub const ROOM: usize = 11;

/// How many bytes there is room for in the smallest block.
pub const SMALL_BLOCK: usize = 24;

/// How many bytes each text of an alternative has, where they lie one behind the other.
#[derive(Clone, Copy)]
pub struct Cuts {
    pub name: u8,
    /// 0 where there is no qualifier: none is empty.
    pub qualifier: u8,
    /// 0 where there is no relation: no version is empty.
    pub version: u8,
    /// The operator of the relation, if there is one.
    pub op: Op,
}

impl Cuts {
    fn version_start(&self) -> usize
        ensures { result ≡ version_start self.now }
    {
        usize::from(self.name) + usize::from(self.qualifier)
    }

    /// How many bytes the texts have in all.
    pub fn version_end(&self) -> usize
        ensures { result ≡ version_end self.now }
    {
        self.version_start() + usize::from(self.version)
    }

    /// How many bytes these texts have, unless one has more than 255 or is there and empty.
    pub fn of(name: &[u8], qualifier: Option<&[u8]>, version: Option<&[u8]>, op: Op) -> Option<Cuts>
        ensures lengths { IfSome result (λ cuts. Measures cuts name.now
            (option_map (λ q. q.now) qualifier.entry) (option_map (λ v. v.now) version.entry)) }
        ensures op { IfSome result (λ cuts. cuts.op ≡ op) }
    {
        Some(Cuts {
            name: short_length(name)?,
            qualifier: optional_length(qualifier)?,
            version: optional_length(version)?,
            op,
        })
    }

    /// Tells whether there is a qualifier.
    pub fn has_qualifier(&self) -> bool
        ensures { result ≡ not (self.now.qualifier == 0) }
    {
        self.qualifier != 0
    }

    /// The name among these texts.
    pub fn name<'a>(&self, text: &'a [u8]) -> &'a [u8]
        requires { AreCut self.now text.now }
        ensures { result.now ≡ take self.now.name text.now }
    {
        &text[..usize::from(self.name)]
    }

    /// The qualifier among these texts, if there is one.
    pub fn qualifier<'a>(&self, text: &'a [u8]) -> Option<&'a [u8]>
        requires { AreCut self.now text.now }
        ensures { option_map (λ q. q.now) result ≡ qualifier_in self.now text.now }
    {
        if !self.has_qualifier() {
            return None;
        }
        Some(&text[usize::from(self.name)..self.version_start()])
    }

    /// The relation among these texts, if there is one.
    pub fn relation<'a>(&self, text: &'a [u8]) -> Option<(Op, VersionRef<'a>)>
        requires { AreCut self.now text.now }
        ensures { result ≡ relation_in self.now text.now }
    {
        if self.version == 0 {
            return None;
        }
        let version = &text[self.version_start()..self.version_end()];
        Some((self.op, VersionRef::known(version)))
    }
}

/// The length of a text that is not empty and has no more than 255 bytes.
fn short_length(text: &[u8]) -> Option<u8>
    ensures { IfSome result (λ n. (n ≡ length text.now) × (0 < n)) }
{
    if text.is_empty() || text.len() > 255 {
        return None;
    }
    Some(text.len() as u8)
}

/// The same, and 0 where there is no text.
fn optional_length(text: Option<&[u8]>) -> Option<u8>
    ensures { IfSome result (λ n. IsLength n (option_map (λ t. t.now) text.entry)) }
{
    match text {
        Some(text) => short_length(text),
        None => Some(0),
    }
}

/// Puts bytes at a place.
fn put<const N: usize>(text: [u8; N], at: usize, bytes: &[u8]) -> [u8; N]
    requires room { length text ≡ N }
    requires fits { at + length bytes.now ≤ N }
    ensures front { take (at + length bytes.now) result ≡ take at text.entry ++ bytes.now }
    ensures room { length result ≡ N }
{
    let mut written = text;
    for place in 0..bytes.len() {
        written[at + place] = bytes[place];
    }
    written
}

/// These texts one behind the other, where there is room for them.
pub fn joined_in<const N: usize>(
    name: &[u8],
    qualifier: Option<&[u8]>,
    version: Option<&[u8]>,
) -> [u8; N]
    requires { length (joined name.now (option_map (λ q. q.now) qualifier)
        (option_map (λ v. v.now) version)) ≤ N }
    ensures room { length result ≡ N }
    ensures front { take (length (joined name.now (option_map (λ q. q.now) qualifier.entry)
        (option_map (λ v. v.now) version.entry))) result
        ≡ joined name.now (option_map (λ q. q.now) qualifier.entry)
        (option_map (λ v. v.now) version.entry) }
{
    let qualifier = qualifier.unwrap_or(b"");
    let version = version.unwrap_or(b"");
    let text = put([0; N], 0, name);
    let text = put(text, name.len(), qualifier);
    put(text, name.len() + qualifier.len(), version)
}

/// These texts one behind the other.
pub fn joined_in_block(
    alloc: Global,
    name: &[u8],
    qualifier: Option<&[u8]>,
    version: Option<&[u8]>,
) -> Result<Vec<u8>, AllocError>
    ensures { IfOk result (λ text. text.items ≡ joined name.now
        (option_map (λ q. q.now) qualifier.entry) (option_map (λ v. v.now) version.entry)) }
{
    let qualifier = qualifier.unwrap_or(b"");
    let version = version.unwrap_or(b"");
    let bytes = name
        .len()
        .saturating_add(qualifier.len())
        .saturating_add(version.len());
    let mut text = Vec::with_capacity(alloc, bytes)?;
    text.extend_from_slice(name)?;
    text.extend_from_slice(qualifier)?;
    text.extend_from_slice(version)?;
    Ok(text)
}

/// An alternative by its parts, each in a block of its own.
#[derive(Drop)]
pub struct Whole {
    pub name: Vec<u8>,
    pub qualifier: Option<Vec<u8>>,
    pub relation: Option<(Op, Version)>,
    pub archs: Option<ArchList>,
    pub profiles: Vec<ProfileList>,
}

impl Model for Whole {
    ghost use Rattle.std.specs.Option.{option_map};
    ghost use Rattle.deb_relation.specs.Relations as spec;

    ghost Value = { spec.Atom };

    ghost view = { λ whole. record {
      name = whole.name.items;
      qualifier = option_map (λ q. q.items) whole.qualifier;
      relation = whole.relation;
      archs = whole.archs;
      profiles = whole.profiles.items;
    } };
}

/// Where an alternative is kept.
#[derive(Drop)]
pub enum Store {
    /// Its texts lie here, one behind the other.
    Here(Cuts, [u8; ROOM]),
    /// They lie in the smallest block that there is.
    Small(Cuts, Box<[u8; SMALL_BLOCK]>),
    /// They lie in a block as large as they are.
    Large(Cuts, Box<Vec<u8>>),
    /// It has restrictions, or a text of more than 255 bytes.
    Whole(Box<Whole>),
}

impl Clone for Whole {
    ghost is_clone = { λ whole copy. copy ≡ whole };

    fn clone(&self) -> Result<Whole, AllocError> {
        Ok(Whole {
            name: self.name.clone()?,
            qualifier: clone_qualifier(&self.qualifier)?,
            relation: clone_relation(&self.relation)?,
            archs: clone_archs(&self.archs)?,
            profiles: self.profiles.clone()?,
        })
    }
}

fn clone_qualifier(qualifier: &Option<Vec<u8>>) -> Result<Option<Vec<u8>>, AllocError>
    ensures { IfOk result
        (λ copy. option_map (λ q. q.items) copy ≡ option_map (λ q. q.items) qualifier.now) }
{
    match qualifier {
        Some(qualifier) => Ok(Some(qualifier.clone()?)),
        None => Ok(None),
    }
}

fn clone_relation(relation: &Option<(Op, Version)>) -> Result<Option<(Op, Version)>, AllocError>
    ensures { IfOk result (λ copy. copy ≡ relation.now) }
{
    match relation {
        Some((op, version)) => Ok(Some((*op, version.clone()?))),
        None => Ok(None),
    }
}

fn clone_archs(archs: &Option<ArchList>) -> Result<Option<ArchList>, AllocError>
    ensures { IfOk result (λ copy. copy ≡ archs.now) }
{
    match archs {
        Some(archs) => Ok(Some(archs.clone()?)),
        None => Ok(None),
    }
}
