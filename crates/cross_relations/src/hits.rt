//! Which packages a clash of a package hits (dpkg: deparchsatisfied; apt: ParseDepends).

ghost use Rattle.std.specs.Prelude.{◌≡◌, ◌&&◌, false};
ghost use Rattle.std.specs.List.{list_any};
ghost use Rattle.deb_relation.specs.Satisfaction.{provides_in};
ghost use Rattle.cross_laws.specs.Binary.{is_side};
ghost use Rattle.cross_laws.specs.Encoding.{hits_own, is_replaced};
ghost use Rattle.cross_laws.specs.Excludes.{are_sisters, clashes, hits, hits_other};
ghost use Rattle.cross_relations.specs.Hits.{hit_by, hit_in, hit_item, hit_some, offer};
ghost use Rattle.cross_relations.specs.Senses.{asked_of, standing_of};

use crate::asked::{Asked, asked_by};
use crate::binary::{Binary, is_same};
use crate::provides::Standing;
use crate::sides::Sides;
use cross_laws::types::{MultiArch, Side};
use deb_relation::{Atom, Entry, Op, Relations, in_relation};
use deb_version::VersionRef;

fn is_side(a: Side, b: Side) -> bool
    ensures { result ≡ is_side a b }
{
    match a {
        Side::Build => match b {
            Side::Build => true,
            Side::Host => false,
        },
        Side::Host => match b {
            Side::Build => false,
            Side::Host => true,
        },
    }
}

/// Tells whether a clash that asks for this is one with what counts so.
fn clashes(own: Standing, asked: Asked) -> bool
    ensures { result ≡ clashes false (standing_of own) (asked_of asked) }
{
    match asked {
        Asked::Unsaid => true,
        Asked::Any => true,
        Asked::Named(side) => is_side(own.side, side),
        Asked::Native => false,
        Asked::Elsewhere => false,
    }
}

/// Tells whether what has, or provides, this version is in a relation.
fn provides_in(wanted: Option<(Op, VersionRef)>, provided: Option<(Op, VersionRef)>) -> bool
    ensures { result ≡ provides_in wanted.entry provided.entry }
{
    match provided {
        Some((_, version)) => in_relation(wanted, &version),
        None => wanted.is_none(),
    }
}

/// Tells whether a clash, which asks for this by its qualifier, is one with a name, in a version or
/// none, that counts so.
fn hit_by(
    atom: &Atom,
    asked: Asked,
    name: &[u8],
    version: Option<(Op, VersionRef)>,
    own: Standing,
) -> bool
    ensures { result ≡ hit_by atom.now (asked_of asked)
        (offer name.now version.entry (standing_of own)) }
{
    name == atom.name() && provides_in(atom.relation(), version) && clashes(own, asked)
}

/// The same of an item of Provides, whose qualifier asks for this.
fn hit_item(atom: &Atom, asked: Asked, own: Standing, item: &Atom, other: Asked) -> bool
    ensures { result
        ≡ hit_item atom.now (asked_of asked) (standing_of own) item.now (asked_of other) }
{
    match other {
        Asked::Unsaid => hit_by(atom, asked, item.name(), item.relation(), own),
        Asked::Named(side) => {
            let named = Standing {
                side,
                multi_arch: MultiArch::No,
            };
            hit_by(atom, asked, item.name(), item.relation(), named)
        }
        Asked::Any => false,
        Asked::Native => false,
        Asked::Elsewhere => false,
    }
}

fn hit_in(sides: &Sides, atom: &Atom, asked: Asked, own: Standing, item: &Atom) -> bool
    ensures { result ≡ hit_in sides.now atom.now (asked_of asked) (standing_of own) item.now }
{
    hit_item(atom, asked, own, item, asked_by(sides, item.qualifier()))
}

fn hit_entry(sides: &Sides, atom: &Atom, asked: Asked, own: Standing, entry: &Entry) -> bool
    ensures { result ≡ list_any
        (λ item. hit_in sides.now atom.now (asked_of asked) (standing_of own) item) entry.now }
{
    entry
        .alternatives()
        .iter()
        .any(|item| hit_in(sides, atom, asked, own, item))
}

/// Tells whether a clash is one with something that a package provides.
fn hit_some(sides: &Sides, atom: &Atom, asked: Asked, own: Standing, provides: &Relations) -> bool
    ensures { result
        ≡ hit_some sides.now atom.now (asked_of asked) (standing_of own) provides.now }
{
    provides
        .entries()
        .iter()
        .any(|entry| hit_entry(sides, atom, asked, own, entry))
}

/// Tells whether a clash hits a package.
fn hits(sides: &Sides, atom: &Atom, binary: &Binary) -> bool
    ensures { result ≡ hits sides.now false atom.now binary.now }
{
    let asked = asked_by(sides, atom.qualifier());
    let own = binary.standing();
    let version = Some((Op::Equal, binary.version()));
    hit_by(atom, asked, binary.name(), version, own)
        || hit_some(sides, atom, asked, own, binary.provides())
}

/// Tells whether two packages are of one name and of two architectures.
fn are_sisters(binary: &Binary, other: &Binary) -> bool
    ensures { result ≡ are_sisters binary.now other.now }
{
    binary.name() == other.name() && !is_side(binary.side(), other.side())
}

/// Tells whether a clash of a package hits another one, of another name.
pub fn hits_other(sides: &Sides, binary: &Binary, atom: &Atom, other: &Binary) -> bool
    ensures { result ≡ hits_other sides.now binary.now atom.now other.now }
{
    !(binary.name() == other.name()) && hits(sides, atom, other)
}

fn hits_sister(sides: &Sides, all: &[Binary], binary: &Binary, atom: &Atom) -> bool
    ensures { result ≡ list_any
        (λ q. are_sisters binary.now q && hits sides.now false atom.now q) all.now }
{
    all.iter().any(|other| are_sisters(binary, other) && hits(sides, atom, other))
}

fn hits_own(sides: &Sides, all: &[Binary], binary: &Binary, atom: &Atom) -> bool
    ensures { result ≡ hits_own sides.now all.now binary.now atom.now }
{
    hits(sides, atom, binary) || hits_sister(sides, all, binary, atom)
}

/// Tells whether a clash of a package that is `same` hits the package itself, or that of its name
/// on the other side: it is then replaced by clashes with the others that it hits.
pub fn is_replaced(sides: &Sides, all: &[Binary], binary: &Binary, atom: &Atom) -> bool
    ensures { result ≡ is_replaced sides.now all.now binary.now atom.now }
{
    is_same(binary.multi_arch()) && hits_own(sides, all, binary, atom)
}
