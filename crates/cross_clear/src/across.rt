//! Whether what is asked for is met by what dpkg does not take, since names of one architecture say
//! less than those of two.

ghost use Rattle.std.specs.Prelude.{◌≡◌, ◌&&◌, IfNone, false, true};
ghost use Rattle.std.specs.List.{list_any};
ghost use Rattle.deb_relation.specs.Satisfaction.{provides_in};
ghost use Rattle.cross_laws.specs.Binary.{Unsaid, is_foreign, is_side};
ghost use Rattle.cross_laws.specs.Binary as laws;
ghost use Rattle.cross_laws.specs.Clear.{is_across, is_mistaken, takes_across};
ghost use Rattle.cross_laws.specs.Encoding.{asker, exactly};
ghost use Rattle.cross_laws.specs.Excludes.{hits_other};
ghost use Rattle.cross_laws.specs.Meets.{counts, meets, serves};
ghost use Rattle.cross_relations.specs.Senses.{asked_of, standing_of};
ghost use Rattle.cross_clear.specs.Across.{across_by, by_item, by_some, is_across_none, offer, taken_by};
ghost use Rattle.cross_clear.specs.Guard.{is_unmistaken};

use cross_laws::types::{MultiArch, Side};
use cross_relations::{Asked, Binary, Sides, Standing, asked_by, hits_other, is_replaced};
use deb_relation::{Atom, Entry, Op, Relations, in_relation};
use deb_version::VersionRef;

fn is_side(a: Side, b: Side) -> bool
    ensures { result ≡ is_side a b }
{
    match a {
        Side::Build => match b {
            Side::Build => true,
            Side::Host => false,
        },
        Side::Host => match b {
            Side::Build => false,
            Side::Host => true,
        },
    }
}

fn is_foreign(multi_arch: MultiArch) -> bool
    ensures { result ≡ is_foreign multi_arch }
{
    match multi_arch {
        MultiArch::No => false,
        MultiArch::Same => false,
        MultiArch::Foreign => true,
        MultiArch::Allowed => false,
    }
}

/// Tells whether what counts so would be taken for what is asked for, and dpkg does not take it.
fn takes_across(asked: Asked, own: Standing) -> bool
    ensures { result ≡ takes_across (asked_of asked) (standing_of own) }
{
    match asked {
        Asked::Unsaid => false,
        Asked::Any => false,
        Asked::Named(side) => match side {
            Side::Build => false,
            Side::Host => is_foreign(own.multi_arch) && is_side(own.side, Side::Build),
        },
        Asked::Native => is_foreign(own.multi_arch) && is_side(own.side, Side::Build),
        Asked::Elsewhere => false,
    }
}

/// Tells whether what has, or provides, this version is in a relation.
fn provides_in(wanted: Option<(Op, VersionRef)>, provided: Option<(Op, VersionRef)>) -> bool
    ensures { result ≡ provides_in wanted.entry provided.entry }
{
    match provided {
        Some((_, version)) => in_relation(wanted, &version),
        None => wanted.is_none(),
    }
}

/// Tells whether a name, in a version or none, that counts so would be taken for an alternative
/// that asks for this.
fn across_by(
    atom: &Atom,
    asked: Asked,
    name: &[u8],
    version: Option<(Op, VersionRef)>,
    own: Standing,
) -> bool
    ensures { result ≡ across_by atom.now (asked_of asked)
        (offer name.now version.entry (standing_of own)) }
{
    name == atom.name() && provides_in(atom.relation(), version) && takes_across(asked, own)
}

/// The same of an item of Provides, whose qualifier asks for this.
fn across_item(atom: &Atom, asked: Asked, own: Standing, item: &Atom, other: Asked) -> bool
    ensures { result
        ≡ by_item (across_by atom.now (asked_of asked)) (standing_of own) item.now (asked_of other) }
{
    match other {
        Asked::Unsaid => across_by(atom, asked, item.name(), item.relation(), own),
        Asked::Named(side) => {
            let named = Standing {
                side,
                multi_arch: MultiArch::No,
            };
            across_by(atom, asked, item.name(), item.relation(), named)
        }
        Asked::Any => false,
        Asked::Native => false,
        Asked::Elsewhere => false,
    }
}

fn across_in_item(sides: &Sides, atom: &Atom, asked: Asked, own: Standing, item: &Atom) -> bool
    ensures { result ≡ by_item (across_by atom.now (asked_of asked)) (standing_of own) item.now
        (laws.asked sides.now item.now.qualifier) }
{
    across_item(atom, asked, own, item, asked_by(sides, item.qualifier()))
}

fn across_entry(sides: &Sides, atom: &Atom, asked: Asked, own: Standing, entry: &Entry) -> bool
    ensures { result ≡ list_any (λ item. by_item (across_by atom.now (asked_of asked))
        (standing_of own) item (laws.asked sides.now item.qualifier)) entry.now }
{
    entry
        .alternatives()
        .iter()
        .any(|item| across_in_item(sides, atom, asked, own, item))
}

/// Tells whether something that a package provides would be taken for an alternative.
fn across_some(
    sides: &Sides,
    atom: &Atom,
    asked: Asked,
    own: Standing,
    provides: &Relations,
) -> bool
    ensures { result
        ≡ by_some sides.now (across_by atom.now (asked_of asked)) (standing_of own) provides.now }
{
    provides
        .entries()
        .iter()
        .any(|entry| across_entry(sides, atom, asked, own, entry))
}

/// Tells whether a package that is `foreign` would be taken for what an alternative asks for, and
/// dpkg does not take it.
fn is_across(sides: &Sides, atom: &Atom, binary: &Binary) -> bool
    ensures { result ≡ is_across sides.now atom.now binary.now }
{
    let asked = asked_by(sides, atom.qualifier());
    let own = binary.standing();
    let version = Some((Op::Equal, binary.version()));
    across_by(atom, asked, binary.name(), version, own)
        || across_some(sides, atom, asked, own, binary.provides())
}

/// Tells whether packages of a side serve those of another.
fn serves(side: Side, asking: Side) -> bool
    ensures { result ≡ serves side asking }
{
    match side {
        Side::Build => true,
        Side::Host => is_side(asking, Side::Host),
    }
}

/// Tells whether what counts so counts for a package of a side that asks for a name.
fn counts(own: Standing, asking: Side) -> bool
    ensures { result
        ≡ counts (record { side = asking; is_build = false }) (standing_of own) Unsaid }
{
    is_side(own.side, asking) || is_foreign(own.multi_arch) && serves(own.side, asking)
}

/// Tells whether a name, in a version or none, that counts so would be taken for a package.
fn taken_by(hit: &Binary, name: &[u8], version: Option<(Op, VersionRef)>, own: Standing) -> bool
    ensures { result ≡ taken_by hit.now (offer name.now version.entry (standing_of own)) }
{
    name == hit.name()
        && provides_in(Some((Op::Equal, hit.version())), version)
        && counts(own, hit.side())
}

/// The same of an item of Provides, whose qualifier asks for this.
fn taken_item(hit: &Binary, own: Standing, item: &Atom, other: Asked) -> bool
    ensures { result ≡ by_item (taken_by hit.now) (standing_of own) item.now (asked_of other) }
{
    match other {
        Asked::Unsaid => taken_by(hit, item.name(), item.relation(), own),
        Asked::Named(side) => {
            let named = Standing {
                side,
                multi_arch: MultiArch::No,
            };
            taken_by(hit, item.name(), item.relation(), named)
        }
        Asked::Any => false,
        Asked::Native => false,
        Asked::Elsewhere => false,
    }
}

fn taken_in_item(sides: &Sides, hit: &Binary, own: Standing, item: &Atom) -> bool
    ensures { result ≡ by_item (taken_by hit.now) (standing_of own) item.now
        (laws.asked sides.now item.now.qualifier) }
{
    taken_item(hit, own, item, asked_by(sides, item.qualifier()))
}

fn taken_entry(sides: &Sides, hit: &Binary, own: Standing, entry: &Entry) -> bool
    ensures { result ≡ list_any (λ item. by_item (taken_by hit.now) (standing_of own) item
        (laws.asked sides.now item.qualifier)) entry.now }
{
    entry
        .alternatives()
        .iter()
        .any(|item| taken_in_item(sides, hit, own, item))
}

/// Tells whether something that a package provides would be taken for another.
fn taken_some(sides: &Sides, hit: &Binary, own: Standing, provides: &Relations) -> bool
    ensures { result ≡ by_some sides.now (taken_by hit.now) (standing_of own) provides.now }
{
    provides
        .entries()
        .iter()
        .any(|entry| taken_entry(sides, hit, own, entry))
}

/// Tells whether a package would be taken for another, in the version of that.
fn is_taken_for(sides: &Sides, hit: &Binary, other: &Binary) -> bool
    ensures { result ≡ meets sides.now (asker hit.now) (exactly hit.now) other.now }
{
    let own = other.standing();
    let version = Some((Op::Equal, other.version()));
    taken_by(hit, other.name(), version, own) || taken_some(sides, hit, own, other.provides())
}

/// Tells whether a clash hits a package, and another one would be taken for that.
fn is_hit_taken(sides: &Sides, binary: &Binary, atom: &Atom, hit: &Binary, other: &Binary) -> bool
    ensures { result ≡ (hits_other sides.now binary.now atom.now hit.now
        && meets sides.now (asker hit.now) (exactly hit.now) other.now) }
{
    hits_other(sides, binary, atom, hit) && is_taken_for(sides, hit, other)
}

/// Tells whether a package would be taken for one of those that a clash hits.
fn is_any_hit_taken(
    sides: &Sides,
    all: &[Binary],
    binary: &Binary,
    atom: &Atom,
    other: &Binary,
) -> bool
    ensures { result ≡ list_any (λ t. hits_other sides.now binary.now atom.now t
        && meets sides.now (asker t) (exactly t) other.now) all.now }
{
    all.iter()
        .any(|hit| is_hit_taken(sides, binary, atom, hit, other))
}

fn is_mistaken(sides: &Sides, all: &[Binary], binary: &Binary, atom: &Atom, other: &Binary) -> bool
    ensures { result ≡ is_mistaken sides.now all.now binary.now atom.now other.now }
{
    !hits_other(sides, binary, atom, other) && is_any_hit_taken(sides, all, binary, atom, other)
}

/// A package that a clash hits, and another that would be taken for it.
#[derive(Clone, Copy)]
pub struct Mistaken {
    pub hit: usize,
    pub other: usize,
}

/// The first package that a clash hits and for which another one would be taken.
fn hit_of(sides: &Sides, all: &[Binary], binary: &Binary, atom: &Atom, other: &Binary) -> usize {
    for at in 0..all.len() {
        if is_hit_taken(sides, binary, atom, &all[at], other) {
            return at;
        }
    }
    0
}

/// The first package that would be taken for one that a clash of a package hits, and is not hit.
pub fn first_mistaken(
    sides: &Sides,
    all: &[Binary],
    binary: &Binary,
    atom: &Atom,
) -> Option<Mistaken>
    ensures { IfNone result (is_unmistaken sides.now all.now binary.now atom.now ≡ true) }
{
    if !is_replaced(sides, all, binary, atom) {
        return None;
    }
    for other in 0..all.len() {
        if is_mistaken(sides, all, binary, atom, &all[other]) {
            let hit = hit_of(sides, all, binary, atom, &all[other]);
            return Some(Mistaken { hit, other });
        }
    }
    None
}

/// Of all packages the first that would be taken for what an alternative asks for, and dpkg does
/// not take it.
pub fn across_in(sides: &Sides, all: &[Binary], atom: &Atom) -> Option<usize>
    ensures { IfNone result (is_across_none sides.now atom.now all.now ≡ true) }
{
    for at in 0..all.len() {
        if is_across(sides, atom, &all[at]) {
            return Some(at);
        }
    }
    None
}
