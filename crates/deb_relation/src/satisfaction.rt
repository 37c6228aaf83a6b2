//! Which package satisfies an alternative.

ghost use Rattle.std.specs.Prelude.{◌≡◌};
ghost use Rattle.std.specs.List.{list_any};
ghost use Rattle.deb_relation.specs.Satisfaction.{admits, in_relation, is_its_own, provides_in, provides_it, is_provided, package_satisfies};
ghost use Rattle.deb_relation.specs.View.{facts_of};

use crate::atom::Atom;
use crate::operator::Op;
use crate::relations::{Entry, Relations};
use deb_version::{Version, VersionRef};
use std::cmp::Ordering;

/// What is known of one package.
#[derive(Clone, Copy)]
pub struct Facts<'a> {
    pub name: &'a [u8],
    pub version: &'a Version,
    pub provides: &'a Relations,
}

/// Tells whether a package satisfies an alternative (Debian Policy 7.1 and 7.5).
///
/// An alternative with a qualifier is satisfied by none. A Provides entry with one provides
/// nothing, and one without a version satisfies no relation. The call
/// takes no memory.
pub fn satisfies(facts: &Facts, atom: &Atom) -> bool
    ensures { result ≡ package_satisfies (facts_of facts.now) atom.now }
{
    atom.qualifier().is_none() && (is_its_own(facts, atom) || is_provided(facts.provides, atom))
}

/// Tells whether a version stands in a relation (Debian Policy 7.1). In none, each does.
pub fn in_relation(relation: Option<(Op, VersionRef)>, version: &VersionRef) -> bool
    ensures { result ≡ in_relation relation.entry version.now }
{
    match relation {
        Some((op, bound)) => admits(op, version.compare(&bound)),
        None => true,
    }
}

fn is_its_own(facts: &Facts, atom: &Atom) -> bool
    ensures { result ≡ is_its_own (facts_of facts.now) atom.now }
{
    facts.name == atom.name() && in_relation(atom.relation(), &facts.version.view())
}

fn is_provided(provides: &Relations, atom: &Atom) -> bool
    ensures { result ≡ is_provided provides.now atom.now }
{
    provides
        .entries()
        .iter()
        .any(|entry| entry_provides(entry, atom))
}

fn entry_provides(entry: &Entry, atom: &Atom) -> bool
    ensures { result ≡ list_any (provides_it atom.now) entry.now }
{
    entry
        .alternatives()
        .iter()
        .any(|provided| provides_it(atom, provided))
}

/// Tells whether one item of a Provides field provides an alternative, whatever qualifier that has
/// (Debian Policy 7.5). The call takes no memory.
pub fn provides_it(atom: &Atom, provided: &Atom) -> bool
    ensures { result ≡ provides_it atom.now provided.now }
{
    provided.qualifier().is_none()
        && provided.name() == atom.name()
        && provides_in(atom.relation(), provided.relation())
}

fn provides_in(wanted: Option<(Op, VersionRef)>, provided: Option<(Op, VersionRef)>) -> bool
    ensures { result ≡ provides_in wanted.entry provided.entry }
{
    match provided {
        Some((_, version)) => in_relation(wanted, &version),
        None => wanted.is_none(),
    }
}

/// Tells whether an operator admits a version that stands so to the one in the relation.
fn admits(op: Op, order: Ordering) -> bool
    ensures { result ≡ admits op order }
{
    match op {
        Op::Earlier => order.is_lt(),
        Op::EarlierOrEqual => order.is_le(),
        Op::Equal => order.is_eq(),
        Op::LaterOrEqual => order.is_ge(),
        Op::Later => order.is_gt(),
    }
}
