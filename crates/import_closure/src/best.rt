//! The best of the packages that satisfy an entry.

ghost use Rattle.std.specs.Prelude.{◌≡◌, map};
ghost use Rattle.std.specs.Option.{option_map};
ghost use Rattle.import_closure.specs.Given.{given_view};
ghost use Rattle.import_closure.specs.Choice.{best_for, best_of, is_better, is_fitting};

use crate::Given;
use crate::order::comes_before;
use deb_relation::{Atom, Entry, Facts, satisfies};

/// Tells whether a package satisfies an alternative.
pub fn is_fitting(atom: &Atom, given: &Given) -> bool
    ensures { result ≡ is_fitting atom.now (given_view given.now) }
{
    let facts = Facts {
        name: &given.name,
        version: &given.version,
        provides: &given.relations.provides,
    };
    satisfies(&facts, atom)
}

/// Tells whether a package satisfies an alternative, and better than the best so far.
fn is_better(atom: &Atom, best: Option<&Given>, given: &Given) -> bool
    ensures { result ≡ is_better atom.now (option_map (λ g. given_view g.now) best.entry)
        (given_view given.now) }
{
    if !is_fitting(atom, given) {
        return false;
    }
    match best {
        Some(other) => comes_before(atom.name(), given, other),
        None => true,
    }
}

/// The best that satisfies an alternative.
fn best_of<'a>(atom: &Atom, among: &[&'a Given]) -> Option<&'a Given>
    ensures { option_map (λ g. given_view g.now) result
        ≡ best_of atom.now (map (λ g. given_view g.now) among.now) }
{
    let mut best = None;
    for given in among {
        if is_better(atom, best, given) {
            best = Some(*given);
        }
    }
    best
}

/// The best that meets an entry, of packages among which all stand that may: the best for the first
/// of its alternatives that one of them satisfies.
pub fn best_for<'a>(entry: &Entry, among: &[&'a Given]) -> Option<&'a Given>
    ensures { option_map (λ g. given_view g.now) result
        ≡ best_for entry.now (map (λ g. given_view g.now) among.now) }
{
    for atom in entry.alternatives() {
        if let Some(best) = best_of(atom, among) {
            return Some(best);
        }
    }
    None
}
