//! Whether fields say the same entries.

ghost use Rattle.std.specs.Prelude.{◌≡◌, ◌≤◌, ◌||◌, Bool, length, take, IsTrue, IfSome};
ghost use Rattle.std.specs.List.{Contains, list_any};
ghost use Rattle.std.specs.Option.{option_copied, option_map};
ghost use Rattle.deb_relation.specs.Relations as relations;
ghost use Rattle.cross_laws.specs.Laws.{HaveSame};

use deb_relation::{ArchList, Atom, Entry, Item, Op, ProfileList, Word};
use deb_text::is_same_text;
use deb_version::VersionRef;

/// Tells whether two texts, which may be absent, are the same.
pub fn is_same_value(a: Option<&[u8]>, b: Option<&[u8]>) -> bool
    ensures { IsTrue result
        → option_map (λ v. v.now) a.entry ≡ option_map (λ v. v.now) b.entry }
{
    match (a, b) {
        (Some(a), Some(b)) => is_same_text(a, b),
        (None, None) => true,
        _ => false,
    }
}

fn is_same_relation(a: Option<(Op, VersionRef)>, b: Option<(Op, VersionRef)>) -> bool
    ensures { IsTrue result → a.entry ≡ b.entry }
{
    match (a, b) {
        (Some((op, bound)), Some((other, version))) => {
            op == other && is_same_text(bound.text(), version.text())
        }
        (None, None) => true,
        _ => false,
    }
}

fn are_same_words(a: &[Word], b: &[Word]) -> bool
    ensures { IsTrue result → a.now ≡ b.now }
{
    if a.len() != b.len() {
        return false;
    }
    for place in 0..a.len() {
        if !is_same_text(a[place].text(), b[place].text()) {
            return false;
        }
    }
    true
}

fn is_same_arch_list(a: &ArchList, b: &ArchList) -> bool
    ensures { IsTrue result → a.now ≡ b.now }
{
    a.negated == b.negated && are_same_words(&a.names, &b.names)
}

/// Tells whether two lists of architectures, which may be absent, are the same.
fn are_same_archs(a: Option<&ArchList>, b: Option<&ArchList>) -> bool
    ensures { IsTrue result → option_copied a.entry ≡ option_copied b.entry }
{
    match (a, b) {
        (Some(a), Some(b)) => is_same_arch_list(a, b),
        (None, None) => true,
        _ => false,
    }
}

fn is_same_item(a: &Item, b: &Item) -> bool
    ensures { IsTrue result → a.now ≡ b.now }
{
    a.negated == b.negated && is_same_text(a.word.text(), b.word.text())
}

fn are_same_items(a: &[Item], b: &[Item]) -> bool
    ensures { IsTrue result → a.now ≡ b.now }
{
    if a.len() != b.len() {
        return false;
    }
    for place in 0..a.len() {
        if !is_same_item(&a[place], &b[place]) {
            return false;
        }
    }
    true
}

/// Tells whether lists of profiles are the same.
fn are_same_profiles(a: &[ProfileList], b: &[ProfileList]) -> bool
    ensures { IsTrue result → a.now ≡ b.now }
{
    if a.len() != b.len() {
        return false;
    }
    for place in 0..a.len() {
        if !are_same_items(a[place].items(), b[place].items()) {
            return false;
        }
    }
    true
}

#[tactic(auto, using(crate::proofs::AlikeLaws::same_atom))]
fn is_same_atom(a: &Atom, b: &Atom) -> bool
    ensures { IsTrue result → a.now ≡ b.now }
{
    is_same_text(a.name(), b.name())
        && is_same_value(a.qualifier(), b.qualifier())
        && is_same_relation(a.relation(), b.relation())
        && are_same_archs(a.archs(), b.archs())
        && are_same_profiles(a.profiles(), b.profiles())
}

fn are_same_atoms(a: &[Atom], b: &[Atom]) -> bool
    ensures { IsTrue result → a.now ≡ b.now }
{
    if a.len() != b.len() {
        return false;
    }
    for place in 0..a.len() {
        if !is_same_atom(&a[place], &b[place]) {
            return false;
        }
    }
    true
}

/// Tells whether two entries are the same: they have the same alternatives, with the same
/// restrictions.
fn is_same_entry(a: &Entry, b: &Entry) -> bool
    ensures { IsTrue result → a.now ≡ b.now }
{
    are_same_atoms(a.alternatives(), b.alternatives())
}

/// Tells whether an entry is one of these.
fn is_among(seen: &[Entry], entry: &Entry) -> bool
    ensures { IsTrue result → Contains seen.now entry.now }
{
    for other in seen {
        if is_same_entry(other, entry) {
            return true;
        }
    }
    false
}

/// How many of these entries are behind us with one more: it is the next of them, or one before.
fn place_behind(given: &[Entry], next: usize, entry: &Entry) -> Option<usize>
    requires { next ≤ length given.now }
    ensures within { IfSome result (λ after. after ≤ length given.now) }
    ensures found { IfSome result (λ after. (test : relations.Entry → Bool)
        → list_any test (take after given.now)
        ≡ (list_any test (take next given.now) || test entry.now)) }
{
    if next < given.len() && is_same_entry(&given[next], entry) {
        return Some(next + 1);
    }
    let (seen, _) = given.split_at(next);
    if is_among(seen, entry) {
        return Some(next);
    }
    None
}

/// Tells whether two lists are known to have the same entries: the first has those of the second in
/// their order, where an entry that stands again may be left out.
pub fn has_same(given: &[Entry], made: &[Entry]) -> bool
    ensures { IsTrue result → HaveSame given.now made.now }
{
    let mut next = 0;
    for entry in made {
        let Some(after) = place_behind(given, next, entry) else {
            return false;
        };
        next = after;
    }
    if next < given.len() {
        return false;
    }
    true
}
