//! Whether entries are written alike.

ghost use Rattle.std.specs.Prelude.{◌≡◌, IsTrue};

use crate::atom::Atom;
use crate::operator::Op;
use deb_text::is_same_text;
use deb_version::VersionRef;

fn is_same_relation(a: Option<(Op, VersionRef)>, b: Option<(Op, VersionRef)>) -> bool
    ensures { IsTrue result → a.entry ≡ b.entry }
{
    match (a, b) {
        (Some((op, bound)), Some((other, version))) => {
            op == other && is_same_text(bound.text(), version.text())
        }
        (None, None) => true,
        _ => false,
    }
}

fn is_same_atom(a: &Atom, b: &Atom) -> bool
    ensures { IsTrue result → a.now ≡ b.now }
{
    is_same_text(a.name(), b.name())
        && is_same_relation(a.relation(), b.relation())
        && a.is_bare()
        && b.is_bare()
}

/// Tells whether two entries are known to be the same: they have the same alternatives, none of
/// them with a qualifier or a restriction. The call takes no memory.
pub fn is_same_entry(a: &[Atom], b: &[Atom]) -> bool
    ensures { IsTrue result → a.now ≡ b.now }
{
    if a.len() != b.len() {
        return false;
    }
    for place in 0..a.len() {
        if !is_same_atom(&a[place], &b[place]) {
            return false;
        }
    }
    true
}

/// A number of some bytes behind a number of others.
fn mixed(number: u64, bytes: &[u8]) -> u64 {
    let mut mixed = number;
    for byte in bytes {
        mixed = (mixed ^ *byte as u64).wrapping_mul(0x0100_0000_01b3);
    }
    mixed
}

/// A number of an entry by which it may be looked up, the same for entries that are the same. The
/// call takes no memory.
pub fn hash_of_entry(atoms: &[Atom]) -> u64 {
    let mut number = 0xcbf2_9ce4_8422_2325;
    for atom in atoms {
        number = mixed(number, atom.name());
        if let Some((op, bound)) = atom.relation() {
            number = mixed(number, &[op as u8]);
            number = mixed(number, bound.text());
        }
    }
    number
}
