//! The names of a paragraph with many fields, in sets.

ghost use Rattle.std.specs.Prelude.{◌≡◌, ℕ, List, not, IfOk, OnOk, true};
ghost use Rattle.deb_stanza.specs.Names.{has, lowered, packed};

use std::alloc::{AllocError, Global};
use std::collections::BTreeSet;

/// A name of fewer bytes is kept as a number of 64 bits.
const SHORT: usize = 10;

/// A name of fewer bytes is kept as a number of 128 bits.
const MIDDLE: usize = 19;

/// Names in small letters, each in the set for its length: a short one takes no block of its own.
#[derive(Drop)]
pub struct Names {
    pub short: BTreeSet<u64>,
    pub middle: BTreeSet<u128>,
    pub long: BTreeSet<Vec<u8>>,
}

/// A name in small letters.
fn lowered_name(alloc: Global, name: &[u8]) -> Result<Vec<u8>, AllocError>
    ensures { IfOk result (λ key. key.items ≡ lowered name.now) }
{
    name.iter().map(|b| b.to_ascii_lowercase()).collect(alloc)
}

/// The bytes of a name in small letters behind a first 1, as digits of a number to the base 128: of
/// the names of fewer than 19 bytes, which are ASCII, one alone has it.
fn packed(name: &[u8]) -> u128
    ensures { result ≡ packed (lowered name.now) }
{
    let mut number = 1u128;
    let mut left = name;
    while let [byte, rest @ ..] = left {
        number = number % (1 << 120) * 128 + u128::from(byte.to_ascii_lowercase());
        left = rest;
    }
    number
}

impl Names {
    /// No name.
    pub fn new(alloc: Global) -> Names {
        Names {
            short: BTreeSet::new(alloc),
            middle: BTreeSet::new(alloc),
            long: BTreeSet::new(alloc),
        }
    }

    /// Puts a name to the others. Where the answer is true it was not there, but for the case of
    /// ASCII letters.
    pub fn insert(&mut self, alloc: Global, name: &[u8]) -> Result<bool, AllocError>
        ensures new { IfOk result (λ is_new. is_new ≡ not (has self.old (lowered name.now))) }
        ensures there { OnOk result (has self.new (lowered name.now) ≡ true) }
        ensures kept { OnOk result
            ((key : List ℕ) → has self.old key ≡ true → has self.new key ≡ true) }
    {
        let is_new = if name.len() < SHORT {
            self.short.insert((packed(name) % (1 << 64)) as u64)?
        } else if name.len() < MIDDLE {
            self.middle.insert(packed(name))?
        } else {
            self.long.insert(lowered_name(alloc, name)?)?
        };
        Ok(is_new)
    }
}
