//! The two architectures of a cross build.

ghost use Rattle.std.specs.Prelude.{◌≡◌, IfNone, IfSome, true, false};
ghost use Rattle.cross_relations.specs.Sides.{are_sides, is_architecture, is_reserved};

use deb_text::{Class, all_in};
use std::marker::Model;

/// The names of the architecture on which is built, and of the one for which. A contract sees both.
#[derive(Drop)]
pub struct Sides<'a> {
    build: &'a [u8],
    host: &'a [u8],
}

impl<'a> Model for Sides<'a> {
    ghost use Rattle.cross_laws.specs.Binary as laws;

    ghost Value = { laws.Sides };

    ghost view = { λ sides. record { build = sides.build.now; host = sides.host.now } };
}

/// Tells whether a word means something else than one architecture.
fn is_reserved(word: &[u8]) -> bool
    ensures { result ≡ is_reserved word.now }
{
    word == b"all".as_slice()
        || word == b"any".as_slice()
        || word == b"native".as_slice()
        || word == b"one".as_slice()
}

/// Tells whether a word can be the name of an architecture, and so the end of an encoded name: it has
/// lower-case letters, digits and `-` alone, and is none of `all`, `any`, `native` and `one`.
pub fn is_architecture(word: &[u8]) -> bool
    ensures { result ≡ is_architecture word.now }
{
    !word.is_empty() && all_in(Class::Qualifier, word) && !is_reserved(word)
}

impl<'a> Sides<'a> {
    /// The sides of a build on the architecture `build` for `host`; none where a word is no name of
    /// an architecture, or both are one.
    pub fn new(build: &'a [u8], host: &'a [u8]) -> Option<Sides<'a>>
        ensures none { IfNone result (are_sides build.now host.now ≡ false) }
        ensures are { IfSome result (λ sides. are_sides build.now host.now ≡ true) }
        ensures sides { IfSome result
            (λ sides. sides ≡ record { build = build.now; host = host.now }) }
    {
        if is_architecture(build) && is_architecture(host) && !(build == host) {
            return Some(Sides { build, host });
        }
        None
    }

    /// The name of the architecture on which is built.
    pub fn build(&self) -> &'a [u8]
        ensures { result.now ≡ self.now.build }
    {
        self.build
    }

    /// The name of the architecture for which is built.
    pub fn host(&self) -> &'a [u8]
        ensures { result.now ≡ self.now.host }
    {
        self.host
    }
}
