//! Who has a need, and what its qualifier asks for.

ghost use Rattle.std.specs.Prelude.{◌≡◌};
ghost use Rattle.std.specs.Option.{option_map};
ghost use Rattle.cross_laws.specs.Binary.{asked};
ghost use Rattle.cross_relations.specs.Senses.{asked_of};

use crate::sides::Sides;
use cross_laws::types::Side;

/// Who has a need: a package of a side, or a build for one.
#[derive(Clone, Copy)]
pub struct Asker {
    pub side: Side,
    pub is_build: bool,
}

/// What the qualifier of an alternative asks for.
#[derive(Clone, Copy)]
pub enum Asked {
    /// There is no qualifier.
    Unsaid,
    /// `:any`
    Any,
    /// `:native`
    Native,
    /// The name of a side.
    Named(Side),
    /// Any other qualifier.
    Elsewhere,
}

/// What a qualifier asks for.
#[tactic(auto, unfolding(cross_laws::specs::Binary::asked))]
pub fn asked_by(sides: &Sides, qualifier: Option<&[u8]>) -> Asked
    ensures { asked_of result ≡ asked sides.now (option_map (λ q. q.now) qualifier.entry) }
{
    let Some(word) = qualifier else {
        return Asked::Unsaid;
    };
    if word == b"any".as_slice() {
        return Asked::Any;
    }
    if word == b"native".as_slice() {
        return Asked::Native;
    }
    if word == sides.build() {
        return Asked::Named(Side::Build);
    }
    if word == sides.host() {
        return Asked::Named(Side::Host);
    }
    Asked::Elsewhere
}
