//! How one alternative of a relation field is read.

ghost use Rattle.std.specs.Prelude.{◌≡◌, false};
ghost use Rattle.std.specs.Option.{option_map};
ghost use Rattle.deb_text.specs.Common.{Gives, is_blank, first_is};
ghost use Rattle.deb_relation.specs.Field.{alternative_at, atom_at, limited_at, only_judged};
ghost use Rattle.deb_relation.specs.Holding.{left_for, told};
ghost use Rattle.deb_relation.specs.View.{refusal_of};

use crate::atom::Atom;
use crate::error::{NO_ALTERNATIVE, RelationError};
use crate::grammar::{read_name, read_qualifier, read_relation};
use crate::holding::judge_restrictions;
use crate::host::{Host, NoHost};
use crate::kind::Kind;
use crate::lists::{read_archs, read_profiles};
use crate::operator::Op;
use deb_text::{Class, skip_front};
use deb_version::VersionRef;
use std::alloc::Global;

impl Atom {
    /// Reads one alternative of a field of a kind (Debian Policy 7.1).
    ///
    /// # Errors
    ///
    /// The first fault by its code: [`NO_ALTERNATIVE`] for a text of blanks alone;
    /// [`BAD_NAME`](crate::BAD_NAME) for its name and qualifier;
    /// [`BAD_OPERATOR`](crate::BAD_OPERATOR), [`NOT_EQUAL`](crate::NOT_EQUAL),
    /// [`BAD_VERSION`](crate::BAD_VERSION) and [`NOT_CLOSED`](crate::NOT_CLOSED) for its relation;
    /// [`RESTRICTION`](crate::RESTRICTION), [`NOT_CLOSED`](crate::NOT_CLOSED) and
    /// [`BAD_ARCHITECTURES`](crate::BAD_ARCHITECTURES) for its architectures, then
    /// [`RESTRICTION`](crate::RESTRICTION), [`NOT_CLOSED`](crate::NOT_CLOSED) and
    /// [`BAD_PROFILES`](crate::BAD_PROFILES) for its profiles; and
    /// [`BAD_NAME`](crate::BAD_NAME) for a byte that no later part begins with. 900 where memory
    /// is refused. Nothing is left behind.
    #[tactic(auto, unfolding(crate::specs::Field::alternative_at))]
    pub fn parse(alloc: Global, text: &[u8], kind: Kind) -> Result<Atom, RelationError>
        ensures { Gives refusal_of (λ atom. atom) result (alternative_at kind text.now) }
    {
        let text = skip_front(Class::Blank, text);
        if text.is_empty() {
            return Err(RelationError {
                code: NO_ALTERNATIVE,
            });
        }
        read_atom(alloc, kind, text)
    }

    /// Reads one alternative of a field of a kind as [`parse`](Atom::parse) does, and gives it
    /// without its restrictions where they hold for a host; where they do not, nothing is left of
    /// it. The restrictions take no memory.
    ///
    /// # Errors
    ///
    /// Those of [`parse`](Atom::parse). Nothing is left behind.
    pub fn parse_for<H: Host>(
        alloc: Global,
        text: &[u8],
        kind: Kind,
        host: &H,
    ) -> Result<Option<Atom>, RelationError>
        ensures { Gives refusal_of (λ left. left) result
            (told (left_for (H.is_arch host.now) (H.is_active host.now))
            (alternative_at kind text.now)) }
    {
        let text = skip_front(Class::Blank, text);
        if text.is_empty() {
            return Err(RelationError {
                code: NO_ALTERNATIVE,
            });
        }
        read_left(alloc, kind, text, host)
    }

    /// Judges one alternative of a field of a kind as [`parse`](Atom::parse) does, and keeps
    /// nothing. The call takes no memory.
    ///
    /// # Errors
    ///
    /// Those of [`parse`](Atom::parse), but for 900.
    pub fn judge(text: &[u8], kind: Kind) -> Result<(), RelationError>
        ensures { Gives refusal_of (λ _. tt) result (only_judged (alternative_at kind text.now)) }
    {
        let text = skip_front(Class::Blank, text);
        if text.is_empty() {
            return Err(RelationError {
                code: NO_ALTERNATIVE,
            });
        }
        judge_atom(kind, text)
    }
}

/// Reads an alternative without blanks at its front.
#[tactic(auto, unfolding(crate::specs::Field::atom_at))]
fn read_atom(alloc: Global, kind: Kind, text: &[u8]) -> Result<Atom, RelationError>
    requires { first_is is_blank text.now ≡ false }
    ensures { Gives refusal_of (λ atom. atom) result (atom_at kind text.now) }
{
    let (name, rest) = read_name(text)?;
    // most alternatives are a name alone
    if rest.is_empty() {
        return Ok(Atom::unrestricted(alloc, name, None, None)?);
    }
    let (qualifier, rest) = read_qualifier(rest)?;
    let (relation, rest) = read_relation(kind, skip_front(Class::Blank, rest))?;
    let rest = skip_front(Class::Blank, rest);
    // most others end here
    if rest.is_empty() {
        return Ok(Atom::unrestricted(alloc, name, qualifier, relation)?);
    }
    read_restricted(alloc, kind, name, qualifier, relation, rest)
}

/// Reads the restrictions of an alternative, whose other parts are read, to its end.
#[inline(never)]
fn read_restricted(
    alloc: Global,
    kind: Kind,
    name: &[u8],
    qualifier: Option<&[u8]>,
    relation: Option<(Op, VersionRef)>,
    text: &[u8],
) -> Result<Atom, RelationError>
    ensures { Gives refusal_of (λ atom. atom) result
        (limited_at kind name.now (option_map (λ q. q.now) qualifier.entry) relation.entry
        text.now) }
{
    let (archs, rest) = read_archs(alloc, kind, text)?;
    let profiles = read_profiles(alloc, kind, rest)?;
    Ok(Atom::new(alloc, name, qualifier, relation, archs, profiles)?)
}

/// Reads what is left of an alternative for a host. It has no blanks at its front.
#[tactic(auto, unfolding(crate::specs::Field::atom_at))]
fn read_left<H: Host>(
    alloc: Global,
    kind: Kind,
    text: &[u8],
    host: &H,
) -> Result<Option<Atom>, RelationError>
    requires { first_is is_blank text.now ≡ false }
    ensures { Gives refusal_of (λ left. left) result
        (told (left_for (H.is_arch host.now) (H.is_active host.now)) (atom_at kind text.now)) }
{
    let (name, rest) = read_name(text)?;
    // most alternatives are a name alone
    if rest.is_empty() {
        return Ok(Some(Atom::unrestricted(alloc, name, None, None)?));
    }
    let (qualifier, rest) = read_qualifier(rest)?;
    let (relation, rest) = read_relation(kind, skip_front(Class::Blank, rest))?;
    if !judge_restrictions(host, kind, skip_front(Class::Blank, rest))? {
        return Ok(None);
    }
    Ok(Some(Atom::unrestricted(alloc, name, qualifier, relation)?))
}

/// Judges an alternative without blanks at its front.
#[tactic(auto, unfolding(crate::specs::Field::atom_at))]
fn judge_atom(kind: Kind, text: &[u8]) -> Result<(), RelationError>
    requires { first_is is_blank text.now ≡ false }
    ensures { Gives refusal_of (λ _. tt) result (only_judged (atom_at kind text.now)) }
{
    let (_, rest) = read_name(text)?;
    // most alternatives are a name alone
    if rest.is_empty() {
        return Ok(());
    }
    let (_, rest) = read_qualifier(rest)?;
    let (_, rest) = read_relation(kind, skip_front(Class::Blank, rest))?;
    judge_restrictions(&NoHost, kind, skip_front(Class::Blank, rest))?;
    Ok(())
}
