//! How the name, the qualifier and the version relation of an alternative are read.

ghost use Rattle.std.specs.Prelude.{◌≡◌, true};
ghost use Rattle.std.specs.List.{list_all};
ghost use Rattle.std.specs.Option.{option_map};
ghost use Rattle.deb_text.specs.Common.{Gives, is_name_byte, is_name};
ghost use Rattle.deb_relation.specs.Grammar.{name_at, qualifier_at, operator_of, is_equal, operator_at, version_in, closed_at, relation_in, relation_at};
ghost use Rattle.deb_relation.specs.View.{refusal_of};

use crate::error::{BAD_NAME, BAD_OPERATOR, BAD_VERSION, NOT_CLOSED, NOT_EQUAL, RelationError};
use crate::kind::Kind;
use crate::operator::Op;
use deb_text::{Class, begins_with, skip_front, split_front};
use deb_version::VersionRef;

/// Tells whether bytes of names, as they are here, make a name.
fn make_name(bytes: &[u8]) -> bool
    requires { list_all is_name_byte bytes.now ≡ true }
    ensures { result ≡ is_name bytes.now }
{
    bytes.len() >= 2 && begins_with(Class::Lower, bytes)
}

/// Reads the name at the front of an alternative, and gives what stands behind it too (Debian
/// Policy 5.6.1).
///
/// # Errors
///
/// [`BAD_NAME`] where it is no name.
#[tactic(auto, unfolding(crate::specs::Grammar::name_at))]
pub fn read_name(text: &[u8]) -> Result<(&[u8], &[u8]), RelationError>
    ensures { Gives refusal_of (λ part. (part.0.now, part.1.now)) result (name_at text.now) }
{
    let (name, rest) = split_front(Class::Name, text);
    if !make_name(name) {
        return Err(RelationError { code: BAD_NAME });
    }
    Ok((name, rest))
}

/// Reads the qualifier, if a colon stands at the front, and gives what stands behind it too (Debian
/// Policy 7.1).
///
/// # Errors
///
/// [`BAD_NAME`] where the colon has no qualifier behind it.
#[tactic(auto, unfolding(crate::specs::Grammar::qualifier_at))]
pub fn read_qualifier(text: &[u8]) -> Result<(Option<&[u8]>, &[u8]), RelationError>
    ensures { Gives refusal_of (λ part. (option_map (λ q. q.now) part.0, part.1.now)) result
        (qualifier_at text.now) }
{
    match text {
        [b':', rest @ ..] => {
            let (qualifier, rest) = split_front(Class::Qualifier, rest);
            if qualifier.is_empty() {
                return Err(RelationError { code: BAD_NAME });
            }
            Ok((Some(qualifier), rest))
        }
        _ => Ok((None, text)),
    }
}

fn operator_of(text: &[u8]) -> Option<Op>
    ensures { result ≡ operator_of text.now }
{
    match text {
        b"<<" => Some(Op::Earlier),
        b"<=" => Some(Op::EarlierOrEqual),
        b"=" => Some(Op::Equal),
        b">=" => Some(Op::LaterOrEqual),
        b">>" => Some(Op::Later),
        _ => None,
    }
}

fn is_equal(op: Op) -> bool
    ensures { result ≡ is_equal op }
{
    matches!(op, Op::Equal)
}

#[tactic(auto, unfolding(crate::specs::Grammar::operator_at))]
fn read_operator(kind: Kind, text: &[u8]) -> Result<(Op, &[u8]), RelationError>
    ensures { Gives refusal_of (λ part. (part.0, part.1.now)) result (operator_at kind text.now) }
{
    let (operator, rest) = split_front(Class::Operator, text);
    let Some(op) = operator_of(operator) else {
        return Err(RelationError { code: BAD_OPERATOR });
    };
    if kind.is_provide() && !is_equal(op) {
        return Err(RelationError { code: NOT_EQUAL });
    }
    Ok((op, rest))
}

#[tactic(auto, unfolding(crate::specs::Grammar::version_in))]
fn read_version(text: &[u8]) -> Result<(VersionRef<'_>, &[u8]), RelationError>
    ensures { Gives refusal_of (λ part. (part.0, part.1.now)) result (version_in text.now) }
{
    let (version, rest) = split_front(Class::Version, text);
    match VersionRef::parse(version) {
        Ok(version) => Ok((version, rest)),
        Err(_) => Err(RelationError { code: BAD_VERSION }),
    }
}

fn skip_bracket(text: &[u8]) -> Result<&[u8], RelationError>
    ensures { Gives refusal_of (λ rest. rest.now) result (closed_at text.now) }
{
    match text {
        [b')', rest @ ..] => Ok(rest),
        _ => Err(RelationError { code: NOT_CLOSED }),
    }
}

/// Reads the relation to a version, if a bracket stands at the front, and gives what stands behind
/// it too (Debian Policy 7.1). The call takes no memory.
///
/// # Errors
///
/// In this order: [`BAD_OPERATOR`]; [`NOT_EQUAL`] in a kind that takes `=` alone; [`BAD_VERSION`];
/// [`NOT_CLOSED`] where no bracket closes it there.
#[tactic(auto, unfolding(crate::specs::Grammar::relation_at))]
pub fn read_relation(
    kind: Kind,
    text: &[u8],
) -> Result<(Option<(Op, VersionRef<'_>)>, &[u8]), RelationError>
    ensures { Gives refusal_of (λ part. (part.0, part.1.now)) result (relation_at kind text.now) }
{
    match text {
        [b'(', rest @ ..] => read_relation_in(kind, rest),
        _ => Ok((None, text)),
    }
}

/// Reads the relation to a version behind its bracket.
#[inline(never)]
fn read_relation_in(
    kind: Kind,
    text: &[u8],
) -> Result<(Option<(Op, VersionRef<'_>)>, &[u8]), RelationError>
    ensures { Gives refusal_of (λ part. (part.0, part.1.now)) result (relation_in kind text.now) }
{
    let (op, rest) = read_operator(kind, skip_front(Class::Blank, text))?;
    let (version, rest) = read_version(skip_front(Class::Blank, rest))?;
    let rest = skip_bracket(skip_front(Class::Blank, rest))?;
    Ok((Some((op, version)), rest))
}
