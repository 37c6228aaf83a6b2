//! Whether the restrictions of an alternative hold for a host, which is told as they are judged: no
//! list of them is made.

ghost use Rattle.std.specs.Prelude.{◌≡◌};
ghost use Rattle.std.specs.List.{list_any};
ghost use Rattle.deb_text.specs.Common.{Gives, is_blank, behind, traverse, words};
ghost use Rattle.deb_relation.specs.Field.{limits_at};
ghost use Rattle.deb_relation.specs.Holding.{archs_part, item_holds, limits_hold, list_holds, names_hold, profiles_hold, told};
ghost use Rattle.deb_relation.specs.Restrictions.{arch_at, arch_list_of, archs_in, archs_at, item_at, items_in, list_in, lists_at, profiles_at};
ghost use Rattle.deb_relation.specs.View.{refusal_of};

use crate::error::{
    BAD_ARCHITECTURES, BAD_NAME, BAD_PROFILES, NOT_CLOSED, RESTRICTION, RelationError,
};
use crate::host::Host;
use crate::kind::Kind;
use crate::lists::{arch_name, check_end, profile_name};
use deb_text::{Class, cut_at_first, next_word, skip_front};

/// Judges the restrictions of an alternative, to its end, and tells whether they hold. The call
/// takes no memory.
///
/// # Errors
///
/// Those of [`read_archs`](crate::lists::read_archs), then those of
/// [`read_profiles`](crate::lists::read_profiles).
pub fn judge_restrictions<H: Host>(host: &H, kind: Kind, text: &[u8]) -> Result<bool, RelationError>
    ensures { Gives refusal_of (λ hold. hold) result
        (told (limits_hold (H.is_arch host.now) (H.is_active host.now)) (limits_at kind text.now)) }
{
    // most alternatives have none
    if text.is_empty() {
        return Ok(true);
    }
    let (archs_hold, rest) = judge_archs(host, kind, text)?;
    let profiles_hold = judge_profiles(host, kind, rest)?;
    Ok(archs_hold && profiles_hold)
}

/// Judges the names of a list of architectures, and tells whether one of them is the host's.
fn some_matches<H: Host>(host: &H, negated: bool, text: &[u8]) -> Result<bool, RelationError>
    ensures { Gives refusal_of (λ some. some) result
        (told (list_any (H.is_arch host.now)) (traverse (arch_at negated) (words text.now))) }
{
    let mut some = false;
    let mut rest = text;
    while let Some((word, after)) = next_word(rest) {
        let matches = host.matches(arch_name(negated, word)?);
        some = some || matches;
        rest = after;
    }
    Ok(some)
}

fn judge_arch_list<H: Host>(host: &H, text: &[u8]) -> Result<bool, RelationError>
    ensures { Gives refusal_of (λ holds. holds) result
        (told (names_hold (H.is_arch host.now)) (arch_list_of (words text.now))) }
{
    let Some((first, _)) = next_word(text) else {
        return Err(RelationError {
            code: BAD_ARCHITECTURES,
        });
    };
    let negated = matches!(first, [b'!', ..]);
    Ok(negated != some_matches(host, negated, text)?)
}

fn judge_archs_in<'a, H: Host>(host: &H, text: &'a [u8]) -> Result<(bool, &'a [u8]), RelationError>
    ensures { Gives refusal_of (λ part. (part.0, part.1.now)) result
        (told (archs_part (H.is_arch host.now)) (archs_in text.now)) }
{
    let Some((inside, rest)) = cut_at_first(b']', text) else {
        return Err(RelationError { code: NOT_CLOSED });
    };
    Ok((judge_arch_list(host, inside)?, rest))
}

#[tactic(auto, unfolding(crate::specs::Restrictions::archs_at))]
fn judge_archs<'a, H: Host>(
    host: &H,
    kind: Kind,
    text: &'a [u8],
) -> Result<(bool, &'a [u8]), RelationError>
    ensures { Gives refusal_of (λ part. (part.0, part.1.now)) result
        (told (archs_part (H.is_arch host.now)) (archs_at kind text.now)) }
{
    match text {
        [b'[', rest @ ..] => {
            if !kind.has_restrictions() {
                return Err(RelationError { code: RESTRICTION });
            }
            judge_archs_in(host, rest)
        }
        _ => Ok((true, text)),
    }
}

fn item_holds<H: Host>(host: &H, profile: &[u8], negated: bool) -> bool
    ensures { result ≡ item_holds (H.is_active host.now)
        (record { word = profile.now; negated = negated }) }
{
    negated != host.has_profile(profile)
}

/// Judges the items of a profile list, and tells whether each of them holds.
fn all_hold<H: Host>(host: &H, text: &[u8]) -> Result<bool, RelationError>
    ensures { Gives refusal_of (λ all. all) result
        (told (list_holds (H.is_active host.now)) (traverse item_at (words text.now))) }
{
    let mut all = true;
    let mut rest = text;
    while let Some((word, after)) = next_word(rest) {
        let (profile, negated) = profile_name(word)?;
        let holds = item_holds(host, profile, negated);
        all = all && holds;
        rest = after;
    }
    Ok(all)
}

#[tactic(auto, unfolding(crate::specs::Restrictions::items_in))]
fn judge_items<H: Host>(host: &H, text: &[u8]) -> Result<bool, RelationError>
    ensures { Gives refusal_of (λ holds. holds) result
        (told (list_holds (H.is_active host.now)) (items_in text.now)) }
{
    if next_word(text).is_none() {
        return Err(RelationError { code: BAD_PROFILES });
    }
    all_hold(host, text)
}

fn judge_list<H: Host>(host: &H, text: &[u8]) -> Result<bool, RelationError>
    ensures { Gives refusal_of (λ holds. holds) result
        (told (list_holds (H.is_active host.now)) (list_in (behind is_blank text.now))) }
{
    match skip_front(Class::Blank, text) {
        [b'<', items @ ..] => judge_items(host, items),
        _ => Err(RelationError { code: BAD_NAME }),
    }
}

fn judge_lists<H: Host>(host: &H, text: &[u8]) -> Result<bool, RelationError>
    ensures { Gives refusal_of (λ hold. hold) result
        (told (profiles_hold (H.is_active host.now)) (lists_at text.now)) }
{
    let mut none = true;
    let mut some = false;
    let mut rest = text;
    while let Some((list, after)) = cut_at_first(b'>', rest) {
        let holds = judge_list(host, list)?;
        some = some || holds;
        none = false;
        rest = after;
    }
    check_end(rest)?;
    Ok(some || none)
}

#[tactic(auto, unfolding(crate::specs::Restrictions::profiles_at))]
fn judge_profiles<H: Host>(host: &H, kind: Kind, text: &[u8]) -> Result<bool, RelationError>
    ensures { Gives refusal_of (λ hold. hold) result
        (told (profiles_hold (H.is_active host.now)) (profiles_at kind text.now)) }
{
    if !kind.has_restrictions() && matches!(skip_front(Class::Blank, text), [b'<', ..]) {
        return Err(RelationError { code: RESTRICTION });
    }
    judge_lists(host, text)
}
