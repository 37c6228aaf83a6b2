//! The build profiles that builds of a source may have beyond those of every build.

ghost use Rattle.std.specs.Prelude.{◌≡◌, ◌&&◌, ◌||◌, not, ℕ, List, map, IfOk, OnOk};
ghost use Rattle.std.specs.List.{list_any};
ghost use Rattle.std.specs.List.Sorted.{IsPermutation};
ghost use Rattle.std.specs.Str.{bytes_eq};
ghost use Rattle.deb_profile.specs.Restriction.{is_among};
ghost use Rattle.stage_builds.specs.Profiles.{allows, own_prefix};

use deb_profile::ProfileSet;
use deb_text::{next_word, push_pieces};
use std::alloc::{AllocError, Global};

/// What a wish allows the builds of a source.
#[derive(Clone, Copy)]
pub struct Allowed<'a> {
    /// The words of `Stages`.
    pub stages: &'a ProfileSet,
    /// The profiles of every build.
    pub base: &'a ProfileSet,
    /// What the profiles of the source's own begin with.
    pub own: &'a [u8],
    /// The profiles that the source names.
    pub named: &'a [&'a [u8]],
}

/// What the profiles of a source's own begin with: `pkg.SOURCE.`.
pub fn own_prefix(alloc: Global, source: &[u8]) -> Result<Vec<u8>, AllocError>
    ensures { IfOk result (λ prefix. prefix.items ≡ own_prefix source.now) }
{
    let mut prefix = Vec::new(alloc);
    push_pieces(&mut prefix, &[b"pkg.", source, b"."])?;
    Ok(prefix)
}

fn is_same(word: &[u8], other: &[u8]) -> bool
    ensures { result ≡ bytes_eq word.now other.now }
{
    word == other
}

fn is_listed(words: &[&[u8]], word: &[u8]) -> bool
    ensures { result ≡ list_any (λ other. bytes_eq word.now other.now) words.now }
{
    words.iter().any(|other| is_same(word, other))
}

fn is_one_of(words: &[&[u8]], word: &[u8]) -> bool
    ensures { result ≡ is_among (map (λ other. other.now) words.now) word.now }
{
    is_listed(words, word)
}

/// Tells whether the builds of a source may have a profile.
pub fn is_allowed(allowed: &Allowed, profile: &[u8]) -> bool
    ensures { result ≡ allows allowed.now profile.now }
{
    is_one_of(allowed.named, profile)
        && !allowed.base.is_active(profile)
        && (allowed.stages.is_active(profile)
            || allowed.stages.is_active(b"pkg") && profile.starts_with(allowed.own))
}

fn is_new(further: &[&[u8]], allowed: &Allowed, word: &[u8]) -> bool
    ensures { result ≡ (allows allowed.now word.now
        && not (is_among (map (λ other. other.now) further.now) word.now)) }
{
    is_allowed(allowed, word) && !is_one_of(further, word)
}

/// Puts a profile behind others, if it is allowed and none of them.
fn push_new<'a>(
    further: &mut Vec<&'a [u8]>,
    allowed: &Allowed,
    word: &'a [u8],
) -> Result<(), AllocError>
    ensures { OnOk result ((profile : List ℕ)
        → is_among (map (λ other. other.now) further.new.items) profile
        ≡ (is_among (map (λ other. other.now) further.old.items) profile
        || allows allowed.now profile && bytes_eq profile word.now)) }
{
    if !is_new(further, allowed, word) {
        return Ok(());
    }
    further.push(word)?;
    Ok(())
}

/// Puts those of some profiles that are allowed behind others, each once.
fn push_allowed<'a>(
    further: &mut Vec<&'a [u8]>,
    allowed: &Allowed,
    words: &[&'a [u8]],
) -> Result<(), AllocError>
    ensures { OnOk result ((profile : List ℕ)
        → is_among (map (λ other. other.now) further.new.items) profile
        ≡ (is_among (map (λ other. other.now) further.old.items) profile
        || allows allowed.now profile
        && is_among (map (λ other. other.now) words.now) profile)) }
{
    for word in words {
        push_new(further, allowed, *word)?;
    }
    Ok(())
}

/// The words of a text.
fn words_of(alloc: Global, text: &[u8]) -> Result<Vec<&[u8]>, AllocError> {
    let mut words = Vec::new(alloc);
    let mut rest = text;
    while let Some((word, behind)) = next_word(rest) {
        words.push(word)?;
        rest = behind;
    }
    Ok(words)
}

/// Some words in the order of their bytes.
fn in_order<'a>(alloc: Global, words: &[&'a [u8]]) -> Result<Vec<&'a [u8]>, AllocError>
    ensures { IfOk result (λ ordered. IsPermutation words.now ordered.items) }
{
    let mut ordered = Vec::from_slice(alloc, words)?;
    ordered.sort()?;
    Ok(ordered)
}

/// The profiles that builds of a source may have beyond those of every build, each once: first those
/// of these stages, in their order, then the source's own by name.
pub fn further_profiles<'a>(
    alloc: Global,
    allowed: &Allowed<'a>,
    stages: &'a [u8],
) -> Result<Vec<&'a [u8]>, AllocError>
    ensures { IfOk result (λ further. (profile : List ℕ)
        → is_among (map (λ other. other.now) further.items) profile
        ≡ allows allowed.now profile) }
{
    let mut further = Vec::new(alloc);
    push_allowed(&mut further, allowed, &words_of(alloc, stages)?)?;
    push_allowed(&mut further, allowed, &in_order(alloc, allowed.named)?)?;
    Ok(further)
}
