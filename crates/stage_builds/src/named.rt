//! The build profiles that a source names.

ghost use Rattle.std.specs.Prelude.{◌≡◌, ◌++◌, map, IfOk, OnOk};
ghost use Rattle.std.specs.List.{flat_map};
ghost use Rattle.std.specs.Option.{option_map};
ghost use Rattle.stage_builds.specs.Profiles.{formula_in, named_by, named_in_atom, named_in_entry, named_in_field, named_in_formula, named_in_list, named_in_mark, named_in_marks, named_in_terms, profile_of};

use deb_relation::{Atom, Entry, ProfileList, Relations};
use deb_text::{cut_at_first, next_part, next_word};
use std::alloc::{AllocError, Global};

fn push_list<'a>(words: &mut Vec<&'a [u8]>, list: &'a ProfileList) -> Result<(), AllocError>
    ensures { OnOk result (map (λ word. word.now) words.new.items
        ≡ map (λ word. word.now) words.old.items ++ named_in_list list.now) }
{
    for item in list.items() {
        words.push(item.word.text())?;
    }
    Ok(())
}

fn push_atom<'a>(words: &mut Vec<&'a [u8]>, atom: &'a Atom) -> Result<(), AllocError>
    ensures { OnOk result (map (λ word. word.now) words.new.items
        ≡ map (λ word. word.now) words.old.items ++ named_in_atom atom.now) }
{
    for list in atom.profiles() {
        push_list(words, list)?;
    }
    Ok(())
}

fn push_entry<'a>(words: &mut Vec<&'a [u8]>, entry: &'a Entry) -> Result<(), AllocError>
    ensures { OnOk result (map (λ word. word.now) words.new.items
        ≡ map (λ word. word.now) words.old.items ++ named_in_entry entry.now) }
{
    for atom in entry.alternatives() {
        push_atom(words, atom)?;
    }
    Ok(())
}

fn push_field<'a>(words: &mut Vec<&'a [u8]>, field: &'a Relations) -> Result<(), AllocError>
    ensures { OnOk result (map (λ word. word.now) words.new.items
        ≡ map (λ word. word.now) words.old.items ++ named_in_field field.now) }
{
    for entry in field.entries() {
        push_entry(words, entry)?;
    }
    Ok(())
}

fn push_fields<'a>(words: &mut Vec<&'a [u8]>, fields: &'a [Relations]) -> Result<(), AllocError>
    ensures { OnOk result (map (λ word. word.now) words.new.items
        ≡ map (λ word. word.now) words.old.items ++ flat_map named_in_field fields.now) }
{
    for field in fields {
        push_field(words, field)?;
    }
    Ok(())
}

/// The profile of a term, which may have `!` before it.
fn profile_of(term: &[u8]) -> &[u8]
    ensures { result.now ≡ profile_of term.now }
{
    match term {
        [b'!', profile @ ..] => profile,
        _ => term,
    }
}

/// Puts the profiles of terms between `+` behind others.
fn push_terms<'a>(words: &mut Vec<&'a [u8]>, terms: &'a [u8]) -> Result<(), AllocError>
    ensures { OnOk result (map (λ word. word.now) words.new.items
        ≡ map (λ word. word.now) words.old.items ++ named_in_terms terms.now) }
{
    let mut left = Some(terms);
    while let Some(rest) = left {
        let (term, after) = next_part(b'+', rest);
        words.push(profile_of(term))?;
        left = after;
    }
    Ok(())
}

/// Puts the profiles of parts between `,` behind others.
fn push_formula<'a>(words: &mut Vec<&'a [u8]>, formula: &'a [u8]) -> Result<(), AllocError>
    ensures { OnOk result (map (λ word. word.now) words.new.items
        ≡ map (λ word. word.now) words.old.items ++ named_in_formula formula.now) }
{
    let mut left = Some(formula);
    while let Some(rest) = left {
        let (terms, after) = next_part(b',', rest);
        push_terms(words, terms)?;
        left = after;
    }
    Ok(())
}

/// The formula of a mark `profile=FORMULA`, if a word is one.
fn formula_in(word: &[u8]) -> Option<&[u8]>
    ensures { option_map (λ formula. formula.now) result ≡ formula_in word.now }
{
    let (key, formula) = cut_at_first(b'=', word)?;
    if b"profile".as_slice() == key {
        Some(formula)
    } else {
        None
    }
}

fn push_mark<'a>(words: &mut Vec<&'a [u8]>, word: &'a [u8]) -> Result<(), AllocError>
    ensures { OnOk result (map (λ word. word.now) words.new.items
        ≡ map (λ word. word.now) words.old.items ++ named_in_mark word.now) }
{
    match formula_in(word) {
        Some(formula) => push_formula(words, formula),
        None => Ok(()),
    }
}

/// Puts the profiles of all marks of a Package-List behind others.
fn push_marks<'a>(words: &mut Vec<&'a [u8]>, list: &'a [u8]) -> Result<(), AllocError>
    ensures { OnOk result (map (λ word. word.now) words.new.items
        ≡ map (λ word. word.now) words.old.items ++ named_in_marks list.now) }
{
    let mut rest = list;
    while let Some((word, behind)) = next_word(rest) {
        push_mark(words, word)?;
        rest = behind;
    }
    Ok(())
}

/// The build profiles that build relations and the value of a Package-List name, each as often as
/// it stands there.
pub fn named_profiles<'a>(
    alloc: Global,
    fields: &'a [Relations],
    list: &'a [u8],
) -> Result<Vec<&'a [u8]>, AllocError>
    ensures { IfOk result (λ words. map (λ word. word.now) words.items
        ≡ named_by fields.now list.now) }
{
    let mut words = Vec::new(alloc);
    push_fields(&mut words, fields)?;
    push_marks(&mut words, list)?;
    Ok(words)
}
