//! How the paragraph of a package is read.

ghost use Rattle.std.specs.Prelude.{◌≡◌};
ghost use Rattle.std.specs.List.{list_any};
ghost use Rattle.std.specs.Option.{option_map};
ghost use Rattle.deb_text.specs.Common.{Gives};
ghost use Rattle.deb_relation.specs.View.{refusal_of};
ghost use Rattle.import_closure.specs.Given.{flag_in, flag_of, size_in};
ghost use Rattle.cross_laws.specs.Names.{is_taken};
ghost use Rattle.cross_index.specs.Reading.{architecture_of, binary_at, field_at, five_at, five_taken, five_view, front_taken, has_taken, inside, is_all, item_taken, items_taken, kept_at, kept_of, leading, multi_arch_at, multi_arch_in, multi_arch_of, named_judged, rest_judged, source_judged, source_of, version_judged, versioned_judged};

use crate::error::TAKEN_NAME;
use cross_laws::types::{Architecture, MultiArch, Side};
use cross_relations::{Binary, Five, Sides, is_same, is_taken};
use deb_fields::{BAD_VALUE, Paragraph, or_text, read_name, read_number_in};
use deb_relation::{BAD_NAME, BAD_VERSION, Entry, Kind, RelationError, Relations};
use deb_text::{
    Class, cut_at_first, cut_at_last, is_name, next_part, skip_front, split_front, trim,
};
use deb_version::VersionRef;
use import_closure::{MOST_SIZE, read_version};
use std::alloc::Global;

/// What an architecture counts for: none where it is of neither side.
fn architecture_of(sides: &Sides, text: &[u8]) -> Option<Architecture>
    ensures { result ≡ architecture_of sides.now text.now }
{
    if text == b"all".as_slice() {
        return Some(Architecture::All);
    }
    if text == sides.build() {
        return Some(Architecture::Of(Side::Build));
    }
    if text == sides.host() {
        return Some(Architecture::Of(Side::Host));
    }
    None
}

fn multi_arch_of(text: &[u8]) -> Result<MultiArch, RelationError>
    ensures { Gives refusal_of (λ value. value) result (multi_arch_of text.now) }
{
    if text == b"no".as_slice() {
        return Ok(MultiArch::No);
    }
    if text == b"same".as_slice() {
        return Ok(MultiArch::Same);
    }
    if text == b"foreign".as_slice() {
        return Ok(MultiArch::Foreign);
    }
    if text == b"allowed".as_slice() {
        return Ok(MultiArch::Allowed);
    }
    Err(RelationError { code: BAD_VALUE })
}

pub fn multi_arch_in(value: Option<&[u8]>) -> Result<MultiArch, RelationError>
    ensures { Gives refusal_of (λ value. value) result
        (multi_arch_in (option_map (λ v. v.now) value.entry)) }
{
    match value {
        Some(text) => multi_arch_of(text),
        None => Ok(MultiArch::No),
    }
}

fn is_all(architecture: Architecture) -> bool
    ensures { result ≡ is_all architecture }
{
    match architecture {
        Architecture::All => true,
        Architecture::Of(_) => false,
    }
}

/// Reads Multi-Arch.
#[tactic(auto, unfolding(crate::specs::Reading::multi_arch_at))]
fn read_multi_arch(
    architecture: Architecture,
    paragraph: &Paragraph,
) -> Result<MultiArch, RelationError>
    ensures { Gives refusal_of (λ value. value) result
        (multi_arch_at architecture paragraph.now) }
{
    let multi_arch = multi_arch_in(paragraph.field(b"Multi-Arch"))?;
    if is_all(architecture) && is_same(multi_arch) {
        return Err(RelationError { code: BAD_VALUE });
    }
    Ok(multi_arch)
}

/// Reads Installed-Size, in KiB: 0 where it is absent.
fn read_size(value: Option<&[u8]>) -> Result<u64, RelationError>
    ensures { Gives refusal_of (λ size. size) result
        (size_in (option_map (λ v. v.now) value.entry)) }
{
    match read_number_in(MOST_SIZE, value)? {
        Some(size) => Ok(size),
        None => Ok(0),
    }
}

fn flag_of(text: &[u8]) -> Result<bool, RelationError>
    ensures { Gives refusal_of (λ flag. flag) result (flag_of text.now) }
{
    if text == b"yes".as_slice() {
        return Ok(true);
    }
    if text == b"no".as_slice() {
        return Ok(false);
    }
    Err(RelationError { code: BAD_VALUE })
}

/// Reads `yes` or `no`: no where it is absent.
fn read_flag(value: Option<&[u8]>) -> Result<bool, RelationError>
    ensures { Gives refusal_of (λ flag. flag) result
        (flag_in (option_map (λ v. v.now) value.entry)) }
{
    match value {
        Some(text) => flag_of(text),
        None => Ok(false),
    }
}

/// Reads a relation field, which has no entry where it is absent.
pub fn read_field(
    alloc: Global,
    kind: Kind,
    paragraph: &Paragraph,
    name: &[u8],
) -> Result<Relations, RelationError>
    ensures { Gives refusal_of (λ field. field) result (field_at kind paragraph.now name.now) }
{
    Relations::parse(alloc, or_text(paragraph.field(name), b""), kind)
}

/// Reads the relation fields.
#[tactic(auto, unfolding(crate::specs::Reading::five_at))]
fn read_five(alloc: Global, paragraph: &Paragraph) -> Result<Five, RelationError>
    ensures { Gives refusal_of five_view result (five_at paragraph.now) }
{
    let pre_depends = read_field(alloc, Kind::Need, paragraph, b"Pre-Depends")?;
    let depends = read_field(alloc, Kind::Need, paragraph, b"Depends")?;
    let conflicts = read_field(alloc, Kind::Clash, paragraph, b"Conflicts")?;
    let breaks = read_field(alloc, Kind::Clash, paragraph, b"Breaks")?;
    let provides = read_field(alloc, Kind::Provide, paragraph, b"Provides")?;
    Ok(Five {
        pre_depends,
        depends,
        conflicts,
        breaks,
        provides,
    })
}

fn entry_taken(sides: &Sides, entry: &Entry) -> bool
    ensures { result ≡ list_any (λ a. is_taken sides.now a.name) entry.now }
{
    entry
        .alternatives()
        .iter()
        .any(|atom| is_taken(sides, atom.name()))
}

/// Tells whether a name in a relation field is taken.
pub fn has_taken(sides: &Sides, field: &Relations) -> bool
    ensures { result ≡ has_taken sides.now field.now }
{
    field
        .entries()
        .iter()
        .any(|entry| entry_taken(sides, entry))
}

fn five_taken(sides: &Sides, five: &Five) -> bool
    ensures { result ≡ five_taken sides.now (five_view five.now) }
{
    has_taken(sides, &five.pre_depends)
        || has_taken(sides, &five.depends)
        || has_taken(sides, &five.conflicts)
        || has_taken(sides, &five.breaks)
        || has_taken(sides, &five.provides)
}

/// What a text begins with, as far as it may be a name.
fn leading(text: &[u8]) -> &[u8]
    ensures { result.now ≡ leading text.now }
{
    split_front(Class::Name, text).0
}

fn item_taken(sides: &Sides, item: &[u8]) -> bool
    ensures { result ≡ item_taken sides.now item.now }
{
    is_taken(sides, leading(skip_front(Class::Blank, item)))
}

/// Tells whether an item of a Provides field begins with a name that is taken.
fn items_taken(sides: &Sides, value: &[u8]) -> bool
    ensures { result ≡ items_taken sides.now value.now }
{
    let mut left = Some(value);
    while let Some(rest) = left {
        let (item, after) = next_part(b',', rest);
        if item_taken(sides, item) {
            return true;
        }
        left = after;
    }
    false
}

/// Tells whether a paragraph of a package of this name has a name that is taken: its own, that of
/// its source or one that it provides.
fn front_taken(sides: &Sides, paragraph: &Paragraph, name: &[u8]) -> bool
    ensures { result ≡ front_taken sides.now paragraph.now name.now }
{
    is_taken(sides, name)
        || is_taken(sides, leading(or_text(paragraph.field(b"Source"), b"")))
        || items_taken(sides, or_text(paragraph.field(b"Provides"), b""))
}

/// What stands before the `)` at the end of a text, if there is one.
pub fn inside(text: &[u8]) -> Option<&[u8]>
    ensures { option_map (λ v. v.now) result ≡ inside text.now }
{
    let (front, rest) = cut_at_last(b')', text)?;
    if rest.is_empty() { Some(front) } else { None }
}

fn judge_name(text: &[u8]) -> Result<(), RelationError>
    ensures { Gives refusal_of (λ _. tt) result (named_judged text.now) }
{
    if !is_name(trim(text)) {
        return Err(RelationError { code: BAD_NAME });
    }
    Ok(())
}

fn judge_version(text: &[u8]) -> Result<(), RelationError>
    ensures { Gives refusal_of (λ _. tt) result (version_judged text.now) }
{
    match VersionRef::parse(text) {
        Ok(_) => Ok(()),
        Err(_) => Err(RelationError { code: BAD_VERSION }),
    }
}

/// Judges `NAME (VERSION)`, of which this stands on both sides of the `(`.
#[tactic(auto, unfolding(crate::specs::Reading::versioned_judged))]
fn judge_versioned(name: &[u8], behind: &[u8]) -> Result<(), RelationError>
    ensures { Gives refusal_of (λ _. tt) result (versioned_judged name.now behind.now) }
{
    judge_name(name)?;
    let Some(text) = inside(behind) else {
        return Err(RelationError { code: BAD_NAME });
    };
    judge_version(trim(text))
}

#[tactic(auto, unfolding(crate::specs::Reading::source_of))]
fn judge_source_text(text: &[u8]) -> Result<(), RelationError>
    ensures { Gives refusal_of (λ _. tt) result (source_of text.now) }
{
    match cut_at_first(b'(', text) {
        Some((name, behind)) => judge_versioned(name, behind),
        None => judge_name(text),
    }
}

/// Judges the value of a field Source.
fn judge_source(value: Option<&[u8]>) -> Result<(), RelationError>
    ensures { Gives refusal_of (λ _. tt) result
        (source_judged (option_map (λ v. v.now) value.entry)) }
{
    match value {
        Some(text) => judge_source_text(text),
        None => Ok(()),
    }
}

/// Judges the source of a binary, and the names in its relations.
#[tactic(auto, unfolding(crate::specs::Reading::rest_judged))]
fn judge_rest(sides: &Sides, paragraph: &Paragraph, five: &Five) -> Result<(), RelationError>
    ensures { Gives refusal_of (λ _. tt) result
        (rest_judged sides.now paragraph.now (five_view five.now)) }
{
    judge_source(paragraph.field(b"Source"))?;
    if five_taken(sides, five) {
        return Err(RelationError { code: TAKEN_NAME });
    }
    Ok(())
}

/// Reads the package of a paragraph with this architecture.
#[tactic(auto, unfolding(crate::specs::Reading::binary_at))]
fn read_binary(
    alloc: Global,
    sides: &Sides,
    architecture: Architecture,
    paragraph: &Paragraph,
) -> Result<Binary, RelationError>
    ensures { Gives refusal_of (λ binary. binary) result
        (binary_at sides.now architecture paragraph.now) }
{
    let multi_arch = read_multi_arch(architecture, paragraph)?;
    let name = read_name(alloc, paragraph.needed(b"Package")?)?;
    let version = read_version(alloc, paragraph.needed(b"Version")?)?;
    read_size(paragraph.field(b"Installed-Size"))?;
    read_flag(paragraph.field(b"Essential"))?;
    let five = read_five(alloc, paragraph)?;
    judge_rest(sides, paragraph, &five)?;
    Ok(Binary::new(name, architecture, multi_arch, version, five))
}

/// Reads the package of a paragraph with this architecture, if it is of either side.
fn read_of(
    alloc: Global,
    sides: &Sides,
    architecture: Option<Architecture>,
    paragraph: &Paragraph,
) -> Result<Option<Binary>, RelationError>
    ensures { Gives refusal_of (λ kept. kept) result
        (kept_of sides.now paragraph.now architecture) }
{
    let Some(architecture) = architecture else {
        return Ok(None);
    };
    match read_binary(alloc, sides, architecture, paragraph) {
        Ok(binary) => Ok(Some(binary)),
        Err(error) => Err(error),
    }
}

/// Reads the package of a paragraph of a Packages index: none where it has no Package, or is of
/// neither architecture.
///
/// # Errors
///
/// In this order: [`TAKEN_NAME`] where its name, that of its source or one that it provides is
/// taken; [`ABSENT`](deb_fields::ABSENT) where it has no Architecture; [`BAD_VALUE`] where
/// Multi-Arch has none of its values, or is `same` where the architecture is `all`; the first fault
/// of Package, Version, Installed-Size, Essential, the relation fields and Source; and
/// [`TAKEN_NAME`] where a name in a relation is taken. 900 where memory is refused.
#[tactic(auto, unfolding(crate::specs::Reading::kept_at))]
pub fn read_kept(
    alloc: Global,
    sides: &Sides,
    paragraph: &Paragraph,
) -> Result<Option<Binary>, RelationError>
    ensures { Gives refusal_of (λ kept. kept) result (kept_at sides.now paragraph.now) }
{
    let Some(name) = paragraph.field(b"Package") else {
        return Ok(None);
    };
    if front_taken(sides, paragraph, name) {
        return Err(RelationError { code: TAKEN_NAME });
    }
    let architecture = architecture_of(sides, paragraph.needed(b"Architecture")?);
    read_of(alloc, sides, architecture, paragraph)
}
