//! Lists of variants.

ghost use Rattle.std.specs.Prelude.{◌≡◌, ◌<◌, IfSome, IfOk, IfErr, OnOk, None, Ok, All, position, length, []};
ghost use Rattle.std.specs.List.{list_any};
ghost use Rattle.std.specs.Option.{option_map};
ghost use Rattle.std.specs.Str.{bytes_eq};
ghost use Rattle.deb_text.specs.Answers.{Gives};
ghost use Rattle.deb_relation.specs.Field.{only_judged, relations_at};
ghost use Rattle.deb_relation.specs.declared.kind.Kind.TheVariants.{Provide};
ghost use Rattle.farm_universe.specs.FarmSteps.{add_item, word_set, taken_with};
ghost use Rattle.farm_universe.specs.ListText.{has_version, find_variant, pinned, variant_at, list_at};
ghost use Rattle.farm_universe.specs.FarmView.{AreDifferent, AreListed, AreTableWords, IsPlace};
ghost use Rattle.farm_model.specs.Packages.{contains, has_bit, same};
ghost use Rattle.farm_universe.specs.TableView.{table_view, IsFit, Rises};
ghost use Rattle.farm_universe.specs.View.{refusal_of};

use crate::binary::Package;
use crate::error::FieldFault;
use crate::package_table::{PackageTable, packages_at, place_of};
use deb_relation::{Entry, Kind, Relations, next_entry};
use deb_version::VersionRef;
use farm_model::Variant;
use std::alloc::Global;

/// The variants of a list in its order, and a word for each name with their bits.
#[derive(Drop)]
pub struct VariantList {
    pub variants: Vec<Variant>,
    pub words: Vec<u64>,
}

fn has_version(version: &VersionRef, binary: &Package) -> bool
    ensures { result ≡ has_version version.now binary.now }
{
    version.compare(&binary.version().view()).is_eq()
}

/// Tells whether two texts are the same. Versions are short.
fn is_same_text(text: &[u8], other: &[u8]) -> bool
    ensures { result ≡ bytes_eq text.now other.now }
{
    text.len() == other.len() && text.iter().eq(other.iter())
}

/// The place of a version among packages of a name.
pub fn version_place(packages: &[Package], version: &VersionRef) -> Option<usize>
    ensures bit { result ≡ position (has_version version.now) packages.now }
    ensures within { IfSome result (λ bit. bit < length packages.now) }
{
    packages
        .iter()
        .position(|binary| has_version(version, binary))
}

/// The place of the package whose version is written so.
fn written_at(packages: &[Package], version: &VersionRef) -> Option<usize>
    ensures bit { result ≡ position (λ p. bytes_eq p.version version.now) packages.now }
    ensures within { IfSome result (λ bit. bit < length packages.now) }
{
    packages.iter().position(|binary| is_same_text(binary.version().text(), version.text()))
}

/// The place of a version among the packages of a name. A list mostly writes it as its package does,
/// and no two of them have the same, so that the others need not be compared.
fn bit_of(packages: &[Package], version: &VersionRef) -> Option<usize>
    requires { Rises packages.now }
    ensures bit { result ≡ position (has_version version.now) packages.now }
    ensures within { IfSome result (λ bit. bit < length packages.now) }
{
    let written = written_at(packages, version);
    if written.is_some() {
        return written;
    }
    version_place(packages, version)
}

/// The variant of a name with this version.
#[tactic(auto, unfolding(crate::specs::ListText::find_variant))]
fn find_variant(table: &PackageTable, name: &[u8], version: &VersionRef) -> Option<Variant>
    requires fit { IsFit (table_view table.now) }
    ensures found { result ≡ find_variant (table_view table.now) name.now version.now }
    ensures place { IfSome result (IsPlace (table_view table.now)) }
{
    let number = place_of(&table.names, name)?;
    let bit = bit_of(packages_at(table, number), version)?;
    Some(Variant {
        name: number as u32,
        bit: bit as u32,
    })
}

/// The name and the version of an item `name (= version)`.
#[tactic(auto, unfolding(crate::specs::ListText::pinned))]
pub fn pinned(entry: &Entry) -> Option<(&[u8], VersionRef<'_>)>
    ensures { option_map (λ item. (item.0.now, item.1)) result ≡ pinned entry.now }
{
    let [atom] = entry.alternatives() else {
        return None;
    };
    if atom.qualifier().is_some() {
        return None;
    }
    match atom.relation() {
        Some((_, version)) => Some((atom.name(), version)),
        None => None,
    }
}

/// The variant that an item of a list names.
#[tactic(auto, unfolding(crate::specs::ListText::variant_at))]
fn read_variant(table: &PackageTable, entry: &Entry) -> Result<Variant, FieldFault>
    requires fit { IsFit (table_view table.now) }
    ensures read { Gives refusal_of (λ v. v) result (variant_at (table_view table.now) entry.now) }
    ensures place { IfOk result (IsPlace (table_view table.now)) }
{
    let Some((name, version)) = pinned(entry) else {
        return Err(FieldFault::UnknownVariant);
    };
    match find_variant(table, name, &version) {
        Some(variant) => Ok(variant),
        None => Err(FieldFault::UnknownVariant),
    }
}

/// Tells whether the bit of a variant is set.
#[tactic(auto, unfolding(farm_model::specs::Packages::has_bit))]
pub fn has_bit(words: &[u64], variant: Variant) -> bool
    requires name { variant.name < length words.now }
    requires bit { variant.bit < 64 }
    ensures { result ≡ has_bit words.now variant }
{
    words[variant.name as usize] >> variant.bit & 1 == 1
}

/// Sets the bit of a variant.
pub fn set_bit(words: &mut Vec<u64>, variant: Variant)
    requires name { variant.name < length words.old.items }
    requires bit { variant.bit < 64 }
    ensures { words.new.items ≡ word_set words.old.items variant }
{
    words[variant.name as usize] |= 1 << variant.bit;
}

/// Tells whether the bit of one of these variants is set.
pub fn has_some_bit(words: &[u64], variants: &[Variant]) -> bool
    requires names { All (λ v. v.name < length words.now) variants.now }
    requires bits { All (λ v. v.bit < 64) variants.now }
    ensures { result ≡ list_any (has_bit words.now) variants.now }
{
    variants.iter().any(|variant| has_bit(words, *variant))
}

/// Sets the bits of these variants.
pub fn set_bits(words: &mut Vec<u64>, variants: &[Variant])
    requires names { All (λ v. v.name < length words.old.items) variants.now }
    requires bits { All (λ v. v.bit < 64) variants.now }
    ensures { words.new.items ≡ taken_with words.old.items variants.now }
{
    for variant in variants {
        set_bit(words, *variant);
    }
}

/// Goes on by an item of a list.
#[tactic(auto, unfolding(crate::specs::FarmSteps::add_item, crate::specs::FarmSteps::add_variant))]
fn add_item(table: &PackageTable, list: &mut VariantList, entry: &Entry) -> Result<(), FieldFault>
    requires fit { IsFit (table_view table.now) }
    requires listed { AreListed (table_view table.now) list.old }
    ensures read { Gives refusal_of (λ _. list.new.variants.items) result
        (add_item (table_view table.now) list.old.variants.items entry.now) }
    ensures listed { OnOk result (AreListed (table_view table.now) list.new) }
{
    let variant = read_variant(table, entry)?;
    if has_bit(&list.words, variant) {
        return Err(FieldFault::Twice);
    }
    set_bit(&mut list.words, variant);
    list.variants.push(variant)?;
    Ok(())
}

/// A list without a variant.
pub fn empty_list(alloc: Global, table: &PackageTable) -> Result<VariantList, FieldFault>
    ensures empty { IfOk result (λ list. list.variants.items ≡ []) }
    ensures listed { IfOk result (AreListed (table_view table.now)) }
    ensures words { IfOk result (λ list. AreTableWords (table_view table.now) list.words.items) }
    ensures memory { IfErr result (λ e. refusal_of e ≡ None) }
{
    Ok(VariantList {
        variants: Vec::new(alloc),
        words: vec![in alloc; 0u64; table.names.len()]?,
    })
}

/// Reads the items of a list that was judged, one after the other.
fn read_items(alloc: Global, table: &PackageTable, text: &[u8]) -> Result<VariantList, FieldFault>
    requires fit { IsFit (table_view table.now) }
    requires judged { only_judged (relations_at Provide text.now) ≡ Ok tt }
    ensures read { Gives refusal_of (λ list. list.variants.items) result
        (list_at (table_view table.now) text.now) }
    ensures listed { IfOk result (AreListed (table_view table.now)) }
    ensures words { IfOk result (λ list. AreTableWords (table_view table.now) list.words.items) }
{
    let mut list = empty_list(alloc, table)?;
    let mut left = Some(text);
    while let Some((item, after)) = next_entry(left) {
        let entry = Entry::parse(alloc, item, Kind::Provide)?;
        add_item(table, &mut list, &entry)?;
        left = after;
    }
    Ok(list)
}

/// Reads a list of variants, and the words that have their bits. Its items are judged before the
/// first is looked up, and none of them is kept.
///
/// # Errors
///
/// 121 to 128, the first fault of the whole field; else, item by item, 205 for one that names no
/// variant and 203 for one that stands twice. [`FieldFault::Memory`] where memory is refused.
#[tactic(auto, unfolding(crate::specs::ListText::list_at))]
pub fn read_with_words(
    alloc: Global,
    table: &PackageTable,
    text: &[u8],
) -> Result<VariantList, FieldFault>
    requires fit { IsFit (table_view table.now) }
    ensures read { Gives refusal_of (λ list. list.variants.items) result
        (list_at (table_view table.now) text.now) }
    ensures listed { IfOk result (AreListed (table_view table.now)) }
    ensures words { IfOk result (λ list. AreTableWords (table_view table.now) list.words.items) }
{
    Relations::judge(text, Kind::Provide)?;
    read_items(alloc, table, text)
}

/// The length in bytes from which words are kept while a list is read. They are as many as there
/// are names, so in a shorter text each item is compared with those ahead of it.
const LONG_LIST: usize = 4096;

/// Tells whether two variants are the same.
#[tactic(auto, unfolding(farm_model::specs::Packages::same))]
fn is_same(one: Variant, other: Variant) -> bool
    ensures { result ≡ same one other }
{
    one.name == other.name && one.bit == other.bit
}

/// Tells whether a variant is among others.
fn is_among(variants: &[Variant], variant: Variant) -> bool
    ensures { result ≡ contains variants.now variant }
{
    variants.iter().any(|other| is_same(*other, variant))
}

/// Goes on by an item of a short list.
#[tactic(auto, unfolding(crate::specs::FarmSteps::add_item, crate::specs::FarmSteps::add_variant))]
fn add_short_item(
    table: &PackageTable,
    variants: &mut Vec<Variant>,
    entry: &Entry,
) -> Result<(), FieldFault>
    requires fit { IsFit (table_view table.now) }
    requires different { AreDifferent (table_view table.now) variants.old.items }
    ensures read { Gives refusal_of (λ _. variants.new.items) result
        (add_item (table_view table.now) variants.old.items entry.now) }
    ensures different { OnOk result (AreDifferent (table_view table.now) variants.new.items) }
{
    let variant = read_variant(table, entry)?;
    if is_among(variants, variant) {
        return Err(FieldFault::Twice);
    }
    variants.push(variant)?;
    Ok(())
}

/// Reads the items of a short list that was judged, one after the other.
fn read_short_items(
    alloc: Global,
    table: &PackageTable,
    text: &[u8],
) -> Result<Vec<Variant>, FieldFault>
    requires fit { IsFit (table_view table.now) }
    requires judged { only_judged (relations_at Provide text.now) ≡ Ok tt }
    ensures read { Gives refusal_of (λ vs. vs.items) result
        (list_at (table_view table.now) text.now) }
    ensures different { IfOk result (λ vs. AreDifferent (table_view table.now) vs.items) }
{
    let mut variants = Vec::new(alloc);
    let mut left = Some(text);
    while let Some((item, after)) = next_entry(left) {
        let entry = Entry::parse(alloc, item, Kind::Provide)?;
        add_short_item(table, &mut variants, &entry)?;
        left = after;
    }
    Ok(variants)
}

/// Reads a list of variants that was judged.
fn read_judged(alloc: Global, table: &PackageTable, text: &[u8]) -> Result<Vec<Variant>, FieldFault>
    requires fit { IsFit (table_view table.now) }
    requires judged { only_judged (relations_at Provide text.now) ≡ Ok tt }
    ensures read { Gives refusal_of (λ vs. vs.items) result
        (list_at (table_view table.now) text.now) }
    ensures different { IfOk result (λ vs. AreDifferent (table_view table.now) vs.items) }
{
    if text.len() < LONG_LIST {
        read_short_items(alloc, table, text)
    } else {
        Ok(read_items(alloc, table, text)?.variants)
    }
}

/// Reads a list of variants, as [`read_with_words`] does.
///
/// # Errors
///
/// Those of [`read_with_words`].
#[tactic(auto, unfolding(crate::specs::ListText::list_at))]
pub fn read_list(
    alloc: Global,
    table: &PackageTable,
    text: &[u8],
) -> Result<Vec<Variant>, FieldFault>
    requires fit { IsFit (table_view table.now) }
    ensures read { Gives refusal_of (λ vs. vs.items) result
        (list_at (table_view table.now) text.now) }
    ensures different { IfOk result (λ vs. AreDifferent (table_view table.now) vs.items) }
{
    Relations::judge(text, Kind::Provide)?;
    read_judged(alloc, table, text)
}
