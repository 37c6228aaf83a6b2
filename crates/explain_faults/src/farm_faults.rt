//! What a refusal of the farm text is about, and the limit that the packages or the sources go over.

ghost use Rattle.std.specs.Prelude.{◌≡◌, [], All, IfOk, length, is_some, option_and_then};
ghost use Rattle.std.specs.List.{list_any};
ghost use Rattle.deb_stanza.specs.OwnLines.{item_line};
ghost use Rattle.farm_model.specs.Sound.{IsKnown};
ghost use Rattle.explain_faults.specs.Found as spec;
ghost use Rattle.explain_faults.specs.Paragraphs.{place_from, viewed};
ghost use Rattle.explain_faults.specs.Found.{above, outputs_of};

use crate::base_causes::{Members, unsettled_cause};
use crate::found::{FaultFacts, FaultNote, Found, Limit};
use crate::found_words::found_text;
use crate::paragraph::Paragraph;
use crate::paragraphs::{Entries, paragraph_place, read_paragraphs};
use crate::parts::{Stretch, is_same, is_taken, outputs_above, push_variants};
use crate::word_set::WordSet;
use deb_relation::{Entry, Kind};
use deb_stanza::{OwnLine, item_line, numbered_lines};
use deb_text::files::{PACKAGES, SOURCES};
use deb_text::read_number;
use farm_model::Variant;
use farm_universe::limits::{MOST_NAMES, MOST_RECIPES};
use farm_universe::{
    OVER_LIMIT, TAKEN, TWICE, UNKNOWN_SOURCE, UNKNOWN_VARIANT, UNSETTLED_BASE, Universe,
};
use std::alloc::{AllocError, Global};

/// A paragraph of the farm text that is refused with this code, the packages and the initial archive
/// of the farm, and the lines of the text.
#[derive(Clone, Copy)]
pub struct Part<'a, 'b> {
    pub alloc: Global,
    pub universe: &'a Universe,
    pub paragraph: Paragraph<'b>,
    pub lines: &'a [OwnLine<'a>],
    pub code: u16,
}

impl<'a, 'b> Part<'a, 'b> {
    /// The field that the refusal is about, which has a list of variants or a source.
    pub fn name(self) -> &'static [u8]
        ensures { result.now ≡ spec.list_name self.entry.code self.entry.paragraph.place
            (viewed self.entry.paragraph) }
    {
        if self.code == UNKNOWN_SOURCE {
            b"Source"
        } else if self.paragraph.place == 0 {
            b"Archive"
        } else if self.paragraph.has(b"Recipe") {
            b"Outputs"
        } else {
            b"Packages"
        }
    }

    /// The items of that field, one after the other.
    pub fn items(self) -> Result<Entries<'b>, AllocError>
        ensures { IfOk result (λ items. items ≡ spec.items_of self.entry.code
            self.entry.paragraph.place (viewed self.entry.paragraph)) }
    {
        Entries::of(self.alloc, Kind::Provide, self.paragraph.value(self.name()))
    }

    /// The variants that they name.
    fn variants(self) -> Result<Vec<Variant>, AllocError>
        ensures variants { IfOk result (λ variants. variants.items ≡ spec.variants_of
            self.entry.universe.now self.entry.code self.entry.paragraph.place
            (viewed self.entry.paragraph)) }
        ensures known { IfOk result
            (λ variants. All (IsKnown self.entry.universe.now) variants.items) }
    {
        let mut variants = Vec::new(self.alloc);
        push_variants(&mut variants, self.universe, self.items()?)?;
        Ok(variants)
    }

    /// The line of an item of it.
    pub fn line_of(self, item: Option<usize>) -> Option<usize>
        ensures { result ≡ option_and_then (item_line self.entry.lines.now
            (viewed self.entry.paragraph).line (spec.list_name self.entry.code
            self.entry.paragraph.place (viewed self.entry.paragraph))) item }
    {
        item_line(self.lines, self.paragraph.line(), self.name(), item?)
    }
}

/// Tells whether an item is what a refusal with this code is about.
fn is_about(universe: &Universe, code: u16, given: &[Variant], item: &Entry) -> bool
    ensures { result ≡ spec.is_about universe.now code given.now item.now }
{
    match code {
        UNKNOWN_SOURCE => true,
        UNKNOWN_VARIANT => universe.item_variant(item).is_none(),
        TAKEN => is_taken(universe, given, item),
        _ => false,
    }
}

/// The field that names a recipe or a base chroot.
pub fn name_field(paragraph: Paragraph<'_>) -> &'static [u8]
    ensures { result.now ≡ spec.name_field (viewed paragraph.entry) }
{
    if paragraph.has(b"Recipe") {
        b"Recipe"
    } else {
        b"Chroot"
    }
}

/// The name of a recipe or a base chroot.
pub fn name_of<'a>(paragraph: Paragraph<'a>) -> &'a [u8]
    ensures { result.now ≡ spec.name_of (viewed paragraph.entry) }
{
    match paragraph.value(name_field(paragraph)) {
        Some(name) => name,
        None => b"",
    }
}

/// The first recipe or base chroot above one that has its name.
pub fn namesake<'a>(paragraph: Paragraph<'a>) -> Option<Paragraph<'a>>
    ensures { is_some result ≡ list_any (spec.is_namesake (viewed paragraph.entry))
        (above paragraph.entry.among.now paragraph.entry.place) }
{
    let mut above = Stretch::above(paragraph);
    while let Some(other) = above.next() {
        if name_field(other) == name_field(paragraph) && name_of(other) == name_of(paragraph) {
            return Some(other);
        }
    }
    None
}

/// The place of a variant.
fn place_of(variants: &[Variant], variant: Variant) -> Option<usize>
    ensures { result ≡ spec.place_of variants.now variant }
{
    variants.iter().position(|other| is_same(*other, variant))
}

/// The first variant that is an earlier one too, and that one.
fn first_again(alloc: Global, variants: &[Variant]) -> Result<Option<Found>, AllocError>
    ensures { IfOk result (λ found. found ≡ spec.first_again [] variants.now) }
{
    let (mut before, mut left) = (Vec::new(alloc), variants);
    while let [variant, rest @ ..] = left {
        if let Some(first) = place_of(&before, *variant) {
            return Ok(Some(Found::Again(before.len(), first)));
        }
        before.push(*variant)?;
        left = rest;
    }
    Ok(None)
}

/// The limit that a recipe or a base chroot goes over.
fn farm_limit(alloc: Global, paragraph: Paragraph<'_>) -> Result<Limit, AllocError>
    ensures { IfOk result (λ limit. limit ≡ spec.farm_limit
        (above paragraph.entry.among.now paragraph.entry.place) (viewed paragraph.entry)) }
{
    if !paragraph.has(b"Recipe") {
        Ok(Limit::Bases)
    } else if count_names(alloc, Stretch::above(paragraph), b"Recipe")? >= MOST_RECIPES {
        Ok(Limit::Recipes)
    } else {
        Ok(Limit::RecipeEntries)
    }
}

/// The first item that the refusal is about. Memory would be refused for more than 2 ^ 64 items.
fn item_found(part: Part<'_, '_>) -> Result<Option<usize>, AllocError>
    ensures { IfOk result (λ place. place ≡ place_from (spec.is_about part.entry.universe.now
        part.entry.code (outputs_of part.entry.universe.now
        (above part.entry.paragraph.among.now part.entry.paragraph.place))) 0
        (spec.items_of part.entry.code part.entry.paragraph.place (viewed part.entry.paragraph))) }
{
    let given = outputs_above(part.alloc, part.universe, part.paragraph)?;
    let mut items = part.items()?;
    let mut place: usize = 0;
    while let Some(item) = items.next()? {
        if is_about(part.universe, part.code, &given, &item) {
            return Ok(Some(place));
        }
        place = place.checked_add(1).ok_or(AllocError)?;
    }
    Ok(None)
}

/// What the refusal is about.
#[tactic(auto, unfolding(crate::specs::Found::found_by))]
fn found_by(part: Part<'_, '_>) -> Result<Option<Found>, AllocError>
    ensures { IfOk result (λ found. found ≡ spec.found_by part.entry.universe.now
        (above part.entry.paragraph.among.now part.entry.paragraph.place) part.entry.code
        part.entry.paragraph.place (viewed part.entry.paragraph)) }
{
    match part.code {
        OVER_LIMIT => Ok(Some(Found::Over(farm_limit(part.alloc, part.paragraph)?))),
        TWICE if namesake(part.paragraph).is_some() => Ok(None),
        TWICE => first_again(part.alloc, &part.variants()?),
        UNSETTLED_BASE => {
            let variants = &part.variants()?;
            let universe = part.universe;
            let capacity = part.paragraph.value(b"Capacity");
            let capacity = capacity.and_then(|text| read_number(text)).unwrap_or(0);
            Ok(unsettled_cause(Members { universe, variants }, capacity))
        }
        _ => match item_found(part)? {
            Some(place) => Ok(Some(Found::Item(place))),
            None => Ok(None),
        },
    }
}

/// The item that is found, or the member of a base chroot.
fn item_in(found: Option<Found>) -> Option<usize>
    ensures { result ≡ spec.item_in found }
{
    match found? {
        Found::Item(place) | Found::Again(place, _) | Found::Member(place, _) => Some(place),
        Found::TooLarge | Found::Over(_) => None,
    }
}

/// The note on a paragraph.
fn part_note(part: Part<'_, '_>) -> Result<FaultNote, AllocError>
    ensures found { IfOk result (λ note. note.found ≡ spec.found_by part.entry.universe.now
        (above part.entry.paragraph.among.now part.entry.paragraph.place) part.entry.code
        part.entry.paragraph.place (viewed part.entry.paragraph)) }
    ensures item { IfOk result (λ note. note.facts.item ≡ spec.item_in note.found) }
    ensures line { IfOk result (λ note. note.facts.item_line ≡ option_and_then (item_line
        part.entry.lines.now (viewed part.entry.paragraph).line (spec.list_name part.entry.code
        part.entry.paragraph.place (viewed part.entry.paragraph))) note.facts.item) }
{
    let found = found_by(part)?;
    let text = found_text(part, found)?;
    let item = item_in(found);
    let facts = FaultFacts {
        item,
        item_line: part.line_of(item),
        ..FaultFacts::none()
    };
    Ok(FaultNote { found, facts, text })
}

/// Gives what a refusal of the farm text with this code is about, told at this line: the item, why
/// a base chroot is not settled, or the limit that it goes over; none where there is none. The codes
/// are [`TWICE`], [`UNKNOWN_VARIANT`], [`UNKNOWN_SOURCE`], [`TAKEN`], [`UNSETTLED_BASE`] and
/// [`OVER_LIMIT`]. Of the universe the packages and the initial archive count.
#[tactic(auto, unfolding(crate::specs::Found::farm_found, crate::specs::Found::farm_item_line))]
pub fn farm_note(
    alloc: Global,
    universe: &Universe,
    farm: &[u8],
    code: u16,
    line: u32,
) -> Result<FaultNote, AllocError>
    ensures found { IfOk result
        (λ note. note.found ≡ spec.farm_found universe.now farm.now code line) }
    ensures item { IfOk result (λ note. note.facts.item ≡ spec.item_in note.found) }
    ensures line { IfOk result (λ note. note.facts.item_line
        ≡ spec.farm_item_line farm.now code line note.facts.item) }
{
    let among = read_paragraphs(alloc, farm)?;
    let Some(place) = paragraph_place(&among, line) else {
        return Ok(FaultNote::none(alloc));
    };
    let paragraph = Paragraph {
        among: &among,
        place,
    };
    let lines = numbered_lines(alloc, farm)?;
    part_note(Part {
        alloc,
        universe,
        paragraph,
        lines: &lines,
        code,
    })
}

/// How many different names a field of paragraphs has.
fn count_names(
    alloc: Global,
    mut paragraphs: Stretch<'_>,
    field: &[u8],
) -> Result<usize, AllocError>
    ensures { IfOk result (λ count. count ≡ length (spec.names_in field.now paragraphs.entry)) }
{
    let mut names = WordSet::new(alloc);
    let mut count = 0;
    while let Some(paragraph) = paragraphs.next() {
        if let Some(name) = paragraph.value(field) {
            if !names.has(name) {
                names.add(name)?;
                count += 1;
            }
        }
    }
    Ok(count)
}

/// Gives the limit that a refusal of the packages or the sources text is about, the file of this
/// number, with this code, told at this line; none where the code is not [`OVER_LIMIT`], and of
/// another file.
#[tactic(auto, unfolding(crate::specs::Found::index_limit, crate::specs::Found::packages_limit))]
pub fn index_limit(
    alloc: Global,
    file: u8,
    text: &[u8],
    code: u16,
    line: u32,
) -> Result<Option<Limit>, AllocError>
    ensures { IfOk result (λ limit. limit ≡ spec.index_limit file text.now code line) }
{
    if code != OVER_LIMIT || file != PACKAGES {
        let is_of_sources = code == OVER_LIMIT && file == SOURCES;
        return Ok(is_of_sources.then_some(Limit::Sources));
    }
    let among = &read_paragraphs(alloc, text)?;
    let Some(place) = paragraph_place(among, line) else {
        return Ok(None);
    };
    let packages = Stretch::up_to(Paragraph { among, place });
    if count_names(alloc, packages, b"Package")? > MOST_NAMES {
        Ok(Some(Limit::Names))
    } else {
        Ok(Some(Limit::Entries))
    }
}
