//! What is said of a field of a paragraph that cannot be read, or is absent.

ghost use Rattle.explain_faults.specs.Fields.{is_of_field};
ghost use Rattle.std.specs.Prelude.{◌≡◌};

use crate::found::{FaultFacts, FaultNote};
use crate::near::{Case, is_near};
use crate::paragraph::Paragraph;
use crate::paragraphs::{paragraph_place, read_paragraphs};
use crate::spelling::Piece::{Number, Value, Words};
use crate::spelling::say;
use deb_relation::{BAD_NAME, Kind, judge_entries};
use deb_stanza::{OwnLine, from_field, item_line, numbered_lines};
use deb_text::files::{PACKAGES, SOURCES};
use deb_text::{
    Class, Fault, all_in, begins_with, has, is_blank_line, is_name, is_word, next_word,
    read_number, skip_front,
};
use deb_version::VersionRef;
use farm_universe::ABSENT;
use farm_universe::limits::{MOST_CAPACITY, MOST_SIZE};
use plan_reader::file_name;
use shown_text::shown;
use std::alloc::{AllocError, Global};

/// Tells whether a text is refused with this code for a field.
pub fn is_of_field(code: u16) -> bool
    ensures { result ≡ is_of_field code }
{
    matches!(code, 111..=114 | 121..=131 | 201 | 202)
}

/// The note on the first field of a paragraph whose value cannot be read.
fn odd_note(
    alloc: Global,
    file: u8,
    text: &[u8],
    paragraph: Paragraph<'_>,
) -> Result<FaultNote, AllocError> {
    let Some((name, odd)) = odd_field(file, paragraph) else {
        return Ok(FaultNote::none(alloc));
    };
    let lines = numbered_lines(alloc, text)?;
    let first = paragraph.line();
    let own = item_line(&lines, first, name, odd.item.unwrap_or(0));
    let head = from_field(&lines, first, name).first();
    let line = own.or(head.map(|line| line.number)).unwrap_or(0);
    let pieces = [
        Words(file_name(file).as_bytes()),
        Number(line as u64),
        Words(name),
        Value(odd.text),
        Words(odd.behind),
    ];
    let mut note = Vec::new(alloc);
    if odd.text.is_empty() {
        say(&mut note, b"  %0 line %1: %2 is empty\n", &pieces)?;
    } else {
        say(&mut note, b"  %0 line %1: %2: %3", &pieces)?;
        say(&mut note, odd.said, &pieces)?;
        say(&mut note, b"\n", &[])?;
    }
    let facts = FaultFacts {
        field: Some(name),
        item: odd.item,
        item_line: odd.item.and(own),
        word: Some(Vec::from_slice(alloc, odd.text)?),
        plan_line: None,
    };
    Ok(FaultNote::of(facts, note))
}

/// The first line of the paragraph that begins here whose field has a name near one of two, of which the
/// second may be empty.
fn near_field<'a, 'b>(
    lines: &'b [OwnLine<'a>],
    first: u32,
    lacks: &[u8],
    nor: &[u8],
) -> Option<&'b OwnLine<'a>> {
    lines
        .iter()
        .skip_while(|line| line.number < first as usize)
        .take_while(|line| !is_blank_line(line.bytes))
        .filter(|line| !line.continues())
        .find(|line| {
            is_near(Case::Any, line.name(), lacks)
                || (!nor.is_empty() && is_near(Case::Any, line.name(), nor))
        })
}

/// The note on the field that is absent from a paragraph.
fn absent_note(
    alloc: Global,
    file: u8,
    text: &[u8],
    paragraph: Paragraph<'_>,
) -> Result<FaultNote, AllocError> {
    let [named, lacks, nor] = absent_from(file, paragraph);
    let mut note = Vec::new(alloc);
    match paragraph.value(named) {
        Some(name) => say(&mut note, b"  %0 %1", &[Words(named), Value(name)])?,
        None => say(&mut note, b"  the paragraph", &[])?,
    }
    let words: &[u8] = if nor.is_empty() {
        b" has no %0"
    } else {
        b" has neither %0 nor %1"
    };
    say(&mut note, words, &[Words(lacks), Words(nor)])?;
    let lines = numbered_lines(alloc, text)?;
    if let Some(line) = near_field(&lines, paragraph.line(), lacks, nor) {
        let pieces = [Number(line.number as u64), Value(line.name())];
        say(&mut note, b"; line %0 has %1", &pieces)?;
    }
    say(&mut note, b"\n", &[])?;
    let facts = FaultFacts {
        field: Some(lacks),
        ..FaultFacts::none()
    };
    Ok(FaultNote::of(facts, note))
}

/// Gives the note on the field that a refusal of the packages, the sources or the farm is about,
/// its code being one of [`is_of_field`].
pub fn field_note(alloc: Global, fault: &Fault, text: &[u8]) -> Result<FaultNote, AllocError> {
    let mut note = FaultNote::none(alloc);
    if fault.line == 0 {
        note.text = Vec::from_slice(alloc, b"  the farm text has no paragraph\n")?;
        return Ok(note);
    }
    let among = &read_paragraphs(alloc, text)?;
    let Some(place) = paragraph_place(among, fault.line) else {
        return Ok(note);
    };
    let paragraph = Paragraph { among, place };
    if fault.code == ABSENT {
        absent_note(alloc, fault.file, text, paragraph)
    } else {
        odd_note(alloc, fault.file, text, paragraph)
    }
}

/// What the value of a field has to be.
#[derive(Clone, Copy)]
pub enum Wanted {
    Name,
    Version,
    /// A number up to [`MOST_SIZE`].
    Size,
    /// A number up to [`MOST_CAPACITY`].
    Capacity,
    /// `yes` or `no`.
    Flag,
    Mode,
    Words,
    /// A relation field.
    Items(Kind),
}

/// A field: its name, and what its value has to be.
pub type Field = (&'static [u8], Wanted);

// The fields of docs/FORMATS.md, sections 7 to 9, in their order.
const PACKAGE_FIELDS: [Field; 9] = [
    (b"Package", Wanted::Name),
    (b"Version", Wanted::Version),
    (b"Installed-Size", Wanted::Size),
    (b"Essential", Wanted::Flag),
    (b"Pre-Depends", Wanted::Items(Kind::Need)),
    (b"Depends", Wanted::Items(Kind::Need)),
    (b"Conflicts", Wanted::Items(Kind::Clash)),
    (b"Breaks", Wanted::Items(Kind::Clash)),
    (b"Provides", Wanted::Items(Kind::Provide)),
];

// `Source` names a source that has no `Package`.
const SOURCE_FIELDS: [Field; 9] = [
    (b"Source", Wanted::Name),
    (b"Package", Wanted::Name),
    (b"Version", Wanted::Version),
    (b"Build-Depends", Wanted::Items(Kind::BuildNeed)),
    (b"Build-Depends-Arch", Wanted::Items(Kind::BuildNeed)),
    (b"Build-Depends-Indep", Wanted::Items(Kind::BuildNeed)),
    (b"Build-Conflicts", Wanted::Items(Kind::BuildClash)),
    (b"Build-Conflicts-Arch", Wanted::Items(Kind::BuildClash)),
    (b"Build-Conflicts-Indep", Wanted::Items(Kind::BuildClash)),
];

/// The fields of the first paragraph of a farm text.
pub const FARM_FIELDS: [Field; 2] = [
    (b"Architecture-Names", Wanted::Words),
    (b"Archive", Wanted::Items(Kind::Provide)),
];

/// The fields of a recipe.
pub const RECIPE_FIELDS: [Field; 7] = [
    (b"Recipe", Wanted::Name),
    (b"Source", Wanted::Items(Kind::Provide)),
    (b"Mode", Wanted::Mode),
    (b"Profiles", Wanted::Words),
    (b"Steps", Wanted::Size),
    (b"Scratch", Wanted::Size),
    (b"Outputs", Wanted::Items(Kind::Provide)),
];

/// The fields of a base chroot.
pub const BASE_FIELDS: [Field; 3] = [
    (b"Chroot", Wanted::Name),
    (b"Capacity", Wanted::Capacity),
    (b"Packages", Wanted::Items(Kind::Provide)),
];

/// What cannot be read: an item of a list, by its place, a value, or a word of one.
#[derive(Clone, Copy)]
struct Odd<'a> {
    item: Option<usize>,
    text: &'a [u8],
    /// What more is to say of it than what was expected, with `%4` in the place of what is behind.
    said: &'static [u8],
    behind: &'a [u8],
}

impl<'a> Odd<'a> {
    fn of(item: Option<usize>, text: &'a [u8], said: &'static [u8]) -> Odd<'a> {
        let behind = b"";
        Odd {
            item,
            text,
            said,
            behind,
        }
    }
}

/// The fields of a paragraph, in the order in which they are read.
fn fields_of(file: u8, paragraph: Paragraph<'_>) -> &'static [Field] {
    match file {
        PACKAGES => &PACKAGE_FIELDS,
        SOURCES if paragraph.has(b"Package") => &SOURCE_FIELDS[1..],
        SOURCES => &SOURCE_FIELDS,
        _ if paragraph.place == 0 => &FARM_FIELDS,
        _ if paragraph.has(b"Recipe") => &RECIPE_FIELDS,
        _ => &BASE_FIELDS,
    }
}

/// What stands before a place where a comma is missing: a bracket that closes, and a name behind
/// it.
fn bracket_before_name(item: &[u8]) -> Option<&[u8]> {
    for place in 0..item.len() {
        let behind = skip_front(Class::Blank, &item[place + 1..]);
        if matches!(item[place], b')' | b']') && begins_with(Class::Lower, behind) {
            return Some(&item[place..place + 1]);
        }
    }
    None
}

/// The first of two names that stand side by side.
fn name_before_name(item: &[u8]) -> Option<&[u8]> {
    let (name, rest) = next_word(item)?;
    let (other, _) = next_word(rest)?;
    (is_name(name) && is_name(other)).then_some(name)
}

/// An item of a relation field, which has this place, if it cannot be read.
fn odd_item(place: usize, text: &[u8], kind: Kind) -> Option<Odd<'_>> {
    let error = judge_entries(Some(text), kind).err()?;
    let odd = Odd::of(Some(place), text, b"");
    match bracket_before_name(text).or(name_before_name(text)) {
        Some(behind) if error.code == BAD_NAME => Some(Odd {
            said: b": a comma is missing behind `%4`",
            behind: shown(behind),
            ..odd
        }),
        _ => Some(odd),
    }
}

/// The first item of a relation field that cannot be read.
fn odd_entry(value: &[u8], kind: Kind) -> Option<Odd<'_>> {
    value
        .split(|byte| *byte == b',')
        .filter(|item| !all_in(Class::Blank, item))
        .enumerate()
        .find_map(|(place, item)| odd_item(place, item, kind))
}

/// Tells whether a value is a number up to a limit.
fn is_up_to(most: u64, value: &[u8]) -> bool {
    read_number(value).is_some_and(|number| number <= most)
}

/// What of a value cannot be read.
fn odd_in(value: &[u8], wanted: Wanted) -> Option<Odd<'_>> {
    let flags: [&[u8]; 2] = [b"yes", b"no"];
    let modes: [&[u8]; 4] = [b"full", b"arch", b"indep", b"built"];
    let said: &'static [u8] = match wanted {
        Wanted::Name if !is_name(value) => b"",
        Wanted::Version if VersionRef::parse(value).is_err() => b"",
        Wanted::Size if !is_up_to(MOST_SIZE, value) => b" is no number up to 4,294,967,295",
        Wanted::Capacity if !is_up_to(MOST_CAPACITY, value) => {
            b" is no number up to 999,999,999,999,999"
        }
        Wanted::Flag if !flags.contains(&value) => b" is neither `yes` nor `no`",
        Wanted::Mode if !modes.contains(&value) => b" is none of `full`, `arch`, `indep`",
        Wanted::Words => {
            let mut pieces = value.split(|byte| has(Class::Blank, *byte));
            let word = pieces.find(|piece| !piece.is_empty() && !is_word(piece))?;
            return Some(Odd::of(None, word, b" is no word"));
        }
        Wanted::Items(kind) => return odd_entry(value, kind),
        _ => return None,
    };
    Some(Odd::of(None, value, said))
}

/// The first field of a paragraph of a text whose value cannot be read. Takes no memory.
fn odd_field(file: u8, paragraph: Paragraph<'_>) -> Option<(&'static [u8], Odd<'_>)> {
    for (name, wanted) in fields_of(file, paragraph) {
        let value = paragraph.value(*name);
        if let Some(odd) = value.and_then(|value| odd_in(value, *wanted)) {
            return Some((*name, odd));
        }
    }
    None
}

/// The field that names a paragraph which is refused for a field that is absent, and that field, and
/// the one that might stand in its place; no byte for one that there is not.
fn absent_from(file: u8, paragraph: Paragraph<'_>) -> [&'static [u8]; 3] {
    match file {
        PACKAGES | SOURCES if paragraph.has(b"Package") => [b"Package", b"Version", b""],
        PACKAGES => [b"", b"Package", b""],
        SOURCES if paragraph.has(b"Source") => [b"Source", b"Version", b""],
        SOURCES => [b"", b"Package", b"Source"],
        _ if paragraph.place == 0 => [b"", b"Architecture-Names", b""],
        _ if paragraph.has(b"Recipe") && paragraph.has(b"Source") => [b"Recipe", b"Steps", b""],
        _ if paragraph.has(b"Recipe") => [b"Recipe", b"Source", b""],
        _ if paragraph.has(b"Chroot") => [b"Chroot", b"Capacity", b""],
        _ => [b"", b"Recipe", b"Chroot"],
    }
}
