//! The fields of all paragraphs, in one run of bytes.

ghost use Rattle.std.specs.Prelude.{◌≡◌, ◌+◌, ◌<◌, ◌≤◌, ◌^◌, slice_index_or, slice_range, [], ◌∷◌, ◌++◌, length, drop, OnOk, IfOk, true};
ghost use Rattle.std.specs.List.{list_any};
ghost use Rattle.std.specs.Option.{option_map};
ghost use Rattle.deb_stanza.specs.Cut.{end_at, onto_last};
ghost use Rattle.deb_stanza.specs.Draft.{last_texts, longer, larger, names_from};
ghost use Rattle.deb_stanza.specs.Keys.{has_colon, key_of, text_key};
ghost use Rattle.deb_stanza.specs.Names.{HasNames};
ghost use Rattle.deb_stanza.specs.Stanza.{name_of, paragraph_at, same_name, value_of};
ghost use Rattle.deb_stanza.specs.View.{IsSoundTable, first_of_start, own, table_paragraphs, table_raws, table_texts, value_among, value_named};

use crate::fields::{behind_name, name_part};
use crate::key::key_of;
use crate::names::Names;
use deb_text::trim;
use std::alloc::{AllocError, Global};

/// As how many bytes of fields a paragraph counts beside those that it has.
const PARAGRAPH_WEIGHT: usize = 64;

/// Where a paragraph begins: the place of its first field, and the number of its first line.
#[derive(Clone, Copy)]
pub struct Start {
    pub first: u32,
    pub line: u32,
}

/// The fields of all paragraphs. A field's text is its line and the lines that continue it,
/// joined by newlines; it ends where the next one begins, and so does a paragraph. Each field has
/// the key of its name, beside which its text is read only where a name has that key.
#[derive(Drop)]
pub struct Table {
    pub bytes: Vec<u8>,
    pub fields: Vec<u32>,
    pub keys: Vec<u8>,
    pub paragraphs: Vec<Start>,
}

fn push_line(bytes: &mut Vec<u8>, line: &[u8]) -> Result<(), AllocError>
    ensures { OnOk result (bytes.new.items ≡ bytes.old.items ++ 10 ∷ line.now) }
{
    bytes.push(b'\n')?;
    bytes.extend_from_slice(line)?;
    Ok(())
}

/// The bytes from one place up to another.
fn part(bytes: &[u8], start: usize, end: usize) -> &[u8]
    requires ascends { start ≤ end }
    requires within { end ≤ length bytes.now }
    ensures { result.now ≡ slice_range bytes.now start end }
{
    &bytes[start..end]
}

fn field_end(fields: &[u32], field: usize, end: usize) -> usize
    requires { field < length fields.now }
    ensures { result ≡ end_at own end fields.now field }
{
    match fields.get(field + 1) {
        Some(next) => *next as usize,
        None => end,
    }
}

/// Where a paragraph ends: where the next one begins, or at the end.
fn start_end(starts: &[Start], place: usize, end: usize) -> usize
    requires { place < length starts.now }
    ensures { result ≡ end_at first_of_start end starts.now place }
{
    match starts.get(place + 1) {
        Some(next) => next.first as usize,
        None => end,
    }
}

/// A table without paragraphs.
pub fn empty_table(alloc: Global) -> Table
    ensures raws { table_raws result ≡ [] }
    ensures sound { IsSoundTable result }
    ensures bytes { result.bytes.items ≡ [] }
    ensures keys { result.keys.items ≡ [] }
{
    Table {
        bytes: Vec::new(alloc),
        fields: Vec::new(alloc),
        keys: Vec::new(alloc),
        paragraphs: Vec::new(alloc),
    }
}

impl Table {
    fn push_text(&mut self, text: &[u8], key: u8) -> Result<(), AllocError>
        requires room { length self.old.bytes.items + length text.now + 1 < 2 ^ 32 }
        ensures bytes { OnOk result (self.new.bytes.items ≡ self.old.bytes.items ++ text.now) }
        ensures fields { OnOk result (self.new.fields.items
            ≡ self.old.fields.items ++ length self.old.bytes.items ∷ []) }
        ensures keys { OnOk result (self.new.keys.items ≡ self.old.keys.items ++ key ∷ []) }
        ensures paragraphs { self.new.paragraphs.items ≡ self.old.paragraphs.items }
    {
        self.fields.push(self.bytes.len() as u32)?;
        self.keys.push(key)?;
        self.bytes.extend_from_slice(text)?;
        Ok(())
    }

    /// Gives the last paragraph one more field.
    pub fn add_field(&mut self, text: &[u8], key: u8) -> Result<(), AllocError>
        requires sound { IsSoundTable self.old }
        requires colon { has_colon text.now ≡ true }
        requires key { key ≡ text_key text.now }
        requires some { 0 < length text.now }
        requires room { length self.old.bytes.items + length text.now + 1 < 2 ^ 32 }
        ensures raws { OnOk result (table_raws self.new
            ≡ onto_last (larger text.now) (table_raws self.old)) }
        ensures sound { OnOk result (IsSoundTable self.new) }
        ensures bytes { OnOk result (self.new.bytes.items ≡ self.old.bytes.items ++ text.now) }
        ensures keys { OnOk result (self.new.keys.items ≡ self.old.keys.items ++ key ∷ []) }
        ensures paragraphs { self.new.paragraphs.items ≡ self.old.paragraphs.items }
    {
        self.push_text(text, key)?;
        Ok(())
    }

    /// Begins a paragraph with its first field.
    pub fn add_paragraph(&mut self, line: u32, text: &[u8], key: u8) -> Result<(), AllocError>
        requires sound { IsSoundTable self.old }
        requires colon { has_colon text.now ≡ true }
        requires key { key ≡ text_key text.now }
        requires some { 0 < length text.now }
        requires room { length self.old.bytes.items + length text.now + 1 < 2 ^ 32 }
        ensures raws { OnOk result (table_raws self.new
            ≡ table_raws self.old ++ record { line = line; texts = text.now ∷ [] } ∷ []) }
        ensures sound { OnOk result (IsSoundTable self.new) }
        ensures bytes { OnOk result (self.new.bytes.items ≡ self.old.bytes.items ++ text.now) }
        ensures keys { OnOk result (self.new.keys.items ≡ self.old.keys.items ++ key ∷ []) }
    {
        let first = self.fields.len() as u32;
        self.paragraphs.push(Start { first, line })?;
        self.push_text(text, key)?;
        Ok(())
    }

    /// Lets the last field go on with a line.
    pub fn go_on(&mut self, line: &[u8]) -> Result<(), AllocError>
        requires sound { IsSoundTable self.old }
        ensures raws { OnOk result (table_raws self.new
            ≡ onto_last (longer line.now) (table_raws self.old)) }
        ensures sound { OnOk result (IsSoundTable self.new) }
        ensures bytes { OnOk result (self.new.bytes.items ≡ self.old.bytes.items ++ 10 ∷ line.now) }
        ensures keys { self.new.keys.items ≡ self.old.keys.items }
        ensures paragraphs { self.new.paragraphs.items ≡ self.old.paragraphs.items }
    {
        push_line(&mut self.bytes, line)?;
        Ok(())
    }

    /// The text of a field.
    fn text(&self, field: usize) -> &[u8]
        requires sound { IsSoundTable self.now }
        requires within { field < length self.now.fields.items }
        ensures { result.now ≡ slice_index_or (table_texts self.now) field [] }
    {
        let start = self.fields[field] as usize;
        part(
            &self.bytes,
            start,
            field_end(&self.fields, field, self.bytes.len()),
        )
    }

    /// The value of a field, if this is its name, of which the key is given.
    fn value_named(&self, field: usize, name: &[u8], key: u8) -> Option<&[u8]>
        requires sound { IsSoundTable self.now }
        requires key { key ≡ key_of name.now }
        requires within { field < length self.now.fields.items }
        ensures { option_map (λ value. value.now) result
            ≡ value_named name.now (slice_index_or (table_texts self.now) field []) }
    {
        if self.keys[field] != key {
            return None;
        }
        Some(trim(behind_name(name, self.text(field))?))
    }

    /// The value of the first of some fields that has this name, of which the key is given.
    fn value_among(&self, from: usize, to: usize, name: &[u8], key: u8) -> Option<&[u8]>
        requires sound { IsSoundTable self.now }
        requires key { key ≡ key_of name.now }
        requires within { to ≤ length self.now.fields.items }
        ensures { option_map (λ value. value.now) result
            ≡ value_among name.now (slice_range (table_texts self.now) from to) }
    {
        for field in from..to {
            if let Some(value) = self.value_named(field, name, key) {
                return Some(value);
            }
        }
        None
    }

    /// Where the fields of the last paragraph begin, or the end where there is none.
    pub fn last_start(&self) -> usize
        requires { IsSoundTable self.now }
        ensures within { result ≤ length self.now.fields.items }
        ensures texts { drop result (table_texts self.now) ≡ last_texts (table_raws self.now) }
    {
        match self.paragraphs.last() {
            Some(start) => start.first as usize,
            None => self.fields.len(),
        }
    }

    /// Tells whether a field from this one on has that name, of which the key is given.
    pub fn has_name(&self, start: usize, name: &[u8], key: u8) -> bool
        requires sound { IsSoundTable self.now }
        requires key { key ≡ key_of name.now }
        ensures { result ≡ list_any (same_name name.now) (names_from self.now start) }
    {
        self.value_among(start, self.fields.len(), name, key)
            .is_some()
    }

    /// The name of a field.
    fn name(&self, field: usize) -> &[u8]
        requires sound { IsSoundTable self.now }
        requires within { field < length self.now.fields.items }
        ensures { result.now ≡ name_of (slice_index_or (table_texts self.now) field []) }
    {
        name_part(self.text(field))
    }

    /// The names of the fields from this one on.
    pub fn names_from(&self, alloc: Global, start: usize) -> Result<Names, AllocError>
        requires sound { IsSoundTable self.now }
        requires within { start ≤ length self.now.fields.items }
        ensures { IfOk result (λ names. HasNames names (names_from self.now start)) }
    {
        let mut names = Names::new(alloc);
        let mut field = self.fields.len();
        while field > start {
            field -= 1;
            names.insert(alloc, self.name(field))?;
        }
        Ok(names)
    }

    /// How much there is to read of the paragraphs before this one: the bytes of their fields, and
    /// some for each paragraph, of which what was read takes memory too.
    pub fn weight_before(&self, paragraph: usize) -> usize {
        let first = match self.paragraphs.get(paragraph) {
            Some(start) => start.first as usize,
            None => self.fields.len(),
        };
        let bytes = match self.fields.get(first) {
            Some(start) => *start as usize,
            None => self.bytes.len(),
        };
        bytes.saturating_add(paragraph.saturating_mul(PARAGRAPH_WEIGHT))
    }

    /// The value of the field of that name in a paragraph.
    pub fn value(&self, paragraph: usize, name: &[u8]) -> Option<&[u8]>
        requires sound { IsSoundTable self.now }
        requires within { paragraph < length self.now.paragraphs.items }
        ensures { option_map (λ value. value.now) result
            ≡ value_of (paragraph_at (table_paragraphs self.now) paragraph) name.now }
    {
        let start = self.paragraphs[paragraph].first as usize;
        let end = start_end(&self.paragraphs, paragraph, self.fields.len());
        self.value_among(start, end, name, key_of(name))
    }
}
