//! Going from line to line.

ghost use Rattle.std.specs.Prelude.{◌≡◌, ◌+◌, ◌<◌, ◌≤◌, ◌^◌, true, false, not, [], ◌∷◌, ◌++◌, length, map, OnOk, IfOk, IfErr, IfSome, Ok, Err, None, if◌then◌else◌};
ghost use Rattle.std.specs.List.{list_any};
ghost use Rattle.deb_text.specs.Common.{Gives, refusal_of, fault_at, is_nil, control_lines, answer, judged};
ghost use Rattle.deb_stanza.specs.Cut.{onto_last};
ghost use Rattle.deb_stanza.specs.Keys.{StandBelow, has_colon, key_of, text_key};
ghost use Rattle.deb_stanza.specs.Draft.{draft_state, IsFitDraft, HasRoom, longer, names_from, open_names, draft_step, with_head};
ghost use Rattle.deb_stanza.specs.Names.{HasNames};
ghost use Rattle.deb_stanza.specs.Stanza.{fault_of, head_fault, paragraphs_of, same_name, told_at};
ghost use Rattle.deb_stanza.specs.View.{IsSoundTable, line_of, table_paragraphs};

use crate::error::{CONTINUES_NO_FIELD, FIELD_TWICE, MOST_BYTES};
use crate::fields::{fault, head_name};
use crate::key::{Latest, key_of};
use crate::names::Names;
use crate::table::{Table, empty_table};
use deb_text::{Class, Fault, Line, begins_with, is_blank_line, is_comment, next_line};
use std::alloc::{AllocError, Global};

/// From so many fields on, the names of a paragraph are kept in a set. Of fewer, each key is
/// compared with that of a new name.
const MANY: usize = 64;

/// The paragraphs so far. Where the last one is open and has many fields, `names` has their names
/// in small letters.
#[derive(Drop)]
pub struct Draft {
    pub table: Table,
    pub is_open: bool,
    pub names: Option<Names>,
    pub latest: Latest,
}

/// A draft without paragraphs.
pub fn empty_draft(alloc: Global) -> Draft
    ensures state { draft_state result ≡ record { raws = []; is_open = false } }
    ensures fit { IsFitDraft result }
    ensures bytes { result.table.bytes.items ≡ [] }
{
    Draft {
        table: empty_table(alloc),
        is_open: false,
        names: None,
        latest: Latest::new(),
    }
}

impl Draft {
    /// Takes a line that separates.
    fn close(&mut self)
        requires fit { IsFitDraft self.old }
        ensures state { draft_state self.new ≡ record (draft_state self.old) { is_open = false } }
        ensures fit { IsFitDraft self.new }
        ensures bytes { self.new.table.bytes.items ≡ self.old.table.bytes.items }
    {
        // Of the lines that separate, the first one alone changes something.
        if self.is_open {
            self.is_open = false;
            self.names = None;
        }
    }

    /// Takes a line that continues.
    fn go_on(&mut self, line: Line) -> Result<(), Fault>
        requires fit { IsFitDraft self.old }
        ensures state { Gives refusal_of (λ _. draft_state self.new) result
            (if self.old.is_open
            then Ok (record (draft_state self.old) {
              raws = onto_last (longer line.entry.bytes.now) (draft_state self.old).raws;
            })
            else Err (fault_at 0 line.entry.number CONTINUES_NO_FIELD)) }
        ensures fit { OnOk result (IsFitDraft self.new) }
        ensures grown { OnOk result (length self.new.table.bytes.items
            ≤ length self.old.table.bytes.items + length line.entry.bytes.now + 1) }
    {
        if !self.is_open {
            return Err(fault(line.number, CONTINUES_NO_FIELD));
        }
        self.table.go_on(line.bytes)?;
        Ok(())
    }

    /// Puts a field of this line into the open paragraph, or into a new one.
    fn add_text(&mut self, line: Line, key: u8) -> Result<(), Fault>
        requires sound { IsSoundTable self.old.table }
        requires colon { has_colon line.bytes.now ≡ true }
        requires key { key ≡ text_key line.bytes.now }
        requires some { self.old.is_open ≡ true → is_nil self.old.table.paragraphs.items ≡ false }
        requires text { 0 < length line.bytes.now }
        requires room { HasRoom self.old line.bytes.now }
        ensures state { OnOk result (draft_state self.new
            ≡ with_head (draft_state self.old) (line_of line.entry)) }
        ensures sound { OnOk result (IsSoundTable self.new.table) }
        ensures some { OnOk result (is_nil self.new.table.paragraphs.items ≡ false) }
        ensures kept { self.new.names ≡ self.old.names }
        ensures latest { self.new.latest ≡ self.old.latest }
        ensures bytes { OnOk result (self.new.table.bytes.items
            ≡ self.old.table.bytes.items ++ line.entry.bytes.now) }
        ensures keys { OnOk result (self.new.table.keys.items
            ≡ self.old.table.keys.items ++ key ∷ []) }
        ensures memory { IfErr result (λ e. refusal_of e ≡ None) }
    {
        if self.is_open {
            self.table.add_field(line.bytes, key)?;
        } else {
            self.table.add_paragraph(line.number, line.bytes, key)?;
            self.is_open = true;
        }
        Ok(())
    }

    /// The same, and keeps how far the key of the field's name reaches.
    fn add_head(&mut self, line: Line, key: u8) -> Result<(), Fault>
        requires sound { IsSoundTable self.old.table }
        requires latest { StandBelow self.old.latest.counts self.old.table.keys.items }
        requires colon { has_colon line.bytes.now ≡ true }
        requires key { key ≡ text_key line.bytes.now }
        requires some { self.old.is_open ≡ true → is_nil self.old.table.paragraphs.items ≡ false }
        requires text { 0 < length line.bytes.now }
        requires room { HasRoom self.old line.bytes.now }
        ensures state { OnOk result (draft_state self.new
            ≡ with_head (draft_state self.old) (line_of line.entry)) }
        ensures sound { OnOk result (IsSoundTable self.new.table) }
        ensures some { OnOk result (is_nil self.new.table.paragraphs.items ≡ false) }
        ensures names { self.new.names ≡ self.old.names }
        ensures latest { OnOk result
            (StandBelow self.new.latest.counts self.new.table.keys.items) }
        ensures bytes { OnOk result (self.new.table.bytes.items
            ≡ self.old.table.bytes.items ++ line.entry.bytes.now) }
        ensures memory { IfErr result (λ e. refusal_of e ≡ None) }
    {
        self.add_text(line, key)?;
        self.latest.put(key, self.table.fields.len() as u32);
        Ok(())
    }

    /// Where the fields of the open paragraph begin.
    fn open_start(&self) -> usize
        requires { IsSoundTable self.now.table }
        ensures within { result ≤ length self.now.table.fields.items }
        ensures names { names_from self.now.table result ≡ open_names (draft_state self.now) }
    {
        if self.is_open {
            self.table.last_start()
        } else {
            self.table.fields.len()
        }
    }

    /// Puts the names of the open paragraph into a set, once it has many.
    fn keep_names(&mut self, alloc: Global) -> Result<(), AllocError>
        requires fit { IsFitDraft self.old }
        ensures fit { OnOk result (IsFitDraft self.new) }
        ensures state { draft_state self.new ≡ draft_state self.old }
        ensures table { self.new.table ≡ self.old.table }
    {
        let start = self.open_start();
        if self.names.is_none() && self.table.fields.len() - start >= MANY {
            self.names = Some(self.table.names_from(alloc, start)?);
        }
        Ok(())
    }

    /// Puts a name into the set of names, where there is one, and tells whether it was not there.
    fn is_put(&mut self, alloc: Global, name: &[u8]) -> Result<bool, AllocError>
        requires fit { IsFitDraft self.old }
        ensures new { IfOk result (λ is_new. is_new ≡ true
            → list_any (same_name name.now) (open_names (draft_state self.old)) ≡ false) }
        ensures names { OnOk result (IfSome self.new.names
            (λ set. HasNames set (open_names (draft_state self.old) ++ name.now ∷ []))) }
        ensures state { draft_state self.new ≡ draft_state self.old }
        ensures table { self.new.table ≡ self.old.table }
        ensures latest { self.new.latest ≡ self.old.latest }
    {
        match &mut self.names {
            Some(names) => names.insert(alloc, name),
            None => Ok(false),
        }
    }

    /// Tells whether a field of the open paragraph has this name. Mostly none has its key.
    fn has_name(&self, name: &[u8], key: u8) -> bool
        requires fit { IsFitDraft self.now }
        requires key { key ≡ key_of name.now }
        ensures { result ≡ list_any (same_name name.now) (open_names (draft_state self.now)) }
    {
        let start = self.open_start();
        self.latest.reaches(key, start) && self.table.has_name(start, name, key)
    }

    /// Tells whether no field of the open paragraph has this name. A set of names has it then. Where
    /// a set seems to have it already, the fields are looked at one by one.
    fn takes_name(&mut self, alloc: Global, name: &[u8], key: u8) -> Result<bool, AllocError>
        requires fit { IsFitDraft self.old }
        requires key { key ≡ key_of name.now }
        ensures new { IfOk result (λ is_new. is_new
            ≡ not (list_any (same_name name.now) (open_names (draft_state self.old)))) }
        ensures names { OnOk result (IfSome self.new.names
            (λ set. HasNames set (open_names (draft_state self.old) ++ name.now ∷ []))) }
        ensures state { draft_state self.new ≡ draft_state self.old }
        ensures table { self.new.table ≡ self.old.table }
        ensures latest { self.new.latest ≡ self.old.latest }
    {
        if self.is_put(alloc, name)? {
            return Ok(true);
        }
        Ok(!self.has_name(name, key))
    }

    /// Takes a line that begins a field.
    fn begin_field(&mut self, alloc: Global, line: Line) -> Result<(), Fault>
        requires fit { IsFitDraft self.old }
        requires room { HasRoom self.old line.bytes.now }
        ensures state { Gives refusal_of (λ _. draft_state self.new) result
            (answer (told_at line.entry.number
            (head_fault (open_names (draft_state self.old)) line.entry.bytes.now))
            (with_head (draft_state self.old) (line_of line.entry))) }
        ensures fit { OnOk result (IsFitDraft self.new) }
        ensures grown { OnOk result (length self.new.table.bytes.items
            ≤ length self.old.table.bytes.items + length line.entry.bytes.now + 1) }
    {
        let name = head_name(line)?;
        let key = key_of(name);
        self.keep_names(alloc)?;
        if !self.takes_name(alloc, name, key)? {
            return Err(fault(line.number, FIELD_TWICE));
        }
        self.add_head(line, key)?;
        Ok(())
    }

    /// Takes the next line, which is no comment.
    ///
    /// # Errors
    ///
    /// [`CONTINUES_NO_FIELD`], and those of [`head_name`](crate::fields::head_name), then
    /// [`FIELD_TWICE`], at the line. [`Fault::MEMORY`] where memory ran out.
    pub fn take_line(&mut self, alloc: Global, line: Line) -> Result<(), Fault>
        requires fit { IsFitDraft self.old }
        requires room { HasRoom self.old line.bytes.now }
        ensures state { Gives refusal_of (λ _. draft_state self.new) result
            (draft_step (draft_state self.old) (line_of line.entry)) }
        ensures fit { OnOk result (IsFitDraft self.new) }
        ensures grown { OnOk result (length self.new.table.bytes.items
            ≤ length self.old.table.bytes.items + length line.entry.bytes.now + 1) }
    {
        if is_blank_line(line.bytes) {
            self.close();
            Ok(())
        } else if begins_with(Class::Space, line.bytes) {
            self.go_on(line)
        } else {
            self.begin_field(alloc, line)
        }
    }
}

/// The paragraphs of a text, which is no longer than texts may be.
///
/// # Errors
///
/// The first of those of [`Draft::take_line`].
pub fn read_lines(alloc: Global, text: &[u8]) -> Result<Table, Fault>
    requires { length text.now ≤ MOST_BYTES }
    ensures read { Gives refusal_of table_paragraphs result
        (judged fault_of paragraphs_of (control_lines 1 text.now)) }
    ensures sound { IfOk result IsSoundTable }
{
    let mut draft = empty_draft(alloc);
    let mut rest = text;
    let mut number = 0;
    while let Some((bytes, behind)) = next_line(rest) {
        rest = behind;
        number += 1;
        if !is_comment(bytes) {
            draft.take_line(alloc, Line { number, bytes })?;
        }
    }
    Ok(draft.table)
}
