//! The parts of texts that may have a fault: paragraphs, and the entries of relation fields.

ghost use Rattle.std.specs.Prelude.{◌≡◌, ◌<◌, ◌∷◌, [], IfNone, IfOk, IfSome, Ok, length, option_map};
ghost use Rattle.deb_text.specs.Steps.{traverse};
ghost use Rattle.deb_relation.specs.Field.{entries_left, entry_at, only_judged};
ghost use Rattle.explain_faults.specs.Paragraphs as spec;

use deb_relation::{Entry, Kind, Relations, next_entry};
use deb_stanza::Paragraphs;
use deb_text::{Fault, MEMORY};
use std::alloc::{AllocError, Global};
use std::marker::Model;

/// Reads the paragraphs of a text: none where it has a fault.
pub fn read_paragraphs(alloc: Global, text: &[u8]) -> Result<Paragraphs, AllocError>
    ensures { IfOk result (λ read. read ≡ spec.paragraphs_read text.now) }
{
    match Paragraphs::read(alloc, text) {
        Ok(paragraphs) => Ok(paragraphs),
        Err(Fault::MEMORY) => Err(AllocError),
        Err(_) => no_paragraphs(alloc),
    }
}

#[tactic(auto, using(crate::proofs::EntryLaws::nothing_read))]
fn no_paragraphs(alloc: Global) -> Result<Paragraphs, AllocError>
    ensures { IfOk result (λ read. read ≡ []) }
{
    match Paragraphs::read(alloc, b"") {
        Ok(paragraphs) => Ok(paragraphs),
        Err(_) => Err(AllocError),
    }
}

/// The place of the paragraph whose first line this is.
pub fn paragraph_place(paragraphs: &Paragraphs, line: u32) -> Option<usize>
    ensures place { result ≡ spec.paragraph_place paragraphs.now line }
    ensures within { IfSome result (λ place. place < length paragraphs.now) }
{
    for place in 0..paragraphs.count() {
        if paragraphs.line_of(place) == line {
            return Some(place);
        }
    }
    None
}

/// Entries of a relation field, those that are left. They are read one by one and not kept, since a
/// field may have millions. A contract sees their list.
#[derive(Drop)]
pub struct Entries<'a> {
    alloc: Global,
    kind: Kind,
    left: Option<&'a [u8]>,
}

impl<'a> Model for Entries<'a> {
    ghost use Rattle.std.specs.Prelude.{◌≡◌, Ok, option_map};
    ghost use Rattle.deb_text.specs.Steps.{traverse};
    ghost use Rattle.deb_relation.specs.Field.{entries_left, entry_at, only_judged};
    ghost use Rattle.deb_relation.specs.Relations.{Relations};
    ghost use Rattle.explain_faults.specs.Paragraphs as spec;

    ghost Value = { Relations };

    ghost view = { λ it. spec.entries_of it.kind
        (entries_left (option_map (λ rest. rest.now) it.left)) };

    ghost invariant = { λ it. only_judged (traverse (entry_at it.kind)
        (entries_left (option_map (λ rest. rest.now) it.left))) ≡ Ok tt };
}

/// A field without a fault; `None` where it is absent or has one.
#[tactic(auto, using(crate::proofs::EntryLaws::none_read), unfolding(deb_relation::specs::Field::relations_at, deb_relation::specs::Field::entries_left, deb_text::specs::Steps::traverse))]
fn judged(kind: Kind, value: Option<&[u8]>) -> Result<Option<&[u8]>, AllocError>
    ensures same { IfOk result (λ left. spec.entries_of kind
        (entries_left (option_map (λ rest. rest.now) left))
        ≡ spec.relations_in kind (option_map (λ v. v.now) value.entry)) }
    ensures judged { IfOk result (λ left. only_judged (traverse (entry_at kind)
        (entries_left (option_map (λ rest. rest.now) left))) ≡ Ok tt) }
{
    let Some(text) = value else {
        return Ok(None);
    };
    match Relations::judge(text, kind) {
        Ok(()) => Ok(value),
        Err(error) if error.code == MEMORY => Err(AllocError),
        Err(_) => Ok(None),
    }
}

impl<'a> Entries<'a> {
    /// The entries of a field: none where it is absent or has a fault.
    pub fn of(alloc: Global, kind: Kind, value: Option<&'a [u8]>) -> Result<Entries<'a>, AllocError>
        ensures { IfOk result
            (λ entries. entries ≡ spec.relations_in kind (option_map (λ v. v.now) value.entry)) }
    {
        let left = judged(kind, value)?;
        Ok(Entries { alloc, kind, left })
    }

    /// Takes the next entry.
    #[tactic(auto, unfolding(deb_text::specs::Steps::traverse))]
    pub fn next(&mut self) -> Result<Option<Entry>, AllocError>
        ensures none { IfOk result (λ next. IfNone next (self.old ≡ [])) }
        ensures entry { IfOk result (λ next. IfSome next (λ entry. self.old ≡ entry ∷ self.new)) }
    {
        let Some((text, rest)) = next_entry(self.left) else {
            return Ok(None);
        };
        let Ok(entry) = Entry::parse(self.alloc, text, self.kind) else {
            return Err(AllocError);
        };
        *self = Entries {
            alloc: self.alloc,
            kind: self.kind,
            left: rest,
        };
        Ok(Some(entry))
    }
}
