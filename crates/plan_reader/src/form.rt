//! A line of a plan by itself.

ghost use Rattle.std.specs.Prelude.{◌≡◌, ◌||◌, not};
ghost use Rattle.std.specs.List.{list_all, list_any};
ghost use Rattle.deb_relation.specs.Field.{alternative_at, entry_at};
ghost use Rattle.std.specs.Option.{option_map};
ghost use Rattle.deb_text.specs.Common.{Gives, refusal_code, is_blank, is_word_byte, words, is_word};
ghost use Rattle.plan_reader.specs.declared.error.TheConstants.{BAD_LINE};
ghost use Rattle.plan_reader.specs.Forms.{first_word, behind_word, form_at, form_by, wording_by, lane_form, end_form, else_form};
ghost use Rattle.plan_reader.specs.Forms.{in_line, unqualified, piece_at, unpack_form, when_form, one_word, some_words};
ghost use Rattle.plan_reader.specs.LineErrors.{refusal_of_line};
ghost use Rattle.plan_reader.specs.View.{wording_of, form_of};

use crate::error::LineError;
use crate::same::is_same;
use deb_relation::{Atom, Entry, Kind, Op, RelationError, copy_relation};
use deb_text::{Class, MEMORY, is_word, next_word, read_number, skip_front, split_front};
use deb_version::Version;
use std::alloc::Global;

/// What the line of an instruction says, its names as they stand there.
#[derive(Drop)]
pub enum Wording<'a> {
    /// `unpack NAME`, perhaps with `(OP VERSION)`
    Unpack {
        name: Vec<u8>,
        relation: Option<(Op, Version)>,
    },
    /// `configure NAME ..`
    Configure(&'a [u8]),
    /// `deconfigure NAME ..`
    Deconfigure(&'a [u8]),
    /// `remove NAME ..`
    Remove(&'a [u8]),
    /// `build RECIPE`
    Build(&'a [u8]),
    /// `publish RECIPE`
    Publish(&'a [u8]),
    /// `wait ENTRY`
    Wait(Entry),
    /// `when NAME`, perhaps with `(OP VERSION)`
    When {
        name: Vec<u8>,
        relation: Option<(Op, Version)>,
    },
    /// `else`
    Else,
}

/// What the first line of a lane says, its names as they stand there.
#[derive(Clone, Copy)]
pub struct LaneHead<'a> {
    pub name: &'a [u8],
    pub chroot: &'a [u8],
    /// What the lane may spend, in steps.
    pub budget: u64,
}

/// What a line says.
#[derive(Drop)]
pub enum Form<'a> {
    /// `block NAME`
    Block(&'a [u8]),
    /// `lane NAME chroot CHROOT budget NUMBER`
    Lane(LaneHead<'a>),
    /// `end`
    End,
    /// `use BLOCK`
    Use(&'a [u8]),
    /// an instruction
    Instruction(Wording<'a>),
}

fn read_lane(text: &[u8]) -> Result<Form<'_>, LineError>
    ensures { Gives refusal_of_line form_of result (lane_form (words text.now)) }
{
    let Some((name, rest)) = next_word(text) else {
        return Err(LineError::BadLine);
    };
    let Some((first, rest)) = next_word(rest) else {
        return Err(LineError::BadLine);
    };
    let Some((chroot, rest)) = next_word(rest) else {
        return Err(LineError::BadLine);
    };
    let Some((second, rest)) = next_word(rest) else {
        return Err(LineError::BadLine);
    };
    let Some((budget, rest)) = next_word(rest) else {
        return Err(LineError::BadLine);
    };
    if next_word(rest).is_some()
        || !is_word(name)
        || first != b"chroot".as_slice()
        || !is_word(chroot)
        || second != b"budget".as_slice()
    {
        return Err(LineError::BadLine);
    }
    match read_number(budget) {
        Some(budget) => Ok(Form::Lane(LaneHead {
            name,
            chroot,
            budget,
        })),
        None => Err(LineError::BadLine),
    }
}

fn read_end<'a>(text: &[u8]) -> Result<Form<'a>, LineError>
    ensures { Gives refusal_of_line form_of result (end_form (words text.now)) }
{
    if next_word(text).is_some() {
        return Err(LineError::BadLine);
    }
    Ok(Form::End)
}

fn unqualified(atom: Atom) -> Result<Atom, LineError>
    ensures { Gives refusal_of_line (λ piece. piece) result (unqualified atom) }
{
    if atom.qualifier().is_some() {
        return Err(LineError::BadLine);
    }
    Ok(atom)
}

/// Any fault of a relation is the line's.
fn in_line(error: RelationError) -> LineError
    ensures { refusal_of_line result ≡ option_map (λ _. BAD_LINE) (refusal_code error.code) }
{
    if error.code == MEMORY {
        LineError::Memory
    } else {
        LineError::BadLine
    }
}

fn read_atom(alloc: Global, text: &[u8]) -> Result<Atom, LineError>
    ensures { Gives refusal_of_line (λ atom. atom) result
        (in_line (alternative_at Kind.Need text.now)) }
{
    match Atom::parse(alloc, text, Kind::Need) {
        Ok(atom) => Ok(atom),
        Err(error) => Err(in_line(error)),
    }
}

fn read_piece(alloc: Global, text: &[u8]) -> Result<Atom, LineError>
    ensures { Gives refusal_of_line (λ piece. piece) result (piece_at text.now) }
{
    unqualified(read_atom(alloc, text)?)
}

fn read_else<'a>(text: &[u8]) -> Result<Wording<'a>, LineError>
    ensures { Gives refusal_of_line wording_of result (else_form (words text.now)) }
{
    if next_word(text).is_some() {
        return Err(LineError::BadLine);
    }
    Ok(Wording::Else)
}

fn read_unpack<'a>(alloc: Global, text: &[u8]) -> Result<Wording<'a>, LineError>
    ensures { Gives refusal_of_line wording_of result (unpack_form text.now) }
{
    let piece = read_piece(alloc, text)?;
    Ok(Wording::Unpack {
        name: Vec::from_slice(alloc, piece.name())?,
        relation: copy_relation(alloc, piece.relation())?,
    })
}

fn read_when<'a>(alloc: Global, text: &[u8]) -> Result<Wording<'a>, LineError>
    ensures { Gives refusal_of_line wording_of result (when_form text.now) }
{
    let piece = read_piece(alloc, text)?;
    Ok(Wording::When {
        name: Vec::from_slice(alloc, piece.name())?,
        relation: copy_relation(alloc, piece.relation())?,
    })
}

fn read_entry(alloc: Global, text: &[u8]) -> Result<Entry, LineError>
    ensures { Gives refusal_of_line (λ entry. entry) result
        (in_line (entry_at Kind.Need text.now)) }
{
    match Entry::parse(alloc, text, Kind::Need) {
        Ok(entry) => Ok(entry),
        Err(error) => Err(in_line(error)),
    }
}

fn one_word(text: &[u8]) -> Result<&[u8], LineError>
    ensures { Gives refusal_of_line (λ word. word.now) result (one_word (words text.now)) }
{
    let Some((word, rest)) = next_word(text) else {
        return Err(LineError::BadLine);
    };
    if next_word(rest).is_some() || !is_word(word) {
        return Err(LineError::BadLine);
    }
    Ok(word)
}

/// Tells whether a byte is one of `< > ! , | ( ) [ ]`: neither of a word nor a blank.
const fn is_outside_words(b: u8) -> bool
    ensures { result ≡ not (is_word_byte b || is_blank b) }
{
    matches!(
        b,
        b'<' | b'>' | b'!' | b',' | b'|' | b'(' | b')' | b'[' | b']'
    )
}

fn has_outside_words(text: &[u8]) -> bool
    ensures { result ≡ list_any (λ b. not (is_word_byte b || is_blank b)) text.now }
{
    text.iter().any(|b| is_outside_words(*b))
}

/// Tells whether all that stands between blanks are words. They are not cut for it.
fn are_words(text: &[u8]) -> bool
    ensures { result ≡ list_all is_word (words text.now) }
{
    !has_outside_words(text)
}

fn some_words(text: &[u8]) -> Result<&[u8], LineError>
    ensures { Gives refusal_of_line (λ names. words names.now) result
        (some_words (words text.now)) }
{
    if next_word(text).is_none() || !are_words(text) {
        return Err(LineError::BadLine);
    }
    Ok(text)
}

fn read_wording<'a>(alloc: Global, word: &[u8], rest: &'a [u8]) -> Result<Wording<'a>, LineError>
    ensures { Gives refusal_of_line wording_of result (wording_by word.now rest.now) }
{
    if is_same(word, b"unpack".as_slice()) {
        read_unpack(alloc, rest)
    } else if is_same(word, b"configure".as_slice()) {
        Ok(Wording::Configure(some_words(rest)?))
    } else if is_same(word, b"deconfigure".as_slice()) {
        Ok(Wording::Deconfigure(some_words(rest)?))
    } else if is_same(word, b"remove".as_slice()) {
        Ok(Wording::Remove(some_words(rest)?))
    } else if is_same(word, b"build".as_slice()) {
        Ok(Wording::Build(one_word(rest)?))
    } else if is_same(word, b"publish".as_slice()) {
        Ok(Wording::Publish(one_word(rest)?))
    } else if is_same(word, b"wait".as_slice()) {
        Ok(Wording::Wait(read_entry(alloc, rest)?))
    } else if is_same(word, b"when".as_slice()) {
        read_when(alloc, rest)
    } else if is_same(word, b"else".as_slice()) {
        read_else(rest)
    } else {
        Err(LineError::BadLine)
    }
}

fn form_by<'a>(alloc: Global, word: &[u8], rest: &'a [u8]) -> Result<Form<'a>, LineError>
    ensures { Gives refusal_of_line form_of result (form_by word.now rest.now) }
{
    if is_same(word, b"lane".as_slice()) {
        read_lane(rest)
    } else if is_same(word, b"end".as_slice()) {
        read_end(rest)
    } else if is_same(word, b"block".as_slice()) {
        Ok(Form::Block(one_word(rest)?))
    } else if is_same(word, b"use".as_slice()) {
        Ok(Form::Use(one_word(rest)?))
    } else {
        Ok(Form::Instruction(read_wording(alloc, word, rest)?))
    }
}

/// Takes the first word of a line, and gives what stands behind it too.
fn cut_word(line: &[u8]) -> (&[u8], &[u8])
    ensures word { result.0.now ≡ first_word line.now }
    ensures rest { result.1.now ≡ behind_word line.now }
{
    split_front(Class::Solid, skip_front(Class::Blank, line))
}

/// Reads a line of a plan by itself.
///
/// # Errors
///
/// [`BadLine`](LineError::BadLine) where it is none of the lines that a plan has. 900 where memory
/// ran out.
#[tactic(auto, unfolding(crate::specs::Forms::form_at))]
pub fn read_form(alloc: Global, line: &[u8]) -> Result<Form<'_>, LineError>
    ensures { Gives refusal_of_line form_of result (form_at line.now) }
{
    let (word, rest) = cut_word(line);
    form_by(alloc, word, rest)
}
