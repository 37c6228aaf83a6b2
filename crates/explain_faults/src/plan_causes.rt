//! Why a text is refused at a line: what was expected there, and of a line of a plan that has none
//! of the forms, or not its place, the cause: its first word, or what stands behind that.

use crate::fault_note::sentence;
use crate::near::{Case, NearNames, is_near};
use crate::plan_lines::{first_word, first_words, line_at};
use crate::spelling::Piece::{Number, Value, Words};
use crate::spelling::{Pushed, say};
use deb_relation::{Kind, judge_entries};
use deb_text::files::PLAN;
use deb_text::{
    Class, Fault, begins_with, cut_at_first, has, next_line, next_word, read_number, skip_front,
};
use std::alloc::Global;

/// What is open: a lane or a block, by its first word, its name and its line; and in it perhaps a
/// branch, by whether it is the second one and the line of its `when`.
#[derive(Clone, Copy)]
struct Open<'a> {
    part: Option<(&'a [u8], &'a [u8], u64)>,
    branch: Option<(bool, u64)>,
}

/// Tells what is open at the line of this number of a plan, of which no line above has a fault.
fn open_at(plan: &[u8], number: u32) -> Open<'_> {
    let (mut part, mut branch, mut rest) = (None, None, plan);
    for number in 1..u64::from(number) {
        let Some((content, behind)) = next_line(rest) else {
            break;
        };
        rest = behind;
        let [head, name, ..] = first_words(content);
        (part, branch) = match (head_of(head).map(|head| head.1), branch) {
            (Some(Form::Lane | Form::Block), _) => (Some((head, name, number)), None),
            (Some(Form::When), _) => (part, Some((false, number))),
            (Some(Form::Else), Some((_, line))) => (part, Some((true, line))),
            (Some(Form::End), Some(_)) => (part, None),
            (Some(Form::End), None) => (None, None),
            _ => (part, branch),
        };
    }
    Open { part, branch }
}

/// Tells whether a word of a form is left out: nothing stands there, or what comes next in it.
fn is_left_out(word: &[u8], next: &[u8], form: &[u8]) -> bool {
    word.is_empty() || (word == form && next != form)
}

/// What is wrong with a `lane` line, of which this is behind the first word.
fn lane_cause(text: &[u8]) -> &'static [u8] {
    let [name, first, chroot, second, budget, more] = first_words(text);
    if is_left_out(name, first, b"chroot") {
        b"`lane NAME chroot CHROOT budget NUMBER`: `NAME` is missing"
    } else if first != b"chroot".as_slice() {
        b"`lane NAME chroot CHROOT budget NUMBER`: `chroot` is missing"
    } else if is_left_out(chroot, second, b"budget") {
        b"`lane NAME chroot CHROOT budget NUMBER`: `CHROOT` is missing"
    } else if second != b"budget".as_slice() {
        b"`lane NAME chroot CHROOT budget NUMBER`: `budget` is missing"
    } else if budget.is_empty() {
        b"`lane NAME chroot CHROOT budget NUMBER`: `NUMBER` is missing"
    } else if !more.is_empty() {
        b"`lane NAME chroot CHROOT budget NUMBER`: nothing stands behind the number"
    } else if read_number(budget).is_none() {
        b"the budget is no number of at most 999,999,999,999,999"
    } else {
        sentence(BAD_LINE)
    }
}

/// What is wrong with a `block` line, of which this is behind the first word.
fn block_cause(text: &[u8]) -> &'static [u8] {
    let [name, more, ..] = first_words(text);
    if name.is_empty() {
        b"`block NAME`: `NAME` is missing"
    } else if more.is_empty() {
        sentence(BAD_LINE)
    } else {
        b"`block NAME`: nothing stands behind the name"
    }
}

/// What is wrong with a line that begins so. In these words `%0` is the first word of the line, `%1`
/// what it names, `%2` what it takes one of, `%3` the line of the `when` that is open, and the
/// others are the first word, the name and the line of the part that is open.
fn cause(open: Open<'_>, head: Head, text: &[u8]) -> &'static [u8] {
    let (_, form, is_in_branches) = head;
    match (form, open.part, open.branch) {
        (Form::Lane | Form::Block, _, Some((true, _))) => {
            b"the `when` at line %3 is still open: its `end` is missing above"
        }
        (Form::Lane | Form::Block, _, Some(_)) => {
            b"the `when` at line %3 is still open: its `else` is missing above"
        }
        (Form::Lane | Form::Block, Some(_), _) => {
            b"%4 %5 (line %6) is still open: `end` is missing above"
        }
        (Form::Lane, _, _) => lane_cause(text),
        (Form::Block, _, _) => block_cause(text),
        (_, None, _) => b"no lane or block is open here",
        (Form::Else | Form::End, _, _) if next_word(text).is_some() => {
            b"`%0` stands alone in its line"
        }
        (Form::Else | Form::End, _, None) => b"no `when` is open here",
        (Form::Else, _, _) => b"the `when` at line %3 has its `else` already",
        (Form::End, _, _) => b"the `when` at line %3 has no `else`",
        (_, _, Some(_)) if !is_in_branches => {
            b"a branch has no `%0`, and the `when` at line %3 is still open"
        }
        _ => operand_cause(head, text),
    }
}

/// Puts what is wrong with a line of a plan behind a note.
fn push_line_cause<'a>(
    alloc: Global,
    note: &mut Vec<u8>,
    open: Open<'a>,
    line: &'a [u8],
) -> Pushed {
    let (word, text) = first_word(line);
    let mut words = line.split(|byte| has(Class::Blank, *byte));
    if words.any(|word| word.starts_with(b"#")) {
        let cause = b"`#` begins a comment only as the first byte of its line";
        return say(note, cause, &[]);
    }
    if word == b"plan".as_slice() {
        return say(note, b"`plan 1` stands once, ahead of all other lines", &[]);
    }
    let Some(head) = head_of(word) else {
        return push_no_head(alloc, note, word);
    };
    let (kind, one) = head.1.kinds();
    let (begun, name, first) = open.part.unwrap_or((b"", b"", 0));
    let when = open.branch.map_or(0, |(_, line)| line);
    let pieces = [
        Words(word),
        Words(kind),
        Words(one),
        Number(when),
        Words(begun),
        Value(name),
        Number(first),
    ];
    say(note, cause(open, head, text), &pieces)
}

/// Puts why a text is refused with this fault behind a note.
pub fn push_cause(alloc: Global, note: &mut Vec<u8>, fault: &Fault, text: &[u8]) -> Pushed {
    match line_at(text, fault.line) {
        Some(line) if fault.code == BAD_LINE && fault.file == PLAN => {
            push_line_cause(alloc, note, open_at(text, fault.line), line)
        }
        _ => say(note, sentence(fault.code), &[]),
    }
}

/// What stands behind a first word.
#[derive(Clone, Copy)]
pub enum Form {
    Lane,
    Block,
    /// A package, perhaps with its version.
    Package,
    /// The same, ahead of two branches.
    When,
    /// An entry.
    Wait,
    /// Names of packages.
    Packages,
    /// The name of such a thing.
    Name(&'static [u8]),
    Else,
    End,
}

impl Form {
    /// What such a line names, and what it takes one of.
    pub fn kinds(self) -> (&'static [u8], &'static [u8]) {
        match self {
            Form::Name(kind) => (kind, kind),
            Form::Wait => (b"package", b"entry"),
            _ => (b"package", b"package"),
        }
    }
}

/// A first word of lines, what stands behind it, and whether it may stand in a branch.
pub type Head = (&'static [u8], Form, bool);

/// The first words of lines behind the head of a plan, in the order of docs/FORMATS.md.
const HEADS: [Head; 13] = [
    (b"lane", Form::Lane, true),
    (b"block", Form::Block, true),
    (b"end", Form::End, true),
    (b"use", Form::Name(b"block"), false),
    (b"unpack", Form::Package, true),
    (b"configure", Form::Packages, true),
    (b"deconfigure", Form::Packages, true),
    (b"remove", Form::Packages, true),
    (b"build", Form::Name(b"recipe"), true),
    (b"publish", Form::Name(b"recipe"), false),
    (b"wait", Form::Wait, false),
    (b"when", Form::When, false),
    (b"else", Form::Else, true),
];

/// The first word of lines that is this word.
pub fn head_of(word: &[u8]) -> Option<Head> {
    HEADS.iter().find(|head| head.0 == word).copied()
}

/// Puts that a word begins no line behind a note, and the first words that are near it, or which
/// there are.
pub fn push_no_head(alloc: Global, note: &mut Vec<u8>, word: &[u8]) -> Pushed {
    let mut near = NearNames::new(alloc);
    for (head, _, _) in HEADS {
        if is_near(Case::Told, word, head) {
            near.keep(head)?;
        }
    }
    say(note, b"`%0` begins no line", &[Value(word)])?;
    if near.is_empty() {
        let words = b": expected `lane`, `block`, `use`, `end` or an instruction";
        say(note, words, &[])
    } else {
        near.push(note, b"`")
    }
}

/// A line of a plan that has none of the forms, or not its place.
pub const BAD_LINE: u16 = 302;

/// Tells whether another package begins behind the first one and its version.
fn has_second(text: &[u8]) -> bool {
    let behind = if !text.contains(&b'(') {
        first_word(text).1
    } else if let Some((_, behind)) = cut_at_first(b')', text) {
        behind
    } else {
        b""
    };
    begins_with(Class::Lower, skip_front(Class::Space, behind))
}

/// What is wrong with what stands behind `unpack`, `when` or `wait`.
fn package_cause(is_wait: bool, text: &[u8]) -> &'static [u8] {
    if text.contains(&b',') {
        b"`%0` takes one %2, without a comma"
    } else if !is_wait && text.contains(&b'|') {
        b"`%0` takes one %2, without alternatives"
    } else if !text.contains(&b'(') && (text.contains(&b'=') || (!is_wait && has_second(text))) {
        b"`%0` takes one %2; a version stands as `(= 4:14.2.0-1)`"
    } else if has_second(text) {
        if is_wait {
            b"`%0` takes one %2; alternatives have `|` between them"
        } else {
            b"`%0` takes one %2"
        }
    } else if let Err(error) = judge_entries(Some(text), Kind::Need) {
        sentence(error.code)
    } else {
        b"`%0` takes a package without a qualifier"
    }
}

/// What is wrong with what stands behind the first word of an instruction or `use`, where `%0` is
/// that word, `%1` what it names, and `%2` what it takes one of.
pub fn operand_cause(head: Head, text: &[u8]) -> &'static [u8] {
    let has_comma = text.contains(&b',');
    match head.1 {
        _ if next_word(text).is_none() => b"`%0` names no %1",
        Form::Wait => package_cause(true, text),
        Form::Package | Form::When => package_cause(false, text),
        Form::Name(_) if has_comma || next_word(first_word(text).1).is_some() => {
            b"`%0` takes one %2"
        }
        Form::Packages if has_comma => b"packages are divided by blanks, not commas",
        Form::Packages if text.contains(&b'(') => b"`%0` takes names without versions",
        _ => sentence(BAD_LINE),
    }
}
