//! Questions about plain texts, as the readers of control data ask them.

use crate::answer::{Answer, number, text, text_or_none, two_texts, yes_or_no};
use crate::classes;
use case_files::TableRow;
use deb_text::{
    Fault, cut_at_first, cut_at_last, is_blank_line, is_comment, is_name, is_number, is_word,
    next_line, next_part, next_word, number_of, read_number, trim,
};
use std::alloc::Global;

/// Answers `is_comment TEXT`, `is_blank_line TEXT`, `is_word TEXT`, `is_name TEXT` and
/// `is_number TEXT`, or what is read of a text.
pub fn answer(alloc: Global, row: TableRow) -> Answer {
    let text = row.arg(0);
    let holds = match row.question {
        "is_comment" => is_comment(text),
        "is_blank_line" => is_blank_line(text),
        "is_word" => is_word(text),
        "is_name" => is_name(text),
        "is_number" => is_number(text),
        _ => return read(alloc, row),
    };
    yes_or_no(alloc, holds)
}

/// Answers `trim TEXT`, `next_line TEXT`, `next_word TEXT`, `read_number TEXT` and
/// `number_of DIGITS`, or how a text is cut.
fn read(alloc: Global, row: TableRow) -> Answer {
    let given = row.arg(0);
    match row.question {
        "trim" => text(alloc, trim(given)),
        "next_line" => pieces(alloc, next_line(given)),
        "next_word" => pieces(alloc, next_word(given)),
        "read_number" => number_or_none(alloc, read_number(given)),
        "number_of" if is_number(given) => number(alloc, number_of(given)),
        _ => cut(alloc, row),
    }
}

/// Answers `cut_at_first BYTE TEXT`, `cut_at_last BYTE TEXT`, `next_part BYTE TEXT` and
/// `fault FILE LINE CODE`.
fn cut(alloc: Global, row: TableRow) -> Answer {
    let byte = row.arg(0).first().copied().unwrap_or(b' ');
    match row.question {
        "cut_at_first" => pieces(alloc, cut_at_first(byte, row.arg(1))),
        "cut_at_last" => pieces(alloc, cut_at_last(byte, row.arg(1))),
        "next_part" => part(alloc, next_part(byte, row.arg(1))),
        "fault" => fault(alloc, row),
        _ => classes::answer(alloc, row),
    }
}

fn number_or_none(alloc: Global, found: Option<u64>) -> Answer {
    match found {
        Some(found) => number(alloc, found),
        None => text_or_none(alloc, None),
    }
}

fn part(alloc: Global, found: (&[u8], Option<&[u8]>)) -> Answer {
    two_texts(alloc, found.0, found.1.unwrap_or(b"(none)"))
}

fn pieces(alloc: Global, found: Option<(&[u8], &[u8])>) -> Answer {
    match found {
        Some((first, rest)) => two_texts(alloc, first, rest),
        None => text_or_none(alloc, None),
    }
}

/// The message of a fault, placed at a line of a file.
fn fault(alloc: Global, row: TableRow) -> Answer {
    let file = read_number(row.arg(0)).unwrap_or(0).min(9) as u8;
    let line = read_number(row.arg(1)).unwrap_or(0).min(999) as u32;
    let code = read_number(row.arg(2)).unwrap_or(0).min(999) as u16;
    let fault = Fault::place(file, line, code);
    Ok(format!(in alloc; "{fault}")?.into_bytes())
}
