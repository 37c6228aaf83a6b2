//! Questions about classes of bytes.

use crate::answer::{Answer, Refusal, text, two_texts, yes_or_no};
use crate::architectures;
use case_files::TableRow;
use deb_text::{Class, all_in, begins_with, has, skip_front, split_front};
use std::alloc::Global;

/// The classes by their names.
const CLASSES: [(&str, Class); 10] = [
    ("Space", Class::Space),
    ("Blank", Class::Blank),
    ("Solid", Class::Solid),
    ("Digit", Class::Digit),
    ("Lower", Class::Lower),
    ("Name", Class::Name),
    ("Qualifier", Class::Qualifier),
    ("Operator", Class::Operator),
    ("Version", Class::Version),
    ("Word", Class::Word),
];

fn class_of(word: &str) -> Option<Class> {
    for (name, class) in CLASSES {
        if name == word {
            return Some(class);
        }
    }
    None
}

/// Answers questions about a class and a text.
pub fn answer(alloc: Global, row: TableRow) -> Answer {
    match class_of(row.word(0)) {
        Some(class) => of_class(alloc, row.question, class, row.arg(1)),
        None => architectures::answer(alloc, row),
    }
}

/// Answers `split_front CLASS TEXT`, `skip_front CLASS TEXT`, `has CLASS BYTE`,
/// `all_in CLASS TEXT` and `begins_with CLASS TEXT`.
fn of_class(alloc: Global, question: &str, class: Class, given: &[u8]) -> Answer {
    match question {
        "split_front" => front_and_rest(alloc, split_front(class, given)),
        "skip_front" => text(alloc, skip_front(class, given)),
        "has" => yes_or_no(alloc, has(class, given.first().copied().unwrap_or(b' '))),
        "all_in" => yes_or_no(alloc, all_in(class, given)),
        "begins_with" => yes_or_no(alloc, begins_with(class, given)),
        _ => Err(Refusal::NoQuestion),
    }
}

fn front_and_rest(alloc: Global, (front, rest): (&[u8], &[u8])) -> Answer {
    two_texts(alloc, front, rest)
}
