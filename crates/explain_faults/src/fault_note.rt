//! What is said of a text that is refused, and what its bytes look like.

use crate::plan_causes::push_cause;
use crate::plan_lines::line_at;
use crate::spelling::Piece::{Escaped, Number, Words};
use crate::spelling::say;
use deb_stanza::OwnLine;
use deb_text::files::{FARM, PLAN};
use deb_text::{Fault, is_blank_line, is_comment};
use plan_reader::file_name;
use shown_text::shown;
use std::alloc::{AllocError, Global};

/// Puts what a text looks like, if it looks like anything, behind a note.
pub fn push_look(note: &mut Vec<u8>, look: Option<&[u8]>) -> Result<(), AllocError> {
    match look {
        Some(sentence) => say(note, b"  %0\n", &[Words(sentence)]),
        None => Ok(()),
    }
}

/// Puts what is to say of a text that is refused, below the line of its refusal, behind a note: the
/// line where there is one, why it is refused, and what the text looks like where it is of another
/// kind.
pub fn push_fault_note(
    alloc: Global,
    note: &mut Vec<u8>,
    fault: &Fault,
    text: &[u8],
) -> Result<(), AllocError> {
    let line = line_at(text, fault.line);
    if let Some(line) = line {
        let (file, number) = (file_name(fault.file), u64::from(fault.line));
        let pieces = [Words(file.as_bytes()), Number(number), Escaped(shown(line))];
        say(note, b"%0 line %1: %2\n", &pieces)?;
    }
    say(note, b"  ", &[])?;
    push_cause(alloc, note, fault, text)?;
    say(note, b"\n", &[])?;
    push_look(note, look_of(fault, text, line.unwrap_or(b"")))
}

/// What was expected in a text of a farm.
fn farm_sentence(code: u16) -> &'static [u8] {
    match code {
        101 => b"expected a field above a line that begins with a blank and goes on with it",
        102 => b"expected a field, as in `Name: value`: this line has no colon",
        103 => b"expected a field name: printable ASCII without blanks, not begun by `-`",
        104 => b"expected each field once in a paragraph, whatever the case of its letters",
        105 => b"expected a text of at most 67,108,864 bytes",
        111 => b"expected a version, and nothing empty beside its first colon or last hyphen",
        112 => b"expected a version of letters, digits and `. + - ~`, its epoch of digits",
        113 => b"expected a version with an epoch of at most 2147483647",
        114 => b"expected a version of at most 512 bytes",
        121 => b"expected a name of two or more of `a-z 0-9 + - .`, and only its relation behind",
        122 => b"expected one of the operators `<<`, `<=`, `=`, `>=` and `>>`",
        123 => b"expected a version behind the operator, as in `gcc (>= 4:14.2.0-3)`",
        124 => b"expected architectures between `[` and `]`, `!` at all of them or at none",
        125 => b"expected a closing bracket",
        126 => b"expected one package in each entry of this field, without alternatives",
        127 => b"expected no `[..]` or `<..>`, which stand in build relations alone",
        128 => b"expected the operator `=`, the only one in this field",
        129 => b"expected an alternative on each side of the bar",
        130 => b"expected build profiles between `<` and `>`",
        131 => b"expected words with blanks between them",
        201 => b"expected a field that is absent from this paragraph",
        202 => b"expected a number within its limit, or one of the words of this field",
        203 => b"expected each name, version and item once: this one stands above already",
        204 => b"expected at most 64 versions of a name",
        205 => b"expected versions that the packages text has in the lists of this paragraph",
        206 => b"expected one source in `Source`, as `gcc (= 14-1)`, that the sources text has",
        207 => b"expected outputs that are not in `Archive` and that no earlier recipe gives",
        208 => b"expected at least one output in `Outputs`",
        209 => b"expected one version of each name, all needs met, no clash, and room for all",
        210 => b"expected names, entries, sources, recipes and chroots within the limits",
        _ => b"expected another text",
    }
}

/// Tells in a sentence what was expected where a text is refused with this code.
pub fn sentence(code: u16) -> &'static [u8] {
    match code {
        301 => b"expected `plan 1` before all other lines",
        302 => b"expected `lane`, `block`, `use`, `end` or an instruction, whole and in its place",
        303 => b"expected a package, chroot or recipe that the other texts have",
        304 => b"expected each package once in a line",
        305 => b"expected a block that ended above this line",
        306 => b"expected `end` for what begins here",
        307 => b"expected each recipe to be published at most once in all lanes",
        308 => b"expected a name that no earlier lane has, or for a block no earlier block",
        309 => b"expected at most 64 lanes, and 65,536 instructions in all lanes and in a block",
        451 => b"expected the line of a certificate of this plan that comes next",
        452 => b"expected no more of a lane than it can know there",
        453 => b"expected an instruction that is safe by what the certificate says",
        454 => b"expected an order of steps that can be made, to the end of the plan",
        455 => b"expected two branches that leave each package in one phase",
        900 => b"expected more memory",
        _ => farm_sentence(code),
    }
}

/// Fields that a Sources index has, and no Packages index.
const OF_SOURCES: [&[u8]; 3] = [b"Package-List", b"Binary", b"Build-Depends"];

/// Fields that a Packages index has, and no Sources index.
const OF_PACKAGES: [&[u8]; 2] = [b"Filename", b"Installed-Size"];

/// What to say of a text that is not what it was given as.
pub type Look = &'static [u8];

/// The look of a text that is no plain text, by what it begins with.
fn mark_look(text: &[u8]) -> Option<Look> {
    Some(match text {
        [0xef, 0xbb, 0xbf, ..] => b"the text begins with a byte order mark: save it without one",
        [0xff, 0xfe, ..] | [0xfe, 0xff, ..] => {
            b"the text is UTF-16: save it as UTF-8 without a byte order mark"
        }
        [0x1f, 0x8b, ..] => b"the text is compressed by gzip: give what it unpacks to",
        [0xfd, b'7', b'z', b'X', b'Z', 0, ..] => {
            b"the text is compressed by xz: give what it unpacks to"
        }
        [b'B', b'Z', b'h', ..] => b"the text is compressed by bzip2: give what it unpacks to",
        [0x28, 0xb5, 0x2f, 0xfd, ..] => b"the text is compressed by zstd: give what it unpacks to",
        [0x04, 0x22, 0x4d, 0x18, ..] => b"the text is compressed by lz4: give what it unpacks to",
        _ if text.starts_with(b"-----BEGIN PGP") => {
            b"the text is signed: give what is within the signature alone"
        }
        _ => return None,
    })
}

fn is_passed_over(line: &[u8]) -> bool {
    is_comment(line) || is_blank_line(line)
}

/// The look of a text by its first line that is neither a comment nor blank.
fn kind_look(file: u8, text: &[u8]) -> Option<Look> {
    let mut lines = text.split(|byte| *byte == b'\n');
    let first = lines.find(|line| !is_passed_over(line))?;
    if first.starts_with(b"plan 1") && file != PLAN {
        Some(b"the text begins as a plan does: are the texts in another order?")
    } else if first.starts_with(b"Package:") && (file == FARM || file == PLAN) {
        Some(b"the text begins as an index does: are the texts in another order?")
    } else if first.starts_with(b"Architecture-Names:") && file != FARM {
        Some(b"the text begins as the farm does: are the texts in another order?")
    } else {
        None
    }
}

/// Tells what a text looks like that is refused with this fault, at this line: the first sign that
/// it is of another kind than what it was given as, where there is one.
pub fn look_of(fault: &Fault, text: &[u8], line: &[u8]) -> Option<Look> {
    if !matches!(fault.code, 101 | 102 | 103 | 121 | 201 | 301) {
        return None;
    }
    let look = mark_look(text).or(kind_look(fault.file, text));
    if look.is_none() && line.ends_with(b"\r") {
        return Some(b"the line ends in a carriage return: end lines in a newline alone");
    }
    look
}

/// Tells whether the first paragraph of a text has a field of one of these names.
fn begins_with_one(text: &[u8], names: &[&[u8]]) -> bool {
    let number = 0;
    text.split(|byte| *byte == b'\n')
        .skip_while(|line| is_passed_over(line))
        .take_while(|line| !is_blank_line(line))
        .any(|bytes| {
            let line = OwnLine { number, bytes };
            !is_comment(bytes) && names.iter().any(|name| line.begins(name))
        })
}

/// Tells whether packages and sources may be exchanged, by the fields of their first paragraphs.
pub fn exchanged_look(packages: &[u8], sources: &[u8]) -> Option<Look> {
    if begins_with_one(packages, &OF_SOURCES) {
        Some(b"the packages text begins as a Sources index does: are the texts in another order?")
    } else if begins_with_one(sources, &OF_PACKAGES) {
        Some(b"the sources text begins as a Packages index does: are the texts in another order?")
    } else {
        None
    }
}
