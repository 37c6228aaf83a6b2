//! The packages of a farm, finished: what each excludes is said, among all of them.

ghost use Rattle.std.specs.Prelude.{◌≡◌, [], ◌∷◌, IfOk, OnOk, codes};
ghost use Rattle.deb_stanza.specs.Stanza as stanza;
ghost use Rattle.cross_laws.specs.Encoding.{encoded_breaks, encoded_conflicts, encoded_provides, singles};
ghost use Rattle.cross_index.specs.EncodedPackage.{Says};
ghost use Rattle.cross_index.specs.Finished.{AreFinished, IsFinished, IsFinishedAs, IsFinishedBy, IsKept};
ghost use Rattle.cross_index.specs.Pieces.{AreMade, GetsBehind, IsReadAs};

use crate::encoded_package::judge_provides;
use crate::given::{read_all, read_given};
use crate::judge::{Unlike, judge_closed, judge_count, judge_field, judge_says, unread};
use crate::stop::{IndexStop, plain_stop, stop_at, stop_unlike};
use cross_relations::{
    Binary, Sides, encode_breaks, encode_conflicts, encode_provides, push_field,
};
use deb_fields::Paragraph;
use deb_relation::Kind;
use deb_stanza::Paragraphs;
use deb_text::{Class, begins_with, cut_at_first, is_blank_line, is_comment, next_line};
use std::alloc::{AllocError, Global};

/// Tells whether a field is written anew, or left out.
fn is_dropped(name: &[u8]) -> bool {
    name.starts_with(b"Given-")
        || name.eq_ignore_ascii_case(b"Multi-Arch")
        || name.eq_ignore_ascii_case(b"Conflicts")
        || name.eq_ignore_ascii_case(b"Breaks")
        || name.eq_ignore_ascii_case(b"Provides")
}

/// Tells whether a line is left out, behind lines of which this is known.
fn drops(line: &[u8], is_dropping: bool) -> bool {
    if is_comment(line) {
        return false;
    }
    if begins_with(Class::Space, line) {
        return is_dropping;
    }
    match cut_at_first(b':', line) {
        Some((name, _)) => is_dropped(name),
        None => false,
    }
}

fn push_unless(text: &mut Vec<u8>, line: &[u8], is_dropped: bool) -> Result<(), AllocError> {
    if is_dropped {
        return Ok(());
    }
    text.extend_from_slice(line)?;
    text.extend_from_slice(b"\n")
}

/// The lines of the first paragraph of a text that stay as they stand, and what is left behind it.
fn kept_rows(alloc: Global, text: &[u8]) -> Result<(Vec<u8>, &[u8]), AllocError> {
    let mut kept = Vec::new(alloc);
    let (mut is_dropping, mut is_begun) = (false, false);
    let mut rest = text;
    while let Some((line, behind)) = next_line(rest) {
        rest = behind;
        if is_blank_line(line) {
            if is_begun {
                return Ok((kept, rest));
            }
        } else {
            is_begun = is_begun || !is_comment(line);
            is_dropping = drops(line, is_dropping);
            push_unless(&mut kept, line, is_dropping)?;
        }
    }
    Ok((kept, rest))
}

/// Writes the finished paragraph of a binary, of which these lines stay, with an empty line behind
/// it.
fn write_piece(
    alloc: Global,
    sides: &Sides,
    all: &[Binary],
    binary: &Binary,
    kept: &[u8],
) -> Result<Vec<u8>, AllocError> {
    let mut piece = Vec::from_slice(alloc, kept)?;
    let conflicts = encode_conflicts(alloc, sides, all, binary)?;
    push_field(alloc, &mut piece, b"Conflicts", &conflicts)?;
    let breaks = encode_breaks(alloc, sides, all, binary)?;
    push_field(alloc, &mut piece, b"Breaks", &breaks)?;
    let provides = encode_provides(alloc, sides, binary)?;
    push_field(alloc, &mut piece, b"Provides", &provides)?;
    piece.extend_from_slice(b"\n")?;
    Ok(piece)
}

/// Judges what is not written anew, which is to be as it was.
fn judge_kept(old: &Paragraph, new: &Paragraph) -> Result<(), Unlike>
    ensures { OnOk result (IsKept old.now new.now) }
{
    judge_field(old, b"Package", new, b"Package")?;
    judge_field(old, b"Version", new, b"Version")?;
    judge_field(old, b"Architecture", new, b"Architecture")?;
    judge_field(old, b"Source", new, b"Source")?;
    judge_field(old, b"Installed-Size", new, b"Installed-Size")?;
    judge_field(old, b"Priority", new, b"Priority")?;
    judge_field(old, b"Essential", new, b"Essential")?;
    judge_field(old, b"Pre-Depends", new, b"Pre-Depends")?;
    judge_field(old, b"Depends", new, b"Depends")?;
    Ok(())
}

/// Judges Conflicts, which is to say what may not be there with a package.
fn judge_conflicts(
    alloc: Global,
    sides: &Sides,
    all: &[Binary],
    binary: &Binary,
    new: &Paragraph,
) -> Result<(), Unlike>
    ensures { OnOk result (Says new.now Kind.Clash (codes "Conflicts")
        (singles (encoded_conflicts sides.now all.now binary.now))) }
{
    let made = encode_conflicts(alloc, sides, all, binary)?;
    judge_says(alloc, new, Kind::Clash, b"Conflicts", &made)?;
    Ok(())
}

/// Judges Breaks, which is to say what may not be configured with a package.
fn judge_breaks(
    alloc: Global,
    sides: &Sides,
    all: &[Binary],
    binary: &Binary,
    new: &Paragraph,
) -> Result<(), Unlike>
    ensures { OnOk result (Says new.now Kind.Clash (codes "Breaks")
        (singles (encoded_breaks sides.now all.now binary.now))) }
{
    let made = encode_breaks(alloc, sides, all, binary)?;
    judge_says(alloc, new, Kind::Clash, b"Breaks", &made)?;
    Ok(())
}

/// Judges a paragraph, which is to be the finished one of a package.
fn judge_finished(
    alloc: Global,
    sides: &Sides,
    all: &[Binary],
    binary: &Binary,
    old: &Paragraph,
    new: &Paragraph,
) -> Result<(), Unlike>
    ensures { OnOk result (IsFinishedAs sides.now all.now binary.now old.now new.now) }
{
    judge_kept(old, new)?;
    judge_conflicts(alloc, sides, all, binary, new)?;
    judge_breaks(alloc, sides, all, binary, new)?;
    judge_provides(alloc, sides, binary, new)?;
    Ok(())
}

/// Judges paragraphs, which are to be one, the finished one of a package.
fn judge_only(
    alloc: Global,
    sides: &Sides,
    all: &[Binary],
    binary: &Binary,
    old: &Paragraph,
    news: &Paragraphs,
) -> Result<(), Unlike>
    ensures { OnOk result ((new : stanza.Paragraph) × (news.now ≡ new ∷ [])
        × IsFinishedAs sides.now all.now binary.now old.now new) }
{
    judge_count(news)?;
    let new = Paragraph::new(news, 0);
    judge_finished(alloc, sides, all, binary, old, &new)?;
    Ok(())
}

/// Judges a text, which is to be the finished paragraph of a package.
fn judge_piece(
    alloc: Global,
    sides: &Sides,
    all: &[Binary],
    binary: &Binary,
    old: &Paragraph,
    piece: &[u8],
) -> Result<(), Unlike>
    ensures { OnOk result
        (IsReadAs (IsFinishedAs sides.now all.now binary.now old.now) piece.now) }
{
    judge_closed(piece)?;
    let news = match Paragraphs::read(alloc, piece) {
        Ok(news) => news,
        Err(fault) => return Err(unread(fault)),
    };
    judge_only(alloc, sides, all, binary, old, &news)?;
    Ok(())
}

/// The finished paragraph of a package, of which these lines stay.
fn finished_piece(
    alloc: Global,
    sides: &Sides,
    all: &[Binary],
    binary: &Binary,
    old: &Paragraph,
    kept: &[u8],
) -> Result<Vec<u8>, Unlike>
    ensures { IfOk result (λ piece.
        IsReadAs (IsFinishedAs sides.now all.now binary.now old.now) piece.items) }
{
    let piece = write_piece(alloc, sides, all, binary, kept)?;
    judge_piece(alloc, sides, all, binary, old, &piece)?;
    Ok(piece)
}

/// The same, or why an index is not finished.
fn piece_of_package(
    alloc: Global,
    sides: &Sides,
    all: &[Binary],
    binary: &Binary,
    old: &Paragraph,
    kept: &[u8],
) -> Result<Vec<u8>, IndexStop>
    ensures { IfOk result (λ piece.
        IsReadAs (IsFinishedAs sides.now all.now binary.now old.now) piece.items) }
{
    match finished_piece(alloc, sides, all, binary, old, kept) {
        Ok(piece) => Ok(piece),
        Err(unlike) => Err(stop_unlike(unlike, old.line())),
    }
}

/// The finished paragraph of the package that a paragraph carries along, of which these lines stay.
fn piece_of(
    alloc: Global,
    sides: &Sides,
    all: &[Binary],
    old: &Paragraph,
    kept: &[u8],
) -> Result<Vec<u8>, IndexStop>
    ensures { IfOk result (λ piece. IsFinishedBy sides.now all.now old.now piece.items) }
{
    let binary = match read_given(alloc, sides, old) {
        Ok(binary) => binary,
        Err(error) => return Err(plain_stop(alloc, old, error)),
    };
    let piece = piece_of_package(alloc, sides, all, &binary, old, kept)?;
    Ok(piece)
}

/// Puts the finished paragraph of the package that a paragraph carries along behind a text.
fn push_piece(
    alloc: Global,
    text: &mut Vec<u8>,
    sides: &Sides,
    all: &[Binary],
    old: &Paragraph,
    kept: &[u8],
) -> Result<(), IndexStop>
    ensures { OnOk result
        (GetsBehind (IsFinishedBy sides.now all.now old.now) text.old.items text.new.items) }
{
    let piece = piece_of(alloc, sides, all, old, kept)?;
    text.extend_from_slice(&piece)?;
    Ok(())
}

/// Puts the finished paragraphs behind a text, which stand in another one.
fn push_all(
    alloc: Global,
    text: &mut Vec<u8>,
    sides: &Sides,
    all: &[Binary],
    olds: &Paragraphs,
    given: &[u8],
) -> Result<(), IndexStop>
    ensures { OnOk result (GetsBehind (AreMade (IsFinishedBy sides.now all.now) olds.now)
        text.old.items text.new.items) }
{
    let mut rest = given;
    for at in 0..olds.count() {
        let old = Paragraph::new(olds, at);
        let (kept, behind) = kept_rows(alloc, rest)?;
        push_piece(alloc, text, sides, all, &old, &kept)?;
        rest = behind;
    }
    Ok(())
}

/// Finishes paragraphs that were read, which stand in a text.
fn finish_read(
    alloc: Global,
    sides: &Sides,
    olds: &Paragraphs,
    text: &[u8],
) -> Result<Vec<u8>, IndexStop>
    ensures { IfOk result (λ made. AreFinished sides.now olds.now made.items) }
{
    let all = read_all(alloc, sides, olds)?;
    let mut made = Vec::new(alloc);
    push_all(alloc, &mut made, sides, &all, olds, text)?;
    Ok(made)
}

/// Finishes the packages text of a farm, whose paragraphs were encoded by
/// [`encode_packages`](crate::encode_packages). Each then says what its package excludes among all of
/// them, and what it provides, in the version that it has in this text. What was carried along for
/// that is left out.
///
/// # Errors
///
/// [`IndexStop::Refused`] where the text, or what a paragraph carries along, cannot be read.
/// [`IndexStop::Unlike`] where what was written is not read as the finished package: an error of this
/// program.
pub fn finish_packages(alloc: Global, sides: &Sides, text: &[u8]) -> Result<Vec<u8>, IndexStop>
    ensures { IfOk result (λ made. IsFinished sides.now text.now made.items) }
{
    match Paragraphs::read(alloc, text) {
        Ok(olds) => finish_read(alloc, sides, &olds, text),
        Err(fault) => Err(stop_at(alloc, fault)),
    }
}
