//! The refusal 707 of a farm in whose names something would be met by what dpkg does not take.

ghost use Rattle.std.specs.Prelude.{◌≡◌, All, IfNone, IfOk, true};
ghost use Rattle.std.specs.List.{list_all};
ghost use Rattle.cross_clear.specs.Across.{is_across_none};
ghost use Rattle.cross_clear.specs.Guard.{AreClashesKept, AreNeedsKept, AreNeedsOfAll, ArePackagesKept, IsPackageKept, are_kept, are_unmistaken, is_unmistaken};

use crate::across::{Mistaken, across_in, first_mistaken};
use crate::chosen::Chosen;
use crate::places::{Place, place_of};
use cross_index::read_field;
use cross_relations::{Binary, Sense, Sides, encoded_name};
use cross_wish::CrossWish;
use deb_fields::Paragraph;
use deb_relation::{Atom, Entry, Kind, Op, RelationError, Relations};
use deb_stanza::Paragraphs;
use deb_text::{MEMORY, push_pieces};
use import_farm::{NamedText, push_number, push_package};
use std::alloc::{AllocError, Global};

/// The packages of a farm: their paragraphs, and as they were given; and the indexes that are
/// given, of what is there at the beginning and of what builds give.
#[derive(Clone, Copy)]
pub struct Members<'a> {
    pub sides: &'a Sides<'a>,
    pub paragraphs: &'a Paragraphs,
    pub all: &'a [Binary],
    pub archive: &'a [NamedText<'a>],
    pub packages: &'a [NamedText<'a>],
}

/// Puts a package with its version behind a text.
pub fn push_binary(
    alloc: Global,
    text: &mut Vec<u8>,
    sides: &Sides,
    binary: &Binary,
) -> Result<(), AllocError> {
    let name = encoded_name(alloc, sides, Sense::Of(binary.side()), binary.name())?;
    push_package(text, &name, binary.version().text())
}

fn operator_text(op: Op) -> &'static [u8] {
    match op {
        Op::Earlier => b"<<",
        Op::EarlierOrEqual => b"<=",
        Op::Equal => b"=",
        Op::LaterOrEqual => b">=",
        Op::Later => b">>",
    }
}

/// Puts an alternative behind a text, without what restricts it.
fn push_atom(text: &mut Vec<u8>, atom: &Atom) -> Result<(), AllocError> {
    text.extend_from_slice(atom.name())?;
    if let Some(qualifier) = atom.qualifier() {
        push_pieces(text, &[b":", qualifier])?;
    }
    match atom.relation() {
        Some((op, version)) => {
            push_pieces(text, &[b" (", operator_text(op), b" "])?;
            push_pieces(text, &[version.text(), b")"])
        }
        None => Ok(()),
    }
}

/// The code of this refusal.
const NOT_CLEAR: u16 = 707;

/// The lines of a refusal at a place, up to what is said.
fn begun(alloc: Global, code: u16, name: &str, line: u32) -> Result<Vec<u8>, AllocError> {
    let mut lines = Vec::from_slice(alloc, b"refused ")?;
    push_number(&mut lines, u64::from(code))?;
    push_pieces(&mut lines, &[b" ", name.as_bytes(), b" line "])?;
    push_number(&mut lines, u64::from(line))?;
    lines.extend_from_slice(b"\n  ")?;
    Ok(lines)
}

/// Puts what is asked for and which package would be taken for it behind a text.
fn push_foreign(
    alloc: Global,
    lines: &mut Vec<u8>,
    sides: &Sides,
    atom: &Atom,
    taken: &Binary,
) -> Result<(), AllocError> {
    lines.extend_from_slice(b": ")?;
    push_atom(lines, atom)?;
    lines.extend_from_slice(b", and ")?;
    push_binary(alloc, lines, sides, taken)?;
    lines.extend_from_slice(b" is Multi-Arch: foreign: dpkg does not take it\n")
}

/// The first alternative of an entry that a package would be taken for, and that package.
fn across_of<'a>(members: Members, entry: &'a Entry) -> Option<(&'a Atom, usize)>
    ensures { IfNone result (list_all
        (λ a. is_across_none members.entry.sides.now a members.entry.all.now) entry.entry.now ≡ true) }
{
    for atom in entry.alternatives() {
        if let Some(at) = across_in(members.sides, members.all, atom) {
            return Some((atom, at));
        }
    }
    None
}

/// The first alternative of entries that a package would be taken for, and that package.
fn first_across<'a>(members: Members, entries: &'a [Entry]) -> Option<(&'a Atom, usize)>
    ensures { IfNone result
        (are_kept members.entry.sides.now members.entry.all.now entries.entry.now ≡ true) }
{
    for entry in entries {
        if let Some(found) = across_of(members, entry) {
            return Some(found);
        }
    }
    None
}

/// The refusal of entries of the wish at a line.
fn refused_wish(
    alloc: Global,
    members: Members,
    entries: &Relations,
    line: u32,
) -> Result<Option<Vec<u8>>, AllocError> {
    let Some((atom, at)) = first_across(members, entries.entries()) else {
        return Ok(None);
    };
    let mut lines = begun(alloc, NOT_CLEAR, "wish", line)?;
    lines.extend_from_slice(b"wish")?;
    if at < members.all.len() {
        push_foreign(alloc, &mut lines, members.sides, atom, &members.all[at])?;
    }
    Ok(Some(lines))
}

/// The refusal of the first paragraph of the wish.
fn refused_head(
    alloc: Global,
    members: Members,
    wish: &CrossWish,
    line: u32,
) -> Result<Option<Vec<u8>>, AllocError> {
    if let Some(archive) = &wish.head.native.archive {
        if let Some(lines) = refused_wish(alloc, members, archive, line)? {
            return Ok(Some(lines));
        }
    }
    refused_wish(alloc, members, &wish.head.essential, line)
}

/// The refusal of what the wish asks for.
fn refused_wishes(
    alloc: Global,
    members: Members,
    wish: &CrossWish,
    line: u32,
) -> Result<Option<Vec<u8>>, AllocError> {
    if let Some(lines) = refused_head(alloc, members, wish, line)? {
        return Ok(Some(lines));
    }
    for chroot in &wish.items.chroots {
        if chroot.is_said {
            let packages = &chroot.native.packages;
            if let Some(lines) = refused_wish(alloc, members, packages, chroot.line)? {
                return Ok(Some(lines));
            }
        }
    }
    Ok(None)
}

/// The refusal of the build relations of a source that was chosen.
fn refused_source(
    alloc: Global,
    members: Members,
    chosen: &Chosen,
) -> Result<Option<Vec<u8>>, AllocError> {
    let Some((atom, at)) = first_across(members, &chosen.entries) else {
        return Ok(None);
    };
    let mut lines = begun(alloc, NOT_CLEAR, chosen.index, chosen.line)?;
    push_pieces(&mut lines, &[b"source ", &chosen.name])?;
    if at < members.all.len() {
        push_foreign(alloc, &mut lines, members.sides, atom, &members.all[at])?;
    }
    Ok(Some(lines))
}

fn refused_sources(
    alloc: Global,
    members: Members,
    chosen: &[Chosen],
) -> Result<Option<Vec<u8>>, AllocError> {
    for one in chosen {
        if let Some(lines) = refused_source(alloc, members, one)? {
            return Ok(Some(lines));
        }
    }
    Ok(None)
}

/// Where a package is given.
fn place<'a>(alloc: Global, members: Members<'a>, binary: &Binary) -> Place<'a> {
    place_of(
        alloc,
        members.sides,
        binary,
        members.archive,
        members.packages,
    )
}

/// The refusal of an entry of a package.
fn refused_entries(
    alloc: Global,
    members: Members,
    binary: &Binary,
    entries: &Relations,
) -> Result<Option<Vec<u8>>, AllocError>
    ensures { IfOk result (λ told. IfNone told
        (are_kept members.entry.sides.now members.entry.all.now entries.now ≡ true)) }
{
    let Some((atom, at)) = first_across(members, entries.entries()) else {
        return Ok(None);
    };
    let place = place(alloc, members, binary);
    let mut lines = begun(alloc, NOT_CLEAR, place.name, place.line)?;
    push_binary(alloc, &mut lines, members.sides, binary)?;
    if at < members.all.len() {
        push_foreign(alloc, &mut lines, members.sides, atom, &members.all[at])?;
    }
    Ok(Some(lines))
}

/// The refusal of a field that a package carries along and that cannot be read.
fn refused_field(
    alloc: Global,
    members: Members,
    binary: &Binary,
    error: RelationError,
) -> Result<Vec<u8>, AllocError> {
    if error.code == MEMORY {
        return Err(AllocError);
    }
    let place = place(alloc, members, binary);
    let mut lines = begun(alloc, error.code, place.name, place.line)?;
    push_binary(alloc, &mut lines, members.sides, binary)?;
    lines.extend_from_slice(b"\n")?;
    Ok(lines)
}

/// The refusal of a field of needs that a package carries along.
fn refused_needs(
    alloc: Global,
    members: Members,
    binary: &Binary,
    paragraph: &Paragraph,
    name: &[u8],
) -> Result<Option<Vec<u8>>, AllocError>
    ensures { IfOk result (λ told. IfNone told
        (AreNeedsKept members.entry.sides.now members.entry.all.now paragraph.now name.now)) }
{
    match read_field(alloc, Kind::Need, paragraph, name) {
        Ok(field) => refused_entries(alloc, members, binary, &field),
        Err(error) => Ok(Some(refused_field(alloc, members, binary, error)?)),
    }
}

/// The refusal of what a package asks for.
fn refused_binary(
    alloc: Global,
    members: Members,
    binary: &Binary,
    paragraph: &Paragraph,
) -> Result<Option<Vec<u8>>, AllocError>
    ensures { IfOk result (λ told. IfNone told (IsPackageKept members.entry.sides.now
        members.entry.all.now binary.now paragraph.now)) }
{
    if let Some(lines) = refused_needs(alloc, members, binary, paragraph, b"Given-Pre-Depends")? {
        return Ok(Some(lines));
    }
    if let Some(lines) = refused_needs(alloc, members, binary, paragraph, b"Given-Depends")? {
        return Ok(Some(lines));
    }
    if let Some(lines) = refused_entries(alloc, members, binary, binary.conflicts())? {
        return Ok(Some(lines));
    }
    refused_entries(alloc, members, binary, binary.breaks())
}

/// The refusal of what packages ask for.
fn refused_binaries(alloc: Global, members: Members) -> Result<Option<Vec<u8>>, AllocError>
    ensures { IfOk result (λ told. IfNone told (AreNeedsOfAll members.entry.sides.now
        members.entry.all.now members.entry.paragraphs.now)) }
{
    for at in 0..members.paragraphs.count() {
        if at < members.all.len() {
            let paragraph = Paragraph::new(members.paragraphs, at);
            let binary = &members.all[at];
            if let Some(lines) = refused_binary(alloc, members, binary, &paragraph)? {
                return Ok(Some(lines));
            }
        }
    }
    Ok(None)
}

/// The lines of the refusal of a clash that hits a package for which another would be taken.
fn mistaken_lines(
    alloc: Global,
    members: Members,
    binary: &Binary,
    atom: &Atom,
    found: Mistaken,
) -> Result<Vec<u8>, AllocError> {
    let place = place(alloc, members, binary);
    let mut lines = begun(alloc, NOT_CLEAR, place.name, place.line)?;
    push_binary(alloc, &mut lines, members.sides, binary)?;
    lines.extend_from_slice(b": ")?;
    push_atom(&mut lines, atom)?;
    if found.hit < members.all.len() && found.other < members.all.len() {
        let hit = &members.all[found.hit];
        lines.extend_from_slice(b", which ")?;
        push_binary(alloc, &mut lines, members.sides, hit)?;
        lines.extend_from_slice(b" is, and ")?;
        push_binary(alloc, &mut lines, members.sides, &members.all[found.other])?;
        lines.extend_from_slice(b" provides ")?;
        push_binary(alloc, &mut lines, members.sides, hit)?;
    }
    lines.extend_from_slice(b"\n")?;
    Ok(lines)
}

/// The first alternative of an entry that hits a package for which another would be taken.
fn mistaken_in<'a>(
    members: Members,
    binary: &Binary,
    entry: &'a Entry,
) -> Option<(&'a Atom, Mistaken)>
    ensures { IfNone result (list_all (λ a. is_unmistaken members.entry.sides.now
        members.entry.all.now binary.now a) entry.entry.now ≡ true) }
{
    for atom in entry.alternatives() {
        if let Some(found) = first_mistaken(members.sides, members.all, binary, atom) {
            return Some((atom, found));
        }
    }
    None
}

/// The first alternative of entries that hits a package for which another would be taken.
fn mistaken_of<'a>(
    members: Members,
    binary: &Binary,
    entries: &'a [Entry],
) -> Option<(&'a Atom, Mistaken)>
    ensures { IfNone result (are_unmistaken members.entry.sides.now members.entry.all.now
        binary.now entries.entry.now ≡ true) }
{
    for entry in entries {
        if let Some(found) = mistaken_in(members, binary, entry) {
            return Some(found);
        }
    }
    None
}

fn refused_clash(
    alloc: Global,
    members: Members,
    binary: &Binary,
    field: &Relations,
) -> Result<Option<Vec<u8>>, AllocError>
    ensures { IfOk result (λ told. IfNone told (are_unmistaken members.entry.sides.now
        members.entry.all.now binary.now field.now ≡ true)) }
{
    match mistaken_of(members, binary, field.entries()) {
        Some((atom, found)) => Ok(Some(mistaken_lines(alloc, members, binary, atom, found)?)),
        None => Ok(None),
    }
}

/// The refusal of the clashes of a package that hit another for which a third would be taken.
fn refused_both(
    alloc: Global,
    members: Members,
    binary: &Binary,
) -> Result<Option<Vec<u8>>, AllocError>
    ensures { IfOk result (λ told. IfNone told (AreClashesKept members.entry.sides.now
        members.entry.all.now binary.now)) }
{
    if let Some(lines) = refused_clash(alloc, members, binary, binary.conflicts())? {
        return Ok(Some(lines));
    }
    refused_clash(alloc, members, binary, binary.breaks())
}

/// The refusal of clashes that hit a package for which another would be taken.
fn refused_clashes(alloc: Global, members: Members) -> Result<Option<Vec<u8>>, AllocError>
    ensures { IfOk result (λ told. IfNone told
        (All (AreClashesKept members.entry.sides.now members.entry.all.now) members.entry.all.now)) }
{
    for binary in members.all {
        if let Some(lines) = refused_both(alloc, members, binary)? {
            return Ok(Some(lines));
        }
    }
    Ok(None)
}

/// The refusal of what packages ask for, and of their clashes.
fn refused_packages(alloc: Global, members: Members) -> Result<Option<Vec<u8>>, AllocError>
    ensures { IfOk result (λ told. IfNone told (ArePackagesKept members.entry.sides.now
        members.entry.all.now members.entry.paragraphs.now)) }
{
    if let Some(lines) = refused_binaries(alloc, members)? {
        return Ok(Some(lines));
    }
    refused_clashes(alloc, members)
}

/// The lines of the refusal of a farm, if it is refused.
pub fn refused(
    alloc: Global,
    members: Members,
    wish: &CrossWish,
    line: u32,
    chosen: &[Chosen],
) -> Result<Option<Vec<u8>>, AllocError>
    ensures { IfOk result (λ told. IfNone told (ArePackagesKept members.entry.sides.now
        members.entry.all.now members.entry.paragraphs.now)) }
{
    if let Some(lines) = refused_wishes(alloc, members, wish, line)? {
        return Ok(Some(lines));
    }
    if let Some(lines) = refused_sources(alloc, members, chosen)? {
        return Ok(Some(lines));
    }
    refused_packages(alloc, members)
}
