//! The right answer or want of memory, and nothing else. `scripts/refuse_memory_in_tests` runs
//! these with each allocation refused in turn.

use deb_profile::{ArchNames, ProfileSet, reduce};
use deb_relation::{BAD_WORD, Kind, RelationError, Relations};
use deb_stanza::{Fault, Paragraphs, plain_lines};
use deb_text::MEMORY;
use deb_version::Version;
use std::alloc::Global;

#[test]
fn versions(rt: HostRuntime) {
    let text = b"1:2.0~rc1-3".as_slice();
    match Version::parse(rt.alloc(), text) {
        Ok(version) => {
            if let Ok(copy) = version.clone() {
                assert_eq!(rt; copy.text(), text);
            }
        }
        Err(error) => assert_eq!(rt; error.code, MEMORY),
    }
}

/// Whether a field was read, and so were its clones; or its first fault was told; or memory was
/// refused.
fn is_told(alloc: Global, kind: Kind, text: &[u8], want: u16) -> bool {
    match Relations::parse(alloc, text, kind) {
        Ok(read) => match read.clone() {
            Ok(copy) => want == 0 && copy.len() == read.len(),
            Err(_) => want == 0,
        },
        Err(error) => error.code == want || error.code == MEMORY,
    }
}

#[test]
fn fields(rt: HostRuntime) {
    let whole = b"aa:any (>= 1:2-3) [!x !y] <a !b> <c> | bb, cc";
    assert!(rt; is_told(rt.alloc(), Kind::BuildNeed, whole, 0));
    let no_profile = b"aa (= 2:1-1) [x y], bb <a b> <c>, dd [y] <>";
    assert!(rt; is_told(rt.alloc(), Kind::BuildNeed, no_profile, 130));
    let mixed = b"aa [x y] <a> | bb (= 1-2) [y !z]";
    assert!(rt; is_told(rt.alloc(), Kind::BuildNeed, mixed, 124));
    let not_equal = b"aa (= 1), bb (= 0:1-1), cc (<= 1)";
    assert!(rt; is_told(rt.alloc(), Kind::Provide, not_equal, 128));
}

/// How many entries are left of a field.
fn left(
    alloc: Global,
    names: &[u8],
    profiles: &[u8],
    field: &[u8],
) -> Result<usize, RelationError> {
    let names = ArchNames::parse(alloc, names)?;
    let active = ProfileSet::parse(alloc, profiles)?;
    let field = Relations::parse(alloc, field, Kind::BuildNeed)?;
    Ok(reduce(alloc, &field, &names, &active)?.len())
}

#[test]
fn reductions(rt: HostRuntime) {
    let field = b"aa:any (>= 1:2-3) [!amd64] <stage1> <cross> | bb:odd, cc [amd64], dd";
    match left(rt.alloc(), b"riscv64 linux-any", b"stage1 nodoc", field) {
        Ok(entries) => assert_eq!(rt; entries, 2),
        Err(error) => assert_eq!(rt; error.code, MEMORY),
    }
    match left(rt.alloc(), b"riscv64", b"stage1 a,b", field) {
        Ok(_) => assert!(rt; false),
        Err(error) => assert!(rt; error.code == BAD_WORD || error.code == MEMORY),
    }
}

#[test]
fn control_data(rt: HostRuntime) {
    let text = b"Package: gcc\nDepends: libc6,\n libgmp\n\nPackage: gdb\n";
    match Paragraphs::read(rt.alloc(), text) {
        Ok(paragraphs) => assert_eq!(rt; paragraphs.count(), 2),
        Err(fault) => assert_eq!(rt; fault, Fault::MEMORY),
    }
    match plain_lines(rt.alloc(), text) {
        Ok(lines) => assert_eq!(rt; lines.count(), 4),
        Err(fault) => assert_eq!(rt; fault, Fault::MEMORY),
    }
}
