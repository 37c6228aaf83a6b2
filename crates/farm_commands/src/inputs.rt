//! The files that an import reads.

ghost use Rattle.std.specs.Prelude.{◌≡◌, ◌++◌, ◌∷◌, [], IfOk, OnOk, map};
ghost use Rattle.farm_answers.specs.Files.{named};
ghost use Rattle.farm_commands.specs.Folders.{IsRead};
ghost use Rattle.farm_commands.specs.Inputs.{AreIndexes, index_in, index_of};

use crate::folder::Folder;
use crate::tell::{MakingFault, unread};
use import_farm::NamedText;
use std::alloc::{AllocError, Global};

/// What stands for standard input in place of a file's name.
const INPUT: &str = "-";

/// The bytes of an index that are read at most: one more than it may have.
pub const MOST_INDEX: u32 = 1_073_741_825;

/// The bytes of a wish that are read at most: one more than it may have.
pub const MOST_WISH: u32 = 67_108_865;

/// A file that was read, and its name.
#[derive(Drop)]
pub struct FileText<'a> {
    pub name: &'a str,
    pub bytes: Vec<u8>,
}

/// Reads a file, or standard input.
pub fn read_one<F: Folder>(
    alloc: Global,
    folder: &F,
    path: &str,
    most: u32,
) -> Result<Vec<u8>, MakingFault>
    ensures { IfOk result (λ bytes.
        IsRead most (named (F.held folder.now) (F.given folder.now) path.now) bytes.items) }
{
    if path.as_bytes() == INPUT.as_bytes() {
        return match folder.read_input(alloc, most) {
            Ok(bytes) => Ok(bytes),
            Err(error) => Err(unread(&error, Vec::from_slice(alloc, b"standard input"))),
        };
    }
    match folder.read_part(alloc, path, most) {
        Ok(bytes) => Ok(bytes),
        Err(error) => Err(unread(&error, Vec::from_slice(alloc, path.as_bytes()))),
    }
}

fn push_file<'a>(
    files: &mut Vec<FileText<'a>>,
    name: &'a str,
    bytes: Vec<u8>,
) -> Result<(), AllocError>
    ensures { OnOk result (map index_in files.new.items ≡ map index_in files.old.items
        ++ record { name = name.entry.now; bytes = bytes.items } ∷ []) }
{
    files.push(FileText { name, bytes })?;
    Ok(())
}

/// Reads indexes, in the order of their names.
///
/// # Errors
///
/// Where one cannot be read, or memory is refused.
pub fn read_indexes<'a, F: Folder>(
    alloc: Global,
    folder: &F,
    paths: &[&'a str],
) -> Result<Vec<FileText<'a>>, MakingFault>
    ensures { IfOk result (λ files. AreIndexes (named (F.held folder.now) (F.given folder.now))
        (map (λ path. path.now) paths.entry.now) (map index_in files.items)) }
{
    let mut files = Vec::new(alloc);
    for path in paths {
        let bytes = read_one(alloc, folder, path, MOST_INDEX)?;
        push_file(&mut files, path, bytes)?;
    }
    Ok(files)
}

/// The texts of files, with their names.
pub fn named_texts<'a>(
    alloc: Global,
    files: &'a [FileText<'a>],
) -> Result<Vec<NamedText<'a>>, AllocError>
    ensures { IfOk result (λ texts. map index_of texts.items ≡ map index_in files.entry.now) }
{
    let mut texts = Vec::new(alloc);
    for file in files {
        texts.push(NamedText {
            name: file.name,
            bytes: &file.bytes,
        })?;
    }
    Ok(texts)
}
