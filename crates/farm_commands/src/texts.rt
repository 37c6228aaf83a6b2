//! The files that a command writes.

ghost use Rattle.std.specs.Prelude.{All, IfOk, map};
ghost use Rattle.farm_commands.specs.Folders.{IsNewFile, IsRenamed};
ghost use Rattle.farm_commands.specs.Makings.{IsOurs, head_by};
ghost use Rattle.farm_commands.specs.TextFiles.{AreApart, AreBeside, AreNamed, AreWritten, HoldsBeside, IsBesideLeft, file_of};

use crate::folder::Folder;
use crate::making::Maker;
use crate::tell::{MakingFault, unread, unwritten};
use crate::text_files::TextFile;
use std::alloc::{AllocError, Global};
use std::io::ErrorKind;

fn bytes_of(alloc: Global, path: &str) -> Result<Vec<u8>, AllocError> {
    Vec::from_slice(alloc, path.as_bytes())
}

/// Refuses to replace a file that the command has not made.
fn judge_file<F: Folder>(
    alloc: Global,
    folder: &F,
    maker: Maker,
    file: &TextFile,
) -> Result<(), MakingFault>
    ensures { IfOk result (λ _. IsOurs (head_by maker) (F.held folder.now) (file_of file.now)) }
{
    let path = file.own.as_str();
    match folder.read_part(alloc, path, maker.head_length()) {
        Ok(bytes) if bytes.as_slice() == maker.head() => Ok(()),
        Ok(_) => Err(MakingFault::NotMade(bytes_of(alloc, path)?, maker)),
        Err(error) => match error.kind() {
            ErrorKind::NotFound => Ok(()),
            _ => Err(unread(&error, bytes_of(alloc, path))),
        },
    }
}

/// Refuses to replace files that the command has not made.
///
/// # Errors
///
/// The first file that does not begin as one that the command makes, or cannot be read.
pub fn judge_files<F: Folder>(
    alloc: Global,
    folder: &F,
    maker: Maker,
    files: &[TextFile],
) -> Result<(), MakingFault>
    ensures { IfOk result (λ _.
        All (IsOurs (head_by maker) (F.held folder.now)) (map file_of files.now)) }
{
    for file in files {
        judge_file(alloc, folder, maker, file)?;
    }
    Ok(())
}

/// Writes a text to the file beside its own.
fn write_beside<F: Folder>(
    alloc: Global,
    folder: &mut F,
    file: &TextFile,
) -> Result<(), MakingFault>
    ensures { IsNewFile (file_of file.now).beside file.now.text.now
        (F.held folder.old) (F.held folder.new) result }
{
    match folder.write_new(file.beside.as_str(), file.text) {
        Ok(()) => Ok(()),
        Err(error) => Err(unwritten(&error, bytes_of(alloc, file.beside.as_str()))),
    }
}

/// Writes each text to the file beside its own. If one cannot be written, those before it are
/// removed.
fn write_all<F: Folder>(
    alloc: Global,
    folder: &mut F,
    files: &[TextFile],
) -> Result<(), MakingFault>
    requires { AreApart (map file_of files.now) }
    ensures { AreBeside (map file_of files.now) (F.held folder.old) (F.held folder.new) result }
{
    let Some((first, rest)) = files.split_first() else {
        return Ok(());
    };
    write_beside(alloc, folder, first)?;
    match write_all(alloc, folder, rest) {
        Ok(()) => Ok(()),
        Err(fault) => {
            folder.remove_file(first.beside.as_str());
            Err(fault)
        }
    }
}

/// Gives a file that was written beside its own that name.
fn rename<F: Folder>(alloc: Global, folder: &mut F, file: &TextFile) -> Result<(), MakingFault>
    ensures { IsRenamed (file_of file.now).beside (file_of file.now).own
        (F.held folder.old) (F.held folder.new) result }
{
    match folder.rename_file(file.beside.as_str(), file.own.as_str()) {
        Ok(()) => Ok(()),
        Err(error) => Err(unwritten(&error, bytes_of(alloc, file.own.as_str()))),
    }
}

/// Removes the files beside their own.
fn remove_all<F: Folder>(folder: &mut F, files: &[TextFile])
    ensures { IsBesideLeft (map file_of files.now) (F.held folder.old) (F.held folder.new) }
{
    for file in files {
        folder.remove_file(file.beside.as_str());
    }
}

/// Gives each file that was written beside its own that name. If one does not get it, the rest are
/// removed.
fn rename_all<F: Folder>(
    alloc: Global,
    folder: &mut F,
    files: &[TextFile],
) -> Result<(), MakingFault>
    requires apart { AreApart (map file_of files.now) }
    requires hold { All (HoldsBeside (F.held folder.old)) (map file_of files.now) }
    ensures { AreNamed (map file_of files.now) (F.held folder.old) (F.held folder.new) result }
{
    let Some((first, rest)) = files.split_first() else {
        return Ok(());
    };
    if let Err(fault) = rename(alloc, folder, first) {
        remove_all(folder, files);
        return Err(fault);
    }
    rename_all(alloc, folder, rest)
}

/// Writes the texts of files, each to one beside its own, which gets its name once all are written.
///
/// # Errors
///
/// The first file that cannot be written.
pub fn write_files<F: Folder>(
    alloc: Global,
    folder: &mut F,
    place: &str,
    files: &[TextFile],
) -> Result<(), MakingFault>
    requires { AreApart (map file_of files.now) }
    ensures { AreWritten (map file_of files.now) (F.held folder.old) (F.held folder.new) result }
{
    if let Err(error) = folder.make_folder(place) {
        return Err(unwritten(&error, bytes_of(alloc, place)));
    }
    write_all(alloc, folder, files)?;
    rename_all(alloc, folder, files)
}
