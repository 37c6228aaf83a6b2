//! Texts that a command makes, written to the files of a folder.

ghost use Rattle.std.specs.Prelude.{◌≡◌, false, All, IfOk, length, map};
ghost use Rattle.farm_commands.specs.Makings.{AreReplaced, IsOurs, IsTold, head_by};
ghost use Rattle.farm_commands.specs.TextFiles.{AreApart, HoldsOwn, file_of};

use crate::folder::Folder;
use crate::tell::{FINE, MakingFault};
use crate::text_files::TextFile;
use crate::texts::{judge_files, write_files};
use report_sink::{Sink, write_text};
use std::alloc::Global;

/// The command that makes texts.
#[derive(Clone, Copy, Debug)]
pub enum Maker {
    Import,
    After,
}

impl Maker {
    /// What its texts begin with.
    pub fn head(self) -> &'static [u8]
        ensures { result.now ≡ head_by self }
    {
        match self {
            Maker::Import => import_farm::HEAD,
            Maker::After => rest_texts::HEAD,
        }
    }

    /// How many bytes that has.
    pub fn head_length(self) -> u32
        ensures { result ≡ length (head_by self) }
    {
        match self {
            Maker::Import => 26,
            Maker::After => 25,
        }
    }

    /// The words that call it.
    pub fn words(self) -> &'static [u8] {
        match self {
            Maker::Import => b"portfarm import",
            Maker::After => b"portfarm after",
        }
    }
}

/// Where texts are written: the folder, the command that makes them, and whether files of others are
/// replaced.
#[derive(Clone, Copy)]
pub struct Target<'a> {
    pub folder: &'a str,
    pub maker: Maker,
    pub force: bool,
}

/// Refuses to replace files that the command has not made, unless force is used.
fn judge_unforced<F: Folder>(
    alloc: Global,
    folder: &F,
    target: Target<'_>,
    files: &[TextFile],
) -> Result<(), MakingFault>
    ensures { IfOk result (λ _. target.entry.force ≡ false
        → All (IsOurs (head_by target.entry.maker) (F.held folder.now)) (map file_of files.now)) }
{
    if target.force {
        return Ok(());
    }
    judge_files(alloc, folder, target.maker, files)
}

/// Writes texts to their files, where these may be replaced.
fn write_texts<F: Folder>(
    alloc: Global,
    folder: &mut F,
    target: Target<'_>,
    files: &[TextFile],
) -> Result<(), MakingFault>
    requires { AreApart (map file_of files.now) }
    ensures replaced { AreReplaced (head_by target.entry.maker) target.entry.force
        (map file_of files.now) (F.held folder.old) (F.held folder.new) }
    ensures hold { IfOk result (λ _. All (HoldsOwn (F.held folder.new)) (map file_of files.now)) }
{
    judge_unforced(alloc, folder, target, files)?;
    write_files(alloc, folder, target.folder, files)
}

/// Writes texts to their files, and lines to the output, and gives the status.
///
/// # Errors
///
/// The first file that is none that the command has made, if no force is used, or that cannot be
/// written; and where the output fails.
pub fn write_made<F: Folder, S: Sink>(
    alloc: Global,
    folder: &mut F,
    target: Target<'_>,
    files: &[TextFile],
    lines: &[u8],
    out: &mut S,
) -> Result<u8, MakingFault>
    requires { AreApart (map file_of files.now) }
    ensures { IsTold (λ made told. (made ≡ map file_of files.now) × (told ≡ lines.now))
        (head_by target.entry.maker) target.entry.force (F.held folder.old) (F.held folder.new)
        (S.state out.old) (S.state out.new) result }
{
    write_texts(alloc, folder, target, files)?;
    write_text(out, lines)?;
    Ok(FINE)
}
