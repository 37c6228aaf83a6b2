//! What `import` answers.

ghost use Rattle.std.specs.Prelude.{◌≡◌, IfOk};
ghost use Rattle.farm_answers.specs.Files.{named};
ghost use Rattle.farm_commands.specs.Imports.{AreImportFiles, IsImport, IsImported};
ghost use Rattle.farm_commands.specs.Makings.{IsTold, head_by};
ghost use Rattle.farm_commands.specs.declared.making.Maker.TheVariants.{Import};

use crate::by_wish::{Made, import_by_wish};
use crate::folder::Folder;
use crate::inputs::{MOST_WISH, named_texts, read_indexes, read_one};
use crate::making::{Maker, Target, write_made};
use crate::progress::Progress;
use crate::tell::{MakingFault, REFUSED, tell, tell_no_choice};
use crate::text_files::files_in;
use command_line::ImportWords;
use import_farm::{Imported, Inputs};
use report_sink::{Sink, write_text};
use std::alloc::Global;

/// Reads the files of an import and makes the texts.
fn read_and_import<F: Folder, E: Sink>(
    alloc: Global,
    folder: &F,
    asked: &ImportWords,
    errors: &mut E,
) -> Result<Made, MakingFault>
    ensures { IfOk result
        (IsImported (named (F.held folder.now) (F.given folder.now)) asked.now) }
{
    let mut progress = Progress::new(folder, errors);
    let archive = read_indexes(alloc, folder, &asked.archive)?;
    let packages = read_indexes(alloc, folder, &asked.packages)?;
    let sources = read_indexes(alloc, folder, &asked.sources)?;
    let wish = read_one(alloc, folder, asked.wish, MOST_WISH)?;
    let archive = named_texts(alloc, &archive)?;
    let packages = named_texts(alloc, &packages)?;
    let sources = named_texts(alloc, &sources)?;
    let inputs = Inputs {
        wish: &wish,
        packages: &packages,
        archive: &archive,
        sources: &sources,
    };
    let made = import_by_wish(alloc, inputs, &asked.forbidden, &mut progress);
    progress.clear();
    Ok(made?)
}

fn target_of<'a>(asked: &ImportWords<'a>) -> Target<'a>
    ensures maker { result.maker ≡ Import }
    ensures force { result.force ≡ asked.now.force }
{
    Target {
        folder: asked.folder,
        maker: Maker::Import,
        force: asked.force,
    }
}

/// Writes the files and the answer, and gives the status.
fn tell_made<F: Folder, S: Sink>(
    alloc: Global,
    folder: &mut F,
    asked: &ImportWords,
    made: &Made,
    out: &mut S,
) -> Result<u8, MakingFault>
    requires { IsImported (named (F.held folder.old) (F.given folder.old)) asked.now made.now }
    ensures { IsTold (AreImportFiles (named (F.held folder.old) (F.given folder.old)) asked.now)
        (head_by Import) asked.now.force (F.held folder.old) (F.held folder.new)
        (S.state out.old) (S.state out.new) result }
{
    match &made.imported {
        Imported::Texts(texts, _unmet, lines) => {
            let files = files_in(alloc, asked.folder, texts, made.chosen_text())?;
            write_made(alloc, folder, target_of(asked), &files, lines, out)
        }
        Imported::Refused(lines) => {
            write_text(out, lines)?;
            Ok(REFUSED)
        }
        Imported::Wrong => Err(MakingFault::Wrong),
    }
}

/// Makes the texts, writes the files and the answer, and gives the status.
fn answer<F: Folder, S: Sink, E: Sink>(
    alloc: Global,
    folder: &mut F,
    asked: &ImportWords,
    out: &mut S,
    errors: &mut E,
) -> Result<u8, MakingFault>
    ensures { IsTold (AreImportFiles (named (F.held folder.old) (F.given folder.old)) asked.now)
        (head_by Import) asked.now.force (F.held folder.old) (F.held folder.new)
        (S.state out.old) (S.state out.new) result }
{
    let made = read_and_import(alloc, folder, asked, errors)?;
    if made.chosen.is_none() && !asked.forbidden.is_empty() {
        tell_no_choice(errors);
    }
    tell_made(alloc, folder, asked, &made, out)
}

/// Makes the texts of a farm of the files of a wish and of indexes, writes them to the files
/// `packages`, `sources` and `farm` of a folder, and the explicit wish to `wish` if one was chosen;
/// tells of them, and gives the status: 0; 1 for a refusal, which writes no file; 3 where a file cannot
/// be read or written, or is none that import has made and no force is used, where memory is refused,
/// or the answer cannot be written. What is said of the last ones stands on the error output.
pub fn import_files<F: Folder, S: Sink, E: Sink>(
    alloc: Global,
    folder: &mut F,
    asked: &ImportWords,
    out: &mut S,
    errors: &mut E,
) -> u8
    ensures { IsImport (F.held folder.old) (F.held folder.new) (F.given folder.old) asked.now
        (S.state out.old) (S.state out.new) result }
{
    match answer(alloc, folder, asked, out, errors) {
        Ok(status) => status,
        Err(fault) => tell(&fault, errors),
    }
}
