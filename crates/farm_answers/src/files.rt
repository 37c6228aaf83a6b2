//! The four texts of files.

ghost use Rattle.std.specs.Prelude.{◌≡◌, IfErr, IfOk};
ghost use Rattle.farm_answers.specs.Answers.{IsReadFault};
ghost use Rattle.farm_answers.specs.Files.{AreCalled, AreFilesRead, named};
ghost use Rattle.farm_answers.specs.View.{texts_in_files};
ghost use Rattle.plan_reader.specs.TextsView.{texts_view};

use crate::fault::OutsideFault;
use crate::source::{Source, read_file};
use command_line::Paths;
use plan_reader::Texts;
use std::alloc::Global;

/// The four texts of files.
#[derive(Drop)]
pub struct FileTexts {
    packages: Vec<u8>,
    sources: Vec<u8>,
    farm: Vec<u8>,
    plan: Vec<u8>,
}

impl FileTexts {
    /// The four texts.
    pub fn texts(&self) -> Texts<'_>
        ensures { texts_view result ≡ texts_in_files self.now }
    {
        Texts {
            packages: &self.packages,
            sources: &self.sources,
            farm: &self.farm,
            plan: &self.plan,
        }
    }
}

/// Reads the files of the four texts, in the order of their names.
///
/// # Errors
///
/// [`OutsideFault::CannotRead`] for the first that cannot be read, and
/// [`OutsideFault::OutOfMemory`] where memory is refused.
pub fn read_files<'a, F: Source>(
    alloc: Global,
    source: &F,
    paths: Paths<'a>,
) -> Result<FileTexts, OutsideFault<'a>>
    ensures read { IfOk result (λ files.
        AreFilesRead (named (F.held source.now) (F.given source.now)) paths.entry
        (texts_in_files files)) }
    ensures fault { IfErr result (IsReadFault (AreCalled paths.entry)) }
{
    Ok(FileTexts {
        packages: read_file(alloc, source, paths.packages)?,
        sources: read_file(alloc, source, paths.sources)?,
        farm: read_file(alloc, source, paths.farm)?,
        plan: read_file(alloc, source, paths.plan)?,
    })
}
