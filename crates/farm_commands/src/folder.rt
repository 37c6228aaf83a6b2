//! Where files are read and written, and whether somebody looks on.

ghost use Rattle.std.specs.Prelude.{◌≡◌, IfErr, IfOk, None};
ghost use Rattle.std.specs.IoError.{error_kind};
ghost use Rattle.std.specs.declared.io.ErrorKind.{ErrorKind};
ghost use Rattle.farm_commands.specs.Folders.{AreSame, AreSameBut, IsNewFile, IsRead, IsRenamed};

use farm_answers::Source;
use std::alloc::Global;
use std::io;

/// Files that are written too, a clock, and whether the error output is a terminal.
pub trait Folder: Source {
    /// The first bytes, at most so many, of the regular file of a name.
    ///
    /// # Errors
    ///
    /// Where it cannot be read or is no regular file, with the kind `NotFound` where there is none;
    /// with the kind `OutOfMemory` where memory is refused.
    fn read_part(&self, alloc: Global, path: &str, most: u32) -> io::Result<Vec<u8>>
        ensures bytes { IfOk result (λ read. IsRead most (Self.held self.now path.now) read.items) }
        ensures none { IfErr result (λ error. error_kind error ≡ ErrorKind.NotFound
            → Self.held self.now path.now ≡ None) };

    /// The first bytes, at most so many, of standard input.
    ///
    /// # Errors
    ///
    /// As those of `read_part`.
    fn read_input(&self, alloc: Global, most: u32) -> io::Result<Vec<u8>>
        ensures { IfOk result (λ read. IsRead most (Self.given self.now) read.items) };

    /// Makes a folder, where there is none of its name.
    ///
    /// # Errors
    ///
    /// Where it cannot be made.
    fn make_folder(&mut self, path: &str) -> io::Result<()>
        ensures { AreSame (Self.held self.old) (Self.held self.new) };

    /// Makes a file of these bytes.
    ///
    /// # Errors
    ///
    /// With the kind `AlreadyExists` where something has its name, be it a link that leads nowhere;
    /// and where it cannot be written whole.
    fn write_new(&mut self, path: &str, bytes: &[u8]) -> io::Result<()>
        ensures { IsNewFile path.now bytes.now (Self.held self.old) (Self.held self.new) result };

    /// Gives a file another name, in place of what has that.
    ///
    /// # Errors
    ///
    /// Where it cannot be done. Both names are then as they were.
    fn rename_file(&mut self, from: &str, to: &str) -> io::Result<()>
        ensures { IsRenamed from.now to.now (Self.held self.old) (Self.held self.new) result };

    /// Removes a file, if that can be done.
    fn remove_file(&mut self, path: &str)
        ensures { AreSameBut path.now (Self.held self.old) (Self.held self.new) };

    /// Tells whether the error output is a terminal, where progress is told.
    fn has_watcher(&self) -> bool;

    /// What a clock shows, in milliseconds.
    fn milliseconds(&self) -> u64;
}
