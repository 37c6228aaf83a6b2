//! What words come to.

ghost use Rattle.std.specs.Prelude.{◌≡◌, ℕ, IfOk, Result, OnErr, map};
ghost use Rattle.command_line.specs.Words.{IsRefusedFor};
ghost use Rattle.farm_commands.specs.Runs.{MayComeTo, TellsFault, TellsWords, status_told};

use crate::after::after_files;
use crate::answer::import_files;
use crate::request::answer_request;
use crate::{Folder, Watch};
use command_line::{Asked, WordsFault, read_words};
use drive_answers::{DriveFiles, DriveSource, drive_files};
use farm_answers::{FINE, OutsideFault, RunFiles, Source, WRONG_WORDS, run_files, say, tell};
use report_sink::{Sink, write_text};
use std::alloc::Global;
use std::convert::AsStr;
use std::io::Eprint;
use std::sync::Wait;
use std::thread::Threads;

/// Shows help, or says on the error output why these words ask for nothing.
fn tell_words<'a, W: AsStr, S: Sink, E: Sink>(
    words: &[W],
    fault: WordsFault,
    out: &mut S,
    errors: &mut E,
) -> Result<u8, OutsideFault<'a>>
    requires refused { IsRefusedFor (map W.text words.now) fault }
    ensures told { TellsWords (map W.text words.now) (S.state out.old) (S.state out.new) result }
    ensures quiet { OnErr result (E.state errors.new ≡ E.state errors.old) }
{
    match fault {
        WordsFault::Help(text) => {
            write_text(out, text.as_bytes())?;
            Ok(FINE)
        }
        WordsFault::Wrong(text) => Ok(say(errors, text.as_bytes(), WRONG_WORDS)),
        WordsFault::BadSchedule => Ok(say(errors, b"portfarm: bad schedule\n", WRONG_WORDS)),
        WordsFault::Memory => Err(OutsideFault::OutOfMemory),
    }
}

/// Does what the words ask for, and gives its status.
///
/// # Errors
///
/// The fault outside of the texts that ended it.
fn do_words<
    'a,
    R: Threads + Wait + Eprint + Sync,
    W: AsStr,
    F: DriveSource + Folder + Watch,
    S: Sink,
    E: Sink,
>(
    rt: &R,
    alloc: Global,
    words: &'a [W],
    source: &mut F,
    out: &mut S,
    errors: &mut E,
) -> Result<u8, OutsideFault<'a>>
    ensures done { MayComeTo (map W.text words.entry.now) (F.held source.old) (F.held source.new)
        (F.given source.old) (F.kept source.old) (S.state out.old) (S.state out.new) (E.state errors.old) (E.state errors.new) result }
    ensures quiet { OnErr result (E.state errors.new ≡ E.state errors.old) }
{
    match read_words(alloc, words) {
        Ok(Asked::Answer(request)) => answer_request(rt, alloc, request, source, out, errors),
        Ok(Asked::Run { paths, progress }) => {
            let of = RunFiles { paths, progress };
            run_files(rt, alloc, source, of, out, errors)
        }
        Ok(
            Asked::Drive {
                paths,
                journal,
                progress,
            },
        ) => {
            let of = DriveFiles {
                paths,
                journal,
                progress,
            };
            drive_files(rt, alloc, source, of, out, errors)
        }
        Ok(Asked::Import(asked)) => Ok(import_files(alloc, source, &asked, out, errors)),
        Ok(Asked::After(asked)) => Ok(after_files(alloc, source, &asked, out, errors)),
        Err(fault) => tell_words(words, fault, out, errors),
    }
}

/// The status that is told, or that of a fault outside of the texts, which is said on the error
/// output.
fn end<E: Sink>(told: Result<u8, OutsideFault<'_>>, errors: &mut E) -> u8
    ensures status { result ≡ status_told told.entry }
    ensures line { TellsFault (E.state errors.old) (E.state errors.new) told.entry }
    ensures quiet { IfOk told.entry (λ _. E.state errors.new ≡ E.state errors.old) }
{
    match told {
        Ok(status) => status,
        Err(fault) => tell(fault, errors),
    }
}

/// Does what words ask for, those behind the program's name, and gives the status of the program.
/// It may wait where they ask for a run or a drive.
///
/// The files that they name are read in the order of the words, each up to
/// [`MOST_FILE`](crate::MOST_FILE) bytes, and all of them before anything is checked. With no word
/// at all the four texts are those of standard input. The status is 0 where the texts are accepted
/// or listed, the schedule meets no trap, the run has come to its end, or help is shown; 1 for a
/// refusal or a trap; 2 for wrong words or a schedule that is none; and 3 where a file cannot be
/// read, memory is refused, a lane cannot be started, a drive has no end, or the output fails. What
/// is said of wrong words and schedules, and of the last five, stands on the error output.
pub fn run_words<
    'a,
    R: Threads + Wait + Eprint + Sync,
    W: AsStr,
    F: DriveSource + Folder + Watch,
    S: Sink,
    E: Sink,
>(rt: &R, alloc: Global, words: &'a [W], source: &mut F, out: &mut S, errors: &mut E) -> u8
    ensures { (told : Result ℕ OutsideFault) × (result ≡ status_told told)
        × MayComeTo (map W.text words.entry.now) (F.held source.old) (F.held source.new)
        (F.given source.old) (F.kept source.old) (S.state out.old) (S.state out.new) (E.state errors.old) (E.state errors.new) told
        × TellsFault (E.state errors.old) (E.state errors.new) told }
{
    let told = do_words(rt, alloc, words, source, out, errors);
    end(told, errors)
}
