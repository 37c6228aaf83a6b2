//! The command line as its parser reads it.

use crate::forms::{FILES, FORMS, Files, Form, Word};
use crate::help;
use clap::{Arg, ArgAction, Command};
use std::alloc::{AllocError, Global};

const PORTFARM: &str = "portfarm";

/// The command `check`.
pub const CHECK: &str = "check";

/// The command `explain`.
pub const EXPLAIN: &str = "explain";

/// The command `list`.
pub const LIST: &str = "list";

/// The command `cert`.
pub const CERT: &str = "cert";

/// The command `verify-cert`.
pub const VERIFY_CERT: &str = "verify-cert";

/// The command `step`.
pub const STEP: &str = "step";

/// The command `run`.
pub const RUN: &str = "run";

/// The command `drive`.
pub const DRIVE: &str = "drive";

/// The command `status`.
pub const STATUS: &str = "status";

/// The command `import`.
pub const IMPORT: &str = "import";

/// The command `after`.
pub const AFTER: &str = "after";

/// The command `timeline`.
pub const TIMELINE: &str = "timeline";

/// The command `graph`.
pub const GRAPH: &str = "graph";

/// The command `draft`.
pub const DRAFT: &str = "draft";

/// The parser's own command, which shows help.
pub const HELP: &str = "help";

/// The parameter with the name of the Packages index.
pub const PACKAGES: &str = "packages";

/// The parameter with the name of the Sources index.
pub const SOURCES: &str = "sources";

/// The parameter with the name of the farm description.
pub const FARM: &str = "farm";

/// The parameter with the name of the plan.
pub const PLAN: &str = "plan";

/// The parameter with the name of the certificate.
pub const CERTIFICATE: &str = "certificate";

/// The parameter with the name of the sketch.
pub const SKETCH: &str = "sketch";

/// The option `--lanes`.
pub const LANES: &str = "lanes";

/// The option `--rest`.
pub const REST: &str = "rest";

/// The option `--partial`.
pub const PARTIAL: &str = "partial";

/// The option `--schedule`.
pub const SCHEDULE: &str = "schedule";

/// The option `--progress`.
pub const PROGRESS: &str = "progress";

/// The option `--journal`.
pub const JOURNAL: &str = "journal";

/// The option `--archive`.
pub const ARCHIVE: &str = "archive";

/// The option `--forbid`.
pub const FORBID: &str = "forbid";

/// The option `--force`.
pub const FORCE: &str = "force";

/// The option `--packages` of `after`.
pub const NEW_PACKAGES: &str = "new-packages";

/// The option `--sources` of `after`.
pub const NEW_SOURCES: &str = "new-sources";

/// The option `--farm` of `after`.
pub const NEW_FARM: &str = "new-farm";

/// The option `--without`.
pub const WITHOUT: &str = "without";

/// The option `--built`.
pub const BUILT: &str = "built";

/// The option `--again`.
pub const AGAIN: &str = "again";

/// The option `--withdraw`.
pub const WITHDRAW: &str = "withdraw";

/// The option `--came`.
pub const CAME: &str = "came";

/// The parameter with the name of the wish.
pub const WISH: &str = "wish";

/// The parameter with the name of the folder.
pub const FOLDER: &str = "folder";

/// The option `--number`.
pub const NUMBER: &str = "number";

/// The option `--json`.
pub const JSON: &str = "json";

/// The option `--svg`.
pub const SVG: &str = "svg";

/// The option `--bars`.
pub const BARS: &str = "bars";

/// The option `--full`.
pub const FULL: &str = "full";

/// The option `--needs`.
pub const NEEDS: &str = "needs";

/// The option `--of`.
pub const OF: &str = "of";

/// The option `--cert`.
pub const BY_CERT: &str = "cert";

/// What stands for standard input in place of the name of a file.
pub const INPUT: &str = "-";

/// A word as the parser knows it, without what it is required or excluded by.
fn named<'a>(alloc: Global, id: &'a str, about: &'a str) -> Arg<'a> {
    Arg::new(alloc, id).help(about)
}

/// An option with a value.
fn option<'a>(alloc: Global, id: &'a str, value: &'a str, about: &'a str) -> Arg<'a> {
    named(alloc, id, about).long(id).value_name(value)
}

/// A word as the parser knows it.
fn arg<'a>(alloc: Global, word: Word) -> Result<Arg<'a>, AllocError> {
    match word {
        Word::File(id, value, about) => {
            Ok(named(alloc, id, about).value_name(value).required(true))
        }
        Word::FileUnless(id, value, about, other) => named(alloc, id, about)
            .value_name(value)
            .required_unless_present(other),
        Word::Flag(id, about, excluded) => named(alloc, id, about)
            .long(id)
            .action(ArgAction::SetTrue)
            .conflicts_with_all(excluded),
        Word::Value(id, value, about, excluded) => {
            option(alloc, id, value, about).conflicts_with_all(excluded)
        }
        Word::ValueAs(id, long, value, about) => {
            Ok(named(alloc, id, about).long(long).value_name(value))
        }
        Word::Needed(id, value, about) => Ok(option(alloc, id, value, about).required(true)),
        Word::List(id, value, about) => {
            Ok(option(alloc, id, value, about).action(ArgAction::Append))
        }
        Word::NeededList(id, value, about) => Ok(
            option(alloc, id, value, about)
                .action(ArgAction::Append)
                .required(true),
        ),
    }
}

/// Puts words at the end of others.
fn push_args<'a>(alloc: Global, args: &mut Vec<Arg<'a>>, words: &[Word]) -> Result<(), AllocError> {
    for word in words {
        args.push(arg(alloc, *word)?)?;
    }
    Ok(())
}

/// The files that stand behind a command.
fn words_of_files(files: Files) -> &'static [Word] {
    match files {
        Files::None => &[],
        Files::OfFarm => &FILES[..3],
        Files::All => &FILES,
    }
}

/// The words of a command.
fn args_of<'a>(alloc: Global, form: &Form) -> Result<Vec<Arg<'a>>, AllocError> {
    let mut args = Vec::new(alloc);
    push_args(alloc, &mut args, words_of_files(form.files))?;
    push_args(alloc, &mut args, form.words)?;
    Ok(args)
}

/// A command without its words.
fn bare<'a>(alloc: Global, form: &Form) -> Command<'a> {
    let command = Command::new(alloc, form.name)
        .about(form.about)
        .after_long_help(form.more);
    match form.usage {
        Some(usage) => command.override_usage(usage),
        None => command,
    }
}

fn push_command<'a>(
    alloc: Global,
    commands: &mut Vec<Command<'a>>,
    form: &Form,
) -> Result<(), AllocError> {
    let args = args_of(alloc, form)?;
    commands.push(bare(alloc, form).args(args)?)?;
    Ok(())
}

/// All commands, in the order in which help lists them.
fn commands<'a>(alloc: Global) -> Result<Vec<Command<'a>>, AllocError> {
    let mut commands = Vec::new(alloc);
    for form in &FORMS {
        push_command(alloc, &mut commands, form)?;
    }
    Ok(commands)
}

/// The program's name, version and help.
fn described<'a>(alloc: Global) -> Result<Command<'a>, AllocError> {
    let program = Command::new(alloc, PORTFARM)
        .bin_name(PORTFARM)?
        .version(help::VERSION)
        .long_version(help::LONG_VERSION)
        .about(help::PORTFARM)
        .after_long_help(help::PORTFARM_MORE);
    Ok(program)
}

/// The commands of the program, whose words begin behind its name.
pub fn portfarm<'a>(alloc: Global) -> Result<Command<'a>, AllocError> {
    let commands = commands(alloc)?;
    described(alloc)?
        .no_binary_name(true)
        .subcommand_required(true)
        .subcommands(commands)
}
