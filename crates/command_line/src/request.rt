//! What the words ask for.

ghost use Rattle.std.specs.Prelude.{◌≡◌, ℕ, List, IfErr, IfOk, IsOkAnd, length, map};
ghost use Rattle.command_line.specs.Words.{AreFarmWords, ArePathWords, IsAskedBy, IsNamed, IsRefusedFor, IsRequestedBy, command_asked};

use crate::after::{AfterWords, after_of};
use crate::among::{are_farm_words, are_words, ends_word};
use crate::certificates::{explain_of, verify_of};
use crate::command::{
    AFTER, BY_CERT, CERT, CERTIFICATE, CHECK, DRAFT, DRIVE, EXPLAIN, FARM, FULL, GRAPH, IMPORT,
    INPUT, JOURNAL, JSON, LANES, LIST, NUMBER, PACKAGES, PARTIAL, PLAN, PROGRESS, REST, RUN,
    SCHEDULE, SKETCH, SOURCES, STATUS, STEP, TIMELINE, VERIFY_CERT, portfarm,
};
use crate::drive::{drive_of, status_of};
use crate::import::{ImportWords, import_of};
use crate::named::{asks_help, command_asked, is_named};
use crate::pictures::{form_of, graph_of};
use crate::schedule::{ScheduleFault, read_lane, read_schedule};
use clap::error::ErrorKind;
use clap::{ArgMatches, Error};
use std::alloc::{AllocError, Global};
use std::convert::AsStr;

/// The files of the four texts of a farm, in the order of the words.
#[derive(Clone, Copy)]
pub struct Paths<'a> {
    pub packages: &'a str,
    pub sources: &'a str,
    pub farm: &'a str,
    pub plan: &'a str,
}

/// How a timeline is shown.
#[derive(Clone, Copy)]
pub enum TimelineForm {
    /// As lines, with the longest waits of each lane.
    Lines,
    /// As lines, with a bar for each lane.
    Bars,
    /// As one JSON object.
    Json,
    /// As a picture.
    Svg,
}

/// The files of a farm without a plan, in the order of the words.
#[derive(Clone, Copy)]
pub struct FarmPaths<'a> {
    pub packages: &'a str,
    pub sources: &'a str,
    pub farm: &'a str,
}

/// The most lanes that a plan is drafted for.
const MOST_LANES: u32 = 64;

/// What is asked of texts, and answered without waiting.
#[derive(Drop)]
pub enum Request<'a> {
    /// The verdict on the four texts of standard input.
    CheckInput,
    /// The verdict on four texts; and whether it is told as JSON.
    Check {
        paths: Paths<'a>,
        json: bool,
    },
    /// The verdict on four texts, and why it is one; and whether that is told as JSON.
    Explain {
        paths: Paths<'a>,
        json: bool,
    },
    /// The verdict on the certificate of a plan, which stands in a file too, and why it is one.
    ExplainCert {
        cert: &'a str,
        paths: Paths<'a>,
    },
    /// The listing of a plan; and whether its lines are numbered.
    List {
        paths: Paths<'a>,
        number: bool,
    },
    /// A certificate of a plan.
    Cert(Paths<'a>),
    /// The verdict on the certificate of a plan, which stands in a file too.
    VerifyCert {
        cert: &'a str,
        paths: Paths<'a>,
    },
    /// What a schedule of lanes comes to.
    Step {
        schedule: Vec<u32>,
        paths: Paths<'a>,
    },
    /// What a schedule of lanes comes to that stands in a file.
    StepBy {
        list: &'a str,
        paths: Paths<'a>,
    },
    /// The timed run of a plan; how it is shown; and whether its critical path is shown whole.
    Timeline {
        paths: Paths<'a>,
        form: TimelineForm,
        full: bool,
    },
    /// The builds of a plan and the waits between them; and whether that is told as JSON.
    Graph {
        paths: Paths<'a>,
        json: bool,
    },
    /// Which build of a plan needs which, of these recipes or of all; and whether told as JSON.
    Needs {
        recipes: Vec<&'a str>,
        paths: Paths<'a>,
        json: bool,
    },
    /// Where a drive stands, by its journal, as JSON or not.
    Status {
        journal: &'a str,
        paths: Paths<'a>,
        json: bool,
    },
    /// A plan by a sketch, which stands in place of the plan; whether the other recipes are built
    /// too, and whether what cannot be built is left out.
    Draft {
        paths: Paths<'a>,
        rest: bool,
        partial: bool,
    },
    /// A plan of so many lanes, and whether what cannot be built is left out.
    DraftLanes {
        paths: FarmPaths<'a>,
        lanes: u32,
        partial: bool,
    },
}

/// What the words ask for.
#[derive(Drop)]
pub enum Asked<'a> {
    /// An answer to texts.
    Answer(Request<'a>),
    /// A run of the farm of four texts; and whether to tell of it while it goes on.
    Run {
        paths: Paths<'a>,
        progress: bool,
    },
    /// A run that a driver carries out; the name of its journal, if it has one; and whether to tell
    /// of it while it goes on.
    Drive {
        paths: Paths<'a>,
        journal: Option<&'a str>,
        progress: bool,
    },
    /// The texts of a farm, made of indexes.
    Import(ImportWords<'a>),
    /// The texts of what is left of a run.
    After(AfterWords<'a>),
}

/// Why words ask for nothing that is answered.
#[derive(Debug, Drop)]
pub enum WordsFault {
    /// They ask for help or the version, which is this text.
    Help(String),
    /// They are wrong, as this text says.
    Wrong(String),
    /// What stands behind `--schedule` is no schedule.
    BadSchedule,
    /// Memory ran out.
    Memory,
}

impl From<AllocError> for WordsFault {
    ghost use Rattle.command_line.specs.declared.request.WordsFault.{WordsFault};

    ghost from_gives = { λ _ fault. fault ≡ WordsFault.Memory };

    fn from(_error: AllocError) -> WordsFault {
        WordsFault::Memory
    }
}

/// What is said of four words of which the first is no command.
const FOUR_FILES: &str =
    "\nFour files are checked by `portfarm check PACKAGES SOURCES FARM PLAN`.\n";

/// What the parser says in place of matches of so many words.
fn said_of(alloc: Global, error: &Error, count: usize) -> Result<String, AllocError> {
    let mut text = error.to_string(alloc)?;
    if error.kind() == ErrorKind::InvalidSubcommand && count == 4 {
        text.push_str(FOUR_FILES)?;
    }
    Ok(text)
}

/// Why the parser gives no matches of these words.
fn fault_of<S: AsStr>(alloc: Global, error: Error, words: &[S]) -> WordsFault
    ensures { IsRefusedFor (map S.text words.now) result }
{
    if error.kind() == ErrorKind::OutOfMemory {
        return WordsFault::Memory;
    }
    let Ok(text) = said_of(alloc, &error, words.len()) else {
        return WordsFault::Memory;
    };
    if error.use_stderr() || !asks_help(words) {
        return WordsFault::Wrong(text);
    }
    WordsFault::Help(text)
}

/// The word for something that the command requires.
pub fn word_of<'a>(matches: &ArgMatches<'a>, id: &str) -> &'a str {
    matches.get_str(id).unwrap_or("")
}

pub fn paths_of<'a>(matches: &ArgMatches<'a>) -> Paths<'a> {
    Paths {
        packages: word_of(matches, PACKAGES),
        sources: word_of(matches, SOURCES),
        farm: word_of(matches, FARM),
        plan: word_of(matches, PLAN),
    }
}

/// The name of one file more that a command reads: that of a certificate, of a schedule, or of a
/// journal. Empty where it reads none.
fn one_more<'a>(command: &str, matches: &ArgMatches<'a>) -> &'a str {
    match command {
        VERIFY_CERT => word_of(matches, CERTIFICATE),
        EXPLAIN => word_of(matches, BY_CERT),
        STEP => word_of(matches, SCHEDULE).strip_prefix('@').unwrap_or(""),
        STATUS => word_of(matches, JOURNAL),
        _ => "",
    }
}

/// Tells whether standard input stands for more than one file.
fn asks_twice(paths: &Paths<'_>, more: &str) -> bool {
    let names = [paths.packages, paths.sources, paths.farm, paths.plan, more];
    names.iter().filter(|name| **name == INPUT).count() > 1
}

/// What `step` asks for, by what stands behind `--schedule`: a list of lanes, or behind `@` the
/// file that has one.
fn step_of<'a, S: AsStr>(
    alloc: Global,
    words: &'a [S],
    list: &'a str,
    paths: Paths<'a>,
) -> Result<Request<'a>, WordsFault>
    requires paths { ArePathWords (map S.text words.now) paths }
    ensures asked { IfOk result (IsRequestedBy (map S.text words.entry.now)) }
    ensures refused { IfErr result (IsRefusedFor (map S.text words.entry.now)) }
{
    let text = list.strip_prefix('@').unwrap_or(list);
    if !ends_word(words, text) {
        return Err(not_there(alloc));
    }
    if text.len() < list.len() {
        return Ok(Request::StepBy { list: text, paths });
    }
    match read_schedule(alloc, text.as_bytes()) {
        Ok(schedule) => Ok(Request::Step { schedule, paths }),
        Err(ScheduleFault::BadSchedule) => Err(WordsFault::BadSchedule),
        Err(ScheduleFault::Memory) => Err(WordsFault::Memory),
    }
}

fn request_of<'a, S: AsStr>(
    alloc: Global,
    words: &'a [S],
    command: &str,
    matches: &ArgMatches<'a>,
    paths: Paths<'a>,
) -> Result<Request<'a>, WordsFault>
    requires paths { ArePathWords (map S.text words.now) paths }
    ensures asked { IfOk result (IsRequestedBy (map S.text words.entry.now)) }
    ensures refused { IfErr result (IsRefusedFor (map S.text words.entry.now)) }
{
    match command {
        CHECK => Ok(Request::Check {
            paths,
            json: matches.get_flag(JSON),
        }),
        EXPLAIN => explain_of(alloc, words, matches, paths),
        LIST => Ok(Request::List {
            paths,
            number: matches.get_flag(NUMBER),
        }),
        CERT => Ok(Request::Cert(paths)),
        VERIFY_CERT => verify_of(alloc, words, word_of(matches, CERTIFICATE), paths),
        STEP => step_of(alloc, words, word_of(matches, SCHEDULE), paths),
        TIMELINE => Ok(Request::Timeline {
            paths,
            form: form_of(matches),
            full: matches.get_flag(FULL),
        }),
        GRAPH => graph_of(alloc, words, matches, paths),
        STATUS => status_of(alloc, words, matches, word_of(matches, JOURNAL), paths),
        _ => Err(no_command(alloc)),
    }
}

/// What `draft` asks for by a sketch.
fn sketch_of<'a, S: AsStr>(
    alloc: Global,
    words: &'a [S],
    matches: &ArgMatches<'a>,
) -> Result<Asked<'a>, WordsFault>
    ensures asked { IfOk result (IsAskedBy (map S.text words.entry.now)) }
    ensures refused { IfErr result (IsRefusedFor (map S.text words.entry.now)) }
{
    let paths = Paths {
        plan: word_of(matches, SKETCH),
        ..paths_of(matches)
    };
    if asks_twice(&paths, "") {
        return Err(wrong(alloc, "error: `-` can stand for one file alone\n"));
    }
    if !are_words(words, paths) {
        return Err(not_there(alloc));
    }
    Ok(Asked::Answer(Request::Draft {
        paths,
        rest: matches.get_flag(REST),
        partial: matches.get_flag(PARTIAL),
    }))
}

/// What `draft` asks for by a number of lanes.
fn lanes_of<'a, S: AsStr>(
    alloc: Global,
    words: &'a [S],
    number: &'a str,
    paths: FarmPaths<'a>,
    partial: bool,
) -> Result<Asked<'a>, WordsFault>
    requires paths { AreFarmWords (map S.text words.now) paths }
    ensures asked { IfOk result (IsAskedBy (map S.text words.entry.now)) }
    ensures refused { IfErr result (IsRefusedFor (map S.text words.entry.now)) }
{
    if !ends_word(words, number) {
        return Err(not_there(alloc));
    }
    match read_lane(number.as_bytes()) {
        Ok(lanes) if lanes >= 1 && lanes <= MOST_LANES => {
            Ok(Asked::Answer(Request::DraftLanes {
                paths,
                lanes,
                partial,
            }))
        }
        _ => Err(wrong(alloc, "error: `--lanes` takes a number from 1 to 64\n")),
    }
}

/// What `draft` asks for.
fn draft_of<'a, S: AsStr>(
    alloc: Global,
    words: &'a [S],
    matches: &ArgMatches<'a>,
) -> Result<Asked<'a>, WordsFault>
    ensures asked { IfOk result (IsAskedBy (map S.text words.entry.now)) }
    ensures refused { IfErr result (IsRefusedFor (map S.text words.entry.now)) }
{
    let Some(number) = matches.get_str(LANES) else {
        return sketch_of(alloc, words, matches);
    };
    let paths = FarmPaths {
        packages: word_of(matches, PACKAGES),
        sources: word_of(matches, SOURCES),
        farm: word_of(matches, FARM),
    };
    let names = [paths.packages, paths.sources, paths.farm];
    if names.iter().filter(|name| **name == INPUT).count() > 1 {
        return Err(wrong(alloc, "error: `-` can stand for one file alone\n"));
    }
    if !are_farm_words(words, paths) {
        return Err(not_there(alloc));
    }
    lanes_of(alloc, words, number, paths, matches.get_flag(PARTIAL))
}

/// What a command and its words ask for.
fn asked_of<'a, S: AsStr>(
    alloc: Global,
    words: &'a [S],
    command: &str,
    matches: &ArgMatches<'a>,
) -> Result<Asked<'a>, WordsFault>
    ensures asked { IfOk result (IsAskedBy (map S.text words.entry.now)) }
    ensures refused { IfErr result (IsRefusedFor (map S.text words.entry.now)) }
{
    let paths = paths_of(matches);
    if asks_twice(&paths, one_more(command, matches)) {
        return Err(wrong(alloc, "error: `-` can stand for one file alone\n"));
    }
    if !are_words(words, paths) {
        return Err(not_there(alloc));
    }
    if command == DRIVE {
        return drive_of(alloc, words, matches, paths);
    }
    if command == RUN {
        return Ok(Asked::Run {
            paths,
            progress: matches.get_flag(PROGRESS),
        });
    }
    Ok(Asked::Answer(request_of(alloc, words, command, matches, paths)?))
}

/// That words are wrong, as this text says.
pub fn wrong(alloc: Global, text: &str) -> WordsFault
    ensures { (words : List (List ℕ)) → IsRefusedFor words result }
{
    match String::from_str(alloc, text) {
        Ok(text) => WordsFault::Wrong(text),
        Err(AllocError) => WordsFault::Memory,
    }
}

fn no_command(alloc: Global) -> WordsFault
    ensures { (words : List (List ℕ)) → IsRefusedFor words result }
{
    wrong(alloc, "error: expected a command\n")
}

/// What the parser gives is looked up among the words, so that it need not be trusted.
pub fn not_there(alloc: Global) -> WordsFault
    ensures { (words : List (List ℕ)) → IsRefusedFor words result }
{
    wrong(alloc, "error: a name is none of the words\n")
}

/// What the words ask for that the parser has taken.
fn asked_by<'a, S: AsStr>(
    alloc: Global,
    words: &'a [S],
    matches: &ArgMatches<'a>,
) -> Result<Asked<'a>, WordsFault>
    ensures asked { IfOk result (IsAskedBy (map S.text words.entry.now)) }
    ensures refused { IfErr result (IsRefusedFor (map S.text words.entry.now)) }
{
    match matches.subcommand() {
        Some((DRAFT, matches)) => draft_of(alloc, words, matches),
        Some((IMPORT, matches)) => import_of(alloc, words, matches),
        Some((AFTER, matches)) => after_of(alloc, words, matches),
        Some((command, matches)) => asked_of(alloc, words, command, matches),
        None => Err(no_command(alloc)),
    }
}

/// What is asked for, if the first word names the command of that.
fn with_its_name<'a, S: AsStr>(
    alloc: Global,
    words: &'a [S],
    asked: Asked<'a>,
) -> Result<Asked<'a>, WordsFault>
    requires asked { IsAskedBy (map S.text words.now) asked }
    ensures named { IfOk result (λ asked. IsNamed (map S.text words.entry.now)
        (command_asked asked)) }
    ensures asked { IfOk result (IsAskedBy (map S.text words.entry.now)) }
    ensures refused { IfErr result (IsRefusedFor (map S.text words.entry.now)) }
{
    if !is_named(words, command_asked(&asked)) {
        return Err(not_there(alloc));
    }
    Ok(asked)
}

/// Reads the words behind the program's name. The first one names a command. No word at all asks
/// for the verdict on standard input, and [`INPUT`] stands for it in place of the name of one file.
///
/// # Errors
///
/// [`WordsFault::Help`] where they ask for help or the version; [`WordsFault::Wrong`] for words
/// that are none of the program's, and [`WordsFault::BadSchedule`] for a schedule that is none;
/// [`WordsFault::Memory`] where memory is refused.
pub fn read_words<'a, S: AsStr>(alloc: Global, words: &'a [S]) -> Result<Asked<'a>, WordsFault>
    ensures none { length words.entry.now ≡ 0
        → IsOkAnd result (λ asked. asked ≡ Asked.Answer Request.CheckInput) }
    ensures named { IfOk result (λ asked. IsNamed (map S.text words.entry.now)
        (command_asked asked)) }
    ensures asked { IfOk result (IsAskedBy (map S.text words.entry.now)) }
    ensures refused { IfErr result (IsRefusedFor (map S.text words.entry.now)) }
{
    if words.is_empty() {
        return Ok(Asked::Answer(Request::CheckInput));
    }
    let matches = match portfarm(alloc)?.try_get_matches_from(words) {
        Ok(matches) => matches,
        Err(error) => return Err(fault_of(alloc, error, words)),
    };
    match asked_by(alloc, words, &matches) {
        Ok(asked) => with_its_name(alloc, words, asked),
        Err(fault) => Err(fault),
    }
}
