//! Which command the words name, and whether they ask for help.

ghost use Rattle.std.specs.Prelude.{◌≡◌, map, true};
ghost use Rattle.std.specs.List.{list_any};
ghost use Rattle.std.specs.Option.{option_map};
ghost use Rattle.std.specs.Str.{bytes_eq};
ghost use Rattle.command_line.specs.Words as spec;
ghost use Rattle.command_line.specs.Words.{AsksHelp, IsNamed};

use crate::command::{
    AFTER, CERT, CHECK, DRAFT, DRIVE, EXPLAIN, GRAPH, HELP, IMPORT, LIST, RUN, STATUS, STEP,
    TIMELINE, VERIFY_CERT,
};
use crate::request::{Asked, Request};
use std::convert::AsStr;

/// The command that answers a request.
fn command_of(request: &Request<'_>) -> Option<&'static str>
    ensures { option_map (λ name. name.now) result ≡ spec.command_of request.now }
{
    match request {
        Request::CheckInput => None,
        Request::Check { .. } => Some(CHECK),
        Request::Explain { .. } | Request::ExplainCert { .. } => Some(EXPLAIN),
        Request::List { .. } => Some(LIST),
        Request::Cert(_) => Some(CERT),
        Request::VerifyCert { .. } => Some(VERIFY_CERT),
        Request::Step { .. } | Request::StepBy { .. } => Some(STEP),
        Request::Timeline { .. } => Some(TIMELINE),
        Request::Graph { .. } | Request::Needs { .. } => Some(GRAPH),
        Request::Status { .. } => Some(STATUS),
        Request::Draft { .. } | Request::DraftLanes { .. } => Some(DRAFT),
    }
}

/// The command that is asked for; none where there is no word.
pub fn command_asked(asked: &Asked<'_>) -> Option<&'static str>
    ensures { option_map (λ name. name.now) result ≡ spec.command_asked asked.now }
{
    match asked {
        Asked::Answer(request) => command_of(request),
        Asked::Run { .. } => Some(RUN),
        Asked::Drive { .. } => Some(DRIVE),
        Asked::Import(_) => Some(IMPORT),
        Asked::After(_) => Some(AFTER),
    }
}

fn is_text<S: AsStr>(word: &S, text: &str) -> bool
    ensures { result ≡ bytes_eq (S.text word.now) text.now }
{
    word.as_str() == text
}

/// Tells whether the first word is this name, or where there is none, whether there is no word.
pub fn is_named<S: AsStr>(words: &[S], name: Option<&str>) -> bool
    ensures { result ≡ true
        → IsNamed (map S.text words.now) (option_map (λ text. text.now) name.entry) }
{
    match (words.first(), name) {
        (Some(word), Some(name)) => is_text(word, name),
        (None, None) => true,
        _ => false,
    }
}

/// Tells whether a word is an option that asks for help or the version, maybe with other short
/// options in it.
fn is_help_option(word: &str) -> bool
    ensures { result ≡ spec.is_help_option word.now }
{
    let bytes = word.as_bytes();
    word == "--help" || word == "--version" || bytes.starts_with(b"-h") || bytes.starts_with(b"-V")
}

fn has_help_option<S: AsStr>(words: &[S]) -> bool
    ensures { result ≡ list_any (λ word. spec.is_help_option (S.text word)) words.now }
{
    words.iter().any(|word| is_help_option(word.as_str()))
}

/// Tells whether words ask for help or the version.
pub fn asks_help<S: AsStr>(words: &[S]) -> bool
    ensures { result ≡ true → AsksHelp (map S.text words.now) }
{
    if has_help_option(words) {
        return true;
    }
    is_named(words, Some(HELP))
}
