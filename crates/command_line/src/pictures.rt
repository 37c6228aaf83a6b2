//! How a timeline is shown, and what `graph` asks for.

ghost use Rattle.std.specs.Prelude.{IfErr, IfOk, map};
ghost use Rattle.command_line.specs.Words.{ArePathWords, IsRefusedFor, IsRequestedBy};

use crate::command::{BARS, JSON, NEEDS, OF, SVG};
use crate::import::names_behind;
use crate::request::{Paths, Request, TimelineForm, WordsFault};
use clap::ArgMatches;
use std::alloc::Global;
use std::convert::AsStr;

/// How a timeline is to be shown; the parser lets one option alone stand for that.
pub fn form_of(matches: &ArgMatches<'_>) -> TimelineForm {
    if matches.get_flag(JSON) {
        TimelineForm::Json
    } else if matches.get_flag(SVG) {
        TimelineForm::Svg
    } else if matches.get_flag(BARS) {
        TimelineForm::Bars
    } else {
        TimelineForm::Lines
    }
}

/// What `graph` asks for. Recipes behind `--of` ask for what builds need, as `--needs` does.
pub fn graph_of<'a, S: AsStr>(
    alloc: Global,
    words: &'a [S],
    matches: &ArgMatches<'a>,
    paths: Paths<'a>,
) -> Result<Request<'a>, WordsFault>
    requires paths { ArePathWords (map S.text words.now) paths }
    ensures asked { IfOk result (IsRequestedBy (map S.text words.entry.now)) }
    ensures refused { IfErr result (IsRefusedFor (map S.text words.entry.now)) }
{
    let json = matches.get_flag(JSON);
    let recipes = names_behind(alloc, words, matches, OF)?;
    if recipes.is_empty() && !matches.get_flag(NEEDS) {
        return Ok(Request::Graph { paths, json });
    }
    Ok(Request::Needs {
        recipes,
        paths,
        json,
    })
}
