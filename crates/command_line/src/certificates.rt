//! What the words ask for of a certificate.

ghost use Rattle.std.specs.Prelude.{IfErr, IfOk, map};
ghost use Rattle.command_line.specs.Words.{ArePathWords, IsRefusedFor, IsRequestedBy};

use crate::among::{ends_word, is_word};
use crate::command::{BY_CERT, JSON};
use crate::request::{Paths, Request, WordsFault, not_there};
use clap::ArgMatches;
use std::alloc::Global;
use std::convert::AsStr;

/// What `verify-cert` asks for, by the name of the certificate.
pub fn verify_of<'a, S: AsStr>(
    alloc: Global,
    words: &'a [S],
    cert: &'a str,
    paths: Paths<'a>,
) -> Result<Request<'a>, WordsFault>
    requires paths { ArePathWords (map S.text words.now) paths }
    ensures asked { IfOk result (IsRequestedBy (map S.text words.entry.now)) }
    ensures refused { IfErr result (IsRefusedFor (map S.text words.entry.now)) }
{
    if !is_word(words, cert) {
        return Err(not_there(alloc));
    }
    Ok(Request::VerifyCert { cert, paths })
}

/// What `explain` asks for of the certificate of this name, behind `--cert`.
fn explain_by<'a, S: AsStr>(
    alloc: Global,
    words: &'a [S],
    cert: &'a str,
    paths: Paths<'a>,
) -> Result<Request<'a>, WordsFault>
    requires paths { ArePathWords (map S.text words.now) paths }
    ensures asked { IfOk result (IsRequestedBy (map S.text words.entry.now)) }
    ensures refused { IfErr result (IsRefusedFor (map S.text words.entry.now)) }
{
    if !ends_word(words, cert) {
        return Err(not_there(alloc));
    }
    Ok(Request::ExplainCert { cert, paths })
}

/// What `explain` asks for.
pub fn explain_of<'a, S: AsStr>(
    alloc: Global,
    words: &'a [S],
    matches: &ArgMatches<'a>,
    paths: Paths<'a>,
) -> Result<Request<'a>, WordsFault>
    requires paths { ArePathWords (map S.text words.now) paths }
    ensures asked { IfOk result (IsRequestedBy (map S.text words.entry.now)) }
    ensures refused { IfErr result (IsRefusedFor (map S.text words.entry.now)) }
{
    match matches.get_str(BY_CERT) {
        Some(cert) => explain_by(alloc, words, cert, paths),
        None => Ok(Request::Explain {
            paths,
            json: matches.get_flag(JSON),
        }),
    }
}
