//! Files of cases: tables, or a farm and questions about its rows and values.
//!
//! A file of a farm has the packages, the sources and the farm, divided as on standard input, and
//! behind a last divider its cases, a line each, or a line `time` and a number, which builds the rows
//! so often, and prints the least time that it took. Any other file is a table.

ghost use Rattle.std.specs.Prelude.{◌≡◌};

use crate::farm_answer::answer;
use crate::time::{least_time, times_asked};
use case_files::{TableAnswers, columns_of, print_judged, row_of, tell_table};
use deb_text::{is_comment, next_line};
use farm_universe::Universe;
use plan_reader::{Texts, texts_of};
use sat_rows::Tables;
use std::rt::{Clock, Files};
use std::thread::Threads;
use std::{fs, io};

/// Tells of each case of a file whether its answer is the wanted one; those of a table are answered by
/// `answers`.
///
/// # Errors
///
/// Where a file cannot be read, memory is refused or a line cannot be printed.
pub fn tell_file<R: Threads + Sync + AllocGlobal + Clock + Files + Print, A: TableAnswers<R>>(
    rt: &R,
    answers: &A,
    file: &str,
) -> io::Result<()> {
    let text = fs::read(rt, file)?;
    let texts = texts_of(&text);
    if texts.farm.is_empty() {
        return tell_table(rt, answers, file, &text);
    }
    tell_texts(rt, file, texts)
}

fn tell_texts(
    rt: &(impl Threads + Sync + AllocGlobal + Clock + Print),
    file: &str,
    texts: Texts,
) -> io::Result<()> {
    match Universe::read(rt.alloc(), texts.packages, texts.sources, texts.farm) {
        Ok(universe) => tell_farm(rt, &universe, file, texts.plan),
        Err(refused) => {
            let fault = refused.fault;
            println!(rt; "{file}: {fault}")
        }
    }
}

fn tell_farm(
    rt: &(impl Threads + Sync + AllocGlobal + Clock + Print),
    universe: &Universe,
    file: &str,
    cases: &[u8],
) -> io::Result<()> {
    let tables = Tables::build(rt, rt.alloc(), universe)?;
    tell_rows(rt, universe, &tables, file, cases)
}

fn tell_rows(
    rt: &(impl Threads + Sync + AllocGlobal + Clock + Print),
    universe: &Universe,
    tables: &Tables,
    file: &str,
    cases: &[u8],
) -> io::Result<()>
    requires { tables.now ≡ universe.now }
{
    match times_asked(cases) {
        Some(times) => {
            let least = least_time(rt, universe, times)?;
            println!(rt; "{file}: {least} ns")
        }
        None => tell_cases(rt, universe, tables, file, cases),
    }
}

/// Tells of each case whether its answer is the wanted one.
fn tell_cases(
    rt: &(impl AllocGlobal + Print),
    universe: &Universe,
    tables: &Tables,
    file: &str,
    cases: &[u8],
) -> io::Result<()>
    requires { tables.now ≡ universe.now }
{
    let mut rest = cases;
    let mut number = 0u64;
    while let Some((line, behind)) = next_line(rest) {
        number = number.saturating_add(1);
        if !line.is_empty() && !is_comment(line) {
            print!(rt; "{file}:{number}: ")?;
            tell_case(rt, universe, tables, &columns_of(rt.alloc(), line)?)?;
        }
        rest = behind;
    }
    Ok(())
}

fn tell_case(
    rt: &(impl AllocGlobal + Print),
    universe: &Universe,
    tables: &Tables,
    columns: &[Vec<u8>],
) -> io::Result<()>
    requires { tables.now ≡ universe.now }
{
    match row_of(b"", columns) {
        Some((row, want)) => { print_judged(rt, want, &answer(rt.alloc(), universe, tables, row)?) }
        None => println!(rt; "too few columns"),
    }
}
