//! The rows of a `Package-List`.

ghost use Rattle.std.specs.Prelude.{◌≡◌, ◌++◌, map, IfOk, OnOk};
ghost use Rattle.std.specs.Option.{option_map};
ghost use Rattle.deb_text.specs.Common.{lines_of, words};
ghost use Rattle.debian_index.specs.Given.{given_row, names_given};
ghost use Rattle.debian_index.specs.View.{row_for};

use crate::marks::are_met;
use deb_profile::{ArchNames, ProfileSet};
use deb_text::{next_line, next_word};
use farm_model::Mode;
use std::alloc::{AllocError, Global};

/// For which architecture, under which profiles and in which mode a source is built.
#[derive(Clone, Copy)]
pub struct Build<'a> {
    pub names: &'a ArchNames,
    pub profiles: &'a ProfileSet,
    pub mode: Mode,
}

/// The name in a row, where the build makes that package.
fn given_name<'a>(row: &'a [u8], build: &Build) -> Option<&'a [u8]>
    ensures { option_map (λ name. name.now) result ≡ row_for build.now (words row.now) }
{
    let (name, rest) = next_word(row)?;
    let (kind, rest) = next_word(rest)?;
    let (_, rest) = next_word(rest)?;
    let (_, marks) = next_word(rest)?;
    if kind == b"deb".as_slice() && are_met(marks, build.names, build.profiles, build.mode) {
        Some(name)
    } else {
        None
    }
}

/// The names of the packages that a build makes, by the value of its source's `Package-List`: a
/// row for each, of its name, `deb`, section, priority and marks. `arch=` has the architectures
/// that have it, `profile=` the profiles under which it is made.
#[tactic(auto, unfolding(crate::specs::Given::names_given))]
pub fn given_names<'a>(
    alloc: Global,
    list: &'a [u8],
    build: &Build,
) -> Result<Vec<&'a [u8]>, AllocError>
    ensures { IfOk result (λ names. map (λ name. name.now) names.items
        ≡ names_given (row_for build.now) (lines_of list.now)) }
{
    let mut names = Vec::new(alloc);
    let mut rest = list;
    while let Some((row, behind)) = next_line(rest) {
        if let Some(name) = given_name(row, build) {
            names.push(name)?;
        }
        rest = behind;
    }
    Ok(names)
}
