//! All warnings.

use crate::farm_fields::{push_fields, push_profiles};
use crate::indexes::{push_packages, source_notes};
use crate::recipes::{push_outputs, push_recipes};
use crate::restricting::{SourceWords, push_wildcards};
use crate::waits::push_waits;
use debian_index::architecture_names;
use explain_faults::{Pushed, first_words, read_paragraphs};
use farm_universe::Universe;
use plan_reader::{Plan, Texts};
use std::alloc::{AllocError, Global};

/// Puts the warnings of the farm text, and of what sources say of it, behind others.
fn push_of_farm(
    alloc: Global,
    lines: &mut Vec<u8>,
    texts: Texts<'_>,
    universe: &Universe,
    plan: &Plan,
) -> Pushed {
    let names = universe.arch_names();
    let profiles = push_fields(alloc, lines, texts.farm)?;
    let [architecture, ..] = first_words(names.text());
    let architectures = architecture_names(alloc, architecture)?;
    let words = SourceWords::of(alloc, &profiles, &architectures)?;
    let farm = read_paragraphs(alloc, texts.farm)?;
    let notes = source_notes(alloc, &farm, words, texts.sources)?;
    push_profiles(lines, &profiles, &notes.words.profiles)?;
    push_wildcards(lines, names, &notes.words.architectures)?;
    push_recipes(lines, universe, plan, &farm)?;
    push_outputs(alloc, lines, names, &notes.recipes)
}

/// Gives the lines of the warnings of a farm and a plan, each behind `warning: `: of fields of the
/// farm text that are passed over, of profiles that no source asks for, of names of the architecture
/// that the farm lacks, of recipes that no lane builds, of outputs that their source does not build
/// so, of packages without an `Installed-Size` or of a foreign architecture, and of waits that
/// nothing could end; no byte where all is well. The universe and the plan are what the texts stand
/// for.
pub fn warnings(
    alloc: Global,
    texts: Texts<'_>,
    universe: &Universe,
    plan: &Plan,
) -> Result<Vec<u8>, AllocError> {
    let mut lines = Vec::new(alloc);
    push_of_farm(alloc, &mut lines, texts, universe, plan)?;
    push_packages(alloc, &mut lines, universe.arch_names(), texts.packages)?;
    push_waits(alloc, &mut lines, universe, plan)?;
    Ok(lines)
}
