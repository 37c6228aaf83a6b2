//! The build relations of a source.

ghost use Rattle.std.specs.Option.{option_map};
ghost use Rattle.deb_text.specs.Answers.{Gives};
ghost use Rattle.deb_relation.specs.View.{refusal_of};
ghost use Rattle.import_closure.specs.Needs.{conflicts_judged, depends_judged, field_judged, has_arch, has_indep, if_counts, needs_at, needs_in, needs_view, relations_judged};
ghost use Rattle.std.specs.Prelude.{◌≡◌};

use crate::MOST_ENTRIES;
use deb_fields::{Paragraph, or_text};
use deb_profile::{ArchNames, ProfileSet, reduce_text};
use deb_relation::{Kind, RelationError, Relations};
use farm_model::Mode;
use std::alloc::Global;

/// Judges a relation field that may be absent.
fn judge_field(kind: Kind, value: Option<&[u8]>) -> Result<(), RelationError>
    ensures { Gives refusal_of (λ _. tt) result
        (field_judged kind (option_map (λ v. v.now) value.entry)) }
{
    Relations::judge(or_text(value, b""), kind)
}

/// Judges what a source needs to be built.
#[tactic(auto, unfolding(crate::specs::Needs::depends_judged))]
fn judge_depends(paragraph: &Paragraph) -> Result<(), RelationError>
    ensures { Gives refusal_of (λ _. tt) result (depends_judged paragraph.now) }
{
    judge_field(Kind::BuildNeed, paragraph.field(b"Build-Depends"))?;
    judge_field(Kind::BuildNeed, paragraph.field(b"Build-Depends-Arch"))?;
    judge_field(Kind::BuildNeed, paragraph.field(b"Build-Depends-Indep"))
}

/// Judges what must not be there.
#[tactic(auto, unfolding(crate::specs::Needs::conflicts_judged))]
fn judge_conflicts(paragraph: &Paragraph) -> Result<(), RelationError>
    ensures { Gives refusal_of (λ _. tt) result (conflicts_judged paragraph.now) }
{
    judge_field(Kind::BuildClash, paragraph.field(b"Build-Conflicts"))?;
    judge_field(Kind::BuildClash, paragraph.field(b"Build-Conflicts-Arch"))?;
    judge_field(Kind::BuildClash, paragraph.field(b"Build-Conflicts-Indep"))
}

/// Judges the build relations of a source.
///
/// # Errors
///
/// The first fault of Build-Depends, Build-Depends-Arch and -Indep, then of Build-Conflicts and its
/// two.
pub fn judge_relations(paragraph: &Paragraph) -> Result<(), RelationError>
    ensures { Gives refusal_of (λ _. tt) result (relations_judged paragraph.now) }
{
    judge_depends(paragraph)?;
    judge_conflicts(paragraph)
}

/// For which architecture and under which profiles a source is built.
#[derive(Clone, Copy)]
pub struct Host<'a> {
    pub names: &'a ArchNames,
    pub profiles: &'a ProfileSet,
}

/// Reads what is left of a field.
fn read_field(alloc: Global, host: &Host, value: Option<&[u8]>) -> Result<Relations, RelationError>
    ensures { Gives refusal_of (λ field. field) result
        (needs_in host.now.names.now host.now.profiles.now (option_map (λ v. v.now) value.entry)) }
{
    let text = or_text(value, b"");
    reduce_text(
        alloc,
        text,
        Kind::BuildNeed,
        host.names,
        host.profiles,
        MOST_ENTRIES,
    )
}

/// What a build needs, by the fields that it is said in: of those that are not of its mode nothing.
#[derive(Drop)]
pub struct Needs {
    pub always: Relations,
    pub arch: Relations,
    pub indep: Relations,
}

/// The value, where it counts.
fn if_counts(counts: bool, value: Option<&[u8]>) -> Option<&[u8]>
    ensures { option_map (λ v. v.now) result
        ≡ if_counts counts (option_map (λ v. v.now) value.entry) }
{
    if counts { value } else { None }
}

fn has_arch(mode: Mode) -> bool
    ensures { result ≡ has_arch mode }
{
    match mode {
        Mode::Full | Mode::Arch => true,
        Mode::Indep => false,
    }
}

fn has_indep(mode: Mode) -> bool
    ensures { result ≡ has_indep mode }
{
    match mode {
        Mode::Full | Mode::Indep => true,
        Mode::Arch => false,
    }
}

/// Reads what a build needs in a mode (Debian Policy 7.7), as an architecture and profiles leave it.
///
/// # Errors
///
/// The first fault of the fields of the mode.
#[tactic(auto, unfolding(crate::specs::Needs::needs_at))]
pub fn read_needs(
    alloc: Global,
    host: &Host,
    mode: Mode,
    paragraph: &Paragraph,
) -> Result<Needs, RelationError>
    ensures { Gives refusal_of needs_view result
        (needs_at host.now.names.now host.now.profiles.now mode paragraph.now) }
{
    let always = read_field(alloc, host, paragraph.field(b"Build-Depends"))?;
    let value = if_counts(has_arch(mode), paragraph.field(b"Build-Depends-Arch"));
    let arch = read_field(alloc, host, value)?;
    let value = if_counts(has_indep(mode), paragraph.field(b"Build-Depends-Indep"));
    let indep = read_field(alloc, host, value)?;
    Ok(Needs {
        always,
        arch,
        indep,
    })
}
