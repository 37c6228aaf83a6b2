//! The builds of a source: for each set of profiles that is tried what it gives and what it needs.

ghost use Rattle.std.specs.Prelude.{◌≡◌, map};
ghost use Rattle.stage_builds.specs.Kinds.{kind_of};

use crate::Scope;
use crate::further::{Allowed, further_profiles, own_prefix};
use crate::kind::{Kind, kind_of};
use crate::named::named_profiles;
use crate::profile_sets::{MOST_PROFILES, profiles_text, tried_sets};
use deb_fields::{Paragraph, or_text};
use deb_relation::{Kind as Field, Relations};
use deb_stanza::Paragraphs;
use farm_model::Mode;
use import_closure::{Build, BuildStop, Shelf, SourceHere, SourceShelf, WantedBuild, read_build};
use std::alloc::{AllocError, Global};

/// A build of a source that may be chosen.
#[derive(Drop)]
pub struct SourceBuild {
    /// The text of its profiles.
    pub profiles: Vec<u8>,
    pub kind: Kind,
    /// What it gives, as blocks of the target's index, and what it needs.
    pub build: Build,
}

/// The builds of a source, and how many profiles it may have beyond those of every build, if these
/// are too many for all sets of them to be tried.
#[derive(Drop)]
pub struct SourceBuilds {
    pub builds: Vec<SourceBuild>,
    pub too_many: Option<usize>,
}

/// Reads a relation field of a source that was judged before.
fn read_field(alloc: Global, value: Option<&[u8]>) -> Result<Relations, AllocError> {
    match Relations::parse(alloc, or_text(value, b""), Field::BuildNeed) {
        Ok(field) => Ok(field),
        Err(_) => Err(AllocError),
    }
}

fn has_arch(mode: Mode) -> bool {
    matches!(mode, Mode::Full | Mode::Arch)
}

fn has_indep(mode: Mode) -> bool {
    matches!(mode, Mode::Full | Mode::Indep)
}

/// The fields of what is needed in a mode, with their restrictions.
pub fn need_fields(
    alloc: Global,
    mode: Mode,
    paragraph: &Paragraph,
) -> Result<Vec<Relations>, AllocError> {
    let mut fields = Vec::new(alloc);
    fields.push(read_field(alloc, paragraph.field(b"Build-Depends"))?)?;
    if has_arch(mode) {
        fields.push(read_field(alloc, paragraph.field(b"Build-Depends-Arch"))?)?;
    }
    if has_indep(mode) {
        fields.push(read_field(alloc, paragraph.field(b"Build-Depends-Indep"))?)?;
    }
    Ok(fields)
}

/// A source, and what is looked at.
#[derive(Clone, Copy)]
struct Tried<'a> {
    scope: Scope<'a>,
    name: &'a [u8],
    source: &'a SourceHere,
}

/// A build under further profiles, of the kind that these give it.
fn kept(more: &[&[u8]], profiles: Vec<u8>, build: Build) -> SourceBuild
    ensures { result.kind ≡ kind_of (map (λ word. word.now) more.now) }
{
    SourceBuild {
        profiles,
        kind: kind_of(more),
        build,
    }
}

fn add(builds: &mut Vec<SourceBuild>, build: SourceBuild) -> Result<(), AllocError> {
    builds.push(build)?;
    Ok(())
}

/// Reads the build under these profiles.
fn read_under<'a>(
    tried: Tried<'a>,
    shelf: &mut Shelf,
    sources: &mut SourceShelf,
    profiles: &'a [u8],
) -> Result<Build, BuildStop> {
    let wanted = WantedBuild {
        source: tried.name,
        version: Some(tried.source.version.text()),
        mode: tried.scope.asked.mode,
        profiles,
        outputs: None,
    };
    read_build(
        tried.scope.alloc,
        wanted,
        tried.scope.indexes(),
        shelf,
        sources,
    )
}

/// Puts the build under further profiles behind others, if it gives anything.
fn push_build(
    tried: Tried,
    shelf: &mut Shelf,
    sources: &mut SourceShelf,
    more: &[&[u8]],
    builds: &mut Vec<SourceBuild>,
) -> Result<(), AllocError> {
    let profiles = profiles_text(tried.scope.alloc, tried.scope.asked.profiles, more)?;
    match read_under(tried, shelf, sources, &profiles) {
        Ok(build) => add(builds, kept(more, profiles, build)),
        Err(BuildStop::OutOfMemory) => Err(AllocError),
        Err(_) => Ok(()),
    }
}

fn push_builds(
    tried: Tried,
    shelf: &mut Shelf,
    sources: &mut SourceShelf,
    further: &[&[u8]],
) -> Result<SourceBuilds, AllocError> {
    let mut builds = Vec::new(tried.scope.alloc);
    for set in &tried_sets(tried.scope.alloc, further)? {
        push_build(tried, shelf, sources, set, &mut builds)?;
    }
    Ok(SourceBuilds {
        builds,
        too_many: if further.len() > MOST_PROFILES {
            Some(further.len())
        } else {
            None
        },
    })
}

/// The builds of a source that names these profiles.
fn builds_named<'a>(
    tried: Tried<'a>,
    shelf: &mut Shelf,
    sources: &mut SourceShelf,
    named: &'a [&'a [u8]],
) -> Result<SourceBuilds, AllocError> {
    let asked = tried.scope.asked;
    let own = own_prefix(tried.scope.alloc, tried.name)?;
    let allowed = Allowed {
        stages: asked.stage_set,
        base: asked.bases.chosen,
        own: &own,
        named,
    };
    let further = further_profiles(tried.scope.alloc, &allowed, asked.stages)?;
    push_builds(tried, shelf, sources, &further)
}

/// The builds of a source with this paragraph.
fn builds_read(
    tried: Tried,
    shelf: &mut Shelf,
    sources: &mut SourceShelf,
    paragraph: &Paragraph,
) -> Result<SourceBuilds, AllocError> {
    let fields = need_fields(tried.scope.alloc, tried.scope.asked.mode, paragraph)?;
    let list = or_text(paragraph.field(b"Package-List"), b"");
    let named = named_profiles(tried.scope.alloc, &fields, list)?;
    builds_named(tried, shelf, sources, &named)
}

/// The builds of a source that may be chosen: each that gives anything, under the profiles of every
/// build and each set of those that it names and that the wish allows.
pub(crate) fn builds_of<'a>(
    scope: Scope<'a>,
    shelf: &mut Shelf,
    sources: &mut SourceShelf,
    name: &'a [u8],
    source: &'a SourceHere,
) -> Result<SourceBuilds, AllocError> {
    let tried = Tried {
        scope,
        name,
        source,
    };
    let Ok(paragraphs) = Paragraphs::read(scope.alloc, block_of(sources, source.number)) else {
        return Err(AllocError);
    };
    if paragraphs.count() == 0 {
        return Err(AllocError);
    }
    builds_read(tried, shelf, sources, &Paragraph::new(&paragraphs, 0))
}

/// The bytes of a source's block.
pub fn block_of<'a>(sources: &SourceShelf<'a>, number: u32) -> &'a [u8] {
    match sources.blocks.get(number as usize) {
        Some(block) => block,
        None => b"",
    }
}
