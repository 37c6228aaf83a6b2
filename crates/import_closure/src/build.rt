//! A recipe of the wish with its source and what it gives.

use crate::build_packages::MadePackages;
use crate::build_sources::{SourceHere, SourceShelf};
use crate::error::BuildStop;
use crate::outputs::Made;
use crate::{Host, Needs, PackageNames, Shelf, files_size, read_needs};
use deb_fields::{Paragraph, or_text};
use deb_profile::{ArchNames, ProfileSet};
use deb_relation::Relations;
use deb_stanza::Paragraphs;
use deb_version::Version;
use debian_index::Build as Listed;
use farm_model::Mode;
use std::alloc::{AllocError, Global};
use std::cmp::Ordering;

/// A build that is wanted: the name of its source and its version, if that is said; its mode, its
/// profiles as words, and the names of its outputs, if not all are wanted.
#[derive(Clone, Copy)]
pub struct WantedBuild<'a> {
    pub source: &'a [u8],
    pub version: Option<&'a [u8]>,
    pub mode: Mode,
    pub profiles: &'a [u8],
    pub outputs: Option<&'a Vec<Vec<u8>>>,
}

/// The version of the source whose packages stand in for those of the one that is built, where the
/// indexes have none of that.
pub type StandIn = Option<Version>;

/// A build: its source and the block of that, the blocks of the packages that it gives, what it
/// needs, and the KiB of the source's files.
#[derive(Drop)]
pub struct Build {
    pub source: SourceHere,
    pub stand_in: StandIn,
    pub outputs: Vec<u32>,
    pub needs: Vec<Relations>,
    pub size: u64,
}

/// The packages that builds give, by their names, and for which architecture.
#[derive(Clone, Copy)]
pub struct Indexes<'a> {
    pub names: &'a PackageNames,
    pub architectures: &'a ArchNames,
}

/// Where the highest of sources stands, of those with packages alone or of all.
fn highest_place(
    sources: &[SourceHere],
    packages: &MadePackages,
    with_packages: bool,
) -> Option<usize> {
    let mut place = None;
    let mut highest: Option<&Version> = None;
    for at in 0..sources.len() {
        let version = &sources[at].version;
        let is_better = match highest {
            Some(other) => version.compare(other) == Ordering::Greater,
            None => true,
        };
        if is_better && (!with_packages || packages.has(version)) {
            highest = Some(version);
            place = Some(at);
        }
    }
    place
}

/// The version of the source whose packages stand in, where there are any.
fn stand_in(packages: &MadePackages) -> Result<StandIn, AllocError> {
    match packages.highest() {
        Some(version) => Ok(Some(version.clone()?)),
        None => Ok(None),
    }
}

/// Of sources that fit the highest that there are packages of, or else the highest, and whose
/// packages stand in then.
fn choose(
    sources: Vec<SourceHere>,
    packages: &MadePackages,
) -> Result<(SourceHere, StandIn), BuildStop> {
    if let Some(place) = highest_place(&sources, packages, true) {
        return match sources.into_iter().nth(place) {
            Some(source) => Ok((source, None)),
            None => Err(BuildStop::UnknownSource),
        };
    }
    let Some(place) = highest_place(&sources, packages, false) else {
        return Err(BuildStop::UnknownSource);
    };
    match sources.into_iter().nth(place) {
        Some(source) => Ok((source, stand_in(packages)?)),
        None => Err(BuildStop::UnknownSource),
    }
}

/// The version that is wanted of a source.
fn wanted_version(alloc: Global, wanted: WantedBuild) -> Result<Option<Version>, BuildStop> {
    match wanted.version {
        Some(text) => match Version::parse(alloc, text) {
            Ok(version) => Ok(Some(version)),
            Err(_) => Err(BuildStop::OutOfMemory),
        },
        None => Ok(None),
    }
}

/// The KiB of the files of a source.
fn size_of(paragraph: &Paragraph) -> u64 {
    let sums = match paragraph.field(b"Checksums-Sha256") {
        Some(sums) => sums,
        None => or_text(paragraph.field(b"Files"), b""),
    };
    files_size(sums) / 1024
}

/// The fields of what is needed.
fn fields_of(alloc: Global, needs: Needs) -> Result<Vec<Relations>, AllocError> {
    let mut fields = Vec::new(alloc);
    fields.push(needs.always)?;
    fields.push(needs.arch)?;
    fields.push(needs.indep)?;
    Ok(fields)
}

/// What a build needs: Build-Depends, then what its mode has besides.
fn needs_of(
    alloc: Global,
    host: &Host,
    mode: Mode,
    paragraph: &Paragraph,
) -> Result<Vec<Relations>, BuildStop> {
    let needs = read_needs(alloc, host, mode, paragraph)?;
    Ok(fields_of(alloc, needs)?)
}

/// A source that was chosen, and what of it is looked at.
#[derive(Clone, Copy)]
struct Chosen<'a> {
    source: &'a SourceHere,
    stand_in: &'a StandIn,
    packages: MadePackages<'a>,
    architectures: &'a ArchNames,
}

/// What is read of a chosen source: its outputs, its needs and the KiB of its files.
#[derive(Drop)]
struct Parts {
    outputs: Vec<u32>,
    needs: Vec<Relations>,
    size: u64,
}

/// Reads the paragraph of a chosen source.
fn read_parts(
    alloc: Global,
    wanted: WantedBuild,
    chosen: Chosen,
    paragraph: &Paragraph,
) -> Result<Parts, BuildStop> {
    let profiles = ProfileSet::parse(alloc, wanted.profiles)?;
    let version = match chosen.stand_in {
        Some(version) => version,
        None => &chosen.source.version,
    };
    let made = Made {
        packages: chosen.packages,
        version,
        build: Listed {
            names: chosen.architectures,
            profiles: &profiles,
            mode: wanted.mode,
        },
    };
    let outputs = made.outputs(alloc, paragraph, wanted.outputs)?;
    let host = Host {
        names: chosen.architectures,
        profiles: &profiles,
    };
    Ok(Parts {
        outputs,
        needs: needs_of(alloc, &host, wanted.mode, paragraph)?,
        size: size_of(paragraph),
    })
}

/// Reads the block of a chosen source.
fn read_chosen(
    alloc: Global,
    wanted: WantedBuild,
    chosen: Chosen,
    block: &[u8],
) -> Result<Parts, BuildStop> {
    let Ok(paragraphs) = Paragraphs::read(alloc, block) else {
        return Err(BuildStop::OutOfMemory);
    };
    if paragraphs.count() == 0 {
        return Err(BuildStop::OutOfMemory);
    }
    read_parts(alloc, wanted, chosen, &Paragraph::new(&paragraphs, 0))
}

/// Finds for a recipe of the wish its source and what it gives.
///
/// # Errors
///
/// [`BuildStop::UnknownSource`] where no source fits, [`BuildStop::NotGiven`] for the first output
/// that is wanted and is none, [`BuildStop::NothingGiven`] where the indexes have nothing that it
/// gives, [`BuildStop::OutOfMemory`] where memory is refused.
pub fn read_build(
    alloc: Global,
    wanted: WantedBuild,
    indexes: Indexes,
    shelf: &mut Shelf,
    sources: &mut SourceShelf,
) -> Result<Build, BuildStop> {
    let name = wanted.source;
    let version = wanted_version(alloc, wanted)?;
    let fitting = sources.fitting(alloc, name, version.as_ref())?;
    shelf.look_at_all(alloc, indexes.names, indexes.names.made.listed(name))?;
    let packages = MadePackages {
        shelf,
        names: indexes.names,
        source: name,
    };
    let (source, stand_in) = choose(fitting, &packages)?;
    let chosen = Chosen {
        source: &source,
        stand_in: &stand_in,
        packages,
        architectures: indexes.architectures,
    };
    let parts = read_chosen(alloc, wanted, chosen, sources.block(source.number))?;
    Ok(Build {
        outputs: parts.outputs,
        needs: parts.needs,
        size: parts.size,
        source,
        stand_in,
    })
}
