//! What is taken of indexes for a wish.

use crate::indexes::Packages;
use crate::refusals::{Refusal, RefusedRecipe, Stop, refused_recipe};
use crate::versions::count_builds;
use deb_profile::{ArchNames, ProfileSet, reduce};
use deb_relation::{Kind, Relations};
use deb_stanza::Paragraphs;
use import_closure::{
    Build, BuildStop, ChrootStop, Closure, Given as GivenPackage, Indexes, PackageNames, Pools,
    Shelf, SourceShelf, Variant, Variants, WantedBuild, chroot_members, read_build,
};
use import_wish::{MOST_CAPACITY, Wish, WishedRecipe, WishedSource};
use std::alloc::{AllocError, Global};
use std::collections::BTreeSet;

/// A base chroot: its name, its capacity in KiB, and what it holds.
#[derive(Drop)]
pub struct Chroot {
    pub name: Vec<u8>,
    pub capacity: u64,
    pub members: Variants,
}

/// The base chroots, and the blocks that are taken.
#[derive(Drop)]
pub struct There {
    pub chroots: Vec<Chroot>,
    pub closure: Closure,
}

/// What is there at the beginning, and what is there at all; of each build after how many of its
/// version it is the next one.
#[derive(Drop)]
pub struct Numbered {
    pub begin: Variants,
    pub variants: Variants,
    pub counts: Vec<u32>,
}

/// What is taken: of each recipe its build, what is there beside, and the versions of both.
#[derive(Drop)]
pub struct Taken {
    pub builds: Vec<Build>,
    pub there: There,
    pub numbered: Numbered,
}

/// What an import looks at: a wish, the indexes, and the names of the architecture.
#[derive(Clone, Copy)]
pub struct Given<'a> {
    pub wish: &'a Wish<'a>,
    pub packages: &'a Packages<'a>,
    pub architectures: &'a ArchNames,
}

/// A choice that a wish was made by: the text and the paragraphs of the wish that left it, and the
/// lines of notes on it.
#[derive(Clone, Copy)]
pub struct Choice<'a> {
    pub text: &'a [u8],
    pub paragraphs: &'a Paragraphs,
    pub notes: &'a [u8],
}

/// What an import was given, read and cut: the text of the wish and its paragraphs, the choice that it
/// was made by, if it was made so, the names of the architecture as a text, and the blocks of sources.
#[derive(Clone, Copy)]
pub struct Read<'a> {
    pub text: &'a [u8],
    pub paragraphs: &'a Paragraphs,
    pub choice: Option<Choice<'a>>,
    pub names: &'a [u8],
    pub sources: &'a [&'a [u8]],
    pub of: Given<'a>,
}

/// The version that is wanted of a source, if one is.
fn wanted_version(source: &WishedSource) -> Option<&[u8]> {
    match &source.version {
        Some(version) => Some(version),
        None => None,
    }
}

/// What of a recipe of the wish its build is found by.
fn wanted_build(wished: &WishedRecipe) -> WantedBuild<'_> {
    WantedBuild {
        source: &wished.source.name,
        version: wanted_version(&wished.source),
        mode: wished.way.mode,
        profiles: &wished.way.profiles,
        outputs: wished.outputs.as_ref(),
    }
}

/// The builds of recipes, and the recipes whose builds cannot be made.
#[derive(Drop)]
pub struct Builds {
    pub made: Vec<Build>,
    pub refused: Vec<RefusedRecipe>,
}

impl Builds {
    fn add(&mut self, build: Build) -> Result<(), AllocError> {
        self.made.push(build)?;
        Ok(())
    }

    fn refuse(
        &mut self,
        alloc: Global,
        wished: &WishedRecipe,
        stop: BuildStop,
    ) -> Result<(), AllocError> {
        self.refused.push(refused_recipe(alloc, wished, stop)?)?;
        Ok(())
    }
}

/// Finds the build of a recipe, and puts it behind others.
fn push_build(
    alloc: Global,
    of: Given,
    shelf: &mut Shelf,
    sources: &mut SourceShelf,
    wished: &WishedRecipe,
    builds: &mut Builds,
) -> Result<(), AllocError> {
    let indexes = Indexes {
        names: &of.packages.target,
        architectures: of.architectures,
    };
    match read_build(alloc, wanted_build(wished), indexes, shelf, sources) {
        Ok(build) => builds.add(build),
        Err(BuildStop::OutOfMemory) => Err(AllocError),
        Err(stop) => builds.refuse(alloc, wished, stop),
    }
}

/// Finds the build of each recipe of a wish, in its order: those that can be made, and the refusals
/// 702, 703 and 704 of the others.
pub fn read_builds(
    alloc: Global,
    of: Given,
    shelf: &mut Shelf,
    sources: &mut SourceShelf,
) -> Result<Builds, AllocError> {
    let mut builds = Builds {
        made: Vec::new(alloc),
        refused: Vec::new(alloc),
    };
    for wished in &of.wish.items.recipes {
        push_build(alloc, of, shelf, sources, wished, &mut builds)?;
    }
    Ok(builds)
}

/// The names of what builds give.
pub fn output_names(
    alloc: Global,
    shelf: &Shelf,
    builds: &[Build],
) -> Result<PackageNames, AllocError> {
    let mut names = PackageNames::new(alloc);
    for build in builds {
        for number in &build.outputs {
            if let Some(given) = shelf.given(*number) {
                names.add_given(alloc, *number, given)?;
            }
        }
    }
    Ok(names)
}

fn variant_of(given: &GivenPackage, number: u32) -> Result<Variant, AllocError> {
    Ok(Variant {
        version: given.version.clone()?,
        number,
        recipe: None,
    })
}

/// The packages of blocks, by name and version.
fn variants_of(
    alloc: Global,
    shelf: &Shelf,
    numbers: &BTreeSet<u32>,
) -> Result<Variants, AllocError> {
    let mut variants = Variants::new(alloc);
    for number in numbers {
        if let Some(given) = shelf.given(*number) {
            variants.add(alloc, &given.name, variant_of(given, *number)?)?;
        }
    }
    Ok(variants)
}

fn take_all(begin: &mut BTreeSet<u32>, members: &BTreeSet<u32>) -> Result<(), AllocError> {
    for number in members {
        begin.insert(*number)?;
    }
    Ok(())
}

/// A field as the architecture leaves it.
fn reduced(alloc: Global, of: Given, field: &Relations) -> Result<Relations, AllocError> {
    reduce(alloc, field, of.architectures, &ProfileSet::none(alloc))
}

/// What a base chroot holds. It is there at the beginning too.
fn read_members(
    alloc: Global,
    of: Given,
    shelf: &mut Shelf,
    name: &[u8],
    packages: &Relations,
) -> Result<BTreeSet<u32>, Stop> {
    let packages = reduced(alloc, of, packages)?;
    match chroot_members(alloc, shelf, of.packages.archive(), packages) {
        Ok(members) => Ok(members),
        Err(ChrootStop::Unmet(entry)) => {
            let chroot = Vec::from_slice(alloc, name)?;
            Err(Stop::Refused(Refusal::Unmet(chroot, entry)))
        }
        Err(ChrootStop::OutOfMemory) => Err(Stop::OutOfMemory),
    }
}

/// A base chroot that the wish names, or that stands where it names none.
#[derive(Clone, Copy)]
struct Wished<'a> {
    name: &'a [u8],
    capacity: u64,
    packages: &'a Relations,
}

/// The members of a base chroot, which are there at the beginning too.
fn read_variants(
    alloc: Global,
    of: Given,
    shelf: &mut Shelf,
    begin: &mut BTreeSet<u32>,
    wished: Wished,
) -> Result<Variants, Stop> {
    let numbers = read_members(alloc, of, shelf, wished.name, wished.packages)?;
    take_all(begin, &numbers)?;
    Ok(variants_of(alloc, shelf, &numbers)?)
}

/// Refuses a base chroot that would hold two versions of a name.
fn judge_members(alloc: Global, name: &[u8], members: &Variants) -> Result<(), Stop> {
    match members.twice() {
        Some(twice) => {
            let chroot = Vec::from_slice(alloc, name)?;
            Err(Stop::Refused(Refusal::Twice(chroot, Vec::from_slice(alloc, twice)?)))
        }
        None => Ok(()),
    }
}

fn read_chroot(
    alloc: Global,
    of: Given,
    shelf: &mut Shelf,
    begin: &mut BTreeSet<u32>,
    wished: Wished,
) -> Result<Chroot, Stop> {
    let members = read_variants(alloc, of, shelf, begin, wished)?;
    judge_members(alloc, wished.name, &members)?;
    Ok(Chroot {
        name: Vec::from_slice(alloc, wished.name)?,
        capacity: wished.capacity,
        members,
    })
}

/// The packages of the base chroot that stands where the wish names none.
fn build_essential(alloc: Global) -> Result<Relations, AllocError> {
    match Relations::parse(alloc, b"build-essential", Kind::Need) {
        Ok(packages) => Ok(packages),
        Err(_) => Err(AllocError),
    }
}

fn add_chroot(chroots: &mut Vec<Chroot>, chroot: Chroot) -> Result<(), AllocError> {
    chroots.push(chroot)?;
    Ok(())
}

/// Puts a base chroot behind others.
fn push_chroot(
    alloc: Global,
    of: Given,
    shelf: &mut Shelf,
    begin: &mut BTreeSet<u32>,
    wished: Wished,
    chroots: &mut Vec<Chroot>,
) -> Result<(), Stop> {
    let chroot = read_chroot(alloc, of, shelf, begin, wished)?;
    Ok(add_chroot(chroots, chroot)?)
}

/// The same of the base chroot that stands where the wish names none.
fn push_buildd(
    alloc: Global,
    of: Given,
    shelf: &mut Shelf,
    begin: &mut BTreeSet<u32>,
    chroots: &mut Vec<Chroot>,
) -> Result<(), Stop> {
    let packages = build_essential(alloc)?;
    let wished = Wished {
        name: b"buildd",
        capacity: MOST_CAPACITY,
        packages: &packages,
    };
    push_chroot(alloc, of, shelf, begin, wished, chroots)
}

fn read_chroots(
    alloc: Global,
    of: Given,
    shelf: &mut Shelf,
    begin: &mut BTreeSet<u32>,
) -> Result<Vec<Chroot>, Stop> {
    let mut chroots = Vec::new(alloc);
    for chroot in &of.wish.items.chroots {
        let wished = Wished {
            name: &chroot.name,
            capacity: chroot.capacity,
            packages: &chroot.packages,
        };
        push_chroot(alloc, of, shelf, begin, wished, &mut chroots)?;
    }
    if chroots.is_empty() {
        push_buildd(alloc, of, shelf, begin, &mut chroots)?;
    }
    Ok(chroots)
}

/// What all builds need.
fn all_needs(alloc: Global, builds: &[Build]) -> Result<Vec<Relations>, AllocError> {
    let mut wanted = Vec::new(alloc);
    for build in builds {
        for field in &build.needs {
            wanted.push(field.clone()?)?;
        }
    }
    Ok(wanted)
}

/// What the wish wants to be there at the beginning, as the architecture leaves it.
fn archive_wanted(alloc: Global, of: Given) -> Result<Vec<Relations>, AllocError> {
    let mut wanted = Vec::new(alloc);
    if let Some(field) = &of.wish.head.archive {
        wanted.push(reduced(alloc, of, field)?)?;
    }
    Ok(wanted)
}

/// Takes what is wanted of these names.
fn close_over(
    alloc: Global,
    of: Given,
    shelf: &mut Shelf,
    builds: &[Build],
    outputs: &PackageNames,
    closure: &mut Closure,
) -> Result<(), AllocError> {
    let mut pools = Pools {
        archive: of.packages.archive(),
        takes_archive: true,
        outputs,
    };
    if of.wish.head.archive.is_some() {
        closure.close(alloc, shelf, pools, archive_wanted(alloc, of)?)?;
        pools.takes_archive = false;
    }
    closure.close(alloc, shelf, pools, all_needs(alloc, builds)?)
}

/// Takes what is wanted.
fn close(
    alloc: Global,
    of: Given,
    shelf: &mut Shelf,
    builds: &[Build],
    closure: &mut Closure,
) -> Result<(), AllocError> {
    let outputs = output_names(alloc, shelf, builds)?;
    close_over(alloc, of, shelf, builds, &outputs, closure)
}

/// Takes the base chroots, and what builds want.
fn take_there(
    alloc: Global,
    of: Given,
    shelf: &mut Shelf,
    builds: &[Build],
) -> Result<There, Stop> {
    let mut closure = Closure::new(alloc);
    let chroots = read_chroots(alloc, of, shelf, &mut closure.begin)?;
    close(alloc, of, shelf, builds, &mut closure)?;
    Ok(There { chroots, closure })
}

/// Numbers builds behind what is there at the beginning.
fn number(
    alloc: Global,
    shelf: &Shelf,
    builds: &[Build],
    closure: &Closure,
) -> Result<Numbered, Stop> {
    let begin = variants_of(alloc, shelf, &closure.begin)?;
    let mut variants = variants_of(alloc, shelf, &closure.begin)?;
    let counts = count_builds(alloc, shelf, &mut variants, builds)?;
    Ok(Numbered {
        begin,
        variants,
        counts,
    })
}

/// Takes of the indexes what a wish wants, beside the builds of its recipes.
///
/// # Errors
///
/// The refusal 705 of the first chroot that has one.
pub fn take(
    alloc: Global,
    of: Given,
    shelf: &mut Shelf,
    builds: Vec<Build>,
) -> Result<Taken, Stop> {
    let there = take_there(alloc, of, shelf, &builds)?;
    let numbered = number(alloc, shelf, &builds, &there.closure)?;
    Ok(Taken {
        builds,
        there,
        numbered,
    })
}
