//! What a wish that leaves a choice asks for.

use deb_profile::{ArchNames, ProfileSet, reduce};
use deb_relation::{Kind, Relations};
use farm_model::Mode;
use import_closure::Build;
use import_farm::Read;
use import_wish::{MOST_CAPACITY, Wish, WishedRecipe};
use stage_answers::WishedBase;
use stage_builds::{Asked, Bases, OwnBuild, Scope};
use std::alloc::{AllocError, Global};

/// A wish that leaves a choice, as it was read with the indexes; the mode and the profiles of each build
/// that is chosen; and the names of recipes that are forbidden.
#[derive(Clone, Copy)]
pub struct Left<'a> {
    pub alloc: Global,
    pub read: Read<'a>,
    pub mode: Mode,
    pub profiles: &'a [u8],
    pub forbidden: &'a [&'a str],
}

/// The profiles of a wish as sets: its stages, those of each build that is chosen, and those of its own
/// recipes, where they do not say them.
#[derive(Drop)]
pub struct Sets {
    stages: ProfileSet,
    chosen: ProfileSet,
    own: ProfileSet,
}

fn set_of(alloc: Global, text: &[u8]) -> Result<ProfileSet, AllocError> {
    match ProfileSet::parse(alloc, text) {
        Ok(set) => Ok(set),
        Err(_) => Err(AllocError),
    }
}

/// The profiles of a wish as sets.
pub fn sets_of(alloc: Global, left: Left) -> Result<Sets, AllocError> {
    let head = &left.read.of.wish.head;
    Ok(Sets {
        stages: set_of(alloc, head.wanted.stages)?,
        chosen: set_of(alloc, left.profiles)?,
        own: set_of(alloc, head.profiles)?,
    })
}

/// The packages of the base chroot that stands where the wish names none.
pub fn build_essential(alloc: Global) -> Result<Relations, AllocError> {
    match Relations::parse(alloc, b"build-essential", Kind::Need) {
        Ok(packages) => Ok(packages),
        Err(_) => Err(AllocError),
    }
}

/// The base chroots of a wish, or the one that stands where it names none.
pub fn bases_of<'a>(
    alloc: Global,
    wish: &'a Wish,
    standard: &'a Relations,
) -> Result<Vec<WishedBase<'a>>, AllocError> {
    let mut bases = Vec::new(alloc);
    for chroot in &wish.items.chroots {
        bases.push(WishedBase {
            name: &chroot.name,
            capacity: chroot.capacity,
            packages: &chroot.packages,
        })?;
    }
    if bases.is_empty() {
        bases.push(WishedBase {
            name: b"buildd",
            capacity: MOST_CAPACITY,
            packages: standard,
        })?;
    }
    Ok(bases)
}

/// What a wish asks for, as the architecture leaves it: its targets, what is to be there at the
/// beginning, and the packages of base chroots.
#[derive(Drop)]
pub struct Reduced {
    targets: Relations,
    archive: Option<Relations>,
    chroots: Vec<Relations>,
}

fn left_of(
    alloc: Global,
    architectures: &ArchNames,
    field: &Relations,
) -> Result<Relations, AllocError> {
    reduce(alloc, field, architectures, &ProfileSet::none(alloc))
}

fn reduced_option(
    alloc: Global,
    architectures: &ArchNames,
    field: Option<&Relations>,
) -> Result<Option<Relations>, AllocError> {
    match field {
        Some(field) => Ok(Some(left_of(alloc, architectures, field)?)),
        None => Ok(None),
    }
}

fn reduced_chroots(
    alloc: Global,
    architectures: &ArchNames,
    bases: &[WishedBase],
) -> Result<Vec<Relations>, AllocError> {
    let mut chroots = Vec::new(alloc);
    for base in bases {
        chroots.push(left_of(alloc, architectures, base.packages)?)?;
    }
    Ok(chroots)
}

fn or_none(alloc: Global, field: Option<Relations>) -> Relations {
    match field {
        Some(field) => field,
        None => Relations::from_entries(Vec::new(alloc)),
    }
}

/// What a wish with these base chroots asks for, as the architecture leaves it.
pub fn reduced_of(alloc: Global, left: Left, bases: &[WishedBase]) -> Result<Reduced, AllocError> {
    let names = left.read.of.architectures;
    let head = &left.read.of.wish.head;
    let targets = reduced_option(alloc, names, head.wanted.targets.as_ref())?;
    Ok(Reduced {
        targets: or_none(alloc, targets),
        archive: reduced_option(alloc, names, head.archive.as_ref())?,
        chroots: reduced_chroots(alloc, names, bases)?,
    })
}

/// The recipes that a wish has itself, with their builds.
pub fn own_builds<'a>(
    alloc: Global,
    recipes: &'a [WishedRecipe],
    builds: &'a [Build],
) -> Result<Vec<OwnBuild<'a>>, AllocError> {
    let mut own = Vec::new(alloc);
    for (recipe, build) in recipes.iter().zip(builds) {
        own.push(OwnBuild { recipe, build })?;
    }
    Ok(own)
}

/// What a wish asks for, prepared for a choice: its profiles as sets, what it asks for as the architecture
/// leaves it, and the recipes that it has itself, with their builds.
#[derive(Drop)]
pub struct Prepared<'a> {
    pub sets: Sets,
    pub reduced: Reduced,
    pub own: Vec<OwnBuild<'a>>,
}

/// What a choice looks at.
pub fn scope_of<'a>(alloc: Global, left: Left<'a>, prepared: &'a Prepared<'a>) -> Scope<'a> {
    let of = left.read.of;
    let wish = of.wish;
    let packages = of.packages;
    Scope {
        alloc,
        asked: Asked {
            targets: &prepared.reduced.targets,
            stages: wish.head.wanted.stages,
            stage_set: &prepared.sets.stages,
            finish: wish.head.wanted.finish,
            profiles: left.profiles,
            bases: Bases {
                chosen: &prepared.sets.chosen,
                own: &prepared.sets.own,
            },
            mode: left.mode,
            archive: prepared.reduced.archive.as_ref(),
            chroots: &prepared.reduced.chroots,
            own: &prepared.own,
        },
        target: &packages.target,
        archive: packages.archive(),
        architectures: of.architectures,
    }
}
