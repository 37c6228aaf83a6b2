//! What a choice of builds looks at.

use crate::own::OwnBuild;
use deb_profile::{ArchNames, ProfileSet};
use deb_relation::Relations;
use farm_model::Mode;
use import_closure::{Indexes, PackageNames};
use import_wish::Finish;
use std::alloc::Global;

/// The profiles that builds have in any case: those that are chosen, and the recipes that the wish has
/// itself, where it does not say them.
#[derive(Clone, Copy)]
pub struct Bases<'a> {
    pub chosen: &'a ProfileSet,
    pub own: &'a ProfileSet,
}

/// What a wish asks for by its targets. Its relations are those that the architecture leaves.
#[derive(Clone, Copy)]
pub struct Asked<'a> {
    pub targets: &'a Relations,
    /// The words of `Stages`, in their order and as a set.
    pub stages: &'a [u8],
    pub stage_set: &'a ProfileSet,
    pub finish: Finish,
    /// The profiles and the mode of each build that is chosen.
    pub profiles: &'a [u8],
    pub bases: Bases<'a>,
    pub mode: Mode,
    /// What is to be there at the beginning; all of the archive's index where nothing says it.
    pub archive: Option<&'a Relations>,
    /// The packages of each base chroot.
    pub chroots: &'a [Relations],
    /// The recipes that the wish has itself, in its order.
    pub own: &'a [OwnBuild<'a>],
}

/// What a choice looks at: what is asked, the names of the packages that builds give and of those
/// that are there at the beginning, and the names of the architecture.
#[derive(Clone, Copy)]
pub struct Scope<'a> {
    pub alloc: Global,
    pub asked: Asked<'a>,
    pub target: &'a PackageNames,
    pub archive: &'a PackageNames,
    pub architectures: &'a ArchNames,
}

impl<'a> Scope<'a> {
    /// The packages that builds give.
    pub(crate) fn indexes(self) -> Indexes<'a> {
        Indexes {
            names: self.target,
            architectures: self.architectures,
        }
    }
}
