//! The universe of a farm, as its three texts describe it.

ghost use Rattle.std.specs.Prelude.{◌≡◌, ◌<◌, ◌≤◌, ◌*◌, length, slice_index, slice_index_or, [], IfErr, IfSome};
ghost use Rattle.std.specs.Str.{bytes_eq};
ghost use Rattle.deb_text.specs.Common.{Gives, place_in};
ghost use Rattle.farm_universe.specs.Before.{Leaves, before_of, refused_for};
ghost use Rattle.farm_universe.specs.FarmView.{IsLand, IsYard, farm_view, land_view};
ghost use Rattle.farm_universe.specs.Items.{find_variant, item_variant};
ghost use Rattle.farm_universe.specs.Kept.{IsKept};
ghost use Rattle.farm_model.specs.Common.{names, variants, outputs, package_of, size, essential, pre_depends, depends, satisfies, is_wanted, recipe, base, initial, IsKnown};
ghost use Rattle.farm_universe.specs.UniverseText.{universe_of};

use crate::base::Base;
use crate::binary::{Package, PackageRelations};
use crate::farm::{Farm, Yard};
use crate::land::Land;
use crate::limits::{MOST_NAMES, MOST_VARIANTS};
use crate::list::{pinned, version_place};
use crate::package_table::{PackageTable, place_of};
use crate::recipe::Recipe;
use crate::recipes::RecipeList;
use crate::refused::Refused;
use crate::texts::{
    read_farm_text, read_farm_text_side_by_side, read_packages_beside_sources, read_packages_text,
    read_sources_text,
};
use deb_profile::ArchNames;
use deb_relation::{Atom, Entry, Facts, Op, in_relation, satisfies};
use deb_version::{Version, VersionRef};
use farm_model::Variant;
use indexmap::IndexSet;
use std::alloc::Global;
use std::marker::Model;
use std::thread::Threads;

/// The universe of a farm: names by number, the variants of each from the lowest version up,
/// recipes, base chroots, and the initial archive.
#[derive(Drop)]
pub struct Universe {
    names: IndexSet<Vec<u8>>,
    packages: Vec<Vec<Package>>,
    recipes: Vec<Recipe>,
    bases: Vec<Base>,
    initial: Vec<u64>,
    architectures: ArchNames,
}

impl Model for Universe {
    ghost use Rattle.deb_text.specs.Lists.{lists};
    ghost use Rattle.farm_model.specs.Universe as universe;
    ghost use Rattle.farm_universe.specs.Kept.{IsKept};

    ghost Value = { universe.Universe };

    ghost view = { λ u. record {
      names = lists u.names.keys;
      packages = lists u.packages.items;
      recipes = u.recipes.items;
      bases = u.bases.items;
      initial = u.initial.items;
      architectures = u.architectures;
    } };

    ghost invariant = { λ u. IsKept (record {
      names = lists u.names.keys;
      packages = lists u.packages.items;
      recipes = u.recipes.items;
      bases = u.bases.items;
      initial = u.initial.items;
      architectures = u.architectures;
    }) };
}

/// The universe that the farm text describes.
pub fn assemble(farm: Farm) -> Universe
    requires land { IsLand (land_view farm.land) }
    requires yard { IsYard (land_view farm.land) farm.yard }
    ensures { result ≡ farm_view farm }
{
    let Farm { land, yard } = farm;
    let Land {
        table,
        architectures,
        initial,
        ..
    } = land;
    let PackageTable {
        names,
        packages,
        ..
    } = table;
    let Yard { recipes, bases } = yard;
    let RecipeList { recipes, .. } = recipes;
    Universe {
        names,
        packages,
        recipes,
        bases,
        initial,
        architectures,
    }
}

impl Universe {
    /// Reads the three texts of a farm. Each is read as a whole, and then paragraph by paragraph.
    ///
    /// Names are numbered in the order of their first appearance in the packages text, and the
    /// variants of a name in the order of their versions (Debian Policy 5.6.12).
    ///
    /// # Errors
    ///
    /// The first fault, packages (file 1) before sources (2) before the farm (3), told at the
    /// first line of its paragraph. Of a text: 105 at line 0, 101 to 104 at the faulty line.
    ///
    /// Of a packages paragraph: 201, 121 of `Package`; 201, 111 to 114 of `Version`; 202 of
    /// `Installed-Size`, then of `Essential`; the faults of a relation field, 121 to 129, of
    /// `Pre-Depends`, `Depends`, `Conflicts`, `Breaks` and `Provides`; 203 for a version that the
    /// name has, 204 for too many of them, 210 for too many names or relation entries.
    ///
    /// Of a sources paragraph: 201, 121 of `Package`, or of `Source` where that is absent; 201, 111
    /// to 114 of `Version`; 121 to 130 of `Build-Depends`, `Build-Depends-Arch`,
    /// `Build-Depends-Indep`, and of `Build-Conflicts` and its two companions; 203 for a version
    /// that the source has, 210 for too many sources.
    ///
    /// Of the farm: 201 at line 0 where it has no paragraph. In the first 201, 131 of
    /// `Architecture-Names`, then the faults of a list of variants in `Archive`: those of the whole
    /// field, 121 to 128, and item by item 205 for one that names no variant and 203 for one that
    /// stands twice. In a later one with the field `Recipe` 121, 203 of it; 201, 121 to 128, 206 of
    /// `Source`; 202 of `Mode`; 131 of `Profiles`; 201, 202 of `Steps`; 202 of `Scratch`; of
    /// `Outputs` 208 where it has no item, a list's faults, and 207 where an output is taken; 210
    /// for too many recipes or entries of them. In each other one 201, 121, 203 of `Chroot`; 201,
    /// 202 of `Capacity`; a list's faults of `Packages`, and 209 where they are not settled; 210
    /// for too many chroots.
    ///
    /// 900 (file 0, line 0) as soon as memory is refused, ahead of every fault that would be found
    /// later.
    ///
    /// [`Refused::before`] has the packages and what the first paragraph of the farm says where a
    /// later one is refused, and the packages alone where the first one is.
    #[tactic(auto, unfolding(crate::specs::UniverseText::universe_of))]
    pub fn read(
        alloc: Global,
        packages: &[u8],
        sources: &[u8],
        farm: &[u8],
    ) -> Result<Universe, Refused>
        ensures read { Gives refused_for (λ u. u) result
            (universe_of packages.now sources.now farm.now) }
        ensures before { IfErr result
            (λ refused. Leaves refused (before_of packages.now sources.now farm.now)) }
    {
        let table = read_packages_text(alloc, packages)?;
        let sources = read_sources_text(alloc, sources)?;
        Ok(assemble(read_farm_text(alloc, table, sources, farm)?))
    }

    /// Reads the three texts of a farm as [`read`](Universe::read) does, by as many threads as
    /// there are processors, but what is short by one.
    ///
    /// # Errors
    ///
    /// Those of [`read`](Universe::read), by the order of the texts and not by which thread comes
    /// to one first.
    #[tactic(auto, unfolding(crate::specs::UniverseText::universe_of))]
    pub fn read_side_by_side(
        rt: &(impl Threads + Sync),
        alloc: Global,
        packages: &[u8],
        sources: &[u8],
        farm: &[u8],
    ) -> Result<Universe, Refused>
        ensures read { Gives refused_for (λ u. u) result
            (universe_of packages.now sources.now farm.now) }
        ensures before { IfErr result
            (λ refused. Leaves refused (before_of packages.now sources.now farm.now)) }
    {
        let (table, sources) = read_packages_beside_sources(rt, alloc, packages, sources);
        let table = table?;
        let sources = sources?;
        let farm = read_farm_text_side_by_side(rt, alloc, table, sources, farm)?;
        Ok(assemble(farm))
    }

    /// How many names of packages there are.
    #[tactic(auto, unfolding(farm_model::specs::Packages::names))]
    pub fn names(&self) -> u32
        ensures number { result ≡ names self.now }
        ensures kept { IsKept self.now }
    {
        self.packages.len() as u32
    }

    /// The name with this number.
    #[tactic(auto, unfolding(farm_model::specs::Packages::names))]
    pub fn name_text(&self, name: u32) -> &[u8]
        requires { name < names self.now }
        ensures { result.now ≡ slice_index_or self.now.names name [] }
    {
        &self.names[name as usize]
    }

    /// The number of a name.
    #[tactic(auto, unfolding(farm_model::specs::Packages::names))]
    pub fn find(&self, text: &[u8]) -> Option<u32>
        ensures number { result ≡ place_in bytes_eq self.now.names text.now }
        ensures within { IfSome result (λ name. name < names self.now) }
    {
        match place_of(&self.names, text) {
            Some(place) => Some(place as u32),
            None => None,
        }
    }

    /// The variant of a name with this version, however it is written.
    #[tactic(auto, unfolding(crate::specs::Items::find_variant, farm_model::specs::Packages::variants, farm_model::specs::Packages::package_of))]
    fn find_variant(&self, name: &[u8], version: &VersionRef) -> Option<Variant>
        ensures found { result ≡ find_variant self.now name.now version.now }
        ensures named { IfSome result (λ v. v.name < names self.now) }
        ensures known { IfSome result (IsKnown self.now) }
    {
        let name = self.find(name)?;
        let bit = version_place(self.packages_named(name), version)? as u32;
        Some(Variant { name, bit })
    }

    /// Gives the variant that an item of a list of variants names, as `gcc (= 14-1)`, however its
    /// version is written; `None` where it names none.
    #[tactic(auto, unfolding(crate::specs::Items::item_variant))]
    pub fn item_variant(&self, item: &Entry) -> Option<Variant>
        ensures found { result ≡ item_variant self.now item.now }
        ensures named { IfSome result (λ v. v.name < names self.now) }
        ensures known { IfSome result (IsKnown self.now) }
    {
        let (name, version) = pinned(item)?;
        self.find_variant(name, &version)
    }

    /// The packages of a name, from the lowest version up.
    #[tactic(auto, unfolding(farm_model::specs::Packages::names))]
    fn packages_named(&self, name: u32) -> &[Package]
        requires { name < names self.now }
        ensures packages { result.now ≡ slice_index_or self.now.packages name [] }
        ensures few { length result.now ≤ MOST_VARIANTS }
    {
        &self.packages[name as usize]
    }

    /// How many variants a name has.
    #[tactic(auto, unfolding(farm_model::specs::Packages::variants))]
    pub fn variants(&self, name: u32) -> u32
        requires { name < names self.now }
        ensures { result ≡ variants self.now name }
    {
        self.packages_named(name).len() as u32
    }

    #[tactic(auto, unfolding(farm_model::specs::Packages::variants, farm_model::specs::Packages::package_of))]
    fn package_of(&self, variant: Variant) -> &Package
        requires { IsKnown self.now variant }
        ensures { result.now ≡ package_of self.now variant }
    {
        &self.packages_named(variant.name)[variant.bit as usize]
    }

    /// The version of a variant.
    pub fn version(&self, variant: Variant) -> &Version
        requires { IsKnown self.now variant }
        ensures { result.now ≡ (package_of self.now variant).version }
    {
        self.package_of(variant).version()
    }

    /// The Installed-Size of a variant, in KiB.
    #[tactic(auto, unfolding(farm_model::specs::Packages::size))]
    pub fn size(&self, variant: Variant) -> u64
        requires { IsKnown self.now variant }
        ensures { result ≡ size self.now variant }
    {
        self.package_of(variant).size()
    }

    /// Tells whether a variant is Essential, so that it must not be removed (Debian Policy 3.8).
    #[tactic(auto, unfolding(farm_model::specs::Packages::essential))]
    pub fn essential(&self, variant: Variant) -> bool
        requires { IsKnown self.now variant }
        ensures { result ≡ essential self.now variant }
    {
        self.package_of(variant).is_essential()
    }

    /// The relation fields of a variant, reduced to the farm's architecture.
    #[tactic(auto, unfolding(farm_model::specs::Packages::depends, farm_model::specs::Packages::pre_depends))]
    pub fn relations(&self, variant: Variant) -> &PackageRelations
        requires { IsKnown self.now variant }
        ensures pre_depends { result.now.pre_depends ≡ pre_depends self.now variant }
        ensures depends { result.now.depends ≡ depends self.now variant }
        ensures conflicts { result.now.conflicts ≡ (package_of self.now variant).conflicts }
        ensures breaks { result.now.breaks ≡ (package_of self.now variant).breaks }
        ensures provides { result.now.provides ≡ (package_of self.now variant).provides }
    {
        self.package_of(variant).relations()
    }

    /// Tells whether a variant satisfies an alternative (Debian Policy 7.1 and 7.5).
    #[tactic(auto, unfolding(farm_model::specs::Packages::satisfies, farm_model::specs::Packages::facts))]
    pub fn satisfies(&self, variant: Variant, atom: &Atom) -> bool
        requires { IsKnown self.now variant }
        ensures { result ≡ satisfies self.now atom.now variant }
    {
        let binary = self.package_of(variant);
        let facts = Facts {
            name: self.name_text(variant.name),
            version: binary.version(),
            provides: &binary.relations().provides,
        };
        satisfies(&facts, atom)
    }

    /// Tells whether the version of a variant stands in a relation (Debian Policy 7.1).
    #[tactic(auto, unfolding(farm_model::specs::Packages::is_wanted))]
    pub fn is_wanted(&self, variant: Variant, relation: Option<(Op, VersionRef)>) -> bool
        requires { IsKnown self.now variant }
        ensures { result ≡ is_wanted self.now relation.entry variant }
    {
        in_relation(relation, &self.version(variant).view())
    }

    /// How many recipes there are.
    pub fn recipes(&self) -> u32
        ensures { result ≡ length self.now.recipes }
    {
        self.recipes.len() as u32
    }

    /// The recipe with this number.
    #[tactic(auto, unfolding(farm_model::specs::Packages::recipe))]
    pub fn recipe(&self, number: u32) -> &Recipe
        requires { number < length self.now.recipes }
        ensures { result.now ≡ recipe self.now number }
    {
        &self.recipes[number as usize]
    }

    #[tactic(auto, unfolding(farm_model::specs::Packages::recipe))]
    fn given_by(&self, recipe: u32) -> &[Variant]
        ensures { result.now ≡ outputs self.now recipe }
    {
        match self.recipes.get(recipe as usize) {
            Some(recipe) => recipe.outputs(),
            None => &[],
        }
    }

    /// The name of a recipe, empty for a number that is none's.
    #[tactic(auto, unfolding(farm_model::specs::Packages::recipe))]
    pub fn recipe_name(&self, number: u32) -> &[u8]
        ensures { result.now ≡ (recipe self.now number).name }
    {
        match self.recipes.get(number as usize) {
            Some(recipe) => recipe.name(),
            None => &[],
        }
    }

    /// What a recipe gives, in the order of publishing; nothing for a number that is none's.
    pub fn outputs(&self, recipe: u32) -> &[Variant]
        ensures outputs { result.now ≡ outputs self.now recipe }
        ensures few { length result.now ≤ MOST_NAMES * MOST_VARIANTS }
    {
        let _names = self.names();
        self.given_by(recipe)
    }

    /// How many base chroots there are.
    pub fn bases(&self) -> u32
        ensures { result ≡ length self.now.bases }
    {
        self.bases.len() as u32
    }

    /// The base chroot with this number.
    #[tactic(auto, unfolding(farm_model::specs::Packages::base))]
    pub fn base(&self, number: u32) -> &Base
        requires { number < length self.now.bases }
        ensures { result.now ≡ base self.now number }
    {
        &self.bases[number as usize]
    }

    /// The word of a name in the initial archive: bit b is set where variant b is in it.
    #[tactic(auto, unfolding(farm_model::specs::Packages::names))]
    pub fn initial(&self, name: u32) -> u64
        requires { name < names self.now }
        ensures { result ≡ slice_index self.now.initial name }
    {
        self.initial[name as usize]
    }

    /// Tells whether a variant is in the initial archive.
    #[tactic(auto, unfolding(farm_model::specs::Packages::initial, farm_model::specs::Packages::has_bit))]
    pub fn is_initial(&self, variant: Variant) -> bool
        requires name { variant.name < names self.now }
        requires bit { variant.bit < 64 }
        ensures { result ≡ initial self.now variant }
    {
        self.initial(variant.name) >> variant.bit & 1 == 1
    }

    /// The names of the farm's architecture, the wildcards that match it among them.
    pub fn arch_names(&self) -> &ArchNames
        ensures { result.now ≡ self.now.architectures }
    {
        &self.architectures
    }
}
