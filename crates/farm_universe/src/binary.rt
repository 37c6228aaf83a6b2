//! What is known of one version of a package.

ghost use Rattle.std.specs.Prelude.{◌≡◌, ◌≤◌, true, nat_le, ◌-◌, SomeIff, OnOk, IfOk, position, length};
ghost use Rattle.std.specs.List.{list_all, list_any, position_or_len};
ghost use Rattle.deb_text.specs.Groups.{in_order};
ghost use Rattle.farm_universe.specs.Bare.{AllStayWhole};
ghost use Rattle.farm_universe.specs.Land.{reduced_package};
ghost use Rattle.farm_universe.specs.PackagesText.{entry_count, is_below, is_same};
ghost use Rattle.farm_universe.specs.TableView.{Rises};

use crate::limits::MOST_ENTRIES;
use crate::reduction::reduce_relations;
use deb_profile::{ArchNames, is_bare};
use deb_relation::Relations;
use deb_version::Version;
use std::alloc::{AllocError, AllocFailed, Global};
use std::marker::Model;

/// The relation fields of a package (Debian Policy 7).
#[derive(Drop)]
pub struct PackageRelations {
    pub pre_depends: Relations,
    pub depends: Relations,
    pub conflicts: Relations,
    pub breaks: Relations,
    pub provides: Relations,
}

/// What is known of one version of a package.
#[derive(Drop)]
pub struct Package {
    version: Version,
    size: u64,
    essential: bool,
    relations: PackageRelations,
    /// That the fields stay as they are in a reduction. This is found out as they are read, while
    /// they are at hand.
    is_whole: bool,
}

impl Model for Package {
    ghost use Rattle.std.specs.Prelude.{◌≡◌, true};
    ghost use Rattle.farm_model.specs.Universe as universe;
    ghost use Rattle.farm_universe.specs.Bare.{AllStayWhole};

    ghost Value = { universe.Package };

    ghost view = { λ p. record {
      version = p.version;
      size = p.size;
      essential = p.essential;
      pre_depends = p.relations.pre_depends;
      depends = p.relations.depends;
      conflicts = p.relations.conflicts;
      breaks = p.relations.breaks;
      provides = p.relations.provides;
    } };

    ghost invariant = { λ p. p.is_whole ≡ true → AllStayWhole p.relations };
}

impl Package {
    /// A package of this version, with its Installed-Size in KiB.
    pub fn new(version: Version, size: u64, essential: bool, relations: PackageRelations) -> Package
        ensures { result ≡ record {
          version = version;
          size = size;
          essential = essential;
          pre_depends = relations.pre_depends;
          depends = relations.depends;
          conflicts = relations.conflicts;
          breaks = relations.breaks;
          provides = relations.provides;
        } }
    {
        Package {
            version,
            size,
            essential,
            is_whole: all_stay_whole(&relations),
            relations,
        }
    }

    /// Its version (Debian Policy 5.6.12).
    pub fn version(&self) -> &Version
        ensures { result.now ≡ self.now.version }
    {
        &self.version
    }

    /// Installed-Size, in KiB.
    pub fn size(&self) -> u64
        ensures { result ≡ self.now.size }
    {
        self.size
    }

    /// Whether it must not be removed (Debian Policy 3.8).
    pub fn is_essential(&self) -> bool
        ensures { result ≡ self.now.essential }
    {
        self.essential
    }

    /// Its relation fields (Debian Policy 7).
    pub fn relations(&self) -> &PackageRelations
        ensures { result.now ≡ record {
          pre_depends = self.now.pre_depends;
          depends = self.now.depends;
          conflicts = self.now.conflicts;
          breaks = self.now.breaks;
          provides = self.now.provides;
        } }
    {
        &self.relations
    }

    /// Reduces its relation fields where they stand (Debian Policy 7.1).
    ///
    /// # Errors
    ///
    /// Where memory is refused. Some of the fields are then reduced.
    #[tactic(auto, using(crate::proofs::BareLaws::stays_whole), unfolding(crate::specs::Land::reduced_package))]
    pub fn reduce(&mut self, alloc: Global, architectures: &ArchNames) -> Result<(), AllocError>
        ensures { IfOk result (λ _. self.new ≡ reduced_package architectures.now self.old) }
    {
        if self.is_whole {
            return Ok(());
        }
        reduce_relations(alloc, &mut self.relations, architectures)
    }

    /// Tells whether its relation fields have at most this many entries.
    pub fn has_at_most(&self, most: usize) -> bool
        ensures { result ≡ nat_le (entry_count self.now) most }
    {
        let relations = &self.relations;
        room_behind(most, &relations.pre_depends)
            .and_then(|room| room_behind(room, &relations.depends))
            .and_then(|room| room_behind(room, &relations.conflicts))
            .and_then(|room| room_behind(room, &relations.breaks))
            .and_then(|room| room_behind(room, &relations.provides))
            .is_some()
    }

    /// How many entries its relation fields have.
    pub fn entry_count(&self) -> usize
        requires { entry_count self.now ≤ MOST_ENTRIES }
        ensures { result ≡ entry_count self.now }
    {
        let relations = &self.relations;
        relations.pre_depends.len()
            + relations.depends.len()
            + relations.conflicts.len()
            + relations.breaks.len()
            + relations.provides.len()
    }
}

/// Tells whether all fields stay as they are in a reduction: nothing in them could go.
#[tactic(auto, unfolding(crate::specs::Land::reduced_field))]
fn all_stay_whole(relations: &PackageRelations) -> bool
    ensures { result ≡ true → AllStayWhole relations.now }
{
    is_bare(&relations.pre_depends)
        && is_bare(&relations.depends)
        && is_bare(&relations.conflicts)
        && is_bare(&relations.breaks)
        && is_bare(&relations.provides)
}

/// What is left of some room behind the entries of a field, if they fit in it.
pub fn room_behind(room: usize, field: &Relations) -> Option<usize>
    ensures { SomeIff result (length field.now ≤ room) (room - length field.now) }
{
    room.checked_sub(field.len())
}

/// Tells whether two packages have the same version.
fn is_same(v: &Package, w: &Package) -> bool
    ensures { result ≡ is_same v.now w.now }
{
    v.version().compare(w.version()).is_eq()
}

fn is_below(v: &Package, w: &Package) -> bool
    ensures { result ≡ is_below v.now w.now }
{
    v.version().compare(w.version()).is_lt()
}

/// Tells whether the package is above all of these, each of which is above those before it. An
/// index mostly lists the versions of a name so.
fn is_newest(given: &[Package], binary: &Package) -> bool
    requires { Rises given.now }
    ensures { result ≡ true → list_all (λ v. is_below v binary.now) given.now ≡ true }
{
    given.is_empty() || is_below(&given[given.len() - 1], binary)
}

fn is_same_as_some(given: &[Package], binary: &Package) -> bool
    ensures { result ≡ list_any (is_same binary.now) given.now }
{
    given.iter().any(|v| is_same(binary, v))
}

/// Tells whether one of the packages has the version of this one.
pub fn is_given(given: &[Package], binary: &Package) -> bool
    requires { Rises given.now }
    ensures { result ≡ list_any (is_same binary.now) given.now }
{
    if is_newest(given, binary) {
        return false;
    }
    is_same_as_some(given, binary)
}

fn first_above(given: &[Package], binary: &Package) -> Option<usize>
    ensures { result ≡ position (is_below binary.now) given.now }
{
    given.iter().position(|v| is_below(binary, v))
}

/// The place of a package among others of its name.
fn place_for(given: &[Package], binary: &Package) -> usize
    requires { Rises given.now }
    ensures place { result ≡ position_or_len (is_below binary.now) given.now }
    ensures within { result ≤ length given.now }
{
    if is_newest(given, binary) {
        return given.len();
    }
    first_above(given, binary).unwrap_or(given.len())
}

/// Puts a package in its place among others of its name, by version.
///
/// # Errors
///
/// Where memory is refused, with the package.
pub fn insert_in_order(
    given: &mut Vec<Package>,
    binary: Package,
) -> Result<(), AllocFailed<Package>>
    requires { Rises given.old.items }
    ensures { OnOk result (given.new.items ≡ in_order is_below binary given.old.items) }
{
    let at = place_for(given, &binary);
    given.insert(at, binary)
}
