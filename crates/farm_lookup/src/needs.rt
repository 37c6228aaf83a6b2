//! The entries that nothing in a farm meets, and who asks for them.

ghost use Rattle.std.specs.Prelude.{◌≡◌, ◌++◌, ◌<◌, ◌≤◌, OnOk, IfOk};
ghost use Rattle.farm_model.specs.Common.{initial, names, variants, IsKnown};
ghost use Rattle.farm_lookup.specs.Unmet as unmet;

use crate::candidates::Candidates;
use crate::met::is_met;
use deb_relation::{Entry, Relations};
use farm_universe::{Universe, Variant};
use std::alloc::{AllocError, Global};

/// Who asks for something: what an archive is to hold, the recipe of a number, or a package.
#[derive(Clone, Copy, Debug, PartialEq, Eq)]
pub enum Asker {
    Archive,
    Recipe(u32),
    Package(Variant),
}

/// An entry that nothing meets, and who asks for it.
#[derive(Drop)]
pub struct Unmet {
    pub asker: Asker,
    pub entry: Entry,
}

/// How many variants a name has: none where the universe does not have the name.
#[tactic(auto, using(farm_universe::proofs::PlaceLaws::no_variants))]
fn variant_count(universe: &Universe, name: u32) -> u32
    ensures number { result ≡ variants universe.now name }
    ensures few { result ≤ 64 }
{
    if name < universe.names() {
        universe.variants(name)
    } else {
        0
    }
}

/// Tells whether a variant is in the archive from the start.
#[tactic(auto, unfolding(farm_model::specs::Packages::initial, farm_model::specs::Packages::has_bit))]
fn is_initial(universe: &Universe, variant: Variant) -> bool
    requires name { variant.name < names universe.now }
    requires bit { variant.bit < 64 }
    ensures { result ≡ initial universe.now variant }
{
    universe.initial(variant.name) >> variant.bit & 1 == 1
}

/// Puts an entry behind those that nothing meets, if it is one.
fn push_entry(
    list: &mut Vec<Unmet>,
    universe: &Universe,
    candidates: &Candidates,
    asker: Asker,
    entry: &Entry,
) -> Result<(), AllocError>
    requires { candidates.now ≡ universe.now }
    ensures { OnOk result (list.new.items ≡ list.old.items
        ++ unmet.of_entry universe.now asker entry.now) }
{
    if !is_met(universe, candidates, entry) {
        let entry = entry.clone()?;
        list.push(Unmet { asker, entry })?;
    }
    Ok(())
}

/// The same of each entry of a field.
fn push_field(
    list: &mut Vec<Unmet>,
    universe: &Universe,
    candidates: &Candidates,
    asker: Asker,
    field: &Relations,
) -> Result<(), AllocError>
    requires { candidates.now ≡ universe.now }
    ensures { OnOk result (list.new.items ≡ list.old.items
        ++ unmet.of_field universe.now asker field.now) }
{
    for entry in field.entries() {
        push_entry(list, universe, candidates, asker, entry)?;
    }
    Ok(())
}

/// The same of what each recipe needs.
fn push_recipes(
    list: &mut Vec<Unmet>,
    universe: &Universe,
    candidates: &Candidates,
) -> Result<(), AllocError>
    requires { candidates.now ≡ universe.now }
    ensures { OnOk result (list.new.items ≡ list.old.items
        ++ unmet.of_recipes universe.now) }
{
    for number in 0..universe.recipes() {
        let recipe = universe.recipe(number);
        push_field(
            list,
            universe,
            candidates,
            Asker::Recipe(number),
            recipe.needs(),
        )?;
    }
    Ok(())
}

/// The same of what a package needs.
fn push_package(
    list: &mut Vec<Unmet>,
    universe: &Universe,
    candidates: &Candidates,
    variant: Variant,
) -> Result<(), AllocError>
    requires listed { candidates.now ≡ universe.now }
    requires known { IsKnown universe.now variant }
    ensures { OnOk result (list.new.items ≡ list.old.items
        ++ unmet.of_package universe.now variant) }
{
    let relations = universe.relations(variant);
    let asker = Asker::Package(variant);
    push_field(list, universe, candidates, asker, &relations.pre_depends)?;
    push_field(list, universe, candidates, asker, &relations.depends)
}

/// The same, if the package is in the archive from the start.
fn push_initial(
    list: &mut Vec<Unmet>,
    universe: &Universe,
    candidates: &Candidates,
    variant: Variant,
) -> Result<(), AllocError>
    requires listed { candidates.now ≡ universe.now }
    requires name { variant.name < names universe.now }
    requires known { IsKnown universe.now variant }
    requires few { variant.bit < 64 }
    ensures { OnOk result (list.new.items ≡ list.old.items
        ++ unmet.of_initial universe.now variant) }
{
    if is_initial(universe, variant) {
        push_package(list, universe, candidates, variant)?;
    }
    Ok(())
}

/// The same of each variant of a name.
fn push_name(
    list: &mut Vec<Unmet>,
    universe: &Universe,
    candidates: &Candidates,
    name: u32,
) -> Result<(), AllocError>
    requires listed { candidates.now ≡ universe.now }
    requires within { name < names universe.now }
    ensures { OnOk result (list.new.items ≡ list.old.items
        ++ unmet.of_name universe.now name) }
{
    for bit in 0..variant_count(universe, name) {
        push_initial(list, universe, candidates, Variant { name, bit })?;
    }
    Ok(())
}

/// The same of each name.
fn push_names(
    list: &mut Vec<Unmet>,
    universe: &Universe,
    candidates: &Candidates,
) -> Result<(), AllocError>
    requires { candidates.now ≡ universe.now }
    ensures { OnOk result (list.new.items ≡ list.old.items
        ++ unmet.of_names universe.now) }
{
    for name in 0..universe.names() {
        push_name(list, universe, candidates, name)?;
    }
    Ok(())
}

/// The same of what a package needs, if the universe has it.
#[tactic(auto, using(crate::proofs::NeedLaws::no_needs))]
fn push_known(
    list: &mut Vec<Unmet>,
    universe: &Universe,
    candidates: &Candidates,
    variant: Variant,
) -> Result<(), AllocError>
    requires { candidates.now ≡ universe.now }
    ensures { OnOk result (list.new.items ≡ list.old.items
        ++ unmet.of_package universe.now variant) }
{
    if variant.bit >= variant_count(universe, variant.name) {
        return Ok(());
    }
    push_package(list, universe, candidates, variant)
}

/// The same of what each of some packages needs.
fn push_packages(
    list: &mut Vec<Unmet>,
    universe: &Universe,
    candidates: &Candidates,
    more: &[Variant],
) -> Result<(), AllocError>
    requires { candidates.now ≡ universe.now }
    ensures { OnOk result (list.new.items ≡ list.old.items
        ++ unmet.of_packages universe.now more.now) }
{
    for variant in more {
        push_known(list, universe, candidates, *variant)?;
    }
    Ok(())
}

/// The same of all that is asked for.
fn push_all(
    list: &mut Vec<Unmet>,
    universe: &Universe,
    candidates: &Candidates,
    archive: &Relations,
    more: &[Variant],
) -> Result<(), AllocError>
    requires { candidates.now ≡ universe.now }
    ensures { OnOk result (list.new.items ≡ list.old.items
        ++ unmet.unmet_needs universe.now archive.now more.now) }
{
    push_field(list, universe, candidates, Asker::Archive, archive)?;
    push_recipes(list, universe, candidates)?;
    push_names(list, universe, candidates)?;
    push_packages(list, universe, candidates, more)
}

/// The entries that nothing in a universe meets, with who asks for them: of what its archive was to
/// hold, of what its recipes need, of what the packages need that are there from the start, and of
/// what further packages need. One of these that the universe does not have needs nothing.
pub fn unmet_needs(
    alloc: Global,
    universe: &Universe,
    archive: &Relations,
    more: &[Variant],
) -> Result<Vec<Unmet>, AllocError>
    ensures { IfOk result (λ list.
        list.items ≡ unmet.unmet_needs universe.now archive.now more.now) }
{
    let candidates = Candidates::of(alloc, universe)?;
    let mut list = Vec::new(alloc);
    push_all(&mut list, universe, &candidates, archive, more)?;
    Ok(list)
}
