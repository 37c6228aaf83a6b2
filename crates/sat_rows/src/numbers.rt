//! The numbers of the entries of each variant and of each recipe among the distinct ones.

ghost use Rattle.std.specs.Prelude.{◌≡◌, ◌<◌, IfOk, OnOk, length, slice_index_or};
ghost use Rattle.std.specs.List.{AllZip};
ghost use Rattle.farm_model.specs.Common.{names, recipe, IsKnown};
ghost use Rattle.sat_rows.specs.Entries.{IsGrown, IsNumberOf, AreNumbers, AreVariantNumbers, AreNeeds, no_numbers};
ghost use Rattle.sat_rows.specs.ByVariant.{AreValuesOfName};

use crate::entries::Entries;
use crate::word::variant_count;
use deb_relation::Relations;
use farm_universe::{Universe, Variant};
use std::alloc::{AllocError, Global};
use std::marker::Model;

/// The numbers of the entries of a variant.
#[derive(Drop)]
pub struct Numbers {
    pre_depends: Vec<usize>,
    depends: Vec<usize>,
}

impl Model for Numbers {
    ghost use Rattle.sat_rows.specs.Entries as entries;

    ghost Value = { entries.Numbers };

    ghost view = { λ numbers. record {
      pre_depends = numbers.pre_depends.items;
      depends = numbers.depends.items;
    } };
}

impl Numbers {
    /// The numbers of an entry of Pre-Depends.
    pub fn pre_depends(&self, number: usize) -> usize
        requires { number < length self.now.pre_depends }
        ensures { result ≡ slice_index_or self.now.pre_depends number 0 }
    {
        self.pre_depends[number]
    }

    /// The number of an entry of Depends.
    pub fn depends(&self, number: usize) -> usize
        requires { number < length self.now.depends }
        ensures { result ≡ slice_index_or self.now.depends number 0 }
    {
        self.depends[number]
    }

    /// The numbers of all entries of Pre-Depends.
    pub fn all_pre_depends(&self) -> &[usize]
        ensures { result.now ≡ self.now.pre_depends }
    {
        &self.pre_depends
    }

    /// The numbers of all entries of Depends.
    pub fn all_depends(&self) -> &[usize]
        ensures { result.now ≡ self.now.depends }
    {
        &self.depends
    }
}

/// The numbers of the variants of one name.
#[derive(Drop)]
pub struct NameNumbers {
    variants: Vec<Numbers>,
}

impl Model for NameNumbers {
    ghost use Rattle.std.specs.Prelude.{List};
    ghost use Rattle.sat_rows.specs.Entries as entries;

    ghost Value = { List entries.Numbers };

    ghost view = { λ numbers. numbers.variants.items };
}

impl NameNumbers {
    /// The numbers of the variant with this bit.
    pub fn variant(&self, bit: u32) -> &Numbers
        requires { bit < length self.now }
        ensures { result.now ≡ slice_index_or self.now bit no_numbers }
    {
        &self.variants[bit as usize]
    }

    /// How many entries the variants have.
    pub fn entries(&self) -> usize {
        let mut count = 0usize;
        for numbers in &self.variants {
            count = count
                .saturating_add(numbers.pre_depends.len())
                .saturating_add(numbers.depends.len());
        }
        count
    }
}

/// The numbers of the needs of a recipe.
#[derive(Drop)]
pub struct Needs {
    needs: Vec<usize>,
}

impl Model for Needs {
    ghost use Rattle.std.specs.Prelude.{List, ℕ};

    ghost Value = { List ℕ };

    ghost view = { λ numbers. numbers.needs.items };
}

impl Needs {
    /// The number of a need.
    pub fn need(&self, number: usize) -> usize
        requires { number < length self.now }
        ensures { result ≡ slice_index_or self.now number 0 }
    {
        self.needs[number]
    }
}

impl<'a> Entries<'a> {
    /// The numbers of the entries of a field.
    fn field(&mut self, alloc: Global, field: &'a Relations) -> Result<Vec<usize>, AllocError>
        ensures grown { OnOk result (IsGrown self.old self.new) }
        ensures numbers { IfOk result (λ numbers. AllZip
            (IsNumberOf self.new) field.now numbers.items) }
    {
        let mut numbers = Vec::with_capacity(alloc, field.entries().len())?;
        for entry in field.entries() {
            numbers.push(self.number(entry.alternatives())?)?;
        }
        Ok(numbers)
    }

    fn variant(
        &mut self,
        alloc: Global,
        universe: &'a Universe,
        variant: Variant,
    ) -> Result<Numbers, AllocError>
        requires { IsKnown universe.now variant }
        ensures grown { OnOk result (IsGrown self.old self.new) }
        ensures numbers { IfOk result (AreNumbers universe.now self.new variant) }
    {
        let relations = universe.relations(variant);
        let pre_depends = self.field(alloc, &relations.pre_depends)?;
        let depends = self.field(alloc, &relations.depends)?;
        Ok(Numbers {
            pre_depends,
            depends,
        })
    }

    fn name(
        &mut self,
        alloc: Global,
        universe: &'a Universe,
        name: u32,
    ) -> Result<NameNumbers, AllocError>
        requires { name < names universe.now }
        ensures grown { OnOk result (IsGrown self.old self.new) }
        ensures numbers { IfOk result
            (AreValuesOfName universe.now (AreNumbers universe.now self.new) no_numbers name) }
    {
        let mut variants = Vec::with_capacity(alloc, variant_count(universe, name) as usize)?;
        for bit in 0..variant_count(universe, name) {
            variants.push(self.variant(alloc, universe, Variant { name, bit })?)?;
        }
        Ok(NameNumbers { variants })
    }

    /// The numbers of the entries of Pre-Depends and Depends of each variant.
    pub fn names(
        &mut self,
        alloc: Global,
        universe: &'a Universe,
    ) -> Result<Vec<NameNumbers>, AllocError>
        ensures grown { OnOk result (IsGrown self.old self.new) }
        ensures numbers { IfOk result
            (λ numbers. AreVariantNumbers universe.now self.new numbers.items) }
    {
        let mut names = Vec::with_capacity(alloc, universe.names() as usize)?;
        for name in 0..universe.names() {
            names.push(self.name(alloc, universe, name)?)?;
        }
        Ok(names)
    }

    /// The numbers of the needs of each recipe.
    pub fn recipes(
        &mut self,
        alloc: Global,
        universe: &'a Universe,
    ) -> Result<Vec<Needs>, AllocError>
        ensures grown { OnOk result (IsGrown self.old self.new) }
        ensures numbers { IfOk result
            (λ numbers. AreNeeds universe.now self.new numbers.items) }
    {
        let mut recipes = Vec::with_capacity(alloc, universe.recipes() as usize)?;
        for number in 0..universe.recipes() {
            let needs = self.field(alloc, universe.recipe(number).needs())?;
            recipes.push(Needs { needs })?;
        }
        Ok(recipes)
    }
}
