//! All that a farm is to those that look for a plan.

use crate::lists::{Lists, at};

/// What is known of a variant.
#[derive(Clone, Copy)]
pub struct Facts {
    /// The number of its name, and its place among the name's versions, 0 for the lowest.
    pub name: usize,
    pub bit: usize,
    /// Its Installed-Size, in KiB.
    pub size: u64,
    pub is_essential: bool,
    /// It is in the archive at the beginning.
    pub is_initial: bool,
    /// The recipe that gives it, and its place among what that gives.
    pub giver: Option<(usize, usize)>,
}

/// What a recipe costs.
#[derive(Clone, Copy)]
pub struct RecipeFacts {
    /// The steps of the build.
    pub steps: u64,
    /// The disk space that the build takes beside the packages, in KiB.
    pub scratch: u64,
}

/// The entries of all variants and recipes, by number.
#[derive(Drop)]
pub struct Entries {
    /// Who meets an entry, once for all that are written alike. Those of its first alternative come
    /// first, and of each alternative those of its own name, the highest version first, before those
    /// that provide it.
    pub meets: Lists,
    /// By entry: the number of its list.
    pub list: Vec<usize>,
    /// By entry: it has one alternative alone.
    pub is_only: Vec<bool>,
    /// By variant: its entries, those of Pre-Depends first, and how many are of Pre-Depends.
    pub of_variant: Lists,
    pub pre_depends: Vec<usize>,
    /// By recipe: its needs.
    pub of_recipe: Lists,
}

/// Whom each variant excludes, by its number. None is of its own name.
#[derive(Drop)]
pub struct Exclusions {
    /// Those that it conflicts with, declared by either (Debian Policy 7.4).
    pub conflicts: Lists,
    /// Those that it breaks (Policy 7.3).
    pub breaks: Lists,
    /// Those that cannot be configured beside it: in conflict, broken by it or breaking it.
    pub excludes: Lists,
}

/// What the recipes and the base chroots of a farm name, by number.
#[derive(Drop)]
pub struct Builds {
    pub recipes: Vec<RecipeFacts>,
    /// By recipe: the variants that must be absent.
    pub clashes: Lists,
    /// By recipe: what it gives, in the order of publishing.
    pub outputs: Lists,
    /// By base chroot: its capacity in KiB.
    pub capacities: Vec<u64>,
    /// By base chroot: what is configured in it.
    pub bases: Lists,
}

/// A farm in plain numbers: variants, entries, recipes and base chroots by number. A number that
/// there is not has no items and no name.
#[derive(Drop)]
pub struct FarmNumbers {
    /// By name: the number of its first variant; behind the last name how many variants there are.
    pub first: Vec<usize>,
    pub variants: Vec<Facts>,
    pub entries: Entries,
    pub exclusions: Exclusions,
    pub builds: Builds,
    /// By variant: who else satisfies `NAME (= VERSION)` of it.
    pub twins: Lists,
}

impl FarmNumbers {
    /// How many names there are.
    pub fn names(&self) -> usize {
        self.first.len().saturating_sub(1)
    }

    /// How many variants there are.
    pub fn variants(&self) -> usize {
        self.variants.len()
    }

    /// How many entries there are.
    pub fn entries(&self) -> usize {
        self.entries.list.len()
    }

    /// How many recipes there are.
    pub fn recipes(&self) -> usize {
        self.builds.recipes.len()
    }

    /// How many base chroots there are.
    pub fn bases(&self) -> usize {
        self.builds.capacities.len()
    }

    /// What is known of a variant.
    pub fn facts(&self, variant: usize) -> Facts {
        at(
            &self.variants,
            variant,
            Facts {
                name: usize::MAX,
                bit: 0,
                size: 0,
                is_essential: false,
                is_initial: false,
                giver: None,
            },
        )
    }

    /// The name of a variant.
    pub fn name(&self, variant: usize) -> usize {
        self.facts(variant).name
    }

    /// The number of a variant of a name.
    pub fn number(&self, name: usize, bit: usize) -> usize {
        at(&self.first, name, usize::MAX).saturating_add(bit)
    }

    /// The number of the first variant of a name; the others follow.
    pub fn first(&self, name: usize) -> usize {
        at(&self.first, name, 0)
    }

    /// The number behind that of the last variant of a name.
    pub fn end(&self, name: usize) -> usize {
        at(&self.first, name.saturating_add(1), 0)
    }

    /// The entries of a variant, those of Pre-Depends first.
    pub fn entries_of(&self, variant: usize) -> &[usize] {
        self.entries.of_variant.of(variant)
    }

    /// How many entries of a variant are Pre-Depends.
    pub fn pre_depends(&self, variant: usize) -> usize {
        at(&self.entries.pre_depends, variant, 0)
    }

    /// Who meets an entry: those of its first alternative first, and of each alternative those of
    /// its own name, the highest version first, before those that provide it.
    pub fn meets(&self, entry: usize) -> &[usize] {
        self.entries
            .meets
            .of(at(&self.entries.list, entry, usize::MAX))
    }

    /// Tells whether an entry has one alternative alone.
    pub fn is_only(&self, entry: usize) -> bool {
        at(&self.entries.is_only, entry, false)
    }

    /// Those of other names that a variant conflicts with, declared by either.
    pub fn conflicts(&self, variant: usize) -> &[usize] {
        self.exclusions.conflicts.of(variant)
    }

    /// Those of other names that a variant breaks.
    pub fn breaks(&self, variant: usize) -> &[usize] {
        self.exclusions.breaks.of(variant)
    }

    /// Those of other names that cannot be configured beside a variant.
    pub fn excludes(&self, variant: usize) -> &[usize] {
        self.exclusions.excludes.of(variant)
    }

    /// Who else satisfies `NAME (= VERSION)` of a variant.
    pub fn twins(&self, variant: usize) -> &[usize] {
        self.twins.of(variant)
    }

    /// What a recipe costs.
    pub fn recipe(&self, recipe: usize) -> RecipeFacts {
        at(
            &self.builds.recipes,
            recipe,
            RecipeFacts {
                steps: 0,
                scratch: 0,
            },
        )
    }

    /// The entries that a recipe needs.
    pub fn needs(&self, recipe: usize) -> &[usize] {
        self.entries.of_recipe.of(recipe)
    }

    /// The variants that must be absent where a recipe is built.
    pub fn clashes(&self, recipe: usize) -> &[usize] {
        self.builds.clashes.of(recipe)
    }

    /// What a recipe gives, in the order of publishing.
    pub fn outputs(&self, recipe: usize) -> &[usize] {
        self.builds.outputs.of(recipe)
    }

    /// The KiB that a base chroot can hold.
    pub fn capacity(&self, base: usize) -> u64 {
        at(&self.builds.capacities, base, 0)
    }

    /// What is configured in a base chroot.
    pub fn base(&self, base: usize) -> &[usize] {
        self.builds.bases.of(base)
    }
}
