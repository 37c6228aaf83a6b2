//! The entries of a farm: who meets them, once for all that are written alike.

use crate::found::Found;
use crate::looks::{recipe_of, relations_of};
use crate::satisfying::Ground;
use deb_relation::{Atom, Relations, hash_of_entry, is_same_entry};
use draft_search::{Entries, Lists, at, put};
use farm_universe::Variant;
use std::alloc::{AllocError, Global};

/// Where no entry is.
const NONE: usize = usize::MAX;

/// How many places there are at least in which entries are looked up.
const PLACES: usize = 65_536;

/// An entry that has a list.
#[derive(Drop)]
struct Distinct<'a> {
    atoms: &'a [Atom],
    /// The one before it at its place.
    before: usize,
}

/// The lists of who meets entries, each made when the first such entry is looked at.
#[derive(Drop)]
pub(crate) struct EntryLists<'a> {
    alloc: Global,
    ground: Ground<'a>,
    found: Found,
    distinct: Vec<Distinct<'a>>,
    /// The last entry at each place.
    last: Vec<usize>,
}

impl<'a> EntryLists<'a> {
    /// No lists, over a universe of so many variants.
    pub(crate) fn new(
        alloc: Global,
        ground: Ground<'a>,
        variants: usize,
    ) -> Result<EntryLists<'a>, AllocError> {
        Ok(EntryLists {
            alloc,
            ground,
            found: Found::new(alloc, ground.universe, variants)?,
            distinct: Vec::new(alloc),
            last: vec![in alloc; NONE; PLACES]?,
        })
    }

    /// The list of an entry that is written like this one, among those at a place.
    fn same(&self, place: usize, atoms: &[Atom]) -> Option<usize> {
        let mut number = at(&self.last, place, NONE);
        for _ in 0..self.distinct.len() {
            let distinct = self.distinct.get(number)?;
            if is_same_entry(distinct.atoms, atoms) {
                return Some(number);
            }
            number = distinct.before;
        }
        None
    }

    /// The number of the list of an entry.
    ///
    /// # Errors
    ///
    /// [`AllocError`] where memory is refused, or there are too many items.
    pub(crate) fn list(&mut self, atoms: &'a [Atom]) -> Result<usize, AllocError> {
        let hash = hash_of_entry(atoms) as usize;
        let place = hash.checked_rem(self.last.len()).unwrap_or(0);
        if let Some(number) = self.same(place, atoms) {
            return Ok(number);
        }
        self.ground.find(&mut self.found, atoms)?;
        let number = self.found.close()?;
        let before = at(&self.last, place, NONE);
        self.distinct.push(Distinct { atoms, before })?;
        put(&mut self.last, place, number);
        Ok(number)
    }

    /// The lists so far.
    pub(crate) fn lists(&self) -> &Lists {
        self.found.lists()
    }

    /// The numbers of the lists of a field's entries, each once, in their order.
    ///
    /// # Errors
    ///
    /// [`AllocError`] where memory is refused, or there are too many items.
    pub(crate) fn lists_of(&mut self, field: &'a Relations) -> Result<Vec<usize>, AllocError> {
        let mut all = Vec::new(self.alloc);
        for entry in field.entries() {
            all.push(self.list(entry.alternatives())?)?;
        }
        all.sort()?;
        let mut lists = Vec::new(self.alloc);
        for list in &all {
            if lists.last() != Some(list) {
                lists.push(*list)?;
            }
        }
        Ok(lists)
    }

    /// Gives the lists out.
    pub(crate) fn into_lists(self) -> Lists {
        let EntryLists { found, .. } = self;
        found.into_lists()
    }
}

/// The entries of variants and recipes by number, without the lists of who meets them.
#[derive(Drop)]
pub(crate) struct Numbered {
    list: Vec<usize>,
    is_only: Vec<bool>,
    of_variant: Lists,
    pre_depends: Vec<usize>,
    of_recipe: Lists,
}

impl Numbered {
    fn new(alloc: Global) -> Numbered {
        Numbered {
            list: Vec::new(alloc),
            is_only: Vec::new(alloc),
            of_variant: Lists::new(alloc),
            pre_depends: Vec::new(alloc),
            of_recipe: Lists::new(alloc),
        }
    }

    /// Gives the next numbers to the entries of a field, and puts them into a list.
    fn add<'a>(
        list: &mut Vec<usize>,
        is_only: &mut Vec<bool>,
        owners: &mut Lists,
        lists: &mut EntryLists<'a>,
        field: &'a Relations,
    ) -> Result<(), AllocError> {
        for entry in field.entries() {
            owners.push(list.len())?;
            list.push(lists.list(entry.alternatives())?)?;
            is_only.push(entry.len() == 1)?;
        }
        Ok(())
    }

    /// Numbers what a variant needs.
    fn add_variant<'a>(
        &mut self,
        lists: &mut EntryLists<'a>,
        variant: Variant,
    ) -> Result<(), AllocError> {
        let mut pre_depends = 0;
        if let Some(relations) = relations_of(lists.ground.universe, variant) {
            let before = &relations.pre_depends;
            pre_depends = before.len();
            let (list, only, owners) = (&mut self.list, &mut self.is_only, &mut self.of_variant);
            Numbered::add(list, only, owners, lists, before)?;
            Numbered::add(list, only, owners, lists, &relations.depends)?;
        }
        self.pre_depends.push(pre_depends)?;
        self.of_variant.close()
    }

    /// Numbers what a recipe needs.
    fn add_recipe<'a>(
        &mut self,
        lists: &mut EntryLists<'a>,
        recipe: u32,
    ) -> Result<(), AllocError> {
        if let Some(recipe) = recipe_of(lists.ground.universe, recipe) {
            Numbered::add(
                &mut self.list,
                &mut self.is_only,
                &mut self.of_recipe,
                lists,
                recipe.needs(),
            )?;
        }
        self.of_recipe.close()
    }

    /// Numbers what all variants and recipes need.
    ///
    /// # Errors
    ///
    /// [`AllocError`] where memory is refused, or there are too many items.
    pub(crate) fn all(
        alloc: Global,
        lists: &mut EntryLists<'_>,
        variants: &[Variant],
    ) -> Result<Numbered, AllocError> {
        let mut numbered = Numbered::new(alloc);
        for variant in variants {
            numbered.add_variant(lists, *variant)?;
        }
        for recipe in 0..lists.ground.universe.recipes() {
            numbered.add_recipe(lists, recipe)?;
        }
        Ok(numbered)
    }

    /// The entries with the lists of who meets them.
    pub(crate) fn with(self, meets: Lists) -> Entries {
        let Numbered {
            list,
            is_only,
            of_variant,
            pre_depends,
            of_recipe,
        } = self;
        Entries {
            meets,
            list,
            is_only,
            of_variant,
            pre_depends,
            of_recipe,
        }
    }
}
