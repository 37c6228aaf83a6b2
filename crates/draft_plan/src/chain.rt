//! Why an entry cannot be met.

use crate::about::About;
use crate::through::is_held;
use crate::written::push_need;
use deb_relation::{Atom, Entry};
use deb_text::push_pieces;
use draft_lanes::Ground;
use draft_search::{Ask, Clauses, Found, Search, at};
use farm_universe::Variant;
use plan_reader::push_entry;
use std::alloc::AllocError;

/// What could be there if all that is wanted were built.
#[derive(Clone, Copy)]
pub(crate) struct World<'a> {
    pub(crate) about: &'a About<'a>,
    /// By recipe: it is wanted; and 0.
    pub(crate) wanted: &'a [bool],
    pub(crate) zeros: &'a [usize],
}

/// An entry that cannot be met: of which variant, and where among its entries.
#[derive(Clone, Copy)]
struct Hopeless {
    variant: usize,
    place: usize,
    entry: usize,
}

/// What is asked of a search over a base chroot.
fn ask<'x>(
    world: World<'x>,
    ground: &'x Ground,
    needs: &'x [usize],
    clashes: &'x [usize],
    far: &'x [usize],
    more: &'x Clauses,
) -> Ask<'x> {
    Ask {
        farm: world.about.numbers,
        held: &ground.held,
        built: world.wanted,
        turn: far,
        known: None,
        keep: &ground.keep,
        needs,
        clashes,
        more,
        is_loose: false,
    }
}

impl<'a> World<'a> {
    /// Looks for what a base chroot is to hold, and for what helps it there; what is far by recipe is
    /// given. It is asked loosely where there is nothing else.
    pub(crate) fn look(
        self,
        search: &mut Search,
        ground: &Ground,
        needs: &[usize],
        clashes: &[usize],
        far: &[usize],
    ) -> Result<Found, AllocError> {
        let alloc = self.about.alloc;
        let more = Clauses::new(alloc);
        let ask = ask(self, ground, needs, clashes, far, &more);
        match search.find_any(ask)? {
            Found::Held(mut found) => {
                let helpers = ask.helpers(alloc, &found)?;
                found.extend_from_slice(&helpers)?;
                Ok(Found::Held(found))
            }
            Found::Nothing => Ok(Found::Nothing),
            Found::OutOfFuel => Ok(Found::OutOfFuel),
        }
    }

    /// Tells whether nothing can meet an entry over a base chroot.
    fn is_hopeless(
        self,
        search: &mut Search,
        ground: &Ground,
        entry: usize,
        clashes: &[usize],
    ) -> Result<bool, AllocError> {
        match self.look(search, ground, &[entry], clashes, self.zeros)? {
            Found::Nothing => Ok(true),
            Found::Held(_) | Found::OutOfFuel => Ok(false),
        }
    }

    /// Tells whether a variant is in the archive at the beginning, or some build gives it.
    fn may_be_there(self, variant: usize) -> bool {
        let facts = self.about.numbers.facts(variant);
        match facts.giver {
            Some((recipe, _)) => facts.is_initial || at(self.wanted, recipe, false),
            None => facts.is_initial,
        }
    }

    /// The first entry of a variant that nothing can meet.
    fn hopeless_of(
        self,
        search: &mut Search,
        ground: &Ground,
        variant: usize,
    ) -> Result<Option<Hopeless>, AllocError> {
        let entries = self.about.numbers.entries_of(variant);
        for (place, entry) in entries.iter().enumerate() {
            if self.is_hopeless(search, ground, *entry, &[])? {
                return Ok(Some(Hopeless {
                    variant,
                    place,
                    entry: *entry,
                }));
            }
        }
        Ok(None)
    }

    /// The entry at a place among those of a variant, Pre-Depends first.
    fn entry_of(self, variant: usize, place: usize) -> Option<&'a Entry> {
        let of = self.about.variant(variant);
        let universe = self.about.universe;
        if of.name >= universe.names() || of.bit >= universe.variants(of.name) {
            return None;
        }
        let relations = universe.relations(of);
        let before = relations.pre_depends.len();
        if place < before {
            relations.pre_depends.entries().get(place)
        } else {
            relations.depends.entries().get(place - before)
        }
    }

    /// The line of an entry of a variant.
    fn push_entry(self, text: &mut Vec<u8>, hopeless: Hopeless) -> Result<(), AllocError> {
        let Hopeless { variant, place, .. } = hopeless;
        self.about.push_variant(text, b"    ", variant)?;
        if place < self.about.numbers.pre_depends(variant) {
            push_pieces(text, &[b" Pre-Depends: "])?;
        } else {
            push_pieces(text, &[b" Depends: "])?;
        }
        if let Some(entry) = self.entry_of(variant, place) {
            push_entry(text, entry)?;
        }
        push_pieces(text, &[b"\n"])
    }

    /// Tells whether a variant is or provides what an alternative names, in any version.
    fn is_like(self, variant: Variant, atom: &Atom) -> bool {
        let universe = self.about.universe;
        if variant.name >= universe.names() || variant.bit >= universe.variants(variant.name) {
            return false;
        }
        let provides = &universe.relations(variant).provides;
        provides.entries().iter().any(|entry| entry
            .alternatives()
            .iter()
            .any(|item| item.name() == atom.name()))
    }

    /// Puts a line on each variant that is or provides what an alternative names and was not told
    /// before.
    fn push_like(
        self,
        text: &mut Vec<u8>,
        told: &mut Vec<usize>,
        atom: &Atom,
    ) -> Result<(), AllocError> {
        let universe = self.about.universe;
        let own = universe.find(atom.name());
        let numbers = self.about.numbers;
        for is_own in [true, false] {
            for number in 0..numbers.variants() {
                let variant = self.about.variant(number);
                let is_one = if is_own {
                    own == Some(variant.name)
                } else {
                    self.is_like(variant, atom)
                };
                if is_one && !told.contains(&number) {
                    told.push(number)?;
                    self.about.push_variant(text, b"    ", number)?;
                    push_pieces(text, &[b" does not satisfy it\n"])?;
                }
            }
        }
        Ok(())
    }

    /// The lines on an entry that nothing satisfies.
    fn push_nobody(self, text: &mut Vec<u8>, entry: Option<&Entry>) -> Result<(), AllocError> {
        let mut told = Vec::new(self.about.alloc);
        if let Some(entry) = entry {
            for atom in entry.alternatives() {
                self.push_like(text, &mut told, atom)?;
            }
        }
        if told.is_empty() {
            return push_pieces(text, &[b"    no package is or provides that\n"]);
        }
        Ok(())
    }

    /// Tells of those that would meet an entry what stands against each, up to the first that has
    /// an entry which nothing can meet: gives that.
    fn push_those(
        self,
        text: &mut Vec<u8>,
        search: &mut Search,
        ground: &Ground,
        seen: &mut Vec<usize>,
        entry: usize,
    ) -> Result<Option<Hopeless>, AllocError> {
        for variant in self.about.numbers.meets(entry) {
            if seen.contains(variant) {
                continue;
            }
            seen.push(*variant)?;
            if !self.may_be_there(*variant) && !is_held(self.about, ground, *variant) {
                self.about.push_variant(text, b"    ", *variant)?;
                let words = b" is not in the archive, and no build gives it\n";
                push_pieces(text, &[words])?;
                continue;
            }
            let hopeless = self.hopeless_of(search, ground, *variant)?;
            if hopeless.is_some() {
                return Ok(hopeless);
            }
            self.about.push_variant(text, b"    ", *variant)?;
            let words = b" cannot be there beside what stays in the chroot\n";
            push_pieces(text, &[words])?;
        }
        Ok(None)
    }

    /// The lines on why an entry cannot be met: who would meet it, and what stands against that,
    /// down to what is missing. Gives the entry with which they end.
    fn push_chain(
        self,
        text: &mut Vec<u8>,
        search: &mut Search,
        ground: &Ground,
        number: usize,
        written: Option<&'a Entry>,
    ) -> Result<Option<&'a Entry>, AllocError> {
        let mut seen = Vec::new(self.about.alloc);
        let mut entry = number;
        let mut written = written;
        for _ in 0..=self.about.numbers.variants() {
            if self.about.numbers.meets(entry).is_empty() {
                self.push_nobody(text, written)?;
                break;
            }
            match self.push_those(text, search, ground, &mut seen, entry)? {
                Some(hopeless) => {
                    self.push_entry(text, hopeless)?;
                    written = self.entry_of(hopeless.variant, hopeless.place);
                    entry = hopeless.entry;
                }
                None => break,
            }
        }
        Ok(written)
    }

    /// The lines of a recipe that nothing can make possible (801), over a base chroot. Gives the
    /// entry with which they end, if they end with one.
    pub(crate) fn push_never(
        self,
        text: &mut Vec<u8>,
        search: &mut Search,
        ground: Option<&Ground>,
        recipe: usize,
    ) -> Result<Option<&'a Entry>, AllocError> {
        let name = self.about.recipe_name(recipe);
        push_pieces(text, &[b"refused 801 recipe ", name, b"\n"])?;
        let Some(ground) = ground else {
            push_pieces(text, &[b"  the plan has no lane\n"])?;
            return Ok(None);
        };
        let clashes = self.about.numbers.clashes(recipe);
        for (place, entry) in self.about.numbers.needs(recipe).iter().enumerate() {
            if self.is_hopeless(search, ground, *entry, clashes)? {
                push_need(text, self.about, recipe, place)?;
                let written = self.need_of(recipe, place);
                return self.push_chain(text, search, ground, *entry, written);
            }
        }
        let words = b"  each of its Build-Depends can be met, and not all together\n";
        push_pieces(text, &[words])?;
        Ok(None)
    }

    /// The entry at a place among the needs of a recipe.
    fn need_of(self, recipe: usize, place: usize) -> Option<&'a Entry> {
        let number = u32::try_from(recipe).unwrap_or(u32::MAX);
        if number < self.about.universe.recipes() {
            self.about
                .universe
                .recipe(number)
                .needs()
                .entries()
                .get(place)
        } else {
            None
        }
    }
}
