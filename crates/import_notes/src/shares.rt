//! How many names each build takes: what is told where there are too many.

use deb_relation::{Entry, Relations};
use deb_text::push_pieces;
use import_closure::{Build, PackageNames, Shelf};
use import_farm::{Taken, Told, output_names, push_number};
use import_wish::WishedRecipe;
use std::alloc::{AllocError, Global};
use std::collections::{BTreeMap, BTreeSet};

/// How many names a build takes that no other one and no chroot takes, how many it takes, and the
/// name of its recipe.
#[derive(PartialEq, Eq, PartialOrd, Ord, Drop)]
struct Share {
    own: usize,
    whole: usize,
    recipe: Vec<u8>,
}

/// Of how many builds at most it is told.
const SHOWN: usize = 10;

/// The names of the indexes and of what builds give, and what was taken.
#[derive(Clone, Copy)]
struct Pools<'a> {
    archive: &'a PackageNames,
    outputs: &'a PackageNames,
    taken: &'a Taken,
}

/// By block what meets the entries of its package.
#[derive(Drop)]
struct Met {
    by_block: BTreeMap<u32, Vec<u32>>,
}

/// The blocks that meet an entry, of what is there at the beginning and of what builds give.
fn push_met(
    alloc: Global,
    shelf: &mut Shelf,
    pools: Pools,
    entry: &Entry,
    found: &mut Vec<u32>,
) -> Result<(), AllocError> {
    let there = shelf.best(alloc, pools.archive, entry)?;
    let given = shelf.best(alloc, pools.outputs, entry)?;
    for number in [there, given] {
        if let Some(number) = number {
            found.push(number)?;
        }
    }
    Ok(())
}

/// The blocks that meet the entries of fields.
fn met_by(
    alloc: Global,
    shelf: &mut Shelf,
    pools: Pools,
    fields: &[Relations],
) -> Result<Vec<u32>, AllocError> {
    let mut found = Vec::new(alloc);
    for field in fields {
        for entry in field.entries() {
            push_met(alloc, shelf, pools, entry, &mut found)?;
        }
    }
    Ok(found)
}

/// What the package of a block needs.
fn needs_of(alloc: Global, shelf: &Shelf, number: u32) -> Result<Vec<Relations>, AllocError> {
    let mut fields = Vec::new(alloc);
    if let Some(given) = shelf.given(number) {
        fields.push(given.relations.pre_depends.clone()?)?;
        fields.push(given.relations.depends.clone()?)?;
    }
    Ok(fields)
}

impl Met {
    /// Looks for what meets the entries of the package of a block, unless it was looked for.
    fn look(
        &mut self,
        alloc: Global,
        shelf: &mut Shelf,
        pools: Pools,
        number: u32,
    ) -> Result<(), AllocError> {
        if self.by_block.get(&number).is_none() {
            let fields = needs_of(alloc, shelf, number)?;
            let found = met_by(alloc, shelf, pools, &fields)?;
            self.by_block.insert(number, found)?;
        }
        Ok(())
    }
}

/// The blocks that a build takes, so far as they are known, each once.
#[derive(Drop)]
struct Walk {
    seen: BTreeSet<u32>,
    blocks: Vec<u32>,
}

impl Walk {
    /// Takes those of blocks that were taken, or are given by the build.
    fn take(&mut self, pools: Pools, build: &Build, found: &[u32]) -> Result<(), AllocError> {
        for number in found {
            if pools.taken.there.closure.begin.contains(number) || build.outputs.contains(number) {
                if self.seen.insert(*number)? {
                    self.blocks.push(*number)?;
                }
            }
        }
        Ok(())
    }
}

/// Takes what the packages of the blocks need that were taken, and what that needs.
fn close(
    alloc: Global,
    shelf: &mut Shelf,
    pools: Pools,
    met: &mut Met,
    build: &Build,
    walk: &mut Walk,
) -> Result<(), AllocError> {
    for at in 0..usize::MAX {
        let Some(number) = walk.blocks.get(at).copied() else {
            return Ok(());
        };
        met.look(alloc, shelf, pools, number)?;
        if let Some(found) = met.by_block.get(&number) {
            walk.take(pools, build, found)?;
        }
    }
    Err(AllocError)
}

/// The names of the packages of blocks.
fn push_names(
    alloc: Global,
    shelf: &Shelf,
    blocks: &[u32],
    names: &mut BTreeSet<Vec<u8>>,
) -> Result<(), AllocError> {
    for number in blocks {
        if let Some(given) = shelf.given(*number) {
            names.insert(Vec::from_slice(alloc, &given.name)?)?;
        }
    }
    Ok(())
}

/// The blocks that a build takes.
fn blocks_taken(
    alloc: Global,
    shelf: &mut Shelf,
    pools: Pools,
    met: &mut Met,
    build: &Build,
) -> Result<Walk, AllocError> {
    let mut walk = Walk {
        seen: BTreeSet::new(alloc),
        blocks: Vec::new(alloc),
    };
    let found = met_by(alloc, shelf, pools, &build.needs)?;
    walk.take(pools, build, &found)?;
    close(alloc, shelf, pools, met, build, &mut walk)?;
    Ok(walk)
}

/// The names that a build takes and gives.
fn names_taken(
    alloc: Global,
    shelf: &mut Shelf,
    pools: Pools,
    met: &mut Met,
    build: &Build,
) -> Result<BTreeSet<Vec<u8>>, AllocError> {
    let walk = blocks_taken(alloc, shelf, pools, met, build)?;
    let mut names = BTreeSet::new(alloc);
    push_names(alloc, shelf, &build.outputs, &mut names)?;
    push_names(alloc, shelf, &walk.blocks, &mut names)?;
    Ok(names)
}

/// By name how many builds take it.
#[derive(Drop)]
struct Counts {
    by_name: BTreeMap<Vec<u8>, u32>,
}

impl Counts {
    fn add(&mut self, alloc: Global, name: &[u8]) -> Result<(), AllocError> {
        if let Some(count) = self.by_name.get_mut(name) {
            *count = count.saturating_add(1);
            return Ok(());
        }
        self.by_name.insert(Vec::from_slice(alloc, name)?, 1)?;
        Ok(())
    }
}

/// What each build takes.
fn all_taken(
    alloc: Global,
    shelf: &mut Shelf,
    pools: Pools,
) -> Result<Vec<BTreeSet<Vec<u8>>>, AllocError> {
    let mut all = Vec::new(alloc);
    let mut met = Met {
        by_block: BTreeMap::new(alloc),
    };
    for build in &pools.taken.builds {
        all.push(names_taken(alloc, shelf, pools, &mut met, build)?)?;
    }
    Ok(all)
}

fn count_all(alloc: Global, all: &[BTreeSet<Vec<u8>>]) -> Result<Counts, AllocError> {
    let mut counts = Counts {
        by_name: BTreeMap::new(alloc),
    };
    for names in all {
        for name in names {
            counts.add(alloc, name)?;
        }
    }
    Ok(counts)
}

/// Tells whether a chroot holds a name.
fn is_base(taken: &Taken, name: &[u8]) -> bool {
    for chroot in &taken.there.chroots {
        if chroot.members.by_name.get(name).is_some() {
            return true;
        }
    }
    false
}

/// How many of the names one build alone takes, and no chroot.
fn own_of(taken: &Taken, counts: &Counts, names: &BTreeSet<Vec<u8>>) -> usize {
    let mut own: usize = 0;
    for name in names {
        if counts.by_name.get(name.as_slice()) == Some(&1) && !is_base(taken, name) {
            own = own.saturating_add(1);
        }
    }
    own
}

fn share_of(
    alloc: Global,
    taken: &Taken,
    counts: &Counts,
    wished: &WishedRecipe,
    names: &BTreeSet<Vec<u8>>,
) -> Result<Share, AllocError> {
    Ok(Share {
        own: own_of(taken, counts, names),
        whole: names.len(),
        recipe: Vec::from_slice(alloc, &wished.name)?,
    })
}

fn all_shares(
    alloc: Global,
    taken: &Taken,
    recipes: &[WishedRecipe],
    all: &[BTreeSet<Vec<u8>>],
) -> Result<Vec<Share>, AllocError> {
    let counts = count_all(alloc, all)?;
    let mut shares = Vec::new(alloc);
    for (wished, names) in recipes.iter().zip(all) {
        shares.push(share_of(alloc, taken, &counts, wished, names)?)?;
    }
    Ok(shares)
}

fn push_share(text: &mut Vec<u8>, share: &Share) -> Result<(), AllocError> {
    push_pieces(text, &[b"  recipe ", &share.recipe, b" needs "])?;
    push_number(text, share.whole as u64)?;
    text.extend_from_slice(b" names, ")?;
    push_number(text, share.own as u64)?;
    text.extend_from_slice(b" that nothing else needs\n")
}

/// Puts lines on the ten recipes that take the most names which nothing else needs behind a text.
pub fn push_shares(
    alloc: Global,
    text: &mut Vec<u8>,
    shelf: &mut Shelf,
    told: Told,
) -> Result<(), AllocError> {
    let outputs = output_names(alloc, shelf, &told.taken.builds)?;
    let pools = Pools {
        archive: told.read.of.packages.archive(),
        outputs: &outputs,
        taken: told.taken,
    };
    let all = all_taken(alloc, shelf, pools)?;
    let mut shares = all_shares(alloc, told.taken, &told.read.of.wish.items.recipes, &all)?;
    shares.sort()?;
    for share in shares.iter().rev().take(SHOWN) {
        push_share(text, share)?;
    }
    Ok(())
}
