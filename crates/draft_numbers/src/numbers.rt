//! All that a farm is to those that look for a plan, made of its universe.

use crate::builds::{builds_of, note_givers};
use crate::entries::{EntryLists, Numbered};
use crate::exclusions::exclusions_of;
use crate::found::{Found, firsts};
use crate::looks::{all_variants, facts_of, version_of};
use crate::satisfying::{Ground, providers_of};
use deb_relation::{Atom, Op};
use draft_search::{Facts, FarmNumbers, Lists};
use farm_universe::{Universe, Variant};
use std::alloc::{AllocError, Global};

/// What is known of all variants.
fn all_facts(
    alloc: Global,
    ground: Ground<'_>,
    first: &[usize],
    all: &[Variant],
) -> Result<Vec<Facts>, AllocError> {
    let mut facts = Vec::new(alloc);
    for variant in all {
        facts.push(facts_of(ground.universe, *variant))?;
    }
    note_givers(ground, first, &mut facts);
    Ok(facts)
}

/// By variant: who else satisfies `NAME (= VERSION)` of it.
fn twins_of(alloc: Global, ground: Ground<'_>, all: &[Variant]) -> Result<Lists, AllocError> {
    let mut found = Found::new(alloc, ground.universe, all.len())?;
    for variant in all {
        if let Some((name, version)) = version_of(ground.universe, *variant) {
            let relation = Some((Op::Equal, version.view()));
            let atom = Atom::unrestricted(alloc, name, None, relation)?;
            found.keep_out(*variant);
            ground.find_one(&mut found, &atom)?;
        }
        let _ = found.close()?;
    }
    Ok(found.into_lists())
}

/// Makes the numbers over a universe and its Provides.
fn numbers_over(
    alloc: Global,
    ground: Ground<'_>,
    all: &[Variant],
) -> Result<FarmNumbers, AllocError> {
    let first = firsts(alloc, ground.universe)?;
    let variants = all_facts(alloc, ground, &first, all)?;
    let mut lists = EntryLists::new(alloc, ground, all.len())?;
    let numbered = Numbered::all(alloc, &mut lists, all)?;
    let exclusions = exclusions_of(alloc, ground, &mut lists, all, &variants)?;
    let builds = builds_of(alloc, ground, &mut lists, &first)?;
    Ok(FarmNumbers {
        first,
        variants,
        entries: numbered.with(lists.into_lists()),
        exclusions,
        builds,
        twins: twins_of(alloc, ground, all)?,
    })
}

/// Makes the numbers of a farm: variants go in the order of their names and versions, recipes and
/// base chroots in that of the farm text. Entries that are written alike share the list of who
/// meets them.
///
/// # Errors
///
/// [`AllocError`] where memory is refused, and where more than 16,777,216 variants stand in these
/// lists, exclude each other, or must be absent where recipes are built.
pub fn numbers_of(alloc: Global, universe: &Universe) -> Result<FarmNumbers, AllocError> {
    let all = all_variants(alloc, universe)?;
    let providers = providers_of(alloc, universe, &all)?;
    let ground = Ground {
        universe,
        providers: &providers,
    };
    numbers_over(alloc, ground, &all)
}
