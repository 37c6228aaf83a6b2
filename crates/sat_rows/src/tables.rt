//! The rows of every variant and of every recipe of a universe.

ghost use Rattle.std.specs.Prelude.{◌≡◌, ◌<◌, ◌↔◌, Bool, List, IsTrue, IfOk, length};
ghost use Rattle.bit_rows.specs.Sets.{variants_of, HaveCommon};
ghost use Rattle.farm_model.specs.Common.{names, pre_depends, depends, satisfies_entry, satisfies_any, IsKnown};
ghost use Rattle.farm_model.specs.declared.types.Variant.{Variant};
ghost use Rattle.farm_model.specs.Packages as packages;
ghost use Rattle.sat_rows.specs.Rows.{variant_passes, IsRowOf, IsSharedRow, nth_entry, conflicts_with, broken_by, breakers_of};
ghost use Rattle.sat_rows.specs.Index.{IsProviding};
ghost use Rattle.sat_rows.specs.Inside.{HasInside};
ghost use Rattle.deb_relation.specs.Relations as spec;
ghost use Rattle.sat_rows.specs.Entries.{AreVariantNumbers, AreRowsOf};
ghost use Rattle.sat_rows.specs.Served.{AreLong, AreServed, IsServing, IsMissed};
ghost use Rattle.sat_rows.specs.Links.{AreSets, IsExclusion};
ghost use Rattle.sat_rows.specs.Tables.{AreEntryRows, AreExclusions};

use crate::clashes::all_clashes;
use crate::entries::Entries;
use crate::entry_rows::{all_entry_rows, row_of_entry};
use crate::exclusion::Exclusion;
use crate::found::Found;
use crate::index::{Breaks, Conflicts, Provides, naming};
use crate::inside::has_name_inside;
use crate::numbers::{NameNumbers, Needs};
use crate::served::Served;
use crate::sets::all_sets;
use bit_rows::Row;
use deb_relation::{Atom, Entry};
use farm_universe::{Universe, Variant};
use item_index::ItemIndex;
use std::alloc::{AllocError, Global};
use std::marker::Model;
use std::snapshot::Snapshot;
use std::thread::{Threads, join};

/// Which variants satisfy the entries of each variant and of each recipe, and which exclude it. A
/// contract sees the universe that the rows are about. Entries with the same alternatives share a
/// row.
#[derive(Drop)]
pub struct Tables {
    universe: Snapshot<Universe>,
    /// Where the entries of each variant have their rows, and those of each recipe's needs.
    names: Vec<NameNumbers>,
    needs: Vec<Needs>,
    rows: Vec<Row>,
    served: Served,
    conflicts: Exclusion,
    breaks: Exclusion,
    clashes: Vec<Option<Row>>,
    providers: ItemIndex<Variant>,
    /// The row without variants, for all that have none.
    empty: Row,
}

impl Model for Tables {
    ghost use Rattle.farm_model.specs.Universe as model;
    ghost use Rattle.sat_rows.specs.Tables.{AreKept};

    ghost Value = { model.Universe };

    ghost view = { λ tables. tables.universe.value };

    ghost invariant = { λ tables. AreKept tables.universe.value tables.names.items
        tables.needs.items tables.rows.items tables.conflicts tables.breaks tables.clashes.items
        tables.providers tables.empty tables.served };
}

/// How many places distinct entries are looked up in, for each name of a universe.
const PLACES: usize = 16;

/// The rows of the distinct entries, and where each entry has its own.
#[derive(Drop)]
struct EntryRows {
    names: Vec<NameNumbers>,
    needs: Vec<Needs>,
    rows: Vec<Row>,
    served: Served,
}

impl Model for EntryRows {
    ghost use Rattle.sat_rows.specs.Tables as tables;

    ghost Value = { tables.EntryRows };

    ghost view = { λ x. record {
      names = x.names.items;
      needs = x.needs.items;
      rows = x.rows.items;
      served = x.served;
    } };
}

/// Makes the rows of the distinct entries, and finds who satisfies them and who has them beside
/// that: neither asks for the other.
fn rows_beside_served(
    rt: &(impl Threads + Sync),
    alloc: Global,
    universe: &Universe,
    names: &[NameNumbers],
    sets: &[Found],
) -> (Result<Vec<Row>, AllocError>, Result<Served, AllocError>)
    requires { AreLong universe.now names.now }
    ensures rows { (entries : List spec.Entry) → AreSets universe.now entries sets.now
        → IfOk result.0 (λ rows. AreRowsOf universe.now entries rows.items) }
    ensures served { (entries : List spec.Entry) → AreVariantNumbers universe.now entries names.now
        → AreSets universe.now entries sets.now → IfOk result.1 (IsServing universe.now entries) }
{
    join(
        rt,
        || -> Result<Vec<Row>, AllocError>
            ensures { (entries : List spec.Entry)
                → AreSets universe.entry.now entries sets.entry.now
                → IfOk result (λ rows. AreRowsOf universe.entry.now entries rows.items) }
        { all_entry_rows(rt, alloc, universe, sets) },
        move || -> Result<Served, AllocError>
            requires { AreLong universe.now names.now }
            ensures { (entries : List spec.Entry)
                → AreVariantNumbers universe.entry.now entries names.entry.now
                → AreSets universe.entry.now entries sets.entry.now
                → IfOk result (IsServing universe.entry.now entries) }
        { Served::build(alloc, universe, names, sets) },
    )
}

impl EntryRows {
    fn build(
        rt: &(impl Threads + Sync),
        alloc: Global,
        universe: &Universe,
        providers: &ItemIndex<Variant>,
    ) -> Result<EntryRows, AllocError>
        requires { IsProviding universe.now providers.now }
        ensures entries { IfOk result (λ x. AreEntryRows universe.now x.names x.needs x.rows) }
        ensures served { IfOk result (λ x. AreServed universe.now x.rows x.served) }
    {
        let mut entries = Entries::new(alloc, universe.names() as usize * PLACES)?;
        let names = entries.names(alloc, universe)?;
        let needs = entries.recipes(alloc, universe)?;
        let sets = all_sets(rt, alloc, universe, providers, &entries)?;
        let (rows, served) = rows_beside_served(rt, alloc, universe, &names, &sets);
        let rows = rows?;
        let served = served?;
        Ok(EntryRows {
            names,
            needs,
            rows,
            served,
        })
    }
}

/// Whom the variants exclude, and what the recipes do.
#[derive(Drop)]
struct Exclusions {
    conflicts: Exclusion,
    breaks: Exclusion,
    clashes: Vec<Option<Row>>,
}

/// Finds whom each variant names in Conflicts, and in Breaks beside that: neither asks for the
/// other.
fn conflicts_beside_breaks(
    rt: &(impl Threads + Sync),
    alloc: Global,
    universe: &Universe,
    providers: &ItemIndex<Variant>,
) -> (Result<Exclusion, AllocError>, Result<Exclusion, AllocError>)
    requires { IsProviding universe.now providers.now }
    ensures conflicts { IfOk result.0 (IsExclusion universe.now (λ binary. binary.conflicts)) }
    ensures breaks { IfOk result.1 (IsExclusion universe.now (λ binary. binary.breaks)) }
{
    join(
        rt,
        || -> Result<Exclusion, AllocError>
            requires { IsProviding universe.now providers.now }
            ensures { IfOk result
                (IsExclusion universe.entry.now (λ binary. binary.conflicts)) }
        { Exclusion::build(rt, alloc, universe, providers, &Conflicts {}) },
        || -> Result<Exclusion, AllocError>
            requires { IsProviding universe.now providers.now }
            ensures { IfOk result (IsExclusion universe.entry.now (λ binary. binary.breaks)) }
        { Exclusion::build(rt, alloc, universe, providers, &Breaks {}) },
    )
}

impl Exclusions {
    fn build(
        rt: &(impl Threads + Sync),
        alloc: Global,
        universe: &Universe,
        providers: &ItemIndex<Variant>,
    ) -> Result<Exclusions, AllocError>
        requires { IsProviding universe.now providers.now }
        ensures { IfOk result (AreExclusions universe.now) }
    {
        let (conflicts, breaks) = conflicts_beside_breaks(rt, alloc, universe, providers);
        let (conflicts, breaks) = (conflicts?, breaks?);
        let clashes = all_clashes(rt, alloc, universe, providers)?;
        Ok(Exclusions {
            conflicts,
            breaks,
            clashes,
        })
    }
}

/// Makes the rows of the entries, and finds who excludes whom beside that: neither asks for the
/// other.
fn rows_beside_exclusions(
    rt: &(impl Threads + Sync),
    alloc: Global,
    universe: &Universe,
    providers: &ItemIndex<Variant>,
) -> (
    Result<EntryRows, AllocError>,
    Result<Exclusions, AllocError>,
)
    requires { IsProviding universe.now providers.now }
    ensures entries { IfOk result.0 (λ x. AreEntryRows universe.now x.names x.needs x.rows) }
    ensures served { IfOk result.0 (λ x. AreServed universe.now x.rows x.served) }
    ensures exclusions { IfOk result.1 (AreExclusions universe.now) }
{
    join(
        rt,
        || -> Result<EntryRows, AllocError>
            requires { IsProviding universe.now providers.now }
            ensures entries { IfOk result
                (λ x. AreEntryRows universe.entry.now x.names x.needs x.rows) }
            ensures served { IfOk result (λ x. AreServed universe.entry.now x.rows x.served) }
        { EntryRows::build(rt, alloc, universe, providers) },
        || -> Result<Exclusions, AllocError>
            requires { IsProviding universe.now providers.now }
            ensures { IfOk result (AreExclusions universe.entry.now) }
        { Exclusions::build(rt, alloc, universe, providers) },
    )
}

impl Tables {
    /// Makes the rows of a universe, by as many threads as there are processors.
    pub fn build(
        rt: &(impl Threads + Sync),
        alloc: Global,
        universe: &Universe,
    ) -> Result<Tables, AllocError>
        ensures { IfOk result (λ tables. tables ≡ universe.now) }
    {
        let empty = Row::new(alloc, universe.names() as usize)?;
        let providers = naming(alloc, universe, &Provides {})?;
        let (rows, exclusions) = rows_beside_exclusions(rt, alloc, universe, &providers);
        let rows = rows?;
        let exclusions = exclusions?;
        let EntryRows {
            names,
            needs,
            rows,
            served,
        } = rows;
        let Exclusions {
            conflicts,
            breaks,
            clashes,
        } = exclusions;
        Ok(Tables {
            universe: Snapshot::of(universe),
            names,
            needs,
            rows,
            served,
            conflicts,
            breaks,
            clashes,
            providers,
            empty,
        })
    }

    /// A row that may be left out.
    fn shared<'a>(&'a self, row: &'a Option<Row>) -> &'a Row
        ensures { (p : Variant → Bool) → IsSharedRow self.now p row.now
            → IsRowOf self.now p result.now }
    {
        match row {
            Some(row) => row,
            None => &self.empty,
        }
    }

    /// The variants that satisfy any entry (Debian Policy 7.1 and 7.5), looked for among those that
    /// go by its names. The universe is the one that the rows are about.
    pub fn entry_row(
        &self,
        alloc: Global,
        universe: &Universe,
        entry: &Entry,
    ) -> Result<Row, AllocError>
        requires { self.now ≡ universe.now }
        ensures { IfOk result (IsRowOf self.now (satisfies_entry self.now entry.now)) }
    {
        Ok(row_of_entry(alloc, universe, &self.providers, entry.alternatives())?)
    }

    /// Tells whether some name has variants in the words, and all of them satisfy an alternative
    /// (Debian Policy 7.1 and 7.5). Names that go by that of the alternative are looked at alone.
    /// The universe is the one that the rows are about. The call takes no memory.
    pub fn has_name_inside(&self, universe: &Universe, atom: &Atom, words: &[u64]) -> bool
        requires { self.now ≡ universe.now }
        ensures { IsTrue result ↔ HasInside self.now atom.now words.now }
    {
        has_name_inside(universe, &self.providers, atom, words)
    }

    /// The variants that satisfy a Pre-Depends entry of a variant.
    pub fn pre_depends(&self, variant: Variant, number: usize) -> &Row
        requires known { IsKnown self.now variant }
        requires there { number < length (pre_depends self.now variant) }
        ensures { IsRowOf self.now
            (satisfies_entry self.now (nth_entry (pre_depends self.now variant) number))
            result.now }
    {
        let numbers = self.names[variant.name as usize].variant(variant.bit);
        &self.rows[numbers.pre_depends(number)]
    }

    /// The variants that satisfy a Depends entry of a variant.
    pub fn depends(&self, variant: Variant, number: usize) -> &Row
        requires known { IsKnown self.now variant }
        requires there { number < length (depends self.now variant) }
        ensures { IsRowOf self.now
            (satisfies_entry self.now (nth_entry (depends self.now variant) number)) result.now }
    {
        let numbers = self.names[variant.name as usize].variant(variant.bit);
        &self.rows[numbers.depends(number)]
    }

    /// Tells whether the words have a variant of another name that is in conflict with a variant,
    /// declared by either.
    pub fn conflicts_with_some(&self, variant: Variant, words: &[u64]) -> bool
        requires { IsKnown self.now variant }
        ensures { IsTrue result ↔ HaveCommon (variants_of words.now)
            (variant_passes self.now (conflicts_with self.now variant)) }
    {
        self.conflicts.has_some(variant, words)
    }

    /// Tells whether the words have a variant of another name that a variant breaks.
    pub fn breaks_some(&self, variant: Variant, words: &[u64]) -> bool
        requires { IsKnown self.now variant }
        ensures { IsTrue result ↔ HaveCommon (variants_of words.now)
            (variant_passes self.now (broken_by self.now variant)) }
    {
        self.breaks.names_some(variant, words)
    }

    /// Tells whether the words have a variant of another name that breaks a variant.
    pub fn is_broken_by_some(&self, variant: Variant, words: &[u64]) -> bool
        requires { IsKnown self.now variant }
        ensures { IsTrue result ↔ HaveCommon (variants_of words.now)
            (variant_passes self.now (breakers_of self.now variant)) }
    {
        self.breaks.is_named(variant, words)
    }

    /// Tells whether the words have a variant with a Depends or Pre-Depends entry that a variant of
    /// a name satisfies, one that the word has, and that no name of the words has variants for
    /// which all satisfy it.
    pub fn is_missed(&self, name: u32, word: u64, words: &[u64]) -> bool
        requires { length words.now ≡ names self.now }
        ensures { IsTrue result ↔ IsMissed self.now name word words.now }
    {
        self.served.misses(&self.rows, name, word, words)
    }

    /// The variants that satisfy an entry of the needs of a recipe.
    pub fn needs(&self, recipe: u32, number: usize) -> &Row
        requires known { recipe < length self.now.recipes }
        requires there { number < length (packages.recipe self.now recipe).needs }
        ensures { IsRowOf self.now (satisfies_entry self.now
            (nth_entry (packages.recipe self.now recipe).needs number)) result.now }
    {
        &self.rows[self.needs[recipe as usize].need(number)]
    }

    /// The variants that satisfy some entry of the clashes of a recipe.
    pub fn clashes(&self, recipe: u32) -> &Row
        requires { recipe < length self.now.recipes }
        ensures { IsRowOf self.now
            (satisfies_any self.now (packages.recipe self.now recipe).clashes) result.now }
    {
        self.shared(&self.clashes[recipe as usize])
    }
}
