//! What is asked of variants, which need not be of the universe, and those that satisfy an entry.

ghost use Rattle.std.specs.Prelude.{◌≡◌, nat_lt, Bool, IfOk, length};
ghost use Rattle.farm_model.specs.declared.types.Variant as model;
ghost use Rattle.farm_model.specs.Packages.{initial, names, variants};
ghost use Rattle.sat_rows.specs.Rows.{IsRowOf};
ghost use Rattle.explain_lanes.specs.LaneNotes as further;
ghost use Rattle.explain_lanes.specs.Stuck as waiting;
ghost use Rattle.explain_lanes.specs.Waits as spec;
ghost use Rattle.explain_lanes.specs.Waits.{variants_that};

use crate::subject::Subject;
use bit_rows::Row;
use deb_relation::Entry;
use explain_reasons::push_variants;
use farm_universe::relations::satisfies_entry;
use farm_universe::{Universe, Variant};
use may_rows::variant_count;
use plan_reader::name_of;
use std::alloc::{AllocError, Global};

/// Tells whether a variant is one of the universe.
pub fn is_known(universe: &Universe, variant: Variant) -> bool
    ensures { result ≡ nat_lt variant.bit (variants universe.now variant.name) }
{
    variant.bit < variant_count(universe, variant.name)
}

/// Tells whether a variant is in the archive from the start.
#[tactic(auto, using(farm_universe::proofs::PlaceLaws::named), unfolding(farm_model::specs::Packages::initial, farm_model::specs::Packages::has_bit))]
pub fn is_initial(universe: &Universe, variant: Variant) -> bool
    ensures { result ≡ initial universe.now variant }
{
    variant.bit < variant_count(universe, variant.name) && universe.is_initial(variant)
}

/// Tells whether a variant satisfies an entry.
pub fn satisfies(universe: &Universe, entry: &Entry, variant: Variant) -> bool
    ensures { result ≡ waiting.satisfies universe.now entry.now variant }
{
    is_known(universe, variant) && satisfies_entry(universe, entry, variant)
}

/// Tells whether a word has the bit of a variant.
pub fn has(word: u64, variant: Variant) -> bool {
    variant.bit < 64 && word >> variant.bit & 1 == 1
}

/// Tells whether a word has some variant of a name.
pub fn has_some(universe: &Universe, name: u32, word: u64) -> bool {
    (0..variant_count(universe, name)).any(|bit| has(word, Variant { name, bit }))
}

fn is_named(entry: &Entry, name: &[u8]) -> bool
    ensures { result ≡ further.is_named name.now entry.now }
{
    entry.alternatives().iter().any(|atom| atom.name() == name)
}

/// Tells whether a variant provides this.
#[tactic(auto, using(crate::proofs::Fields::none_provided))]
fn provides(universe: &Universe, text: &[u8], variant: Variant) -> bool
    ensures { result ≡ further.provides universe.now text.now variant }
{
    if variant.bit >= variant_count(universe, variant.name) {
        return false;
    }
    let provides = &universe.relations(variant).provides;
    provides.entries().iter().any(|item| is_named(item, text))
}

/// Tells whether some variant of a name does.
fn some_provides(universe: &Universe, name: u32, text: &[u8]) -> bool
    ensures { result ≡ further.some_provides universe.now name text.now }
{
    (0..variant_count(universe, name)).any(|bit| provides(universe, text, Variant { name, bit }))
}

/// Tells whether a name could meet an entry, in some version: it stands in the entry, or some
/// variant of it provides what does.
pub fn could_meet(universe: &Universe, entry: &Entry, name: u32) -> bool
    ensures { result ≡ further.could_meet universe.now entry.now name }
{
    entry.alternatives().iter().any(|atom| {
        name_of(universe, name) == atom.name() || some_provides(universe, name, atom.name())
    })
}

/// Gives the names that could meet an entry.
pub fn likely_names(of: Subject<'_>, entry: &Entry) -> Result<Vec<u32>, AllocError> {
    (0..of.universe.names())
        .filter(|number| could_meet(of.universe, entry, *number))
        .collect(of.alloc)
}

/// The variants that a row has, names by number and of each the lowest version first. But for the
/// first, only names that have some are looked at.
fn listed(alloc: Global, universe: &Universe, row: &Row) -> Result<Vec<Variant>, AllocError>
    requires { length row.now ≡ names universe.now }
    ensures { IfOk result (λ found. (test : model.Variant → Bool)
        → IsRowOf universe.now test row.now → found.items ≡ variants_that universe.now test) }
{
    let names = universe.names() as usize;
    let mut found = Vec::new(alloc);
    let mut name = 0;
    while name < names {
        push_variants(&mut found, universe, name as u32, row.word(name))?;
        name = row.skip(name + 1);
    }
    Ok(found)
}

/// Gives the variants that satisfy an entry: names by number, and of each the lowest version first.
#[tactic(auto, unfolding(crate::specs::Waits::satisfying))]
pub fn satisfying(of: Subject<'_>, entry: &Entry) -> Result<Vec<Variant>, AllocError>
    ensures { IfOk result (λ found. found.items
        ≡ spec.satisfying of.entry.universe.now entry.now) }
{
    let row = of.tables.entry_row(of.alloc, of.universe, entry)?;
    listed(of.alloc, of.universe, &row)
}
