//! The row that a question asks for:
//!
//!     depends NAME VERSION NUMBER                    pre-depends NAME VERSION NUMBER
//!     needs RECIPE NUMBER                            clashes RECIPE
//!
//! and the alternative of `alternative NAME VERSION NUMBER NUMBER`, of Pre-Depends.

ghost use Rattle.std.specs.Prelude.{◌≡◌, ◌<◌, length, IfSome};
ghost use Rattle.farm_model.specs.Common.{names, IsKnown};

use bit_rows::Row;
use case_files::TableRow;
use deb_relation::Atom;
use deb_text::read_number;
use farm_universe::{Universe, Variant};
use sat_rows::Tables;

/// The variant of a name that has this version.
fn versioned(universe: &Universe, name: u32, version: &[u8]) -> Option<Variant>
    requires { name < names universe.now }
    ensures { IfSome result (IsKnown universe.now) }
{
    for bit in 0..universe.variants(name) {
        let variant = Variant { name, bit };
        if universe.version(variant).text() == version {
            return Some(variant);
        }
    }
    None
}

/// The variant that the first two arguments name.
pub fn variant_of(universe: &Universe, row: TableRow) -> Option<Variant>
    ensures { IfSome result (IsKnown universe.now) }
{
    versioned(universe, universe.find(row.arg(0))?, row.arg(1))
}

/// The number of a recipe.
fn recipe_of(universe: &Universe, name: &[u8]) -> Option<u32>
    ensures { IfSome result (λ number. number < length universe.now.recipes) }
{
    for number in 0..universe.recipes() {
        if universe.recipe(number).name() == name {
            return Some(number);
        }
    }
    None
}

fn number_of(digits: &[u8]) -> usize {
    read_number(digits).unwrap_or(u64::MAX) as usize
}

/// The row that a question asks for, if there is one.
pub fn row_asked<'a>(universe: &Universe, tables: &'a Tables, row: TableRow) -> Option<&'a Row>
    requires { tables.now ≡ universe.now }
{
    match row.question {
        "needs" | "clashes" => {
            let recipe = recipe_of(universe, row.arg(0))?;
            of_recipe(universe, tables, row, recipe)
        }
        _ => of_variant(universe, tables, row, variant_of(universe, row)?),
    }
}

fn of_recipe<'a>(
    universe: &Universe,
    tables: &'a Tables,
    row: TableRow,
    recipe: u32,
) -> Option<&'a Row>
    requires same { tables.now ≡ universe.now }
    requires known { recipe < length universe.now.recipes }
{
    if row.question == "clashes" {
        return Some(tables.clashes(recipe));
    }
    let number = number_of(row.arg(1));
    if number < universe.recipe(recipe).needs().len() {
        return Some(tables.needs(recipe, number));
    }
    None
}

fn of_variant<'a>(
    universe: &Universe,
    tables: &'a Tables,
    row: TableRow,
    variant: Variant,
) -> Option<&'a Row>
    requires same { tables.now ≡ universe.now }
    requires known { IsKnown universe.now variant }
{
    let number = number_of(row.arg(2));
    match row.question {
        "depends" => depends(universe, tables, variant, number),
        "pre-depends" => pre_depends(universe, tables, variant, number),
        _ => None,
    }
}

fn depends<'a>(
    universe: &Universe,
    tables: &'a Tables,
    variant: Variant,
    number: usize,
) -> Option<&'a Row>
    requires same { tables.now ≡ universe.now }
    requires known { IsKnown universe.now variant }
{
    if number < universe.relations(variant).depends.len() {
        Some(tables.depends(variant, number))
    } else {
        None
    }
}

fn pre_depends<'a>(
    universe: &Universe,
    tables: &'a Tables,
    variant: Variant,
    number: usize,
) -> Option<&'a Row>
    requires same { tables.now ≡ universe.now }
    requires known { IsKnown universe.now variant }
{
    if number < universe.relations(variant).pre_depends.len() {
        Some(tables.pre_depends(variant, number))
    } else {
        None
    }
}

/// The alternative of an entry of Pre-Depends that the arguments name, if there is one.
pub fn alternative_of<'a>(universe: &'a Universe, row: TableRow) -> Option<&'a Atom> {
    let variant = variant_of(universe, row)?;
    let pre_depends = &universe.relations(variant).pre_depends;
    let entry = pre_depends.entries().get(number_of(row.arg(2)))?;
    entry.alternatives().get(number_of(row.arg(3)))
}
