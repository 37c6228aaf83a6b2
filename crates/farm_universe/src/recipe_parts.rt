//! What the paragraph of a recipe says whatever recipes stand before it: what is built, and what
//! the build gives.

ghost use Rattle.std.specs.Prelude.{IfOk};
ghost use Rattle.std.specs.Option.{option_map};
ghost use Rattle.deb_text.specs.Answers.{Gives};
ghost use Rattle.farm_universe.specs.FarmView.{AreOutputs, AreOutputsOf, AreRecipeParts, IsLand, land_view};
ghost use Rattle.farm_universe.specs.RecipeText.{outputs_at};
ghost use Rattle.farm_universe.specs.TableView.{table_view, IsFit};
ghost use Rattle.farm_universe.specs.View.{refusal_of};

use crate::build::{Build, read_build};
use crate::error::FieldFault;
use crate::land::Land;
use crate::list::read_list;
use crate::package_table::PackageTable;
use crate::paragraph::Paragraph;
use farm_model::Variant;
use std::alloc::Global;

/// The outputs that a paragraph names, or its first fault among them.
pub type Outputs = Result<Vec<Variant>, FieldFault>;

/// What a paragraph builds and what the build gives, each with its own first fault.
#[derive(Drop)]
pub struct RecipeParts {
    pub build: Result<Build, FieldFault>,
    pub outputs: Outputs,
}

/// Reads a list of variants that has an item.
fn outputs_in(
    alloc: Global,
    table: &PackageTable,
    value: Option<&[u8]>,
) -> Result<Vec<Variant>, FieldFault>
    requires { IsFit (table_view table.now) }
    ensures read { Gives refusal_of (λ vs. vs.items) result
        (outputs_at (table_view table.now) (option_map (λ v. v.now) value.entry)) }
    ensures outputs { IfOk result (λ vs. AreOutputs (table_view table.now) vs.items) }
{
    let Some(text) = value else {
        return Err(FieldFault::NoOutput);
    };
    let outputs = read_list(alloc, table, text)?;
    if outputs.is_empty() {
        return Err(FieldFault::NoOutput);
    }
    Ok(outputs)
}

/// Reads the outputs of a paragraph.
///
/// # Errors
///
/// 208 where it has none, and those of [`read_list`]. [`FieldFault::Memory`] where memory is
/// refused.
fn read_outputs(alloc: Global, land: &Land, paragraph: &Paragraph) -> Outputs
    requires { IsLand (land_view land.now) }
    ensures { AreOutputsOf (land_view land.now) paragraph.now result }
{
    outputs_in(alloc, &land.table, paragraph.field(b"Outputs"))
}

/// Reads what a paragraph builds and what the build gives.
pub fn read_recipe_parts(alloc: Global, land: &Land, paragraph: &Paragraph) -> RecipeParts
    requires { IsLand (land_view land.now) }
    ensures { AreRecipeParts (land_view land.now) paragraph.now result }
{
    RecipeParts {
        build: read_build(alloc, land, paragraph),
        outputs: read_outputs(alloc, land, paragraph),
    }
}
