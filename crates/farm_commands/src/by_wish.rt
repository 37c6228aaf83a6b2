//! An import by the kind of its wish.

ghost use Rattle.std.specs.Prelude.{◌≡◌, IfOk};
ghost use Rattle.farm_commands.specs.Imports.{AreMade, text_in};
ghost use Rattle.std.specs.Option.{option_map};

use cross_import::{import_cross, is_cross};
use import_farm::{Imported, Inputs, Watch, import};
use import_notes::ImportLines;
use import_wish::leaves_a_choice;
use std::alloc::{AllocError, Global};
use target_import::import_for_targets;

/// What an import comes to, and the text of the explicit wish if its wish left a choice.
#[derive(Drop)]
pub struct Made {
    pub imported: Imported,
    pub chosen: Option<Vec<u8>>,
}

impl Made {
    /// The text of the explicit wish.
    pub fn chosen_text(&self) -> Option<&[u8]>
        ensures { option_map (λ text. text.now) result ≡ text_in self.now.chosen }
    {
        match &self.chosen {
            Some(text) => Some(text.as_slice()),
            None => None,
        }
    }
}

/// Makes the texts of a farm, by a wish for two architectures, one that leaves a choice, or any other.
/// A recipe that is forbidden is not chosen.
pub fn import_by_wish<W: Watch>(
    alloc: Global,
    inputs: Inputs,
    forbidden: &[&str],
    watch: &mut W,
) -> Result<Made, AllocError>
    ensures { IfOk result (AreMade inputs.entry) }
{
    if is_cross(alloc, inputs.wish)? {
        let imported = import_cross::<ImportLines, W>(alloc, inputs, watch)?;
        let chosen = None;
        return Ok(Made { imported, chosen });
    }
    if leaves_a_choice(alloc, inputs.wish)? {
        let (imported, text) = import_for_targets::<ImportLines, W>(
            alloc, inputs, forbidden, watch,
        )?;
        let chosen = Some(text);
        return Ok(Made { imported, chosen });
    }
    let imported = import::<ImportLines, W>(alloc, inputs, watch)?;
    let chosen = None;
    Ok(Made { imported, chosen })
}
