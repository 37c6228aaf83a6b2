//! The entries of packages and recipes that reasons are about.

ghost use Rattle.std.specs.Prelude.{◌≡◌, slice_get, option_map};
ghost use Rattle.explain_lanes.specs.Notes as spec;
ghost use Rattle.farm_model.specs.Packages.{recipe};
ghost use Rattle.explain_reasons.specs.Reasons.{asked_in_field};

use crate::text::Piece;
use deb_relation::Entry;
use explain_reasons::{Field, Reason};
use farm_universe::{Universe, Variant};
use may_rows::variant_count;

/// The name of a field.
pub fn field_text(field: Field) -> &'static [u8]
    ensures { result.now ≡ spec.field_text field }
{
    match field {
        Field::PreDepends => b"Pre-Depends",
        Field::Depends => b"Depends",
    }
}

/// The entry of a number of a variant's field; none past the last, and of no variant.
#[tactic(auto, using(crate::proofs::Fields::none_asked))]
pub fn entry_of(
    universe: &Universe,
    variant: Variant,
    field: Field,
    number: usize,
) -> Option<&Entry>
    ensures { option_map (λ e. e.now) result
        ≡ slice_get (asked_in_field universe.now variant field) number }
{
    if variant.bit >= variant_count(universe, variant.name) {
        return None;
    }
    let relations = universe.relations(variant);
    let entries = match field {
        Field::PreDepends => &relations.pre_depends,
        Field::Depends => &relations.depends,
    };
    entries.entries().get(number)
}

/// The need of a number of a recipe; none past the last, and of no recipe.
#[tactic(auto, unfolding(farm_model::specs::Packages::recipe))]
pub fn need_of(universe: &Universe, number: u32, need: usize) -> Option<&Entry>
    ensures { option_map (λ e. e.now) result ≡ slice_get (recipe universe.now number).needs need }
{
    if number >= universe.recipes() {
        return None;
    }
    universe.recipe(number).needs().entries().get(need)
}

/// An entry, and it behind who has it and the name of its field, as pieces of a line.
#[derive(Clone, Copy)]
pub(crate) struct Asked<'a> {
    pub pieces: [Piece<'a>; 3],
    pub entry: &'a Entry,
}

/// The entry that a reason is about, where one is: that is not surely met, or for which a member is
/// needed.
pub(crate) fn asked_entry(universe: &Universe, reason: Reason) -> Option<Asked<'_>> {
    let (owner, field, entry) = match reason {
        Reason::Unmet(variant, field, entry) | Reason::StillNeeded(variant, field, entry) => {
            let entry = entry_of(universe, variant, field, entry)?;
            (Piece::Package(variant), field_text(field), entry)
        }
        Reason::BuildNeed(recipe, entry) => {
            let field: &[u8] = b"Build-Depends";
            (
                Piece::Recipe(recipe),
                field,
                need_of(universe, recipe, entry)?,
            )
        }
        _ => return None,
    };
    let pieces = [owner, Piece::Words(field), Piece::Entry(entry)];
    Some(Asked { pieces, entry })
}
