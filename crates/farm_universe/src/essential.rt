//! The packages that must not be removed (Debian Policy 3.8).

ghost use Rattle.farm_model.specs.Packages as packages;

use crate::relations::VariantTest;
use crate::universe::Universe;
use farm_model::Variant;

/// The variants that are Essential.
#[derive(Drop)]
pub struct IsEssential;

impl VariantTest for IsEssential {
    ghost test = { λ u t v. packages.essential u v };

    fn passes(&self, universe: &Universe, variant: Variant) -> bool {
        universe.essential(variant)
    }
}
