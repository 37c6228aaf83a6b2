//! Tests of the alternatives of fields.

ghost use Rattle.std.specs.Prelude.{◌≡◌, Bool};
ghost use Rattle.std.specs.Option.{is_none};
ghost use Rattle.deb_relation.specs.Common.{Atom, provides_it};
ghost use Rattle.item_index.specs.Items.{item_of};
ghost use Rattle.sat_rows.specs.Found.{alternative_passes};

use deb_relation::{Atom, Relations, provides_it};
use farm_universe::Variant;
use item_index::Item;

/// A test of an alternative.
pub trait AtomTest {
    ghost test: { Self → Atom → Bool };

    fn passes(&self, atom: &Atom) -> bool
        ensures { result ≡ test self.now atom.now };
}

/// The items of Provides that provide an alternative.
#[derive(Drop)]
pub struct ProvidesIt<'a> {
    pub atom: &'a Atom,
}

impl AtomTest for ProvidesIt<'_> {
    ghost test = { λ t p. provides_it t.atom.now p };

    fn passes(&self, provided: &Atom) -> bool {
        provides_it(self.atom, provided)
    }
}

/// Tells whether an alternative has no qualifier.
pub fn is_bare(atom: &Atom) -> bool
    ensures { result ≡ is_none atom.now.qualifier }
{
    atom.qualifier().is_none()
}

/// Tells whether the alternative at the place of an item passes.
pub fn passes_at<T: AtomTest>(field: &Relations, test: &T, item: &Item<Variant>) -> bool
    ensures { result ≡ alternative_passes (T.test test.now) (item_of item.now field.now) }
{
    match item.of(field) {
        Some(atom) => test.passes(atom),
        None => false,
    }
}
