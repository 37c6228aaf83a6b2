//! Which variant an unpack takes, and whether there is one.

ghost use Rattle.std.specs.Prelude.{◌≡◌, ◌<◌};
ghost use Rattle.farm_model.specs.Packages.{names, has_bit};
ghost use Rattle.plan_model.specs.Turn as turn;

use deb_relation::Op;
use deb_version::Version;
use farm_archive::PlainArchive;
use farm_universe::Universe;

/// The highest variant of a name that is in the archive and in the relation of an unpack.
#[tactic(auto, unfolding(plan_model::specs::Turn::newest, farm_model::specs::Packages::has_bit))]
pub fn newest(
    universe: &Universe,
    archive: &PlainArchive,
    name: u32,
    relation: &Option<(Op, Version)>,
) -> Option<u32>
    requires { name < names universe.now }
    ensures { result ≡ turn.newest universe.now (has_bit archive.now.words) name relation.now }
{
    farm_archive::newest(universe, archive.word(name), name, relation)
}

/// Tells whether the archive has a variant of a name in a relation.
pub fn has_wanted(
    universe: &Universe,
    archive: &PlainArchive,
    name: u32,
    relation: &Option<(Op, Version)>,
) -> bool
    requires { name < names universe.now }
    ensures { result ≡ turn.has_wanted universe.now (has_bit archive.now.words) name relation.now }
{
    newest(universe, archive, name, relation).is_some()
}
