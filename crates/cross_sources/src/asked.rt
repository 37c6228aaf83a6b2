//! Which sources are encoded, and how.

use cross_laws::types::Side;
use cross_relations::Sides;
use deb_profile::ArchNames;
use deb_relation::Relations;

/// A source that is wanted, for a side.
#[derive(Drop)]
pub struct WantedSource {
    pub name: Vec<u8>,
    pub side: Side,
}

/// The two architectures; the names that match the one on which is built; what each build for the
/// host needs besides, encoded; and the sources that are wanted.
#[derive(Clone, Copy)]
pub struct Asked<'a> {
    pub sides: &'a Sides<'a>,
    pub names: &'a ArchNames,
    pub ahead: &'a Relations,
    pub wanted: &'a [WantedSource],
}
