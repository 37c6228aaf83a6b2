//! Laws of a run that goes on, each the contract of a function that does nothing.

ghost use Rattle.leg_laws.specs.Laws.{EndsMeet, StaysThere, PublishedOnce, GoesOnSafely, NothingForgotten, ArchiveAlone, LegsCompose, ChainIsBounded, ChainsCompose};

/// Ahead of its first turn, a farm that goes on has in its archive exactly what stays of the run
/// before it.
pub fn ends_meet()
    ensures { EndsMeet }
{}

/// Nothing leaves the archive during a run.
pub fn stays_there()
    ensures { StaysThere }
{}

/// A farm that goes on publishes nothing that the run before it has published, by name and version,
/// and nothing twice.
pub fn published_once()
    ensures { PublishedOnce }
{}

/// A plan with an annotation and an order is safe in every interleaving, whatever was before it.
pub fn goes_on_safely()
    ensures { GoesOnSafely }
{}

/// Once all that is left is published, the archive has all that was wanted, but for what is given up
/// or was published before in another version.
pub fn nothing_forgotten()
    ensures { NothingForgotten }
{}

/// A turn is the same over any archive that has the same known variants.
pub fn archive_alone()
    ensures { ArchiveAlone }
{}

/// In every state of a farm that goes on, by an accepted plan, the archive has what stays and what
/// was published since; its runs are safe, and nothing is published twice.
pub fn legs_compose()
    ensures { LegsCompose }
{}

/// All turns of a chain are at most the events of its plans.
pub fn chain_is_bounded()
    ensures { ChainIsBounded }
{}

/// The same holds of each two legs of a chain, and what a leg has published stays until it is
/// withdrawn.
pub fn chains_compose()
    ensures { ChainsCompose }
{}
