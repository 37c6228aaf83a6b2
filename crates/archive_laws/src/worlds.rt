//! Laws of the worlds that are reached.

ghost use Rattle.archive_laws.specs.Loads.{EachWordDecides};
ghost use Rattle.archive_laws.specs.Reaching.{LoadsReach, OutputsReach, AllLanesReady, EndsAreFinished};
ghost use Rattle.archive_laws.specs.Shown.{StartIsReached, EachLaneSteps, LanesStandAfterSteps, WordsAreRecorded, WorldsAreForeseen, WorldsAreReady};

/// The initial archive and the lanes at their beginnings show the start.
pub fn start_is_reached()
    ensures { StartIsReached }
{}

/// From a world that shows a reachable state, one lane's local instructions and then its archive
/// step lead to a world that shows a reachable state, in which the other lanes' records are
/// unchanged.
pub fn one_archive_step()
    ensures { EachLaneSteps }
{}

/// At the start each lane stands at its beginning, and archive steps from a world that shows a
/// reachable state leave each lane there, just after its last archive step, or inside a publish.
pub fn lanes_stand_after_steps()
    ensures { LanesStandAfterSteps }
{}

/// An unpack and a `when` look at the word of their name alone, and a wait passes on any one word.
pub fn each_word_decides()
    ensures { EachWordDecides }
{}

/// The words of a world that shows a reachable state are the initial archive and the outputs that
/// the lanes' records stand for.
pub fn words_are_recorded()
    ensures { WordsAreRecorded }
{}

/// In a world that shows a reachable state of an annotated plan, the words have what each lane
/// knows and the facts of what is in them, and nothing but what may be there; each chroot is one
/// that its may map allows, and no lane has spent more than its cost.
pub fn worlds_are_foreseen()
    ensures { WorldsAreForeseen }
{}

/// In such a world the local instructions of a lane lead to its next archive step or to its end,
/// and that step meets no trap.
pub fn worlds_are_ready()
    ensures { WorldsAreReady }
{}

/// A load of any name's word leaves its lane in a world that shows a reachable state: behind its
/// unpack of that name, in the branch that its `when` of that name takes, behind its wait that the
/// word satisfies, or where it was.
pub fn loads_reach()
    ensures { LoadsReach }
{}

/// The next output of a lane leads to such a world, in an annotated plan. It is the lane's next one
/// by number.
pub fn outputs_reach()
    ensures { OutputsReach }
{}

/// The local instructions of all lanes lead to such a world, with the same words.
pub fn all_lanes_ready()
    ensures { AllLanesReady }
{}

/// Where each lane of such a world is at its end, the state shown is finished.
pub fn ends_are_finished()
    ensures { EndsAreFinished }
{}
