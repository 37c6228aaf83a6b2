//! What holds of desks, whatever is called.

ghost use Rattle.drive_run.specs.Laws.{AnswerReachesItsLane, DoneIsNotAsked, OneOfALane, StopAsksNothingMore};

/// At most one thing of a lane is open.
pub fn one_of_a_lane()
    ensures { OneOfALane }
{}

/// An answer reaches the lane that asked under its number, and no other.
pub fn answer_reaches_its_lane()
    ensures { AnswerReachesItsLane }
{}

/// What is done is not asked again.
pub fn done_is_not_asked()
    ensures { DoneIsNotAsked }
{}

/// Once a run stops no lane asks for anything more.
pub fn stop_asks_nothing_more()
    ensures { StopAsksNothingMore }
{}
