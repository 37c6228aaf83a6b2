//! Laws of stuck lanes.

ghost use Rattle.verdict_laws.specs.Stuck.{PlansComeToRest, EachRestIsExact, LanesLeftAreLeft, StuckAreOne, OrdersLeaveNoneStuck};

/// Some list of waits and outputs leads each plan to a board on which nothing more goes.
pub fn plans_come_to_rest()
    ensures { PlansComeToRest }
{}

/// A board on which nothing more goes, and to which some list of waits and outputs leads, leaves
/// exactly the lanes that no list brings past their last wait or output. Where it leaves none, the
/// list is an order.
pub fn each_rest_is_exact()
    ensures { EachRestIsExact }
{}

/// The lanes that have something left on a board, by a test of each.
pub fn lanes_left_are_left()
    ensures { LanesLeftAreLeft }
{}

/// Two lists of a plan's stuck lanes are the same.
pub fn stuck_are_one()
    ensures { StuckAreOne }
{}

/// Where the waits and outputs of a plan have an order, no lane is stuck.
pub fn orders_leave_none_stuck()
    ensures { OrdersLeaveNoneStuck }
{}
