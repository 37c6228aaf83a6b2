//! Whether a withdrawn member of a set may still be needed.

ghost use Rattle.std.specs.Prelude.{◌≡◌, ◌∷◌, []};
ghost use Rattle.farm_model.specs.Common.{some_below, names};
ghost use Rattle.may_rows.specs.Words.{AreWords, may_of};
ghost use Rattle.may_rows.specs.Withdraws.{needs_at};

use crate::instruction::LaneOf;
use crate::state::MayHold;

/// Tells whether a configured variant of some name may miss a withdrawn name.
fn is_needed(of: LaneOf<'_>, state: &MayHold, member: u32) -> bool
    requires { AreWords of.universe.now state.now }
    ensures { result ≡ some_below (names of.entry.universe.now)
        (needs_at of.entry.universe.now (member ∷ []) (may_of state.now)) }
{
    of.tables
        .is_missed(member, state.last_word(member), &state.ready)
}

/// Tells whether a configured variant of some name may miss a withdrawn member.
pub fn some_needs(of: LaneOf<'_>, state: &MayHold, members: &[u32]) -> bool
    requires { AreWords of.universe.now state.now }
    ensures { result ≡ some_below (names of.entry.universe.now)
        (needs_at of.entry.universe.now members.now (may_of state.now)) }
{
    for place in 0..members.len() {
        if is_needed(of, state, members[place]) {
            return true;
        }
    }
    false
}
