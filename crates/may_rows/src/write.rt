//! Changes of what a chroot may hold of one name.

ghost use Rattle.std.specs.Prelude.{◌≡◌, ◌<◌, ◌+◌, ◌^◌, length};
ghost use Rattle.farm_model.specs.Packages.{names, variants};
ghost use Rattle.may_rows.specs.Words.{AreWords, AreOfName, joined_word, written, slot_of, may_of, with_slot, with_spent, with_recipe};

use crate::space::greatest_size;
use crate::state::MayHold;
use farm_universe::Universe;

/// What may be there or was, where something was.
fn joined(here: u64, last: u64) -> u64
    ensures { result ≡ joined_word here last }
{
    if last == 0 { 0 } else { here | last }
}

impl MayHold {
    /// Writes the words of a name.
    pub(crate) fn write(&mut self, name: u32, here: u64, ready: u64, last: u64)
        requires here { name < length self.old.here }
        requires ready { name < length self.old.ready }
        requires last { name < length self.old.last }
        requires both { name < length self.old.both }
        ensures { self.new ≡ written self.old name here ready last }
    {
        self.here[name as usize] = here;
        self.ready[name as usize] = ready;
        self.last[name as usize] = last;
        self.both[name as usize] = joined(here, last);
    }

    /// Writes the words of a name, and keeps the space that may be taken.
    pub fn put(&mut self, universe: &Universe, name: u32, here: u64, ready: u64, last: u64)
        requires state { AreWords universe.now self.old }
        requires named { name < names universe.now }
        requires words { AreOfName (variants universe.now name) here ready last
            (joined_word here last) }
        ensures state { AreWords universe.now self.new }
        ensures map { may_of self.new
            ≡ with_slot (may_of self.old) name (slot_of here ready last) }
    {
        let _names = universe.names();
        let before = greatest_size(universe, name, self.here_word(name));
        let after = greatest_size(universe, name, here);
        self.used = self.used - before + after;
        self.write(name, here, ready, last);
    }

    /// Spends a further cost.
    pub(crate) fn spend(&mut self, cost: u64)
        requires { self.old.cost + cost < 2 ^ 64 }
        ensures { self.new ≡ with_spent self.old cost }
    {
        self.cost += cost;
    }

    /// Notes that a recipe was built.
    pub(crate) fn set_built(&mut self, recipe: u32)
        requires { recipe < length self.old.built }
        ensures { self.new ≡ with_recipe self.old recipe }
    {
        self.built[recipe as usize] = true;
    }
}
