//! What a lane's seat does. Each call is one step of the archive's table; none takes memory, waits
//! or refuses.

ghost use Rattle.std.specs.Prelude.{◌≡◌, ◌⊎◌, ◌^◌, suc, ◌<◌, true, IsTrue, Some, All, length, slice_get, slice_index};
ghost use Rattle.farm_model.specs.Packages.{names};
ghost use Rattle.farm_model.specs.declared.types.Variant.{Variant};
ghost use Rattle.archive_laws.specs.Bounds.{IsWithinBits};
ghost use Rattle.word_archive.specs.Calls.{seat_output, seat_made, seat_loaded, seat_drawn, seat_published, seat_halted, seat_told, IsLoadedBy, IsBoundedFor};

use crate::rule::{Draws, Halts, Loads, Looks, Publishes};
use crate::seats::LaneSeat;
use crate::shared::SharedArchive;

/// The set of one variant.
fn single(bit: u32) -> u64
    requires { bit < 64 }
    ensures { result ≡ 2 ^ bit }
{
    1 << bit
}

impl SharedArchive<'_> {
    /// Gives the word of a name: bit b is set where variant b is there. Where the seat stands at an
    /// unpack of that name with a variant in its relation, or at a wait that the word satisfies, it
    /// moves on. From a `when` of that name it goes to the branch that the word decides. Else only
    /// what it has loaded changes.
    pub fn load(&self, seat: &mut LaneSeat, name: usize) -> u64
        requires table { seat.old.table ≡ self.now.table.shared.table_id }
        requires about { seat.old.about ≡ self.now.accepted.now }
        requires name { name < names self.now.accepted.now.universe }
        ensures seat { seat.new ≡ seat_loaded seat.old name result }
        ensures loaded { IsLoadedBy seat.old name result }
        ensures bounds { IsBoundedFor seat.old name result }
        ensures grown { IsWithinBits (slice_index seat.old.log.loaded name) result }
    {
        self.accepted.keeps();
        self.table.shared.load::<Loads>(&mut seat.seat, name)
    }

    /// Draws a serial for the output that comes next.
    pub fn draw(&self, seat: &mut LaneSeat) -> u64
        requires table { seat.old.table ≡ self.now.table.shared.table_id }
        requires about { seat.old.about ≡ self.now.accepted.now }
        requires output { (v : Variant) × (seat_output seat.old ≡ Some v) }
        requires unused { length seat.old.log.serials ≡ seat_made seat.old }
        ensures seat { seat.new ≡ seat_drawn seat.old result }
        ensures rises { All (λ x. x < result) seat.old.log.serials }
    {
        self.accepted.keeps();
        let word = self.accepted.universe().names() as usize;
        let serial = self
            .table
            .shared
            .fetch_add::<Draws>(&mut seat.seat, word, 1);
        seat.serials.push_reserved(serial);
        serial
    }

    /// Publishes the output that comes next, under the serial that was drawn for it, and moves past
    /// it.
    pub fn publish_next(&self, seat: &mut LaneSeat, serial: u64)
        requires table { seat.old.table ≡ self.now.table.shared.table_id }
        requires about { seat.old.about ≡ self.now.accepted.now }
        requires output { (v : Variant) × (seat_output seat.old ≡ Some v) }
        requires drawn { length seat.old.log.serials ≡ suc (seat_made seat.old) }
        requires last { slice_get seat.old.log.serials (seat_made seat.old) ≡ Some serial }
        ensures { seat.new ≡ seat_published seat.old }
    {
        self.accepted.keeps();
        let output = seat.outputs[seat.serials.len() - 1];
        self.table
            .shared
            .fetch_or::<Publishes>(&mut seat.seat, output.name as usize, single(output.bit));
        seat.made += 1;
    }

    /// Halts the seat: from then on each lane that looks is told so.
    pub fn halt(&self, seat: &mut LaneSeat)
        requires table { seat.old.table ≡ self.now.table.shared.table_id }
        requires about { seat.old.about ≡ self.now.accepted.now }
        ensures { seat.new ≡ seat_halted seat.old }
    {
        self.accepted.keeps();
        let word = self.table.word_count() - 1;
        self.table.shared.fetch_or::<Halts>(&mut seat.seat, word, 1);
    }

    /// Tells whether some seat has halted. Always true once this seat has halted or was told so.
    pub fn halted(&self, seat: &mut LaneSeat) -> bool
        requires table { seat.old.table ≡ self.now.table.shared.table_id }
        requires about { seat.old.about ≡ self.now.accepted.now }
        ensures seat { seat.new ≡ seat_told seat.old result }
        ensures stays { (seat.old.log.halted ≡ true) ⊎ (seat.old.log.saw ≡ true) → IsTrue result }
    {
        self.accepted.keeps();
        let word = self.table.word_count() - 1;
        self.table.shared.load::<Looks>(&mut seat.seat, word) != 0
    }
}
