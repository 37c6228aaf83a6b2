//! A lane's end of the shared archive.

ghost use Rattle.std.specs.Prelude.{◌≡◌};
ghost use Rattle.farm_executor.specs.LaneEnds.{AreRising};

use crate::providers::Providers;
use lane_runner::LaneArchive;
use word_archive::{LaneSeat, SharedArchive};

/// A lane's seat beside its archive: the lane's end of it, and which names provide what. The
/// serials that the lane has drawn rise.
#[derive(Drop)]
pub struct Link<'a, 'p> {
    pub archive: &'a SharedArchive<'p>,
    pub providers: &'a Providers,
    pub seat: LaneSeat,
    pub ghost same: { (seat.table ≡ archive.now.table.shared.table_id)
        × (seat.about ≡ archive.now.accepted.now) },
    pub ghost rising: { AreRising seat.log.serials },
}

impl LaneArchive for Link<'_, '_> {
    ghost home = { λ l. l.seat.table };

    ghost about = { λ l. l.seat.about };

    ghost lane = { λ l. l.seat.lane };

    ghost log = { λ l. l.seat.log };

    fn providers(&self, text: &[u8]) -> usize {
        self.providers.count(text)
    }

    fn provider(&self, text: &[u8], number: usize) -> Option<u32> {
        self.providers.name(text, number)
    }

    fn load(&mut self, name: u32) -> u64 {
        self.archive.load(&mut self.seat, name as usize)
    }

    fn draw(&mut self) -> u64 {
        self.archive.draw(&mut self.seat)
    }

    fn publish_next(&mut self, serial: u64) {
        self.archive.publish_next(&mut self.seat, serial);
    }

    fn halt(&mut self) {
        self.archive.halt(&mut self.seat);
    }

    fn halted(&mut self) -> bool {
        self.archive.halted(&mut self.seat)
    }
}
