//! Ends of an archive that tell what their lanes saw.

ghost use Rattle.std.specs.Prelude.{◌≡◌};
ghost use Rattle.lane_runner.specs.Calls.{IsRunning};

use lane_runner::{LaneArchive, LaneTurns};
use std::alloc::AllocError;

/// What a lane saw of its archive: the name whose word it loaded last, with the word; the serial
/// that it drew last; and the one under which it published last.
#[derive(Clone, Copy)]
pub struct Seen {
    pub loaded: Option<(u32, u64)>,
    pub drawn: Option<u64>,
    pub published: Option<u64>,
}

/// Nothing was asked of the archive.
pub const NOTHING: Seen = Seen {
    loaded: None,
    drawn: None,
    published: None,
};

/// Puts what a lane saw ahead of what comes of its turn, as `loaded 1 0, `, by the name's number, or
/// `drew 0, put 0, `.
pub fn push_seen(text: &mut String, seen: Seen) -> Result<(), AllocError> {
    if let Some((name, word)) = seen.loaded {
        write!(text, "loaded {name} {word}, ")?;
    }
    if let Some(serial) = seen.drawn {
        write!(text, "drew {serial}, ")?;
    }
    if let Some(serial) = seen.published {
        write!(text, "put {serial}, ")?;
    }
    Ok(())
}

/// An end of an archive, and what its lane saw.
#[derive(Drop)]
pub struct Watched<E> {
    pub end: E,
    pub seen: Seen,
}

impl<E: LaneArchive> LaneArchive for Watched<E> {
    ghost home = { λ w. E.home w.end };

    ghost about = { λ w. E.about w.end };

    ghost lane = { λ w. E.lane w.end };

    ghost log = { λ w. E.log w.end };

    fn providers(&self, text: &[u8]) -> usize {
        self.end.providers(text)
    }

    fn provider(&self, text: &[u8], number: usize) -> Option<u32> {
        self.end.provider(text, number)
    }

    fn load(&mut self, name: u32) -> u64 {
        let word = self.end.load(name);
        self.seen.loaded = Some((name, word));
        word
    }

    fn draw(&mut self) -> u64 {
        let serial = self.end.draw();
        self.seen.drawn = Some(serial);
        serial
    }

    fn publish_next(&mut self, serial: u64) {
        self.end.publish_next(serial);
        self.seen.published = Some(serial);
    }

    fn halt(&mut self) {
        self.end.halt();
    }

    fn halted(&mut self) -> bool {
        self.end.halted()
    }
}

/// Watches a lane.
pub fn watch<'a, E: LaneArchive + Drop>(lane: LaneTurns<'a, E>) -> LaneTurns<'a, Watched<E>>
    requires running { IsRunning lane.accepted.now lane.runner lane.chroot (E.about lane.end)
        (E.lane lane.end) (E.log lane.end) }
    ensures end { result.end.end ≡ lane.entry.end }
    ensures running { IsRunning result.accepted.now result.runner result.chroot
        (E.about result.end.end) (E.lane result.end.end) (E.log result.end.end) }
{
    let LaneTurns {
        accepted,
        runner,
        chroot,
        end,
    } = lane;
    LaneTurns {
        accepted,
        runner,
        chroot,
        end: Watched { end, seen: NOTHING },
    }
}
