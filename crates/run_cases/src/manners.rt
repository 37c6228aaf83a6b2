//! What gates do, as questions name it.

use deb_text::read_number;

/// Where a gate of a case holds a lane, and where a lane gives up. Lanes count from 0, their
/// instructions from 1.
#[derive(Clone, Copy, PartialEq, Eq)]
pub enum Manner {
    /// It holds none. A lane that waits looks again and again.
    Patient,
    /// It holds each lane ahead of each of its instructions until all lanes stand there.
    Together,
    /// It holds a lane ahead of each of its instructions until the next lane has begun.
    InTurn,
    /// The lane gives up ahead of this instruction.
    Before { lane: u32, instruction: u32 },
    /// The lane gives up where it has carried out this unpack.
    Unpacked { lane: u32, instruction: u32 },
    /// The lane gives up where it waits in vain, once each other one is held ahead of its instruction
    /// of this number, until the bell rings.
    Pause { lane: u32, held: u32 },
    /// The lane is held ahead of this instruction until the bell rings, and each other one gives up
    /// ahead of its first.
    Halts { lane: u32, instruction: u32 },
}

impl Manner {
    /// The lane whose stop is asked for; none has this number where no lane is to stop.
    pub fn lane(self) -> u32 {
        match self {
            Manner::Patient | Manner::Together | Manner::InTurn => u32::MAX,
            Manner::Before { lane, .. }
            | Manner::Unpacked { lane, .. }
            | Manner::Pause { lane, .. }
            | Manner::Halts { lane, .. } => lane,
        }
    }
}

/// A small number.
fn number_of(word: &str) -> Option<u32> {
    u32::try_from(read_number(word.as_bytes())?).ok()
}

/// What the words behind a question have a gate do; nothing where they are no such words.
pub fn manner_of(words: &[&str]) -> Option<Manner> {
    match words {
        ["patient"] => Some(Manner::Patient),
        ["together"] => Some(Manner::Together),
        ["in-turn"] => Some(Manner::InTurn),
        [word, lane, number] => stop_of(word, number_of(lane)?, number_of(number)?),
        _ => None,
    }
}

fn stop_of(word: &str, lane: u32, number: u32) -> Option<Manner> {
    match word {
        "before" => Some(Manner::Before {
            lane,
            instruction: number,
        }),
        "unpacked" => Some(Manner::Unpacked {
            lane,
            instruction: number,
        }),
        "pause" => Some(Manner::Pause { lane, held: number }),
        "halts" => Some(Manner::Halts {
            lane,
            instruction: number,
        }),
        _ => None,
    }
}
