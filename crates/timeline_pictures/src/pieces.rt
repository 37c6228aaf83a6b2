//! The pieces of a lane: what is drawn as one.

use crate::frame::Frame;
use std::alloc::{AllocError, Global};
use timeline::TimedPlan;

/// A piece that is less wide than this may run together with others.
const SHORT: u128 = 20;

/// What a lane does.
#[derive(Clone, Copy, PartialEq, Eq)]
pub(crate) enum Kind {
    Wait,
    Install,
    Build,
}

/// A piece of a lane: from when to when, the numbers of its first event and of its last, and how
/// much of it the lane waits, installs and builds.
#[derive(Clone, Copy)]
pub(crate) struct Piece {
    pub(crate) begin: u128,
    pub(crate) end: u128,
    pub(crate) first: usize,
    pub(crate) last: usize,
    pub(crate) builds: usize,
    wait: u128,
    install: u128,
    build: u128,
}

impl Piece {
    /// The piece of one event in which its lane does one thing.
    fn new(kind: Kind, begin: u128, end: u128, number: usize) -> Piece {
        let took = end.saturating_sub(begin);
        let share = |other: Kind| if other == kind { took } else { 0 };
        Piece {
            begin,
            end,
            first: number,
            last: number,
            builds: if kind == Kind::Build { 1 } else { 0 },
            wait: share(Kind::Wait),
            install: share(Kind::Install),
            build: share(Kind::Build),
        }
    }

    /// The piece of this and of the next one.
    fn joined(self, next: Piece) -> Piece {
        Piece {
            begin: self.begin,
            end: next.end,
            first: self.first,
            last: next.last,
            builds: self.builds.saturating_add(next.builds),
            wait: self.wait.saturating_add(next.wait),
            install: self.install.saturating_add(next.install),
            build: self.build.saturating_add(next.build),
        }
    }

    /// What takes most of it.
    pub(crate) fn kind(self) -> Kind {
        if self.wait > self.install && self.wait > self.build {
            Kind::Wait
        } else if self.install > self.build {
            Kind::Install
        } else {
            Kind::Build
        }
    }

    /// Tells whether the lane does one thing alone in it.
    pub(crate) fn is_pure(self, kind: Kind) -> bool {
        (kind == Kind::Wait || self.wait == 0)
            && (kind == Kind::Install || self.install == 0)
            && (kind == Kind::Build || self.build == 0)
    }

    /// Tells whether it is one build alone.
    pub(crate) fn is_one_build(self) -> bool {
        self.is_pure(Kind::Build) && self.first == self.last
    }
}

/// Tells whether a piece runs together with the next one: both install, or both are short.
fn joins(frame: &Frame, piece: Piece, next: Piece) -> bool {
    let both_install = piece.is_pure(Kind::Install) && next.is_pure(Kind::Install);
    let both_short = frame.span(piece.begin, piece.end) < SHORT
        && frame.span(next.begin, next.end) < SHORT;
    both_install || both_short
}

/// Puts a piece behind others, unless it takes no time.
fn add(pieces: &mut Vec<Piece>, frame: &Frame, next: Piece) -> Result<(), AllocError> {
    if next.end <= next.begin {
        return Ok(());
    }
    if let Some(last) = pieces.last_mut() {
        if joins(frame, *last, next) {
            *last = last.joined(next);
            return Ok(());
        }
    }
    pieces.push(next)?;
    Ok(())
}

/// The pieces of a lane that has these events.
pub(crate) fn pieces_of(
    alloc: Global,
    run: &TimedPlan<'_>,
    frame: &Frame,
    events: &[usize],
) -> Result<Vec<Piece>, AllocError> {
    let mut pieces = Vec::new(alloc);
    for number in events {
        if let Some(event) = run.event(*number) {
            let kind = match run.built(event) {
                Some(_) => Kind::Build,
                None => Kind::Install,
            };
            let wait = Piece::new(Kind::Wait, event.free, event.begin, *number);
            add(&mut pieces, frame, wait)?;
            let work = Piece::new(kind, event.begin, event.end, *number);
            add(&mut pieces, frame, work)?;
        }
    }
    Ok(pieces)
}
