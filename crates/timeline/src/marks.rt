//! The marks of a bar: what takes most of the time that each stands for.

/// What a lane does.
#[derive(Clone, Copy)]
pub(crate) enum Mark {
    Wait,
    Install,
    Build,
}

/// How much of a part of a bar each takes.
#[derive(Clone, Copy)]
pub(crate) struct Share {
    wait: u128,
    install: u128,
    build: u128,
}

impl Share {
    /// Nothing takes any of it.
    pub(crate) const NONE: Share = Share {
        wait: 0,
        install: 0,
        build: 0,
    };

    fn add(&mut self, mark: Mark, time: u128) {
        match mark {
            Mark::Wait => self.wait = self.wait.saturating_add(time),
            Mark::Install => self.install = self.install.saturating_add(time),
            Mark::Build => self.build = self.build.saturating_add(time),
        }
    }

    /// The mark of what takes most, a wait before an install before a build where they take the
    /// same; none where nothing takes any.
    pub(crate) fn mark(self) -> Option<Mark> {
        if self.wait == 0 && self.install == 0 && self.build == 0 {
            None
        } else if self.wait >= self.install && self.wait >= self.build {
            Some(Mark::Wait)
        } else if self.install >= self.build {
            Some(Mark::Install)
        } else {
            Some(Mark::Build)
        }
    }
}

/// The byte of a part of a bar.
pub(crate) fn byte_of(share: Share) -> &'static [u8] {
    match share.mark() {
        None => b" ",
        Some(Mark::Wait) => b".",
        Some(Mark::Install) => b"=",
        Some(Mark::Build) => b"#",
    }
}

/// A span of time in which a lane does one thing.
#[derive(Clone, Copy)]
pub(crate) struct Span {
    pub(crate) mark: Mark,
    pub(crate) begin: u128,
    pub(crate) end: u128,
}

/// Adds a span to the parts of a bar, which stand for equal parts of the time up to `total`.
pub(crate) fn add_span(shares: &mut Vec<Share>, span: Span, total: u128) {
    let width = shares.len() as u128;
    let (from, to) = (
        span.begin.saturating_mul(width),
        span.end.saturating_mul(width),
    );
    let first = from.checked_div(total).unwrap_or(0);
    for part in usize::try_from(first).unwrap_or(shares.len())..shares.len() {
        let begin = (part as u128).saturating_mul(total);
        let low = from.max(begin);
        let high = to.min(begin.saturating_add(total));
        if high <= low {
            return;
        }
        if let Some(share) = shares.get_mut(part) {
            share.add(span.mark, high - low);
        }
    }
}
