//! How long clients are waited for, and heard.

ghost use Rattle.std.specs.Duration.{as_nanos};
ghost use Rattle.std.specs.Prelude.{◌≡◌, ◌-◌};
ghost use Rattle.lfi_sync.specs.Deadlines.{length_of, limit_of};

use std::rt::Clock;
use std::time::{Duration, Instant};

/// Some time, from when it began.
#[derive(Clone, Copy)]
pub(crate) struct Span {
    length: Duration,
    /// Nothing where the clock couldn't be read.
    began: Option<Instant>,
}

impl Span {
    /// How much of it is left. Where the clock can't be read it is over.
    pub(crate) fn left<C: Clock>(&self, rt: &C) -> Duration {
        match self.gone(rt) {
            Some(gone) => self.left_after(gone),
            None => Duration::ZERO,
        }
    }

    /// How much time has gone by since it began, or nothing where the clock can't be read.
    fn gone<C: Clock>(&self, rt: &C) -> Option<Duration> {
        self.began?.elapsed(rt).ok()
    }

    /// How much of it is left once so much time has gone by.
    fn left_after(&self, gone: Duration) -> Duration
        ensures { as_nanos result ≡ as_nanos (length_of self.now) - as_nanos gone }
    {
        self.length.saturating_sub(gone)
    }
}

/// Until when clients are waited for, and heard.
#[derive(Clone, Copy)]
pub(crate) enum Deadline {
    /// As long as they take.
    Never,
    /// Until this time is over.
    After(Span),
}

impl Deadline {
    /// That of so long a time, which begins now.
    pub(crate) fn from_now<C: Clock>(rt: &C, limit: Option<Duration>) -> Deadline
        ensures { limit_of result ≡ limit }
    {
        match limit {
            Some(length) => Deadline::After(Span {
                length,
                began: Instant::now(rt).ok(),
            }),
            None => Deadline::Never,
        }
    }

    /// How long the time was that it began with.
    pub(crate) fn limit(&self) -> Option<Duration>
        ensures { result ≡ limit_of self.now }
    {
        match self {
            Deadline::Never => None,
            Deadline::After(span) => Some(span.length),
        }
    }
}
