//! How long something took, in whole numbers.

ghost use Rattle.std.specs.Prelude.{◌<◌};

use crate::faults::Fault;
use std::rt::Clock;
use std::time::Instant;

/// How many nanoseconds have gone since then.
pub(crate) fn nanos_since<R: Clock>(rt: &R, start: Instant) -> Result<u64, Fault> {
    let nanos = start.elapsed(rt)?.as_nanos();
    Ok(u64::try_from(nanos).unwrap_or(u64::MAX))
}

/// The same in microseconds, at least one.
pub(crate) fn micros(nanos: u64) -> u64
    ensures { 0 < result }
{
    (nanos / 1000).max(1)
}
