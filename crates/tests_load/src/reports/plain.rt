//! Streams in memory through the reference implementation.

use crate::build::is_told;
use lfi_model::{EndCause, Summary};
use lfi_reference::{PlainStream, report_on};
use std::alloc::{AllocError, Global};

/// A stream, what ended its input, and the modules that are claimed for it.
#[derive(Clone, Copy)]
pub struct Given<'a> {
    bytes: &'a [u8],
    cause: EndCause,
    modules: &'a [u16],
}

impl<'a> Given<'a> {
    /// A stream that came to its end, for which these modules are claimed.
    pub fn whole(bytes: &'a [u8], modules: &'a [u16]) -> Given<'a> {
        Given::of(bytes, EndCause::End, modules)
    }

    /// A stream whose input ended so, for which these modules are claimed.
    pub fn of(bytes: &'a [u8], cause: EndCause, modules: &'a [u16]) -> Given<'a> {
        Given {
            bytes,
            cause,
            modules,
        }
    }
}

/// Which modules are among these.
fn claimed_of(modules: &[u16]) -> [bool; 16] {
    let mut claimed = [false; 16];
    for m in modules {
        if *m < 16 {
            claimed[*m as usize] = true;
        }
    }
    claimed
}

/// These streams.
fn streams_of(alloc: Global, given: &[Given<'_>]) -> Result<Vec<PlainStream>, AllocError> {
    let mut streams = Vec::new(alloc);
    for one in given {
        streams.push(PlainStream {
            bytes: Vec::from_slice(alloc, one.bytes)?,
            cause: one.cause,
            claimed: claimed_of(one.modules),
        })?;
    }
    Ok(streams)
}

/// The reference implementation's report on these streams, of which it takes at most eight.
pub fn plainly(alloc: Global, given: &[Given<'_>]) -> Result<Summary, AllocError> {
    let mut streams = streams_of(alloc, given)?;
    streams.truncate(8);
    Ok(report_on(alloc, streams.as_slice())?.summary())
}

/// How many pages the reference implementation has placed of module 0 of a stream, and how many words are in
/// the first of them.
pub fn placed_of(alloc: Global, given: Given<'_>) -> Result<(usize, usize), AllocError> {
    let streams = streams_of(alloc, &[given])?;
    let report = report_on(alloc, streams.as_slice())?;
    let Some(loaded) = report.modules.first() else {
        return Ok((0, 0));
    };
    let words = match loaded.placed.first() {
        Some(page) => page.len(),
        None => 0,
    };
    Ok((loaded.placed.len(), words))
}

/// Whether the reference implementation tells this of these streams.
pub fn tells_plainly(alloc: Global, given: &[Given<'_>], want: &str) -> bool {
    is_told(alloc, plainly(alloc, given), want)
}
