//! How fast pages are written: `bench pages ROUNDS [time]` writes 256 pages in each round, and a second word asks for the speed.

use crate::faults::Fault;
use crate::times::{micros, nanos_since};
use lfi_module::PageSize;
use page_buf::OpenPage;
use std::alloc::{AllocError, Global};
use std::time::Instant;

/// How many bytes a small page has.
const PAGE_BYTES: usize = 4096;

/// The pages that are written in one round: a megabyte.
const BATCH: usize = 256;

fn batch(alloc: Global) -> Result<Vec<OpenPage>, AllocError> {
    let mut pages = Vec::with_capacity(alloc, BATCH)?;
    for _ in 0..BATCH {
        pages.push(OpenPage::new(alloc, PageSize::SMALL)?)?;
    }
    Ok(pages)
}

/// What was written, the sum of the pages' last bytes, and the nanoseconds of the writing.
#[derive(Clone, Copy)]
struct Written {
    bytes: u64,
    sum: u64,
    nanos: u64,
}

/// Writes these bytes to each page, as many as fit: how many bytes, and in how many nanoseconds.
fn fill(rt: &HostRuntime, pages: &mut [OpenPage], bytes: &[u8]) -> Result<(u64, u64), Fault> {
    let mut written = 0u64;
    let start = Instant::now(rt)?;
    for page in pages {
        written = written.saturating_add(page.write(bytes) as u64);
    }
    Ok((written, nanos_since(rt, start)?))
}

/// The last byte of a page, 0 where it isn't whole.
fn last_byte(page: OpenPage) -> u64 {
    match page.seal() {
        Ok(sealed) => sealed.bytes().last().copied().unwrap_or(0) as u64,
        Err(_) => 0,
    }
}

/// The sum of the pages' last bytes, so that what was written is read.
fn last_bytes(pages: Vec<OpenPage>) -> u64 {
    let mut sum = 0u64;
    for page in pages {
        sum = sum.saturating_add(last_byte(page));
    }
    sum
}

impl Written {
    /// Writes pages once more.
    fn round(self, rt: &HostRuntime, source: &[u8]) -> Result<Written, Fault> {
        let mut pages = batch(rt.alloc())?;
        let filled = fill(rt, &mut pages, source);
        let sum = last_bytes(pages);
        let (bytes, nanos) = filled?;
        Ok(Written {
            bytes: self.bytes.saturating_add(bytes),
            sum: self.sum.saturating_add(sum),
            nanos: self.nanos.saturating_add(nanos),
        })
    }
}

/// Writes pages in `rounds` rounds, and prints their speed where it is asked for.
pub(crate) fn run(rt: &HostRuntime, rounds: u64, timed: Option<u64>) -> Result<(), Fault> {
    let source = [0x1F; PAGE_BYTES];
    let mut written = Written {
        bytes: 0,
        sum: 0,
        nanos: 0,
    };
    for _ in 0..rounds {
        written = written.round(rt, &source)?;
    }
    let Written { bytes, sum, nanos } = written;
    println!(rt; "{bytes} bytes written in pages, last bytes sum to {sum}")?;
    if timed.is_some() {
        println!(rt; "{} MB/s", bytes / micros(nanos))?;
    }
    Ok(())
}
