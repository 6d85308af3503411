//! Streams in memory, loaded on threads.

ghost use Rattle.std.specs.Prelude.{◌≤◌};

use crate::build::{MODULE_0, NOP, Sent, is_told, one_word, text_of};
use lfi_loader::{LoadError, NoNotices, Notices, load_all};
use lfi_model::Summary;
use lfi_receive::Input;
use lfi_sequence::{Gate, OpenGate};
use std::alloc::{AllocError, Global};
use std::io::{self, ErrorKind, Read};
use std::sync::Wait;
use std::sync::atomic::{AtomicU64, Ordering};
use std::thread::{Threads, yield_now};

/// How often one that waits for other threads lets them go on, at most.
pub const YIELDS: u32 = 10_000_000;

/// Waits until a counter is at this count. The answer is whether it came there.
pub fn comes_to(counter: &AtomicU64, count: u64) -> bool {
    for _ in 0..YIELDS {
        if counter.load(Ordering::SeqCst) == count {
            return true;
        }
        yield_now();
    }
    false
}

/// A text in memory, of which a read gives at most a number of bytes. Where it fails, one read does so
/// once these bytes were given, and the rest follows.
#[derive(Clone, Copy)]
pub struct Pieces<'a> {
    pub left: &'a [u8],
    pub most: usize,
    pub fails: Option<ErrorKind>,
    pub rest: &'a [u8],
}

impl<'a> Pieces<'a> {
    /// A text of which no read fails.
    pub fn of(left: &'a [u8], most: usize) -> Pieces<'a> {
        Pieces {
            left,
            most,
            fails: None,
            rest: &[],
        }
    }
}

impl<'a> Read for Pieces<'a> {
    fn read(&mut self, buf: &mut [u8]) -> io::Result<usize> {
        let count = self.most.min(self.left.len()).min(buf.len());
        if let (0, Some(kind)) = (self.left.len(), self.fails) {
            self.left = self.rest;
            self.fails = None;
            return Err(io::Error::from(kind));
        }
        buf[..count].copy_from_slice(&self.left[..count]);
        self.left = &self.left[count..];
        Ok(count)
    }
}

/// These readers as inputs.
fn inputs_of<R: Read + Copy>(alloc: Global, readers: &[R]) -> Result<Vec<Input<R>>, AllocError> {
    let mut inputs = Vec::new(alloc);
    for reader in readers {
        inputs.push(Input::new(alloc, *reader)?)?;
    }
    Ok(inputs)
}

/// The report on what these readers give, of which it takes one to eight.
pub fn reported<
    S: Threads + Wait + Sync + AllocGlobal,
    R: Read + Copy + Send + Drop,
    G: Gate + Sync,
    N: Notices + Sync,
>(rt: &S, readers: &[R], verifiers: usize, gate: &G, notices: &N) -> Result<Summary, LoadError>
    requires verifiers { (1 ≤ verifiers) × (verifiers ≤ 8) }
{
    let mut inputs = inputs_of(rt.alloc(), readers)?;
    inputs.truncate(8);
    if inputs.is_empty() {
        return Err(LoadError::NoMemory);
    }
    Ok(load_all(rt, rt.alloc(), inputs, verifiers, gate, notices)?.summary())
}

/// The report on these texts, of which it takes one to eight, each in pieces of a number of bytes.
pub fn loaded<S: Threads + Wait + Sync + AllocGlobal, G: Gate + Sync>(
    rt: &S,
    texts: &[&[u8]],
    most: usize,
    verifiers: usize,
    gate: &G,
) -> Result<Summary, LoadError>
    requires verifiers { (1 ≤ verifiers) × (verifiers ≤ 8) }
{
    let mut readers = Vec::new(rt.alloc());
    for text in texts {
        readers.push(Pieces::of(*text, most))?;
    }
    reported(rt, readers.as_slice(), verifiers, gate, &NoNotices)
}

/// The report on what is sent, of which a read gives at most 4,096 bytes.
pub fn loaded_of<S: Threads + Wait + Sync + AllocGlobal, G: Gate + Sync>(
    rt: &S,
    sent: &[Sent],
    verifiers: usize,
    gate: &G,
) -> Result<Summary, LoadError>
    requires verifiers { (1 ≤ verifiers) × (verifiers ≤ 8) }
{
    let text = text_of(rt.alloc(), sent)?;
    loaded(rt, &[text.as_slice()], 4096, verifiers, gate)
}

/// Whether this is told of these texts, each in pieces of a number of bytes.
pub fn tells<S: Threads + Wait + Sync + AllocGlobal>(
    rt: &S,
    texts: &[&[u8]],
    most: usize,
    verifiers: usize,
    want: &str,
) -> bool
    requires verifiers { (1 ≤ verifiers) × (verifiers ≤ 8) }
{
    let told = loaded(rt, texts, most, verifiers, &OpenGate);
    is_told(rt.alloc(), told, want)
}

/// A text whose first read waits until the first read of another one has begun.
#[derive(Clone, Copy)]
struct Meeting<'a> {
    text: Pieces<'a>,
    mine: &'a AtomicU64,
    other: &'a AtomicU64,
    met: &'a AtomicU64,
}

impl<'a> Read for Meeting<'a> {
    fn read(&mut self, buf: &mut [u8]) -> io::Result<usize> {
        if self.mine.swap(1, Ordering::SeqCst) == 0 && comes_to(self.other, 1) {
            self.met.fetch_add(1, Ordering::SeqCst);
        }
        self.text.read(buf)
    }
}

/// A reader of a text that waits for another one.
fn that_meets<'a>(
    left: &'a [u8],
    mine: &'a AtomicU64,
    other: &'a AtomicU64,
    met: &'a AtomicU64,
) -> Meeting<'a> {
    let text = Pieces::of(left, 4096);
    Meeting {
        text,
        mine,
        other,
        met,
    }
}

/// Whether two streams whose readers wait for each other both meet the other, and this is told of
/// them.
fn both_meet<S: Threads + Wait + Sync + AllocGlobal>(rt: &S, want: &str) -> bool {
    let second = one_word(1, NOP);
    let [mine, other] = &[AtomicU64::new(0), AtomicU64::new(0)];
    let met = &AtomicU64::new(0);
    let readers = [
        that_meets(&MODULE_0, mine, other, met),
        that_meets(&second, other, mine, met),
    ];
    let told = reported(rt, &readers, 2, &OpenGate, &NoNotices);
    met.load(Ordering::SeqCst) == 2 && is_told(rt.alloc(), told, want)
}

#[test]
fn two_readers_that_wait_for_each_other(rt: HostRuntime) {
    let want = "module 0: complete, 1 words\nmodule 1: complete, 1 words\nstrays 0\n";
    assert!(rt; both_meet(&rt, want));
}
