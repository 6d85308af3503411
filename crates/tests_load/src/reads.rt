//! Readers that fail or end once, and would give more bytes after that.

use crate::build::{MODULE_0, STRAY, is_told};
use crate::inputs::{Pieces, reported};
use lfi_loader::NoNotices;
use lfi_sequence::OpenGate;
use std::io::{self, ErrorKind, Read};
use std::sync::Wait;
use std::sync::atomic::{AtomicU64, Ordering};
use std::thread::Threads;

/// What a reader answers once in place of the bytes that are next.
#[derive(Clone, Copy)]
enum Answer {
    Error(ErrorKind),
    NoBytes,
}

/// A text in memory, of which the read with this number, from 0 on, is answered otherwise. The reads
/// are counted.
#[derive(Clone, Copy)]
struct Counted<'a> {
    text: Pieces<'a>,
    read: u64,
    answer: Answer,
    reads: &'a AtomicU64,
}

impl<'a> Read for Counted<'a> {
    fn read(&mut self, buf: &mut [u8]) -> io::Result<usize> {
        if self.reads.fetch_add(1, Ordering::SeqCst) != self.read {
            return self.text.read(buf);
        }
        match self.answer {
            Answer::Error(kind) => Err(io::Error::from(kind)),
            Answer::NoBytes => Ok(0),
        }
    }
}

const FAILED: &str = "connection 0: fault 10\nstrays 0\n";

const LOST: &str = "module 0: lost, fault 10\nconnection 0: fault 10\nstrays 0\n";

const WHOLE_BUT_FAILED: &str = "module 0: complete, 1 words\nconnection 0: fault 10\nstrays 0\n";

/// How many bytes of a module's 40 a read gives, which read is answered otherwise, how, and what is
/// told then. That read is the last.
const ROWS: [(usize, u64, Answer, &str); 9] = [
    (12, 0, Answer::Error(ErrorKind::Other), FAILED),
    (12, 1, Answer::Error(ErrorKind::Other), LOST),
    (12, 0, Answer::Error(ErrorKind::Interrupted), FAILED),
    (7, 3, Answer::Error(ErrorKind::Interrupted), LOST),
    (12, 2, Answer::Error(ErrorKind::WouldBlock), LOST),
    (
        40,
        1,
        Answer::Error(ErrorKind::Interrupted),
        WHOLE_BUT_FAILED,
    ),
    (12, 0, Answer::NoBytes, "strays 0\n"),
    (
        12,
        1,
        Answer::NoBytes,
        "module 0: lost, fault 9\nconnection 0: fault 9\nstrays 0\n",
    ),
    (
        40,
        1,
        Answer::NoBytes,
        "module 0: complete, 1 words\nstrays 0\n",
    ),
];

/// Whether what a row says is told of module 0, of which a read gives a number of bytes and one is
/// answered otherwise, which is the last.
fn is_so<S: Threads + Wait + Sync + AllocGlobal>(
    rt: &S,
    row: &(usize, u64, Answer, &'static str),
) -> bool {
    let (most, read, answer, want) = *row;
    let reads = AtomicU64::new(0);
    let reader = Counted {
        text: Pieces::of(&MODULE_0, most),
        read,
        answer,
        reads: &reads,
    };
    let told = reported(rt, &[reader], 2, &OpenGate, &NoNotices);
    let counted = reads.load(Ordering::SeqCst) == read.saturating_add(1);
    counted && is_told(rt.alloc(), told, want)
}

#[test]
fn a_read_that_is_answered_otherwise_is_the_last(rt: HostRuntime) {
    for row in &ROWS {
        assert!(rt; is_so(&rt, row));
    }
}

/// A number of headers, a read each, that are strays.
#[derive(Clone, Copy)]
struct Strays {
    left: u32,
}

impl Read for Strays {
    fn read(&mut self, buf: &mut [u8]) -> io::Result<usize> {
        if self.left == 0 || buf.len() < 12 {
            return Ok(0);
        }
        self.left -= 1;
        buf[..12].copy_from_slice(&STRAY);
        Ok(12)
    }
}

#[test]
fn more_than_a_million_turns(rt: HostRuntime) {
    let told = reported(&rt, &[Strays { left: 1_100_000 }], 2, &OpenGate, &NoNotices);
    assert!(rt; is_told(rt.alloc(), told, "strays 1100000\n"));
}
