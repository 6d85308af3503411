//! Receivers that come ahead of the verifiers: their threads wait for them.

ghost use Rattle.std.specs.Prelude.{◌≤◌};

use crate::build::Sent::{Close, Open, Pages};
use crate::build::{Sent, is_told, text_of};
use crate::inputs::{Pieces, comes_to, reported};
use lfi_loader::NoNotices;
use lfi_model::{Item, Judged};
use lfi_sequence::Gate;
use std::io::{self, Read};
use std::sync::Wait;
use std::sync::atomic::{AtomicU64, Ordering};
use std::thread::{Threads, yield_now};

/// How many bytes a page has in a stream, with its header.
const PAGE_BYTES: u64 = 4108;

/// How many pages are read before the first item is judged.
const FIRST: u64 = 100;

/// By how many pages reads may be ahead of what was judged: 128 that nobody has taken, and one that each verifier has.
const MOST: u64 = 136;

/// How many pages of two connections are read before the first item is judged: a read less than both come to.
const FIRST_OF_TWO: u64 = 230;

/// By how many pages their reads may be ahead: as many as each may wait with, those that verifiers have, and those of a read
/// that the other one has not used yet.
const MOST_OF_TWO: u64 = 280;

/// How far texts were read and judged. As a gate it keeps items from being judged until a number of pages were read.
#[derive(Drop)]
struct Race {
    first: u64,
    bytes: AtomicU64,
    judged: AtomicU64,
    begun: AtomicU64,
    /// By how many pages a read was ahead, at most.
    ahead: AtomicU64,
}

impl Race {
    fn new(first: u64) -> Race {
        Race {
            first,
            bytes: AtomicU64::new(0),
            judged: AtomicU64::new(0),
            begun: AtomicU64::new(0),
            ahead: AtomicU64::new(0),
        }
    }
}

impl Gate for Race {
    fn before(&self, _item: &Item) {
        if !comes_to(&self.begun, 1) {
            self.ahead.store(u64::MAX, Ordering::SeqCst);
        }
    }

    fn after(&self, _item: &Judged) {
        self.judged.fetch_add(1, Ordering::SeqCst);
        yield_now();
    }
}

/// A text of pages, whose reads are told to the race.
#[derive(Clone, Copy)]
struct Runner<'a> {
    text: Pieces<'a>,
    race: &'a Race,
}

impl<'a> Runner<'a> {
    fn of(text: &'a [u8], race: &'a Race) -> Runner<'a> {
        let text = Pieces::of(text, 65_536);
        Runner { text, race }
    }
}

impl<'a> Read for Runner<'a> {
    fn read(&mut self, buf: &mut [u8]) -> io::Result<usize> {
        let pages = self.race.bytes.load(Ordering::SeqCst) / PAGE_BYTES;
        let judged = self.race.judged.load(Ordering::SeqCst);
        self.race
            .ahead
            .fetch_max(pages.saturating_sub(judged), Ordering::SeqCst);
        if pages >= self.race.first {
            self.race.begun.store(1, Ordering::SeqCst);
        }
        let count = self.text.read(buf)?;
        self.race.bytes.fetch_add(count as u64, Ordering::SeqCst);
        Ok(count)
    }
}

/// A module of 400 pages.
const SENT: [Sent; 3] = [Open(0, 409_600), Pages(0, 400), Close(0)];

const TOLD: &str = "module 0: complete, 409600 words\nstrays 0\n";

/// Whether the pages of a connection are read ahead of these verifiers, who begin late, but never too far, and all come to be
/// placed.
fn is_never_too_far<S: Threads + Wait + Sync + AllocGlobal>(rt: &S, verifiers: usize) -> bool
    requires verifiers { (1 ≤ verifiers) × (verifiers ≤ 8) }
{
    let Ok(text) = text_of(rt.alloc(), &SENT) else {
        return false;
    };
    let race = Race::new(FIRST);
    let runner = Runner::of(text.as_slice(), &race);
    let told = reported(rt, &[runner], verifiers, &race, &NoNotices);
    let ahead = race.ahead.load(Ordering::SeqCst);
    FIRST <= ahead && ahead <= MOST && is_told(rt.alloc(), told, TOLD)
}

/// Another module of 400 pages.
const OTHER: [Sent; 3] = [Open(9, 409_600), Pages(9, 400), Close(9)];

const BOTH: &str = "module 0: complete, 409600 words\nmodule 9: complete, 409600 words\nstrays 0\n";

/// Whether two connections that wait at once are both called, and all pages come to be placed.
fn both_go_on<S: Threads + Wait + Sync + AllocGlobal>(rt: &S, verifiers: usize) -> bool
    requires verifiers { (1 ≤ verifiers) × (verifiers ≤ 8) }
{
    let (Ok(one), Ok(other)) = (text_of(rt.alloc(), &SENT), text_of(rt.alloc(), &OTHER)) else {
        return false;
    };
    let race = Race::new(FIRST_OF_TWO);
    let one = Runner::of(one.as_slice(), &race);
    let other = Runner::of(other.as_slice(), &race);
    let told = reported(rt, &[one, other], verifiers, &race, &NoNotices);
    let ahead = race.ahead.load(Ordering::SeqCst);
    FIRST_OF_TWO <= ahead && ahead <= MOST_OF_TWO && is_told(rt.alloc(), told, BOTH)
}

#[test]
fn two_receivers_wait_for_verifiers(rt: HostRuntime) {
    assert!(rt; both_go_on(&rt, 1));
    assert!(rt; both_go_on(&rt, 8));
}

#[test]
fn a_receiver_waits_for_verifiers(rt: HostRuntime) {
    assert!(rt; is_never_too_far(&rt, 1));
    assert!(rt; is_never_too_far(&rt, 8));
}
