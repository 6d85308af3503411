//! Outputs that take what `lfiload run` prints.

use crate::devices::{FullWriter, loses};
use crate::runs::{WELL, begin, tells};
use std::fs::{self, File, Files};
use std::io::{self, Write};
use std::net::Net;
use std::rt::Clock;
use std::sync::Wait;
use std::thread::Threads;

/// An image file: LFI1, eight words, entry 0, profile 1, base 2^32, the words.
const HELLO: [u8; 56] = [
    0x4C, 0x46, 0x49, 0x31, 8, 0, 0, 0, 0, 0, 0, 0, 1, 0, 0, 0, 0, 0, 0, 0, 1, 0, 0, 0, // head
    0x00, 0x09, 0x80, 0xD2, // MOVZ X0, #72
    0xBE, 0x06, 0x40, 0xF9, // LDR X30, [X21, #8]
    0xC0, 0x03, 0x3F, 0xD6, // BLR X30
    0x20, 0x0D, 0x80, 0xD2, // MOVZ X0, #105
    0xBE, 0x06, 0x40, 0xF9, // LDR X30, [X21, #8]
    0xC0, 0x03, 0x3F, 0xD6, // BLR X30
    0xBE, 0x02, 0x40, 0xF9, // LDR X30, [X21]
    0xC0, 0x03, 0x3F, 0xD6, // BLR X30
];

/// One of three words: entry 1, over and over.
const PRINTS: [u8; 36] = [
    0x4C, 0x46, 0x49, 0x31, 3, 0, 0, 0, 0, 0, 0, 0, 1, 0, 0, 0, 0, 0, 0, 0, 1, 0, 0, 0, // head
    0xBE, 0x06, 0x40, 0xF9, // LDR X30, [X21, #8]
    0xC0, 0x03, 0x3F, 0xD6, // BLR X30
    0xFE, 0xFF, 0xFF, 0x17, // B back to the first
];

/// The file of the first.
const HELLO_FILES: [(&str, &[u8]); 1] = [("hello.tmp/hello.img", &HELLO)];

/// The run of the first.
const LINE: &str = "lfiload run hello.tmp/hello.img --steps 1000";

/// Keeps a number of bytes, and takes no more.
#[derive(Drop)]
struct PartWriter {
    bytes: Vec<u8>,
    left: usize,
}

impl Write for PartWriter {
    fn write(&mut self, bytes: &[u8]) -> io::Result<usize> {
        let taken = bytes.len().min(self.left);
        self.bytes.extend_from_slice(&bytes[..taken])?;
        self.left -= taken;
        Ok(taken)
    }

    fn flush(&mut self) -> io::Result<()> {
        Ok(())
    }
}

/// What is in an output that takes a number of bytes, and what is told: the run ends at the call that prints a byte more.
#[derive(Clone, Copy)]
struct Taken {
    left: usize,
    out: &'static str,
    err: &'static str,
}

const TAKEN: [Taken; 3] = [
    Taken {
        left: 0,
        out: "",
        err: "halt 5 status 255 after 2 steps\n",
    },
    Taken {
        left: 1,
        out: "H",
        err: "halt 5 status 255 after 5 steps\n",
    },
    Taken {
        left: 2,
        out: "Hi",
        err: "halt 5 status 105 after 7 steps\n",
    },
];

/// Whether that is in such an output in the end, and that is told.
fn takes<S: Threads + Wait + Files<File = File> + Net + Clock + Sync + AllocGlobal>(
    rt: &S,
    taken: &Taken,
) -> bool {
    let out = PartWriter {
        bytes: Vec::new(rt.alloc()),
        left: taken.left,
    };
    match tells(rt, LINE, out, WELL, taken.err) {
        Some(out) => out.bytes.as_slice() == taken.out.as_bytes(),
        None => false,
    }
}

/// The first of these outputs in which something else is, or of which something else is told.
fn first_other_taken<S: Threads + Wait + Files<File = File> + Net + Clock + Sync + AllocGlobal>(
    rt: &S,
) -> Option<usize> {
    for place in 0..TAKEN.len() {
        if !takes(rt, &TAKEN[place]) {
            return Some(place);
        }
    }
    None
}

/// Whether an end with 255 is told where a write fails after one byte.
fn fails_midway<S: Threads + Wait + Files<File = File> + Net + Clock + Sync + AllocGlobal>(
    rt: &S,
) -> bool {
    let told = "halt 5 status 255 after 5 steps\n";
    tells(rt, LINE, FullWriter { left: 1 }, WELL, told).is_some()
}

/// Takes one byte a call, and is interrupted before each.
#[derive(Drop)]
struct HaltingWriter {
    bytes: Vec<u8>,
    is_ready: bool,
}

impl Write for HaltingWriter {
    fn write(&mut self, bytes: &[u8]) -> io::Result<usize> {
        self.is_ready = !self.is_ready;
        if self.is_ready {
            return Err(io::Error::from(io::ErrorKind::Interrupted));
        }
        let taken = bytes.len().min(1);
        self.bytes.extend_from_slice(&bytes[..taken])?;
        Ok(taken)
    }

    fn flush(&mut self) -> io::Result<()> {
        Ok(())
    }
}

/// Whether all is written to such an output.
fn is_written_all_the_same<
    S: Threads + Wait + Files<File = File> + Net + Clock + Sync + AllocGlobal,
>(rt: &S) -> bool {
    let out = HaltingWriter {
        bytes: Vec::new(rt.alloc()),
        is_ready: false,
    };
    let told = "halt 5 status 105 after 7 steps\n";
    match tells(rt, LINE, out, WELL, told) {
        Some(out) => out.bytes.as_slice() == b"Hi".as_slice(),
        None => false,
    }
}

/// Whether all is written, and the run fails, where what is told takes five bytes.
fn is_written_beside_a_loss<
    S: Threads + Wait + Files<File = File> + Net + Clock + Sync + AllocGlobal,
>(rt: &S) -> bool {
    match loses(rt, LINE, Vec::new(rt.alloc()), 5) {
        Some(out) => out.as_slice() == b"Hi".as_slice(),
        None => false,
    }
}

#[test]
fn outputs_of_an_image(rt: HostRuntime) -> io::Result<()> {
    begin(&rt, "hello.tmp", &HELLO_FILES)?;
    let is_written = is_written_all_the_same(&rt) && is_written_beside_a_loss(&rt);
    let takes = first_other_taken(&rt).is_none() && fails_midway(&rt);
    assert!(rt; is_written && takes);
    fs::remove_dir_all(&rt, "hello.tmp")
}

/// The file of the second.
const PRINTS_FILES: [(&str, &[u8]); 1] = [("much.tmp/prints.img", &PRINTS)];

/// Whether a run of 30,000 steps prints all that an output has room for, and exactly this is told.
fn prints<S: Threads + Wait + Files<File = File> + Net + Clock + Sync + AllocGlobal>(
    rt: &S,
    room: usize,
    printed: usize,
    told: &str,
) -> bool {
    let line = "lfiload run much.tmp/prints.img --steps 30000";
    match tells(rt, line, FullWriter { left: room }, WELL, told) {
        Some(out) => out.left == room.saturating_sub(printed),
        None => false,
    }
}

#[test]
fn much_output(rt: HostRuntime) -> io::Result<()> {
    begin(&rt, "much.tmp", &PRINTS_FILES)?;
    let all = prints(&rt, 20_000, 10_000, "halt 1 after 30000 steps\n");
    let less = prints(&rt, 8191, 8191, "halt 5 status 255 after 24574 steps\n");
    assert!(rt; all && less);
    fs::remove_dir_all(&rt, "much.tmp")
}
