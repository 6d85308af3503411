//! Readers and writers that give and take little, or fail.

use crate::images::rows::{ONE_RET, RET, file_of, image};
use crate::items::{NOP, UNKNOWN};
use lfi_image::CompleteImage;
use lfi_image_file::{ImageFault, read_image, write_image};
use lfi_module::{Extent, ModuleNumber, PageSize, Profile, WordCount};
use lfi_rules::{Fault, Rule};
use std::alloc::Global;
use std::io::{self, ErrorKind, Read, Write};
use std::process::Abort;

/// Gives at most `step` bytes a call, and fails once it has given `left` bytes. It counts its calls.
#[derive(Drop)]
struct SlowReader<'a> {
    bytes: &'a [u8],
    left: usize,
    step: usize,
    calls: u32,
}

impl<'a> Read for SlowReader<'a> {
    fn read(&mut self, buf: &mut [u8]) -> io::Result<usize> {
        self.calls = self.calls.saturating_add(1);
        if self.left == 0 {
            return Err(ErrorKind::Other.into());
        }
        let most = buf.len().min(self.bytes.len());
        let count = most.min(self.step).min(self.left);
        buf[..count].copy_from_slice(&self.bytes[..count]);
        self.bytes = &self.bytes[count..];
        self.left -= count;
        Ok(count)
    }
}

/// Takes at most `step` bytes a call, and fails once it has taken `left` bytes. It counts its calls, and compares what it
/// takes with the bytes that are due.
#[derive(Drop)]
struct SlowWriter<'a> {
    due: &'a [u8],
    is_due: bool,
    left: usize,
    step: usize,
    calls: u32,
}

impl<'a> Write for SlowWriter<'a> {
    fn write(&mut self, buf: &[u8]) -> io::Result<usize> {
        self.calls = self.calls.saturating_add(1);
        if buf.is_empty() {
            return Ok(0);
        }
        if self.left == 0 {
            return Err(ErrorKind::Other.into());
        }
        let count = buf.len().min(self.step).min(self.left);
        self.is_due = self.due.starts_with(&buf[..count]) && self.is_due;
        self.due = &self.due[count.min(self.due.len())..];
        self.left -= count;
        Ok(count)
    }

    fn flush(&mut self) -> io::Result<()> {
        Ok(())
    }
}

/// More bytes than any file here has.
const ALL: usize = 100_000;

/// The fault of a file that is read so, how many calls that took, and how many bytes are unread.
fn read_by(
    alloc: Global,
    bytes: &[u8],
    left: usize,
    step: usize,
) -> (Option<ImageFault>, u32, usize) {
    let mut reader = SlowReader {
        bytes,
        left,
        step,
        calls: 0,
    };
    let fault = read_image(alloc, &mut reader).err();
    (fault, reader.calls, reader.bytes.len())
}

/// A file that is read: how many of its bytes there are, after how many of them an I/O error comes, how many it gives a
/// call, and the fault.
type Reading = (usize, usize, usize, Option<ImageFault>);

/// The place of the first of these rows that comes to another fault, if one does.
fn first_other(alloc: Global, file: &[u8], rows: &[Reading]) -> Option<usize> {
    for (place, row) in rows.iter().enumerate() {
        let (len, left, step, want) = *row;
        let (fault, _, _) = read_by(alloc, &file[..len.min(file.len())], left, step);
        if fault != want {
            return Some(place);
        }
    }
    None
}

#[test]
fn a_byte_a_read(rt: HostRuntime) {
    for left in 0..=28 {
        let (fault, _, _) = read_by(rt.alloc(), &ONE_RET, left, 1);
        assert!(rt; fault == Some(ImageFault::Device), "after {left} bytes");
    }
    assert!(rt; read_by(rt.alloc(), &ONE_RET, 100, 1).0.is_none());
}

/// How a write of an image goes: its answer, the calls, how many bytes of the file were not taken, and whether those that
/// were are the file's.
type Written = (Result<(), ImageFault>, u32, usize, bool);

/// How a write of an image with this file goes.
fn write_by(image: &CompleteImage, due: &[u8], left: usize, step: usize) -> Written {
    let mut writer = SlowWriter {
        due,
        is_due: true,
        left,
        step,
        calls: 0,
    };
    let answer = write_image(image, &mut writer);
    (answer, writer.calls, writer.due.len(), writer.is_due)
}

/// Whether a writer that fails after `left` bytes is told of, and has the beginning of the file.
fn is_cut_at(image: &CompleteImage, file: &[u8], left: usize, step: usize) -> bool {
    let (answer, _, due, is_due) = write_by(image, file, left, step);
    answer == Err(ImageFault::Device) && is_due && file.len().checked_sub(due) == Some(left)
}

#[test]
fn a_writer_that_fails(rt: HostRuntime) {
    let extent = Extent::of(WordCount::of(1), 0, Profile::One, PageSize::SMALL);
    let image = image(&rt, extent, ModuleNumber::at(0), &[RET]);
    for left in 0..28 {
        assert!(rt; is_cut_at(&image, &ONE_RET, left, 1), "after {left} bytes");
    }
    let (answer, _, due, _) = write_by(&image, &ONE_RET, 100, 0);
    assert!(rt; answer == Err(ImageFault::Device) && due == 28);
}

/// An image of 17 full pages and one word, all NOPs.
fn long_image(rt: &(impl Abort + AllocGlobal)) -> CompleteImage {
    let extent = Extent::of(WordCount::of(17_409), 17_408, Profile::One, PageSize::SMALL);
    image(rt, extent, ModuleNumber::at(7), &[NOP; 18])
}

/// The bytes of its file.
const LONG_FILE: usize = 69_660;

/// Bytes after which an I/O error comes: at the ends of the header and of pages, and beside them.
const FAILS_AFTER: [usize; 7] = [24, 25, 4120, 65_559, 65_560, 65_561, 69_659];

#[test]
fn long_files_are_written(rt: HostRuntime) {
    let image = long_image(&rt);
    let file = file_of(&rt, &image);
    // A page a call: the header, and eighteen pages.
    let at_once = write_by(&image, &file, ALL, ALL);
    assert!(rt; at_once == (Ok(()), 19, 0, true) && file.len() == LONG_FILE);
    for left in FAILS_AFTER.iter() {
        assert!(rt; is_cut_at(&image, &file, *left, 5000), "after {left} bytes");
    }
}

/// The long file in small pieces, with an I/O error, and cut: at the ends of the header and of pages, and beside them.
const LONG: [Reading; 19] = [
    (LONG_FILE, ALL, 1, None),
    (LONG_FILE, ALL, 7, None),
    (LONG_FILE, ALL, 4095, None),
    (LONG_FILE, ALL, 4096, None),
    (LONG_FILE, ALL, 4097, None),
    (LONG_FILE, ALL, 65_535, None),
    (LONG_FILE, ALL, 65_537, None),
    (LONG_FILE, 24, 5000, Some(ImageFault::Device)),
    (LONG_FILE, 25, 5000, Some(ImageFault::Device)),
    (LONG_FILE, 4120, 5000, Some(ImageFault::Device)),
    (LONG_FILE, 65_559, 5000, Some(ImageFault::Device)),
    (LONG_FILE, 65_560, 5000, Some(ImageFault::Device)),
    (LONG_FILE, 65_561, 5000, Some(ImageFault::Device)),
    (LONG_FILE, 69_659, 5000, Some(ImageFault::Device)),
    (24, ALL, ALL, Some(ImageFault::Truncated)),
    (4120, ALL, ALL, Some(ImageFault::Truncated)),
    (8216, ALL, ALL, Some(ImageFault::Truncated)),
    (65_560, ALL, ALL, Some(ImageFault::Truncated)),
    (69_656, ALL, ALL, Some(ImageFault::Truncated)),
];

#[test]
fn long_files_are_read(rt: HostRuntime) {
    let file = file_of(&rt, &long_image(&rt));
    let other = first_other(rt.alloc(), &file, &LONG);
    assert!(rt; other.is_none(), "row {other:?}");
    // A page a call: the header, eighteen pages and the end.
    assert!(rt; read_by(rt.alloc(), &file, ALL, ALL) == (None, 20, 0));
}

/// Word 1,500 of the long file, which is in its second page, the bytes 4,120 to 8,215.
const FAULTY: Option<ImageFault> = Some(ImageFault::Unlawful(Fault {
    word: 1500,
    rule: Rule::Spelled,
}));

/// The long file, with a word that is no instruction, and a byte too many.
fn faulty_file(rt: &(impl Abort + AllocGlobal)) -> Vec<u8> {
    let mut file = file_of(rt, &long_image(rt));
    file.push(0).expect(rt, "no place for a byte");
    assert!(rt; file.len() > 6028);
    file[6024..6028].copy_from_slice(&UNKNOWN.to_le_bytes());
    file
}

/// The faulty file with an I/O error, and with an early end or a late one: the fault comes before them.
const FAILING: [Reading; 9] = [
    (LONG_FILE, 8215, 4096, Some(ImageFault::Device)),
    (LONG_FILE, 8216, 4096, FAULTY),
    (LONG_FILE, 8217, 4096, FAULTY),
    (LONG_FILE, LONG_FILE, 4096, FAULTY),
    (8215, ALL, ALL, Some(ImageFault::Truncated)),
    (8216, ALL, ALL, FAULTY),
    (8217, ALL, ALL, FAULTY),
    (LONG_FILE, ALL, ALL, FAULTY),
    (LONG_FILE + 1, ALL, ALL, FAULTY),
];

#[test]
fn a_fault_comes_before_a_failed_read_and_an_early_end(rt: HostRuntime) {
    let file = faulty_file(&rt);
    let other = first_other(rt.alloc(), &file, &FAILING);
    assert!(rt; other.is_none(), "row {other:?}");
}

#[test]
fn what_follows_a_fault_is_unread(rt: HostRuntime) {
    let file = faulty_file(&rt);
    // The third page and those after it, and the byte too many.
    let unread = LONG_FILE + 1 - 8216;
    let mut reader = file.as_slice();
    let fault = read_image(rt.alloc(), &mut reader).err();
    assert!(rt; fault == FAULTY && reader.len() == unread);
    // The header and two pages.
    assert!(rt; read_by(rt.alloc(), &file, ALL, ALL) == (FAULTY, 3, unread));
}
