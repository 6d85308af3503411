//! The notice of a refused module.

use crate::disks::MemoryStore;
use crate::runs::{NOT_WELL, begin, connect, has_file, is_told, kept, run_noticed};
use lfi_commands::WrittenNotices;
use lfi_file_commands::Disk;
use lfi_loader::Notices;
use lfi_module::ModuleNumber;
use std::fs::{self, File, Files};
use std::io::{self, Read, Write};
use std::net::Net;
use std::rt::Clock;
use std::sync::Wait;
use std::sync::atomic::{AtomicU64, Ordering};
use std::thread::{Threads, join, yield_now};

/// A stream of modules 1 and 2. The first word of module 1 asks for another one than follows it, and module 2 is lawful.
const TWO: [u8; 84] = [
    1, 0, 1, 0, 2, 0, 0, 0, 0, 0, 0, 0, // Open of module 1: 2 words, entry 0
    2, 0, 1, 0, 0, 0, 0, 0, 8, 0, 0, 0, // Page 0, 8 bytes
    0xBE, 0x06, 0x40, 0xF9, // ldr x30, [x21, #8]
    0x1F, 0x20, 0x03, 0xD5, // nop
    3, 0, 1, 0, 0, 0, 0, 0, 0, 0, 0, 0, // Close
    1, 0, 2, 0, 1, 0, 0, 0, 0, 0, 0, 0, // Open of module 2: 1 word, entry 0
    2, 0, 2, 0, 0, 0, 0, 0, 4, 0, 0, 0, // Page 0, 4 bytes
    0xC0, 0x03, 0x5F, 0xD6, // ret
    3, 0, 2, 0, 0, 0, 0, 0, 0, 0, 0, 0, // Close
];

/// Closes module 9, which nobody opened.
const STRAY: [u8; 12] = [3, 0, 9, 0, 0, 0, 0, 0, 0, 0, 0, 0];

/// At most how many strays follow a text.
const TURNS: u32 = 10_000_000;

/// Whether something was written to this file.
fn is_noticed(told: &File) -> bool {
    match told.metadata() {
        Ok(metadata) => metadata.len() > 0,
        Err(_) => true,
    }
}

/// A text, and then headers that are strays, until something was written to a file.
#[derive(Drop)]
struct UntilTold<'a, 'b> {
    text: &'a [u8],
    told: &'b File,
    turns: u32,
}

impl Read for UntilTold<'_, '_> {
    fn read(&mut self, buf: &mut [u8]) -> io::Result<usize> {
        let done = self.turns == 0 || is_noticed(self.told);
        if !self.text.is_empty() || done || buf.len() < 12 {
            return self.text.read(buf);
        }
        self.turns -= 1;
        buf[..12].copy_from_slice(&STRAY);
        Ok(12)
    }
}

/// A disk that has a text at each path, and then what follows until something was written to a file.
#[derive(Drop)]
struct UntilToldDisk<'a> {
    text: &'a [u8],
    told: &'a File,
}

impl<'a> Disk for UntilToldDisk<'a> {
    type Reader = UntilTold<'a, 'a>;

    fn open(&self, path: &str) -> io::Result<UntilTold<'a, 'a>> {
        let _ = path;
        Ok(UntilTold {
            text: self.text,
            told: self.told,
            turns: TURNS,
        })
    }
}

/// What the report on modules 1 and 2 begins with.
const TWO_REPORT: &str = "module 1: refused, word 1 rule 10\nmodule 2: complete, 1 words\n";

/// Whether the program, run on the words of a line with notices that are written to this file, ends as it does where a module
/// was refused, and writes the report.
fn is_run<S: Threads + Wait + Files<File = File> + Net + Clock + Sync + AllocGlobal>(
    rt: &S,
    line: &str,
    told: &File,
) -> bool {
    let disk = UntilToldDisk {
        text: TWO.as_slice(),
        told,
    };
    let mut outputs = kept(rt.alloc(), MemoryStore::with_room(rt.alloc(), 0));
    let notices = WrittenNotices::new(told);
    let ended = run_noticed(rt, &disk, &notices, line, &mut outputs);
    let is_so = ended == NOT_WELL && is_told(&outputs.errors, "");
    is_so && outputs.out.as_slice().starts_with(TWO_REPORT.as_bytes())
}

/// Connects as soon as somebody listens at the path, and sends the modules, and then strays until
/// something was written to this file.
fn send_until_told<S: Net>(rt: &S, path: &str, told: &File) -> io::Result<()> {
    let mut client = connect(rt, path)?;
    let mut sent = client.write_all(&TWO);
    for _ in 0..TURNS {
        if sent.is_err() || is_noticed(told) {
            break;
        }
        sent = client.write_all(&STRAY);
    }
    sent
}

/// Whether a file has the one notice.
fn has_notice(rt: &HostRuntime, path: &str) -> bool {
    has_file(rt, path, b"module 1 refused\n".as_slice())
}

#[test]
fn one_notice_of_a_load_by_its_words(rt: HostRuntime) -> io::Result<()> {
    begin(&rt, "load_noticed.tmp", &[])?;
    let told = File::create(&rt, "load_noticed.tmp/told")?;
    let is_run = is_run(&rt, "lfiload load any.stream", &told);
    assert!(rt; is_run && has_notice(&rt, "load_noticed.tmp/told"));
    fs::remove_dir_all(&rt, "load_noticed.tmp")
}

#[test]
fn one_notice_of_a_client(rt: HostRuntime) -> io::Result<()> {
    begin(&rt, "serve_noticed.tmp", &[])?;
    let told = File::create(&rt, "serve_noticed.tmp/told")?;
    let line = "lfiload serve --socket serve_noticed.tmp/socket --connections 1";
    let (is_run, sent) = join(
        &rt,
        || is_run(&rt, line, &told),
        || send_until_told(&rt, "serve_noticed.tmp/socket", &told),
    );
    assert!(rt; is_run && sent.is_ok() && has_notice(&rt, "serve_noticed.tmp/told"));
    fs::remove_dir_all(&rt, "serve_noticed.tmp")
}

/// A writer that counts what it is given to write.
#[derive(Clone, Copy)]
struct CountingWriter<'a> {
    writes: &'a AtomicU64,
}

impl Write for CountingWriter<'_> {
    fn write(&mut self, bytes: &[u8]) -> io::Result<usize> {
        self.writes.fetch_add(1, Ordering::SeqCst);
        Ok(bytes.len())
    }

    fn flush(&mut self) -> io::Result<()> {
        Ok(())
    }
}

/// Tells of all modules, once two threads are there.
fn tell_all(notices: &WrittenNotices<CountingWriter<'_>>, there: &AtomicU64) {
    there.fetch_add(1, Ordering::SeqCst);
    for _ in 0..TURNS {
        if there.load(Ordering::SeqCst) == 2 {
            break;
        }
        yield_now();
    }
    for number in 0..ModuleNumber::COUNT {
        notices.refused(ModuleNumber::at(number));
    }
}

/// How often two threads tell of all modules at the same time.
const MEETINGS: u64 = 2000;

#[test]
fn one_notice_of_two_threads(rt: HostRuntime) {
    let writes = AtomicU64::new(0);
    for _ in 0..MEETINGS {
        let notices = WrittenNotices::new(CountingWriter { writes: &writes });
        let there = AtomicU64::new(0);
        join(
            &rt,
            || tell_all(&notices, &there),
            || tell_all(&notices, &there),
        );
    }
    assert!(rt; writes.load(Ordering::SeqCst) == MEETINGS * 16);
}
