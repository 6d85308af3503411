//! Runs of the program over the system's files, and what they must answer.

use lfi_commands::{Arguments, run_words};
use lfi_file_commands::{Disk, Errors, ImageStore, Outputs, SystemDisk, SystemStore};
use lfi_loader::{NoNotices, Notices};
use std::alloc::{AllocError, Global};
use std::fs::{self, File, Files};
use std::io::{self, Write};
use std::net::Net;
use std::os::unix::net::UnixStream;
use std::rt::Clock;
use std::sync::Wait;
use std::thread::Threads;

/// RET, a branch to the address in x30.
pub const RET: [u8; 4] = [0xC0, 0x03, 0x5F, 0xD6];

/// The stream of module 0 with the one word RET: Open, page 0, Close.
pub const ONE_RET: [u8; 40] = [
    1, 0, 0, 0, 1, 0, 0, 0, 0, 0, 0, 0, // Open of module 0: 1 word, entry 0
    2, 0, 0, 0, 0, 0, 0, 0, 4, 0, 0, 0, // Page 0, 4 bytes
    0xC0, 0x03, 0x5F, 0xD6, // RET
    3, 0, 0, 0, 0, 0, 0, 0, 0, 0, 0, 0, // Close
];

/// The report on it.
pub const ONE_RET_REPORT: &str = "module 0: complete, 1 words\nstrays 0\n";

/// The image file of that module: LFI1, one word, entry 0, profile 1, base 2^32, the word.
pub const ONE_RET_IMAGE: [u8; 28] = [
    0x4C, 0x46, 0x49, 0x31, 1, 0, 0, 0, 0, 0, 0, 0, 1, 0, 0, 0, 0, 0, 0, 0, 1, 0, 0, 0, 0xC0, 0x03,
    0x5F, 0xD6,
];

/// The exit status of a run that came to an end as it should.
pub const WELL: u8 = 0;

/// That of a run of code that isn't lawful, or of modules of which one isn't whole.
pub const NOT_WELL: u8 = 1;

/// That of a run with an I/O error.
pub const FAILED: u8 = 3;

/// No exit status: there was no memory for the words.
const NO_WORDS: u8 = 255;

/// What a run must answer and write.
#[derive(Clone, Copy)]
pub struct Run {
    pub line: &'static str,
    pub status: u8,
    pub out: &'static str,
    pub err: &'static str,
}

/// The words of a line, which stand a space apart.
pub fn words(alloc: Global, line: &str) -> Result<Vec<String>, AllocError> {
    line.split(' ')
        .map(|word| String::from_str(alloc, word))
        .try_collect(alloc)
}

/// Runs the program on the words of a line, over any disk, notices and outputs. Gives its exit status; `NO_WORDS` where memory
/// is refused before it runs.
pub fn run_noticed<
    S: Threads + Wait + Files + Net + Clock + Sync + AllocGlobal,
    D: Disk,
    N: Notices + Sync,
    P: ImageStore,
    O: Write,
    E: Write,
>(rt: &S, disk: &D, notices: &N, line: &str, outputs: &mut Outputs<P, O, E>) -> u8 {
    match words(rt.alloc(), line) {
        Ok(words) => {
            let arguments = Arguments {
                version: "0",
                words: &words,
            };
            run_words(rt, rt.alloc(), disk, notices, arguments, outputs).status()
        }
        Err(AllocError) => NO_WORDS,
    }
}

/// A run over the system's files with this output: how it ended, and what was written and told.
#[derive(Drop)]
pub struct Ran<O, E> {
    pub status: u8,
    pub out: O,
    pub errors: Errors<E>,
}

/// Runs the program on the words of a line, over the system's files and any writers.
pub fn run_over<
    S: Threads + Wait + Files<File = File> + Net + Clock + Sync + AllocGlobal,
    O: Write + Drop,
    E: Write + Drop,
>(rt: &S, line: &str, out: O, errors: E) -> Ran<O, E> {
    let disk = SystemDisk {
        rt,
        input: io::empty(),
    };
    let mut outputs = Outputs {
        images: SystemStore { rt },
        out,
        errors: Errors::new(rt.alloc(), errors),
    };
    let status = run_noticed(rt, &disk, &NoNotices, line, &mut outputs);
    let Outputs { out, errors, .. } = outputs;
    Ran {
        status,
        out,
        errors,
    }
}

/// Outputs in memory, and this place for images.
pub fn kept<P: ImageStore>(alloc: Global, images: P) -> Outputs<P, Vec<u8>, Vec<u8>> {
    Outputs {
        images,
        out: Vec::new(alloc),
        errors: Errors::new(alloc, Vec::new(alloc)),
    }
}

/// Whether exactly this was told.
pub fn is_told(errors: &Errors<Vec<u8>>, told: &str) -> bool {
    errors.writer().as_slice() == told.as_bytes()
}

/// Where a run over the system's files, with this output, ends with this status, and tells exactly this: the output.
pub fn tells<
    S: Threads + Wait + Files<File = File> + Net + Clock + Sync + AllocGlobal,
    O: Write + Drop,
>(rt: &S, line: &str, out: O, status: u8, told: &str) -> Option<O> {
    let ran = run_over(rt, line, out, Vec::new(rt.alloc()));
    if ran.status == status && is_told(&ran.errors, told) {
        Some(ran.out)
    } else {
        None
    }
}

/// Whether a run ends with this status, writes exactly this, and tells exactly that.
pub fn writes<S: Threads + Wait + Files<File = File> + Net + Clock + Sync + AllocGlobal>(
    rt: &S,
    line: &str,
    status: u8,
    written: &[u8],
    told: &str,
) -> bool {
    match tells(rt, line, Vec::new(rt.alloc()), status, told) {
        Some(out) => out.as_slice() == written,
        None => false,
    }
}

/// The line of the first run that answers or writes otherwise.
pub fn first_other<S: Threads + Wait + Files<File = File> + Net + Clock + Sync + AllocGlobal>(
    rt: &S,
    runs: &[Run],
) -> Option<&'static str> {
    for run in runs {
        if !writes(rt, run.line, run.status, run.out.as_bytes(), run.err) {
            return Some(run.line);
        }
    }
    None
}

/// Whether a file has exactly these bytes.
pub fn has_file(rt: &HostRuntime, path: &str, bytes: &[u8]) -> bool {
    match fs::read(rt, path) {
        Ok(read) => read.as_slice() == bytes,
        Err(_) => false,
    }
}

/// Makes an empty folder for a test, and writes these files, each by its path and bytes. The test removes the folder at its
/// end.
pub fn begin(rt: &HostRuntime, folder: &str, files: &[(&str, &[u8])]) -> io::Result<()> {
    let _ = fs::remove_dir_all(rt, folder);
    let mut made = fs::create_dir(rt, folder);
    for (path, bytes) in files {
        made = made.and(fs::write(rt, path, *bytes));
    }
    made
}

/// Connects as soon as somebody listens at the path.
pub fn connect<S: Net>(rt: &S, path: &str) -> io::Result<UnixStream> {
    for _ in 0..100_000_000u32 {
        if let Ok(client) = UnixStream::connect(rt, path) {
            return Ok(client);
        }
    }
    Err(io::Error::from(io::ErrorKind::TimedOut))
}
