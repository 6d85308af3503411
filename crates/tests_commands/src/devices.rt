//! Readers and writers that give and take little, or fail.

ghost use Rattle.std.specs.Prelude.{◌≡◌, IfOk, length};

use crate::runs::{FAILED, ONE_RET, ONE_RET_REPORT, RET, begin, run_over, tells};
use lfi_check::Verdict;
use lfi_commands::{ending_of_load, write_report};
use lfi_file_commands::{
    CommandFault, DeviceCause, Ending, Errors, Failure, Naming, Target, check, check_file,
};
use lfi_loader::{NoNotices, load_all};
use lfi_model::Outcome;
use lfi_module::Profile;
use lfi_receive::Input;
use lfi_sequence::OpenGate;
use std::alloc::{AllocError, Global};
use std::fs::{self, File, Files};
use std::io::{self, Read, Write};
use std::net::Net;
use std::rt::Clock;
use std::sync::Wait;
use std::test::Fail;
use std::thread::Threads;

/// Gives a byte a read, and fails once it has given `left` bytes.
#[derive(Clone, Copy)]
struct SlowReader<'a> {
    bytes: &'a [u8],
    left: usize,
}

impl<'a> Read for SlowReader<'a> {
    fn read(&mut self, buf: &mut [u8]) -> io::Result<usize> {
        if self.left == 0 {
            return Err(io::Error::from(io::ErrorKind::Other));
        }
        if self.bytes.is_empty() || buf.is_empty() {
            return Ok(0);
        }
        buf[0] = self.bytes[0];
        self.bytes = &self.bytes[1..];
        self.left -= 1;
        Ok(1)
    }
}

/// Takes `left` bytes more, and then fails.
#[derive(Clone, Copy)]
pub struct FullWriter {
    pub left: usize,
}

impl Write for FullWriter {
    fn write(&mut self, bytes: &[u8]) -> io::Result<usize> {
        if self.left == 0 {
            return Err(io::Error::from(io::ErrorKind::StorageFull));
        }
        let taken = bytes.len().min(self.left);
        self.left -= taken;
        Ok(taken)
    }

    fn flush(&mut self) -> io::Result<()> {
        Ok(())
    }
}

/// RET twice.
const TWO_RETS: [u8; 8] = [0xC0, 0x03, 0x5F, 0xD6, 0xC0, 0x03, 0x5F, 0xD6];

/// How many bytes a file is told to have, after how many of its eight a read fails, and what comes of it.
const LENGTHS: [(Option<u64>, usize, Result<Verdict, CommandFault>); 9] = [
    (None, 100, TWO),
    (Some(8), 100, TWO),
    (Some(4), 100, UNREAD),
    (
        Some(12),
        100,
        Err(CommandFault::NotRead(DeviceCause::EndedEarly)),
    ),
    (Some(0), 100, TWO),
    (Some(7), 100, TWO),
    (None, 8, UNREAD),
    (Some(8), 5, UNREAD),
    // All bytes come; then it is asked whether there are more.
    (Some(8), 8, UNREAD),
];

/// Two words are lawful.
const TWO: Result<Verdict, CommandFault> = Ok(Verdict::Lawful { words: 2 });

/// A read failed.
const UNREAD: Result<Verdict, CommandFault> = Err(CommandFault::NotRead(DeviceCause::Other));

/// What is answered of code from this reader, whose length is told, where exactly this is written.
fn checked(
    alloc: Global,
    code: SlowReader<'_>,
    length: Option<u64>,
    written: &str,
) -> Option<Result<Verdict, CommandFault>> {
    let mut out = Vec::new(alloc);
    let answer = match check_file(alloc, code, length, Profile::One, Naming::Alone, &mut out) {
        Ok(finding) => Ok(finding.verdict()),
        Err(fault) => Err(fault),
    };
    if out.as_slice() == written.as_bytes() {
        Some(answer)
    } else {
        None
    }
}

/// The first of the lengths at which something else comes.
fn first_other_length(alloc: Global) -> Option<usize> {
    for place in 0..LENGTHS.len() {
        let (length, left, expected) = LENGTHS[place];
        let written = if expected == TWO {
            "lawful, 2 words\n"
        } else {
            ""
        };
        let code = SlowReader {
            bytes: TWO_RETS.as_slice(),
            left,
        };
        if checked(alloc, code, length, written) != Some(expected) {
            return Some(place);
        }
    }
    None
}

/// Code of 40,000 words is read in three pieces; SVC #0, which is no instruction here, stands in the second. Whether that is
/// told.
fn tells_a_later_fault(alloc: Global) -> Result<bool, AllocError> {
    let mut code = TWO_RETS.repeat(alloc, 20_000)?;
    if code.len() >= 80_004 {
        code[80_000..80_004].copy_from_slice(&[0x01, 0x00, 0x00, 0xD4]);
    }
    let reader = SlowReader {
        bytes: &code,
        left: 1_000_000,
    };
    let answer = checked(alloc, reader, Some(160_000), "word 20000 rule 1\n");
    Ok(matches!(answer, Some(Ok(_))))
}

#[test]
fn files_of_another_length(rt: HostRuntime) {
    let other = first_other_length(rt.alloc());
    assert!(rt; other.is_none() && tells_a_later_fault(rt.alloc()) == Ok(true));
}

/// Whether this comes of RET, of which a read fails after `left` bytes, and exactly this is written.
fn checks(
    alloc: Global,
    left: usize,
    expected: Result<Verdict, CommandFault>,
    written: &str,
) -> bool {
    let mut out = Vec::new(alloc);
    let code = SlowReader {
        bytes: RET.as_slice(),
        left,
    };
    check(alloc, code, Profile::One, &mut out) == expected && out.as_slice() == written.as_bytes()
}

/// The input of one reader.
fn one_input<R: Read + Drop>(alloc: Global, reader: R) -> Result<Vec<Input<R>>, AllocError>
    ensures { IfOk result (λ inputs. length inputs.items ≡ 1) }
{
    let input = Input::new(alloc, reader)?;
    let mut inputs = Vec::new(alloc);
    inputs.push(input)?;
    Ok(inputs)
}

/// Whether the load of this input ends so, and has module 0 complete with one word or not.
fn ends_so<S: Threads + Wait + Sync + AllocGlobal>(
    rt: &S,
    inputs: Vec<Input<SlowReader<'_>>>,
    ending: Ending,
    is_complete: bool,
    out: &mut Vec<u8>,
) -> bool
    requires { length inputs.items ≡ 1 }
{
    let Ok(report) = load_all(rt, rt.alloc(), inputs, 1, &OpenGate, &NoNotices) else {
        return false;
    };
    let complete = report.modules[0].outcome == Outcome::Complete { words: 1 };
    match write_report(rt.alloc(), &report, out) {
        Ok(()) => complete == is_complete && ending_of_load(&report, true, true) == ending,
        Err(_) => false,
    }
}

/// Whether the load of a stream, of which a read fails after `left` bytes, ends so, writes exactly this, and has its module
/// complete or not.
fn loads<S: Threads + Wait + Sync + AllocGlobal>(
    rt: &S,
    left: usize,
    ending: Ending,
    is_complete: bool,
    written: &str,
) -> bool {
    let mut out = Vec::new(rt.alloc());
    let stream = SlowReader {
        bytes: ONE_RET.as_slice(),
        left,
    };
    let is_so = match one_input(rt.alloc(), stream) {
        Ok(inputs) => ends_so(rt, inputs, ending, is_complete, &mut out),
        Err(AllocError) => false,
    };
    is_so && out.as_slice() == written.as_bytes()
}

/// What is told of the stream, where a read fails after `left` bytes.
fn told_after(left: usize) -> &'static str {
    if left < 12 {
        "connection 0: fault 10\nstrays 0\n"
    } else if left < 40 {
        "module 0: lost, fault 10\nconnection 0: fault 10\nstrays 0\n"
    } else {
        "module 0: complete, 1 words\nconnection 0: fault 10\nstrays 0\n"
    }
}

#[test]
fn a_byte_a_read(rt: HostRuntime) {
    let lawful = Ok(Verdict::Lawful { words: 1 });
    let checks = checks(rt.alloc(), 5, lawful, "lawful, 1 words\n");
    assert!(rt; checks && loads(&rt, 41, Ending::Well, true, ONE_RET_REPORT));
}

#[test]
fn reads_that_fail(rt: HostRuntime) {
    for left in 0..=ONE_RET.len() {
        let checks = left > RET.len() || checks(rt.alloc(), left, UNREAD, "");
        let loads = loads(&rt, left, Ending::Failed, left == 40, told_after(left));
        assert!(rt; checks && loads);
    }
}

/// The stream of module 0 with one word that no instruction spells.
const ZERO: [u8; 40] = [
    1, 0, 0, 0, 1, 0, 0, 0, 0, 0, 0, 0, // Open of module 0: 1 word, entry 0
    2, 0, 0, 0, 0, 0, 0, 0, 4, 0, 0, 0, // Page 0, 4 bytes
    0, 0, 0, 0, // no instruction
    3, 0, 0, 0, 0, 0, 0, 0, 0, 0, 0, 0, // Close
];

/// A line, and how many bytes its answer has.
#[derive(Clone, Copy)]
struct Answer {
    line: &'static str,
    length: usize,
}

/// What is explained of a word that no instruction spells.
const UNSPELLED: &str =
    "word 0 rule 1\n  0x0000000100010000  00000000  .inst 0x00000000\n  each word has to be an instruction of the profile; this one is none, of the group: reserved words\n  mend: none: no instructions of the profile are known that do the same; docs/PROFILE.md lists what stands in for others\n";

/// The report on a module with that word.
const REFUSED: &str = "module 0: refused, word 0 rule 1\nstrays 0\n";

/// What is told of a stream that ends after its Open, with its fault in words.
const CUT: &str =
    "module 0: lost, fault 9\nconnection 0: fault 9\nstrays 0\nconnection 0: input ended too early\n";

/// The object of the file with the word RET.
const LAWFUL_OBJECT: &str =
    "{\"files\":[{\"path\":\"written.tmp/written.code\",\"profile\":1,\"verdict\":\"lawful\",\"words\":1}]}\n";

const ANSWERS: [Answer; 9] = [
    Answer {
        line: "lfiload check written.tmp/written.code",
        length: 16,
    },
    Answer {
        line: "lfiload load written.tmp/written.stream",
        length: ONE_RET_REPORT.len(),
    },
    Answer {
        line: "lfiload load --explain written.tmp/zero.stream",
        length: REFUSED.len() + 10 + UNSPELLED.len(),
    },
    Answer {
        line: "lfiload load --explain written.tmp/cut.stream",
        length: CUT.len(),
    },
    Answer {
        line: "lfiload check --explain written.tmp/zero.code",
        length: UNSPELLED.len(),
    },
    Answer {
        line: "lfiload check --all written.tmp/zero.code",
        length: UNSPELLED.len() + 38,
    },
    Answer {
        line: "lfiload check --format json written.tmp/written.code",
        length: LAWFUL_OBJECT.len(),
    },
    Answer {
        line: "lfiload disassemble written.tmp/zero.code",
        length: 56,
    },
    Answer {
        line: "lfiload pack written.tmp/written.code",
        length: ONE_RET.len(),
    },
];

/// The line of the first run that is told otherwise, where its output fails anywhere.
fn first_other_output<S: Threads + Wait + Files<File = File> + Net + Clock + Sync + AllocGlobal>(
    rt: &S,
) -> Option<&'static str> {
    let told = "lfiload: cannot write standard output\n  No space left on device\n";
    for answer in &ANSWERS {
        for left in 0..answer.length {
            if tells(rt, answer.line, FullWriter { left }, FAILED, told).is_none() {
                return Some(answer.line);
            }
        }
    }
    None
}

/// The stream that ends after its Open.
const OPENED: [u8; 12] = [1, 0, 0, 0, 1, 0, 0, 0, 0, 0, 0, 0];

/// The files of these runs.
const INPUTS: [(&str, &[u8]); 5] = [
    ("written.tmp/written.code", &RET),
    ("written.tmp/written.stream", &ONE_RET),
    ("written.tmp/zero.code", &[0, 0, 0, 0]),
    ("written.tmp/zero.stream", &ZERO),
    ("written.tmp/cut.stream", &OPENED),
];

#[test]
fn output_that_fails(rt: HostRuntime) -> io::Result<()> {
    begin(&rt, "written.tmp", &INPUTS)?;
    assert!(rt; first_other_output(&rt).is_none());
    fs::remove_dir_all(&rt, "written.tmp")
}

/// Whether a failure is told by this text.
fn is_told(alloc: Global, failure: Failure<'_>, text: &str) -> bool {
    let mut errors = Errors::new(alloc, Vec::new(alloc));
    errors.tell(&failure);
    !errors.is_lost() && errors.writer().as_slice() == text.as_bytes()
}

/// Which of six failures are told as they should be: of a read, an output, one that nobody reads any longer, an image, a
/// socket and memory.
fn told(alloc: Global) -> Result<[bool; 6], AllocError> {
    let path = String::from_str(alloc, "a.img")?;
    let image = Failure::CannotWrite(Target::File(path), DeviceCause::Other);
    let image = is_told(alloc, image, "lfiload: cannot write a.img\n");
    let read = Failure::CannotRead("a.code", DeviceCause::PermissionDenied);
    let text = "lfiload: cannot read a.code\n  Permission denied\n";
    let read = is_told(alloc, read, text);
    let output = Failure::CannotWrite(Target::StandardOutput, DeviceCause::StorageFull);
    let text = "lfiload: cannot write standard output\n  No space left on device\n";
    let output = is_told(alloc, output, text);
    let closed = Failure::CannotWrite(Target::StandardOutput, DeviceCause::BrokenPipe);
    let closed = is_told(alloc, closed, "");
    let socket = Failure::CannotListen("a/socket", DeviceCause::AddressInUse);
    let text = "lfiload: cannot listen\n  a/socket: Address already in use\n";
    let socket = is_told(alloc, socket, text);
    let memory = is_told(alloc, Failure::NoMemory, "lfiload: no memory\n");
    Ok([read, output, closed, image, socket, memory])
}

#[test]
fn failures_are_told(rt: HostRuntime) {
    assert!(rt; told(rt.alloc()) == Ok([true; 6]));
}

/// Each reason for which code isn't judged, and its text.
const FAULTS: [(CommandFault, &str); 3] = [
    (CommandFault::NoMemory, "no memory"),
    (
        CommandFault::NotRead(DeviceCause::IsADirectory),
        "cannot read\n  Is a directory",
    ),
    (CommandFault::NotWritten(DeviceCause::Other), "cannot write"),
];

#[test]
fn tells_why_code_is_not_judged(rt: HostRuntime) -> Result<(), Fail> {
    for (fault, text) in &FAULTS {
        assert!(rt; fault.to_string(rt.alloc())?.as_str() == *text, "{text}");
    }
    Ok(())
}

const UNTOLD: [&str; 7] = [
    "lfiload --help",
    "lfiload unknown",
    "lfiload check missing.code",
    "lfiload --version",
    "lfiload pack --module 15 a b",
    "lfiload check --format yaml a",
    "lfiload pack /dev/null",
];

/// Where a run with this output fails, of which a number of bytes of what it tells are taken, and tells that some are lost: the
/// output.
pub fn loses<
    S: Threads + Wait + Files<File = File> + Net + Clock + Sync + AllocGlobal,
    O: Write + Drop,
>(rt: &S, line: &str, out: O, left: usize) -> Option<O> {
    let ran = run_over(rt, line, out, FullWriter { left });
    if ran.status == FAILED && ran.errors.is_lost() {
        Some(ran.out)
    } else {
        None
    }
}

#[test]
fn errors_that_fail(rt: HostRuntime) {
    for line in UNTOLD {
        assert!(rt;
            loses(&rt, line, FullWriter { left: 0 }, 0).is_some(),
            "{line}"
        );
    }
}

/// What is told of a file that can't be written, by the kind of the system's error.
const CAUSES: [(io::ErrorKind, &str); 17] = [
    (
        io::ErrorKind::NotFound,
        "lfiload: cannot write a.img\n  No such file or directory\n",
    ),
    (
        io::ErrorKind::PermissionDenied,
        "lfiload: cannot write a.img\n  Permission denied\n",
    ),
    (
        io::ErrorKind::IsADirectory,
        "lfiload: cannot write a.img\n  Is a directory\n",
    ),
    (
        io::ErrorKind::NotADirectory,
        "lfiload: cannot write a.img\n  Not a directory\n",
    ),
    (
        io::ErrorKind::FilesystemLoop,
        "lfiload: cannot write a.img\n  Too many levels of symbolic links\n",
    ),
    (
        io::ErrorKind::InvalidFilename,
        "lfiload: cannot write a.img\n  File name too long\n",
    ),
    (
        io::ErrorKind::ReadOnlyFilesystem,
        "lfiload: cannot write a.img\n  Read-only file system\n",
    ),
    (
        io::ErrorKind::StorageFull,
        "lfiload: cannot write a.img\n  No space left on device\n",
    ),
    (
        io::ErrorKind::QuotaExceeded,
        "lfiload: cannot write a.img\n  Disk quota exceeded\n",
    ),
    (
        io::ErrorKind::FileTooLarge,
        "lfiload: cannot write a.img\n  File too large\n",
    ),
    (
        io::ErrorKind::BrokenPipe,
        "lfiload: cannot write a.img\n  Broken pipe\n",
    ),
    (
        io::ErrorKind::ConnectionReset,
        "lfiload: cannot write a.img\n  Connection reset by peer\n",
    ),
    (
        io::ErrorKind::AddrInUse,
        "lfiload: cannot write a.img\n  Address already in use\n",
    ),
    (
        io::ErrorKind::UnexpectedEof,
        "lfiload: cannot write a.img\n  The file ended early\n",
    ),
    (
        io::ErrorKind::InvalidData,
        "lfiload: cannot write a.img\n  Not valid UTF-8\n",
    ),
    (io::ErrorKind::Other, "lfiload: cannot write a.img\n"),
    (
        io::ErrorKind::Uncategorized,
        "lfiload: cannot write a.img\n",
    ),
];

/// The first of these texts that isn't told.
fn first_other_cause(alloc: Global) -> Result<Option<&'static str>, AllocError> {
    for (kind, text) in &CAUSES {
        let path = String::from_str(alloc, "a.img")?;
        if !is_told(alloc, Failure::writing(path, &io::Error::from(*kind)), text) {
            return Ok(Some(text));
        }
    }
    Ok(None)
}

#[test]
fn causes(rt: HostRuntime) {
    assert!(rt; first_other_cause(rt.alloc()) == Ok(None));
}
