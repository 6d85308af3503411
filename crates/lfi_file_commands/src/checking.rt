//! Code in a file, judged, and the line of its verdict.

ghost use Rattle.std.specs.Prelude.{◌≡◌, true, false, ◌≤◌, ◌*◌, ◌++◌, IfOk, IfErr, IfSome, OnOk, Some, codes};
ghost use Rattle.lfi_module.specs.Numbers.{most_words};
ghost use Rattle.std.specs.Io.KnownBytes.{Appends};
ghost use Rattle.std.specs.IoError.{error_kind};
ghost use Rattle.lfi_check.specs.Checking.{Checks, verdict_text};
ghost use Rattle.lfi_file_commands.specs.inner.Whole.{IsFoundOf};
ghost use Rattle.lfi_file_commands.specs.Checking.{naming_text, verdict_of, IsFound};
ghost use Rattle.lfi_file_commands.specs.Causes.{cause_of};
ghost use Rattle.lfi_file_commands.specs.Failures.{fault_of_read, is_of_a_write};

use crate::device_cause::DeviceCause;
use crate::finding::Finding;
use crate::naming::Naming;
use crate::no_code::NoCode;
use crate::pieces::judge_pieces;
use crate::texts::write_line;
use a64_word::WORD_BYTES;
use lfi_check::{Verdict, judge_code};
use lfi_module::{Profile, WordCount};
use std::alloc::Global;
use std::error::Error;
use std::fmt;
use std::io::{self, Read, Write};

/// Why a command comes to no answer, or can't tell it.
#[derive(Clone, Copy, Debug, PartialEq, Eq)]
pub enum CommandFault {
    /// There was no memory.
    NoMemory,
    /// A read failed, for this cause.
    NotRead(DeviceCause),
    /// A write failed, for this cause.
    NotWritten(DeviceCause),
}

impl fmt::Display for CommandFault {
    fn fmt<W: fmt::Write>(&self, f: &mut fmt::Formatter<W>) -> fmt::Result {
        match self {
            CommandFault::NoMemory => write!(f, "no memory"),
            CommandFault::NotRead(cause) => write!(f, "cannot read{cause}"),
            CommandFault::NotWritten(cause) => write!(f, "cannot write{cause}"),
        }
    }
}

impl Error for CommandFault {}

impl CommandFault {
    /// That of a read.
    pub(crate) fn of_read(error: &io::Error) -> CommandFault
        ensures fault { result ≡ fault_of_read (error_kind error.now) }
        ensures read { is_of_a_write result ≡ false }
    {
        match error.kind() {
            io::ErrorKind::OutOfMemory => CommandFault::NoMemory,
            _ => CommandFault::NotRead(DeviceCause::of(error)),
        }
    }

    /// That of a write.
    pub(crate) fn of_write(error: &io::Error) -> CommandFault
        ensures fault { result ≡ CommandFault.NotWritten (cause_of (error_kind error.now)) }
        ensures write { is_of_a_write result ≡ true }
    {
        CommandFault::NotWritten(DeviceCause::of(error))
    }
}

/// All the bytes that a reader has left.
pub(crate) fn read_all<R: Read + Drop>(
    alloc: Global,
    mut reader: R,
) -> Result<Vec<u8>, CommandFault>
    ensures all { IfOk result (λ bytes. IfSome (R.remaining reader) (λ all. bytes.items ≡ all)) }
    ensures fault { IfErr result (λ fault. is_of_a_write fault ≡ false) }
{
    let mut bytes = Vec::new(alloc);
    match reader.read_to_end(&mut bytes) {
        Ok(_) => Ok(bytes),
        Err(error) => Err(CommandFault::of_read(&error)),
    }
}

/// Judges the code that a reader has left, up to its end, and writes the line of what is found.
///
/// No more is read than tells that it is too long.
///
/// # Errors
///
/// Where a read or the write fails, or there is no memory for the code.
pub fn check<R: Read + Drop, W: Write>(
    alloc: Global,
    reader: R,
    profile: Profile,
    writer: &mut W,
) -> Result<Verdict, CommandFault>
    ensures verdict { IfOk result (λ verdict. IfSome (R.remaining reader) (λ bytes. Checks profile bytes verdict)) }
    ensures written { IfOk result (λ verdict. Appends (W.contents writer.old) (W.contents writer.new) (verdict_text verdict ++ codes "\n")) }
    ensures unwritten { IfErr result (λ fault. is_of_a_write fault ≡ false → writer.new ≡ writer.old) }
{
    let bytes = match read_all(alloc, reader.take(WordCount::MOST_BYTES as u64 + 1)) {
        Ok(bytes) => bytes,
        Err(fault) => return Err(fault),
    };
    let verdict = judge_code(&bytes, profile);
    match write_verdict(alloc, Naming::Alone, verdict, writer) {
        Ok(()) => Ok(verdict),
        Err(fault) => Err(fault),
    }
}

/// What is found of bytes that were read whole, as far as they can be code, by their verdict.
pub(crate) fn finding_of(bytes: &[u8], profile: Profile) -> Finding
    ensures { IsFoundOf profile bytes.now result }
{
    match Finding::of(judge_code(bytes, profile)) {
        Some(finding) => finding,
        None => Finding::NoCode(NoCode::of(bytes)),
    }
}

/// Judges the code that a reader has left, up to its end. No more is read than tells that it is too long.
fn judge_whole<R: Read + Drop>(
    alloc: Global,
    reader: R,
    profile: Profile,
) -> Result<Finding, CommandFault>
    ensures found { IfOk result (λ finding. IfSome (R.remaining reader) (λ bytes. IsFound profile bytes finding)) }
    ensures fault { IfErr result (λ fault. is_of_a_write fault ≡ false) }
{
    match read_all(alloc, reader.take(WordCount::MOST_BYTES as u64 + 1)) {
        Ok(bytes) => Ok(finding_of(&bytes, profile)),
        Err(fault) => Err(fault),
    }
}

/// Judges the code that a reader has left, up to its end, which is to be `words` words, piece by piece.
fn judge_known<R: Read + Drop>(
    alloc: Global,
    reader: R,
    words: u32,
    profile: Profile,
) -> Result<Finding, CommandFault>
    requires some { 1 ≤ words }
    requires most { words ≤ most_words }
    ensures found { IfOk result (λ finding. IfSome (R.remaining reader) (λ bytes. IsFound profile bytes finding)) }
    ensures fault { IfErr result (λ fault. is_of_a_write fault ≡ false) }
{
    match judge_pieces(alloc, reader, words, profile) {
        Ok(verdict) => match Finding::of(verdict) {
            Some(finding) => Ok(finding),
            None => Err(CommandFault::NotRead(DeviceCause::Other)),
        },
        Err(fault) => Err(fault),
    }
}

/// Judges the code that a reader has left, up to its end, which has `length` bytes, where that is known.
fn judge_unkept<R: Read + Drop>(
    alloc: Global,
    reader: R,
    length: Option<u64>,
    profile: Profile,
) -> Result<Finding, CommandFault>
    ensures found { IfOk result (λ finding. IfSome (R.remaining reader) (λ bytes. IsFound profile bytes finding)) }
    ensures fault { IfErr result (λ fault. is_of_a_write fault ≡ false) }
{
    match words_in(length) {
        Some(words) => judge_known(alloc, reader, words, profile),
        None => judge_whole(alloc, reader, profile),
    }
}

/// Writes the line of a verdict, behind the name.
pub(crate) fn write_verdict<W: Write>(
    alloc: Global,
    name: Naming<'_>,
    verdict: Verdict,
    writer: &mut W,
) -> Result<(), CommandFault>
    ensures written { OnOk result (Appends (W.contents writer.old) (W.contents writer.new) (naming_text name.entry ++ verdict_text verdict ++ codes "\n")) }
    ensures fault { IfErr result (λ fault. is_of_a_write fault ≡ true) }
{
    match write_line(alloc, writer, format_args!("{name}{verdict}")) {
        Ok(()) => Ok(()),
        Err(error) => Err(CommandFault::of_write(&error)),
    }
}

/// How many words code of `length` bytes has, where it can be code: 1 to 4,194,304 of them.
fn words_in(length: Option<u64>) -> Option<u32>
    ensures all { IfSome result (λ words. length ≡ Some (4 * words)) }
    ensures fits { IfSome result (λ words. (1 ≤ words) × (words ≤ most_words)) }
{
    match length {
        Some(bytes)
            if bytes > 0
                && bytes % WORD_BYTES as u64 == 0
                && bytes <= WordCount::MOST_BYTES as u64 => {
            Some((bytes / WORD_BYTES as u64) as u32)
        }
        _ => None,
    }
}

/// Judges the code that a reader has left, up to its end, and writes the line of what is found, behind the name. Where `length`
/// tells before how many bytes that is, it is judged piece by piece as it is read; else it is read whole.
///
/// # Errors
///
/// Where a read or the write fails, or there is no memory for the code, or the bytes are others in number than was known.
pub fn check_file<R: Read + Drop, W: Write>(
    alloc: Global,
    reader: R,
    length: Option<u64>,
    profile: Profile,
    name: Naming<'_>,
    writer: &mut W,
) -> Result<Finding, CommandFault>
    ensures found { IfOk result (λ finding. IfSome (R.remaining reader) (λ bytes. IsFound profile bytes finding)) }
    ensures written { IfOk result (λ finding. Appends (W.contents writer.old) (W.contents writer.new) (naming_text name.entry ++ verdict_text (verdict_of finding) ++ codes "\n")) }
    ensures unwritten { IfErr result (λ fault. is_of_a_write fault ≡ false → writer.new ≡ writer.old) }
{
    let finding = match judge_unkept(alloc, reader, length, profile) {
        Ok(finding) => finding,
        Err(fault) => return Err(fault),
    };
    match write_verdict(alloc, name, finding.verdict(), writer) {
        Ok(()) => Ok(finding),
        Err(fault) => Err(fault),
    }
}
