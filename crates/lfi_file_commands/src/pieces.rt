//! Code that is judged piece by piece, as it is read.

ghost use Rattle.std.specs.Prelude.{◌≡◌, ◌+◌, ◌*◌, ◌%◌, ◌<◌, ◌≤◌, ℕ, List, ◌++◌, length, IfOk, IfErr, IfSome, OnOk, IsTrue, false};
ghost use Rattle.std.specs.Io.KnownBytes.{Consumes, IsAtEnd};
ghost use Rattle.lfi_module.specs.Numbers.{most_words};
ghost use Rattle.lfi_check.specs.Begun.{Begins};
ghost use Rattle.lfi_check.specs.Checking.{Checks};
ghost use Rattle.lfi_file_commands.specs.Failures.{is_of_a_write};
ghost use Rattle.lfi_file_commands.specs.inner.Pieces.{IsWholeModule};

use crate::checking::CommandFault;
use crate::device_cause::DeviceCause;
use a64_word::WORD_BYTES;
use lfi_check::{Beginning, Verdict};
use lfi_module::Profile;
use std::alloc::{AllocError, Global};
use std::io::Read;

/// How many bytes are read at once.
const PIECE_BYTES: usize = 65_536;

/// A buffer of `size` bytes.
fn buffer(alloc: Global, size: usize) -> Result<Vec<u8>, CommandFault>
    ensures size { IfOk result (λ buffer. length buffer.items ≡ size) }
    ensures fault { IfErr result (λ fault. fault ≡ CommandFault.NoMemory) }
{
    match Vec::from_elem(alloc, 0u8, size) {
        Ok(buffer) => Ok(buffer),
        Err(AllocError) => Err(CommandFault::NoMemory),
    }
}

/// Reads the next piece of a module, and judges it.
fn next_piece<R: Read>(
    reader: &mut R,
    piece: &mut [u8],
    beginning: Beginning,
) -> Result<Beginning, CommandFault>
    requires some { 0 < length piece.old }
    requires whole { length piece.old % 4 ≡ 0 }
    requires room { 4 * beginning.judged + length piece.old ≤ 4 * beginning.words }
    requires most { beginning.words ≤ most_words }
    ensures read { OnOk result (Consumes (R.remaining reader.old) (R.remaining reader.new) piece.new) }
    ensures begins { IfOk result (λ next. (bytes : List ℕ) → Begins beginning bytes → Begins next (bytes ++ piece.new)) }
    ensures judged { IfOk result (λ next. 4 * next.judged ≡ 4 * beginning.judged + length piece.old) }
    ensures words { IfOk result (λ next. next.words ≡ beginning.words) }
    ensures profile { IfOk result (λ next. next.profile ≡ beginning.profile) }
    ensures fault { IfErr result (λ fault. is_of_a_write fault ≡ false) }
{
    match reader.read_exact(piece) {
        Ok(()) => Ok(beginning.with(piece)),
        Err(error) => Err(CommandFault::of_read(&error)),
    }
}

/// Reads all words of a module, and judges them.
fn judge_words<R: Read>(
    reader: &mut R,
    buffer: &mut [u8],
    words: u32,
    profile: Profile,
) -> Result<Beginning, CommandFault>
    requires buffer { 4 ≤ length buffer.old }
    requires whole { length buffer.old % 4 ≡ 0 }
    requires some { 1 ≤ words }
    requires most { words ≤ most_words }
    ensures begins { IfOk result (λ all. IsWholeModule profile (R.remaining reader.old) (R.remaining reader.new) all words) }
    ensures fault { IfErr result (λ fault. is_of_a_write fault ≡ false) }
{
    let mut beginning = Beginning::none(words, profile);
    while beginning.judged < words {
        let left = (words - beginning.judged) as usize * WORD_BYTES;
        let count = left.min(buffer.len());
        beginning = next_piece(reader, &mut buffer[..count], beginning)?;
    }
    Ok(beginning)
}

/// Whether a reader has no byte left.
fn is_at_end<R: Read + Drop>(alloc: Global, reader: R) -> Result<bool, CommandFault>
    ensures end { IfOk result (λ end. IsTrue end → IsAtEnd (R.remaining reader)) }
    ensures fault { IfErr result (λ fault. is_of_a_write fault ≡ false) }
{
    let mut rest = Vec::new(alloc);
    match reader.take(1).read_to_end(&mut rest) {
        Ok(_) => Ok(rest.is_empty()),
        Err(error) => Err(CommandFault::of_read(&error)),
    }
}

/// Judges the code that a reader has left, which is to be `words` words, up to its end.
///
/// # Errors
///
/// Where a read failed or there was no memory; no write is made here.
pub fn judge_pieces<R: Read + Drop>(
    alloc: Global,
    mut reader: R,
    words: u32,
    profile: Profile,
) -> Result<Verdict, CommandFault>
    requires some { 1 ≤ words }
    requires most { words ≤ most_words }
    ensures verdict { IfOk result (λ verdict. IfSome (R.remaining reader) (λ bytes. Checks profile bytes verdict)) }
    ensures fault { IfErr result (λ fault. is_of_a_write fault ≡ false) }
{
    let mut buffer = match buffer(alloc, PIECE_BYTES) {
        Ok(buffer) => buffer,
        Err(fault) => return Err(fault),
    };
    let all = match judge_words(&mut reader, &mut buffer, words, profile) {
        Ok(all) => all,
        Err(fault) => return Err(fault),
    };
    let is_whole = match is_at_end(alloc, reader) {
        Ok(is_whole) => is_whole,
        Err(fault) => return Err(fault),
    };
    if !is_whole {
        return Err(CommandFault::NotRead(DeviceCause::Other));
    }
    Ok(all.verdict())
}
