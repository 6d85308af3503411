//! Bytes that are read until there are enough.

ghost use Rattle.std.specs.Prelude.{◌<◌, ◌≤◌, length, take, IfOk};
ghost use Rattle.std.specs.Io.KnownBytes.{Consumes, IsAtEnd};

use std::io::{self, Read};

/// Reads until the buffer is full or the input ends, and answers how many bytes it read.
///
/// # Errors
///
/// That of the reader, at once, of whatever kind it is.
pub fn fill<R: Read>(reader: &mut R, bytes: &mut [u8]) -> io::Result<usize>
    ensures within { IfOk result (λ n. n ≤ length bytes.new) }
    ensures consumed { IfOk result (λ n. Consumes (R.remaining reader.old) (R.remaining reader.new) (take n bytes.new)) }
    ensures end { IfOk result (λ n. n < length bytes.new → IsAtEnd (R.remaining reader.new)) }
{
    let mut at = 0;
    while at < bytes.len() {
        let count = reader.read(&mut bytes[at..])?;
        if count == 0 {
            return Ok(at);
        }
        at += count;
    }
    Ok(at)
}
