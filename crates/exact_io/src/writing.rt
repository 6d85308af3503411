//! Bytes that are written to the last.

ghost use Rattle.std.specs.Prelude.{OnOk, OnErr};
ghost use Rattle.std.specs.Io.KnownBytes.{Appends};
ghost use Rattle.exact_io.specs.Beginnings.{AppendsBeginning};

use std::io::{self, Write};

/// Writes the bytes, or a beginning of them where the writer fails.
///
/// # Errors
///
/// That of the writer, at once, of whatever kind it is; `WriteZero` where it takes nothing of what is left.
pub fn write_in_full<W: Write>(writer: &mut W, bytes: &[u8]) -> io::Result<()>
    ensures written { OnOk result (Appends (W.contents writer.old) (W.contents writer.new) bytes.now) }
    ensures part { OnErr result (AppendsBeginning (W.contents writer.old) (W.contents writer.new) bytes.now) }
{
    let mut at = 0;
    while at < bytes.len() {
        match writer.write(&bytes[at..]) {
            Ok(0) => return Err(io::Error::from(io::ErrorKind::WriteZero)),
            Ok(count) => at += count,
            Err(error) => return Err(error),
        }
    }
    Ok(())
}
