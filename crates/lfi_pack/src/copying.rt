//! Bytes read in full, and written in full.

ghost use Rattle.std.specs.Prelude.{◌≡◌, [], length, IfErr, OnOk, OnErr};
ghost use Rattle.std.specs.Io.KnownBytes.{Consumes, Appends, IsAtEnd};
ghost use Rattle.std.specs.declared.io.ErrorKind.{ErrorKind};
ghost use Rattle.lfi_pack.specs.declared.fault.PackFault.TheVariants.{WriteFailed};
ghost use Rattle.lfi_pack.specs.Faults.{IsPackFault};
ghost use Rattle.exact_io.specs.Beginnings.{AppendsBeginning};
ghost use Rattle.lfi_pack.specs.inner.Copies.{IsShort};

use crate::fault::PackFault;
use exact_io::{fill, write_in_full};
use std::io::{Read, Write};

/// Fills the buffer.
pub(crate) fn read_full<R: Read>(reader: &mut R, bytes: &mut [u8]) -> Result<(), PackFault>
    ensures full { OnOk result (Consumes (R.remaining reader.old) (R.remaining reader.new) bytes.new) }
    ensures short { IfErr result (λ fault. IsShort (R.remaining reader.old) (length bytes.old) fault) }
{
    match fill(reader, bytes) {
        Ok(count) if count < bytes.len() => Err(PackFault::Shorter),
        Ok(_) => Ok(()),
        Err(error) => Err(PackFault::ReadFailed(error.kind())),
    }
}

/// Reads no byte more: none is left.
pub(crate) fn expect_end<R: Read>(reader: &mut R) -> Result<(), PackFault>
    ensures none { OnOk result (Consumes (R.remaining reader.old) (R.remaining reader.new) []) }
    ensures ended { OnOk result (IsAtEnd (R.remaining reader.new)) }
    ensures fault { IfErr result (IsPackFault (R.remaining reader.old) 0) }
{
    let mut byte = [0; 1];
    match reader.read(&mut byte) {
        Ok(0) => Ok(()),
        Ok(_) => Err(PackFault::Longer),
        Err(error) => Err(PackFault::ReadFailed(error.kind())),
    }
}

/// Writes the bytes, or a beginning of them where the writer fails.
pub(crate) fn write_full<W: Write>(writer: &mut W, bytes: &[u8]) -> Result<(), PackFault>
    ensures written { OnOk result (Appends (W.contents writer.old) (W.contents writer.new) bytes.now) }
    ensures fault { IfErr result (λ fault. (kind : ErrorKind) × (fault ≡ WriteFailed kind)) }
    ensures part { OnErr result (AppendsBeginning (W.contents writer.old) (W.contents writer.new) bytes.now) }
{
    match write_in_full(writer, bytes) {
        Ok(()) => Ok(()),
        Err(error) => Err(PackFault::WriteFailed(error.kind())),
    }
}
