//! Code files that are read whole.

ghost use Rattle.std.specs.Prelude.{◌≡◌, false, IfOk, IfErr};
ghost use Rattle.lfi_file_commands.specs.Failures.{is_of_a_write};
ghost use Rattle.lfi_file_commands.specs.inner.Whole.{IsReadTo};

use crate::checking::{CommandFault, read_all};
use lfi_module::WordCount;
use std::alloc::Global;
use std::io::Read;

/// What a reader has left, up to its end; where that is too long to be code, its first 16,777,217 bytes, which tell so.
///
/// # Errors
///
/// Where a read fails, or there is no memory for it.
pub(crate) fn read_whole<R: Read + Drop>(alloc: Global, reader: R) -> Result<Vec<u8>, CommandFault>
    ensures read { IfOk result (λ bytes. IsReadTo (R.remaining reader) bytes.items) }
    ensures fault { IfErr result (λ fault. is_of_a_write fault ≡ false) }
{
    read_all(alloc, reader.take(WordCount::MOST_BYTES as u64 + 1))
}
