//! A code file is packed: its module's Open, its pages, its Close.

ghost use Rattle.std.specs.Prelude.{◌*◌, ◌≤◌, IfErr, OnOk, OnErr};
ghost use Rattle.lfi_module.specs.Numbers.{large_page};
ghost use Rattle.lfi_pack.specs.Faults.{IsPackFault};
ghost use Rattle.lfi_pack.specs.Packs.{Packs, PacksPart};
ghost use Rattle.lfi_pack.specs.inner.Copies.{IsPageFault, CopiesPage, CopiesPages, BeginsPage, BeginsPages};

use crate::copying::{expect_end, read_full, write_full};
use crate::fault::PackFault;
use lfi_frame::messages;
use lfi_module::{Extent, ModuleNumber, PageSize, WordCount};
use std::io::{Read, Write};

/// Writes the next page of a module, a small or a large one of `len` bytes, which are read.
fn pack_page<R: Read, W: Write>(
    module: ModuleNumber,
    size: PageSize,
    index: u32,
    len: u32,
    reader: &mut R,
    writer: &mut W,
) -> Result<(), PackFault>
    requires { len ≤ 4 * large_page }
    ensures copied { OnOk result (CopiesPage «module» size index len (R.remaining reader.old) (R.remaining reader.new) (W.contents writer.old) (W.contents writer.new)) }
    ensures fault { IfErr result (IsPageFault (R.remaining reader.old) len) }
    ensures part { OnErr result (BeginsPage «module» size index len (W.contents writer.old) (W.contents writer.new)) }
{
    let mut bytes = [0; PageSize::LARGE_BYTES];
    let bytes = &mut bytes[..len as usize];
    read_full(reader, bytes)?;
    write_full(writer, &messages::page_bytes(module, size, index, len))?;
    write_full(writer, bytes)
}

/// Writes all pages of a module, each of this size but for the last.
fn pack_pages<R: Read, W: Write>(
    module: ModuleNumber,
    size: PageSize,
    words: WordCount,
    reader: &mut R,
    writer: &mut W,
) -> Result<(), PackFault>
    ensures copied { OnOk result (CopiesPages «module» size words (R.remaining reader.old) (R.remaining reader.new) (W.contents writer.old) (W.contents writer.new)) }
    ensures fault { IfErr result (IsPageFault (R.remaining reader.old) (4 * words)) }
    ensures part { OnErr result (BeginsPages «module» size words (W.contents writer.old) (W.contents writer.new)) }
{
    for index in 0..words.pages(size) {
        let len = words.bytes_in_page(size, index);
        pack_page(module, size, index, len, reader, writer)?;
    }
    Ok(())
}

/// Writes the module whose code the reader has left, four bytes a word, a page at a time; its Open
/// tells the profile and the pages' size of the extent. It takes no memory.
///
/// # Errors
///
/// `Shorter` and `Longer` where the code hasn't the module's length, `ReadFailed` and `WriteFailed`
/// on an I/O error. What was written then is a beginning of such a module, which
/// isn't whole.
pub fn pack_module<R: Read, W: Write>(
    module: ModuleNumber,
    extent: Extent,
    reader: &mut R,
    writer: &mut W,
) -> Result<(), PackFault>
    ensures packed { OnOk result (Packs «module» extent (R.remaining reader.old) (R.remaining reader.new) (W.contents writer.old) (W.contents writer.new)) }
    ensures fault { IfErr result (IsPackFault (R.remaining reader.old) (4 * extent.words)) }
    ensures part { OnErr result (PacksPart «module» extent (W.contents writer.old) (W.contents writer.new)) }
{
    write_full(writer, &messages::open_bytes(module, extent))?;
    pack_pages(module, extent.pages(), extent.words(), reader, writer)?;
    expect_end(reader)?;
    write_full(writer, &messages::close_bytes(module))
}
