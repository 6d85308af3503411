//! Image files, written.
ghost use Rattle.std.specs.Prelude.{◌≡◌, OnOk, OnErr, IfErr};
ghost use Rattle.std.specs.Io.KnownBytes.{Appends};
ghost use Rattle.page_buf.specs.Page.{IsWhole};
ghost use Rattle.a64_word.specs.Words.{words_of};
ghost use Rattle.lfi_image_file.specs.Files.{file_of, code_of};
ghost use Rattle.lfi_image.specs.Built.{words_in};
ghost use Rattle.lfi_image_file.specs.declared.fault.ImageFault.TheVariants.{Device};
ghost use Rattle.exact_io.specs.Beginnings.{AppendsBeginning};
ghost use Rattle.lfi_image_file.specs.inner.Writing.{Writes};

use crate::fault::ImageFault;
use crate::header::encode;
use exact_io::write_in_full;
use lfi_image::CompleteImage;
use page_buf::SealedPage;
use std::io::Write;

/// Writes the bytes, or a part of them where the writer fails.
fn write_bytes<W: Write>(writer: &mut W, bytes: &[u8]) -> Result<(), ImageFault>
    ensures { Writes (W.contents writer.old) (W.contents writer.new) bytes.now result }
{
    match write_in_full(writer, bytes) {
        Ok(()) => Ok(()),
        Err(_) => Err(ImageFault::Device),
    }
}

/// Writes the bytes of a page: those of its words.
fn write_page<W: Write>(writer: &mut W, bytes: &[u8]) -> Result<(), ImageFault>
    requires { IsWhole bytes.now }
    ensures { Writes (W.contents writer.old) (W.contents writer.new) (code_of (words_of bytes.now)) result }
{
    write_bytes(writer, bytes)
}

/// Writes the code of pages, a page a call.
fn write_pages<W: Write>(writer: &mut W, pages: &[SealedPage]) -> Result<(), ImageFault>
    ensures { Writes (W.contents writer.old) (W.contents writer.new) (code_of (words_in pages.now)) result }
{
    let mut at = 0;
    while at < pages.len() {
        write_page(writer, pages[at].bytes())?;
        at += 1;
    }
    Ok(())
}

/// Writes an image's file.
///
/// # Errors
///
/// [`ImageFault::Device`], where a write failed or took nothing of what was left: then a beginning of the file was
/// written, and not all of it.
pub fn write_image<W: Write>(image: &CompleteImage, writer: &mut W) -> Result<(), ImageFault>
    ensures written { OnOk result (Appends (W.contents writer.old) (W.contents writer.new) (file_of image.now)) }
    ensures fault { IfErr result (λ fault. fault ≡ Device) }
    ensures part { OnErr result (AppendsBeginning (W.contents writer.old) (W.contents writer.new) (file_of image.now)) }
{
    let header = encode(
        image.words().number(),
        image.entry(),
        image.profile(),
        image.slot(),
    );
    write_bytes(writer, &header)?;
    write_pages(writer, image.pages())
}
