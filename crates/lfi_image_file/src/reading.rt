//! Image files, read.
ghost use Rattle.std.specs.Prelude.{◌≡◌, ◌*◌, ◌%◌, ◌<◌, ◌≤◌, [], length, true, false, IsTrue, IfOk, IfErr, IfSome, OnOk};
ghost use Rattle.std.specs.Io.KnownBytes.{Consumes, IsAtEnd};
ghost use Rattle.lfi_module.specs.Numbers.{small_page};
ghost use Rattle.page_buf.specs.Page.{IsWhole};
ghost use Rattle.a64_word.specs.Words.{words_of};
ghost use Rattle.lfi_image_file.specs.declared.fault.ImageFault.TheVariants.{NoMemory, Device};
ghost use Rattle.lfi_image.specs.Image.{IsImage};
ghost use Rattle.lfi_image_file.specs.Files.{FileOf, code_of};
ghost use Rattle.lfi_image_file.specs.Reading.{IsCodeFault, IsFault, IsUnread, IsRestUnread};
ghost use Rattle.lfi_image_file.specs.inner.Steps.{IsShort, IsNoPage, ReadsPage, IsPageFault, IsRead, IsSameModule};

use crate::fault::ImageFault;
use crate::header::{HEADER_BYTES, ImageHeader};
use exact_io::fill;
use lfi_image::{Builder, CompleteImage, JudgedPage};
use lfi_module::PageSize;
use page_buf::SealedPage;
use std::alloc::Global;
use std::io::Read;

/// Fills the buffer.
fn read_bytes<R: Read>(reader: &mut R, bytes: &mut [u8]) -> Result<(), ImageFault>
    ensures full { OnOk result (Consumes (R.remaining reader.old) (R.remaining reader.new) bytes.new) }
    ensures short { IfErr result (λ fault. IsShort (R.remaining reader.old) (length bytes.old) fault) }
{
    match fill(reader, bytes) {
        Ok(count) if count < bytes.len() => Err(ImageFault::Truncated),
        Ok(_) => Ok(()),
        Err(_) => Err(ImageFault::Device),
    }
}

/// Whether no byte is left.
fn is_at_end<R: Read>(reader: &mut R) -> Result<bool, ImageFault>
    ensures end { IfOk result (λ end. IsTrue end → IfSome (R.remaining reader.old) (λ xs. xs ≡ [])) }
    ensures ended { IfOk result (λ end. IsTrue end → IsAtEnd (R.remaining reader.new)) }
    ensures more { IfOk result (λ end. end ≡ false → IfSome (R.remaining reader.old) (λ xs. 0 < length xs)) }
    ensures failed { IfErr result (λ fault. fault ≡ Device) }
{
    let mut byte = [0; 1];
    match reader.read(&mut byte) {
        Ok(count) => Ok(count == 0),
        Err(_) => Err(ImageFault::Device),
    }
}

/// A sealed page of these bytes. Its words give them back.
fn sealed(alloc: Global, bytes: &[u8]) -> Result<SealedPage, ImageFault>
    requires { IsWhole bytes.now × (length bytes.now ≤ 4 * small_page) }
    ensures page { IfOk result (λ page. page ≡ record { size = small_page; bytes = bytes.now }) }
    ensures back { code_of (words_of bytes.now) ≡ bytes.now }
    ensures fault { IfErr result (λ fault. fault ≡ NoMemory) }
{
    match SealedPage::of(alloc, PageSize::SMALL, bytes) {
        Ok(page) => Ok(page),
        Err(_) => Err(ImageFault::NoMemory),
    }
}

/// Reads a small page of `len` bytes.
fn read_sealed<R: Read>(alloc: Global, reader: &mut R, len: usize) -> Result<SealedPage, ImageFault>
    requires { (0 < len) × (len ≤ 4 * small_page) × (len % 4 ≡ 0) }
    ensures read { IfOk result (λ page. Consumes (R.remaining reader.old) (R.remaining reader.new) page.bytes) }
    ensures size { IfOk result (λ page. page.size ≡ small_page) }
    ensures len { IfOk result (λ page. length page.bytes ≡ len) }
    ensures back { IfOk result (λ page. code_of (words_of page.bytes) ≡ page.bytes) }
    ensures fault { IfErr result (λ fault. IsNoPage (R.remaining reader.old) len fault) }
{
    let mut bytes = [0; PageSize::SMALL_BYTES];
    let bytes = &mut bytes[..len];
    read_bytes(reader, bytes)?;
    sealed(alloc, bytes)
}

/// Reads the next page of a module, and judges it.
fn read_page<R: Read>(
    alloc: Global,
    reader: &mut R,
    builder: &mut Builder,
) -> Result<(), ImageFault>
    requires room { length builder.old.placed < builder.old.extent.words }
    requires pages { builder.old.extent.pages ≡ small_page }
    ensures page { OnOk result (ReadsPage (R.remaining reader.old) (R.remaining reader.new) builder.old builder.new) }
    ensures fault { IfErr result (λ fault. IsPageFault (R.remaining reader.old) (R.remaining reader.new) builder.old fault) }
{
    let page = read_sealed(alloc, reader, 4 * builder.due() as usize)?;
    let page = JudgedPage::judge(page, builder.placed(), builder.extent());
    match builder.append(page) {
        Ok(()) => Ok(()),
        Err((fault, _)) => Err(ImageFault::Unlawful(fault)),
    }
}

/// Reads the code of a module by small pages.
fn read_code<R: Read>(
    alloc: Global,
    reader: &mut R,
    builder: &mut Builder,
) -> Result<(), ImageFault>
    requires none { builder.old.placed ≡ [] }
    requires pages { builder.old.extent.pages ≡ small_page }
    ensures code { OnOk result (IsRead builder.old.extent.profile (R.remaining reader.old) (R.remaining reader.new) builder.old.extent.words builder.new.placed) }
    ensures whole { OnOk result (length builder.new.placed ≡ builder.old.extent.words) }
    ensures same { OnOk result (IsSameModule builder.old builder.new) }
    ensures fault { IfErr result (λ fault. IfSome (R.remaining reader.old) (λ code. IsCodeFault builder.old.extent.profile builder.old.extent.words code fault)) }
    ensures unread { IfErr result (λ fault. IfSome (R.remaining reader.old) (λ code. IsUnread builder.old.extent.words code (R.remaining reader.new) fault)) }
{
    while builder.placed() < builder.extent().words().number() {
        read_page(alloc, reader, builder)?;
    }
    Ok(())
}

/// Reads an image's file, which is all that the reader has.
///
/// What is wrong is answered in the order of reading: the header's 24 bytes (else [`ImageFault::Truncated`]) with
/// [`ImageFault::Magic`], [`ImageFault::Profile`], [`ImageFault::Counts`] and [`ImageFault::Base`]; page by page
/// [`ImageFault::Truncated`], or [`ImageFault::Unlawful`] as soon as a page shows it; then [`ImageFault::More`].
/// [`ImageFault::NoMemory`] and [`ImageFault::Device`] come where they happen, the first only after a header without a
/// fault. After `Unlawful` the reader stands behind the page with the fault; after any other `Err` it may be left
/// anywhere.
///
/// # Errors
///
/// [`ImageFault`], in the order told above.
pub fn read_image<R: Read>(alloc: Global, reader: &mut R) -> Result<CompleteImage, ImageFault>
    ensures image { IfOk result (λ image. IsImage image) }
    ensures file { IfOk result (λ image. IfSome (R.remaining reader.old) (λ bytes. FileOf image bytes)) }
    ensures end { OnOk result (IsAtEnd (R.remaining reader.new)) }
    ensures fault { IfErr result (λ fault. IfSome (R.remaining reader.old) (λ bytes. IsFault bytes fault)) }
    ensures unread { IfErr result (λ fault. IfSome (R.remaining reader.old) (λ bytes. IsRestUnread bytes (R.remaining reader.new) fault)) }
{
    let mut bytes = [0; HEADER_BYTES];
    read_bytes(reader, &mut bytes)?;
    let header = ImageHeader::decode(&bytes)?;
    let Ok(mut builder) = Builder::new(alloc, header.extent, header.slot) else {
        return Err(ImageFault::NoMemory);
    };
    read_code(alloc, reader, &mut builder)?;
    if !is_at_end(reader)? {
        return Err(ImageFault::More);
    }
    match builder.finish() {
        Ok(image) => Ok(image),
        Err(_) => unreachable!(),
    }
}
