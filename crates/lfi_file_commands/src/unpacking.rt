//! `unpack`: the code of an image, written.

ghost use Rattle.std.specs.Prelude.{◌≡◌, [], ◌∷◌, ◌++◌, codes, IfOk, IfErr, OnErr, OnOk, false};
ghost use Rattle.std.specs.Io.KnownBytes.{Appends};
ghost use Rattle.a64_word.specs.Words.{words_of};
ghost use Rattle.page_buf.specs.Page.{IsWhole};
ghost use Rattle.lfi_image.specs.Built.{words_in};
ghost use Rattle.lfi_image_file.specs.Files.{code_of};
ghost use Rattle.lfi_file_commands.specs.Errors.{is_lost_of, writer_of};
ghost use Rattle.lfi_run_image.specs.declared.image_run.ImageRun.TheVariants.{Refused};
ghost use Rattle.lfi_run_image.specs.Texts.{run_text};
ghost use Rattle.lfi_file_commands.specs.Failures.{is_of_output, FailsOn, Told};
ghost use Rattle.lfi_file_commands.specs.Left.{OnlyOutput};
ghost use Rattle.lfi_file_commands.specs.Running.{EndsRun};
ghost use Rattle.lfi_file_commands.specs.Unpacking.{HasUnpacked};

use crate::device_cause::DeviceCause;
use crate::disk::{Disk, ImageStore};
use crate::ending::Ending;
use crate::errors::Errors;
use crate::failure::Failure;
use crate::opening::open;
use crate::outputs::Outputs;
use lfi_command_line::UnpackOptions;
use lfi_image_file::{ImageFault, read_image};
use lfi_run_image::ImageRun;
use page_buf::SealedPage;
use std::alloc::Global;
use std::io::{self, Write};

/// Writes these bytes.
fn write_bytes<W: Write>(bytes: &[u8], writer: &mut W) -> io::Result<()>
    ensures { OnOk result (Appends (W.contents writer.old) (W.contents writer.new) bytes.now) }
{
    writer.write_all(bytes)
}

/// Writes the bytes of a page: those of its words.
fn write_page<W: Write>(bytes: &[u8], writer: &mut W) -> io::Result<()>
    requires { IsWhole bytes.now }
    ensures { OnOk result (Appends (W.contents writer.old) (W.contents writer.new) (code_of (words_of bytes.now))) }
{
    write_bytes(bytes, writer)
}

/// Writes the words of these pages, a page a call.
fn write_pages<W: Write>(pages: &[SealedPage], writer: &mut W) -> io::Result<()>
    ensures { OnOk result (Appends (W.contents writer.old) (W.contents writer.new) (code_of (words_in pages.now))) }
{
    for at in 0..pages.len() {
        write_page(pages[at].bytes(), writer)?;
    }
    Ok(())
}

/// Tells why there is no image, as a run of it does.
fn tell_refused<E: Write>(fault: ImageFault, errors: &mut Errors<E>) -> Ending
    ensures told { Told (is_lost_of errors.new) (E.contents (writer_of errors.old)) (E.contents (writer_of errors.new)) (run_text (Refused fault) ++ codes "\n") }
    ensures ends { EndsRun (is_lost_of errors.new) (Refused fault) result }
{
    let run = ImageRun::Refused(fault);
    errors.write_line(run);
    errors.unless_lost(Ending::of_run(&run))
}

/// Writes the code of the image in a file, and nothing else; or tells why there is no image.
///
/// # Errors
///
/// Where the file can't be opened, or a write fails. A read that fails is told of the image, and so is it where there is no
/// memory for it.
pub fn run_unpack<'a, D: Disk, P: ImageStore, O: Write, E: Write>(
    alloc: Global,
    disk: &D,
    asked: &UnpackOptions<'a>,
    outputs: &mut Outputs<P, O, E>,
) -> Result<Ending, Failure<'a>>
    ensures found { IfOk result (HasUnpacked (D.file_at disk.now asked.now.image.now) outputs.old outputs.new) }
    ensures failure { IfErr result (FailsOn (asked.now.image.now ∷ [])) }
    ensures output { IfErr result (λ failure. is_of_output failure ≡ false → outputs.new.out ≡ outputs.old.out) }
    ensures untold { OnErr result (OnlyOutput outputs.old outputs.new) }
{
    let mut reader = match open(disk, asked.image) {
        Ok(reader) => reader,
        Err(failure) => return Err(failure),
    };
    match read_image(alloc, &mut reader) {
        Ok(image) => match write_pages(image.pages(), &mut outputs.out) {
            Ok(()) => Ok(Ending::Well),
            Err(error) => Err(Failure::of_output(DeviceCause::of(&error))),
        },
        Err(fault) => Ok(tell_refused(fault, &mut outputs.errors)),
    }
}
