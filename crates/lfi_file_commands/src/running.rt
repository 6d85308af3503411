//! The commands that read files and need no thread, from the paths to the ending.

ghost use Rattle.std.specs.Prelude.{◌≡◌, ◌≤◌, [], ◌∷◌, IfOk, IfErr, OnErr, ◌+◌, false, true, length, map};
ghost use Rattle.lfi_module.specs.Pages.{HasPages};
ghost use Rattle.lfi_file_commands.specs.Errors.{is_lost_of, writer_of};
ghost use Rattle.lfi_file_commands.specs.Checking.{TellsOf};
ghost use Rattle.lfi_file_commands.specs.Failures.{is_of_output, FailsOn, IsOfReading, Told};
ghost use Rattle.lfi_file_commands.specs.Left.{OnlyOutput};
ghost use Rattle.lfi_file_commands.specs.Listing.{HasListed, listed_text, marks_by};
ghost use Rattle.lfi_file_commands.specs.Packing.{codes_of, AreModules, HasPacked, WritesStream};
ghost use Rattle.lfi_file_commands.specs.Running.{told_of_run, HasRun};

use crate::disk::{Disk, ImageStore};
use crate::ending::Ending;
use crate::errors::Errors;
use crate::explaining::disassemble;
use crate::failure::Failure;
use crate::kind::KindNote;
use crate::listed::Listed;
use crate::no_code::NoCode;
use crate::opening::open;
use crate::outputs::Outputs;
use crate::packing::{NoModule, NotPacked, read_modules, tell_kinds, write_stream};
use crate::run_object::RunObject;
use lfi_command_line::{DisassembleOptions, Format, PackOptions, RunOptions};
use lfi_explain::Marks;
use lfi_run_image::{ImageRun, run_image};
use std::alloc::Global;
use std::io::Write;

/// Tells which length the file at a path has, where it is no code.
pub(crate) fn tell_other<E: Write>(path: &str, other: Option<NoCode>, errors: &mut Errors<E>)
    ensures told { TellsOf path.now other (is_lost_of errors.old) (is_lost_of errors.new) (E.contents (writer_of errors.old)) (E.contents (writer_of errors.new)) }
{
    match other {
        Some(no_code) => errors.tell_no_module(NoModule::BadLength { path, no_code }),
        None => {}
    }
}

/// Tells what is to be told of the file at a path that was listed.
fn tell_listed<E: Write>(path: &str, listed: Listed, errors: &mut Errors<E>)
    ensures told { Told (is_lost_of errors.new) (E.contents (writer_of errors.old)) (E.contents (writer_of errors.new)) (listed_text path.now listed) }
{
    match listed {
        Listed::Words(kind) => errors.write_text(KindNote { path, kind }),
        Listed::NoCode(no_code) => errors.tell_no_module(NoModule::BadLength { path, no_code }),
    }
}

/// The marks of a listing, by the flag.
fn marks_by(marks: bool) -> Marks
    ensures { result ≡ marks_by marks }
{
    if marks {
        Marks::BrokenRules
    } else {
        Marks::NoMarks
    }
}

/// Lists the words of the code in a file, and marks those that break a rule where that is asked for. It tells where the file
/// begins as another kind of file.
///
/// # Errors
///
/// Where the file can't be opened or read, a write fails, or there is no memory for the code.
pub fn run_disassemble<'a, D: Disk, P: ImageStore, O: Write, E: Write>(
    alloc: Global,
    disk: &D,
    asked: &DisassembleOptions<'a>,
    outputs: &mut Outputs<P, O, E>,
) -> Result<Ending, Failure<'a>>
    ensures found { IfOk result (HasListed asked.now (D.file_at disk.now asked.now.file.now) outputs.old outputs.new) }
    ensures failure { IfErr result (FailsOn (asked.now.file.now ∷ [])) }
    ensures output { IfErr result (λ failure. is_of_output failure ≡ false → outputs.new.out ≡ outputs.old.out) }
    ensures untold { OnErr result (OnlyOutput outputs.old outputs.new) }
{
    let path = asked.file;
    let reader = match open(disk, path) {
        Ok(reader) => reader,
        Err(failure) => return Err(failure),
    };
    match disassemble(
        alloc,
        reader,
        marks_by(asked.marks),
        asked.profile,
        &mut outputs.out,
    ) {
        Ok(listed) => {
            tell_listed(path, listed, &mut outputs.errors);
            Ok(outputs.errors.unless_lost(listed.ending()))
        }
        Err(fault) => Err(Failure::of(fault, path)),
    }
}

/// Writes a stream of the code in the files, a module each. All files are read before anything is written. It tells of each that
/// begins as another kind of file.
///
/// # Errors
///
/// Where a file can't be opened or read, a write fails, or there is no memory for the code.
pub fn run_pack<'a, D: Disk, P: ImageStore, O: Write, E: Write>(
    alloc: Global,
    disk: &D,
    asked: &PackOptions<'a>,
    outputs: &mut Outputs<P, O, E>,
) -> Result<Ending, Failure<'a>>
    requires numbers { asked.now.first + length asked.now.codes.items ≤ 16 }
    requires pages { HasPages asked.now.profile asked.now.pages }
    ensures found { IfOk result (HasPacked asked.now (D.file_at disk.now) outputs.old outputs.new) }
    ensures failure { IfErr result (FailsOn (codes_of asked.now)) }
    ensures output { IfErr result (λ failure. is_of_output failure ≡ false → outputs.new.out ≡ outputs.old.out) }
    ensures untold { OnErr result (OnlyOutput outputs.old outputs.new) }
{
    match read_modules(alloc, disk, asked.codes.as_slice(), asked.entry) {
        Ok(files) => match write_stream(asked, &files, &mut outputs.out) {
            Ok(()) => {
                tell_kinds(asked.codes.as_slice(), &files, &mut outputs.errors);
                Ok(outputs.errors.unless_lost(Ending::Well))
            }
            Err(cause) => Err(Failure::of_output(cause)),
        },
        Err(NotPacked::Failed(failure)) => Err(failure),
        Err(NotPacked::NoModule(no_module)) => {
            outputs.errors.tell_no_module(no_module);
            Ok(outputs.errors.unless_lost(Ending::NotWell))
        }
    }
}

/// Tells what came of an image file that was run, in this form.
fn tell_run<E: Write>(run: ImageRun, format: Format, errors: &mut Errors<E>)
    ensures told { Told (is_lost_of errors.new) (E.contents (writer_of errors.old)) (E.contents (writer_of errors.new)) (told_of_run format run) }
{
    match format {
        Format::Text => errors.write_line(run),
        Format::Json => errors.write_line(RunObject(run)),
    }
}

/// Runs the image in a file for at most the steps that are asked for, and tells what comes of it.
///
/// # Errors
///
/// Where the file can't be opened, or there is no memory. A read that fails is told of the image.
pub fn run_run<'a, D: Disk, P: ImageStore, O: Write, E: Write>(
    alloc: Global,
    disk: &D,
    asked: &RunOptions<'a>,
    outputs: &mut Outputs<P, O, E>,
) -> Result<Ending, Failure<'a>>
    ensures found { IfOk result (HasRun (D.file_at disk.now asked.now.image.now) asked.now.steps asked.now.format outputs.old outputs.new) }
    ensures failure { IfErr result (IsOfReading asked.now.image.now) }
    ensures unchanged { OnErr result (outputs.new ≡ outputs.old) }
{
    let mut reader = match open(disk, asked.image) {
        Ok(reader) => reader,
        Err(failure) => return Err(failure),
    };
    let run = match run_image(alloc, &mut reader, asked.steps, &mut outputs.out) {
        Ok(run) => run,
        Err(error) => return Err(Failure::from(error)),
    };
    tell_run(run, asked.format, &mut outputs.errors);
    Ok(outputs.errors.unless_lost(Ending::of_run(&run)))
}
