//! `check`, from the paths to the ending.

ghost use Rattle.std.specs.Prelude.{◌≡◌, ℕ, IfOk, IfErr, IfSome, OnErr, false, length};
ghost use Rattle.lfi_file_commands.specs.Checking.{naming_text, IsFound};
ghost use Rattle.lfi_file_commands.specs.Explaining.{ChecksOne, ChecksPath, HasChecked, WritesFinding, paths_of};
ghost use Rattle.lfi_file_commands.specs.Failures.{is_of_a_write};
ghost use Rattle.lfi_file_commands.specs.Left.{Left, OnlyOutput};
ghost use Rattle.lfi_file_commands.specs.Several.{AreDone, DoesEach};

use crate::checking::{CommandFault, check_file};
use crate::device_cause::DeviceCause;
use crate::disk::{Disk, ImageStore};
use crate::ending::Ending;
use crate::errors::tell_failure;
use crate::explaining::check_explained;
use crate::failure::Failure;
use crate::finding::Finding;
use crate::naming::{Naming, name_of};
use crate::objects::run_check_objects;
use crate::opening::{open, path_at};
use crate::outputs::Outputs;
use crate::running::tell_other;
use lfi_command_line::{CheckOptions, Explain, Format};
use std::alloc::Global;
use std::io::Write;

/// Judges the code that the reader of a file has left, and writes what is found of it behind the name. Where nothing is to be
/// explained, the code isn't kept.
fn judge_file<D: Disk, O: Write>(
    alloc: Global,
    disk: &D,
    reader: D::Reader,
    name: Naming<'_>,
    asked: &CheckOptions<'_>,
    out: &mut O,
) -> Result<Finding, CommandFault>
    ensures found { IfOk result (λ finding. IfSome (D.Reader.remaining reader) (λ bytes. IsFound asked.now.profile bytes finding)) }
    ensures written { IfOk result (λ finding. WritesFinding (naming_text name.entry) asked.now.profile asked.now.explain (D.Reader.remaining reader) finding (O.contents out.old) (O.contents out.new)) }
    ensures unwritten { IfErr result (λ fault. is_of_a_write fault ≡ false → out.new ≡ out.old) }
{
    match asked.explain {
        Explain::Nothing => {
            let length = disk.length(&reader);
            check_file(alloc, reader, length, asked.profile, name, out)
        }
        explain => check_explained(alloc, reader, asked.profile, explain, name, out),
    }
}

/// Judges the code in the file at this path, writes what is found of it behind the name, and tells its length where it is no code.
/// A file that can't be read is told of.
///
/// # Errors
///
/// Where a write of the output fails, for this cause. Nothing was told then.
fn check_one<D: Disk, P: ImageStore, O: Write, E: Write>(
    alloc: Global,
    disk: &D,
    path: &str,
    name: Naming<'_>,
    asked: &CheckOptions<'_>,
    outputs: &mut Outputs<P, O, E>,
) -> Result<Ending, DeviceCause>
    ensures found { IfOk result (ChecksOne (naming_text name.entry) asked.now path.now (D.file_at disk.now path.now) outputs.old outputs.new) }
    ensures untold { OnErr result (OnlyOutput outputs.old outputs.new) }
{
    let reader = match open(disk, path) {
        Ok(reader) => reader,
        Err(failure) => return Ok(tell_failure(failure, &mut outputs.errors)),
    };
    match judge_file(alloc, disk, reader, name, asked, &mut outputs.out) {
        Ok(finding) => {
            tell_other(path, finding.other(), &mut outputs.errors);
            Ok(Ending::of_verdict(&finding.verdict()))
        }
        Err(CommandFault::NotWritten(cause)) => Err(cause),
        Err(fault) => Ok(tell_failure(Failure::of(fault, path), &mut outputs.errors)),
    }
}

/// Judges the code in the files, one after another, and tells of each. It gives the worst of their endings.
///
/// # Errors
///
/// Where a write of the output fails, for this cause: of one file. The others before it are told.
fn check_files<D: Disk, P: ImageStore, O: Write, E: Write>(
    alloc: Global,
    disk: &D,
    asked: &CheckOptions<'_>,
    outputs: &mut Outputs<P, O, E>,
) -> Result<Ending, DeviceCause>
    ensures all { IfOk result (AreDone (ChecksPath asked.now (D.file_at disk.now)) (paths_of asked.now) (length asked.now.files.items) outputs.old outputs.new) }
    ensures part { OnErr result ((k : ℕ) × (mid : Left) × (before : Ending) × AreDone (ChecksPath asked.now (D.file_at disk.now)) (paths_of asked.now) k outputs.old mid before × OnlyOutput mid outputs.new) }
{
    let paths = asked.files.as_slice();
    let mut worst = Ending::Well;
    for number in 0..paths.len() {
        let path = path_at(paths, number);
        let name = name_of(paths, path);
        let here = match check_one(alloc, disk, path, name, asked, outputs) {
            Ok(here) => here,
            Err(cause) => return Err(cause),
        };
        worst = worst.worse(here);
    }
    Ok(worst)
}

/// Judges the code in the files, and writes what is found of each, behind its path where there are several. A file that can't
/// be read is told of, and the others are judged. It ends where the output fails.
fn check_lines<D: Disk, P: ImageStore, O: Write, E: Write>(
    alloc: Global,
    disk: &D,
    asked: &CheckOptions<'_>,
    outputs: &mut Outputs<P, O, E>,
) -> Ending
    ensures { DoesEach (ChecksPath asked.now (D.file_at disk.now)) (paths_of asked.now) outputs.old outputs.new result }
{
    match check_files(alloc, disk, asked, outputs) {
        Ok(worst) => outputs.errors.unless_lost(worst),
        Err(cause) => tell_failure(Failure::of_output(cause), &mut outputs.errors),
    }
}

/// Judges the code in the files, and tells of each, in lines or as one object, by what is asked for. A file that can't be read is told
/// of, and the others are judged. It ends where the output fails.
pub fn run_check<D: Disk, P: ImageStore, O: Write, E: Write>(
    alloc: Global,
    disk: &D,
    asked: &CheckOptions<'_>,
    outputs: &mut Outputs<P, O, E>,
) -> Ending
    ensures { HasChecked asked.now (D.file_at disk.now) outputs.old outputs.new result }
{
    match asked.format {
        Format::Text => check_lines(alloc, disk, asked, outputs),
        Format::Json => run_check_objects(alloc, disk, asked, outputs),
    }
}
