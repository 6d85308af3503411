//! Code files that are packed as a stream, a module each.

ghost use Rattle.std.specs.Prelude.{◌≡◌, ◌<◌, ◌≤◌, ◌+◌, Some, None, true, map, length, slice_get, IfOk, IfErr, IfSome, OnOk};
ghost use Rattle.lfi_module.specs.Pages.{HasPages};
ghost use Rattle.a64_word.specs.Words.{words_of};
ghost use Rattle.lfi_check.specs.Checking.{IsCode};
ghost use Rattle.lfi_file_commands.specs.Errors.{is_lost_of, writer_of};
ghost use Rattle.lfi_file_commands.specs.Failures.{Told};
ghost use Rattle.lfi_file_commands.specs.Kinds.{kind_notes};
ghost use Rattle.lfi_file_commands.specs.Packing as spec;
ghost use Rattle.lfi_file_commands.specs.inner.Whole.{IsNoModuleOf, StopsAt, StopsAtOne, WritesModule};

use crate::device_cause::DeviceCause;
use crate::disk::Disk;
use crate::errors::Errors;
use crate::failure::Failure;
use crate::kind::{FileKind, KindNote};
use crate::no_code::{BadLength, NoCode};
use crate::opening::{open, path_at};
use crate::whole::read_whole;
use lfi_check::Code;
use lfi_command_line::PackOptions;
use lfi_module::{Extent, ModuleNumber, WordCount};
use lfi_pack::{PackFault, pack_module};
use std::alloc::Global;
use std::fmt;
use std::io::Write;

/// Why the code in a file is no module that can be packed.
#[derive(Clone, Copy, PartialEq, Eq)]
pub enum NoModule<'a> {
    /// The file at this path isn't 1 to 4,194,304 whole words.
    BadLength { path: &'a str, no_code: NoCode },
    /// The code in the file at this path has no word with this number, at which it is to be entered.
    NoEntry { path: &'a str, entry: u32 },
}

impl fmt::Display for NoModule<'_> {
    ghost output = { λ told. Some (spec.no_module_text told) };

    fn fmt<W: fmt::Write>(&self, f: &mut fmt::Formatter<W>) -> fmt::Result {
        match self {
            NoModule::BadLength { path, no_code } => f.write(BadLength {
                path,
                no_code: *no_code,
            }),
            NoModule::NoEntry { path, entry } => write!(f, "no word {entry} in {path}"),
        }
    }
}

/// Why code files aren't read as modules.
#[derive(Drop)]
pub(crate) enum NotPacked<'a> {
    /// One of them is none.
    NoModule(NoModule<'a>),
    /// One of them can't be read, or there was no memory.
    Failed(Failure<'a>),
}

/// Why these bytes of the file at this path are no module that is entered at this word, where they are none.
fn no_module<'a>(path: &'a str, bytes: &[u8], entry: u32) -> Option<NoModule<'a>>
    ensures some { IfSome result (IsNoModuleOf entry path.entry.now bytes.now) }
    ensures none { result ≡ None → IsCode bytes.now × (entry < length (words_of bytes.now)) }
{
    match Code::new(bytes) {
        Some(code) if (entry as usize) < code.len_words() => None,
        Some(_) => Some(NoModule::NoEntry { path, entry }),
        None => Some(NoModule::BadLength {
            path,
            no_code: NoCode::of(bytes),
        }),
    }
}

/// The code in the file at this path, as a module that is entered at this word.
fn read_module<'a, D: Disk>(
    alloc: Global,
    disk: &D,
    path: &'a str,
    entry: u32,
) -> Result<Vec<u8>, NotPacked<'a>>
    ensures code { IfOk result (λ code. IfSome (D.file_at disk.now path.now) (λ bytes. bytes ≡ code.items) × IsCode code.items) }
    ensures entry { IfOk result (λ code. entry < length (words_of code.items)) }
    ensures stop { IfErr result (StopsAt entry path.now (D.file_at disk.now)) }
{
    let reader = match open(disk, path) {
        Ok(reader) => reader,
        Err(failure) => return Err(NotPacked::Failed(failure)),
    };
    let bytes = match read_whole(alloc, reader) {
        Ok(bytes) => bytes,
        Err(fault) => return Err(NotPacked::Failed(Failure::of(fault, path))),
    };
    match no_module(path, &bytes, entry) {
        Some(no_module) => Err(NotPacked::NoModule(no_module)),
        None => Ok(bytes),
    }
}

/// The code in the files at these paths, in their order, up to the first that is no module.
pub(crate) fn read_modules<'a, D: Disk>(
    alloc: Global,
    disk: &D,
    paths: &[&'a str],
    entry: u32,
) -> Result<Vec<Vec<u8>>, NotPacked<'a>>
    ensures modules { IfOk result (λ files. spec.AreModulesOf entry (map (λ path. D.file_at disk.now path.now) paths.now) (map (λ file. file.items) files.items)) }
    ensures stop { IfErr result (StopsAtOne entry (map (λ path. path.now) paths.now) (D.file_at disk.now)) }
{
    let mut files = Vec::new(alloc);
    for number in 0..paths.len() {
        let file = match read_module(alloc, disk, path_at(paths, number), entry) {
            Ok(file) => file,
            Err(stop) => return Err(stop),
        };
        if files.push(file).is_err() {
            return Err(NotPacked::Failed(Failure::NoMemory));
        }
    }
    Ok(files)
}

/// The code at this place.
fn code_at(files: &[Vec<u8>], place: usize) -> &[u8]
    requires { place < length files.now }
    ensures { slice_get (map (λ file. file.items) files.now) place ≡ Some result.now }
{
    files[place].as_slice()
}

/// Tells of each of these files, at these paths, that begins as another kind of file than code.
pub(crate) fn tell_kinds<E: Write>(paths: &[&str], files: &[Vec<u8>], errors: &mut Errors<E>)
    requires { length files.now ≡ length paths.now }
    ensures told { Told (is_lost_of errors.new) (E.contents (writer_of errors.old)) (E.contents (writer_of errors.new)) (kind_notes (map (λ path. path.now) paths.now) (map (λ file. file.items) files.now)) }
{
    for number in 0..files.len() {
        let kind = FileKind::of(code_at(files, number));
        let path = path_at(paths, number);
        errors.write_text(KindNote { path, kind });
    }
}

/// Writes this code as the module with this number, as it is asked for.
fn write_module<W: Write>(
    number: usize,
    asked: &PackOptions<'_>,
    code: &[u8],
    writer: &mut W,
) -> Result<(), DeviceCause>
    requires number { number < 16 }
    requires code { IsCode code.now }
    requires entry { asked.now.entry < length (words_of code.now) }
    requires pages { HasPages asked.now.profile asked.now.pages }
    ensures { OnOk result (WritesModule asked.now number code.now (W.contents writer.old) (W.contents writer.new)) }
{
    let words = Code::of(code).len_words() as u32;
    let extent = Extent::of(
        WordCount::of(words),
        asked.entry,
        asked.profile,
        asked.pages,
    );
    let mut reader = code;
    match pack_module(ModuleNumber::at(number), extent, &mut reader, writer) {
        Ok(()) => Ok(()),
        Err(PackFault::WriteFailed(kind)) => Err(DeviceCause::of_kind(kind)),
        Err(_) => Err(DeviceCause::Other),
    }
}

/// Writes a stream of this code, a module each, as it is asked for.
///
/// # Errors
///
/// Where a write fails, for this cause.
pub(crate) fn write_stream<W: Write>(
    asked: &PackOptions<'_>,
    files: &[Vec<u8>],
    writer: &mut W,
) -> Result<(), DeviceCause>
    requires numbers { asked.now.first + length files.now ≤ 16 }
    requires modules { spec.AreModules asked.now.entry (map (λ file. file.items) files.now) }
    requires pages { HasPages asked.now.profile asked.now.pages }
    ensures { OnOk result (spec.WritesStream asked.now (map (λ file. file.items) files.now) (W.contents writer.old) (W.contents writer.new)) }
{
    for place in 0..files.len() {
        write_module(asked.first + place, asked, code_at(files, place), writer)?;
    }
    Ok(())
}
