//! `check --format json`, from the paths to the ending.

ghost use Rattle.std.specs.Prelude.{◌≡◌, ◌≤◌, ◌++◌, ℕ, List, [], Some, false, length, IfOk, IfErr, OnOk, OnErr, codes, decimal, string_bytes};
ghost use Rattle.std.specs.Io.KnownBytes.{Appends};
ghost use Rattle.a64_word.specs.Words.{words_of};
ghost use Rattle.lfi_module.specs.Numbers.{most_words};
ghost use Rattle.lfi_rules.specs.Faults.{FirstFault};
ghost use Rattle.lfi_check.specs.Checking.{IsCode};
ghost use Rattle.lfi_file_commands.specs.Explaining.{ChecksObject, IsObjectOf, WritesObjects, paths_of};
ghost use Rattle.lfi_file_commands.specs.Failures.{is_of_a_write, FailsOn, IsOfReading};
ghost use Rattle.lfi_file_commands.specs.Json as spec;
ghost use Rattle.lfi_file_commands.specs.Left.{Left, OnlyOutput};
ghost use Rattle.lfi_file_commands.specs.Several.{AreDone};
ghost use Rattle.lfi_file_commands.specs.inner.Whole.{IsFoundOf};

use crate::checking::{CommandFault, finding_of};
use crate::device_cause::DeviceCause;
use crate::disk::{Disk, ImageStore};
use crate::ending::Ending;
use crate::errors::{ended, tell_failure};
use crate::explaining::slot;
use crate::failure::Failure;
use crate::finding::Finding;
use crate::kind::FileKind;
use crate::members::{push_explanation, push_fault, push_plain, push_quoted, push_refused};
use crate::no_code::NoCode;
use crate::opening::{open, path_at};
use crate::outputs::Outputs;
use crate::running::tell_other;
use crate::whole::read_whole;
use lfi_check::Code;
use lfi_command_line::{CheckOptions, Explain};
use lfi_explain::explain;
use lfi_module::Profile;
use lfi_rules::Fault;
use std::alloc::{AllocError, Global};
use std::io::Write;

/// What is found of a file, and its object.
#[derive(Drop)]
struct Judged {
    finding: Finding,
    text: String,
}

/// A file, by its path, and how many are named before it.
#[derive(Clone, Copy)]
struct NamedFile<'a> {
    path: &'a str,
    before: usize,
}

/// Puts what the file is, where it isn't plain.
fn push_kind(kind: FileKind, text: &mut String) -> Result<(), AllocError>
    ensures { OnOk result (string_bytes text.new ≡ string_bytes text.old ++ spec.kind_member kind) }
{
    match kind {
        FileKind::Plain => Ok(()),
        kind => write!(text, ",\"file\":\"{}\"", kind.text()),
    }
}

/// Puts the explanation of the first fault of code.
fn push_first(
    alloc: Global,
    code: &Code<'_>,
    profile: Profile,
    fault: Fault,
    text: &mut String,
) -> Result<(), AllocError>
    requires fault { FirstFault profile (words_of code.now) (length (words_of code.now)) (Some fault) }
    requires most { length (words_of code.now) ≤ most_words }
    ensures { OnOk result ((more : List ℕ) × spec.RefusedMembers profile Explain.First code.now fault more × (string_bytes text.new ≡ string_bytes text.old ++ more)) }
{
    let explanation = explain(code, slot(), fault, profile);
    push_explanation(alloc, &explanation, text)
}

/// Puts each word of code that breaks a rule.
fn push_all(
    alloc: Global,
    code: &Code<'_>,
    profile: Profile,
    fault: Fault,
    text: &mut String,
) -> Result<(), AllocError>
    requires most { length (words_of code.now) ≤ most_words }
    ensures { OnOk result ((more : List ℕ) × spec.RefusedMembers profile Explain.All code.now fault more × (string_bytes text.new ≡ string_bytes text.old ++ more)) }
{
    push_refused(alloc, code, profile, text)
}

/// Puts what is asked of the first fault of code beside its word and rule.
fn push_asked(
    alloc: Global,
    code: &Code<'_>,
    asked: &CheckOptions<'_>,
    fault: Fault,
    text: &mut String,
) -> Result<(), AllocError>
    requires fault { FirstFault asked.now.profile (words_of code.now) (length (words_of code.now)) (Some fault) }
    requires most { length (words_of code.now) ≤ most_words }
    ensures { OnOk result ((more : List ℕ) × spec.RefusedMembers asked.now.profile asked.now.explain code.now fault more × (string_bytes text.new ≡ string_bytes text.old ++ more)) }
{
    match asked.explain {
        Explain::Nothing => Ok(()),
        Explain::First => push_first(alloc, code, asked.profile, fault, text),
        Explain::All => push_all(alloc, code, asked.profile, fault, text),
    }
}

/// Puts what is told of code that is refused for this fault.
fn push_refused_code(
    alloc: Global,
    bytes: &[u8],
    asked: &CheckOptions<'_>,
    fault: Fault,
    text: &mut String,
) -> Result<(), AllocError>
    requires code { IsCode bytes.now }
    requires fault { FirstFault asked.now.profile (words_of bytes.now) (length (words_of bytes.now)) (Some fault) }
    ensures { OnOk result ((told : List ℕ) × spec.IsRefusedText asked.now.profile asked.now.explain bytes.now fault told × (string_bytes text.new ≡ string_bytes text.old ++ told)) }
{
    let code = Code::of(bytes);
    push_plain(",\"verdict\":\"refused\",", text)?;
    push_fault(fault, text)?;
    push_asked(alloc, &code, asked, fault, text)?;
    push_kind(FileKind::of(bytes), text)
}

/// Puts that a file isn't code, and how many bytes it has.
fn push_bad_length(bytes: usize, text: &mut String) -> Result<(), AllocError>
    ensures { OnOk result (string_bytes text.new ≡ string_bytes text.old ++ (codes ",\"verdict\":\"bad length\",\"bytes\":" ++ decimal bytes)) }
{
    write!(text, ",\"verdict\":\"bad length\",\"bytes\":{bytes}")
}

/// Puts what is told of what isn't code.
fn push_no_code(no_code: NoCode, text: &mut String) -> Result<(), AllocError>
    ensures { OnOk result (string_bytes text.new ≡ string_bytes text.old ++ (codes ",\"verdict\":\"bad length\",\"bytes\":" ++ decimal no_code.bytes ++ spec.kind_member no_code.kind)) }
{
    push_bad_length(no_code.bytes, text)?;
    push_kind(no_code.kind, text)
}

/// Puts what is told of lawful code of `words` words.
fn push_lawful(words: u32, text: &mut String) -> Result<(), AllocError>
    ensures { OnOk result (string_bytes text.new ≡ string_bytes text.old ++ (codes ",\"verdict\":\"lawful\",\"words\":" ++ decimal words)) }
{
    write!(text, ",\"verdict\":\"lawful\",\"words\":{words}")
}

/// Puts what is told of what is found of these bytes.
fn push_finding(
    alloc: Global,
    bytes: &[u8],
    asked: &CheckOptions<'_>,
    finding: Finding,
    text: &mut String,
) -> Result<(), AllocError>
    requires { IsFoundOf asked.now.profile bytes.now finding }
    ensures { OnOk result ((told : List ℕ) × spec.IsFindingText asked.now.profile asked.now.explain (Some bytes.now) finding told × (string_bytes text.new ≡ string_bytes text.old ++ told)) }
{
    match finding {
        Finding::Lawful { words } => push_lawful(words, text),
        Finding::Refused(fault) => push_refused_code(alloc, bytes, asked, fault, text),
        Finding::NoCode(no_code) => push_no_code(no_code, text),
    }
}

/// Puts what stands before the object of a file, by how many of them stand before it.
fn push_before(before: usize, text: &mut String) -> Result<(), AllocError>
    ensures { OnOk result (string_bytes text.new ≡ string_bytes text.old ++ spec.before_file before) }
{
    match before {
        0 => push_plain("{\"files\":[", text),
        _ => push_plain(",", text),
    }
}

/// Puts the beginning of the object of a file: its path.
fn push_path(alloc: Global, file: NamedFile<'_>, text: &mut String) -> Result<(), AllocError>
    ensures { OnOk result (string_bytes text.new ≡ string_bytes text.old ++ (spec.before_file file.entry.before ++ codes "{\"path\":" ++ spec.quoted file.entry.path.now)) }
{
    push_before(file.before, text)?;
    push_plain("{\"path\":", text)?;
    push_quoted(alloc, file.path, text)
}

/// Puts the profile by which a file is judged.
fn push_profile(profile: Profile, text: &mut String) -> Result<(), AllocError>
    ensures { OnOk result (string_bytes text.new ≡ string_bytes text.old ++ spec.profile_member profile) }
{
    let number = profile.number();
    write!(text, ",\"profile\":{number}")
}

/// Puts the object of a file that has these bytes, of which this is found.
fn push_object(
    alloc: Global,
    file: NamedFile<'_>,
    bytes: &[u8],
    asked: &CheckOptions<'_>,
    finding: Finding,
    text: &mut String,
) -> Result<(), AllocError>
    requires { IsFoundOf asked.now.profile bytes.now finding }
    ensures { OnOk result ((told : List ℕ) × spec.IsFindingText asked.now.profile asked.now.explain (Some bytes.now) finding told
        × (string_bytes text.new ≡ string_bytes text.old ++ spec.file_object file.entry.before file.entry.path.now asked.now.profile told)) }
{
    push_path(alloc, file, text)?;
    push_profile(asked.profile, text)?;
    push_finding(alloc, bytes, asked, finding, text)?;
    push_plain("}", text)
}

/// What is found of these bytes, and the object of the file that has them.
fn judged_of(
    alloc: Global,
    file: NamedFile<'_>,
    bytes: &[u8],
    asked: &CheckOptions<'_>,
) -> Result<Judged, CommandFault>
    ensures found { IfOk result (λ judged. IsFoundOf asked.now.profile bytes.now judged.finding) }
    ensures told { IfOk result (λ judged. (told : List ℕ) × spec.IsFindingText asked.now.profile asked.now.explain (Some bytes.now) judged.finding told
        × (string_bytes judged.text ≡ spec.file_object file.entry.before file.entry.path.now asked.now.profile told)) }
    ensures fault { IfErr result (λ fault. is_of_a_write fault ≡ false) }
{
    let finding = finding_of(bytes, asked.profile);
    let mut text = String::new(alloc);
    match push_object(alloc, file, bytes, asked, finding, &mut text) {
        Ok(()) => Ok(Judged { finding, text }),
        Err(AllocError) => Err(CommandFault::NoMemory),
    }
}

/// What is found of the file at this path, and its object. The file is kept in memory meanwhile.
fn judged_at<'a, D: Disk>(
    alloc: Global,
    disk: &D,
    file: NamedFile<'a>,
    asked: &CheckOptions<'_>,
) -> Result<Judged, Failure<'a>>
    ensures judged { IfOk result (λ judged. IsObjectOf asked.now file.entry.before file.entry.path.now (D.file_at disk.now file.entry.path.now) judged.finding (string_bytes judged.text)) }
    ensures failure { IfErr result (IsOfReading file.entry.path.now) }
{
    let reader = match open(disk, file.path) {
        Ok(reader) => reader,
        Err(failure) => return Err(failure),
    };
    let bytes = match read_whole(alloc, reader) {
        Ok(bytes) => bytes,
        Err(fault) => return Err(Failure::of(fault, file.path)),
    };
    match judged_of(alloc, file, &bytes, asked) {
        Ok(judged) => Ok(judged),
        Err(fault) => Err(Failure::of(fault, file.path)),
    }
}

/// Writes a text.
///
/// # Errors
///
/// Where the write fails, for this cause.
pub fn write_object<W: Write>(text: &str, out: &mut W) -> Result<(), DeviceCause>
    ensures { OnOk result (Appends (W.contents out.old) (W.contents out.new) text.now) }
{
    match out.write_all(text.as_bytes()) {
        Ok(()) => Ok(()),
        Err(error) => Err(DeviceCause::of(&error)),
    }
}

/// Puts the object of a file that can't be read.
fn push_unread(
    alloc: Global,
    file: NamedFile<'_>,
    failure: &Failure<'_>,
    text: &mut String,
) -> Result<(), AllocError>
    ensures { OnOk result (string_bytes text.new ≡ string_bytes text.old ++ spec.unread_object file.entry.before file.entry.path.now failure.now) }
{
    push_path(alloc, file, text)?;
    push_plain(",\"error\":", text)?;
    push_quoted(alloc, format_args!("{failure}"), text)?;
    push_plain("}", text)
}

/// The object of a file that can't be read.
fn unread_object(
    alloc: Global,
    file: NamedFile<'_>,
    failure: &Failure<'_>,
) -> Result<String, AllocError>
    ensures { IfOk result (λ text. string_bytes text ≡ spec.unread_object file.entry.before file.entry.path.now failure.now) }
{
    let mut text = String::new(alloc);
    match push_unread(alloc, file, failure, &mut text) {
        Ok(()) => Ok(text),
        Err(error) => Err(error),
    }
}

/// Writes a text that is part of the object of all files.
fn write_part<W: Write>(text: &str, out: &mut W) -> Result<(), Failure<'static>>
    ensures written { OnOk result (Appends (W.contents out.old) (W.contents out.new) text.now) }
    ensures failure { IfErr result (FailsOn []) }
{
    match write_object(text, out) {
        Ok(()) => Ok(()),
        Err(cause) => Err(Failure::of_output(cause)),
    }
}

/// Writes the object of a file that can't be read.
fn write_unread<W: Write>(
    alloc: Global,
    file: NamedFile<'_>,
    failure: &Failure<'_>,
    out: &mut W,
) -> Result<(), Failure<'static>>
    ensures written { OnOk result (Appends (W.contents out.old) (W.contents out.new) (spec.unread_object file.entry.before file.entry.path.now failure.now)) }
    ensures failure { IfErr result (FailsOn []) }
{
    match unread_object(alloc, file, failure) {
        Ok(text) => write_part(text.as_str(), out),
        Err(AllocError) => Err(Failure::NoMemory),
    }
}

/// Judges the code in the file at this path, writes its object, and tells its length where it is no code. A file that can't be
/// read is told of.
///
/// # Errors
///
/// Where the object can't be written, or there is no memory for one that says that a file can't be read. Nothing was told then.
fn check_object<D: Disk, P: ImageStore, O: Write, E: Write>(
    alloc: Global,
    disk: &D,
    file: NamedFile<'_>,
    asked: &CheckOptions<'_>,
    outputs: &mut Outputs<P, O, E>,
) -> Result<Ending, Failure<'static>>
    ensures found { IfOk result (ChecksObject asked.now (D.file_at disk.now) file.entry.before file.entry.path.now outputs.old outputs.new) }
    ensures failure { IfErr result (FailsOn []) }
    ensures untold { OnErr result (OnlyOutput outputs.old outputs.new) }
{
    match judged_at(alloc, disk, file, asked) {
        Ok(judged) => match write_part(judged.text.as_str(), &mut outputs.out) {
            Ok(()) => {
                tell_other(file.path, judged.finding.other(), &mut outputs.errors);
                Ok(Ending::of_verdict(&judged.finding.verdict()))
            }
            Err(unwritten) => Err(unwritten),
        },
        Err(failure) => match write_unread(alloc, file, &failure, &mut outputs.out) {
            Ok(()) => Ok(tell_failure(failure, &mut outputs.errors)),
            Err(unwritten) => Err(unwritten),
        },
    }
}

/// Judges the code in the files, one after another, and writes the object of each. It gives the worst of their endings.
///
/// # Errors
///
/// Where the object of one file can't be written. The others before it are.
fn check_objects<D: Disk, P: ImageStore, O: Write, E: Write>(
    alloc: Global,
    disk: &D,
    asked: &CheckOptions<'_>,
    outputs: &mut Outputs<P, O, E>,
) -> Result<Ending, Failure<'static>>
    ensures failure { IfErr result (FailsOn []) }
    ensures all { IfOk result (AreDone (ChecksObject asked.now (D.file_at disk.now)) (paths_of asked.now) (length asked.now.files.items) outputs.old outputs.new) }
    ensures part { OnErr result ((k : ℕ) × (mid : Left) × (before : Ending) × AreDone (ChecksObject asked.now (D.file_at disk.now)) (paths_of asked.now) k outputs.old mid before × OnlyOutput mid outputs.new) }
{
    let paths = asked.files.as_slice();
    let mut worst = Ending::Well;
    for number in 0..paths.len() {
        let file = NamedFile {
            path: path_at(paths, number),
            before: number,
        };
        let here = match check_object(alloc, disk, file, asked, outputs) {
            Ok(here) => here,
            Err(failure) => return Err(failure),
        };
        worst = worst.worse(here);
    }
    Ok(worst)
}

/// Judges the code in the files, and writes one object with that of each. A file that can't be read is told of there too, and
/// the others are judged. It ends where the output fails, or there is no memory for what is told of such a file.
pub(crate) fn run_check_objects<D: Disk, P: ImageStore, O: Write, E: Write>(
    alloc: Global,
    disk: &D,
    asked: &CheckOptions<'_>,
    outputs: &mut Outputs<P, O, E>,
) -> Ending
    ensures { WritesObjects asked.now (D.file_at disk.now) outputs.old outputs.new result }
{
    let worst = match check_objects(alloc, disk, asked, outputs) {
        Ok(worst) => worst,
        Err(failure) => return tell_failure(failure, &mut outputs.errors),
    };
    match write_part("]}\n", &mut outputs.out) {
        Ok(()) => outputs.errors.unless_lost(worst),
        Err(failure) => ended(Err(failure), outputs),
    }
}
