//! Verdicts that are explained, and listings.

ghost use Rattle.std.specs.Prelude.{◌≡◌, ◌≤◌, ◌++◌, ℕ, List, Option, Some, false, true, codes, length, IfOk, IfErr, IfSome, OnOk};
ghost use Rattle.std.specs.Io.KnownBytes.{Appends};
ghost use Rattle.a64_word.specs.Words.{words_of};
ghost use Rattle.lfi_module.specs.Numbers.{most_words};
ghost use Rattle.lfi_rules.specs.Faults.{FirstFault};
ghost use Rattle.lfi_rules.specs.Texts.{fault_text};
ghost use Rattle.lfi_explain.specs.Explanations.{explanation_text};
ghost use Rattle.lfi_check.specs.declared.verdict.Verdict.TheVariants.{BadLength, Lawful};
ghost use Rattle.lfi_check.specs.Checking.{IsCode, verdict_text};
ghost use Rattle.lfi_file_commands.specs.Checking.{naming_text, IsFound};
ghost use Rattle.lfi_file_commands.specs.Failures.{is_of_a_write};
ghost use Rattle.lfi_file_commands.specs.Kinds.{file_kind, kind_line};
ghost use Rattle.lfi_file_commands.specs.Explaining.{ExplainsFault, TellsRefusals, WritesFault, WritesFinding};
ghost use Rattle.lfi_file_commands.specs.Listing.{WritesWords};
ghost use Rattle.lfi_file_commands.specs.inner.Whole.{IsFoundOf, Lists};

use crate::checking::{CommandFault, write_verdict};
use crate::finding::Finding;
use crate::kind::{FileKind, KindLine};
use crate::listed::Listed;
use crate::naming::Naming;
use crate::no_code::NoCode;
use crate::texts::{write_line, write_text};
use crate::whole::read_whole;
use lfi_check::{Code, Verdict};
use lfi_command_line::Explain;
use lfi_explain::{Explanation, LineRoom, Marks, explain, write_listing, write_refusals};
use lfi_module::{ModuleNumber, Profile};
use lfi_rules::{Fault, check_all};
use std::alloc::{AllocError, Global};
use std::io::{self, Read, Write};

/// What stands around what is told of code in a file: before it the file's name, after it what the file is; and the profile
/// by which the code is judged.
#[derive(Clone, Copy)]
struct Around<'a> {
    name: Naming<'a>,
    kind: FileKind,
    profile: Profile,
}

/// The slot in which code is told to lie: that of module 0, since a code file says none.
pub(crate) fn slot() -> ModuleNumber
    ensures { result ≡ 0 }
{
    ModuleNumber::at(0)
}

/// Writes this explanation, behind the name and before the kind.
fn write_explained<W: Write>(
    alloc: Global,
    around: Around<'_>,
    explanation: Explanation,
    writer: &mut W,
) -> io::Result<()>
    ensures { OnOk result (Appends (W.contents writer.old) (W.contents writer.new) (naming_text around.entry.name ++ explanation_text explanation ++ codes "\n" ++ kind_line around.entry.kind)) }
{
    let name = around.name;
    let kind = KindLine(around.kind);
    write_text(alloc, writer, format_args!("{name}{explanation}\n{kind}"))
}

/// Writes the explanation of the first fault of this code.
fn write_explanation<W: Write>(
    alloc: Global,
    code: &Code<'_>,
    around: Around<'_>,
    fault: Fault,
    writer: &mut W,
) -> io::Result<()>
    requires fault { FirstFault around.profile (words_of code.now) (length (words_of code.now)) (Some fault) }
    requires most { length (words_of code.now) ≤ most_words }
    ensures { OnOk result (ExplainsFault (naming_text around.entry.name) around.entry.kind around.entry.profile code.now fault (W.contents writer.old) (W.contents writer.new)) }
{
    let explanation = explain(code, slot(), fault, around.profile);
    write_explained(alloc, around, explanation, writer)
}

/// Writes what is told of each word of this code that breaks a rule, and how many these are, in this room.
fn write_refusals_in<W: Write>(
    room: LineRoom,
    alloc: Global,
    code: &Code<'_>,
    around: Around<'_>,
    writer: &mut W,
) -> io::Result<()>
    requires most { length (words_of code.now) ≤ most_words }
    ensures { OnOk result (TellsRefusals (naming_text around.entry.name) around.entry.kind around.entry.profile code.now (W.contents writer.old) (W.contents writer.new)) }
{
    write_text(alloc, writer, around.name)?;
    write_refusals(room, code, slot(), around.profile, writer)?;
    write_text(alloc, writer, KindLine(around.kind))
}

/// Writes the same, once there is room for its lines.
fn write_each_refusal<W: Write>(
    alloc: Global,
    code: &Code<'_>,
    around: Around<'_>,
    writer: &mut W,
) -> Result<(), CommandFault>
    requires most { length (words_of code.now) ≤ most_words }
    ensures written { OnOk result (TellsRefusals (naming_text around.entry.name) around.entry.kind around.entry.profile code.now (W.contents writer.old) (W.contents writer.new)) }
    ensures unwritten { IfErr result (λ fault. is_of_a_write fault ≡ false → writer.new ≡ writer.old) }
{
    let room = match LineRoom::new(alloc) {
        Ok(room) => room,
        Err(AllocError) => return Err(CommandFault::NoMemory),
    };
    match write_refusals_in(room, alloc, code, around, writer) {
        Ok(()) => Ok(()),
        Err(error) => Err(CommandFault::of_write(&error)),
    }
}

/// Writes the line of the first fault of code, behind the name.
fn write_fault_line<W: Write>(
    alloc: Global,
    name: Naming<'_>,
    fault: Fault,
    writer: &mut W,
) -> io::Result<()>
    ensures { OnOk result (Appends (W.contents writer.old) (W.contents writer.new) (naming_text name.entry ++ fault_text fault ++ codes "\n")) }
{
    write_line(alloc, writer, format_args!("{name}{fault}"))
}

/// Writes what is asked of the first fault of this code.
fn write_fault<W: Write>(
    alloc: Global,
    code: &Code<'_>,
    around: Around<'_>,
    fault: Fault,
    how: Explain,
    writer: &mut W,
) -> Result<(), CommandFault>
    requires fault { FirstFault around.profile (words_of code.now) (length (words_of code.now)) (Some fault) }
    requires most { length (words_of code.now) ≤ most_words }
    ensures written { OnOk result (WritesFault (naming_text around.entry.name) around.entry.kind around.entry.profile how code.now fault (W.contents writer.old) (W.contents writer.new)) }
    ensures unwritten { IfErr result (λ fault. is_of_a_write fault ≡ false → writer.new ≡ writer.old) }
{
    match how {
        Explain::Nothing => match write_fault_line(alloc, around.name, fault, writer) {
            Ok(()) => Ok(()),
            Err(error) => Err(CommandFault::of_write(&error)),
        },
        Explain::First => match write_explanation(alloc, code, around, fault, writer) {
            Ok(()) => Ok(()),
            Err(error) => Err(CommandFault::of_write(&error)),
        },
        Explain::All => write_each_refusal(alloc, code, around, writer),
    }
}

/// Writes the line of lawful code of `words` words, behind the name.
fn write_lawful<W: Write>(
    alloc: Global,
    name: Naming<'_>,
    words: u32,
    writer: &mut W,
) -> Result<Finding, CommandFault>
    ensures written { IfOk result (λ finding. (finding ≡ Finding.Lawful words) × Appends (W.contents writer.old) (W.contents writer.new) (naming_text name.entry ++ verdict_text (Lawful words) ++ codes "\n")) }
    ensures fault { IfErr result (λ fault. is_of_a_write fault ≡ true) }
{
    match write_verdict(alloc, name, Verdict::Lawful { words }, writer) {
        Ok(()) => Ok(Finding::Lawful { words }),
        Err(fault) => Err(fault),
    }
}

/// Judges code, and writes what is found of it, with what stands around it.
fn write_judged<W: Write>(
    alloc: Global,
    code: &Code<'_>,
    around: Around<'_>,
    how: Explain,
    writer: &mut W,
) -> Result<Finding, CommandFault>
    requires code { IsCode code.now }
    requires kind { around.kind ≡ file_kind code.now }
    ensures found { IfOk result (IsFoundOf around.entry.profile code.now) }
    ensures written { IfOk result (λ finding. WritesFinding (naming_text around.entry.name) around.entry.profile how (Some code.now) finding (W.contents writer.old) (W.contents writer.new)) }
    ensures unwritten { IfErr result (λ fault. is_of_a_write fault ≡ false → writer.new ≡ writer.old) }
{
    match check_all(code, around.profile) {
        None => write_lawful(alloc, around.name, code.len_words() as u32, writer),
        Some(fault) => match write_fault(alloc, code, around, fault, how, writer) {
            Ok(()) => Ok(Finding::Refused(fault)),
            Err(fault) => Err(fault),
        },
    }
}

/// Writes the line of what isn't code, and what it is.
fn write_kind<W: Write>(
    alloc: Global,
    no_code: NoCode,
    name: Naming<'_>,
    writer: &mut W,
) -> Result<(), CommandFault>
    ensures written { OnOk result (Appends (W.contents writer.old) (W.contents writer.new) (naming_text name.entry ++ verdict_text BadLength ++ codes "\n" ++ kind_line no_code.kind)) }
    ensures fault { IfErr result (λ fault. is_of_a_write fault ≡ true) }
{
    let verdict = Verdict::BadLength;
    let kind = KindLine(no_code.kind);
    match write_text(alloc, writer, format_args!("{name}{verdict}\n{kind}")) {
        Ok(()) => Ok(()),
        Err(error) => Err(CommandFault::of_write(&error)),
    }
}

/// Writes the line of what isn't code, and what it is where something is to be explained.
fn write_other<W: Write>(
    alloc: Global,
    no_code: NoCode,
    name: Naming<'_>,
    how: Explain,
    writer: &mut W,
) -> Result<(), CommandFault>
    ensures written { (profile : Profile) (bytes : Option (List ℕ)) → OnOk result (WritesFinding (naming_text name.entry) profile how bytes (Finding.NoCode no_code) (W.contents writer.old) (W.contents writer.new)) }
    ensures fault { IfErr result (λ fault. is_of_a_write fault ≡ true) }
{
    match how {
        Explain::Nothing => write_verdict(alloc, name, Verdict::BadLength, writer),
        Explain::First | Explain::All => write_kind(alloc, no_code, name, writer),
    }
}

/// Judges these bytes as code, and writes what is found, behind the name.
fn write_found<W: Write>(
    alloc: Global,
    bytes: &[u8],
    profile: Profile,
    how: Explain,
    name: Naming<'_>,
    writer: &mut W,
) -> Result<Finding, CommandFault>
    ensures found { IfOk result (IsFoundOf profile bytes.now) }
    ensures written { IfOk result (λ finding. WritesFinding (naming_text name.entry) profile how (Some bytes.now) finding (W.contents writer.old) (W.contents writer.new)) }
    ensures unwritten { IfErr result (λ fault. is_of_a_write fault ≡ false → writer.new ≡ writer.old) }
{
    match Code::new(bytes) {
        Some(code) => {
            let around = Around {
                name,
                kind: FileKind::of(bytes),
                profile,
            };
            write_judged(alloc, &code, around, how, writer)
        }
        None => {
            let no_code = NoCode::of(bytes);
            match write_other(alloc, no_code, name, how, writer) {
                Ok(()) => Ok(Finding::NoCode(no_code)),
                Err(fault) => Err(fault),
            }
        }
    }
}

/// Judges the code that a reader has left, up to its end, and writes what is found, behind the name: its line, with the first
/// fault explained, or each word that breaks a rule, where it is refused; and what the file is, where it isn't lawful and
/// begins as another one. The code is kept in memory meanwhile.
///
/// # Errors
///
/// Where a read or the write fails, or there is no memory for the code or for lines.
pub(crate) fn check_explained<R: Read + Drop, W: Write>(
    alloc: Global,
    reader: R,
    profile: Profile,
    how: Explain,
    name: Naming<'_>,
    writer: &mut W,
) -> Result<Finding, CommandFault>
    ensures found { IfOk result (λ finding. IfSome (R.remaining reader) (λ bytes. IsFound profile bytes finding)) }
    ensures written { IfOk result (λ finding. WritesFinding (naming_text name.entry) profile how (R.remaining reader) finding (W.contents writer.old) (W.contents writer.new)) }
    ensures unwritten { IfErr result (λ fault. is_of_a_write fault ≡ false → writer.new ≡ writer.old) }
{
    match read_whole(alloc, reader) {
        Ok(bytes) => write_found(alloc, &bytes, profile, how, name, writer),
        Err(fault) => Err(fault),
    }
}

/// Writes a line for each word of this code, with these marks.
fn write_words<W: Write>(
    alloc: Global,
    code: &Code<'_>,
    kind: FileKind,
    marks: Marks,
    profile: Profile,
    writer: &mut W,
) -> Result<Listed, CommandFault>
    requires code { IsCode code.now }
    requires kind { kind ≡ file_kind code.now }
    ensures listed { IfOk result (λ listed. Lists marks profile code.now listed (W.contents writer.old) (W.contents writer.new)) }
    ensures unwritten { IfErr result (λ fault. is_of_a_write fault ≡ false → writer.new ≡ writer.old) }
{
    let room = match LineRoom::new(alloc) {
        Ok(room) => room,
        Err(AllocError) => return Err(CommandFault::NoMemory),
    };
    match write_listing(room, code, slot(), marks, profile, writer) {
        Ok(()) => Ok(Listed::Words(kind)),
        Err(error) => Err(CommandFault::of_write(&error)),
    }
}

/// Writes the line of what isn't code.
fn write_bad_length<W: Write>(
    alloc: Global,
    no_code: NoCode,
    writer: &mut W,
) -> Result<Listed, CommandFault>
    ensures listed { IfOk result (λ listed. (listed ≡ Listed.NoCode no_code) × Appends (W.contents writer.old) (W.contents writer.new) (codes "bad length\n")) }
    ensures fault { IfErr result (λ fault. is_of_a_write fault ≡ true) }
{
    match write_text(alloc, writer, "bad length\n") {
        Ok(()) => Ok(Listed::NoCode(no_code)),
        Err(error) => Err(CommandFault::of_write(&error)),
    }
}

/// Writes a line for each word of these bytes as code, or one line, where they aren't code.
fn write_listed<W: Write>(
    alloc: Global,
    bytes: &[u8],
    marks: Marks,
    profile: Profile,
    writer: &mut W,
) -> Result<Listed, CommandFault>
    ensures listed { IfOk result (λ listed. Lists marks profile bytes.now listed (W.contents writer.old) (W.contents writer.new)) }
    ensures unwritten { IfErr result (λ fault. is_of_a_write fault ≡ false → writer.new ≡ writer.old) }
{
    match Code::new(bytes) {
        Some(code) => write_words(alloc, &code, FileKind::of(bytes), marks, profile, writer),
        None => write_bad_length(alloc, NoCode::of(bytes), writer),
    }
}

/// Writes a line for each word of the code that a reader has left, up to its end: its place, address, text, where it branches
/// to, what it opens, and the mark that is asked for; or one line, where that isn't code. It gives which of the two.
///
/// # Errors
///
/// Where a read or a write fails, or there is no memory for the code or for lines.
pub fn disassemble<R: Read + Drop, W: Write>(
    alloc: Global,
    reader: R,
    marks: Marks,
    profile: Profile,
    writer: &mut W,
) -> Result<Listed, CommandFault>
    ensures listed { IfOk result (λ listed. WritesWords marks profile (R.remaining reader) listed (W.contents writer.old) (W.contents writer.new)) }
    ensures unwritten { IfErr result (λ fault. is_of_a_write fault ≡ false → writer.new ≡ writer.old) }
{
    match read_whole(alloc, reader) {
        Ok(bytes) => write_listed(alloc, &bytes, marks, profile, writer),
        Err(fault) => Err(fault),
    }
}
