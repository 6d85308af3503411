//! `info`: what files are, and what they hold.

ghost use Rattle.std.specs.Prelude.{◌≡◌, ◌≢◌, ◌++◌, ℕ, Some, length, nat_lt, codes, false, IfOk, IfErr, MatchOption, OnOk, OnErr, string_bytes};
ghost use Rattle.std.specs.Io.KnownBytes.{Appends};
ghost use Rattle.lfi_frame.specs.Streams.{rest_of, whole};
ghost use Rattle.lfi_run_image.specs.Texts.{address_text};
ghost use Rattle.lfi_reference.specs.Messages.{Begins, message_of, size_of};
ghost use Rattle.lfi_file_commands.specs.Kinds.{file_kind, kind_text};
ghost use Rattle.lfi_file_commands.specs.Checking.{naming_text};
ghost use Rattle.lfi_file_commands.specs.Failures.{is_of_a_write, IsOfReading};
ghost use Rattle.lfi_file_commands.specs.Info as spec;
ghost use Rattle.lfi_file_commands.specs.Left.{Left, OnlyOutput};
ghost use Rattle.lfi_file_commands.specs.Several.{AreDone};
ghost use Rattle.lfi_file_commands.specs.inner.Infos.{PushesMessages, told_text};

use crate::checking::{CommandFault, read_all};
use crate::device_cause::DeviceCause;
use crate::disk::{Disk, ImageStore};
use crate::ending::Ending;
use crate::errors::tell_failure;
use crate::failure::Failure;
use crate::kind::FileKind;
use crate::naming::{Naming, name_of};
use crate::opening::{open, path_at};
use crate::outputs::Outputs;
use crate::texts::write_text;
use lfi_check::Code;
use lfi_command_line::InfoOptions;
use lfi_frame::FrameFault;
use lfi_image::CompleteImage;
use lfi_image_file::read_image;
use lfi_reference::{PlainMessage, PlainRest, first_message, rest_at};
use lfi_run_image::ImageRun;
use std::alloc::{AllocError, Global};
use std::fmt;
use std::io::{Read, Write};

/// The most bytes of a file whose content is told: a stream of 16 whole modules, each with an Open, 4,096
/// pages of 4,096 bytes with their headers, and a Close.
const MOST_TOLD: u64 = 269_222_272;

/// What is told of a file.
#[derive(Drop)]
struct Info {
    /// The lines.
    text: String,
    ending: Ending,
}

impl Info {
    /// These lines, where there was memory for them.
    fn of(text: Result<String, AllocError>, ending: Ending) -> Result<Info, CommandFault>
        ensures info { IfOk result (λ info. (text ≡ Ok info.text) × (info.ending ≡ ending)) }
        ensures fault { IfErr result (λ fault. is_of_a_write fault ≡ false) }
    {
        match text {
            Ok(text) => Ok(Info { text, ending }),
            Err(AllocError) => Err(CommandFault::NoMemory),
        }
    }
}

/// The size of a module's pages.
#[derive(Clone, Copy)]
struct Pages {
    large: bool,
}

impl fmt::Display for Pages {
    ghost output = { λ pages. Some (spec.pages_text (size_of pages.large)) };

    fn fmt<W: fmt::Write>(&self, f: &mut fmt::Formatter<W>) -> fmt::Result {
        if self.large {
            f.write_str("large pages")
        } else {
            f.write_str("small pages")
        }
    }
}

/// How a module is opened.
#[derive(Clone, Copy)]
struct Opening {
    words: u32,
    entry: u32,
    profile: u32,
    pages: Pages,
}

impl fmt::Display for Opening {
    ghost output = { λ o. Some (spec.opening_text o.words o.entry o.profile (size_of o.pages.large)) };

    fn fmt<W: fmt::Write>(&self, f: &mut fmt::Formatter<W>) -> fmt::Result {
        write!(
            f,
            "open, {} words, entry {}, profile {}, {}",
            self.words, self.entry, self.profile, self.pages
        )
    }
}

/// A message, as it is told.
#[derive(Clone, Copy)]
enum ToldMessage {
    Open(u16, Opening),
    /// Its index, and how many bytes it has.
    Page(u16, u32, usize),
    Close(u16),
}

impl ToldMessage {
    /// Of this message.
    fn of(message: &PlainMessage) -> ToldMessage
        ensures { told_text result ≡ spec.message_text (message_of message.now) }
    {
        match message {
            PlainMessage::Open { module, extent } => ToldMessage::Open(
                *module,
                Opening {
                    words: extent.words,
                    entry: extent.entry,
                    profile: extent.profile.number(),
                    pages: Pages {
                        large: extent.large,
                    },
                },
            ),
            PlainMessage::Page {
                module,
                index,
                payload,
                ..
            } => ToldMessage::Page(*module, *index, payload.len()),
            PlainMessage::Close { module } => ToldMessage::Close(*module),
        }
    }
}

impl fmt::Display for ToldMessage {
    ghost output = { λ told. Some (told_text told) };

    fn fmt<W: fmt::Write>(&self, f: &mut fmt::Formatter<W>) -> fmt::Result {
        match self {
            ToldMessage::Open(module, opening) => write!(f, "module {module} {opening}"),
            ToldMessage::Page(module, index, bytes) => {
                write!(f, "module {module} page {index}, {bytes} bytes")
            }
            ToldMessage::Close(module) => write!(f, "module {module} close"),
        }
    }
}

/// The fault of a stream, by what follows its whole messages.
fn fault_of(rest: &[u8]) -> Option<FrameFault>
    ensures { result ≡ spec.fault_of rest.now }
{
    if rest.is_empty() {
        return None;
    }
    match rest_at(rest) {
        PlainRest::Faulty(fault) => Some(fault),
        PlainRest::Short | PlainRest::Unfinished { .. } => Some(FrameFault::Ended),
        PlainRest::Whole => None,
    }
}

/// Puts the line of a message behind the others, by the byte at which it begins.
fn push_message(text: &mut String, at: usize, message: &PlainMessage) -> Result<(), CommandFault>
    ensures pushed { OnOk result (string_bytes text.new ≡ string_bytes text.old ++ spec.message_line at (message_of message.now)) }
    ensures fault { IfErr result (λ fault. is_of_a_write fault ≡ false) }
{
    let told = ToldMessage::of(message);
    match write!(text, "  byte {at}: {told}\n") {
        Ok(()) => Ok(()),
        Err(AllocError) => Err(CommandFault::NoMemory),
    }
}

/// Puts the line of a stream's fault behind the others, by the byte at which the message begins that isn't whole.
fn push_fault(text: &mut String, at: usize, fault: FrameFault) -> Result<(), CommandFault>
    ensures pushed { OnOk result (string_bytes text.new ≡ string_bytes text.old ++ spec.fault_line at (Some fault)) }
    ensures fault { IfErr result (λ fault. is_of_a_write fault ≡ false) }
{
    let number = fault.number();
    match write!(text, "  byte {at}: fault {number}, {fault}\n") {
        Ok(()) => Ok(()),
        Err(AllocError) => Err(CommandFault::NoMemory),
    }
}

/// The message with which these bytes begin, and what follows it; `None` where no whole one stands there.
fn message_at(alloc: Global, bytes: &[u8]) -> Result<Option<(PlainMessage, &[u8])>, CommandFault>
    ensures first { IfOk result (λ first. MatchOption first (rest_of bytes.now ≢ whole) (λ found. Begins bytes.now (message_of found.0) found.1.now)) }
    ensures fault { IfErr result (λ fault. is_of_a_write fault ≡ false) }
{
    match first_message(alloc, bytes) {
        Ok(first) => Ok(first),
        Err(AllocError) => Err(CommandFault::NoMemory),
    }
}

/// Puts the lines of all whole messages behind a text, and gives the bytes that follow these.
fn push_messages<'a>(
    alloc: Global,
    bytes: &'a [u8],
    text: &mut String,
) -> Result<&'a [u8], CommandFault>
    ensures pushed { IfOk result (λ rest. PushesMessages bytes.entry.now rest.now (string_bytes text.old) (string_bytes text.new)) }
    ensures fault { IfErr result (λ fault. is_of_a_write fault ≡ false) }
{
    let mut rest = bytes;
    while let Some((message, more)) = message_at(alloc, rest)? {
        push_message(text, bytes.len().saturating_sub(rest.len()), &message)?;
        rest = more;
    }
    Ok(rest)
}

/// What is told of a stream.
fn stream_info(alloc: Global, bytes: &[u8]) -> Result<Info, CommandFault>
    ensures info { IfOk result (λ info. spec.IsStreamInfo bytes.now (string_bytes info.text) info.ending) }
    ensures fault { IfErr result (λ fault. is_of_a_write fault ≡ false) }
{
    let mut text = match format!(in alloc; "stream\n") {
        Ok(text) => text,
        Err(AllocError) => return Err(CommandFault::NoMemory),
    };
    let rest = match push_messages(alloc, bytes, &mut text) {
        Ok(rest) => rest,
        Err(fault) => return Err(fault),
    };
    let Some(fault) = fault_of(rest) else {
        return Ok(Info {
            text,
            ending: Ending::Well,
        });
    };
    match push_fault(&mut text, bytes.len().saturating_sub(rest.len()), fault) {
        Ok(()) => Ok(Info {
            text,
            ending: Ending::NotWell,
        }),
        Err(fault) => Err(fault),
    }
}

/// An address, as that of a slot's base.
#[derive(Clone, Copy)]
pub(crate) struct Base(pub(crate) u64);

impl fmt::Display for Base {
    ghost output = { λ base. Some (address_text base.0) };

    fn fmt<W: fmt::Write>(&self, f: &mut fmt::Formatter<W>) -> fmt::Result {
        write!(f, "0x{:016x}", self.0)
    }
}

/// What an image holds.
#[derive(Clone, Copy)]
struct Held {
    slot: u16,
    base: u64,
    words: u32,
    entry: u32,
    profile: u32,
}

impl fmt::Display for Held {
    ghost output = { λ held. Some (spec.held_text held.slot held.base held.words held.entry held.profile) };

    fn fmt<W: fmt::Write>(&self, f: &mut fmt::Formatter<W>) -> fmt::Result {
        write!(
            f,
            "image\n  slot {}\n  base {}\n  words {}\n  entry {}\n  profile {}\n  lawful\n",
            self.slot,
            Base(self.base),
            self.words,
            self.entry,
            self.profile
        )
    }
}

/// What is told of an image.
fn image_lines(alloc: Global, image: &CompleteImage) -> Result<Info, CommandFault>
    ensures info { IfOk result (λ info. (string_bytes info.text ≡ spec.image_text image.now) × (info.ending ≡ Ending.Well)) }
    ensures fault { IfErr result (λ fault. is_of_a_write fault ≡ false) }
{
    let held = Held {
        slot: image.slot().number(),
        base: image.slot().base(),
        words: image.words().number(),
        entry: image.entry(),
        profile: image.profile().number(),
    };
    Info::of(format!(in alloc; "{held}"), Ending::Well)
}

/// What is told of an image's file.
fn image_info(alloc: Global, bytes: &[u8]) -> Result<Info, CommandFault>
    ensures info { IfOk result (λ info. spec.IsImageInfo bytes.now (string_bytes info.text) info.ending) }
    ensures fault { IfErr result (λ fault. is_of_a_write fault ≡ false) }
{
    let mut reader = bytes;
    match read_image(alloc, &mut reader) {
        Ok(image) => image_lines(alloc, &image),
        Err(fault) => {
            let run = ImageRun::Refused(fault);
            let ending = Ending::of_run(&run);
            Info::of(format!(in alloc; "{run}\n"), ending)
        }
    }
}

/// What is told of what may be code.
fn code_info(alloc: Global, bytes: &[u8]) -> Result<Info, CommandFault>
    ensures info { IfOk result (λ info. spec.IsCodeInfo bytes.now (string_bytes info.text) info.ending) }
    ensures fault { IfErr result (λ fault. is_of_a_write fault ≡ false) }
{
    match Code::new(bytes) {
        Some(code) => Info::of(
            format!(in alloc; "code, {} words\n", code.len_words()),
            Ending::Well,
        ),
        None => Info::of(
            format!(in alloc; "no code, {} bytes\n", bytes.len()),
            Ending::NotWell,
        ),
    }
}

/// What is told of an ELF file.
fn elf_info(alloc: Global) -> Result<Info, CommandFault>
    ensures info { IfOk result (λ info. (string_bytes info.text ≡ kind_text FileKind.Elf ++ codes "\n") × (info.ending ≡ Ending.NotWell)) }
    ensures fault { IfErr result (λ fault. is_of_a_write fault ≡ false) }
{
    let text = FileKind::Elf.text();
    Info::of(format!(in alloc; "{text}\n"), Ending::NotWell)
}

/// What is told of a file with these bytes.
fn info_of(alloc: Global, bytes: &[u8]) -> Result<Info, CommandFault>
    ensures info { IfOk result (λ info. spec.IsInfo (file_kind bytes.now) bytes.now (string_bytes info.text) info.ending) }
    ensures fault { IfErr result (λ fault. is_of_a_write fault ≡ false) }
{
    match FileKind::of(bytes) {
        FileKind::Elf => elf_info(alloc),
        FileKind::Image => image_info(alloc, bytes),
        FileKind::Stream => stream_info(alloc, bytes),
        FileKind::Plain => code_info(alloc, bytes),
    }
}

/// What is told of a file that is too long.
fn long_info(alloc: Global) -> Result<Info, CommandFault>
    ensures info { IfOk result (λ info. (string_bytes info.text ≡ spec.long_text) × (info.ending ≡ Ending.NotWell)) }
    ensures fault { IfErr result (λ fault. is_of_a_write fault ≡ false) }
{
    Info::of(
        format!(in alloc; "too long, more than 269222272 bytes\n"),
        Ending::NotWell,
    )
}

/// What is told of a file with these bytes, where it isn't too long.
fn short_info(alloc: Global, bytes: &[u8]) -> Result<Info, CommandFault>
    ensures info { IfOk result (λ info. spec.IsShortInfo (nat_lt spec.most_told (length bytes.now)) bytes.now (string_bytes info.text) info.ending) }
    ensures fault { IfErr result (λ fault. is_of_a_write fault ≡ false) }
{
    if bytes.len() as u64 > MOST_TOLD {
        long_info(alloc)
    } else {
        info_of(alloc, bytes)
    }
}

/// Writes what is told of a file, behind the name.
fn write_info<W: Write>(
    alloc: Global,
    name: Naming<'_>,
    info: &Info,
    writer: &mut W,
) -> Result<(), DeviceCause>
    ensures { OnOk result (Appends (W.contents writer.old) (W.contents writer.new) (naming_text name.entry ++ string_bytes info.now.text)) }
{
    let text = info.text.as_str();
    match write_text(alloc, writer, format_args!("{name}{text}")) {
        Ok(()) => Ok(()),
        Err(error) => Err(DeviceCause::of(&error)),
    }
}

/// What is told of the file at this path. No more of it is read than tells that it is too long.
fn info_at<'a, D: Disk>(alloc: Global, disk: &D, path: &'a str) -> Result<Info, Failure<'a>>
    ensures info { IfOk result (λ info. spec.IsInfoOf (D.file_at disk.now path.entry.now) (string_bytes info.text) info.ending) }
    ensures failure { IfErr result (IsOfReading path.entry.now) }
{
    let reader = match open(disk, path) {
        Ok(reader) => reader,
        Err(failure) => return Err(failure),
    };
    let bytes = match read_all(alloc, reader.take(MOST_TOLD + 1)) {
        Ok(bytes) => bytes,
        Err(fault) => return Err(Failure::of(fault, path)),
    };
    match short_info(alloc, &bytes) {
        Ok(info) => Ok(info),
        Err(fault) => Err(Failure::of(fault, path)),
    }
}

/// Tells what the file at this path is, and what it holds, behind the name. A file that can't be read is told of.
///
/// # Errors
///
/// Where a write of the output fails, for this cause. Nothing was told then.
fn tell_one<D: Disk, P: ImageStore, O: Write, E: Write>(
    alloc: Global,
    disk: &D,
    path: &str,
    name: Naming<'_>,
    outputs: &mut Outputs<P, O, E>,
) -> Result<Ending, DeviceCause>
    ensures found { IfOk result (spec.TellsNamed (naming_text name.entry) path.now (D.file_at disk.now path.now) outputs.old outputs.new) }
    ensures untold { OnErr result (OnlyOutput outputs.old outputs.new) }
{
    match info_at(alloc, disk, path) {
        Ok(info) => match write_info(alloc, name, &info, &mut outputs.out) {
            Ok(()) => Ok(info.ending),
            Err(cause) => Err(cause),
        },
        Err(failure) => Ok(tell_failure(failure, &mut outputs.errors)),
    }
}

/// Tells what each of the files is, and what it holds, one after another. It gives the worst of their endings.
///
/// # Errors
///
/// Where a write of the output fails, for this cause: of one file. The others before it are told.
fn tell_files<D: Disk, P: ImageStore, O: Write, E: Write>(
    alloc: Global,
    disk: &D,
    asked: &InfoOptions<'_>,
    outputs: &mut Outputs<P, O, E>,
) -> Result<Ending, DeviceCause>
    ensures all { IfOk result (AreDone (spec.TellsOne asked.now (D.file_at disk.now)) (spec.paths_of asked.now) (length asked.now.files.items) outputs.old outputs.new) }
    ensures part { OnErr result ((k : ℕ) × (mid : Left) × (before : Ending) × AreDone (spec.TellsOne asked.now (D.file_at disk.now)) (spec.paths_of asked.now) k outputs.old mid before × OnlyOutput mid outputs.new) }
{
    let paths = asked.files.as_slice();
    let mut worst = Ending::Well;
    for number in 0..paths.len() {
        let path = path_at(paths, number);
        let name = name_of(paths, path);
        let here = match tell_one(alloc, disk, path, name, outputs) {
            Ok(here) => here,
            Err(cause) => return Err(cause),
        };
        worst = worst.worse(here);
    }
    Ok(worst)
}

/// Tells what each of the files is, and what it holds, behind its path where there are several. A file that can't be read is
/// told of, and the others are looked at. It ends where the output fails.
pub fn run_info<D: Disk, P: ImageStore, O: Write, E: Write>(
    alloc: Global,
    disk: &D,
    asked: &InfoOptions<'_>,
    outputs: &mut Outputs<P, O, E>,
) -> Ending
    ensures { spec.HasInformed asked.now (D.file_at disk.now) outputs.old outputs.new result }
{
    match tell_files(alloc, disk, asked, outputs) {
        Ok(worst) => outputs.errors.unless_lost(worst),
        Err(cause) => tell_failure(Failure::of_output(cause), &mut outputs.errors),
    }
}
