//! What `--explain` tells of a load.

ghost use Rattle.std.specs.Prelude.{◌≡◌, ◌++◌, ◌<◌, ℕ, List, Option, IfOk, Some, map, option_map, slice_get};
ghost use Rattle.std.specs.Fmt.{WritesOnOk};
ghost use Rattle.std.specs.Io.KnownBytes.{Appends};
ghost use Rattle.lfi_commands.specs.Explained.{holder_line, holder_lines, is_of_header, first_kind, first_line, of_text, fault_lines, strays_line, connection_lines, all_connection_lines, TellsExplained};

use crate::sources::path_at;
use lfi_file_commands::{FileKind, KindLine, write_refused, write_text};
use lfi_frame::FrameFault;
use lfi_module::{CONNECTIONS, ModuleNumber};
use lfi_receive::MessageStart;
use lfi_stage::Report;
use std::alloc::Global;
use std::fmt;
use std::io::{self, Write};

/// The path of a stream behind what is told of it, where it has one.
#[derive(Clone, Copy)]
struct OfStream<'a>(Option<&'a str>);

impl fmt::Display for OfStream<'_> {
    ghost output = { λ of. Some (of_text (option_map (λ path. path.now) of.0)) };

    fn fmt<W: fmt::Write>(&self, f: &mut fmt::Formatter<W>) -> fmt::Result {
        match self.0 {
            Some(path) => write!(f, " of {path}"),
            None => Ok(()),
        }
    }
}

/// The line of what begins as no stream, where it is told.
#[derive(Clone, Copy)]
struct FirstLine(Option<FileKind>);

impl fmt::Display for FirstLine {
    ghost output = { λ line. Some (first_line line.0) };

    fn fmt<W: fmt::Write>(&self, f: &mut fmt::Formatter<W>) -> fmt::Result {
        match self.0 {
            None | Some(FileKind::Stream) => Ok(()),
            Some(FileKind::Plain) => {
                f.write_str("  file: no stream; lfiload pack makes one of code\n")
            }
            Some(kind) => write!(f, "{}", KindLine(kind)),
        }
    }
}

/// Whether a header shows the fault.
fn is_of_header(fault: FrameFault) -> bool
    ensures { result ≡ is_of_header fault }
{
    match fault {
        FrameFault::NoMemory | FrameFault::Ended | FrameFault::ReadFailed => false,
        _ => true,
    }
}

/// What the bytes of a connection are, where its first header has the fault.
pub(crate) fn first_kind(fault: FrameFault, start: &MessageStart) -> Option<FileKind>
    ensures { result ≡ first_kind fault start.now }
{
    if is_of_header(fault) && start.byte == 0 {
        Some(FileKind::of(&start.header))
    } else {
        None
    }
}

/// The connections of a load: which module each has claimed, and what is told of each.
#[derive(Clone, Copy)]
struct Connections<'a> {
    holders: [Option<usize>; ModuleNumber::COUNT],
    faults: [Option<FrameFault>; CONNECTIONS],
    starts: [MessageStart; CONNECTIONS],
    strays: [u64; CONNECTIONS],
    /// The paths of their streams, by their numbers, where they have any.
    paths: &'a [&'a str],
}

/// Writes the line of a module, where a connection has claimed it.
fn write_holder<W: fmt::Write>(
    number: usize,
    holder: Option<usize>,
    f: &mut fmt::Formatter<W>,
) -> fmt::Result
    ensures { WritesOnOk W.write_str_gives f.old result (holder_line number holder) f.new }
{
    match holder {
        Some(connection) => write!(f, "module {number}: from connection {connection}\n"),
        None => Ok(()),
    }
}

/// Writes a line for each of these modules that a connection has claimed, by their numbers.
fn write_holders<W: fmt::Write>(holders: &[Option<usize>], f: &mut fmt::Formatter<W>) -> fmt::Result
    ensures { WritesOnOk W.write_str_gives f.old result (holder_lines holders.now) f.new }
{
    for (number, holder) in holders.iter().enumerate() {
        write_holder(number, *holder, f)?;
    }
    Ok(())
}

/// Writes the lines of a connection, where it came to a fault.
fn write_fault<W: fmt::Write>(
    number: usize,
    fault: Option<FrameFault>,
    start: MessageStart,
    path: Option<&str>,
    f: &mut fmt::Formatter<W>,
) -> fmt::Result
    ensures { WritesOnOk W.write_str_gives f.old result (fault_lines number fault (Some start) (option_map (λ path. path.now) path.entry)) f.new }
{
    match fault {
        Some(fault) => {
            let byte = start.byte;
            let of = OfStream(path);
            let first = FirstLine(first_kind(fault, &start));
            write!(
                f,
                "connection {number}: {fault}\n  message at byte {byte}{of}\n{first}"
            )
        }
        None => Ok(()),
    }
}

/// Writes the line of a connection's strays, where there are any.
fn write_strays<W: fmt::Write>(number: usize, strays: u64, f: &mut fmt::Formatter<W>) -> fmt::Result
    ensures { WritesOnOk W.write_str_gives f.old result (strays_line number strays) f.new }
{
    match strays {
        0 => Ok(()),
        _ => write!(f, "connection {number}: strays {strays}\n"),
    }
}

/// Where the message begins at which a connection ended.
pub(crate) fn start_at(starts: &[MessageStart; CONNECTIONS], number: usize) -> MessageStart
    requires { number < 8 }
    ensures { slice_get starts.now number ≡ Some result }
{
    starts[number]
}

/// Writes what is told of one of these connections, which has this fault.
fn write_connection<W: fmt::Write>(
    connections: &Connections<'_>,
    number: usize,
    fault: Option<FrameFault>,
    f: &mut fmt::Formatter<W>,
) -> fmt::Result
    requires { number < 8 }
    ensures { WritesOnOk W.write_str_gives f.old result (connection_lines connections.now.starts connections.now.strays (map (λ path. path.now) connections.now.paths.now) number fault) f.new }
{
    let start = start_at(&connections.starts, number);
    let path = path_at(connections.paths, number);
    write_fault(number, fault, start, path, f)?;
    write_strays(number, connections.strays[number], f)
}

/// Writes what is told of each of these connections, by their numbers.
fn write_connections<W: fmt::Write>(
    connections: &Connections<'_>,
    f: &mut fmt::Formatter<W>,
) -> fmt::Result
    ensures { WritesOnOk W.write_str_gives f.old result (all_connection_lines connections.now.faults connections.now.starts connections.now.strays (map (λ path. path.now) connections.now.paths.now)) f.new }
{
    for (number, fault) in connections.faults.iter().enumerate() {
        write_connection(connections, number, *fault, f)?;
    }
    Ok(())
}

impl fmt::Display for Connections<'_> {
    ghost output = { λ c. Some (holder_lines c.holders ++ all_connection_lines c.faults c.starts c.strays (map (λ path. path.now) c.paths.now)) };

    fn fmt<W: fmt::Write>(&self, f: &mut fmt::Formatter<W>) -> fmt::Result {
        write_holders(&self.holders, f)?;
        write_connections(self, f)
    }
}

/// Writes what `--explain` tells of a report, where that is asked for: the first fault of each refused module; which connection
/// has claimed each module; of each connection its fault, the byte at which the message begins that has it, and its strays.
/// These are the paths of the connections' streams, where they have any.
///
/// # Errors
///
/// Where a write fails.
pub(crate) fn write_explained<W: Write>(
    alloc: Global,
    explain: bool,
    report: &Report,
    paths: &[&str],
    out: &mut W,
) -> io::Result<()>
    ensures { IfOk result (λ _. (text : List ℕ) × TellsExplained explain report.now (map (λ path. path.now) paths.now) text × Appends (W.contents out.old) (W.contents out.new) text) }
{
    if !explain {
        return Ok(());
    }
    write_refused(alloc, &report.modules, out)?;
    let connections = Connections {
        holders: report.holders,
        faults: report.faults,
        starts: report.starts,
        strays: report.connection_strays,
        paths,
    };
    write_text(alloc, out, connections)
}
