//! Lines that the parser takes, and that can't be carried out.

ghost use Rattle.std.specs.Prelude.{◌≡◌, ◌<◌, Some, suc, if◌then◌else◌, codes, map, option_map};
ghost use Rattle.std.specs.Str.{bytes_eq};
ghost use Rattle.lfi_command_line.specs.Flaws.{flaw_of, flaw_of_files, flaw_of_load, flaw_of_pack, flaw_of_socket, flaw_text, input_count, is_empty_path};

use crate::line::Line;
use crate::options::{LoadOptions, PackOptions};
use lfi_module::{CONNECTIONS, ModuleNumber};
use std::fmt;

/// The path that names the standard input.
const STANDARD_INPUT: &str = "-";

/// Why a line can't be carried out that the parser takes.
#[derive(Clone, Copy, Debug, PartialEq, Eq)]
pub enum Flaw {
    /// More than 8 streams are named.
    TooManyStreams,
    /// It asks for modules above the last one, 15.
    TooManyModules,
    /// The folder of images is an empty path.
    NoFolder,
    /// The socket's path is empty.
    NoSocket,
    /// The standard input is named more than once, and can be read once.
    InputTwice,
}

impl fmt::Display for Flaw {
    ghost output = { λ flaw. Some (flaw_text flaw) };

    fn fmt<W: fmt::Write>(&self, f: &mut fmt::Formatter<W>) -> fmt::Result {
        match self {
            Flaw::TooManyStreams => write!(f, "at most 8 streams"),
            Flaw::TooManyModules => write!(f, "more files than modules, of which the last is 15"),
            Flaw::NoFolder => write!(f, "--out names no folder"),
            Flaw::NoSocket => write!(f, "--socket names no path"),
            Flaw::InputTwice => write!(f, "- can be named once"),
        }
    }
}

/// Whether a path is there and empty.
fn is_empty_path(path: Option<&str>) -> bool
    ensures { result ≡ is_empty_path (option_map (λ s. s.now) path.entry) }
{
    match path {
        Some(path) => path.is_empty(),
        None => false,
    }
}

/// One more than this, where the path names the standard input; else this.
fn count_with(count: usize, path: &str) -> usize
    requires { count < 18446744073709551615 }
    ensures { result ≡ (if bytes_eq path.now (codes "-") then suc count else count) }
{
    if path == STANDARD_INPUT {
        count + 1
    } else {
        count
    }
}

/// How many of these paths name the standard input.
fn input_count(paths: &[&str]) -> usize
    ensures { result ≡ input_count (map (λ s. s.now) paths.now) }
{
    let mut count = 0;
    for index in 0..paths.len() {
        count = count_with(count, paths[index]);
    }
    count
}

/// The flaw of a line that names these files, and this folder for images.
fn flaw_of_files(folder: Option<&str>, paths: &[&str]) -> Option<Flaw>
    ensures { result ≡ flaw_of_files (option_map (λ s. s.now) folder.entry) (map (λ s. s.now) paths.now) }
{
    if is_empty_path(folder) {
        Some(Flaw::NoFolder)
    } else if input_count(paths) > 1 {
        Some(Flaw::InputTwice)
    } else {
        None
    }
}

/// The flaw of a line that names this socket, and this folder for images.
fn flaw_of_socket(folder: Option<&str>, socket: &str) -> Option<Flaw>
    ensures { result ≡ flaw_of_socket (option_map (λ s. s.now) folder.entry) socket.now }
{
    if socket.is_empty() {
        Some(Flaw::NoSocket)
    } else if is_empty_path(folder) {
        Some(Flaw::NoFolder)
    } else {
        None
    }
}

/// The flaw of a line that asks for this load.
fn flaw_of_load(load: &LoadOptions<'_>) -> Option<Flaw>
    ensures { result ≡ flaw_of_load load.now }
{
    if load.streams.len() > CONNECTIONS {
        Some(Flaw::TooManyStreams)
    } else {
        flaw_of_files(load.report.out, &load.streams)
    }
}

/// The flaw of a line that asks for this stream.
fn flaw_of_pack(pack: &PackOptions<'_>) -> Option<Flaw>
    ensures { result ≡ flaw_of_pack pack.now }
{
    if pack.first.saturating_add(pack.codes.len()) > ModuleNumber::COUNT {
        Some(Flaw::TooManyModules)
    } else {
        flaw_of_files(None, &pack.codes)
    }
}

/// Why a line can't be carried out.
pub(crate) fn flaw_of(line: &Line<'_>) -> Option<Flaw>
    ensures { result ≡ flaw_of line.now }
{
    match line {
        Line::Load(load) => flaw_of_load(load),
        Line::Serve(serve) => flaw_of_socket(serve.report.out, serve.socket),
        Line::Pack(pack) => flaw_of_pack(pack),
        Line::Check(check) => flaw_of_files(None, &check.files),
        Line::Info(info) => flaw_of_files(None, &info.files),
        Line::Run(_) | Line::Disassemble(_) | Line::Unpack(_) => None,
    }
}
