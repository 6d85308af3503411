//! What a subcommand is asked for, beside its name.

use lfi_module::{PageSize, Profile};

/// What `check` explains.
#[derive(Clone, Copy, PartialEq, Eq)]
pub enum Explain {
    /// Nothing: it tells the first fault in a line.
    Nothing,
    /// The first fault.
    First,
    /// Each word that breaks a rule.
    All,
}

/// The form in which a command tells what it finds.
#[derive(Clone, Copy, PartialEq, Eq)]
pub enum Format {
    /// Lines of text.
    Text,
    /// One JSON object.
    Json,
}

/// `check`: whether the code in each of these files is lawful by a profile, and what is to be explained where it isn't.
#[derive(Drop)]
pub struct CheckOptions<'a> {
    /// The paths of the files, at least one.
    pub files: Vec<&'a str>,
    pub explain: Explain,
    pub profile: Profile,
    pub format: Format,
}

/// `info`: what these files are, and what they hold.
#[derive(Drop)]
pub struct InfoOptions<'a> {
    /// The paths of the files, at least one.
    pub files: Vec<&'a str>,
}

/// How a report is told, and what is asked for beside it.
#[derive(Clone, Copy)]
pub struct ReportOptions<'a> {
    /// The folder to which the whole images are written; none, where they aren't written.
    pub out: Option<&'a str>,
    /// Whether it is explained why modules are refused, and what is wrong with connections.
    pub explain: bool,
    pub format: Format,
}

/// `load`: the modules of the streams in these files are loaded, one connection each.
#[derive(Drop)]
pub struct LoadOptions<'a> {
    /// How many verifiers there are, 1 to 8.
    pub verifiers: usize,
    /// The paths of the files, 1 to 8.
    pub streams: Vec<&'a str>,
    pub report: ReportOptions<'a>,
}

/// `serve`: it listens at a socket's path, and loads the modules of the streams of `connections` connections.
#[derive(Clone, Copy)]
pub struct ServeOptions<'a> {
    /// The path of the socket.
    pub socket: &'a str,
    /// How many connections there are, 1 to 8.
    pub connections: usize,
    /// How many verifiers there are, 1 to 8.
    pub verifiers: usize,
    /// For how many seconds it listens and reads at most, 1 to 86,400; without limit by default.
    pub seconds: Option<u64>,
    pub report: ReportOptions<'a>,
}

/// `run`: the image in a file is run.
#[derive(Clone, Copy)]
pub struct RunOptions<'a> {
    /// The path of the file.
    pub image: &'a str,
    /// At most how many steps it runs, 0 to 1,000,000,000.
    pub steps: u64,
    pub format: Format,
}

/// `disassemble`: the words of the code in a file are listed, by a profile.
#[derive(Clone, Copy)]
pub struct DisassembleOptions<'a> {
    /// The path of the file.
    pub file: &'a str,
    /// Whether words that break a rule are marked.
    pub marks: bool,
    pub profile: Profile,
}

/// `pack`: a stream is written of the code in 1 to 16 files, one module each.
#[derive(Drop)]
pub struct PackOptions<'a> {
    /// The number of the first module. That of the last one is at most 15.
    pub first: usize,
    /// The word at which each module is entered, 0 to 4,194,303.
    pub entry: u32,
    pub profile: Profile,
    /// The size of the pages. They are large ones by the second profile alone.
    pub pages: PageSize,
    /// The paths of the files, at least one.
    pub codes: Vec<&'a str>,
}

/// `unpack`: the code of the image in a file is written.
#[derive(Clone, Copy)]
pub struct UnpackOptions<'a> {
    /// The path of the file.
    pub image: &'a str,
}
