//! What is given to each subcommand.

ghost use Rattle.std.specs.Prelude.{◌≡◌, ℕ, IfOk, IfErr, true, is_some, codes, option_map};
ghost use Rattle.clap.specs.Words.{first_of, one_of, rows_of, found_of};
ghost use Rattle.lfi_command_line.specs.CommandLine.{IsAskedBy, IsFlag, IsFormat, IsProfile, IsNumberIfAny, IsNumberOr, IsReportAsked, explain_by, format_named, pages_named};
ghost use Rattle.lfi_command_line.specs.inner.Given.{IsNumberGiven, IsNoMemory, IsFaultOfFormat, IsFaultOfPack};

use crate::fault::LineFault;
use crate::line::Line;
use crate::options::{
    CheckOptions, DisassembleOptions, Explain, Format, InfoOptions, LoadOptions, PackOptions,
    ReportOptions, RunOptions, ServeOptions, UnpackOptions,
};
use clap::ArgMatches;
use lfi_module::{PageSize, Profile};
use std::alloc::Global;

/// How many verifiers there are where nothing is said of them.
const VERIFIERS: u64 = 2;

/// Whether a flag is given.
fn is_given(matches: &ArgMatches<'_>, id: &str) -> bool
    ensures { IsFlag (one_of id.now (rows_of (found_of matches.now))) result }
{
    matches.get_flag(id)
}

/// What is explained, by the two flags.
fn explain_by(first: bool, all: bool) -> Explain
    ensures { result ≡ explain_by first all }
{
    if all {
        Explain::All
    } else if first {
        Explain::First
    } else {
        Explain::Nothing
    }
}

/// The form that is named: text, where none is named too; `None` for all else.
fn format_named(name: Option<&str>) -> Option<Format>
    ensures { result ≡ format_named (option_map (λ s. s.now) name.entry) }
{
    let Some(name) = name else {
        return Some(Format::Text);
    };
    if name == "text" {
        Some(Format::Text)
    } else if name == "json" {
        Some(Format::Json)
    } else {
        None
    }
}

/// The form that is asked for.
///
/// # Errors
///
/// Where there is no such form.
fn format_of(matches: &ArgMatches<'_>) -> Result<Format, LineFault>
    ensures format { IfOk result (IsFormat (rows_of (found_of matches.now))) }
    ensures fault { IfErr result (IsFaultOfFormat (rows_of (found_of matches.now))) }
{
    match format_named(matches.get_str("format")) {
        Some(format) => Ok(format),
        None => Err(LineFault::NoFormat),
    }
}

/// What `check` asks for.
///
/// # Errors
///
/// Where there is no such form of the answer, or no memory to list the files.
pub(crate) fn check_line<'a>(alloc: Global, check: &ArgMatches<'a>) -> Result<Line<'a>, LineFault>
    requires file { is_some (first_of (codes "FILE") (rows_of (found_of check.now))) ≡ true }
    requires profile { IsNumberGiven 1 2 (codes "profile") (rows_of (found_of check.now)) }
    ensures line { IfOk result (IsAskedBy (codes "check") (rows_of (found_of check.now))) }
    ensures fault { IfErr result (IsFaultOfFormat (rows_of (found_of check.now))) }
{
    let format = match format_of(check) {
        Ok(format) => format,
        Err(fault) => return Err(fault),
    };
    let files = Vec::from_slice(alloc, check.get_strs("FILE").unwrap())?;
    Ok(Line::Check(CheckOptions {
        files,
        explain: explain_by(is_given(check, "explain"), is_given(check, "all")),
        profile: profile_of(check),
        format,
    }))
}

/// What `info` asks for.
///
/// # Errors
///
/// Where there is no memory to list the files.
pub(crate) fn info_line<'a>(alloc: Global, info: &ArgMatches<'a>) -> Result<Line<'a>, LineFault>
    requires { is_some (first_of (codes "FILE") (rows_of (found_of info.now))) ≡ true }
    ensures line { IfOk result (IsAskedBy (codes "info") (rows_of (found_of info.now))) }
    ensures fault { IfErr result IsNoMemory }
{
    let files = Vec::from_slice(alloc, info.get_strs("FILE").unwrap())?;
    Ok(Line::Info(InfoOptions { files }))
}

/// The number that is given to this argument, or the other where none is.
fn number_or(matches: &ArgMatches<'_>, id: &str, default: u64) -> u64
    ensures { (least most : ℕ) → IsNumberGiven least most id.now (rows_of (found_of matches.now))
        → IsNumberOr default least most (first_of id.now (rows_of (found_of matches.now))) result }
{
    matches.get_one::<u64>(id).unwrap_or(default)
}

/// The number that is given to this argument, where one is.
fn number_if_any(matches: &ArgMatches<'_>, id: &str) -> Option<u64>
    ensures { (least most : ℕ) → IsNumberGiven least most id.now (rows_of (found_of matches.now))
        → IsNumberIfAny least most (first_of id.now (rows_of (found_of matches.now))) result }
{
    matches.get_one::<u64>(id)
}

/// The profile whose number is given, or the first where none is.
fn profile_of(matches: &ArgMatches<'_>) -> Profile
    requires { IsNumberGiven 1 2 (codes "profile") (rows_of (found_of matches.now)) }
    ensures { IsProfile (rows_of (found_of matches.now)) result }
{
    if number_or(matches, "profile", 1) == 2 {
        Profile::Two
    } else {
        Profile::One
    }
}

/// How a report is to be told, and what is asked for beside it: by `load`, or by `serve`.
///
/// # Errors
///
/// Where there is no such form of the answer.
fn report_options<'a>(matches: &ArgMatches<'a>) -> Result<ReportOptions<'a>, LineFault>
    ensures asked { IfOk result (IsReportAsked (rows_of (found_of matches.now))) }
    ensures fault { IfErr result (IsFaultOfFormat (rows_of (found_of matches.now))) }
{
    match format_of(matches) {
        Ok(format) => Ok(ReportOptions {
            out: matches.get_str("out"),
            explain: is_given(matches, "explain"),
            format,
        }),
        Err(fault) => Err(fault),
    }
}

/// What `load` asks for.
///
/// # Errors
///
/// Where there is no such form of the answer, or no memory to list the streams.
pub(crate) fn load_line<'a>(alloc: Global, load: &ArgMatches<'a>) -> Result<Line<'a>, LineFault>
    requires streams { is_some (first_of (codes "STREAM") (rows_of (found_of load.now))) ≡ true }
    requires verifiers { IsNumberGiven 1 8 (codes "verifiers") (rows_of (found_of load.now)) }
    ensures line { IfOk result (IsAskedBy (codes "load") (rows_of (found_of load.now))) }
    ensures fault { IfErr result (IsFaultOfFormat (rows_of (found_of load.now))) }
{
    let report = match report_options(load) {
        Ok(report) => report,
        Err(fault) => return Err(fault),
    };
    let streams = Vec::from_slice(alloc, load.get_strs("STREAM").unwrap())?;
    Ok(Line::Load(LoadOptions {
        verifiers: number_or(load, "verifiers", VERIFIERS) as usize,
        streams,
        report,
    }))
}

/// What `serve` asks for.
///
/// # Errors
///
/// Where there is no such form of the answer.
pub(crate) fn serve_line<'a>(serve: &ArgMatches<'a>) -> Result<Line<'a>, LineFault>
    requires socket { is_some (first_of (codes "socket") (rows_of (found_of serve.now))) ≡ true }
    requires connections { is_some (first_of (codes "connections") (rows_of (found_of serve.now))) ≡ true }
    requires connection_count { IsNumberGiven 1 8 (codes "connections") (rows_of (found_of serve.now)) }
    requires verifiers { IsNumberGiven 1 8 (codes "verifiers") (rows_of (found_of serve.now)) }
    requires seconds { IsNumberGiven 1 86400 (codes "seconds") (rows_of (found_of serve.now)) }
    ensures line { IfOk result (IsAskedBy (codes "serve") (rows_of (found_of serve.now))) }
    ensures fault { IfErr result (IsFaultOfFormat (rows_of (found_of serve.now))) }
{
    match report_options(serve) {
        Ok(report) => Ok(Line::Serve(ServeOptions {
            socket: serve.get_str("socket").unwrap(),
            connections: number_or(serve, "connections", 0) as usize,
            verifiers: number_or(serve, "verifiers", VERIFIERS) as usize,
            seconds: number_if_any(serve, "seconds"),
            report,
        })),
        Err(fault) => Err(fault),
    }
}

/// What `run` asks for.
///
/// # Errors
///
/// Where there is no such form of the answer.
pub(crate) fn run_line<'a>(run: &ArgMatches<'a>) -> Result<Line<'a>, LineFault>
    requires image { is_some (first_of (codes "IMAGE") (rows_of (found_of run.now))) ≡ true }
    requires steps { is_some (first_of (codes "steps") (rows_of (found_of run.now))) ≡ true }
    requires number { IsNumberGiven 0 1000000000 (codes "steps") (rows_of (found_of run.now)) }
    ensures line { IfOk result (IsAskedBy (codes "run") (rows_of (found_of run.now))) }
    ensures fault { IfErr result (IsFaultOfFormat (rows_of (found_of run.now))) }
{
    match format_of(run) {
        Ok(format) => Ok(Line::Run(RunOptions {
            image: run.get_str("IMAGE").unwrap(),
            steps: number_or(run, "steps", 0),
            format,
        })),
        Err(fault) => Err(fault),
    }
}

/// What `disassemble` asks for.
pub(crate) fn disassemble_line<'a>(disassemble: &ArgMatches<'a>) -> Line<'a>
    requires file { is_some (first_of (codes "FILE") (rows_of (found_of disassemble.now))) ≡ true }
    requires profile { IsNumberGiven 1 2 (codes "profile") (rows_of (found_of disassemble.now)) }
    ensures { IsAskedBy (codes "disassemble") (rows_of (found_of disassemble.now)) result }
{
    Line::Disassemble(DisassembleOptions {
        file: disassemble.get_str("FILE").unwrap(),
        marks: is_given(disassemble, "check"),
        profile: profile_of(disassemble),
    })
}

/// What `unpack` asks for.
pub(crate) fn unpack_line<'a>(unpack: &ArgMatches<'a>) -> Line<'a>
    requires image { is_some (first_of (codes "IMAGE") (rows_of (found_of unpack.now))) ≡ true }
    ensures { IsAskedBy (codes "unpack") (rows_of (found_of unpack.now)) result }
{
    Line::Unpack(UnpackOptions {
        image: unpack.get_str("IMAGE").unwrap(),
    })
}

/// The size of the pages that are named, by a profile: small ones, where none are named too, or large ones of the second
/// profile; `None` for all else.
fn pages_named(name: Option<&str>, profile: Profile) -> Option<PageSize>
    ensures { result ≡ pages_named (option_map (λ s. s.now) name.entry) profile }
{
    let Some(name) = name else {
        return Some(PageSize::SMALL);
    };
    if name == "small" {
        Some(PageSize::SMALL)
    } else if name == "large" && profile == Profile::Two {
        Some(PageSize::LARGE)
    } else {
        None
    }
}

/// What `pack` asks for.
///
/// # Errors
///
/// Where there are pages of no such size, or no memory to list the files.
pub(crate) fn pack_line<'a>(alloc: Global, pack: &ArgMatches<'a>) -> Result<Line<'a>, LineFault>
    requires codes { is_some (first_of (codes "CODE") (rows_of (found_of pack.now))) ≡ true }
    requires module { IsNumberGiven 0 15 (codes "module") (rows_of (found_of pack.now)) }
    requires entry { IsNumberGiven 0 4194303 (codes "entry") (rows_of (found_of pack.now)) }
    requires profile { IsNumberGiven 1 2 (codes "profile") (rows_of (found_of pack.now)) }
    ensures line { IfOk result (IsAskedBy (codes "pack") (rows_of (found_of pack.now))) }
    ensures fault { IfErr result (IsFaultOfPack (rows_of (found_of pack.now))) }
{
    let first = number_or(pack, "module", 0) as usize;
    let entry = number_or(pack, "entry", 0) as u32;
    let profile = profile_of(pack);
    let Some(pages) = pages_named(pack.get_str("pages"), profile) else {
        return Err(LineFault::NoPages);
    };
    let codes = Vec::from_slice(alloc, pack.get_strs("CODE").unwrap())?;
    Ok(Line::Pack(PackOptions {
        first,
        entry,
        profile,
        pages,
        codes,
    }))
}
