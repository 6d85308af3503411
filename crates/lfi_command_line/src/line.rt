//! What the arguments ask for.

ghost use Rattle.std.specs.Prelude.{◌≡◌, List, None, IfOk, IfErr, map, string_bytes};
ghost use Rattle.clap.specs.Words.{Text};
ghost use Rattle.lfi_command_line.specs.CommandLine.{IsLine, IsLineFault};
ghost use Rattle.lfi_command_line.specs.Flaws.{flaw_of};
ghost use Rattle.lfi_command_line.specs.inner.Given.{AreTakenBy};

use crate::commands::command;
use crate::fault::LineFault;
use crate::flaw::flaw_of;
use crate::given::{
    check_line, disassemble_line, info_line, load_line, pack_line, run_line, serve_line,
    unpack_line,
};
use crate::options::{
    CheckOptions, DisassembleOptions, InfoOptions, LoadOptions, PackOptions, RunOptions,
    ServeOptions, UnpackOptions,
};
use clap::ArgMatches;
use std::alloc::Global;

/// What the program is asked for.
#[derive(Drop)]
pub enum Line<'a> {
    Check(CheckOptions<'a>),
    Load(LoadOptions<'a>),
    Serve(ServeOptions<'a>),
    Run(RunOptions<'a>),
    Disassemble(DisassembleOptions<'a>),
    Pack(PackOptions<'a>),
    Unpack(UnpackOptions<'a>),
    Info(InfoOptions<'a>),
}

/// The arguments of a run, with the version of the program that they are given to.
#[derive(Clone, Copy)]
pub struct Arguments<'a> {
    /// What `--version` prints after the program's name. Nothing else depends on it.
    pub version: &'a str,
    /// The arguments, of which the first is the program's name.
    pub words: &'a [String],
}

/// What the parser makes of the words.
fn parse<'a>(alloc: Global, arguments: Arguments<'a>) -> Result<ArgMatches<'a>, LineFault>
    ensures taken { IfOk result (AreTakenBy (map string_bytes arguments.entry.words.now)) }
    ensures fault { IfErr result (IsLineFault (map string_bytes arguments.entry.words.now)) }
{
    Ok(command(alloc, arguments.version)?.try_get_matches_from(arguments.words)?)
}

/// What words ask for of which the parser has made this.
fn line_of<'a>(alloc: Global, matches: &ArgMatches<'a>) -> Result<Line<'a>, LineFault>
    requires taken { (words : List Text) × AreTakenBy words matches.now }
    ensures line { (words : List Text) → AreTakenBy words matches.entry.now → IfOk result (IsLine words) }
    ensures fault { (words : List Text) → AreTakenBy words matches.entry.now → IfErr result (IsLineFault words) }
{
    if let Some(check) = matches.subcommand_matches("check") {
        return check_line(alloc, check);
    }
    if let Some(load) = matches.subcommand_matches("load") {
        return load_line(alloc, load);
    }
    if let Some(serve) = matches.subcommand_matches("serve") {
        return serve_line(serve);
    }
    if let Some(disassemble) = matches.subcommand_matches("disassemble") {
        return Ok(disassemble_line(disassemble));
    }
    if let Some(pack) = matches.subcommand_matches("pack") {
        return pack_line(alloc, pack);
    }
    if let Some(unpack) = matches.subcommand_matches("unpack") {
        return Ok(unpack_line(unpack));
    }
    if let Some(info) = matches.subcommand_matches("info") {
        return info_line(alloc, info);
    }
    run_line(matches.subcommand_matches("run").unwrap())
}

/// Parses the arguments.
///
/// Which words make which line, and which kind of fault, is what the parser's own definitions say
/// of this program's command; its texts are in no contract.
///
/// # Errors
///
/// Why there is no command to carry out: help was asked for, there is a usage error, what they ask for can't be carried out
/// (`Flaw`), or there was no memory to read them.
pub fn read_line<'a>(alloc: Global, arguments: Arguments<'a>) -> Result<Line<'a>, LineFault>
    ensures line { IfOk result (IsLine (map string_bytes arguments.entry.words.now)) }
    ensures sound { IfOk result (λ line. flaw_of line ≡ None) }
    ensures fault { IfErr result (IsLineFault (map string_bytes arguments.entry.words.now)) }
{
    let matches = parse(alloc, arguments)?;
    let line = line_of(alloc, &matches)?;
    match flaw_of(&line) {
        Some(flaw) => Err(LineFault::Flawed(flaw)),
        None => Ok(line),
    }
}
