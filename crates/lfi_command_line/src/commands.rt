//! The program's command, for the parser.

ghost use Rattle.std.specs.Prelude.{◌≡◌, IfOk, false, codes};
ghost use Rattle.clap.specs.Words.{App, Rule, rule_of, with_rule, with_subcommand};
ghost use Rattle.clap.specs.declared.builder.value_parser.ValueParser.TheVariants.{Unsigned};
ghost use Rattle.lfi_command_line.specs.Apps.{Makes, needed, required_rule, several_rule, option_rule, number_rule, profile_rule, flag_rule, check_app, load_app, serve_app, run_app, disassemble_app, pack_app, unpack_app, info_app, bare_app, lfiload_app};

use crate::help;
use clap::builder::ValueParser;
use clap::{Arg, ArgAction, Command};
use lfi_module::{CONNECTIONS, ModuleNumber, VERIFIERS};
use std::alloc::{AllocError, Global};

/// The most steps that `run` is asked for.
const MOST_STEPS: u64 = 1_000_000_000;

/// The most connections that `serve` is asked for, and streams that `load` is given.
const MOST_CONNECTIONS: u64 = CONNECTIONS as u64;

/// The most verifiers that are asked for.
const MOST_VERIFIERS: u64 = VERIFIERS as u64;

/// The most seconds that `serve` is given: a day.
const MOST_SECONDS: u64 = 86_400;

/// The last module's number.
const LAST_MODULE: u64 = ModuleNumber::COUNT as u64 - 1;

/// The number of the last profile.
const LAST_PROFILE: u64 = 2;

/// The last word of the longest code.
const LAST_WORD: u64 = 4_194_303;

/// An argument in its place that has to be there.
fn required_argument<'a>(alloc: Global, name: &'a str, text: &'a str) -> Arg<'a>
    ensures rule { rule_of result ≡ required_rule name.entry.now }
    ensures local { result.global ≡ false }
{
    Arg::new(alloc, name).help(text).required(true)
}

/// Arguments in the last places, one at least.
fn several_arguments<'a>(alloc: Global, name: &'a str, text: &'a str) -> Arg<'a>
    ensures rule { rule_of result ≡ several_rule name.entry.now }
    ensures local { result.global ≡ false }
{
    required_argument(alloc, name, text).num_args(1..)
}

/// An option, `--name VALUE`.
fn option_argument<'a>(alloc: Global, name: &'a str, value: &'a str, text: &'a str) -> Arg<'a>
    ensures rule { rule_of result ≡ option_rule name.entry.now }
    ensures local { result.global ≡ false }
{
    Arg::new(alloc, name)
        .long(name)
        .value_name(value)
        .help(text)
}

/// An option with a number in this range.
fn number_argument<'a>(
    alloc: Global,
    name: &'a str,
    value: &'a str,
    text: &'a str,
    range: (u64, u64),
) -> Arg<'a>
    ensures rule { rule_of result ≡ number_rule name.entry.now (Unsigned range.0 range.1) }
    ensures local { result.global ≡ false }
{
    option_argument(alloc, name, value, text).value_parser(ValueParser::Unsigned(range.0, range.1))
}

/// The option by which a profile is named.
fn profile_argument<'a>(alloc: Global) -> Arg<'a>
    ensures rule { rule_of result ≡ profile_rule }
    ensures local { result.global ≡ false }
{
    number_argument(alloc, "profile", "P", help::PROFILE, (1, LAST_PROFILE))
}

/// A flag, `--name`.
fn flag<'a>(alloc: Global, name: &'a str, text: &'a str) -> Arg<'a>
    ensures rule { rule_of result ≡ flag_rule name.entry.now }
    ensures local { result.global ≡ false }
{
    Arg::new(alloc, name)
        .long(name)
        .action(ArgAction::SetTrue)
        .help(text)
}

/// The option by which verifiers are counted.
fn verifiers_argument<'a>(alloc: Global) -> Arg<'a>
    ensures rule { rule_of result ≡ number_rule (codes "verifiers") (Unsigned 1 8) }
    ensures local { result.global ≡ false }
{
    number_argument(
        alloc,
        "verifiers",
        "V",
        help::VERIFIERS,
        (1, MOST_VERIFIERS),
    )
}

/// The option by which images' folder is named.
fn out_argument<'a>(alloc: Global) -> Arg<'a>
    ensures rule { rule_of result ≡ option_rule (codes "out") }
    ensures local { result.global ≡ false }
{
    option_argument(alloc, "out", "DIR", help::OUT)
}

/// The option by which the form of the answer is named.
fn format_argument<'a>(alloc: Global) -> Arg<'a>
    ensures rule { rule_of result ≡ option_rule (codes "format") }
    ensures local { result.global ≡ false }
{
    option_argument(alloc, "format", "F", help::FORMAT)
}

/// The flag that asks why modules are refused.
fn explain_modules<'a>(alloc: Global) -> Arg<'a>
    ensures rule { rule_of result ≡ flag_rule (codes "explain") }
    ensures local { result.global ≡ false }
{
    flag(alloc, "explain", help::EXPLAIN_MODULES)
}

/// The option by which a socket is named, which has to be there.
fn socket_argument<'a>(alloc: Global) -> Arg<'a>
    ensures rule { rule_of result ≡ needed (option_rule (codes "socket")) }
    ensures local { result.global ≡ false }
{
    option_argument(alloc, "socket", "P", help::SOCKET).required(true)
}

/// The option by which connections are counted, which has to be there.
fn connections_argument<'a>(alloc: Global) -> Arg<'a>
    ensures rule { rule_of result ≡ needed (number_rule (codes "connections") (Unsigned 1 8)) }
    ensures local { result.global ≡ false }
{
    number_argument(
        alloc,
        "connections",
        "C",
        help::CONNECTIONS,
        (1, MOST_CONNECTIONS),
    )
    .required(true)
}

/// The option by which steps are counted, which has to be there.
fn steps_argument<'a>(alloc: Global) -> Arg<'a>
    ensures rule { rule_of result ≡ needed (number_rule (codes "steps") (Unsigned 0 1000000000)) }
    ensures local { result.global ≡ false }
{
    number_argument(alloc, "steps", "N", help::STEPS, (0, MOST_STEPS)).required(true)
}

/// The command with one more argument, where there was memory for it so far.
fn with<'a>(
    command: Result<Command<'a>, AllocError>,
    argument: Arg<'a>,
) -> Result<Command<'a>, AllocError>
    ensures { (app : App) (rule : Rule) → IfOk command.entry (Makes app) → rule_of argument.entry ≡ rule → argument.entry.global ≡ false → IfOk result (Makes (with_rule app rule)) }
{
    command?.arg(argument)
}

/// The command with one more subcommand, where there was memory for both so far.
fn with_subcommand<'a>(
    command: Result<Command<'a>, AllocError>,
    subcommand: Result<Command<'a>, AllocError>,
) -> Result<Command<'a>, AllocError>
    ensures { (app subapp : App) → IfOk command.entry (Makes app) → IfOk subcommand.entry (Makes subapp) → IfOk result (Makes (with_subcommand app subapp.top)) }
{
    command?.subcommand(subcommand?)
}

/// The command `check` and its words.
fn check_command<'a>(alloc: Global) -> Result<Command<'a>, AllocError>
    ensures { IfOk result (Makes check_app) }
{
    let check = Command::new(alloc, "check")
        .about("Tells whether the code in files is lawful")
        .after_help(help::CHECK);
    let explain = with(Ok(check), flag(alloc, "explain", help::EXPLAIN));
    let all = with(explain, flag(alloc, "all", help::ALL));
    let profile = with(all, profile_argument(alloc));
    let files = with(profile, several_arguments(alloc, "FILE", help::FILES));
    with(files, format_argument(alloc))
}

/// The command `load` and its words.
fn load_command<'a>(alloc: Global) -> Result<Command<'a>, AllocError>
    ensures { IfOk result (Makes load_app) }
{
    let load = Command::new(alloc, "load")
        .about("Loads the modules of streams, and prints the report")
        .after_help(help::LOAD);
    let verifiers = with(Ok(load), verifiers_argument(alloc));
    let out = with(verifiers, out_argument(alloc));
    let streams = with(out, several_arguments(alloc, "STREAM", help::STREAM));
    let explain = with(streams, explain_modules(alloc));
    with(explain, format_argument(alloc))
}

/// The command `serve` and its words.
fn serve_command<'a>(alloc: Global) -> Result<Command<'a>, AllocError>
    ensures { IfOk result (Makes serve_app) }
{
    let serve = Command::new(alloc, "serve")
        .about("Loads the modules of streams that come over a Unix socket, and prints the report")
        .after_help(help::SERVE);
    let socket = with(Ok(serve), socket_argument(alloc));
    let connections = with(socket, connections_argument(alloc));
    let verifiers = with(connections, verifiers_argument(alloc));
    let seconds = with(
        verifiers,
        number_argument(alloc, "seconds", "N", help::SECONDS, (1, MOST_SECONDS)),
    );
    let out = with(seconds, out_argument(alloc));
    let explain = with(out, explain_modules(alloc));
    with(explain, format_argument(alloc))
}

/// The command `run` and its words.
fn run_command<'a>(alloc: Global) -> Result<Command<'a>, AllocError>
    ensures { IfOk result (Makes run_app) }
{
    let run = Command::new(alloc, "run")
        .about("Runs an image in a simulated machine")
        .after_help(help::RUN);
    let steps = with(Ok(run), steps_argument(alloc));
    let image = with(steps, required_argument(alloc, "IMAGE", help::IMAGE));
    with(image, format_argument(alloc))
}

/// The command `disassemble` and its words.
fn disassemble_command<'a>(alloc: Global) -> Result<Command<'a>, AllocError>
    ensures { IfOk result (Makes disassemble_app) }
{
    let disassemble = Command::new(alloc, "disassemble")
        .about("Lists the words of a file, each with its place and its text")
        .after_help(help::DISASSEMBLE);
    let check = with(Ok(disassemble), flag(alloc, "check", help::MARKS));
    let profile = with(check, profile_argument(alloc));
    with(profile, required_argument(alloc, "FILE", help::FILE))
}

/// The command `pack` and its words.
fn pack_command<'a>(alloc: Global) -> Result<Command<'a>, AllocError>
    ensures { IfOk result (Makes pack_app) }
{
    let pack = Command::new(alloc, "pack")
        .about("Writes a stream of the code in files, a module each")
        .after_help(help::PACK);
    let module = with(
        Ok(pack),
        number_argument(alloc, "module", "M", help::MODULE, (0, LAST_MODULE)),
    );
    let entry = with(
        module,
        number_argument(alloc, "entry", "WORD", help::ENTRY, (0, LAST_WORD)),
    );
    let profile = with(entry, profile_argument(alloc));
    let pages = with(
        profile,
        option_argument(alloc, "pages", "SIZE", help::PAGES),
    );
    with(pages, several_arguments(alloc, "CODE", help::CODE))
}

/// The command `unpack` and its words.
fn unpack_command<'a>(alloc: Global) -> Result<Command<'a>, AllocError>
    ensures { IfOk result (Makes unpack_app) }
{
    let unpack = Command::new(alloc, "unpack")
        .about("Writes the code of an image")
        .after_help(help::UNPACK);
    with(Ok(unpack), required_argument(alloc, "IMAGE", help::IMAGE))
}

/// The command `info` and its words.
fn info_command<'a>(alloc: Global) -> Result<Command<'a>, AllocError>
    ensures { IfOk result (Makes info_app) }
{
    let info = Command::new(alloc, "info")
        .about("Tells what files are, and what they hold")
        .after_help(help::INFO);
    with(
        Ok(info),
        several_arguments(alloc, "FILE", help::FILES_OF_ANY_KIND),
    )
}

/// The program's command, of this version, without its subcommands.
fn bare_command<'a>(alloc: Global, version: &'a str) -> Command<'a>
    ensures { Makes bare_app result }
{
    Command::new(alloc, "lfiload")
        .about("Verifies and loads modules of sandboxed code")
        .version(version)
        .after_help(help::PROGRAM)
        .subcommand_required(true)
        .disable_help_subcommand(true)
}

/// The program's command, of this version, with its subcommands.
pub(crate) fn command<'a>(alloc: Global, version: &'a str) -> Result<Command<'a>, AllocError>
    ensures { IfOk result (Makes lfiload_app) }
{
    let check = with_subcommand(Ok(bare_command(alloc, version)), check_command(alloc));
    let load = with_subcommand(check, load_command(alloc));
    let serve = with_subcommand(load, serve_command(alloc));
    let run = with_subcommand(serve, run_command(alloc));
    let disassemble = with_subcommand(run, disassemble_command(alloc));
    let pack = with_subcommand(disassemble, pack_command(alloc));
    let unpack = with_subcommand(pack, unpack_command(alloc));
    with_subcommand(unpack, info_command(alloc))
}
