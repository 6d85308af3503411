//! The program, from its words to its ending.

ghost use Rattle.std.specs.Prelude.{◌≡◌, ◌≤◌, [], ℕ, List, Option, IfOk, IfErr, OnErr, false, true, length, map, string_bytes};
ghost use Rattle.lfi_command_line.specs.CommandLine.{IsLine, IsLineFault};
ghost use Rattle.lfi_command_line.specs.Flaws.{flaw_of};
ghost use Rattle.lfi_file_commands.specs.Failures.{is_of_output, FailsLoading, FailsServing};
ghost use Rattle.lfi_file_commands.specs.Left.{OnlyOutput};
ghost use Rattle.lfi_commands.specs.Loading.{streams_of, HasLoaded, TellsAs, TellsObject, TellsReport};
ghost use Rattle.lfi_commands.specs.Serving.{HasServedAll, IsLimit, TellsServed};
ghost use Rattle.lfi_commands.specs.Runs.{FailsAs, CarriesOut, Runs};
ghost use Rattle.lfi_commands.specs.inner.Known.{known_of};
ghost use Rattle.lfi_commands.specs.inner.Ranges.{IsForFiles, IsInRange};

use crate::clients::{are_all_taken, ending_of_serve, tell_fates, tell_reads};
use crate::ending::ending_of_load;
use crate::objects::write_report_object;
use crate::reporting::write_told;
use crate::sources::Sources;
use lfi_command_line::{
    Arguments, Format, Line, LineFault, LoadOptions, ReportOptions, ServeOptions, read_line,
};
use lfi_file_commands::{
    DeviceCause, Disk, Ending, Failure, ImageItems, ImageStore, Outputs, ended, open_all,
    run_check, run_disassemble, run_info, run_pack, run_run, run_unpack, tell_failure,
    write_asked_images,
};
use lfi_loader::{Acceptor, Notices, Served, StageSize, load_all, serve_on};
use lfi_sequence::OpenGate;
use lfi_stage::Report;
use lfi_sync::ReadErrors;
use std::alloc::Global;
use std::fs::Files;
use std::io::Write;
use std::net::Net;
use std::os::unix::net::UnixListener;
use std::rt::Clock;
use std::sync::Wait;
use std::thread::Threads;
use std::time::Duration;

/// Writes the text of a report, then what is asked for beside it: what is told of refused modules and of connections, and the
/// whole images to a folder where one is named. It tells of reads that failed. It gives how the load ends.
fn end_as_text<'a, P: ImageStore, O: Write, E: Write>(
    alloc: Global,
    report: &Report,
    sources: &Sources<'_>,
    asked: &ReportOptions<'_>,
    outputs: &mut Outputs<P, O, E>,
) -> Result<Ending, Failure<'a>>
    ensures told { IfOk result (TellsReport report.now (known_of sources.now) asked.now outputs.old outputs.new) }
    ensures failure { IfErr result (λ failure. is_of_output failure ≡ true) }
    ensures untold { OnErr result (OnlyOutput outputs.old outputs.new) }
{
    match write_told(
        alloc,
        report,
        sources.paths,
        asked.explain,
        &mut outputs.out,
    ) {
        Ok(()) => {
            let mut items = ImageItems::new(alloc, Format::Text);
            let all = write_asked_images(alloc, asked.out, &report.modules, &mut items, outputs);
            tell_reads(&report.faults, &sources.kinds, &mut outputs.errors);
            Ok(ending_of_load(report, are_all_taken(sources.clients), all))
        }
        Err(failure) => Err(failure),
    }
}

/// Writes the whole images of a report to a folder where one is named, then the object of the report. It tells of reads that
/// failed, or that there is no object. It gives how the load ends.
fn end_as_object<P: ImageStore, O: Write, E: Write>(
    alloc: Global,
    report: &Report,
    sources: &Sources<'_>,
    asked: &ReportOptions<'_>,
    outputs: &mut Outputs<P, O, E>,
) -> Ending
    requires { sources.now.count ≤ 8 }
    ensures { TellsObject report.now (known_of sources.now) asked.now outputs.old outputs.new result }
{
    let mut items = ImageItems::new(alloc, Format::Json);
    let all = write_asked_images(alloc, asked.out, &report.modules, &mut items, outputs);
    let explain = asked.explain;
    match write_report_object(alloc, report, sources, explain, &items, &mut outputs.out) {
        Ok(()) => {
            let errors = &mut outputs.errors;
            tell_reads(&report.faults, &sources.kinds, errors);
            ending_of_load(report, are_all_taken(sources.clients), all)
        }
        Err(failure) => tell_failure(failure, &mut outputs.errors),
    }
}

/// Tells a report in lines of text or as one object, by what is asked for, and writes its whole images to a folder where one is
/// named. It gives how the load ends.
fn end_load<'a, P: ImageStore, O: Write, E: Write>(
    alloc: Global,
    report: &Report,
    sources: &Sources<'_>,
    asked: &ReportOptions<'_>,
    outputs: &mut Outputs<P, O, E>,
) -> Result<Ending, Failure<'a>>
    requires { sources.now.count ≤ 8 }
    ensures told { IfOk result (TellsAs asked.now.format report.now (known_of sources.now) asked.now outputs.old outputs.new) }
    ensures failure { IfErr result (λ failure. is_of_output failure ≡ true) }
    ensures untold { OnErr result (OnlyOutput outputs.old outputs.new) }
{
    match asked.format {
        Format::Text => end_as_text(alloc, report, sources, asked, outputs),
        Format::Json => Ok(end_as_object(alloc, report, sources, asked, outputs)),
    }
}

/// Loads the modules of the streams in files, each up to its end or a read that fails, which is then its connection's fault.
/// Each stream and each verifier has its thread. It writes the report, and then what is asked for beside it. Where there is no
/// memory for the stage, or a thread can't be started, nothing is written.
fn run_load<
    'a,
    S: Threads + Wait + Sync,
    D: Disk,
    N: Notices + Sync,
    P: ImageStore,
    O: Write,
    E: Write,
>(
    rt: &S,
    alloc: Global,
    disk: &D,
    notices: &N,
    asked: &LoadOptions<'a>,
    outputs: &mut Outputs<P, O, E>,
) -> Result<Ending, Failure<'a>>
    requires verifiers { (1 ≤ asked.now.verifiers) × (asked.now.verifiers ≤ 8) }
    requires connections { (1 ≤ length asked.now.streams.items) × (length asked.now.streams.items ≤ 8) }
    ensures found { IfOk result (HasLoaded asked.now (D.file_at disk.now) outputs.old outputs.new) }
    ensures failure { IfErr result (FailsLoading (streams_of asked.now)) }
    ensures output { IfErr result (λ failure. is_of_output failure ≡ false → outputs.new.out ≡ outputs.old.out) }
    ensures untold { OnErr result (OnlyOutput outputs.old outputs.new) }
{
    let read_errors = ReadErrors::new();
    let paths = asked.streams.as_slice();
    let inputs = match open_all(alloc, disk, paths, &read_errors) {
        Ok(inputs) => inputs,
        Err(failure) => return Err(failure),
    };
    match load_all(rt, alloc, inputs, asked.verifiers, &OpenGate, notices) {
        Ok(report) => {
            let sources = Sources {
                count: paths.len(),
                paths,
                clients: &[],
                kinds: read_errors.kinds(),
            };
            end_load(alloc, &report, &sources, &asked.report, outputs)
        }
        Err(error) => Err(Failure::from(error)),
    }
}

/// Does the same of what was served on the connections that were asked for, and tells what became of the clients. It gives how the run ends.
fn end_serve<'a, P: ImageStore, O: Write, E: Write>(
    alloc: Global,
    count: usize,
    served: &Served,
    asked: &ReportOptions<'_>,
    outputs: &mut Outputs<P, O, E>,
) -> Result<Ending, Failure<'a>>
    requires { count ≤ 8 }
    ensures told { IfOk result (TellsServed count served.now asked.now outputs.old outputs.new) }
    ensures failure { IfErr result (λ failure. is_of_output failure ≡ true) }
    ensures untold { OnErr result (OnlyOutput outputs.old outputs.new) }
{
    let sources = Sources {
        count,
        paths: &[],
        clients: &served.clients.fates,
        kinds: served.clients.read_errors,
    };
    match end_load(alloc, &served.report, &sources, asked, outputs) {
        Ok(by_load) => {
            tell_fates(&served.clients.fates, &mut outputs.errors);
            Ok(ending_of_serve(&served.clients.fates, by_load, &outputs.errors))
        }
        Err(failure) => Err(failure),
    }
}

/// The limit of time in seconds, where one is given.
fn limit_of(seconds: Option<u64>) -> Option<Duration>
    ensures { IsLimit seconds result }
{
    match seconds {
        Some(seconds) => Some(Duration::from_secs(seconds)),
        None => None,
    }
}

/// Loads the modules of what clients send over a socket, writes the report, then what is asked for beside it, and tells what
/// became of the clients.
fn run_serve<
    'a,
    S: Threads + Wait + Files + Net + Clock + Sync,
    N: Notices + Sync,
    P: ImageStore,
    O: Write,
    E: Write,
>(
    rt: &S,
    alloc: Global,
    notices: &N,
    asked: &ServeOptions<'a>,
    outputs: &mut Outputs<P, O, E>,
) -> Result<Ending, Failure<'a>>
    requires verifiers { (1 ≤ asked.now.verifiers) × (asked.now.verifiers ≤ 8) }
    requires connections { (1 ≤ asked.now.connections) × (asked.now.connections ≤ 8) }
    ensures found { IfOk result (HasServedAll asked.now outputs.old outputs.new) }
    ensures failure { IfErr result (FailsServing asked.now.socket.now) }
    ensures output { IfErr result (λ failure. is_of_output failure ≡ false → outputs.new.out ≡ outputs.old.out) }
    ensures untold { OnErr result (OnlyOutput outputs.old outputs.new) }
{
    let listener = match UnixListener::bind(rt, asked.socket) {
        Ok(listener) => listener,
        Err(error) => {
            return Err(Failure::CannotListen(asked.socket, DeviceCause::of(&error)));
        }
    };
    let acceptor = Acceptor::new(rt, listener, asked.socket, limit_of(asked.seconds));
    let size = StageSize {
        connections: asked.connections,
        verifiers: asked.verifiers,
    };
    match serve_on(rt, alloc, acceptor, size, &OpenGate, notices) {
        Ok(served) => end_serve(alloc, asked.connections, &served, &asked.report, outputs),
        Err(error) => Err(Failure::from(error)),
    }
}

/// Carries out what the program is asked for, where that needs no threads.
fn run_files<'a, D: Disk, P: ImageStore, O: Write, E: Write>(
    alloc: Global,
    disk: &D,
    line: &Line<'a>,
    outputs: &mut Outputs<P, O, E>,
) -> Result<Ending, Failure<'a>>
    requires line { IsForFiles line.now }
    ensures found { IfOk result (CarriesOut line.now (D.file_at disk.now) outputs.old outputs.new) }
    ensures failure { IfErr result (FailsAs line.now) }
    ensures output { IfErr result (λ failure. is_of_output failure ≡ false → outputs.new.out ≡ outputs.old.out) }
    ensures untold { OnErr result (OnlyOutput outputs.old outputs.new) }
{
    match line {
        Line::Check(asked) => Ok(run_check(alloc, disk, asked, outputs)),
        Line::Run(asked) => run_run(alloc, disk, asked, outputs),
        Line::Disassemble(asked) => run_disassemble(alloc, disk, asked, outputs),
        Line::Unpack(asked) => run_unpack(alloc, disk, asked, outputs),
        Line::Pack(asked) => run_pack(alloc, disk, asked, outputs),
        Line::Info(asked) => Ok(run_info(alloc, disk, asked, outputs)),
        Line::Load(_) | Line::Serve(_) => unreachable!(),
    }
}

/// Writes the parser's text: help to the output, and all else to the errors.
fn tell_fault<P: ImageStore, O: Write, E: Write>(
    fault: &LineFault,
    outputs: &mut Outputs<P, O, E>,
) -> Ending
    ensures { (words : List (List ℕ)) (file_at : List ℕ → Option (List ℕ)) → IsLineFault words fault.now → Runs words file_at outputs.old outputs.new result }
{
    let errors = &mut outputs.errors;
    match fault {
        LineFault::NoMemory => tell_failure(Failure::NoMemory, errors),
        LineFault::Help(text) => match write!(outputs.out, "{text}") {
            Ok(()) => Ending::Well,
            Err(error) => tell_failure(Failure::of_output(DeviceCause::of(&error)), errors),
        },
        LineFault::Wrong(text) => {
            errors.write_text(text);
            errors.unless_lost(Ending::WrongWords)
        }
        LineFault::NoPages => {
            errors.write_line("lfiload: pages are small, or large with --profile 2");
            errors.unless_lost(Ending::WrongWords)
        }
        LineFault::NoFormat => {
            errors.write_line("lfiload: --format is text or json");
            errors.unless_lost(Ending::WrongWords)
        }
        LineFault::Flawed(flaw) => {
            errors.write_line(format_args!("lfiload: {flaw}"));
            errors.unless_lost(Ending::WrongWords)
        }
    }
}

/// What the arguments ask for. Its numbers are in their ranges.
fn line_of<'a>(alloc: Global, arguments: Arguments<'a>) -> Result<Line<'a>, LineFault>
    ensures line { IfOk result (IsLine (map string_bytes arguments.entry.words.now)) }
    ensures sound { IfOk result (λ line. flaw_of line ≡ None) }
    ensures range { IfOk result IsInRange }
    ensures fault { IfErr result (IsLineFault (map string_bytes arguments.entry.words.now)) }
{
    match read_line(alloc, arguments) {
        Ok(line) => Ok(line),
        Err(fault) => Err(fault),
    }
}

/// Carries out what the arguments ask for: reads files of the disk,
/// writes the answer and the images, and tells what went wrong. While modules are loaded, the notices are told of those that
/// are refused.
pub fn run_words<
    S: Threads + Wait + Files + Net + Clock + Sync,
    D: Disk,
    N: Notices + Sync,
    P: ImageStore,
    O: Write,
    E: Write,
>(
    rt: &S,
    alloc: Global,
    disk: &D,
    notices: &N,
    arguments: Arguments<'_>,
    outputs: &mut Outputs<P, O, E>,
) -> Ending
    ensures { Runs (map string_bytes arguments.entry.words.now) (D.file_at disk.now) outputs.old outputs.new result }
{
    let line = match line_of(alloc, arguments) {
        Ok(line) => line,
        Err(fault) => return tell_fault(&fault, outputs),
    };
    match &line {
        Line::Load(asked) => {
            let came = run_load(rt, alloc, disk, notices, asked, outputs);
            ended(came, outputs)
        }
        Line::Serve(asked) => {
            let came = run_serve(rt, alloc, notices, asked, outputs);
            ended(came, outputs)
        }
        _ => {
            let came = run_files(alloc, disk, &line, outputs);
            ended(came, outputs)
        }
    }
}
