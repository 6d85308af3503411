//! The text of a report on a load, and what is told beside it.

ghost use Rattle.std.specs.Prelude.{◌≡◌, ◌++◌, ℕ, List, map, true, IfErr, OnOk};
ghost use Rattle.std.specs.Io.KnownBytes.{Appends};
ghost use Rattle.lfi_file_commands.specs.Failures.{is_of_output};
ghost use Rattle.lfi_model.specs.Texts.{summary_text};
ghost use Rattle.lfi_stage.specs.Summaries.{summary_of};
ghost use Rattle.lfi_commands.specs.Explained.{TellsExplained};

use crate::explained::write_explained;
use lfi_file_commands::{DeviceCause, Failure, write_text};
use lfi_stage::Report;
use std::alloc::Global;
use std::io::Write;

/// Writes the text of a report.
///
/// # Errors
///
/// That of the output where a write fails.
pub fn write_report<'a, W: Write>(
    alloc: Global,
    report: &Report,
    writer: &mut W,
) -> Result<(), Failure<'a>>
    ensures written { OnOk result (Appends (W.contents writer.old) (W.contents writer.new) (summary_text (summary_of report.now))) }
    ensures failure { IfErr result (λ failure. is_of_output failure ≡ true) }
{
    let summary = report.summary();
    match write_text(alloc, writer, summary) {
        Ok(()) => Ok(()),
        Err(error) => Err(Failure::of_output(DeviceCause::of(&error))),
    }
}

/// Writes the text of a report, and then, where that is asked for, what is told of its refused modules and its connections.
/// These are the paths of the connections' streams, where they have any.
pub(crate) fn write_told<'a, W: Write>(
    alloc: Global,
    report: &Report,
    paths: &[&str],
    explain: bool,
    writer: &mut W,
) -> Result<(), Failure<'a>>
    ensures written { OnOk result ((explained : List ℕ) × TellsExplained explain report.now (map (λ path. path.now) paths.now) explained × Appends (W.contents writer.old) (W.contents writer.new) (summary_text (summary_of report.now) ++ explained)) }
    ensures failure { IfErr result (λ failure. is_of_output failure ≡ true) }
{
    match write_report(alloc, report, writer) {
        Ok(()) => match write_explained(alloc, explain, report, paths, writer) {
            Ok(()) => Ok(()),
            Err(error) => Err(Failure::of_output(DeviceCause::of(&error))),
        },
        Err(failure) => Err(failure),
    }
}
