//! The object that `load --format json` and `serve --format json` print.

ghost use Rattle.std.specs.Prelude.{[], ◌≡◌, ◌≤◌, ◌<◌, ◌++◌, ℕ, List, Option, Some, None, false, length, map, option_map, slice_get, slice_index, IfErr, IfOk, OnOk, codes, decimal, get_or, string_bytes};
ghost use Rattle.std.specs.Io.KnownBytes.{Appends};
ghost use Rattle.lfi_explain.specs.declared.explanation.Explanation.{Explanation};
ghost use Rattle.lfi_model.specs.Texts.{lines_from};
ghost use Rattle.lfi_file_commands.specs.Failures.{is_of_output, FailsOn};
ghost use Rattle.lfi_file_commands.specs.Images.{Fate};
ghost use Rattle.lfi_file_commands.specs.Items.{AreItemsOf};
ghost use Rattle.lfi_file_commands.specs.Json.{image_item};
ghost use Rattle.lfi_commands.specs.Objects as spec;
ghost use Rattle.lfi_commands.specs.inner.Known.{known_of};

use crate::explained::start_at;
use crate::members::{ConnectionMembers, HolderMember, OutcomeMembers};
use crate::sources::{Sources, client_at, path_at};
use lfi_explain::Explanation;
use lfi_file_commands::{
    Failure, ImageItems, push_comma, push_explanation, push_plain, push_quoted, refusal_of,
    write_object,
};
use lfi_frame::FrameFault;
use lfi_sequence::{ModuleReport, RefusedModule};
use lfi_stage::Report;
use std::alloc::{AllocError, Global};
use std::io::Write;

/// Why a module is refused, where that is to be explained.
fn asked_refusal(explain: bool, refused: &Option<RefusedModule>) -> Option<Explanation>
    ensures { spec.IsAskedRefusal explain refused.now result }
{
    if explain { refusal_of(refused) } else { None }
}

/// Puts what explains why a module is refused, where that is told.
fn push_told(alloc: Global, told: &Option<Explanation>, text: &mut String) -> Result<(), AllocError>
    ensures { OnOk result (string_bytes text.new ≡ string_bytes text.old ++ spec.told_members told.now) }
{
    match told {
        Some(explanation) => push_explanation(alloc, explanation, text),
        None => Ok(()),
    }
}

/// Puts what stands first in the object of a module.
fn push_outcome(outcome: OutcomeMembers, text: &mut String) -> Result<(), AllocError>
    ensures { OnOk result (string_bytes text.new ≡ string_bytes text.old ++ spec.outcome_members outcome.number outcome.outcome) }
{
    write!(text, "{outcome}")
}

/// Puts the connection that has claimed a module, and the end of its object.
fn push_holder(holder: Option<usize>, text: &mut String) -> Result<(), AllocError>
    ensures { OnOk result (string_bytes text.new ≡ string_bytes text.old ++ (spec.holder_member holder ++ codes "}")) }
{
    let holder = HolderMember(holder);
    write!(text, "{holder}}}")
}

/// Puts the object of a module.
fn push_module(
    alloc: Global,
    members: OutcomeMembers,
    told: &Option<Explanation>,
    holder: Option<usize>,
    text: &mut String,
) -> Result<(), AllocError>
    ensures { OnOk result (string_bytes text.new ≡ string_bytes text.old ++ spec.module_item members.number members.outcome told.now holder) }
{
    push_comma(members.number, text)?;
    push_outcome(members, text)?;
    push_told(alloc, told, text)?;
    push_holder(holder, text)
}

/// Puts the objects of modules, which these connections have claimed, by their numbers.
fn push_modules(
    alloc: Global,
    modules: &[ModuleReport],
    holders: &[Option<usize>],
    explain: bool,
    text: &mut String,
) -> Result<(), AllocError>
    requires { length modules.now ≤ length holders.now }
    ensures { OnOk result ((told : List ℕ) × spec.TellModules explain holders.now 0 modules.now told × (string_bytes text.new ≡ string_bytes text.old ++ told)) }
{
    for (number, module) in modules.iter().enumerate() {
        let told = asked_refusal(explain, &module.refused);
        let members = OutcomeMembers {
            number,
            outcome: module.outcome,
        };
        push_module(alloc, members, &told, holders[number], text)?;
    }
    Ok(())
}

/// Puts the path of a connection's stream, where it has one.
fn push_path(alloc: Global, path: Option<&str>, text: &mut String) -> Result<(), AllocError>
    ensures { OnOk result (string_bytes text.new ≡ string_bytes text.old ++ spec.path_member (option_map (λ path. path.now) path.entry)) }
{
    match path {
        Some(path) => {
            push_plain(",\"path\":", text)?;
            push_quoted(alloc, path, text)
        }
        None => Ok(()),
    }
}

/// Puts what stands first in the object of a connection.
fn push_number(number: usize, text: &mut String) -> Result<(), AllocError>
    ensures { OnOk result (string_bytes text.new ≡ string_bytes text.old ++ spec.connection_member number) }
{
    write!(text, "{{\"connection\":{number}")
}

/// Puts what stands behind the path of a connection's stream, and the end of its object.
fn push_members(members: ConnectionMembers, text: &mut String) -> Result<(), AllocError>
    ensures { OnOk result (string_bytes text.new ≡ string_bytes text.old
        ++ (spec.connection_members members.client members.strays members.fault (Some members.start) members.kind ++ codes "}")) }
{
    write!(text, "{members}}}")
}

/// Puts the object of a connection.
fn push_connection(
    alloc: Global,
    number: usize,
    path: Option<&str>,
    members: ConnectionMembers,
    text: &mut String,
) -> Result<(), AllocError>
    ensures { OnOk result (string_bytes text.new ≡ string_bytes text.old ++ (spec.connection_object number (option_map (λ path. path.now) path.entry)
        (spec.connection_members members.client members.strays members.fault (Some members.start) members.kind))) }
{
    push_comma(number, text)?;
    push_number(number, text)?;
    push_path(alloc, path, text)?;
    push_members(members, text)
}

/// What is told of a connection with this fault, behind its path.
fn members_of(
    report: &Report,
    sources: &Sources<'_>,
    number: usize,
    fault: Option<FrameFault>,
) -> ConnectionMembers
    requires { number < 8 }
    ensures client { result.client ≡ slice_get sources.now.clients.now number }
    ensures strays { result.strays ≡ slice_index report.now.connection_strays number }
    ensures fault { result.fault ≡ fault }
    ensures start { Some result.start ≡ slice_get report.now.starts number }
    ensures kind { result.kind ≡ get_or sources.now.kinds number None }
{
    ConnectionMembers {
        client: client_at(sources.clients, number),
        strays: report.connection_strays[number],
        fault,
        start: start_at(&report.starts, number),
        kind: sources.kinds[number],
    }
}

/// Puts the object of the connection with this number and fault.
fn push_connection_at(
    alloc: Global,
    report: &Report,
    sources: &Sources<'_>,
    number: usize,
    fault: Option<FrameFault>,
    text: &mut String,
) -> Result<(), AllocError>
    requires { number < 8 }
    ensures { OnOk result (string_bytes text.new ≡ string_bytes text.old ++ spec.connection_item report.now (known_of sources.now) number fault) }
{
    let members = members_of(report, sources, number, fault);
    push_connection(alloc, number, path_at(sources.paths, number), members, text)
}

/// Puts the objects of connections with these faults, by their numbers.
fn push_connections(
    alloc: Global,
    report: &Report,
    sources: &Sources<'_>,
    faults: &[Option<FrameFault>],
    text: &mut String,
) -> Result<(), AllocError>
    requires { length faults.now ≤ 8 }
    ensures { OnOk result (string_bytes text.new ≡ string_bytes text.old ++ lines_from (spec.connection_item report.now (known_of sources.now)) 0 faults.now) }
{
    for (number, fault) in faults.iter().enumerate() {
        push_connection_at(alloc, report, sources, number, *fault, text)?;
    }
    Ok(())
}

/// Puts the objects of all connections, by their numbers.
fn push_each_connection(
    alloc: Global,
    report: &Report,
    sources: &Sources<'_>,
    text: &mut String,
) -> Result<(), AllocError>
    requires { sources.now.count ≤ 8 }
    ensures { OnOk result (string_bytes text.new ≡ string_bytes text.old ++ spec.connection_items report.now (known_of sources.now)) }
{
    let faults = &report.faults[..sources.count];
    push_connections(alloc, report, sources, faults, text)
}

/// Puts the strays behind the connections.
fn push_strays(strays: u64, text: &mut String) -> Result<(), AllocError>
    ensures { OnOk result (string_bytes text.new ≡ string_bytes text.old ++ (codes "],\"strays\":" ++ decimal strays)) }
{
    write!(text, "],\"strays\":{strays}")
}

/// Puts the strays and the items of images, and the end of the object.
fn push_images(strays: u64, images: &str, text: &mut String) -> Result<(), AllocError>
    ensures { OnOk result (string_bytes text.new ≡ string_bytes text.old ++ spec.images_member strays images.now) }
{
    push_strays(strays, text)?;
    push_plain(",\"images\":[", text)?;
    push_plain(images, text)?;
    push_plain("]}\n", text)
}

/// Puts the objects of all modules and all connections of a report.
fn push_parts(
    alloc: Global,
    report: &Report,
    sources: &Sources<'_>,
    explain: bool,
    text: &mut String,
) -> Result<(), AllocError>
    requires { sources.now.count ≤ 8 }
    ensures { OnOk result ((modules : List ℕ) × spec.TellModules explain report.now.holders 0 report.now.modules modules
        × (string_bytes text.new ≡ string_bytes text.old ++ (codes "{\"modules\":[" ++ modules ++ codes "],\"connections\":[" ++ spec.connection_items report.now (known_of sources.now)))) }
{
    push_plain("{\"modules\":[", text)?;
    push_modules(alloc, &report.modules, &report.holders, explain, text)?;
    push_plain("],\"connections\":[", text)?;
    push_each_connection(alloc, report, sources, text)
}

/// The object of a report, with the items of its images; no memory, where these weren't kept.
fn object_of(
    alloc: Global,
    report: &Report,
    sources: &Sources<'_>,
    explain: bool,
    images: &ImageItems,
) -> Result<String, AllocError>
    requires { sources.now.count ≤ 8 }
    ensures { (folder : List ℕ) (fates : List Fate) → AreItemsOf folder fates images.now → IfOk result (λ text. spec.IsObject report.now (known_of sources.now) explain folder fates (string_bytes text)) }
{
    let Some(items) = images.text() else {
        return Err(AllocError);
    };
    let mut text = String::new(alloc);
    push_parts(alloc, report, sources, explain, &mut text)?;
    push_images(report.strays, items, &mut text)?;
    Ok(text)
}

/// Writes the object of a report, with the items of its images.
///
/// # Errors
///
/// That of the output where a write fails; no memory, where there is none for the object, or these weren't kept.
pub(crate) fn write_report_object<'a, W: Write>(
    alloc: Global,
    report: &Report,
    sources: &Sources<'_>,
    explain: bool,
    images: &ImageItems,
    out: &mut W,
) -> Result<(), Failure<'a>>
    requires { sources.now.count ≤ 8 }
    ensures written { (folder : List ℕ) (fates : List Fate) → AreItemsOf folder fates images.now → OnOk result ((object : List ℕ) × spec.IsObject report.now (known_of sources.now) explain folder fates object
        × Appends (W.contents out.old) (W.contents out.new) object) }
    ensures failure { IfErr result (FailsOn []) }
    ensures unwritten { IfErr result (λ failure. is_of_output failure ≡ false → out.new ≡ out.old) }
{
    let object = match object_of(alloc, report, sources, explain, images) {
        Ok(object) => object,
        Err(AllocError) => return Err(Failure::NoMemory),
    };
    match write_object(object.as_str(), out) {
        Ok(()) => Ok(()),
        Err(cause) => Err(Failure::of_output(cause)),
    }
}
