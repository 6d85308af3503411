//! What is told of refused modules.

ghost use Rattle.std.specs.Prelude.{◌≡◌, ℕ, List, IfOk, IfSome, OnOk};
ghost use Rattle.std.specs.Io.KnownBytes.{Appends};
ghost use Rattle.lfi_file_commands.specs.Refused.{IsRefusal, IsToldByAll, known_of, refusal_lines, TellRefused};

use crate::texts::write_line;
use lfi_explain::{Explanation, KnownFault, explain_near};
use lfi_sequence::{ModuleReport, RefusedModule};
use std::alloc::Global;
use std::io::{self, Write};

/// What is known of a refused module's fault.
fn known_of(refused: &RefusedModule) -> KnownFault
    ensures { result ≡ known_of refused.now }
{
    KnownFault {
        slot: refused.slot,
        words: refused.extent.words(),
        profile: refused.extent.profile(),
        fault: refused.refusal.fault,
    }
}

/// What is told of a module's fault, where it was refused.
pub fn refusal_of(refused: &Option<RefusedModule>) -> Option<Explanation>
    ensures told { IsRefusal refused.now result }
    ensures all { IfSome refused.now (λ refused. IsToldByAll refused result) }
{
    match refused {
        Some(refused) => {
            let near = &refused.refusal.near;
            Some(explain_near(near, near.at(), &known_of(refused)))
        }
        None => None,
    }
}

/// Writes what is told of a module, if anything is.
fn write_refusal<W: Write>(alloc: Global, told: Option<Explanation>, out: &mut W) -> io::Result<()>
    ensures { OnOk result (Appends (W.contents out.old) (W.contents out.new) (refusal_lines told)) }
{
    match told {
        Some(explanation) => {
            let module = explanation.slot.number();
            write_line(alloc, out, format_args!("module {module}: {explanation}"))
        }
        None => Ok(()),
    }
}

/// Writes what is told of each of these modules that was refused, in order: `module 1: `, and then the explanation of its
/// fault, in the module's own slot.
///
/// # Errors
///
/// Where a write fails.
pub fn write_refused<W: Write>(
    alloc: Global,
    modules: &[ModuleReport],
    out: &mut W,
) -> io::Result<()>
    ensures { IfOk result (λ _. (text : List ℕ) × TellRefused modules.now text × Appends (W.contents out.old) (W.contents out.new) text) }
{
    for report in modules {
        write_refusal(alloc, refusal_of(&report.refused), out)?;
    }
    Ok(())
}
