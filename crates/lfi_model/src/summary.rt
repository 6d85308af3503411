//! What is told of a whole run.

ghost use Rattle.std.specs.Prelude.{◌↔◌, Some, None, IsTrue};
ghost use Rattle.std.specs.Fmt.{WritesOnOk};
ghost use Rattle.lfi_model.specs.Texts.{module_line, connection_line, lines_from};
ghost use Rattle.lfi_model.specs.Outcomes.{is_well};

use crate::outcome::Outcome;
use lfi_frame::FrameFault;
use lfi_module::{CONNECTIONS, ModuleNumber};
use std::fmt;

/// What became of each module and each connection of a run, as it is told to users.
#[derive(Clone, Copy, PartialEq, Eq)]
pub struct Summary {
    /// By the modules' numbers.
    pub outcomes: [Outcome; ModuleNumber::COUNT],
    /// By the connections' numbers.
    pub faults: [Option<FrameFault>; CONNECTIONS],
    /// The strays of all connections; it stays at the greatest number.
    pub strays: u64,
}

impl fmt::Display for Summary {
    ghost use Rattle.std.specs.Prelude.{Some};
    ghost use Rattle.lfi_model.specs.Texts.{summary_text};

    ghost output = { λ summary. Some (summary_text summary) };

    /// Writes a line for each module that was claimed, by their numbers; then one for each
    /// connection that came to a fault; then the strays.
    fn fmt<W: fmt::Write>(&self, f: &mut fmt::Formatter<W>) -> fmt::Result {
        write_modules(&self.outcomes, f)?;
        write_connections(&self.faults, f)?;
        let strays = self.strays;
        write!(f, "strays {strays}\n")
    }
}

/// Writes the line of a module, where it was claimed.
fn write_module<W: fmt::Write>(
    number: usize,
    outcome: Outcome,
    f: &mut fmt::Formatter<W>,
) -> fmt::Result
    ensures { WritesOnOk W.write_str_gives f.old result (module_line number outcome) f.new }
{
    match outcome {
        Outcome::Unused => Ok(()),
        _ => write!(f, "module {number}: {outcome}\n"),
    }
}

/// Writes a line for each module that was claimed, by their numbers.
fn write_modules<W: fmt::Write>(outcomes: &[Outcome], f: &mut fmt::Formatter<W>) -> fmt::Result
    ensures { WritesOnOk W.write_str_gives f.old result (lines_from module_line 0 outcomes.now) f.new }
{
    for (number, outcome) in outcomes.iter().enumerate() {
        write_module(number, *outcome, f)?;
    }
    Ok(())
}

/// Writes the line of a connection, where it came to a fault.
fn write_connection<W: fmt::Write>(
    number: usize,
    fault: Option<FrameFault>,
    f: &mut fmt::Formatter<W>,
) -> fmt::Result
    ensures { WritesOnOk W.write_str_gives f.old result (connection_line number fault) f.new }
{
    match fault {
        None => Ok(()),
        Some(fault) => {
            let code = fault.number();
            write!(f, "connection {number}: fault {code}\n")
        }
    }
}

/// Writes a line for each connection that came to a fault, by their numbers.
fn write_connections<W: fmt::Write>(
    faults: &[Option<FrameFault>],
    f: &mut fmt::Formatter<W>,
) -> fmt::Result
    ensures { WritesOnOk W.write_str_gives f.old result (lines_from connection_line 0 faults.now) f.new }
{
    for (number, fault) in faults.iter().enumerate() {
        write_connection(number, *fault, f)?;
    }
    Ok(())
}

impl Summary {
    ghost use Rattle.lfi_model.specs.Texts.{IsWell};

    /// Whether each module that was claimed is complete, and no connection came to a fault.
    pub fn is_well(&self) -> bool
        ensures { IsTrue result ↔ IsWell self.now }
    {
        self.outcomes.iter().all(|outcome| outcome.is_well())
            && self.faults.iter().all(|fault| fault.is_none())
    }
}
