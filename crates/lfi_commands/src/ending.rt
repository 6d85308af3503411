//! How a load ends.

ghost use Rattle.std.specs.Prelude.{◌≡◌, ◌≢◌, Some, false, IsTrue};
ghost use Rattle.lfi_frame.specs.declared.fault.FrameFault.TheVariants.{ReadFailed};
ghost use Rattle.lfi_commands.specs.Endings.{EndsBy, EndsLoad, IsReadFailed};

use lfi_file_commands::Ending;
use lfi_frame::FrameFault;
use lfi_stage::Report;

/// Whether a fault is that of a read that failed.
pub(crate) fn is_of_a_read(fault: Option<FrameFault>) -> bool
    ensures read { IsTrue result → fault ≡ Some ReadFailed }
    ensures other { result ≡ false → fault ≢ Some ReadFailed }
{
    match fault {
        Some(FrameFault::ReadFailed) => true,
        _ => false,
    }
}

/// Whether a read of some connection failed.
fn is_read_failed(faults: &[Option<FrameFault>]) -> bool
    ensures failed { IsTrue result → IsReadFailed faults.now }
    ensures none { result ≡ false → ¬ (IsReadFailed faults.now) }
{
    for number in 0..faults.len() {
        if is_of_a_read(faults[number]) {
            return true;
        }
    }
    false
}

/// The ending that a report gives: well exactly where each module is whole or was not claimed, and no connection
/// came to a fault; failed where a read of a connection failed.
fn ending_of_report(report: &Report) -> Ending
    ensures { EndsBy report.now result }
{
    if report.summary().is_well() {
        Ending::Well
    } else if is_read_failed(&report.faults) {
        Ending::Failed
    } else {
        Ending::NotWell
    }
}

/// The ending that a load gives: by its report, where all connections were taken and all images that were asked for were
/// put; else failed.
pub fn ending_of_load(report: &Report, all_taken: bool, all_put: bool) -> Ending
    ensures { EndsLoad report.now all_taken all_put result }
{
    if all_taken && all_put {
        ending_of_report(report)
    } else {
        Ending::Failed
    }
}
