//! What became of each module, once all is settled.

ghost use Rattle.std.specs.Prelude.{◌≡◌, List, Some};
ghost use Rattle.lfi_model.specs.Item.{ItemView};
ghost use Rattle.lfi_sequence.specs.Come.{Come};
ghost use Rattle.lfi_sequence.specs.Tells.{Tells, HasEnd};
ghost use Rattle.lfi_sequence.specs.Sequenced.{Sequenced, module_number_of};
ghost use Rattle.lfi_sequence.specs.declared.sequence.Sequence.{Sequence};
ghost use Rattle.lfi_stage.specs.Settled.{AreReportsOf};

use lfi_module::ModuleNumber;
use lfi_sequence::{ModuleReport, Sequence, report_of};

/// What became of the module of a sequence.
fn report_in(sequence: Option<Sequence>) -> ModuleReport
    ensures { (s : Sequence) (taken items : List ItemView) → sequence ≡ Some s → Sequenced s taken → Come taken items → HasEnd items → Tells (module_number_of s) result items }
{
    match sequence {
        Some(sequence) => sequence.into_report(),
        None => report_of(None),
    }
}

/// What became of each module, by what has come to its sequence.
pub(crate) fn into_reports(
    sequences: [Option<Sequence>; ModuleNumber::COUNT],
) -> [ModuleReport; ModuleNumber::COUNT]
    ensures { AreReportsOf sequences result }
{
    sequences.map(report_in)
}
