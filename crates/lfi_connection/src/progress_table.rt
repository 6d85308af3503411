//! How far a connection is with its modules.

ghost use Rattle.std.specs.Prelude.{◌≡◌, ℕ, ◌<◌, false, IfSome, IfNone};
ghost use Rattle.lfi_module.specs.Numbers.{module_count};
ghost use Rattle.lfi_model.specs.declared.connection.Progress.TheVariants.{Going};
ghost use Rattle.lfi_model.specs.Items.{is_going};
ghost use Rattle.lfi_connection.specs.Modules.{IsPossible};

use lfi_model::Progress;
use lfi_module::{Extent, ModuleNumber};

/// Where it is kept how far a connection is with each of its modules.
pub trait ProgressTable {
    ghost use Rattle.std.specs.Prelude.{◌≡◌, ℕ, ◌==◌, if◌then◌else◌};
    ghost use Rattle.lfi_model.specs.declared.connection.Progress.{Progress};
    ghost use Rattle.lfi_connection.specs.Modules.{IsPossible};

    /// How far it is with module m.
    ghost progress_at: { Self → ℕ → Progress };

    /// What else it holds is the same.
    ghost Keeps: { Self → Self → Type 0 };

    /// How far it is with this module.
    fn at(&self, module: ModuleNumber) -> Progress
        ensures at { result ≡ progress_at self.now «module» }
        ensures possible { IsPossible result };

    /// It is so far with this module now.
    fn set(&mut self, module: ModuleNumber, progress: Progress)
        requires { IsPossible progress }
        ensures at { (m : ℕ) → progress_at self.new m ≡ (if m == «module» then progress else progress_at self.old m) }
        ensures keeps { Keeps self.old self.new };
}

/// A module that is open: its number, how large it is, and how many of its pages came.
#[derive(Clone, Copy)]
pub struct OpenModule {
    pub number: ModuleNumber,
    pub extent: Extent,
    pub pages: u32,
}

/// The open module of the least number.
pub(crate) fn first_going<P: ProgressTable>(table: &P) -> Option<OpenModule>
    ensures in_range { IfSome result (λ found. found.number < module_count) }
    ensures possible { IfSome result (λ found. IsPossible (Going found.extent found.pages)) }
    ensures going { IfSome result (λ found. P.progress_at table.now found.number ≡ Going found.extent found.pages) }
    ensures least { IfSome result (λ found. (m : ℕ) → m < found.number → is_going (P.progress_at table.now m) ≡ false) }
    ensures none { IfNone result ((m : ℕ) → m < module_count → is_going (P.progress_at table.now m) ≡ false) }
{
    for number in 0..ModuleNumber::COUNT {
        let module = ModuleNumber::at(number);
        if let Progress::Going { extent, pages } = table.at(module) {
            return Some(OpenModule {
                number: module,
                extent,
                pages,
            });
        }
    }
    None
}
