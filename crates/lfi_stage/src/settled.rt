//! What is so once all is settled.

ghost use Rattle.std.specs.Prelude.{◌≡◌, ℕ, ◌<◌, Bool, true, false, List, [], Option, Some, slice_get};
ghost use Rattle.lfi_module.specs.Numbers.{module_count};
ghost use Rattle.lfi_frame.specs.declared.fault.FrameFault.{FrameFault};
ghost use Rattle.lfi_model.specs.Item.{ItemView};
ghost use Rattle.lfi_model.specs.declared.connection.EndCause.{EndCause};
ghost use Rattle.lfi_queues.specs.Kept.{Kept};
ghost use Rattle.lfi_sequence.specs.Come.{Come};
ghost use Rattle.lfi_sequence.specs.Delivers.{AreApart, Makes};
ghost use Rattle.lfi_sequence.specs.declared.sequence.Sequence.{Sequence};
ghost use Rattle.lfi_sequence.specs.declared.report.ModuleReport.{ModuleReport};
ghost use Rattle.lfi_sequence.specs.Tells.{Tells};
ghost use Rattle.lfi_stage.specs.Settled.{HasHandled, Settles, AreReportsOf};

/// Once the intake and all lanes and hands are empty, all that the claimer of a module made of it
/// has come to the module's sequence, in order; and nothing has come to that of a module that
/// nobody claimed.
pub fn all_settled()
    ensures claimed { (count : ℕ) (puts takes : ℕ → List ItemView) (sequences : List (Option Sequence)) (texts : ℕ → List ℕ) (causes : ℕ → EndCause) (claimed : ℕ → ℕ → Bool) (items : ℕ → ℕ → List ItemView) (faults : ℕ → Option FrameFault) (strays : ℕ → ℕ) →
        Kept puts takes [] → Settles takes sequences → Makes count puts texts causes claimed items faults strays → AreApart count claimed →
        (m : ℕ) → m < module_count → (c : ℕ) → c < count → claimed c m ≡ true → (taken : List ItemView) × HasHandled sequences m taken × Come taken (items c m) }
    ensures unclaimed { (count : ℕ) (puts takes : ℕ → List ItemView) (sequences : List (Option Sequence)) (texts : ℕ → List ℕ) (causes : ℕ → EndCause) (claimed : ℕ → ℕ → Bool) (items : ℕ → ℕ → List ItemView) (faults : ℕ → Option FrameFault) (strays : ℕ → ℕ) →
        Kept puts takes [] → Settles takes sequences → Makes count puts texts causes claimed items faults strays →
        (m : ℕ) → m < module_count → ((c : ℕ) → c < count → claimed c m ≡ false) → HasHandled sequences m [] }
{}

/// What is told of the modules then: of each that was claimed, what its claimer made of it; of each
/// other, nothing.
pub fn reports_settled()
    ensures claimed { (count : ℕ) (puts takes : ℕ → List ItemView) (sequences : List (Option Sequence)) (reports : List ModuleReport) (texts : ℕ → List ℕ) (causes : ℕ → EndCause) (claimed : ℕ → ℕ → Bool) (items : ℕ → ℕ → List ItemView) (faults : ℕ → Option FrameFault) (strays : ℕ → ℕ) →
        Kept puts takes [] → Settles takes sequences → AreReportsOf sequences reports → Makes count puts texts causes claimed items faults strays → AreApart count claimed →
        (m : ℕ) → m < module_count → (c : ℕ) → c < count → claimed c m ≡ true → (told : ModuleReport) × (slice_get reports m ≡ Some told) × Tells m told (items c m) }
    ensures unclaimed { (count : ℕ) (puts takes : ℕ → List ItemView) (sequences : List (Option Sequence)) (reports : List ModuleReport) (texts : ℕ → List ℕ) (causes : ℕ → EndCause) (claimed : ℕ → ℕ → Bool) (items : ℕ → ℕ → List ItemView) (faults : ℕ → Option FrameFault) (strays : ℕ → ℕ) →
        Kept puts takes [] → Settles takes sequences → AreReportsOf sequences reports → Makes count puts texts causes claimed items faults strays →
        (m : ℕ) → m < module_count → ((c : ℕ) → c < count → claimed c m ≡ false) → (told : ModuleReport) × (slice_get reports m ≡ Some told) × Tells m told [] }
{}
