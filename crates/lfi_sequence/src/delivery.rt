//! Laws of delivery.

ghost use Rattle.std.specs.Prelude.{◌≡◌, ◌≢◌, ℕ, ◌<◌, Bool, true, false, Option, List, [], ◌∷◌, ◌++◌, Some, None};
ghost use Rattle.std.specs.List.Sorted.{IsPermutation};
ghost use Rattle.lfi_frame.specs.declared.fault.FrameFault.{FrameFault};
ghost use Rattle.lfi_model.specs.declared.connection.EndCause.{EndCause};
ghost use Rattle.lfi_module.specs.Numbers.{module_count};
ghost use Rattle.lfi_model.specs.Item.{ItemView};
ghost use Rattle.lfi_queues.specs.Kept.{IsShuffle, Kept, with_last};
ghost use Rattle.lfi_model.specs.Modules.{IsModule, of};
ghost use Rattle.lfi_sequence.specs.Come.{Come};
ghost use Rattle.lfi_sequence.specs.Hands.{Hands, with_item};
ghost use Rattle.lfi_sequence.specs.Delivers.{Carries, Delivers, AreApart, Makes, with_last_in, with_held};

/// Of any items taken, exactly one list has come.
pub fn one_come()
    ensures some { (taken : List ItemView) → (xs : List ItemView) × Come taken xs }
    ensures one { (taken xs ys : List ItemView) → Come taken xs → Come taken ys → xs ≡ ys }
{}

/// All items of a module, taken in any order, have come.
pub fn all_come()
    ensures { (items taken : List ItemView) → IsModule items → IsPermutation items taken → Come taken items }
{}

/// Two shuffles of the same lists have the same items, each as often.
pub fn shuffled_alike()
    ensures { (parts : ℕ → List ItemView) (one two : List ItemView) → IsShuffle parts one → IsShuffle parts two → IsPermutation one two }
{}

/// Once all queues and hands are empty, what came to a module's sequencer is what the one receiver
/// that put items of the module put of it, each item once; and nothing, where none did.
pub fn all_arrives()
    ensures claimed { (puts takes : ℕ → List ItemView) (lane_puts lane_takes : ℕ → ℕ → List ItemView) → Delivers puts takes lane_puts lane_takes → (m : ℕ) → m < module_count →
        (c : ℕ) → ((d : ℕ) → d ≢ c → of m (puts d) ≡ []) → IsPermutation (of m (puts c)) (lane_takes m 0) }
    ensures unused { (puts takes : ℕ → List ItemView) (lane_puts lane_takes : ℕ → ℕ → List ItemView) → Delivers puts takes lane_puts lane_takes → (m : ℕ) → m < module_count →
        ((c : ℕ) → of m (puts c) ≡ []) → (lane_takes m 0) ≡ [] }
{}

/// A verifier that takes an item holds it; one that puts what it holds in the lane of its module
/// holds nothing.
pub fn one_hand()
    ensures takes { (took : List ItemView) (lanes : ℕ → List ItemView) (x : ItemView) → Hands took lanes None → Hands (took ++ x ∷ []) lanes (Some x) }
    ensures puts { (took : List ItemView) (lanes : ℕ → List ItemView) (j : ItemView) → Hands took lanes (Some j) → Hands took (with_item lanes j) None }
{}

/// Once all queues and hands are empty, the claimer's items of a module, each once, are what came to
/// the module's sequencer, and they have all come, in order; of a module that nobody claimed
/// nothing came.
pub fn all_made()
    ensures claimed { (count : ℕ) (puts takes : ℕ → List ItemView) (lane_puts lane_takes : ℕ → ℕ → List ItemView) (texts : ℕ → List ℕ) (causes : ℕ → EndCause) (claimed : ℕ → ℕ → Bool) (items : ℕ → ℕ → List ItemView) (faults : ℕ → Option FrameFault) (strays : ℕ → ℕ) →
        Delivers puts takes lane_puts lane_takes → Makes count puts texts causes claimed items faults strays → (m : ℕ) → m < module_count → (c : ℕ) → AreApart count claimed → c < count → claimed c m ≡ true →
        IsPermutation (items c m) (lane_takes m 0) }
    ensures in_order { (count : ℕ) (puts takes : ℕ → List ItemView) (lane_puts lane_takes : ℕ → ℕ → List ItemView) (texts : ℕ → List ℕ) (causes : ℕ → EndCause) (claimed : ℕ → ℕ → Bool) (items : ℕ → ℕ → List ItemView) (faults : ℕ → Option FrameFault) (strays : ℕ → ℕ) →
        Delivers puts takes lane_puts lane_takes → Makes count puts texts causes claimed items faults strays → (m : ℕ) → m < module_count → (c : ℕ) → AreApart count claimed → c < count → claimed c m ≡ true →
        Come (lane_takes m 0) (items c m) }
    ensures unclaimed { (count : ℕ) (puts takes : ℕ → List ItemView) (lane_puts lane_takes : ℕ → ℕ → List ItemView) (texts : ℕ → List ℕ) (causes : ℕ → EndCause) (claimed : ℕ → ℕ → Bool) (items : ℕ → ℕ → List ItemView) (faults : ℕ → Option FrameFault) (strays : ℕ → ℕ) →
        Delivers puts takes lane_puts lane_takes → Makes count puts texts causes claimed items faults strays → (m : ℕ) → m < module_count → ((c : ℕ) → c < count → claimed c m ≡ false) →
        (lane_takes m 0) ≡ [] }
{}

/// An item that is carried by hand is as good as one that went through the queues: what a verifier
/// holds may go straight to its module's sequencer, a verifier may take what is left in the intake,
/// and what a receiver still made may go straight to a verifier.
pub fn one_carried()
    ensures held { (takes : ℕ → List ItemView) (lane_puts lane_takes : ℕ → ℕ → List ItemView) (held : ℕ → Option ItemView) → Carries takes lane_puts lane_takes held → (v : ℕ) (j : ItemView) → held v ≡ Some j →
        Carries takes (with_last_in lane_puts j.«module» v j) (with_last_in lane_takes j.«module» 0 j) (with_held held v None) }
    ensures taken { (takes : ℕ → List ItemView) (lane_puts lane_takes : ℕ → ℕ → List ItemView) (held : ℕ → Option ItemView) → Carries takes lane_puts lane_takes held → (v : ℕ) (x : ItemView) → held v ≡ None →
        Carries (with_last takes v x) lane_puts lane_takes (with_held held v (Some x)) }
    ensures made { (puts takes : ℕ → List ItemView) (c v : ℕ) (x : ItemView) → Kept puts takes [] → Kept (with_last puts c x) (with_last takes v x) [] }
{}
