//! Laws of the definitions.

ghost use Rattle.std.specs.Prelude.{◌≡◌, ◌<◌, ℕ, Bool, List, [], ◌∷◌, ◌++◌, ◌⊎◌, if◌then◌else◌, Option, Some, None};
ghost use Rattle.lfi_module.specs.Numbers.{module_count};
ghost use Rattle.lfi_frame.specs.declared.fault.FrameFault.{FrameFault};
ghost use Rattle.lfi_frame.specs.Streams.{Message, short};
ghost use Rattle.lfi_model.specs.Item.{ItemView};
ghost use Rattle.lfi_model.specs.declared.item.Reason.{Reason};
ghost use Rattle.lfi_model.specs.declared.outcome.Outcome.{Outcome};
ghost use Rattle.lfi_module.specs.Extents.{ExtentView};
ghost use Rattle.lfi_rules.specs.declared.fault.Fault.{Fault};
ghost use Rattle.lfi_rules.specs.Faults.{FirstFault};
ghost use Rattle.lfi_rules.specs.Verdicts.{all_words};
ghost use Rattle.lfi_model.specs.declared.connection.EndCause.{EndCause};
ghost use Rattle.lfi_model.specs.Items.{ItemsOf, items_of, modules, share_of, after_message, is_of};
ghost use Rattle.lfi_model.specs.Modules.{Member, IsModule};
ghost use Rattle.lfi_model.specs.Outcomes.{end_of, Load, Placed};

/// The items that a connection makes of a module are numbered in order, and nothing follows their
/// End. Where there are any, there is an End.
pub fn items_are_a_module()
    ensures numbered { (messages : List Message) (rest : List ℕ) (cause : EndCause) (claimed : ℕ → Bool) (m : ℕ) → IsModule (items_of messages rest cause claimed m) }
    ensures ended { (messages : List Message) (rest : List ℕ) (cause : EndCause) (claimed : ℕ → Bool) (m : ℕ) → Member modules m →
        (items_of messages rest cause claimed m ≡ []) ⊎ ((reason : Reason) × (end_of (items_of messages rest cause claimed m) ≡ Some reason)) }
{}

/// What was placed up to a page with a fault, or in all, is the longest lawful beginning.
pub fn longest_beginning()
    ensures refused { (extent : ExtentView) (us rest : List (List ℕ)) (page : List ℕ) (fault : Fault) → FirstFault extent.profile (all_words us) extent.words None
        → FirstFault extent.profile (all_words us ++ page) extent.words (Some fault) → Placed extent (us ++ page ∷ rest) us }
    ensures whole { (extent : ExtentView) (pages : List (List ℕ)) → FirstFault extent.profile (all_words pages) extent.words None → Placed extent pages pages }
{}

/// One more message of a stream is one more step of its module's share, and of no other.
pub fn one_more_message()
    ensures { (claimed : Bool) (m : ℕ) (messages : List Message) (message : Message) → let s = share_of claimed m messages short in
        share_of claimed m (messages ++ message ∷ []) short ≡ (if is_of m message then after_message claimed m s s.progress message else s) }
{}

/// A text makes one list of items of each module, one fault and one number of strays.
pub fn one_items()
    ensures items { (bytes : List ℕ) (cause : EndCause) (claimed : ℕ → Bool) (items other : ℕ → List ItemView) (found last : Option FrameFault) (strays more : ℕ) →
        ItemsOf bytes cause claimed items found strays → ItemsOf bytes cause claimed other last more → (m : ℕ) → m < module_count → items m ≡ other m }
    ensures fault { (bytes : List ℕ) (cause : EndCause) (claimed : ℕ → Bool) (items other : ℕ → List ItemView) (found last : Option FrameFault) (strays more : ℕ) →
        ItemsOf bytes cause claimed items found strays → ItemsOf bytes cause claimed other last more → found ≡ last }
    ensures strays { (bytes : List ℕ) (cause : EndCause) (claimed : ℕ → Bool) (items other : ℕ → List ItemView) (found last : Option FrameFault) (strays more : ℕ) →
        ItemsOf bytes cause claimed items found strays → ItemsOf bytes cause claimed other last more → strays ≡ more }
{}

/// A module's items have one outcome, and their pages one longest lawful beginning.
pub fn one_load()
    ensures outcome { (extent : ExtentView) (items : List ItemView) (one other : Outcome) → Load extent items one → Load extent items other → one ≡ other }
    ensures placed { (extent : ExtentView) (pages us vs : List (List ℕ)) → Placed extent pages us → Placed extent pages vs → us ≡ vs }
{}
