//! Laws of streams whose numbers a caller keeps.

ghost use Rattle.std.specs.Prelude.{◌≡◌, ◌<◌, ◌*◌, ℕ, List, ◌∷◌, length, Option, Some, All, true};
ghost use Rattle.lfi_module.specs.Pages.{page_count};
ghost use Rattle.a64_word.specs.Words.{words_of};
ghost use Rattle.lfi_module.specs.Extents.{ExtentView};
ghost use Rattle.lfi_rules.specs.Faults.{FirstFault};
ghost use Rattle.lfi_rules.specs.declared.fault.Fault.{Fault};
ghost use Rattle.lfi_frame.specs.Streams.{Message, IsMessage, Cut, Rest, rest_of};
ghost use Rattle.lfi_model.specs.Item.{ItemView};
ghost use Rattle.lfi_model.specs.Items.{items_of};
ghost use Rattle.lfi_model.specs.Outcomes.{Load, end_of};
ghost use Rattle.lfi_model.specs.declared.connection.EndCause.{EndCause};
ghost use Rattle.lfi_model.specs.declared.connection.Progress.TheVariants.{Going};
ghost use Rattle.lfi_model.specs.declared.item.Reason.{Reason};
ghost use Rattle.lfi_stream.specs.declared.numbers.LfiStreamText.{LfiStreamText};
ghost use Rattle.lfi_stream.specs.Outcomes.{code_of, outcome_by, HasWholePages};
ghost use Rattle.lfi_stream.specs.Streams.{made_of, StandsFor, StandsForText};

/// The text that the numbers stand for is cut in one way only: what is told of the messages and the rest is told of the
/// text, in whatever pieces it came.
pub fn one_cut()
    ensures { (stream : LfiStreamText) (text : List ℕ) (messages : List Message) (rest : List ℕ) → StandsForText stream text → Cut text messages rest → StandsFor stream messages rest }
{}

/// A host that judges a module's whole pages as they come, as all their bytes, by the module's own profile, and hears its
/// end, has what one plain pass over the module's items makes of it: the outcome that `lfiload load` tells.
pub fn one_outcome()
    ensures { (messages : List Message) (rest : List ℕ) (cause : EndCause) (m : ℕ) (extent : ExtentView) (item : ItemView) (items : List ItemView) (fault : Option Fault) (reason : Reason) →
        All IsMessage messages → items_of messages rest cause (λ _. true) m ≡ item ∷ items → FirstFault extent.profile (words_of (code_of (item ∷ items))) extent.words fault →
        end_of (item ∷ items) ≡ Some reason → Load extent (item ∷ items) (outcome_by extent (item ∷ items) fault reason) }
{}

/// The next page of an open module begins where the code of its whole pages ends: so bytes that are put where they belong
/// are the module's code, one after the other.
pub fn next_place()
    ensures { (messages : List Message) (rest : List ℕ) (m : ℕ) (extent : ExtentView) (pages : ℕ) → (made_of messages (rest_of rest) m).progress ≡ Going extent pages →
        pages < page_count extent.pages extent.words → length (code_of (made_of messages (rest_of rest) m).items) ≡ 4 * extent.pages * pages }
{}

/// What came of an open module is as many whole pages as its progress tells, and no End.
pub fn whole_pages()
    ensures { (messages : List Message) (rest : Rest) (m : ℕ) (extent : ExtentView) (pages : ℕ) → All IsMessage messages → (made_of messages rest m).progress ≡ Going extent pages →
        HasWholePages extent pages (made_of messages rest m).items }
{}
