//! The verdicts on a stream's code, as it comes.

ghost use Rattle.std.specs.Prelude.{◌≡◌, ◌≢◌, ◌+◌, ◌*◌, ◌≤◌, ◌++◌, ◌∷◌, ℕ, List, [], length, true, false, Ok, IfSome};
ghost use Rattle.lfi_module.specs.Extents.{ExtentView};
ghost use Rattle.lfi_module.specs.declared.profile.Profile.{Profile};
ghost use Rattle.lfi_frame.specs.Streams.{Message};
ghost use Rattle.lfi_model.specs.Item.{ItemView};
ghost use Rattle.lfi_model.specs.Items.{item_of};
ghost use Rattle.lfi_model.specs.declared.item.ItemKind.TheVariants as item;
ghost use Rattle.lfi_stream.specs.declared.numbers.LfiStreamText.{LfiStreamText};
ghost use Rattle.lfi_stream.specs.Events.{Tells};
ghost use Rattle.lfi_verifier.specs.States.{Keeps, IsInRange, IsState, StandsFor};
ghost use Rattle.lfi_verifier.specs.StreamEvents.{numbers_of, TellsOfCode};
ghost use Rattle.lfi_verifier.specs.StreamVerdicts.{state_at, bad_found, FindsOutcome, IsJudged, HasJudged, Finds, StaysJudged};
ghost use Rattle.lfi_verifier.specs.inner.Judging.{IsJudgedTo, IsFound, GoesOn};

use crate::cut_state::{LfiCutState, cut_of, cut_state_of};
use crate::fault::NO_FAULT;
use crate::finding::Finding;
use crate::state::{LfiState, beginning_of, state_of};
use a64_word::WORD_BYTES;
use lfi_check::{Beginning, CutBeginning};
use lfi_model::Reason;
use lfi_module::{Extent, ModuleNumber};
use lfi_stream::Event;

/// What is judged of a stream's code.
#[repr(C)]
#[derive(Clone, Copy)]
pub struct LfiStreamVerdicts {
    /// Of an open module its whole pages, by the modules' numbers.
    pub modules: [LfiState; ModuleNumber::COUNT],
    /// Of the page that is coming what came, after its module's whole pages.
    pub coming: LfiCutState,
}

/// The state of no module.
const NO_STATE: LfiState = LfiState {
    profile: 0,
    words: 0,
    judged: 0,
    fault: NO_FAULT,
    need: 0,
};

impl LfiStreamVerdicts {
    /// Those of a stream of which no byte came.
    pub(crate) fn none() -> LfiStreamVerdicts {
        LfiStreamVerdicts {
            modules: [NO_STATE; ModuleNumber::COUNT],
            coming: LfiCutState {
                whole: NO_STATE,
                count: 0,
                held: [0; 3],
            },
        }
    }
}

/// The whole pages of this module are judged so now.
fn keep(verdicts: &mut LfiStreamVerdicts, module: ModuleNumber, whole: Beginning)
    ensures own { Keeps (state_at verdicts.new.modules «module») whole }
    ensures others { (m : ℕ) → m ≢ «module» → state_at verdicts.new.modules m ≡ state_at verdicts.old.modules m }
    ensures coming { verdicts.new.coming ≡ verdicts.old.coming }
{
    verdicts.modules[module.index()] = state_of(whole);
}

/// Where its page has ended, the whole pages of this module are judged so now.
fn keep_where_ended(
    verdicts: &mut LfiStreamVerdicts,
    module: ModuleNumber,
    whole: Beginning,
    ended: bool,
)
    ensures own { ended ≡ true → Keeps (state_at verdicts.new.modules «module») whole }
    ensures others { (m : ℕ) → m ≢ «module» → state_at verdicts.new.modules m ≡ state_at verdicts.old.modules m }
    ensures kept { ended ≡ false → verdicts.new.modules ≡ verdicts.old.modules }
    ensures coming { verdicts.new.coming ≡ verdicts.old.coming }
{
    if ended {
        keep(verdicts, module, whole);
    }
}

/// A module opens.
fn begin(verdicts: &mut LfiStreamVerdicts, module: ModuleNumber, extent: Extent)
    ensures own { StandsFor (state_at verdicts.new.modules «module») extent.profile extent.words [] }
    ensures others { (m : ℕ) → m ≢ «module» → state_at verdicts.new.modules m ≡ state_at verdicts.old.modules m }
    ensures coming { verdicts.new.coming ≡ verdicts.old.coming }
{
    let none = Beginning::none(extent.words().number(), extent.profile());
    keep(verdicts, module, none);
}

/// What is judged of a module up to this byte of its code: the page that is coming goes on there, or one begins.
fn judged_to(
    verdicts: &LfiStreamVerdicts,
    module: ModuleNumber,
    offset: usize,
) -> Option<CutBeginning>
    ensures in_range { IfSome result (λ cut. IsInRange cut.whole) }
    ensures state { IfSome result (λ cut. ¬ ¬ (IsState (state_at verdicts.now.modules «module»))) }
    ensures found { (profile : Profile) (words : ℕ) (whole came : List ℕ) → IsJudgedTo verdicts.now «module» profile words whole came →
        offset ≡ length whole + length came → IsFound result profile words (whole ++ came) }
{
    let whole = beginning_of(verdicts.modules[module.index()])?;
    if offset == whole.judged as usize * WORD_BYTES {
        return Some(CutBeginning::of(whole));
    }
    cut_of(verdicts.coming)
}

/// Code of a module, from this byte of it on; where the page has ended, it is one more of the whole pages.
fn take_code(
    verdicts: &mut LfiStreamVerdicts,
    module: ModuleNumber,
    offset: usize,
    ended: bool,
    used: &[u8],
) -> Finding
    ensures told { (profile : Profile) (words : ℕ) (whole came : List ℕ) → IsJudgedTo verdicts.old «module» profile words whole came →
        offset ≡ length whole + length came → length (whole ++ came) + length used.now ≤ 4 * words →
        GoesOn verdicts.new «module» ended profile words ((whole ++ came) ++ used.now) result }
    ensures others { (m : ℕ) → m ≢ «module» → state_at verdicts.new.modules m ≡ state_at verdicts.old.modules m }
    ensures kept { ended ≡ false → verdicts.new.modules ≡ verdicts.old.modules }
    ensures bad { ¬ (IsState (state_at verdicts.old.modules «module»)) → result ≡ bad_found }
{
    let Some(before) = judged_to(verdicts, module, offset) else {
        return Finding::bad_state();
    };
    if !before.has_room(used.len()) {
        return Finding::bad_state();
    }
    let now = before.with(used);
    verdicts.coming = cut_state_of(now);
    keep_where_ended(verdicts, module, now.ended(), ended);
    Finding::so_far(now.fault())
}

/// What becomes of a module that has ended for a reason.
pub(crate) fn end(verdicts: &LfiStreamVerdicts, module: ModuleNumber, reason: Reason) -> Finding
    ensures found { (extent : ExtentView) (pages : ℕ) (items : List ItemView) → IsJudged (state_at verdicts.now.modules «module») extent pages items →
        FindsOutcome extent (items ++ item_of «module» (pages + 1) extent (item.End reason) ∷ []) result }
    ensures bad { ¬ (IsState (state_at verdicts.now.modules «module»)) → result ≡ bad_found }
{
    match beginning_of(verdicts.modules[module.index()]) {
        Some(whole) => Finding::of_end(whole, reason),
        None => Finding::bad_state(),
    }
}

/// What an event tells of code, by the bytes used; and the verdicts go on with it.
pub(crate) fn follow(verdicts: &mut LfiStreamVerdicts, event: Event, used: &[u8]) -> Finding
    ensures judged { (text : LfiStreamText) (messages : List Message) (rest : List ℕ) (told : Tells (Ok event) text messages rest used.now) → HasJudged verdicts.old messages rest →
        Finds (Ok event) result messages rest used.now × StaysJudged (Ok event) verdicts.new text messages rest used.now told }
    ensures bad { ¬ (IsState (state_at verdicts.old.modules (numbers_of event).«module»)) → TellsOfCode (numbers_of event) → result ≡ bad_found }
{
    match event {
        Event::Open { module, extent } => {
            begin(verdicts, module, extent);
            Finding::nothing()
        }
        Event::Code { page, ended } => {
            take_code(verdicts, page.module, page.offset(), ended, used)
        }
        Event::End { module, reason, .. } => end(verdicts, module, reason),
        _ => Finding::nothing(),
    }
}
