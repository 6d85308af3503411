//! Between a beginning that may be cut within a word, as C keeps it, and what it stands for.

ghost use Rattle.std.specs.Prelude.{◌≡◌, Some, IfSome, IfNone};
ghost use Rattle.lfi_verifier.specs.States.{IsInRange};
ghost use Rattle.lfi_verifier.specs.CutStates.{word_at, KeepsCut, IsCutState};

use crate::state::{LfiState, beginning_of, state_of};
use lfi_check::{CutBeginning, CutWord};

/// A module of which a beginning came that may be cut within a word, as C keeps it.
#[repr(C)]
#[derive(Clone, Copy)]
pub struct LfiCutState {
    /// The whole words that came.
    pub whole: LfiState,
    /// How many bytes came after them: 0 to 3.
    pub count: u32,
    /// These bytes.
    pub held: [u8; 3],
}

/// The cut word that the first `count` of these bytes are.
fn word_of(count: u32, held: [u8; 3]) -> Option<CutWord>
    ensures { result ≡ word_at count held }
{
    match count {
        0 => Some(CutWord::Nothing),
        1 => Some(CutWord::One(held[0])),
        2 => Some(CutWord::Two(held[0], held[1])),
        3 => Some(CutWord::Three(held[0], held[1], held[2])),
        _ => None,
    }
}

/// How many bytes a cut word has, and these.
fn held_of(word: CutWord) -> (u32, [u8; 3])
    ensures { word_at result.0 result.1 ≡ Some word }
{
    match word {
        CutWord::Nothing => (0, [0, 0, 0]),
        CutWord::One(a) => (1, [a, 0, 0]),
        CutWord::Two(a, b) => (2, [a, b, 0]),
        CutWord::Three(a, b, c) => (3, [a, b, c]),
    }
}

/// A cut beginning as C keeps it.
pub(crate) fn cut_state_of(cut: CutBeginning) -> LfiCutState
    ensures { KeepsCut result cut }
{
    let (count, held) = held_of(cut.word);
    LfiCutState {
        whole: state_of(cut.whole),
        count,
        held,
    }
}

/// The cut beginning that a state keeps; `None` where its numbers are none that one has.
pub(crate) fn cut_of(state: LfiCutState) -> Option<CutBeginning>
    ensures some { IfSome result (λ cut. KeepsCut state cut × IsInRange cut.whole) }
    ensures none { IfNone result (¬ (IsCutState state)) }
{
    let whole = beginning_of(state.whole)?;
    let word = word_of(state.count, state.held)?;
    Some(CutBeginning { whole, word })
}
