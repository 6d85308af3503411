//! Between a state as C keeps it and the beginning of a module that it stands for.

ghost use Rattle.std.specs.Prelude.{◌≡◌, ◌≤◌, true, false, Some, IfSome, IfNone};
ghost use Rattle.lfi_verifier.specs.States.{need_at, Keeps, IsWordCount, IsInRange, IsState};

use crate::fault::{LfiFault, fault_of, told_of};
use crate::profile::profile_of;
use lfi_check::Beginning;
use lfi_module::WordCount;
use lfi_rules::Need;

/// A module of which a beginning has been judged, as C keeps it.
#[repr(C)]
#[derive(Clone, Copy)]
pub struct LfiState {
    /// The profile by which it is judged.
    pub profile: u32,
    /// How many words the whole module has.
    pub words: u32,
    /// How many of them have been judged.
    pub judged: u32,
    /// The first fault so far.
    pub fault: LfiFault,
    /// What the words judged leave open.
    pub need: u32,
}

/// The need with this number.
fn need_of(number: u32) -> Option<Need>
    ensures { result ≡ need_at number }
{
    match number {
        0 => Some(Need::Nothing),
        1 => Some(Need::Call),
        2 => Some(Need::Guard),
        3..=258 => Some(Need::Probe((number - 3) as u8)),
        _ => None,
    }
}

/// The number of a need.
fn number_of(need: Need) -> u32
    ensures { need_at result ≡ Some need }
{
    match need {
        Need::Nothing => 0,
        Need::Call => 1,
        Need::Guard => 2,
        Need::Probe(count) => 3 + u32::from(count),
    }
}

/// A beginning as C keeps it.
pub(crate) fn state_of(beginning: Beginning) -> LfiState
    ensures { Keeps result beginning }
{
    LfiState {
        profile: beginning.profile.number(),
        words: beginning.words,
        judged: beginning.judged,
        fault: told_of(beginning.fault),
        need: number_of(beginning.tail),
    }
}

/// Whether the numbers of words are those of a module.
fn is_in_range(state: LfiState) -> bool
    ensures yes { result ≡ true → IsWordCount state.words × (state.judged ≤ state.words) }
    ensures no { result ≡ false → ¬ (IsWordCount state.words × (state.judged ≤ state.words)) }
{
    1 <= state.words && state.words <= WordCount::MOST.number() && state.judged <= state.words
}

/// The beginning that a state keeps; `None` where its numbers are none that a beginning has.
pub(crate) fn beginning_of(state: LfiState) -> Option<Beginning>
    ensures some { IfSome result (λ beginning. Keeps state beginning × IsInRange beginning) }
    ensures none { IfNone result (¬ (IsState state)) }
{
    let profile = profile_of(state.profile)?;
    if !is_in_range(state) {
        return None;
    }
    let fault = fault_of(state.fault)?;
    let tail = need_of(state.need)?;
    Some(Beginning {
        profile,
        words: state.words,
        judged: state.judged,
        fault,
        tail,
    })
}
