//! How far the threads of a stage are to go.

ghost use Rattle.std.specs.Prelude.{◌≡◌, ◌≤◌, ◌<◌, ℕ, None, Some, false, option_map};
ghost use Rattle.lfi_sync.specs.Fates.{is_unheard};
ghost use Rattle.lfi_sync.specs.Lifecycles.{judging_of};
ghost use Rattle.lfi_sync.specs.Stops.{state_number, stops_for, why_of};

use crate::deadline::Span;
use crate::fate::{Unheard, flag_of};
use crate::lane_set::LaneSet;
use crate::refusal::LoadError;
use crate::state_word::StateWord;
use crate::wait_sets::WaitSets;
use lfi_module::ModuleNumber;
use std::rt::Clock;
use std::sync::Wait;
use std::sync::atomic::{AtomicU64, Ordering};
use std::time::Duration;

/// How far the threads are to go, in the order in which one follows another: the word never goes back.
#[derive(Clone, Copy, PartialEq, Eq)]
enum State {
    /// They are being started.
    Starting,
    /// All have been started.
    Running,
    /// All verifiers' threads have ended.
    Verified,
    /// All are to stop, since memory was refused.
    NoMemory,
    /// All are to stop, since a thread was refused.
    NoThread,
}

impl State {
    /// The number by which it stands in the word.
    fn number(self) -> u64
        ensures { result ≡ state_number self }
    {
        match self {
            State::Starting => 0,
            State::Running => 1,
            State::Verified => 2,
            State::NoMemory => 3,
            State::NoThread => 4,
        }
    }

    /// The state that stands in the word by this number. No greater one than 4 is ever written.
    fn of(number: u64) -> State
        ensures state { (state : State) → number ≡ state_number state → result ≡ state }
        ensures above { state_number State.NoThread ≤ number → result ≡ State.NoThread }
    {
        match number {
            0 => State::Starting,
            1 => State::Running,
            2 => State::Verified,
            3 => State::NoMemory,
            _ => State::NoThread,
        }
    }

    /// The one by which all are to stop for this.
    fn stopping(why: LoadError) -> State
        ensures { stops_for result ≡ Some why }
    {
        match why {
            LoadError::NoMemory => State::NoMemory,
            LoadError::NoThread => State::NoThread,
        }
    }
}

/// That all threads are to stop, and why. None but the word of `Lifecycle` tells it, so a thread that has
/// one was told.
#[derive(Clone, Copy)]
pub struct Stopped {
    why: LoadError,
}

impl Stopped {
    /// What this state tells.
    fn of(state: State) -> Option<Stopped>
        ensures { option_map why_of result ≡ stops_for state }
    {
        match state {
            State::Starting | State::Running | State::Verified => None,
            State::NoMemory => Some(Stopped {
                why: LoadError::NoMemory,
            }),
            State::NoThread => Some(Stopped {
                why: LoadError::NoThread,
            }),
        }
    }

    /// Why they are to stop.
    pub fn why(self) -> LoadError
        ensures { result ≡ why_of self }
    {
        self.why
    }
}

/// That all verifiers' threads have ended, or that all threads are to stop. None but the word of `Lifecycle` tells it, so a
/// thread that has one was told.
#[derive(Clone, Copy)]
pub struct Verified {
    state: State,
}

impl Verified {
    /// What this state tells.
    fn of(state: State) -> Option<Verified>
        ensures before { state_number state < state_number State.Verified → result ≡ None }
        ensures after { state_number State.Verified ≤ state_number state → result ≡ Some (record { state = state }) }
    {
        match state {
            State::Starting | State::Running => None,
            State::Verified | State::NoMemory | State::NoThread => Some(Verified { state }),
        }
    }
}

/// That all threads have been started, or are to stop. None but `Lifecycle::wait_for_go` tells it, so a
/// thread that has one has waited.
#[derive(Clone, Copy)]
pub struct Going<'a> {
    lifecycle: &'a Lifecycle,
}

impl<'a> Going<'a> {
    /// How far the threads are to go.
    pub fn lifecycle(self) -> &'a Lifecycle {
        self.lifecycle
    }
}

/// One word that all threads of a stage watch, which receivers' threads have nothing more to hear, how many verifiers' threads
/// haven't ended, which lanes have items, and where the threads wait for one another.
#[derive(Drop)]
pub struct Lifecycle {
    word: StateWord,
    /// How many verifiers there are.
    verifiers: u64,
    /// How many verifiers' threads haven't ended.
    verifying: AtomicU64,
    /// A flag for each receiver's thread that has nothing more to hear.
    heard: AtomicU64,
    /// A bit for each lane that got an item since the sequencers' thread asked last.
    filled: AtomicU64,
    wait_sets: WaitSets,
}

impl Lifecycle {
    /// The threads are being started, those of `verifiers` verifiers among them.
    pub fn new(verifiers: usize) -> Lifecycle
        ensures { judging_of result ≡ verifiers }
    {
        Lifecycle {
            word: StateWord::new(State::Starting.number()),
            verifiers: verifiers as u64,
            verifying: AtomicU64::new(verifiers as u64),
            heard: AtomicU64::new(0),
            filled: AtomicU64::new(0),
            wait_sets: WaitSets::new(verifiers),
        }
    }

    /// How many verifiers there are.
    pub fn verifiers(&self) -> u64
        ensures { result ≡ judging_of self.now }
    {
        self.verifiers
    }

    /// Where the threads wait for one another.
    pub fn wait_sets(&self) -> &WaitSets {
        &self.wait_sets
    }

    /// All threads have been started. Those of receivers alone wait for that.
    pub fn go(&self) {
        self.word.say(State::Running.number());
    }

    /// The thread of a verifier has nothing more to put. Each tells it once, and the last calls the sequencers' thread.
    pub fn tell_verified(&self) {
        if self.verifying.fetch_sub(1, Ordering::SeqCst) == 1 {
            let said = self.word.say(State::Verified.number());
            self.wait_sets.call_sequencers(said);
        }
    }

    /// A thread couldn't be started, or memory was refused, and all others are to stop. The answer is
    /// that again.
    pub fn stop(&self, why: LoadError) -> LoadError
        ensures { result ≡ why }
    {
        let said = self.word.say(State::stopping(why).number());
        self.wait_sets.call_all(said);
        why
    }

    /// Waits until all threads have been started, or are to stop.
    pub fn wait_for_go<S: Wait>(&self, rt: &S) -> Going<'_> {
        for _ in rt.forever() {
            if self.state() != State::Starting {
                break;
            }
            self.word.park(rt, State::Starting.number());
        }
        Going { lifecycle: self }
    }

    /// Whether all verifiers' threads have ended, or all threads are to stop.
    pub fn are_verified(&self) -> Option<Verified> {
        Verified::of(self.state())
    }

    /// Whether all threads are to stop, and why.
    pub fn stopped(&self) -> Option<Stopped> {
        Stopped::of(self.state())
    }

    /// The thread of the receiver with this number has nothing more to hear. All verifiers look for
    /// what it has put, and whether it was the last.
    pub fn tell_heard(&self, number: usize) {
        self.wait_sets.items.call_all();
        self.heard
            .fetch_or(u64::from(flag_of(number)), Ordering::SeqCst);
        self.heard.wake_all();
    }

    /// Waits until the threads of the first `count` receivers have nothing more to hear, or this time
    /// is over. The answer is which of them still had something to hear then.
    pub(crate) fn wait_for_heard<S: Wait + Clock>(
        &self,
        rt: &S,
        count: usize,
        span: &Span,
    ) -> Unheard
        ensures { (c : ℕ) → count ≤ c → is_unheard result c ≡ false }
    {
        for _ in rt.forever() {
            // Before it looks: whoever ended in time is told so.
            let left = span.left(rt);
            let heard = u32::try_from(self.heard.load(Ordering::SeqCst)).unwrap_or(u32::MAX);
            let unheard = Unheard::of(heard, count);
            if unheard.is_none() || left.is_zero() {
                return unheard;
            }
            self.heard.park_timeout(rt, heard, left);
        }
        unreachable!()
    }

    /// The lane of this module has an item. A thread tells it after its put, or where it leaves items behind. A bit that is set
    /// is as good: the sequencers' thread clears it before it looks at the lane.
    pub fn tell_filled(&self, module: ModuleNumber) {
        let bit = LaneSet::bit_of(module);
        if self.filled.load(Ordering::SeqCst) & bit == 0 {
            self.filled.fetch_or(bit, Ordering::SeqCst);
        }
    }

    /// The lanes of which it was told since it was asked last.
    pub fn take_filled(&self) -> LaneSet {
        if self.filled.load(Ordering::SeqCst) == 0 {
            return LaneSet::none();
        }
        LaneSet::of(self.filled.swap(0, Ordering::SeqCst))
    }

    /// Sleeps for this time, unless the word changes.
    pub fn sleep<S: Wait>(&self, rt: &S, time: Duration) {
        self.word.sleep(rt, time);
    }

    /// What the word says.
    fn state(&self) -> State {
        State::of(self.word.number())
    }
}
