//! The word that all threads of a stage watch. Whoever changes it has a `Said`, without which no thread is called that waits
//! elsewhere for what the word says: so none is called too early, finds nothing new, and sleeps on.

use std::sync::Wait;
use std::sync::atomic::{AtomicU64, Ordering};
use std::time::Duration;

/// That the word says what it was to say, and that those that sleep at the word itself were called.
#[derive(Drop)]
pub(crate) struct Said(());

/// The number of a state, which never gets smaller.
#[derive(Drop)]
pub(crate) struct StateWord {
    word: AtomicU64,
}

impl StateWord {
    /// It says this number.
    pub(crate) fn new(number: u64) -> StateWord {
        StateWord {
            word: AtomicU64::new(number),
        }
    }

    /// What it says.
    pub(crate) fn number(&self) -> u64 {
        self.word.load(Ordering::SeqCst)
    }

    /// It says this from now on, unless it says more, and all that sleep at it are called.
    pub(crate) fn say(&self, number: u64) -> Said {
        self.word.fetch_max(number, Ordering::SeqCst);
        self.word.wake_all();
        Said(())
    }

    /// Sleeps until it may say another number than this.
    pub(crate) fn park<S: Wait>(&self, rt: &S, number: u64) {
        if let Ok(seen) = u32::try_from(number) {
            self.word.park(rt, seen);
        }
    }

    /// Sleeps for this time, unless it says another number than now.
    pub(crate) fn sleep<S: Wait>(&self, rt: &S, time: Duration) {
        if let Ok(seen) = u32::try_from(self.number()) {
            self.word.park_timeout(rt, seen, time);
        }
    }
}
