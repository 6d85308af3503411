//! The board of the modules' phases: receivers claim modules on it, sequencers end them, and watchers see how many
//! receivers have ended. Its parts run on several threads, and no call waits. Source: own.
//!
//! # How data flows
//!
//! A module is free, then claimed by one receiver (`claim`), then refused or finished by its sequencer, each by one
//! atomic step on one word. What a seat has seen, contracts know as a list of seen words. `holder`, asked with all
//! receivers' seats once the threads have ended, says who claimed a module.
//!
//! # What it may not know
//!
//! What receivers and sequencers do.
//!
//! # Decisions
//!
//! - **What a seat knows is a list of seen words**, a word and the number that it held, for phases and the count alike.
//!   One relation says what a word may hold later (`IsSince`), and each answer is tied by it to all that its seat saw
//!   before. A board without threads could say more; that other threads may come between is what these clauses leave
//!   open.
//! - **`holder` is asked with the seats of all receivers.** That nobody else holds a module is a fact on all seats, and
//!   one seat can't see what another knows. So `holder` moves what the seats know to one seat and back, and loads the
//!   phase once between. The moves are steps of `atomic_table` that change no word.
//! - **"All receivers' seats" means: each is of this board, and they are as many as it has receivers.** A seat can't be
//!   copied, so none is missing. `Board::new` promises this of the row that it gives, and `holder` keeps it.
//! - **A receiver's seat keeps a row of flags beside what contracts know of it**, since `holder` needs at run time
//!   which modules it was answered `Mine` for. The type ties the two.
//! - **`new` asks for 1 to 8 receivers**, which is also why the count can't wrap; watchers are as many as one likes.
//!   `one_ended` asks that the seat hasn't told its end before.
//! - **`look` takes a receiver's seat, `ended` a watcher's**: no other part asks.
#![tactic(auto)]

mod board;
mod holds;
mod knowledge;
mod makes;
mod seats;

pub use board::Board;
pub use knowledge::{Knowledge, SeenWord};
pub use seats::{Change, Claim, Phase, ReceiverSeat, Seats, SequencerSeat, WatchSeat};
