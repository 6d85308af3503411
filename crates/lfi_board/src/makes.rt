//! A new board with all its seats.

ghost use Rattle.std.specs.Prelude.{◌≡◌, ◌+◌, ◌<◌, ◌≤◌, [], ◌∷◌, IfOk, All, vec_len, replicate};
ghost use Rattle.lfi_module.specs.Numbers.{module_count};
ghost use Rattle.lfi_board.specs.Knowledge.{receiver_knowledge, knowledge_of};
ghost use Rattle.lfi_board.specs.Known.{board_id, board_receivers};
ghost use Rattle.lfi_board.specs.Rows.{AllReceivers, NewReceivers, NewSequencers, IsNewWatcher};

use crate::board::Board;
use crate::knowledge::{First, Knowledge, Phases, Sit, View};
use crate::seats::{ReceiverSeat, Seats, SequencerSeat, WatchSeat};
use atomic_table::{Seat, Shared, Table};
use lfi_module::{CONNECTIONS, ModuleNumber};
use std::alloc::{AllocError, Global};
use std::array;
use std::collections::LinkedList;

type Top = Shared<(), LinkedList<Knowledge>, u64, Phases>;

fn receiver(seat: Seat<(), View>) -> ReceiverSeat
    requires { seat.me ≡ (receiver_knowledge (knowledge_of seat.me.0).receivers ∷ [], []) }
    ensures { result.seat ≡ seat }
{
    ReceiverSeat {
        seat,
        mine: [false; ModuleNumber::COUNT],
    }
}

// The seats of `count` receivers, of which `first` knows what all know.
fn receiver_seats(
    top: &Top,
    mut first: Seat<(), View>,
    count: usize,
) -> [Option<ReceiverSeat>; CONNECTIONS]
    requires first { (first.table_id ≡ top.now.table_id) × (0 < top.now.table_id.words) × (first.me ≡ (replicate count (receiver_knowledge top.now.key), [])) }
    requires few { count ≤ 8 }
    ensures { NewReceivers top.now.table_id top.now.key count result }
{
    let mut seats = array::from_fn(|_| None);
    for place in 0..count {
        let seat = top.split_seat::<First>(&mut first);
        seats[place] = Some(receiver(seat));
    }
    seats
}

fn sequencer_seats(alloc: Global, top: &Top) -> Result<Vec<SequencerSeat>, AllocError>
    requires { 0 < top.now.table_id.words }
    ensures { IfOk result (λ v. (vec_len v ≡ module_count) × NewSequencers top.now.table_id top.now.key 0 v.items) }
{
    let mut seats = Vec::with_capacity(alloc, ModuleNumber::COUNT)?;
    for number in 0..ModuleNumber::COUNT {
        let seat = top.load_new_seat::<Sit>(0).1;
        let of = ModuleNumber::at(number);
        seats.push(SequencerSeat { seat, of })?;
    }
    Ok(seats)
}

fn watcher_seats(alloc: Global, top: &Top, count: usize) -> Result<Vec<WatchSeat>, AllocError>
    requires { 0 < top.now.table_id.words }
    ensures { IfOk result (λ v. (vec_len v ≡ count) × All (IsNewWatcher top.now.table_id top.now.key) v.items) }
{
    let mut seats = Vec::with_capacity(alloc, count)?;
    for _ in 0..count {
        let seat = top.load_new_seat::<Sit>(0).1;
        seats.push(WatchSeat { seat })?;
    }
    Ok(seats)
}

impl Board {
    /// A board on which every module is free, and all its seats: of 1 to 8 receivers, of the sixteen modules, and of so
    /// many watchers. This is its only call that takes memory.
    ///
    /// # Errors
    ///
    /// Where that memory is refused; nothing is left behind then.
    pub fn new(
        alloc: Global,
        receivers: usize,
        watchers: usize,
    ) -> Result<(Board, Seats), AllocError>
        requires { (1 ≤ receivers) × (receivers ≤ 8) }
        ensures board { IfOk result (λ r. board_receivers r.0 ≡ receivers) }
        ensures all { IfOk result (λ r. AllReceivers r.0 r.1.receivers) }
        ensures receivers { IfOk result (λ r. NewReceivers (board_id r.0) receivers receivers r.1.receivers) }
        ensures sequencers { IfOk result (λ r. (vec_len r.1.sequencers ≡ module_count) × NewSequencers (board_id r.0) receivers 0 r.1.sequencers.items) }
        ensures watchers { IfOk result (λ r. (vec_len r.1.watchers ≡ watchers) × All (IsNewWatcher (board_id r.0) receivers) r.1.watchers.items) }
    {
        let (table, first) = Table::of_words(alloc, &[0; 17], &(receivers as u64))?;
        let board = Board { table };
        let top = &board.table.shared;
        let seats = Seats {
            receivers: receiver_seats(top, first, receivers),
            sequencers: sequencer_seats(alloc, top)?,
            watchers: watcher_seats(alloc, top, watchers)?,
        };
        Ok((board, seats))
    }
}
