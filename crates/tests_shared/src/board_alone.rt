//! The board by itself, on one thread.

ghost use Rattle.lfi_board.specs.Known.{board_id};
ghost use Rattle.lfi_board.specs.Rows.{NewReceivers, IsNewReceiver};

use lfi_board::{Board, Change, Claim, Phase, ReceiverSeat, SequencerSeat, WatchSeat};
use lfi_module::ModuleNumber;
use std::process::Abort;

fn needs_send<T: Send>() {}

fn needs_sync<T: Sync>() {}

/// That threads can share a board and be given seats: where they can't, this doesn't compile.
fn boards_are_shared_and_seats_move() {
    needs_sync::<Board>();
    needs_send::<Board>();
    needs_send::<ReceiverSeat>();
    needs_send::<SequencerSeat>();
    needs_send::<WatchSeat>();
}

/// The seats of a new board's two receivers.
fn both(
    rt: &impl Abort,
    board: &Board,
    mut row: [Option<ReceiverSeat>; 8],
) -> (ReceiverSeat, ReceiverSeat)
    requires { NewReceivers (board_id board.now) 2 2 row }
    ensures { IsNewReceiver (board_id board.now) 2 result.0 × IsNewReceiver (board_id board.now) 2 result.1 }
{
    let _ = board;
    let first = row[0].take().expect(rt, "no first seat");
    let second = row[1].take().expect(rt, "no second seat");
    (first, second)
}

#[test]
fn a_module_has_one_claim_and_one_end(rt: HostRuntime) {
    boards_are_shared_and_seats_move();
    let (board, seats) = Board::new(rt.alloc(), 2, 1).expect(&rt, "no board");
    let (mut first, mut second) = both(&rt, &board, seats.receivers);
    let mut sequencers = seats.sequencers;
    let three = ModuleNumber::at(3);
    let claims = [
        board.claim(&mut first, three),
        board.claim(&mut second, three),
    ];
    let sequencer = &mut sequencers[3];
    let changes = [board.refuse(sequencer), board.finish(sequencer)];
    let phase = board.look(&mut second, three);
    assert!(rt; claims == [Claim::Mine, Claim::Taken]);
    assert!(rt; changes == [Change::Made, Change::WasEnded] && phase == Phase::Refused);
}

#[test]
fn ends_are_counted(rt: HostRuntime) {
    let (board, seats) = Board::new(rt.alloc(), 2, 1).expect(&rt, "no board");
    let (_, mut second) = both(&rt, &board, seats.receivers);
    let mut sequencers = seats.sequencers;
    let mut watchers = seats.watchers;
    let change = board.refuse(&mut sequencers[4]);
    let watcher = &mut watchers[0];
    let before = board.ended(watcher);
    let told = board.one_ended(&mut second);
    let after = board.ended(watcher);
    assert!(rt; change == Change::WasFree && [before, told, after] == [0, 0, 1]);
}

#[test]
fn the_holder_is_who_claimed(rt: HostRuntime) {
    let (board, seats) = Board::new(rt.alloc(), 2, 0).expect(&rt, "no board");
    let (mut first, mut second) = both(&rt, &board, seats.receivers);
    let three = ModuleNumber::at(3);
    let claims = [
        board.claim(&mut first, three),
        board.claim(&mut second, three),
    ];
    let mut row = [
        Some(first),
        None,
        None,
        Some(second),
        None,
        None,
        None,
        None,
    ];
    let holder = board.holder(&mut row, three);
    let none = board.holder(&mut row, ModuleNumber::at(4));
    assert!(rt; claims == [Claim::Mine, Claim::Taken]);
    assert!(rt; holder == Some(0) && none.is_none());
}
