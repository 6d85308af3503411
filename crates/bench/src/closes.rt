//! How long a receiver needs for a message that is passed over: `bench closes COUNT [ROUNDS]`. It is given COUNT Closes of a
//! module that wasn't opened, in pieces of 4,092 bytes; with a second word it prints the least time of one.

ghost use Rattle.std.specs.Prelude.{◌≡◌};
ghost use Rattle.lfi_board.specs.Known.{board_id, board_of};
ghost use Rattle.lfi_receive.specs.Receivers.{pass_of, seat_of};

use crate::faults::Fault;
use crate::times::nanos_since;
use lfi_board::Board;
use lfi_model::Item;
use lfi_queues::Intake;
use lfi_receive::Receiver;
use page_buf::PoolMember;
use std::alloc::Global;
use std::rt::Clock;
use std::time::Instant;

/// How many Closes a piece has.
const PIECE_CLOSES: usize = 341;

/// The bytes of a Close of module 0.
const CLOSE: [u8; 12] = [3, 0, 0, 0, 0, 0, 0, 0, 0, 0, 0, 0];

/// A piece of Closes.
fn piece_of_closes() -> [u8; 12 * PIECE_CLOSES] {
    let mut piece = [0; 12 * PIECE_CLOSES];
    for number in 0..PIECE_CLOSES {
        piece[12 * number..12 * number + 12].copy_from_slice(&CLOSE);
    }
    piece
}

/// Turns the receiver over a piece.
fn turn_over(board: &Board, intake: &Intake<Item>, receiver: &mut Receiver, piece: &[u8])
    requires part { (pass_of receiver.old).queue ≡ intake.now }
    requires board { board_of (seat_of receiver.old) ≡ board_id board.now }
    ensures part { (pass_of receiver.new).queue ≡ intake.now }
    ensures board { board_of (seat_of receiver.new) ≡ board_id board.now }
{
    let mut rest = piece;
    for _ in 0..PIECE_CLOSES {
        let (used, _) = receiver.turn(board, intake, rest);
        rest = &rest[used..];
    }
}

/// Turns the receiver over a piece, `times` times.
fn turn_often(
    board: &Board,
    intake: &Intake<Item>,
    receiver: &mut Receiver,
    piece: &[u8],
    times: u64,
)
    requires part { (pass_of receiver.old).queue ≡ intake.now }
    requires board { board_of (seat_of receiver.old) ≡ board_id board.now }
{
    for _ in 0..times {
        turn_over(board, intake, receiver, piece);
    }
}

/// The nanoseconds in which a new receiver is given `pieces` pieces, and the strays that it counted.
fn give<R: Clock>(rt: &R, alloc: Global, pieces: u64) -> Result<(u64, u64), Fault> {
    let piece = piece_of_closes();
    let (board, mut seats) = Board::new(alloc, 1, 1)?;
    let (intake, mut puts, _takes) = Intake::<Item>::new(alloc, 1, 1)?;
    let seat = seats.receivers[0].take().unwrap();
    let pool = PoolMember::new(alloc)?;
    let mut receiver = Receiver::new(alloc, puts.swap_remove(0), seat, pool);
    let start = Instant::now(rt)?;
    turn_often(&board, &intake, &mut receiver, &piece, pieces);
    Ok((nanos_since(rt, start)?, receiver.strays()))
}

/// Gives a receiver at least `closes` Closes, in `rounds` rounds. Prints how many it counted, and with rounds the least time.
pub(crate) fn run(rt: &HostRuntime, closes: u64, rounds: Option<u64>) -> Result<(), Fault> {
    let pieces = closes.div_ceil(PIECE_CLOSES as u64);
    let mut least = u64::MAX;
    let mut strays = 0;
    for _ in 0..rounds.unwrap_or(1) {
        let (nanos, counted) = give(rt, rt.alloc(), pieces)?;
        least = least.min(nanos);
        strays = counted;
    }
    println!(rt; "{strays} strays")?;
    if rounds.is_some() {
        println!(rt;
            "{} ns for 100 Closes",
            least.saturating_mul(100) / strays.max(1)
        )?;
    }
    Ok(())
}
