//! The board on several threads. What is compared is the same in every schedule.

ghost use Rattle.std.specs.Prelude.{◌≡◌, ◌≤◌};
ghost use Rattle.lfi_board.specs.Known.{board_id, board_of};
ghost use Rattle.lfi_board.specs.Rows.{AllOn};

use lfi_board::{Board, Claim, ReceiverSeat};
use lfi_module::ModuleNumber;
use std::alloc::{AllocError, Global};
use std::process::Abort;
use std::sync::Wait;
use std::thread;
use std::thread::{Scope, Threads};

/// The modules that a seat was answered Mine for, by their numbers.
type Mine = [bool; ModuleNumber::COUNT];

/// Claims all modules, from one on and round: which of them were the seat's.
fn claim_all(board: &Board, mut seat: ReceiverSeat, from: usize) -> Mine
    requires seat { board_of seat ≡ board_id board.now }
    requires from { from ≤ 16 }
{
    let mut mine = [false; ModuleNumber::COUNT];
    for step in 0..ModuleNumber::COUNT {
        let module = ModuleNumber::at((from + step) % ModuleNumber::COUNT);
        mine[module.index()] = board.claim(&mut seat, module) == Claim::Mine;
    }
    mine
}

/// Counts a module more for each that was a seat's.
fn count_mine(counts: &mut [u32; ModuleNumber::COUNT], mine: Mine) {
    for module in 0..ModuleNumber::COUNT {
        counts[module] = counts[module].saturating_add(u32::from(mine[module]));
    }
}

/// A thread for each seat of a row that claims all modules: each begins at another one. Once all are
/// joined, it is counted how often each module was answered Mine.
fn count_claims<'s, 'e, R: Threads + Abort>(
    scope: &Scope<'s, &'e ()>,
    rt: &R,
    board: &'e Board,
    seats: &mut [Option<ReceiverSeat>],
    from: usize,
    counts: &mut [u32; ModuleNumber::COUNT],
)
    requires seats { AllOn (board_id board.now) seats.old }
    requires from { from ≤ 16 }
{
    let Some((slot, later)) = seats.split_first_mut() else {
        return;
    };
    let Some(seat) = slot.take() else {
        return;
    };
    let Ok(thread) = scope.spawn(
        move || -> Mine
            requires { (board_of seat ≡ board_id board.now) × (from ≤ 16) }
        { claim_all(board, seat, from) },
    ) else {
        panic!(rt; "no thread")
    };
    count_claims(
        scope,
        rt,
        board,
        later,
        (from + 5) % ModuleNumber::COUNT,
        counts,
    );
    count_mine(counts, thread.join(rt));
}

/// Eight seats that claim sixteen modules at once: how often each module was answered Mine.
#[tactic(auto, using(crate::proofs::Seats::new_on))]
fn claim_at_once<R: Threads + Wait + Sync + Abort>(
    rt: &R,
    alloc: Global,
) -> Result<[u32; ModuleNumber::COUNT], AllocError> {
    let (board, seats) = Board::new(alloc, 8, 1)?;
    let board = &board;
    let mut receivers = seats.receivers;
    Ok(thread::scope(
        thread::scope_env(),
        rt,
        move |scope| -> [u32; ModuleNumber::COUNT]
            requires { AllOn (board_id board.now) receivers }
        {
            let mut counts = [0u32; ModuleNumber::COUNT];
            count_claims(scope, rt, board, &mut receivers, 0, &mut counts);
            counts
        },
    ))
}

#[test]
fn each_module_is_claimed_once(rt: HostRuntime) {
    for _ in 0..50u64 {
        assert!(rt; claim_at_once(&rt, rt.alloc()) == Ok([1u32; ModuleNumber::COUNT]));
    }
}
