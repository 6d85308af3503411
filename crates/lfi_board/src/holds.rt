//! Which receiver holds a module, asked with the seats of all receivers.

ghost use Rattle.std.specs.Prelude.{◌≡◌, ◌+◌, ◌<◌, ◌≤◌, [], length, drop};
ghost use Rattle.lfi_board.specs.inner.Plays.{Told};
ghost use Rattle.lfi_board.specs.Known.{board_id};
ghost use Rattle.lfi_board.specs.Rows.{AllOn, AllReceivers, AreSame, IsHolder, claims_at};
ghost use Rattle.lfi_board.specs.inner.Gathered.{claims_by, gathered};

use crate::board::Board;
use crate::knowledge::{Asks, First, Push, Sit, View, Whole};
use crate::seats::ReceiverSeat;
use atomic_table::Seat;
use lfi_module::{CONNECTIONS, ModuleNumber};

impl Board {
    // Loads the phase while `all` has what is known of the seats from `at` on too, and gives it back.
    fn ask(
        &self,
        all: &mut Seat<(), View>,
        seats: &mut [Option<ReceiverSeat>],
        at: usize,
        number: ModuleNumber,
    ) -> u64
        requires board { (all.old.table_id ≡ board_id self.now) × (all.old.me.1 ≡ []) × AllOn (board_id self.now) seats.old }
        requires within { at ≤ length seats.old }
        ensures same { (all.new.table_id ≡ all.old.table_id) × (all.new.me ≡ all.old.me) × AreSame seats.old seats.new }
        ensures told { Told (gathered (drop at seats.old) all.old.me.0) number result }
    {
        let top = &self.table.shared;
        if at == seats.len() {
            let place = number.index();
            return top.load::<Asks>(all, place);
        }
        match seats[at].take() {
            None => self.ask(all, seats, at + 1, number),
            Some(held) => {
                let mine = held.mine;
                let ReceiverSeat { mut seat, mine: _ } = held;
                let known = top.split_seat::<Whole>(&mut seat);
                top.join_seat::<Push>(all, known);
                let found = self.ask(all, seats, at + 1, number);
                let back = top.split_seat::<First>(all);
                top.join_seat::<Push>(&mut seat, back);
                seats[at] = Some(ReceiverSeat { seat, mine });
                found
            }
        }
    }

    /// The place of the seat that holds the module: the one, of the seats of all receivers, that was answered `Mine`
    /// for it. `None` where the module is free. All seats are as before.
    pub fn holder(
        &self,
        seats: &mut [Option<ReceiverSeat>; CONNECTIONS],
        number: ModuleNumber,
    ) -> Option<usize>
        requires all { AllReceivers self.now seats.old }
        ensures same { AreSame seats.old seats.new }
        ensures all { AllReceivers self.now seats.new }
        ensures holder { IsHolder number seats.old result }
    {
        let mut all = self.table.shared.load_new_seat::<Sit>(0).1;
        let found = self.ask(&mut all, seats, 0, number);
        if found == 0 {
            return None;
        }
        Some(place_of(seats, number))
    }
}

// The place of the seat that was answered `Mine` for the module.
fn place_of(seats: &[Option<ReceiverSeat>], number: ModuleNumber) -> usize
    requires one { claims_by number seats.now ≡ 1 }
    ensures { claims_at number seats.now result ≡ 1 }
{
    let at = number.index();
    for (i, place) in seats.iter().enumerate() {
        match place {
            None => {}
            Some(seat) => {
                if seat.mine[at] {
                    return i;
                }
            }
        }
    }
    unreachable!()
}
