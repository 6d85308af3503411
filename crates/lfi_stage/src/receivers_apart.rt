//! Receivers are taken to pieces.

ghost use Rattle.std.specs.Prelude.{◌≤◌, length};
ghost use Rattle.lfi_stage.specs.inner.Apart.{AreApart};

use crate::slots::{empty, set};
use lfi_board::ReceiverSeat;
use lfi_model::Item;
use lfi_module::CONNECTIONS;
use lfi_queues::PutPass;
use lfi_receive::Receiver;

/// The passes and the seats of receivers, by the receivers' numbers.
pub(crate) struct ReceiverParts {
    pub(crate) puts: [Option<PutPass<Item>>; CONNECTIONS],
    pub(crate) seats: [Option<ReceiverSeat>; CONNECTIONS],
}

/// Takes receivers to pieces.
pub(crate) fn take_apart(mut receivers: Vec<Receiver>) -> ReceiverParts
    requires few { length receivers.items ≤ 8 }
    ensures { AreApart receivers.items result.puts result.seats }
{
    let mut puts = empty();
    let mut seats = empty();
    while let Some(receiver) = receivers.pop() {
        let number = receivers.len();
        let (pass, seat) = receiver.into_parts();
        set(&mut puts[number], Some(pass));
        set(&mut seats[number], Some(seat));
    }
    ReceiverParts { puts, seats }
}
