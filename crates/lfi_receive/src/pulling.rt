//! A receiver's turn over the input of its connection.

ghost use Rattle.std.specs.Prelude.{◌≡◌, ℕ, List, ◌↔◌, None, IsSome, true, if◌then◌else◌};
ghost use Rattle.lfi_board.specs.Known.{board_id, board_of, known_by};
ghost use Rattle.lfi_receive.specs.Turns.{PutsAsTold, CountsAsTold, is_finished};
ghost use Rattle.lfi_receive.specs.Receivers.{pass_of, seat_of, cause_of, hand_of, strays_at, StandsFor, IsFinished, AfterEnd};
ghost use Rattle.lfi_receive.specs.Inputs.{left_of, has_failed};
ghost use Rattle.lfi_receive.specs.Pulls.{FailsAs, IsPulled};
ghost use Rattle.lfi_receive.specs.inner.Fills.{EndsBy};
ghost use Rattle.lfi_receive.specs.declared.receiver.ReceiverTurn.TheVariants as turn;

use crate::input::{Filled, Input};
use crate::receiver::{Receiver, ReceiverTurn};
use lfi_board::Board;
use lfi_model::{EndCause, Item};
use lfi_queues::Intake;
use std::io::Read;

impl Receiver {
    /// Tells the end of the input, or that a read of it failed, where that is what came of a look for bytes.
    fn end_at(&mut self, filled: Filled)
        requires { cause_of self.old ≡ None }
        ensures { EndsBy filled self.old self.new }
    {
        match filled {
            Filled::Bytes => {}
            Filled::End => self.end_by(EndCause::End),
            Filled::Failed => self.end_by(EndCause::Failed),
        }
    }

    /// One turn over the input: `turn` over at most 4,096 bytes that were read before, with one
    /// read where none are left. A read of no bytes is the end of the input, and any read that
    /// fails, however, is the fault ReadFailed. With an item in hand, or once the input is over,
    /// nothing is read.
    pub fn pull<R: Read + Drop>(
        &mut self,
        board: &Board,
        intake: &Intake<Item>,
        input: &mut Input<R>,
    ) -> ReceiverTurn
        requires part { (pass_of self.old).queue ≡ intake.now }
        requires board { board_of (seat_of self.old) ≡ board_id board.now }
        ensures pulled { IsPulled self.old self.new (left_of R.remaining input.old) (left_of R.remaining input.new) }
        ensures failure { (bytes : List ℕ) → StandsFor self.old bytes → cause_of self.old ≡ None → FailsAs (cause_of self.new) (has_failed input.old) (has_failed input.new) }
        ensures held { IsSome (hand_of self.old) → input.new ≡ input.old }
        ensures unread { IsSome (cause_of self.old) → input.new ≡ input.old }
        ensures puts { PutsAsTold result (pass_of self.old) (pass_of self.new) }
        ensures strays { CountsAsTold result (strays_at self.old) (strays_at self.new) }
        ensures hand { IsSome (hand_of self.new) ↔ (result ≡ turn.Blocked) }
        ensures finished { result ≡ turn.Finished → IsFinished self.new }
        ensures ended { IsSome (cause_of self.old) → AfterEnd self.old self.new 0 result }
        ensures over { IsSome (cause_of self.old) → (bytes : List ℕ) → StandsFor self.old bytes → StandsFor self.new bytes }
        ensures told { (known_by (seat_of self.new)).ended ≡ (if is_finished result then true else (known_by (seat_of self.old)).ended) }
        ensures board { board_of (seat_of self.new) ≡ board_of (seat_of self.old) }
    {
        if self.needs_no_bytes() {
            let (_, did) = self.turn(board, intake, &[]);
            return did;
        }
        self.end_at(input.fill());
        let (used, did) = self.turn(board, intake, input.piece());
        input.use_up(used);
        did
    }
}
