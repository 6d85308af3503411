//! What a seat knows of the board, the rule that the board keeps, and what each step tells its seat. All of it is known
//! to contracts alone.

ghost use Rattle.lfi_board.specs.Knowledge.{receiver_knowledge};
ghost use Rattle.lfi_board.specs.inner.Rule.{Kept, rest_of, first_of};
ghost use Rattle.lfi_board.specs.inner.Plays.{sat, claimed, changed, looked, ended, asked};
ghost use Rattle.std.specs.Prelude.{[], ◌++◌, replicate};

use atomic_table::{Join, Play, Split, TableRule};
use std::collections::LinkedList;

/// A word of the board was seen to hold a number. Words 0 to 15 are the modules' phases, and word 16 counts the
/// receivers that have ended.
pub struct SeenWord {
    pub word: u64,
    pub number: u64,
}

/// What a seat knows. No value of it is made.
pub struct Knowledge {
    /// How many receivers its board has.
    pub receivers: u64,
    /// It is a receiver's.
    pub is_receiver: bool,
    /// The modules for which it was answered `Mine`, the last first.
    pub claimed: LinkedList<u64>,
    /// It has told its end.
    pub ended: bool,
    /// What it has seen, the last first.
    pub seen: LinkedList<SeenWord>,
}

/// What a seat knows. While the holder of a module is sought, one seat knows what others know too.
pub(crate) type View = LinkedList<Knowledge>;

pub struct Phases;

impl TableRule<(), LinkedList<Knowledge>, u64> for Phases {
    ghost holds = { Kept };

    ghost first = { λ n. replicate n (receiver_knowledge n) };
}

pub(crate) struct Sit;

impl Play<(), LinkedList<Knowledge>> for Sit {
    ghost then = { sat };
}

pub(crate) struct Claims;

impl Play<(), LinkedList<Knowledge>> for Claims {
    ghost then = { claimed };
}

pub(crate) struct Changes;

impl Play<(), LinkedList<Knowledge>> for Changes {
    ghost then = { changed };
}

pub(crate) struct Looks;

impl Play<(), LinkedList<Knowledge>> for Looks {
    ghost then = { looked };
}

pub(crate) struct Ends;

impl Play<(), LinkedList<Knowledge>> for Ends {
    ghost then = { ended };
}

pub(crate) struct Asks;

impl Play<(), LinkedList<Knowledge>> for Asks {
    ghost then = { asked };
}

/// The whole view goes to the new seat.
pub(crate) struct Whole;

impl Split<LinkedList<Knowledge>> for Whole {
    ghost left = { λ _. [] };

    ghost right = { λ v. v };
}

/// The first goes to the new seat.
pub(crate) struct First;

impl Split<LinkedList<Knowledge>> for First {
    ghost left = { rest_of };

    ghost right = { first_of };
}

/// What the other seat knows comes first.
pub(crate) struct Push;

impl Join<LinkedList<Knowledge>> for Push {
    ghost both = { λ v w. w ++ v };

    ghost spent = { [] };
}
