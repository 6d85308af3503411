//! Verifiers are taken to pieces.

ghost use Rattle.std.specs.Prelude.{◌≤◌, length};
ghost use Rattle.lfi_stage.specs.inner.Rows.{AreApart};

use crate::slots::{empty, set};
use lfi_model::{Item, Judged};
use lfi_module::CONNECTIONS;
use lfi_queues::{LanePut, TakePass};
use lfi_sequence::Verifier;

/// The pieces of verifiers, by the verifiers' numbers.
pub(crate) struct VerifierParts {
    /// Their passes of the intake.
    pub(crate) takes: [Option<TakePass<Item>>; CONNECTIONS],
    /// Their passes of the lanes, by the lanes' numbers.
    pub(crate) rows: [Option<Vec<LanePut<Judged>>>; CONNECTIONS],
    /// What is in their hands.
    pub(crate) hands: [Option<Judged>; CONNECTIONS],
}

/// Takes verifiers to pieces.
pub(crate) fn take_apart(mut verifiers: Vec<Verifier>) -> VerifierParts
    requires few { length verifiers.items ≤ 8 }
    ensures { AreApart verifiers.items result.takes result.rows result.hands }
{
    let mut takes = empty();
    let mut rows = empty();
    let mut hands = empty();
    while let Some(verifier) = verifiers.pop() {
        let number = verifiers.len();
        let (pass, lanes, hand) = verifier.into_parts();
        set(&mut takes[number], Some(pass));
        set(&mut rows[number], Some(lanes));
        set(&mut hands[number], hand);
    }
    VerifierParts { takes, rows, hands }
}
