//! What is in hands and in the intake goes to the modules' sequences.

ghost use Rattle.std.specs.Prelude.{◌≡◌, ℕ, ◌<◌, List, [], Some};
ghost use Rattle.lfi_model.specs.Item.{ItemView};
ghost use Rattle.lfi_queues.specs.Kept.{Kept, with_last};
ghost use Rattle.lfi_queues.specs.Passes.{AreAllPasses, items_at};
ghost use Rattle.lfi_stage.specs.Settled.{HaveHandled, SettlesBut, Settles};
ghost use Rattle.lfi_stage.specs.inner.Rows.{held_by, HasMore};
ghost use Rattle.lfi_sequence.specs.declared.sequence.Sequence.{Sequence};

use lfi_model::{Item, Judged};
use lfi_module::{CONNECTIONS, ModuleNumber};
use lfi_queues::{Intake, PutPass, TAKERS, TakePass};
use lfi_sequence::Sequence;

/// Brings an item to a sequence, where there is one.
fn handle_in(slot: &mut Option<Sequence>, item: Judged)
    ensures { (s : Sequence) → slot.old ≡ Some s → (after : Sequence) × (slot.new ≡ Some after) × HasMore s after item }
{
    match slot {
        Some(sequence) => sequence.handle(item),
        None => {}
    }
}

/// Brings an item to the sequence of its module.
fn carry(sequences: &mut [Option<Sequence>; ModuleNumber::COUNT], item: Judged)
    ensures { (taken : ℕ → List ItemView) → HaveHandled sequences.old taken → HaveHandled sequences.new (with_last taken item.«module» item) }
{
    let module = item.module.index();
    handle_in(&mut sequences[module], item);
}

/// Brings what is in hands to the sequences.
pub(crate) fn carry_hands(
    hands: &mut [Option<Judged>; CONNECTIONS],
    sequences: &mut [Option<Sequence>; ModuleNumber::COUNT],
)
    ensures { (takes : ℕ → List ItemView) → SettlesBut takes (held_by hands.old) sequences.old → Settles takes sequences.new }
{
    for number in 0..CONNECTIONS {
        match hands[number].take() {
            Some(held) => carry(sequences, held),
            None => {}
        }
    }
}

/// Brings all that is left in the intake to the sequences: the first taker takes it.
pub(crate) fn drain_intake(
    intake: &Intake<Item>,
    puts: &mut [Option<PutPass<Item>>],
    takes: &mut [Option<TakePass<Item>>; TAKERS],
    sequences: &mut [Option<Sequence>; ModuleNumber::COUNT],
)
    requires takers { 0 < intake.now.takers }
    requires puts { AreAllPasses intake.now intake.now.putters puts.old }
    requires takes { AreAllPasses intake.now intake.now.takers takes.old }
    ensures puts { puts.new ≡ puts.old }
    ensures kept { Kept (items_at puts.old) (items_at takes.new) [] }
    ensures settles { Settles (items_at takes.old) sequences.old → Settles (items_at takes.new) sequences.new }
{
    while let Some(item) = intake.rest(puts, takes) {
        carry(sequences, item.judge());
    }
}
