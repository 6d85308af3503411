//! What serves the calls of the code.

use crate::slot::SlotMemory;
use a64_semantics::Registers;

/// What a runtime answers to a call.
#[derive(Clone, Copy)]
pub enum Answer {
    /// Go on with these registers.
    Resume(Registers),
    /// End the run, with a status.
    End(u8),
}

/// What serves the calls of the code.
pub trait Runtime {
    ghost use Rattle.lfi_rules.specs.Map.{entry_count};
    ghost use Rattle.std.specs.Prelude.{◌≡◌, ℕ, ◌<◌};
    ghost use Rattle.a64_semantics.specs.declared.registers.Registers.{Registers};
    ghost use Rattle.lfi_machine.specs.Owned.{Owned};
    ghost use Rattle.lfi_machine.specs.declared.runtime.Answer.{Answer};

    /// From what it holds, the entry, the registers and the memory, to its answer, what it then holds and the memory.
    ghost answers: { Self → ℕ → Registers → Owned → Answer → Self → Owned → Type 0 };

    /// Serves a call of an entry, 0 to 511. The registers are those at the call, with x30 and pc both the address of the word
    /// after it. It may write bytes, where they may be written, and no code.
    fn call(&mut self, entry: u32, registers: &Registers, slot: &mut SlotMemory) -> Answer
        requires { entry < entry_count }
        ensures answer { answers self.old entry registers.now slot.old result self.new slot.new }
        ensures image { slot.new.image ≡ slot.old.image };
}
