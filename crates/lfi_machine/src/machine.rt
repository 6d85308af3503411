//! Machines, and their runs.

ghost use Rattle.std.specs.Prelude.{◌≡◌, ◌<◌, ◌≤◌, ◌↔◌, ◌⊎◌, ℕ, IfOk, IfErr, OnOk, OnErr, None, Some};
ghost use Rattle.lfi_image.specs.Image.{IsImage};
ghost use Rattle.sparse_memory.specs.Kept.{byte_at, KeepsNone};
ghost use Rattle.lfi_confinement.specs.Slots.{base};
ghost use Rattle.lfi_confinement.specs.Lawful.{Held};
ghost use Rattle.lfi_machine.specs.Starts.{refusal_of};
ghost use Rattle.lfi_machine.specs.Runs.{Steps, IsConfined, RanThenHalts};
ghost use Rattle.lfi_machine.specs.inner.Rows.{RanRow};

use crate::halt::Halt;
use crate::runtime::Runtime;
use crate::slot::SlotMemory;
use crate::start::{StartFault, refusal};
use crate::step::{step_on, steps_on};
use a64_semantics::Registers;
use a64_word::Instruction;
use lfi_image::CompleteImage;
use std::alloc::Global;
use std::marker::Model;

/// A machine: an image in its slot, the bytes that were written, and registers from which no run escapes. Its words are
/// decoded as far as a run has come, at places that are reserved for all of them.
///
/// A contract sees it as its registers, its image and its bytes.
#[derive(Drop)]
pub struct Machine {
    slot: SlotMemory,
    instructions: Vec<Instruction>,
    registers: Registers,
}

impl Model for Machine {
    ghost use Rattle.std.specs.Prelude.{◌≤◌, length, vec_capacity};
    ghost use Rattle.lfi_image.specs.Image.{IsImage};
    ghost use Rattle.lfi_confinement.specs.inner.Invariant.{IsSafe};
    ghost use Rattle.lfi_machine.specs.Runs.{Config};
    ghost use Rattle.lfi_machine.specs.inner.Decoded.{AreDecoded};

    ghost Value = { Config };

    ghost view = { λ m. record { registers = m.registers; owned = m.slot } };

    ghost invariant = { λ m. IsImage m.slot.image × IsSafe m.slot.image m.registers × AreDecoded m.slot.image.profile m.instructions.items m.slot.image.words × (length m.slot.image.words ≤ vec_capacity m.instructions) };
}

impl Machine {
    /// A machine of an image at these registers. Nothing is written yet.
    ///
    /// # Errors
    ///
    /// Registers that aren't lawful are refused, for the first reason in the order of [`StartFault`]; then memory may be.
    pub fn new(
        alloc: Global,
        image: CompleteImage,
        registers: Registers,
    ) -> Result<Machine, StartFault>
        ensures registers { IfOk result (λ m. m.registers ≡ registers) }
        ensures image { IfOk result (λ m. m.owned.image ≡ image) }
        ensures zero { IfOk result (λ m. (offset : ℕ) → byte_at m.owned.kept offset ≡ 0) }
        ensures unkept { IfOk result (λ m. KeepsNone m.owned.kept) }
        ensures held { IfOk result (λ m. Held (base image) registers) }
        ensures confined { IfOk result IsConfined }
        ensures refused { IfErr result (λ fault. (refusal_of (base image) registers ≡ Some fault)
            ⊎ ((fault ≡ StartFault.NoMemory) × (refusal_of (base image) registers ≡ None))) }
    {
        if let Some(fault) = refusal(image.slot().base(), &registers) {
            return Err(fault);
        }
        let count = image.words().number();
        let Ok(instructions) = Vec::with_capacity(alloc, count as usize) else {
            return Err(StartFault::NoMemory);
        };
        match SlotMemory::new(alloc, image) {
            Ok(slot) => Ok(Machine {
                slot,
                instructions,
                registers,
            }),
            Err(_) => Err(StartFault::NoMemory),
        }
    }

    /// The registers.
    pub fn registers(&self) -> &Registers
        ensures { result.now ≡ self.now.registers }
    {
        &self.registers
    }

    /// The memory.
    pub fn slot(&self) -> &SlotMemory
        ensures { result.now ≡ self.now.owned }
    {
        &self.slot
    }

    /// One step. A call of the runtime is one step together with its answer.
    ///
    /// # Errors
    ///
    /// Why the machine stopped. The registers are then those before the step, and the image stays.
    pub fn step<R: Runtime>(&mut self, runtime: &mut R) -> Result<(), Halt>
        ensures steps { Steps R.answers self.old runtime.old self.new runtime.new result }
        ensures image { self.new.owned.image ≡ self.old.owned.image }
        ensures confined { IsConfined self.new }
    {
        step_on(
            &mut self.slot,
            &mut self.instructions,
            &mut self.registers,
            runtime,
        )
    }

    /// At least one step and at most `most`, or a halt: words that follow one another, as far as the first branch.
    #[inline(always)]
    fn steps<R: Runtime>(&mut self, most: u64, runtime: &mut R) -> (Result<(), Halt>, u64)
        requires { 1 ≤ most }
        ensures ran { RanRow R.answers self.old runtime.old result.0 result.1 self.new runtime.new }
        ensures image { self.new.owned.image ≡ self.old.owned.image }
        ensures some { OnOk result.0 (1 ≤ result.1) }
        ensures most { result.1 ≤ most }
        ensures few { OnErr result.0 (result.1 < most) }
        ensures confined { IsConfined self.new }
    {
        steps_on(
            &mut self.slot,
            &mut self.instructions,
            &mut self.registers,
            most,
            runtime,
        )
    }

    /// `steps` steps, or until one is halted: why it ends, and how many were carried out.
    ///
    /// ```
    /// let registers = start_registers(&image);
    /// let mut machine = Machine::new(alloc, image, registers)?;
    /// let (halt, steps) = machine.run(1_000_000, &mut runtime);
    /// match halt {
    ///     Halt::StepsUsed => go_on(machine),   // the next run begins where this one ended
    ///     _ => tell(halt.number(), steps),
    /// }
    /// ```
    pub fn run<R: Runtime>(&mut self, steps: u64, runtime: &mut R) -> (Halt, u64)
        ensures within { result.1 ≤ steps }
        ensures used { (result.0 ≡ Halt.StepsUsed) ↔ (result.1 ≡ steps) }
        ensures ran { RanThenHalts R.answers self.old runtime.old result.0 result.1 self.new runtime.new }
        ensures image { self.new.owned.image ≡ self.old.owned.image }
        ensures confined { IsConfined self.new }
    {
        let mut count = 0;
        while count < steps {
            let (result, done) = self.steps(steps - count, runtime);
            count += done;
            if let Err(halt) = result {
                return (halt, count);
            }
        }
        // What the type keeps is read here, for the clause `confined`.
        let _ = &self.slot;
        (Halt::StepsUsed, steps)
    }
}
