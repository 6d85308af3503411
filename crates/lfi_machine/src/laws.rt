//! What holds of runs with a runtime.

ghost use Rattle.std.specs.Prelude.{◌≡◌, ℕ, ◌+◌, length, None};
ghost use Rattle.a64_semantics.specs.declared.registers.Registers.{Registers};
ghost use Rattle.lfi_confinement.specs.declared.cause.StopCause.{StopCause};
ghost use Rattle.lfi_confinement.specs.Lawful.{Held};
ghost use Rattle.lfi_confinement.specs.Runs.{Reach, Running, Stopped};
ghost use Rattle.lfi_machine.specs.declared.halt.Halt.TheVariants as halt;
ghost use Rattle.lfi_machine.specs.Runs.{Config, Ran, RanThenHalts, state};
ghost use Rattle.lfi_machine.specs.Starts.{refusal_of};

use crate::runtime::Runtime;

/// Each run with a runtime is one of the runs that confinement speaks of: with any runtime, over the same code throughout. Where
/// the machine stops, such a run stops with the next step, for the same cause; where all steps were used or memory was refused,
/// it could go on.
pub fn ran_is_reached<R: Runtime>()
    ensures goes_on { (c d : Config) (h k : R) (count : ℕ) → Ran R.answers c h count d k
        → Reach c.owned.image (state c) count (Running (state d)) }
    ensures stops { (c d : Config) (h k : R) (count : ℕ) (cause : StopCause) → RanThenHalts R.answers c h (halt.Stopped cause) count d k
        → Reach c.owned.image (state c) (count + 1) (Stopped cause) }
    ensures steps_used { (c d : Config) (h k : R) (count : ℕ) → RanThenHalts R.answers c h halt.StepsUsed count d k
        → Reach c.owned.image (state c) count (Running (state d)) }
    ensures no_memory { (c d : Config) (h k : R) (count : ℕ) → RanThenHalts R.answers c h halt.NoMemory count d k
        → Reach c.owned.image (state c) count (Running (state d)) }
{}

/// The registers that a new machine takes are the lawful ones of which confinement speaks: no reason refuses them.
pub fn held_is_not_refused()
    ensures held { (from : ℕ) (r : Registers) → length r.x ≡ 31 → refusal_of from r ≡ None → Held from r }
    ensures not_refused { (from : ℕ) (r : Registers) → Held from r → refusal_of from r ≡ None }
{}
