//! What holds of every run of lawful code.

ghost use Rattle.std.specs.Prelude.{ℕ};
ghost use Rattle.lfi_image.specs.Image.{Image, IsImage};
ghost use Rattle.lfi_confinement.specs.Slots.{base};
ghost use Rattle.lfi_confinement.specs.Lawful.{Held};
ghost use Rattle.lfi_confinement.specs.Moves.{State};
ghost use Rattle.lfi_confinement.specs.Runs.{Running, Reach, NeverEscapes};
ghost use Rattle.lfi_confinement.specs.Loop.{loop_image, StartsLoop};

/// From lawful registers an image never escapes, in any number of steps and whatever the runtime answers: it accesses no
/// byte outside of its slot and guards, leaves its slot by calls of the runtime alone, and carries out no word but its own.
pub fn never_escapes()
    ensures { (image : Image) (s : State) → IsImage image → Held (base image) s.registers → NeverEscapes image s }
{}

/// Some lawful code runs on, for any number of steps: a loop that stores, loads, calls and returns. It can be started.
pub fn lawful_code_runs_on()
    ensures lawful { IsImage loop_image }
    ensures starts { (s : State) × StartsLoop s }
    ensures runs { (s : State) (count : ℕ) → StartsLoop s → (t : State) × Reach loop_image s count (Running t) }
{}
