//! Why a run stops.

ghost use Rattle.std.specs.Prelude.{◌≡◌};
ghost use Rattle.lfi_machine.specs.Halting.{halt_number};

use lfi_confinement::StopCause;

/// Why a run stops.
#[derive(Clone, Copy, PartialEq, Eq)]
pub enum Halt {
    /// The machine stops.
    Stopped(StopCause),
    /// All steps were used.
    StepsUsed,
    /// Memory was refused for a byte that is written.
    NoMemory,
}

impl Halt {
    /// The halt's number, 1 to 7, which is printed.
    pub fn number(self) -> u8
        ensures { result ≡ halt_number self }
    {
        match self {
            Halt::StepsUsed => 1,
            Halt::Stopped(StopCause::NoAccess(_)) => 2,
            Halt::Stopped(StopCause::NoFetch(_)) => 3,
            Halt::Stopped(StopCause::Breakpoint(_)) => 4,
            Halt::Stopped(StopCause::Ended(_)) => 5,
            Halt::Stopped(StopCause::UnlawfulAnswer) => 6,
            Halt::NoMemory => 7,
        }
    }
}
