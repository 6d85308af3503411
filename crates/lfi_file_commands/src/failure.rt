//! Why the program fails.

ghost use Rattle.std.specs.Prelude.{◌≡◌, [], ◌∷◌, ◌++◌, Some, false, IsTrue, codes};
ghost use Rattle.std.specs.IoError.{error_kind};
ghost use Rattle.lfi_file_commands.specs.Causes.{cause_of};
ghost use Rattle.lfi_file_commands.specs.Failures.{failure_line, failure_of_load, failure_text, fault_of_read, is_of_a_write, is_of_output, target_text, FailsOn, IsOfReading, TellsOf};

use crate::checking::CommandFault;
use crate::device_cause::DeviceCause;
use lfi_sync::LoadError;
use std::alloc::AllocError;
use std::error::Error;
use std::{fmt, io};

/// What can't be written.
#[derive(Debug, Drop)]
pub enum Target {
    /// The standard output.
    StandardOutput,
    /// The file at this path.
    File(String),
}

/// Why a command could not be carried out.
#[derive(Debug, Drop)]
pub enum Failure<'a> {
    /// The file at this path can't be read.
    CannotRead(&'a str, DeviceCause),
    /// This can't be written.
    CannotWrite(Target, DeviceCause),
    /// It can't be listened at this path of a socket.
    CannotListen(&'a str, DeviceCause),
    /// There was no memory.
    NoMemory,
    /// A thread can't be started. It is told by the line that tells of memory.
    NoThread,
}

impl fmt::Display for Target {
    ghost output = { λ target. Some (target_text target) };

    fn fmt<W: fmt::Write>(&self, f: &mut fmt::Formatter<W>) -> fmt::Result {
        match self {
            Target::StandardOutput => write!(f, "standard output"),
            Target::File(path) => write!(f, "{path}"),
        }
    }
}

impl fmt::Display for Failure<'_> {
    ghost output = { λ failure. Some (failure_text failure) };

    fn fmt<W: fmt::Write>(&self, f: &mut fmt::Formatter<W>) -> fmt::Result {
        match self {
            Failure::CannotRead(path, cause) => write!(f, "cannot read {path}{cause}"),
            Failure::CannotWrite(target, cause) => write!(f, "cannot write {target}{cause}"),
            Failure::CannotListen(path, DeviceCause::Other) => {
                write!(f, "cannot listen\n  {path}")
            }
            Failure::CannotListen(path, cause) => {
                write!(f, "cannot listen\n  {path}: {}", cause.text())
            }
            Failure::NoMemory | Failure::NoThread => write!(f, "no memory"),
        }
    }
}

impl<'a> From<AllocError> for Failure<'a> {
    ghost use Rattle.std.specs.Prelude.{◌≡◌};
    ghost use Rattle.lfi_file_commands.specs.declared.failure.Failure.TheVariants.{NoMemory};

    ghost from_gives = { λ _ failure. failure ≡ NoMemory };

    fn from(_error: AllocError) -> Failure<'a> {
        Failure::NoMemory
    }
}

impl<'a> From<LoadError> for Failure<'a> {
    ghost use Rattle.std.specs.Prelude.{◌≡◌};

    ghost from_gives = { λ error failure. failure ≡ failure_of_load error };

    fn from(error: LoadError) -> Failure<'a> {
        match error {
            LoadError::NoMemory => Failure::NoMemory,
            LoadError::NoThread => Failure::NoThread,
        }
    }
}

impl Error for Failure<'_> {}

impl<'a> Failure<'a> {
    /// Whether it is that of an output that nobody reads any longer, as that of `lfiload disassemble FILE | head`. Nothing is
    /// told of it.
    pub fn is_of_closed_output(&self) -> bool
        ensures closed { IsTrue result → failure_line self.now ≡ [] }
        ensures other { result ≡ false → failure_line self.now ≡ codes "lfiload: " ++ failure_text self.now ++ codes "\n" }
    {
        match self {
            Failure::CannotWrite(Target::StandardOutput, DeviceCause::BrokenPipe) => true,
            _ => false,
        }
    }

    /// What a failed read of the file at this path says.
    pub fn reading(path: &'a str, error: &io::Error) -> Failure<'a>
        ensures told { TellsOf (fault_of_read (error_kind error.now)) path.now result }
        ensures read { IsOfReading path.now result }
    {
        Failure::of(CommandFault::of_read(error), path)
    }

    /// What a failed write of the file at this path says.
    pub fn writing(path: String, error: &io::Error) -> Failure<'a>
        ensures { result ≡ Failure.CannotWrite (Target.File path) (cause_of (error_kind error.now)) }
    {
        Failure::CannotWrite(Target::File(path), DeviceCause::of(error))
    }

    /// What a failed write of the output says.
    pub fn of_output(cause: DeviceCause) -> Failure<'a>
        ensures { result ≡ Failure.CannotWrite Target.StandardOutput cause }
    {
        Failure::CannotWrite(Target::StandardOutput, cause)
    }

    /// What a command's fault says, where its input is the file at this path.
    pub fn of(fault: CommandFault, path: &'a str) -> Failure<'a>
        ensures told { TellsOf fault path.now result }
        ensures read { is_of_a_write fault ≡ false → IsOfReading path.now result }
        ensures on { FailsOn (path.now ∷ []) result }
        ensures output { is_of_output result ≡ is_of_a_write fault }
    {
        match fault {
            CommandFault::NoMemory => Failure::NoMemory,
            CommandFault::NotWritten(cause) => Failure::of_output(cause),
            CommandFault::NotRead(cause) => Failure::CannotRead(path, cause),
        }
    }
}
