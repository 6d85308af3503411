//! The cause of an I/O error, as far as the program tells it.

ghost use Rattle.std.specs.Prelude.{◌≡◌, Some};
ghost use Rattle.std.specs.IoError.{error_kind};
ghost use Rattle.lfi_file_commands.specs.Causes.{cause_of, cause_line, cause_text};

use std::{fmt, io};

/// The cause of an I/O error.
#[derive(Clone, Copy, Debug, PartialEq, Eq)]
pub enum DeviceCause {
    NotFound,
    PermissionDenied,
    IsADirectory,
    NotADirectory,
    TooManyLinks,
    NameTooLong,
    ReadOnly,
    StorageFull,
    QuotaExceeded,
    FileTooLarge,
    BrokenPipe,
    ConnectionReset,
    AddressInUse,
    EndedEarly,
    /// Text that isn't UTF-8.
    InvalidData,
    /// None of these: nothing is told.
    Other,
}

impl DeviceCause {
    /// The cause of an error.
    pub fn of(error: &io::Error) -> DeviceCause
        ensures { result ≡ cause_of (error_kind error.now) }
    {
        DeviceCause::of_kind(error.kind())
    }

    /// The cause of an error of this kind.
    pub fn of_kind(kind: io::ErrorKind) -> DeviceCause
        ensures { result ≡ cause_of kind }
    {
        match kind {
            io::ErrorKind::NotFound => DeviceCause::NotFound,
            io::ErrorKind::PermissionDenied => DeviceCause::PermissionDenied,
            io::ErrorKind::IsADirectory => DeviceCause::IsADirectory,
            io::ErrorKind::NotADirectory => DeviceCause::NotADirectory,
            io::ErrorKind::FilesystemLoop => DeviceCause::TooManyLinks,
            io::ErrorKind::InvalidFilename => DeviceCause::NameTooLong,
            io::ErrorKind::ReadOnlyFilesystem => DeviceCause::ReadOnly,
            io::ErrorKind::StorageFull => DeviceCause::StorageFull,
            io::ErrorKind::QuotaExceeded => DeviceCause::QuotaExceeded,
            io::ErrorKind::FileTooLarge => DeviceCause::FileTooLarge,
            io::ErrorKind::BrokenPipe => DeviceCause::BrokenPipe,
            io::ErrorKind::ConnectionReset => DeviceCause::ConnectionReset,
            io::ErrorKind::AddrInUse => DeviceCause::AddressInUse,
            io::ErrorKind::UnexpectedEof => DeviceCause::EndedEarly,
            io::ErrorKind::InvalidData => DeviceCause::InvalidData,
            _ => DeviceCause::Other,
        }
    }

    /// In words, as the system has them; nothing for another cause.
    pub fn text(self) -> &'static str
        ensures { result.now ≡ cause_text self }
    {
        match self {
            DeviceCause::NotFound => "No such file or directory",
            DeviceCause::PermissionDenied => "Permission denied",
            DeviceCause::IsADirectory => "Is a directory",
            DeviceCause::NotADirectory => "Not a directory",
            DeviceCause::TooManyLinks => "Too many levels of symbolic links",
            DeviceCause::NameTooLong => "File name too long",
            DeviceCause::ReadOnly => "Read-only file system",
            DeviceCause::StorageFull => "No space left on device",
            DeviceCause::QuotaExceeded => "Disk quota exceeded",
            DeviceCause::FileTooLarge => "File too large",
            DeviceCause::BrokenPipe => "Broken pipe",
            DeviceCause::ConnectionReset => "Connection reset by peer",
            DeviceCause::AddressInUse => "Address already in use",
            DeviceCause::EndedEarly => "The file ended early",
            DeviceCause::InvalidData => "Not valid UTF-8",
            DeviceCause::Other => "",
        }
    }
}

impl fmt::Display for DeviceCause {
    ghost output = { λ cause. Some (cause_line cause) };

    /// Writes the cause in a line of its own, after the end of the line before; nothing for another cause.
    fn fmt<W: fmt::Write>(&self, f: &mut fmt::Formatter<W>) -> fmt::Result {
        match self {
            DeviceCause::Other => Ok(()),
            cause => write!(f, "\n  {}", cause.text()),
        }
    }
}
