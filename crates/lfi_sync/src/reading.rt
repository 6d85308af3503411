//! Why reads of connections failed.

use lfi_module::CONNECTIONS;
use std::array;
use std::io::{self, ErrorKind, Read};
use std::sync::OnceLock;

/// Why reads of connections failed, by the connections' numbers. Whoever reads tells it here, and each
/// connection's first error counts. No clause knows what it holds.
#[derive(Drop)]
pub struct ReadErrors {
    kinds: [OnceLock<ErrorKind>; CONNECTIONS],
}

impl ReadErrors {
    /// No read has failed yet.
    pub fn new() -> ReadErrors {
        ReadErrors {
            kinds: array::from_fn(|_| OnceLock::new()),
        }
    }

    /// A read of the connection with this number failed with this error.
    pub(crate) fn tell(&self, number: usize, error: &io::Error) {
        if let Some(kind) = self.kinds.get(number) {
            let _ = kind.try_set(error.kind());
        }
    }

    /// The kinds of the errors, as far as they were told, by the connections' numbers.
    pub fn kinds(&self) -> [Option<ErrorKind>; CONNECTIONS] {
        let mut kinds = [None; CONNECTIONS];
        for number in 0..CONNECTIONS {
            kinds[number] = self.kinds[number].get().copied();
        }
        kinds
    }
}

/// A connection's reader, which tells why a read of it failed.
#[derive(Drop)]
pub struct Watched<'a, R> {
    reader: R,
    errors: &'a ReadErrors,
    number: usize,
}

impl<'a, R> Watched<'a, R> {
    ghost use Rattle.std.specs.Prelude.{◌≡◌};
    ghost use Rattle.lfi_sync.specs.Clients.{reader_of};

    /// That of the connection with this number, which reads this and tells it there.
    pub fn new(reader: R, errors: &'a ReadErrors, number: usize) -> Watched<'a, R>
        ensures { reader_of result ≡ reader }
    {
        Watched {
            reader,
            errors,
            number,
        }
    }
}

impl<R: Read> Read for Watched<'_, R> {
    ghost use Rattle.lfi_sync.specs.Clients.{read_by};

    ghost remaining = { read_by R.remaining };

    fn read(&mut self, buf: &mut [u8]) -> io::Result<usize> {
        match self.reader.read(buf) {
            Ok(count) => Ok(count),
            Err(error) => {
                self.errors.tell(self.number, &error);
                Err(error)
            }
        }
    }
}
