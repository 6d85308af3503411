//! The clients of a socket, and their streams.

ghost use Rattle.std.specs.Prelude.{◌≡◌, None, false};
ghost use Rattle.lfi_sync.specs.Clients.{sent_at, sent_by, sent_over_socket};
ghost use Rattle.lfi_sync.specs.Deadlines.{limit_of_acceptor};
ghost use Rattle.lfi_sync.specs.Fates.{is_out_of_time, fate_of};

use crate::acceptor::Acceptor;
use crate::fate::{Absence, ClientFate};
use crate::reading::ReadErrors;
use crate::refusal::LoadError;
use lfi_module::CONNECTIONS;
use std::array;
use std::fs::Files;
use std::io::{self, ErrorKind, Read};
use std::net::Shutdown;
use std::os::unix::net::UnixStream;
use std::rt::Clock;
use std::sync::{OnceLock, Wait};

/// The streams of the clients that were accepted, by their connections' numbers. They lie where
/// threads read them and others can shut them down.
#[derive(Drop)]
pub struct Streams {
    slots: [OnceLock<UnixStream>; CONNECTIONS],
    read_errors: ReadErrors,
}

impl Streams {
    /// Those of no clients yet.
    pub fn new() -> Streams {
        Streams {
            slots: array::from_fn(|_| OnceLock::new()),
            read_errors: ReadErrors::new(),
        }
    }

    /// Waits for a client, as the connection with this number. Where none is accepted, nobody is
    /// there.
    pub fn accept<S: Wait + Clock + Files>(
        &self,
        acceptor: &Acceptor<'_, S>,
        number: usize,
    ) -> Client<Connection<'_>>
        ensures { limit_of_acceptor acceptor.now ≡ None → is_out_of_time (fate_of result) ≡ false }
    {
        match acceptor.accept() {
            Ok(stream) => self.present(number, stream),
            Err(why) => Client::Absent(why),
        }
    }

    /// The client that sends over this stream, as the connection with this number.
    fn present(&self, number: usize, stream: UnixStream) -> Client<Connection<'_>>
        ensures { is_out_of_time (fate_of result) ≡ false }
    {
        let Some(slot) = self.slots.get(number) else {
            return Client::Absent(Absence::NotTaken(ErrorKind::Other));
        };
        let Ok(_) = slot.try_set(stream) else {
            return Client::Absent(Absence::NotTaken(ErrorKind::Other));
        };
        match slot.get() {
            Some(stream) => Client::Present(Connection {
                stream,
                number,
                errors: &self.read_errors,
            }),
            None => Client::Absent(Absence::NotTaken(ErrorKind::Other)),
        }
    }

    /// Why reads of them failed.
    pub fn read_errors(&self) -> &ReadErrors {
        &self.read_errors
    }

    /// Ends all connections where not all clients could be taken.
    pub fn shut_down_unless<T>(&self, taken: &Result<T, LoadError>) {
        if taken.is_err() {
            self.shut_down();
        }
    }

    /// Ends all connections, so that no read of them waits any longer.
    pub(crate) fn shut_down(&self) {
        for slot in &self.slots {
            if let Some(stream) = slot.get() {
                let _ = stream.shutdown(Shutdown::Both);
            }
        }
    }
}

/// The stream of a client, as its receiver reads it. It is shut down when this is dropped: so a client that waits for the
/// end of its connection is told once its receiver has nothing more to hear. It tells why a read failed.
pub struct Connection<'a> {
    stream: &'a UnixStream,
    number: usize,
    errors: &'a ReadErrors,
}

impl Drop for Connection<'_> {
    fn drop(self) {
        let Connection {
            stream,
            number: _,
            errors: _,
        } = self;
        let _ = stream.shutdown(Shutdown::Both);
    }
}

impl Read for Connection<'_> {
    fn read(&mut self, buf: &mut [u8]) -> io::Result<usize> {
        let mut stream = self.stream;
        match stream.read(buf) {
            Ok(count) => Ok(count),
            Err(error) => {
                self.errors.tell(self.number, &error);
                Err(error)
            }
        }
    }
}

/// The client of a connection.
#[derive(Drop)]
pub enum Client<R> {
    /// What it sends is what this reader has left.
    Present(R),
    /// It wasn't accepted, for this, and so sends nothing.
    Absent(Absence),
}

impl<R> Client<R> {
    /// What becomes of it, where its time is never over.
    pub fn fate(&self) -> ClientFate
        ensures is { result ≡ fate_of self.now }
        ensures sent { sent_over_socket self.now ≡ sent_at result }
    {
        match self {
            Client::Present(_) => ClientFate::Heard,
            Client::Absent(why) => ClientFate::Absent(*why),
        }
    }
}

impl<R: Read> Read for Client<R> {
    ghost remaining = { sent_by R.remaining };

    fn read(&mut self, buf: &mut [u8]) -> io::Result<usize> {
        match self {
            Client::Present(reader) => reader.read(buf),
            Client::Absent(_) => Ok(0),
        }
    }
}
