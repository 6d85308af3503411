//! Where clients come in.

ghost use Rattle.std.specs.Prelude.{◌≡◌, ◌≤◌, ℕ, None, IfErr, false};
ghost use Rattle.lfi_sync.specs.Deadlines.{limit_of_acceptor, limit_of_closed};
ghost use Rattle.lfi_sync.specs.Fates.{is_late, is_unheard};

use crate::client::Streams;
use crate::deadline::{Deadline, Span};
use crate::fate::{Absence, Unheard};
use crate::lifecycle::Lifecycle;
use std::fs::Files;
use std::os::unix::fs::MetadataExt;
use std::os::unix::net::{UnixListener, UnixStream};
use std::rt::Clock;
use std::sync::Wait;
use std::time::Duration;
use std::{fs, io, thread};

/// How long nobody looks for a client, where the time for it is limited, in milliseconds.
const PAUSE: u64 = 5;

/// Whether a listener that doesn't wait told by this that nobody has come.
fn is_early(error: &io::Error) -> bool {
    error.kind() == io::ErrorKind::WouldBlock
}

/// What stands at a path: the device and the inode.
#[derive(Clone, Copy, PartialEq, Eq)]
struct Identity {
    device: u64,
    inode: u64,
}

impl Identity {
    /// That of what stands at this path now, where the system tells it.
    fn at<S: Files>(rt: &S, path: &str) -> Option<Identity> {
        let metadata = fs::symlink_metadata(rt, path).ok()?;
        Some(Identity {
            device: metadata.dev(),
            inode: metadata.ino(),
        })
    }
}

/// The listener at a path, and until when clients are waited for and heard. When this is dropped, and so once, whatever
/// comes before, the path is removed, where what stands there is still what stood there when this was made; that this
/// fails isn't told. Then the listener is closed: a client that came and wasn't taken is cut off.
pub struct Acceptor<'a, S: Files> {
    rt: &'a S,
    listener: UnixListener,
    path: &'a str,
    socket: Option<Identity>,
    deadline: Deadline,
}

impl<'a, S: Files> Drop for Acceptor<'a, S> {
    fn drop(self) {
        let Acceptor {
            rt,
            listener,
            path,
            socket,
            deadline: _,
        } = self;
        if Identity::at(rt, path) == socket {
            let _ = fs::remove_file(rt, path);
        }
        drop(listener);
    }
}

impl<'a, S: Files> Acceptor<'a, S> {
    /// That of a listener that was bound to this path just now. Where its time is limited, it begins now.
    pub fn new(
        rt: &'a S,
        listener: UnixListener,
        path: &'a str,
        limit: Option<Duration>,
    ) -> Acceptor<'a, S>
    where
        S: Clock,
        ensures { limit_of_acceptor result ≡ limit }
    {
        Acceptor {
            rt,
            listener,
            path,
            socket: Identity::at(rt, path),
            deadline: Deadline::from_now(rt, limit),
        }
    }

    /// Waits for a client.
    ///
    /// # Errors
    ///
    /// Why there is none: it can't be accepted, or doesn't come in time.
    pub(crate) fn accept(&self) -> Result<UnixStream, Absence>
    where
        S: Wait + Clock,
        ensures { limit_of_acceptor self.now ≡ None → IfErr result (λ why. is_late why ≡ false) }
    {
        match &self.deadline {
            Deadline::Never => match self.listener.accept() {
                Ok((stream, _)) => Ok(stream),
                Err(error) => Err(Absence::NotTaken(error.kind())),
            },
            Deadline::After(span) => self.accept_within(span),
        }
    }

    /// Takes a client that has come before this time is over. The listener doesn't wait from then on.
    fn accept_within(&self, span: &Span) -> Result<UnixStream, Absence>
    where
        S: Wait + Clock,
    {
        if let Err(error) = self.listener.set_nonblocking(true) {
            return Err(Absence::NotTaken(error.kind()));
        }
        for _ in self.rt.forever() {
            // Before it looks: whoever came in time is taken.
            let left = span.left(self.rt);
            match self.listener.accept() {
                Ok((stream, _)) => return Ok(stream),
                Err(error) => {
                    if !is_early(&error) {
                        return Err(Absence::NotTaken(error.kind()));
                    }
                }
            }
            if left.is_zero() {
                return Err(Absence::NotCome);
            }
            thread::sleep(self.rt, left.min(Duration::from_millis(PAUSE)));
        }
        unreachable!()
    }

    /// Removes the path and closes the listener. Nobody is accepted any more.
    pub fn close(self) -> Closed
        ensures { limit_of_closed result ≡ limit_of_acceptor self.entry }
    {
        let deadline = self.deadline;
        drop(self);
        Closed { deadline }
    }
}

/// An acceptor that was closed: until when those are heard who came. None but `Acceptor::close` gives it, so
/// whoever waits for them has removed the path.
#[derive(Clone, Copy)]
pub struct Closed {
    deadline: Deadline,
}

impl Closed {
    /// Waits until the threads of the first `count` receivers have nothing more to hear, where the time
    /// is limited. When it is over all connections are ended. The answer is which of them had not ended
    /// by themselves.
    pub fn wait_in_time<S: Wait + Clock>(
        &self,
        rt: &S,
        lifecycle: &Lifecycle,
        streams: &Streams,
        count: usize,
    ) -> Unheard
        ensures beyond { (c : ℕ) → count ≤ c → is_unheard result c ≡ false }
        ensures endless { limit_of_closed self.now ≡ None → (c : ℕ) → is_unheard result c ≡ false }
    {
        let Deadline::After(span) = &self.deadline else {
            return Unheard::none();
        };
        let unheard = lifecycle.wait_for_heard(rt, count, span);
        if !unheard.is_none() {
            streams.shut_down();
        }
        unheard
    }

    /// How long the time was that the acceptor began with.
    pub fn limit(&self) -> Option<Duration>
        ensures { result ≡ limit_of_closed self.now }
    {
        self.deadline.limit()
    }
}
