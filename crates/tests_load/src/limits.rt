//! Clients that send what they have before any is taken: more or fewer than are taken, and some that
//! are heard for some time.

use crate::build::{MODULE_0, MODULE_3, MODULE_7};
use crate::clients::{BOTH, TWO, are_told, connect_all, send_all, send_pieces, served};
use lfi_sequence::OpenGate;
use std::fs;
use std::fs::Files;
use std::io::{self, Read};
use std::net::Net;
use std::os::unix::net::{UnixListener, UnixStream};
use std::rt::Clock;
use std::sync::Wait;
use std::thread::Threads;
use std::time::Duration;

/// A time that is over soon, in milliseconds.
const SOON: u64 = 50;

/// A time that no test lasts, in milliseconds: a day.
const LATE: u64 = 86_400_000;

/// More bytes than a text has.
const ALL: usize = 4096;

/// What clients do that have come and sent a text.
#[derive(Clone, Copy)]
enum Then {
    /// They go away.
    Go,
    /// They stay.
    Stay,
}

/// How long clients are waited for.
#[derive(Clone, Copy)]
enum Waits {
    /// A number of milliseconds.
    For(u64),
    /// The listener doesn't wait, and there is no limit.
    Never,
}

impl Waits {
    /// The limit, where there is one.
    fn limit(self) -> Option<Duration> {
        match self {
            Waits::For(limit) => Some(Duration::from_millis(limit)),
            Waits::Never => None,
        }
    }

    /// A listener at this path that waits so.
    fn listener<S: Files + Net>(self, rt: &S, path: &str) -> io::Result<UnixListener> {
        let listener = UnixListener::bind(rt, path)?;
        match self {
            Waits::For(_) => {}
            Waits::Never => listener.set_nonblocking(true)?,
        }
        Ok(listener)
    }
}

/// The clients' texts, of which each sends a number of bytes, and what they do then. How many are taken,
/// in what time; whether these were all, and what is told.
#[derive(Clone, Copy)]
struct Row {
    texts: &'static [&'static [u8]],
    sends: usize,
    then: Then,
    connections: usize,
    waits: Waits,
    all_accepted: bool,
    want: &'static str,
}

const ROWS: [Row; 10] = [
    // Nobody comes in time.
    Row {
        texts: &[],
        sends: ALL,
        then: Then::Go,
        connections: 2,
        waits: Waits::For(SOON),
        all_accepted: false,
        want: "strays 0\n",
    },
    // A client that stays ends where it is.
    Row {
        texts: &[&MODULE_7],
        sends: 0,
        then: Then::Stay,
        connections: 1,
        waits: Waits::For(SOON),
        all_accepted: true,
        want: "strays 0\n",
    },
    // Within a header.
    Row {
        texts: &[&MODULE_7],
        sends: 5,
        then: Then::Stay,
        connections: 1,
        waits: Waits::For(SOON),
        all_accepted: true,
        want: "connection 0: fault 9\nstrays 0\n",
    },
    // Within a page.
    Row {
        texts: &[&MODULE_7],
        sends: 26,
        then: Then::Stay,
        connections: 1,
        waits: Waits::For(SOON),
        all_accepted: true,
        want: "module 7: lost, fault 9\nconnection 0: fault 9\nstrays 0\n",
    },
    // All of it.
    Row {
        texts: &[&MODULE_7],
        sends: 40,
        then: Then::Stay,
        connections: 1,
        waits: Waits::For(SOON),
        all_accepted: true,
        want: "module 7: complete, 1 words\nstrays 0\n",
    },
    // All that stay end where they are.
    Row {
        texts: &[&MODULE_0, &MODULE_3],
        sends: ALL,
        then: Then::Stay,
        connections: 2,
        waits: Waits::For(SOON),
        all_accepted: true,
        want: BOTH,
    },
    // One of two comes in time.
    Row {
        texts: &[&MODULE_7],
        sends: ALL,
        then: Then::Go,
        connections: 2,
        waits: Waits::For(SOON),
        all_accepted: false,
        want: "module 7: complete, 1 words\nstrays 0\n",
    },
    // All are done long before the time is over.
    Row {
        texts: &[&MODULE_0, &MODULE_3],
        sends: ALL,
        then: Then::Go,
        connections: 2,
        waits: Waits::For(LATE),
        all_accepted: true,
        want: BOTH,
    },
    // No time at all: both had come before, and what they sent is heard.
    Row {
        texts: &[&MODULE_0, &MODULE_3],
        sends: ALL,
        then: Then::Go,
        connections: 3,
        waits: Waits::For(0),
        all_accepted: false,
        want: BOTH,
    },
    // One of three has come where the listener doesn't wait, and the next isn't accepted.
    Row {
        texts: &[&MODULE_7],
        sends: ALL,
        then: Then::Go,
        connections: 3,
        waits: Waits::Never,
        all_accepted: false,
        want: "module 7: complete, 1 words\nstrays 0\n",
    },
];

/// Whether all of these clients have nothing to read, as their connections were closed.
fn are_all_closed(clients: &[UnixStream]) -> bool {
    for client in clients {
        let mut client: &UnixStream = client;
        if !matches!(client.read(&mut [0]), Ok(0)) {
            return false;
        }
    }
    true
}

/// The clients of a row that stay, once all have come and sent what they send.
fn come<S: Net + AllocGlobal>(rt: &S, path: &str, row: &Row) -> io::Result<Vec<UnixStream>> {
    let mut clients = connect_all(rt, path, row.texts.len())?;
    send_pieces(clients.as_slice(), row.texts, &[row.sends])?;
    if let Then::Go = row.then {
        clients.clear();
    }
    Ok(clients)
}

/// Whether what a row says is told of its clients, who have come and sent their texts before any is
/// taken, the connections of all that stayed are closed in the end, and the path is gone then.
fn is_heard<S: Threads + Wait + Files + Clock + Net + Sync + AllocGlobal>(
    rt: &S,
    path: &str,
    listener: UnixListener,
    row: &Row,
) -> bool {
    let Ok(clients) = come(rt, path, row) else {
        return false;
    };
    let limit = row.waits.limit();
    let told = served(rt, listener, path, row.connections, limit, &OpenGate);
    let all_closed = are_all_closed(clients.as_slice());
    let gone = fs::metadata(rt, path).is_err();
    all_closed && gone && are_told(rt.alloc(), told, row.all_accepted, row.want)
}

/// Whether a row comes to what it says.
fn is_so<S: Threads + Wait + Files + Clock + Net + Sync + AllocGlobal>(rt: &S, row: &Row) -> bool {
    let path = "limited.socket";
    match row.waits.listener(rt, path) {
        Ok(listener) => is_heard(rt, path, listener, row),
        Err(_) => false,
    }
}

#[test]
fn clients_in_some_time(rt: HostRuntime) {
    for row in &ROWS {
        assert!(rt; is_so(&rt, row));
    }
}

/// The client that comes once clients have come and sent these texts.
fn one_more<S: Net + AllocGlobal>(rt: &S, path: &str, texts: &[&[u8]]) -> io::Result<UnixStream> {
    send_all(rt, path, texts, &[4096])?;
    UnixStream::connect(rt, path)
}

/// Whether two clients are taken and told of, and one more reads no byte, and none connects then.
fn two_are_taken<S: Threads + Wait + Files + Clock + Net + Sync + AllocGlobal>(
    rt: &S,
    path: &str,
    listener: UnixListener,
) -> bool {
    let Ok(mut third) = one_more(rt, path, &TWO) else {
        return false;
    };
    let told = served(rt, listener, path, 2, None, &OpenGate);
    let reads = third.read(&mut [0]).unwrap_or(0);
    let connects = UnixStream::connect(rt, path).is_ok();
    reads == 0 && !connects && are_told(rt.alloc(), told, true, BOTH)
}

/// Whether of three clients that have come two are taken, and nothing is of the third.
fn one_is_left<S: Threads + Wait + Files + Clock + Net + Sync + AllocGlobal>(rt: &S) -> bool {
    let path = "one_more.socket";
    match UnixListener::bind(rt, path) {
        Ok(listener) => two_are_taken(rt, path, listener),
        Err(_) => false,
    }
}

#[test]
fn a_client_more_than_are_taken(rt: HostRuntime) {
    assert!(rt; one_is_left(&rt));
}
