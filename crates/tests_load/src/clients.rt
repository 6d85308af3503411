//! Clients over sockets.

use crate::build::Sent::{Close, Open, Page};
use crate::build::{MODULE_0, MODULE_3, MODULE_5, NOP, eight, is_text, piece, push_all};
use crate::inputs::{YIELDS, comes_to};
use lfi_loader::{Acceptor, ClientFate, LoadError, NoNotices, StageSize, serve_on};
use lfi_model::{Item, Judged, Summary};
use lfi_sequence::{Gate, OpenGate};
use std::alloc::{AllocError, Global};
use std::fs;
use std::fs::Files;
use std::io::{self, Read, Write};
use std::net::Net;
use std::os::unix::net::{UnixListener, UnixStream};
use std::rt::Clock;
use std::sync::Wait;
use std::sync::atomic::{AtomicU64, Ordering};
use std::test::Fail;
use std::thread::{Threads, join, yield_now};
use std::time::Duration;

/// What is told of clients, and whether all were accepted.
#[derive(Clone, Copy)]
pub(crate) struct ServedSummary {
    pub(crate) summary: Summary,
    pub(crate) all_accepted: bool,
}

/// Whether something is told of clients, of whom all or not all were accepted, as this says, and this
/// is the text of it.
pub(crate) fn are_told(
    alloc: Global,
    told: Result<ServedSummary, LoadError>,
    all_accepted: bool,
    want: &str,
) -> bool {
    match told {
        Ok(told) => told.all_accepted == all_accepted && is_text(alloc, &told.summary, want),
        Err(_) => false,
    }
}

/// Whether each connection has a client.
fn are_all_taken(fates: &[ClientFate]) -> bool {
    let mut taken = true;
    for fate in fates {
        taken &= !fate.is_absent();
    }
    taken
}

/// What is told of a number of connections, 1 to 8.
pub(crate) fn served<S: Threads + Wait + Files + Clock + Sync + AllocGlobal, G: Gate + Sync>(
    rt: &S,
    listener: UnixListener,
    path: &str,
    connections: usize,
    limit: Option<Duration>,
    gate: &G,
) -> Result<ServedSummary, LoadError> {
    let size = StageSize {
        connections: connections.max(1).min(8),
        verifiers: 2,
    };
    let acceptor = Acceptor::new(rt, listener, path, limit);
    let served = serve_on(rt, rt.alloc(), acceptor, size, gate, &NoNotices)?;
    Ok(ServedSummary {
        summary: served.report.summary(),
        all_accepted: are_all_taken(&served.clients.fates),
    })
}

/// A number of clients, one after the other.
pub(crate) fn connect_all<S: Net + AllocGlobal>(
    rt: &S,
    path: &str,
    count: usize,
) -> io::Result<Vec<UnixStream>> {
    let mut streams = Vec::new(rt.alloc());
    for _ in 0..count {
        streams.push(UnixStream::connect(rt, path)?)?;
    }
    Ok(streams)
}

/// Sends these texts in pieces of these sizes, a piece of each in turn, each by its client.
pub(crate) fn send_pieces(
    streams: &[UnixStream],
    texts: &[&[u8]],
    sizes: &[usize],
) -> io::Result<()> {
    let mut from = 0usize;
    for size in sizes {
        for (stream, text) in streams.iter().zip(texts) {
            let mut stream: &UnixStream = stream;
            stream.write_all(piece(*text, from, *size))?;
        }
        from = from.saturating_add(*size);
    }
    Ok(())
}

/// Sends these texts beside each other, in pieces of these sizes, a piece of each in turn.
pub(crate) fn send_all<S: Net + AllocGlobal>(
    rt: &S,
    path: &str,
    texts: &[&[u8]],
    sizes: &[usize],
) -> io::Result<()> {
    let streams = connect_all(rt, path, texts.len())?;
    send_pieces(streams.as_slice(), texts, sizes)
}

pub(crate) const BOTH: &str =
    "module 0: complete, 1 words\nmodule 3: complete, 1 words\nstrays 0\n";

/// The texts of modules 0 and 3.
pub(crate) const TWO: [&[u8]; 2] = [&MODULE_0, &MODULE_3];

/// Modules 0 to 7, each of 1,030 NOPs and in a text of its own, one text after the other.
fn eight_of_two_pages(alloc: Global) -> Result<Vec<u8>, AllocError> {
    let mut texts = Vec::new(alloc);
    for module in 0..8u16 {
        let (first, second) = (Page(module, 0, 1024, NOP), Page(module, 1, 6, NOP));
        push_all(
            &mut texts,
            &[Open(module, 1030), first, second, Close(module)],
        )?;
    }
    Ok(texts)
}

const EIGHT: &str = "\
module 0: complete, 1030 words
module 1: complete, 1030 words
module 2: complete, 1030 words
module 3: complete, 1030 words
module 4: complete, 1030 words
module 5: complete, 1030 words
module 6: complete, 1030 words
module 7: complete, 1030 words
strays 0
";

/// The clients' texts, the sizes of their pieces, and what is told.
#[derive(Clone, Copy)]
struct Case<'a> {
    texts: &'a [&'a [u8]],
    sizes: &'static [usize],
    want: &'static str,
}

const CASES: [Case<'static>; 3] = [
    Case {
        texts: &[&MODULE_0, &MODULE_3],
        sizes: &[4096],
        want: BOTH,
    },
    // One sends the first 30 bytes of a module, and closes.
    Case {
        texts: &[&MODULE_0],
        sizes: &[7, 7, 7, 7, 2],
        want: "module 0: lost, fault 9\nconnection 0: fault 9\nstrays 0\n",
    },
    // One sends nothing and closes, and another sends a whole module.
    Case {
        texts: &[&[], &MODULE_5],
        sizes: &[4096],
        want: "module 5: complete, 1 words\nstrays 0\n",
    },
];

#[test]
fn clients_beside_each_other(rt: HostRuntime) -> Result<(), Fail> {
    let path = "beside.socket";
    let texts = eight_of_two_pages(rt.alloc())?;
    let [one, two, three] = CASES;
    let in_pieces = Case {
        texts: &eight(texts.as_slice()),
        sizes: &[1, 2, 11, 100, 1000, 4096, 3, 4096, 4096],
        want: EIGHT,
    };
    for case in [one, two, three, in_pieces] {
        let listener = UnixListener::bind(&rt, path)?;
        let (told, sent) = join(
            &rt,
            || served(&rt, listener, path, case.texts.len(), None, &OpenGate),
            || send_all(&rt, path, case.texts, case.sizes).is_ok(),
        );
        let gone = fs::metadata(&rt, path).is_err();
        assert!(rt; sent && gone && are_told(rt.alloc(), told, true, case.want));
    }
    Ok(())
}

/// Whether there is nothing at this path any more, within some time.
fn is_gone<S: Files>(rt: &S, path: &str) -> bool {
    for _ in 0..YIELDS {
        if fs::metadata(rt, path).is_err() {
            return true;
        }
        yield_now();
    }
    false
}

/// A client for each of these texts connects, and they send nothing until the path is gone and
/// another file is there. The answer is whether it went, and all was sent.
fn send_once_the_path_is_gone<S: Net + Files + AllocGlobal>(
    rt: &S,
    path: &str,
    texts: &[&[u8]],
) -> bool {
    let Ok(streams) = connect_all(rt, path, texts.len()) else {
        return false;
    };
    let gone = is_gone(rt, path);
    let written = fs::write(rt, path, HERE.as_slice()).is_ok();
    gone && written && send_pieces(streams.as_slice(), texts, &[4096]).is_ok()
}

/// What the file at a path has that is there after the path is gone.
const HERE: [u8; 4] = *b"here";

/// Whether a file has this.
fn is_here<S: Files + AllocGlobal>(rt: &S, path: &str) -> bool {
    match fs::read(rt, path) {
        Ok(bytes) => bytes.as_slice() == HERE.as_slice(),
        Err(_) => false,
    }
}

#[test]
fn the_path_is_gone_once_all_are_taken(rt: HostRuntime) -> Result<(), Fail> {
    let path = "gone.socket";
    let listener = UnixListener::bind(&rt, path)?;
    let (told, gone) = join(
        &rt,
        || served(&rt, listener, path, 2, None, &OpenGate),
        || send_once_the_path_is_gone(&rt, path, &TWO),
    );
    // Whoever has the path next keeps it.
    let kept = is_here(&rt, path) && fs::remove_file(&rt, path).is_ok();
    assert!(rt; gone && kept && are_told(rt.alloc(), told, true, BOTH));
    Ok(())
}

/// A gate that tells when an item of module 0 was judged.
#[derive(Drop)]
struct FirstJudged {
    judged: AtomicU64,
}

impl Gate for FirstJudged {
    fn before(&self, _item: &Item) {}

    fn after(&self, item: &Judged) {
        if item.module.number() == 0 {
            self.judged.store(1, Ordering::SeqCst);
        }
    }
}

/// A client that sends a text.
fn connect_and_send<S: Net>(rt: &S, path: &str, text: &[u8]) -> io::Result<UnixStream> {
    let mut stream = UnixStream::connect(rt, path)?;
    stream.write_all(text)?;
    Ok(stream)
}

/// One client sends module 0, and once an item of it was judged another sends module 3. The answer
/// is whether both did, and one was judged before the second client connected.
fn send_one_after_the_other<S: Net>(rt: &S, path: &str, judged: &AtomicU64) -> bool {
    let Ok(_first) = connect_and_send(rt, path, &MODULE_0) else {
        return false;
    };
    // The second one comes in any case, since it is waited for.
    let judged = comes_to(judged, 1);
    connect_and_send(rt, path, &MODULE_3).is_ok() && judged
}

#[test]
fn the_first_client_is_served_before_the_second_comes(rt: HostRuntime) -> Result<(), Fail> {
    let path = "one_after_the_other.socket";
    let gate = FirstJudged {
        judged: AtomicU64::new(0),
    };
    let listener = UnixListener::bind(&rt, path)?;
    let (told, judged) = join(
        &rt,
        || served(&rt, listener, path, 2, None, &gate),
        || send_one_after_the_other(&rt, path, &gate.judged),
    );
    assert!(rt; judged && are_told(rt.alloc(), told, true, BOTH));
    Ok(())
}

#[test]
fn tells_why_a_load_is_refused(rt: HostRuntime) -> Result<(), Fail> {
    for (error, text) in &[
        (LoadError::NoMemory, "no memory"),
        (LoadError::NoThread, "no thread"),
    ] {
        assert!(rt; error.to_string(rt.alloc())?.as_str() == *text, "{text}");
    }
    Ok(())
}
