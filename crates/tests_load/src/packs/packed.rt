//! Packed streams, byte by byte.

use crate::build::{MODULE_0, piece};
use crate::inputs::Pieces;
use crate::packs::devices::{ONE_WORD, RET, Shape, StreamWriter, code, pack};
use lfi_module::{PageSize, Profile};
use lfi_pack::PackFault;
use std::alloc::Global;
use std::io::ErrorKind;
use std::test::Fail;

/// A module, how many bytes of its code a read gives and how many a write takes at most; how long its
/// stream is, and bytes that stand at places of it.
#[derive(Clone, Copy)]
struct Row {
    shape: Shape,
    read: usize,
    write: usize,
    len: usize,
    stand: &'static [(usize, &'static [u8])],
}

const ROWS: [Row; 6] = [
    // One RET.
    Row {
        shape: ONE_WORD,
        read: 1,
        write: 1,
        len: 40,
        stand: &[(0, &MODULE_0)],
    },
    Row {
        shape: ONE_WORD,
        read: 3,
        write: 3,
        len: 40,
        stand: &[(0, &MODULE_0)],
    },
    Row {
        shape: ONE_WORD,
        read: 4096,
        write: 4096,
        len: 40,
        stand: &[(0, &MODULE_0)],
    },
    // One RET, by the second profile.
    Row {
        shape: Shape {
            profile: Profile::Two,
            ..ONE_WORD
        },
        read: 4,
        write: 4096,
        len: 40,
        stand: &[
            (0, &[4, 0, 0, 0, 1, 0, 0, 0, 0, 0, 0, 0]),
            (12, &[2, 0, 0, 0, 0, 0, 0, 0, 4, 0, 0, 0]),
            (24, &[0xC0, 0x03, 0x5F, 0xD6]),
            (28, &[3, 0, 0, 0, 0, 0, 0, 0, 0, 0, 0, 0]),
        ],
    },
    // Two large pages.
    Row {
        shape: Shape {
            words: 4097,
            profile: Profile::Two,
            pages: PageSize::LARGE,
            ..ONE_WORD
        },
        read: 5000,
        write: 700,
        len: 16_436,
        stand: &[
            (0, &[4, 2, 0, 0, 1, 0x10, 0, 0, 0, 0, 0, 0]),
            (12, &[5, 0, 0, 0, 0, 0, 0, 0, 0, 0x40, 0, 0]),
            (16_408, &[5, 0, 0, 0, 1, 0, 0, 0, 4, 0, 0, 0]),
            (16_420, &[0xC0, 0x03, 0x5F, 0xD6]),
            (16_424, &[3, 0, 0, 0, 0, 0, 0, 0, 0, 0, 0, 0]),
        ],
    },
    // Two pages, entered at the last word.
    Row {
        shape: Shape {
            module: 3,
            words: 1025,
            entry: 1024,
            ..ONE_WORD
        },
        read: 1000,
        write: 999,
        len: 4148,
        stand: &[
            (0, &[1, 0, 3, 0, 1, 4, 0, 0, 0, 4, 0, 0]),
            (12, &[2, 0, 3, 0, 0, 0, 0, 0, 0, 16, 0, 0]),
            (4120, &[2, 0, 3, 0, 1, 0, 0, 0, 4, 0, 0, 0]),
            (4132, &[0xC0, 0x03, 0x5F, 0xD6]),
            (4136, &[3, 0, 3, 0, 0, 0, 0, 0, 0, 0, 0, 0]),
        ],
    },
];

/// Whether these bytes stand there.
fn stands(text: &[u8], at: usize, bytes: &[u8]) -> bool {
    piece(text, at, bytes.len()) == bytes
}

/// Whether a stream is as long as a row says, this code begins in it after two headers, and all bytes
/// stand where the row says.
fn is_stream_of(row: &Row, stream: &[u8], code: &[u8]) -> bool {
    let mut stand = stands(stream, 24, piece(code, 0, 4096));
    for (at, bytes) in row.stand {
        stand &= stands(stream, *at, *bytes);
    }
    stream.len() == row.len && stand
}

/// Whether a row's module is packed of this code, and its stream is as the row says.
fn is_packed_of(alloc: Global, row: &Row, code: &[u8]) -> bool {
    let mut stream = StreamWriter::new(alloc, 20_000, row.write);
    let packed = pack(&row.shape, Pieces::of(code, row.read), &mut stream);
    packed == Some(Ok(())) && is_stream_of(row, stream.taken.as_slice(), code)
}

/// Whether a row is packed as it says.
fn is_packed(alloc: Global, row: &Row) -> bool {
    match code(alloc, row.shape.words) {
        Ok(code) => is_packed_of(alloc, row, code.as_slice()),
        Err(_) => false,
    }
}

#[test]
fn modules_by_hand(rt: HostRuntime) {
    for row in &ROWS {
        assert!(rt; is_packed(rt.alloc(), row));
    }
}

/// Whether packing one RET fails once `left` bytes are written, and these are its first ones.
fn fails_after(alloc: Global, left: usize) -> bool {
    let mut stream = StreamWriter::new(alloc, left, 5);
    let packed = pack(&ONE_WORD, Pieces::of(&RET, 5), &mut stream);
    packed == Some(Err(PackFault::WriteFailed(ErrorKind::StorageFull)))
        && stream.taken.as_slice() == piece(&MODULE_0, 0, left)
}

#[test]
fn a_write_fails_after_each_length(rt: HostRuntime) {
    for left in 0..40usize {
        assert!(rt; fails_after(rt.alloc(), left), "after {left} bytes");
    }
}

/// How many bytes of code come for 1,025 words, with what a read fails then, and how packing ends.
const NOT_AS_TOLD: [(usize, Option<ErrorKind>, PackFault); 8] = [
    (0, None, PackFault::Shorter),
    (4096, None, PackFault::Shorter),
    (4099, None, PackFault::Shorter),
    (4101, None, PackFault::Longer),
    (4104, None, PackFault::Longer),
    (
        0,
        Some(ErrorKind::Other),
        PackFault::ReadFailed(ErrorKind::Other),
    ),
    (
        4098,
        Some(ErrorKind::ConnectionReset),
        PackFault::ReadFailed(ErrorKind::ConnectionReset),
    ),
    (
        4100,
        Some(ErrorKind::Other),
        PackFault::ReadFailed(ErrorKind::Other),
    ),
];

/// 1,025 words.
const TWO_PAGES: Shape = Shape {
    words: 1025,
    ..ONE_WORD
};

/// Whether packing 1,025 words of this code ends so, and no more is written than the pages take.
fn ends_so(alloc: Global, code: Pieces<'_>, want: PackFault) -> bool {
    let mut stream = StreamWriter::new(alloc, 10_000, 4096);
    let packed = pack(&TWO_PAGES, code, &mut stream);
    packed == Some(Err(want)) && stream.taken.len() <= 4136
}

/// Whether packing 1,025 words ends as a row says, of whose code so much comes.
fn is_so(alloc: Global, row: &(usize, Option<ErrorKind>, PackFault), code: &[u8]) -> bool {
    let (len, fails, want) = *row;
    let code = Pieces {
        left: piece(code, 0, len),
        most: 4096,
        fails,
        rest: &[],
    };
    ends_so(alloc, code, want)
}

/// Whether each row of code that isn't as it was told comes to what it says.
fn all_are_so(alloc: Global) -> bool {
    let Ok(code) = code(alloc, 1026) else {
        return false;
    };
    for row in &NOT_AS_TOLD {
        if !is_so(alloc, row, code.as_slice()) {
            return false;
        }
    }
    true
}

#[test]
fn code_that_is_not_as_told(rt: HostRuntime) {
    assert!(rt; all_are_so(rt.alloc()));
}

#[test]
fn tells_why_a_module_is_not_packed(rt: HostRuntime) -> Result<(), Fail> {
    let told = [
        (PackFault::Shorter, "code shorter than told"),
        (PackFault::Longer, "code longer than told"),
        (PackFault::ReadFailed(ErrorKind::Other), "read failed"),
        (PackFault::WriteFailed(ErrorKind::Other), "write failed"),
    ];
    for (fault, text) in &told {
        assert!(rt; fault.to_string(rt.alloc())?.as_str() == *text, "{text}");
    }
    Ok(())
}
