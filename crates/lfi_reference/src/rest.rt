//! How a text goes on.

ghost use Rattle.std.specs.Prelude.{◌≡◌};
ghost use Rattle.lfi_frame.specs.Streams.{is_page, size_by, rest_of};
ghost use Rattle.lfi_reference.specs.Messages.{size_of, rest_by};

use lfi_frame::{FrameFault, HEADER_BYTES, Header};

/// The number of a small Page in the first byte of its header.
const SMALL_PAGE: u8 = 2;

/// That of a large one.
const LARGE_PAGE: u8 = 5;

/// How a text goes on where it stands between two messages.
#[derive(Clone, Copy, PartialEq, Eq)]
pub enum PlainRest {
    /// By fewer bytes than a header has.
    Short,
    /// By a header with this fault.
    Faulty(FrameFault),
    /// By the header of a page whose payload isn't whole.
    Unfinished {
        module: u16,
        large: bool,
        index: u32,
        len: u32,
    },
    /// By a whole message.
    Whole,
}

/// Whether a header of this kind is that of a page.
pub(crate) fn is_page(kind: u8) -> bool
    ensures { result ≡ is_page kind }
{
    kind == SMALL_PAGE || kind == LARGE_PAGE
}

/// Whether the page whose header has this kind is a large one.
pub(crate) fn is_large(kind: u8) -> bool
    ensures { size_of result ≡ size_by kind }
{
    kind == LARGE_PAGE
}

/// How a text goes on.
pub fn rest_at(bytes: &[u8]) -> PlainRest
    ensures { rest_by result ≡ rest_of bytes.now }
{
    let Some(head) = bytes.first_chunk::<HEADER_BYTES>() else {
        return PlainRest::Short;
    };
    let header = Header::read(head);
    if let Some(fault) = header.fault() {
        return PlainRest::Faulty(fault);
    }
    if is_page(header.kind) && bytes.len() - HEADER_BYTES < header.b as usize {
        return PlainRest::Unfinished {
            module: header.module,
            large: is_large(header.kind),
            index: header.a,
            len: header.b,
        };
    }
    PlainRest::Whole
}
