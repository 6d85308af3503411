//! The headers of messages, as they are written.

ghost use Rattle.std.specs.Prelude.{◌≡◌};
ghost use Rattle.lfi_frame.specs.Feeds.{page_header};
ghost use Rattle.lfi_frame.specs.Streams.{header_bytes, IsMessage, spelling, open_kind, page_kind, second_byte, open_message, close_message};

use crate::header::{HEADER_BYTES, Header};
use lfi_module::{Extent, ModuleNumber, PageSize, Profile};

/// The kind of a module's Open, by the profile that it goes by.
fn opening_kind(profile: Profile) -> u8
    ensures { result ≡ open_kind profile }
{
    match profile {
        Profile::One => 1,
        Profile::Two => 4,
    }
}

/// The second byte of a module's Open, by the size of its pages.
fn opening_byte(pages: PageSize) -> u8
    ensures { result ≡ second_byte pages }
{
    if pages == PageSize::LARGE { 2 } else { 0 }
}

/// The kind of a page, by its size.
fn paging_kind(size: PageSize) -> u8
    ensures { result ≡ page_kind size }
{
    if size == PageSize::LARGE { 5 } else { 2 }
}

/// The Open of a module.
pub fn open_bytes(module: ModuleNumber, extent: Extent) -> [u8; HEADER_BYTES]
    ensures spells { result ≡ spelling (open_message «module» extent) }
    ensures message { IsMessage (open_message «module» extent) }
{
    Header {
        kind: opening_kind(extent.profile()),
        second: opening_byte(extent.pages()),
        module: module.number(),
        a: extent.words().number(),
        b: extent.entry(),
    }
    .bytes()
}

/// The header of a module's page `index`, a small or a large one, of `len` bytes.
pub fn page_bytes(module: ModuleNumber, size: PageSize, index: u32, len: u32) -> [u8; HEADER_BYTES]
    ensures { result ≡ header_bytes (page_header «module» size index len) }
{
    Header {
        kind: paging_kind(size),
        second: 0,
        module: module.number(),
        a: index,
        b: len,
    }
    .bytes()
}

/// The Close of a module.
pub fn close_bytes(module: ModuleNumber) -> [u8; HEADER_BYTES]
    ensures { result ≡ spelling (close_message «module») }
{
    Header {
        kind: 3,
        second: 0,
        module: module.number(),
        a: 0,
        b: 0,
    }
    .bytes()
}
