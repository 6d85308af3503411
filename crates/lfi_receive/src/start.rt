//! Where a message of a connection begins.

use lfi_frame::HEADER_BYTES;

/// Where in its connection's bytes a message begins, and its header.
#[derive(Clone, Copy)]
pub struct MessageStart {
    /// How many bytes came before it, modulo 2^64.
    pub byte: u64,
    /// Its header, where that has a fault.
    pub header: [u8; HEADER_BYTES],
}

impl MessageStart {
    /// That of the first message, of which no byte has come.
    pub const FIRST: MessageStart = MessageStart {
        byte: 0,
        header: [0; HEADER_BYTES],
    };
}
