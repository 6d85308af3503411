//! What a feed answers: the parts of the stream that its bytes have brought.

use lfi_module::{Extent, ModuleNumber, PageSize};

/// What the bytes that a call used have brought.
#[derive(Clone, Copy, PartialEq, Eq)]
pub enum Got {
    /// The whole piece was used, or it was empty, and nothing came to its end.
    More,
    /// A whole Open of this module, with its words, its entry, its profile and the size of its pages.
    Open {
        module: ModuleNumber,
        extent: Extent,
    },
    /// The header of a page: of this module, small or large by its kind, with this index in the
    /// module, and a payload of `len` bytes, 4 to a full page's and a multiple of 4, which follows.
    Page {
        module: ModuleNumber,
        size: PageSize,
        index: u32,
        len: u32,
    },
    /// The used bytes are payload of the page whose header came last. Where it ended, the last of
    /// them is the page's last byte.
    Payload {
        ended: bool,
    },
    /// A whole Close of this module.
    Close {
        module: ModuleNumber,
    },
}

/// One call's answer: how many bytes of the piece it used, and what they brought.
#[derive(Clone, Copy, PartialEq, Eq)]
pub struct Step {
    /// The bytes used, from the piece's first on.
    pub used: usize,
    /// What they brought.
    pub got: Got,
}
