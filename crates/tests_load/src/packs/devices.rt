//! A writer that takes little or fails, and packing into it.

use crate::inputs::Pieces;
use lfi_module::{Extent, ModuleNumber, PageSize, Profile, WordCount};
use lfi_pack::{PackFault, pack_module};
use std::alloc::{AllocError, Global};
use std::io::{self, ErrorKind, Write};

/// Takes at most `step` bytes a call, and fails once it has taken `left` bytes.
#[derive(Drop)]
pub struct StreamWriter {
    pub taken: Vec<u8>,
    pub left: usize,
    pub step: usize,
}

impl StreamWriter {
    /// A stream that has taken nothing.
    pub fn new(alloc: Global, left: usize, step: usize) -> StreamWriter {
        let taken = Vec::new(alloc);
        StreamWriter { taken, left, step }
    }
}

impl Write for StreamWriter {
    fn write(&mut self, buf: &[u8]) -> io::Result<usize> {
        if self.left == 0 && !buf.is_empty() {
            return Err(ErrorKind::StorageFull.into());
        }
        let count = buf.len().min(self.step).min(self.left);
        self.taken.extend_from_slice(&buf[..count])?;
        self.left -= count;
        Ok(count)
    }

    fn flush(&mut self) -> io::Result<()> {
        Ok(())
    }
}

/// NOP.
const NOP: [u8; 4] = [0x1F, 0x20, 0x03, 0xD5];

/// RET.
pub const RET: [u8; 4] = [0xC0, 0x03, 0x5F, 0xD6];

/// `words` words of code: NOPs, and then a RET.
pub fn code(alloc: Global, words: u32) -> Result<Vec<u8>, AllocError> {
    let mut bytes = Vec::new(alloc);
    for left in (0..words).rev() {
        bytes.extend_from_slice(if left == 0 { &RET } else { &NOP })?;
    }
    Ok(bytes)
}

/// A module by its number: how many words it has, at which it is entered, by which profile it goes,
/// and how large its pages are.
#[derive(Clone, Copy)]
pub struct Shape {
    pub module: u16,
    pub words: u32,
    pub entry: u32,
    pub profile: Profile,
    pub pages: PageSize,
}

/// Module 0, of one word.
pub const ONE_WORD: Shape = Shape {
    module: 0,
    words: 1,
    entry: 0,
    profile: Profile::One,
    pages: PageSize::SMALL,
};

/// Packs a module of this shape, where there is one.
pub fn pack(
    shape: &Shape,
    mut code: Pieces<'_>,
    stream: &mut StreamWriter,
) -> Option<Result<(), PackFault>> {
    let module = ModuleNumber::new(shape.module)?;
    let words = WordCount::new(shape.words)?;
    let extent = Extent::new(words, shape.entry, shape.profile, shape.pages)?;
    Some(pack_module(module, extent, &mut code, stream))
}
