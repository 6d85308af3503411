//! Sparse memory: what was written is read, by single bytes and by words, within pages and across them.
ghost use Rattle.std.specs.Prelude.{◌≤◌, ◌+◌, ◌^◌};

use sparse_memory::{MemoryRefused, SparseMemory};

/// Three bytes before the end of a page.
const SEAM: u32 = 0x5FFD;

/// The last eight bytes of all.
const LAST: u32 = 0xFFFF_FFF8;

/// Bytes of 0 where nothing was written, and no page kept.
fn starts_empty(rt: &HostRuntime) -> Result<bool, MemoryRefused> {
    let memory = SparseMemory::new(rt.alloc())?;
    let bytes = [memory.byte(0), memory.byte(0xFFFF_FFFF)];
    let small = [u32::from(memory.word_2(7)), memory.word_4(SEAM)];
    let kept = [memory.is_kept(0), memory.is_kept(LAST)];
    let zero = bytes == [0, 0] && small == [0, 0] && memory.word_8(LAST) == 0;
    Ok(zero && kept == [false, false])
}

/// Eight bytes at an offset, read again in each way; the bytes round them stay 0.
fn writes_8(rt: &HostRuntime, offset: u32) -> Result<bool, MemoryRefused>
    requires low { 8 ≤ offset }
    requires high { offset + 16 ≤ 2 ^ 32 }
{
    let mut memory = SparseMemory::new(rt.alloc())?;
    memory.keep(offset, 8)?;
    memory.put_8(offset, 0x8877_6655_4433_2211);
    let words = [
        memory.word_8(offset - 8),
        memory.word_8(offset),
        memory.word_8(offset + 8),
    ];
    let halves = [memory.word_4(offset), memory.word_4(offset + 4)];
    let small = (memory.word_2(offset + 3), memory.byte(offset + 7));
    let large = words == [0, 0x8877_6655_4433_2211, 0];
    Ok(large && halves == [0x4433_2211, 0x8877_6655] && small == (0x5544, 0x88))
}

/// A number of 4 bytes, of 2 and a single byte.
fn writes_smaller(rt: &HostRuntime) -> Result<bool, MemoryRefused> {
    let mut memory = SparseMemory::new(rt.alloc())?;
    memory.keep(SEAM, 4)?;
    memory.put_4(SEAM, 0x0102_0304);
    memory.keep(0x9000, 2)?;
    memory.put_2(0x9000, 0x0506);
    memory.keep(0x9002, 1)?;
    memory.put(0x9002, 7);
    Ok(memory.word_8(SEAM) == 0x0102_0304 && memory.word_4(0x9000) == 0x0007_0506)
}

#[test]
fn empty_memory(rt: HostRuntime) {
    assert!(rt; starts_empty(&rt) == Ok(true));
}

#[test]
fn written_numbers(rt: HostRuntime) {
    let aligned = writes_8(&rt, 0x5000);
    let across = writes_8(&rt, SEAM);
    let last = writes_8(&rt, 0xFFFF_FFF0);
    let written = [aligned, across, last, writes_smaller(&rt)];
    assert!(rt; written == [Ok(true), Ok(true), Ok(true), Ok(true)]);
}
