ghost use Rattle.std.specs.Prelude.{◌≡◌, ℕ, ◌+◌, ◌-◌, ◌/◌, ◌^◌, ◌<◌, ◌≤◌, ◌↔◌, ◌⊎◌, OnOk, OnErr, IfOk, IsTrue};
ghost use Rattle.a64_word.specs.Bytes.{number_at};
ghost use Rattle.sparse_memory.specs.Kept.{byte_at, IsKept, AreKept, SameBytes, KeepsAll, KeepsNone, KeepsOnly, SamePages, WritesByte, WritesNumber};

use crate::number::{read_2, read_4, read_8, write_2, write_4, write_8};
use crate::pages::{PAGE, PAGES};
use crate::refused::{MemoryRefused, add_frame, zero_table};
use std::alloc::Global;
use std::marker::Model;

/// 4 GiB of bytes, all 0 at first. A page of 65,536 bytes is kept where it was asked for by `keep`, and a byte is written
/// only where its page is kept. The table takes 256 KiB, and each page that is kept takes its 65,536 bytes.
#[derive(Drop)]
pub struct SparseMemory {
    table: Vec<u32>,
    frames: Vec<u8>,
}

impl Model for SparseMemory {
    ghost use Rattle.sparse_memory.specs.Kept.{Kept, IsWellKept};

    ghost Value = { Kept };

    ghost view = { λ m. record { table = m.table.items; frames = m.frames.items } };

    ghost invariant = { λ m. IsWellKept (record { table = m.table.items; frames = m.frames.items }) };
}

impl SparseMemory {
    /// Bytes of 0. No page is kept yet.
    ///
    /// # Errors
    ///
    /// Where memory was refused.
    pub fn new(alloc: Global) -> Result<SparseMemory, MemoryRefused>
        ensures zero { IfOk result (λ m. (offset : ℕ) → byte_at m offset ≡ 0) }
        ensures unkept { IfOk result KeepsNone }
    {
        let table = zero_table(alloc, PAGES)?;
        Ok(SparseMemory {
            table,
            frames: Vec::new(alloc),
        })
    }

    /// The byte at an offset.
    #[inline(always)]
    pub fn byte(&self, offset: u32) -> u8
        ensures { result ≡ byte_at self.now offset }
    {
        let frame = self.table[offset as usize / PAGE];
        if frame == 0 {
            0
        } else {
            self.frames[(frame as usize - 1) * PAGE + offset as usize % PAGE]
        }
    }

    /// The number that bytes from an offset on spell, read one by one.
    #[inline(never)]
    #[cold]
    fn number(&self, offset: u64, bytes: u32) -> u64
        requires most { bytes ≤ 8 }
        requires within { offset + bytes ≤ 2 ^ 32 }
        ensures value { result ≡ number_at (byte_at self.now) bytes offset }
        ensures small { result < 256 ^ bytes }
    {
        if bytes == 0 {
            0
        } else {
            u64::from(self.byte(offset as u32)) + 256 * self.number(offset + 1, bytes - 1)
        }
    }

    /// The number that 2 bytes from an offset on spell, the lowest first.
    #[inline(always)]
    pub fn word_2(&self, offset: u32) -> u16
        requires { offset + 2 ≤ 2 ^ 32 }
        ensures { result ≡ number_at (byte_at self.now) 2 offset }
    {
        let within = offset as usize % PAGE;
        let frame = self.table[offset as usize / PAGE];
        if frame == 0 || within > PAGE - 2 {
            return self.number(u64::from(offset), 2) as u16;
        }
        read_2(&self.frames, (frame as usize - 1) * PAGE + within)
    }

    /// The number that 4 bytes from an offset on spell, the lowest first.
    #[inline(always)]
    pub fn word_4(&self, offset: u32) -> u32
        requires { offset + 4 ≤ 2 ^ 32 }
        ensures { result ≡ number_at (byte_at self.now) 4 offset }
    {
        let within = offset as usize % PAGE;
        let frame = self.table[offset as usize / PAGE];
        if frame == 0 || within > PAGE - 4 {
            return self.number(u64::from(offset), 4) as u32;
        }
        read_4(&self.frames, (frame as usize - 1) * PAGE + within)
    }

    /// The number that 8 bytes from an offset on spell, the lowest first.
    #[inline(always)]
    pub fn word_8(&self, offset: u32) -> u64
        requires { offset + 8 ≤ 2 ^ 32 }
        ensures { result ≡ number_at (byte_at self.now) 8 offset }
    {
        let within = offset as usize % PAGE;
        let frame = self.table[offset as usize / PAGE];
        if frame == 0 || within > PAGE - 8 {
            return self.number(u64::from(offset), 8);
        }
        read_8(&self.frames, (frame as usize - 1) * PAGE + within)
    }

    /// Whether the page of an offset is kept.
    #[inline(always)]
    pub fn is_kept(&self, offset: u32) -> bool
        ensures { IsTrue result ↔ IsKept self.now offset }
    {
        self.table[offset as usize / PAGE] != 0
    }

    /// Makes room for the page of an offset.
    fn keep_page(&mut self, offset: u32) -> Result<(), MemoryRefused>
        ensures ok { OnOk result (IsKept self.new offset) }
        ensures bytes { SameBytes self.old self.new }
        ensures all { KeepsAll self.old self.new }
        ensures only { KeepsOnly self.old self.new offset 1 }
        ensures refused { OnErr result (¬ (IsKept self.old offset)) }
    {
        let page = offset as usize / PAGE;
        if self.table[page] == 0 {
            self.table[page] = add_frame(&mut self.frames)?;
        }
        Ok(())
    }

    /// Makes room for the pages of two offsets.
    #[inline(never)]
    #[cold]
    fn keep_pages(&mut self, first: u32, last: u32) -> Result<(), MemoryRefused>
        ensures first { OnOk result (IsKept self.new first) }
        ensures last { OnOk result (IsKept self.new last) }
        ensures refused { OnErr result (IsKept self.old first → ¬ (IsKept self.old last)) }
        ensures bytes { SameBytes self.old self.new }
        ensures all { KeepsAll self.old self.new }
        ensures only { (other : ℕ) → IsKept self.new other → IsKept self.old other ⊎ ((other / 65536 ≡ first / 65536) ⊎ (other / 65536 ≡ last / 65536)) }
    {
        self.keep_page(first)?;
        self.keep_page(last)
    }

    /// Makes room for bytes from an offset on, 1 to 4,096 of them: the only call that takes memory.
    ///
    /// # Errors
    ///
    /// Where memory was refused, for a page of them that wasn't kept. Some of the pages may then be kept, and no byte is changed.
    #[inline(always)]
    pub fn keep(&mut self, offset: u32, bytes: u32) -> Result<(), MemoryRefused>
        requires some { 1 ≤ bytes }
        requires most { bytes ≤ 4096 }
        requires within { offset + bytes ≤ 2 ^ 32 }
        ensures ok { OnOk result (AreKept self.new offset bytes) }
        ensures bytes { SameBytes self.old self.new }
        ensures all { KeepsAll self.old self.new }
        ensures only { KeepsOnly self.old self.new offset bytes }
        ensures refused { OnErr result (¬ (AreKept self.old offset bytes)) }
    {
        let last = offset + (bytes - 1);
        if self.is_kept(offset) && self.is_kept(last) {
            return Ok(());
        }
        self.keep_pages(offset, last)
    }

    /// Writes a byte of a page that is kept.
    #[inline(always)]
    pub fn put(&mut self, offset: u32, byte: u8)
        requires { IsKept self.old offset }
        ensures bytes { WritesByte self.old self.new offset byte }
        ensures pages { SamePages self.old self.new }
    {
        let frame = self.table[offset as usize / PAGE];
        self.frames[(frame as usize - 1) * PAGE + offset as usize % PAGE] = byte;
    }

    /// Writes the lowest bytes of a value from an offset on, one by one.
    #[inline(never)]
    #[cold]
    fn put_bytes(&mut self, offset: u64, bytes: u32, value: u64)
        requires within { offset + bytes ≤ 2 ^ 32 }
        requires kept { AreKept self.old offset bytes }
        ensures bytes { WritesNumber self.old self.new offset bytes value }
        ensures pages { SamePages self.old self.new }
    {
        if bytes > 0 {
            self.put(offset as u32, (value % 256) as u8);
            self.put_bytes(offset + 1, bytes - 1, value / 256);
        }
    }

    /// Writes a value of 2 bytes from an offset on, the lowest first, in pages that are kept.
    #[inline(always)]
    pub fn put_2(&mut self, offset: u32, value: u16)
        requires within { offset + 2 ≤ 2 ^ 32 }
        requires kept { AreKept self.old offset 2 }
        ensures bytes { WritesNumber self.old self.new offset 2 value }
        ensures pages { SamePages self.old self.new }
    {
        let within = offset as usize % PAGE;
        let frame = self.table[offset as usize / PAGE];
        if within > PAGE - 2 {
            return self.put_bytes(u64::from(offset), 2, u64::from(value));
        }
        write_2(
            &mut self.frames,
            (frame as usize - 1) * PAGE + within,
            value,
        );
    }

    /// Writes a value of 4 bytes from an offset on, the lowest first, in pages that are kept.
    #[inline(always)]
    pub fn put_4(&mut self, offset: u32, value: u32)
        requires within { offset + 4 ≤ 2 ^ 32 }
        requires kept { AreKept self.old offset 4 }
        ensures bytes { WritesNumber self.old self.new offset 4 value }
        ensures pages { SamePages self.old self.new }
    {
        let within = offset as usize % PAGE;
        let frame = self.table[offset as usize / PAGE];
        if within > PAGE - 4 {
            return self.put_bytes(u64::from(offset), 4, u64::from(value));
        }
        write_4(
            &mut self.frames,
            (frame as usize - 1) * PAGE + within,
            value,
        );
    }

    /// Writes a value of 8 bytes from an offset on, the lowest first, in pages that are kept.
    #[inline(always)]
    pub fn put_8(&mut self, offset: u32, value: u64)
        requires within { offset + 8 ≤ 2 ^ 32 }
        requires kept { AreKept self.old offset 8 }
        ensures bytes { WritesNumber self.old self.new offset 8 value }
        ensures pages { SamePages self.old self.new }
    {
        let within = offset as usize % PAGE;
        let frame = self.table[offset as usize / PAGE];
        if within > PAGE - 8 {
            return self.put_bytes(u64::from(offset), 8, value);
        }
        write_8(
            &mut self.frames,
            (frame as usize - 1) * PAGE + within,
            value,
        );
    }
}
