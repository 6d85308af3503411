ghost use Rattle.std.specs.Prelude.{◌≡◌, ℕ, ◌+◌, ◌-◌, ◌*◌, ◌^◌, ◌<◌, ◌≤◌, true, false, not, Bool, length, SomeIff, IfOk, IfErr, OnOk, OnErr, IsErrOf, IsTrue, Some, None};
ghost use Rattle.a64_word.specs.Operands.{size_code};
ghost use Rattle.a64_word.specs.Bytes.{number_at};
ghost use Rattle.sparse_memory.specs.Kept.{byte_at, IsKept, AreKept, KeepsNone, KeepsOnly, SameBytes, SamePages, WritesByte, WritesNumber};
ghost use Rattle.lfi_image.specs.Image.{IsImage};
ghost use Rattle.lfi_confinement.specs.Slots.{base, permission_at, is_permitted, byte_in};
ghost use Rattle.lfi_confinement.specs.Moves.{first_denied};
ghost use Rattle.lfi_machine.specs.Owned.{memory, fault_number, writes_by, IsLocated};

use a64_word::Size;
use lfi_image::CompleteImage;
use lfi_rules::map::{CODE_OFFSET, ENTRY_STEP, FIRST_ENTRY, SLOT_BYTES, TABLE_BYTES};
use sparse_memory::{MemoryRefused, SparseMemory};
use std::alloc::Global;
use std::error::Error;
use std::fmt;
use std::marker::Model;

/// How bytes are accessed.
#[derive(Clone, Copy, PartialEq, Eq)]
pub(crate) enum AccessKind {
    /// They are read.
    Load,
    /// They are written.
    Store,
}

impl AccessKind {
    /// Whether it reads.
    #[inline(always)]
    fn is_load(self) -> bool
        ensures { result ≡ not (writes_by self) }
    {
        match self {
            AccessKind::Load => true,
            AccessKind::Store => false,
        }
    }
}

/// What may go wrong when the runtime writes a byte.
#[derive(Clone, Copy, Debug, PartialEq, Eq)]
pub enum DataFault {
    /// The byte may not be written.
    NotWritable,
    /// Memory was refused.
    NoMemory,
}

impl DataFault {
    /// The fault's number, 1 or 2.
    pub fn number(self) -> u8
        ensures { result ≡ fault_number self }
    {
        match self {
            DataFault::NotWritable => 1,
            DataFault::NoMemory => 2,
        }
    }
}

impl fmt::Display for DataFault {
    fn fmt<W: fmt::Write>(&self, f: &mut fmt::Formatter<W>) -> fmt::Result {
        match self {
            DataFault::NotWritable => f.write_str("the byte may not be written"),
            DataFault::NoMemory => f.write_str("no memory"),
        }
    }
}

impl Error for DataFault {}

/// How many bytes an access of a size has.
#[inline(always)]
pub(crate) fn bytes_of(size: Size) -> u32
    ensures value { result ≡ 2 ^ size_code size }
    ensures some { 1 ≤ result }
    ensures most { result ≤ 8 }
{
    match size {
        Size::Byte => 1,
        Size::Half => 2,
        Size::Word => 4,
        Size::Double => 8,
    }
}

/// The bytes of a slot, with the image that lies in it.
///
/// A contract sees it as the image and the bytes that were written.
#[derive(Drop)]
pub struct SlotMemory {
    image: CompleteImage,
    memory: SparseMemory,
    base: u64,
    /// The offset of the first byte that may be written.
    first: u64,
}

impl Model for SlotMemory {
    ghost use Rattle.std.specs.Prelude.{◌≡◌, length};
    ghost use Rattle.lfi_module.specs.Numbers.{base_of};
    ghost use Rattle.lfi_image.specs.Image.{IsImage};
    ghost use Rattle.lfi_confinement.specs.Slots.{data_offset};
    ghost use Rattle.lfi_machine.specs.Owned.{Owned};

    ghost Value = { Owned };

    ghost view = { λ d. record { image = d.image; kept = d.memory } };

    ghost invariant = { λ d. IsImage d.image × (d.base ≡ base_of d.image.slot) × (d.first ≡ data_offset (length d.image.words)) };
}

impl SlotMemory {
    /// The slot of an image, in which nothing is written yet.
    ///
    /// # Errors
    ///
    /// Where memory was refused.
    pub fn new(alloc: Global, image: CompleteImage) -> Result<SlotMemory, MemoryRefused>
        ensures image { IfOk result (λ d. d.image ≡ image) }
        ensures zero { IfOk result (λ d. (offset : ℕ) → byte_at d.kept offset ≡ 0) }
        ensures unkept { IfOk result (λ d. KeepsNone d.kept) }
    {
        let memory = SparseMemory::new(alloc)?;
        let words = u64::from(image.words().number());
        let base = image.slot().base();
        Ok(SlotMemory {
            image,
            memory,
            base,
            first: (CODE_OFFSET + 4 * words + 4095) / 4096 * 4096,
        })
    }

    /// The first address of the slot.
    #[inline(always)]
    pub fn base(&self) -> u64
        ensures value { result ≡ base self.now.image }
        ensures lawful { IsImage self.now.image }
    {
        self.base
    }

    /// The image that lies in the slot.
    pub fn image(&self) -> &CompleteImage
        ensures { result.now ≡ self.now.image }
    {
        &self.image
    }

    /// Whether the byte at an address may be accessed so.
    pub(crate) fn is_permitted(&self, access: AccessKind, address: u64) -> bool
        ensures { result ≡ is_permitted (writes_by access) (permission_at self.now.image address) }
    {
        if address < self.base {
            return false;
        }
        let offset = address - self.base;
        if offset < TABLE_BYTES {
            access.is_load()
        } else if offset < CODE_OFFSET {
            false
        } else if offset < self.first {
            access.is_load()
        } else {
            offset < SLOT_BYTES
        }
    }

    /// Whether `bytes` bytes from an address on may be written.
    #[inline(always)]
    fn is_all_data(&self, bytes: u32, address: u64) -> bool
        requires { bytes ≤ 16 }
        ensures { IsTrue result → (stores : Bool) → first_denied self.now.image stores bytes address ≡ None }
    {
        // Of an address below the slot the difference wraps to an offset above it, so that no test of its own is needed.
        let offset = address.wrapping_sub(self.base);
        self.first <= offset && offset <= SLOT_BYTES - u64::from(bytes)
    }

    /// The least address of `bytes` from one on whose byte may not be accessed so, looked for one by one.
    #[inline(never)]
    #[cold]
    fn first_denied(&self, access: AccessKind, bytes: u32, address: u64) -> Option<u64>
        requires { address + bytes < 2 ^ 64 }
        ensures { result ≡ first_denied self.now.image (writes_by access) bytes address }
    {
        if bytes == 0 {
            None
        } else if self.is_permitted(access, address) {
            self.first_denied(access, bytes - 1, address + 1)
        } else {
            Some(address)
        }
    }

    /// The least address of `bytes` from one on whose byte may not be accessed so, if there is one.
    #[inline(always)]
    pub(crate) fn denied(&self, access: AccessKind, bytes: u32, address: u64) -> Option<u64>
        requires few { bytes ≤ 16 }
        requires within { address + bytes < 2 ^ 64 }
        ensures { result ≡ first_denied self.now.image (writes_by access) bytes address }
    {
        if self.is_all_data(bytes, address) {
            None
        } else {
            self.first_denied(access, bytes, address)
        }
    }

    /// The offset of `bytes` bytes that may be accessed so; or the least address of one of them that may not.
    ///
    /// # Errors
    ///
    /// The least address of a byte that may not be accessed so.
    #[inline(always)]
    pub(crate) fn locate(&self, access: AccessKind, bytes: u32, address: u64) -> Result<u32, u64>
        requires some { 1 ≤ bytes }
        requires few { bytes ≤ 16 }
        requires within { address + bytes < 2 ^ 64 }
        ensures ok { IfOk result (λ offset. IsLocated self.now (writes_by access) bytes address offset) }
        ensures denied { IfErr result (λ denied. first_denied self.now.image (writes_by access) bytes address ≡ Some denied) }
    {
        match self.denied(access, bytes, address) {
            Some(denied) => Err(denied),
            None => Ok((address - self.base) as u32),
        }
    }

    /// The byte at an offset.
    fn byte(&self, offset: u32) -> u8
        ensures { result ≡ byte_in self.now.image (byte_at self.now.kept) offset }
    {
        let at = u64::from(offset);
        if at < TABLE_BYTES {
            let entry = FIRST_ENTRY + ENTRY_STEP * (at / 8);
            ((entry >> (8 * (at % 8))) & 0xFF) as u8
        } else if at < self.first {
            let place = at.saturating_sub(CODE_OFFSET) / 4;
            let shift = 8 * (at.saturating_sub(CODE_OFFSET) % 4);
            if place < u64::from(self.image.words().number()) {
                ((self.image.word(place as u32) >> shift) & 0xFF) as u8
            } else {
                0
            }
        } else {
            self.memory.byte(offset)
        }
    }

    /// The byte at an address, where it may be read.
    pub fn read(&self, at: u64) -> Option<u8>
        ensures { SomeIff result (is_permitted false (permission_at self.now.image at) ≡ true) (memory self.now at) }
    {
        if self.is_permitted(AccessKind::Load, at) {
            Some(self.byte((at - self.base) as u32))
        } else {
            None
        }
    }

    /// Writes a byte, where it may be written. The image stays.
    ///
    /// # Errors
    ///
    /// Why the byte wasn't written: it may not be, or memory was refused for its page, which wasn't kept.
    pub fn write(&mut self, at: u64, byte: u8) -> Result<(), DataFault>
        ensures image { self.new.image ≡ self.old.image }
        ensures permitted { OnOk result (is_permitted true (permission_at self.old.image at) ≡ true) }
        ensures written { OnOk result (WritesByte self.old.kept self.new.kept (at - base self.old.image) byte) }
        ensures not_writable { IsErrOf result DataFault.NotWritable → is_permitted true (permission_at self.old.image at) ≡ false }
        ensures no_memory { IsErrOf result DataFault.NoMemory → is_permitted true (permission_at self.old.image at) ≡ true }
        ensures not_kept { IsErrOf result DataFault.NoMemory → ¬ (IsKept self.old.kept (at - base self.old.image)) }
        ensures unchanged { OnErr result (SameBytes self.old.kept self.new.kept) }
        ensures only { KeepsOnly self.old.kept self.new.kept (at - base self.old.image) 1 }
    {
        if !self.is_permitted(AccessKind::Store, at) {
            return Err(DataFault::NotWritable);
        }
        let offset = (at - self.base) as u32;
        match self.memory.keep(offset, 1) {
            Ok(()) => {
                self.memory.put(offset, byte);
                Ok(())
            }
            Err(_) => Err(DataFault::NoMemory),
        }
    }

    /// The number that `bytes` bytes from an offset on spell, read one by one.
    #[inline(never)]
    #[cold]
    fn number(&self, offset: u64, bytes: u32) -> u64
        requires most { bytes ≤ 8 }
        requires within { offset + bytes ≤ 2 ^ 32 }
        ensures value { result ≡ number_at (byte_in self.now.image (byte_at self.now.kept)) bytes offset }
        ensures small { result < 256 ^ bytes }
    {
        if bytes == 0 {
            0
        } else {
            u64::from(self.byte(offset as u32)) + 256 * self.number(offset + 1, bytes - 1)
        }
    }

    /// The number that the bytes from an offset on spell, the lowest first.
    #[inline(always)]
    pub(crate) fn load(&self, size: Size, offset: u32) -> u64
        requires { offset + 2 ^ size_code size ≤ 2 ^ 32 }
        ensures value { result ≡ number_at (byte_in self.now.image (byte_at self.now.kept)) (2 ^ size_code size) offset }
        ensures small { result < 256 ^ (2 ^ size_code size) }
    {
        if u64::from(offset) < self.first {
            return self.number(u64::from(offset), bytes_of(size));
        }
        match size {
            Size::Byte => u64::from(self.memory.byte(offset)),
            Size::Half => u64::from(self.memory.word_2(offset)),
            Size::Word => u64::from(self.memory.word_4(offset)),
            Size::Double => self.memory.word_8(offset),
        }
    }

    /// Makes room for `bytes` bytes from an offset on: the only call here that takes memory, beside `new` and `write`.
    ///
    /// # Errors
    ///
    /// Where memory was refused, for a page of these bytes that wasn't kept. No byte has changed then.
    #[inline(always)]
    pub(crate) fn keep(&mut self, offset: u32, bytes: u32) -> Result<(), MemoryRefused>
        requires some { 1 ≤ bytes }
        requires few { bytes ≤ 16 }
        requires within { offset + bytes ≤ 2 ^ 32 }
        ensures ok { OnOk result (AreKept self.new.kept offset bytes) }
        ensures bytes { SameBytes self.old.kept self.new.kept }
        ensures only { KeepsOnly self.old.kept self.new.kept offset bytes }
        ensures refused { OnErr result (¬ (AreKept self.old.kept offset bytes)) }
        ensures image { self.new.image ≡ self.old.image }
    {
        self.memory.keep(offset, bytes)
    }

    /// Writes the lowest bytes of a value from an offset on, in pages that are kept.
    #[inline(always)]
    pub(crate) fn put(&mut self, size: Size, offset: u32, value: u64)
        requires within { offset + 2 ^ size_code size ≤ 2 ^ 32 }
        requires kept { AreKept self.old.kept offset (2 ^ size_code size) }
        ensures bytes { WritesNumber self.old.kept self.new.kept offset (2 ^ size_code size) value }
        ensures pages { SamePages self.old.kept self.new.kept }
        ensures image { self.new.image ≡ self.old.image }
    {
        match size {
            Size::Byte => self.memory.put(offset, (value % 256) as u8),
            Size::Half => self.memory.put_2(offset, (value % (1 << 16)) as u16),
            Size::Word => self.memory.put_4(offset, (value % (1 << 32)) as u32),
            Size::Double => self.memory.put_8(offset, value),
        }
    }
}
