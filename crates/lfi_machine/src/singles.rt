//! Single loads and stores.

ghost use Rattle.std.specs.Prelude.{◌≡◌, ◌≢◌, ℕ, [], ◌+◌, ◌-◌, ◌*◌, ◌^◌, ◌<◌, ◌≤◌, true, false, Some, None, IfOk, IfErr, if◌then◌else◌};
ghost use Rattle.a64_word.specs.declared.instruction.Instruction.{Instruction};
ghost use Rattle.a64_word.specs.Operands.{size_code};
ghost use Rattle.a64_word.specs.Bytes.{low_bytes};
ghost use Rattle.a64_effects.specs.Effects.{data_width, is_store};
ghost use Rattle.sparse_memory.specs.Kept.{KeepsOnly};
ghost use Rattle.a64_semantics.specs.Registers.{x_at};
ghost use Rattle.a64_semantics.specs.Accesses.{extended_index, extended_load, first_byte, stored_by, touches};
ghost use Rattle.a64_semantics.specs.Writes.{to_base, to_loaded};
ghost use Rattle.lfi_image.specs.Image.{IsImage};
ghost use Rattle.lfi_confinement.specs.Moves.{escape};
ghost use Rattle.lfi_confinement.specs.Slots.{base};
ghost use Rattle.lfi_machine.specs.Keeping.{KeepsStored};
ghost use Rattle.lfi_machine.specs.Owned.{memory, writes_by, IsLocated};
ghost use Rattle.lfi_machine.specs.inner.Transfers.{Transfers, denied_in, access_move, Accesses, base_write, Finishes};
ghost use Rattle.lfi_machine.specs.inner.Addresses.{unsigned_access, signed_access, index_access, ordered_access};

use crate::halt::Halt;
use crate::slot::{AccessKind, SlotMemory, bytes_of};
use a64_effects::ordered_transfer;
use a64_semantics::Registers;
use a64_word::{
    IndexExtend, IndexMode, Ordered, Register, RegisterOffset, SignedOffset, Size, Transfer,
    UnsignedOffset, Width,
};
use lfi_confinement::StopCause;

/// What a single access transfers.
#[derive(Clone, Copy)]
struct Operand {
    size: Size,
    transfer: Transfer,
    /// The data register; number 31 is zr.
    rt: Register,
}

/// What a single load makes of the number that it loads.
#[inline(always)]
fn extended_load(size: Size, transfer: Transfer, value: u64) -> u64
    requires { value < 256 ^ (2 ^ size_code size) }
    ensures { result ≡ extended_load size transfer value }
{
    match (transfer, size) {
        (Transfer::LoadSignedX, Size::Byte) if value >= 1 << 7 => value + 0xFFFF_FFFF_FFFF_FF00,
        (Transfer::LoadSignedX, Size::Half) if value >= 1 << 15 => value + 0xFFFF_FFFF_FFFF_0000,
        (Transfer::LoadSignedX, Size::Word) if value >= 1 << 31 => value + 0xFFFF_FFFF_0000_0000,
        (Transfer::LoadSignedW, Size::Byte) if value >= 1 << 7 => value + 0xFFFF_FF00,
        (Transfer::LoadSignedW, Size::Half) if value >= 1 << 15 => value + 0xFFFF_0000,
        _ => value,
    }
}

/// How widely a single access uses its data register.
#[inline(always)]
fn data_width(size: Size, transfer: Transfer) -> Width
    ensures { result ≡ data_width size transfer }
{
    match (size, transfer) {
        (_, Transfer::LoadSignedX) => Width::X,
        (_, Transfer::LoadSignedW) => Width::W,
        (Size::Double, _) => Width::X,
        _ => Width::W,
    }
}

/// The offset of bytes that may be accessed so.
#[inline(always)]
pub(crate) fn located(
    slot: &SlotMemory,
    access: AccessKind,
    bytes: u32,
    address: u64,
) -> Result<u32, Halt>
    requires some { 1 ≤ bytes }
    requires few { bytes ≤ 16 }
    requires within { address + bytes < 2 ^ 64 }
    ensures ok { IfOk result (λ offset. IsLocated slot.now (writes_by access) bytes address offset) }
    ensures denied { IfErr result (λ halt. (at : ℕ) × (halt ≡ Halt.Stopped (StopCause.NoAccess at)) × (denied_in slot.now (record { stores = writes_by access; bytes = bytes; address = address }) ≡ Some at)) }
{
    match slot.locate(access, bytes, address) {
        Ok(offset) => Ok(offset),
        Err(denied) => Err(Halt::Stopped(StopCause::NoAccess(denied))),
    }
}

/// Stores the lowest bytes of a register from an address on.
#[inline(always)]
fn store(
    slot: &mut SlotMemory,
    registers: &Registers,
    size: Size,
    rt: Register,
    address: u64,
) -> Result<(), Halt>
    requires { address + 2 ^ size_code size < 2 ^ 64 }
    ensures transfers { Transfers slot.old slot.new registers.now registers.now
        (record { stores = true; bytes = 2 ^ size_code size; address = address }) [] (low_bytes (2 ^ size_code size) (x_at registers.now rt)) result }
    ensures keeps { KeepsOnly slot.old.kept slot.new.kept (address - base slot.old.image) (2 ^ size_code size) }
    ensures image { slot.new.image ≡ slot.old.image }
{
    let bytes = bytes_of(size);
    let offset = located(slot, AccessKind::Store, bytes, address)?;
    match slot.keep(offset, bytes) {
        Ok(()) => {
            slot.put(size, offset, registers.x(rt));
            Ok(())
        }
        Err(_) => Err(Halt::NoMemory),
    }
}

/// The transfer of a single access, at an address.
#[inline(always)]
fn transfer(
    slot: &mut SlotMemory,
    registers: &mut Registers,
    size: Size,
    transfer: Transfer,
    rt: Register,
    address: u64,
) -> Result<(), Halt>
    requires { address + 2 ^ size_code size < 2 ^ 64 }
    ensures transfers { Transfers slot.old slot.new registers.old registers.new
        (record { stores = is_store transfer; bytes = 2 ^ size_code size; address = address })
        (to_loaded size transfer rt (memory slot.old) address []) (stored_by size transfer (x_at registers.old rt)) result }
    ensures keeps { KeepsOnly slot.old.kept slot.new.kept (address - base slot.old.image) (if is_store transfer then 2 ^ size_code size else 0) }
    ensures image { slot.new.image ≡ slot.old.image }
{
    match transfer {
        Transfer::Store => store(slot, registers, size, rt, address),
        _ => {
            let bytes = bytes_of(size);
            let offset = located(slot, AccessKind::Load, bytes, address)?;
            let value = slot.load(size, offset);
            let value = extended_load(size, transfer, value);
            registers.put(rt, data_width(size, transfer), value);
            Ok(())
        }
    }
}

/// An index register, extended to 64 bits.
#[inline(always)]
fn extended_index(extend: IndexExtend, held: u64) -> u64
    ensures { result ≡ extended_index extend held }
{
    match extend {
        IndexExtend::Uxtw => held % (1 << 32),
        IndexExtend::Lsl | IndexExtend::Sxtx => held,
        IndexExtend::Sxtw => {
            let low = held % (1 << 32);
            if low < 1 << 31 {
                low
            } else {
                low + 0xFFFF_FFFF_0000_0000
            }
        }
    }
}

/// A single access at an address: its transfer, its new base, and the step to the next word.
#[inline(always)]
fn single(
    slot: &mut SlotMemory,
    registers: &mut Registers,
    operand: Operand,
    address: u64,
    rn: Register,
    moved: Option<u64>,
) -> Result<(), Halt>
    requires { address + 2 ^ size_code operand.size < 2 ^ 64 }
    ensures done { Finishes slot.old slot.new registers.old registers.new
        (record { stores = is_store operand.transfer; bytes = 2 ^ size_code operand.size; address = address })
        (to_loaded operand.size operand.transfer operand.rt (memory slot.old) address []) (stored_by operand.size operand.transfer (x_at registers.old operand.rt))
        (base_write rn moved) result }
    ensures keeps { KeepsOnly slot.old.kept slot.new.kept (address - base slot.old.image) (if is_store operand.transfer then 2 ^ size_code operand.size else 0) }
    ensures image { slot.new.image ≡ slot.old.image }
{
    transfer(
        slot,
        registers,
        operand.size,
        operand.transfer,
        operand.rt,
        address,
    )?;
    if let Some(moved) = moved {
        registers.put_or_sp(rn, Width::X, moved);
    }
    registers.pc = registers.pc.wrapping_add(4);
    Ok(())
}

/// The address of a load or store at an unsigned offset.
#[inline(always)]
fn unsigned_address(registers: &Registers, i: &UnsignedOffset) -> u64
    ensures { result ≡ first_byte (unsigned_access i.now) registers.now }
{
    let offset = u64::from(i.imm12) * u64::from(bytes_of(i.size));
    registers.x_or_sp(i.rn).wrapping_add(offset)
}

/// The loads and stores at a base and an unsigned offset.
///
/// # Errors
///
/// Why the machine stops: a byte that may not be accessed, or memory that was refused. No byte and no register has
/// changed then.
#[inline(always)]
pub fn unsigned_offset(
    slot: &mut SlotMemory,
    registers: &mut Registers,
    i: &UnsignedOffset,
) -> Result<(), Halt>
    requires image { IsImage slot.old.image }
    requires confined { access_move (Instruction.UnsignedOffset i.now) slot.old registers.old ≢ escape }
    ensures accesses { Accesses (Instruction.UnsignedOffset i.now) slot.old slot.new registers.old registers.new result }
    ensures keeps { KeepsStored (touches (Instruction.UnsignedOffset i.now) registers.old) slot.old slot.new }
    ensures image { slot.new.image ≡ slot.old.image }
{
    let address = unsigned_address(registers, i);
    let operand = Operand {
        size: i.size,
        transfer: i.transfer,
        rt: i.rt,
    };
    single(slot, registers, operand, address, i.rn, None)
}

/// The address of a load or store at a signed offset.
#[inline(always)]
fn signed_address(registers: &Registers, i: &SignedOffset) -> u64
    ensures { result ≡ first_byte (signed_access i.now) registers.now }
{
    let base = registers.x_or_sp(i.rn);
    match i.mode {
        IndexMode::Unscaled | IndexMode::PreIndex => base.wrapping_add_signed(i64::from(i.imm9)),
        IndexMode::PostIndex => base,
    }
}

/// The new base of a load or store at a signed offset, where it changes its base.
#[inline(always)]
fn signed_base(registers: &Registers, i: &SignedOffset) -> Option<u64>
    ensures { base_write i.now.rn result ≡ to_base (signed_access i.now) registers.now }
{
    match i.mode {
        IndexMode::Unscaled => None,
        IndexMode::PreIndex | IndexMode::PostIndex => {
            Some(
                registers
                    .x_or_sp(i.rn)
                    .wrapping_add_signed(i64::from(i.imm9)),
            )
        }
    }
}

/// The loads and stores at a base and a signed offset, which may change the base.
///
/// # Errors
///
/// As of [`unsigned_offset`].
#[inline(always)]
pub fn signed_offset(
    slot: &mut SlotMemory,
    registers: &mut Registers,
    i: &SignedOffset,
) -> Result<(), Halt>
    requires image { IsImage slot.old.image }
    requires confined { access_move (Instruction.SignedOffset i.now) slot.old registers.old ≢ escape }
    ensures accesses { Accesses (Instruction.SignedOffset i.now) slot.old slot.new registers.old registers.new result }
    ensures keeps { KeepsStored (touches (Instruction.SignedOffset i.now) registers.old) slot.old slot.new }
    ensures image { slot.new.image ≡ slot.old.image }
{
    let address = signed_address(registers, i);
    let moved = signed_base(registers, i);
    let operand = Operand {
        size: i.size,
        transfer: i.transfer,
        rt: i.rt,
    };
    single(slot, registers, operand, address, i.rn, moved)
}

/// The address of a load or store at an index.
#[inline(always)]
fn index_address(registers: &Registers, i: &RegisterOffset) -> u64
    ensures { result ≡ first_byte (index_access i.now) registers.now }
{
    let index = extended_index(i.extend, registers.x(i.rm));
    let base = registers.x_or_sp(i.rn);
    if i.scaled {
        base.wrapping_add(index.wrapping_mul(u64::from(bytes_of(i.size))))
    } else {
        base.wrapping_add(index)
    }
}

/// The loads and stores at a base and an index.
///
/// # Errors
///
/// As of [`unsigned_offset`].
#[inline(always)]
pub fn register_offset(
    slot: &mut SlotMemory,
    registers: &mut Registers,
    i: &RegisterOffset,
) -> Result<(), Halt>
    requires image { IsImage slot.old.image }
    requires confined { access_move (Instruction.RegisterOffset i.now) slot.old registers.old ≢ escape }
    ensures accesses { Accesses (Instruction.RegisterOffset i.now) slot.old slot.new registers.old registers.new result }
    ensures keeps { KeepsStored (touches (Instruction.RegisterOffset i.now) registers.old) slot.old slot.new }
    ensures image { slot.new.image ≡ slot.old.image }
{
    let address = index_address(registers, i);
    let operand = Operand {
        size: i.size,
        transfer: i.transfer,
        rt: i.rt,
    };
    single(slot, registers, operand, address, i.rn, None)
}

/// The address of an ordered load or store.
#[inline(always)]
fn ordered_address(registers: &Registers, i: &Ordered) -> u64
    ensures { result ≡ first_byte (ordered_access i.now) registers.now }
{
    registers.x_or_sp(i.rn)
}

/// The ordered loads and stores, at a base. One thread runs, so their order is that of the others.
///
/// # Errors
///
/// As of [`unsigned_offset`].
#[inline(always)]
pub fn ordered(slot: &mut SlotMemory, registers: &mut Registers, i: &Ordered) -> Result<(), Halt>
    requires image { IsImage slot.old.image }
    requires confined { access_move (Instruction.Ordered i.now) slot.old registers.old ≢ escape }
    ensures accesses { Accesses (Instruction.Ordered i.now) slot.old slot.new registers.old registers.new result }
    ensures keeps { KeepsStored (touches (Instruction.Ordered i.now) registers.old) slot.old slot.new }
    ensures image { slot.new.image ≡ slot.old.image }
{
    let address = ordered_address(registers, i);
    let operand = Operand {
        size: i.size,
        transfer: ordered_transfer(i.load),
        rt: i.rt,
    };
    single(slot, registers, operand, address, i.rn, None)
}
