//! Loads and stores of a pair.

ghost use Rattle.std.specs.Prelude.{◌≡◌, ◌≢◌, [], ◌++◌, ◌+◌, ◌-◌, ◌*◌, ◌^◌, ◌<◌, ◌≤◌, true, false, Some, None, if◌then◌else◌, not};
ghost use Rattle.a64_word.specs.declared.instruction.Instruction.{Instruction};
ghost use Rattle.a64_word.specs.Operands.{size_code};
ghost use Rattle.a64_effects.specs.Effects.{pair_bytes, pair_offset};
ghost use Rattle.a64_word.specs.Bytes.{low_bytes};
ghost use Rattle.sparse_memory.specs.Kept.{KeepsOnly};
ghost use Rattle.a64_semantics.specs.Registers.{x_at};
ghost use Rattle.a64_semantics.specs.Accesses.{first_byte, register_bytes, stored, touches};
ghost use Rattle.a64_semantics.specs.Writes.{to_base, with_loaded};
ghost use Rattle.lfi_image.specs.Image.{IsImage};
ghost use Rattle.lfi_confinement.specs.Moves.{escape};
ghost use Rattle.lfi_confinement.specs.Slots.{base};
ghost use Rattle.lfi_machine.specs.Keeping.{KeepsStored};
ghost use Rattle.lfi_machine.specs.Owned.{memory};
ghost use Rattle.lfi_machine.specs.inner.Transfers.{Transfers, access_move, Accesses, base_write, Finishes};
ghost use Rattle.lfi_machine.specs.inner.Addresses.{pair_access};

use crate::halt::Halt;
use crate::singles::located;
use crate::slot::{AccessKind, SlotMemory};
use a64_semantics::Registers;
use a64_word::{Pair, PairMode, Size, Width};

/// The size of each register of a pair.
#[inline(always)]
fn pair_size(width: Width) -> Size
    ensures { 2 ^ size_code result ≡ register_bytes width }
{
    match width {
        Width::W => Size::Word,
        Width::X => Size::Double,
    }
}

/// How many bytes each register of a pair has.
#[inline(always)]
fn register_bytes(width: Width) -> u32
    ensures value { result ≡ register_bytes width }
    ensures double { 2 * result ≡ pair_bytes width }
    ensures most { result ≤ 8 }
{
    match width {
        Width::W => 4,
        Width::X => 8,
    }
}

/// How many bytes a pair has.
#[inline(always)]
fn pair_bytes(width: Width) -> u32
    ensures value { result ≡ pair_bytes width }
    ensures some { 1 ≤ result }
    ensures most { result ≤ 16 }
{
    match width {
        Width::W => 8,
        Width::X => 16,
    }
}

/// Loads a pair from an address.
#[inline(always)]
fn load_pair(
    slot: &SlotMemory,
    registers: &mut Registers,
    i: &Pair,
    address: u64,
) -> Result<(), Halt>
    requires load { i.now.load ≡ true }
    requires within { address + pair_bytes i.now.width < 2 ^ 64 }
    ensures { Transfers slot.now slot.now registers.old registers.new
        (record { stores = false; bytes = pair_bytes i.now.width; address = address })
        (with_loaded (Instruction.Pair i.now) (memory slot.now) address []) [] result }
{
    let size = pair_size(i.width);
    let half = register_bytes(i.width);
    let offset = located(slot, AccessKind::Load, pair_bytes(i.width), address)?;
    let first = slot.load(size, offset);
    let second = slot.load(size, offset + half);
    registers.put(i.rt, i.width, first);
    registers.put(i.rt2, i.width, second);
    Ok(())
}

/// Stores a pair from an address on.
#[inline(always)]
fn store_pair(
    slot: &mut SlotMemory,
    registers: &Registers,
    i: &Pair,
    address: u64,
) -> Result<(), Halt>
    requires { address + pair_bytes i.now.width < 2 ^ 64 }
    ensures transfers { Transfers slot.old slot.new registers.now registers.now
        (record { stores = true; bytes = pair_bytes i.now.width; address = address }) []
        (low_bytes (register_bytes i.now.width) (x_at registers.now i.now.rt) ++ low_bytes (register_bytes i.now.width) (x_at registers.now i.now.rt2)) result }
    ensures keeps { KeepsOnly slot.old.kept slot.new.kept (address - base slot.old.image) (pair_bytes i.now.width) }
    ensures image { slot.new.image ≡ slot.old.image }
{
    let size = pair_size(i.width);
    let half = register_bytes(i.width);
    let bytes = pair_bytes(i.width);
    let offset = located(slot, AccessKind::Store, bytes, address)?;
    match slot.keep(offset, bytes) {
        Ok(()) => {
            slot.put(size, offset, registers.x(i.rt));
            slot.put(size, offset + half, registers.x(i.rt2));
            Ok(())
        }
        Err(_) => Err(Halt::NoMemory),
    }
}

/// The transfer of a pair, at an address.
#[inline(always)]
fn transfer_pair(
    slot: &mut SlotMemory,
    registers: &mut Registers,
    i: &Pair,
    address: u64,
) -> Result<(), Halt>
    requires { address + pair_bytes i.now.width < 2 ^ 64 }
    ensures transfers { Transfers slot.old slot.new registers.old registers.new
        (record { stores = not i.now.load; bytes = pair_bytes i.now.width; address = address })
        (with_loaded (Instruction.Pair i.now) (memory slot.old) address []) (stored (Instruction.Pair i.now) registers.old) result }
    ensures keeps { KeepsOnly slot.old.kept slot.new.kept (address - base slot.old.image) (if not i.now.load then pair_bytes i.now.width else 0) }
    ensures image { slot.new.image ≡ slot.old.image }
{
    if i.load {
        load_pair(slot, registers, i, address)
    } else {
        store_pair(slot, registers, i, address)
    }
}

/// The address of a load or store of a pair.
#[inline(always)]
fn pair_address(registers: &Registers, i: &Pair) -> u64
    ensures { result ≡ first_byte (pair_access i.now) registers.now }
{
    let base = registers.x_or_sp(i.rn);
    match i.mode {
        PairMode::Offset | PairMode::PreIndex => base.wrapping_add_signed(pair_offset(i)),
        PairMode::PostIndex => base,
    }
}

/// The offset of a load or store of a pair, in bytes.
#[inline(always)]
fn pair_offset(i: &Pair) -> i64
    ensures { result ≡ pair_offset i.now.width i.now.imm7 }
{
    match i.width {
        Width::W => i64::from(i.imm7) * 4,
        Width::X => i64::from(i.imm7) * 8,
    }
}

/// The new base of a load or store of a pair, where it changes its base.
#[inline(always)]
fn pair_base(registers: &Registers, i: &Pair) -> Option<u64>
    ensures { base_write i.now.rn result ≡ to_base (pair_access i.now) registers.now }
{
    match i.mode {
        PairMode::Offset => None,
        PairMode::PreIndex | PairMode::PostIndex => {
            Some(registers.x_or_sp(i.rn).wrapping_add_signed(pair_offset(i)))
        }
    }
}

/// A load or store of a pair at an address: its transfer, its new base, and the step to the next word.
#[inline(always)]
fn pair_at(
    slot: &mut SlotMemory,
    registers: &mut Registers,
    i: &Pair,
    address: u64,
    moved: Option<u64>,
) -> Result<(), Halt>
    requires { address + pair_bytes i.now.width < 2 ^ 64 }
    ensures done { Finishes slot.old slot.new registers.old registers.new
        (record { stores = not i.now.load; bytes = pair_bytes i.now.width; address = address })
        (with_loaded (Instruction.Pair i.now) (memory slot.old) address []) (stored (Instruction.Pair i.now) registers.old)
        (base_write i.now.rn moved) result }
    ensures keeps { KeepsOnly slot.old.kept slot.new.kept (address - base slot.old.image) (if not i.now.load then pair_bytes i.now.width else 0) }
    ensures image { slot.new.image ≡ slot.old.image }
{
    transfer_pair(slot, registers, i, address)?;
    if let Some(moved) = moved {
        registers.put_or_sp(i.rn, Width::X, moved);
    }
    registers.pc = registers.pc.wrapping_add(4);
    Ok(())
}

/// The loads and stores of a pair.
///
/// # Errors
///
/// Why the machine stops: a byte that may not be accessed, or memory that was refused. No byte and no register has
/// changed then.
#[inline(always)]
pub fn pair(slot: &mut SlotMemory, registers: &mut Registers, i: &Pair) -> Result<(), Halt>
    requires image { IsImage slot.old.image }
    requires confined { access_move (Instruction.Pair i.now) slot.old registers.old ≢ escape }
    ensures accesses { Accesses (Instruction.Pair i.now) slot.old slot.new registers.old registers.new result }
    ensures keeps { KeepsStored (touches (Instruction.Pair i.now) registers.old) slot.old slot.new }
    ensures image { slot.new.image ≡ slot.old.image }
{
    let address = pair_address(registers, i);
    let moved = pair_base(registers, i);
    pair_at(slot, registers, i, address, moved)
}
