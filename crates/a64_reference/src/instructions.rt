//! What instructions compute, by class.
ghost use Rattle.std.specs.Prelude.{◌≡◌, ◌<◌, ◌≤◌, false, IfSome, is_some};
ghost use Rattle.a64_reference.specs.Results.{computes, sets_flags, is_ands, is_sum, is_logical, is_value, Keeps};

use crate::bits::{
    Bits, bitmask, bits_of, extended, field_moved, flags_of, high_product, holds, inverted,
    number_of, product_sum, quotient, shifted, sign_above, signed_high_product, signed_quotient,
    size_of, sum, sum_or_difference, zeros_above,
};
use a64_semantics::Registers;
use a64_word::{
    Bitfield, BitfieldKind, ConditionalCompare, ConditionalSelect, Instruction, Logical, MoveWide,
    MoveWideKind, Register, Shift, TwoSource, TwoSourceKind, Width,
};

/// What a register holds, as an operand; number 31 is zr.
fn operand(registers: &Registers, width: Width, register: Register) -> Bits {
    let held = registers.x.get(usize::from(register.number()));
    bits_of(size_of(width), held.copied().unwrap_or(0))
}

fn logical(size: usize, operation: Logical, x: &Bits, y: &Bits, nzcv: u8) -> (u64, u8)
    requires some { 0 < size }
    requires most { size ≤ 64 }
    ensures { is_ands operation ≡ false → result.1 ≡ nzcv }
{
    let mut bits = [false; 64];
    for i in 0..size {
        bits[i] = match operation {
            Logical::And | Logical::Ands => x[i] && y[i],
            Logical::Orr => x[i] || y[i],
            Logical::Eor => x[i] != y[i],
        };
    }
    match operation {
        Logical::Ands => (number_of(&bits), flags_of(size, &bits)),
        Logical::And | Logical::Orr | Logical::Eor => (number_of(&bits), nzcv),
    }
}

/// A sum or difference, and its flags where they are set.
fn sum_of(width: Width, subtract: bool, set_flags: bool, x: &Bits, y: &Bits, nzcv: u8) -> (u64, u8)
    ensures { set_flags ≡ false → result.1 ≡ nzcv }
{
    let (bits, flags) = sum_or_difference(size_of(width), subtract, x, y);
    (number_of(&bits), if set_flags { flags } else { nzcv })
}

fn move_wide(i: &MoveWide, registers: &Registers) -> u64 {
    let size = size_of(i.width);
    let mut bits = match i.kind {
        MoveWideKind::Movk => operand(registers, i.width, i.rd),
        MoveWideKind::Movn | MoveWideKind::Movz => [false; 64],
    };
    let immediate = bits_of(16, u64::from(i.imm16));
    let from = 16 * usize::from(i.hw % 4);
    for k in 0..16 {
        bits[from + k] = immediate[k];
    }
    match i.kind {
        MoveWideKind::Movn => number_of(&inverted(size, &bits)),
        MoveWideKind::Movk | MoveWideKind::Movz => number_of(&bits),
    }
}

fn bitfield(i: &Bitfield, registers: &Registers) -> u64 {
    let size = size_of(i.width);
    let immr = usize::from(i.immr).min(size - 1);
    let imms = usize::from(i.imms).min(size - 1);
    let x = operand(registers, i.width, i.rn);
    let bits = match i.kind {
        BitfieldKind::Sbfm => sign_above(size, immr, imms, &x),
        BitfieldKind::Ubfm => field_moved(size, immr, imms, &x, &[false; 64]),
        BitfieldKind::Bfm => {
            field_moved(size, immr, imms, &x, &operand(registers, i.width, i.rd))
        }
    };
    number_of(&bits)
}

fn conditional_compare(i: &ConditionalCompare, registers: &Registers) -> u8 {
    if !holds(i.condition.code(), registers.nzcv) {
        return i.nzcv;
    }
    let size = size_of(i.width);
    let second = if i.immediate {
        bits_of(size, u64::from(i.rm.number()))
    } else {
        operand(registers, i.width, i.rm)
    };
    sum_or_difference(size, i.compare, &operand(registers, i.width, i.rn), &second).1
}

fn conditional_select(i: &ConditionalSelect, registers: &Registers) -> u64 {
    let size = size_of(i.width);
    if holds(i.condition.code(), registers.nzcv) {
        return number_of(&operand(registers, i.width, i.rn));
    }
    let other = operand(registers, i.width, i.rm);
    let other = if i.invert {
        inverted(size, &other)
    } else {
        other
    };
    number_of(&sum(size, &other, &[false; 64], i.increment).0)
}

fn two_source(i: &TwoSource, registers: &Registers) -> u64 {
    let size = size_of(i.width);
    let x = operand(registers, i.width, i.rn);
    let y = operand(registers, i.width, i.rm);
    let by = (number_of(&y) % 64) as usize % size;
    let bits = match i.kind {
        TwoSourceKind::Udiv => quotient(size, &x, &y),
        TwoSourceKind::Sdiv => signed_quotient(size, &x, &y),
        TwoSourceKind::Lslv => shifted(size, Shift::Lsl, &x, by),
        TwoSourceKind::Lsrv => shifted(size, Shift::Lsr, &x, by),
        TwoSourceKind::Asrv => shifted(size, Shift::Asr, &x, by),
        TwoSourceKind::Rorv => shifted(size, Shift::Ror, &x, by),
    };
    number_of(&bits)
}

/// x0 and the flags after a sum or difference.
fn sums(instruction: &Instruction, r: &Registers) -> Option<(u64, u8)>
    ensures some { is_some result ≡ is_sum instruction.now }
    ensures flags { IfSome result (λ after. sets_flags instruction.now ≡ false → after.1 ≡ r.now.nzcv) }
{
    let (width, subtract, set_flags, rn, second) = match instruction {
        Instruction::AddSubImmediate(i) => {
            let second = u64::from(i.imm12) * if i.shifted { 4096 } else { 1 };
            let second = bits_of(size_of(i.width), second);
            (i.width, i.subtract, i.set_flags, i.rn, second)
        }
        Instruction::AddSubShifted(i) => {
            let second = operand(r, i.width, i.rm);
            let amount = usize::from(i.amount % 64);
            let second = shifted(size_of(i.width), i.shift, &second, amount);
            (i.width, i.subtract, i.set_flags, i.rn, second)
        }
        Instruction::AddSubExtended(i) => {
            let second = operand(r, i.width, i.rm);
            let amount = usize::from(i.amount % 8);
            let second = extended(size_of(i.width), i.extend, &second, amount);
            (i.width, i.subtract, i.set_flags, i.rn, second)
        }
        _ => return None,
    };
    let first = operand(r, width, rn);
    Some(sum_of(width, subtract, set_flags, &first, &second, r.nzcv))
}

/// x0 and the flags after a logical operation.
fn logicals(instruction: &Instruction, r: &Registers) -> Option<(u64, u8)>
    ensures some { is_some result ≡ is_logical instruction.now }
    ensures flags { IfSome result (λ after. sets_flags instruction.now ≡ false → after.1 ≡ r.now.nzcv) }
{
    let (width, operation, rn, second) = match instruction {
        Instruction::LogicalShifted(i) => {
            let size = size_of(i.width);
            let second = operand(r, i.width, i.rm);
            let second = shifted(size, i.shift, &second, usize::from(i.amount % 64));
            let second = if i.invert {
                inverted(size, &second)
            } else {
                second
            };
            (i.width, i.operation, i.rn, second)
        }
        Instruction::LogicalImmediate(i) => {
            let (immr, imms) = (usize::from(i.immr % 64), usize::from(i.imms));
            let mask = bitmask(size_of(i.width), i.n, immr, imms);
            (i.width, i.operation, i.rn, mask)
        }
        _ => return None,
    };
    let first = operand(r, width, rn);
    Some(logical(size_of(width), operation, &first, &second, r.nzcv))
}

/// The value of a move, a choice, a count, a product or a quotient, whatever its register.
fn value(instruction: &Instruction, r: &Registers) -> Option<u64>
    ensures { is_some result ≡ is_value instruction.now }
{
    match instruction {
        Instruction::MoveWide(i) => Some(move_wide(i, r)),
        Instruction::Bitfield(i) => Some(bitfield(i, r)),
        Instruction::ConditionalSelect(i) => Some(conditional_select(i, r)),
        Instruction::TwoSource(i) => Some(two_source(i, r)),
        Instruction::CountLeadingZeros(i) => {
            Some(zeros_above(size_of(i.width), &operand(r, i.width, i.rn)))
        }
        Instruction::MultiplyAdd(i) => {
            let x = operand(r, i.width, i.rn);
            let y = operand(r, i.width, i.rm);
            let a = operand(r, i.width, i.ra);
            let bits = product_sum(size_of(i.width), i.subtract, &x, &y, &a);
            Some(number_of(&bits))
        }
        Instruction::MultiplyHigh(i) => {
            let x = operand(r, Width::X, i.rn);
            let y = operand(r, Width::X, i.rm);
            let bits = if i.unsigned {
                high_product(&x, &y)
            } else {
                signed_high_product(&x, &y)
            };
            Some(number_of(&bits))
        }
        _ => None,
    }
}

/// What x0 and the flags are after an instruction that computes of registers alone, and writes x0, flags, or both; `None`
/// for others, as for ADR and ADRP, which read pc. What it doesn't write is as it was.
pub fn plain_result(instruction: &Instruction, r: &Registers) -> Option<(u64, u8)>
    ensures some { is_some result ≡ computes instruction.now }
    ensures keeps { IfSome result (Keeps instruction.now r.now) }
{
    match instruction {
        Instruction::AddSubImmediate(_)
        | Instruction::AddSubShifted(_)
        | Instruction::AddSubExtended(_) => sums(instruction, r),
        Instruction::LogicalShifted(_) | Instruction::LogicalImmediate(_) => {
            logicals(instruction, r)
        }
        Instruction::ConditionalCompare(i) => Some((r.x[0], conditional_compare(i, r))),
        _ => Some((value(instruction, r)?, r.nzcv)),
    }
}
