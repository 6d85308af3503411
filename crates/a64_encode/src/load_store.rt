ghost use Rattle.std.specs.Prelude.{◌≡◌};
ghost use Rattle.a64_word.specs.declared.instruction.Instruction.{Instruction};
ghost use Rattle.a64_word.specs.Encoding.{fields, IsLegal};
ghost use Rattle.a64_encode.specs.inner.Encoding.{Encodes};

use crate::fields::{field, twos_complement, word_of};
use crate::operands::{index_extend_code, index_mode_code, pair_mode_code, transfer_code};
use a64_word::{Field, Ordered, Pair, RegisterOffset, SignedOffset, UnsignedOffset};

fn unsigned_offset_fields(i: &UnsignedOffset) -> [Field; 6]
    ensures { result ≡ fields (Instruction.UnsignedOffset i.now) }
{
    [
        field(2, i.size.code()),
        field(6, 0b111001),
        field(2, transfer_code(i.transfer)),
        field(12, u32::from(i.imm12)),
        field(5, i.rn.value()),
        field(5, i.rt.value()),
    ]
}

/// The word of an instruction of this class, where each of its fields is in its range.
pub(crate) fn unsigned_offset(i: &UnsignedOffset) -> Option<u32>
    ensures { Encodes (Instruction.UnsignedOffset i.now) result }
{
    if !i.is_legal() {
        return None;
    }
    word_of(&unsigned_offset_fields(i))
}

fn ordered_fields(i: &Ordered) -> [Field; 6]
    ensures { result ≡ fields (Instruction.Ordered i.now) }
{
    [
        field(2, i.size.code()),
        field(7, 0b0010001),
        field(1, u32::from(i.load)),
        field(12, 0b011111111111),
        field(5, i.rn.value()),
        field(5, i.rt.value()),
    ]
}

/// The word of an instruction of this class, where each of its fields is in its range.
pub(crate) fn ordered(i: &Ordered) -> Option<u32>
    ensures { Encodes (Instruction.Ordered i.now) result }
{
    word_of(&ordered_fields(i))
}

fn signed_offset_fields(i: &SignedOffset) -> [Field; 8]
    requires { IsLegal (Instruction.SignedOffset i.now) }
    ensures { result ≡ fields (Instruction.SignedOffset i.now) }
{
    [
        field(2, i.size.code()),
        field(6, 0b111000),
        field(2, transfer_code(i.transfer)),
        field(1, 0),
        field(9, twos_complement(i.imm9, 9)),
        field(2, index_mode_code(i.mode)),
        field(5, i.rn.value()),
        field(5, i.rt.value()),
    ]
}

/// The word of an instruction of this class, where each of its fields is in its range.
pub(crate) fn signed_offset(i: &SignedOffset) -> Option<u32>
    ensures { Encodes (Instruction.SignedOffset i.now) result }
{
    if !i.is_legal() {
        return None;
    }
    word_of(&signed_offset_fields(i))
}

fn register_offset_fields(i: &RegisterOffset) -> [Field; 10]
    ensures { result ≡ fields (Instruction.RegisterOffset i.now) }
{
    [
        field(2, i.size.code()),
        field(6, 0b111000),
        field(2, transfer_code(i.transfer)),
        field(1, 1),
        field(5, i.rm.value()),
        field(3, index_extend_code(i.extend)),
        field(1, u32::from(i.scaled)),
        field(2, 0b10),
        field(5, i.rn.value()),
        field(5, i.rt.value()),
    ]
}

/// The word of an instruction of this class, where each of its fields is in its range.
pub(crate) fn register_offset(i: &RegisterOffset) -> Option<u32>
    ensures { Encodes (Instruction.RegisterOffset i.now) result }
{
    if !i.is_legal() {
        return None;
    }
    word_of(&register_offset_fields(i))
}

fn pair_fields(i: &Pair) -> [Field; 8]
    requires { IsLegal (Instruction.Pair i.now) }
    ensures { result ≡ fields (Instruction.Pair i.now) }
{
    [
        field(1, i.width.sf()),
        field(6, 0b010100),
        field(2, pair_mode_code(i.mode)),
        field(1, u32::from(i.load)),
        field(7, twos_complement(i.imm7, 7)),
        field(5, i.rt2.value()),
        field(5, i.rn.value()),
        field(5, i.rt.value()),
    ]
}

/// The word of an instruction of this class, where each of its fields is in its range.
pub(crate) fn pair(i: &Pair) -> Option<u32>
    ensures { Encodes (Instruction.Pair i.now) result }
{
    if !i.is_legal() {
        return None;
    }
    word_of(&pair_fields(i))
}
