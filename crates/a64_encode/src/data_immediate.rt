ghost use Rattle.std.specs.Prelude.{◌≡◌};
ghost use Rattle.a64_word.specs.declared.instruction.Instruction.{Instruction};
ghost use Rattle.a64_word.specs.Encoding.{fields, IsLegal};
ghost use Rattle.a64_encode.specs.inner.Encoding.{Encodes};

use crate::fields::{field, twos_complement, word_of};
use crate::operands::{bitfield_code, logical_code, move_wide_code};
use a64_word::{
    AddSubImmediate, Bitfield, Field, LogicalImmediate, MoveWide, PcRelative, is_signed,
};

fn add_sub_immediate_fields(i: &AddSubImmediate) -> [Field; 8]
    ensures { result ≡ fields (Instruction.AddSubImmediate i.now) }
{
    [
        field(1, i.width.sf()),
        field(1, u32::from(i.subtract)),
        field(1, u32::from(i.set_flags)),
        field(6, 0b100010),
        field(1, u32::from(i.shifted)),
        field(12, u32::from(i.imm12)),
        field(5, i.rn.value()),
        field(5, i.rd.value()),
    ]
}

/// The word of an instruction of this class, where each of its fields is in its range.
pub(crate) fn add_sub_immediate(i: &AddSubImmediate) -> Option<u32>
    ensures { Encodes (Instruction.AddSubImmediate i.now) result }
{
    word_of(&add_sub_immediate_fields(i))
}

fn logical_immediate_fields(i: &LogicalImmediate) -> [Field; 8]
    ensures { result ≡ fields (Instruction.LogicalImmediate i.now) }
{
    [
        field(1, i.width.sf()),
        field(2, logical_code(i.operation)),
        field(6, 0b100100),
        field(1, u32::from(i.n)),
        field(6, u32::from(i.immr)),
        field(6, u32::from(i.imms)),
        field(5, i.rn.value()),
        field(5, i.rd.value()),
    ]
}

/// The word of an instruction of this class, where each of its fields is in its range.
pub(crate) fn logical_immediate(i: &LogicalImmediate) -> Option<u32>
    ensures { Encodes (Instruction.LogicalImmediate i.now) result }
{
    if !i.is_legal() {
        return None;
    }
    word_of(&logical_immediate_fields(i))
}

fn move_wide_fields(i: &MoveWide) -> [Field; 6]
    ensures { result ≡ fields (Instruction.MoveWide i.now) }
{
    [
        field(1, i.width.sf()),
        field(2, move_wide_code(i.kind)),
        field(6, 0b100101),
        field(2, u32::from(i.hw)),
        field(16, u32::from(i.imm16)),
        field(5, i.rd.value()),
    ]
}

/// The word of an instruction of this class, where each of its fields is in its range.
pub(crate) fn move_wide(i: &MoveWide) -> Option<u32>
    ensures { Encodes (Instruction.MoveWide i.now) result }
{
    if !i.is_legal() {
        return None;
    }
    word_of(&move_wide_fields(i))
}

fn pc_relative_fields(i: &PcRelative) -> [Field; 5]
    requires { IsLegal (Instruction.PcRelative i.now) }
    ensures { result ≡ fields (Instruction.PcRelative i.now) }
{
    let offset = twos_complement(i.offset, 21);
    [
        field(1, u32::from(i.page)),
        field(2, offset % 4),
        field(5, 0b10000),
        field(19, offset / 4),
        field(5, i.rd.value()),
    ]
}

/// The word of an instruction of this class, where each of its fields is in its range.
pub(crate) fn pc_relative(i: &PcRelative) -> Option<u32>
    ensures { Encodes (Instruction.PcRelative i.now) result }
{
    if !is_signed(i.offset, 21) {
        return None;
    }
    word_of(&pc_relative_fields(i))
}

fn bitfield_fields(i: &Bitfield) -> [Field; 8]
    ensures { result ≡ fields (Instruction.Bitfield i.now) }
{
    [
        field(1, i.width.sf()),
        field(2, bitfield_code(i.kind)),
        field(6, 0b100110),
        field(1, i.width.sf()),
        field(6, u32::from(i.immr)),
        field(6, u32::from(i.imms)),
        field(5, i.rn.value()),
        field(5, i.rd.value()),
    ]
}

/// The word of an instruction of this class, where each of its fields is in its range.
pub(crate) fn bitfield(i: &Bitfield) -> Option<u32>
    ensures { Encodes (Instruction.Bitfield i.now) result }
{
    if !i.is_legal() {
        return None;
    }
    word_of(&bitfield_fields(i))
}
