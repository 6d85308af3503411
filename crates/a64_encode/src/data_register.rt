ghost use Rattle.std.specs.Prelude.{◌≡◌};
ghost use Rattle.a64_word.specs.declared.instruction.Instruction.{Instruction};
ghost use Rattle.a64_word.specs.Encoding.{fields};
ghost use Rattle.a64_encode.specs.inner.Encoding.{Encodes};

use crate::fields::{field, word_of};
use crate::operands::{extend_code, logical_code, shift_code, two_source_code};
use a64_word::{
    AddSubExtended, AddSubShifted, ConditionalCompare, ConditionalSelect, CountLeadingZeros, Field,
    LogicalShifted, MultiplyAdd, MultiplyHigh, TwoSource,
};

fn logical_shifted_fields(i: &LogicalShifted) -> [Field; 9]
    ensures { result ≡ fields (Instruction.LogicalShifted i.now) }
{
    [
        field(1, i.width.sf()),
        field(2, logical_code(i.operation)),
        field(5, 0b01010),
        field(2, shift_code(i.shift)),
        field(1, u32::from(i.invert)),
        field(5, i.rm.value()),
        field(6, u32::from(i.amount)),
        field(5, i.rn.value()),
        field(5, i.rd.value()),
    ]
}

/// The word of an instruction of this class, where each of its fields is in its range.
pub(crate) fn logical_shifted(i: &LogicalShifted) -> Option<u32>
    ensures { Encodes (Instruction.LogicalShifted i.now) result }
{
    if !i.is_legal() {
        return None;
    }
    word_of(&logical_shifted_fields(i))
}

fn add_sub_shifted_fields(i: &AddSubShifted) -> [Field; 10]
    ensures { result ≡ fields (Instruction.AddSubShifted i.now) }
{
    [
        field(1, i.width.sf()),
        field(1, u32::from(i.subtract)),
        field(1, u32::from(i.set_flags)),
        field(5, 0b01011),
        field(2, shift_code(i.shift)),
        field(1, 0),
        field(5, i.rm.value()),
        field(6, u32::from(i.amount)),
        field(5, i.rn.value()),
        field(5, i.rd.value()),
    ]
}

/// The word of an instruction of this class, where each of its fields is in its range.
pub(crate) fn add_sub_shifted(i: &AddSubShifted) -> Option<u32>
    ensures { Encodes (Instruction.AddSubShifted i.now) result }
{
    if !i.is_legal() {
        return None;
    }
    word_of(&add_sub_shifted_fields(i))
}

fn add_sub_extended_fields(i: &AddSubExtended) -> [Field; 9]
    ensures { result ≡ fields (Instruction.AddSubExtended i.now) }
{
    [
        field(1, i.width.sf()),
        field(1, u32::from(i.subtract)),
        field(1, u32::from(i.set_flags)),
        field(8, 0b01011001),
        field(5, i.rm.value()),
        field(3, extend_code(i.extend)),
        field(3, u32::from(i.amount)),
        field(5, i.rn.value()),
        field(5, i.rd.value()),
    ]
}

/// The word of an instruction of this class, where each of its fields is in its range.
pub(crate) fn add_sub_extended(i: &AddSubExtended) -> Option<u32>
    ensures { Encodes (Instruction.AddSubExtended i.now) result }
{
    if !i.is_legal() {
        return None;
    }
    word_of(&add_sub_extended_fields(i))
}

fn conditional_compare_fields(i: &ConditionalCompare) -> [Field; 10]
    ensures { result ≡ fields (Instruction.ConditionalCompare i.now) }
{
    [
        field(1, i.width.sf()),
        field(1, u32::from(i.compare)),
        field(9, 0b111010010),
        field(5, i.rm.value()),
        field(4, i.condition.code()),
        field(1, u32::from(i.immediate)),
        field(1, 0),
        field(5, i.rn.value()),
        field(1, 0),
        field(4, u32::from(i.nzcv)),
    ]
}

/// The word of an instruction of this class, where each of its fields is in its range.
pub(crate) fn conditional_compare(i: &ConditionalCompare) -> Option<u32>
    ensures { Encodes (Instruction.ConditionalCompare i.now) result }
{
    word_of(&conditional_compare_fields(i))
}

fn conditional_select_fields(i: &ConditionalSelect) -> [Field; 9]
    ensures { result ≡ fields (Instruction.ConditionalSelect i.now) }
{
    [
        field(1, i.width.sf()),
        field(1, u32::from(i.invert)),
        field(9, 0b011010100),
        field(5, i.rm.value()),
        field(4, i.condition.code()),
        field(1, 0),
        field(1, u32::from(i.increment)),
        field(5, i.rn.value()),
        field(5, i.rd.value()),
    ]
}

/// The word of an instruction of this class, where each of its fields is in its range.
pub(crate) fn conditional_select(i: &ConditionalSelect) -> Option<u32>
    ensures { Encodes (Instruction.ConditionalSelect i.now) result }
{
    word_of(&conditional_select_fields(i))
}

fn two_source_fields(i: &TwoSource) -> [Field; 6]
    ensures { result ≡ fields (Instruction.TwoSource i.now) }
{
    [
        field(1, i.width.sf()),
        field(10, 0b0011010110),
        field(5, i.rm.value()),
        field(6, two_source_code(i.kind)),
        field(5, i.rn.value()),
        field(5, i.rd.value()),
    ]
}

/// The word of an instruction of this class, where each of its fields is in its range.
pub(crate) fn two_source(i: &TwoSource) -> Option<u32>
    ensures { Encodes (Instruction.TwoSource i.now) result }
{
    word_of(&two_source_fields(i))
}

fn count_leading_zeros_fields(i: &CountLeadingZeros) -> [Field; 4]
    ensures { result ≡ fields (Instruction.CountLeadingZeros i.now) }
{
    [
        field(1, i.width.sf()),
        field(21, 0b101101011000000000100),
        field(5, i.rn.value()),
        field(5, i.rd.value()),
    ]
}

/// The word of an instruction of this class, where each of its fields is in its range.
pub(crate) fn count_leading_zeros(i: &CountLeadingZeros) -> Option<u32>
    ensures { Encodes (Instruction.CountLeadingZeros i.now) result }
{
    word_of(&count_leading_zeros_fields(i))
}

fn multiply_add_fields(i: &MultiplyAdd) -> [Field; 7]
    ensures { result ≡ fields (Instruction.MultiplyAdd i.now) }
{
    [
        field(1, i.width.sf()),
        field(10, 0b0011011000),
        field(5, i.rm.value()),
        field(1, u32::from(i.subtract)),
        field(5, i.ra.value()),
        field(5, i.rn.value()),
        field(5, i.rd.value()),
    ]
}

/// The word of an instruction of this class, where each of its fields is in its range.
pub(crate) fn multiply_add(i: &MultiplyAdd) -> Option<u32>
    ensures { Encodes (Instruction.MultiplyAdd i.now) result }
{
    word_of(&multiply_add_fields(i))
}

fn multiply_high_fields(i: &MultiplyHigh) -> [Field; 7]
    ensures { result ≡ fields (Instruction.MultiplyHigh i.now) }
{
    [
        field(8, 0b10011011),
        field(1, u32::from(i.unsigned)),
        field(2, 0b10),
        field(5, i.rm.value()),
        field(6, 0b011111),
        field(5, i.rn.value()),
        field(5, i.rd.value()),
    ]
}

/// The word of an instruction of this class, where each of its fields is in its range.
pub(crate) fn multiply_high(i: &MultiplyHigh) -> Option<u32>
    ensures { Encodes (Instruction.MultiplyHigh i.now) result }
{
    word_of(&multiply_high_fields(i))
}
