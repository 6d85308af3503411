//! Each bit that a class fixes, flipped: no instruction, or one of another class. The fixed bits are those of the rows
//! in the Arm manual, C4.1 "A64 instruction set encoding".
use crate::instructions::names::class_of;
use a64_word::decode;
use lfi_module::Profile;
use std::test::Fail;

/// A word of each class, and the bits that are the same in all words of the class.
const CLASSES: [(u32, u32, &str); 26] = [
    (0x91000420, 0x1F800000, "AddSubImmediate"),
    (0x92401C20, 0x1F800000, "LogicalImmediate"),
    (0xD28000E0, 0x1F800000, "MoveWide"),
    (0x10000001, 0x1F000000, "PcRelative"),
    (0xD3441C20, 0x1FC00000, "Bitfield"),
    (0xAA020020, 0x1F000000, "LogicalShifted"),
    (0x8B020020, 0x1F200000, "AddSubShifted"),
    (0x8B2242A3, 0x1FE00000, "AddSubExtended"),
    (0xFA421020, 0x3FE00410, "ConditionalCompare"),
    (0x9A821020, 0x3FE00800, "ConditionalSelect"),
    (0x9AC20820, 0x7FE0FC00, "TwoSource"),
    (0xDAC01020, 0x7FFFFC00, "CountLeadingZeros"),
    (0x9B020C20, 0x7FE00000, "MultiplyAdd"),
    (0x9B427C20, 0xFF60FC00, "MultiplyHigh"),
    (0xD503201F, 0xFFFFFFFF, "Nop"),
    (0x14000001, 0x7C000000, "Branch"),
    (0x54000020, 0xFF000010, "ConditionalBranch"),
    (0xB4000020, 0x7E000000, "CompareBranch"),
    (0x36000020, 0x7E000000, "TestBranch"),
    (0xD61F0240, 0xFF9FFC1F, "BranchRegister"),
    (0xD4200000, 0xFFE0001F, "Breakpoint"),
    (0xF9400240, 0x3F000000, "UnsignedOffset"),
    (0xF8400240, 0x3F200C00, "SignedOffset"),
    (0xF8614AA0, 0x3F200C00, "RegisterOffset"),
    (0xA9400440, 0x7E000000, "Pair"),
    (0xC8DFFE40, 0x3FBFFC00, "Ordered"),
];

/// The flipped words that are instructions nevertheless.
const OTHERS: [(u32, &str); 65] = [
    (0x90000420, "PcRelative"),
    (0x95000420, "Branch"),
    (0x92C01C20, "MoveWide"),
    (0x93401C20, "Bitfield"),
    (0x90401C20, "PcRelative"),
    (0x96401C20, "Branch"),
    (0xD20000E0, "LogicalImmediate"),
    (0xD08000E0, "PcRelative"),
    (0xDA8000E0, "ConditionalSelect"),
    (0x11000001, "AddSubImmediate"),
    (0x12000001, "LogicalImmediate"),
    (0x14000001, "Branch"),
    (0xD2441C20, "LogicalImmediate"),
    (0xD1441C20, "AddSubImmediate"),
    (0xAB020020, "AddSubShifted"),
    (0x8B220020, "AddSubExtended"),
    (0x8A020020, "LogicalShifted"),
    (0x9B020020, "MultiplyAdd"),
    (0x8B0242A3, "AddSubShifted"),
    (0x8A2242A3, "LogicalShifted"),
    (0xF8421020, "SignedOffset"),
    (0xF2421020, "LogicalImmediate"),
    (0xEA421020, "LogicalShifted"),
    (0x92821020, "MoveWide"),
    (0x8A821020, "LogicalShifted"),
    (0x9AC20C20, "TwoSource"),
    (0x9AC22820, "TwoSource"),
    (0x92C20820, "MoveWide"),
    (0x8AC20820, "LogicalShifted"),
    (0xDA801020, "ConditionalSelect"),
    (0xD2C01020, "MoveWide"),
    (0xCAC01020, "LogicalShifted"),
    (0x8B020C20, "AddSubShifted"),
    (0x9B027C20, "MultiplyAdd"),
    (0x93427C20, "Bitfield"),
    (0x8B427C20, "AddSubShifted"),
    (0xD103201F, "AddSubImmediate"),
    (0x9503201F, "Branch"),
    (0x10000001, "PcRelative"),
    (0x34000001, "CompareBranch"),
    (0x54000001, "ConditionalBranch"),
    (0x50000020, "PcRelative"),
    (0x14000020, "Branch"),
    (0xB6000020, "TestBranch"),
    (0xB0000020, "PcRelative"),
    (0x94000020, "Branch"),
    (0x34000020, "CompareBranch"),
    (0x32000020, "LogicalImmediate"),
    (0x16000020, "Branch"),
    (0xD21F0240, "LogicalImmediate"),
    (0x961F0240, "Branch"),
    (0xD0200000, "PcRelative"),
    (0x94200000, "Branch"),
    (0x54200000, "ConditionalBranch"),
    (0xF8400240, "SignedOffset"),
    (0xF1400240, "AddSubImmediate"),
    (0xF8400640, "SignedOffset"),
    (0xF9400240, "UnsignedOffset"),
    (0xFA400240, "ConditionalCompare"),
    (0xF0400240, "PcRelative"),
    (0xF9614AA0, "UnsignedOffset"),
    (0xF0614AA0, "PcRelative"),
    (0xAB400440, "AddSubShifted"),
    (0xB9400440, "UnsignedOffset"),
    (0xCADFFE40, "LogicalShifted"),
];

fn expected(word: u32) -> &'static str {
    for (other, class) in &OTHERS {
        if *other == word {
            return *class;
        }
    }
    "none"
}

/// The first word that differs from this one in a fixed bit and whose class isn't the expected one.
fn first_other(word: u32, fixed: u32) -> Option<u32> {
    for bit in 0u32..32 {
        let flipped = word ^ (1 << bit);
        if fixed >> bit & 1 == 1 && class_of(decode(flipped, Profile::Two)) != expected(flipped) {
            return Some(flipped);
        }
    }
    None
}

#[test]
fn flips_each_fixed_bit(rt: HostRuntime) {
    for (word, fixed, class) in &CLASSES {
        assert!(rt;
            class_of(decode(*word, Profile::Two)) == *class,
            "{word:#x}"
        );
        assert!(rt; first_other(*word, *fixed) == None, "{word:#x}");
    }
}
