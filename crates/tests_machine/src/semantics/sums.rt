//! Sums and differences, with their flags.
use crate::semantics::rows::{Row, after, registers_of};

/// ADD, ADDS, SUB and SUBS of shifted registers.
pub const SUMS: [Row; 62] = [
    (0xAB020020, [0, 0, 9], 0, 0, 4), // ADDS X0, X1, X2
    (0xAB020020, [1, 0, 9], 0, 1, 0), // ADDS X0, X1, X2
    (0xAB020020, [0, 1, 9], 0, 1, 0), // ADDS X0, X1, X2
    (0xAB020020, [0xFFFFFFFFFFFFFFFF, 1, 9], 0, 0, 6), // ADDS X0, X1, X2
    (
        0xAB020020,
        [0xFFFFFFFFFFFFFFFF, 0xFFFFFFFFFFFFFFFF, 9],
        0,
        0xFFFFFFFFFFFFFFFE,
        10,
    ), // ADDS X0, X1, X2
    (
        0xAB020020,
        [0x7FFFFFFFFFFFFFFF, 1, 9],
        0,
        0x8000000000000000,
        9,
    ), // ADDS X0, X1, X2
    (
        0xAB020020,
        [0x8000000000000000, 0xFFFFFFFFFFFFFFFF, 9],
        0,
        0x7FFFFFFFFFFFFFFF,
        3,
    ), // ADDS X0, X1, X2
    (
        0xAB020020,
        [0x8000000000000000, 0x8000000000000000, 9],
        0,
        0,
        7,
    ), // ADDS X0, X1, X2
    (
        0xAB020020,
        [0x7FFFFFFFFFFFFFFF, 0x7FFFFFFFFFFFFFFF, 9],
        0,
        0xFFFFFFFFFFFFFFFE,
        9,
    ), // ADDS X0, X1, X2
    (0xAB020020, [5, 5, 9], 0, 0xA, 0), // ADDS X0, X1, X2
    (
        0xAB020020,
        [0x8000000000000000, 1, 9],
        0,
        0x8000000000000001,
        8,
    ), // ADDS X0, X1, X2
    (
        0xAB020020,
        [0x7FFFFFFFFFFFFFFF, 0xFFFFFFFFFFFFFFFF, 9],
        0,
        0x7FFFFFFFFFFFFFFE,
        2,
    ), // ADDS X0, X1, X2
    (
        0x2B020020,
        [0xABCDEF0100000000, 0xABCDEF0100000000, 9],
        15,
        0,
        4,
    ), // ADDS W0, W1, W2
    (0x2B020020, [0xABCDEF0100000001, 0, 9], 15, 1, 0), // ADDS W0, W1, W2
    (0x2B020020, [0, 0xABCDEF0100000001, 9], 15, 1, 0), // ADDS W0, W1, W2
    (0x2B020020, [0xFFFFFFFF, 1, 9], 15, 0, 6), // ADDS W0, W1, W2
    (0x2B020020, [0xFFFFFFFF, 0xFFFFFFFF, 9], 15, 0xFFFFFFFE, 10), // ADDS W0, W1, W2
    (0x2B020020, [0xABCDEF017FFFFFFF, 1, 9], 15, 0x80000000, 9), // ADDS W0, W1, W2
    (0x2B020020, [0x80000000, 0xFFFFFFFF, 9], 15, 0x7FFFFFFF, 3), // ADDS W0, W1, W2
    (0x2B020020, [0x80000000, 0x80000000, 9], 15, 0, 7), // ADDS W0, W1, W2
    (0x2B020020, [0x7FFFFFFF, 0x7FFFFFFF, 9], 15, 0xFFFFFFFE, 9), // ADDS W0, W1, W2
    (0x2B020020, [0xABCDEF0100000005, 5, 9], 15, 0xA, 0), // ADDS W0, W1, W2
    (0x2B020020, [0x80000000, 1, 9], 15, 0x80000001, 8), // ADDS W0, W1, W2
    (0x2B020020, [0x7FFFFFFF, 0xFFFFFFFF, 9], 15, 0x7FFFFFFE, 2), // ADDS W0, W1, W2
    (0xEB020020, [0, 0, 9], 0, 0, 6), // SUBS X0, X1, X2
    (0xEB020020, [1, 0, 9], 0, 1, 2), // SUBS X0, X1, X2
    (0xEB020020, [0, 1, 9], 0, 0xFFFFFFFFFFFFFFFF, 8), // SUBS X0, X1, X2
    (
        0xEB020020,
        [0xFFFFFFFFFFFFFFFF, 1, 9],
        0,
        0xFFFFFFFFFFFFFFFE,
        10,
    ), // SUBS X0, X1, X2
    (
        0xEB020020,
        [0xFFFFFFFFFFFFFFFF, 0xFFFFFFFFFFFFFFFF, 9],
        0,
        0,
        6,
    ), // SUBS X0, X1, X2
    (
        0xEB020020,
        [0x7FFFFFFFFFFFFFFF, 1, 9],
        0,
        0x7FFFFFFFFFFFFFFE,
        2,
    ), // SUBS X0, X1, X2
    (
        0xEB020020,
        [0x8000000000000000, 0xFFFFFFFFFFFFFFFF, 9],
        0,
        0x8000000000000001,
        8,
    ), // SUBS X0, X1, X2
    (
        0xEB020020,
        [0x8000000000000000, 0x8000000000000000, 9],
        0,
        0,
        6,
    ), // SUBS X0, X1, X2
    (
        0xEB020020,
        [0x7FFFFFFFFFFFFFFF, 0x7FFFFFFFFFFFFFFF, 9],
        0,
        0,
        6,
    ), // SUBS X0, X1, X2
    (0xEB020020, [5, 5, 9], 0, 0, 6), // SUBS X0, X1, X2
    (
        0xEB020020,
        [0x8000000000000000, 1, 9],
        0,
        0x7FFFFFFFFFFFFFFF,
        3,
    ), // SUBS X0, X1, X2
    (
        0xEB020020,
        [0x7FFFFFFFFFFFFFFF, 0xFFFFFFFFFFFFFFFF, 9],
        0,
        0x8000000000000000,
        9,
    ), // SUBS X0, X1, X2
    (
        0x6B020020,
        [0xABCDEF0100000000, 0xABCDEF0100000000, 9],
        15,
        0,
        6,
    ), // SUBS W0, W1, W2
    (0x6B020020, [0xABCDEF0100000001, 0, 9], 15, 1, 2), // SUBS W0, W1, W2
    (0x6B020020, [0, 0xABCDEF0100000001, 9], 15, 0xFFFFFFFF, 8), // SUBS W0, W1, W2
    (0x6B020020, [0xFFFFFFFF, 1, 9], 15, 0xFFFFFFFE, 10), // SUBS W0, W1, W2
    (0x6B020020, [0xFFFFFFFF, 0xFFFFFFFF, 9], 15, 0, 6), // SUBS W0, W1, W2
    (0x6B020020, [0xABCDEF017FFFFFFF, 1, 9], 15, 0x7FFFFFFE, 2), // SUBS W0, W1, W2
    (0x6B020020, [0x80000000, 0xFFFFFFFF, 9], 15, 0x80000001, 8), // SUBS W0, W1, W2
    (0x6B020020, [0x80000000, 0x80000000, 9], 15, 0, 6), // SUBS W0, W1, W2
    (0x6B020020, [0x7FFFFFFF, 0x7FFFFFFF, 9], 15, 0, 6), // SUBS W0, W1, W2
    (0x6B020020, [0xABCDEF0100000005, 5, 9], 15, 0, 6), // SUBS W0, W1, W2
    (0x6B020020, [0x80000000, 1, 9], 15, 0x7FFFFFFF, 3), // SUBS W0, W1, W2
    (0x6B020020, [0x7FFFFFFF, 0xFFFFFFFF, 9], 15, 0x80000000, 9), // SUBS W0, W1, W2
    (0x8B020020, [0xFFFFFFFFFFFFFFFF, 1, 0], 9, 0, 9), // ADD X0, X1, X2
    (0xCB020020, [0, 1, 0], 6, 0xFFFFFFFFFFFFFFFF, 6), // SUB X0, X1, X2
    (0x0B020020, [0xFFFFFFFFFFFFFFFF, 1, 0], 9, 0, 9), // ADD W0, W1, W2
    (0x4B020020, [0xABCDEF0100000000, 1, 0], 6, 0xFFFFFFFF, 6), // SUB W0, W1, W2
    (0x8B02FC20, [1, 3, 0], 0, 0x8000000000000001, 0), // ADD X0, X1, X2, LSL #63
    (0x8B42FC20, [1, 0x8000000000000000, 0], 0, 2, 0), // ADD X0, X1, X2, LSR #63
    (0x8B82FC20, [1, 0x8000000000000000, 0], 0, 0, 0), // ADD X0, X1, X2, ASR #63
    (0xCB020420, [0, 0xFFFFFFFFFFFFFFFF, 0], 0, 2, 0), // SUB X0, X1, X2, LSL #1
    (0x0B027C20, [1, 3, 0], 0, 0x80000001, 0), // ADD W0, W1, W2, LSL #31
    (0x0B427C20, [1, 0xABCDEF0180000000, 0], 0, 2, 0), // ADD W0, W1, W2, LSR #31
    (0x0B827C20, [0xABCDEF0100000001, 0x80000000, 0], 0, 0, 0), // ADD W0, W1, W2, ASR #31
    (0x6B820420, [0, 0xABCDEF0180000000, 0], 0, 0x40000000, 0), // SUBS W0, W1, W2, ASR #1
    (
        0xAB820420,
        [0, 0x8000000000000000, 0],
        0,
        0xC000000000000000,
        8,
    ), // ADDS X0, X1, X2, ASR #1
    (0x0B420420, [0, 0xABCDEF0100000000, 0], 0, 0, 0), // ADD W0, W1, W2, LSR #1
];

/// ADD, ADDS, SUB and SUBS of immediates.
pub const IMMEDIATES: [Row; 14] = [
    (
        0x91000020,
        [0xFFFFFFFFFFFFFFFF, 0, 0],
        5,
        0xFFFFFFFFFFFFFFFF,
        5,
    ), // ADD X0, X1, #0
    (0x913FFC20, [1, 0, 0], 0, 0x1000, 0), // ADD X0, X1, #4095
    (0x917FFC20, [1, 0, 0], 0, 0xFFF001, 0), // ADD X0, X1, #4095, LSL #12
    (0xD1000420, [0, 0, 0], 0, 0xFFFFFFFFFFFFFFFF, 0), // SUB X0, X1, #1
    (
        0xB1000420,
        [0x7FFFFFFFFFFFFFFF, 0, 0],
        0,
        0x8000000000000000,
        9,
    ), // ADDS X0, X1, #1
    (
        0xF1000420,
        [0x8000000000000000, 0, 0],
        0,
        0x7FFFFFFFFFFFFFFF,
        3,
    ), // SUBS X0, X1, #1
    (0xF1000020, [0, 0, 0], 0, 0, 6), // SUBS X0, X1, #0
    (0xB1400420, [0xFFFFFFFFFFFFF000, 0, 0], 0, 0, 6), // ADDS X0, X1, #1, LSL #12
    (0x11000420, [0xFFFFFFFFFFFFFFFF, 0, 0], 0, 0, 0), // ADD W0, W1, #1
    (0x51000420, [0xABCDEF0100000000, 0, 0], 0, 0xFFFFFFFF, 0), // SUB W0, W1, #1
    (0x31000420, [0xABCDEF017FFFFFFF, 0, 0], 0, 0x80000000, 9), // ADDS W0, W1, #1
    (0x71000420, [0xABCDEF0180000000, 0, 0], 0, 0x7FFFFFFF, 3), // SUBS W0, W1, #1
    (0x717FFC20, [0xABCDEF0100FFF000, 0, 0], 0, 0, 6), // SUBS W0, W1, #4095, LSL #12
    (0x117FFC20, [0xFFFFFFFF, 0, 0], 3, 0xFFEFFF, 3), // ADD W0, W1, #4095, LSL #12
];

/// ADD, ADDS, SUB and SUBS of extended registers.
pub const EXTENDED: [Row; 33] = [
    (0x8B220020, [0, 0x8081828384858687, 0], 0, 0x87, 0), // ADD X0, X1, W2, UXTB
    (0x0B221020, [1, 0x8081828384858687, 0], 0, 0x871, 0), // ADD W0, W1, W2, UXTB #4
    (
        0xCB220C20,
        [0, 0x8081828384858687, 0],
        0,
        0xFFFFFFFFFFFFFBC8,
        0,
    ), // SUB X0, X1, W2, UXTB #3
    (0x8B220020, [7, 0x7F7F7F7F7F7F7F7F, 0], 0, 0x86, 0), // ADD X0, X1, W2, UXTB
    (0x8B222020, [0, 0x8081828384858687, 0], 0, 0x8687, 0), // ADD X0, X1, W2, UXTH
    (0x0B223020, [1, 0x8081828384858687, 0], 0, 0x86871, 0), // ADD W0, W1, W2, UXTH #4
    (
        0xCB222C20,
        [0, 0x8081828384858687, 0],
        0,
        0xFFFFFFFFFFFBCBC8,
        0,
    ), // SUB X0, X1, W2, UXTH #3
    (0x8B222020, [7, 0x7F7F7F7F7F7F7F7F, 0], 0, 0x7F86, 0), // ADD X0, X1, W2, UXTH
    (0x8B224020, [0, 0x8081828384858687, 0], 0, 0x84858687, 0), // ADD X0, X1, W2, UXTW
    (0x0B225020, [1, 0x8081828384858687, 0], 0, 0x48586871, 0), // ADD W0, W1, W2, UXTW #4
    (
        0xCB224C20,
        [0, 0x8081828384858687, 0],
        0,
        0xFFFFFFFBDBD3CBC8,
        0,
    ), // SUB X0, X1, W2, UXTW #3
    (0x8B224020, [7, 0x7F7F7F7F7F7F7F7F, 0], 0, 0x7F7F7F86, 0), // ADD X0, X1, W2, UXTW
    (
        0x8B228020,
        [0, 0x8081828384858687, 0],
        0,
        0xFFFFFFFFFFFFFF87,
        0,
    ), // ADD X0, X1, W2, SXTB
    (0x0B229020, [1, 0x8081828384858687, 0], 0, 0xFFFFF871, 0), // ADD W0, W1, W2, SXTB #4
    (0xCB228C20, [0, 0x8081828384858687, 0], 0, 0x3C8, 0), // SUB X0, X1, W2, SXTB #3
    (0x8B228020, [7, 0x7F7F7F7F7F7F7F7F, 0], 0, 0x86, 0), // ADD X0, X1, W2, SXTB
    (
        0x8B22A020,
        [0, 0x8081828384858687, 0],
        0,
        0xFFFFFFFFFFFF8687,
        0,
    ), // ADD X0, X1, W2, SXTH
    (0x0B22B020, [1, 0x8081828384858687, 0], 0, 0xFFF86871, 0), // ADD W0, W1, W2, SXTH #4
    (0xCB22AC20, [0, 0x8081828384858687, 0], 0, 0x3CBC8, 0), // SUB X0, X1, W2, SXTH #3
    (0x8B22A020, [7, 0x7F7F7F7F7F7F7F7F, 0], 0, 0x7F86, 0), // ADD X0, X1, W2, SXTH
    (
        0x8B22C020,
        [0, 0x8081828384858687, 0],
        0,
        0xFFFFFFFF84858687,
        0,
    ), // ADD X0, X1, W2, SXTW
    (0x0B22D020, [1, 0x8081828384858687, 0], 0, 0x48586871, 0), // ADD W0, W1, W2, SXTW #4
    (0xCB22CC20, [0, 0x8081828384858687, 0], 0, 0x3DBD3CBC8, 0), // SUB X0, X1, W2, SXTW #3
    (0x8B22C020, [7, 0x7F7F7F7F7F7F7F7F, 0], 0, 0x7F7F7F86, 0), // ADD X0, X1, W2, SXTW
    (
        0x8B227020,
        [1, 0x8081828384858687, 0],
        0,
        0x818283848586871,
        0,
    ), // ADD X0, X1, X2, UXTX #4
    (0xAB22E420, [1, 0x8000000000000000, 0], 0, 1, 0), // ADDS X0, X1, X2, SXTX #1
    (0xEB226020, [5, 5, 0], 0, 0, 6), // SUBS X0, X1, X2, UXTX
    (0x6B225020, [0, 0xF0000001, 0], 0, 0xFFFFFFF0, 8), // SUBS W0, W1, W2, UXTW #4
    (
        0x0B22C020,
        [0xABCDEF0100000001, 0xFFFFFFFFFFFFFFFF, 0],
        0,
        0,
        0,
    ), // ADD W0, W1, W2, SXTW
    (0x2B228020, [0x80, 0x80, 0], 0, 0, 6), // ADDS W0, W1, W2, SXTB
    (0x2B222820, [0xFFFC0004, 0xABCDEF010000FFFF, 0], 0, 0, 6), // ADDS W0, W1, W2, UXTH #2
    (0x0B226420, [0, 0x8081828384858687, 0], 0, 0x90B0D0E, 0), // ADD W0, W1, W2, UXTX #1
    (
        0x2B22E020,
        [0xABCDEF0180000000, 0x8081828384858687, 0],
        0,
        0x4858687,
        3,
    ), // ADDS W0, W1, W2, SXTX
];

/// CMP X0, X1: what x0 and x1 hold, and the flags after.
const COMPARED: [(u64, u64, u8); 3] = [(0, 1, 8), (5, 5, 6), (0x8000_0000_0000_0000, 1, 3)];

#[test]
fn compared_registers(rt: HostRuntime) {
    for (x0, x1, flags) in &COMPARED {
        let before = registers_of(*x0, *x1, 0, 0, 0);
        let after = after(0xEB01_001F, &before).unwrap_or(before);
        assert!(rt; after.nzcv == *flags, "{x0} and {x1}");
    }
}
