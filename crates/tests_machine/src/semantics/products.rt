//! Products, quotients and shifts by a register.
use crate::semantics::rows::Row;

/// UDIV, SDIV, LSLV, LSRV, ASRV and RORV.
pub const QUOTIENTS_AND_SHIFTS: [Row; 82] = [
    (0x9AC20820, [0, 0, 0], 0, 0, 0), // UDIV X0, X1, X2
    (0x9AC20C20, [0, 0, 0], 0, 0, 0), // SDIV X0, X1, X2
    (0x9AC20820, [7, 0, 0], 0, 0, 0), // UDIV X0, X1, X2
    (0x9AC20C20, [7, 0, 0], 0, 0, 0), // SDIV X0, X1, X2
    (0x9AC20820, [7, 2, 0], 0, 3, 0), // UDIV X0, X1, X2
    (0x9AC20C20, [7, 2, 0], 0, 3, 0), // SDIV X0, X1, X2
    (
        0x9AC20820,
        [0xFFFFFFFFFFFFFFFF, 2, 0],
        0,
        0x7FFFFFFFFFFFFFFF,
        0,
    ), // UDIV X0, X1, X2
    (0x9AC20C20, [0xFFFFFFFFFFFFFFFF, 2, 0], 0, 0, 0), // SDIV X0, X1, X2
    (
        0x9AC20820,
        [0x8000000000000000, 0xFFFFFFFFFFFFFFFF, 0],
        0,
        0,
        0,
    ), // UDIV X0, X1, X2
    (
        0x9AC20C20,
        [0x8000000000000000, 0xFFFFFFFFFFFFFFFF, 0],
        0,
        0x8000000000000000,
        0,
    ), // SDIV X0, X1, X2
    (
        0x9AC20820,
        [0x8000000000000000, 1, 0],
        0,
        0x8000000000000000,
        0,
    ), // UDIV X0, X1, X2
    (
        0x9AC20C20,
        [0x8000000000000000, 1, 0],
        0,
        0x8000000000000000,
        0,
    ), // SDIV X0, X1, X2
    (0x9AC20820, [1, 0x8000000000000000, 0], 0, 0, 0), // UDIV X0, X1, X2
    (0x9AC20C20, [1, 0x8000000000000000, 0], 0, 0, 0), // SDIV X0, X1, X2
    (
        0x9AC20820,
        [0xFFFFFFFFFFFFFFFF, 0xFFFFFFFFFFFFFFFF, 0],
        0,
        1,
        0,
    ), // UDIV X0, X1, X2
    (
        0x9AC20C20,
        [0xFFFFFFFFFFFFFFFF, 0xFFFFFFFFFFFFFFFF, 0],
        0,
        1,
        0,
    ), // SDIV X0, X1, X2
    (0x9AC20820, [6, 0xFFFFFFFFFFFFFFFD, 0], 0, 0, 0), // UDIV X0, X1, X2
    (
        0x9AC20C20,
        [6, 0xFFFFFFFFFFFFFFFD, 0],
        0,
        0xFFFFFFFFFFFFFFFE,
        0,
    ), // SDIV X0, X1, X2
    (
        0x9AC20820,
        [0x7FFFFFFFFFFFFFFF, 0xFFFFFFFFFFFFFFFF, 0],
        0,
        0,
        0,
    ), // UDIV X0, X1, X2
    (
        0x9AC20C20,
        [0x7FFFFFFFFFFFFFFF, 0xFFFFFFFFFFFFFFFF, 0],
        0,
        0x8000000000000001,
        0,
    ), // SDIV X0, X1, X2
    (
        0x1AC20820,
        [0xABCDEF0100000007, 0xABCDEF0100000000, 0],
        0,
        0,
        0,
    ), // UDIV W0, W1, W2
    (
        0x1AC20C20,
        [0xABCDEF0100000007, 0xABCDEF0100000000, 0],
        0,
        0,
        0,
    ), // SDIV W0, W1, W2
    (0x1AC20820, [0xABCDEF0100000007, 2, 0], 0, 3, 0), // UDIV W0, W1, W2
    (0x1AC20C20, [0xABCDEF0100000007, 2, 0], 0, 3, 0), // SDIV W0, W1, W2
    (0x1AC20820, [0xFFFFFFF9, 2, 0], 0, 0x7FFFFFFC, 0), // UDIV W0, W1, W2
    (0x1AC20C20, [0xFFFFFFF9, 2, 0], 0, 0xFFFFFFFD, 0), // SDIV W0, W1, W2
    (0x1AC20820, [0x80000000, 0xFFFFFFFF, 0], 0, 0, 0), // UDIV W0, W1, W2
    (0x1AC20C20, [0x80000000, 0xFFFFFFFF, 0], 0, 0x80000000, 0), // SDIV W0, W1, W2
    (0x1AC20820, [0x80000000, 1, 0], 0, 0x80000000, 0), // UDIV W0, W1, W2
    (0x1AC20C20, [0x80000000, 1, 0], 0, 0x80000000, 0), // SDIV W0, W1, W2
    (0x1AC20820, [0xABCDEF0100000001, 0x80000000, 0], 0, 0, 0), // UDIV W0, W1, W2
    (0x1AC20C20, [0xABCDEF0100000001, 0x80000000, 0], 0, 0, 0), // SDIV W0, W1, W2
    (0x1AC20820, [0xABCDEF0100000006, 0xFFFFFFFD, 0], 0, 0, 0), // UDIV W0, W1, W2
    (
        0x1AC20C20,
        [0xABCDEF0100000006, 0xFFFFFFFD, 0],
        0,
        0xFFFFFFFE,
        0,
    ), // SDIV W0, W1, W2
    (
        0x9AC22020,
        [0xF0F0123480000001, 0, 0],
        0,
        0xF0F0123480000001,
        0,
    ), // LSLV X0, X1, X2
    (
        0x9AC22020,
        [0xF0F0123480000001, 1, 0],
        0,
        0xE1E0246900000002,
        0,
    ), // LSLV X0, X1, X2
    (
        0x9AC22020,
        [0xF0F0123480000001, 0x3F, 0],
        0,
        0x8000000000000000,
        0,
    ), // LSLV X0, X1, X2
    (
        0x9AC22020,
        [0xF0F0123480000001, 0x40, 0],
        0,
        0xF0F0123480000001,
        0,
    ), // LSLV X0, X1, X2
    (
        0x9AC22020,
        [0xF0F0123480000001, 0x41, 0],
        0,
        0xE1E0246900000002,
        0,
    ), // LSLV X0, X1, X2
    (
        0x9AC22020,
        [0xF0F0123480000001, 0xFFFFFFFFFFFFFFFF, 0],
        0,
        0x8000000000000000,
        0,
    ), // LSLV X0, X1, X2
    (0x1AC22020, [0xF0F0123480000001, 0, 0], 0, 0x80000001, 0), // LSLV W0, W1, W2
    (0x1AC22020, [0xF0F0123480000001, 1, 0], 0, 2, 0), // LSLV W0, W1, W2
    (0x1AC22020, [0xF0F0123480000001, 0x1F, 0], 0, 0x80000000, 0), // LSLV W0, W1, W2
    (0x1AC22020, [0xF0F0123480000001, 0x20, 0], 0, 0x80000001, 0), // LSLV W0, W1, W2
    (0x1AC22020, [0xF0F0123480000001, 0x21, 0], 0, 2, 0), // LSLV W0, W1, W2
    (
        0x1AC22020,
        [0xF0F0123480000001, 0xABCDEF0100000002, 0],
        0,
        4,
        0,
    ), // LSLV W0, W1, W2
    (
        0x9AC22420,
        [0xF0F0123480000001, 0, 0],
        0,
        0xF0F0123480000001,
        0,
    ), // LSRV X0, X1, X2
    (
        0x9AC22420,
        [0xF0F0123480000001, 1, 0],
        0,
        0x7878091A40000000,
        0,
    ), // LSRV X0, X1, X2
    (0x9AC22420, [0xF0F0123480000001, 0x3F, 0], 0, 1, 0), // LSRV X0, X1, X2
    (
        0x9AC22420,
        [0xF0F0123480000001, 0x40, 0],
        0,
        0xF0F0123480000001,
        0,
    ), // LSRV X0, X1, X2
    (
        0x9AC22420,
        [0xF0F0123480000001, 0x41, 0],
        0,
        0x7878091A40000000,
        0,
    ), // LSRV X0, X1, X2
    (
        0x9AC22420,
        [0xF0F0123480000001, 0xFFFFFFFFFFFFFFFF, 0],
        0,
        1,
        0,
    ), // LSRV X0, X1, X2
    (0x1AC22420, [0xF0F0123480000001, 0, 0], 0, 0x80000001, 0), // LSRV W0, W1, W2
    (0x1AC22420, [0xF0F0123480000001, 1, 0], 0, 0x40000000, 0), // LSRV W0, W1, W2
    (0x1AC22420, [0xF0F0123480000001, 0x1F, 0], 0, 1, 0), // LSRV W0, W1, W2
    (0x1AC22420, [0xF0F0123480000001, 0x20, 0], 0, 0x80000001, 0), // LSRV W0, W1, W2
    (0x1AC22420, [0xF0F0123480000001, 0x21, 0], 0, 0x40000000, 0), // LSRV W0, W1, W2
    (
        0x1AC22420,
        [0xF0F0123480000001, 0xABCDEF0100000002, 0],
        0,
        0x20000000,
        0,
    ), // LSRV W0, W1, W2
    (
        0x9AC22820,
        [0xF0F0123480000001, 0, 0],
        0,
        0xF0F0123480000001,
        0,
    ), // ASRV X0, X1, X2
    (
        0x9AC22820,
        [0xF0F0123480000001, 1, 0],
        0,
        0xF878091A40000000,
        0,
    ), // ASRV X0, X1, X2
    (
        0x9AC22820,
        [0xF0F0123480000001, 0x3F, 0],
        0,
        0xFFFFFFFFFFFFFFFF,
        0,
    ), // ASRV X0, X1, X2
    (
        0x9AC22820,
        [0xF0F0123480000001, 0x40, 0],
        0,
        0xF0F0123480000001,
        0,
    ), // ASRV X0, X1, X2
    (
        0x9AC22820,
        [0xF0F0123480000001, 0x41, 0],
        0,
        0xF878091A40000000,
        0,
    ), // ASRV X0, X1, X2
    (
        0x9AC22820,
        [0xF0F0123480000001, 0xFFFFFFFFFFFFFFFF, 0],
        0,
        0xFFFFFFFFFFFFFFFF,
        0,
    ), // ASRV X0, X1, X2
    (0x1AC22820, [0xF0F0123480000001, 0, 0], 0, 0x80000001, 0), // ASRV W0, W1, W2
    (0x1AC22820, [0xF0F0123480000001, 1, 0], 0, 0xC0000000, 0), // ASRV W0, W1, W2
    (0x1AC22820, [0xF0F0123480000001, 0x1F, 0], 0, 0xFFFFFFFF, 0), // ASRV W0, W1, W2
    (0x1AC22820, [0xF0F0123480000001, 0x20, 0], 0, 0x80000001, 0), // ASRV W0, W1, W2
    (0x1AC22820, [0xF0F0123480000001, 0x21, 0], 0, 0xC0000000, 0), // ASRV W0, W1, W2
    (
        0x1AC22820,
        [0xF0F0123480000001, 0xABCDEF0100000002, 0],
        0,
        0xE0000000,
        0,
    ), // ASRV W0, W1, W2
    (
        0x9AC22C20,
        [0xF0F0123480000001, 0, 0],
        0,
        0xF0F0123480000001,
        0,
    ), // RORV X0, X1, X2
    (
        0x9AC22C20,
        [0xF0F0123480000001, 1, 0],
        0,
        0xF878091A40000000,
        0,
    ), // RORV X0, X1, X2
    (
        0x9AC22C20,
        [0xF0F0123480000001, 0x3F, 0],
        0,
        0xE1E0246900000003,
        0,
    ), // RORV X0, X1, X2
    (
        0x9AC22C20,
        [0xF0F0123480000001, 0x40, 0],
        0,
        0xF0F0123480000001,
        0,
    ), // RORV X0, X1, X2
    (
        0x9AC22C20,
        [0xF0F0123480000001, 0x41, 0],
        0,
        0xF878091A40000000,
        0,
    ), // RORV X0, X1, X2
    (
        0x9AC22C20,
        [0xF0F0123480000001, 0xFFFFFFFFFFFFFFFF, 0],
        0,
        0xE1E0246900000003,
        0,
    ), // RORV X0, X1, X2
    (0x1AC22C20, [0xF0F0123480000001, 0, 0], 0, 0x80000001, 0), // RORV W0, W1, W2
    (0x1AC22C20, [0xF0F0123480000001, 1, 0], 0, 0xC0000000, 0), // RORV W0, W1, W2
    (0x1AC22C20, [0xF0F0123480000001, 0x1F, 0], 0, 3, 0), // RORV W0, W1, W2
    (0x1AC22C20, [0xF0F0123480000001, 0x20, 0], 0, 0x80000001, 0), // RORV W0, W1, W2
    (0x1AC22C20, [0xF0F0123480000001, 0x21, 0], 0, 0xC0000000, 0), // RORV W0, W1, W2
    (
        0x1AC22C20,
        [0xF0F0123480000001, 0xABCDEF0100000002, 0],
        0,
        0x60000000,
        0,
    ), // RORV W0, W1, W2
];

/// MADD, MSUB, SMULH and UMULH.
pub const PRODUCTS: [Row; 48] = [
    (0x9B020C20, [0, 0, 0], 0, 0, 0), // MADD X0, X1, X2, X3
    (
        0x1B020C20,
        [0xABCDEF0100000000, 0, 0xABCDEF0100000000],
        0,
        0,
        0,
    ), // MADD W0, W1, W2, W3
    (0x9B028C20, [0, 0, 0], 0, 0, 0), // MSUB X0, X1, X2, X3
    (
        0x1B028C20,
        [0xABCDEF0100000000, 0, 0xABCDEF0100000000],
        0,
        0,
        0,
    ), // MSUB W0, W1, W2, W3
    (0x9B020C20, [3, 5, 7], 0, 0x16, 0), // MADD X0, X1, X2, X3
    (
        0x1B020C20,
        [0xABCDEF0100000003, 5, 0xABCDEF0100000007],
        0,
        0x16,
        0,
    ), // MADD W0, W1, W2, W3
    (0x9B028C20, [3, 5, 7], 0, 0xFFFFFFFFFFFFFFF8, 0), // MSUB X0, X1, X2, X3
    (
        0x1B028C20,
        [0xABCDEF0100000003, 5, 0xABCDEF0100000007],
        0,
        0xFFFFFFF8,
        0,
    ), // MSUB W0, W1, W2, W3
    (
        0x9B020C20,
        [0xFFFFFFFFFFFFFFFF, 0xFFFFFFFFFFFFFFFF, 1],
        0,
        2,
        0,
    ), // MADD X0, X1, X2, X3
    (
        0x1B020C20,
        [0xFFFFFFFFFFFFFFFF, 0xFFFFFFFFFFFFFFFF, 0xABCDEF0100000001],
        0,
        2,
        0,
    ), // MADD W0, W1, W2, W3
    (
        0x9B028C20,
        [0xFFFFFFFFFFFFFFFF, 0xFFFFFFFFFFFFFFFF, 1],
        0,
        0,
        0,
    ), // MSUB X0, X1, X2, X3
    (
        0x1B028C20,
        [0xFFFFFFFFFFFFFFFF, 0xFFFFFFFFFFFFFFFF, 0xABCDEF0100000001],
        0,
        0,
        0,
    ), // MSUB W0, W1, W2, W3
    (0x9B020C20, [0x8000000000000000, 2, 5], 0, 5, 0), // MADD X0, X1, X2, X3
    (
        0x1B020C20,
        [0xABCDEF0100000000, 2, 0xABCDEF0100000005],
        0,
        5,
        0,
    ), // MADD W0, W1, W2, W3
    (0x9B028C20, [0x8000000000000000, 2, 5], 0, 5, 0), // MSUB X0, X1, X2, X3
    (
        0x1B028C20,
        [0xABCDEF0100000000, 2, 0xABCDEF0100000005],
        0,
        5,
        0,
    ), // MSUB W0, W1, W2, W3
    (0x9B020C20, [0x100000000, 0x100000000, 9], 0, 9, 0), // MADD X0, X1, X2, X3
    (
        0x1B020C20,
        [0xABCDEF0100000000, 0x100000000, 0xABCDEF0100000009],
        0,
        9,
        0,
    ), // MADD W0, W1, W2, W3
    (0x9B028C20, [0x100000000, 0x100000000, 9], 0, 9, 0), // MSUB X0, X1, X2, X3
    (
        0x1B028C20,
        [0xABCDEF0100000000, 0x100000000, 0xABCDEF0100000009],
        0,
        9,
        0,
    ), // MSUB W0, W1, W2, W3
    (
        0x9B020C20,
        [0xFFFFFFFFFFFFFFFF, 2, 0],
        0,
        0xFFFFFFFFFFFFFFFE,
        0,
    ), // MADD X0, X1, X2, X3
    (
        0x1B020C20,
        [0xFFFFFFFFFFFFFFFF, 2, 0xABCDEF0100000000],
        0,
        0xFFFFFFFE,
        0,
    ), // MADD W0, W1, W2, W3
    (0x9B028C20, [0xFFFFFFFFFFFFFFFF, 2, 0], 0, 2, 0), // MSUB X0, X1, X2, X3
    (
        0x1B028C20,
        [0xFFFFFFFFFFFFFFFF, 2, 0xABCDEF0100000000],
        0,
        2,
        0,
    ), // MSUB W0, W1, W2, W3
    (
        0x9B020C20,
        [0, 5, 0xFFFFFFFFFFFFFFFF],
        0,
        0xFFFFFFFFFFFFFFFF,
        0,
    ), // MADD X0, X1, X2, X3
    (
        0x1B020C20,
        [0xABCDEF0100000000, 5, 0xFFFFFFFFFFFFFFFF],
        0,
        0xFFFFFFFF,
        0,
    ), // MADD W0, W1, W2, W3
    (
        0x9B028C20,
        [0, 5, 0xFFFFFFFFFFFFFFFF],
        0,
        0xFFFFFFFFFFFFFFFF,
        0,
    ), // MSUB X0, X1, X2, X3
    (
        0x1B028C20,
        [0xABCDEF0100000000, 5, 0xFFFFFFFFFFFFFFFF],
        0,
        0xFFFFFFFF,
        0,
    ), // MSUB W0, W1, W2, W3
    (0x9B427C20, [0, 0xFFFFFFFFFFFFFFFF, 0], 0, 0, 0), // SMULH X0, X1, X2
    (0x9BC27C20, [0, 0xFFFFFFFFFFFFFFFF, 0], 0, 0, 0), // UMULH X0, X1, X2
    (
        0x9B427C20,
        [1, 0xFFFFFFFFFFFFFFFF, 0],
        0,
        0xFFFFFFFFFFFFFFFF,
        0,
    ), // SMULH X0, X1, X2
    (0x9BC27C20, [1, 0xFFFFFFFFFFFFFFFF, 0], 0, 0, 0), // UMULH X0, X1, X2
    (
        0x9B427C20,
        [0xFFFFFFFFFFFFFFFF, 0xFFFFFFFFFFFFFFFF, 0],
        0,
        0,
        0,
    ), // SMULH X0, X1, X2
    (
        0x9BC27C20,
        [0xFFFFFFFFFFFFFFFF, 0xFFFFFFFFFFFFFFFF, 0],
        0,
        0xFFFFFFFFFFFFFFFE,
        0,
    ), // UMULH X0, X1, X2
    (
        0x9B427C20,
        [0x8000000000000000, 0x8000000000000000, 0],
        0,
        0x4000000000000000,
        0,
    ), // SMULH X0, X1, X2
    (
        0x9BC27C20,
        [0x8000000000000000, 0x8000000000000000, 0],
        0,
        0x4000000000000000,
        0,
    ), // UMULH X0, X1, X2
    (
        0x9B427C20,
        [0x8000000000000000, 0xFFFFFFFFFFFFFFFF, 0],
        0,
        0,
        0,
    ), // SMULH X0, X1, X2
    (
        0x9BC27C20,
        [0x8000000000000000, 0xFFFFFFFFFFFFFFFF, 0],
        0,
        0x7FFFFFFFFFFFFFFF,
        0,
    ), // UMULH X0, X1, X2
    (
        0x9B427C20,
        [0x7FFFFFFFFFFFFFFF, 0x7FFFFFFFFFFFFFFF, 0],
        0,
        0x3FFFFFFFFFFFFFFF,
        0,
    ), // SMULH X0, X1, X2
    (
        0x9BC27C20,
        [0x7FFFFFFFFFFFFFFF, 0x7FFFFFFFFFFFFFFF, 0],
        0,
        0x3FFFFFFFFFFFFFFF,
        0,
    ), // UMULH X0, X1, X2
    (
        0x9B427C20,
        [0x7FFFFFFFFFFFFFFF, 0x8000000000000000, 0],
        0,
        0xC000000000000000,
        0,
    ), // SMULH X0, X1, X2
    (
        0x9BC27C20,
        [0x7FFFFFFFFFFFFFFF, 0x8000000000000000, 0],
        0,
        0x3FFFFFFFFFFFFFFF,
        0,
    ), // UMULH X0, X1, X2
    (0x9B427C20, [0x100000000, 0x100000000, 0], 0, 1, 0), // SMULH X0, X1, X2
    (0x9BC27C20, [0x100000000, 0x100000000, 0], 0, 1, 0), // UMULH X0, X1, X2
    (0x9B427C20, [3, 0x5555555555555555, 0], 0, 0, 0), // SMULH X0, X1, X2
    (0x9BC27C20, [3, 0x5555555555555555, 0], 0, 0, 0), // UMULH X0, X1, X2
    (
        0x9B427C20,
        [2, 0x8000000000000000, 0],
        0,
        0xFFFFFFFFFFFFFFFF,
        0,
    ), // SMULH X0, X1, X2
    (0x9BC27C20, [2, 0x8000000000000000, 0], 0, 1, 0), // UMULH X0, X1, X2
];
