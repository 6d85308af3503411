//! Results that are made bit by bit: logical operations, wide moves, moves of fields, counts.
use crate::semantics::rows::Row;

/// AND to BICS of shifted registers.
pub const LOGICAL: [Row; 35] = [
    (
        0x8A020020,
        [0xF0F0123480000001, 0xFF00FFFF80000003, 0],
        3,
        0xF000123480000001,
        3,
    ), // AND X0, X1, X2
    (
        0x0A020020,
        [0xF0F0123480000001, 0xFF00FFFF80000003, 0],
        12,
        0x80000001,
        12,
    ), // AND W0, W1, W2
    (
        0xAA020020,
        [0xF0F0123480000001, 0xFF00FFFF80000003, 0],
        3,
        0xFFF0FFFF80000003,
        3,
    ), // ORR X0, X1, X2
    (
        0x2A020020,
        [0xF0F0123480000001, 0xFF00FFFF80000003, 0],
        12,
        0x80000003,
        12,
    ), // ORR W0, W1, W2
    (
        0xCA020020,
        [0xF0F0123480000001, 0xFF00FFFF80000003, 0],
        3,
        0xFF0EDCB00000002,
        3,
    ), // EOR X0, X1, X2
    (
        0x4A020020,
        [0xF0F0123480000001, 0xFF00FFFF80000003, 0],
        12,
        2,
        12,
    ), // EOR W0, W1, W2
    (
        0xEA020020,
        [0xF0F0123480000001, 0xFF00FFFF80000003, 0],
        3,
        0xF000123480000001,
        8,
    ), // ANDS X0, X1, X2
    (
        0x6A020020,
        [0xF0F0123480000001, 0xFF00FFFF80000003, 0],
        12,
        0x80000001,
        8,
    ), // ANDS W0, W1, W2
    (
        0x8A220020,
        [0xF0F0123480000001, 0xFF00FFFF80000003, 0],
        3,
        0xF0000000000000,
        3,
    ), // BIC X0, X1, X2
    (
        0x0A220020,
        [0xF0F0123480000001, 0xFF00FFFF80000003, 0],
        12,
        0,
        12,
    ), // BIC W0, W1, W2
    (
        0xAA220020,
        [0xF0F0123480000001, 0xFF00FFFF80000003, 0],
        3,
        0xF0FF1234FFFFFFFD,
        3,
    ), // ORN X0, X1, X2
    (
        0x2A220020,
        [0xF0F0123480000001, 0xFF00FFFF80000003, 0],
        12,
        0xFFFFFFFD,
        12,
    ), // ORN W0, W1, W2
    (
        0xCA220020,
        [0xF0F0123480000001, 0xFF00FFFF80000003, 0],
        3,
        0xF00F1234FFFFFFFD,
        3,
    ), // EON X0, X1, X2
    (
        0x4A220020,
        [0xF0F0123480000001, 0xFF00FFFF80000003, 0],
        12,
        0xFFFFFFFD,
        12,
    ), // EON W0, W1, W2
    (
        0xEA220020,
        [0xF0F0123480000001, 0xFF00FFFF80000003, 0],
        3,
        0xF0000000000000,
        0,
    ), // BICS X0, X1, X2
    (
        0x6A220020,
        [0xF0F0123480000001, 0xFF00FFFF80000003, 0],
        12,
        0,
        4,
    ), // BICS W0, W1, W2
    (0xEA020020, [1, 2, 0], 15, 0, 4), // ANDS X0, X1, X2
    (
        0xEA020020,
        [0x8000000000000000, 0xFFFFFFFFFFFFFFFF, 0],
        15,
        0x8000000000000000,
        8,
    ), // ANDS X0, X1, X2
    (
        0xEA220020,
        [0xFFFFFFFFFFFFFFFF, 0xFFFFFFFFFFFFFFFF, 0],
        3,
        0,
        4,
    ), // BICS X0, X1, X2
    (
        0x6A220020,
        [0xFFFFFFFFFFFFFFFF, 0xABCDEF0100000000, 0],
        3,
        0xFFFFFFFF,
        8,
    ), // BICS W0, W1, W2
    (
        0x6A020020,
        [0xABCDEF0100000000, 0xFFFFFFFFFFFFFFFF, 0],
        3,
        0,
        4,
    ), // ANDS W0, W1, W2
    (0x6A020020, [0x80000000, 0x80000000, 0], 3, 0x80000000, 8), // ANDS W0, W1, W2
    (0xEA020020, [0x80000000, 0x80000000, 0], 3, 0x80000000, 0), // ANDS X0, X1, X2
    (
        0x8AC20420,
        [0xFFFFFFFFFFFFFFFF, 1, 0],
        0,
        0x8000000000000000,
        0,
    ), // AND X0, X1, X2, ROR #1
    (0xAAC2FFE0, [0, 0x8000000000000001, 0], 0, 3, 0), // ORR X0, XZR, X2, ROR #63
    (
        0xAAC213E0,
        [0, 0xF0F0123480000001, 0],
        0,
        0x1F0F012348000000,
        0,
    ), // ORR X0, XZR, X2, ROR #4
    (0x2AC27FE0, [0, 0xABCDEF0180000001, 0], 0, 3, 0), // ORR W0, WZR, W2, ROR #31
    (0x2AC213E0, [0, 0xF0F0123480000001, 0], 0, 0x18000000, 0), // ORR W0, WZR, W2, ROR #4
    (0xAA22FFE0, [0, 1, 0], 0, 0x7FFFFFFFFFFFFFFF, 0), // ORN X0, XZR, X2, LSL #63
    (0x2AA27FE0, [0, 0x80000000, 0], 0, 0, 0), // ORN W0, WZR, W2, ASR #31
    (
        0xCA82FC20,
        [0xF0F0123480000001, 0x8000000000000000, 0],
        0,
        0xF0FEDCB7FFFFFFE,
        0,
    ), // EOR X0, X1, X2, ASR #63
    (0xAA42FFE0, [0, 0xFFFFFFFFFFFFFFFF, 0], 0, 1, 0), // ORR X0, XZR, X2, LSR #63
    (0x4A627C20, [0, 0xFFFFFFFFFFFFFFFF, 0], 0, 0xFFFFFFFE, 0), // EON W0, W1, W2, LSR #31
    (0x2A027FE0, [0, 0xFFFFFFFFFFFFFFFF, 0], 0, 0x80000000, 0), // ORR W0, WZR, W2, LSL #31
    (
        0xAA0203E0,
        [7, 0xF0F0123480000001, 0],
        0,
        0xF0F0123480000001,
        0,
    ), // ORR X0, XZR, X2
];

/// AND, ORR, EOR and ANDS of bitmasks.
pub const MASKS: [Row; 20] = [
    (0x92401C20, [0xFFFFFFFFFFFFFFFF, 0, 0], 0, 0xFF, 0), // AND X0, X1, #0XFF
    (0x12003C20, [0xFFFFFFFFFFFFFFFF, 0, 0], 0, 0xFFFF, 0), // AND W0, W1, #0XFFFF
    (0xB200F3E0, [0, 0, 0], 0, 0x5555555555555555, 0), // ORR X0, XZR, #0X5555555555555555
    (0xB201F3E0, [0, 0, 0], 0, 0xAAAAAAAAAAAAAAAA, 0), // ORR X0, XZR, #0XAAAAAAAAAAAAAAAA
    (0x3200F3E0, [0, 0, 0], 0, 0x55555555, 0), // ORR W0, WZR, #0X55555555
    (
        0xD2410020,
        [0xFFFFFFFFFFFFFFFF, 0, 0],
        0,
        0x7FFFFFFFFFFFFFFF,
        0,
    ), // EOR X0, X1, #0X8000000000000000
    (0xD2410420, [0, 0, 0], 0, 0x8000000000000001, 0), // EOR X0, X1, #0X8000000000000001
    (
        0x927FF820,
        [0xFFFFFFFFFFFFFFFF, 0, 0],
        0,
        0xFFFFFFFFFFFFFFFE,
        0,
    ), // AND X0, X1, #0XFFFFFFFFFFFFFFFE
    (0xB200E3E0, [0, 0, 0], 0, 0x1111111111111111, 0), // ORR X0, XZR, #0X1111111111111111
    (0xB203CFE0, [0, 0, 0], 0, 0xE1E1E1E1E1E1E1E1, 0), // ORR X0, XZR, #0XE1E1E1E1E1E1E1E1
    (0xB2089FE0, [0, 0, 0], 0, 0xFF00FF00FF00FF00, 0), // ORR X0, XZR, #0XFF00FF00FF00FF00
    (0xB20003E0, [0, 0, 0], 0, 0x100000001, 0), // ORR X0, XZR, #0X0000000100000001
    (0x320107E0, [0, 0, 0], 0, 0x80000001, 0), // ORR W0, WZR, #0X80000001
    (0x32007BE0, [0, 0, 0], 0, 0x7FFFFFFF, 0), // ORR W0, WZR, #0X7FFFFFFF
    (
        0xF2410020,
        [0xFFFFFFFFFFFFFFFF, 0, 0],
        3,
        0x8000000000000000,
        8,
    ), // ANDS X0, X1, #0X8000000000000000
    (0x72010020, [0xFFFFFFFFFFFFFFFF, 0, 0], 3, 0x80000000, 8), // ANDS W0, W1, #0X80000000
    (0xF240F820, [0x8000000000000000, 0, 0], 3, 0, 4), // ANDS X0, X1, #0X7FFFFFFFFFFFFFFF
    (0x72000020, [0xABCDEF0100000000, 0, 0], 15, 0, 4), // ANDS W0, W1, #1
    (0x52020C20, [0xFFFFFFFFFFFFFFFF, 0, 0], 5, 0x3FFFFFFC, 5), // EOR W0, W1, #0XC0000003
    (0xB27EEFE0, [0, 0, 0], 0, 0x3FFFFFFFFFFFFFFC, 0), // ORR X0, XZR, #0X3FFFFFFFFFFFFFFC
];

/// MOVZ, MOVN and MOVK.
pub const WIDE: [Row; 23] = [
    (0xD2900020, [0, 0, 0x123456789ABCDEF], 7, 0x8001, 7), // MOVZ X0, #0X8001, LSL #0
    (
        0x92900020,
        [0, 0, 0x123456789ABCDEF],
        7,
        0xFFFFFFFFFFFF7FFE,
        7,
    ), // MOVN X0, #0X8001, LSL #0
    (
        0xF2900020,
        [0, 0, 0x123456789ABCDEF],
        7,
        0x123456789AB8001,
        7,
    ), // MOVK X0, #0X8001, LSL #0
    (0xD2B00020, [0, 0, 0x123456789ABCDEF], 7, 0x80010000, 7), // MOVZ X0, #0X8001, LSL #16
    (
        0x92B00020,
        [0, 0, 0x123456789ABCDEF],
        7,
        0xFFFFFFFF7FFEFFFF,
        7,
    ), // MOVN X0, #0X8001, LSL #16
    (
        0xF2B00020,
        [0, 0, 0x123456789ABCDEF],
        7,
        0x12345678001CDEF,
        7,
    ), // MOVK X0, #0X8001, LSL #16
    (0xD2D00020, [0, 0, 0x123456789ABCDEF], 7, 0x800100000000, 7), // MOVZ X0, #0X8001, LSL #32
    (
        0x92D00020,
        [0, 0, 0x123456789ABCDEF],
        7,
        0xFFFF7FFEFFFFFFFF,
        7,
    ), // MOVN X0, #0X8001, LSL #32
    (
        0xF2D00020,
        [0, 0, 0x123456789ABCDEF],
        7,
        0x123800189ABCDEF,
        7,
    ), // MOVK X0, #0X8001, LSL #32
    (
        0xD2F00020,
        [0, 0, 0x123456789ABCDEF],
        7,
        0x8001000000000000,
        7,
    ), // MOVZ X0, #0X8001, LSL #48
    (
        0x92F00020,
        [0, 0, 0x123456789ABCDEF],
        7,
        0x7FFEFFFFFFFFFFFF,
        7,
    ), // MOVN X0, #0X8001, LSL #48
    (
        0xF2F00020,
        [0, 0, 0x123456789ABCDEF],
        7,
        0x8001456789ABCDEF,
        7,
    ), // MOVK X0, #0X8001, LSL #48
    (0x52900020, [0, 0, 0x123456789ABCDEF], 7, 0x8001, 7), // MOVZ W0, #0X8001, LSL #0
    (0x12900020, [0, 0, 0x123456789ABCDEF], 7, 0xFFFF7FFE, 7), // MOVN W0, #0X8001, LSL #0
    (0x72900020, [0, 0, 0x123456789ABCDEF], 7, 0x89AB8001, 7), // MOVK W0, #0X8001, LSL #0
    (0x52B00020, [0, 0, 0x123456789ABCDEF], 7, 0x80010000, 7), // MOVZ W0, #0X8001, LSL #16
    (0x12B00020, [0, 0, 0x123456789ABCDEF], 7, 0x7FFEFFFF, 7), // MOVN W0, #0X8001, LSL #16
    (0x72B00020, [0, 0, 0x123456789ABCDEF], 7, 0x8001CDEF, 7), // MOVK W0, #0X8001, LSL #16
    (0xD2800000, [0, 0, 0xFFFFFFFFFFFFFFFF], 0, 0, 0), // MOVZ X0, #0
    (0x92800000, [0, 0, 1], 0, 0xFFFFFFFFFFFFFFFF, 0), // MOVN X0, #0
    (0x12800000, [0, 0, 1], 0, 0xFFFFFFFF, 0), // MOVN W0, #0
    (
        0xF2800000,
        [0, 0, 0xFFFFFFFFFFFFFFFF],
        0,
        0xFFFFFFFFFFFF0000,
        0,
    ), // MOVK X0, #0
    (0x729FFFE0, [0, 0, 0xABCDEF0100000000], 0, 0xFFFF, 0), // MOVK W0, #0XFFFF
];

/// UBFM, SBFM and BFM.
pub const FIELDS: [Row; 58] = [
    (
        0xD3400020,
        [0xF0F0123480000001, 0, 0xAAAAAAAAAAAAAAAA],
        5,
        1,
        5,
    ), // UBFM X0, X1, #0, #0
    (
        0xD340FC20,
        [0xF0F0123480000001, 0, 0xAAAAAAAAAAAAAAAA],
        5,
        0xF0F0123480000001,
        5,
    ), // UBFM X0, X1, #0, #63
    (
        0xD37F0020,
        [0xF0F0123480000001, 0, 0xAAAAAAAAAAAAAAAA],
        5,
        2,
        5,
    ), // UBFM X0, X1, #63, #0
    (
        0xD37FFC20,
        [0xF0F0123480000001, 0, 0xAAAAAAAAAAAAAAAA],
        5,
        1,
        5,
    ), // UBFM X0, X1, #63, #63
    (
        0xD3410020,
        [0xF0F0123480000001, 0, 0xAAAAAAAAAAAAAAAA],
        5,
        0x8000000000000000,
        5,
    ), // UBFM X0, X1, #1, #0
    (
        0xD3442C20,
        [0xF0F0123480000001, 0, 0xAAAAAAAAAAAAAAAA],
        5,
        0,
        5,
    ), // UBFM X0, X1, #4, #11
    (
        0xD34C0C20,
        [0xF0F0123480000001, 0, 0xAAAAAAAAAAAAAAAA],
        5,
        0x10000000000000,
        5,
    ), // UBFM X0, X1, #12, #3
    (
        0xD3407C20,
        [0xF0F0123480000001, 0, 0xAAAAAAAAAAAAAAAA],
        5,
        0x80000001,
        5,
    ), // UBFM X0, X1, #0, #31
    (
        0xD360FC20,
        [0xF0F0123480000001, 0, 0xAAAAAAAAAAAAAAAA],
        5,
        0xF0F01234,
        5,
    ), // UBFM X0, X1, #32, #63
    (
        0xD37EF420,
        [0xF0F0123480000001, 0, 0xAAAAAAAAAAAAAAAA],
        5,
        0xC3C048D200000004,
        5,
    ), // UBFM X0, X1, #62, #61
    (
        0x53000020,
        [0xF0F0123480000001, 0, 0xAAAAAAAA55555555],
        5,
        1,
        5,
    ), // UBFM W0, W1, #0, #0
    (
        0x53007C20,
        [0xF0F0123480000001, 0, 0xAAAAAAAA55555555],
        5,
        0x80000001,
        5,
    ), // UBFM W0, W1, #0, #31
    (
        0x531F0020,
        [0xF0F0123480000001, 0, 0xAAAAAAAA55555555],
        5,
        2,
        5,
    ), // UBFM W0, W1, #31, #0
    (
        0x531F7C20,
        [0xF0F0123480000001, 0, 0xAAAAAAAA55555555],
        5,
        1,
        5,
    ), // UBFM W0, W1, #31, #31
    (
        0x53010020,
        [0xF0F0123480000001, 0, 0xAAAAAAAA55555555],
        5,
        0x80000000,
        5,
    ), // UBFM W0, W1, #1, #0
    (
        0x53042C20,
        [0xF0F0123480000001, 0, 0xAAAAAAAA55555555],
        5,
        0,
        5,
    ), // UBFM W0, W1, #4, #11
    (
        0x530C0C20,
        [0xF0F0123480000001, 0, 0xAAAAAAAA55555555],
        5,
        0x100000,
        5,
    ), // UBFM W0, W1, #12, #3
    (
        0x53001C20,
        [0xF0F0123480000001, 0, 0xAAAAAAAA55555555],
        5,
        1,
        5,
    ), // UBFM W0, W1, #0, #7
    (
        0x531E7420,
        [0xF0F0123480000001, 0, 0xAAAAAAAA55555555],
        5,
        4,
        5,
    ), // UBFM W0, W1, #30, #29
    (
        0x93400020,
        [0xF0F0123480000001, 0, 0xAAAAAAAAAAAAAAAA],
        5,
        0xFFFFFFFFFFFFFFFF,
        5,
    ), // SBFM X0, X1, #0, #0
    (
        0x9340FC20,
        [0xF0F0123480000001, 0, 0xAAAAAAAAAAAAAAAA],
        5,
        0xF0F0123480000001,
        5,
    ), // SBFM X0, X1, #0, #63
    (
        0x937F0020,
        [0xF0F0123480000001, 0, 0xAAAAAAAAAAAAAAAA],
        5,
        0xFFFFFFFFFFFFFFFE,
        5,
    ), // SBFM X0, X1, #63, #0
    (
        0x937FFC20,
        [0xF0F0123480000001, 0, 0xAAAAAAAAAAAAAAAA],
        5,
        0xFFFFFFFFFFFFFFFF,
        5,
    ), // SBFM X0, X1, #63, #63
    (
        0x93410020,
        [0xF0F0123480000001, 0, 0xAAAAAAAAAAAAAAAA],
        5,
        0x8000000000000000,
        5,
    ), // SBFM X0, X1, #1, #0
    (
        0x93442C20,
        [0xF0F0123480000001, 0, 0xAAAAAAAAAAAAAAAA],
        5,
        0,
        5,
    ), // SBFM X0, X1, #4, #11
    (
        0x934C0C20,
        [0xF0F0123480000001, 0, 0xAAAAAAAAAAAAAAAA],
        5,
        0x10000000000000,
        5,
    ), // SBFM X0, X1, #12, #3
    (
        0x93407C20,
        [0xF0F0123480000001, 0, 0xAAAAAAAAAAAAAAAA],
        5,
        0xFFFFFFFF80000001,
        5,
    ), // SBFM X0, X1, #0, #31
    (
        0x9360FC20,
        [0xF0F0123480000001, 0, 0xAAAAAAAAAAAAAAAA],
        5,
        0xFFFFFFFFF0F01234,
        5,
    ), // SBFM X0, X1, #32, #63
    (
        0x937EF420,
        [0xF0F0123480000001, 0, 0xAAAAAAAAAAAAAAAA],
        5,
        0xC3C048D200000004,
        5,
    ), // SBFM X0, X1, #62, #61
    (
        0x13000020,
        [0xF0F0123480000001, 0, 0xAAAAAAAA55555555],
        5,
        0xFFFFFFFF,
        5,
    ), // SBFM W0, W1, #0, #0
    (
        0x13007C20,
        [0xF0F0123480000001, 0, 0xAAAAAAAA55555555],
        5,
        0x80000001,
        5,
    ), // SBFM W0, W1, #0, #31
    (
        0x131F0020,
        [0xF0F0123480000001, 0, 0xAAAAAAAA55555555],
        5,
        0xFFFFFFFE,
        5,
    ), // SBFM W0, W1, #31, #0
    (
        0x131F7C20,
        [0xF0F0123480000001, 0, 0xAAAAAAAA55555555],
        5,
        0xFFFFFFFF,
        5,
    ), // SBFM W0, W1, #31, #31
    (
        0x13010020,
        [0xF0F0123480000001, 0, 0xAAAAAAAA55555555],
        5,
        0x80000000,
        5,
    ), // SBFM W0, W1, #1, #0
    (
        0x13042C20,
        [0xF0F0123480000001, 0, 0xAAAAAAAA55555555],
        5,
        0,
        5,
    ), // SBFM W0, W1, #4, #11
    (
        0x130C0C20,
        [0xF0F0123480000001, 0, 0xAAAAAAAA55555555],
        5,
        0x100000,
        5,
    ), // SBFM W0, W1, #12, #3
    (
        0x13001C20,
        [0xF0F0123480000001, 0, 0xAAAAAAAA55555555],
        5,
        1,
        5,
    ), // SBFM W0, W1, #0, #7
    (
        0x131E7420,
        [0xF0F0123480000001, 0, 0xAAAAAAAA55555555],
        5,
        4,
        5,
    ), // SBFM W0, W1, #30, #29
    (
        0xB3400020,
        [0xF0F0123480000001, 0, 0xAAAAAAAAAAAAAAAA],
        5,
        0xAAAAAAAAAAAAAAAB,
        5,
    ), // BFM X0, X1, #0, #0
    (
        0xB340FC20,
        [0xF0F0123480000001, 0, 0xAAAAAAAAAAAAAAAA],
        5,
        0xF0F0123480000001,
        5,
    ), // BFM X0, X1, #0, #63
    (
        0xB37F0020,
        [0xF0F0123480000001, 0, 0xAAAAAAAAAAAAAAAA],
        5,
        0xAAAAAAAAAAAAAAAA,
        5,
    ), // BFM X0, X1, #63, #0
    (
        0xB37FFC20,
        [0xF0F0123480000001, 0, 0xAAAAAAAAAAAAAAAA],
        5,
        0xAAAAAAAAAAAAAAAB,
        5,
    ), // BFM X0, X1, #63, #63
    (
        0xB3410020,
        [0xF0F0123480000001, 0, 0xAAAAAAAAAAAAAAAA],
        5,
        0xAAAAAAAAAAAAAAAA,
        5,
    ), // BFM X0, X1, #1, #0
    (
        0xB3442C20,
        [0xF0F0123480000001, 0, 0xAAAAAAAAAAAAAAAA],
        5,
        0xAAAAAAAAAAAAAA00,
        5,
    ), // BFM X0, X1, #4, #11
    (
        0xB34C0C20,
        [0xF0F0123480000001, 0, 0xAAAAAAAAAAAAAAAA],
        5,
        0xAA1AAAAAAAAAAAAA,
        5,
    ), // BFM X0, X1, #12, #3
    (
        0xB3407C20,
        [0xF0F0123480000001, 0, 0xAAAAAAAAAAAAAAAA],
        5,
        0xAAAAAAAA80000001,
        5,
    ), // BFM X0, X1, #0, #31
    (
        0xB360FC20,
        [0xF0F0123480000001, 0, 0xAAAAAAAAAAAAAAAA],
        5,
        0xAAAAAAAAF0F01234,
        5,
    ), // BFM X0, X1, #32, #63
    (
        0xB37EF420,
        [0xF0F0123480000001, 0, 0xAAAAAAAAAAAAAAAA],
        5,
        0xC3C048D200000006,
        5,
    ), // BFM X0, X1, #62, #61
    (
        0x33000020,
        [0xF0F0123480000001, 0, 0xAAAAAAAA55555555],
        5,
        0x55555555,
        5,
    ), // BFM W0, W1, #0, #0
    (
        0x33007C20,
        [0xF0F0123480000001, 0, 0xAAAAAAAA55555555],
        5,
        0x80000001,
        5,
    ), // BFM W0, W1, #0, #31
    (
        0x331F0020,
        [0xF0F0123480000001, 0, 0xAAAAAAAA55555555],
        5,
        0x55555557,
        5,
    ), // BFM W0, W1, #31, #0
    (
        0x331F7C20,
        [0xF0F0123480000001, 0, 0xAAAAAAAA55555555],
        5,
        0x55555555,
        5,
    ), // BFM W0, W1, #31, #31
    (
        0x33010020,
        [0xF0F0123480000001, 0, 0xAAAAAAAA55555555],
        5,
        0xD5555555,
        5,
    ), // BFM W0, W1, #1, #0
    (
        0x33042C20,
        [0xF0F0123480000001, 0, 0xAAAAAAAA55555555],
        5,
        0x55555500,
        5,
    ), // BFM W0, W1, #4, #11
    (
        0x330C0C20,
        [0xF0F0123480000001, 0, 0xAAAAAAAA55555555],
        5,
        0x55155555,
        5,
    ), // BFM W0, W1, #12, #3
    (
        0x33001C20,
        [0xF0F0123480000001, 0, 0xAAAAAAAA55555555],
        5,
        0x55555501,
        5,
    ), // BFM W0, W1, #0, #7
    (
        0x331E7420,
        [0xF0F0123480000001, 0, 0xAAAAAAAA55555555],
        5,
        5,
        5,
    ), // BFM W0, W1, #30, #29
    (0x93407C20, [0x80000000, 0, 0], 0, 0xFFFFFFFF80000000, 0), // SBFM X0, X1, #0, #31
];

/// CLZ.
pub const ZEROS: [Row; 15] = [
    (0xDAC01020, [0, 0, 0], 0, 0x40, 0), // CLZ X0, X1
    (0xDAC01020, [1, 0, 0], 0, 0x3F, 0), // CLZ X0, X1
    (0xDAC01020, [2, 0, 0], 0, 0x3E, 0), // CLZ X0, X1
    (0xDAC01020, [0x8000000000000000, 0, 0], 0, 0, 0), // CLZ X0, X1
    (0xDAC01020, [0xFFFFFFFFFFFFFFFF, 0, 0], 0, 0, 0), // CLZ X0, X1
    (0xDAC01020, [0x80000000, 0, 0], 0, 0x20, 0), // CLZ X0, X1
    (0xDAC01020, [0xFFFFFFFF, 0, 0], 0, 0x20, 0), // CLZ X0, X1
    (0xDAC01020, [0x100000000, 0, 0], 0, 0x1F, 0), // CLZ X0, X1
    (0x5AC01020, [0, 0, 0], 0, 0x20, 0), // CLZ W0, W1
    (0x5AC01020, [1, 0, 0], 0, 0x1F, 0), // CLZ W0, W1
    (0x5AC01020, [0xABCDEF0100000000, 0, 0], 0, 0x20, 0), // CLZ W0, W1
    (0x5AC01020, [0x80000000, 0, 0], 0, 0, 0), // CLZ W0, W1
    (0x5AC01020, [0xABCDEF0180000000, 0, 0], 0, 0, 0), // CLZ W0, W1
    (0x5AC01020, [0xFFFFFFFF, 0, 0], 0, 0, 0), // CLZ W0, W1
    (0x5AC01020, [0xABCDEF0100000003, 0, 0], 0, 0x1E, 0), // CLZ W0, W1
];
