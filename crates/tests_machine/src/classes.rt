//! Each class that accesses no memory, run in the machine: one step of a lawful image, at the edges of its values.

use crate::host::ran;
use lfi_machine::Halt;
use lfi_module::Profile;
use std::alloc::Global;
use std::test::Fail;

/// The base of slot 0.
const BASE: u64 = 0x1_0000_0000;

/// The first word's address in it.
const CODE: u64 = 0x1_0001_0000;

const ALL: u64 = u64::MAX;

const LEAST: u64 = 1 << 63;

/// The first of three words, the others NOP; x0, x1 and x2 and the flags before; x0, the flags and how far pc is from the
/// first word after. The values are those of the Arm manual's pseudocode, reckoned by hand.
type Row = (u32, [u64; 3], u8, u64, u8, u64);

const ROWS: [Row; 62] = [
    (0x91000420, [9, ALL, 9], 15, 0, 15, 4), // ADD X0, X1, #1
    (0xB1000420, [9, ALL >> 1, 9], 0, LEAST, 9, 4), // ADDS X0, X1, #1
    (0x71000420, [9, 0, 9], 0, 0xFFFFFFFF, 8, 4), // SUBS W0, W1, #1
    (0x91400420, [9, 0, 9], 3, 0x1000, 3, 4), // ADD X0, X1, #1, LSL #12
    (0x92401C20, [9, ALL, 9], 3, 0xFF, 3, 4), // AND X0, X1, #0xFF
    (0x72010020, [9, ALL, 9], 3, 0x80000000, 8, 4), // ANDS W0, W1, #0x80000000
    (0xD2410420, [9, 0, 9], 1, 0x8000000000000001, 1, 4), // EOR X0, X1, #0x8000000000000001
    (0xB200F3E0, [9, 9, 9], 1, 0x5555555555555555, 1, 4), // ORR X0, XZR, #0x5555555555555555
    (0x92800000, [9, 9, 9], 5, ALL, 5, 4), // MOVN X0, #0
    (0xD2E00020, [9, 9, 9], 5, 1 << 48, 5, 4), // MOVZ X0, #1, LSL #48
    (0xF2E00020, [ALL, 9, 9], 5, 0x1FFFFFFFFFFFF, 5, 4), // MOVK X0, #1, LSL #48
    (0x10000000, [9, 9, 9], 0, CODE, 0, 4), // ADR X0, #0
    (0x70FFFFE0, [9, 9, 9], 0, CODE - 1, 0, 4), // ADR X0, #-1
    (0xF0FFFFE0, [9, 9, 9], 0, CODE - 4096, 0, 4), // ADRP X0, #-4096
    (0x93407C20, [9, 0x80000000, 9], 0, 0xFFFFFFFF80000000, 0, 4), // SXTW X0, W1
    (0xD340FC20, [9, LEAST + 1, 9], 0, LEAST + 1, 0, 4), // LSR X0, X1, #0
    (0xD37FFC20, [9, ALL, 9], 0, 1, 0, 4), // LSR X0, X1, #63
    (0x9341FC20, [9, LEAST, 9], 0, 0xC000000000000000, 0, 4), // ASR X0, X1, #1
    (0xB3400020, [0, ALL, 9], 0, 1, 0, 4), // BFM X0, X1, #0, #0
    (0xEA020020, [9, 1, 2], 15, 0, 4, 4), // ANDS X0, X1, X2
    (0xAAC2FFE0, [9, 9, LEAST + 1], 0, 3, 0, 4), // ORR X0, XZR, X2, ROR #63
    (0xEB01001F, [0, 1, 9], 0, 0, 8, 4), // CMP X0, X1
    (0xEB01001F, [5, 5, 9], 0, 5, 6, 4), // CMP X0, X1
    (0xEB01001F, [LEAST, 1, 9], 0, LEAST, 3, 4), // CMP X0, X1
    (0x8B02FC20, [9, 0, 3], 0, LEAST, 0, 4), // ADD X0, X1, X2, LSL #63
    (0x8B020020, [9, ALL, 1], 0, 0, 0, 4), // ADD X0, X1, X2
    (0x8B22C020, [9, 0, 0xFFFFFFFF], 0, ALL, 0, 4), // ADD X0, X1, W2, SXTW
    (0x8B220020, [9, 0, 0x1FF], 0, 0xFF, 0, 4), // ADD X0, X1, W2, UXTB
    (0xFA42002F, [9, 0, 0], 0, 9, 15, 4), // CCMP X1, X2, #15, EQ
    (0xFA42002F, [9, 0, 0], 4, 9, 6, 4), // CCMP X1, X2, #15, EQ
    (0x9A820020, [9, 1, ALL], 4, 1, 4, 4), // CSEL X0, X1, X2, EQ
    (0x9A820420, [9, 1, ALL], 0, 0, 0, 4), // CSINC X0, X1, X2, EQ
    (0xDA820020, [9, 1, 0], 0, ALL, 0, 4), // CSINV X0, X1, X2, EQ
    (0xDA820420, [9, 1, LEAST], 0, LEAST, 0, 4), // CSNEG X0, X1, X2, EQ
    (0x9AC20820, [9, 7, 0], 0, 0, 0, 4), // UDIV X0, X1, X2
    (0x9AC20C20, [9, LEAST, ALL], 0, LEAST, 0, 4), // SDIV X0, X1, X2
    (0x9AC22020, [9, 1, 63], 0, LEAST, 0, 4), // LSLV X0, X1, X2
    (0x9AC22020, [9, 1, 64], 0, 1, 0, 4), // LSLV X0, X1, X2
    (0x9AC22820, [9, LEAST, 63], 0, ALL, 0, 4), // ASRV X0, X1, X2
    (0x1AC22C20, [9, 1, 1], 0, 0x80000000, 0, 4), // RORV W0, W1, W2
    (0xDAC01020, [9, 0, 9], 0, 64, 0, 4), // CLZ X0, X1
    (0xDAC01020, [9, 1, 9], 0, 63, 0, 4), // CLZ X0, X1
    (0x5AC01020, [9, ALL, 9], 0, 0, 0, 4), // CLZ W0, W1
    (0x9B020020, [1, ALL, ALL], 0, 2, 0, 4), // MADD X0, X1, X2, X0
    (0x9B02FC20, [9, 1, 1], 0, ALL, 0, 4), // MSUB X0, X1, X2, XZR
    (0x9BC27C20, [9, ALL, ALL], 0, ALL - 1, 0, 4), // UMULH X0, X1, X2
    (0x9B427C20, [9, ALL, ALL], 0, 0, 0, 4), // SMULH X0, X1, X2
    (0x9B427C20, [9, LEAST, LEAST], 0, 1 << 62, 0, 4), // SMULH X0, X1, X2
    (0xD503201F, [9, 9, 9], 15, 9, 15, 4), // NOP
    (0x14000000, [9, 9, 9], 15, 9, 15, 0), // B #0
    (0x14000002, [9, 9, 9], 15, 9, 15, 8), // B #8
    (0xB4000040, [0, 9, 9], 0, 0, 0, 8), // CBZ X0, #8
    (0xB4000040, [1 << 32, 9, 9], 0, 1 << 32, 0, 4), // CBZ X0, #8
    (0x34000040, [1 << 32, 9, 9], 0, 1 << 32, 0, 8), // CBZ W0, #8
    (0x35000040, [1 << 32, 9, 9], 0, 1 << 32, 0, 4), // CBNZ W0, #8
    (0xB5000040, [1 << 32, 9, 9], 0, 1 << 32, 0, 8), // CBNZ X0, #8
    (0xB6F80040, [LEAST - 1, 9, 9], 0, LEAST - 1, 0, 8), // TBZ X0, #63, #8
    (0xB6F80040, [LEAST, 9, 9], 0, LEAST, 0, 4), // TBZ X0, #63, #8
    (0x37000040, [1, 9, 9], 0, 1, 0, 8), // TBNZ W0, #0, #8
    (0x37000040, [2, 9, 9], 0, 2, 0, 4), // TBNZ W0, #0, #8
    (0xD61F0240, [9, 9, 9], 0, 9, 0, 8), // BR X18
    (0xD65F03C0, [9, 9, 9], 0, 9, 0, 0), // RET
];

/// Whether a row's first word does so in one step. x18 holds the third word's address, and x30 the first's.
fn is_right(alloc: Global, row: &Row) -> Result<bool, Fail> {
    let (word, [x0, x1, x2], before, value, flags, far) = *row;
    let flags_before = (33, u64::from(before));
    let changes = [
        (0, x0),
        (1, x1),
        (2, x2),
        (18, CODE + 8),
        (30, CODE),
        flags_before,
    ];
    let words = [word, 0xD503201F, 0xD503201F];
    let ran = ran(alloc, Profile::One, &words, &changes, 1)?;
    let mut wanted = [0; 31];
    wanted[0] = value;
    wanted[1] = x1;
    wanted[2] = x2;
    wanted[18] = CODE + 8;
    wanted[21] = BASE;
    wanted[23] = BASE;
    wanted[24] = BASE;
    wanted[30] = CODE;
    let after = ran.after;
    let seen = [ran.count, after.sp, after.pc, u64::from(after.nzcv)];
    let others = [
        1,
        BASE + (1 << 32),
        CODE.wrapping_add(far),
        u64::from(flags),
    ];
    Ok(ran.halt == Halt::StepsUsed && after.x == wanted && seen == others)
}

/// The place of the first row that is wrong.
fn first_wrong(alloc: Global, rows: &[Row]) -> Result<Option<usize>, Fail> {
    for (place, row) in rows.iter().enumerate() {
        if !is_right(alloc, row)? {
            return Ok(Some(place));
        }
    }
    Ok(None)
}

#[test]
fn one_step_of_each_class(rt: HostRuntime) -> Result<(), Fail> {
    let wrong = first_wrong(rt.alloc(), &ROWS)?;
    assert!(rt; wrong.is_none(), "row {wrong:?}");
    Ok(())
}

/// The flags at which each of the sixteen conditions holds: bit n stands for the flags whose number is n.
const HOLDS: [u16; 16] = [
    0xF0F0, 0x0F0F, 0xCCCC, 0x3333, 0xFF00, 0x00FF, 0xAAAA, 0x5555, 0x0C0C, 0xF3F3, 0xAA55, 0x55AA,
    0x0A05, 0xF5FA, 0xFFFF, 0xFFFF,
];

/// The flags at which B.cond #8 branches, as above.
fn branches_at(alloc: Global, condition: u8) -> Result<u16, Fail> {
    let mut taken = 0;
    for number in 0..16u8 {
        let words = [0x54000040 + u32::from(condition), 0xD503201F, 0xD503201F];
        let ran = ran(alloc, Profile::One, &words, &[(33, u64::from(number))], 1)?;
        if ran.after.pc == CODE + 8 {
            taken |= 1 << number;
        }
    }
    Ok(taken)
}

#[test]
fn conditions(rt: HostRuntime) -> Result<(), Fail> {
    for condition in 0..16u8 {
        let taken = branches_at(rt.alloc(), condition)?;
        assert!(rt; taken == HOLDS[usize::from(condition)], "{condition}");
    }
    Ok(())
}
