//! Loads and stores of all four classes, run in the machine.

use crate::host::{Outcome, run, started};
use lfi_machine::Halt;
use lfi_module::Profile;
use std::alloc::Global;
use std::test::Fail;

/// The base of slot 0.
const BASE: u64 = 0x1_0000_0000;

/// Where x18 points: four bytes before the end of a page, so that wider accesses cross it.
const DATA: u64 = BASE + 0x8000_0FFC;

/// What x2 holds. Its bytes are 87, 96, A5, B4, C3, D2, E1, F0.
const VALUE: u64 = 0xF0E1_D2C3_B4A5_9687;

/// What x1 holds: by its low half, where x18 points.
const INDEX: u64 = 0xABCD_EF01_8000_0FFC;

/// Two words; what x0 and x1 hold after both. The values are those of the Arm manual's pseudocode, by hand.
type Row = (u32, u32, u64, u64);

/// STR X2, [X18].
const STORED: u32 = 0xF900_0242;

/// LDR X0, [X18].
const LOADED: u32 = 0xF940_0240;

const LOADS: [Row; 25] = [
    (STORED, 0x39400240, 0x87, INDEX), // LDRB W0, [X18]
    (STORED, 0x39401E40, 0xF0, INDEX), // LDRB W0, [X18, #7]
    (STORED, 0x39800240, 0xFFFFFFFFFFFFFF87, INDEX), // LDRSB X0, [X18]
    (STORED, 0x39C00240, 0xFFFFFF87, INDEX), // LDRSB W0, [X18]
    (STORED, 0x79400640, 0xB4A5, INDEX), // LDRH W0, [X18, #2]
    (STORED, 0x79800640, 0xFFFFFFFFFFFFB4A5, INDEX), // LDRSH X0, [X18, #2]
    (STORED, 0x79C00640, 0xFFFFB4A5, INDEX), // LDRSH W0, [X18, #2]
    (STORED, 0xB9400640, 0xF0E1D2C3, INDEX), // LDR W0, [X18, #4]
    (STORED, 0xB9800640, 0xFFFFFFFFF0E1D2C3, INDEX), // LDRSW X0, [X18, #4]
    (STORED, LOADED, VALUE, INDEX), // LDR X0, [X18]
    (STORED, 0xF94006A0, 0x10000000010, INDEX), // LDR X0, [X21, #8]
    (STORED, 0xF85FF240, 0xE1D2C3B4A5968700, INDEX), // LDUR X0, [X18, #-1]
    (STORED, 0x38C07240, 0xFFFFFFF0, INDEX), // LDURSB W0, [X18, #7]
    (STORED, 0x78401240, 0xA596, INDEX), // LDURH W0, [X18, #1]
    (STORED, 0xB8403240, 0xE1D2C3B4, INDEX), // LDUR W0, [X18, #3]
    (STORED, 0xF8614AA0, VALUE, INDEX), // LDR X0, [X21, W1, UXTW]
    (STORED, 0x38614AA0, 0x87, INDEX), // LDRB W0, [X21, W1, UXTW]
    (STORED, 0x78A14AA0, 0xFFFFFFFFFFFF9687, INDEX), // LDRSH X0, [X21, W1, UXTW]
    (STORED, 0xB8A14AA0, 0xFFFFFFFFB4A59687, INDEX), // LDRSW X0, [X21, W1, UXTW]
    (STORED, 0xA9400640, VALUE, 0), // LDP X0, X1, [X18]
    (STORED, 0x29400640, 0xB4A59687, 0xF0E1D2C3), // LDP W0, W1, [X18]
    (STORED, 0xA97F8241, VALUE, 0), // LDP X1, X0, [X18, #-8]
    (STORED, 0xF940025F, 9, INDEX), // LDR XZR, [X18]
    (STORED, 0xB980025F, 9, INDEX), // LDRSW XZR, [X18]
    (STORED, 0xA940065F, 9, 0), // LDP XZR, X1, [X18]
];

const STORES: [Row; 13] = [
    (0x39000E42, LOADED, 0x87000000, INDEX), // STRB W2, [X18, #3]
    (0x79000642, LOADED, 0x96870000, INDEX), // STRH W2, [X18, #2]
    (0xB9000642, LOADED, 0xB4A5968700000000, INDEX), // STR W2, [X18, #4]
    (0xF900025F, LOADED, 0, INDEX), // STR XZR, [X18]
    (0xF81FD242, LOADED, 0xF0E1D2C3B4, INDEX), // STUR X2, [X18, #-3]
    (0x38001242, LOADED, 0x8700, INDEX), // STURB W2, [X18, #1]
    (0xB8214AA2, LOADED, 0xB4A59687, INDEX), // STR W2, [X21, W1, UXTW]
    (0x78214AA2, LOADED, 0x9687, INDEX), // STRH W2, [X21, W1, UXTW]
    (0xF8214AA2, LOADED, VALUE, INDEX), // STR X2, [X21, W1, UXTW]
    (0xA93F8A42, LOADED, VALUE, INDEX), // STP X2, X2, [X18, #-8]
    (0xA93F8A5F, LOADED, VALUE, INDEX), // STP XZR, X2, [X18, #-8]
    (0x29007E42, LOADED, 0xB4A59687, INDEX), // STP W2, WZR, [X18]
    (0x29000A5F, LOADED, 0xB4A5968700000000, INDEX), // STP WZR, W2, [X18]
];

/// Accesses that change their base, which is sp: down by 16 and up again.
const MOVES: [Row; 4] = [
    (0xF81F0FE2, 0xF84107E0, VALUE, INDEX), // STR X2, [SP, #-16]!; LDR X0, [SP], #16
    (0x381F0FE2, 0xF84107E0, 0x87, INDEX), // STRB W2, [SP, #-16]!; LDR X0, [SP], #16
    (0xA9BF07E2, 0xA8C103E1, INDEX, VALUE), // STP X2, X1, [SP, #-16]!; LDP X1, X0, [SP], #16
    (0xB81F0FE2, 0xB84107E0, 0xB4A59687, INDEX), // STR W2, [SP, #-16]!; LDR W0, [SP], #16
];

/// One that changes it once.
const MOVED_DOWN: [Row; 1] = [
    (0xA9BF0BFF, 0xF94007E0, VALUE, INDEX), // STP XZR, X2, [SP, #-16]!; LDR X0, [SP, #8]
];

/// The registers before a row's words, by their places.
const BEFORE: [(usize, u64); 4] = [(0, 9), (1, INDEX), (2, VALUE), (18, DATA)];

/// The tables, each with how far sp has moved down after the first word of a row and after both.
const TABLES: [(&[Row], u64, u64); 4] = [
    (&LOADS, 0, 0),
    (&STORES, 0, 0),
    (&MOVES, 16, 0),
    (&MOVED_DOWN, 16, 16),
];

/// Runs two words, a step at a time.
fn steps(alloc: Global, words: [u32; 2]) -> Result<[Outcome; 2], Fail> {
    let mut machine = started(alloc, Profile::One, &words, &BEFORE)?;
    Ok([run(&mut machine, 1), run(&mut machine, 1)])
}

/// Whether a run was one step.
fn is_one_step(ran: &Outcome) -> bool {
    ran.halt == Halt::StepsUsed && ran.count == 1
}

/// Whether both words of a row do so, where sp has moved down so far after each.
fn is_right(alloc: Global, row: &Row, first: u64, second: u64) -> Result<bool, Fail> {
    let (store, load, x0, x1) = *row;
    let [one, two] = steps(alloc, [store, load])?;
    let (x, top) = (two.after.x, BASE + (1 << 32));
    let seen = [x[0], x[1], x[2], x[18], two.after.pc];
    let moved = [
        top.wrapping_sub(one.after.sp),
        top.wrapping_sub(two.after.sp),
    ];
    let wanted = [x0, x1, VALUE, DATA, BASE + 65536 + 8];
    Ok(is_one_step(&one) && is_one_step(&two) && seen == wanted && moved == [first, second])
}

/// The first row of the tables that is wrong.
fn first_wrong(alloc: Global) -> Result<Option<Row>, Fail> {
    for (rows, first, second) in &TABLES {
        for row in *rows {
            if !is_right(alloc, row, *first, *second)? {
                return Ok(Some(*row));
            }
        }
    }
    Ok(None)
}

#[test]
fn loads_and_stores(rt: HostRuntime) -> Result<(), Fail> {
    let wrong = first_wrong(rt.alloc())?;
    assert!(rt; wrong.is_none(), "row {wrong:?}");
    Ok(())
}
