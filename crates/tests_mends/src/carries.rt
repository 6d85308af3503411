//! Sums and differences with a carry that set flags: their mends, and what these do to the register and to the flags.

ghost use Rattle.std.specs.Prelude.{◌≡◌, ◌⊎◌};

use crate::machine::Machine;
use crate::rows::Row;
use crate::states::{Draws, agree, field, mended, numbers};
use crate::tables::first_wrong;
use a64_semantics::Registers;
use a64_word::Width;
use lfi_module::Profile;
use lfi_rules::{Need, Rule};
use std::test::Fail;

/// NOP.
const NOP: u32 = 0xD503201F;

/// ADCS and SBCS, with a register for the result and with none.
const CARRIES: [Row; 6] = [
    // adcs x0, x1, x2: and x17, x1, x2; orr x16, x1, x2; csinc x0, x17, x17, lo; adds xzr, xzr, x0, lsl #1; csel x17, x17, x0, eq; add x0, x16, x0; adds xzr, x16, x17
    Row {
        profile: Profile::One,
        rule: Rule::Spelled,
        unmet: Need::Nothing,
        word: 0xBA020020,
        next: NOP,
        mend: &[
            0x8A020031, 0xAA020030, 0x9A913620, 0xAB0007FF, 0x9A800231, 0x8B000200, 0xAB11021F,
        ],
    },
    // sbcs w0, w1, w2: bic w17, w1, w2; orn w16, w1, w2; csinc w0, w17, w17, lo; adds wzr, wzr, w0, lsl #1; csel w17, w17, w0, eq; add w0, w16, w0; adds wzr, w16, w17
    Row {
        profile: Profile::One,
        rule: Rule::Spelled,
        unmet: Need::Nothing,
        word: 0x7A020020,
        next: NOP,
        mend: &[
            0x0A220031, 0x2A220030, 0x1A913620, 0x2B0007FF, 0x1A800231, 0x0B000200, 0x2B11021F,
        ],
    },
    // sbcs xzr, x1, x3: bic x17, x1, x3; orn x16, x1, x3; csinc w22, wzr, wzr, lo; ands xzr, x22, x17; orr x17, x17, x22; ccmn x16, x17, #0, ne; ccmn x16, x17, #2, ne
    Row {
        profile: Profile::One,
        rule: Rule::Spelled,
        unmet: Need::Nothing,
        word: 0xFA03003F,
        next: NOP,
        mend: &[
            0x8A230031, 0xAA230030, 0x1A9F37F6, 0xEA1102DF, 0xAA160231, 0xBA511200, 0xBA511202,
        ],
    },
    // adcs wzr, w1, w2: and w17, w1, w2; orr w16, w1, w2; csinc w22, wzr, wzr, lo; ands wzr, w22, w17; orr w17, w17, w22; ccmn w16, w17, #0, ne; ccmn w16, w17, #2, ne
    Row {
        profile: Profile::One,
        rule: Rule::Spelled,
        unmet: Need::Nothing,
        word: 0x3A02003F,
        next: NOP,
        mend: &[
            0x0A020031, 0x2A020030, 0x1A9F37F6, 0x6A1102DF, 0x2A160231, 0x3A511200, 0x3A511202,
        ],
    },
    // sbcs xzr, x22, x3: bic x17, x22, x3; orn x16, x22, x3; csinc w22, wzr, wzr, lo; ands xzr, x22, x17; orr x17, x17, x22; ccmn x16, x17, #0, ne; ccmn x16, x17, #2, ne
    Row {
        profile: Profile::One,
        rule: Rule::Spelled,
        unmet: Need::Nothing,
        word: 0xFA0302DF,
        next: NOP,
        mend: &[
            0x8A2302D1, 0xAA2302D0, 0x1A9F37F6, 0xEA1102DF, 0xAA160231, 0xBA511200, 0xBA511202,
        ],
    },
    // adcs wzr, w1, w22: and w17, w1, w22; orr w16, w1, w22; csinc w22, wzr, wzr, lo; ands wzr, w22, w17; orr w17, w17, w22; ccmn w16, w17, #0, ne; ccmn w16, w17, #2, ne
    Row {
        profile: Profile::One,
        rule: Rule::Spelled,
        unmet: Need::Nothing,
        word: 0x3A16003F,
        next: NOP,
        mend: &[
            0x0A160031, 0x2A160030, 0x1A9F37F6, 0x6A1102DF, 0x2A160231, 0x3A511200, 0x3A511202,
        ],
    },
];

/// Operands at the edges of sums, of 64 bits and of 32.
const EDGES: [u64; 12] = [
    0,
    1,
    2,
    0x7FFF_FFFE,
    0x7FFF_FFFF,
    0x8000_0000,
    0xFFFF_FFFF,
    0x7FFF_FFFF_FFFF_FFFE,
    0x7FFF_FFFF_FFFF_FFFF,
    0x8000_0000_0000_0000,
    0xFFFF_FFFF_FFFF_FFFE,
    0xFFFF_FFFF_FFFF_FFFF,
];

/// A sum and its flags, as the manual's `AddWithCarry` has them.
#[derive(Clone, Copy)]
struct Sum {
    value: u64,
    flags: u8,
}

/// The sum of two numbers of `bits` bits, and of a carry.
fn sum_of(bits: u32, one: u64, other: u64, carry: u64) -> Sum
    requires { bits ≡ 32 ⊎ (bits ≡ 64) }
{
    let mask = u64::MAX >> (64 - bits);
    let (one, other) = (one & mask, other & mask);
    let all = u128::from(one) + u128::from(other) + u128::from(carry);
    let value = (all & u128::from(mask)) as u64;
    let sign = bits - 1;
    let negative = value >> sign & 1;
    let wrapped = ((one ^ value) & (other ^ value)) >> sign & 1;
    let flags = (negative as u8) << 3
        | u8::from(value == 0) << 2
        | u8::from(all > u128::from(mask)) << 1
        | wrapped as u8;
    Sum { value, flags }
}

/// What a row's word makes of registers.
fn meant(row: &Row, registers: &Registers) -> Machine {
    let word = row.word;
    let (one, other) = (registers.x(field(word, 5)), registers.x(field(word, 16)));
    let carry = u64::from(registers.nzcv >> 1 & 1);
    let addend = if word & 0x4000_0000 != 0 {
        !other
    } else {
        other
    };
    let is_wide = word & 0x8000_0000 != 0;
    let sum = sum_of(if is_wide { 64 } else { 32 }, one, addend, carry);
    let mut machine = Machine::new(*registers);
    machine.registers.put(field(word, 0), Width::X, sum.value);
    machine.registers.nzcv = sum.flags;
    machine
}

/// Whether a row's mend makes the register and the flags that its word makes.
fn sums_the_same(row: &Row, registers: &Registers) -> bool {
    match mended(row, *registers) {
        Some(found) => agree(registers, &meant(row, registers), &found),
        None => false,
    }
}

/// Whether it does so of two operands, with C and without.
fn sums_both(row: &Row, registers: &Registers, one: u64, other: u64) -> bool {
    let mut registers = *registers;
    registers.put(field(row.word, 5), Width::X, one);
    registers.put(field(row.word, 16), Width::X, other);
    registers.nzcv = 0b1101;
    let without = sums_the_same(row, &registers);
    registers.nzcv = 0b0010;
    without && sums_the_same(row, &registers)
}

#[test]
fn mends_sums_that_set_flags(rt: HostRuntime) -> Result<(), Fail> {
    assert!(rt; first_wrong(&CARRIES) == None);
    Ok(())
}

#[test]
fn sums_at_the_edges_have_their_flags(rt: HostRuntime) -> Result<(), Fail> {
    let mut draws = Draws { state: 7 };
    let registers = numbers(&mut draws);
    for row in &CARRIES {
        for one in EDGES {
            for other in EDGES {
                let same = sums_both(row, &registers, one, other);
                assert!(rt; same, "{} {one} {other}", row.word);
            }
        }
    }
    Ok(())
}

#[test]
fn sums_of_any_numbers_have_their_flags(rt: HostRuntime) -> Result<(), Fail> {
    let mut draws = Draws { state: 9 };
    for row in &CARRIES {
        for _ in 0..200 {
            let registers = numbers(&mut draws);
            assert!(rt; sums_the_same(row, &registers), "{}", row.word);
        }
    }
    Ok(())
}

/// ADCS and SBCS of W and of X registers, all of number 0.
const SUMS: [u32; 4] = [0x3A000000, 0xBA000000, 0x7A000000, 0xFA000000];

/// The result's register and both operands', of which some are one register, or the register of zeros.
const SHARED: [(u32, u32, u32); 10] = [
    (0, 1, 1),
    (1, 1, 2),
    (2, 1, 2),
    (1, 1, 1),
    (31, 1, 1),
    (0, 31, 2),
    (0, 1, 31),
    (0, 31, 31),
    (31, 31, 31),
    (31, 1, 31),
];

/// A row of one of these sums of these registers. What its mend is isn't told.
fn row_of(sum: u32, (into, one, other): (u32, u32, u32)) -> Row {
    Row {
        profile: Profile::One,
        rule: Rule::Spelled,
        unmet: Need::Nothing,
        word: sum | into | one << 5 | other << 16,
        next: NOP,
        mend: &[],
    }
}

#[test]
fn sums_of_shared_registers_have_their_flags(rt: HostRuntime) -> Result<(), Fail> {
    let mut draws = Draws { state: 11 };
    let registers = numbers(&mut draws);
    for sum in SUMS {
        for shared in SHARED {
            let row = row_of(sum, shared);
            for one in EDGES {
                let same = sums_both(&row, &registers, one, one)
                    && sums_both(&row, &registers, one, 1);
                assert!(rt; same, "{} {one}", row.word);
            }
        }
    }
    Ok(())
}
