//! What mends do to registers and bytes, beside what the refused word does, on random states.

ghost use Rattle.std.specs.Prelude.{◌<◌};

use crate::machine::{Machine, SLOT, Stored, sign_extended};
use crate::rows::{OUTSIDE, PAIRS, Row, SINGLES};
use crate::tables::answer;
use crate::writes::WRITES;
use a64_semantics::Registers;
use a64_word::{Instruction, Register, Size, Width, decode};
use std::test::Fail;

/// How many states each row is tried on.
const STATES: u32 = 200;

/// Random numbers, always the same.
#[derive(Clone, Copy)]
pub struct Draws {
    pub state: u64,
}

impl Draws {
    pub fn next(&mut self) -> u64 {
        self.state = self
            .state
            .wrapping_mul(6_364_136_223_846_793_005)
            .wrapping_add(1_442_695_040_888_963_407);
        self.state ^ (self.state >> 29)
    }

    /// An address in the middle of the slot.
    fn address(&mut self) -> u64 {
        SLOT | 0x4000_0000 | (self.next() & 0x3FFF_FFFF)
    }

    /// A number, now and then one of few bits, or of many.
    fn number(&mut self) -> u64 {
        let number = self.next();
        match number & 7 {
            0 => 0,
            1 => number >> 40,
            2 => number | 0xFFFF_FFFF_0000_0000,
            3 => number << 32,
            _ => number,
        }
    }
}

/// Registers that hold addresses of the slot; x3 holds a small number.
fn addresses(draws: &mut Draws) -> Registers {
    let mut x = [0; 31];
    for i in 0..31 {
        x[i] = draws.address();
    }
    x[3] = draws.next() & 0xF_FFFF;
    x[21] = SLOT;
    Registers {
        x,
        sp: draws.address(),
        pc: SLOT | 0x1_0000,
        nzcv: (draws.next() & 15) as u8,
    }
}

/// Registers that hold any numbers, but for x21.
pub fn numbers(draws: &mut Draws) -> Registers {
    let mut x = [0; 31];
    for i in 0..31 {
        x[i] = draws.number();
    }
    x[21] = SLOT;
    Registers {
        x,
        sp: draws.address(),
        pc: SLOT | 0x1_0000,
        nzcv: (draws.next() & 15) as u8,
    }
}

/// Whether a register agrees: of the reserved ones the lower half; x16 and x17 always; x18 and x22 where the word keeps them.
fn agrees(number: usize, before: u64, meant: u64, found: u64) -> bool {
    match number {
        16 | 17 => true,
        18 | 22 => meant == before || meant & 0xFFFF_FFFF == found & 0xFFFF_FFFF,
        23 | 24 | 30 => meant & 0xFFFF_FFFF == found & 0xFFFF_FFFF,
        _ => meant == found,
    }
}

/// Whether two lists of stores are the same.
fn same_stores(one: [Option<Stored>; 2], other: [Option<Stored>; 2]) -> bool {
    one[0] == other[0] && one[1] == other[1]
}

/// Whether a mend's registers and stores are those of the refused word.
pub fn agree(before: &Registers, meant: &Machine, found: &Machine) -> bool {
    for i in 0..31 {
        if !agrees(i, before.x[i], meant.registers.x[i], found.registers.x[i]) {
            return false;
        }
    }
    let (one, other) = (&meant.registers, &found.registers);
    one.sp & 0xFFFF_FFFF == other.sp & 0xFFFF_FFFF
        && one.nzcv == other.nzcv
        && same_stores(meant.stores, found.stores)
}

/// The machine after a row's mend, if it has one.
pub fn mended(row: &Row, registers: Registers) -> Option<Machine> {
    let mut machine = Machine::new(registers);
    match answer(row) {
        Ok(mend) => {
            for instruction in mend.instructions() {
                machine.perform(instruction);
            }
            Some(machine)
        }
        Err(_) => None,
    }
}

/// The machine after a row's word.
pub fn refused(row: &Row, registers: Registers) -> Option<Machine> {
    let instruction = decode(row.word, row.profile)?;
    let mut machine = Machine::new(registers);
    machine.perform(&instruction);
    Some(machine)
}

/// Whether a row's mend does what its word does, from these registers.
pub fn does_the_same(row: &Row, registers: Registers) -> bool {
    match (refused(row, registers), mended(row, registers)) {
        (Some(meant), Some(found)) => agree(&registers, &meant, &found),
        _ => false,
    }
}

/// What registers hold.
#[derive(Clone, Copy, PartialEq, Eq)]
pub enum State {
    Addresses,
    Numbers,
}

impl State {
    /// Registers that hold it.
    pub fn registers(self, draws: &mut Draws) -> Registers {
        match self {
            State::Addresses => addresses(draws),
            State::Numbers => numbers(draws),
        }
    }
}

/// The first word of some rows whose mend does something else on a state.
fn first_other(rows: &[Row], state: State) -> Option<u32> {
    let mut draws = Draws { state: 1 };
    for row in rows {
        for _ in 0..STATES {
            if !does_the_same(row, state.registers(&mut draws)) {
                return Some(row.word);
            }
        }
    }
    None
}

#[test]
fn singles_do_the_same(rt: HostRuntime) -> Result<(), Fail> {
    assert!(rt; first_other(&SINGLES, State::Addresses) == None);
    Ok(())
}

#[test]
fn pairs_do_the_same(rt: HostRuntime) -> Result<(), Fail> {
    assert!(rt; first_other(&PAIRS, State::Addresses) == None);
    Ok(())
}

#[test]
fn writes_do_the_same(rt: HostRuntime) -> Result<(), Fail> {
    let other = first_other(&WRITES, State::Numbers);
    assert!(rt; other == None, "{:x}", other.unwrap_or(0));
    Ok(())
}

/// A register that a field of a word names.
pub fn field(word: u32, low: u32) -> Register
    requires { low < 27 }
{
    Register::new((word >> low & 31) as u8)
}

/// What X registers hold after bytes or bits are turned, as the manual's C6.2 says of RBIT, REV16, REV32 and REV.
fn turned(opcode: u32, x: u64) -> u64 {
    let halves = (x & 0x00FF_00FF_00FF_00FF) << 8 | (x >> 8 & 0x00FF_00FF_00FF_00FF);
    match opcode {
        0 => u64::from(x.trailing_zeros()),
        1 => halves,
        2 => x.swap_bytes().rotate_left(32),
        _ => x.swap_bytes(),
    }
}

/// The same of W registers, where REV has the number of REV32.
fn turned_narrow(opcode: u32, x: u32) -> u32 {
    let halves = (x & 0x00FF_00FF) << 8 | (x >> 8 & 0x00FF_00FF);
    match opcode {
        0 => x.trailing_zeros(),
        1 => halves,
        _ => x.swap_bytes(),
    }
}

/// What a product of two W registers makes of an X register.
fn product(word: u32, r: &Registers) -> u64 {
    let (one, other) = (r.x(field(word, 5)), r.x(field(word, 16)));
    let product = if word & 0x0080_0000 != 0 {
        (one & 0xFFFF_FFFF).wrapping_mul(other & 0xFFFF_FFFF)
    } else {
        sign_extended(Size::Word, one).wrapping_mul(sign_extended(Size::Word, other))
    };
    let sum = r.x(field(word, 10));
    if word & 0x8000 != 0 {
        sum.wrapping_sub(product)
    } else {
        sum.wrapping_add(product)
    }
}

/// The bits of two registers from a place on.
fn extracted(word: u32, r: &Registers) -> u64 {
    let (high, low) = (r.x(field(word, 5)), r.x(field(word, 16)));
    let place = word >> 10 & 63;
    if word & 0x8000_0000 != 0 {
        let both = u128::from(high) << 64 | u128::from(low);
        (both >> place & 0xFFFF_FFFF_FFFF_FFFF) as u64
    } else {
        let both = (high & 0xFFFF_FFFF) << 32 | low & 0xFFFF_FFFF;
        both >> (place & 31)
    }
}

/// A sum of two registers and the flag C, or the difference.
fn with_carry(word: u32, r: &Registers) -> u64 {
    let (one, other) = (r.x(field(word, 5)), r.x(field(word, 16)));
    let carry = u64::from(r.nzcv >> 1 & 1);
    if word & 0x4000_0000 != 0 {
        one.wrapping_add(!other).wrapping_add(carry)
    } else {
        one.wrapping_add(other).wrapping_add(carry)
    }
}

/// What a word of these groups makes of its register: one source, three sources, extracts, sums with a carry.
pub fn meant(word: u32, r: &Registers) -> Option<u64> {
    if word & 0x7FFF_F000 == 0x5AC0_0000 {
        let (opcode, x) = (word >> 10 & 3, r.x(field(word, 5)));
        return Some(if word & 0x8000_0000 != 0 {
            turned(opcode, x)
        } else {
            u64::from(turned_narrow(opcode, (x & 0xFFFF_FFFF) as u32))
        });
    }
    match word >> 21 & 0x1FF {
        0x0D9 | 0x0DD => Some(product(word, r)),
        0x09C | 0x09E => Some(extracted(word, r)),
        0x0D0 => Some(with_carry(word, r)),
        _ => None,
    }
}

/// Whether the mend of a row makes the number of the row's register that is meant, and keeps the flags.
pub fn computes_the_same(row: &Row, registers: &Registers, value: u64) -> bool {
    let Some(mut machine) = mended(row, *registers) else {
        return false;
    };
    if let Some(Instruction::CountLeadingZeros(next)) = decode(row.next, row.profile) {
        machine.perform(&Instruction::CountLeadingZeros(next));
    }
    let mut expected = Machine::new(*registers);
    let width = if row.word & 0x8000_0000 != 0 {
        Width::X
    } else {
        Width::W
    };
    expected.registers.put(field(row.word, 0), width, value);
    agree(registers, &expected, &machine)
}

#[test]
fn what_is_left_out_computes_the_same(rt: HostRuntime) -> Result<(), Fail> {
    let mut draws = Draws { state: 3 };
    let mut count = 0_u32;
    for row in &OUTSIDE {
        for _ in 0..STATES {
            let registers = numbers(&mut draws);
            if let Some(value) = meant(row.word, &registers) {
                assert!(rt; computes_the_same(row, &registers, value), "{}", row.word);
                count = count.wrapping_add(1);
            }
        }
    }
    assert!(rt; count == 14 * STATES, "{count}");
    Ok(())
}

/// The word of LDP, LDUR or STP with the same operands as one of LDPSW, LDTR or STNP.
pub fn plain_word(word: u32) -> Option<u32> {
    if word & 0xFE40_0000 == 0x6840_0000 {
        Some(word & 0x3FFF_FFFF)
    } else if word & 0x3F20_0C00 == 0x3800_0800 {
        Some(word & 0xFFFF_F3FF)
    } else if word & 0x7F80_0000 == 0x2800_0000 {
        Some(word | 0x0100_0000)
    } else {
        None
    }
}

/// Whether the mend of a row does what this word does, with the signs of both loads extended where it is LDPSW.
pub fn accesses_the_same(row: &Row, registers: &Registers, plain: u32) -> bool {
    let (Some(instruction), Some(found)) = (decode(plain, row.profile), mended(row, *registers))
    else {
        return false;
    };
    let mut machine = Machine::new(*registers);
    machine.perform(&instruction);
    if row.word & 0xFE40_0000 == 0x6840_0000 {
        for low in [0, 10] {
            let register = field(row.word, low);
            let value = sign_extended(Size::Word, machine.registers.x(register));
            machine.registers.put(register, Width::X, value);
        }
    }
    agree(registers, &machine, &found)
}

#[test]
fn what_is_left_out_accesses_the_same(rt: HostRuntime) -> Result<(), Fail> {
    let mut draws = Draws { state: 5 };
    let mut count = 0_u32;
    for row in &OUTSIDE {
        for _ in 0..STATES {
            let registers = addresses(&mut draws);
            if let Some(plain) = plain_word(row.word) {
                assert!(rt; accesses_the_same(row, &registers, plain), "{}", row.word);
                count = count.wrapping_add(1);
            }
        }
    }
    assert!(rt; count == 8 * STATES, "{count}");
    Ok(())
}
