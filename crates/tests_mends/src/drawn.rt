//! Mends of drawn words: words of the tables with other registers and turned bits, each on states beside what the word does.

ghost use Rattle.std.specs.Prelude.{◌<◌};

use crate::machine::STAND_IN;
use crate::rows::{OUTSIDE, PAIRS, Row, SINGLES};
use crate::states::{
    Draws, State, accesses_the_same, computes_the_same, does_the_same, field, meant, plain_word,
    refused,
};
use crate::tables::{Lent, answer};
use crate::writes::WRITES;
use a64_semantics::Registers;
use a64_word::Register;
use lfi_module::Profile;
use lfi_rules::{Need, Rule, check_all};
use std::test::Fail;

/// NOP.
const NOP: u32 = 0xD503201F;

/// How many words are drawn of each row.
const WORDS: u32 = 60;

/// On how many states each is tried.
const STATES: u32 = 4;

/// Registers of which one is drawn: plain ones, those that mends use, the reserved ones, and number 31.
const REGISTERS: [u8; 16] = [0, 1, 3, 3, 16, 17, 18, 21, 22, 22, 23, 24, 29, 30, 31, 31];

/// Words that write a reserved register, one of each instruction that computes: as GNU's assembler makes them of the text beside them.
const RESULTS: [u32; 65] = [
    0x91004036, // add x22, x1, #16
    0xF1004036, // subs x22, x1, #16
    0x8B420C36, // add x22, x1, x2, lsr #3
    0xCB82A036, // sub x22, x1, x2, asr #40
    0xAB22A836, // adds x22, x1, w2, sxth #2
    0xCB2203F2, // sub x18, sp, w2, uxtb
    0x8AC21C36, // and x22, x1, x2, ror #7
    0x8A222436, // bic x22, x1, x2, lsl #9
    0xAA020036, // orr x22, x1, x2
    0xAA621436, // orn x22, x1, x2, lsr #5
    0xAA2103F6, // mvn x22, x1
    0xCA820C36, // eor x22, x1, x2, asr #3
    0xCA220036, // eon x22, x1, x2
    0xEAC2A036, // ands x22, x1, x2, ror #40
    0xEA220036, // bics x22, x1, x2
    0xB2781C36, // orr x22, x1, #0xff00
    0x52002832, // eor w18, w1, #0x7ff
    0xD2C00036, // movz x22, #1, lsl #32
    0x92A000B6, // movn x22, #5, lsl #16
    0x92E000B6, // movn x22, #5, lsl #48
    0xF2E000F6, // movk x22, #7, lsl #48
    0xF2A000F6, // movk x22, #7, lsl #16
    0x93435836, // sbfx x22, x1, #3, #20
    0xD368EC36, // ubfx x22, x1, #40, #20
    0xB36C4C36, // bfi x22, x1, #20, #20
    0xB3549C36, // bfxil x22, x1, #20, #20
    0x9343FC36, // asr x22, x1, #3
    0xD3585C36, // lsl x22, x1, #40
    0x9A82B036, // csel x22, x1, x2, lt
    0x9A828436, // csinc x22, x1, x2, hi
    0xDA826036, // csinv x22, x1, x2, vs
    0xDA820436, // csneg x22, x1, x2, eq
    0x9AC22036, // lslv x22, x1, x2
    0x9AC22436, // lsrv x22, x1, x2
    0x9AC22836, // asrv x22, x1, x2
    0x9AC22C36, // rorv x22, x1, x2
    0x9AC20836, // udiv x22, x1, x2
    0x1AC20C36, // sdiv w22, w1, w2
    0x9B020C36, // madd x22, x1, x2, x3
    0x9B028C36, // msub x22, x1, x2, x3
    0x9B427C36, // smulh x22, x1, x2
    0x9BC27C36, // umulh x22, x1, x2
    0xDAC01036, // clz x22, x1
    0xAA0103F2, // mov x18, x1
    0xAA0103F7, // mov x23, x1
    0xAA2103F8, // mvn x24, x1
    0x9100043E, // add x30, x1, #1
    0x8B020035, // add x21, x1, x2
    0xF1000036, // subs x22, x1, #0
    0xB1000032, // adds x18, x1, #0
    0x91000036, // add x22, x1, #0
    0xD1000037, // sub x23, x1, #0
    0x71000032, // subs w18, w1, #0
    0xEA010032, // ands x18, x1, x1
    0x331C1C36, // bfi w22, w1, #4, #8
    0x33042E16, // bfxil w22, w16, #4, #8
    0xB36C4E12, // bfi x18, x16, #20, #20
    0x728000F6, // movk w22, #7
    0x72A000F2, // movk w18, #7, lsl #16
    0x1B024036, // madd w22, w1, w2, w16
    0x1A828432, // csinc w18, w1, w2, hi
    0x33001C37, // bfxil w23, w1, #0, #8
    0x33001E17, // bfxil w23, w16, #0, #8
    0x53037C32, // lsr w18, w1, #3
    0x13003C32, // sxth w18, w1
];

/// How many words were looked at, and how many had a mend.
#[derive(Clone, Copy, Debug)]
struct Tally {
    drawn: u32,
    mended: u32,
}

/// What came of drawn words: the first whose mend does something else, and how many there were.
#[derive(Clone, Copy, Debug)]
struct Outcome {
    other: Option<u32>,
    tally: Tally,
}

impl Outcome {
    /// Whether each mend does what its word does, and more than half of the words had one.
    fn is_right(&self) -> bool {
        self.other == None && self.tally.mended > self.tally.drawn / 2
    }
}

/// No word yet.
const NONE_YET: Tally = Tally {
    drawn: 0,
    mended: 0,
};

/// The word with another register in the field from the bit `low` on, one time of four.
fn renamed(draws: &mut Draws, word: u32, low: u32) -> u32
    requires { low < 27 }
{
    let draw = draws.next();
    if draw & 3 != 0 {
        return word;
    }
    let register = u32::from(REGISTERS[(draw >> 8 & 15) as usize]);
    word & !(31 << low) | register << low
}

/// A word with other registers in some fields, and half of the time with one bit turned.
fn drawn(draws: &mut Draws, word: u32) -> u32 {
    let word = renamed(draws, word, 0);
    let word = renamed(draws, word, 5);
    let word = renamed(draws, word, 10);
    let word = renamed(draws, word, 16);
    let draw = draws.next();
    if draw & 1 == 0 {
        word ^ 1 << (draw >> 8 & 31)
    } else {
        word
    }
}

/// Whether a field of a word has the number of the register that stands for sp in the machine of these tests.
fn names_stand_in(word: u32) -> bool {
    let stand_in = Register::new(STAND_IN);
    field(word, 0) == stand_in
        || field(word, 5) == stand_in
        || field(word, 10) == stand_in
        || field(word, 16) == stand_in
}

/// A row without a mend, with NOP behind its word.
fn row(profile: Profile, rule: Rule, word: u32) -> Row {
    Row {
        profile,
        rule,
        unmet: Need::Nothing,
        word,
        next: NOP,
        mend: &[],
    }
}

/// The row of a word that stands first in a module. `None` where it breaks no rule.
fn row_of(profile: Profile, word: u32) -> Option<Row> {
    if names_stand_in(word) {
        return None;
    }
    let fault = check_all(&Lent(&[word, NOP, NOP]), profile)?;
    Some(row(profile, fault.rule, word))
}

/// Whether the mend of a row does what its word does, on one state; also where the word goes outside of the slot, of which nothing is
/// said.
fn does_the_same_inside(row: &Row, registers: Registers) -> bool {
    match refused(row, registers) {
        Some(meant) => !meant.is_inside || does_the_same(row, registers),
        None => true,
    }
}

/// Whether the mend of LDPSW, LDTR, STNP and the like does what their word does; also where it goes outside of the slot.
fn accesses_the_same_inside(base: &Row, registers: Registers) -> bool {
    let Some(plain) = plain_word(base.word) else {
        return true;
    };
    match refused(&row(base.profile, base.rule, plain), registers) {
        Some(meant) => !meant.is_inside || accesses_the_same(base, &registers, plain),
        None => true,
    }
}

/// Whether the mend of a word that isn't decoded does what it means, as far as the tests know that.
fn computes_or_accesses(row: &Row, registers: Registers) -> bool {
    match meant(row.word, &registers) {
        Some(value) => computes_the_same(row, &registers, value),
        None => accesses_the_same_inside(row, registers),
    }
}

/// Whether the mend of a row does what its word does, on one state.
fn agrees(row: &Row, registers: Registers) -> bool {
    if row.rule == Rule::Spelled {
        computes_or_accesses(row, registers)
    } else {
        does_the_same_inside(row, registers)
    }
}

/// Whether the mend of a drawn word does what the word does, on some states; counts it.
fn is_right(row: &Row, draws: &mut Draws, tally: &mut Tally) -> bool {
    tally.drawn = tally.drawn.wrapping_add(1);
    if answer(row).is_err() {
        return true;
    }
    tally.mended = tally.mended.wrapping_add(1);
    for _ in 0..STATES {
        let addresses = State::Addresses.registers(draws);
        let numbers = State::Numbers.registers(draws);
        if !agrees(row, addresses) || !agrees(row, numbers) {
            return false;
        }
    }
    true
}

/// The first word drawn near another one whose mend does something else.
fn first_other_near(
    profile: Profile,
    base: u32,
    draws: &mut Draws,
    tally: &mut Tally,
) -> Option<u32> {
    for _ in 0..WORDS {
        let word = drawn(draws, base);
        if let Some(row) = row_of(profile, word) {
            if !is_right(&row, draws, tally) {
                return Some(word);
            }
        }
    }
    None
}

/// What comes of words drawn near those that compute.
fn outcome_of_results(seed: u64) -> Outcome {
    let mut draws = Draws { state: seed };
    let mut tally = NONE_YET;
    for word in RESULTS {
        let other = first_other_near(Profile::One, word, &mut draws, &mut tally);
        if other.is_some() {
            return Outcome { other, tally };
        }
    }
    Outcome { other: None, tally }
}

/// What comes of words drawn near those of some rows.
fn outcome_of(rows: &[Row], seed: u64) -> Outcome {
    let mut draws = Draws { state: seed };
    let mut tally = NONE_YET;
    for base in rows {
        let other = first_other_near(base.profile, base.word, &mut draws, &mut tally);
        if other.is_some() {
            return Outcome { other, tally };
        }
    }
    Outcome { other: None, tally }
}

#[test]
fn drawn_singles_do_the_same(rt: HostRuntime) -> Result<(), Fail> {
    let came = outcome_of(&SINGLES, 11);
    assert!(rt; came.is_right(), "{came:?}");
    Ok(())
}

#[test]
fn drawn_pairs_do_the_same(rt: HostRuntime) -> Result<(), Fail> {
    let came = outcome_of(&PAIRS, 13);
    assert!(rt; came.is_right(), "{came:?}");
    Ok(())
}

#[test]
fn drawn_writes_do_the_same(rt: HostRuntime) -> Result<(), Fail> {
    let came = outcome_of(&WRITES, 17);
    assert!(rt; came.is_right(), "{came:?}");
    Ok(())
}

#[test]
fn drawn_words_of_other_sets_do_the_same(rt: HostRuntime) -> Result<(), Fail> {
    let came = outcome_of(&OUTSIDE, 23);
    assert!(rt; came.is_right(), "{came:?}");
    Ok(())
}

#[test]
fn drawn_results_do_the_same(rt: HostRuntime) -> Result<(), Fail> {
    let came = outcome_of_results(29);
    assert!(rt; came.is_right(), "{came:?}");
    Ok(())
}
