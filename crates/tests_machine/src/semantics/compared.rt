//! The reference implementation beside the crates: the words of the tables, on operands at their edges.
use crate::semantics::rows::{after, registers_of};
use a64_reference::plain_result;
use a64_semantics::Registers;
use a64_word::decode;
use lfi_module::Profile;

fn agrees(word: u32, before: &Registers) -> bool {
    let Some(instruction) = decode(word, Profile::Two) else {
        return false;
    };
    let Some((value, flags)) = plain_result(&instruction, before) else {
        return false;
    };
    match after(word, before) {
        Some(registers) => registers.x[0] == value && registers.nzcv == flags,
        None => false,
    }
}

/// The words of the tables.
const WORDS: [u32; 243] = [
    0xAB020020, // ADDS X0, X1, X2
    0x2B020020, // ADDS W0, W1, W2
    0xEB020020, // SUBS X0, X1, X2
    0x6B020020, // SUBS W0, W1, W2
    0x8B020020, // ADD X0, X1, X2
    0xCB020020, // SUB X0, X1, X2
    0x0B020020, // ADD W0, W1, W2
    0x4B020020, // SUB W0, W1, W2
    0x8B02FC20, // ADD X0, X1, X2, LSL #63
    0x8B42FC20, // ADD X0, X1, X2, LSR #63
    0x8B82FC20, // ADD X0, X1, X2, ASR #63
    0xCB020420, // SUB X0, X1, X2, LSL #1
    0x0B027C20, // ADD W0, W1, W2, LSL #31
    0x0B427C20, // ADD W0, W1, W2, LSR #31
    0x0B827C20, // ADD W0, W1, W2, ASR #31
    0x6B820420, // SUBS W0, W1, W2, ASR #1
    0xAB820420, // ADDS X0, X1, X2, ASR #1
    0x0B420420, // ADD W0, W1, W2, LSR #1
    0x91000020, // ADD X0, X1, #0
    0x913FFC20, // ADD X0, X1, #4095
    0x917FFC20, // ADD X0, X1, #4095, LSL #12
    0xD1000420, // SUB X0, X1, #1
    0xB1000420, // ADDS X0, X1, #1
    0xF1000420, // SUBS X0, X1, #1
    0xF1000020, // SUBS X0, X1, #0
    0xB1400420, // ADDS X0, X1, #1, LSL #12
    0x11000420, // ADD W0, W1, #1
    0x51000420, // SUB W0, W1, #1
    0x31000420, // ADDS W0, W1, #1
    0x71000420, // SUBS W0, W1, #1
    0x717FFC20, // SUBS W0, W1, #4095, LSL #12
    0x117FFC20, // ADD W0, W1, #4095, LSL #12
    0x8B220020, // ADD X0, X1, W2, UXTB
    0x0B221020, // ADD W0, W1, W2, UXTB #4
    0xCB220C20, // SUB X0, X1, W2, UXTB #3
    0x8B222020, // ADD X0, X1, W2, UXTH
    0x0B223020, // ADD W0, W1, W2, UXTH #4
    0xCB222C20, // SUB X0, X1, W2, UXTH #3
    0x8B224020, // ADD X0, X1, W2, UXTW
    0x0B225020, // ADD W0, W1, W2, UXTW #4
    0xCB224C20, // SUB X0, X1, W2, UXTW #3
    0x8B228020, // ADD X0, X1, W2, SXTB
    0x0B229020, // ADD W0, W1, W2, SXTB #4
    0xCB228C20, // SUB X0, X1, W2, SXTB #3
    0x8B22A020, // ADD X0, X1, W2, SXTH
    0x0B22B020, // ADD W0, W1, W2, SXTH #4
    0xCB22AC20, // SUB X0, X1, W2, SXTH #3
    0x8B22C020, // ADD X0, X1, W2, SXTW
    0x0B22D020, // ADD W0, W1, W2, SXTW #4
    0xCB22CC20, // SUB X0, X1, W2, SXTW #3
    0x8B227020, // ADD X0, X1, X2, UXTX #4
    0xAB22E420, // ADDS X0, X1, X2, SXTX #1
    0xEB226020, // SUBS X0, X1, X2, UXTX
    0x6B225020, // SUBS W0, W1, W2, UXTW #4
    0x0B22C020, // ADD W0, W1, W2, SXTW
    0x2B228020, // ADDS W0, W1, W2, SXTB
    0x2B222820, // ADDS W0, W1, W2, UXTH #2
    0x0B226420, // ADD W0, W1, W2, UXTX #1
    0x2B22E020, // ADDS W0, W1, W2, SXTX
    0x8A020020, // AND X0, X1, X2
    0x0A020020, // AND W0, W1, W2
    0xAA020020, // ORR X0, X1, X2
    0x2A020020, // ORR W0, W1, W2
    0xCA020020, // EOR X0, X1, X2
    0x4A020020, // EOR W0, W1, W2
    0xEA020020, // ANDS X0, X1, X2
    0x6A020020, // ANDS W0, W1, W2
    0x8A220020, // BIC X0, X1, X2
    0x0A220020, // BIC W0, W1, W2
    0xAA220020, // ORN X0, X1, X2
    0x2A220020, // ORN W0, W1, W2
    0xCA220020, // EON X0, X1, X2
    0x4A220020, // EON W0, W1, W2
    0xEA220020, // BICS X0, X1, X2
    0x6A220020, // BICS W0, W1, W2
    0x8AC20420, // AND X0, X1, X2, ROR #1
    0xAAC2FFE0, // ORR X0, XZR, X2, ROR #63
    0xAAC213E0, // ORR X0, XZR, X2, ROR #4
    0x2AC27FE0, // ORR W0, WZR, W2, ROR #31
    0x2AC213E0, // ORR W0, WZR, W2, ROR #4
    0xAA22FFE0, // ORN X0, XZR, X2, LSL #63
    0x2AA27FE0, // ORN W0, WZR, W2, ASR #31
    0xCA82FC20, // EOR X0, X1, X2, ASR #63
    0xAA42FFE0, // ORR X0, XZR, X2, LSR #63
    0x4A627C20, // EON W0, W1, W2, LSR #31
    0x2A027FE0, // ORR W0, WZR, W2, LSL #31
    0xAA0203E0, // ORR X0, XZR, X2
    0x92401C20, // AND X0, X1, #0XFF
    0x12003C20, // AND W0, W1, #0XFFFF
    0xB200F3E0, // ORR X0, XZR, #0X5555555555555555
    0xB201F3E0, // ORR X0, XZR, #0XAAAAAAAAAAAAAAAA
    0x3200F3E0, // ORR W0, WZR, #0X55555555
    0xD2410020, // EOR X0, X1, #0X8000000000000000
    0xD2410420, // EOR X0, X1, #0X8000000000000001
    0x927FF820, // AND X0, X1, #0XFFFFFFFFFFFFFFFE
    0xB200E3E0, // ORR X0, XZR, #0X1111111111111111
    0xB203CFE0, // ORR X0, XZR, #0XE1E1E1E1E1E1E1E1
    0xB2089FE0, // ORR X0, XZR, #0XFF00FF00FF00FF00
    0xB20003E0, // ORR X0, XZR, #0X0000000100000001
    0x320107E0, // ORR W0, WZR, #0X80000001
    0x32007BE0, // ORR W0, WZR, #0X7FFFFFFF
    0xF2410020, // ANDS X0, X1, #0X8000000000000000
    0x72010020, // ANDS W0, W1, #0X80000000
    0xF240F820, // ANDS X0, X1, #0X7FFFFFFFFFFFFFFF
    0x72000020, // ANDS W0, W1, #1
    0x52020C20, // EOR W0, W1, #0XC0000003
    0xB27EEFE0, // ORR X0, XZR, #0X3FFFFFFFFFFFFFFC
    0xD2900020, // MOVZ X0, #0X8001, LSL #0
    0x92900020, // MOVN X0, #0X8001, LSL #0
    0xF2900020, // MOVK X0, #0X8001, LSL #0
    0xD2B00020, // MOVZ X0, #0X8001, LSL #16
    0x92B00020, // MOVN X0, #0X8001, LSL #16
    0xF2B00020, // MOVK X0, #0X8001, LSL #16
    0xD2D00020, // MOVZ X0, #0X8001, LSL #32
    0x92D00020, // MOVN X0, #0X8001, LSL #32
    0xF2D00020, // MOVK X0, #0X8001, LSL #32
    0xD2F00020, // MOVZ X0, #0X8001, LSL #48
    0x92F00020, // MOVN X0, #0X8001, LSL #48
    0xF2F00020, // MOVK X0, #0X8001, LSL #48
    0x52900020, // MOVZ W0, #0X8001, LSL #0
    0x12900020, // MOVN W0, #0X8001, LSL #0
    0x72900020, // MOVK W0, #0X8001, LSL #0
    0x52B00020, // MOVZ W0, #0X8001, LSL #16
    0x12B00020, // MOVN W0, #0X8001, LSL #16
    0x72B00020, // MOVK W0, #0X8001, LSL #16
    0xD2800000, // MOVZ X0, #0
    0x92800000, // MOVN X0, #0
    0x12800000, // MOVN W0, #0
    0xF2800000, // MOVK X0, #0
    0x729FFFE0, // MOVK W0, #0XFFFF
    0xD3400020, // UBFM X0, X1, #0, #0
    0xD340FC20, // UBFM X0, X1, #0, #63
    0xD37F0020, // UBFM X0, X1, #63, #0
    0xD37FFC20, // UBFM X0, X1, #63, #63
    0xD3410020, // UBFM X0, X1, #1, #0
    0xD3442C20, // UBFM X0, X1, #4, #11
    0xD34C0C20, // UBFM X0, X1, #12, #3
    0xD3407C20, // UBFM X0, X1, #0, #31
    0xD360FC20, // UBFM X0, X1, #32, #63
    0xD37EF420, // UBFM X0, X1, #62, #61
    0x53000020, // UBFM W0, W1, #0, #0
    0x53007C20, // UBFM W0, W1, #0, #31
    0x531F0020, // UBFM W0, W1, #31, #0
    0x531F7C20, // UBFM W0, W1, #31, #31
    0x53010020, // UBFM W0, W1, #1, #0
    0x53042C20, // UBFM W0, W1, #4, #11
    0x530C0C20, // UBFM W0, W1, #12, #3
    0x53001C20, // UBFM W0, W1, #0, #7
    0x531E7420, // UBFM W0, W1, #30, #29
    0x93400020, // SBFM X0, X1, #0, #0
    0x9340FC20, // SBFM X0, X1, #0, #63
    0x937F0020, // SBFM X0, X1, #63, #0
    0x937FFC20, // SBFM X0, X1, #63, #63
    0x93410020, // SBFM X0, X1, #1, #0
    0x93442C20, // SBFM X0, X1, #4, #11
    0x934C0C20, // SBFM X0, X1, #12, #3
    0x93407C20, // SBFM X0, X1, #0, #31
    0x9360FC20, // SBFM X0, X1, #32, #63
    0x937EF420, // SBFM X0, X1, #62, #61
    0x13000020, // SBFM W0, W1, #0, #0
    0x13007C20, // SBFM W0, W1, #0, #31
    0x131F0020, // SBFM W0, W1, #31, #0
    0x131F7C20, // SBFM W0, W1, #31, #31
    0x13010020, // SBFM W0, W1, #1, #0
    0x13042C20, // SBFM W0, W1, #4, #11
    0x130C0C20, // SBFM W0, W1, #12, #3
    0x13001C20, // SBFM W0, W1, #0, #7
    0x131E7420, // SBFM W0, W1, #30, #29
    0xB3400020, // BFM X0, X1, #0, #0
    0xB340FC20, // BFM X0, X1, #0, #63
    0xB37F0020, // BFM X0, X1, #63, #0
    0xB37FFC20, // BFM X0, X1, #63, #63
    0xB3410020, // BFM X0, X1, #1, #0
    0xB3442C20, // BFM X0, X1, #4, #11
    0xB34C0C20, // BFM X0, X1, #12, #3
    0xB3407C20, // BFM X0, X1, #0, #31
    0xB360FC20, // BFM X0, X1, #32, #63
    0xB37EF420, // BFM X0, X1, #62, #61
    0x33000020, // BFM W0, W1, #0, #0
    0x33007C20, // BFM W0, W1, #0, #31
    0x331F0020, // BFM W0, W1, #31, #0
    0x331F7C20, // BFM W0, W1, #31, #31
    0x33010020, // BFM W0, W1, #1, #0
    0x33042C20, // BFM W0, W1, #4, #11
    0x330C0C20, // BFM W0, W1, #12, #3
    0x33001C20, // BFM W0, W1, #0, #7
    0x331E7420, // BFM W0, W1, #30, #29
    0xDAC01020, // CLZ X0, X1
    0x5AC01020, // CLZ W0, W1
    0x9AC20820, // UDIV X0, X1, X2
    0x9AC20C20, // SDIV X0, X1, X2
    0x1AC20820, // UDIV W0, W1, W2
    0x1AC20C20, // SDIV W0, W1, W2
    0x9AC22020, // LSLV X0, X1, X2
    0x1AC22020, // LSLV W0, W1, W2
    0x9AC22420, // LSRV X0, X1, X2
    0x1AC22420, // LSRV W0, W1, W2
    0x9AC22820, // ASRV X0, X1, X2
    0x1AC22820, // ASRV W0, W1, W2
    0x9AC22C20, // RORV X0, X1, X2
    0x1AC22C20, // RORV W0, W1, W2
    0x9B020C20, // MADD X0, X1, X2, X3
    0x1B020C20, // MADD W0, W1, W2, W3
    0x9B028C20, // MSUB X0, X1, X2, X3
    0x1B028C20, // MSUB W0, W1, W2, W3
    0x9B427C20, // SMULH X0, X1, X2
    0x9BC27C20, // UMULH X0, X1, X2
    0x9A820020, // CSEL X0, X1, X2, EQ
    0x1A821020, // CSEL W0, W1, W2, NE
    0x9A824020, // CSEL X0, X1, X2, MI
    0x1A826020, // CSEL W0, W1, W2, VS
    0x9A820420, // CSINC X0, X1, X2, EQ
    0x1A821420, // CSINC W0, W1, W2, NE
    0x9A824420, // CSINC X0, X1, X2, MI
    0x1A826420, // CSINC W0, W1, W2, VS
    0xDA820020, // CSINV X0, X1, X2, EQ
    0x5A821020, // CSINV W0, W1, W2, NE
    0xDA824020, // CSINV X0, X1, X2, MI
    0x5A826020, // CSINV W0, W1, W2, VS
    0xDA820420, // CSNEG X0, X1, X2, EQ
    0x5A821420, // CSNEG W0, W1, W2, NE
    0xDA824420, // CSNEG X0, X1, X2, MI
    0x5A826420, // CSNEG W0, W1, W2, VS
    0xFA42002A, // CCMP X1, X2, #10, EQ
    0xFA421025, // CCMP X1, X2, #5, NE
    0xFA421020, // CCMP X1, X2, #0, NE
    0xFA5F882F, // CCMP X1, #31, #15, HI
    0xFA409823, // CCMP X1, #0, #3, LS
    0x7A42A027, // CCMP W1, W2, #7, GE
    0x7A42B021, // CCMP W1, W2, #1, LT
    0x7A5FE822, // CCMP W1, #31, #2, AL
    0x7A41C828, // CCMP W1, #1, #8, GT
    0x7A41D828, // CCMP W1, #1, #8, LE
    0xBA42002A, // CCMN X1, X2, #10, EQ
    0xBA421025, // CCMN X1, X2, #5, NE
    0xBA421020, // CCMN X1, X2, #0, NE
    0xBA5F882F, // CCMN X1, #31, #15, HI
    0xBA409823, // CCMN X1, #0, #3, LS
    0x3A42A027, // CCMN W1, W2, #7, GE
    0x3A42B021, // CCMN W1, W2, #1, LT
    0x3A5FE822, // CCMN W1, #31, #2, AL
    0x3A41C828, // CCMN W1, #1, #8, GT
    0x3A41D828, // CCMN W1, #1, #8, LE
];

const OPERANDS: [u64; 12] = [
    0,
    1,
    2,
    0x7F,
    0x8080,
    0x7FFF_FFFF,
    0x8000_0000,
    0xFFFF_FFFF,
    0x1_0000_0000,
    0x7FFF_FFFF_FFFF_FFFF,
    0x8000_0000_0000_0000,
    0xFFFF_FFFF_FFFF_FFFF,
];

/// The first operands of which a word gives something else.
fn first_other(word: u32) -> Option<(u64, u64)> {
    for (place, x1) in OPERANDS.iter().enumerate() {
        for (k, x2) in OPERANDS.iter().enumerate() {
            let other = OPERANDS[(place + 5 * k) % 12];
            let before = registers_of(other, *x1, *x2, other, ((7 * place + k) % 16) as u8);
            if !agrees(word, &before) {
                return Some((*x1, *x2));
            }
        }
    }
    None
}

#[test]
fn plain_program_agrees(rt: HostRuntime) {
    for word in &WORDS {
        let other = first_other(*word);
        assert!(rt; other.is_none(), "{word:#x} at {other:?}");
    }
}

/// A word of the tables that reads x1 where it reads x2.
fn second_shared(word: u32) -> u32 {
    if word >> 16 & 31 == 2 {
        word ^ 3 << 16
    } else {
        word
    }
}

/// A word of the tables that reads x1 where it reads x3.
fn third_shared(word: u32) -> u32 {
    if word >> 10 & 31 == 3 {
        word ^ 2 << 10
    } else {
        word
    }
}

/// Where other words have these bits they are other words, or none.
#[test]
fn plain_program_agrees_where_operands_are_one_register(rt: HostRuntime) {
    for word in &WORDS {
        let second = second_shared(*word);
        for shared in [second, third_shared(*word), third_shared(second)] {
            let is_none = decode(shared, Profile::Two).is_none();
            let other = first_other(shared);
            assert!(rt; is_none || other.is_none(), "{shared:#x} at {other:?}");
        }
    }
}
