//! Register 31: sp in some places, and zero in all others.
use crate::semantics::places::{Placed, is_right};

/// The values are those that an emulator of the processor (qemu) computed.
const OF_31: [Placed; 68] = [
    (0x8B0203E0, 0, 0x20, 15), // ADD X0, XZR, X2
    (0x8B1F0040, 0, 0x20, 15), // ADD X0, X2, XZR
    (0x8B0213E0, 0, 0x200, 15), // ADD X0, XZR, X2, LSL #4
    (0x0B8113E0, 0, 1, 15), // ADD W0, WZR, W1, ASR #4
    (0xAB0103E0, 0, 0xFFFFFFFF00000010, 8), // ADDS X0, XZR, X1
    (0xCB0203E0, 0, 0xFFFFFFFFFFFFFFE0, 15), // SUB X0, XZR, X2
    (0xEB1F0040, 0, 0x20, 2), // SUBS X0, X2, XZR
    (0x6B0103E0, 0, 0xFFFFFFF0, 8), // SUBS W0, WZR, W1
    (0xAB2263FF, 32, 0, 0), // ADDS XZR, SP, X2, UXTX
    (0xEB2263FF, 32, 0, 2), // SUBS XZR, SP, X2, UXTX
    (0x6B2243FF, 32, 0, 2), // SUBS WZR, WSP, W2, UXTW
    (0xAB2183E0, 0, 0x7010, 0), // ADDS X0, SP, W1, SXTB
    (0xEB222BE0, 0, 0x6F80, 2), // SUBS X0, SP, W2, UXTH #2
    (0xCB2267E0, 0, 0x6FC0, 15), // SUB X0, SP, X2, UXTX #1
    (0x8B3F4020, 0, 0xFFFFFFFF00000010, 15), // ADD X0, X1, WZR, UXTW
    (0xAB3F6020, 0, 0xFFFFFFFF00000010, 8), // ADDS X0, X1, XZR, UXTX
    (0xCB3F03FF, 31, 0x7000, 15), // SUB SP, SP, WZR, UXTB
    (0x910043E0, 0, 0x7010, 15), // ADD X0, SP, #16
    (0xF10043E0, 0, 0x6FF0, 2), // SUBS X0, SP, #16
    (0x314007E0, 0, 0x8000, 0), // ADDS W0, WSP, #1, LSL #12
    (0xB10007FF, 32, 0, 0), // CMN SP, #1
    (0x92401FE0, 0, 0, 15), // AND X0, XZR, #0xFF
    (0xB2401FE0, 0, 0xFF, 15), // ORR X0, XZR, #0xFF
    (0xF2401FFF, 32, 0, 4), // ANDS XZR, XZR, #0xFF
    (0xD2401FFF, 31, 0xFF, 15), // EOR SP, XZR, #0xFF
    (0x8A0203E0, 0, 0, 15), // AND X0, XZR, X2
    (0x8A1F0040, 0, 0, 15), // AND X0, X2, XZR
    (0xAA020FE0, 0, 0x100, 15), // ORR X0, XZR, X2, LSL #3
    (0xAA2203E0, 0, 0xFFFFFFFFFFFFFFDF, 15), // ORN X0, XZR, X2
    (0xAA3F0040, 0, 0xFFFFFFFFFFFFFFFF, 15), // ORN X0, X2, XZR
    (0x8A3F0040, 0, 0x20, 15), // BIC X0, X2, XZR
    (0xEA2203E0, 0, 0, 4), // BICS X0, XZR, X2
    (0xCA3F03E0, 0, 0xFFFFFFFFFFFFFFFF, 15), // EON X0, XZR, XZR
    (0xEA1F003F, 32, 0, 4), // ANDS XZR, X1, XZR
    (0x928000BF, 32, 0, 15), // MOVN XZR, #5
    (0x528000BF, 32, 0, 15), // MOVZ WZR, #5
    (0xF28000BF, 32, 0, 15), // MOVK XZR, #5
    (0x934117E0, 0, 0, 15), // SBFM X0, XZR, #1, #5
    (0xD341143F, 32, 0, 15), // UBFM XZR, X1, #1, #5
    (0xB34117E0, 0, 0, 15), // BFM X0, XZR, #1, #5
    (0x9A8203E0, 0, 0, 15), // CSEL X0, XZR, X2, EQ
    (0x9A9F1040, 0, 0, 15), // CSEL X0, X2, XZR, NE
    (0x9A9F1440, 0, 1, 15), // CSINC X0, X2, XZR, NE
    (0xDA9F13E0, 0, 0xFFFFFFFFFFFFFFFF, 15), // CSINV X0, XZR, XZR, NE
    (0xDA8217E0, 0, 0xFFFFFFFFFFFFFFE0, 15), // CSNEG X0, XZR, X2, NE
    (0xDA9F1440, 0, 0, 15), // CSNEG X0, X2, XZR, NE
    (0xFA4203E0, 32, 0, 8), // CCMP XZR, X2, #0, EQ
    (0xFA5F0040, 32, 0, 2), // CCMP X2, XZR, #0, EQ
    (0xBA4103E0, 32, 0, 8), // CCMN XZR, X1, #0, EQ
    (0xFA450BE0, 32, 0, 8), // CCMP XZR, #5, #0, EQ
    (0x3A400BE1, 32, 0, 4), // CCMN WZR, #0, #1, EQ
    (0x9AC20BE0, 0, 0, 15), // UDIV X0, XZR, X2
    (0x9ADF0840, 0, 0, 15), // UDIV X0, X2, XZR
    (0x9ADF0C20, 0, 0, 15), // SDIV X0, X1, XZR
    (0x1AC10FE0, 0, 0, 15), // SDIV W0, WZR, W1
    (0x9AC223E0, 0, 0, 15), // LSL X0, XZR, X2
    (0x9ADF2040, 0, 0x20, 15), // LSL X0, X2, XZR
    (0x9ADF2820, 0, 0xFFFFFFFF00000010, 15), // ASR X0, X1, XZR
    (0x9ADF2C20, 0, 0xFFFFFFFF00000010, 15), // ROR X0, X1, XZR
    (0x9B0207E0, 0, 0xFFFFFFFF00000010, 15), // MADD X0, XZR, X2, X1
    (0x9B1F0820, 0, 0x20, 15), // MADD X0, X1, XZR, X2
    (0x9B027C20, 0, 0xFFFFFFE000000200, 15), // MADD X0, X1, X2, XZR
    (0x9B02FC20, 0, 0x1FFFFFFE00, 15), // MSUB X0, X1, X2, XZR
    (0x9BC17FE0, 0, 0, 15), // UMULH X0, XZR, X1
    (0x9B5F7C20, 0, 0, 15), // SMULH X0, X1, XZR
    (0xDAC013E0, 0, 0x40, 15), // CLZ X0, XZR
    (0x5AC013E0, 0, 0x20, 15), // CLZ W0, WZR
    (0x1000001F, 32, 0, 15), // ADR XZR, .
];

#[test]
fn thirty_one(rt: HostRuntime) {
    for row in &OF_31 {
        assert!(rt; is_right(row), "{:#x}", row.0);
    }
}
