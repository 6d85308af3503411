//! Mends of what writes registers that only few instructions may write, row by row: each class of instructions that computes a
//! register, and loads. The words are those that LLVM's assembler makes of the text beside them.
use crate::rows::Row;
use lfi_module::Profile;
use lfi_rules::{Need, Rule};

/// NOP.
const NOP: u32 = 0xD503201F;

/// Registers that only few instructions may write.
pub const WRITES: [Row; 48] = [
    // add x23, x0, #16: add w22, w0, #16; add x23, x21, w22, uxtw
    Row {
        profile: Profile::One,
        rule: Rule::AddressGuarded,
        unmet: Need::Nothing,
        word: 0x91004017,
        next: NOP,
        mend: &[0x11004016, 0x8B3642B7],
    },
    // mov x18, x1: add x18, x21, w1, uxtw
    Row {
        profile: Profile::One,
        rule: Rule::AddressGuarded,
        unmet: Need::Nothing,
        word: 0xAA0103F2,
        next: NOP,
        mend: &[0x8B2142B2],
    },
    // lsr x24, x1, #3: lsr x16, x1, #3; add x24, x21, w16, uxtw
    Row {
        profile: Profile::One,
        rule: Rule::AddressGuarded,
        unmet: Need::Nothing,
        word: 0xD343FC38,
        next: NOP,
        mend: &[0xD343FC30, 0x8B3042B8],
    },
    // movk x23, #1: mov x16, x23; movk x16, #1; add x23, x21, w16, uxtw
    Row {
        profile: Profile::One,
        rule: Rule::AddressGuarded,
        unmet: Need::Nothing,
        word: 0xF2800037,
        next: NOP,
        mend: &[0xAA1703F0, 0xF2800030, 0x8B3042B7],
    },
    // bfi x23, x1, #4, #8: mov x16, x23; bfi x16, x1, #4, #8; add x23, x21, w16, uxtw
    Row {
        profile: Profile::One,
        rule: Rule::AddressGuarded,
        unmet: Need::Nothing,
        word: 0xB37C1C37,
        next: NOP,
        mend: &[0xAA1703F0, 0xB37C1C30, 0x8B3042B7],
    },
    // bfxil x23, x16, #0, #8: mov x17, x23; bfxil x17, x16, #0, #8; add x23, x21, w17, uxtw
    Row {
        profile: Profile::One,
        rule: Rule::AddressGuarded,
        unmet: Need::Nothing,
        word: 0xB3401E17,
        next: NOP,
        mend: &[0xAA1703F1, 0xB3401E11, 0x8B3142B7],
    },
    // csel x18, x0, x1, eq: csel x16, x0, x1, eq; add x18, x21, w16, uxtw
    Row {
        profile: Profile::One,
        rule: Rule::AddressGuarded,
        unmet: Need::Nothing,
        word: 0x9A810012,
        next: NOP,
        mend: &[0x9A810010, 0x8B3042B2],
    },
    // udiv x18, x0, x1: udiv x16, x0, x1; add x18, x21, w16, uxtw
    Row {
        profile: Profile::One,
        rule: Rule::AddressGuarded,
        unmet: Need::Nothing,
        word: 0x9AC10812,
        next: NOP,
        mend: &[0x9AC10810, 0x8B3042B2],
    },
    // clz x18, x0: clz x16, x0; add x18, x21, w16, uxtw
    Row {
        profile: Profile::One,
        rule: Rule::AddressGuarded,
        unmet: Need::Nothing,
        word: 0xDAC01012,
        next: NOP,
        mend: &[0xDAC01010, 0x8B3042B2],
    },
    // umulh x18, x0, x1: umulh x16, x0, x1; add x18, x21, w16, uxtw
    Row {
        profile: Profile::One,
        rule: Rule::AddressGuarded,
        unmet: Need::Nothing,
        word: 0x9BC17C12,
        next: NOP,
        mend: &[0x9BC17C10, 0x8B3042B2],
    },
    // and x18, x0, #0xff: and x16, x0, #0xff; add x18, x21, w16, uxtw
    Row {
        profile: Profile::One,
        rule: Rule::AddressGuarded,
        unmet: Need::Nothing,
        word: 0x92401C12,
        next: NOP,
        mend: &[0x92401C10, 0x8B3042B2],
    },
    // adds x18, x0, #1: adds x16, x0, #1; add x18, x21, w16, uxtw
    Row {
        profile: Profile::One,
        rule: Rule::AddressGuarded,
        unmet: Need::Nothing,
        word: 0xB1000412,
        next: NOP,
        mend: &[0xB1000410, 0x8B3042B2],
    },
    // ldr x23, [sp, #8]: add w22, wsp, #8; ldr x16, [x21, w22, uxtw]; add x23, x21, w16, uxtw
    Row {
        profile: Profile::One,
        rule: Rule::AddressGuarded,
        unmet: Need::Nothing,
        word: 0xF94007F7,
        next: NOP,
        mend: &[0x110023F6, 0xF8764AB0, 0x8B3042B7],
    },
    // mov x18, #5: mov w22, #5; add x18, x21, w22, uxtw
    Row {
        profile: Profile::One,
        rule: Rule::AddressGuarded,
        unmet: Need::Nothing,
        word: 0xD28000B2,
        next: NOP,
        mend: &[0x528000B6, 0x8B3642B2],
    },
    // orr x23, x1, x2: orr w22, w1, w2; add x23, x21, w22, uxtw
    Row {
        profile: Profile::One,
        rule: Rule::AddressGuarded,
        unmet: Need::Nothing,
        word: 0xAA020037,
        next: NOP,
        mend: &[0x2A020036, 0x8B3642B7],
    },
    // add x24, x1, x2, lsl #3: add w22, w1, w2, lsl #3; add x24, x21, w22, uxtw
    Row {
        profile: Profile::One,
        rule: Rule::AddressGuarded,
        unmet: Need::Nothing,
        word: 0x8B020C38,
        next: NOP,
        mend: &[0x0B020C36, 0x8B3642B8],
    },
    // add x18, x1, w2, uxtw: add w22, w1, w2, uxtw; add x18, x21, w22, uxtw
    Row {
        profile: Profile::One,
        rule: Rule::AddressGuarded,
        unmet: Need::Nothing,
        word: 0x8B224032,
        next: NOP,
        mend: &[0x0B224036, 0x8B3642B2],
    },
    // madd x18, x0, x1, x2: madd w22, w0, w1, w2; add x18, x21, w22, uxtw
    Row {
        profile: Profile::One,
        rule: Rule::AddressGuarded,
        unmet: Need::Nothing,
        word: 0x9B010812,
        next: NOP,
        mend: &[0x1B010816, 0x8B3642B2],
    },
    // ldr x23, [sp], #16: add w22, wsp, #0; ldr x16, [x21, w22, uxtw]; add x23, x21, w16, uxtw; add sp, sp, #16; ldr xzr, [sp]
    Row {
        profile: Profile::One,
        rule: Rule::AddressGuarded,
        unmet: Need::Nothing,
        word: 0xF84107F7,
        next: NOP,
        mend: &[0x110003F6, 0xF8764AB0, 0x8B3042B7, 0x910043FF, 0xF94003FF],
    },
    // ldrh w24, [sp, #-2]!: sub sp, sp, #2; ldr xzr, [sp]; add w22, wsp, #0; ldrh w16, [x21, w22, uxtw]; add x24, x21, w16, uxtw
    Row {
        profile: Profile::One,
        rule: Rule::AddressGuarded,
        unmet: Need::Nothing,
        word: 0x785FEFF8,
        next: NOP,
        mend: &[0xD1000BFF, 0xF94003FF, 0x110003F6, 0x78764AB0, 0x8B3042B8],
    },
    // mov x30, x19: add x30, x21, w19, uxtw
    Row {
        profile: Profile::One,
        rule: Rule::LinkGuarded,
        unmet: Need::Nothing,
        word: 0xAA1303FE,
        next: NOP,
        mend: &[0x8B3342BE],
    },
    // add x30, x0, x1, lsl #2: add w22, w0, w1, lsl #2; add x30, x21, w22, uxtw
    Row {
        profile: Profile::One,
        rule: Rule::LinkGuarded,
        unmet: Need::Nothing,
        word: 0x8B01081E,
        next: NOP,
        mend: &[0x0B010816, 0x8B3642BE],
    },
    // ldr w30, [sp]: add w22, wsp, #0; ldr w16, [x21, w22, uxtw]; add x30, x21, w16, uxtw
    Row {
        profile: Profile::One,
        rule: Rule::LinkGuarded,
        unmet: Need::Nothing,
        word: 0xB94003FE,
        next: NOP,
        mend: &[0x110003F6, 0xB8764AB0, 0x8B3042BE],
    },
    // add x30, x0, #8: add w22, w0, #8; add x30, x21, w22, uxtw
    Row {
        profile: Profile::One,
        rule: Rule::LinkGuarded,
        unmet: Need::Nothing,
        word: 0x9100201E,
        next: NOP,
        mend: &[0x11002016, 0x8B3642BE],
    },
    // csel x30, x1, x2, ne: csel x16, x1, x2, ne; add x30, x21, w16, uxtw
    Row {
        profile: Profile::One,
        rule: Rule::LinkGuarded,
        unmet: Need::Nothing,
        word: 0x9A82103E,
        next: NOP,
        mend: &[0x9A821030, 0x8B3042BE],
    },
    // ldrsw x30, [sp, #4]: add w22, wsp, #4; ldrsw x16, [x21, w22, uxtw]; add x30, x21, w16, uxtw
    Row {
        profile: Profile::One,
        rule: Rule::LinkGuarded,
        unmet: Need::Nothing,
        word: 0xB98007FE,
        next: NOP,
        mend: &[0x110013F6, 0xB8B64AB0, 0x8B3042BE],
    },
    // add x22, x0, #16: add w22, w0, #16
    Row {
        profile: Profile::One,
        rule: Rule::OffsetNarrow,
        unmet: Need::Nothing,
        word: 0x91004016,
        next: NOP,
        mend: &[0x11004016],
    },
    // mov x22, x1: mov w22, w1
    Row {
        profile: Profile::One,
        rule: Rule::OffsetNarrow,
        unmet: Need::Nothing,
        word: 0xAA0103F6,
        next: NOP,
        mend: &[0x2A0103F6],
    },
    // mul x22, x1, x2: mul w22, w1, w2
    Row {
        profile: Profile::One,
        rule: Rule::OffsetNarrow,
        unmet: Need::Nothing,
        word: 0x9B027C36,
        next: NOP,
        mend: &[0x1B027C36],
    },
    // mov x22, #5: mov w22, #5
    Row {
        profile: Profile::One,
        rule: Rule::OffsetNarrow,
        unmet: Need::Nothing,
        word: 0xD28000B6,
        next: NOP,
        mend: &[0x528000B6],
    },
    // lsr x22, x1, #2: lsr x16, x1, #2; mov w22, w16
    Row {
        profile: Profile::One,
        rule: Rule::OffsetNarrow,
        unmet: Need::Nothing,
        word: 0xD342FC36,
        next: NOP,
        mend: &[0xD342FC30, 0x2A1003F6],
    },
    // sub x22, x1, x2, sxtx #1: sub w22, w1, w2, sxtw #1
    Row {
        profile: Profile::One,
        rule: Rule::OffsetNarrow,
        unmet: Need::Nothing,
        word: 0xCB22E436,
        next: NOP,
        mend: &[0x4B22C436],
    },
    // adds x22, x1, x2: adds x16, x1, x2; mov w22, w16
    Row {
        profile: Profile::One,
        rule: Rule::OffsetNarrow,
        unmet: Need::Nothing,
        word: 0xAB020036,
        next: NOP,
        mend: &[0xAB020030, 0x2A1003F6],
    },
    // ands x22, x1, x2: ands x16, x1, x2; mov w22, w16
    Row {
        profile: Profile::One,
        rule: Rule::OffsetNarrow,
        unmet: Need::Nothing,
        word: 0xEA020036,
        next: NOP,
        mend: &[0xEA020030, 0x2A1003F6],
    },
    // and x22, x1, #0xff: and x16, x1, #0xff; mov w22, w16
    Row {
        profile: Profile::One,
        rule: Rule::OffsetNarrow,
        unmet: Need::Nothing,
        word: 0x92401C36,
        next: NOP,
        mend: &[0x92401C30, 0x2A1003F6],
    },
    // add x22, x1, x2: add w22, w1, w2
    Row {
        profile: Profile::One,
        rule: Rule::OffsetNarrow,
        unmet: Need::Nothing,
        word: 0x8B020036,
        next: NOP,
        mend: &[0x0B020036],
    },
    // csel x22, x1, x2, eq: csel x16, x1, x2, eq; mov w22, w16
    Row {
        profile: Profile::One,
        rule: Rule::OffsetNarrow,
        unmet: Need::Nothing,
        word: 0x9A820036,
        next: NOP,
        mend: &[0x9A820030, 0x2A1003F6],
    },
    // sdiv x22, x1, x2: sdiv x16, x1, x2; mov w22, w16
    Row {
        profile: Profile::One,
        rule: Rule::OffsetNarrow,
        unmet: Need::Nothing,
        word: 0x9AC20C36,
        next: NOP,
        mend: &[0x9AC20C30, 0x2A1003F6],
    },
    // clz x22, x1: clz x16, x1; mov w22, w16
    Row {
        profile: Profile::One,
        rule: Rule::OffsetNarrow,
        unmet: Need::Nothing,
        word: 0xDAC01036,
        next: NOP,
        mend: &[0xDAC01030, 0x2A1003F6],
    },
    // umulh x22, x1, x2: umulh x16, x1, x2; mov w22, w16
    Row {
        profile: Profile::One,
        rule: Rule::OffsetNarrow,
        unmet: Need::Nothing,
        word: 0x9BC27C36,
        next: NOP,
        mend: &[0x9BC27C30, 0x2A1003F6],
    },
    // bfi x22, x1, #4, #8: mov x16, x22; bfi x16, x1, #4, #8; mov w22, w16
    Row {
        profile: Profile::One,
        rule: Rule::OffsetNarrow,
        unmet: Need::Nothing,
        word: 0xB37C1C36,
        next: NOP,
        mend: &[0xAA1603F0, 0xB37C1C30, 0x2A1003F6],
    },
    // bfi x22, x16, #8, #8: mov x17, x22; bfi x17, x16, #8, #8; mov w22, w17
    Row {
        profile: Profile::One,
        rule: Rule::OffsetNarrow,
        unmet: Need::Nothing,
        word: 0xB3781E16,
        next: NOP,
        mend: &[0xAA1603F1, 0xB3781E11, 0x2A1103F6],
    },
    // ldr x22, [sp, #8]: add w22, wsp, #8; ldr x16, [x21, w22, uxtw]; mov w22, w16
    Row {
        profile: Profile::One,
        rule: Rule::OffsetNarrow,
        unmet: Need::Nothing,
        word: 0xF94007F6,
        next: NOP,
        mend: &[0x110023F6, 0xF8764AB0, 0x2A1003F6],
    },
    // mov sp, x29: add sp, x21, w29, uxtw
    Row {
        profile: Profile::One,
        rule: Rule::StackBounded,
        unmet: Need::Nothing,
        word: 0x910003BF,
        next: NOP,
        mend: &[0x8B3D42BF],
    },
    // sub sp, x29, #16: sub w22, w29, #16; add sp, x21, x22, uxtx
    Row {
        profile: Profile::One,
        rule: Rule::StackBounded,
        unmet: Need::Nothing,
        word: 0xD10043BF,
        next: NOP,
        mend: &[0x510043B6, 0x8B3662BF],
    },
    // sub sp, sp, x1: sub w22, wsp, w1, uxtw; add sp, x21, x22, uxtx
    Row {
        profile: Profile::One,
        rule: Rule::StackBounded,
        unmet: Need::Nothing,
        word: 0xCB2163FF,
        next: NOP,
        mend: &[0x4B2143F6, 0x8B3662BF],
    },
    // and sp, x1, #0xfffffffffffffff0: and x16, x1, #0xfffffffffffffff0; add sp, x21, w16, uxtw
    Row {
        profile: Profile::One,
        rule: Rule::StackBounded,
        unmet: Need::Nothing,
        word: 0x927CEC3F,
        next: NOP,
        mend: &[0x927CEC30, 0x8B3042BF],
    },
    // add wsp, w1, #16: add w22, w1, #16; add sp, x21, x22, uxtx
    Row {
        profile: Profile::One,
        rule: Rule::StackBounded,
        unmet: Need::Nothing,
        word: 0x1100403F,
        next: NOP,
        mend: &[0x11004036, 0x8B3662BF],
    },
];
