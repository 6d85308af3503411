//! Mends, row by row. The words are those that LLVM's assembler makes of the text beside them.
use lfi_module::Profile;
use lfi_rules::{Need, Rule};

/// A word, what it breaks, and what stands in its place.
#[derive(Drop)]
pub struct Row {
    pub profile: Profile,
    pub rule: Rule,
    pub unmet: Need,
    pub word: u32,
    pub next: u32,
    pub mend: &'static [u32],
}

/// NOP.
const NOP: u32 = 0xD503201F;

/// Single loads and stores.
pub const SINGLES: [Row; 24] = [
    // ldr x0, [x1]: ldr x0, [x21, w1, uxtw]
    Row {
        profile: Profile::One,
        rule: Rule::AccessConfined,
        unmet: Need::Nothing,
        word: 0xF9400020,
        next: NOP,
        mend: &[0xF8614AA0],
    },
    // ldr x0, [x1, #8]: add w22, w1, #8; ldr x0, [x21, w22, uxtw]
    Row {
        profile: Profile::One,
        rule: Rule::AccessConfined,
        unmet: Need::Nothing,
        word: 0xF9400420,
        next: NOP,
        mend: &[0x11002036, 0xF8764AA0],
    },
    // str w0, [x1, #16380]: add w22, w1, #3, lsl #12; add w22, w22, #4092; str w0, [x21, w22, uxtw]
    Row {
        profile: Profile::One,
        rule: Rule::AccessConfined,
        unmet: Need::Nothing,
        word: 0xB93FFC20,
        next: NOP,
        mend: &[0x11400C36, 0x113FF2D6, 0xB8364AA0],
    },
    // ldr x3, [x2, #4096]: add w22, w2, #1, lsl #12; ldr x3, [x21, w22, uxtw]
    Row {
        profile: Profile::One,
        rule: Rule::AccessConfined,
        unmet: Need::Nothing,
        word: 0xF9480043,
        next: NOP,
        mend: &[0x11400456, 0xF8764AA3],
    },
    // ldursw x0, [x1, #-8]: sub w22, w1, #8; ldrsw x0, [x21, w22, uxtw]
    Row {
        profile: Profile::One,
        rule: Rule::AccessConfined,
        unmet: Need::Nothing,
        word: 0xB89F8020,
        next: NOP,
        mend: &[0x51002036, 0xB8B64AA0],
    },
    // ldr x1, [x1, #8]: add w22, w1, #8; ldr x1, [x21, w22, uxtw]
    Row {
        profile: Profile::One,
        rule: Rule::AccessConfined,
        unmet: Need::Nothing,
        word: 0xF9400421,
        next: NOP,
        mend: &[0x11002036, 0xF8764AA1],
    },
    // strb w0, [x1], #1: strb w0, [x21, w1, uxtw]; add x1, x1, #1
    Row {
        profile: Profile::One,
        rule: Rule::AccessConfined,
        unmet: Need::Nothing,
        word: 0x38001420,
        next: NOP,
        mend: &[0x38214AA0, 0x91000421],
    },
    // ldrh w0, [x1, #-16]!: sub x1, x1, #16; ldrh w0, [x21, w1, uxtw]
    Row {
        profile: Profile::One,
        rule: Rule::AccessConfined,
        unmet: Need::Nothing,
        word: 0x785F0C20,
        next: NOP,
        mend: &[0xD1004021, 0x78614AA0],
    },
    // ldr x0, [x30, #8]!: add w22, w30, #8; add x30, x21, w22, uxtw; ldr x0, [x21, w30, uxtw]
    Row {
        profile: Profile::One,
        rule: Rule::AccessConfined,
        unmet: Need::Nothing,
        word: 0xF8408FC0,
        next: NOP,
        mend: &[0x110023D6, 0x8B3642BE, 0xF87E4AA0],
    },
    // ldr x0, [x23], #8: ldr x0, [x21, w23, uxtw]; add w22, w23, #8; add x23, x21, w22, uxtw
    Row {
        profile: Profile::One,
        rule: Rule::AccessConfined,
        unmet: Need::Nothing,
        word: 0xF84086E0,
        next: NOP,
        mend: &[0xF8774AA0, 0x110022F6, 0x8B3642B7],
    },
    // ldr x22, [x23], #8: ldr x16, [x21, w23, uxtw]; mov w22, w16; add w16, w23, #8; add x23, x21, w16, uxtw
    Row {
        profile: Profile::One,
        rule: Rule::AccessConfined,
        unmet: Need::Nothing,
        word: 0xF84086F6,
        next: NOP,
        mend: &[0xF8774AB0, 0x2A1003F6, 0x110022F0, 0x8B3042B7],
    },
    // str x0, [x22, #8]!: add w22, w22, #8; str x0, [x21, w22, uxtw]
    Row {
        profile: Profile::One,
        rule: Rule::AccessConfined,
        unmet: Need::Nothing,
        word: 0xF8008EC0,
        next: NOP,
        mend: &[0x110022D6, 0xF8364AA0],
    },
    // str w0, [x4, x3, lsl #2]: add w22, w4, w3, uxtw #2; str w0, [x21, w22, uxtw]
    Row {
        profile: Profile::One,
        rule: Rule::AccessConfined,
        unmet: Need::Nothing,
        word: 0xB8237880,
        next: NOP,
        mend: &[0x0B234896, 0xB8364AA0],
    },
    // ldrsb w0, [sp, w3, sxtw]: add w22, wsp, w3, uxtw; ldrsb w0, [x21, w22, uxtw]
    Row {
        profile: Profile::One,
        rule: Rule::AccessConfined,
        unmet: Need::Nothing,
        word: 0x38E3CBE0,
        next: NOP,
        mend: &[0x0B2343F6, 0x38F64AA0],
    },
    // ldr x30, [x1, #8]: add w22, w1, #8; ldr x30, [x21, w22, uxtw]; add x30, x21, w30, uxtw
    Row {
        profile: Profile::One,
        rule: Rule::AccessConfined,
        unmet: Need::Nothing,
        word: 0xF940043E,
        next: NOP,
        mend: &[0x11002036, 0xF8764ABE, 0x8B3E42BE],
    },
    // ldr x23, [x1, #8]: add w22, w1, #8; ldr x16, [x21, w22, uxtw]; add x23, x21, w16, uxtw
    Row {
        profile: Profile::One,
        rule: Rule::AccessConfined,
        unmet: Need::Nothing,
        word: 0xF9400437,
        next: NOP,
        mend: &[0x11002036, 0xF8764AB0, 0x8B3042B7],
    },
    // ldr x22, [x16]: ldr x17, [x21, w16, uxtw]; mov w22, w17
    Row {
        profile: Profile::One,
        rule: Rule::AccessConfined,
        unmet: Need::Nothing,
        word: 0xF9400216,
        next: NOP,
        mend: &[0xF8704AB1, 0x2A1103F6],
    },
    // str x22, [x1, #8]: add w16, w1, #8; str x22, [x21, w16, uxtw]
    Row {
        profile: Profile::One,
        rule: Rule::AccessConfined,
        unmet: Need::Nothing,
        word: 0xF9000436,
        next: NOP,
        mend: &[0x11002030, 0xF8304AB6],
    },
    // ldar w0, [x1]: add x18, x21, w1, uxtw; ldar w0, [x18]
    Row {
        profile: Profile::Two,
        rule: Rule::AccessConfined,
        unmet: Need::Nothing,
        word: 0x88DFFC20,
        next: NOP,
        mend: &[0x8B2142B2, 0x88DFFE40],
    },
    // stlrh w0, [x1]: add x18, x21, w1, uxtw; stlrh w0, [x18]
    Row {
        profile: Profile::Two,
        rule: Rule::AccessConfined,
        unmet: Need::Nothing,
        word: 0x489FFC20,
        next: NOP,
        mend: &[0x8B2142B2, 0x489FFE40],
    },
    // stlr x18, [x1]: mov x16, x18; add x18, x21, w1, uxtw; stlr x16, [x18]
    Row {
        profile: Profile::Two,
        rule: Rule::AccessConfined,
        unmet: Need::Nothing,
        word: 0xC89FFC32,
        next: NOP,
        mend: &[0xAA1203F0, 0x8B2142B2, 0xC89FFE50],
    },
    // ldar x30, [x1]: add x18, x21, w1, uxtw; ldar x30, [x18]; add x30, x21, w30, uxtw
    Row {
        profile: Profile::Two,
        rule: Rule::AccessConfined,
        unmet: Need::Nothing,
        word: 0xC8DFFC3E,
        next: NOP,
        mend: &[0x8B2142B2, 0xC8DFFE5E, 0x8B3E42BE],
    },
    // stlr x22, [x16]: mov x17, x22; add x18, x21, w16, uxtw; stlr x17, [x18]
    Row {
        profile: Profile::Two,
        rule: Rule::AccessConfined,
        unmet: Need::Nothing,
        word: 0xC89FFE16,
        next: NOP,
        mend: &[0xAA1603F1, 0x8B3042B2, 0xC89FFE51],
    },
    // ldrb w18, [x24, #1]!: add w22, w24, #1; add x24, x21, w22, uxtw; ldrb w16, [x21, w24, uxtw]; add x18, x21, w16, uxtw
    Row {
        profile: Profile::One,
        rule: Rule::AccessConfined,
        unmet: Need::Nothing,
        word: 0x38401F12,
        next: NOP,
        mend: &[0x11000716, 0x8B3642B8, 0x38784AB0, 0x8B3042B2],
    },
];

/// Pairs.
pub const PAIRS: [Row; 10] = [
    // stp x0, x1, [x2]: add x18, x21, w2, uxtw; stp x0, x1, [x18]
    Row {
        profile: Profile::One,
        rule: Rule::AccessConfined,
        unmet: Need::Nothing,
        word: 0xA9000440,
        next: NOP,
        mend: &[0x8B2242B2, 0xA9000640],
    },
    // ldp w0, w1, [x2, #-8]: sub w22, w2, #8; add x18, x21, w22, uxtw; ldp w0, w1, [x18]
    Row {
        profile: Profile::One,
        rule: Rule::AccessConfined,
        unmet: Need::Nothing,
        word: 0x297F0440,
        next: NOP,
        mend: &[0x51002056, 0x8B3642B2, 0x29400640],
    },
    // ldp x29, x30, [x1], #16: add x18, x21, w1, uxtw; ldp x29, x30, [x18]; add x30, x21, w30, uxtw; add x1, x1, #16
    Row {
        profile: Profile::One,
        rule: Rule::AccessConfined,
        unmet: Need::Nothing,
        word: 0xA8C1783D,
        next: NOP,
        mend: &[0x8B2142B2, 0xA9407A5D, 0x8B3E42BE, 0x91004021],
    },
    // ldp x30, x0, [x1, #16]!: add x1, x1, #16; add x18, x21, w1, uxtw; ldp x30, x0, [x18]; add x30, x21, w30, uxtw
    Row {
        profile: Profile::One,
        rule: Rule::AccessConfined,
        unmet: Need::Nothing,
        word: 0xA9C1003E,
        next: NOP,
        mend: &[0x91004021, 0x8B2142B2, 0xA940025E, 0x8B3E42BE],
    },
    // stp x18, x0, [x1, #16]: add w22, w1, #16; str x18, [x21, w22, uxtw]; add w22, w22, #8; str x0, [x21, w22, uxtw]
    Row {
        profile: Profile::One,
        rule: Rule::AccessConfined,
        unmet: Need::Nothing,
        word: 0xA9010032,
        next: NOP,
        mend: &[0x11004036, 0xF8364AB2, 0x110022D6, 0xF8364AA0],
    },
    // stp w22, w18, [x1]: str w22, [x21, w1, uxtw]; add w16, w1, #4; str w18, [x21, w16, uxtw]
    Row {
        profile: Profile::One,
        rule: Rule::AccessConfined,
        unmet: Need::Nothing,
        word: 0x29004836,
        next: NOP,
        mend: &[0xB8214AB6, 0x11001030, 0xB8304AB2],
    },
    // stp x22, x16, [x1, #8]: add w17, w1, #8; add x18, x21, w17, uxtw; stp x22, x16, [x18]
    Row {
        profile: Profile::One,
        rule: Rule::AccessConfined,
        unmet: Need::Nothing,
        word: 0xA900C036,
        next: NOP,
        mend: &[0x11002031, 0x8B3142B2, 0xA9004256],
    },
    // stp x18, x0, [x1, #16]!: add x1, x1, #16; str x18, [x21, w1, uxtw]; add w22, w1, #8; str x0, [x21, w22, uxtw]
    Row {
        profile: Profile::One,
        rule: Rule::AccessConfined,
        unmet: Need::Nothing,
        word: 0xA9810032,
        next: NOP,
        mend: &[0x91004021, 0xF8214AB2, 0x11002036, 0xF8364AA0],
    },
    // stp w0, w18, [x22], #-8: str w0, [x21, w22, uxtw]; add w16, w22, #4; str w18, [x21, w16, uxtw]; sub w22, w22, #8
    Row {
        profile: Profile::One,
        rule: Rule::AccessConfined,
        unmet: Need::Nothing,
        word: 0x28BF4AC0,
        next: NOP,
        mend: &[0xB8364AA0, 0x110012D0, 0xB8304AB2, 0x510022D6],
    },
    // stp x22, x18, [x23, #16]!: add w16, w23, #16; add x23, x21, w16, uxtw; str x22, [x21, w23, uxtw]; add w16, w23, #8; str x18, [x21, w16, uxtw]
    Row {
        profile: Profile::One,
        rule: Rule::AccessConfined,
        unmet: Need::Nothing,
        word: 0xA9814AF6,
        next: NOP,
        mend: &[0x110042F0, 0x8B3042B7, 0xF8374AB6, 0x110022F0, 0xF8304AB2],
    },
];

/// Branches through registers, and needs.
pub const OTHERS: [Row; 14] = [
    // extr x16, x1, x2, #8: orr x16, xzr, x2, lsr #8; orr x16, x16, x1, lsl #56
    Row {
        profile: Profile::One,
        rule: Rule::Spelled,
        unmet: Need::Nothing,
        word: 0x93C22030,
        next: NOP,
        mend: &[0xAA4223F0, 0xAA01E210],
    },
    // extr x17, x1, x2, #8: orr x16, xzr, x2, lsr #8; orr x17, x16, x1, lsl #56
    Row {
        profile: Profile::One,
        rule: Rule::Spelled,
        unmet: Need::Nothing,
        word: 0x93C22031,
        next: NOP,
        mend: &[0xAA4223F0, 0xAA01E211],
    },
    // add x18, sp, #0, which copies the stack pointer and not zero: add w22, wsp, #0; add x18, x21, w22, uxtw
    Row {
        profile: Profile::One,
        rule: Rule::AddressGuarded,
        unmet: Need::Nothing,
        word: 0x910003F2,
        next: NOP,
        mend: &[0x110003F6, 0x8B3642B2],
    },
    // sub x30, sp, #0: sub w22, wsp, #0; add x30, x21, w22, uxtw
    Row {
        profile: Profile::One,
        rule: Rule::LinkGuarded,
        unmet: Need::Nothing,
        word: 0xD10003FE,
        next: NOP,
        mend: &[0x510003F6, 0x8B3642BE],
    },
    // br x0: add x18, x21, w0, uxtw; br x18
    Row {
        profile: Profile::One,
        rule: Rule::BranchBounded,
        unmet: Need::Nothing,
        word: 0xD61F0000,
        next: NOP,
        mend: &[0x8B2042B2, 0xD61F0240],
    },
    // blr x1: add x18, x21, w1, uxtw; blr x18
    Row {
        profile: Profile::One,
        rule: Rule::BranchBounded,
        unmet: Need::Nothing,
        word: 0xD63F0020,
        next: NOP,
        mend: &[0x8B2142B2, 0xD63F0240],
    },
    // ret x2: add x30, x21, w2, uxtw; ret
    Row {
        profile: Profile::One,
        rule: Rule::BranchBounded,
        unmet: Need::Nothing,
        word: 0xD65F0040,
        next: NOP,
        mend: &[0x8B2242BE, 0xD65F03C0],
    },
    // ret: add x30, x21, w30, uxtw
    Row {
        profile: Profile::One,
        rule: Rule::NeedMet,
        unmet: Need::Guard,
        word: 0xD65F03C0,
        next: NOP,
        mend: &[0x8B3E42BE],
    },
    // nop: ldr xzr, [sp]
    Row {
        profile: Profile::One,
        rule: Rule::NeedMet,
        unmet: Need::Probe(1),
        word: 0xD503201F,
        next: NOP,
        mend: &[0xF94003FF],
    },
    // ldr x0, [x1]: add x30, x21, w30, uxtw; ldr x0, [x21, w1, uxtw]
    Row {
        profile: Profile::One,
        rule: Rule::AccessConfined,
        unmet: Need::Guard,
        word: 0xF9400020,
        next: NOP,
        mend: &[0x8B3E42BE, 0xF8614AA0],
    },
    // br x0: ldr xzr, [sp]; add x18, x21, w0, uxtw; br x18
    Row {
        profile: Profile::Two,
        rule: Rule::BranchBounded,
        unmet: Need::Probe(3),
        word: 0xD61F0000,
        next: NOP,
        mend: &[0xF94003FF, 0x8B2042B2, 0xD61F0240],
    },
    // str x0, [x1]: ldr xzr, [sp]; str x0, [x21, w1, uxtw]
    Row {
        profile: Profile::One,
        rule: Rule::AccessConfined,
        unmet: Need::Probe(1),
        word: 0xF9000020,
        next: NOP,
        mend: &[0xF94003FF, 0xF8214AA0],
    },
    // stp x18, x0, [x1]: add x30, x21, w30, uxtw; str x18, [x21, w1, uxtw]; add w22, w1, #8; str x0, [x21, w22, uxtw]
    Row {
        profile: Profile::One,
        rule: Rule::AccessConfined,
        unmet: Need::Guard,
        word: 0xA9000032,
        next: NOP,
        mend: &[0x8B3E42BE, 0xF8214AB2, 0x11002036, 0xF8364AA0],
    },
    // ror x0, x1, #8: ldr xzr, [sp]; orr x0, xzr, x1, ror #8
    Row {
        profile: Profile::Two,
        rule: Rule::Spelled,
        unmet: Need::Probe(2),
        word: 0x93C12020,
        next: NOP,
        mend: &[0xF94003FF, 0xAAC123E0],
    },
];

/// Instructions that the profile leaves out.
pub const OUTSIDE: [Row; 25] = [
    // ror x0, x1, #8: orr x0, xzr, x1, ror #8
    Row {
        profile: Profile::One,
        rule: Rule::Spelled,
        unmet: Need::Nothing,
        word: 0x93C12020,
        next: NOP,
        mend: &[0xAAC123E0],
    },
    // extr w0, w1, w2, #12: orr w16, wzr, w2, lsr #12; orr w0, w16, w1, lsl #20
    Row {
        profile: Profile::One,
        rule: Rule::Spelled,
        unmet: Need::Nothing,
        word: 0x13823020,
        next: NOP,
        mend: &[0x2A4233F0, 0x2A015200],
    },
    // extr x0, x1, x2, #0: orr x0, xzr, x2, ror #0
    Row {
        profile: Profile::One,
        rule: Rule::Spelled,
        unmet: Need::Nothing,
        word: 0x93C20020,
        next: NOP,
        mend: &[0xAAC203E0],
    },
    // rbit x0, x1; clz x0, x0: neg x16, x1; and x16, x16, x1; mov x17, #0x8000000000000000; udiv x0, x17, x16
    Row {
        profile: Profile::One,
        rule: Rule::Spelled,
        unmet: Need::Nothing,
        word: 0xDAC00020,
        next: 0xDAC01000,
        mend: &[0xCB0103F0, 0x8A010210, 0xD2F00011, 0x9AD00A20],
    },
    // rbit w0, w1; clz w0, w0: neg w16, w1; and w16, w16, w1; mov w17, #0x80000000; udiv w0, w17, w16
    Row {
        profile: Profile::One,
        rule: Rule::Spelled,
        unmet: Need::Nothing,
        word: 0x5AC00020,
        next: 0x5AC01000,
        mend: &[0x4B0103F0, 0x0A010210, 0x52B00011, 0x1AD00A20],
    },
    // rev16 w0, w1: and w16, w1, #0x00ff00ff; and w17, w1, #0xff00ff00; orr w16, w16, w17, ror #16; orr w0, wzr, w16, ror #24
    Row {
        profile: Profile::One,
        rule: Rule::Spelled,
        unmet: Need::Nothing,
        word: 0x5AC00420,
        next: NOP,
        mend: &[0x12009C30, 0x12089C31, 0x2AD14210, 0x2AD063E0],
    },
    // rev16 x0, x1: and x16, x1, #0x00ff00ff00ff00ff; and x17, x1, #0xff00ff00ff00ff00; orr x16, x16, x17, ror #16; orr x0, xzr, x16, ror #56
    Row {
        profile: Profile::One,
        rule: Rule::Spelled,
        unmet: Need::Nothing,
        word: 0xDAC00420,
        next: NOP,
        mend: &[0x92009C30, 0x92089C31, 0xAAD14210, 0xAAD0E3E0],
    },
    // rev w0, w1: and w16, w1, #0x00ff00ff; and w17, w1, #0xff00ff00; orr w16, w16, w17, ror #16; orr w0, wzr, w16, ror #8
    Row {
        profile: Profile::One,
        rule: Rule::Spelled,
        unmet: Need::Nothing,
        word: 0x5AC00820,
        next: NOP,
        mend: &[0x12009C30, 0x12089C31, 0x2AD14210, 0x2AD023E0],
    },
    // rev32 x0, x1: and x16, x1, #0x00ff00ff00ff00ff; and x17, x1, #0xff00ff00ff00ff00; orr x16, x16, x17, ror #16; and x17, x16, #0x00ffff0000ffff00; and x16, x16, #0xff0000ffff0000ff; orr x16, x16, x17, ror #32; orr x0, xzr, x16, ror #40
    Row {
        profile: Profile::One,
        rule: Rule::Spelled,
        unmet: Need::Nothing,
        word: 0xDAC00820,
        next: NOP,
        mend: &[
            0x92009C30, 0x92089C31, 0xAAD14210, 0x92183E11, 0x92083E10, 0xAAD18210, 0xAAD0A3E0,
        ],
    },
    // rev x0, x1: and x16, x1, #0x00ff00ff00ff00ff; and x17, x1, #0xff00ff00ff00ff00; orr x16, x16, x17, ror #16; and x17, x16, #0x00ffff0000ffff00; and x16, x16, #0xff0000ffff0000ff; orr x16, x16, x17, ror #32; orr x0, xzr, x16, ror #8
    Row {
        profile: Profile::One,
        rule: Rule::Spelled,
        unmet: Need::Nothing,
        word: 0xDAC00C20,
        next: NOP,
        mend: &[
            0x92009C30, 0x92089C31, 0xAAD14210, 0x92183E11, 0x92083E10, 0xAAD18210, 0xAAD023E0,
        ],
    },
    // umull x0, w1, w3: ubfm x16, x1, #0, #31; ubfm x17, x3, #0, #31; mul x0, x16, x17
    Row {
        profile: Profile::One,
        rule: Rule::Spelled,
        unmet: Need::Nothing,
        word: 0x9BA37C20,
        next: NOP,
        mend: &[0xD3407C30, 0xD3407C71, 0x9B117E00],
    },
    // smsubl x0, w1, w3, x5: sbfm x16, x1, #0, #31; sbfm x17, x3, #0, #31; msub x0, x16, x17, x5
    Row {
        profile: Profile::One,
        rule: Rule::Spelled,
        unmet: Need::Nothing,
        word: 0x9B239420,
        next: NOP,
        mend: &[0x93407C30, 0x93407C71, 0x9B119600],
    },
    // adc x0, x1, x2: csinc x16, xzr, xzr, lo; add x16, x16, x2; add x0, x1, x16
    Row {
        profile: Profile::One,
        rule: Rule::Spelled,
        unmet: Need::Nothing,
        word: 0x9A020020,
        next: NOP,
        mend: &[0x9A9F37F0, 0x8B020210, 0x8B100020],
    },
    // sbc w0, w1, w2: csinc w16, wzr, wzr, hs; add w16, w16, w2; sub w0, w1, w16
    Row {
        profile: Profile::One,
        rule: Rule::Spelled,
        unmet: Need::Nothing,
        word: 0x5A020020,
        next: NOP,
        mend: &[0x1A9F27F0, 0x0B020210, 0x4B100020],
    },
    // ldpsw x0, x1, [x2, #8]: add w22, w2, #8; ldrsw x0, [x21, w22, uxtw]; add w22, w22, #4; ldrsw x1, [x21, w22, uxtw]
    Row {
        profile: Profile::One,
        rule: Rule::Spelled,
        unmet: Need::Nothing,
        word: 0x69410440,
        next: NOP,
        mend: &[0x11002056, 0xB8B64AA0, 0x110012D6, 0xB8B64AA1],
    },
    // ldpsw x0, x1, [x2], #-8: add w22, w2, #0; ldrsw x0, [x21, w22, uxtw]; add w22, w22, #4; ldrsw x1, [x21, w22, uxtw]; sub x2, x2, #8
    Row {
        profile: Profile::One,
        rule: Rule::Spelled,
        unmet: Need::Nothing,
        word: 0x68FF0440,
        next: NOP,
        mend: &[0x11000056, 0xB8B64AA0, 0x110012D6, 0xB8B64AA1, 0xD1002042],
    },
    // ldpsw x0, x1, [sp, #16]!: add sp, sp, #16; ldr xzr, [sp]; add w22, wsp, #0; ldrsw x0, [x21, w22, uxtw]; add w22, w22, #4; ldrsw x1, [x21, w22, uxtw]
    Row {
        profile: Profile::One,
        rule: Rule::Spelled,
        unmet: Need::Nothing,
        word: 0x69C207E0,
        next: NOP,
        mend: &[
            0x910043FF, 0xF94003FF, 0x110003F6, 0xB8B64AA0, 0x110012D6, 0xB8B64AA1,
        ],
    },
    // ldpsw x0, x1, [x22], #8: add w22, w22, #0; ldrsw x0, [x21, w22, uxtw]; add w22, w22, #4; ldrsw x1, [x21, w22, uxtw]; sub w22, w22, #4; add w22, w22, #8
    Row {
        profile: Profile::One,
        rule: Rule::Spelled,
        unmet: Need::Nothing,
        word: 0x68C106C0,
        next: NOP,
        mend: &[
            0x110002D6, 0xB8B64AA0, 0x110012D6, 0xB8B64AA1, 0x510012D6, 0x110022D6,
        ],
    },
    // ldpsw x0, x1, [x22, #8]!: add w22, w22, #8; add w22, w22, #0; ldrsw x0, [x21, w22, uxtw]; add w22, w22, #4; ldrsw x1, [x21, w22, uxtw]; sub w22, w22, #4
    Row {
        profile: Profile::One,
        rule: Rule::Spelled,
        unmet: Need::Nothing,
        word: 0x69C106C0,
        next: NOP,
        mend: &[
            0x110022D6, 0x110002D6, 0xB8B64AA0, 0x110012D6, 0xB8B64AA1, 0x510012D6,
        ],
    },
    // ldtrb w0, [x1, #4]: add w22, w1, #4; ldrb w0, [x21, w22, uxtw]
    Row {
        profile: Profile::One,
        rule: Rule::Spelled,
        unmet: Need::Nothing,
        word: 0x38404820,
        next: NOP,
        mend: &[0x11001036, 0x38764AA0],
    },
    // stnp x0, x1, [x2, #16]: add w22, w2, #16; add x18, x21, w22, uxtw; stp x0, x1, [x18]
    Row {
        profile: Profile::One,
        rule: Rule::Spelled,
        unmet: Need::Nothing,
        word: 0xA8010440,
        next: NOP,
        mend: &[0x11004056, 0x8B3642B2, 0xA9000640],
    },
    // ldnp x29, x30, [x1, #16]: add w22, w1, #16; add x18, x21, w22, uxtw; ldp x29, x30, [x18]; add x30, x21, w30, uxtw
    Row {
        profile: Profile::One,
        rule: Rule::Spelled,
        unmet: Need::Nothing,
        word: 0xA841783D,
        next: NOP,
        mend: &[0x11004036, 0x8B3642B2, 0xA9407A5D, 0x8B3E42BE],
    },
    // prfm pldl1keep, [x1, #64]: nothing
    Row {
        profile: Profile::One,
        rule: Rule::Spelled,
        unmet: Need::Nothing,
        word: 0xF9802020,
        next: NOP,
        mend: &[],
    },
    // prfm pldl1keep, [x1, x2]: nothing
    Row {
        profile: Profile::One,
        rule: Rule::Spelled,
        unmet: Need::Nothing,
        word: 0xF8A26820,
        next: NOP,
        mend: &[],
    },
    // prfum pldl1keep, [x1, #-3]: nothing
    Row {
        profile: Profile::One,
        rule: Rule::Spelled,
        unmet: Need::Nothing,
        word: 0xF89FD020,
        next: NOP,
        mend: &[],
    },
];
