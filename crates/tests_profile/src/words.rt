//! Words and small modules, each with its first fault by this project's rules (docs/PROFILE.md); words are
//! spelled by the Arm manual's C4.1.
use crate::row::Row;
use lfi_module::Profile;
use lfi_rules::{Fault, Rule, check_all};

/// Both profiles: what is lawful in the first is so in the second, and a word that the tables name breaks the same rule in
/// both.
pub const PROFILES: [Profile; 2] = [Profile::One, Profile::Two];

/// The first fault of a module of 1 to 4,194,304 words, by a profile.
pub fn fault_of(words: &[u32], profile: Profile) -> Option<Fault> {
    if words.is_empty() || words.len() > 4_194_304 {
        return None;
    }
    check_all(&Row(words), profile)
}

/// Words that are lawful modules.
const LAWFUL: [u32; 214] = [
    0xF9400240, // LDR X0, [X18]
    0xF94002A0, // LDR X0, [X21]
    0xF94002E0, // LDR X0, [X23]
    0xF9400300, // LDR X0, [X24]
    0xF94003E0, // LDR X0, [SP]
    0xF8008241, // STUR X1, [X18, #8]
    0xA9000E42, // STP X2, X3, [X18]
    0xF80082A1, // STUR X1, [X21, #8]
    0xA9000EA2, // STP X2, X3, [X21]
    0xF8214AA0, // STR X0, [X21, W1, UXTW]
    0xF80082E1, // STUR X1, [X23, #8]
    0xA9000EE2, // STP X2, X3, [X23]
    0xF8008301, // STUR X1, [X24, #8]
    0xA9000F02, // STP X2, X3, [X24]
    0xF80083E1, // STUR X1, [SP, #8]
    0xA9000FE2, // STP X2, X3, [SP]
    0xF8008FE1, // STR X1, [SP, #8]!
    0xF80087E1, // STR X1, [SP], #8
    0xA8810FE2, // STP X2, X3, [SP], #16
    0xA9810FE2, // STP X2, X3, [SP, #16]!
    0xF8614AA0, // LDR X0, [X21, W1, UXTW]
    0x38614AA0, // LDRB W0, [X21, W1, UXTW]
    0xAA0003E0, // MOV X0, X0
    0x2A0003E0, // MOV W0, W0
    0x8B2042A0, // ADD X0, X21, W0, UXTW
    0xB9400240, // LDR W0, [X18]
    0x91000400, // ADD X0, X0, #1
    0xAA0003E1, // MOV X1, X0
    0x2A0003E1, // MOV W1, W0
    0x8B2042A1, // ADD X1, X21, W0, UXTW
    0xF9400241, // LDR X1, [X18]
    0xB9400241, // LDR W1, [X18]
    0x91000401, // ADD X1, X0, #1
    0xAA0003E2, // MOV X2, X0
    0x2A0003E2, // MOV W2, W0
    0x8B2042A2, // ADD X2, X21, W0, UXTW
    0xF9400242, // LDR X2, [X18]
    0xB9400242, // LDR W2, [X18]
    0x91000402, // ADD X2, X0, #1
    0xAA0003E3, // MOV X3, X0
    0x2A0003E3, // MOV W3, W0
    0x8B2042A3, // ADD X3, X21, W0, UXTW
    0xF9400243, // LDR X3, [X18]
    0xB9400243, // LDR W3, [X18]
    0x91000403, // ADD X3, X0, #1
    0xAA0003E4, // MOV X4, X0
    0x2A0003E4, // MOV W4, W0
    0x8B2042A4, // ADD X4, X21, W0, UXTW
    0xF9400244, // LDR X4, [X18]
    0xB9400244, // LDR W4, [X18]
    0x91000404, // ADD X4, X0, #1
    0xAA0003E5, // MOV X5, X0
    0x2A0003E5, // MOV W5, W0
    0x8B2042A5, // ADD X5, X21, W0, UXTW
    0xF9400245, // LDR X5, [X18]
    0xB9400245, // LDR W5, [X18]
    0x91000405, // ADD X5, X0, #1
    0xAA0003E6, // MOV X6, X0
    0x2A0003E6, // MOV W6, W0
    0x8B2042A6, // ADD X6, X21, W0, UXTW
    0xF9400246, // LDR X6, [X18]
    0xB9400246, // LDR W6, [X18]
    0x91000406, // ADD X6, X0, #1
    0xAA0003E7, // MOV X7, X0
    0x2A0003E7, // MOV W7, W0
    0x8B2042A7, // ADD X7, X21, W0, UXTW
    0xF9400247, // LDR X7, [X18]
    0xB9400247, // LDR W7, [X18]
    0x91000407, // ADD X7, X0, #1
    0xAA0003E8, // MOV X8, X0
    0x2A0003E8, // MOV W8, W0
    0x8B2042A8, // ADD X8, X21, W0, UXTW
    0xF9400248, // LDR X8, [X18]
    0xB9400248, // LDR W8, [X18]
    0x91000408, // ADD X8, X0, #1
    0xAA0003E9, // MOV X9, X0
    0x2A0003E9, // MOV W9, W0
    0x8B2042A9, // ADD X9, X21, W0, UXTW
    0xF9400249, // LDR X9, [X18]
    0xB9400249, // LDR W9, [X18]
    0x91000409, // ADD X9, X0, #1
    0xAA0003EA, // MOV X10, X0
    0x2A0003EA, // MOV W10, W0
    0x8B2042AA, // ADD X10, X21, W0, UXTW
    0xF940024A, // LDR X10, [X18]
    0xB940024A, // LDR W10, [X18]
    0x9100040A, // ADD X10, X0, #1
    0xAA0003EB, // MOV X11, X0
    0x2A0003EB, // MOV W11, W0
    0x8B2042AB, // ADD X11, X21, W0, UXTW
    0xF940024B, // LDR X11, [X18]
    0xB940024B, // LDR W11, [X18]
    0x9100040B, // ADD X11, X0, #1
    0xAA0003EC, // MOV X12, X0
    0x2A0003EC, // MOV W12, W0
    0x8B2042AC, // ADD X12, X21, W0, UXTW
    0xF940024C, // LDR X12, [X18]
    0xB940024C, // LDR W12, [X18]
    0x9100040C, // ADD X12, X0, #1
    0xAA0003ED, // MOV X13, X0
    0x2A0003ED, // MOV W13, W0
    0x8B2042AD, // ADD X13, X21, W0, UXTW
    0xF940024D, // LDR X13, [X18]
    0xB940024D, // LDR W13, [X18]
    0x9100040D, // ADD X13, X0, #1
    0xAA0003EE, // MOV X14, X0
    0x2A0003EE, // MOV W14, W0
    0x8B2042AE, // ADD X14, X21, W0, UXTW
    0xF940024E, // LDR X14, [X18]
    0xB940024E, // LDR W14, [X18]
    0x9100040E, // ADD X14, X0, #1
    0xAA0003EF, // MOV X15, X0
    0x2A0003EF, // MOV W15, W0
    0x8B2042AF, // ADD X15, X21, W0, UXTW
    0xF940024F, // LDR X15, [X18]
    0xB940024F, // LDR W15, [X18]
    0x9100040F, // ADD X15, X0, #1
    0xAA0003F0, // MOV X16, X0
    0x2A0003F0, // MOV W16, W0
    0x8B2042B0, // ADD X16, X21, W0, UXTW
    0xF9400250, // LDR X16, [X18]
    0xB9400250, // LDR W16, [X18]
    0x91000410, // ADD X16, X0, #1
    0xAA0003F1, // MOV X17, X0
    0x2A0003F1, // MOV W17, W0
    0x8B2042B1, // ADD X17, X21, W0, UXTW
    0xF9400251, // LDR X17, [X18]
    0xB9400251, // LDR W17, [X18]
    0x91000411, // ADD X17, X0, #1
    0x8B2042B2, // ADD X18, X21, W0, UXTW
    0xAA0003F3, // MOV X19, X0
    0x2A0003F3, // MOV W19, W0
    0x8B2042B3, // ADD X19, X21, W0, UXTW
    0xF9400253, // LDR X19, [X18]
    0xB9400253, // LDR W19, [X18]
    0x91000413, // ADD X19, X0, #1
    0xAA0003F4, // MOV X20, X0
    0x2A0003F4, // MOV W20, W0
    0x8B2042B4, // ADD X20, X21, W0, UXTW
    0xF9400254, // LDR X20, [X18]
    0xB9400254, // LDR W20, [X18]
    0x91000414, // ADD X20, X0, #1
    0x2A0003F6, // MOV W22, W0
    0xB9400256, // LDR W22, [X18]
    0x8B2042B7, // ADD X23, X21, W0, UXTW
    0x8B2042B8, // ADD X24, X21, W0, UXTW
    0xAA0003F9, // MOV X25, X0
    0x2A0003F9, // MOV W25, W0
    0x8B2042B9, // ADD X25, X21, W0, UXTW
    0xF9400259, // LDR X25, [X18]
    0xB9400259, // LDR W25, [X18]
    0x91000419, // ADD X25, X0, #1
    0xAA0003FA, // MOV X26, X0
    0x2A0003FA, // MOV W26, W0
    0x8B2042BA, // ADD X26, X21, W0, UXTW
    0xF940025A, // LDR X26, [X18]
    0xB940025A, // LDR W26, [X18]
    0x9100041A, // ADD X26, X0, #1
    0xAA0003FB, // MOV X27, X0
    0x2A0003FB, // MOV W27, W0
    0x8B2042BB, // ADD X27, X21, W0, UXTW
    0xF940025B, // LDR X27, [X18]
    0xB940025B, // LDR W27, [X18]
    0x9100041B, // ADD X27, X0, #1
    0xAA0003FC, // MOV X28, X0
    0x2A0003FC, // MOV W28, W0
    0x8B2042BC, // ADD X28, X21, W0, UXTW
    0xF940025C, // LDR X28, [X18]
    0xB940025C, // LDR W28, [X18]
    0x9100041C, // ADD X28, X0, #1
    0xAA0003FD, // MOV X29, X0
    0x2A0003FD, // MOV W29, W0
    0x8B2042BD, // ADD X29, X21, W0, UXTW
    0xF940025D, // LDR X29, [X18]
    0xB940025D, // LDR W29, [X18]
    0x9100041D, // ADD X29, X0, #1
    0x8B2042BE, // ADD X30, X21, W0, UXTW
    0xAA0003FF, // MOV XZR, X0
    0x8B2042BF, // ADD SP, X21, W0, UXTW
    0x94000000, // BL
    0xD63F0240, // BLR X18
    0x29405BE0, // LDP W0, W22, [SP]
    0x39C00256, // LDRSB W22, [X18]
    0x79400256, // LDRH W22, [X18]
    0x52800016, // MOVZ W22, #0
    0x12000016, // AND W22, W0, #1
    0x72000016, // ANDS W22, W0, #1
    0x11000416, // ADD W22, W0, #1
    0x31000416, // ADDS W22, W0, #1
    0x0B010016, // ADD W22, W0, W1
    0x0B214016, // ADD W22, W0, W1, UXTW
    0x8B3F42B7, // ADD X23, X21, WZR, UXTW
    0x8B3842B8, // ADD X24, X21, W24, UXTW
    0x8B3662BF, // ADD SP, X21, X22, UXTX
    0xAB3662BF, // ADDS XZR, X21, X22, UXTX
    0xB10003FF, // ADDS XZR, SP, #0
    0xF240001F, // ANDS XZR, X0, #1
    0xF8408FE0, // LDR X0, [SP, #8]!
    0xF84087E0, // LDR X0, [SP], #8
    0xA8C107E0, // LDP X0, X1, [SP], #16
    0xD503201F, // NOP
    0xD4200000, // BRK
    0xD61F0240, // BR 18
    0xD61F02E0, // BR 23
    0xD63F02E0, // BLR 23
    0xD61F0300, // BR 24
    0xD63F0300, // BLR 24
    0xD61F03C0, // BR 30
    0xD63F03C0, // BLR 30
    0xD65F03C0, // RET 30
    0x14000000, // B to itself
    0x54000000, // B.EQ to itself
    0xB4000000, // CBZ to itself
    0x36000000, // TBZ to itself
];

/// Words that nothing spells.
const NOT_SPELLED: [u32; 4] = [
    0xD4000001, // SVC
    0x00000000, // UDF
    0xD503203F, // YIELD
    0x9B425C20, // SMULH, Ra 23
];

/// Accesses past the slot: rule 2.
const NOT_CONFINED: [u32; 96] = [
    0xF9400000, // LDR X0, [X0]
    0xF9400020, // LDR X0, [X1]
    0xF9400040, // LDR X0, [X2]
    0xF9400060, // LDR X0, [X3]
    0xF9400080, // LDR X0, [X4]
    0xF94000A0, // LDR X0, [X5]
    0xF94000C0, // LDR X0, [X6]
    0xF94000E0, // LDR X0, [X7]
    0xF9400100, // LDR X0, [X8]
    0xF9400120, // LDR X0, [X9]
    0xF9400140, // LDR X0, [X10]
    0xF9400160, // LDR X0, [X11]
    0xF9400180, // LDR X0, [X12]
    0xF94001A0, // LDR X0, [X13]
    0xF94001C0, // LDR X0, [X14]
    0xF94001E0, // LDR X0, [X15]
    0xF9400200, // LDR X0, [X16]
    0xF9400220, // LDR X0, [X17]
    0xF9400260, // LDR X0, [X19]
    0xF9400280, // LDR X0, [X20]
    0xF94002C0, // LDR X0, [X22]
    0xF9400320, // LDR X0, [X25]
    0xF9400340, // LDR X0, [X26]
    0xF9400360, // LDR X0, [X27]
    0xF9400380, // LDR X0, [X28]
    0xF94003A0, // LDR X0, [X29]
    0xF94003C0, // LDR X0, [X30]
    0xF8008221, // STUR X1, [X17, #8]
    0xA9000E22, // STP X2, X3, [X17]
    0xF8008E21, // STR X1, [X17, #8]!
    0xF8008621, // STR X1, [X17], #8
    0xA8810E22, // STP X2, X3, [X17], #16
    0xA9810E22, // STP X2, X3, [X17, #16]!
    0xF8214A20, // STR X0, [X17, W1, UXTW]
    0xF8008E41, // STR X1, [X18, #8]!
    0xF8008641, // STR X1, [X18], #8
    0xA8810E42, // STP X2, X3, [X18], #16
    0xA9810E42, // STP X2, X3, [X18, #16]!
    0xF8214A40, // STR X0, [X18, W1, UXTW]
    0xF8008261, // STUR X1, [X19, #8]
    0xA9000E62, // STP X2, X3, [X19]
    0xF8008E61, // STR X1, [X19, #8]!
    0xF8008661, // STR X1, [X19], #8
    0xA8810E62, // STP X2, X3, [X19], #16
    0xA9810E62, // STP X2, X3, [X19, #16]!
    0xF8214A60, // STR X0, [X19, W1, UXTW]
    0xF8008281, // STUR X1, [X20, #8]
    0xA9000E82, // STP X2, X3, [X20]
    0xF8008E81, // STR X1, [X20, #8]!
    0xF8008681, // STR X1, [X20], #8
    0xA8810E82, // STP X2, X3, [X20], #16
    0xA9810E82, // STP X2, X3, [X20, #16]!
    0xF8214A80, // STR X0, [X20, W1, UXTW]
    0xF8008EA1, // STR X1, [X21, #8]!
    0xF80086A1, // STR X1, [X21], #8
    0xA8810EA2, // STP X2, X3, [X21], #16
    0xA9810EA2, // STP X2, X3, [X21, #16]!
    0xF80082C1, // STUR X1, [X22, #8]
    0xA9000EC2, // STP X2, X3, [X22]
    0xF8008EC1, // STR X1, [X22, #8]!
    0xF80086C1, // STR X1, [X22], #8
    0xA8810EC2, // STP X2, X3, [X22], #16
    0xA9810EC2, // STP X2, X3, [X22, #16]!
    0xF8214AC0, // STR X0, [X22, W1, UXTW]
    0xF8008EE1, // STR X1, [X23, #8]!
    0xF80086E1, // STR X1, [X23], #8
    0xA8810EE2, // STP X2, X3, [X23], #16
    0xA9810EE2, // STP X2, X3, [X23, #16]!
    0xF8214AE0, // STR X0, [X23, W1, UXTW]
    0xF8008F01, // STR X1, [X24, #8]!
    0xF8008701, // STR X1, [X24], #8
    0xA8810F02, // STP X2, X3, [X24], #16
    0xA9810F02, // STP X2, X3, [X24, #16]!
    0xF8214B00, // STR X0, [X24, W1, UXTW]
    0xF8008321, // STUR X1, [X25, #8]
    0xA9000F22, // STP X2, X3, [X25]
    0xF8008F21, // STR X1, [X25, #8]!
    0xF8008721, // STR X1, [X25], #8
    0xA8810F22, // STP X2, X3, [X25], #16
    0xA9810F22, // STP X2, X3, [X25, #16]!
    0xF8214B20, // STR X0, [X25, W1, UXTW]
    0xF80083C1, // STUR X1, [X30, #8]
    0xA9000FC2, // STP X2, X3, [X30]
    0xF8008FC1, // STR X1, [X30, #8]!
    0xF80087C1, // STR X1, [X30], #8
    0xA8810FC2, // STP X2, X3, [X30], #16
    0xA9810FC2, // STP X2, X3, [X30, #16]!
    0xF8214BC0, // STR X0, [X30, W1, UXTW]
    0xF8214BE0, // STR X0, [SP, W1, UXTW]
    0xF8615AA0, // scaled
    0xF861CAA0, // SXTW
    0xF8616AA0, // LSL
    0xF861EAA0, // SXTX
    0x38615AA0, // LDRB, S 1
    0xF8408C35, // LDR X21, [X1, #8]!: rules 2 and 3
    0xB8404FD5, // LDR W21, [X30, #4]!
];

/// Words that write x21: rule 3.
const WRITE_BASE: [u32; 12] = [
    0xAA0003F5, // MOV X21, X0
    0x2A0003F5, // MOV W21, W0
    0x8B2042B5, // ADD X21, X21, W0, UXTW
    0xF9400255, // LDR X21, [X18]
    0xB9400255, // LDR W21, [X18]
    0x91000415, // ADD X21, X0, #1
    0xA94057E0, // LDP X0, X21, [SP]
    0xA94003F5, // LDP X21, X0, [SP]
    0xF94002B5, // LDR X21, [X21]
    0xF8408FF5, // LDR X21, [SP, #8]!
    0x90000015, // ADRP X21
    0xA94057F2, // LDP X18, X21, [SP]: rules 3 and 4
];

/// Words that write x18, x23 or x24 otherwise than by the guard: rule 4.
const WRITE_ADDRESSES: [u32; 29] = [
    0xAA0003F2, // MOV X18, X0
    0x2A0003F2, // MOV W18, W0
    0xF9400252, // LDR X18, [X18]
    0xB9400252, // LDR W18, [X18]
    0x91000412, // ADD X18, X0, #1
    0xAA0003F7, // MOV X23, X0
    0x2A0003F7, // MOV W23, W0
    0xF9400257, // LDR X23, [X18]
    0xB9400257, // LDR W23, [X18]
    0x91000417, // ADD X23, X0, #1
    0xAA0003F8, // MOV X24, X0
    0x2A0003F8, // MOV W24, W0
    0xF9400258, // LDR X24, [X18]
    0xB9400258, // LDR W24, [X18]
    0x91000418, // ADD X24, X0, #1
    0x8B204292, // from X20
    0x8B2042D2, // from X22
    0xCB2042B2, // SUB
    0x0B2042B2, // W
    0xAB2042B2, // ADDS
    0x8B2062B2, // UXTX
    0x8B2022B2, // UXTH
    0x8B20C2B2, // SXTW
    0x8B2046B2, // by 1
    0x8B2052B2, // by 4
    0x8B0002B2, // ADD shifted
    0xA94063E0, // LDP X0, X24, [SP]
    0xA94003F7, // LDP X23, X0, [SP]
    0xF84087F2, // LDR X18, [SP], #8
];

/// Words that write x30 otherwise than the profile allows: rule 5.
const WRITE_LINK: [u32; 14] = [
    0xAA0003FE, // MOV X30, X0
    0x2A0003FE, // MOV W30, W0
    0xB940025E, // LDR W30, [X18]
    0x9100041E, // ADD X30, X0, #1
    0xB98002BE, // LDRSW X30, [X21]
    0x398002BE, // LDRSB X30
    0x798002BE, // LDRSH X30
    0x39C002BE, // LDRSB W30
    0x79C002BE, // LDRSH W30
    0x394002BE, // LDRB W30
    0x294003FE, // LDP W30, W0, [SP]
    0x29407BE0, // LDP W0, W30, [SP]
    0x9000001E, // ADRP X30
    0xD28000FE, // MOVZ X30
];

/// Words that write x22 as X: rule 6.
const WRITE_OFFSET: [u32; 17] = [
    0xAA0003F6, // MOV X22, X0
    0x8B2042B6, // ADD X22, X21, W0, UXTW
    0xF9400256, // LDR X22, [X18]
    0x91000416, // ADD X22, X0, #1
    0xA9405BE0, // LDP X0, X22, [SP]
    0xA94003F6, // LDP X22, X0, [SP]
    0x39800256, // LDRSB X22, [X18]
    0xB9800256, // LDRSW X22, [X18]
    0xD2800016, // MOVZ X22, #0
    0x92407C16, // AND X22, X0, #0xffffffff
    0xD3407C36, // UBFM X22, X1, #0, #31
    0xF2400016, // ANDS X22, X0, #1
    0xB1000416, // ADDS X22, X0, #1
    0x10000016, // ADR X22
    0x9BC27C36, // UMULH X22
    0xF94002B6, // LDR X22, [X21]
    0xA9405BFE, // LDP X30, X22, [SP]: rules 6 and 10
];

/// Words that write sp otherwise than the profile allows: rule 7.
const WRITE_STACK: [u32; 20] = [
    0x110003FF, // ADD WSP, WSP, #0
    0x0B3662BF, // ADD WSP, W21, W22, UXTX
    0x8B3562BF, // from X21
    0x8B3762BF, // from X23
    0x8B36629F, // from X20
    0x8B3662DF, // from X22
    0x8B3666BF, // by 1
    0x8B36E2BF, // SXTX
    0xCB3662BF, // SUB
    0x914003FF, // ADD SP, SP, #0, LSL #12
    0xD14003FF, // SUB SP, SP, #0, LSL #12
    0xD14043FF, // SUB SP, SP, #16, LSL #12
    0x9100041F, // ADD SP, X0, #1
    0x910002BF, // ADD SP, X21, #0
    0x9240001F, // AND SP, X0, #1
    0xB200001F, // ORR SP, X0, #1
    0xD200001F, // EOR SP, X0, #1
    0x1200001F, // AND WSP, W0, #1
    0x8B2063FF, // ADD SP, SP, X0, UXTX
    0xCB2063FF, // SUB SP, SP, X0, UXTX
];

/// Direct branches out of the module: rule 8.
const LEAVE_THE_MODULE: [u32; 10] = [
    0x14000001, // B to word n
    0x17FFFFFF, // B to word -1
    0x94000001, // BL to word n
    0x54000020, // B.EQ to word n
    0x54FFFFE0, // B.EQ to word -1
    0xB4000020, // CBZ to word n
    0xB5FFFFE0, // CBNZ to word -1
    0x36000020, // TBZ to word n
    0x3707FFE0, // TBNZ to word -1
    0x97FFFFFF, // BL to word -1
];

/// Branches through other registers: rule 9.
const BRANCH_ANYWHERE: [u32; 87] = [
    0xD61F0000, // BR 0
    0xD63F0000, // BLR 0
    0xD65F0000, // RET 0
    0xD61F0020, // BR 1
    0xD63F0020, // BLR 1
    0xD65F0020, // RET 1
    0xD61F0040, // BR 2
    0xD63F0040, // BLR 2
    0xD65F0040, // RET 2
    0xD61F0060, // BR 3
    0xD63F0060, // BLR 3
    0xD65F0060, // RET 3
    0xD61F0080, // BR 4
    0xD63F0080, // BLR 4
    0xD65F0080, // RET 4
    0xD61F00A0, // BR 5
    0xD63F00A0, // BLR 5
    0xD65F00A0, // RET 5
    0xD61F00C0, // BR 6
    0xD63F00C0, // BLR 6
    0xD65F00C0, // RET 6
    0xD61F00E0, // BR 7
    0xD63F00E0, // BLR 7
    0xD65F00E0, // RET 7
    0xD61F0100, // BR 8
    0xD63F0100, // BLR 8
    0xD65F0100, // RET 8
    0xD61F0120, // BR 9
    0xD63F0120, // BLR 9
    0xD65F0120, // RET 9
    0xD61F0140, // BR 10
    0xD63F0140, // BLR 10
    0xD65F0140, // RET 10
    0xD61F0160, // BR 11
    0xD63F0160, // BLR 11
    0xD65F0160, // RET 11
    0xD61F0180, // BR 12
    0xD63F0180, // BLR 12
    0xD65F0180, // RET 12
    0xD61F01A0, // BR 13
    0xD63F01A0, // BLR 13
    0xD65F01A0, // RET 13
    0xD61F01C0, // BR 14
    0xD63F01C0, // BLR 14
    0xD65F01C0, // RET 14
    0xD61F01E0, // BR 15
    0xD63F01E0, // BLR 15
    0xD65F01E0, // RET 15
    0xD61F0200, // BR 16
    0xD63F0200, // BLR 16
    0xD65F0200, // RET 16
    0xD61F0220, // BR 17
    0xD63F0220, // BLR 17
    0xD65F0220, // RET 17
    0xD65F0240, // RET 18
    0xD61F0260, // BR 19
    0xD63F0260, // BLR 19
    0xD65F0260, // RET 19
    0xD61F0280, // BR 20
    0xD63F0280, // BLR 20
    0xD65F0280, // RET 20
    0xD61F02A0, // BR 21
    0xD63F02A0, // BLR 21
    0xD65F02A0, // RET 21
    0xD61F02C0, // BR 22
    0xD63F02C0, // BLR 22
    0xD65F02C0, // RET 22
    0xD65F02E0, // RET 23
    0xD65F0300, // RET 24
    0xD61F0320, // BR 25
    0xD63F0320, // BLR 25
    0xD65F0320, // RET 25
    0xD61F0340, // BR 26
    0xD63F0340, // BLR 26
    0xD65F0340, // RET 26
    0xD61F0360, // BR 27
    0xD63F0360, // BLR 27
    0xD65F0360, // RET 27
    0xD61F0380, // BR 28
    0xD63F0380, // BLR 28
    0xD65F0380, // RET 28
    0xD61F03A0, // BR 29
    0xD63F03A0, // BLR 29
    0xD65F03A0, // RET 29
    0xD61F03E0, // BR 31
    0xD63F03E0, // BLR 31
    0xD65F03E0, // RET 31
];

/// Words that, as modules of their own, break a rule.
const BROKEN: [(Rule, &[u32]); 9] = [
    (Rule::Spelled, &NOT_SPELLED),
    (Rule::AccessConfined, &NOT_CONFINED),
    (Rule::BaseKept, &WRITE_BASE),
    (Rule::AddressGuarded, &WRITE_ADDRESSES),
    (Rule::LinkGuarded, &WRITE_LINK),
    (Rule::OffsetNarrow, &WRITE_OFFSET),
    (Rule::StackBounded, &WRITE_STACK),
    (Rule::TargetInside, &LEAVE_THE_MODULE),
    (Rule::BranchBounded, &BRANCH_ANYWHERE),
];

/// The first of these words that, as a module of its own, hasn't this fault.
fn first_other(words: &[u32], expected: Option<Fault>, profile: Profile) -> Option<u32> {
    for word in words {
        if fault_of(&[*word], profile) != expected {
            return Some(*word);
        }
    }
    None
}

#[test]
fn lawful_words(rt: HostRuntime) {
    for profile in PROFILES {
        assert!(rt; first_other(&LAWFUL, None, profile) == None);
    }
}

#[test]
fn broken_words(rt: HostRuntime) {
    for (rule, words) in &BROKEN {
        let fault = Some(Fault {
            word: 0,
            rule: *rule,
        });
        for profile in PROFILES {
            let other = first_other(words, fault, profile);
            assert!(rt; other == None, "{other:?} has not {rule}");
        }
    }
}

/// Sums into sp, but for the first operand, and the one operand with which they are lawful: registers are added to x21 alone,
/// and immediates to sp alone.
const SUMS_INTO_STACK: [(u32, u32); 4] = [
    (0x8B36601F, 21), // ADD SP, Xn, X22, UXTX
    (0x8B20401F, 21), // ADD SP, Xn, W0, UXTW
    (0x9100401F, 31), // ADD SP, Xn, #16
    (0xD100401F, 31), // SUB SP, Xn, #16
];

/// The first operands, sp among them, with which such a sum is lawful before a store at sp: bit n stands for number n. `None`
/// where another rule is broken than that of sp.
fn lawful_operands(sum: u32) -> Option<u32> {
    let broken = Some(Fault {
        word: 0,
        rule: Rule::StackBounded,
    });
    let mut operands = 0;
    for number in 0..32u32 {
        let fault = fault_of(&[sum | number << 5, 0xF90003E0], Profile::Two);
        if fault == None {
            operands |= 1 << number;
        } else if fault != broken {
            return None;
        }
    }
    Some(operands)
}

#[test]
fn sums_into_the_stack_pointer(rt: HostRuntime) {
    for (sum, operand) in SUMS_INTO_STACK {
        assert!(rt; lawful_operands(sum) == Some(1 << operand), "{sum:#x}");
    }
}
