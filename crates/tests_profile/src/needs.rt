//! What instructions ask of the next word, and whether they meet it: docs/PROFILE.md.
use a64_word::decode;
use lfi_module::Profile;
use lfi_rules::{Need, meets, opens};
use std::test::Fail;

/// Words, and what they open in the second profile.
const OPENINGS: [(u32, Need); 39] = [
    (0xF94002BE, Need::Call), // LDR X30, [X21]
    (0xF947FEBE, Need::Call), // LDR X30, [X21, #4088]
    (0xF94802BE, Need::Guard), // LDR X30, [X21, #4096]
    (0xF940029E, Need::Guard), // LDR X30, [X20]
    (0xF94002DE, Need::Guard), // LDR X30, [X22]
    (0xF94002BD, Need::Nothing), // LDR X29, [X21]
    (0xF94002BF, Need::Nothing), // LDR XZR, [X21]
    (0xB94002BE, Need::Nothing), // LDR W30, [X21]
    (0xB98002BE, Need::Nothing), // LDRSW X30, [X21]
    (0xF90002BE, Need::Nothing), // STR X30, [X21]
    (0xF84002BE, Need::Guard), // LDUR X30, [X21]
    (0xF8408FFE, Need::Guard), // LDR X30, [SP, #8]!
    (0xF84087FE, Need::Guard), // LDR X30, [SP], #8
    (0xF8614ABE, Need::Guard), // LDR X30, [X21, W1, UXTW]
    (0xB8614ABE, Need::Nothing), // LDR W30, [X21, W1, UXTW]
    (0xA94003FE, Need::Guard), // LDP X30, X0, [SP]
    (0xA8C17BFD, Need::Guard), // LDP X29, X30, [SP], #16
    (0x294003FE, Need::Nothing), // LDP W30, W0, [SP]
    (0xA90003FE, Need::Nothing), // STP X30, X0, [SP]
    (0xA94077FC, Need::Nothing), // LDP X28, X29, [SP]
    (0xD10043FF, Need::Probe(4)), // SUB SP, SP, #16
    (0x910043FF, Need::Probe(4)), // ADD SP, SP, #16
    (0x910003FF, Need::Probe(4)), // ADD SP, SP, #0
    (0x510043FF, Need::Nothing), // SUB WSP, WSP, #16
    (0xD14043FF, Need::Nothing), // SUB SP, SP, #16, LSL #12
    (0xD14003FF, Need::Nothing), // SUB SP, SP, #0, LSL #12
    (0x914003FF, Need::Nothing), // ADD SP, SP, #0, LSL #12
    (0xF10043FF, Need::Nothing), // SUBS XZR, SP, #16
    (0xD10043FE, Need::Nothing), // SUB X30, SP, #16
    (0xD10043DF, Need::Nothing), // SUB SP, X30, #16
    (0xD503201F, Need::Nothing), // NOP
    (0xD63F03C0, Need::Nothing), // BLR X30
    (0x8B3E42BE, Need::Nothing), // the guard of X30
    (0x8B3662BF, Need::Nothing), // ADD SP, X21, X22, UXTX
    (0xC8DFFEBE, Need::Guard), // LDAR X30, [X21]
    (0xC8DFFFFE, Need::Guard), // LDAR X30, [SP]
    (0x88DFFEBE, Need::Nothing), // LDAR W30, [X21]
    (0xC89FFEBE, Need::Nothing), // STLR X30, [X21]
    (0xC8DFFE40, Need::Nothing), // LDAR X0, [X18]
];

/// Words, and whether they meet Call, Guard and Probe.
const MEETINGS: [(u32, bool, bool, bool); 42] = [
    (0xD63F03C0, true, false, false), // BLR X30
    (0xD61F03C0, false, false, false), // BR X30
    (0xD65F03C0, false, false, false), // RET
    (0xD63F03A0, false, false, false), // BLR X29
    (0xD63F03E0, false, false, false), // BLR XZR
    (0xD63F0240, false, false, false), // BLR X18
    (0x8B3E42BE, false, true, false), // ADD X30, X21, W30, UXTW
    (0x8B3D42BE, false, false, false), // from W29
    (0x8B3F42BE, false, false, false), // from WZR
    (0x8B3E42BD, false, false, false), // into X29
    (0x8B3E42BF, false, false, false), // into SP
    (0x8B3E42B2, false, false, false), // into X18
    (0x8B3E429E, false, false, false), // from X20
    (0x8B3E42DE, false, false, false), // from X22
    (0x8B3E46BE, false, false, false), // by 1
    (0x8B3E62BE, false, false, false), // UXTX
    (0x8B3E22BE, false, false, false), // UXTH
    (0x8B3EC2BE, false, false, false), // SXTW
    (0xCB3E42BE, false, false, false), // SUB
    (0xAB3E42BE, false, false, false), // ADDS
    (0x0B3E42BE, false, false, false), // W
    (0xF90003E0, false, false, true), // STR X0, [SP]
    (0xF94003E0, false, false, true), // LDR X0, [SP]
    (0x390003E0, false, false, true), // STRB W0, [SP]
    (0x79C003E0, false, false, true), // LDRSH W0, [SP]
    (0xF90007E0, false, false, false), // STR X0, [SP, #8]
    (0xF90003C0, false, false, false), // STR X0, [X30]
    (0xF9000240, false, false, false), // STR X0, [X18]
    (0xF80003E0, false, false, false), // STUR X0, [SP]
    (0xF80007E0, false, false, false), // STR X0, [SP], #0
    (0xF8000FE0, false, false, false), // STR X0, [SP, #0]!
    (0xA90007E0, false, false, true), // STP X0, X1, [SP]
    (0x294007E0, false, false, true), // LDP W0, W1, [SP]
    (0xA90087E0, false, false, false), // STP X0, X1, [SP, #8]
    (0xA93F87E0, false, false, false), // STP X0, X1, [SP, #-8]
    (0xA88007E0, false, false, false), // STP X0, X1, [SP], #0
    (0xA98007E0, false, false, false), // STP X0, X1, [SP, #0]!
    (0xA9000640, false, false, false), // STP X0, X1, [X18]
    (0xD503201F, false, false, false), // NOP
    (0xF8614BE0, false, false, false), // LDR X0, [SP, W1, UXTW]
    (0xC8DFFFE0, false, false, false), // LDAR X0, [SP]
    (0xC89FFFE0, false, false, false), // STLR X0, [SP]
];

/// Whether a word is an instruction of a profile that opens a need.
fn is_opened(word: u32, need: Need, profile: Profile) -> bool {
    match decode(word, profile) {
        Some(instruction) => opens(&instruction, profile) == need,
        None => false,
    }
}

/// Whether a word is an instruction that meets a need.
fn is_met(word: u32, need: Need) -> bool {
    match decode(word, Profile::Two) {
        Some(instruction) => meets(&instruction, need),
        None => false,
    }
}

#[test]
fn needs_opened(rt: HostRuntime) {
    for (word, need) in OPENINGS {
        assert!(rt; is_opened(word, need, Profile::Two), "{word:#x}");
    }
}

/// The first profile asks for a probe at once, and the second for one of four words; all else is the same.
#[test]
fn needs_opened_in_the_first_profile(rt: HostRuntime) {
    for (word, need) in &OPENINGS[..34] {
        let first = match need {
            Need::Probe(_) => Need::Probe(1),
            other => *other,
        };
        assert!(rt; is_opened(*word, first, Profile::One), "{word:#x}");
    }
}

/// Which of Nothing, Call, Guard and Probe a word meets.
fn needs_met(word: u32) -> [bool; 4] {
    [
        is_met(word, Need::Nothing),
        is_met(word, Need::Call),
        is_met(word, Need::Guard),
        is_met(word, Need::Probe(1)),
    ]
}

#[test]
fn needs_met_by_a_word(rt: HostRuntime) {
    for (word, call, guard, probe) in MEETINGS {
        assert!(rt; needs_met(word) == [true, call, guard, probe], "{word:#x}");
    }
}
