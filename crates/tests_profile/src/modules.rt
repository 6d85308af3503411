//! Modules of a few words, each with its first fault by this project's rules (docs/PROFILE.md).
use crate::words::{PROFILES, fault_of};
use lfi_rules::{Fault, Rule};
use std::test::Fail;

/// Modules of two words, one after another: the second meets what the first opens.
const MET: [u32; 58] = [
    0x8B2042B2, 0xF9400240, // guard, then a load
    0xF94006BE, 0xD63F03C0, // runtime call
    0xF947FEBE, 0xD63F03C0, // the last entry
    0xF94802BE, 0x8B3E42BE, //
    0xD10043FF, 0xF90003E0, //
    0x14000001, 0xD65F03C0, //
    0xD503201F, 0x17FFFFFF, //
    0xA8C17BFD, 0x8B3E42BE, //
    0xF94006BE, 0xD63F03C0, // call
    0xF9400A5E, 0x8B3E42BE, // guard
    0xD10043FF, 0xF90003E0, // probe
    0xD10043FF, 0xF94003E0, // probe
    0xD10043FF, 0x390003E0, // probe
    0xD10043FF, 0x794003E0, // probe
    0xD10043FF, 0xB98003E0, // probe
    0xD10043FF, 0xA90007E0, // probe
    0xD10043FF, 0x294007E0, // probe
    0xD10043FF, 0x290007E0, // probe
    0xF94003FE, 0x8B3E42BE, // LDR X30, [SP]
    0xF84087FE, 0x8B3E42BE, // LDR X30, [SP], #8
    0xF8408FFE, 0x8B3E42BE, // LDR X30, [SP, #8]!
    0xF84002BE, 0x8B3E42BE, // LDUR X30, [X21]
    0xF840025E, 0x8B3E42BE, // LDUR X30, [X18]
    0xF8614ABE, 0x8B3E42BE, // LDR X30, [X21, W1, UXTW]
    0xA94003FE, 0x8B3E42BE, // LDP X30, X0, [SP]
    0xA9407BE0, 0x8B3E42BE, // LDP X0, X30, [SP]
    0xA940025E, 0x8B3E42BE, // LDP X30, X0, [X18]
    0xA9C17BFD, 0x8B3E42BE, // LDP X29, X30, [SP, #16]!
    0xA8C103FE, 0x8B3E42BE, // LDP X30, X0, [SP], #16
];

/// Modules of two words, one after another: the second breaks rule 10.
const UNMET: [u32; 106] = [
    0xF94802BE, 0xD63F03C0, // behind the table
    0xD10043FF, 0xF90007E0, //
    0xA8C17BFD, 0xD503201F, //
    0xF94006BE, 0x8B3E42BE, // call
    0xF94006BE, 0xF90003E0, // call
    0xF94006BE, 0xD503201F, // call
    0xF94006BE, 0xD61F03C0, // call
    0xF94006BE, 0xD65F03C0, // call
    0xF94006BE, 0xD63F0240, // call
    0xF94006BE, 0xD63F0300, // call
    0xF94006BE, 0x14000000, // call
    0xD503201F, 0xF94006BE, // call left open
    0xF9400A5E, 0xD63F03C0, // guard
    0xF9400A5E, 0xF90003E0, // guard
    0xF9400A5E, 0xD503201F, // guard
    0xF9400A5E, 0x8B3D42BE, // guard
    0xF9400A5E, 0x8B3F42BE, // guard
    0xF9400A5E, 0x8B3E42B2, // guard
    0xF9400A5E, 0x8B3E42B7, // guard
    0xF9400A5E, 0x8B3E42BF, // guard
    0xF9400A5E, 0x8B2042BE, // guard
    0xF9400A5E, 0x8B3E429D, // guard
    0xF9400A5E, 0x8B3E42BD, // guard
    0xD503201F, 0xF9400A5E, // guard left open
    0xD10043FF, 0xD63F03C0, // probe
    0xD10043FF, 0x8B3E42BE, // probe
    0xD10043FF, 0xD503201F, // probe
    0xD10043FF, 0xF90007E0, // probe
    0xD10043FF, 0xF94007E0, // probe
    0xD10043FF, 0xF9000240, // probe
    0xD10043FF, 0xF90002A0, // probe
    0xD10043FF, 0xF80003E0, // probe
    0xD10043FF, 0xF84003E0, // probe
    0xD10043FF, 0xF80007E0, // probe
    0xD10043FF, 0xF8000FE0, // probe
    0xD10043FF, 0xA90087E0, // probe
    0xD10043FF, 0xA93F87E0, // probe
    0xD10043FF, 0xA88007E0, // probe
    0xD10043FF, 0xA98007E0, // probe
    0xD10043FF, 0xA9000640, // probe
    0xD10043FF, 0xF8214AA0, // probe
    0xD503201F, 0xD10043FF, // probe left open
    0xF94003FE, 0xD503201F, // LDR X30, [SP]
    0xF84087FE, 0xD503201F, // LDR X30, [SP], #8
    0xF8408FFE, 0xD503201F, // LDR X30, [SP, #8]!
    0xF84002BE, 0xD503201F, // LDUR X30, [X21]
    0xF840025E, 0xD503201F, // LDUR X30, [X18]
    0xF8614ABE, 0xD503201F, // LDR X30, [X21, W1, UXTW]
    0xA94003FE, 0xD503201F, // LDP X30, X0, [SP]
    0xA9407BE0, 0xD503201F, // LDP X0, X30, [SP]
    0xA940025E, 0xD503201F, // LDP X30, X0, [X18]
    0xA9C17BFD, 0xD503201F, // LDP X29, X30, [SP, #16]!
    0xA8C103FE, 0xD503201F, // LDP X30, X0, [SP], #16
];

/// The second of two words doesn't meet what the first opens.
const UNMET_FAULT: Option<Fault> = Some(Fault {
    word: 1,
    rule: Rule::NeedMet,
});

#[test]
fn needs_met(rt: HostRuntime) {
    for words in MET.chunks(2) {
        for profile in PROFILES {
            assert!(rt; fault_of(words, profile) == None, "{words:?}");
        }
    }
}

#[test]
fn needs_unmet(rt: HostRuntime) {
    for words in UNMET.chunks(2) {
        for profile in PROFILES {
            assert!(rt; fault_of(words, profile) == UNMET_FAULT, "{words:?}");
        }
    }
}

/// Modules, and their first faults.
const MODULES: [(&[u32], Option<Fault>); 16] = [
    (
        &[0xF94006BE, 0xD503201F, 0xD63F03C0],
        Some(Fault {
            word: 1,
            rule: Rule::NeedMet,
        }),
    ),
    // left open
    (
        &[0xD10043FF],
        Some(Fault {
            word: 0,
            rule: Rule::NeedMet,
        }),
    ),
    // left open
    (
        &[0xF94006BE],
        Some(Fault {
            word: 0,
            rule: Rule::NeedMet,
        }),
    ),
    // left open
    (
        &[0xF9400A5E],
        Some(Fault {
            word: 0,
            rule: Rule::NeedMet,
        }),
    ),
    // a branch straight to the call
    (&[0x14000002, 0xF94006BE, 0xD63F03C0], None),
    (
        &[0xD503201F, 0x14000001],
        Some(Fault {
            word: 1,
            rule: Rule::TargetInside,
        }),
    ),
    (
        &[0xD503201F, 0x17FFFFFE],
        Some(Fault {
            word: 1,
            rule: Rule::TargetInside,
        }),
    ),
    // rules 1 and 10
    (
        &[0xD10043FF, 0xD4000001],
        Some(Fault {
            word: 1,
            rule: Rule::Spelled,
        }),
    ),
    // rules 8 and 10
    (
        &[0xF94006BE, 0x14000005],
        Some(Fault {
            word: 1,
            rule: Rule::TargetInside,
        }),
    ),
    // the first of two
    (
        &[0xAA0003F5, 0xD4000001],
        Some(Fault {
            word: 0,
            rule: Rule::BaseKept,
        }),
    ),
    (
        &[0xD4000001, 0xAA0003F5],
        Some(Fault {
            word: 0,
            rule: Rule::Spelled,
        }),
    ),
    (
        &[0xD10043FF, 0xD10043FF, 0xF90003E0],
        Some(Fault {
            word: 1,
            rule: Rule::NeedMet,
        }),
    ),
    // the probe itself loads x30
    (&[0xD10043FF, 0xF94003FE, 0x8B3E42BE], None),
    (
        &[0xD10043FF, 0xF94003FE, 0xD63F03C0],
        Some(Fault {
            word: 2,
            rule: Rule::NeedMet,
        }),
    ),
    (
        &[0xF94006BE, 0xF94006BE, 0xD63F03C0],
        Some(Fault {
            word: 1,
            rule: Rule::NeedMet,
        }),
    ),
    (
        &[0xF9400A5E, 0xF9400A5E, 0x8B3E42BE],
        Some(Fault {
            word: 1,
            rule: Rule::NeedMet,
        }),
    ),
];

#[test]
fn modules(rt: HostRuntime) {
    for (words, fault) in &MODULES {
        for profile in PROFILES {
            assert!(rt; fault_of(words, profile) == *fault, "{words:?}");
        }
    }
}

#[test]
fn faults_print(rt: HostRuntime) -> Result<(), Fail> {
    let fault = Fault {
        word: 5,
        rule: Rule::NeedMet,
    };
    let text = format!(in rt.alloc(); "{fault}")?;
    assert!(rt; text.as_str() == "word 5 rule 10");
    Ok(())
}
