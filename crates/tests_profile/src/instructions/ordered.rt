//! The ordered loads and stores, which the second profile alone has: C6.2 "LDAR", "STLR" and those like them. The fields
//! Rs and Rt2 and bit 15 are ones; LDLAR, LDAXR and CASAL differ from them by one bit.
use crate::instructions::spelling::{first_not_spelled, first_spelled};
use a64_encode::encode;
use a64_word::{Instruction, Ordered, Register, Size};
use lfi_module::Profile;

/// Words that are instructions of the second profile: each size, both ways, registers at their ends.
const ORDERED: [u32; 18] = [
    0xC8DFFC20, // LDAR X0, [X1]
    0xC89FFC20, // STLR X0, [X1]
    0x88DFFC20, // LDAR W0, [X1]
    0x889FFC20, // STLR W0, [X1]
    0x48DFFC20, // LDARH W0, [X1]
    0x489FFC20, // STLRH W0, [X1]
    0x08DFFC20, // LDARB W0, [X1]
    0x089FFC20, // STLRB W0, [X1]
    0xC8DFFC00, // LDAR X0, [X0]
    0xC89FFC00, // STLR X0, [X0]
    0xC8DFFFFF, // LDAR XZR, [SP]
    0xC89FFFFF, // STLR XZR, [SP]
    0x08DFFFFF, // LDARB WZR, [SP]
    0x089FFFFF, // STLRB WZR, [SP]
    0xC8DFFEBE, // LDAR X30, [X21]
    0xC8DFFE56, // LDAR X22, [X18]
    0x88DFFE56, // LDAR W22, [X18]
    0xC89FFFDF, // STLR XZR, [X30]
];

/// Words beside them that are no instruction of either profile.
const BESIDE: [u32; 10] = [
    0xC8DF7C20, // LDLAR X0, [X1]
    0xC85FFC20, // LDAXR X0, [X1]
    0xC85F7C20, // LDXR X0, [X1]
    0xC8FFFC20, // CASAL XZR, X0, [X1]
    0xC8DEFC20, // Rs 30
    0xC8CFFC20, // Rs 15
    0xC8DFF820, // Rt2 30
    0xC8DFBC20, // Rt2 15
    0xC9DFFC20, // bit 24
    0x89DFFC20, // bit 24, of 4 bytes
];

#[test]
fn are_of_the_second_profile(rt: HostRuntime) {
    assert!(rt; first_not_spelled(&ORDERED, Profile::Two) == None);
    assert!(rt; first_spelled(&ORDERED, Profile::One) == None);
    assert!(rt; first_spelled(&BESIDE, Profile::One) == None);
    assert!(rt; first_spelled(&BESIDE, Profile::Two) == None);
}

#[test]
fn encodes_in_the_second_profile_alone(rt: HostRuntime) {
    let load = Instruction::Ordered(Ordered {
        size: Size::Double,
        load: true,
        rn: Register::new(18),
        rt: Register::new(0),
    });
    assert!(rt; encode(&load, Profile::Two) == Some(0xC8DFFE40));
    assert!(rt; encode(&load, Profile::One) == None);
}
