use crate::instructions::spelling::{first_not_spelled, first_spelled, is_spelled_back};
use a64_encode::encode;
use a64_word::{
    AddSubImmediate, Branch, Instruction, Register, Width, Words, decode, word_at, word_count,
};
use lfi_module::Profile;
use std::alloc::Global;
use std::test::Fail;

/// Words that spell instructions.
const SPELLED: [u32; 44] = [
    0xA90003E0, 0x8B2042B2, 0xF9400240, 0xF9400020, 0xF94006BE, 0xD63F03C0, 0xD503201F, 0xF947FEBE,
    0xF94802BE, 0xA8C17BFD, 0x8B3E42BE, 0xD10043FF, 0xF90003E0, 0xF90007E0, 0x14000002, 0xAA0003F5,
    0x2A0003F6, 0xF9400256, 0xB9400256, 0x14000001, 0x17FFFFFF, 0xD65F03C0, 0x143FFFFF, 0xF85007E0,
    0xD28000E0, 0xF94002BE, 0xD10003FF, 0xF8614AA0, 0xF8615AA0, 0xF861CAA0, 0xF8616AA0, 0x8B2052B2,
    0xD61F0240, 0xD65F0240, 0x8B3662BF, 0xEB01001F, 0x93407C20, 0xDAC01020, 0x9AC20820, 0x9AC20C20,
    0x92401C20, 0x12003C20, 0x9200F020, 0x9201F020,
];

/// Words that spell none.
const NOT_SPELLED: [u32; 7] = [
    0xA94003E0, 0x8B2056B2, 0xF8408400, 0x1200FC20, 0x9240FC20, 0x12401C20, 0xD4000001,
];

#[test]
fn decodes_rows(rt: HostRuntime) {
    assert!(rt; first_not_spelled(&SPELLED, Profile::One) == None);
    assert!(rt; first_not_spelled(&SPELLED, Profile::Two) == None);
    assert!(rt; first_spelled(&NOT_SPELLED, Profile::One) == None);
    assert!(rt; first_spelled(&NOT_SPELLED, Profile::Two) == None);
}

#[test]
fn encodes_what_it_decodes(rt: HostRuntime) {
    let mut count = 0u32;
    for i in 0u32..1_000_000 {
        let word = i.wrapping_mul(2_654_435_761);
        if decode(word, Profile::Two).is_some() {
            assert!(rt; is_spelled_back(word, Profile::Two), "{word:#x}");
            count = count.wrapping_add(1);
        }
    }
    assert!(rt; count > 100_000, "{count}");
}

/// The word of a branch by `offset` words.
fn branch_by(offset: i32) -> Option<u32> {
    let branch = Instruction::Branch(Branch {
        link: false,
        offset,
    });
    encode(&branch, Profile::One)
}

#[test]
fn refuses_what_is_out_of_range(rt: HostRuntime) {
    let x0 = Register::new(0);
    let too_large = AddSubImmediate {
        width: Width::X,
        subtract: false,
        set_flags: false,
        shifted: false,
        imm12: 4096,
        rn: x0,
        rd: x0,
    };
    assert!(rt; encode(&Instruction::AddSubImmediate(too_large), Profile::Two) == None);
    assert!(rt; branch_by(33_554_432) == None);
    assert!(rt; branch_by(-33_554_432) == Some(0x16000000));
}

/// Words with a bitmask, and the mask.
const MASKS: [(u32, u64); 4] = [
    (0x92401C20, 0x00000000000000FF),
    (0x12003C20, 0x0000FFFF),
    (0x9200F020, 0x5555555555555555),
    (0x9201F020, 0xAAAAAAAAAAAAAAAA),
];

#[test]
fn gives_masks(rt: HostRuntime) {
    for (word, mask) in MASKS {
        let found = match decode(word, Profile::One) {
            Some(Instruction::LogicalImmediate(i)) => Some(i.mask()),
            _ => None,
        };
        assert!(rt; found == Some(mask), "{word:#x}");
    }
}

#[test]
fn lists_words(rt: HostRuntime) -> Result<(), Fail> {
    let words = [0xD503201Fu32, 0xD65F03C0].to_vec(rt.alloc())?;
    assert!(rt; words.count() == 2);
    let last = if words.count() == 2 { words.word(1) } else { 0 };
    assert!(rt; last == 0xD65F03C0);
    Ok(())
}

/// RET, then NOP, then one byte more.
const BYTES: [u8; 9] = [0xC0, 0x03, 0x5F, 0xD6, 0x1F, 0x20, 0x03, 0xD5, 0xFF];

#[test]
fn reads_words_of_bytes(rt: HostRuntime) {
    assert!(rt; word_count(&BYTES) == 2);
    assert!(rt; word_at(&BYTES, 0) == 0xD65F03C0);
    assert!(rt; word_at(&BYTES, 1) == 0xD503201F);
}
