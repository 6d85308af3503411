//! What instructions read and write, and where they access memory and branch: by the operations of the Arm manual's C6.2.
use a64_effects::{Address, Form, RegisterSet, address_of, reads, target, writes};
use a64_word::{IndexExtend, Register, Width, decode};
use lfi_module::Profile;
use std::test::Fail;

const WORDS: [u32; 83] = [
    0x91000420, // ADD X0, X1, #1
    0x910003FF, // ADD SP, SP, #0
    0x110003FF, // ADD WSP, WSP, #0
    0xF100043F, // SUBS XZR, X1, #1
    0xF10003FF, // SUBS XZR, SP, #0
    0x92401C3F, // AND SP, X1, #255
    0x320003FF, // ORR WSP, WZR, #1
    0xF2401C3F, // ANDS XZR, X1, #255
    0xD28000FE, // MOVZ X30, #7
    0xF28000E5, // MOVK X5, #7
    0x128000F6, // MOVN W22, #7
    0xD28000FF, // MOVZ XZR, #7
    0x10000001, // ADR X1
    0x9000001E, // ADRP X30
    0xD3441C20, // UBFM X0, X1
    0x33041C20, // BFM W0, W1
    0x93407C3F, // SBFM XZR, X1
    0xAA020020, // ORR X0, X1, X2
    0x2A0003F6, // ORR W22, WZR, W0
    0x8B020020, // ADD X0, X1, X2
    0x8B0203FF, // ADD XZR, XZR, X2
    0x8B2042B2, // ADD X18, X21, W0, UXTW
    0x8B3662BF, // ADD SP, X21, X22, UXTX
    0x0B3662BF, // ADD WSP, W21, W22, UXTX
    0xAB3FE3FF, // ADDS XZR, SP, XZR, SXTX
    0x8B21E3E0, // ADD X0, SP, X1, SXTX
    0x8B21C3E0, // ADD X0, SP, W1, SXTW
    0xFA421020, // CCMP X1, X2
    0xFA421820, // CCMP X1, #2
    0x9A821020, // CSEL X0, X1, X2
    0x1AC20820, // UDIV W0, W1, W2
    0xDAC01020, // CLZ X0, X1
    0x9B020C20, // MADD X0, X1, X2, X3
    0x1B020C3F, // MADD WZR, W1, W2, W3
    0x9BC27C20, // UMULH X0, X1, X2
    0xD503201F, // NOP
    0x14000001, // B
    0x94000001, // BL
    0x54000020, // B.EQ
    0xB4000020, // CBZ X0
    0x3400003F, // CBZ WZR
    0x36F80020, // TBZ W0, #31
    0xB6000020, // TBZ X0, #32
    0xD61F0240, // BR X18
    0xD63F03C0, // BLR X30
    0xD65F03C0, // RET
    0xD63F03E0, // BLR XZR
    0xD4200000, // BRK
    0xF9400256, // LDR X22, [X18]
    0xB9400256, // LDR W22, [X18]
    0x39400256, // LDRB W22, [X18]
    0xB9800256, // LDRSW X22, [X18]
    0x39C00256, // LDRSB W22, [X18]
    0x39800256, // LDRSB X22, [X18]
    0x79C00256, // LDRSH W22, [X18]
    0xF9000256, // STR X22, [X18]
    0x39000256, // STRB W22, [X18]
    0xB90003FF, // STR WZR, [SP]
    0xF94003FF, // LDR XZR, [SP]
    0xF85007E0, // LDR X0, [SP], #-256
    0xF81F0FFE, // STR X30, [SP, #-16]!
    0xF8400C41, // LDR X1, [X2, #0]!
    0xF8400041, // LDUR X1, [X2]
    0xF8614AA0, // LDR X0, [X21, W1, UXTW]
    0xB8216BE0, // STR W0, [SP, X1]
    0xF87FCBE0, // LDR X0, [SP, WZR, SXTW]
    0xF861EBE0, // LDR X0, [SP, X1, SXTX]
    0xA8C17BFD, // LDP X29, X30, [SP], #16
    0xA9BF7BFD, // STP X29, X30, [SP, #-16]!
    0x29400440, // LDP W0, W1, [X2]
    0x290007E0, // STP W0, W1, [SP]
    0xA9407C40, // LDP X0, XZR, [X2]
    0xA90003E0, // STP X0, X0, [SP]
    0xC8DFFE40, // LDAR X0, [X18]
    0x88DFFE56, // LDAR W22, [X18]
    0x08DFFFFF, // LDARB WZR, [SP]
    0xC89FFFE0, // STLR X0, [SP]
    0x489FFC83, // STLRH W3, [X4]
    0xF8000041, // STUR X1, [X2]
    0x78000041, // STURH W1, [X2]
    0xF8008441, // STR X1, [X2], #8
    0xF8236841, // STR X1, [X2, X3]
    0xA8810041, // STP X1, X0, [X2], #16
];

/// What they write; number 31 is sp.
const WRITES: [(u32, u8, Width); 55] = [
    (0x91000420, 0, Width::X),
    (0x910003FF, 31, Width::X),
    (0x110003FF, 31, Width::W),
    (0x92401C3F, 31, Width::X),
    (0x320003FF, 31, Width::W),
    (0xD28000FE, 30, Width::X),
    (0xF28000E5, 5, Width::X),
    (0x128000F6, 22, Width::W),
    (0x10000001, 1, Width::X),
    (0x9000001E, 30, Width::X),
    (0xD3441C20, 0, Width::X),
    (0x33041C20, 0, Width::W),
    (0xAA020020, 0, Width::X),
    (0x2A0003F6, 22, Width::W),
    (0x8B020020, 0, Width::X),
    (0x8B2042B2, 18, Width::X),
    (0x8B3662BF, 31, Width::X),
    (0x0B3662BF, 31, Width::W),
    (0x8B21E3E0, 0, Width::X),
    (0x8B21C3E0, 0, Width::X),
    (0x9A821020, 0, Width::X),
    (0x1AC20820, 0, Width::W),
    (0xDAC01020, 0, Width::X),
    (0x9B020C20, 0, Width::X),
    (0x9BC27C20, 0, Width::X),
    (0x94000001, 30, Width::X),
    (0xD63F03C0, 30, Width::X),
    (0xD63F03E0, 30, Width::X),
    (0xF9400256, 22, Width::X),
    (0xB9400256, 22, Width::W),
    (0x39400256, 22, Width::W),
    (0xB9800256, 22, Width::X),
    (0x39C00256, 22, Width::W),
    (0x39800256, 22, Width::X),
    (0x79C00256, 22, Width::W),
    (0xF85007E0, 0, Width::X),
    (0xF85007E0, 31, Width::X),
    (0xF81F0FFE, 31, Width::X),
    (0xF8400C41, 1, Width::X),
    (0xF8400C41, 2, Width::X),
    (0xF8400041, 1, Width::X),
    (0xF8614AA0, 0, Width::X),
    (0xF87FCBE0, 0, Width::X),
    (0xF861EBE0, 0, Width::X),
    (0xA8C17BFD, 29, Width::X),
    (0xA8C17BFD, 30, Width::X),
    (0xA8C17BFD, 31, Width::X),
    (0xA9BF7BFD, 31, Width::X),
    (0x29400440, 0, Width::W),
    (0x29400440, 1, Width::W),
    (0xA9407C40, 0, Width::X),
    (0xC8DFFE40, 0, Width::X),
    (0x88DFFE56, 22, Width::W),
    (0xF8008441, 2, Width::X),
    (0xA8810041, 2, Width::X),
];

/// What they read; number 31 is sp.
const READS: [(u32, u8, Width); 107] = [
    (0x91000420, 1, Width::X),
    (0x910003FF, 31, Width::X),
    (0x110003FF, 31, Width::W),
    (0xF100043F, 1, Width::X),
    (0xF10003FF, 31, Width::X),
    (0x92401C3F, 1, Width::X),
    (0xF2401C3F, 1, Width::X),
    (0xF28000E5, 5, Width::X),
    (0xD3441C20, 1, Width::X),
    (0x33041C20, 0, Width::W),
    (0x33041C20, 1, Width::W),
    (0x93407C3F, 1, Width::X),
    (0xAA020020, 1, Width::X),
    (0xAA020020, 2, Width::X),
    (0x2A0003F6, 0, Width::W),
    (0x8B020020, 1, Width::X),
    (0x8B020020, 2, Width::X),
    (0x8B0203FF, 2, Width::X),
    (0x8B2042B2, 0, Width::W),
    (0x8B2042B2, 21, Width::X),
    (0x8B3662BF, 21, Width::X),
    (0x8B3662BF, 22, Width::X),
    (0x0B3662BF, 21, Width::W),
    (0x0B3662BF, 22, Width::W),
    (0xAB3FE3FF, 31, Width::X),
    (0x8B21E3E0, 1, Width::X),
    (0x8B21E3E0, 31, Width::X),
    (0x8B21C3E0, 1, Width::W),
    (0x8B21C3E0, 31, Width::X),
    (0xFA421020, 1, Width::X),
    (0xFA421020, 2, Width::X),
    (0xFA421820, 1, Width::X),
    (0x9A821020, 1, Width::X),
    (0x9A821020, 2, Width::X),
    (0x1AC20820, 1, Width::W),
    (0x1AC20820, 2, Width::W),
    (0xDAC01020, 1, Width::X),
    (0x9B020C20, 1, Width::X),
    (0x9B020C20, 2, Width::X),
    (0x9B020C20, 3, Width::X),
    (0x1B020C3F, 1, Width::W),
    (0x1B020C3F, 2, Width::W),
    (0x1B020C3F, 3, Width::W),
    (0x9BC27C20, 1, Width::X),
    (0x9BC27C20, 2, Width::X),
    (0xB4000020, 0, Width::X),
    (0x36F80020, 0, Width::W),
    (0xB6000020, 0, Width::X),
    (0xD61F0240, 18, Width::X),
    (0xD63F03C0, 30, Width::X),
    (0xD65F03C0, 30, Width::X),
    (0xF9400256, 18, Width::X),
    (0xB9400256, 18, Width::X),
    (0x39400256, 18, Width::X),
    (0xB9800256, 18, Width::X),
    (0x39C00256, 18, Width::X),
    (0x39800256, 18, Width::X),
    (0x79C00256, 18, Width::X),
    (0xF9000256, 18, Width::X),
    (0xF9000256, 22, Width::X),
    (0x39000256, 18, Width::X),
    (0x39000256, 22, Width::W),
    (0xB90003FF, 31, Width::X),
    (0xF94003FF, 31, Width::X),
    (0xF85007E0, 31, Width::X),
    (0xF81F0FFE, 30, Width::X),
    (0xF81F0FFE, 31, Width::X),
    (0xF8400C41, 2, Width::X),
    (0xF8400041, 2, Width::X),
    (0xF8614AA0, 1, Width::W),
    (0xF8614AA0, 21, Width::X),
    (0xB8216BE0, 0, Width::W),
    (0xB8216BE0, 1, Width::X),
    (0xB8216BE0, 31, Width::X),
    (0xF87FCBE0, 31, Width::X),
    (0xF861EBE0, 1, Width::X),
    (0xF861EBE0, 31, Width::X),
    (0xA8C17BFD, 31, Width::X),
    (0xA9BF7BFD, 29, Width::X),
    (0xA9BF7BFD, 30, Width::X),
    (0xA9BF7BFD, 31, Width::X),
    (0x29400440, 2, Width::X),
    (0x290007E0, 0, Width::W),
    (0x290007E0, 1, Width::W),
    (0x290007E0, 31, Width::X),
    (0xA9407C40, 2, Width::X),
    (0xA90003E0, 0, Width::X),
    (0xA90003E0, 31, Width::X),
    (0xC8DFFE40, 18, Width::X),
    (0x88DFFE56, 18, Width::X),
    (0x08DFFFFF, 31, Width::X),
    (0xC89FFFE0, 0, Width::X),
    (0xC89FFFE0, 31, Width::X),
    (0x489FFC83, 3, Width::W),
    (0x489FFC83, 4, Width::X),
    (0xF8000041, 1, Width::X),
    (0xF8000041, 2, Width::X),
    (0x78000041, 1, Width::W),
    (0x78000041, 2, Width::X),
    (0xF8008441, 1, Width::X),
    (0xF8008441, 2, Width::X),
    (0xF8236841, 1, Width::X),
    (0xF8236841, 2, Width::X),
    (0xF8236841, 3, Width::X),
    (0xA8810041, 0, Width::X),
    (0xA8810041, 1, Width::X),
    (0xA8810041, 2, Width::X),
];

fn expected(uses: &[(u32, u8, Width)], word: u32, number: u8) -> Option<Width> {
    for (user, used, width) in uses {
        if *user == word && *used == number {
            return Some(*width);
        }
    }
    None
}

fn width_at(set: &RegisterSet, number: u8) -> Option<Width> {
    if number < 31 {
        set.register(number)
    } else {
        set.sp()
    }
}

/// The first register of a word's set that isn't used as these uses say.
fn first_other(set: &RegisterSet, uses: &[(u32, u8, Width)], word: u32) -> Option<u8> {
    for number in 0u8..32 {
        if width_at(set, number) != expected(uses, word, number) {
            return Some(number);
        }
    }
    None
}

#[test]
fn writes_registers(rt: HostRuntime) {
    for word in &WORDS {
        let found = match decode(*word, Profile::Two) {
            Some(instruction) => first_other(&writes(&instruction), &WRITES, *word),
            None => Some(32),
        };
        assert!(rt; found == None, "{word:#x} at {found:?}");
    }
}

#[test]
fn reads_registers(rt: HostRuntime) {
    for word in &WORDS {
        let found = match decode(*word, Profile::Two) {
            Some(instruction) => first_other(&reads(&instruction), &READS, *word),
            None => Some(32),
        };
        assert!(rt; found == None, "{word:#x} at {found:?}");
    }
}

/// A word, and the address that it accesses.
struct AccessRow {
    word: u32,
    base: u8,
    form: Form,
    offset: i64,
    bytes: u32,
}

const ACCESSES: [AccessRow; 20] = [
    AccessRow {
        word: 0xF9400240,
        base: 18,
        form: Form::Offset,
        offset: 0,
        bytes: 8,
    },
    AccessRow {
        word: 0xF97FFE40,
        base: 18,
        form: Form::Offset,
        offset: 32760,
        bytes: 8,
    },
    AccessRow {
        word: 0x397FFE40,
        base: 18,
        form: Form::Offset,
        offset: 4095,
        bytes: 1,
    },
    AccessRow {
        word: 0x797FFE40,
        base: 18,
        form: Form::Offset,
        offset: 8190,
        bytes: 2,
    },
    AccessRow {
        word: 0xB97FFE40,
        base: 18,
        form: Form::Offset,
        offset: 16380,
        bytes: 4,
    },
    AccessRow {
        word: 0xF8500240,
        base: 18,
        form: Form::Offset,
        offset: -256,
        bytes: 8,
    },
    AccessRow {
        word: 0x384FF240,
        base: 18,
        form: Form::Offset,
        offset: 255,
        bytes: 1,
    },
    AccessRow {
        word: 0xF85007E0,
        base: 31,
        form: Form::PostIndex,
        offset: -256,
        bytes: 8,
    },
    AccessRow {
        word: 0xF81F0FFE,
        base: 31,
        form: Form::PreIndex,
        offset: -16,
        bytes: 8,
    },
    AccessRow {
        word: 0xA97FFFE0,
        base: 31,
        form: Form::Offset,
        offset: -8,
        bytes: 16,
    },
    AccessRow {
        word: 0xA95F83E1,
        base: 31,
        form: Form::Offset,
        offset: 504,
        bytes: 16,
    },
    AccessRow {
        word: 0xA96007E0,
        base: 31,
        form: Form::Offset,
        offset: -512,
        bytes: 16,
    },
    AccessRow {
        word: 0x296007E0,
        base: 31,
        form: Form::Offset,
        offset: -256,
        bytes: 8,
    },
    AccessRow {
        word: 0x295F87E0,
        base: 31,
        form: Form::Offset,
        offset: 252,
        bytes: 8,
    },
    AccessRow {
        word: 0xA8C17BFD,
        base: 31,
        form: Form::PostIndex,
        offset: 16,
        bytes: 16,
    },
    AccessRow {
        word: 0xA9BF7BFD,
        base: 31,
        form: Form::PreIndex,
        offset: -16,
        bytes: 16,
    },
    AccessRow {
        word: 0xC8DFFE40,
        base: 18,
        form: Form::Offset,
        offset: 0,
        bytes: 8,
    },
    AccessRow {
        word: 0x88DFFE56,
        base: 18,
        form: Form::Offset,
        offset: 0,
        bytes: 4,
    },
    AccessRow {
        word: 0x489FFC83,
        base: 4,
        form: Form::Offset,
        offset: 0,
        bytes: 2,
    },
    AccessRow {
        word: 0x08DFFFFF,
        base: 31,
        form: Form::Offset,
        offset: 0,
        bytes: 1,
    },
];

/// The address that the instruction of a word accesses.
fn address_by(word: u32) -> Option<Address> {
    address_of(&decode(word, Profile::Two)?)
}

fn is_accessed(access: &AccessRow) -> bool {
    match address_by(access.word) {
        Some(address) => {
            address.base.number() == access.base
                && address.form == access.form
                && address.offset == access.offset
                && address.bytes == access.bytes
        }
        None => false,
    }
}

#[test]
fn addresses(rt: HostRuntime) {
    for access in &ACCESSES {
        assert!(rt; is_accessed(access), "{:#x}", access.word);
    }
}

/// LDR X0, [X21, W1, UXTW #3] has an index; NOP has no address.
#[test]
fn addresses_of_an_index(rt: HostRuntime) {
    let index = Form::Index {
        register: Register::new(1),
        extend: IndexExtend::Uxtw,
        scaled: true,
    };
    let form = match address_by(0xF8615AA0) {
        Some(address) => address.form,
        None => Form::Offset,
    };
    assert!(rt; form == index);
    assert!(rt; address_by(0xD503201F).is_none());
}

/// A word, its place, and the place where it branches.
const TARGETS: [(u32, u32, Option<i64>); 11] = [
    (0x14000001, 5, Some(6)),
    (0x17FFFFFF, 0, Some(-1)),
    (0x95FFFFFF, 1, Some(33554432)),
    (0x16000000, 0, Some(-33554432)),
    (0x547FFFEE, 0, Some(262143)),
    (0x54800000, 0, Some(-262144)),
    (0xB4FFFFE0, 7, Some(6)),
    (0x3603FFE0, 0, Some(8191)),
    (0x37040000, 8192, Some(0)),
    (0xD65F03C0, 3, None),
    (0xD503201F, 3, None),
];

#[test]
fn targets(rt: HostRuntime) {
    for (word, place, to) in &TARGETS {
        let found = match decode(*word, Profile::Two) {
            Some(instruction) => target(&instruction, *place) == *to,
            None => false,
        };
        assert!(rt; found, "{word:#x}");
    }
}
