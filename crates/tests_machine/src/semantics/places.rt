//! Where results go, and that nothing else is changed; ADR and ADRP.
use crate::semantics::rows::{after, registers_of};
use a64_semantics::Registers;

/// A word at 0x10000; the register that it writes, 31 for sp and 32 for none; its value and the flags after. Before, x1 is
/// 0xFFFFFFFF00000010, x2 is 0x20, sp is 0x7000 and the flags are 15.
pub type Placed = (u32, usize, u64, u8);

const PLACED: [Placed; 27] = [
    (0x9100043F, 31, 0xFFFFFFFF00000011, 15), // ADD SP, X1, #1
    (0x1100043F, 31, 0x11, 15), // ADD WSP, W1, #1
    (0xD10043FF, 31, 0x6FF0, 15), // SUB SP, SP, #16
    (0x92401C3F, 31, 0x10, 15), // AND SP, X1, #0xFF
    (0x320003FF, 31, 1, 15), // ORR WSP, WZR, #1
    (0x8B22603F, 31, 0xFFFFFFFF00000030, 15), // ADD SP, X1, X2, UXTX
    (0x910003E0, 0, 0x7000, 15), // MOV X0, SP
    (0x8B2163E0, 0, 0xFFFFFFFF00007010, 15), // ADD X0, SP, X1
    (0x8B1F0020, 0, 0xFFFFFFFF00000010, 15), // ADD X0, X1, XZR
    (0x2A0103FE, 30, 0x10, 15), // MOV W30, W1
    (0x728000A1, 1, 5, 15), // MOVK W1, #5
    (0x10000000, 0, 0x10000, 15), // ADR X0, #0
    (0x70FFFFE0, 0, 0xFFFF, 15), // ADR X0, #-1
    (0x707FFFE0, 0, 0x10FFFF, 15), // ADR X0, #1048575
    (0x10800000, 0, 0xFFFFFFFFFFF10000, 15), // ADR X0, #-1048576
    (0xB0000000, 0, 0x11000, 15), // ADRP X0, #4096
    (0xF0FFFFE0, 0, 0xF000, 15), // ADRP X0, #-4096
    (0x9000001E, 30, 0x10000, 15), // ADRP X30, #0
    (0xB100043F, 32, 0, 8), // ADDS XZR, X1, #1
    (0xF10003FF, 32, 0, 2), // SUBS XZR, SP, #0
    (0xF2401C3F, 32, 0, 0), // ANDS XZR, X1, #0xFF
    (0x8B02003F, 32, 0, 15), // ADD XZR, X1, X2
    (0x1000003F, 32, 0, 15), // ADR XZR, #4
    (0x9A82003F, 32, 0, 15), // CSEL XZR, X1, X2, EQ
    (0xFA420020, 32, 0, 10), // CCMP X1, X2, #0, EQ
    (0xD503201F, 32, 0, 15), // NOP
    (0xDAC0103F, 32, 0, 15), // CLZ XZR, X1
];

fn before() -> Registers {
    registers_of(0, 0xFFFFFFFF00000010, 0x20, 3, 15)
}

pub fn is_right(row: &Placed) -> bool {
    let (word, place, value, nzcv) = *row;
    let mut wanted = before();
    if place < 31 {
        wanted.x[place] = value;
    } else if place == 31 {
        wanted.sp = value;
    }
    let Some(registers) = after(word, &before()) else {
        return false;
    };
    registers.x == wanted.x
        && registers.sp == wanted.sp
        && registers.nzcv == nzcv
        && registers.pc == 0x1_0004
}

#[test]
fn places(rt: HostRuntime) {
    for row in &PLACED {
        assert!(rt; is_right(row), "{:#x}", row.0);
    }
}

/// ADRP counts from the page of pc, and pc goes on from the last address to 0.
#[test]
fn page_of_pc(rt: HostRuntime) {
    let mut before = before();
    before.pc = 0xFFFF_FFFF_FFFF_FFFC;
    let after = after(0x9000_001E, &before).unwrap_or(before);
    assert!(rt; after.x[30] == 0xFFFF_FFFF_FFFF_F000);
    assert!(rt; after.pc == 0);
}
