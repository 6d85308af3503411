//! Where branches lead, and what they link.
use crate::semantics::rows::{after, registers_of};

/// A word at 0x10000; what x0 holds and the flags before; pc and x30 after. Before, x1 is 0x12345678 and x30 is 0x500.
type Branched = (u32, u64, u8, u64, u64);

const BRANCHES: [Branched; 41] = [
    (0x14000002, 0, 0, 0x10008, 0x500), // B #8
    (0x17FFFFFF, 0, 0, 0xFFFC, 0x500), // B #-4
    (0x15FFFFFF, 0, 0, 0x800FFFC, 0x500), // B #134217724
    (0x16000000, 0, 0, 0xFFFFFFFFF8010000, 0x500), // B #-134217728
    (0x94000002, 0, 0, 0x10008, 0x10004), // BL #8
    (0x54000040, 0, 4, 0x10008, 0x500), // B.EQ #8
    (0x54000040, 0, 11, 0x10004, 0x500), // B.EQ #8
    (0x54FFFFC1, 0, 11, 0xFFF8, 0x500), // B.NE #-8
    (0x54FFFFC1, 0, 4, 0x10004, 0x500), // B.NE #-8
    (0x5400000E, 0, 15, 0x10000, 0x500), // B.AL #0
    (0xB4000040, 0, 0, 0x10008, 0x500), // CBZ X0, #8
    (0xB4000040, 0x100000000, 0, 0x10004, 0x500), // CBZ X0, #8
    (0x34000040, 0x100000000, 0, 0x10008, 0x500), // CBZ W0, #8
    (0x34000040, 1, 0, 0x10004, 0x500), // CBZ W0, #8
    (0xB5000040, 0, 0, 0x10004, 0x500), // CBNZ X0, #8
    (0xB5000040, 0x100000000, 0, 0x10008, 0x500), // CBNZ X0, #8
    (0x35000040, 0x100000000, 0, 0x10004, 0x500), // CBNZ W0, #8
    (0x35000040, 1, 0, 0x10008, 0x500), // CBNZ W0, #8
    (0xB6F80040, 0x7FFFFFFFFFFFFFFF, 0, 0x10008, 0x500), // TBZ X0, #63, #8
    (0xB6F80040, 0x8000000000000000, 0, 0x10004, 0x500), // TBZ X0, #63, #8
    (0xB7F80040, 0x7FFFFFFFFFFFFFFF, 0, 0x10004, 0x500), // TBNZ X0, #63, #8
    (0xB7F80040, 0x8000000000000000, 0, 0x10008, 0x500), // TBNZ X0, #63, #8
    (0x36000040, 0, 0, 0x10008, 0x500), // TBZ W0, #0, #8
    (0x36000040, 1, 0, 0x10004, 0x500), // TBZ W0, #0, #8
    (0x36000040, 2, 0, 0x10008, 0x500), // TBZ W0, #0, #8
    (0x37FFFFC0, 0x7FFFFFFF, 0, 0x10004, 0x500), // TBNZ W0, #31, #-8
    (0x37FFFFC0, 0x80000000, 0, 0xFFF8, 0x500), // TBNZ W0, #31, #-8
    (0xD61F0020, 0, 0, 0x12345678, 0x500), // BR X1
    (0xD63F0020, 0, 0, 0x12345678, 0x10004), // BLR X1
    (0xD63F03C0, 0, 0, 0x500, 0x10004), // BLR X30
    (0xD65F03C0, 0, 0, 0x500, 0x500), // RET
    (0xD61F03E0, 0, 0, 0, 0x500), // BR XZR
    (0xD63F03E0, 0, 0, 0, 0x10004), // BLR XZR
    (0xD65F03E0, 0, 0, 0, 0x500), // RET XZR
    (0xB400005F, 0, 0, 0x10008, 0x500), // CBZ XZR, #8
    (0x3500005F, 0, 0, 0x10004, 0x500), // CBNZ WZR, #8
    (0x3660005F, 0, 0, 0x10008, 0x500), // TBZ WZR, #12, #8
    (0x3760005F, 0, 0, 0x10004, 0x500), // TBNZ WZR, #12, #8
    (0xD503201F, 0, 0, 0x10004, 0x500), // NOP
    (0xD4200020, 0, 0, 0x10004, 0x500), // BRK #1
    (0x54000041, 0, 0, 0x10008, 0x500), // B.NE #8
];

fn is_right(row: &Branched) -> bool {
    let (word, x0, nzcv, pc, x30) = *row;
    let mut before = registers_of(x0, 0x12345678, 0, 0, nzcv);
    before.x[30] = 0x500;
    match after(word, &before) {
        Some(registers) => {
            registers.pc == pc
                && registers.x[30] == x30
                && registers.x[0] == x0
                && registers.nzcv == nzcv
        }
        None => false,
    }
}

#[test]
fn branches(rt: HostRuntime) {
    for row in &BRANCHES {
        assert!(rt; is_right(row), "{:#x}", row.0);
    }
}
