//! A row of a table, and whether it is right.
use crate::semantics::{bits, choices, products, sums};
use a64_effects::address_of;
use a64_semantics::{Registers, perform};
use a64_word::decode;
use lfi_module::Profile;

/// A word; what x1, x2, and x0 and x3 hold before; the flags before; what x0 holds after, and the flags after. The values
/// were computed outside of this repository, by the Arm manual's pseudocode over lists of bits.
pub type Row = (u32, [u64; 3], u8, u64, u8);

/// Registers that hold these values in x0, x1, x2 and x3.
pub fn registers_of(x0: u64, x1: u64, x2: u64, x3: u64, nzcv: u8) -> Registers {
    let mut x = [0; 31];
    x[0] = x0;
    x[1] = x1;
    x[2] = x2;
    x[3] = x3;
    Registers {
        x,
        sp: 0x7000,
        pc: 0x1_0000,
        nzcv,
    }
}

/// The registers after a word that accesses no memory.
pub fn after(word: u32, before: &Registers) -> Option<Registers> {
    let instruction = decode(word, Profile::Two)?;
    if address_of(&instruction).is_some() {
        return None;
    }
    let mut registers = *before;
    perform(&mut registers, &instruction);
    Some(registers)
}

fn is_right(row: &Row) -> bool {
    let (word, [x1, x2, other], before, value, flags) = *row;
    match after(word, &registers_of(other, x1, x2, other, before)) {
        Some(after) => {
            let seen = [after.x[0], u64::from(after.nzcv), after.pc, after.sp];
            seen == [value, u64::from(flags), 0x1_0004, 0x7000]
        }
        None => false,
    }
}

/// All tables of rows.
const TABLES: [&[Row]; 12] = [
    &bits::LOGICAL,
    &bits::MASKS,
    &bits::WIDE,
    &bits::FIELDS,
    &bits::ZEROS,
    &choices::SELECTED,
    &choices::COMPARED,
    &products::QUOTIENTS_AND_SHIFTS,
    &products::PRODUCTS,
    &sums::SUMS,
    &sums::IMMEDIATES,
    &sums::EXTENDED,
];

/// The first row that is wrong.
fn first_wrong() -> Option<Row> {
    for rows in &TABLES {
        for row in *rows {
            if !is_right(row) {
                return Some(*row);
            }
        }
    }
    None
}

#[test]
fn results_and_flags(rt: HostRuntime) {
    let wrong = first_wrong();
    assert!(rt; wrong.is_none(), "row {wrong:?}");
}
