//! Probes that come late, with sp at both ends of its range, run in the machine by the second profile.

use crate::host::ran;
use lfi_machine::{Halt, StopCause};
use lfi_module::Profile;
use std::alloc::Global;
use std::test::Fail;

/// The base of slot 0.
const BASE: u64 = 0x1_0000_0000;

/// The end of slot 0.
const END: u64 = 0x2_0000_0000;

/// NOP.
const NOP: u32 = 0xD503_201F;

/// STR X0, [SP].
const STORE: u32 = 0xF900_03E0;

/// LDR X0, [SP].
const LOAD: u32 = 0xF940_03E0;

/// ADD SP, SP, #4095.
const UP: u32 = 0x913F_FFFF;

/// SUB SP, SP, #4095.
const DOWN: u32 = 0xD13F_FFFF;

/// SUB SP, SP, #16.
const DOWN_16: u32 = 0xD100_43FF;

/// Five words, sp at the start, and how they end after how many steps.
type Row = ([u32; 5], u64, StopCause, u64);

const ROWS: [Row; 8] = [
    (
        [DOWN, NOP, NOP, NOP, STORE],
        BASE - 512,
        StopCause::NoAccess(BASE - 4607),
        4,
    ),
    (
        [UP, NOP, NOP, NOP, STORE],
        END + 511,
        StopCause::NoAccess(END + 4606),
        4,
    ),
    (
        [DOWN, NOP, NOP, NOP, LOAD],
        BASE + 4606,
        StopCause::NoFetch(BASE + 65556),
        5,
    ),
    (
        [UP, NOP, NOP, LOAD, NOP],
        END - 4096,
        StopCause::NoAccess(END),
        3,
    ),
    (
        [DOWN, STORE, NOP, NOP, NOP],
        BASE + 73726,
        StopCause::NoAccess(BASE + 69631),
        1,
    ),
    (
        [DOWN_16, NOP, STORE, NOP, NOP],
        END + 9,
        StopCause::NoAccess(END),
        2,
    ),
    (
        [DOWN_16, NOP, NOP, NOP, STORE],
        END + 8,
        StopCause::NoFetch(BASE + 65556),
        5,
    ),
    (
        [DOWN_16, NOP, NOP, NOP, STORE],
        BASE + 69648,
        StopCause::NoFetch(BASE + 65556),
        5,
    ),
];

/// The place of the first row that ends otherwise, run from the start with its sp.
fn first_otherwise(alloc: Global, rows: &[Row]) -> Result<Option<usize>, Fail> {
    for (place, row) in rows.iter().enumerate() {
        let ran = ran(alloc, Profile::Two, &row.0, &[(31, row.1)], 9)?;
        if ran.halt != Halt::Stopped(row.2) || ran.count != row.3 {
            return Ok(Some(place));
        }
    }
    Ok(None)
}

#[test]
fn at_both_ends_of_the_stack(rt: HostRuntime) -> Result<(), Fail> {
    let wrong = first_otherwise(rt.alloc(), &ROWS)?;
    assert!(rt; wrong.is_none());
    Ok(())
}
