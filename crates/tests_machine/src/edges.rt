//! The edges of the map, a byte at a time, and those of the registers at the start.

use crate::host::{Outcome, denied, image_in, run, start, started};
use lfi_machine::{Halt, Machine, StartFault, StopCause, start_registers};
use lfi_module::{ModuleNumber, Profile};
use std::alloc::Global;
use std::test::Fail;

/// The base of slot 0.
const BASE: u64 = 0x1_0000_0000;

/// The end of slot 0.
const END: u64 = 0x2_0000_0000;

/// What x18 holds, how far from it one byte is accessed, and whether it may be loaded and stored. The module has one word, so
/// its code ends at 65,540, and what may be written begins at 69,632.
type Edge = (u64, u32, bool, bool);

const EDGES: [Edge; 14] = [
    (BASE, 0x1FF, false, false), // the last byte of the guard below
    (BASE, 0, true, false), // the first of the table
    (BASE + 4095, 0, true, false), // its last
    (BASE + 4096, 0, false, false), // the first between table and code
    (BASE + 65535, 0, false, false), // the last there
    (BASE + 65536, 0, true, false), // the first of the code
    (BASE + 65539, 0, true, false), // its last
    (BASE + 65540, 0, true, false), // the first of the zeros after it
    (BASE + 69631, 0, true, false), // their last
    (BASE + 69632, 0, true, true), // the first of the data
    (END - 1, 0, true, true), // its last
    (END - 1, 1, false, false), // the first of the guard above
    (END - 1, 255, false, false), // one further in it
    (BASE, 0x100, false, false), // 256 bytes below the slot
];

/// Whether a byte is loaded and stored where it may be, and not where not: LDURB W0 or STURB W0 at x18 and an offset.
fn is_edge(alloc: Global, edge: &Edge) -> Result<bool, Fail> {
    let (x18, offset, loads, stores) = *edge;
    let at = if offset < 256 {
        x18.wrapping_add(u64::from(offset))
    } else {
        x18.wrapping_sub(512).wrapping_add(u64::from(offset))
    };
    let offset = (offset % 512) << 12;
    let load = denied(alloc, Profile::One, 0x38400240 | offset, x18)?;
    let store = denied(alloc, Profile::One, 0x38000240 | offset, x18)?;
    let is_done = [load.is_none(), store.is_none()] == [loads, stores];
    Ok(is_done && [load.unwrap_or(at), store.unwrap_or(at)] == [at, at])
}

/// The place of the first edge that is elsewhere.
fn first_elsewhere(alloc: Global, edges: &[Edge]) -> Result<Option<usize>, Fail> {
    for (place, edge) in edges.iter().enumerate() {
        if !is_edge(alloc, edge)? {
            return Ok(Some(place));
        }
    }
    Ok(None)
}

#[test]
fn edges_of_the_map(rt: HostRuntime) -> Result<(), Fail> {
    let wrong = first_elsewhere(rt.alloc(), &EDGES)?;
    assert!(rt; wrong.is_none(), "row {wrong:?}");
    Ok(())
}

/// Eight bytes across an edge: the word, what x18 holds, and the least address of a byte that is denied, if one is.
type Across = (u32, u64, Option<u64>);

const ACROSS: [Across; 9] = [
    (0xF9400240, BASE + 4089, Some(BASE + 4096)),
    (0xF9400240, BASE + 65529, Some(BASE + 65529)),
    (0xF9000240, BASE + 69625, Some(BASE + 69625)),
    (0xF9000240, END - 7, Some(END)),
    (0xF9400240, END - 7, Some(END)),
    (0xA9400640, END - 8, Some(END)),
    (0xA9000640, END - 8, Some(END)),
    (0xF85FF240, BASE, Some(BASE - 1)),
    (0xF9400240, BASE + 69625, None),
];

/// The first access that is denied elsewhere.
fn first_other_across(alloc: Global) -> Result<Option<Across>, Fail> {
    for row in &ACROSS {
        let (word, x18, at) = *row;
        if denied(alloc, Profile::One, word, x18)? != at {
            return Ok(Some(*row));
        }
    }
    Ok(None)
}

#[test]
fn accesses_across_an_edge(rt: HostRuntime) -> Result<(), Fail> {
    let other = first_other_across(rt.alloc())?;
    assert!(rt; other.is_none(), "row {other:?}");
    Ok(())
}

/// Runs STR X0, [SP, #-4]!, with sp four bytes past the first data. Gives what it came to, and the byte at sp then.
fn denied_store(alloc: Global) -> Result<(Outcome, Option<u8>), Fail> {
    let changes = [(0, u64::MAX), (31, BASE + 69632)];
    let mut machine = started(alloc, Profile::One, &[0xF81FCFE0], &changes)?;
    let ran = run(&mut machine, 1000);
    Ok((ran, machine.slot().read(BASE + 69632)))
}

/// A denied access changes neither sp nor memory.
#[test]
fn a_denied_access_changes_nothing(rt: HostRuntime) -> Result<(), Fail> {
    let (ran, byte) = denied_store(rt.alloc())?;
    let seen = [ran.count, ran.after.sp, ran.after.pc];
    let kept = seen == [0, BASE + 69632, BASE + 65536] && byte == Some(0);
    assert!(rt; kept && ran.halt == Halt::Stopped(StopCause::NoAccess(BASE + 69628)));
    Ok(())
}

/// Whether an image of three words starts at its last one from the registers that it should, in the slot at this base.
fn starts(alloc: Global, slot: ModuleNumber, base: u64) -> Result<bool, Fail> {
    let image = image_in(alloc, slot, 2, &[0xD503201F, 0xD503201F, 0xD65F03C0])?;
    let registers = start_registers(&image);
    let mut wanted = [0; 31];
    wanted[18] = base;
    wanted[21] = base;
    wanted[23] = base;
    wanted[24] = base;
    wanted[30] = base;
    let seen = [registers.sp, registers.pc, u64::from(registers.nzcv)];
    let others = [base.wrapping_add(1 << 32), base.wrapping_add(65536 + 8), 0];
    Ok(registers.x == wanted && seen == others)
}

/// The registers that an image starts from, in the first slot and in the last.
#[test]
fn registers_of_the_start(rt: HostRuntime) -> Result<(), Fail> {
    let first = starts(rt.alloc(), ModuleNumber::at(0), BASE)?;
    let last = starts(rt.alloc(), ModuleNumber::at(15), 0x1F_0000_0000)?;
    assert!(rt; first && last);
    Ok(())
}

/// A register, 31 for sp, 32 for pc and 33 for the flags; its value; and what is refused, if anything.
type Held = (usize, u64, Option<StartFault>);

const HELD: [Held; 27] = [
    (21, BASE - 1, Some(StartFault::Base)),
    (21, BASE + 1, Some(StartFault::Base)),
    (18, BASE - 1, Some(StartFault::Address)),
    (18, END, Some(StartFault::Address)),
    (18, END - 1, None),
    (23, BASE - 1, Some(StartFault::Address)),
    (23, END, Some(StartFault::Address)),
    (23, END - 1, None),
    (24, BASE - 1, Some(StartFault::Address)),
    (24, END, Some(StartFault::Address)),
    (24, END - 1, None),
    (30, BASE - 1, Some(StartFault::Address)),
    (30, END, Some(StartFault::Address)),
    (30, END - 1, None),
    (22, 1 << 32, Some(StartFault::Offset)),
    (22, 0xFFFF_FFFF, None),
    (31, BASE - 513, Some(StartFault::Stack)),
    (31, BASE - 512, None),
    (31, END + 512, Some(StartFault::Stack)),
    (31, END + 511, None),
    (32, BASE - 1, Some(StartFault::Pc)),
    (32, BASE, None),
    (32, END, Some(StartFault::Pc)),
    (32, END - 1, None),
    (33, 16, Some(StartFault::Flags)),
    (33, 15, None),
    (0, u64::MAX, None),
];

/// Why registers that are changed so are refused, if they are.
fn refusal(alloc: Global, changes: &[(usize, u64)]) -> Result<Option<StartFault>, Fail> {
    let (image, registers) = start(alloc, Profile::One, &[0xD503201F], changes)?;
    Ok(Machine::new(alloc, image, registers).err())
}

/// The place of the first row of registers that are refused for another reason, or taken or refused as they shouldn't be.
fn first_otherwise(alloc: Global, rows: &[Held]) -> Result<Option<usize>, Fail> {
    for (number, row) in rows.iter().enumerate() {
        let (place, value, fault) = *row;
        if refusal(alloc, &[(place, value)])? != fault {
            return Ok(Some(number));
        }
    }
    Ok(None)
}

#[test]
fn registers_one_past_their_range(rt: HostRuntime) -> Result<(), Fail> {
    let wrong = first_otherwise(rt.alloc(), &HELD)?;
    assert!(rt; wrong.is_none(), "row {wrong:?}");
    Ok(())
}

/// Registers that hold one value too high each, in the order in which they are asked for, and what is refused of each.
const IN_ORDER: [(usize, u64, StartFault); 6] = [
    (21, 0, StartFault::Base),
    (18, END, StartFault::Address),
    (22, 1 << 32, StartFault::Offset),
    (31, END + 512, StartFault::Stack),
    (32, END, StartFault::Pc),
    (33, 16, StartFault::Flags),
];

/// Of several reasons the first counts.
#[test]
fn first_reason(rt: HostRuntime) -> Result<(), Fail> {
    for (place, value, fault) in IN_ORDER {
        for (other, there, later) in IN_ORDER {
            let refused = refusal(rt.alloc(), &[(place, value), (other, there)])?;
            let first = if fault.number() < later.number() {
                fault
            } else {
                later
            };
            assert!(rt; refused == Some(first), "{place} {other}");
        }
    }
    Ok(())
}
