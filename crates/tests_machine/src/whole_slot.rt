//! Memory in the whole slot: it is refused nowhere but where the allocator has none.

ghost use Rattle.std.specs.Prelude.{⊤};

use crate::host::{Outcome, run, started};
use a64_semantics::Registers;
use lfi_machine::{Answer, Halt, Runtime, SlotMemory};
use lfi_module::Profile;
use std::alloc::Global;
use std::test::Fail;

/// The slot's first address.
const BASE: u64 = 0x1_0000_0000;

/// The offset of the first byte that is written.
const FIRST: u64 = 0x2_0000;

/// How far the bytes are from one another: 16 MiB.
const APART: u64 = 1 << 24;

/// STR X0, [X21, W1, UXTW]; ADD W1, W1, W2; B to the first.
const STORES: [u32; 3] = [0xF8214AA0, 0x0B020021, 0x17FFFFFE];

/// LDR X30, [X21, #8]; BLR X30.
const CALL: [u32; 2] = [0xF94006BE, 0xD63F03C0];

/// The first address, of one in each 16 MiB, at which the byte isn't 7.
fn first_otherwise(slot: &SlotMemory) -> Option<u64> {
    for number in 0..256u64 {
        let at = BASE + FIRST + APART * number;
        if slot.read(at) != Some(7) {
            return Some(at);
        }
    }
    None
}

/// Stores 7 in each 16 MiB. Gives what that came to, and the first address that is otherwise.
fn stored(alloc: Global) -> Result<(Outcome, Option<u64>), Fail> {
    let changes = [(0, 7), (1, FIRST), (2, APART)];
    let mut machine = started(alloc, Profile::One, &STORES, &changes)?;
    let ran = run(&mut machine, 3 * 256);
    Ok((ran, first_otherwise(machine.slot())))
}

/// Code stores in each 16 MiB of the slot.
#[test]
fn stores_in_each_16_mib(rt: HostRuntime) -> Result<(), Fail> {
    let (ran, other) = stored(rt.alloc())?;
    assert!(rt; ran.halt == Halt::StepsUsed && ran.count == 768);
    assert!(rt; other.is_none(), "{other:?}");
    Ok(())
}

/// Writes 7 in each 16 MiB.
#[derive(Drop)]
struct Filler {
    /// The first address at which the write was refused.
    refused: Option<u64>,
}

impl Runtime for Filler {
    ghost answers = { λ _ _ _ _ _ _ _. ⊤ };

    fn call(&mut self, _entry: u32, registers: &Registers, slot: &mut SlotMemory) -> Answer {
        for number in 0..256u64 {
            let at = BASE + FIRST + APART * number;
            if slot.write(at, 7).is_err() && self.refused.is_none() {
                self.refused = Some(at);
            }
        }
        Answer::Resume(*registers)
    }
}

/// Has the runtime write in each 16 MiB. Gives the first address that was refused, and the first that is otherwise.
fn filled(alloc: Global) -> Result<[Option<u64>; 2], Fail> {
    let mut machine = started(alloc, Profile::One, &CALL, &[])?;
    let mut filler = Filler { refused: None };
    machine.run(2, &mut filler);
    Ok([filler.refused, first_otherwise(machine.slot())])
}

/// The runtime writes in each 16 MiB of the slot.
#[test]
fn the_runtime_writes_in_each_16_mib(rt: HostRuntime) -> Result<(), Fail> {
    let wrong = filled(rt.alloc())?;
    assert!(rt; wrong == [None, None], "{wrong:?}");
    Ok(())
}
