//! Runs from the registers of the start.

use crate::host::{
    Host, Outcome, Wide, Writer, image, image_in, ran, run, run_image, started, with,
};
use lfi_machine::{DataFault, Halt, Machine, SlotMemory, StartFault, StopCause, start_registers};
use lfi_module::{ModuleNumber, Profile};
use std::alloc::Global;
use std::process::Abort;
use std::test::Fail;

/// The first word's address in slot 0.
const CODE: u64 = 0x1_0001_0000;

/// A run of a module's words from the registers of the start, but for these by their places: 31 is sp.
#[derive(Clone, Copy)]
struct Run {
    profile: Profile,
    words: &'static [u32],
    /// What one register holds before, by its place.
    change: Option<(usize, u64)>,
    /// Why it stops, and after how many steps.
    cause: StopCause,
    count: u64,
    /// What up to two registers then hold, by their places.
    after: [Option<(usize, u64)>; 2],
}

const RUNS: [Run; 10] = [
    // SUB SP, SP, #16; STR X0, [SP]: the stack is moved, and probed.
    Run {
        profile: Profile::One,
        words: &PROBE,
        change: None,
        cause: StopCause::NoFetch(CODE + 8),
        count: 2,
        after: [Some((31, 0x1_FFFF_FFF0)), None],
    },
    // MOVZ X0, #7; LDR X30, [X21]; BLR X30: it ends with a status.
    Run {
        profile: Profile::One,
        words: &[0xD28000E0, 0xF94002BE, 0xD63F03C0],
        change: None,
        cause: StopCause::Ended(7),
        count: 2,
        after: [None, None],
    },
    // SUB SP, SP, #0; STR X0, [SP]: it stops above the slot.
    Run {
        profile: Profile::One,
        words: &[0xD10003FF, 0xF90003E0],
        change: None,
        cause: StopCause::NoAccess(0x2_0000_0000),
        count: 1,
        after: [None, None],
    },
    // B to word 2; LDR X30, [X21, #8]; BLR X30: it jumps past the load of an entry.
    Run {
        profile: Profile::One,
        words: &[0x14000002, 0xF94006BE, 0xD63F03C0],
        change: None,
        cause: StopCause::NoFetch(0x1_0000_0000),
        count: 2,
        after: [Some((30, CODE + 12)), None],
    },
    // LDR X30, [X21, #8]; BLR X30: a call is answered.
    Run {
        profile: Profile::One,
        words: &CALL_1,
        change: None,
        cause: StopCause::NoFetch(CODE + 8),
        count: 2,
        after: [Some((0, u64::MAX)), Some((30, CODE + 8))],
    },
    // LDR X0, [SP], #-256; B #-4: it loads its own code.
    Run {
        profile: Profile::One,
        words: &[0xF85007E0, 0x17FFFFFF],
        change: Some((31, CODE)),
        cause: StopCause::NoAccess(0x1_0000_FF00),
        count: 2,
        after: [Some((0, 0x17FF_FFFF_F850_07E0)), None],
    },
    // BL to word 2; BRK #1; RET.
    Run {
        profile: Profile::One,
        words: &[0x94000002, 0xD4200020, 0xD65F03C0],
        change: None,
        cause: StopCause::Breakpoint(CODE + 4),
        count: 2,
        after: [Some((30, CODE + 4)), None],
    },
    // BLR X18; BRK #1; RET.
    Run {
        profile: Profile::One,
        words: &[0xD63F0240, 0xD4200020, 0xD65F03C0],
        change: Some((18, CODE + 8)),
        cause: StopCause::Breakpoint(CODE + 4),
        count: 2,
        after: [Some((30, CODE + 4)), None],
    },
    // LDAR X0, [X18]: it loads the table's first entry.
    Run {
        profile: Profile::Two,
        words: &[0xC8DFFE40],
        change: None,
        cause: StopCause::NoFetch(CODE + 4),
        count: 1,
        after: [Some((0, 0x0000_0100_0000_0000)), None],
    },
    // STLR X0, [X18]: it may not store there.
    Run {
        profile: Profile::Two,
        words: &[0xC89FFE40],
        change: None,
        cause: StopCause::NoAccess(0x1_0000_0000),
        count: 0,
        after: [None, None],
    },
];

/// Whether a run is so.
fn is_right(alloc: Global, run: &Run) -> Result<bool, Fail> {
    let ran = match run.change {
        Some(change) => ran(alloc, run.profile, run.words, &[change], 1000)?,
        None => ran(alloc, run.profile, run.words, &[], 1000)?,
    };
    let is_stopped = ran.halt == Halt::Stopped(run.cause) && ran.count == run.count;
    let mut wanted = ran.after;
    for held in &run.after {
        if let Some((place, value)) = *held {
            wanted = with(&wanted, place, value);
        }
    }
    Ok(is_stopped && wanted.x == ran.after.x && wanted.sp == ran.after.sp)
}

/// The place of the first run that is otherwise.
fn first_wrong(alloc: Global, runs: &[Run]) -> Result<Option<usize>, Fail> {
    for (place, run) in runs.iter().enumerate() {
        if !is_right(alloc, run)? {
            return Ok(Some(place));
        }
    }
    Ok(None)
}

#[test]
fn runs_from_the_start(rt: HostRuntime) -> Result<(), Fail> {
    let wrong = first_wrong(rt.alloc(), &RUNS)?;
    assert!(rt; wrong.is_none(), "row {wrong:?}");
    Ok(())
}

/// LDR X30, [X21]; BLR X30.
const CALL: [u32; 2] = [0xF94002BE, 0xD63F03C0];

/// LDR X30, [X21, #8]; BLR X30.
const CALL_1: [u32; 2] = [0xF94006BE, 0xD63F03C0];

/// Runs a call that is answered unlawfully. Gives how it halts, after how many steps, and x30 and pc then.
fn unlawful_answer(alloc: Global) -> Result<(Halt, [u64; 3]), Fail> {
    let mut machine = started(alloc, Profile::One, &CALL, &[])?;
    let (halt, count) = machine.run(1000, &mut Wide);
    let registers = *machine.registers();
    Ok((halt, [count, registers.x[30], registers.pc]))
}

#[test]
fn refuses_an_unlawful_answer(rt: HostRuntime) -> Result<(), Fail> {
    let (halt, seen) = unlawful_answer(rt.alloc())?;
    assert!(rt; halt == Halt::Stopped(StopCause::UnlawfulAnswer) && seen == [1, 1 << 40, CODE + 4]);
    Ok(())
}

/// Runs two words, a call that writes, and tells whether they are done. Gives a byte of the data and one of the code then.
fn written(alloc: Global, writer: &mut Writer) -> Result<(bool, [Option<u8>; 2]), Fail> {
    let mut machine = started(alloc, Profile::One, &CALL_1, &[])?;
    let ran = machine.run(2, writer);
    let slot = machine.slot();
    let bytes = [slot.read(0x1_FFFF_FFF0), slot.read(0x1_0001_0000)];
    Ok((ran == (Halt::StepsUsed, 2), bytes))
}

#[test]
fn a_runtime_writes_data_alone(rt: HostRuntime) -> Result<(), Fail> {
    let mut writer = Writer {
        answers: [Ok(()); 4],
    };
    let (is_done, bytes) = written(rt.alloc(), &mut writer)?;
    let no = Err(DataFault::NotWritable);
    assert!(rt; is_done && bytes == [Some(7), Some(0xBE)]);
    assert!(rt; writer.answers == [no, no, Ok(()), no]);
    Ok(())
}

/// LDR X0, [X21, W1, UXTW], and then no step more.
fn wide_index(alloc: Global) -> Result<[(Halt, u64); 2], Fail> {
    let mut machine = started(alloc, Profile::One, &[0xF8614AA0], &[(1, 0xFFFF_FFFF)])?;
    Ok([machine.run(1000, &mut Host), machine.run(0, &mut Host)])
}

#[test]
fn an_index_of_32_bits(rt: HostRuntime) -> Result<(), Fail> {
    let halts = wide_index(rt.alloc())?;
    let denied = Halt::Stopped(StopCause::NoAccess(0x2_0000_0000));
    assert!(rt; halts == [(denied, 0), (Halt::StepsUsed, 0)]);
    Ok(())
}

/// `count` NOPs, but word 1 is B to word 2048, that one B to word 2050, and word 2049 B to word 1.
fn jumps(alloc: Global, count: u32) -> Result<Vec<u32>, Fail> {
    let mut words = Vec::new(alloc);
    for place in 0..count {
        words.push(match place {
            1 => 0x140007FF,
            2048 => 0x14000002,
            2049 => 0x17FFF800,
            _ => 0xD503201F,
        })?;
    }
    Ok(words)
}

/// Runs 2,051 such words from the last of their three pages.
fn jumped(alloc: Global) -> Result<Outcome, Fail> {
    let words = jumps(alloc, 2051)?;
    let image = image_in(alloc, ModuleNumber::at(0), 2049, &words)?;
    let registers = start_registers(&image);
    run_image(alloc, image, registers, 1000)
}

/// A run that begins on the last of three pages, goes to the first and back, and ends past the last word.
#[test]
fn goes_from_page_to_page(rt: HostRuntime) -> Result<(), Fail> {
    let ran = jumped(rt.alloc())?;
    assert!(rt; ran.halt == Halt::Stopped(StopCause::NoFetch(CODE + 4 * 2051)) && ran.count == 4);
    Ok(())
}

/// Stores x2 at x21 and w1, counts x2 up and w1 by a page, and does so x3 times: ADD X18, X21, W1, UXTW; STR X2, [X18];
/// ADD X2, X2, #1; ADD W1, W1, #1, LSL #12; SUBS X3, X3, #1; B.NE to the first.
const ON_EACH_PAGE: [u32; 6] = [
    0x8B2142B2, 0xF9000242, 0x91000442, 0x11400421, 0xF1000463, 0x54FFFF61,
];

/// The place of the first of 302 pages, 300 of them from the middle of the slot on, that hasn't in its first bytes its number,
/// which is 0 for the page before and the one after.
fn first_page_otherwise(slot: &SlotMemory) -> Option<u64> {
    for place in 0..302u64 {
        let at = 0x1_8000_0000 - 4096 + 4096 * place;
        let number = place % 301;
        let bytes = [slot.read(at), slot.read(at + 1)];
        if bytes != [Some((number % 256) as u8), Some((number / 256) as u8)] {
            return Some(place);
        }
    }
    None
}

/// Stores so to 300 pages. Gives what that came to, and the first page that is otherwise.
fn stored(alloc: Global) -> Result<(Outcome, Option<u64>), Fail> {
    let changes = [(1, 0x8000_0000), (2, 1), (3, 300)];
    let mut machine = started(alloc, Profile::One, &ON_EACH_PAGE, &changes)?;
    let ran = run(&mut machine, 10_000);
    Ok((ran, first_page_otherwise(machine.slot())))
}

/// More pages than a byte counts, each with bytes of its own.
#[test]
fn stores_to_300_pages(rt: HostRuntime) -> Result<(), Fail> {
    let (ran, other) = stored(rt.alloc())?;
    assert!(rt; ran.halt == Halt::Stopped(StopCause::NoFetch(CODE + 24)) && ran.count == 1800);
    assert!(rt; other.is_none(), "page {other:?}");
    Ok(())
}

/// Whether a byte is written over, and the byte after it, 9, stays.
fn writes_over(slot: &mut SlotMemory, at: u64, byte: u8) -> bool {
    let after = at.wrapping_add(1);
    let written = [slot.write(after, 9), slot.write(at, byte)];
    written == [Ok(()), Ok(())] && [slot.read(at), slot.read(after)] == [Some(byte), Some(9)]
}

/// The first of these bytes that isn't so in turn.
fn first_lost(alloc: Global, bytes: &[u8]) -> Result<Option<u8>, Fail> {
    let mut slot = SlotMemory::new(alloc, image(alloc, &CALL)?)?;
    for byte in bytes {
        if !writes_over(&mut slot, 0x1_8000_0000, *byte) {
            return Ok(Some(*byte));
        }
    }
    Ok(None)
}

/// A byte that was written before is written over, with 0 too; the bytes beside it stay.
#[test]
fn a_byte_is_written_over(rt: HostRuntime) -> Result<(), Fail> {
    let lost = first_lost(rt.alloc(), &[7, 0, 255, 0])?;
    assert!(rt; lost.is_none(), "{lost:?}");
    Ok(())
}

/// SUB SP, SP, #16; STR X0, [SP].
const PROBE: [u32; 2] = [0xD10043FF, 0xF90003E0];

/// A machine of these words, or why it is refused.
fn made(alloc: Global) -> Result<Result<Machine, StartFault>, Fail> {
    let image = image(alloc, &PROBE)?;
    let registers = start_registers(&image);
    Ok(Machine::new(alloc, image, registers))
}

/// A machine of the same words, which is made.
fn made_again(rt: &HostRuntime) -> Result<(), Fail> {
    match made(rt.alloc())?.err() {
        None => println!(rt; "made again")?,
        Some(fault) => println!(rt; "refused again, {}", fault.number())?,
    }
    Ok(())
}

/// A run that is told: how it halted.
fn told(rt: &impl Print, machine: &mut Machine) -> Result<Halt, Fail> {
    let Outcome { halt, count, .. } = run(machine, 1000);
    println!(rt; "halt {} after {count}", halt.number())?;
    Ok(halt)
}

/// Runs to the end of the words, once more where memory was refused.
fn runs_to_its_end(rt: &(impl Print + Abort), machine: &mut Machine) -> Result<(), Fail> {
    if told(rt, machine)? == Halt::NoMemory {
        let registers = *machine.registers();
        assert!(rt; registers.pc == CODE + 4 && registers.sp == 0x1_FFFF_FFF0);
        told(rt, machine)?;
    }
    assert!(rt; machine.registers().pc == CODE + 8);
    Ok(())
}

/// A run of two words, whichever allocation is refused: checks/refused_growth refuses each in turn.
#[test]
fn a_growth_is_refused(rt: HostRuntime) -> Result<(), Fail> {
    match made(rt.alloc())? {
        Ok(mut machine) => runs_to_its_end(&rt, &mut machine),
        Err(fault) => {
            println!(rt; "refused, {}", fault.number())?;
            made_again(&rt)
        }
    }
}
