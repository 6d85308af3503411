//! Ordered loads and stores of each size, run in the machine by the second profile.

use crate::host::{denied, ran};
use lfi_machine::Halt;
use lfi_module::Profile;
use std::alloc::Global;
use std::test::Fail;

/// The base of slot 0.
const BASE: u64 = 0x1_0000_0000;

/// The end of slot 0.
const END: u64 = 0x2_0000_0000;

/// Four bytes before the end of a page of data.
const SEAM: u64 = BASE + 0x8000_0FFC;

/// What x2 holds. Its bytes are 87, 96, A5, B4, C3, D2, E1, F0.
const VALUE: u64 = 0xF0E1_D2C3_B4A5_9687;

/// Two words and what x0 holds after both; x18 holds SEAM, and x0 is 9 before.
type Row = (u32, u32, u64);

/// STR X2, [X18].
const STORED: u32 = 0xF900_0242;

/// LDR X0, [X18].
const LOADED: u32 = 0xF940_0240;

const ROWS: [Row; 10] = [
    (STORED, 0x08DFFE40, 0x87), // LDARB W0, [X18]
    (STORED, 0x48DFFE40, 0x9687), // LDARH W0, [X18]
    (STORED, 0x88DFFE40, 0xB4A59687), // LDAR W0, [X18]
    (STORED, 0xC8DFFE40, VALUE), // LDAR X0, [X18]
    (STORED, 0xC8DFFE5F, 9), // LDAR XZR, [X18]
    (0x089FFE42, LOADED, 0x87), // STLRB W2, [X18]
    (0x489FFE42, LOADED, 0x9687), // STLRH W2, [X18]
    (0x889FFE42, LOADED, 0xB4A59687), // STLR W2, [X18]
    (0xC89FFE42, LOADED, VALUE), // STLR X2, [X18]
    (0xC89FFE5F, LOADED, 0), // STLR XZR, [X18]
];

/// Whether a row does so with x18 so.
fn is_right(alloc: Global, row: &Row, x18: u64) -> Result<bool, Fail> {
    let (first, second, want) = *row;
    let changes = [(0, 9), (2, VALUE), (18, x18)];
    let ran = ran(alloc, Profile::Two, &[first, second], &changes, 2)?;
    let seen = [ran.count, ran.after.x[0], ran.after.pc];
    Ok(ran.halt == Halt::StepsUsed && seen == [2, want, BASE + 65536 + 8])
}

/// Across the end of a page, at an address that only a byte's access is aligned to.
#[test]
fn across_a_seam(rt: HostRuntime) -> Result<(), Fail> {
    for offset in 0..8u64 {
        for (place, row) in ROWS.iter().enumerate() {
            let right = is_right(rt.alloc(), row, SEAM.wrapping_add(offset))?;
            assert!(rt; right, "row {place}");
        }
    }
    Ok(())
}

/// How many bytes, and the words that load them to x0 and store them from x2 through x18.
type Form = (u64, u32, u32);

const FORMS: [Form; 4] = [
    (1, 0x08DFFE40, 0x089FFE42),
    (2, 0x48DFFE40, 0x489FFE42),
    (4, 0x88DFFE40, 0x889FFE42),
    (8, 0xC8DFFE40, 0xC89FFE42),
];

/// A region's first address and the first after it, and whether it may be stored to, too. The module has one word, so what may
/// be written begins at 69,632.
type Region = (u64, u64, bool);

const REGIONS: [Region; 3] = [
    (BASE, BASE + 4096, false),
    (BASE + 65536, BASE + 69632, false),
    (BASE + 69632, END, true),
];

/// An access of a word with x18 so, and where it is denied, if it is.
type Probe = (u32, u64, Option<u64>);

/// The loads of a form in a region at both ends, and over its end, but where data follows it. A guarded register may not be so
/// high that a byte's access has a place after the slot.
fn loads_in(form: &Form, region: &Region) -> [Option<Probe>; 3] {
    let (bytes, load, _) = *form;
    let (first, end, _) = *region;
    let last = end.wrapping_sub(bytes);
    let over = last.wrapping_add(1);
    let above = if over < END && first != BASE + 65536 {
        Some((load, over, Some(end)))
    } else {
        None
    };
    [Some((load, first, None)), Some((load, last, None)), above]
}

/// The stores of a form in a region at both ends, and before and over them, if it may be stored to.
fn stores_in(form: &Form, region: &Region) -> [Option<Probe>; 4] {
    let (bytes, _, store) = *form;
    let (first, end, stores) = *region;
    let last = end.wrapping_sub(bytes);
    if !stores {
        let low = Some((store, first, Some(first)));
        return [low, Some((store, last, Some(last))), None, None];
    }
    let over = last.wrapping_add(1);
    let before = first.wrapping_sub(1);
    let above = if over < END {
        Some((store, over, Some(end)))
    } else {
        None
    };
    let below = Some((store, before, Some(before)));
    [
        Some((store, first, None)),
        Some((store, last, None)),
        above,
        below,
    ]
}

/// The first of these accesses that ends otherwise.
fn first_other(alloc: Global, probes: &[Option<Probe>]) -> Result<Option<Probe>, Fail> {
    for probe in probes {
        if let Some((word, x18, at)) = *probe {
            if denied(alloc, Profile::Two, word, x18)? != at {
                return Ok(*probe);
            }
        }
    }
    Ok(None)
}

/// The first access at the edges of the map that ends otherwise.
fn first_other_edge(alloc: Global) -> Result<Option<Probe>, Fail> {
    for form in &FORMS {
        for region in &REGIONS {
            let load = first_other(alloc, &loads_in(form, region))?;
            let other = load.or(first_other(alloc, &stores_in(form, region))?);
            if other.is_some() {
                return Ok(other);
            }
        }
    }
    Ok(None)
}

#[test]
fn at_the_edges_of_the_map(rt: HostRuntime) -> Result<(), Fail> {
    let other = first_other_edge(rt.alloc())?;
    assert!(rt; other.is_none(), "{other:?}");
    Ok(())
}
