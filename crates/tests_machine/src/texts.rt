//! What refusals of a machine say.

use lfi_machine::{DataFault, StartFault};
use std::test::Fail;

/// Each refusal of registers, or of memory, its number and its text.
const STARTS: [(StartFault, u8, &str); 7] = [
    (StartFault::Base, 1, "x21 is not the slot's base"),
    (
        StartFault::Address,
        2,
        "x18, x23, x24 or x30 is not in the slot",
    ),
    (StartFault::Offset, 3, "x22 is not below 2^32"),
    (StartFault::Stack, 4, "sp is too far from the slot"),
    (StartFault::Pc, 5, "pc is not in the slot"),
    (StartFault::Flags, 6, "the flags are not below 16"),
    (StartFault::NoMemory, 7, "no memory"),
];

/// Each refusal of a byte that the runtime writes, its number and its text.
const WRITES: [(DataFault, u8, &str); 2] = [
    (DataFault::NotWritable, 1, "the byte may not be written"),
    (DataFault::NoMemory, 2, "no memory"),
];

#[test]
fn tells_why_a_machine_is_refused(rt: HostRuntime) -> Result<(), Fail> {
    for (fault, number, text) in &STARTS {
        assert!(rt; fault.number() == *number, "{text}");
        assert!(rt; fault.to_string(rt.alloc())?.as_str() == *text, "{text}");
    }
    Ok(())
}

#[test]
fn tells_why_a_byte_is_not_written(rt: HostRuntime) -> Result<(), Fail> {
    for (fault, number, text) in &WRITES {
        assert!(rt; fault.number() == *number, "{text}");
        assert!(rt; fault.to_string(rt.alloc())?.as_str() == *text, "{text}");
    }
    Ok(())
}
