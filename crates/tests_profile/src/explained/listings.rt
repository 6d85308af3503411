//! Listings: the first words of the compiled example, and branches in and out of a module.
use crate::row::Row;
use lfi_explain::{LineRoom, Marks, write_listing};
use lfi_module::{ModuleNumber, Profile};
use std::alloc::Global;
use std::test::Fail;

/// The first words of examples/checksums.code, then some that branch.
const WORDS: [u32; 12] = [
    0xD10103FF, 0xF94003FF, 0xF94002BE, 0xD63F03C0, 0xF81F0FFE, 0xF94006BE, 0xD63F03C0, 0xF84107FE,
    0x8B3E42BE, 0x54FFFFA0, 0x94000026, 0xD4000001,
];

const LISTING: &str =
    "      0  0x0000000100010000  d10103ff  sub sp, sp, #64  ; opens: next is a load or store at [sp]
      1  0x0000000100010004  f94003ff  ldr xzr, [sp]
      2  0x0000000100010008  f94002be  ldr x30, [x21]  ; opens: next is blr x30
      3  0x000000010001000c  d63f03c0  blr x30
      4  0x0000000100010010  f81f0ffe  str x30, [sp, #-16]!
      5  0x0000000100010014  f94006be  ldr x30, [x21, #8]  ; opens: next is blr x30
      6  0x0000000100010018  d63f03c0  blr x30
      7  0x000000010001001c  f84107fe  ldr x30, [sp], #16  ; opens: next is add x30, x21, w30, uxtw
      8  0x0000000100010020  8b3e42be  add x30, x21, w30, uxtw
      9  0x0000000100010024  54ffffa0  b.eq .-12  -> word 6
     10  0x0000000100010028  94000026  bl .+152  -> outside, word 48
     11  0x000000010001002c  d4000001  .inst 0xd4000001
";

/// Words of the second profile: LDAR X30, [X21], its guard, STLRH W1, [SP], LDAR W22, [X18].
const ORDERED: [u32; 4] = [0xC8DFFEBE, 0x8B3E42BE, 0x489FFFE1, 0x88DFFE56];

const ORDERED_LISTING: &str =
    "      0  0x0000000100010000  c8dffebe  ldar x30, [x21]  ; opens: next is add x30, x21, w30, uxtw
      1  0x0000000100010004  8b3e42be  add x30, x21, w30, uxtw
      2  0x0000000100010008  489fffe1  stlrh w1, [sp]
      3  0x000000010001000c  88dffe56  ldar w22, [x18]
";

/// The listing of a module in slot 0.
pub fn listed(alloc: Global, words: &[u32], profile: Profile) -> Result<Vec<u8>, Fail> {
    let mut out = Vec::new(alloc);
    if words.len() > 4_194_304 {
        return Err(Fail::new("the module is too long"));
    }
    write_listing(
        LineRoom::new(alloc)?,
        &Row(words),
        ModuleNumber::at(0),
        Marks::NoMarks,
        profile,
        &mut out,
    )?;
    Ok(out)
}

/// Modules, and their listings.
const LISTINGS: [(&[u32], Profile, &str); 2] = [
    (&WORDS, Profile::One, LISTING),
    (&ORDERED, Profile::Two, ORDERED_LISTING),
];

#[test]
fn lists_words(rt: HostRuntime) -> Result<(), Fail> {
    for (words, profile, listing) in LISTINGS {
        let out = listed(rt.alloc(), words, profile)?;
        assert!(rt; out.as_slice() == listing.as_bytes(), "{listing}");
    }
    Ok(())
}
