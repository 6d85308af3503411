//! Explanations, written out by hand from the rules (docs/PROFILE.md), and all words of a module that break one.
ghost use Rattle.std.specs.Prelude.{◌<◌};

use crate::row::Row;
use lfi_explain::{KnownFault, LineRoom, explain, explain_near, write_refusals};
use lfi_module::{ModuleNumber, Profile, WordCount};
use lfi_rules::{Fault, Rule};
use std::alloc::{AllocError, Global};
use std::io::{self, Write};
use std::test::Fail;

/// A module of two words in slot 0, a fault of it, and what is told.
struct Told {
    profile: Profile,
    words: [u32; 2],
    place: u32,
    rule: Rule,
    told: &'static str,
}

const ROWS: [Told; 33] = [
    Told {
        profile: Profile::One,
        words: [0xD63F03E0, 0xD503201F], // BLR XZR
        place: 0,
        rule: Rule::BranchBounded,
        told: "word 0 rule 9\n  0x0000000100010000  d63f03e0  blr xzr\n  br and blr may go only through x18, x23, x24 or x30, and ret only through x30; this one goes through xzr\n  mend: in its place\n    add x18, x21, wzr, uxtw\n    blr x18",
    },
    Told {
        profile: Profile::One,
        words: [0xF940025E, 0xD65F0040], // LDR X30, [X18]; RET X2
        place: 1,
        rule: Rule::BranchBounded,
        told: "word 1 rule 9\n  0x0000000100010004  d65f0040  ret x2\n  br and blr may go only through x18, x23, x24 or x30, and ret only through x30; this one goes through x2\n  mend: in its place\n    add x30, x21, w30, uxtw\n    add x30, x21, w2, uxtw\n    ret x30",
    },
    Told {
        profile: Profile::One,
        words: [0xD4000001, 0xD503201F], // SVC #0
        place: 0,
        rule: Rule::Spelled,
        told: "word 0 rule 1\n  0x0000000100010000  d4000001  .inst 0xd4000001\n  each word has to be an instruction of the profile; this one is none, of the group: exception generation\n  mend: none: no instructions of the profile are known that do the same; docs/PROFILE.md lists what stands in for others",
    },
    Told {
        profile: Profile::One,
        words: [0xD503201F, 0xB9400261],
        place: 1,
        rule: Rule::AccessConfined,
        told: "word 1 rule 2\n  0x0000000100010004  b9400261  ldr w1, [x19]\n  a load or store may go only through x18, x21, x23, x24 or sp at an immediate offset, through sp and change it, or through x21 by a W register with uxtw and no shift; this one goes through x19\n  mend: in its place\n    ldr w1, [x21, w19, uxtw]",
    },
    Told {
        profile: Profile::One,
        words: [0xF8408E40, 0xD503201F],
        place: 0,
        rule: Rule::AccessConfined,
        told: "word 0 rule 2\n  0x0000000100010000  f8408e40  ldr x0, [x18, #8]!\n  a load or store may go only through x18, x21, x23, x24 or sp at an immediate offset, through sp and change it, or through x21 by a W register with uxtw and no shift; this one goes through x18 and changes it\n  mend: in its place\n    add w22, w18, #8\n    add x18, x21, w22, uxtw\n    ldr x0, [x21, w18, uxtw]",
    },
    Told {
        profile: Profile::One,
        words: [0xF8617AA0, 0xD503201F],
        place: 0,
        rule: Rule::AccessConfined,
        told: "word 0 rule 2\n  0x0000000100010000  f8617aa0  ldr x0, [x21, x1, lsl #3]\n  a load or store may go only through x18, x21, x23, x24 or sp at an immediate offset, through sp and change it, or through x21 by a W register with uxtw and no shift; this one goes through x21 by x1, lsl, shifted\n  mend: in its place\n    add w22, w21, w1, uxtw #3\n    ldr x0, [x21, w22, uxtw]",
    },
    Told {
        profile: Profile::One,
        words: [0x38401420, 0xD503201F],
        place: 0,
        rule: Rule::AccessConfined,
        told: "word 0 rule 2\n  0x0000000100010000  38401420  ldrb w0, [x1], #1\n  a load or store may go only through x18, x21, x23, x24 or sp at an immediate offset, through sp and change it, or through x21 by a W register with uxtw and no shift; this one goes through x1 and changes it\n  mend: in its place\n    ldrb w0, [x21, w1, uxtw]\n    add x1, x1, #1",
    },
    Told {
        profile: Profile::One,
        words: [0xB8237880, 0xD503201F],
        place: 0,
        rule: Rule::AccessConfined,
        told: "word 0 rule 2\n  0x0000000100010000  b8237880  str w0, [x4, x3, lsl #2]\n  a load or store may go only through x18, x21, x23, x24 or sp at an immediate offset, through sp and change it, or through x21 by a W register with uxtw and no shift; this one goes through x4 by x3, lsl, shifted\n  mend: in its place\n    add w22, w4, w3, uxtw #2\n    str w0, [x21, w22, uxtw]",
    },
    Told {
        profile: Profile::One,
        words: [0xF8614BE0, 0xD503201F],
        place: 0,
        rule: Rule::AccessConfined,
        told: "word 0 rule 2\n  0x0000000100010000  f8614be0  ldr x0, [sp, w1, uxtw]\n  a load or store may go only through x18, x21, x23, x24 or sp at an immediate offset, through sp and change it, or through x21 by a W register with uxtw and no shift; this one goes through sp by w1, uxtw\n  mend: in its place\n    add w22, wsp, w1, uxtw\n    ldr x0, [x21, w22, uxtw]",
    },
    Told {
        profile: Profile::One,
        words: [0xAA0003F5, 0xD503201F],
        place: 0,
        rule: Rule::BaseKept,
        told: "word 0 rule 3\n  0x0000000100010000  aa0003f5  orr x21, xzr, x0\n  x21 holds where the slot begins and may not be written; this one writes it\n  mend: none: no instruction may write x21; use another register",
    },
    Told {
        profile: Profile::One,
        words: [0x8B020037, 0xD503201F],
        place: 0,
        rule: Rule::AddressGuarded,
        told: "word 0 rule 4\n  0x0000000100010000  8b020037  add x23, x1, x2\n  x18, x23 and x24 may be written only by add xD, x21, wM, uxtw; this one writes x23\n  mend: in its place\n    add w22, w1, w2\n    add x23, x21, w22, uxtw",
    },
    Told {
        profile: Profile::One,
        words: [0xAA0003FE, 0xD503201F],
        place: 0,
        rule: Rule::LinkGuarded,
        told: "word 0 rule 5\n  0x0000000100010000  aa0003fe  orr x30, xzr, x0\n  x30 may be written only by add x30, x21, wM, uxtw, by bl, by blr or by a load of 64 bits; this one writes it otherwise\n  mend: in its place; where x30 isn't meant as an address, use another register\n    add x30, x21, w0, uxtw",
    },
    Told {
        profile: Profile::One,
        words: [0xAA0003F6, 0xD503201F],
        place: 0,
        rule: Rule::OffsetNarrow,
        told: "word 0 rule 6\n  0x0000000100010000  aa0003f6  orr x22, xzr, x0\n  x22 may be written only as w22, so that it stays below 2^32; this one writes all of it\n  mend: in its place\n    orr w22, wzr, w0",
    },
    Told {
        profile: Profile::One,
        words: [0x9100001F, 0xD503201F],
        place: 0,
        rule: Rule::StackBounded,
        told: "word 0 rule 7\n  0x0000000100010000  9100001f  add sp, x0, #0\n  sp may be written only by add sp, x21, wM, uxtw, by add sp, x21, x22, uxtx, by an unshifted add or sub of an immediate to sp, or by indexing on sp; this one writes it otherwise\n  mend: in its place\n    add sp, x21, w0, uxtw",
    },
    Told {
        profile: Profile::One,
        words: [0x14000002, 0xD503201F],
        place: 0,
        rule: Rule::TargetInside,
        told: "word 0 rule 8\n  0x0000000100010000  14000002  b .+8\n  a direct branch may go only to a word of the module; it has 2, and this one goes to word 2\n  mend: let it go to a word of the module; code outside is called by ldr x30, [x21, #8j], j being 0 to 511, with blr x30 right after it",
    },
    Told {
        profile: Profile::One,
        words: [0xD503201F, 0x17FFFFFE],
        place: 1,
        rule: Rule::TargetInside,
        told: "word 1 rule 8\n  0x0000000100010004  17fffffe  b .-8\n  a direct branch may go only to a word of the module; it has 2, and this one goes to word -1\n  mend: let it go to a word of the module; code outside is called by ldr x30, [x21, #8j], j being 0 to 511, with blr x30 right after it",
    },
    Told {
        profile: Profile::One,
        words: [0xD65F00A0, 0xD503201F],
        place: 0,
        rule: Rule::BranchBounded,
        told: "word 0 rule 9\n  0x0000000100010000  d65f00a0  ret x5\n  br and blr may go only through x18, x23, x24 or x30, and ret only through x30; this one goes through x5\n  mend: in its place\n    add x30, x21, w5, uxtw\n    ret x30",
    },
    Told {
        profile: Profile::One,
        words: [0xF94006BE, 0xD503201F],
        place: 1,
        rule: Rule::NeedMet,
        told: "word 1 rule 10\n  0x0000000100010000  f94006be  ldr x30, [x21, #8]\n  0x0000000100010004  d503201f  nop\n  a load of a table entry into x30 has to be followed by blr x30; this word isn't that\n  mend: put blr x30 right after the load, and before the load what stood between them",
    },
    Told {
        profile: Profile::One,
        words: [0xF9400A5E, 0xD63F03C0],
        place: 1,
        rule: Rule::NeedMet,
        told: "word 1 rule 10\n  0x0000000100010000  f9400a5e  ldr x30, [x18, #16]\n  0x0000000100010004  d63f03c0  blr x30\n  any other load of 64 bits into x30 has to be followed by add x30, x21, w30, uxtw; this word isn't that\n  mend: put add x30, x21, w30, uxtw right after the load",
    },
    Told {
        profile: Profile::One,
        words: [0xD10043FF, 0xF90007E0],
        place: 1,
        rule: Rule::NeedMet,
        told: "word 1 rule 10\n  0x0000000100010000  d10043ff  sub sp, sp, #16\n  0x0000000100010004  f90007e0  str x0, [sp, #8]\n  a move of sp by an immediate has to be followed by a load or store at [sp]; this word isn't that\n  mend: put ldr xzr, [sp] right after the move, or let a pre- or post-indexed access move sp",
    },
    Told {
        profile: Profile::One,
        words: [0xD503201F, 0xD10043FF],
        place: 1,
        rule: Rule::NeedMet,
        told: "word 1 rule 10\n  0x0000000100010004  d10043ff  sub sp, sp, #16\n  the last word may ask nothing of a next one; this one asks for a load or store at [sp]\n  mend: put ldr xzr, [sp] right after the move, or let a pre- or post-indexed access move sp",
    },
    Told {
        profile: Profile::One,
        words: [0xC8DFFE40, 0xD503201F], // LDAR X0, [X18]
        place: 0,
        rule: Rule::Spelled,
        told: "word 0 rule 1\n  0x0000000100010000  c8dffe40  .inst 0xc8dffe40\n  each word has to be an instruction of the profile; ldar is an instruction of profile 2\n  mend: none: no instructions of the profile are known that do the same; docs/PROFILE.md lists what stands in for others",
    },
    Told {
        profile: Profile::One,
        words: [0xD503201F, 0x089FFEA1], // STLRB W1, [X21]
        place: 1,
        rule: Rule::Spelled,
        told: "word 1 rule 1\n  0x0000000100010004  089ffea1  .inst 0x089ffea1\n  each word has to be an instruction of the profile; stlrb is an instruction of profile 2\n  mend: none: no instructions of the profile are known that do the same; docs/PROFILE.md lists what stands in for others",
    },
    Told {
        profile: Profile::Two,
        words: [0xC8DFFC20, 0xD503201F],
        place: 0,
        rule: Rule::AccessConfined,
        told: "word 0 rule 2\n  0x0000000100010000  c8dffc20  ldar x0, [x1]\n  a load or store may go only through x18, x21, x23, x24 or sp at an immediate offset, through sp and change it, or through x21 by a W register with uxtw and no shift; this one goes through x1\n  mend: in its place\n    add x18, x21, w1, uxtw\n    ldar x0, [x18]",
    },
    Told {
        profile: Profile::Two,
        words: [0xC8DFFEBE, 0xD63F03C0],
        place: 1,
        rule: Rule::NeedMet,
        told: "word 1 rule 10\n  0x0000000100010000  c8dffebe  ldar x30, [x21]\n  0x0000000100010004  d63f03c0  blr x30\n  any other load of 64 bits into x30 has to be followed by add x30, x21, w30, uxtw; this word isn't that\n  mend: put add x30, x21, w30, uxtw right after the load",
    },
    Told {
        profile: Profile::Two,
        words: [0xD10043FF, 0xC89FFFE0],
        place: 1,
        rule: Rule::NeedMet,
        told: "word 1 rule 10\n  0x0000000100010000  d10043ff  sub sp, sp, #16\n  0x0000000100010004  c89fffe0  stlr x0, [sp]\n  a move of sp by an immediate has to be followed by a load or store at [sp] within 4 words, with only calm words before it; this word, with 4 of the 4 left, isn't that\n  mend: put ldr xzr, [sp] right after the move, or let a pre- or post-indexed access move sp",
    },
    Told {
        profile: Profile::One,
        words: [0xF8408FC0, 0xD503201F],
        place: 0,
        rule: Rule::AccessConfined,
        told: "word 0 rule 2\n  0x0000000100010000  f8408fc0  ldr x0, [x30, #8]!\n  a load or store may go only through x18, x21, x23, x24 or sp at an immediate offset, through sp and change it, or through x21 by a W register with uxtw and no shift; this one goes through x30 and changes it\n  mend: in its place\n    add w22, w30, #8\n    add x30, x21, w22, uxtw\n    ldr x0, [x21, w30, uxtw]",
    },
    Told {
        profile: Profile::One,
        words: [0xF8410EA0, 0xD503201F],
        place: 0,
        rule: Rule::AccessConfined,
        told: "word 0 rule 2\n  0x0000000100010000  f8410ea0  ldr x0, [x21, #16]!\n  a load or store may go only through x18, x21, x23, x24 or sp at an immediate offset, through sp and change it, or through x21 by a W register with uxtw and no shift; this one goes through x21 and changes it\n  mend: none: no instruction may write x21; use another register",
    },
    Told {
        profile: Profile::One,
        words: [0xD10043FF, 0xF9400020], // the need of SUB SP, SP, #16 is met first
        place: 1,
        rule: Rule::AccessConfined,
        told: "word 1 rule 2\n  0x0000000100010004  f9400020  ldr x0, [x1]\n  a load or store may go only through x18, x21, x23, x24 or sp at an immediate offset, through sp and change it, or through x21 by a W register with uxtw and no shift; this one goes through x1\n  mend: in its place\n    ldr xzr, [sp]\n    ldr x0, [x21, w1, uxtw]",
    },
    Told {
        profile: Profile::One,
        words: [0xF9802020, 0xD503201F], // PRFM PLDL1KEEP, [X1, #64]
        place: 0,
        rule: Rule::Spelled,
        told: "word 0 rule 1\n  0x0000000100010000  f9802020  .inst 0xf9802020\n  each word has to be an instruction of the profile; this one is none, of the group: loads and stores\n  mend: nothing in its place",
    },
    Told {
        profile: Profile::One,
        words: [0x13823020, 0xD503201F], // EXTR W0, W1, W2, #12
        place: 0,
        rule: Rule::Spelled,
        told: "word 0 rule 1\n  0x0000000100010000  13823020  .inst 0x13823020\n  each word has to be an instruction of the profile; this one is none, of the group: data processing with an immediate\n  mend: in its place; x16 is overwritten\n    orr w16, wzr, w2, lsr #12\n    orr w0, w16, w1, lsl #20",
    },
    Told {
        profile: Profile::One,
        words: [0x9BA37C20, 0xD503201F], // UMULL X0, W1, W3
        place: 0,
        rule: Rule::Spelled,
        told: "word 0 rule 1\n  0x0000000100010000  9ba37c20  .inst 0x9ba37c20\n  each word has to be an instruction of the profile; this one is none, of the group: data processing with registers\n  mend: in its place; x16 and x17 are overwritten\n    ubfm x16, x1, #0, #31\n    ubfm x17, x3, #0, #31\n    madd x0, x16, x17, xzr",
    },
    Told {
        profile: Profile::One,
        words: [0xDAC00020, 0xDAC01000], // RBIT X0, X1 before CLZ X0, X0
        place: 0,
        rule: Rule::Spelled,
        told: "word 0 rule 1\n  0x0000000100010000  dac00020  .inst 0xdac00020\n  each word has to be an instruction of the profile; this one is none, of the group: data processing with registers\n  mend: in its place; x16 and x17 are overwritten\n    sub x16, xzr, x1\n    and x16, x16, x1\n    movz x17, #32768, lsl #48\n    udiv x0, x17, x16",
    },
];

/// What is told of a row.
fn told_of(alloc: Global, row: &Told) -> Result<String, AllocError>
    requires { row.now.place < 2 }
{
    let fault = Fault {
        word: row.place,
        rule: row.rule,
    };
    explain(&Row(&row.words), ModuleNumber::at(0), fault, row.profile).to_string(alloc)
}

#[test]
fn each_rule(rt: HostRuntime) -> Result<(), Fail> {
    for row in &ROWS {
        if row.place < 2 {
            assert!(rt;
                told_of(rt.alloc(), row)?.as_str() == row.told,
                "{}",
                row.told
            );
        }
    }
    Ok(())
}

/// The first word of a module's second page, in slot 3, and the last of the page before: LDR X30, [X21, #8] and NOP.
const AT_A_SEAM: &str =
    "word 1024 rule 10\n  0x0000000700010ffc  f94006be  ldr x30, [x21, #8]\n  0x0000000700011000  d503201f  nop\n  a load of a table entry into x30 has to be followed by blr x30; this word isn't that\n  mend: put blr x30 right after the load, and before the load what stood between them";

/// A branch past the last word of a module of 2,049 words, which is its first: B .+8,196.
const AT_THE_START: &str =
    "word 0 rule 8\n  0x0000000100010000  14000801  b .+8196\n  a direct branch may go only to a word of the module; it has 2049, and this one goes to word 2049\n  mend: let it go to a word of the module; code outside is called by ldr x30, [x21, #8j], j being 0 to 511, with blr x30 right after it";

#[test]
fn of_words_alone(rt: HostRuntime) -> Result<(), Fail> {
    let words = WordCount::of(2049);
    let unmet = Fault {
        word: 1024,
        rule: Rule::NeedMet,
    };
    let outside = Fault {
        word: 0,
        rule: Rule::TargetInside,
    };
    let seam = KnownFault {
        slot: ModuleNumber::at(3),
        words,
        profile: Profile::One,
        fault: unmet,
    };
    let start = KnownFault {
        slot: ModuleNumber::at(0),
        words,
        profile: Profile::Two,
        fault: outside,
    };
    let seam = explain_near(&Row(&[0xF94006BE, 0xD503201F]), 1, &seam);
    let start = explain_near(&Row(&[0x14000801]), 0, &start);
    assert!(rt; seam.to_string(rt.alloc())?.as_str() == AT_A_SEAM);
    assert!(rt; start.to_string(rt.alloc())?.as_str() == AT_THE_START);
    Ok(())
}

/// Words of which three break a rule: LDR W1, [X19]; MOV X21, X0; and the last, which asks for a next one.
const THREE: [u32; 4] = [0xB9400261, 0xD503201F, 0xAA0003F5, 0xF94006BE];

/// What is told of them in slot 1.
const OF_THREE: &str =
    "word 0 rule 2\n  0x0000000300010000  b9400261  ldr w1, [x19]\n  a load or store may go only through x18, x21, x23, x24 or sp at an immediate offset, through sp and change it, or through x21 by a W register with uxtw and no shift; this one goes through x19\n  mend: in its place\n    ldr w1, [x21, w19, uxtw]\nword 2 rule 3\n  0x0000000300010008  aa0003f5  orr x21, xzr, x0\n  x21 holds where the slot begins and may not be written; this one writes it\n  mend: none: no instruction may write x21; use another register\nword 3 rule 10\n  0x000000030001000c  f94006be  ldr x30, [x21, #8]\n  the last word may ask nothing of a next one; this one asks for blr x30\n  mend: put blr x30 right after the load, and before the load what stood between them\nwords refused: 3\nwords with a mend: 1\n";

/// What is told of all words of a module that break a rule, and how many it says they are.
pub fn refused(
    alloc: Global,
    words: &[u32],
    slot: usize,
    profile: Profile,
) -> Result<(u32, Vec<u8>), Fail>
    requires { slot < 16 }
{
    let mut out = Vec::new(alloc);
    if words.len() > 4_194_304 {
        return Err(Fail::new("the module is too long"));
    }
    let count = write_refusals(
        LineRoom::new(alloc)?,
        &Row(words),
        ModuleNumber::at(slot),
        profile,
        &mut out,
    )?;
    Ok((count, out))
}

/// Modules in slot 1, of profile 1, how many of their words break a rule, and what is told of them: the three, and NOP, RET X30.
const TOLD: [(&[u32], u32, &str); 2] = [
    (&THREE, 3, OF_THREE),
    (
        &[0xD503201F, 0xD65F03C0],
        0,
        "words refused: 0\nwords with a mend: 0\n",
    ),
];

#[test]
fn all_that_break_a_rule(rt: HostRuntime) -> Result<(), Fail> {
    for (words, count, told) in TOLD {
        let (refused, out) = refused(rt.alloc(), words, 1, Profile::One)?;
        assert!(rt;
            refused == count && out.as_slice() == told.as_bytes(),
            "{told}"
        );
    }
    Ok(())
}

/// Words that were mended as a sentence tells, and NOP after them.
const MENDED: [[u32; 4]; 5] = [
    [0xF9400ABE, 0xD63F03C0, 0xD503201F, 0xD503201F], // BL out of the module by the table
    [0xAA1303E0, 0xF94006BE, 0xD63F03C0, 0xD503201F], // a call, with nothing between
    [0xF9400A5E, 0x8B3E42BE, 0xD63F03C0, 0xD503201F], // a load of X30, guarded
    [0xD10043FF, 0xF94003FF, 0xF90007E0, 0xD503201F], // SUB SP, SP, #16, touched
    [0xF81F0FE0, 0xF90007E1, 0xD503201F, 0xD503201F], // the same by an access that is indexed
];

#[test]
fn mended_words_are_lawful(rt: HostRuntime) -> Result<(), Fail> {
    for words in &MENDED {
        let (count, _) = refused(rt.alloc(), words, 0, Profile::One)?;
        assert!(rt; count == 0, "{words:?}");
    }
    Ok(())
}

/// A writer that takes nothing.
#[derive(Drop)]
struct FullWriter;

impl Write for FullWriter {
    fn write(&mut self, _bytes: &[u8]) -> io::Result<usize> {
        Err(io::Error::from(io::ErrorKind::StorageFull))
    }

    fn flush(&mut self) -> io::Result<()> {
        Ok(())
    }
}

#[test]
fn refusals_that_fail(rt: HostRuntime) -> Result<(), Fail> {
    let slot = ModuleNumber::at(1);
    let written = write_refusals(
        LineRoom::new(rt.alloc())?,
        &Row(&THREE),
        slot,
        Profile::One,
        &mut FullWriter,
    );
    assert!(rt; written.is_err());
    Ok(())
}
