//! What is told of a probe that comes late, or not at all: written out by hand from the rules of the second profile.

use crate::explained::listings::listed;
use crate::explained::rules::refused;
use crate::row::Row;
use lfi_explain::{KnownFault, explain, explain_near};
use lfi_module::{ModuleNumber, Profile, WordCount};
use lfi_rules::{Fault, Rule};
use std::alloc::Global;
use std::test::Fail;

const NOP: u32 = 0xD503201F;
/// SUB SP, SP, #16
const MOVE: u32 = 0xD10043FF;

/// A module in slot 0, the place at which it breaks the rule of needs first, and what is told.
struct Told {
    words: &'static [u32],
    place: u32,
    told: &'static str,
}

const ROWS: [Told; 5] = [
    // STR X0, [SP, #8]
    Told {
        words: &[MOVE, NOP, 0xF90007E0, 0xF90003E0],
        place: 2,
        told: "word 2 rule 10\n  0x0000000100010000  d10043ff  sub sp, sp, #16\n  0x0000000100010008  f90007e0  str x0, [sp, #8]\n  a move of sp by an immediate has to be followed by a load or store at [sp] within 4 words, with only calm words before it; this word, with 3 of the 4 left, isn't that\n  mend: put ldr xzr, [sp] right after the move, or let a pre- or post-indexed access move sp",
    },
    Told {
        words: &[NOP, MOVE, NOP, NOP, NOP, NOP, 0xF90003E0],
        place: 5,
        told: "word 5 rule 10\n  0x0000000100010004  d10043ff  sub sp, sp, #16\n  0x0000000100010014  d503201f  nop\n  a move of sp by an immediate has to be followed by a load or store at [sp] within 4 words, with only calm words before it; this word, with 1 of the 4 left, isn't that\n  mend: put ldr xzr, [sp] right after the move, or let a pre- or post-indexed access move sp",
    },
    Told {
        words: &[MOVE, NOP, NOP],
        place: 2,
        told: "word 2 rule 10\n  0x0000000100010000  d10043ff  sub sp, sp, #16\n  0x0000000100010008  d503201f  nop\n  a move of sp by an immediate has to be followed by a load or store at [sp] within 4 words, with only calm words before it; the module ends with 2 of the 4 left\n  mend: put ldr xzr, [sp] right after the move, or let a pre- or post-indexed access move sp",
    },
    Told {
        words: &[NOP, MOVE],
        place: 1,
        told: "word 1 rule 10\n  0x0000000100010004  d10043ff  sub sp, sp, #16\n  the last word may ask nothing of a next one; this one asks for a load or store at [sp]\n  mend: put ldr xzr, [sp] right after the move, or let a pre- or post-indexed access move sp",
    },
    // LDR X30, [SP]: it meets the first need, and opens one itself
    Told {
        words: &[MOVE, NOP, 0xF94003FE, NOP],
        place: 3,
        told: "word 3 rule 10\n  0x0000000100010008  f94003fe  ldr x30, [sp]\n  0x000000010001000c  d503201f  nop\n  any other load of 64 bits into x30 has to be followed by add x30, x21, w30, uxtw; this word isn't that\n  mend: put add x30, x21, w30, uxtw right after the load",
    },
];

/// What is told of a row.
fn told_of(alloc: Global, row: &Told) -> Result<String, Fail> {
    let words = row.words;
    let fault = Fault {
        word: row.place,
        rule: Rule::NeedMet,
    };
    if words.len() > 4_194_304 || row.place as usize >= words.len() {
        return Err(Fail::new("there is no such word"));
    }
    Ok(explain(&Row(words), ModuleNumber::at(0), fault, Profile::Two).to_string(alloc)?)
}

#[test]
fn names_the_word_that_opens(rt: HostRuntime) -> Result<(), Fail> {
    for row in &ROWS {
        assert!(rt;
            told_of(rt.alloc(), row)?.as_str() == row.told,
            "{}",
            row.told
        );
    }
    Ok(())
}

/// What is told of a row by the words near its place: at most four before it, and the one after it, if there is one.
fn told_near(alloc: Global, row: &Told) -> Result<String, Fail> {
    let place = row.place as usize;
    let first = place.saturating_sub(4);
    let end = (place + 2).min(row.words.len());
    if first > place || place >= end || row.words.len() > 4_194_304 {
        return Err(Fail::new("there is no such word"));
    }
    let known = KnownFault {
        slot: ModuleNumber::at(0),
        words: WordCount::of(row.words.len() as u32),
        profile: Profile::Two,
        fault: Fault {
            word: row.place,
            rule: Rule::NeedMet,
        },
    };
    let near = Row(&row.words[first..end]);
    Ok(explain_near(&near, place - first, &known).to_string(alloc)?)
}

#[test]
fn tells_the_same_by_the_words_near(rt: HostRuntime) -> Result<(), Fail> {
    for row in &ROWS {
        assert!(rt;
            told_near(rt.alloc(), row)?.as_str() == row.told,
            "{}",
            row.told
        );
    }
    Ok(())
}

/// A listing of two words, and what is told of a module that ends too early.
const LISTED: &str =
    "      0  0x0000000100010000  d10043ff  sub sp, sp, #16  ; opens: one of the next 4 is a load or store at [sp]\n      1  0x0000000100010004  d503201f  nop\n";

/// What is told of them.
const REFUSED: &str =
    "word 1 rule 10\n  0x0000000100010000  d10043ff  sub sp, sp, #16\n  0x0000000100010004  d503201f  nop\n  a move of sp by an immediate has to be followed by a load or store at [sp] within 4 words, with only calm words before it; the module ends with 3 of the 4 left\n  mend: put ldr xzr, [sp] right after the move, or let a pre- or post-indexed access move sp\nwords refused: 1\nwords with a mend: 1\n";

#[test]
fn lists_and_refuses(rt: HostRuntime) -> Result<(), Fail> {
    let listing = listed(rt.alloc(), &[MOVE, NOP], Profile::Two)?;
    assert!(rt; listing.as_slice() == LISTED.as_bytes());
    let (count, told) = refused(rt.alloc(), &[MOVE, NOP], 0, Profile::Two)?;
    assert!(rt; count == 1 && told.as_slice() == REFUSED.as_bytes());
    Ok(())
}
