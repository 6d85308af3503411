//! Several connections through the stage, and through the reference implementation beside it.

use crate::build::Sent::{Close, Open, Page};
use crate::build::{MODULE_0, MODULE_3, MODULE_5, NOP, Sent, eight, one_word, piece, push_all};
use crate::inputs::tells;
use crate::reports::plain::{Given, tells_plainly};
use std::alloc::{AllocError, Global};
use std::sync::Wait;
use std::thread::Threads;

/// Two modules of 2,049 NOPs each, numbers 2 n and 2 n + 1, whose pages come in turns.
fn two_modules(n: u16) -> [Sent; 10] {
    let first = n.saturating_mul(2);
    let second = first.saturating_add(1);
    [
        Open(first, 2049),
        Open(second, 2049),
        Page(first, 0, 1024, NOP),
        Page(second, 0, 1024, NOP),
        Page(first, 1, 1024, NOP),
        Page(second, 1, 1024, NOP),
        Page(second, 2, 1, NOP),
        Page(first, 2, 1, NOP),
        Close(first),
        Close(second),
    ]
}

/// How many bytes two such modules take: two Opens, four full pages, two of a word, two Closes.
const TWO_MODULES: usize = 2 * 12 + 4 * (12 + 4096) + 2 * (12 + 4) + 2 * 12;

/// The texts of modules 0 to 15, two and two, one text after the other.
fn sixteen_modules(alloc: Global) -> Result<Vec<u8>, AllocError> {
    let mut texts = Vec::new(alloc);
    for n in 0..8u16 {
        push_all(&mut texts, &two_modules(n))?;
    }
    Ok(texts)
}

const SIXTEEN: &str = "\
module 0: complete, 2049 words
module 1: complete, 2049 words
module 2: complete, 2049 words
module 3: complete, 2049 words
module 4: complete, 2049 words
module 5: complete, 2049 words
module 6: complete, 2049 words
module 7: complete, 2049 words
module 8: complete, 2049 words
module 9: complete, 2049 words
module 10: complete, 2049 words
module 11: complete, 2049 words
module 12: complete, 2049 words
module 13: complete, 2049 words
module 14: complete, 2049 words
module 15: complete, 2049 words
strays 0
";

/// Whether the stage tells this of these texts, in pieces of a number of bytes, with each number of
/// verifiers.
fn all_tell(
    rt: &(impl Threads + Wait + Sync + AllocGlobal),
    texts: &[&[u8]],
    most: usize,
    want: &str,
) -> bool {
    for verifiers in 1..=8usize {
        if !tells(rt, texts, most, verifiers, want) {
            return false;
        }
    }
    true
}

/// Whether the stage tells of all 16 modules that they are complete, where eight connections bring
/// their texts, in pieces of at most `most` bytes and with each number of verifiers.
fn sixteen_are_complete(rt: &(impl Threads + Wait + Sync + AllocGlobal), most: usize) -> bool {
    match sixteen_modules(rt.alloc()) {
        Ok(texts) => {
            texts.len() == 8 * TWO_MODULES && all_tell(rt, &eight(texts.as_slice()), most, SIXTEEN)
        }
        Err(_) => false,
    }
}

#[test]
fn eight_streams_of_two_modules(rt: HostRuntime) {
    for most in [4096usize, 5000, 13] {
        assert!(rt; sixteen_are_complete(&rt, most));
    }
}

#[test]
fn two_streams_of_module_3(rt: HostRuntime) {
    let second = one_word(3, NOP);
    let want = "module 3: complete, 1 words\nstrays 3\n";
    for most in [1usize, 12, 13, 40] {
        assert!(rt; tells(&rt, &[&MODULE_3, &second], most, 2, want));
    }
}

/// Whether this is told of a whole stream, one that is cut off, and an empty one, by the plain
/// program, and by the stage with each number of verifiers.
fn is_told_of_three(rt: &(impl Threads + Wait + Sync + AllocGlobal), want: &str) -> bool {
    let cut = piece(&MODULE_0, 0, 30);
    let given = [
        Given::whole(&MODULE_5, &[5]),
        Given::whole(cut, &[0]),
        Given::whole(&[], &[1]),
    ];
    let plainly = tells_plainly(rt.alloc(), &given, want);
    plainly && all_tell(rt, &[&MODULE_5, cut, &[]], 7, want)
}

#[test]
fn one_that_is_cut_off_beside_others(rt: HostRuntime) {
    let want =
        "module 0: lost, fault 9\nmodule 5: complete, 1 words\nconnection 1: fault 9\nstrays 0\n";
    assert!(rt; is_told_of_three(&rt, want));
}
