//! Strays, and streams for which not every module is claimed.

use crate::build::Sent::{Close, Open, Page};
use crate::build::{MODULE_3, NOP, RET, Sent, one_word, text_of};
use crate::reports::plain::{Given, tells_plainly};
use crate::reports::stage::both_tell;
use std::alloc::Global;

/// Whether the reference implementation, for which module 1 is claimed, tells this of what is sent.
fn is_told_of_module_1(alloc: Global, sent: &[Sent], want: &str) -> bool {
    match text_of(alloc, sent) {
        Ok(text) => tells_plainly(alloc, &[Given::whole(text.as_slice(), &[1])], want),
        Err(_) => false,
    }
}

#[test]
fn another_module_claimed(rt: HostRuntime) {
    let sent = [Open(1, 1), Open(0, 1), Page(0, 0, 1, RET), Close(0)];
    let want = "module 1: lost, fault 9\nconnection 0: fault 9\nstrays 3\n";
    assert!(rt; is_told_of_module_1(rt.alloc(), &sent, want));
}

/// A page of module 0, which is cut within its word.
const NO_MODULE: [u8; 14] = [2, 0, 0, 0, 0, 0, 0, 0, 4, 0, 0, 0, 0xc0, 0x03];

#[test]
fn page_of_no_module(rt: HostRuntime) {
    let want = "connection 0: fault 9\nstrays 1\n";
    assert!(rt; both_tell(&rt, &NO_MODULE, &[0], want));
}

#[test]
fn two_streams_of_one_module(rt: HostRuntime) {
    let second = one_word(3, NOP);
    let want = "module 3: complete, 1 words\nstrays 3\n";
    let claims: [[&[u16]; 2]; 2] = [[&[3], &[]], [&[], &[3]]];
    for [one, two] in claims {
        let given = [Given::whole(&MODULE_3, one), Given::whole(&second, two)];
        assert!(rt; tells_plainly(rt.alloc(), &given, want));
    }
}
