//! Streams from messages, and the texts of reports.

use lfi_model::Summary;
use std::alloc::{AllocError, Global};

/// NOP.
pub const NOP: u32 = 0xD503201F;

/// RET, a branch to the address in x30.
pub const RET: u32 = 0xD65F03C0;

/// LDP X29, X30, [SP], #16: loads x30, and asks for a guard of it next.
pub const LOAD_LINK: u32 = 0xA8C17BFD;

/// ADD X30, X21, W30, UXTW: the guard of x30.
pub const GUARD_LINK: u32 = 0x8B3E42BE;

/// SVC #0, which the profile hasn't.
pub const SVC: u32 = 0xD4000001;

/// MOV X21, X0, which writes the base of the slot.
pub const WRITE_BASE: u32 = 0xAA0003F5;

/// A message, or several.
#[derive(Clone, Copy)]
pub enum Sent {
    /// Opens a module of a number of words, entered at word 0.
    Open(u16, u32),
    /// A page of a module by its index, of a number of words: NOP, but for the last one.
    Page(u16, u32, u32, u32),
    /// A page of a module by its index, of 1,024 words: NOP, but for one at a place.
    Full(u16, u32, u32, u32),
    /// A number of full pages of NOPs of a module, from index 0 on.
    Pages(u16, u32),
    /// Opens a module of a number of words, by the second profile, with large pages.
    OpenLarge(u16, u32),
    /// A large page of a module by its index, of a number of words: NOP, but for the last one.
    Large(u16, u32, u32, u32),
    /// Closes a module.
    Close(u16),
}

use Sent::{Close, Full, Large, Open, OpenLarge, Page, Pages};

/// Messages of a module, of one kind. The first has this number, each other one the next.
#[derive(Clone, Copy)]
struct Messages {
    kind: [u8; 2],
    module: u16,
    number: u32,
    count: u32,
    /// How many words follow each. They are NOPs, but for one at a place.
    words: u32,
    place: u32,
    word: u32,
}

/// A header, which no page follows.
fn alone(kind: [u8; 2], module: u16, number: u32) -> Messages {
    Messages {
        kind,
        module,
        number,
        count: 1,
        words: 0,
        place: 0,
        word: NOP,
    }
}

/// A page of a module, of `words` words: NOPs, but for one at a place.
fn page(kind: u8, module: u16, index: u32, words: u32, place: u32, word: u32) -> Messages {
    Messages {
        kind: [kind, 0],
        module,
        number: index,
        count: 1,
        words,
        place,
        word,
    }
}

impl Sent {
    fn messages(self) -> Messages {
        match self {
            Open(module, count) => alone([1, 0], module, count),
            Page(module, index, words, last) => {
                page(2, module, index, words, words.saturating_sub(1), last)
            }
            Full(module, index, at, word) => page(2, module, index, 1024, at, word),
            Pages(module, count) => Messages {
                count,
                ..page(2, module, 0, 1024, 0, NOP)
            },
            OpenLarge(module, count) => alone([4, 2], module, count),
            Large(module, index, words, last) => {
                page(5, module, index, words, words.saturating_sub(1), last)
            }
            Close(module) => alone([3, 0], module, 0),
        }
    }
}

impl Messages {
    /// The header of the message with this place among them.
    fn header(&self, at: u32) -> [u8; 12] {
        let [m0, m1] = self.module.to_le_bytes();
        let [a0, a1, a2, a3] = self.number.saturating_add(at).to_le_bytes();
        let [b0, b1, b2, b3] = self.words.saturating_mul(4).to_le_bytes();
        [
            self.kind[0],
            self.kind[1],
            m0,
            m1,
            a0,
            a1,
            a2,
            a3,
            b0,
            b1,
            b2,
            b3,
        ]
    }

    /// The word at this place of a page.
    fn word_at(&self, place: u32) -> u32 {
        if place == self.place { self.word } else { NOP }
    }
}

/// Adds these messages to the bytes of a stream.
fn push(bytes: &mut Vec<u8>, messages: &Messages) -> Result<(), AllocError> {
    for at in 0..messages.count {
        bytes.extend_from_slice(&messages.header(at))?;
        for place in 0..messages.words {
            bytes.extend_from_slice(&messages.word_at(place).to_le_bytes())?;
        }
    }
    Ok(())
}

/// Adds all that is sent to the bytes of a stream.
pub fn push_all(bytes: &mut Vec<u8>, sent: &[Sent]) -> Result<(), AllocError> {
    for one in sent {
        push(bytes, &one.messages())?;
    }
    Ok(())
}

/// The bytes of what is sent.
pub fn text_of(alloc: Global, sent: &[Sent]) -> Result<Vec<u8>, AllocError> {
    let mut bytes = Vec::new(alloc);
    push_all(&mut bytes, sent)?;
    Ok(bytes)
}

/// The bytes of a whole module of one word: an Open, a page and a Close.
pub fn one_word(module: u8, word: u32) -> [u8; 40] {
    let [a, b, c, d] = word.to_le_bytes();
    [
        1, 0, module, 0, 1, 0, 0, 0, 0, 0, 0, 0, // Open: 1 word, entry 0
        2, 0, module, 0, 0, 0, 0, 0, 4, 0, 0, 0, // Page 0, 4 bytes
        a, b, c, d, // its word
        3, 0, module, 0, 0, 0, 0, 0, 0, 0, 0, 0, // Close
    ]
}

/// Closes module 9, which nobody opened.
pub const STRAY: [u8; 12] = [3, 0, 9, 0, 0, 0, 0, 0, 0, 0, 0, 0];

/// Module 0, of one word.
pub const MODULE_0: [u8; 40] = [
    1, 0, 0, 0, 1, 0, 0, 0, 0, 0, 0, 0, // Open: 1 word, entry 0
    2, 0, 0, 0, 0, 0, 0, 0, 4, 0, 0, 0, // Page 0, 4 bytes
    0xc0, 0x03, 0x5f, 0xd6, // RET
    3, 0, 0, 0, 0, 0, 0, 0, 0, 0, 0, 0, // Close
];

/// Module 3, of one word.
pub const MODULE_3: [u8; 40] = [
    1, 0, 3, 0, 1, 0, 0, 0, 0, 0, 0, 0, // Open: 1 word, entry 0
    2, 0, 3, 0, 0, 0, 0, 0, 4, 0, 0, 0, // Page 0, 4 bytes
    0xc0, 0x03, 0x5f, 0xd6, // RET
    3, 0, 3, 0, 0, 0, 0, 0, 0, 0, 0, 0, // Close
];

/// Module 5, of one word.
pub const MODULE_5: [u8; 40] = [
    1, 0, 5, 0, 1, 0, 0, 0, 0, 0, 0, 0, // Open: 1 word, entry 0
    2, 0, 5, 0, 0, 0, 0, 0, 4, 0, 0, 0, // Page 0, 4 bytes
    0xc0, 0x03, 0x5f, 0xd6, // RET
    3, 0, 5, 0, 0, 0, 0, 0, 0, 0, 0, 0, // Close
];

/// Module 7, of one word.
pub const MODULE_7: [u8; 40] = [
    1, 0, 7, 0, 1, 0, 0, 0, 0, 0, 0, 0, // Open: 1 word, entry 0
    2, 0, 7, 0, 0, 0, 0, 0, 4, 0, 0, 0, // Page 0, 4 bytes
    0xc0, 0x03, 0x5f, 0xd6, // RET
    3, 0, 7, 0, 0, 0, 0, 0, 0, 0, 0, 0, // Close
];

/// `size` bytes of a text from a place on, or what is left of it there.
pub fn piece(text: &[u8], from: usize, size: usize) -> &[u8] {
    let from = from.min(text.len());
    let to = from.saturating_add(size).min(text.len());
    &text[from..to]
}

/// Eight texts of the same length, that stand one after the other.
pub fn eight(texts: &[u8]) -> [&[u8]; 8] {
    let len = texts.len() / 8;
    [
        piece(texts, 0, len),
        piece(texts, len, len),
        piece(texts, len.saturating_mul(2), len),
        piece(texts, len.saturating_mul(3), len),
        piece(texts, len.saturating_mul(4), len),
        piece(texts, len.saturating_mul(5), len),
        piece(texts, len.saturating_mul(6), len),
        piece(texts, len.saturating_mul(7), len),
    ]
}

/// Whether this is the text of what is told.
pub fn is_text(alloc: Global, told: &Summary, want: &str) -> bool {
    match format!(in alloc; "{told}") {
        Ok(text) => text.as_str() == want,
        Err(_) => false,
    }
}

/// Whether something is told, and this is its text.
pub fn is_told<E: Drop>(alloc: Global, told: Result<Summary, E>, want: &str) -> bool {
    match told {
        Ok(told) => is_text(alloc, &told, want),
        Err(_) => false,
    }
}
