//! Builders: what they take, what they give back, and when they are whole.

use crate::images::rows::{Numbers, RET, append, numbers};
use crate::items::{NOP, UNKNOWN};
use lfi_image::{Builder, JudgedPage, PageMemory};
use lfi_module::{Extent, ModuleNumber, PageSize, Profile, WordCount};
use lfi_rules::{Fault, Rule};
use page_buf::SealedPage;
use std::process::Abort;

/// LDP X29, X30, [SP], #16, which opens the need for a guard into x30.
const LOAD_LINK: u32 = 0xA8C1_7BFD;

/// ADD X30, X21, W30, UXTW #0: that guard.
const GUARD_LINK: u32 = 0x8B3E_42BE;

/// SUB SP, SP, #16, which opens the need for a probe.
const MOVE_STACK: u32 = 0xD100_43FF;

#[test]
fn a_judged_page_and_its_parts(rt: HostRuntime) {
    let bytes = MOVE_STACK.to_le_bytes();
    let page = SealedPage::of(rt.alloc(), PageSize::SMALL, &bytes).expect(&rt, "no page");
    let extent = Extent::of(WordCount::of(1025), 0, Profile::One, PageSize::SMALL);
    let judged = JudgedPage::judge(page, 1024, extent);
    let len = judged.page().len_words() as u32;
    let whole = [judged.first(), judged.extent().words().number(), len];
    let inner = judged.verdict().inner;
    let (page, verdict) = judged.into_parts();
    let parts = [verdict.first, page.len_words() as u32];
    assert!(rt; whole == [1024, 1025, 1] && inner.is_none() && parts == [1024, 1]);
}

/// A page: its last word, its fault, and how many words are placed and how many due after it.
type Appended = (u32, Option<Fault>, u32, u32);

/// What a builder makes of pages: the numbers of its image, or how many words it has and how many are placed, the entry
/// and the slot where it isn't whole. Nothing where it answers to a page otherwise.
type Made = Option<Result<Numbers, [u32; 4]>>;

/// The numbers of what a builder has made.
fn made_by(builder: Builder) -> Result<Numbers, [u32; 4]> {
    match builder.finish() {
        Ok(image) => Ok(numbers(&image)),
        Err(builder) => Err([
            builder.extent().words().number(),
            builder.placed(),
            builder.extent().entry(),
            u32::from(builder.slot().number()),
        ]),
    }
}

/// What a builder makes of these pages.
fn made(rt: &(impl Abort + AllocGlobal), mut builder: Builder, pages: &[Appended]) -> Made {
    let mut all = true;
    for (last, fault, placed, due) in pages {
        let found = append(rt, &mut builder, *last);
        let counts = [builder.placed(), builder.due()];
        all = found == *fault && counts == [*placed, *due] && all;
    }
    if all { Some(made_by(builder)) } else { None }
}

/// Large pages have four times the words.
const LARGE: [Appended; 2] = [(NOP, None, 4096, 1), (RET, None, 4097, 0)];

/// A need is unmet by the page behind it, and met by another one.
const OVER_A_SEAM: [Appended; 3] = [
    (LOAD_LINK, None, 1024, 1),
    (
        NOP,
        Some(Fault {
            word: 1024,
            rule: Rule::NeedMet,
        }),
        1024,
        1,
    ),
    (GUARD_LINK, None, 1025, 0),
];

/// The last word opens nothing.
const LAST: [Appended; 2] = [
    (
        MOVE_STACK,
        Some(Fault {
            word: 0,
            rule: Rule::NeedMet,
        }),
        0,
        1,
    ),
    (RET, None, 1, 0),
];

/// A fault inside a page comes back.
const INSIDE: [Appended; 1] = [(
    UNKNOWN,
    Some(Fault {
        word: 0,
        rule: Rule::Spelled,
    }),
    0,
    1,
)];

#[test]
fn pages_are_appended(rt: HostRuntime) {
    let (one, small) = (Profile::One, PageSize::SMALL);
    let two_words = Extent::of(WordCount::of(2), 1, one, small);
    let large = Extent::of(WordCount::of(4097), 0, Profile::Two, PageSize::LARGE);
    let two_pages = Extent::of(WordCount::of(1025), 0, one, small);
    let one_word = Extent::of(WordCount::of(1), 0, one, small);
    let (first, third, last) = (
        ModuleNumber::at(0),
        ModuleNumber::at(3),
        ModuleNumber::at(15),
    );
    let seam = [1025, 1025, 0, 0, LOAD_LINK, GUARD_LINK];
    let rows: [(Extent, ModuleNumber, &[Appended], Result<Numbers, [u32; 4]>); 6] = [
        // Unfinished, it comes back.
        (two_words, third, &[], Err([2, 0, 1, 3])),
        (
            two_words,
            third,
            &[(RET, None, 2, 0)],
            Ok([2, 2, 1, 3, NOP, RET]),
        ),
        (large, first, &LARGE, Ok([4097, 4097, 0, 0, NOP, RET])),
        (two_pages, first, &OVER_A_SEAM, Ok(seam)),
        (one_word, first, &LAST, Ok([1, 1, 0, 0, RET, RET])),
        (one_word, last, &INSIDE, Err([1, 0, 0, 15])),
    ];
    for (place, (extent, slot, pages, want)) in rows.iter().enumerate() {
        let builder = Builder::new(rt.alloc(), *extent, *slot).expect(&rt, "no builder");
        let made = made(&rt, builder, *pages);
        assert!(rt; made == Some(*want), "row {place}");
    }
}

#[test]
fn places_are_reserved_before_the_module_is_known(rt: HostRuntime) {
    let memory = PageMemory::new(rt.alloc(), WordCount::MOST).expect(&rt, "no places");
    let extent = Extent::of(WordCount::of(1025), 1024, Profile::One, PageSize::SMALL);
    assert!(rt; extent.words().number() <= memory.words().number());
    let builder = Builder::in_memory(memory, extent, ModuleNumber::at(15));
    let made = made(&rt, builder, &[(NOP, None, 1024, 1), (RET, None, 1025, 0)]);
    assert!(rt; made == Some(Ok([1025, 1025, 1024, 15, NOP, RET])));
}

/// The numbers that a builder comes to which was asked for its image before its page came.
fn made_after(rt: &(impl Abort + AllocGlobal), builder: Builder, last: u32) -> Option<Numbers> {
    let Err(mut builder) = builder.finish() else {
        return None;
    };
    append(rt, &mut builder, last);
    made_by(builder).ok()
}

#[test]
fn a_builder_that_comes_back_takes_its_page(rt: HostRuntime) {
    let two_words = Extent::of(WordCount::of(2), 1, Profile::One, PageSize::SMALL);
    let builder = Builder::new(rt.alloc(), two_words, ModuleNumber::at(3)).expect(
        &rt,
        "no builder",
    );
    assert!(rt; made_after(&rt, builder, RET) == Some([2, 2, 1, 3, NOP, RET]));
}
