//! Sequences: the items of a module in every order, twice, past an End, and of other words.

use crate::items::{NOP, Part, UNKNOWN, WORDS, extent_of, item_of, mark, module, pooled};
use a64_word::Words;
use lfi_board::Board;
use lfi_image::CompleteImage;
use lfi_model::{Outcome, Reason};
use lfi_module::{Extent, PageSize, Profile, WordCount};
use lfi_rules::{Fault, Rule};
use lfi_sequence::{ImageState, ModuleReport, NearbyWords, Sequence};
use page_buf::PoolMember;
use std::process::Abort;

/// The items of a lawful module, in their order.
const LAWFUL: [Part; 5] = [
    Part::Open,
    Part::Page(0, 0x9100_0000),
    Part::Page(1, 0x9100_0400),
    Part::Page(2, 0x9100_0800),
    Part::End(3, Reason::Close),
];

/// The same, where the second page ends with a word that the profile doesn't spell.
const UNLAWFUL: [Part; 5] = [
    Part::Open,
    Part::Page(0, 0x9100_0000),
    Part::Page(1, UNKNOWN),
    Part::Page(2, 0x9100_0800),
    Part::End(3, Reason::Close),
];

/// The words near a fault, with zeros behind them, how many they are, and which of them is the one at its place.
#[derive(Clone, Copy, PartialEq, Eq)]
struct Near {
    words: [u32; 6],
    count: usize,
    at: usize,
}

/// Those that a report has.
fn near_of(near: &NearbyWords) -> Near {
    let mut words = [0; 6];
    for place in 0..near.count().min(6) {
        words[place] = near.word(place);
    }
    Near {
        words,
        count: near.count(),
        at: near.at(),
    }
}

/// What became of a module.
#[derive(Clone, Copy, PartialEq, Eq)]
struct Seen {
    outcome: Outcome,
    /// How many words of its image are placed; none where it wasn't opened.
    placed: Option<u32>,
    /// The words near the one that it was refused for.
    refused: Option<Near>,
    /// Where it is whole, the entry, and the words at 1,023, 2,047 and 2,048.
    whole: Option<[u32; 4]>,
}

/// What became of the lawful module.
const WHOLE: Seen = Seen {
    outcome: Outcome::Complete { words: 2049 },
    placed: Some(2049),
    refused: None,
    whole: Some([7, 0x9100_0000, 0x9100_0400, 0x9100_0800]),
};

/// What became of the other one.
const UNSPELLED: Seen = Seen {
    outcome: Outcome::Refused(Fault {
        word: 2047,
        rule: Rule::Spelled,
    }),
    placed: Some(1024),
    refused: Some(Near {
        words: [NOP, NOP, NOP, NOP, UNKNOWN, 0],
        count: 5,
        at: 4,
    }),
    whole: None,
};

/// The entry and the words at the ends of the pages of a whole module; none where its words or its slot aren't those of
/// the items.
fn ends_of(image: &CompleteImage) -> Option<[u32; 4]> {
    if image.placed() == WORDS && image.slot().number() == 3 {
        Some([
            image.entry(),
            image.word(1023),
            image.word(2047),
            image.word(2048),
        ])
    } else {
        None
    }
}

/// The words near the one that a module was refused for; none where what is told beside them isn't that of this module.
fn refused_for(report: &ModuleReport) -> Option<Near> {
    match (&report.refused, &report.image) {
        (Some(told), ImageState::Part(builder))
            if told.slot == module()
                && told.extent == builder.extent()
                && report.outcome == Outcome::Refused(told.refusal.fault) => {
            Some(near_of(&told.refusal.near))
        }
        _ => None,
    }
}

/// What a report tells.
fn told(report: ModuleReport) -> Seen {
    let (placed, whole) = match &report.image {
        ImageState::Absent => (None, None),
        ImageState::Part(builder) => (Some(builder.placed()), None),
        ImageState::Whole(image) => (Some(image.placed()), ends_of(image)),
    };
    Seen {
        outcome: report.outcome,
        placed,
        refused: refused_for(&report),
        whole,
    }
}

/// The extents of the first item and of the later ones.
type Extents = [Extent; 2];

/// What became of a module whose items came in this order, and how many pages are in its pool.
fn placed(rt: &(impl Abort + AllocGlobal), extents: Extents, parts: &[Part]) -> (Seen, u64) {
    let mut member = PoolMember::new(rt.alloc()).expect(rt, "no pool");
    let other = member.another().expect(rt, "no other member");
    let (_, mut seats) = Board::new(rt.alloc(), 1, 1).expect(rt, "no board");
    let seat = seats.sequencers.swap_remove(3);
    let mut sequence = Sequence::new(rt.alloc(), seat, other).expect(rt, "no sequence");
    let [mut extent, later] = extents;
    for part in parts {
        sequence.handle(item_of(rt, extent, *part).judge());
        extent = later;
    }
    let seen = told(sequence.into_report());
    (seen, pooled(&mut member))
}

/// The module of the items.
fn usual() -> Extents {
    [extent_of(WordCount::of(WORDS), Profile::One); 2]
}

/// Order `number` of five things, by their places: each number below 120 gives another one.
fn order(number: usize) -> [usize; 5] {
    let mut order = [0; 5];
    let mut left = number;
    for next in 0..5usize {
        let place = left % (next + 1);
        left /= next + 1;
        order.copy_within(place..next, place + 1);
        order[place] = next;
    }
    order
}

/// The first order of these parts that doesn't come to this.
fn first_other(rt: &(impl Abort + AllocGlobal), parts: &[Part; 5], want: Seen) -> Option<usize> {
    for number in 0..120 {
        let ordered = order(number).map(|place| parts[place.min(4)]);
        let (seen, _) = placed(rt, usual(), &ordered);
        if seen != want {
            return Some(number);
        }
    }
    None
}

/// How many of the orders before this one are the same.
fn same_before(number: usize) -> usize {
    let mut same = 0usize;
    for before in 0..number {
        same = same.saturating_add(usize::from(order(before) == order(number)));
    }
    same
}

#[test]
fn each_order_is_another(rt: HostRuntime) {
    for number in 0..120usize {
        assert!(rt; same_before(number) == 0, "{number}");
    }
}

#[test]
fn every_order_comes_to_the_same(rt: HostRuntime) {
    let lawful = first_other(&rt, &LAWFUL, WHOLE);
    let unlawful = first_other(&rt, &UNLAWFUL, UNSPELLED);
    assert!(rt; lawful.is_none() && unlawful.is_none());
}

/// What became of a module that isn't whole: its outcome and how many words are placed.
fn part(outcome: Outcome, placed: Option<u32>) -> Seen {
    Seen {
        outcome,
        placed,
        refused: None,
        whole: None,
    }
}

/// What became of a module whose word behind those that are placed breaks a rule, and these are near it.
fn refused(rule: Rule, placed: u32, near: Near) -> Seen {
    Seen {
        outcome: Outcome::Refused(Fault { word: placed, rule }),
        placed: Some(placed),
        refused: Some(near),
        whole: None,
    }
}

/// LDR X30, [X21], which only BLR X30 may follow.
const LOAD_LINK: u32 = 0xF940_02BE;

#[test]
fn items_are_placed(rt: HostRuntime) {
    let [open, first, second, third, end] = LAWFUL;
    let unmet = [open, Part::Page(0, LOAD_LINK), second, third, end];
    let one = extent_of(WordCount::of(1), Profile::One);
    let alone = [open, Part::Page(0, UNKNOWN), Part::End(1, Reason::Close)];
    let early = Part::End(1, Reason::PageFault(2));
    let ended = part(Outcome::PageFault(2), Some(1024));
    let across = Near {
        words: [NOP, NOP, NOP, LOAD_LINK, NOP, NOP],
        count: 6,
        at: 4,
    };
    let lonely = Near {
        words: [UNKNOWN, 0, 0, 0, 0, 0],
        count: 1,
        at: 0,
    };
    let rows: [(Extents, &[Part], Seen); 5] = [
        // A need is unmet by the next page.
        (usual(), &unmet, refused(Rule::NeedMet, 1024, across)),
        // Nothing is before the first word, or after the last.
        ([one; 2], &alone, refused(Rule::Spelled, 0, lonely)),
        // Nothing follows an End.
        (usual(), &[open, first, early, third], ended),
        (usual(), &[third, early, first, open], ended),
        // No item is no module.
        (usual(), &[], part(Outcome::Unused, None)),
    ];
    for (place, (extents, parts, want)) in rows.iter().enumerate() {
        let (seen, _) = placed(&rt, *extents, *parts);
        assert!(rt; seen == *want, "row {place}");
    }
}

#[test]
fn a_large_page_is_placed_at_once(rt: HostRuntime) {
    let large = Extent::of(WordCount::of(WORDS), 7, Profile::Two, PageSize::LARGE);
    let whole = Seen {
        whole: Some([7, NOP, NOP, mark(1)]),
        ..WHOLE
    };
    let (page, end) = (Part::Page(0, mark(1)), Part::End(1, Reason::Close));
    for parts in [[Part::Open, page, end], [end, page, Part::Open]].iter() {
        let (seen, _) = placed(&rt, [large; 2], parts);
        assert!(rt; seen == whole);
    }
}

#[test]
fn pages_that_are_not_placed_go_to_the_pool(rt: HostRuntime) {
    let [open, first, second, third, end] = LAWFUL;
    let unlawful = Part::Page(1, UNKNOWN);
    let again = Part::Page(0, mark(99));
    let rows = [
        ([open, first, second, third, end, end], WHOLE, 0),
        ([open, first, unlawful, third, end, end], UNSPELLED, 2),
        ([third, unlawful, first, open, end, end], UNSPELLED, 2),
        // The first of an ordinal is placed.
        ([open, first, again, second, third, end], WHOLE, 1),
        ([first, again, open, second, third, end], WHOLE, 1),
        ([end, first, second, again, third, open], WHOLE, 1),
        ([open, first, second, third, end, again], WHOLE, 1),
    ];
    for (place, (parts, seen, count)) in rows.iter().enumerate() {
        let found = placed(&rt, usual(), parts);
        assert!(rt; found == (*seen, *count), "row {place}");
    }
}

#[test]
fn items_of_other_extents_never_come(rt: HostRuntime) {
    let words = WordCount::of(WORDS);
    let [own, _] = usual();
    let small = extent_of(words, Profile::Two);
    let large = Extent::of(words, 7, Profile::Two, PageSize::LARGE);
    let late = Extent::of(words, 8, Profile::One, PageSize::SMALL);
    let page = Part::Page(0, mark(1));
    let parts = [Part::Page(0, mark(99)), Part::Open, Part::Page(1, mark(1))];
    for (first, later, parts) in [
        (extent_of(WordCount::of(1030), Profile::One), own, parts),
        (small, own, parts),
        (late, own, parts),
        // Pages of the other size.
        (small, large, [Part::Open, page, page]),
        (large, small, [Part::Open, page, page]),
    ]
    .iter()
    {
        let (seen, _) = placed(&rt, [*first, *later], parts);
        assert!(rt; seen == part(Outcome::Unused, Some(0)));
    }
}
