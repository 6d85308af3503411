//! Modules page by page: the verdict on a page, and the verdicts one after another.
ghost use Rattle.std.specs.Prelude.{◌≤◌};

use crate::row::Row;
use crate::words::{PROFILES, fault_of};
use lfi_module::Profile;
use lfi_rules::{Fault, Need, PageVerdict, Rule, fault_after, judge, leave, seam};
use std::test::Fail;

const NOP: u32 = 0xD503201F;
/// The guard of x30 by itself.
const GUARD: u32 = 0x8B3E42BE;

/// The verdict on a page that stands in a module of n words from `first` on, by a profile.
pub fn verdict_of(
    words: &[u32],
    first: u32,
    n: u32,
    profile: Profile,
) -> Result<PageVerdict, Fail> {
    if words.is_empty() || n > 4_194_304 || first > n || words.len() > (n - first) as usize {
        return Err(Fail::new("the page doesn't fit"));
    }
    Ok(judge(&Row(words), first, n, profile))
}

/// The first fault once a page of `count` words comes after words that leave `tail` open.
pub fn fault_with(
    n: u32,
    tail: Need,
    verdict: &PageVerdict,
    count: usize,
) -> Result<Option<Fault>, Fail> {
    if n == 0 || n > 4_194_304 || verdict.first > n || count > (n - verdict.first) as usize {
        return Err(Fail::new("the page doesn't fit"));
    }
    Ok(fault_after(n, tail, verdict, count))
}

/// The first fault of a module that is cut into pages of `size` words, by their verdicts.
pub fn fault_by_pages(words: &[u32], size: usize, profile: Profile) -> Result<Option<Fault>, Fail>
    requires { 1 ≤ size }
{
    let n = u32::try_from(words.len())?;
    let mut left = Need::Nothing;
    let mut first = 0u32;
    for page in words.chunks(size) {
        let verdict = verdict_of(page, first, n, profile)?;
        let fault = fault_with(n, left, &verdict, page.len())?;
        if fault.is_some() {
            return Ok(fault);
        }
        left = leave(left, &verdict);
        first = first.saturating_add(u32::try_from(page.len())?);
    }
    Ok(None)
}

/// The first fault of a module that is cut in two, by the verdicts on its parts.
fn fault_of_two(left: &[u32], right: &[u32], profile: Profile) -> Result<Option<Fault>, Fail> {
    let at = u32::try_from(left.len())?;
    let n = at.saturating_add(u32::try_from(right.len())?);
    let first = verdict_of(left, 0, n, profile)?;
    let second = verdict_of(right, at, n, profile)?;
    let fault = fault_with(n, Need::Nothing, &first, left.len())?;
    if fault.is_some() {
        return Ok(fault);
    }
    fault_with(n, leave(Need::Nothing, &first), &second, right.len())
}

/// Small modules, which are cut in every way.
const SMALL: [&[u32]; 9] = [
    &[0xF94006BE, 0xD63F03C0, NOP, 0xD65F03C0],
    &[0xF94006BE, NOP, 0xD63F03C0, NOP],
    &[NOP, 0xA8C17BFD, GUARD, 0xD10043FF, 0xF90003E0],
    &[NOP, 0xA8C17BFD, NOP, 0xD10043FF, 0xF90003E0],
    &[0xD10043FF, 0xD4000001],
    &[0xD10043FF, 0xAA0003F5, 0xD4000001],
    &[0xF94802BE, GUARD, 0xF94006BE],
    &[NOP, 0x14000003, NOP, 0xD65F03C0],
    &[NOP, NOP, 0xF9400020, 0xF94006BE, 0x17FFFFFB],
];

/// The first place at which a module is cut in two so that its fault is another than that of its words together.
fn first_other_cut(words: &[u32], profile: Profile) -> Result<Option<usize>, Fail> {
    let whole = fault_of(words, profile);
    for at in 1..words.len() {
        let (left, right) = words.split_at(at);
        if fault_of_two(left, right, profile)? != whole {
            return Ok(Some(at));
        }
    }
    Ok(None)
}

/// The first size of pages by which a module's fault is another than that of its words together.
fn first_other(words: &[u32], sizes: &[usize], profile: Profile) -> Result<Option<usize>, Fail> {
    let whole = fault_of(words, profile);
    for size in sizes {
        if *size > 0 && fault_by_pages(words, *size, profile)? != whole {
            return Ok(Some(*size));
        }
    }
    Ok(None)
}

#[test]
fn cuts_small_modules(rt: HostRuntime) -> Result<(), Fail> {
    for words in SMALL {
        for profile in PROFILES {
            let other = first_other_cut(words, profile)?;
            assert!(rt; other == None, "{words:?} at {other:?}");
        }
    }
    Ok(())
}

#[test]
fn judges_a_page(rt: HostRuntime) -> Result<(), Fail> {
    let verdict = verdict_of(
        &[0xF9400240, 0xF9400020, 0xD10043FF],
        1024,
        1100,
        Profile::One,
    )?;
    let inner = Some(Fault {
        word: 1025,
        rule: Rule::AccessConfined,
    });
    let unmet = Some(Fault {
        word: 1024,
        rule: Rule::NeedMet,
    });
    let head = verdict.head;
    let found = (verdict.first, verdict.inner, verdict.tail);
    assert!(rt; found == (1024, inner, Need::Probe(1)));
    assert!(rt; [head.call, head.guard, head.probe] == [false; 3]);
    assert!(rt; [seam(Need::Nothing, &verdict), seam(Need::Guard, &verdict)] == [inner, unmet]);
    Ok(())
}

/// One word, whether it meets Call, Guard and Probe, and what it opens.
const HEADS_AND_TAILS: [(u32, bool, bool, bool, Need); 9] = [
    (NOP, false, false, false, Need::Nothing),
    (0xD63F03C0, true, false, false, Need::Nothing),
    (GUARD, false, true, false, Need::Nothing),
    (0xF90003E0, false, false, true, Need::Nothing),
    (0xD4000001, false, false, false, Need::Nothing),
    (0xF94006BE, false, false, false, Need::Call),
    (0xF9400A5E, false, false, false, Need::Guard),
    (0xF94003FE, false, false, true, Need::Guard),
    (0xD10043FF, false, false, false, Need::Probe(4)),
];

#[test]
fn judges_heads_and_tails(rt: HostRuntime) -> Result<(), Fail> {
    for (word, call, guard, probe, tail) in HEADS_AND_TAILS {
        let verdict = verdict_of(&[word], 0, 4_194_304, Profile::Two)?;
        let head = verdict.head;
        let found = (head.call, head.guard, head.probe, verdict.tail);
        assert!(rt; found == (call, guard, probe, tail), "{word:#x}");
    }
    Ok(())
}

/// Pages of two words from place 5 on, and their first fault after an open Guard: that the need isn't met comes after
/// what the first word breaks by itself, and before any later word.
const SEAMS: [([u32; 2], u32, Rule); 4] = [
    ([NOP, 0xD4000001], 5, Rule::NeedMet),
    ([0xD4000001, NOP], 5, Rule::Spelled),
    ([0xF9400020, 0xD4000001], 5, Rule::AccessConfined),
    ([GUARD, 0xD4000001], 6, Rule::Spelled),
];

#[test]
fn orders_faults_at_a_seam(rt: HostRuntime) -> Result<(), Fail> {
    for (words, word, rule) in SEAMS {
        let verdict = verdict_of(&words, 5, 7, Profile::Two)?;
        assert!(rt;
            seam(Need::Guard, &verdict) == Some(Fault { word, rule }),
            "{words:?}"
        );
    }
    Ok(())
}

/// One word, its place, how many words the module has, and whether its branch stays inside.
const FAR_BRANCHES: [(u32, u32, u32, bool); 6] = [
    (0x143FFFFF, 0, 4_194_304, true),
    (0x14400000, 0, 4_194_304, false),
    (0x17C00001, 4_194_303, 4_194_304, true),
    (0x17C00000, 4_194_303, 4_194_304, false),
    (0x14000001, 1023, 1025, true),
    (0x14000002, 1023, 1025, false),
];

/// Direct branches in the largest module, and in a page of one.
#[test]
fn judges_far_branches(rt: HostRuntime) -> Result<(), Fail> {
    for (word, first, n, stays) in FAR_BRANCHES {
        let verdict = verdict_of(&[word], first, n, Profile::Two)?;
        let outside = Some(Fault {
            word: first,
            rule: Rule::TargetInside,
        });
        let expected = if stays { None } else { outside };
        assert!(rt; verdict.inner == expected, "{word:#x}");
    }
    Ok(())
}

/// Words that stand in a module of 2,100 words, all others NOP, from a place on; and its first fault.
const LARGE: [(usize, &[u32], Option<Fault>); 24] = [
    (0, &[NOP], None),
    (
        0,
        &[0xD4000001],
        Some(Fault {
            word: 0,
            rule: Rule::Spelled,
        }),
    ),
    (
        1023,
        &[0xD4000001],
        Some(Fault {
            word: 1023,
            rule: Rule::Spelled,
        }),
    ),
    (
        1024,
        &[0xAA0003F5],
        Some(Fault {
            word: 1024,
            rule: Rule::BaseKept,
        }),
    ),
    (
        2099,
        &[0xF9400256],
        Some(Fault {
            word: 2099,
            rule: Rule::OffsetNarrow,
        }),
    ),
    (1022, &[0xF94006BE, 0xD63F03C0], None),
    (1023, &[0xF94006BE, 0xD63F03C0], None),
    (1024, &[0xF94006BE, 0xD63F03C0], None),
    (
        1023,
        &[0xF94006BE],
        Some(Fault {
            word: 1024,
            rule: Rule::NeedMet,
        }),
    ),
    (999, &[0xA8C17BFD, GUARD], None),
    (
        999,
        &[0xA8C17BFD],
        Some(Fault {
            word: 1000,
            rule: Rule::NeedMet,
        }),
    ),
    (1023, &[0xA8C17BFD, GUARD], None),
    (
        1023,
        &[0xA8C17BFD, 0xF90003E0],
        Some(Fault {
            word: 1024,
            rule: Rule::NeedMet,
        }),
    ),
    (2047, &[0xD10043FF, 0xF90003E0], None),
    (
        2047,
        &[0xD10043FF, 0xF90007E0],
        Some(Fault {
            word: 2048,
            rule: Rule::NeedMet,
        }),
    ),
    (
        2047,
        &[0xD10043FF, 0xD4000001],
        Some(Fault {
            word: 2048,
            rule: Rule::Spelled,
        }),
    ),
    (
        2047,
        &[0xD10043FF, 0xD10043FF],
        Some(Fault {
            word: 2048,
            rule: Rule::NeedMet,
        }),
    ),
    (2098, &[0xD10043FF, 0xF90003E0], None),
    (
        2099,
        &[0xD10043FF],
        Some(Fault {
            word: 2099,
            rule: Rule::NeedMet,
        }),
    ),
    (
        2099,
        &[0xF94006BE],
        Some(Fault {
            word: 2099,
            rule: Rule::NeedMet,
        }),
    ),
    (1000, &[0x1400044B], None),
    (
        1000,
        &[0x1400044C],
        Some(Fault {
            word: 1000,
            rule: Rule::TargetInside,
        }),
    ),
    (1000, &[0x17FFFC18], None),
    (
        1000,
        &[0x17FFFC17],
        Some(Fault {
            word: 1000,
            rule: Rule::TargetInside,
        }),
    ),
];

/// The sizes of pages in which these modules are cut.
const SIZES: [usize; 13] = [
    1, 2, 3, 7, 100, 1000, 1001, 1023, 1024, 1025, 2048, 2099, 2100,
];

/// Whether a module of 2,100 words, with these from a place on and all others NOP, has a first fault, however it is cut.
fn has_fault(
    rt: &HostRuntime,
    at: usize,
    changed: &[u32],
    expected: Option<Fault>,
    profile: Profile,
) -> Result<bool, Fail> {
    let mut words = Vec::with_capacity(rt.alloc(), 2100)?;
    for place in 0..2100usize {
        let word = changed.get(place.wrapping_sub(at)).copied();
        words.push(word.unwrap_or(NOP))?;
    }
    Ok(fault_of(&words, profile) == expected && first_other(&words, &SIZES, profile)? == None)
}

#[test]
fn cuts_large_modules(rt: HostRuntime) -> Result<(), Fail> {
    for (at, changed, expected) in &LARGE {
        for profile in PROFILES {
            assert!(rt; has_fault(&rt, *at, changed, *expected, profile)?, "{at}");
        }
    }
    Ok(())
}
