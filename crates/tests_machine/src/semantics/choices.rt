//! What conditions choose.
use crate::semantics::rows::Row;
use a64_semantics::Flags;
use a64_word::Condition;

/// CSEL, CSINC, CSINV and CSNEG.
pub const SELECTED: [Row; 36] = [
    (0x9A820020, [1, 0, 0], 0, 0, 0), // CSEL X0, X1, X2, EQ
    (
        0x9A820020,
        [1, 0xFFFFFFFFFFFFFFFF, 0],
        0,
        0xFFFFFFFFFFFFFFFF,
        0,
    ), // CSEL X0, X1, X2, EQ
    (
        0x9A820020,
        [1, 0x8000000000000000, 0],
        0,
        0x8000000000000000,
        0,
    ), // CSEL X0, X1, X2, EQ
    (0x9A820020, [1, 5, 0], 0, 5, 0), // CSEL X0, X1, X2, EQ
    (0x1A821020, [1, 0xABCDEF0100000000, 0], 4, 0, 4), // CSEL W0, W1, W2, NE
    (0x1A821020, [1, 0xFFFFFFFF, 0], 4, 0xFFFFFFFF, 4), // CSEL W0, W1, W2, NE
    (0x1A821020, [1, 0x80000000, 0], 4, 0x80000000, 4), // CSEL W0, W1, W2, NE
    (
        0x9A824020,
        [0xF0F0123480000001, 0xFF00FFFF80000003, 0],
        8,
        0xF0F0123480000001,
        8,
    ), // CSEL X0, X1, X2, MI
    (
        0x1A826020,
        [0xF0F0123480000001, 0xFF00FFFF80000003, 0],
        1,
        0x80000001,
        1,
    ), // CSEL W0, W1, W2, VS
    (0x9A820420, [1, 0, 0], 0, 1, 0), // CSINC X0, X1, X2, EQ
    (0x9A820420, [1, 0xFFFFFFFFFFFFFFFF, 0], 0, 0, 0), // CSINC X0, X1, X2, EQ
    (
        0x9A820420,
        [1, 0x8000000000000000, 0],
        0,
        0x8000000000000001,
        0,
    ), // CSINC X0, X1, X2, EQ
    (0x9A820420, [1, 5, 0], 0, 6, 0), // CSINC X0, X1, X2, EQ
    (0x1A821420, [1, 0xABCDEF0100000000, 0], 4, 1, 4), // CSINC W0, W1, W2, NE
    (0x1A821420, [1, 0xFFFFFFFF, 0], 4, 0, 4), // CSINC W0, W1, W2, NE
    (0x1A821420, [1, 0x80000000, 0], 4, 0x80000001, 4), // CSINC W0, W1, W2, NE
    (
        0x9A824420,
        [0xF0F0123480000001, 0xFF00FFFF80000003, 0],
        8,
        0xF0F0123480000001,
        8,
    ), // CSINC X0, X1, X2, MI
    (
        0x1A826420,
        [0xF0F0123480000001, 0xFF00FFFF80000003, 0],
        1,
        0x80000001,
        1,
    ), // CSINC W0, W1, W2, VS
    (0xDA820020, [1, 0, 0], 0, 0xFFFFFFFFFFFFFFFF, 0), // CSINV X0, X1, X2, EQ
    (0xDA820020, [1, 0xFFFFFFFFFFFFFFFF, 0], 0, 0, 0), // CSINV X0, X1, X2, EQ
    (
        0xDA820020,
        [1, 0x8000000000000000, 0],
        0,
        0x7FFFFFFFFFFFFFFF,
        0,
    ), // CSINV X0, X1, X2, EQ
    (0xDA820020, [1, 5, 0], 0, 0xFFFFFFFFFFFFFFFA, 0), // CSINV X0, X1, X2, EQ
    (0x5A821020, [1, 0xABCDEF0100000000, 0], 4, 0xFFFFFFFF, 4), // CSINV W0, W1, W2, NE
    (0x5A821020, [1, 0xFFFFFFFF, 0], 4, 0, 4), // CSINV W0, W1, W2, NE
    (0x5A821020, [1, 0x80000000, 0], 4, 0x7FFFFFFF, 4), // CSINV W0, W1, W2, NE
    (
        0xDA824020,
        [0xF0F0123480000001, 0xFF00FFFF80000003, 0],
        8,
        0xF0F0123480000001,
        8,
    ), // CSINV X0, X1, X2, MI
    (
        0x5A826020,
        [0xF0F0123480000001, 0xFF00FFFF80000003, 0],
        1,
        0x80000001,
        1,
    ), // CSINV W0, W1, W2, VS
    (0xDA820420, [1, 0, 0], 0, 0, 0), // CSNEG X0, X1, X2, EQ
    (0xDA820420, [1, 0xFFFFFFFFFFFFFFFF, 0], 0, 1, 0), // CSNEG X0, X1, X2, EQ
    (
        0xDA820420,
        [1, 0x8000000000000000, 0],
        0,
        0x8000000000000000,
        0,
    ), // CSNEG X0, X1, X2, EQ
    (0xDA820420, [1, 5, 0], 0, 0xFFFFFFFFFFFFFFFB, 0), // CSNEG X0, X1, X2, EQ
    (0x5A821420, [1, 0xABCDEF0100000000, 0], 4, 0, 4), // CSNEG W0, W1, W2, NE
    (0x5A821420, [1, 0xFFFFFFFF, 0], 4, 1, 4), // CSNEG W0, W1, W2, NE
    (0x5A821420, [1, 0x80000000, 0], 4, 0x80000000, 4), // CSNEG W0, W1, W2, NE
    (
        0xDA824420,
        [0xF0F0123480000001, 0xFF00FFFF80000003, 0],
        8,
        0xF0F0123480000001,
        8,
    ), // CSNEG X0, X1, X2, MI
    (
        0x5A826420,
        [0xF0F0123480000001, 0xFF00FFFF80000003, 0],
        1,
        0x80000001,
        1,
    ), // CSNEG W0, W1, W2, VS
];

/// CCMP and CCMN, which write flags alone.
pub const COMPARED: [Row; 24] = [
    (0xFA42002A, [5, 5, 0x4D], 4, 0x4D, 6), // CCMP X1, X2, #10, EQ
    (0xFA42002A, [5, 5, 0x4D], 11, 0x4D, 10), // CCMP X1, X2, #10, EQ
    (0xFA421025, [0x8000000000000000, 1, 0x4D], 0, 0x4D, 3), // CCMP X1, X2, #5, NE
    (0xFA421020, [0x8000000000000000, 1, 0x4D], 4, 0x4D, 0), // CCMP X1, X2, #0, NE
    (0xFA5F882F, [0x1F, 0, 0x4D], 2, 0x4D, 6), // CCMP X1, #31, #15, HI
    (0xFA409823, [0, 0, 0x4D], 0, 0x4D, 6), // CCMP X1, #0, #3, LS
    (0x7A42A027, [0xABCDEF0100000005, 5, 0x4D], 9, 0x4D, 6), // CCMP W1, W2, #7, GE
    (0x7A42B021, [0x80000000, 1, 0x4D], 9, 0x4D, 1), // CCMP W1, W2, #1, LT
    (0x7A42B021, [0x80000000, 1, 0x4D], 8, 0x4D, 3), // CCMP W1, W2, #1, LT
    (0x7A5FE822, [0xFFFFFFFF, 0, 0x4D], 0, 0x4D, 10), // CCMP W1, #31, #2, AL
    (0x7A41C828, [0xABCDEF0100000000, 0, 0x4D], 0, 0x4D, 8), // CCMP W1, #1, #8, GT
    (0x7A41D828, [0xABCDEF0100000000, 0, 0x4D], 0, 0x4D, 8), // CCMP W1, #1, #8, LE
    (0xBA42002A, [5, 5, 0x4D], 4, 0x4D, 0), // CCMN X1, X2, #10, EQ
    (0xBA42002A, [5, 5, 0x4D], 11, 0x4D, 10), // CCMN X1, X2, #10, EQ
    (0xBA421025, [0x8000000000000000, 1, 0x4D], 0, 0x4D, 8), // CCMN X1, X2, #5, NE
    (0xBA421020, [0x8000000000000000, 1, 0x4D], 4, 0x4D, 0), // CCMN X1, X2, #0, NE
    (0xBA5F882F, [0x1F, 0, 0x4D], 2, 0x4D, 0), // CCMN X1, #31, #15, HI
    (0xBA409823, [0, 0, 0x4D], 0, 0x4D, 4), // CCMN X1, #0, #3, LS
    (0x3A42A027, [0xABCDEF0100000005, 5, 0x4D], 9, 0x4D, 0), // CCMN W1, W2, #7, GE
    (0x3A42B021, [0x80000000, 1, 0x4D], 9, 0x4D, 1), // CCMN W1, W2, #1, LT
    (0x3A42B021, [0x80000000, 1, 0x4D], 8, 0x4D, 8), // CCMN W1, W2, #1, LT
    (0x3A5FE822, [0xFFFFFFFF, 0, 0x4D], 0, 0x4D, 2), // CCMN W1, #31, #2, AL
    (0x3A41C828, [0xABCDEF0100000000, 0, 0x4D], 0, 0x4D, 0), // CCMN W1, #1, #8, GT
    (0x3A41D828, [0xABCDEF0100000000, 0, 0x4D], 0, 0x4D, 8), // CCMN W1, #1, #8, LE
];

/// Each condition, and the flags at which it holds: bit n stands for the flags whose number is n.
const HOLDS: [(Condition, u16); 16] = [
    (Condition::Eq, 0xF0F0),
    (Condition::Ne, 0x0F0F),
    (Condition::Cs, 0xCCCC),
    (Condition::Cc, 0x3333),
    (Condition::Mi, 0xFF00),
    (Condition::Pl, 0x00FF),
    (Condition::Vs, 0xAAAA),
    (Condition::Vc, 0x5555),
    (Condition::Hi, 0x0C0C),
    (Condition::Ls, 0xF3F3),
    (Condition::Ge, 0xAA55),
    (Condition::Lt, 0x55AA),
    (Condition::Gt, 0x0A05),
    (Condition::Le, 0xF5FA),
    (Condition::Al, 0xFFFF),
    (Condition::Nv, 0xFFFF),
];

/// The place of the first condition, and the number of the first flags at which it is otherwise, or which have another number.
fn first_other() -> Option<(usize, u8)> {
    for (place, (condition, at)) in HOLDS.iter().enumerate() {
        for number in 0..16u8 {
            let flags = Flags::of_number(number);
            let holds = (*at >> number) & 1 == 1;
            if flags.holds(*condition) != holds || flags.number() != number {
                return Some((place, number));
            }
        }
    }
    None
}

#[test]
fn conditions(rt: HostRuntime) {
    let other = first_other();
    assert!(rt; other.is_none(), "{other:?}");
}
