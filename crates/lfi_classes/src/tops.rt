//! The classes of each top part: in a set of classes, bit i stands for class number i, as specs/Classes.antt counts them.
//!
//! Written by checks/class_tables, which gives each set that there is a short name.

const T0: u64 = 0x0;

const T1: u64 = 0x2000;

const T2: u64 = 0x4000;

const T3: u64 = 0x10000;

const T4: u64 = 0x18000;

const T5: u64 = 0x20000;

const T6: u64 = 0x42000;

const T7: u64 = 0x82000;

const T8: u64 = 0x104000;

const T9: u64 = 0x204000;

const T10: u64 = 0x402000;

const T11: u64 = 0x802000;

const T12: u64 = 0x3002000;

const T13: u64 = 0x4000000;

const T14: u64 = 0x8000000;

const T15: u64 = 0x8000002;

const T16: u64 = 0x20000000;

const T17: u64 = 0x60000000;

const T18: u64 = 0x80000000;

const T19: u64 = 0x180000000;

const T20: u64 = 0x200000000;

const T21: u64 = 0x400000000;

const T22: u64 = 0x800000000;

const T23: u64 = 0x1000000000;

const T24: u64 = 0x2000000000;

const T25: u64 = 0x4000000000;

const T26: u64 = 0x8000000000;

const T27: u64 = 0x10004000000;

const T28: u64 = 0x10008000000;

const T29: u64 = 0x20010000000;

const T30: u64 = 0x40080000000;

const T31: u64 = 0x40180000000;

const T32: u64 = 0x80200000000;

const T33: u64 = 0x80400000000;

const T34: u64 = 0x300200000000;

const T35: u64 = 0x400000000000;

const T36: u64 = 0x800000000000;

const T37: u64 = 0x1000000000000;

const T38: u64 = 0x2000000000000;

const T39: u64 = 0x4000000000000;

const T40: u64 = 0x400000000000c;

const T41: u64 = 0x400000000000d;

const T42: u64 = 0x8000000000000;

const T43: u64 = 0x50000000000000;

const T44: u64 = 0x50000000000030;

const T45: u64 = 0xa0000000000000;

const T46: u64 = 0x100000000000000;

const T47: u64 = 0x100000000000040;

const T48: u64 = 0x200000000000000;

const T49: u64 = 0x400000000000000;

const T50: u64 = 0x1800000000000800;

const T51: u64 = 0x1800000000000980;

const T52: u64 = 0x6000000000001000;

const T53: u64 = 0x6000000000001600;

/// By bits 31 to 21 of a word.
pub(crate) static TOPS: [u64; 2048] = [
    T0, T0, T0, T0, T0, T0, T0, T0, T0, T0, T0, T0, T0, T0, T0, T0, T0, T0, T0, T0, T0, T0, T0, T0,
    T0, T0, T0, T0, T0, T0, T0, T0, T0, T0, T0, T0, T0, T0, T0, T0, T0, T0, T0, T0, T0, T0, T0, T0,
    T0, T0, T0, T0, T0, T0, T0, T0, T0, T0, T0, T0, T0, T0, T0, T0, T0, T0, T0, T0, T5, T0, T3, T0,
    T0, T0, T0, T0, T0, T0, T0, T0, T29, T29, T29, T29, T29, T29, T29, T29, T29, T32, T29, T0, T29,
    T0, T0, T0, T0, T0, T0, T0, T0, T0, T0, T0, T0, T0, T0, T0, T0, T0, T0, T0, T0, T0, T0, T0, T0,
    T0, T0, T0, T0, T0, T0, T0, T0, T0, T0, T0, T13, T13, T13, T13, T13, T13, T13, T13, T28, T28,
    T28, T28, T0, T0, T0, T0, T30, T30, T0, T0, T27, T27, T0, T0, T29, T0, T0, T0, T0, T0, T0, T0,
    T6, T1, T1, T1, T1, T1, T1, T1, T1, T1, T1, T1, T1, T1, T1, T1, T1, T1, T1, T1, T1, T1, T1, T1,
    T1, T1, T1, T1, T1, T1, T1, T7, T0, T0, T0, T0, T0, T0, T0, T0, T0, T0, T0, T0, T0, T0, T0, T0,
    T0, T0, T0, T0, T23, T0, T24, T0, T27, T0, T0, T0, T0, T0, T0, T0, T0, T0, T0, T0, T0, T0, T0,
    T0, T0, T0, T0, T0, T0, T0, T0, T0, T0, T0, T0, T0, T0, T0, T0, T0, T0, T0, T0, T0, T0, T0, T0,
    T0, T0, T0, T0, T0, T0, T0, T0, T0, T0, T0, T0, T0, T0, T0, T0, T0, T0, T0, T0, T0, T0, T0, T0,
    T0, T0, T0, T0, T0, T0, T0, T0, T0, T0, T0, T0, T0, T0, T0, T0, T0, T0, T0, T0, T0, T0, T0, T0,
    T0, T0, T0, T0, T0, T0, T0, T0, T0, T0, T0, T0, T0, T0, T0, T0, T0, T0, T0, T0, T0, T49, T49,
    T52, T52, T42, T42, T50, T50, T49, T49, T52, T52, T29, T29, T29, T29, T29, T29, T29, T29, T29,
    T33, T29, T0, T29, T0, T0, T0, T0, T0, T0, T0, T0, T0, T0, T0, T0, T0, T0, T0, T0, T0, T0, T0,
    T0, T0, T0, T0, T0, T0, T0, T0, T0, T0, T0, T0, T0, T0, T0, T0, T13, T13, T13, T13, T13, T13,
    T13, T13, T27, T27, T27, T27, T0, T0, T0, T0, T30, T30, T0, T0, T0, T0, T0, T0, T29, T0, T0,
    T0, T0, T0, T0, T0, T10, T1, T1, T1, T1, T1, T1, T11, T10, T1, T1, T1, T1, T1, T1, T11, T12,
    T12, T12, T12, T12, T12, T12, T12, T12, T12, T12, T12, T12, T12, T12, T12, T45, T48, T43, T46,
    T43, T46, T43, T46, T42, T42, T39, T39, T39, T39, T39, T39, T0, T0, T22, T0, T0, T0, T0, T0,
    T0, T0, T0, T0, T0, T0, T0, T0, T0, T0, T0, T0, T0, T0, T0, T0, T0, T0, T0, T0, T0, T0, T0, T0,
    T0, T0, T0, T0, T0, T0, T0, T0, T0, T0, T0, T0, T0, T0, T0, T0, T0, T0, T0, T0, T0, T0, T0, T0,
    T0, T0, T0, T0, T0, T0, T0, T0, T0, T0, T0, T0, T0, T0, T0, T0, T0, T0, T0, T0, T0, T0, T0, T0,
    T0, T0, T0, T0, T0, T0, T0, T0, T0, T0, T0, T0, T0, T0, T0, T0, T0, T0, T0, T0, T0, T0, T0, T0,
    T0, T0, T0, T0, T0, T0, T0, T0, T0, T0, T0, T0, T5, T0, T3, T0, T0, T0, T0, T0, T0, T0, T0, T0,
    T29, T29, T29, T29, T29, T29, T29, T29, T29, T32, T29, T0, T29, T0, T0, T0, T0, T0, T0, T0, T0,
    T0, T0, T0, T0, T0, T0, T0, T0, T0, T0, T0, T0, T0, T0, T0, T0, T0, T0, T0, T0, T0, T0, T0, T0,
    T0, T0, T0, T13, T13, T13, T13, T13, T13, T13, T13, T28, T28, T28, T28, T0, T0, T0, T0, T30,
    T30, T0, T0, T27, T27, T0, T0, T29, T0, T0, T0, T0, T0, T0, T0, T8, T2, T2, T2, T2, T2, T2, T9,
    T0, T0, T0, T0, T0, T0, T0, T0, T0, T0, T0, T0, T0, T0, T0, T0, T0, T0, T0, T0, T0, T0, T0, T0,
    T0, T0, T0, T0, T0, T0, T0, T0, T0, T0, T0, T0, T0, T0, T0, T0, T0, T0, T0, T0, T23, T0, T25,
    T0, T0, T0, T0, T0, T0, T0, T0, T0, T0, T0, T0, T0, T0, T0, T0, T0, T0, T0, T0, T0, T0, T0, T0,
    T0, T0, T0, T0, T0, T0, T0, T0, T0, T0, T0, T0, T0, T0, T0, T0, T0, T0, T0, T0, T0, T0, T0, T0,
    T0, T0, T0, T0, T0, T0, T0, T0, T0, T0, T0, T0, T0, T0, T0, T0, T0, T0, T0, T0, T0, T0, T0, T0,
    T0, T0, T0, T0, T0, T0, T0, T0, T0, T0, T0, T0, T0, T0, T0, T0, T0, T0, T0, T0, T0, T0, T0, T0,
    T0, T0, T0, T0, T0, T0, T0, T0, T0, T0, T0, T0, T0, T0, T0, T0, T0, T0, T0, T0, T0, T0, T0, T0,
    T0, T29, T29, T29, T29, T29, T29, T29, T29, T29, T33, T29, T0, T29, T0, T0, T0, T0, T0, T0, T0,
    T0, T0, T0, T0, T0, T0, T0, T0, T0, T0, T0, T0, T0, T0, T0, T0, T0, T0, T0, T0, T0, T0, T0, T0,
    T0, T0, T0, T0, T13, T13, T13, T13, T13, T13, T13, T13, T27, T27, T27, T27, T0, T0, T0, T0,
    T31, T31, T0, T0, T27, T27, T0, T0, T0, T0, T0, T0, T0, T0, T0, T0, T0, T0, T0, T0, T0, T0, T0,
    T0, T0, T0, T0, T0, T0, T0, T0, T0, T0, T0, T0, T0, T0, T0, T0, T0, T0, T0, T0, T0, T0, T0, T0,
    T0, T45, T48, T43, T46, T43, T46, T43, T46, T42, T42, T39, T39, T39, T39, T39, T39, T0, T0,
    T22, T0, T0, T0, T0, T0, T0, T0, T0, T0, T0, T0, T0, T0, T0, T0, T0, T0, T0, T0, T0, T0, T0,
    T0, T0, T0, T0, T0, T0, T0, T0, T0, T0, T0, T0, T0, T0, T0, T0, T0, T0, T0, T0, T0, T0, T0, T0,
    T0, T0, T0, T0, T0, T0, T0, T0, T0, T0, T0, T0, T0, T0, T0, T0, T0, T0, T0, T0, T0, T0, T0, T0,
    T0, T0, T0, T0, T0, T0, T0, T0, T0, T0, T0, T0, T0, T0, T0, T0, T0, T0, T0, T0, T0, T0, T0, T0,
    T0, T0, T0, T0, T0, T0, T0, T0, T0, T0, T0, T0, T0, T0, T0, T0, T0, T0, T0, T5, T0, T3, T0, T0,
    T0, T0, T0, T0, T0, T0, T0, T13, T13, T13, T13, T13, T13, T13, T13, T13, T34, T13, T0, T13, T0,
    T0, T0, T0, T0, T0, T0, T0, T0, T0, T0, T0, T0, T0, T0, T0, T0, T0, T0, T0, T0, T0, T0, T0, T0,
    T0, T0, T0, T0, T0, T0, T0, T0, T0, T0, T13, T13, T13, T13, T13, T13, T13, T13, T15, T15, T14,
    T14, T0, T0, T0, T0, T18, T18, T16, T16, T13, T13, T13, T13, T0, T0, T13, T13, T0, T0, T0, T0,
    T6, T1, T1, T1, T1, T1, T1, T1, T1, T1, T1, T1, T1, T1, T1, T1, T1, T1, T1, T1, T1, T1, T1, T1,
    T1, T1, T1, T1, T1, T1, T1, T7, T0, T0, T0, T0, T0, T0, T0, T0, T0, T0, T0, T0, T0, T0, T0, T0,
    T0, T0, T0, T0, T23, T0, T24, T0, T13, T0, T26, T0, T0, T0, T26, T0, T0, T0, T0, T0, T0, T0,
    T0, T0, T0, T0, T0, T0, T0, T0, T0, T0, T0, T0, T0, T0, T0, T0, T0, T0, T0, T0, T0, T0, T0, T0,
    T0, T0, T0, T0, T0, T0, T0, T0, T0, T0, T0, T0, T0, T0, T0, T0, T0, T0, T0, T0, T0, T0, T0, T0,
    T0, T0, T0, T0, T0, T0, T0, T0, T0, T0, T0, T0, T0, T0, T0, T0, T0, T0, T0, T0, T0, T0, T0, T0,
    T0, T0, T0, T0, T0, T0, T0, T0, T0, T0, T0, T0, T0, T0, T0, T0, T0, T0, T0, T0, T0, T0, T49,
    T49, T53, T53, T42, T42, T51, T51, T49, T49, T53, T53, T13, T13, T13, T13, T13, T13, T13, T13,
    T13, T21, T13, T0, T13, T0, T0, T0, T0, T0, T0, T0, T0, T0, T0, T0, T0, T0, T0, T0, T0, T0, T0,
    T0, T0, T0, T0, T0, T0, T0, T0, T0, T0, T0, T0, T0, T0, T0, T0, T0, T13, T13, T13, T13, T13,
    T13, T13, T13, T13, T13, T13, T13, T0, T0, T0, T0, T18, T18, T16, T16, T0, T0, T0, T0, T0, T0,
    T13, T13, T0, T0, T0, T0, T10, T1, T1, T1, T1, T1, T1, T11, T10, T1, T1, T1, T1, T1, T1, T11,
    T12, T12, T12, T12, T12, T12, T12, T12, T12, T12, T12, T12, T12, T12, T12, T12, T45, T48, T43,
    T46, T43, T46, T0, T0, T42, T42, T39, T39, T39, T39, T0, T0, T0, T0, T22, T0, T0, T0, T0, T0,
    T0, T0, T0, T0, T0, T0, T0, T0, T0, T0, T0, T0, T0, T0, T0, T0, T0, T0, T0, T0, T0, T0, T0, T0,
    T0, T0, T0, T0, T0, T0, T0, T0, T0, T0, T0, T0, T0, T0, T0, T0, T0, T0, T0, T0, T0, T0, T0, T0,
    T0, T0, T0, T0, T0, T0, T0, T0, T0, T0, T0, T0, T0, T0, T0, T0, T0, T0, T0, T0, T0, T0, T0, T0,
    T0, T0, T0, T0, T0, T0, T0, T0, T0, T0, T0, T0, T0, T0, T0, T0, T0, T0, T0, T0, T0, T0, T0, T0,
    T0, T0, T0, T0, T0, T0, T0, T0, T0, T0, T0, T0, T5, T0, T4, T0, T0, T0, T0, T0, T0, T0, T0, T0,
    T13, T13, T13, T13, T13, T13, T13, T13, T13, T20, T13, T0, T13, T0, T0, T0, T0, T0, T0, T0, T0,
    T0, T0, T0, T0, T0, T0, T0, T0, T0, T0, T0, T0, T0, T0, T0, T0, T0, T0, T0, T0, T0, T0, T0, T0,
    T0, T0, T0, T13, T13, T13, T13, T13, T13, T13, T13, T15, T15, T14, T14, T0, T0, T0, T0, T18,
    T18, T16, T16, T13, T13, T13, T13, T0, T0, T13, T13, T0, T0, T0, T0, T0, T36, T0, T0, T0, T0,
    T0, T0, T35, T0, T0, T0, T0, T0, T0, T0, T37, T37, T38, T0, T0, T0, T0, T0, T0, T0, T0, T0, T0,
    T0, T0, T0, T0, T0, T0, T0, T0, T0, T0, T0, T0, T0, T0, T0, T0, T0, T0, T0, T0, T0, T0, T0,
    T23, T0, T25, T0, T0, T0, T0, T0, T0, T0, T0, T0, T0, T0, T0, T0, T0, T0, T0, T0, T0, T0, T0,
    T0, T0, T0, T0, T0, T0, T0, T0, T0, T0, T0, T0, T0, T0, T0, T0, T0, T0, T0, T0, T0, T0, T0, T0,
    T0, T0, T0, T0, T0, T0, T0, T0, T0, T0, T0, T0, T0, T0, T0, T0, T0, T0, T0, T0, T0, T0, T0, T0,
    T0, T0, T0, T0, T0, T0, T0, T0, T0, T0, T0, T0, T0, T0, T0, T0, T0, T0, T0, T0, T0, T0, T0, T0,
    T0, T0, T0, T0, T0, T0, T0, T0, T0, T0, T0, T0, T0, T0, T0, T0, T0, T0, T0, T0, T0, T0, T0, T0,
    T0, T0, T0, T0, T0, T13, T13, T13, T13, T13, T13, T13, T13, T13, T21, T13, T0, T13, T0, T0, T0,
    T0, T0, T0, T0, T0, T0, T0, T0, T0, T0, T0, T0, T0, T0, T0, T0, T0, T0, T0, T0, T0, T0, T0, T0,
    T0, T0, T0, T0, T0, T0, T0, T0, T13, T13, T13, T13, T13, T13, T13, T13, T13, T13, T13, T13, T0,
    T0, T0, T0, T19, T19, T17, T17, T13, T13, T13, T13, T0, T0, T0, T0, T0, T0, T0, T0, T0, T0, T0,
    T0, T0, T0, T0, T0, T0, T0, T0, T0, T0, T0, T0, T0, T0, T0, T0, T0, T0, T0, T0, T0, T0, T0, T0,
    T0, T0, T0, T0, T0, T45, T48, T44, T47, T0, T0, T0, T0, T42, T42, T41, T40, T0, T0, T0, T0, T0,
    T0, T22, T0, T0, T0, T0, T0, T0, T0, T0, T0, T0, T0, T0, T0, T0, T0, T0, T0, T0, T0, T0, T0,
    T0, T0, T0, T0, T0, T0, T0, T0, T0, T0, T0, T0, T0, T0, T0, T0, T0, T0, T0, T0, T0, T0, T0, T0,
];
