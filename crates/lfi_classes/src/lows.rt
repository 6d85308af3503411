//! The classes of each low part: in a set of classes, bit i stands for class number i, as specs/Classes.antt counts them.
//!
//! Written by checks/class_tables, which gives each set that there is a short name.

const L0: u64 = 0x3cc2000;

const L1: u64 = 0xf557cc2000;

const L2: u64 = 0xf7ffcc2000;

const L3: u64 = 0xfffffc6000;

const L4: u64 = 0xf0003cc2000;

const L5: u64 = 0x40f557cc2000;

const L6: u64 = 0x80fffffc6000;

const L7: u64 = 0x380fffffc6000;

const L8: u64 = 0x28000003ce2000;

const L9: u64 = 0x28000003cea098;

const L10: u64 = 0x280f0003ce2000;

const L11: u64 = 0x228000003ce2000;

const L12: u64 = 0x2280f0003ce2000;

const L13: u64 = 0x228100003ce2000;

const L14: u64 = 0x228100003cea0d5;

const L15: u64 = 0x4a8000003ce2000;

const L16: u64 = 0x4a8000003cea2b8;

const L17: u64 = 0x4a80f0003ce2000;

const L18: u64 = 0x83c00f7ffcf2900;

const L19: u64 = 0x83c00ffffff6900;

const L20: u64 = 0x83d80ffffff6900;

const L21: u64 = 0xb3c00f7ffcf2900;

const L22: u64 = 0xb3c00ffffff6900;

const L23: u64 = 0xb3c80ffffff6900;

const L24: u64 = 0x103c00f557cf2900;

const L25: u64 = 0x103c00f7ffcf2900;

const L26: u64 = 0x103c00ffffff6900;

const L27: u64 = 0x133c00f7ffcf2900;

const L28: u64 = 0x133c00ffffff6900;

const L29: u64 = 0x133c30f557cf2900;

const L30: u64 = 0x2cfc00f7ffcf3d00;

const L31: u64 = 0x2cfc00ffffff7d00;

const L32: u64 = 0x2cfc80ffffff7d00;

const L33: u64 = 0x54fc00f557cf3d02;

const L34: u64 = 0x54fc00f7ffcf3d00;

const L35: u64 = 0x54fc00ffffff7d00;

/// By bits 9 to 0 of a word.
pub(crate) static LOWS: [u64; 1024] = [
    L6, L3, L3, L3, L3, L3, L3, L3, L3, L3, L3, L3, L3, L3, L3, L3, L2, L2, L0, L2, L2, L0, L4, L0,
    L0, L2, L2, L2, L2, L2, L0, L5, L6, L3, L3, L3, L3, L3, L3, L3, L3, L3, L3, L3, L3, L3, L3, L3,
    L2, L2, L0, L2, L2, L0, L4, L0, L0, L2, L2, L2, L2, L2, L0, L1, L6, L3, L3, L3, L3, L3, L3, L3,
    L3, L3, L3, L3, L3, L3, L3, L3, L2, L2, L0, L2, L2, L0, L4, L0, L0, L2, L2, L2, L2, L2, L0, L1,
    L6, L3, L3, L3, L3, L3, L3, L3, L3, L3, L3, L3, L3, L3, L3, L3, L2, L2, L0, L2, L2, L0, L4, L0,
    L0, L2, L2, L2, L2, L2, L0, L1, L6, L3, L3, L3, L3, L3, L3, L3, L3, L3, L3, L3, L3, L3, L3, L3,
    L2, L2, L0, L2, L2, L0, L4, L0, L0, L2, L2, L2, L2, L2, L0, L1, L6, L3, L3, L3, L3, L3, L3, L3,
    L3, L3, L3, L3, L3, L3, L3, L3, L2, L2, L0, L2, L2, L0, L4, L0, L0, L2, L2, L2, L2, L2, L0, L1,
    L6, L3, L3, L3, L3, L3, L3, L3, L3, L3, L3, L3, L3, L3, L3, L3, L2, L2, L0, L2, L2, L0, L4, L0,
    L0, L2, L2, L2, L2, L2, L0, L1, L6, L3, L3, L3, L3, L3, L3, L3, L3, L3, L3, L3, L3, L3, L3, L3,
    L2, L2, L0, L2, L2, L0, L4, L0, L0, L2, L2, L2, L2, L2, L0, L1, L6, L3, L3, L3, L3, L3, L3, L3,
    L3, L3, L3, L3, L3, L3, L3, L3, L2, L2, L0, L2, L2, L0, L4, L0, L0, L2, L2, L2, L2, L2, L0, L1,
    L6, L3, L3, L3, L3, L3, L3, L3, L3, L3, L3, L3, L3, L3, L3, L3, L2, L2, L0, L2, L2, L0, L4, L0,
    L0, L2, L2, L2, L2, L2, L0, L1, L6, L3, L3, L3, L3, L3, L3, L3, L3, L3, L3, L3, L3, L3, L3, L3,
    L2, L2, L0, L2, L2, L0, L4, L0, L0, L2, L2, L2, L2, L2, L0, L1, L6, L3, L3, L3, L3, L3, L3, L3,
    L3, L3, L3, L3, L3, L3, L3, L3, L2, L2, L0, L2, L2, L0, L4, L0, L0, L2, L2, L2, L2, L2, L0, L1,
    L6, L3, L3, L3, L3, L3, L3, L3, L3, L3, L3, L3, L3, L3, L3, L3, L2, L2, L0, L2, L2, L0, L4, L0,
    L0, L2, L2, L2, L2, L2, L0, L1, L6, L3, L3, L3, L3, L3, L3, L3, L3, L3, L3, L3, L3, L3, L3, L3,
    L2, L2, L0, L2, L2, L0, L4, L0, L0, L2, L2, L2, L2, L2, L0, L1, L6, L3, L3, L3, L3, L3, L3, L3,
    L3, L3, L3, L3, L3, L3, L3, L3, L2, L2, L0, L2, L2, L0, L4, L0, L0, L2, L2, L2, L2, L2, L0, L1,
    L6, L3, L3, L3, L3, L3, L3, L3, L3, L3, L3, L3, L3, L3, L3, L3, L2, L2, L0, L2, L2, L0, L4, L0,
    L0, L2, L2, L2, L2, L2, L0, L1, L6, L3, L3, L3, L3, L3, L3, L3, L3, L3, L3, L3, L3, L3, L3, L3,
    L2, L2, L0, L2, L2, L0, L4, L0, L0, L2, L2, L2, L2, L2, L0, L1, L6, L3, L3, L3, L3, L3, L3, L3,
    L3, L3, L3, L3, L3, L3, L3, L3, L2, L2, L0, L2, L2, L0, L4, L0, L0, L2, L2, L2, L2, L2, L0, L1,
    L20, L26, L19, L26, L19, L26, L19, L26, L19, L26, L19, L26, L19, L26, L19, L26, L18, L25, L8,
    L25, L18, L8, L10, L8, L8, L25, L18, L25, L18, L25, L9, L24, L6, L3, L3, L3, L3, L3, L3, L3,
    L3, L3, L3, L3, L3, L3, L3, L3, L2, L2, L0, L2, L2, L0, L4, L0, L0, L2, L2, L2, L2, L2, L0, L1,
    L6, L3, L3, L3, L3, L3, L3, L3, L3, L3, L3, L3, L3, L3, L3, L3, L2, L2, L0, L2, L2, L0, L4, L0,
    L0, L2, L2, L2, L2, L2, L0, L1, L23, L28, L22, L28, L22, L28, L22, L28, L22, L28, L22, L28,
    L22, L28, L22, L28, L21, L27, L13, L27, L21, L11, L12, L13, L13, L27, L21, L27, L21, L27, L14,
    L29, L6, L3, L3, L3, L3, L3, L3, L3, L3, L3, L3, L3, L3, L3, L3, L3, L2, L2, L0, L2, L2, L0,
    L4, L0, L0, L2, L2, L2, L2, L2, L0, L1, L20, L26, L19, L26, L19, L26, L19, L26, L19, L26, L19,
    L26, L19, L26, L19, L26, L18, L25, L8, L25, L18, L8, L10, L8, L8, L25, L18, L25, L18, L25, L9,
    L24, L20, L26, L19, L26, L19, L26, L19, L26, L19, L26, L19, L26, L19, L26, L19, L26, L18, L25,
    L8, L25, L18, L8, L10, L8, L8, L25, L18, L25, L18, L25, L9, L24, L6, L3, L3, L3, L3, L3, L3,
    L3, L3, L3, L3, L3, L3, L3, L3, L3, L2, L2, L0, L2, L2, L0, L4, L0, L0, L2, L2, L2, L2, L2, L0,
    L1, L6, L3, L3, L3, L3, L3, L3, L3, L3, L3, L3, L3, L3, L3, L3, L3, L2, L2, L0, L2, L2, L0, L4,
    L0, L0, L2, L2, L2, L2, L2, L0, L1, L6, L3, L3, L3, L3, L3, L3, L3, L3, L3, L3, L3, L3, L3, L3,
    L3, L2, L2, L0, L2, L2, L0, L4, L0, L0, L2, L2, L2, L2, L2, L0, L1, L6, L3, L3, L3, L3, L3, L3,
    L3, L3, L3, L3, L3, L3, L3, L3, L3, L2, L2, L0, L2, L2, L0, L4, L0, L0, L2, L2, L2, L2, L2, L0,
    L1, L6, L3, L3, L3, L3, L3, L3, L3, L3, L3, L3, L3, L3, L3, L3, L3, L2, L2, L0, L2, L2, L0, L4,
    L0, L0, L2, L2, L2, L2, L2, L0, L1, L7, L3, L3, L3, L3, L3, L3, L3, L3, L3, L3, L3, L3, L3, L3,
    L3, L2, L2, L0, L2, L2, L0, L4, L0, L0, L2, L2, L2, L2, L2, L0, L1, L32, L35, L31, L35, L31,
    L35, L31, L35, L31, L35, L31, L35, L31, L35, L31, L35, L30, L34, L15, L34, L30, L15, L17, L15,
    L15, L34, L30, L34, L30, L34, L16, L33,
];
