//! Words of which there is no mend, and why.
use lfi_mends::Reason;
use lfi_rules::Rule;

/// A word, what it breaks, and why there is no mend.
pub const REASONS: [(Rule, u32, Reason); 24] = [
    (Rule::BaseKept, 0xAA0003F5, Reason::Base), // mov x21, x0
    (Rule::AccessConfined, 0xF8408EA0, Reason::Base), // ldr x0, [x21, #8]!
    (Rule::AccessConfined, 0xF9400035, Reason::Base), // ldr x21, [x1]
    (Rule::AddressGuarded, 0x10000052, Reason::Place), // adr x18, #8
    (Rule::TargetInside, 0x14000010, Reason::Target), // b #64
    (Rule::AccessConfined, 0xA9400032, Reason::Reserved), // ldp x18, x0, [x1]
    (Rule::AccessConfined, 0x2940003E, Reason::Reserved), // ldp w30, w0, [x1]
    (Rule::AccessConfined, 0xA9004236, Reason::Scratch), // stp x22, x16, [x17]
    (Rule::AddressGuarded, 0x91000400, Reason::Kept), // add x0, x0, #1
    (Rule::AccessConfined, 0xD503201F, Reason::Kept), // nop
    (Rule::BranchBounded, 0xD503201F, Reason::Kept), // nop
    (Rule::Spelled, 0xDAC00020, Reason::Bits), // rbit x0, x1
    (Rule::Spelled, 0x5AC00210, Reason::Bits), // rbit w16, w16
    (Rule::Spelled, 0xDAC00C37, Reason::Reserved), // rev x23, x1
    (Rule::Spelled, 0xDAC00E00, Reason::Scratch), // rev x0, x16
    (Rule::Spelled, 0x9BA24420, Reason::Scratch), // umaddl x0, w1, w2, x17
    (Rule::Spelled, 0x1E622820, Reason::Outside), // fadd d0, d1, d2
    (Rule::Spelled, 0xC85F7C20, Reason::Outside), // ldxr x0, [x1]
    (Rule::Spelled, 0xD4000001, Reason::Outside), // svc #0
    (Rule::Spelled, 0xBA010010, Reason::Scratch), // adcs x16, x0, x1
    (Rule::Spelled, 0xBA020037, Reason::Reserved), // adcs x23, x1, x2
    (Rule::Spelled, 0xFA11001F, Reason::Scratch), // sbcs xzr, x0, x17
    (Rule::Spelled, 0x69400452, Reason::Reserved), // ldpsw x18, x1, [x2]
    (Rule::Spelled, 0xDAC01420, Reason::Outside), // cls x0, x1
];

/// The same of ordered accesses of the second profile, whose results go through no other register (docs/PROFILE.md, "Mends").
pub const ORDERED_REASONS: [(Rule, u32, Reason); 3] = [
    (Rule::AccessConfined, 0xC8DFFC37, Reason::Reserved), // ldar x23, [x1]
    (Rule::AccessConfined, 0x88DFFC3E, Reason::Reserved), // ldar w30, [x1]
    (Rule::AccessConfined, 0x08DFFC36, Reason::Reserved), // ldarb w22, [x1]
];
