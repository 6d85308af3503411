//! Whether registers are lawful at the start.

ghost use Rattle.std.specs.Prelude.{◌≡◌, ◌<◌, ◌^◌, ◌↔◌, length, IsTrue};
ghost use Rattle.lfi_machine.specs.Starts.{addresses_held, stack_held, refusal_number, refusal_of, start_of};
ghost use Rattle.lfi_module.specs.Numbers.{base_of, most_words};
ghost use Rattle.lfi_confinement.specs.Slots.{is_in_slot};
ghost use Rattle.lfi_confinement.specs.Lawful.{Held};

use a64_semantics::Registers;
use lfi_image::CompleteImage;
use lfi_rules::map::{CODE_OFFSET, SLOT_BYTES, STACK_REACH};
use lfi_rules::registers::{BASE, FIRST_ADDRESS, LINK, OFFSET, SECOND_ADDRESS, THIRD_ADDRESS};
use std::error::Error;
use std::fmt;

/// Why a machine isn't made.
#[derive(Clone, Copy, Debug, PartialEq, Eq)]
pub enum StartFault {
    /// x21 isn't the slot's base.
    Base,
    /// x18, x23, x24 or x30 isn't an address in the slot.
    Address,
    /// x22 isn't below 2^32.
    Offset,
    /// sp is too far from the slot.
    Stack,
    /// pc isn't an address in the slot.
    Pc,
    /// The flags aren't a number below 16.
    Flags,
    /// Memory was refused.
    NoMemory,
}

impl StartFault {
    /// The refusal's number, 1 to 7.
    pub fn number(self) -> u8
        ensures { result ≡ refusal_number self }
    {
        match self {
            StartFault::Base => 1,
            StartFault::Address => 2,
            StartFault::Offset => 3,
            StartFault::Stack => 4,
            StartFault::Pc => 5,
            StartFault::Flags => 6,
            StartFault::NoMemory => 7,
        }
    }
}

impl fmt::Display for StartFault {
    fn fmt<W: fmt::Write>(&self, f: &mut fmt::Formatter<W>) -> fmt::Result {
        match self {
            StartFault::Base => f.write_str("x21 is not the slot's base"),
            StartFault::Address => f.write_str("x18, x23, x24 or x30 is not in the slot"),
            StartFault::Offset => f.write_str("x22 is not below 2^32"),
            StartFault::Stack => f.write_str("sp is too far from the slot"),
            StartFault::Pc => f.write_str("pc is not in the slot"),
            StartFault::Flags => f.write_str("the flags are not below 16"),
            StartFault::NoMemory => f.write_str("no memory"),
        }
    }
}

impl Error for StartFault {}

/// Whether an address lies in the slot that begins at a base.
fn is_in_slot(base: u64, address: u64) -> bool
    requires { base < 2 ^ 40 }
    ensures { result ≡ is_in_slot base address }
{
    base <= address && address < base + SLOT_BYTES
}

fn addresses_held(base: u64, registers: &Registers) -> bool
    requires { base < 2 ^ 40 }
    ensures { result ≡ addresses_held base registers.now }
{
    is_in_slot(base, registers.x[FIRST_ADDRESS as usize])
        && is_in_slot(base, registers.x[SECOND_ADDRESS as usize])
        && is_in_slot(base, registers.x[THIRD_ADDRESS as usize])
        && is_in_slot(base, registers.x[LINK as usize])
}

fn stack_held(base: u64, registers: &Registers) -> bool
    requires { base < 2 ^ 40 }
    ensures { result ≡ stack_held base registers.now }
{
    if registers.sp >= base + SLOT_BYTES + STACK_REACH {
        return false;
    }
    base <= registers.sp + STACK_REACH
}

/// Why registers aren't lawful in the slot that begins at a base: the first reason.
pub(crate) fn refusal(base: u64, registers: &Registers) -> Option<StartFault>
    requires { base < 2 ^ 40 }
    ensures first { result ≡ refusal_of base registers.now }
    ensures all { length registers.now.x ≡ 31 }
{
    if registers.x[BASE as usize] != base {
        Some(StartFault::Base)
    } else if !addresses_held(base, registers) {
        Some(StartFault::Address)
    } else if registers.x[OFFSET as usize] >= 1 << 32 {
        Some(StartFault::Offset)
    } else if !stack_held(base, registers) {
        Some(StartFault::Stack)
    } else if !is_in_slot(base, registers.pc) {
        Some(StartFault::Pc)
    } else if registers.nzcv >= 16 {
        Some(StartFault::Flags)
    } else {
        None
    }
}

/// Whether registers are lawful in the slot that begins at a base.
pub(crate) fn is_held(base: u64, registers: &Registers) -> bool
    requires { base < 2 ^ 40 }
    ensures { IsTrue result ↔ Held base registers.now }
{
    match refusal(base, registers) {
        None => true,
        Some(_) => false,
    }
}

/// The word that is entered: its place is below the greatest number of words.
fn entry_of(image: &CompleteImage) -> u32
    ensures value { result ≡ image.now.entry }
    ensures small { result < most_words }
{
    let entry = image.entry();
    // The image is handed out here, with what its type keeps: how many words it has at most.
    let _ = image.words();
    entry
}

/// The registers that an image starts from. They are lawful.
pub fn start_registers(image: &CompleteImage) -> Registers
    ensures value { result ≡ start_of image.now }
    ensures held { Held (base_of image.now.slot) result }
{
    let base = image.slot().base();
    let mut x = [0; 31];
    x[FIRST_ADDRESS as usize] = base;
    x[BASE as usize] = base;
    x[SECOND_ADDRESS as usize] = base;
    x[THIRD_ADDRESS as usize] = base;
    x[LINK as usize] = base;
    Registers {
        x,
        sp: base + SLOT_BYTES,
        pc: base + CODE_OFFSET + 4 * u64::from(entry_of(image)),
        nzcv: 0,
    }
}
