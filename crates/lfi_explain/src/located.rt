//! A word at its address.

ghost use Rattle.std.specs.Prelude.{◌≡◌, Some};
ghost use Rattle.lfi_explain.specs.Spellings as spec;

use crate::digits::{AddressDigits, WordDigits};
use crate::spelling::Spelling;
use lfi_module::ModuleNumber;
use lfi_rules::map::CODE_OFFSET;
use std::fmt;

/// A word of a module, at its place.
#[derive(Clone, Copy)]
pub struct Located {
    /// The slot in which the module lies.
    pub slot: ModuleNumber,
    /// The word's place; the first is 0.
    pub place: u32,
    /// The word.
    pub spelling: Spelling,
}

/// The address of the word at a place of the module in a slot.
fn address_at(slot: ModuleNumber, place: u32) -> u64
    ensures { result ≡ spec.address_at slot place }
{
    let base = slot.base();
    base + CODE_OFFSET + 4 * u64::from(place)
}

impl Located {
    /// The address of the word.
    pub fn address(&self) -> u64
        ensures { result ≡ spec.address_at self.now.slot self.now.place }
    {
        address_at(self.slot, self.place)
    }
}

impl fmt::Display for Located {
    ghost output = { λ located. Some (spec.located_text located.slot located.place located.spelling) };

    /// Writes the address, the word and its text, as `0x0000000100010040  b9400261  ldr w1, [x19]`.
    fn fmt<W: fmt::Write>(&self, f: &mut fmt::Formatter<W>) -> fmt::Result {
        write!(
            f,
            "0x{}  {}  {}",
            AddressDigits(self.address()),
            WordDigits(self.spelling.word),
            self.spelling
        )
    }
}
