//! Numbers in columns.

ghost use Rattle.std.specs.Prelude.{Some};
ghost use Rattle.a64_text.specs.Digits.{hexadecimal};
ghost use Rattle.lfi_explain.specs.Listings.{column};

use std::fmt;

/// A word, in eight hexadecimal digits.
#[derive(Clone, Copy)]
pub struct WordDigits(pub u32);

impl fmt::Display for WordDigits {
    ghost output = { λ word. Some (hexadecimal 8 word.0) };

    fn fmt<W: fmt::Write>(&self, f: &mut fmt::Formatter<W>) -> fmt::Result {
        write!(f, "{:08x}", self.0)
    }
}

/// An address, in sixteen hexadecimal digits.
#[derive(Clone, Copy)]
pub struct AddressDigits(pub u64);

impl fmt::Display for AddressDigits {
    ghost output = { λ address. Some (hexadecimal 16 address.0) };

    fn fmt<W: fmt::Write>(&self, f: &mut fmt::Formatter<W>) -> fmt::Result {
        write!(f, "{:016x}", self.0)
    }
}

/// A place, in a column of seven.
#[derive(Clone, Copy)]
pub struct PlaceColumn(pub u32);

impl fmt::Display for PlaceColumn {
    ghost output = { λ place. Some (column place.0) };

    fn fmt<W: fmt::Write>(&self, f: &mut fmt::Formatter<W>) -> fmt::Result {
        write!(f, "{:>7}", self.0)
    }
}
