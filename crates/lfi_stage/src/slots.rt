//! What is there of each receiver or verifier, at the place of its number.

ghost use Rattle.std.specs.Prelude.{◌≡◌, ℕ, None, get_or, length};

use lfi_module::CONNECTIONS;
use std::array;

/// A place for each, with nothing there. There are no more verifiers than connections.
pub(crate) fn empty<T>() -> [Option<T>; CONNECTIONS]
    ensures long { length result ≡ 8 }
    ensures empty { (k : ℕ) → get_or result k None ≡ None }
{
    array::from_fn(|_| None)
}

/// Puts a value at a place, and lets go what was there.
pub(crate) fn set<T: Drop>(place: &mut T, value: T)
    ensures { place.new ≡ value }
{
    *place = value;
}
