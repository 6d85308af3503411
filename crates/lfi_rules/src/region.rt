//! Words that stand one behind another in a module.

ghost use Rattle.std.specs.Prelude.{◌+◌, ◌≤◌, length};
ghost use Rattle.lfi_module.specs.Numbers.{most_words};

use a64_word::Words;
use lfi_classes::ClassTables;
use lfi_module::Profile;
use std::alloc::AllocError;

/// Words that stand one behind another in a module, and the profile by which they are judged.
pub struct Region<'a, W: Words> {
    pub words: &'a W,
    /// The place of the first of them in the module.
    pub first: u32,
    /// How many words the module has: at most as many as a module may have.
    pub n: u32,
    pub profile: Profile,
    /// The tables that tell its words' classes.
    pub tables: ClassTables,
    ghost room: { first + length (W.words words.now) ≤ n },
    ghost most: { n ≤ most_words },
}

impl<'a, W: Words> Clone for Region<'a, W> {
    fn clone(&self) -> Result<Region<'a, W>, AllocError> {
        Ok(*self)
    }
}

impl<'a, W: Words> Copy for Region<'a, W> {}
