//! Which of the sixteen modules it is.

ghost use Rattle.std.specs.Prelude.{◌≡◌, ◌<◌, ◌≤◌, IfSome, IfNone};
ghost use Rattle.lfi_module.specs.Numbers.{module_count, base_of};

use std::marker::Model;

/// The number of a module, 0 to 15, which is that of its slot.
#[derive(Clone, Copy, PartialEq, Eq)]
pub struct ModuleNumber {
    number: u16,
}

impl Model for ModuleNumber {
    ghost use Rattle.std.specs.Prelude.{ℕ, ◌<◌};
    ghost use Rattle.lfi_module.specs.Numbers.{module_count};

    ghost Value = { ℕ };

    ghost view = { λ m. m.number };

    ghost invariant = { λ m. m.number < module_count };

    ghost inverse = { λ n. record { number = n } };
}

impl ModuleNumber {
    /// How many modules there are.
    pub const COUNT: usize = 16;

    /// The module with this number; `None` where there is none.
    pub fn new(number: u16) -> Option<ModuleNumber>
        ensures some { IfSome result (λ m. m ≡ number) }
        ensures none { IfNone result (module_count ≤ number) }
    {
        if (number as usize) < Self::COUNT {
            Some(ModuleNumber { number })
        } else {
            None
        }
    }

    /// The module at a place of a list of all sixteen.
    pub fn at(index: usize) -> ModuleNumber
        requires { index < module_count }
        ensures { result ≡ index }
    {
        ModuleNumber {
            number: index as u16,
        }
    }

    /// Its number, 0 to 15.
    pub fn number(self) -> u16
        ensures value { result ≡ self }
        ensures range { result < module_count }
    {
        self.number
    }

    /// Its place in a list of all sixteen.
    pub fn index(self) -> usize
        ensures value { result ≡ self }
        ensures range { result < module_count }
    {
        self.number as usize
    }

    /// The address at which its slot of 4 GiB begins.
    pub fn base(self) -> u64
        ensures { result ≡ base_of self }
    {
        (2 * self.number as u64 + 1) << 32
    }
}
