//! Which instructions and rules a module goes by.

ghost use Rattle.std.specs.Prelude.{◌≡◌, ◌↔◌, IfSome, Some, IsTrue};
ghost use Rattle.lfi_module.specs.Profiles.{profile_number};
ghost use Rattle.lfi_module.specs.Pages.{HasPages};

use crate::page_size::PageSize;

/// Which instructions and rules a module goes by: docs/PROFILE.md.
#[derive(Clone, Copy, PartialEq, Eq)]
pub enum Profile {
    /// The first profile.
    One,
    /// The second one: the first with loads that acquire and stores that release, and with a probe that may come as late
    /// as the fourth word after a move of sp.
    Two,
}

impl Profile {
    /// The profile with this number, 1 or 2; `None` where there is none.
    pub fn new(number: u32) -> Option<Profile>
        ensures some { IfSome result (λ profile. profile_number profile ≡ number) }
        ensures only { (profile : Profile) → profile_number profile ≡ number → result ≡ Some profile }
    {
        match number {
            1 => Some(Profile::One),
            2 => Some(Profile::Two),
            _ => None,
        }
    }

    /// Its number, 1 or 2.
    pub fn number(self) -> u32
        ensures { result ≡ profile_number self }
    {
        match self {
            Profile::One => 1,
            Profile::Two => 2,
        }
    }

    /// Whether its modules can have pages of this size: small ones in both, large ones in the second.
    pub fn has_pages(self, pages: PageSize) -> bool
        ensures { IsTrue result ↔ HasPages self pages }
    {
        pages == PageSize::SMALL || self == Profile::Two
    }
}
