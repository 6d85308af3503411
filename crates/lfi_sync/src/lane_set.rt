//! Lanes, by their modules.

ghost use Rattle.std.specs.Prelude.{◌≡◌, ◌<◌, ◌^◌, ℕ, true};
ghost use Rattle.lfi_module.specs.Numbers.{module_count};
ghost use Rattle.lfi_sync.specs.LaneSets.{has_lane, is_told};

use lfi_module::ModuleNumber;

/// Some of the lanes of all modules.
#[derive(Clone, Copy)]
pub struct LaneSet {
    /// Whether the lane of the module with this number is one of them.
    has: [bool; ModuleNumber::COUNT],
}

/// Whether the bit of the lane of the module with this number is set.
fn is_told(bits: u64, number: usize) -> bool
    requires { number < module_count }
    ensures { result ≡ is_told bits number }
{
    (bits >> number) % 2 == 1
}

impl LaneSet {
    /// None of them.
    pub(crate) fn none() -> LaneSet {
        LaneSet {
            has: [false; ModuleNumber::COUNT],
        }
    }

    /// All of them.
    pub fn all() -> LaneSet
        ensures { (m : ℕ) → m < module_count → has_lane result m ≡ true }
    {
        LaneSet {
            has: [true; ModuleNumber::COUNT],
        }
    }

    /// The bit of the lane of this module.
    pub(crate) fn bit_of(module: ModuleNumber) -> u64
        ensures { result ≡ 2 ^ «module» }
    {
        1 << module.index()
    }

    /// Those whose bits are set.
    pub(crate) fn of(bits: u64) -> LaneSet
        ensures { (m : ℕ) → m < module_count → has_lane result m ≡ is_told bits m }
    {
        let mut has = [false; ModuleNumber::COUNT];
        for number in 0..ModuleNumber::COUNT {
            has[number] = is_told(bits, number);
        }
        LaneSet { has }
    }

    /// Whether the lane of this module is one of them.
    pub fn has(&self, module: ModuleNumber) -> bool
        ensures { result ≡ has_lane self.now «module» }
    {
        self.has[module.index()]
    }
}
