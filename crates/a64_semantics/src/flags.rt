ghost use Rattle.std.specs.Prelude.{◌≡◌, ◌<◌};
ghost use Rattle.a64_semantics.specs.Sums.{number_of_flags, flags_of_number};
ghost use Rattle.a64_semantics.specs.Conditions.{holds};
ghost use Rattle.a64_semantics.specs.inner.Tables.{numbers_holding};

use a64_word::Condition;

/// The condition flags: "NZCV" of the Arm manual.
#[derive(Clone, Copy)]
pub struct Flags {
    /// N: the top bit of the result.
    pub negative: bool,
    /// Z: the result is 0.
    pub zero: bool,
    /// C: the sum of the unsigned operands doesn't fit.
    pub carry: bool,
    /// V: the sum of the signed operands doesn't fit.
    pub overflow: bool,
}

impl Flags {
    /// The flags of a number below 16: N is 8, Z is 4, C is 2 and V is 1. Higher bits count for nothing.
    #[inline(always)]
    pub fn of_number(nzcv: u8) -> Flags
        ensures value { result ≡ flags_of_number nzcv }
        ensures number { nzcv < 16 → number_of_flags result ≡ nzcv }
    {
        Flags {
            negative: nzcv / 8 % 2 == 1,
            zero: nzcv / 4 % 2 == 1,
            carry: nzcv / 2 % 2 == 1,
            overflow: nzcv % 2 == 1,
        }
    }

    /// The flags as a number below 16: N is 8, Z is 4, C is 2 and V is 1.
    #[inline(always)]
    pub fn number(self) -> u8
        ensures value { result ≡ number_of_flags self }
        ensures below { result < 16 }
    {
        8 * u8::from(self.negative)
            + 4 * u8::from(self.zero)
            + 2 * u8::from(self.carry)
            + u8::from(self.overflow)
    }

    /// Whether a condition holds: C1.2.4 "Condition code".
    #[inline(always)]
    pub fn holds(self, condition: Condition) -> bool
        ensures { result ≡ holds condition self }
    {
        holds_at(self.number(), condition)
    }
}

/// A bit for each number of flags, set where the condition holds.
#[inline(always)]
fn numbers_holding(condition: Condition) -> u16
    ensures { result ≡ numbers_holding condition }
{
    match condition {
        Condition::Eq => 0xF0F0,
        Condition::Ne => 0x0F0F,
        Condition::Cs => 0xCCCC,
        Condition::Cc => 0x3333,
        Condition::Mi => 0xFF00,
        Condition::Pl => 0x00FF,
        Condition::Vs => 0xAAAA,
        Condition::Vc => 0x5555,
        Condition::Hi => 0x0C0C,
        Condition::Ls => 0xF3F3,
        Condition::Ge => 0xAA55,
        Condition::Lt => 0x55AA,
        Condition::Gt => 0x0A05,
        Condition::Le => 0xF5FA,
        Condition::Al => 0xFFFF,
        Condition::Nv => 0xFFFF,
    }
}

/// Whether a condition holds at flags of this number: a look into a table, with no branch.
#[inline(always)]
fn holds_at(nzcv: u8, condition: Condition) -> bool
    ensures { result ≡ holds condition (flags_of_number nzcv) }
{
    (numbers_holding(condition) >> (nzcv % 16)) % 2 == 1
}
