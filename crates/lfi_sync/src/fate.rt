//! What becomes of the clients of connections.

ghost use Rattle.std.specs.Prelude.{◌≡◌, ◌<◌, ◌≤◌, ◌^◌, ◌%◌, ◌&&◌, nat_lt, not, ℕ, true, false};
ghost use Rattle.lfi_sync.specs.Fates.{fate_after, fate_at, is_absent, is_cut_off, is_flagged, is_unheard};
ghost use Rattle.lfi_sync.specs.declared.fate.ClientFate.TheVariants.{Heard};

use lfi_module::CONNECTIONS;
use std::io::ErrorKind;

/// Why a connection has no client.
#[derive(Clone, Copy)]
pub enum Absence {
    /// None had come when the time was over.
    NotCome,
    /// It couldn't be taken, for an error of this kind.
    NotTaken(ErrorKind),
}

/// What became of the client of a connection.
#[derive(Clone, Copy)]
pub enum ClientFate {
    /// It was taken, and heard as long as there was anything to hear.
    Heard,
    /// It was taken, and had not ended when the time was over.
    CutOff,
    /// There is none, for this.
    Absent(Absence),
}

impl ClientFate {
    /// Whether there is no client.
    pub fn is_absent(self) -> bool
        ensures { result ≡ is_absent self }
    {
        match self {
            ClientFate::Absent(_) => true,
            _ => false,
        }
    }

    /// Whether it was cut off.
    pub fn is_cut_off(self) -> bool
        ensures { result ≡ is_cut_off self }
    {
        match self {
            ClientFate::CutOff => true,
            _ => false,
        }
    }

    /// The same once the time is over, where the client had not ended then or had.
    fn after(self, unheard: bool) -> ClientFate
        ensures { result ≡ fate_after unheard self }
    {
        match self {
            ClientFate::Heard if unheard => ClientFate::CutOff,
            fate => fate,
        }
    }
}

/// The connections that had not ended when the time was over.
#[derive(Clone, Copy)]
pub struct Unheard {
    are: [bool; CONNECTIONS],
}

impl Unheard {
    /// None of them.
    pub(crate) fn none() -> Unheard
        ensures { (c : ℕ) → is_unheard result c ≡ false }
    {
        Unheard {
            are: [false; CONNECTIONS],
        }
    }

    /// Those of the first `count` that aren't among these flags, one bit a connection.
    pub(crate) fn of(heard: u32, count: usize) -> Unheard
        ensures each { (c : ℕ) → c < 8 → is_unheard result c ≡ (nat_lt c count && not (is_flagged heard c)) }
        ensures no_other { (c : ℕ) → count ≤ c → is_unheard result c ≡ false }
    {
        let mut are = [false; CONNECTIONS];
        for number in 0..CONNECTIONS {
            are[number] = number < count && !is_flagged(heard, number);
        }
        Unheard { are }
    }

    /// Whether they are none.
    pub(crate) fn is_none(&self) -> bool
        ensures none { result ≡ true → (c : ℕ) → is_unheard self.now c ≡ false }
        ensures some { result ≡ false → (c : ℕ) × (is_unheard self.now c ≡ true) }
    {
        for number in 0..CONNECTIONS {
            if self.are[number] {
                return false;
            }
        }
        true
    }

    /// What becomes of clients, of which this was told before the time was over.
    pub fn cut_off(&self, fates: [ClientFate; CONNECTIONS]) -> [ClientFate; CONNECTIONS]
        ensures each { (c : ℕ) → c < 8 → fate_at result c ≡ fate_after (is_unheard self.now c) (fate_at fates c) }
        ensures no_other { (c : ℕ) → 8 ≤ c → fate_at result c ≡ Heard }
    {
        let mut after = [ClientFate::Heard; CONNECTIONS];
        for number in 0..CONNECTIONS {
            after[number] = fates[number].after(self.are[number]);
        }
        after
    }
}

/// The flag of the connection with this number, which is less than 8.
pub(crate) fn flag_of(number: usize) -> u32
    ensures { result ≡ 2 ^ (number % 8) }
{
    1 << (number % CONNECTIONS)
}

/// Whether the flag of the connection with this number is set.
fn is_flagged(flags: u32, number: usize) -> bool
    requires { number < 8 }
    ensures { result ≡ is_flagged flags number }
{
    (flags >> number) % 2 == 1
}
