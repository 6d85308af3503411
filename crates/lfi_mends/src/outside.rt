//! Words that the profile leaves out, recognized by their bits.

ghost use Rattle.std.specs.Prelude.{◌≡◌};
ghost use Rattle.lfi_mends.specs.Outside as spec;

/// Instructions that the profile leaves out, by what is done in their place.
#[derive(Clone, Copy, PartialEq, Eq)]
pub enum Outside {
    /// EXTR, and ROR by a constant.
    Extract,
    /// RBIT.
    ReverseBits,
    /// REV16: the bytes of each half word.
    ReverseInHalves,
    /// REV of W registers, and REV32: the bytes of each word.
    ReverseInWords,
    /// REV of X registers: all bytes.
    ReverseAll,
    /// SMADDL, SMSUBL, and their aliases SMULL and SMNEGL.
    SignedProduct,
    /// UMADDL, UMSUBL, and their aliases UMULL and UMNEGL.
    UnsignedProduct,
    /// ADC, ADCS, SBC and SBCS.
    Carry,
    /// LDPSW.
    SignedPair,
    /// LDTR, STTR and their kin.
    Unprivileged,
    /// LDNP and STNP.
    NonTemporal,
    /// PRFM in each of its forms.
    Prefetch,
}

/// The instruction of this table that a word spells, if one does: C4.1, "Data Processing" and "Loads and Stores".
pub fn outside_of(word: u32) -> Option<Outside>
    ensures { result ≡ spec.outside_of word }
{
    if word & 0xFFE08000 == 0x13800000 || word & 0xFFE00000 == 0x93C00000 {
        Some(Outside::Extract)
    } else if word & 0x7FFFFC00 == 0x5AC00000 {
        Some(Outside::ReverseBits)
    } else if word & 0x7FFFFC00 == 0x5AC00400 {
        Some(Outside::ReverseInHalves)
    } else if word & 0x7FFFFC00 == 0x5AC00800 {
        Some(Outside::ReverseInWords)
    } else if word & 0xFFFFFC00 == 0xDAC00C00 {
        Some(Outside::ReverseAll)
    } else if word & 0xFFE00000 == 0x9B200000 {
        Some(Outside::SignedProduct)
    } else if word & 0xFFE00000 == 0x9BA00000 {
        Some(Outside::UnsignedProduct)
    } else {
        other_outside_of(word)
    }
}

/// The same, of the rest of the table.
fn other_outside_of(word: u32) -> Option<Outside>
    ensures { result ≡ spec.other_outside_of word }
{
    if word & 0x1FE0FC00 == 0x1A000000 {
        Some(Outside::Carry)
    } else if word & 0xFE400000 == 0x68400000 {
        Some(Outside::SignedPair)
    } else if word & 0x3F200C00 == 0x38000800 {
        Some(Outside::Unprivileged)
    } else if word & 0x7F800000 == 0x28000000 {
        Some(Outside::NonTemporal)
    } else if is_prefetch(word) {
        Some(Outside::Prefetch)
    } else {
        None
    }
}

/// Whether a word is PRFM at an unsigned offset, at a signed one, at an index, or of a literal.
fn is_prefetch(word: u32) -> bool
    ensures { result ≡ spec.is_prefetch word }
{
    word & 0xFFC00000 == 0xF9800000
        || word & 0xFFE00C00 == 0xF8800000
        || word & 0xFFE04C00 == 0xF8A04800
        || word & 0xFF000000 == 0xD8000000
}

/// The word of the profile's instruction that has the same operands in the same fields.
pub(crate) fn likened(outside: Outside, word: u32) -> u32
    ensures { result ≡ spec.likened outside word }
{
    match outside {
        // ORR (shifted register), LSL: Rm, imm6, Rn and Rd.
        Outside::Extract => word & 0x801FFFFF | 0x2A000000,
        // CLZ: Rn and Rd.
        Outside::ReverseBits
        | Outside::ReverseInHalves
        | Outside::ReverseInWords
        | Outside::ReverseAll => word & 0x800003FF | 0x5AC01000,
        // MADD and MSUB: Rm, Ra, Rn and Rd.
        Outside::SignedProduct | Outside::UnsignedProduct => word & 0xFF1FFFFF,
        // ADD, ADDS, SUB and SUBS (shifted register), LSL #0: Rm, Rn and Rd.
        Outside::Carry => word & 0xE01FFFFF | 0x0B000000,
        // LDP of W registers: imm7, Rt2, Rn and Rt.
        Outside::SignedPair => word & 0x3FFFFFFF,
        // LDUR, STUR and their kin: imm9, Rn and Rt.
        Outside::Unprivileged => word & 0xFFFFF3FF,
        // LDP and STP at an offset: imm7, Rt2, Rn and Rt.
        Outside::NonTemporal => word | 0x01000000,
        // NOP.
        Outside::Prefetch => 0xD503201F,
    }
}
