//! The groups of A64 words, as the Arm manual has them.

ghost use Rattle.std.specs.Prelude.{◌≡◌, ◌+◌, ◌<◌, ◌≤◌};
ghost use Rattle.lfi_explain.specs.Groups as spec;

/// A group of A64 words: C4.1 "A64 instruction set encoding". Branches and system instructions, and loads and stores, are told
/// apart further, by the manual's next tables.
#[derive(Clone, Copy, PartialEq, Eq)]
pub enum Group {
    /// UDF, and words that are to be no instruction.
    Reserved,
    /// Words that the manual gives no meaning.
    Unallocated,
    /// The Scalable Matrix Extension.
    Sme,
    /// The Scalable Vector Extension.
    Sve,
    /// Data processing with an immediate.
    Immediate,
    /// SVC, HVC, SMC, BRK, HLT and others.
    Exception,
    /// Hints, barriers, MSR, MRS, SYS and others.
    System,
    /// Branches.
    Branch,
    /// Exclusive accesses, LDAR and STLR, compare and swap.
    Exclusive,
    /// LDADD, SWP, LDAPR and others.
    Atomic,
    /// All other loads and stores of general registers.
    LoadStore,
    /// Loads and stores of floating point and SIMD registers.
    VectorAccess,
    /// Data processing with registers.
    Register,
    /// Floating point and SIMD.
    Vector,
}

/// `width` bits of a word, the lowest of them with this number.
fn bits(word: u32, low: u32, width: u32) -> u32
    requires some { 0 < width }
    requires narrow { width < 32 }
    requires inside { low + width ≤ 32 }
    ensures { result ≡ spec.bits_of word low width }
{
    (word >> low) & ((1 << width) - 1)
}

/// The group of one of the branches, exception generating and system instructions.
fn branch_group(word: u32) -> Group
    ensures { result ≡ spec.branch_group word }
{
    if bits(word, 24, 8) == 212 {
        Group::Exception
    } else if bits(word, 24, 8) == 213 {
        Group::System
    } else {
        Group::Branch
    }
}

/// The group of one of the loads and stores of general registers.
fn access_group(word: u32) -> Group
    ensures { result ≡ spec.access_group word }
{
    if bits(word, 24, 6) == 8 {
        Group::Exclusive
    } else if bits(word, 24, 6) == 56 && bits(word, 21, 1) == 1 && bits(word, 10, 2) == 0 {
        Group::Atomic
    } else {
        Group::LoadStore
    }
}

/// The group of a word whose bits 28 to 25 are 0000: by bit 31.
fn first_group(word: u32) -> Group
    ensures { result ≡ spec.first_group word }
{
    if bits(word, 31, 1) == 0 {
        Group::Reserved
    } else {
        Group::Sme
    }
}

impl Group {
    /// The group of a word.
    pub fn of(word: u32) -> Group
        ensures { result ≡ spec.group_of word }
    {
        if bits(word, 25, 3) == 7 {
            Group::Vector
        } else if bits(word, 25, 3) == 5 {
            Group::Register
        } else if bits(word, 25, 3) == 6 {
            Group::VectorAccess
        } else if bits(word, 25, 3) == 4 {
            access_group(word)
        } else if bits(word, 26, 3) == 4 {
            Group::Immediate
        } else if bits(word, 26, 3) == 5 {
            branch_group(word)
        } else if bits(word, 25, 4) == 2 {
            Group::Sve
        } else if bits(word, 25, 4) == 0 {
            first_group(word)
        } else {
            Group::Unallocated
        }
    }

    /// In words.
    pub(crate) fn text(self) -> &'static str
        ensures { result.now ≡ spec.group_text self }
    {
        match self {
            Group::Reserved => "reserved words",
            Group::Unallocated => "unallocated words",
            Group::Sme => "SME",
            Group::Sve => "SVE",
            Group::Immediate => "data processing with an immediate",
            Group::Exception => "exception generation",
            Group::System => "system instructions, barriers and hints",
            Group::Branch => "branches",
            Group::Exclusive => "exclusive and ordered accesses, compare and swap",
            Group::Atomic => "atomic memory operations",
            Group::LoadStore => "loads and stores",
            Group::VectorAccess => "loads and stores of floating point and SIMD registers",
            Group::Register => "data processing with registers",
            Group::Vector => "floating point and SIMD",
        }
    }
}
