ghost use Rattle.std.specs.Prelude.{◌≡◌};
ghost use Rattle.a64_word.specs.Operands as spec;

use a64_word::{
    BitfieldKind, BranchKind, Extend, IndexExtend, IndexMode, Logical, MoveWideKind, PairMode,
    Shift, Transfer, TwoSourceKind,
};

/// The number of a shift in a word.
pub(crate) fn shift_code(shift: Shift) -> u32
    ensures { result ≡ spec.shift_code shift }
{
    match shift {
        Shift::Lsl => 0,
        Shift::Lsr => 1,
        Shift::Asr => 2,
        Shift::Ror => 3,
    }
}

/// The number of an extension in a word.
pub(crate) fn extend_code(extend: Extend) -> u32
    ensures { result ≡ spec.extend_code extend }
{
    match extend {
        Extend::Uxtb => 0,
        Extend::Uxth => 1,
        Extend::Uxtw => 2,
        Extend::Uxtx => 3,
        Extend::Sxtb => 4,
        Extend::Sxth => 5,
        Extend::Sxtw => 6,
        Extend::Sxtx => 7,
    }
}

/// The number of an operation bit by bit in a word.
pub(crate) fn logical_code(operation: Logical) -> u32
    ensures { result ≡ spec.logical_code operation }
{
    match operation {
        Logical::And => 0,
        Logical::Orr => 1,
        Logical::Eor => 2,
        Logical::Ands => 3,
    }
}

/// The number of a kind of wide move in a word.
pub(crate) fn move_wide_code(kind: MoveWideKind) -> u32
    ensures { result ≡ spec.move_wide_code kind }
{
    match kind {
        MoveWideKind::Movn => 0,
        MoveWideKind::Movz => 2,
        MoveWideKind::Movk => 3,
    }
}

/// The number of a kind of bitfield move in a word.
pub(crate) fn bitfield_code(kind: BitfieldKind) -> u32
    ensures { result ≡ spec.bitfield_code kind }
{
    match kind {
        BitfieldKind::Sbfm => 0,
        BitfieldKind::Bfm => 1,
        BitfieldKind::Ubfm => 2,
    }
}

/// The number of an operation on two registers in a word.
pub(crate) fn two_source_code(kind: TwoSourceKind) -> u32
    ensures { result ≡ spec.two_source_code kind }
{
    match kind {
        TwoSourceKind::Udiv => 2,
        TwoSourceKind::Sdiv => 3,
        TwoSourceKind::Lslv => 8,
        TwoSourceKind::Lsrv => 9,
        TwoSourceKind::Asrv => 10,
        TwoSourceKind::Rorv => 11,
    }
}

/// The number of a branch to a register in a word.
pub(crate) fn branch_code(kind: BranchKind) -> u32
    ensures { result ≡ spec.branch_code kind }
{
    match kind {
        BranchKind::Br => 0,
        BranchKind::Blr => 1,
        BranchKind::Ret => 2,
    }
}

/// The number of a store or load in a word.
pub(crate) fn transfer_code(transfer: Transfer) -> u32
    ensures { result ≡ spec.transfer_code transfer }
{
    match transfer {
        Transfer::Store => 0,
        Transfer::Load => 1,
        Transfer::LoadSignedX => 2,
        Transfer::LoadSignedW => 3,
    }
}

/// The number of a mode of a single access in a word.
pub(crate) fn index_mode_code(mode: IndexMode) -> u32
    ensures { result ≡ spec.index_mode_code mode }
{
    match mode {
        IndexMode::Unscaled => 0,
        IndexMode::PostIndex => 1,
        IndexMode::PreIndex => 3,
    }
}

/// The number of a mode of a pair in a word.
pub(crate) fn pair_mode_code(mode: PairMode) -> u32
    ensures { result ≡ spec.pair_mode_code mode }
{
    match mode {
        PairMode::PostIndex => 1,
        PairMode::Offset => 2,
        PairMode::PreIndex => 3,
    }
}

/// The number of an extension of an index in a word.
pub(crate) fn index_extend_code(extend: IndexExtend) -> u32
    ensures { result ≡ spec.index_extend_code extend }
{
    match extend {
        IndexExtend::Uxtw => 2,
        IndexExtend::Lsl => 3,
        IndexExtend::Sxtw => 6,
        IndexExtend::Sxtx => 7,
    }
}
