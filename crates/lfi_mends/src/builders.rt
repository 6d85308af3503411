//! What a mend is made of: functions that make an instruction each, and say where it stands and what it opens.

ghost use Rattle.std.specs.Prelude.{ℕ, ◌≢◌, ◌≡◌, ◌<◌, ◌≤◌, IsTrue, false, true, ◌==◌};
ghost use Rattle.lfi_module.specs.declared.profile.Profile.{Profile};
ghost use Rattle.lfi_module.specs.declared.profile.Profile.TheVariants.{Two};
ghost use Rattle.lfi_rules.specs.declared.needs.Need.TheVariants.{Nothing, Guard, Probe};
ghost use Rattle.a64_word.specs.declared.operands.BranchKind.TheVariants.{Ret};
ghost use Rattle.a64_word.specs.declared.instruction.Instruction.{Instruction};
ghost use Rattle.lfi_rules.specs.Needs.{opens_of, window};
ghost use Rattle.a64_word.specs.Encoding.{IsAccess, IsLegal, fields};
ghost use Rattle.a64_word.specs.Fields.{AllFit};
ghost use Rattle.lfi_mends.specs.Mends.{Stands};
ghost use Rattle.lfi_mends.specs.Outcomes as outcomes;
ghost use Rattle.lfi_mends.specs.Registers as spec;
ghost use Rattle.lfi_mends.specs.inner.Computing.{is_computing};
ghost use Rattle.lfi_mends.specs.inner.Rows as rows;
ghost use Rattle.a64_effects.specs.Effects.{ordered_transfer};
ghost use Rattle.a64_word.specs.declared.operands.Size.TheVariants.{Double};
ghost use Rattle.a64_word.specs.declared.operands.Transfer.TheVariants.{Load};
ghost use Rattle.a64_word.specs.declared.operands.Width.TheVariants.{X};

use a64_word::{
    AddSubExtended, AddSubImmediate, BranchKind, BranchRegister, Extend, IndexExtend, Instruction,
    Logical, LogicalShifted, Ordered, Pair, PairMode, Register, RegisterOffset, Shift, Size,
    Transfer, UnsignedOffset, Width,
};
use lfi_rules::registers::{
    BASE, FIRST_ADDRESS, LINK, OFFSET, SECOND_ADDRESS, STACK, THIRD_ADDRESS,
};

/// Whether a register is one of those that the profile reserves.
pub(crate) fn is_reserved(register: Register) -> bool
    ensures { result ≡ spec.is_reserved register }
{
    let number = register.number();
    number == FIRST_ADDRESS
        || (number == BASE
            || (number == OFFSET
                || (number == SECOND_ADDRESS || (number == THIRD_ADDRESS || number == LINK))))
}

/// Whether an access stores, or loads into a register that isn't reserved.
pub(crate) fn may_move(transfer: Transfer, register: Register) -> bool
    ensures { result ≡ spec.may_move transfer register }
{
    transfer == Transfer::Store || !is_reserved(register)
}

/// ADD Xd, X21, Wm, UXTW.
pub(crate) fn guard(into: Register, register: Register) -> Instruction
    requires base { (into == 21) ≡ false }
    requires offset { (into == 22) ≡ false }
    ensures is { result ≡ rows.guard_of into register }
    ensures stands { (profile : Profile) → Stands profile Nothing result }
    ensures opens { (profile : Profile) → opens_of profile result ≡ Nothing }
{
    Instruction::AddSubExtended(AddSubExtended {
        width: Width::X,
        subtract: false,
        set_flags: false,
        extend: Extend::Uxtw,
        amount: 0,
        rm: register,
        rn: Register::new(BASE),
        rd: into,
    })
}

/// ADD X18, X21, Wm, UXTW.
pub(crate) fn address_guard(register: Register) -> Instruction
    ensures is { result ≡ rows.guard_of 18 register }
    ensures stands { (profile : Profile) → Stands profile Nothing result }
    ensures opens { (profile : Profile) → opens_of profile result ≡ Nothing }
{
    guard(Register::new(FIRST_ADDRESS), register)
}

/// ADD X30, X21, W30, UXTW.
pub(crate) fn link_guard() -> Instruction
    ensures is { result ≡ rows.guard_of 30 30 }
    ensures stands { (profile : Profile) → Stands profile Guard result }
    ensures opens { (profile : Profile) → opens_of profile result ≡ Nothing }
{
    let link = Register::new(LINK);
    Instruction::AddSubExtended(AddSubExtended {
        width: Width::X,
        subtract: false,
        set_flags: false,
        extend: Extend::Uxtw,
        amount: 0,
        rm: link,
        rn: Register::new(BASE),
        rd: link,
    })
}

/// LDR XZR, [SP].
pub(crate) fn probe() -> Instruction
    ensures is { result ≡ outcomes.probe }
    ensures stands { (profile : Profile) (count : ℕ) → Stands profile (Probe count) result }
    ensures opens { (profile : Profile) → opens_of profile result ≡ Nothing }
{
    let zero = Register::new(STACK);
    Instruction::UnsignedOffset(UnsignedOffset {
        size: Size::Double,
        transfer: Transfer::Load,
        imm12: 0,
        rn: zero,
        rt: zero,
    })
}

/// A load of 64 bits into x30 at x21 and a W register.
pub(crate) fn link_access(index: Register) -> Instruction
    ensures is { result ≡ rows.access_of Double Load index 30 }
    ensures stands { (profile : Profile) → Stands profile Nothing result }
    ensures opens { (profile : Profile) → opens_of profile result ≡ Guard }
{
    Instruction::RegisterOffset(RegisterOffset {
        size: Size::Double,
        transfer: Transfer::Load,
        rm: index,
        extend: IndexExtend::Uxtw,
        scaled: false,
        rn: Register::new(BASE),
        rt: Register::new(LINK),
    })
}

/// ADD SP, X21, X22, UXTX.
pub(crate) fn stack_sum() -> Instruction
    ensures stands { (profile : Profile) → Stands profile Nothing result }
    ensures opens { (profile : Profile) → opens_of profile result ≡ Nothing }
{
    Instruction::AddSubExtended(AddSubExtended {
        width: Width::X,
        subtract: false,
        set_flags: false,
        extend: Extend::Uxtx,
        amount: 0,
        rm: Register::new(OFFSET),
        rn: Register::new(BASE),
        rd: Register::new(STACK),
    })
}

/// RET X30.
pub(crate) fn ret() -> Instruction
    ensures stands { (profile : Profile) → Stands profile Nothing result }
    ensures opens { (profile : Profile) → opens_of profile result ≡ Nothing }
{
    Instruction::BranchRegister(BranchRegister {
        kind: BranchKind::Ret,
        rn: Register::new(LINK),
    })
}

/// A branch through x18, but for RET.
pub(crate) fn branch(kind: BranchKind) -> Instruction
    requires { kind ≢ Ret }
    ensures stands { (profile : Profile) → Stands profile Nothing result }
    ensures opens { (profile : Profile) → opens_of profile result ≡ Nothing }
{
    Instruction::BranchRegister(BranchRegister {
        kind,
        rn: Register::new(FIRST_ADDRESS),
    })
}

/// Whether the registers of a pair are stored, or none of them is reserved.
pub(crate) fn may_move_two(load: bool, second: Register, first: Register) -> bool
    ensures { result ≡ spec.may_move_two load second first }
{
    if load {
        !is_reserved(first) && !is_reserved(second)
    } else {
        true
    }
}

/// A pair at x18.
pub(crate) fn pair(width: Width, load: bool, second: Register, first: Register) -> Instruction
    requires free { IsTrue (spec.may_move_two load second first) }
    requires apart { load ≡ true → first ≢ second }
    ensures is { result ≡ rows.pair_of width load second first }
    ensures stands { (profile : Profile) → Stands profile Nothing result }
    ensures opens { (profile : Profile) → opens_of profile result ≡ Nothing }
{
    Instruction::Pair(Pair {
        width,
        load,
        mode: PairMode::Offset,
        imm7: 0,
        rt2: second,
        rn: Register::new(FIRST_ADDRESS),
        rt: first,
    })
}

/// ADD or SUB Wd, Wn, #imm12.
pub(crate) fn sum_with_immediate(
    into: Register,
    base: Register,
    subtract: bool,
    shifted: bool,
    imm12: u16,
) -> Instruction
    requires fits { imm12 < 4096 }
    requires holds { IsTrue (spec.may_hold into) }
    ensures stands { (profile : Profile) → Stands profile Nothing result }
    ensures is { result ≡ rows.sum_of_immediate into subtract shifted imm12 base }
    ensures opens { (profile : Profile) → opens_of profile result ≡ Nothing }
{
    Instruction::AddSubImmediate(AddSubImmediate {
        width: Width::W,
        subtract,
        set_flags: false,
        shifted,
        imm12,
        rn: base,
        rd: into,
    })
}

/// ADD Wd, Wn, Wm, UXTW #amount.
pub(crate) fn sum_with_index(
    into: Register,
    base: Register,
    index: Register,
    amount: u8,
) -> Instruction
    requires amount { amount ≤ 4 }
    requires holds { IsTrue (spec.may_hold into) }
    ensures stands { (profile : Profile) → Stands profile Nothing result }
    ensures is { result ≡ rows.sum_of_index into amount index base }
    ensures opens { (profile : Profile) → opens_of profile result ≡ Nothing }
{
    Instruction::AddSubExtended(AddSubExtended {
        width: Width::W,
        subtract: false,
        set_flags: false,
        extend: Extend::Uxtw,
        amount,
        rm: index,
        rn: base,
        rd: into,
    })
}

/// ADD or SUB Xn, Xn, #imm12.
pub(crate) fn changed(base: Register, subtract: bool, imm12: u16) -> Instruction
    requires fits { imm12 < 4096 }
    requires free { spec.is_reserved base ≡ false }
    requires no_stack { (base == 31) ≡ false }
    ensures stands { (profile : Profile) → Stands profile Nothing result }
    ensures is { result ≡ rows.changed_of subtract imm12 base }
    ensures opens { (profile : Profile) → opens_of profile result ≡ Nothing }
{
    Instruction::AddSubImmediate(AddSubImmediate {
        width: Width::X,
        subtract,
        set_flags: false,
        shifted: false,
        imm12,
        rn: base,
        rd: base,
    })
}

/// A single access at x21 and a W register.
pub(crate) fn access(
    size: Size,
    transfer: Transfer,
    moved: Register,
    index: Register,
) -> Instruction
    requires legal { IsAccess size transfer }
    requires free { IsTrue (spec.may_move transfer moved) }
    ensures stands { (profile : Profile) → Stands profile Nothing result }
    ensures is { result ≡ rows.access_of size transfer index moved }
    ensures opens { (profile : Profile) → opens_of profile result ≡ Nothing }
{
    Instruction::RegisterOffset(RegisterOffset {
        size,
        transfer,
        rm: index,
        extend: IndexExtend::Uxtw,
        scaled: false,
        rn: Register::new(BASE),
        rt: moved,
    })
}

/// Whether two X registers are x30 and one that isn't reserved.
pub(crate) fn holds_link(width: Width, second: Register, first: Register) -> bool
    ensures { result ≡ spec.holds_link width second first }
{
    width == Width::X
        && ((first.number() == LINK && !is_reserved(second))
            || (second.number() == LINK && !is_reserved(first)))
}

/// A load at x18 of two X registers, of which one is x30.
pub(crate) fn link_pair(second: Register, first: Register) -> Instruction
    requires link { IsTrue (spec.holds_link X second first) }
    requires apart { first ≢ second }
    ensures is { result ≡ rows.pair_of X true second first }
    ensures stands { (profile : Profile) → Stands profile Nothing result }
    ensures opens { (profile : Profile) → opens_of profile result ≡ Guard }
{
    Instruction::Pair(Pair {
        width: Width::X,
        load: true,
        mode: PairMode::Offset,
        imm7: 0,
        rt2: second,
        rn: Register::new(FIRST_ADDRESS),
        rt: first,
    })
}

/// ADD or SUB SP, SP, #imm12.
pub(crate) fn stack_moved(subtract: bool, imm12: u16) -> Instruction
    requires { imm12 < 4096 }
    ensures is { result ≡ rows.changed_of subtract imm12 31 }
    ensures stands { (profile : Profile) → Stands profile Nothing result }
    ensures opens { (profile : Profile) → opens_of profile result ≡ Probe (window profile) }
{
    Instruction::AddSubImmediate(AddSubImmediate {
        width: Width::X,
        subtract,
        set_flags: false,
        shifted: false,
        imm12,
        rn: Register::new(STACK),
        rd: Register::new(STACK),
    })
}

/// LDAR or STLR at x18.
pub(crate) fn ordered(size: Size, load: bool, moved: Register) -> Instruction
    requires free { IsTrue (spec.may_move (ordered_transfer load) moved) }
    ensures is { result ≡ rows.ordered_of size load moved }
    ensures stands { Stands Two Nothing result }
    ensures opens { opens_of Two result ≡ Nothing }
{
    Instruction::Ordered(Ordered {
        size,
        load,
        rn: Register::new(FIRST_ADDRESS),
        rt: moved,
    })
}

/// LDAR X30 at x18.
pub(crate) fn link_ordered() -> Instruction
    ensures is { result ≡ rows.ordered_of Double true 30 }
    ensures stands { Stands Two Nothing result }
    ensures opens { opens_of Two result ≡ Guard }
{
    Instruction::Ordered(Ordered {
        size: Size::Double,
        load: true,
        rn: Register::new(FIRST_ADDRESS),
        rt: Register::new(LINK),
    })
}

/// An instruction that only computes.
pub(crate) fn computing(instruction: Instruction) -> Instruction
    requires legal { IsLegal instruction }
    requires fits { AllFit (fields instruction) }
    requires computes { IsTrue (is_computing instruction) }
    ensures same { result ≡ instruction }
    ensures stands { (profile : Profile) → Stands profile Nothing result }
    ensures opens { (profile : Profile) → opens_of profile result ≡ Nothing }
{
    instruction
}

/// MOV Xd, Xm.
pub(crate) fn copied(into: Register, from: Register) -> Instruction
    requires { IsTrue (spec.is_free into) }
    ensures is { result ≡ rows.move_of into from }
    ensures stands { (profile : Profile) → Stands profile Nothing result }
    ensures opens { (profile : Profile) → opens_of profile result ≡ Nothing }
{
    computing(Instruction::LogicalShifted(LogicalShifted {
        width: Width::X,
        operation: Logical::Orr,
        invert: false,
        shift: Shift::Lsl,
        amount: 0,
        rm: from,
        rn: Register::new(STACK),
        rd: into,
    }))
}

/// MOV W22, Wm.
pub(crate) fn copied_to_offset(from: Register) -> Instruction
    ensures is { result ≡ rows.copy_of from }
    ensures stands { (profile : Profile) → Stands profile Nothing result }
    ensures opens { (profile : Profile) → opens_of profile result ≡ Nothing }
{
    computing(Instruction::LogicalShifted(LogicalShifted {
        width: Width::W,
        operation: Logical::Orr,
        invert: false,
        shift: Shift::Lsl,
        amount: 0,
        rm: from,
        rn: Register::new(STACK),
        rd: Register::new(OFFSET),
    }))
}
