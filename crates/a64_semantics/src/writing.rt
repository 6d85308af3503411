ghost use Rattle.std.specs.Prelude.{◌≡◌, [], Some, None};
ghost use Rattle.a64_semantics.specs.Registers.{put_all, to_general};
ghost use Rattle.a64_semantics.specs.Writes.{flags_in, to_sp_unless};
ghost use Rattle.a64_semantics.specs.Performs.{going_on};

use crate::computed::Computed;
use crate::flags::Flags;
use crate::registers::Registers;
use a64_word::{Register, Width};

/// The flags that the registers hold.
#[inline(always)]
pub(crate) fn flags_in(registers: &Registers) -> Flags
    ensures { result ≡ flags_in registers.now }
{
    Flags::of_number(registers.nzcv)
}

/// Sets flags, where there are any, and goes on to the next word.
#[inline(always)]
pub(crate) fn go_on(registers: &mut Registers, flags: Option<Flags>)
    ensures { registers.new ≡ going_on flags registers.old }
{
    if let Some(flags) = flags {
        registers.nzcv = flags.number();
    }
    registers.pc = registers.pc.wrapping_add(4);
}

/// Writes a result to a register, where number 31 is zr, and goes on.
#[inline(always)]
pub(crate) fn finish(registers: &mut Registers, rd: Register, width: Width, value: u64)
    ensures { registers.new ≡ going_on None (put_all (to_general rd width value []) registers.old) }
{
    registers.put(rd, width, value);
    go_on(registers, None);
}

/// Writes a result and its flags, where number 31 is zr, and goes on.
#[inline(always)]
pub(crate) fn finish_with_flags(
    registers: &mut Registers,
    rd: Register,
    width: Width,
    computed: Computed,
)
    ensures { registers.new ≡ going_on computed.flags (put_all (to_general rd width computed.value []) registers.old) }
{
    registers.put(rd, width, computed.value);
    go_on(registers, computed.flags);
}

/// Writes a result and its flags, where number 31 is sp unless flags are set, and goes on.
#[inline(always)]
pub(crate) fn finish_to_sp(
    registers: &mut Registers,
    set_flags: bool,
    rd: Register,
    width: Width,
    computed: Computed,
)
    ensures { registers.new ≡ going_on computed.flags (put_all (to_sp_unless set_flags rd width computed.value) registers.old) }
{
    if set_flags {
        registers.put(rd, width, computed.value);
    } else {
        registers.put_or_sp(rd, width, computed.value);
    }
    go_on(registers, computed.flags);
}
