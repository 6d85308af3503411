ghost use Rattle.std.specs.Prelude.{◌≡◌, []};
ghost use Rattle.a64_semantics.specs.Registers.{x_at, x_or_sp_at, low_bits, put_all, to_general, to_or_sp};

use a64_word::{Register, Width};

/// What a machine holds beside its memory: B1.2 "Registers in AArch64 state" of the Arm manual.
#[derive(Clone, Copy)]
pub struct Registers {
    /// x0 to x30.
    pub x: [u64; 31],
    /// The stack pointer.
    pub sp: u64,
    /// The address of the instruction that comes next.
    pub pc: u64,
    /// The flags: N is 8, Z is 4, C is 2 and V is 1.
    pub nzcv: u8,
}

/// The lowest 32 bits of a value for W, and all of it for X.
#[inline(always)]
fn low_bits(width: Width, value: u64) -> u64
    ensures { result ≡ low_bits width value }
{
    match width {
        Width::W => value & 0xFFFF_FFFF,
        Width::X => value,
    }
}

impl Registers {
    /// A register as an operand of 64 bits. Number 31 is zr, which reads 0.
    #[inline(always)]
    pub fn x(&self, register: Register) -> u64
        ensures { result ≡ x_at self.now register }
    {
        let number = register.number();
        if number == 31 {
            0
        } else {
            self.x[usize::from(number)]
        }
    }

    /// A register as an operand of 64 bits. Number 31 is sp.
    #[inline(always)]
    pub fn x_or_sp(&self, register: Register) -> u64
        ensures { result ≡ x_or_sp_at self.now register }
    {
        let number = register.number();
        if number == 31 {
            self.sp
        } else {
            self.x[usize::from(number)]
        }
    }

    /// A register as an operand of a width. Number 31 is zr, which reads 0.
    #[inline(always)]
    pub fn operand(&self, register: Register, width: Width) -> u64
        ensures { result ≡ low_bits width (x_at self.now register) }
    {
        low_bits(width, self.x(register))
    }

    /// Writes a result. As W it clears the upper half of the register. Number 31 is zr, and what is written to it is lost.
    #[inline(always)]
    pub fn put(&mut self, register: Register, width: Width, value: u64)
        ensures { self.new ≡ put_all (to_general register width value []) self.old }
    {
        let number = register.number();
        if number != 31 {
            self.x[usize::from(number)] = low_bits(width, value);
        }
    }

    /// Writes a result. As W it clears the upper half of the register. Number 31 is sp.
    #[inline(always)]
    pub fn put_or_sp(&mut self, register: Register, width: Width, value: u64)
        ensures { self.new ≡ put_all (to_or_sp register width value []) self.old }
    {
        let number = register.number();
        if number == 31 {
            self.sp = low_bits(width, value);
        } else {
            self.x[usize::from(number)] = low_bits(width, value);
        }
    }
}
