//! A machine for one instruction after another: results of the slow reference program, loads that depend on their address
//! alone, and stores in a list.
use a64_reference::plain_result;
use a64_semantics::Registers;
use a64_word::{
    AddSubExtended, AddSubImmediate, IndexExtend, IndexMode, Instruction, Logical, Pair, PairMode,
    Register, SignedOffset, Size, Transfer, Width,
};

/// A store: its address, how many bytes, and what is stored.
#[derive(Clone, Copy, PartialEq, Eq)]
pub struct Stored {
    pub address: u64,
    pub size: Size,
    pub value: u64,
}

/// Where the slot begins.
pub const SLOT: u64 = 7 << 32;

/// Registers, and what was stored.
#[derive(Clone, Copy)]
pub struct Machine {
    pub registers: Registers,
    pub stores: [Option<Stored>; 2],
    /// Whether all accesses so far were inside the slot.
    pub is_inside: bool,
}

/// The lowest bytes of a value.
pub fn low(size: Size, value: u64) -> u64 {
    match size {
        Size::Byte => value & 0xFF,
        Size::Half => value & 0xFFFF,
        Size::Word => value & 0xFFFF_FFFF,
        Size::Double => value,
    }
}

/// A number whose upper bits are those of its sign bit, which is the highest of a size.
pub fn sign_extended(size: Size, value: u64) -> u64 {
    let sign = match size {
        Size::Byte => 0x80,
        Size::Half => 0x8000,
        Size::Word => 0x8000_0000,
        Size::Double => 0x8000_0000_0000_0000,
    };
    (low(size, value) ^ sign).wrapping_sub(sign)
}

/// What lies at an address.
fn found(address: u64, size: Size) -> u64 {
    low(
        size,
        address.wrapping_mul(0x9E37_79B9_7F4A_7C15).rotate_left(29),
    )
}

/// How many bytes a size has.
fn bytes(size: Size) -> u64 {
    match size {
        Size::Byte => 1,
        Size::Half => 2,
        Size::Word => 4,
        Size::Double => 8,
    }
}

/// Whether the bytes of an access lie in the slot.
fn lies_inside(address: u64, size: Size) -> bool {
    let last = address.wrapping_add(bytes(size)).wrapping_sub(1);
    address >> 32 == SLOT >> 32 && last >> 32 == SLOT >> 32
}

/// An offset of 32 bits as one of 64.
fn wide(offset: i32) -> u64 {
    let distance = u64::from(offset.unsigned_abs());
    if offset < 0 {
        0_u64.wrapping_sub(distance)
    } else {
        distance
    }
}

/// A load of zero-extended bytes, or a store.
fn transfer_of(load: bool) -> Transfer {
    if load {
        Transfer::Load
    } else {
        Transfer::Store
    }
}

/// A register that no row names. It stands for sp in the reference program, to which number 31 is always zr.
pub const STAND_IN: u8 = 15;

/// What the reference program computes, where a sum may be one of sp.
fn result(instruction: &Instruction, registers: &Registers) -> Option<(u64, u8)> {
    let stack = Register::new(31);
    let rn = Register::new(STAND_IN);
    let mut with_stack = *registers;
    with_stack.x[usize::from(STAND_IN)] = registers.sp;
    match instruction {
        Instruction::AddSubImmediate(i) if i.rn == stack => plain_result(
            &Instruction::AddSubImmediate(AddSubImmediate { rn, ..*i }),
            &with_stack,
        ),
        Instruction::AddSubExtended(i) if i.rn == stack => plain_result(
            &Instruction::AddSubExtended(AddSubExtended { rn, ..*i }),
            &with_stack,
        ),
        _ => plain_result(instruction, registers),
    }
}

impl Machine {
    /// A machine that has stored nothing.
    pub fn new(registers: Registers) -> Machine {
        Machine {
            registers,
            stores: [None; 2],
            is_inside: true,
        }
    }

    fn store(&mut self, stored: Stored) {
        if self.stores[0] == None {
            self.stores[0] = Some(stored);
        } else {
            self.stores[1] = Some(stored);
        }
    }

    /// One access.
    fn access(&mut self, size: Size, transfer: Transfer, moved: Register, address: u64) {
        self.is_inside &= lies_inside(address, size);
        let value = found(address, size);
        match transfer {
            Transfer::Store => {
                let value = low(size, self.registers.x(moved));
                self.store(Stored {
                    address,
                    size,
                    value,
                });
            }
            Transfer::Load => self.registers.put(moved, Width::X, value),
            Transfer::LoadSignedX => {
                self.registers
                    .put(moved, Width::X, sign_extended(size, value));
            }
            Transfer::LoadSignedW => {
                self.registers
                    .put(moved, Width::W, sign_extended(size, value));
            }
        }
    }

    /// The index of an access, extended and shifted.
    fn index(&self, register: Register, extend: IndexExtend, factor: u64) -> u64 {
        let value = self.registers.x(register);
        let extended = match extend {
            IndexExtend::Uxtw => value & 0xFFFF_FFFF,
            IndexExtend::Sxtw => sign_extended(Size::Word, value),
            IndexExtend::Lsl | IndexExtend::Sxtx => value,
        };
        extended.wrapping_mul(factor)
    }

    /// An access at a signed offset, which may change its base.
    fn signed(&mut self, i: &SignedOffset) {
        let base = self.registers.x_or_sp(i.rn);
        let changed = base.wrapping_add(wide(i.imm9));
        let address = if i.mode == IndexMode::PostIndex {
            base
        } else {
            changed
        };
        self.access(i.size, i.transfer, i.rt, address);
        if i.mode != IndexMode::Unscaled {
            self.registers.put_or_sp(i.rn, Width::X, changed);
        }
    }

    /// An access of a pair.
    fn pair(&mut self, i: &Pair) {
        let size = match i.width {
            Width::W => Size::Word,
            Width::X => Size::Double,
        };
        let transfer = transfer_of(i.load);
        let base = self.registers.x_or_sp(i.rn);
        let changed = base.wrapping_add(wide(i.imm7).wrapping_mul(bytes(size)));
        let address = if i.mode == PairMode::PostIndex {
            base
        } else {
            changed
        };
        self.access(size, transfer, i.rt, address);
        self.access(size, transfer, i.rt2, address.wrapping_add(bytes(size)));
        if i.mode != PairMode::Offset {
            self.registers.put_or_sp(i.rn, Width::X, changed);
        }
    }

    /// A load or store, if it is one.
    fn perform_access(&mut self, instruction: &Instruction) {
        match instruction {
            Instruction::UnsignedOffset(i) => {
                let offset = u64::from(i.imm12).wrapping_mul(bytes(i.size));
                let address = self.registers.x_or_sp(i.rn).wrapping_add(offset);
                self.access(i.size, i.transfer, i.rt, address);
            }
            Instruction::SignedOffset(i) => self.signed(i),
            Instruction::RegisterOffset(i) => {
                let factor = if i.scaled { bytes(i.size) } else { 1 };
                let index = self.index(i.rm, i.extend, factor);
                let address = self.registers.x_or_sp(i.rn).wrapping_add(index);
                self.access(i.size, i.transfer, i.rt, address);
            }
            Instruction::Ordered(i) => {
                let address = self.registers.x_or_sp(i.rn);
                self.access(i.size, transfer_of(i.load), i.rt, address);
            }
            Instruction::Pair(i) => self.pair(i),
            _ => {}
        }
    }

    /// One instruction that computes a register, or a load or store. Others are passed over.
    pub fn perform(&mut self, instruction: &Instruction) {
        let Some((value, flags)) = result(instruction, &self.registers) else {
            self.perform_access(instruction);
            return;
        };
        match instruction {
            Instruction::AddSubImmediate(i) if !i.set_flags => {
                self.registers.put_or_sp(i.rd, Width::X, value);
            }
            Instruction::AddSubExtended(i) if !i.set_flags => {
                self.registers.put_or_sp(i.rd, Width::X, value);
            }
            Instruction::LogicalImmediate(i) if i.operation != Logical::Ands => {
                self.registers.put_or_sp(i.rd, Width::X, value);
            }
            _ => {
                if let Some(register) = general(instruction) {
                    self.registers.put(register, Width::X, value);
                }
            }
        }
        self.registers.nzcv = flags;
    }
}

/// The register that an instruction computes, where number 31 is zr.
fn general(instruction: &Instruction) -> Option<Register> {
    match instruction {
        Instruction::AddSubImmediate(i) => Some(i.rd),
        Instruction::AddSubExtended(i) => Some(i.rd),
        Instruction::LogicalImmediate(i) => Some(i.rd),
        Instruction::MoveWide(i) => Some(i.rd),
        Instruction::Bitfield(i) => Some(i.rd),
        Instruction::LogicalShifted(i) => Some(i.rd),
        Instruction::AddSubShifted(i) => Some(i.rd),
        Instruction::ConditionalSelect(i) => Some(i.rd),
        Instruction::TwoSource(i) => Some(i.rd),
        Instruction::CountLeadingZeros(i) => Some(i.rd),
        Instruction::MultiplyAdd(i) => Some(i.rd),
        Instruction::MultiplyHigh(i) => Some(i.rd),
        _ => None,
    }
}
