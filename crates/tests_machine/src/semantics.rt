//! Tables of instructions, with what they make of registers, flags and pc; the reference implementation beside the crates; and the
//! sparse memory.

mod bits;
mod branches;
mod choices;
mod compared;
mod memory;
mod places;
mod products;
mod rows;
mod sums;
mod thirty_one;
