//! What the A64 instructions of the profile do: to registers, flags and pc, and which bytes they access. Source: the
//! operations of the Arm manual's C6.2.
//!
//! # How data flows
//!
//! An instruction comes decoded, from a64_word. `Registers` gives what its operands hold; the function of its class in
//! `results` computes of these a value and flags; `perform` writes them to their register or to sp, and sets pc. It
//! carries out every instruction that accesses no memory. Loads and stores are defined here, and carried out by
//! lfi_machine, which has the memory.
//!
//! specs/, in the order in which it stands on itself: Registers has operands and results that are written. Numbers,
//! Sums, Conditions, Shifts, Bitfields, Products and Results say what each class computes. Accesses says which bytes an
//! instruction accesses, Writes what goes to which register and which flags are set, Branches where it goes on, Steps
//! all of it together. Performs is that for an instruction that accesses no memory. The law `writes_what_is_told` ties
//! it to a64_effects: what is written goes where the effects tell, and nowhere else.
//!
//! # What it may not know
//!
//! Memory in pages, the map of a slot, halts, the runtime, modules, this profile's rules. Memory is a function of
//! addresses here.
//!
//! # Decisions
//!
//! - **Results are definitions of operand values**, apart from registers: what an instruction computes of what its
//!   registers hold is a number and flags; where it is written stands in the step. A place of a result is a `Use`, the
//!   same notion as in `writes_of`, so one law ties the two (`writes_what_is_told`).
//! - **`nzcv` is a number in `Registers`**, so that a caller can hand in one that isn't below 16 and be refused. Where
//!   flags are computed they are four Booleans (`Flags`), made only where they are set, and without branches: signs of
//!   operands are hard to predict.
//! - **The bitmask is a function in the definitions** (`mask_of`), beside the relation `IsMask`, with which it is
//!   proved to agree. `a64_semantics::logical_immediate` takes a mask that is known; `perform` makes it at each step.
//!   Masks made before the run would take 24 bytes a word in place of 16, or a table beside. The loop of `bench machine`
//!   with UXTH in place of its bitmask ran as fast as other load let one tell (158 million steps a second beside 146 at
//!   best, 135 beside 136 in the middle), so that is left. A mask of an element of 2 bits takes 32 turns of a loop, and
//!   is the dearest.
#![tactic(auto)]

mod bitfields;
mod branches;
mod computed;
mod dispatch;
mod far_ends;
mod flags;
mod immediates;
mod laws;
mod logical;
mod numbers;
mod products;
mod register_forms;
mod registers;
pub mod results;
mod shifts;
mod sums;
mod writing;

pub use computed::Computed;
pub use dispatch::{is_branch, perform, perform_branch, perform_straight};
pub use far_ends::addresses_at_the_far_ends;
pub use flags::Flags;
pub use immediates::logical_immediate;
pub use laws::{narrow_pairs_move_their_base, writes_what_is_told};
pub use registers::Registers;
