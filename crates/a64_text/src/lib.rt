//! The text of instructions, as an assembler reads it: C6.2, a section an instruction, in lower case and without aliases.
//!
//! # How data flows
//!
//! `Assembly(instruction)` is written as the instruction's text, as `ldr w1, [x19]`; so are a condition, a shift and the
//! other names of an instruction's parts. Registers are written at a width.
//!
//! # What it may not know
//!
//! Words, rules, places of instructions. How it is told of a word and what it asks is `lfi_explain`'s.
//!
//! # Decisions
//!
//! - **The texts stand apart from the instructions**, since all else stands on these, and next to nothing on their texts:
//!   so what is proved of words needn't wait for what is proved of texts.
//! - A place that an instruction names by its distance is written from the instruction itself, as `.+8`. An offset, a shift
//!   or an amount of 0 is left out where that changes no bit of the word.
//! - **A text is one value that owns its parts** (`Statement`, `Then`, `Beside`), and is written by value. A `write!` of many
//!   parts borrows each of them, and its proof takes twice as long. A value that begins with a literal and has others
//!   deeper in it isn't covered by the borrow checker yet: such a text stays a `write!`.
//! - Of an instruction that no word spells the text is one that no assembler takes, or that of another instruction.
#![tactic(auto)]

mod accesses;
mod assembly;
mod control;
mod instruction;
mod line;
mod names;
mod operands;
mod processing;

pub use assembly::Assembly;
pub use operands::{GeneralRegister, RegisterOrStack};
