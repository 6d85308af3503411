//! Instructions as words: the way back from what `a64_word` decodes. Source: the encodings of the Arm manual's C4.1 and C6.2.
//!
//! # How data flows
//!
//! `encode` takes an instruction of a profile to its word, or to none where an operand is out of its range: each class
//! lists its fields, from bit 31 down, and `word_of` puts them together.
//!
//! # What it may not know
//!
//! How words are decoded, what instructions do and how they are written, rules, modules' numbers, pages. Of `lfi_module` it
//! takes `Profile` alone.
//!
//! # Decisions
//!
//! - **The way back stands apart from decoding**, since no crate of the program takes it, and nearly all of them wait for
//!   what is proved of decoding. The C library takes it for the words of mends; tests compare each word with what its
//!   instruction is encoded as.
//! - What a word's fields are is said once, by `fields` of `a64_word`, on which both ways rest: so a word that is encoded
//!   is decoded as the instruction that it was, which nobody has to prove anew.
//! - The numbers of operands that encoding alone needs are functions here. `Condition` and `Size` have theirs in
//!   `a64_word`, where others ask for them.
//! - A class has two functions, its fields and its word. Only `encode` is public, since what an instruction's word is may
//!   depend on the profile.
#![tactic(auto)]

mod branch;
mod data_immediate;
mod data_register;
mod fields;
mod instruction;
mod load_store;
mod operands;

pub use instruction::encode;
