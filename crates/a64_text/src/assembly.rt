//! What is written as an assembler reads it.

/// An instruction, or what an instruction is made of, as an assembler reads it: its `Display` writes the text.
#[derive(Clone, Copy)]
pub struct Assembly<T>(pub T);
