use crate::flags::Flags;

/// What a sum or a logical operation computes.
#[derive(Clone, Copy)]
pub struct Computed {
    /// The result; of a W form below 2^32.
    pub value: u64,
    /// The flags, where the instruction sets them.
    pub flags: Option<Flags>,
}
