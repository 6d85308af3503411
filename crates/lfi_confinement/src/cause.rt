//! Why a machine stops.

/// Why a machine stops, with the address or status that belongs to it.
#[derive(Clone, Copy, PartialEq, Eq)]
pub enum StopCause {
    /// An access without permission: the least address of a byte that may not be accessed so.
    NoAccess(u64),
    /// No word of the code begins at pc, which is this.
    NoFetch(u64),
    /// BRK, at this pc.
    Breakpoint(u64),
    /// The runtime ended the run, with a status.
    Ended(u8),
    /// The runtime answered registers that aren't lawful.
    UnlawfulAnswer,
}
