//! How much of each there is in one process.

/// The most connections, whose streams carry the modules.
pub const CONNECTIONS: usize = 8;

/// The most verifiers, which judge the modules' pages side by side.
pub const VERIFIERS: usize = 8;
