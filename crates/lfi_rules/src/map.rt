//! Where the parts of a slot lie, and the entries of its runtime: docs/PROFILE.md. All are bytes, or addresses of bytes.

/// The bytes of a slot.
pub const SLOT_BYTES: u64 = 1 << 32;

/// The bytes of each guard, one directly below the slot and one directly above.
pub const GUARD_BYTES: u64 = 65_536;

/// The bytes of the table of entries, at the slot's beginning.
pub const TABLE_BYTES: u64 = 4096;

/// Where the code begins, from the slot's base on.
pub const CODE_OFFSET: u64 = 65_536;

/// The address at which the first entry of the runtime is called: outside of all slots and guards.
pub const FIRST_ENTRY: u64 = 1 << 40;

/// From one entry to the next.
pub const ENTRY_STEP: u64 = 16;

/// How many entries there are. The table has 8 bytes for each.
pub const ENTRY_COUNT: u64 = 512;

/// How far sp may be from the slot, on either side.
pub const STACK_REACH: u64 = 512;
