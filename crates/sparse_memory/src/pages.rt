//! Pages of the 4 GiB.

/// The bytes of a page.
pub(crate) const PAGE: usize = 1 << 16;

/// The pages of 4 GiB.
pub(crate) const PAGES: usize = 1 << 16;
