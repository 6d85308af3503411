//! The page whose payload is coming.

ghost use Rattle.std.specs.Prelude.{◌≡◌, ◌-◌, ◌^◌, ◌<◌, true, ◌↔◌};
ghost use Rattle.lfi_connection.specs.DuePages.{bytes_of, offset_of, GoesOn};

use lfi_module::{Extent, ModuleNumber};

/// The next page of an open module, whose header came: its payload is coming.
#[derive(Clone, Copy)]
pub struct DuePage {
    /// Its module.
    pub module: ModuleNumber,
    /// How large that is.
    pub extent: Extent,
    /// How many pages of it came before.
    pub pages: u32,
    /// How many of its own bytes came.
    pub come: u32,
}

impl DuePage {
    /// How many of its bytes are to come; none where its module has no such page.
    #[inline(always)]
    pub fn left(&self) -> u32
        ensures { result ≡ bytes_of self.now - self.now.come }
    {
        self.extent
            .words()
            .bytes_in_page(self.extent.pages(), self.pages)
            .saturating_sub(self.come)
    }

    /// Where in its module's code its next byte belongs, in bytes.
    pub fn offset(&self) -> usize
        ensures { result ≡ offset_of self.now }
    {
        self.extent.pages().bytes() as usize * self.pages as usize + self.come as usize
    }

    /// Whether some of it is to come, and `count` bytes more end it, or leave some of it to come.
    #[inline(always)]
    pub(crate) fn goes_on(&self, count: usize, ended: bool) -> bool
        ensures { result ≡ true ↔ GoesOn self.now count «ended» }
    {
        let left = self.left() as usize;
        if ended {
            left > 0 && count == left
        } else {
            count < left
        }
    }
}
