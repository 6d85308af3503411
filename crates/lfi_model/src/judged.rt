//! Judged items: the items of modules with the verdicts on their pages.

ghost use Rattle.std.specs.Prelude.{◌≡◌, ◌-◌, ◌*◌};

use crate::item::{Item, ItemKind, NumberedItem, PageBody};
use lfi_image::JudgedPage;

impl PageBody for JudgedPage {
    ghost bytes = { λ page. page.page.bytes };

    ghost IsAtPlace = { λ ordinal extent page. (page.first ≡ extent.pages * (ordinal - 1)) × (page.extent ≡ extent) };
}

/// One of the numbered items of a module, with the verdict on its page where it brings one: that
/// page was judged by its module's profile at its own place, which is (ordinal - 1) full pages into its module.
pub type Judged = NumberedItem<JudgedPage>;

impl Item {
    /// The same item, with the verdict on its page where it brings one.
    pub fn judge(self) -> Judged
        ensures { result ≡ self }
    {
        let Item {
            module,
            ordinal,
            extent,
            kind,
        } = self;
        let kind = match kind {
            ItemKind::Open => ItemKind::Open,
            ItemKind::Page(page) => {
                let first = extent.pages().words() * (ordinal - 1);
                ItemKind::Page(JudgedPage::judge(page, first, extent))
            }
            ItemKind::End(reason) => ItemKind::End(reason),
        };
        Judged {
            module,
            ordinal,
            extent,
            kind,
        }
    }
}
