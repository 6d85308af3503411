//! A page and its verdict, which stay together.
ghost use Rattle.std.specs.Prelude.{◌≡◌, length};
ghost use Rattle.lfi_module.specs.Pages.{words_due};
ghost use Rattle.a64_word.specs.Words.{words_of};
ghost use Rattle.lfi_rules.specs.Verdicts.{Judges};

use lfi_module::Extent;
use lfi_rules::{PageVerdict, judge};
use page_buf::SealedPage;
use std::marker::Model;

/// A page of a module, with the verdict on it at its place there. Its type keeps that the verdict is the judge's on
/// these very words at this place by this profile, and that the page has the words due there.
///
/// A contract sees it as the page, the place of its first word, and its module's extent: these determine what a verdict
/// says. It moves between threads.
#[derive(Drop)]
pub struct JudgedPage {
    page: SealedPage,
    verdict: PageVerdict,
    extent: Extent,
}

impl Model for JudgedPage {
    ghost use Rattle.lfi_image.specs.Judged.{JudgedView, IsJudged};

    ghost Value = { JudgedView };

    ghost view = { λ p. record { page = p.page; first = p.verdict.first; extent = p.extent } };

    ghost invariant = { λ p. IsJudged p.extent p.page p.verdict };
}

impl JudgedPage {
    /// Judges a page whose first word is the word `first` of a module with this extent. The page is of its size, and has the
    /// words due there: as many as it has room for, or all that are left. The verdict follows from what the clause names.
    pub fn judge(page: SealedPage, first: u32, extent: Extent) -> JudgedPage
        requires sized { page.size ≡ extent.pages }
        requires due { length (words_of page.bytes) ≡ words_due extent.pages extent.words first }
        ensures { result ≡ record { page = page; first = first; extent = extent } }
    {
        let verdict = judge(&page, first, extent.words().number(), extent.profile());
        JudgedPage {
            page,
            verdict,
            extent,
        }
    }

    /// The page.
    pub fn page(&self) -> &SealedPage
        ensures { result.now ≡ self.now.page }
    {
        &self.page
    }

    /// The judge's verdict on its words at its place.
    pub fn verdict(&self) -> PageVerdict
        ensures { Judges self.now.extent.profile (words_of self.now.page.bytes) self.now.first self.now.extent.words result }
    {
        self.verdict
    }

    /// The place of its first word in the module.
    pub fn first(&self) -> u32
        ensures { result ≡ self.now.first }
    {
        self.verdict.first
    }

    /// The extent of its module.
    pub fn extent(&self) -> Extent
        ensures { result ≡ self.now.extent }
    {
        self.extent
    }

    /// The page, and the verdict on it.
    pub fn into_parts(self) -> (SealedPage, PageVerdict)
        ensures page { result.0 ≡ self.page }
        ensures sized { self.page.size ≡ self.extent.pages }
        ensures due { length (words_of self.page.bytes) ≡ words_due self.extent.pages self.extent.words self.first }
        ensures verdict { Judges self.extent.profile (words_of self.page.bytes) self.first self.extent.words result.1 }
    {
        let JudgedPage {
            page,
            verdict,
            extent: _,
        } = self;
        (page, verdict)
    }
}
