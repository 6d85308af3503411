//! The numbers that a caller keeps of a stream between two pieces, and what they stand for.

ghost use Rattle.std.specs.Prelude.{◌≡◌, ◌↔◌, ◌<◌, ◌≤◌, ◌==◌, Some, IfSome, true};
ghost use Rattle.lfi_module.specs.Pages.{HasPages, page_count};
ghost use Rattle.lfi_model.specs.declared.connection.Progress.TheVariants.{Going};
ghost use Rattle.lfi_frame.specs.inner.Positions.{filled_at};
ghost use Rattle.lfi_stream.specs.Numbers.{fault_at_number, position_at, profile_at, pages_at, extent_at, going_by, progress_of, untouched, names_none, page_of, page_at, FitsPage, IsPageOf};
ghost use Rattle.lfi_connection.specs.Modules.{IsPossible};

use lfi_connection::{DuePage, ProgressTable};
use lfi_frame::{FrameFault, HEADER_BYTES, Position};
use lfi_model::Progress;
use lfi_module::{Extent, ModuleNumber, PageSize, Profile, WordCount};

/// Where a stream is in its messages.
#[repr(C)]
#[derive(Clone, Copy)]
pub struct LfiStreamFeed {
    /// 0: in a header; 1: in a page's payload; 2: at its fault.
    pub place: u32,
    /// The bytes of the header that came; those of the payload that are to come; the fault's number.
    pub number: u32,
    /// The bytes of the header.
    pub held: [u8; HEADER_BYTES],
}

/// How far a module of a stream is.
#[repr(C)]
#[derive(Clone, Copy)]
pub struct LfiStreamModule {
    /// 0: it wasn't opened; 1: it is open; 2: it has ended.
    pub phase: u32,
    /// Where it is open, how many words it has.
    pub words: u32,
    /// Where it is open, the word at which it is entered.
    pub entry: u32,
    /// Where it is open, the number of its profile.
    pub profile: u32,
    /// Where it is open, how many words a full page of it has: 1,024 or 4,096.
    pub page_words: u32,
    /// Where it is open, how many of its pages came.
    pub pages: u32,
}

/// The page whose payload is coming.
#[repr(C)]
#[derive(Clone, Copy)]
pub struct LfiStreamPage {
    /// Its module; 16: no page is coming, or it is passed over.
    pub module: u32,
    /// How many of its bytes came.
    pub come: usize,
}

/// A stream of which some bytes came, as its caller keeps it.
#[repr(C)]
#[derive(Clone, Copy)]
pub struct LfiStreamText {
    /// Where it is in its messages.
    pub feed: LfiStreamFeed,
    /// The page whose payload is coming.
    pub page: LfiStreamPage,
    /// How far the modules are, by their numbers.
    pub modules: [LfiStreamModule; ModuleNumber::COUNT],
}

/// The fault with this number.
fn fault_of(number: u32) -> Option<FrameFault>
    ensures { result ≡ fault_at_number number }
{
    match number {
        1 => Some(FrameFault::Kind),
        2 => Some(FrameFault::SecondByte),
        3 => Some(FrameFault::Module),
        4 => Some(FrameFault::PageLength),
        5 => Some(FrameFault::CloseNumbers),
        6 => Some(FrameFault::WordCount),
        7 => Some(FrameFault::Entry),
        8 => Some(FrameFault::NoMemory),
        9 => Some(FrameFault::Ended),
        10 => Some(FrameFault::ReadFailed),
        _ => None,
    }
}

/// The position that two numbers tell.
pub(crate) fn position_of(place: u32, number: u32) -> Option<Position>
    ensures { result ≡ position_at place number }
{
    match place {
        0 => Some(Position::Header {
            filled: number as usize,
        }),
        1 => Some(Position::Payload { left: number }),
        2 => {
            let fault = fault_of(number)?;
            Some(Position::Faulty(fault))
        }
        _ => None,
    }
}

/// The numbers of a position, and the bytes of its header.
pub(crate) fn feed_at(held: [u8; HEADER_BYTES], position: Position) -> LfiStreamFeed
    requires { filled_at position < 12 }
    ensures position { position_at result.place result.number ≡ Some position }
    ensures held { result.held ≡ held }
{
    let (place, number) = match position {
        Position::Header { filled } => (0, filled as u32),
        Position::Payload { left } => (1, left),
        Position::Faulty(fault) => (2, u32::from(fault.number())),
    };
    LfiStreamFeed {
        place,
        number,
        held,
    }
}

/// The profile with this number.
fn profile_of(number: u32) -> Option<Profile>
    ensures { result ≡ profile_at number }
{
    Profile::new(number)
}

/// The size of pages of `words` words; `None` where a module of the profile has none such.
fn pages_of(profile: Profile, words: u32) -> Option<PageSize>
    ensures value { result ≡ pages_at profile words }
    ensures fits { IfSome result (HasPages profile) }
{
    match (words, profile) {
        (1024, _) => Some(PageSize::SMALL),
        (4096, Profile::Two) => Some(PageSize::LARGE),
        _ => None,
    }
}

/// The extent of a module of `words` words, entered at `entry`, by the profile with this number, with pages of `page_words`
/// words; `None` where these numbers are none of a module.
fn extent_of(words: u32, entry: u32, profile: u32, page_words: u32) -> Option<Extent>
    ensures { result ≡ extent_at words entry profile page_words }
{
    let by = profile_of(profile)?;
    let pages = pages_of(by, page_words)?;
    if words == 0 || words > WordCount::MOST.number() || entry >= words {
        return None;
    }
    Some(Extent::of(WordCount::of(words), entry, by, pages))
}

/// How far an open module of this extent is, of which `pages` pages came. Where its numbers are none of a module, it is
/// as one that has ended.
fn going(size: Option<Extent>, pages: u32) -> Progress
    ensures { result ≡ going_by size pages }
{
    let Some(extent) = size else {
        return Progress::Ended;
    };
    if pages > extent.words().pages(extent.pages()) {
        return Progress::Ended;
    }
    Progress::Going { extent, pages }
}

impl LfiStreamModule {
    /// How far it is.
    pub(crate) fn progress(self) -> Progress
        ensures is { result ≡ progress_of self }
        ensures possible { IsPossible result }
    {
        match self.phase {
            0 => Progress::Unclaimed,
            1 => going(
                extent_of(self.words, self.entry, self.profile, self.page_words),
                self.pages,
            ),
            _ => Progress::Ended,
        }
    }

    /// The numbers of a module that is open.
    fn open(extent: Extent, pages: u32) -> LfiStreamModule
        requires { pages ≤ page_count extent.pages extent.words }
        ensures { progress_of result ≡ Going extent pages }
    {
        LfiStreamModule {
            phase: 1,
            words: extent.words().number(),
            entry: extent.entry(),
            profile: extent.profile().number(),
            page_words: extent.pages().words(),
            pages,
        }
    }

    /// The numbers of a module that isn't open, in this phase.
    fn closed(phase: u32) -> LfiStreamModule
        ensures { result ≡ record untouched { phase = phase } }
    {
        LfiStreamModule {
            phase,
            words: 0,
            entry: 0,
            profile: 0,
            page_words: 0,
            pages: 0,
        }
    }

    /// The numbers of a module that is so far.
    pub(crate) fn of(progress: Progress) -> LfiStreamModule
        requires { IsPossible progress }
        ensures { progress_of result ≡ progress }
    {
        match progress {
            Progress::Unclaimed => LfiStreamModule::closed(0),
            Progress::Going { extent, pages } => LfiStreamModule::open(extent, pages),
            Progress::Ended => LfiStreamModule::closed(2),
        }
    }
}

impl LfiStreamPage {
    /// No page is coming.
    pub(crate) fn none() -> LfiStreamPage
        ensures { names_none result ≡ true }
    {
        LfiStreamPage {
            module: ModuleNumber::COUNT as u32,
            come: 0,
        }
    }

    /// The numbers of the page that is coming, where one is.
    pub(crate) fn of(coming: Option<DuePage>) -> LfiStreamPage
        ensures { IsPageOf result coming }
    {
        match coming {
            Some(page) => LfiStreamPage {
                module: u32::from(page.module.number()),
                come: page.come as usize,
            },
            None => LfiStreamPage::none(),
        }
    }

    /// By these numbers no page is coming.
    fn is_none(self) -> bool
        ensures { result ≡ names_none self }
    {
        self.module as usize >= ModuleNumber::COUNT
    }
}

/// The next page of a module that is so far, of which `come` bytes came; `None` where it hasn't more than these.
fn page_of(module: ModuleNumber, come: usize, progress: Progress) -> Option<DuePage>
    ensures { result ≡ page_of «module» come progress }
{
    let Progress::Going { extent, pages } = progress else {
        return None;
    };
    if come >= extent.words().bytes_in_page(extent.pages(), pages) as usize {
        return None;
    }
    Some(DuePage {
        module,
        extent,
        pages,
        come: come as u32,
    })
}

impl LfiStreamText {
    /// The page that is coming, where one is.
    pub(crate) fn coming(&self) -> Option<DuePage>
        ensures { result ≡ page_at self.now }
    {
        if self.page.is_none() {
            return None;
        }
        let module = ModuleNumber::at(self.page.module as usize);
        page_of(
            module,
            self.page.come,
            self.modules[module.index()].progress(),
        )
    }

    /// Whether the numbers of the page that is coming fit those of its module, and of the feed, which is at this position.
    pub(crate) fn fits_page(&self, position: &Position) -> bool
        ensures { result ≡ true ↔ FitsPage self.now position.now }
    {
        if self.page.is_none() {
            return true;
        }
        let Some(page) = self.coming() else {
            return false;
        };
        match *position {
            Position::Payload { left } => page.left() == left,
            _ => false,
        }
    }
}

impl ProgressTable for LfiStreamText {
    ghost use Rattle.std.specs.Prelude.{◌≡◌};
    ghost use Rattle.lfi_stream.specs.Numbers.{progress_at};

    ghost progress_at = { λ stream. progress_at stream.modules };

    ghost Keeps = { λ old new. new ≡ record old { modules = new.modules } };

    fn at(&self, module: ModuleNumber) -> Progress {
        self.modules[module.index()].progress()
    }

    fn set(&mut self, module: ModuleNumber, progress: Progress) {
        self.modules[module.index()] = LfiStreamModule::of(progress);
    }
}
