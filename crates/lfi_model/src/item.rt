//! Items, into which a receiver turns the messages of its connection.

ghost use Rattle.std.specs.Prelude.{◌≡◌, ℕ, List};

use lfi_frame::FrameFault;
use lfi_module::{Extent, ModuleNumber};
use page_buf::SealedPage;
use std::marker::Model;

/// Why a module ended.
#[derive(Clone, Copy, PartialEq, Eq)]
pub enum Reason {
    /// Its connection closed it.
    Close,
    /// Its connection came to this fault while the module was open.
    Lost(FrameFault),
    /// This page, by its index, wasn't the one due, or hadn't its length, or was small where the module has large pages or
    /// the other way round.
    PageFault(u32),
    /// There was no memory for a page.
    NoMemory,
}

/// What an item's page is: a sealed page, or one with the verdict on it.
pub trait PageBody: Drop {
    ghost use Rattle.lfi_module.specs.Extents.{ExtentView};

    /// Its bytes.
    ghost bytes: { Self → List ℕ };

    /// What is so of it as the page with this ordinal of a module that is so large.
    ghost IsAtPlace: { (ordinal : ℕ) → ExtentView → Self → Type 0 };
}

impl PageBody for SealedPage {
    ghost bytes = { λ page. page.bytes };

    ghost IsAtPlace = { λ ordinal extent page. page.size ≡ extent.pages };
}

/// What an item brings.
#[derive(Drop)]
pub enum ItemKind<P> {
    /// The module's opening.
    Open,
    /// The next page of its code.
    Page(P),
    /// Its end: nothing follows.
    End(Reason),
}

/// One of the numbered items of a module. Its type keeps that ordinal 0 is the Open alone, that no ordinal is above 4,097, and that a page has exactly the words due
/// (specs/Item.antt).
///
/// A contract sees it as its numbers and the bytes of its page, whether that was judged or not.
#[derive(Drop)]
pub struct NumberedItem<P: PageBody> {
    /// The module.
    pub module: ModuleNumber,
    /// The item's place among those of its module: 0 the Open, then the pages, then the End.
    pub ordinal: u32,
    /// How large the whole module is, where it is entered, the profile that it goes by, and how large its pages are.
    pub extent: Extent,
    /// What it brings.
    pub kind: ItemKind<P>,
}

impl<P: PageBody> Model for NumberedItem<P> {
    ghost use Rattle.lfi_model.specs.Item.{ItemView, KeepsItem, kind_seen};

    ghost Value = { ItemView };

    ghost view = { λ i. record { «module» = i.«module»; ordinal = i.ordinal; extent = i.extent; kind = kind_seen P.bytes i.kind } };

    ghost invariant = { λ i. KeepsItem P.bytes P.IsAtPlace i.«module» i.ordinal i.extent i.kind };
}

/// An item as a receiver makes it.
pub type Item = NumberedItem<SealedPage>;
