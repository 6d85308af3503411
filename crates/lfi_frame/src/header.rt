//! The header of a message, and the numbers of the stream format.
//!
//! A message is a header of 12 bytes, `kind u8, second u8, module u16, a u32, b u32`, little-endian; the
//! header of a Page is followed by its payload of `b`
//! bytes. Source: docs/PROFILE.md, "Streams".

ghost use Rattle.std.specs.Prelude.{◌≡◌, IfOk};
ghost use Rattle.std.specs.Result.{result_err};
ghost use Rattle.lfi_frame.specs.Streams.{header_at, header_bytes, header_fault, is_page_length, is_second, pages_by};
ghost use Rattle.lfi_frame.specs.inner.Kinds.{kind_of};
ghost use Rattle.lfi_frame.specs.Feeds.{IsInRange, answer_to};

use crate::answer::Got;
use crate::fault::FrameFault;
use byteorder::{ByteOrder, LittleEndian};
use lfi_module::{Extent, ModuleNumber, PageSize, Profile, WordCount};

/// The bytes of a header.
pub const HEADER_BYTES: usize = 12;

/// What a message is about, by the first byte of its header.
#[derive(Clone, Copy, PartialEq, Eq)]
pub(crate) enum MessageKind {
    /// A module begins that goes by this profile: 1 for the first, 4 for the second.
    Open(Profile),
    /// A page of a module: 2 for a small one, 5 for a large one.
    Page(PageSize),
    /// A module has come to its end: 3.
    Close,
}

impl MessageKind {
    /// The kind with this number, `None` where there is none.
    fn of(number: u8) -> Option<MessageKind>
        ensures { result ≡ kind_of number }
    {
        match number {
            1 => Some(MessageKind::Open(Profile::One)),
            2 => Some(MessageKind::Page(PageSize::SMALL)),
            3 => Some(MessageKind::Close),
            4 => Some(MessageKind::Open(Profile::Two)),
            5 => Some(MessageKind::Page(PageSize::LARGE)),
            _ => None,
        }
    }
}

/// The five numbers of a header, as they come.
#[derive(Clone, Copy, PartialEq, Eq)]
pub struct Header {
    /// 1 for an Open, 2 for a Page, 3 for a Close, 4 for an Open by the second profile, 5 for a
    /// large Page.
    pub kind: u8,
    /// The second byte: 2 in an Open by the second profile of a module of large pages, else 0.
    pub second: u8,
    /// The module, 0 to 15.
    pub module: u16,
    /// The words of an Open's module, 1 to 4,194,304; the index of a Page in its module; 0 in a
    /// Close.
    pub a: u32,
    /// The entry word of an Open, below its words; the payload bytes of a Page, 4 to a full page's
    /// and a multiple of 4; 0 in a Close.
    pub b: u32,
}

impl Header {
    /// The header that these bytes spell, with or without a fault.
    pub fn read(bytes: &[u8; HEADER_BYTES]) -> Header
        ensures { result ≡ header_at bytes.now }
    {
        Header {
            kind: bytes[0],
            second: bytes[1],
            module: LittleEndian::read_u16(&bytes[2..]),
            a: LittleEndian::read_u32(&bytes[4..]),
            b: LittleEndian::read_u32(&bytes[8..]),
        }
    }

    /// The twelve bytes that spell this header: [`Header::read`] has it again.
    pub fn bytes(self) -> [u8; HEADER_BYTES]
        ensures spells { result ≡ header_bytes self }
        ensures back { header_at result ≡ self }
    {
        let mut bytes = [0; HEADER_BYTES];
        bytes[0] = self.kind;
        bytes[1] = self.second;
        LittleEndian::write_u16(&mut bytes[2..], self.module);
        LittleEndian::write_u32(&mut bytes[4..], self.a);
        LittleEndian::write_u32(&mut bytes[8..], self.b);
        bytes
    }

    /// The first fault that a header shows by itself, in the order of the faults' numbers.
    pub fn fault(&self) -> Option<FrameFault>
        ensures { result ≡ header_fault self.now }
    {
        self.judge().err()
    }

    /// What a header without a fault brings, or the first fault that it shows.
    ///
    /// # Errors
    ///
    /// The first fault, 1 to 7, that the header shows by itself.
    pub fn judge(&self) -> Result<Got, FrameFault>
        ensures answer { result ≡ answer_to self.now }
        ensures fault { result_err result ≡ header_fault self.now }
        ensures range { IfOk result IsInRange }
    {
        let Some(kind) = MessageKind::of(self.kind) else {
            return Err(FrameFault::Kind);
        };
        if !self.is_second() {
            return Err(FrameFault::SecondByte);
        }
        let Some(module) = ModuleNumber::new(self.module) else {
            return Err(FrameFault::Module);
        };
        match kind {
            MessageKind::Open(profile) => {
                let words = WordCount::new(self.a).ok_or(FrameFault::WordCount)?;
                let extent = Extent::new(words, self.b, profile, self.pages()).ok_or(
                    FrameFault::Entry,
                )?;
                Ok(Got::Open { module, extent })
            }
            MessageKind::Page(size) => {
                if !self.is_page_length(size) {
                    return Err(FrameFault::PageLength);
                }
                Ok(Got::Page {
                    module,
                    size,
                    index: self.a,
                    len: self.b,
                })
            }
            MessageKind::Close if self.a != 0 || self.b != 0 => Err(FrameFault::CloseNumbers),
            MessageKind::Close => Ok(Got::Close { module }),
        }
    }

    /// Whether its second byte is one of its kind: 0, or 2 in an Open by the second profile.
    fn is_second(&self) -> bool
        ensures { result ≡ is_second self.now.kind self.now.second }
    {
        self.second == 0 || self.kind == 4 && self.second == 2
    }

    /// The size of a module's pages, by the second byte of its Open.
    fn pages(&self) -> PageSize
        ensures { result ≡ pages_by self.now.second }
    {
        if self.second == 2 {
            PageSize::LARGE
        } else {
            PageSize::SMALL
        }
    }

    /// Whether its second number is that of a page's payload: whole words, at least one and at
    /// most a full page's.
    fn is_page_length(&self, size: PageSize) -> bool
        ensures { result ≡ is_page_length size self.now.b }
    {
        self.b != 0 && self.b <= size.bytes() && self.b as usize % size_of::<u32>() == 0
    }
}
