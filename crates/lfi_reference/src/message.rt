//! The messages of a text.

ghost use Rattle.std.specs.Prelude.{◌≡◌, ◌≢◌, map, IfOk, MatchOption};
ghost use Rattle.lfi_frame.specs.Streams.{Cut, rest_of, whole, header_of};
ghost use Rattle.lfi_frame.specs.Feeds.{opened};
ghost use Rattle.lfi_reference.specs.Messages.{extent_by, message_of, Begins};

use crate::rest::{PlainRest, is_large, is_page, rest_at};
use lfi_frame::{HEADER_BYTES, Header};
use lfi_module::Profile;
use std::alloc::{AllocError, Global};

/// How large a module is, the word at which it is entered, the profile that it goes by, and whether its pages are large.
#[derive(Clone, Copy, PartialEq, Eq)]
pub struct PlainExtent {
    /// How many words it has.
    pub words: u32,
    /// The word at which it is entered.
    pub entry: u32,
    /// The profile that it goes by.
    pub profile: Profile,
    /// Whether its pages are large, of 4,096 words, or small, of 1,024.
    pub large: bool,
}

/// A whole message.
#[derive(Drop)]
pub enum PlainMessage {
    /// A module begins: its number of words, and the word where it is entered.
    Open {
        module: u16,
        extent: PlainExtent,
    },
    /// A page of a module, a large one or a small one.
    Page {
        module: u16,
        large: bool,
        index: u32,
        payload: Vec<u8>,
    },
    /// A module is closed.
    Close {
        module: u16,
    },
}

impl PlainMessage {
    /// The module that the message is about.
    pub fn module(&self) -> u16
        ensures { result ≡ (header_of (message_of self.now)).«module» }
    {
        match self {
            PlainMessage::Open { module, .. } => *module,
            PlainMessage::Page { module, .. } => *module,
            PlainMessage::Close { module } => *module,
        }
    }
}

/// The extent that the header of an Open tells: kind 4 opens a module of the second profile, and second byte 2 one of large
/// pages.
fn extent_of(header: &Header) -> PlainExtent
    ensures { extent_by result ≡ opened header.now }
{
    PlainExtent {
        words: header.a,
        entry: header.b,
        profile: if header.kind == 4 {
            Profile::Two
        } else {
            Profile::One
        },
        large: header.second == 2,
    }
}

/// The message with which a text begins, and what follows it; `None` where no whole message
/// stands there.
///
/// # Errors
///
/// Where memory was refused.
pub fn first_message(
    alloc: Global,
    bytes: &[u8],
) -> Result<Option<(PlainMessage, &[u8])>, AllocError>
    ensures { IfOk result (λ first. MatchOption first (rest_of bytes.now ≢ whole)
        (λ found. Begins bytes.now (message_of found.0) found.1.now)) }
{
    if rest_at(bytes) != PlainRest::Whole {
        return Ok(None);
    }
    let Some(head) = bytes.first_chunk::<HEADER_BYTES>() else {
        return Ok(None);
    };
    let header = Header::read(head);
    let module = header.module;
    let after = &bytes[HEADER_BYTES..];
    if is_page(header.kind) {
        let (front, more) = after.split_at(header.b as usize);
        let payload = Vec::from_slice(alloc, front)?;
        let page = PlainMessage::Page {
            module,
            large: is_large(header.kind),
            index: header.a,
            payload,
        };
        return Ok(Some((page, more)));
    }
    if header.kind == 3 {
        return Ok(Some((PlainMessage::Close { module }, after)));
    }
    let opening = PlainMessage::Open {
        module,
        extent: extent_of(&header),
    };
    Ok(Some((opening, after)))
}

/// The messages of a text, and the rest in which no whole message stands.
///
/// # Errors
///
/// Where memory was refused.
pub fn cut(alloc: Global, bytes: &[u8]) -> Result<(Vec<PlainMessage>, &[u8]), AllocError>
    ensures { IfOk result (λ found. Cut bytes.now (map message_of found.0.items) found.1.now) }
{
    let mut messages = Vec::new(alloc);
    let mut rest = bytes;
    while let Some((message, more)) = first_message(alloc, rest)? {
        messages.push(message)?;
        rest = more;
    }
    Ok((messages, rest))
}
