//! What a connection's whole text makes.

ghost use Rattle.std.specs.Prelude.{◌≡◌, map, IfOk, sum_by, length};
ghost use Rattle.lfi_module.specs.Numbers.{module_count};
ghost use Rattle.std.specs.List.{list_any};
ghost use Rattle.lfi_model.specs.Items.{is_going, modules, fault_of, ItemsOf};
ghost use Rattle.lfi_reference.specs.Messages.{message_of, rest_by};
ghost use Rattle.lfi_reference.specs.Shares.{lists_by, items_at};
ghost use Rattle.lfi_reference.specs.Connections.{claims, share_in, items_in};

use crate::message::{PlainMessage, cut};
use crate::rest::{PlainRest, rest_at};
use crate::share::{PlainItem, share};
use lfi_frame::FrameFault;
use lfi_model::EndCause;
use lfi_module::ModuleNumber;
use std::alloc::{AllocError, Global};

/// The items of one connection by module, its fault and its strays.
#[derive(Drop)]
pub struct Connection {
    /// The items of each of the 16 modules.
    pub items: Vec<Vec<PlainItem>>,
    /// What was wrong with the connection.
    pub fault: Option<FrameFault>,
    /// The messages that made no item.
    pub strays: u128,
}

/// The fault of a connection: that of the rest's header, or else by what ended the input, where
/// `inside` tells of a message or a module that is left open.
pub fn fault_of(rest: PlainRest, cause: EndCause, inside: bool) -> Option<FrameFault>
    ensures { result ≡ fault_of (rest_by rest) cause inside }
{
    match (rest, cause) {
        (PlainRest::Faulty(fault), _) => Some(fault),
        (_, EndCause::End) if inside => Some(FrameFault::Ended),
        (_, EndCause::End) => None,
        (_, EndCause::Failed) => Some(FrameFault::ReadFailed),
        (_, EndCause::Starved) => Some(FrameFault::NoMemory),
    }
}

/// Whether any of the 16 modules is left open, and the strays of all.
///
/// # Errors
///
/// `AllocError` where there is no memory for a module's items.
pub fn summary(
    alloc: Global,
    claimed: &[bool; ModuleNumber::COUNT],
    messages: &[PlainMessage],
    rest: PlainRest,
) -> Result<(bool, u128), AllocError>
    ensures going { IfOk result (λ found. found.0
        ≡ list_any (λ m. is_going (share_in claimed.now (map message_of messages.now) (rest_by rest) m).progress) modules) }
    ensures strays { IfOk result (λ found. found.1
        ≡ sum_by (λ m. (share_in claimed.now (map message_of messages.now) (rest_by rest) m).strays) modules) }
{
    let mut going = false;
    let mut strays = 0;
    for m in 0..16u16 {
        let share = share(alloc, claimed[m as usize], m, messages, rest)?;
        going = going || share.is_going();
        strays += share.strays;
    }
    Ok((going, strays))
}

/// The items of each of the 16 modules, where the connection has this fault.
///
/// # Errors
///
/// `AllocError` where there is no memory for them.
pub fn all_items(
    alloc: Global,
    claimed: &[bool; ModuleNumber::COUNT],
    messages: &[PlainMessage],
    rest: PlainRest,
    fault: Option<FrameFault>,
) -> Result<Vec<Vec<PlainItem>>, AllocError>
    ensures { IfOk result (λ lists. lists_by lists.items
        ≡ map (items_in claimed.now (map message_of messages.now) (rest_by rest) fault) modules) }
{
    let mut lists = Vec::new(alloc);
    for m in 0..16u16 {
        let share = share(alloc, claimed[m as usize], m, messages, rest)?;
        lists.push(share.ended(m, fault)?)?;
    }
    Ok(lists)
}

/// What a connection's whole text makes, whose input ended so, and for which these modules are
/// claimed.
///
/// # Errors
///
/// `AllocError` where there is no memory for its messages and items.
pub fn connection_of(
    alloc: Global,
    bytes: &[u8],
    cause: EndCause,
    claimed: &[bool; ModuleNumber::COUNT],
) -> Result<Connection, AllocError>
    ensures items { IfOk result (λ made. ItemsOf bytes.now cause (claims claimed.now)
        (items_at made.items.items) made.fault made.strays) }
    ensures all { IfOk result (λ made. length made.items.items ≡ module_count) }
{
    let (messages, rest) = cut(alloc, bytes)?;
    let how = rest_at(rest);
    let (going, strays) = summary(alloc, claimed, messages.as_slice(), how)?;
    let inside = !rest.is_empty() || going;
    let fault = fault_of(how, cause, inside);
    let items = all_items(alloc, claimed, messages.as_slice(), how, fault)?;
    Ok(Connection {
        items,
        fault,
        strays,
    })
}
