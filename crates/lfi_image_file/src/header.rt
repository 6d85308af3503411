//! What stands before the code in an image file.
ghost use Rattle.std.specs.Prelude.{◌≡◌, true, false, length, None, Some, IfOk, MatchOption, MatchResult};
ghost use Rattle.lfi_module.specs.Numbers.{small_page};
ghost use Rattle.lfi_module.specs.Profiles.{profile_number};
ghost use Rattle.lfi_image_file.specs.Files.{header_of};
ghost use Rattle.lfi_image_file.specs.Reading.{header_fault, count_in, is_profile, named_profile, is_base, slot_at};

use crate::fault::ImageFault;
use byteorder::{ByteOrder, LittleEndian};
use lfi_module::{Extent, ModuleNumber, PageSize, Profile, WordCount};

/// The bytes of a header.
pub(crate) const HEADER_BYTES: usize = 24;

/// `LFI1`.
const MAGIC: [u8; 4] = [0x4C, 0x46, 0x49, 0x31];

/// What a header says: how many words there are, which of them is entered, the profile, and the slot. It says nothing of
/// pages: a file is read by small ones.
#[derive(Clone, Copy)]
pub(crate) struct ImageHeader {
    pub(crate) extent: Extent,
    pub(crate) slot: ModuleNumber,
}

/// The slot that begins at a base.
fn slot_of(base: u64) -> Option<ModuleNumber>
    ensures { MatchOption result (is_base base ≡ false) (λ slot. (is_base base ≡ true) × (slot ≡ slot_at base)) }
{
    let index = base >> 33;
    if index < ModuleNumber::COUNT as u64 {
        let slot = ModuleNumber::at(index as usize);
        if base == slot.base() {
            return Some(slot);
        }
    }
    None
}

/// The profile with a number.
fn profile_of(number: u32) -> Option<Profile>
    ensures { MatchOption result (is_profile number ≡ false) (λ profile. (is_profile number ≡ true) × (profile_number profile ≡ number)) }
{
    Profile::new(number)
}

/// The header of an image.
pub(crate) fn encode(
    words: u32,
    entry: u32,
    profile: Profile,
    slot: ModuleNumber,
) -> [u8; HEADER_BYTES]
    ensures { result ≡ header_of words entry profile slot }
{
    let mut bytes = [0; HEADER_BYTES];
    bytes[..4].copy_from_slice(&MAGIC);
    LittleEndian::write_u32(&mut bytes[4..], words);
    LittleEndian::write_u32(&mut bytes[8..], entry);
    LittleEndian::write_u32(&mut bytes[12..], profile.number());
    LittleEndian::write_u64(&mut bytes[16..], slot.base());
    bytes
}

impl ImageHeader {
    /// What a header says, or its first fault: magic, profile, counts, base, in this order.
    #[tactic(auto, unfolding(crate::specs::Reading::header_fault))]
    pub(crate) fn decode(bytes: &[u8]) -> Result<ImageHeader, ImageFault>
        requires { length bytes.now ≡ 24 }
        ensures fault { MatchResult result (λ _. header_fault bytes.now ≡ None) (λ fault. header_fault bytes.now ≡ Some fault) }
        ensures count { IfOk result (λ h. h.extent.words ≡ count_in bytes.now) }
        ensures bytes { IfOk result (λ h. bytes.now ≡ header_of h.extent.words h.extent.entry h.extent.profile h.slot) }
        ensures profile { IfOk result (λ h. h.extent.profile ≡ named_profile bytes.now) }
        ensures pages { IfOk result (λ h. h.extent.pages ≡ small_page) }
    {
        if LittleEndian::read_u32(bytes) != LittleEndian::read_u32(&MAGIC) {
            return Err(ImageFault::Magic);
        }
        let Some(profile) = profile_of(LittleEndian::read_u32(&bytes[12..])) else {
            return Err(ImageFault::Profile);
        };
        let Some(words) = WordCount::new(LittleEndian::read_u32(&bytes[4..])) else {
            return Err(ImageFault::Counts);
        };
        let entry = LittleEndian::read_u32(&bytes[8..]);
        let Some(extent) = Extent::new(words, entry, profile, PageSize::SMALL) else {
            return Err(ImageFault::Counts);
        };
        match slot_of(LittleEndian::read_u64(&bytes[16..])) {
            Some(slot) => Ok(ImageHeader { extent, slot }),
            None => Err(ImageFault::Base),
        }
    }
}
