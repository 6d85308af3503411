//! Whether words spell instructions that spell them.
use a64_encode::encode;
use a64_word::decode;
use lfi_module::Profile;

/// Whether a word spells an instruction of a profile, whose word it is.
pub fn is_spelled_back(word: u32, profile: Profile) -> bool {
    match decode(word, profile) {
        Some(instruction) => encode(&instruction, profile) == Some(word),
        None => false,
    }
}

/// The first of these words that spells no instruction of a profile, or one with another word.
pub fn first_not_spelled(words: &[u32], profile: Profile) -> Option<u32> {
    for word in words {
        if !is_spelled_back(*word, profile) {
            return Some(*word);
        }
    }
    None
}

/// The first of these words that spells an instruction of a profile.
pub fn first_spelled(words: &[u32], profile: Profile) -> Option<u32> {
    for word in words {
        if decode(*word, profile).is_some() {
            return Some(*word);
        }
    }
    None
}
