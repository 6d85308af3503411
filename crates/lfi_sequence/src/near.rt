//! The words near a fault's place.

ghost use Rattle.std.specs.Prelude.{◌≡◌, ◌≤◌, ◌<◌, ◌+◌, ◌-◌, ◌++◌, take, drop, length, slice_get, Some};
ghost use Rattle.a64_word.specs.Words.{words_of};
ghost use Rattle.lfi_sequence.specs.Refused.{AreNear, near_words};

use crate::refused::{MOST, NearbyWords};
use a64_word::Words;
use lfi_image::Builder;
use page_buf::SealedPage;

/// How many words before a fault's place are kept: no need waits for more.
const BEFORE: usize = 4;

/// The word at a place of the words placed and, after them, those of a page.
fn word_at(builder: &Builder, page: &SealedPage, place: usize) -> u32
    requires { place < length (builder.now.placed ++ words_of page.now.bytes) }
    ensures { slice_get (builder.now.placed ++ words_of page.now.bytes) place ≡ Some result }
{
    let placed = builder.placed() as usize;
    if place < placed {
        builder.word(place as u32)
    } else {
        page.word(place - placed)
    }
}

/// The words from place `first` up to `end` of these, and zeros after them.
fn copied(builder: &Builder, page: &SealedPage, first: usize, end: usize) -> [u32; MOST]
    requires few { (first ≤ end) × (end ≤ first + 6) }
    requires within { end ≤ length (builder.now.placed ++ words_of page.now.bytes) }
    ensures { take (end - first) result ≡ take (end - first) (drop first (builder.now.placed ++ words_of page.now.bytes)) }
{
    let mut words = [0; MOST];
    for place in first..end {
        words[place - first] = word_at(builder, page, place);
    }
    words
}

impl NearbyWords {
    /// What is near a place of the words placed and, after them, those of a page.
    pub(crate) fn find(builder: &Builder, page: &SealedPage, place: u32) -> NearbyWords
        requires { place < length (builder.now.placed ++ words_of page.now.bytes) }
        ensures { AreNear (builder.now.placed ++ words_of page.now.bytes) place result }
    {
        let place = place as usize;
        let first = place.saturating_sub(BEFORE);
        let came = builder.placed() as usize + page.len_words();
        let end = came.min(place + 2);
        NearbyWords {
            words: copied(builder, page, first, end),
            count: end - first,
            at: place - first,
        }
    }

    /// Which of these words is the one at the fault's place: how many stand before it, at most four.
    pub fn at(&self) -> usize
        ensures value { result ≡ self.now.at }
        ensures inside { result < length (near_words self.now) }
    {
        self.at
    }
}

impl Words for NearbyWords {
    ghost words = { near_words };

    fn count(&self) -> usize {
        self.count
    }

    fn word(&self, i: usize) -> u32 {
        self.words[i]
    }
}
