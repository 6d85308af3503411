//! A listing of a module's words.

ghost use Rattle.std.specs.Prelude.{◌<◌, ◌≤◌, length, Some, OnOk};
ghost use Rattle.std.specs.Io.KnownBytes.{Appends};
ghost use Rattle.lfi_module.specs.Numbers.{most_words};
ghost use Rattle.lfi_explain.specs.Listings as spec;

use crate::digits::PlaceColumn;
use crate::kept::{LineRoom, write_kept, write_many};
use crate::located::Located;
use crate::sentence::Meeting;
use crate::spelling::Spelling;
use a64_word::Words;
use lfi_module::{ModuleNumber, Profile};
use lfi_rules::{Need, Rule, broken_at};
use std::fmt;
use std::io::{self, Write};

/// Which words of a listing are marked.
#[derive(Clone, Copy, PartialEq, Eq)]
pub enum Marks {
    /// None.
    NoMarks,
    /// Each that breaks a rule, with the least of those that it breaks.
    BrokenRules,
}

/// A word of a listing.
#[derive(Clone, Copy)]
pub struct ListedWord {
    /// The word at its place.
    pub located: Located,
    /// How many words the module has.
    pub words: u32,
    /// The rule that it is marked with, which it breaks.
    pub broken: Option<Rule>,
}

/// Where a direct branch goes, by the number of the module's words.
#[derive(Clone, Copy)]
struct Arrow {
    target: Option<i64>,
    words: u32,
}

impl fmt::Display for Arrow {
    ghost output = { λ arrow. Some (spec.arrow_text arrow.words arrow.target) };

    fn fmt<W: fmt::Write>(&self, f: &mut fmt::Formatter<W>) -> fmt::Result {
        match self.target {
            Some(place) if 0 <= place && place < i64::from(self.words) => {
                write!(f, "  -> word {place}")
            }
            Some(place) => write!(f, "  -> outside, word {place}"),
            None => Ok(()),
        }
    }
}

/// Among which words the one is that meets a need.
#[derive(Clone, Copy)]
struct Among(Need);

impl fmt::Display for Among {
    ghost output = { λ among. Some (spec.among_text among.0) };

    fn fmt<W: fmt::Write>(&self, f: &mut fmt::Formatter<W>) -> fmt::Result {
        match self.0 {
            Need::Probe(count) if count > 1 => write!(f, "one of the next {count}"),
            _ => f.write_str("next"),
        }
    }
}

/// What a word asks of those after it.
#[derive(Clone, Copy)]
struct Opened(Need);

impl fmt::Display for Opened {
    ghost output = { λ opened. Some (spec.opened_text opened.0) };

    fn fmt<W: fmt::Write>(&self, f: &mut fmt::Formatter<W>) -> fmt::Result {
        match self.0 {
            Need::Nothing => Ok(()),
            need => write!(f, "  ; opens: {} is {}", Among(need), Meeting(need)),
        }
    }
}

/// With which rule a word is marked.
#[derive(Clone, Copy)]
struct Mark(Option<Rule>);

impl fmt::Display for Mark {
    ghost output = { λ mark. Some (spec.mark_text mark.0) };

    fn fmt<W: fmt::Write>(&self, f: &mut fmt::Formatter<W>) -> fmt::Result {
        match self.0 {
            Some(rule) => write!(f, "  ; rule {rule}"),
            None => Ok(()),
        }
    }
}

impl fmt::Display for ListedWord {
    ghost output = { λ listed. Some (spec.listed_text listed) };

    /// Writes the place, the address, the word, its text, where it branches to, what it asks of the next word, and its
    /// mark.
    fn fmt<W: fmt::Write>(&self, f: &mut fmt::Formatter<W>) -> fmt::Result {
        let place = self.located.place;
        let spelling = &self.located.spelling;
        let arrow = Arrow {
            target: spelling.target(place),
            words: self.words,
        };
        write!(
            f,
            "{}  {}{arrow}{}{}",
            PlaceColumn(place),
            self.located,
            Opened(spelling.opens()),
            Mark(self.broken)
        )
    }
}

/// With which rule the word at a place of a module is marked.
fn mark_at<L: Words>(words: &L, place: usize, marks: Marks, profile: Profile) -> Option<Rule>
    requires inside { place < length (L.words words.now) }
    requires most { length (L.words words.now) ≤ most_words }
    ensures { spec.IsMark marks profile (L.words words.now) place result }
{
    match marks {
        Marks::BrokenRules => broken_at(words, place, profile),
        Marks::NoMarks => None,
    }
}

/// The word at a place of a module in a slot, as it is listed.
fn listed_at<L: Words>(
    words: &L,
    slot: ModuleNumber,
    place: usize,
    marks: Marks,
    profile: Profile,
) -> ListedWord
    requires inside { place < length (L.words words.now) }
    requires most { length (L.words words.now) ≤ most_words }
    ensures { spec.IsListed marks profile (L.words words.now) slot place result }
{
    let spelling = Spelling::of(words.word(place), profile);
    let located = Located {
        slot,
        place: place as u32,
        spelling,
    };
    ListedWord {
        located,
        words: words.count() as u32,
        broken: mark_at(words, place, marks, profile),
    }
}

/// Writes the line of a word.
fn write_listed<W: Write>(listed: ListedWord, out: &mut W) -> io::Result<()>
    ensures { OnOk result (Appends (W.contents out.old) (W.contents out.new) (spec.listed_line listed)) }
{
    writeln!(out, "{listed}")
}

/// Writes a line for each word of a module in a slot, in order, with these marks.
///
/// # Errors
///
/// Where a write fails. Not all of the lines were written then.
pub fn write_listing<L: Words, W: Write>(
    room: LineRoom,
    words: &L,
    slot: ModuleNumber,
    marks: Marks,
    profile: Profile,
    out: &mut W,
) -> io::Result<()>
    requires most { length (L.words words.now) ≤ most_words }
    ensures { OnOk result (spec.WritesListing marks profile (L.words words.now) slot (W.contents out.old) (W.contents out.new)) }
{
    let mut kept = room.into_lines();
    for place in 0..words.count() {
        write_listed(listed_at(words, slot, place, marks, profile), &mut kept)?;
        write_many(&mut kept, out)?;
    }
    write_kept(&mut kept, out)
}
