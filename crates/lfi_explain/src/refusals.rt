//! All words of a module that break a rule.

ghost use Rattle.std.specs.Prelude.{◌≡◌, ◌<◌, ◌≤◌, length, flat_map, OnOk, IfOk};
ghost use Rattle.std.specs.Io.KnownBytes.{Appends};
ghost use Rattle.lfi_module.specs.Numbers.{most_words};
ghost use Rattle.lfi_explain.specs.Explanations as spec;

use crate::explanation::{Explanation, explain};
use crate::kept::{LineRoom, write_kept, write_many};
use a64_word::Words;
use lfi_module::{ModuleNumber, Profile};
use lfi_rules::{Fault, broken_at};
use std::io::{self, Write};

/// What is told of the word at a place, where it breaks a rule: of those that it breaks, the one with the least number.
fn explained_at<L: Words>(
    words: &L,
    slot: ModuleNumber,
    place: usize,
    profile: Profile,
) -> Option<Explanation>
    requires inside { place < length (L.words words.now) }
    requires most { length (L.words words.now) ≤ most_words }
    ensures { spec.IsToldAt profile (L.words words.now) slot place result }
{
    let rule = broken_at(words, place, profile)?;
    let word = place as u32;
    Some(explain(words, slot, Fault { word, rule }, profile))
}

/// Writes what is told of a word, if anything is.
fn write_told<W: Write>(told: &Option<Explanation>, out: &mut W) -> io::Result<()>
    ensures { OnOk result (Appends (W.contents out.old) (W.contents out.new) (flat_map spec.explanation_line (spec.one_or_none told.now))) }
{
    match told {
        Some(explanation) => writeln!(out, "{explanation}"),
        None => Ok(()),
    }
}

/// How many words are refused, and of how many of them there is a mend.
#[derive(Clone, Copy)]
struct Counts {
    refused: u32,
    mended: u32,
}

/// The counts of one place.
fn counts_of(told: &Option<Explanation>) -> Counts
    ensures refused { result.refused ≡ length (spec.one_or_none told.now) }
    ensures mended { result.mended ≡ spec.mended_among (spec.one_or_none told.now) }
{
    match told {
        Some(explanation) => Counts {
            refused: 1,
            mended: if explanation.mend.is_ok() { 1 } else { 0 },
        },
        None => Counts {
            refused: 0,
            mended: 0,
        },
    }
}

/// Writes the line with how many words are refused.
fn write_refused_count<W: Write>(refused: u32, out: &mut W) -> io::Result<()>
    ensures { OnOk result (Appends (W.contents out.old) (W.contents out.new) (spec.refused_text refused)) }
{
    writeln!(out, "words refused: {refused}")
}

/// Writes the line with of how many of them there is a mend.
fn write_mended_count<W: Write>(mended: u32, out: &mut W) -> io::Result<()>
    ensures { OnOk result (Appends (W.contents out.old) (W.contents out.new) (spec.mended_text mended)) }
{
    writeln!(out, "words with a mend: {mended}")
}

/// Writes what is told of each word of a module in a slot that breaks a rule of a profile, in order; then a line with how
/// many these are, as `words refused: 2`, and one with how many of them have a mend, as `words with a mend: 1`. Gives how
/// many are refused.
///
/// # Errors
///
/// Where a write fails. Not all of the lines were written then.
pub fn write_refusals<L: Words, W: Write>(
    room: LineRoom,
    words: &L,
    slot: ModuleNumber,
    profile: Profile,
    out: &mut W,
) -> io::Result<u32>
    requires most { length (L.words words.now) ≤ most_words }
    ensures { IfOk result (spec.WritesRefusals profile (L.words words.now) slot (W.contents out.old) (W.contents out.new)) }
{
    let mut kept = room.into_lines();
    let mut refused = 0;
    let mut mended = 0;
    for place in 0..words.count() {
        let told = explained_at(words, slot, place, profile);
        write_told(&told, &mut kept)?;
        let here = counts_of(&told);
        refused += here.refused;
        mended += here.mended;
        write_many(&mut kept, out)?;
    }
    write_refused_count(refused, &mut kept)?;
    write_mended_count(mended, &mut kept)?;
    write_kept(&mut kept, out)?;
    Ok(refused)
}
