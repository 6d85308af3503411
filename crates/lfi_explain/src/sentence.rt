//! What a rule asks, and what a word does that breaks it.

ghost use Rattle.std.specs.Prelude.{◌≡◌, ◌-◌, ◌&&◌, nat_lt, Some};
ghost use Rattle.lfi_explain.specs.Sentences as spec;

use crate::explanation::Explanation;
use crate::group::Group;
use a64_effects::{Address, Form};
use a64_text::{Assembly, GeneralRegister, RegisterOrStack};
use a64_word::{IndexExtend, Instruction, Register, Size, Width};
use lfi_rules::{Need, Rule};
use std::fmt;

/// The word that meets a need.
#[derive(Clone, Copy)]
pub(crate) struct Meeting(pub(crate) Need);

impl fmt::Display for Meeting {
    ghost output = { λ meeting. Some (spec.meeting_text meeting.0) };

    fn fmt<W: fmt::Write>(&self, f: &mut fmt::Formatter<W>) -> fmt::Result {
        f.write_str(match self.0 {
            Need::Nothing => "any word",
            Need::Call => "blr x30",
            Need::Guard => "add x30, x21, w30, uxtw",
            Need::Probe(_) => "a load or store at [sp]",
        })
    }
}

/// What opens a need.
#[derive(Clone, Copy)]
struct Opening(Need);

impl fmt::Display for Opening {
    ghost output = { λ opening. Some (spec.opening_text opening.0) };

    fn fmt<W: fmt::Write>(&self, f: &mut fmt::Formatter<W>) -> fmt::Result {
        f.write_str(match self.0 {
            Need::Nothing => "any other word",
            Need::Call => "a load of a table entry into x30",
            Need::Guard => "any other load of 64 bits into x30",
            Need::Probe(_) => "a move of sp by an immediate",
        })
    }
}

/// How an access comes from its base to its address, where it isn't by an immediate alone.
#[derive(Clone, Copy)]
struct ByForm(Form);

impl fmt::Display for ByForm {
    ghost output = { λ by. Some (spec.form_text by.0) };

    fn fmt<W: fmt::Write>(&self, f: &mut fmt::Formatter<W>) -> fmt::Result {
        match self.0 {
            Form::Offset => Ok(()),
            Form::PreIndex | Form::PostIndex => f.write_str(" and changes it"),
            Form::Index {
                register,
                extend,
                scaled,
            } => {
                let width = match extend {
                    IndexExtend::Uxtw | IndexExtend::Sxtw => Width::W,
                    _ => Width::X,
                };
                let shifted = if scaled { ", shifted" } else { "" };
                write!(
                    f,
                    " by {}, {}{shifted}",
                    GeneralRegister(width, register),
                    Assembly(extend)
                )
            }
        }
    }
}

/// Through which register an access goes, and how.
#[derive(Clone, Copy)]
struct Through(Option<Address>);

impl fmt::Display for Through {
    ghost output = { λ through. Some (spec.through_text through.0) };

    fn fmt<W: fmt::Write>(&self, f: &mut fmt::Formatter<W>) -> fmt::Result {
        match self.0 {
            Some(address) => {
                let base = RegisterOrStack(Width::X, address.base);
                write!(f, "; this one goes through {base}{}", ByForm(address.form))
            }
            None => Ok(()),
        }
    }
}

/// Which address register is written.
#[derive(Clone, Copy)]
struct WritesAddress(Option<u8>);

impl fmt::Display for WritesAddress {
    ghost output = { λ writes. Some (spec.writes_text writes.0) };

    fn fmt<W: fmt::Write>(&self, f: &mut fmt::Formatter<W>) -> fmt::Result {
        match self.0 {
            Some(number) => write!(f, "; this one writes x{number}"),
            None => Ok(()),
        }
    }
}

/// Where a direct branch goes.
#[derive(Clone, Copy)]
struct GoesTo(Option<i64>);

impl fmt::Display for GoesTo {
    ghost output = { λ goes. Some (spec.goes_text goes.0) };

    fn fmt<W: fmt::Write>(&self, f: &mut fmt::Formatter<W>) -> fmt::Result {
        match self.0 {
            Some(place) => write!(f, ", and this one goes to word {place}"),
            None => Ok(()),
        }
    }
}

/// Through which register a branch goes.
#[derive(Clone, Copy)]
struct BranchesThrough(Option<Register>);

impl fmt::Display for BranchesThrough {
    ghost output = { λ branch. Some (spec.branch_text branch.0) };

    fn fmt<W: fmt::Write>(&self, f: &mut fmt::Formatter<W>) -> fmt::Result {
        match self.0 {
            Some(register) => {
                write!(
                    f,
                    "; this one goes through {}",
                    GeneralRegister(Width::X, register)
                )
            }
            None => Ok(()),
        }
    }
}

/// Whether a word misses a need of which `left` words are left only since it is the module's last.
fn runs_out(left: u8, calm: bool) -> bool
    ensures { result ≡ (calm && nat_lt 1 left) }
{
    calm && left > 1
}

/// How many words of a need are left behind `gone` calm ones.
fn left_behind(count: u8, gone: u8) -> u8
    ensures { result ≡ count - gone }
{
    count.saturating_sub(gone)
}

/// How many words of a need are left.
#[derive(Clone, Copy)]
struct Left {
    left: u8,
    count: u8,
}

impl fmt::Display for Left {
    ghost output = { λ left. Some (spec.left_text left.left left.count) };

    fn fmt<W: fmt::Write>(&self, f: &mut fmt::Formatter<W>) -> fmt::Result {
        write!(f, "{} of the {} left", self.left, self.count)
    }
}

/// How a word behind calm ones misses a need: by itself, or since it is the module's last.
#[derive(Clone, Copy)]
struct Missed {
    count: u8,
    left: u8,
    calm: bool,
}

impl fmt::Display for Missed {
    ghost output = { λ missed. Some (spec.missed_text missed.count missed.left missed.calm) };

    fn fmt<W: fmt::Write>(&self, f: &mut fmt::Formatter<W>) -> fmt::Result {
        let count = self.count;
        if runs_out(self.left, self.calm) {
            let left = Left {
                left: left_behind(self.left, 1),
                count,
            };
            write!(f, "the module ends with {left}")
        } else {
            let left = Left {
                left: self.left,
                count,
            };
            write!(f, "this word, with {left}, isn't that")
        }
    }
}

/// Within how many words a probe comes, and how this one misses it.
#[derive(Clone, Copy)]
struct Late {
    count: u8,
    left: u8,
    calm: bool,
}

impl fmt::Display for Late {
    ghost output = { λ late. Some (spec.late_text late.count late.left late.calm) };

    fn fmt<W: fmt::Write>(&self, f: &mut fmt::Formatter<W>) -> fmt::Result {
        let count = self.count;
        let missed = Missed {
            count,
            left: self.left,
            calm: self.calm,
        };
        write!(
            f,
            " within {count} words, with only calm words before it; {missed}"
        )
    }
}

/// Within how many words a need is met, where it isn't the next one, and how this one misses it.
#[derive(Clone, Copy)]
struct Within {
    need: Need,
    gone: u8,
    calm: bool,
}

impl fmt::Display for Within {
    ghost output = { λ within. Some (spec.within_text within.need within.gone within.calm) };

    fn fmt<W: fmt::Write>(&self, f: &mut fmt::Formatter<W>) -> fmt::Result {
        match self.need {
            Need::Probe(count) if count > 1 => {
                let late = Late {
                    count,
                    left: left_behind(count, self.gone),
                    calm: self.calm,
                };
                f.write(late)
            }
            _ => f.write_str("; this word isn't that"),
        }
    }
}

/// What the last word asks; where it asks nothing, one before it does, which isn't known here.
#[derive(Clone, Copy)]
struct Last(Need);

impl fmt::Display for Last {
    ghost output = { λ last. Some (spec.last_text last.0) };

    fn fmt<W: fmt::Write>(&self, f: &mut fmt::Formatter<W>) -> fmt::Result {
        match self.0 {
            Need::Nothing => f.write_str(
                "a move of sp by an immediate has to be followed by a load or store at [sp] within 4 words, with only calm words before it; this word isn't that",
            ),
            opened => write!(
                f,
                "the last word may ask nothing of a next one; this one asks for {}",
                Meeting(opened)
            ),
        }
    }
}

/// What is told of a need that isn't met: that of a word before, or else that of the last word.
#[derive(Clone, Copy)]
struct Unmet {
    need: Need,
    opened: Need,
    gone: u8,
    calm: bool,
}

impl fmt::Display for Unmet {
    ghost output = { λ unmet. Some (spec.unmet_text unmet.need unmet.opened unmet.gone unmet.calm) };

    fn fmt<W: fmt::Write>(&self, f: &mut fmt::Formatter<W>) -> fmt::Result {
        match self.need {
            Need::Nothing => f.write(Last(self.opened)),
            need => {
                let within = Within {
                    need,
                    gone: self.gone,
                    calm: self.calm,
                };
                write!(
                    f,
                    "{} has to be followed by {}{within}",
                    Opening(need),
                    Meeting(need)
                )
            }
        }
    }
}

/// What a rule asks of a word; of the last rule, nothing, since its need says it.
#[derive(Clone, Copy)]
struct Asks(Rule);

impl fmt::Display for Asks {
    ghost output = { λ asks. Some (spec.asks_text asks.0) };

    fn fmt<W: fmt::Write>(&self, f: &mut fmt::Formatter<W>) -> fmt::Result {
        f.write_str(match self.0 {
            Rule::Spelled => "each word has to be an instruction of the profile",
            Rule::AccessConfined =>
                "a load or store may go only through x18, x21, x23, x24 or sp at an immediate offset, through sp and change it, or through x21 by a W register with uxtw and no shift",
            Rule::BaseKept => "x21 holds where the slot begins and may not be written",
            Rule::AddressGuarded => "x18, x23 and x24 may be written only by add xD, x21, wM, uxtw",
            Rule::LinkGuarded =>
                "x30 may be written only by add x30, x21, wM, uxtw, by bl, by blr or by a load of 64 bits",
            Rule::OffsetNarrow => "x22 may be written only as w22, so that it stays below 2^32",
            Rule::StackBounded =>
                "sp may be written only by add sp, x21, wM, uxtw, by add sp, x21, x22, uxtx, by an unshifted add or sub of an immediate to sp, or by indexing on sp",
            Rule::TargetInside => "a direct branch may go only to a word of the module",
            Rule::BranchBounded =>
                "br and blr may go only through x18, x23, x24 or x30, and ret only through x30",
            Rule::NeedMet => "",
        })
    }
}

/// The name of an ordered load or store.
fn ordered_name(load: bool, size: Size) -> &'static str
    ensures { result.now ≡ spec.ordered_name load size }
{
    match (load, size) {
        (true, Size::Byte) => "ldarb",
        (true, Size::Half) => "ldarh",
        (true, _) => "ldar",
        (false, Size::Byte) => "stlrb",
        (false, Size::Half) => "stlrh",
        (false, _) => "stlr",
    }
}

/// A word that no instruction of the profile spells, with what spells it in the second profile.
#[derive(Clone, Copy)]
struct Unspelled {
    word: u32,
    in_second: Option<Instruction>,
}

impl fmt::Display for Unspelled {
    ghost output = { λ unspelled. Some (spec.unspelled_text unspelled.word unspelled.in_second) };

    fn fmt<W: fmt::Write>(&self, f: &mut fmt::Formatter<W>) -> fmt::Result {
        match self.in_second {
            Some(Instruction::Ordered(i)) => {
                let name = ordered_name(i.load, i.size);
                write!(f, "; {name} is an instruction of profile 2")
            }
            _ => {
                let group = Group::of(self.word).text();
                write!(f, "; this one is none, of the group: {group}")
            }
        }
    }
}

/// What the word does instead.
#[derive(Clone, Copy)]
struct Does(Explanation);

impl fmt::Display for Does {
    ghost output = { λ does. Some (spec.does_text does.0.fault.rule does.0) };

    fn fmt<W: fmt::Write>(&self, f: &mut fmt::Formatter<W>) -> fmt::Result {
        let told = &self.0;
        match told.fault.rule {
            Rule::Spelled => {
                let unspelled = Unspelled {
                    word: told.at.word,
                    in_second: told.at.in_second,
                };
                f.write(unspelled)
            }
            Rule::AccessConfined => f.write(Through(told.at.address())),
            Rule::BaseKept => f.write_str("; this one writes it"),
            Rule::AddressGuarded => f.write(WritesAddress(told.at.written_address())),
            Rule::LinkGuarded => f.write_str("; this one writes it otherwise"),
            Rule::OffsetNarrow => f.write_str("; this one writes all of it"),
            Rule::StackBounded => f.write_str("; this one writes it otherwise"),
            Rule::TargetInside => {
                let goes = GoesTo(told.at.target(told.fault.word));
                write!(f, "; it has {}{goes}", told.words)
            }
            Rule::BranchBounded => f.write(BranchesThrough(told.at.branch_register())),
            Rule::NeedMet => {
                let unmet = Unmet {
                    need: told.unmet(),
                    opened: told.at.opens(),
                    gone: told.gone(),
                    calm: told.at.is_calm(),
                };
                f.write(unmet)
            }
        }
    }
}

/// What the rule of a fault asks, and what the word does instead.
#[derive(Clone, Copy)]
pub(crate) struct Sentence(pub(crate) Explanation);

impl fmt::Display for Sentence {
    ghost output = { λ sentence. Some (spec.sentence_text sentence.0) };

    fn fmt<W: fmt::Write>(&self, f: &mut fmt::Formatter<W>) -> fmt::Result {
        write!(f, "{}{}", Asks(self.0.fault.rule), Does(self.0))
    }
}
