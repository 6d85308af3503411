//! Members of JSON objects: faults, and how they are mended.

ghost use Rattle.std.specs.Prelude.{◌≡◌, ◌<◌, ◌≤◌, ◌++◌, List, length, IfOk, IfSome, OnOk, decimal, string_bytes};
ghost use Rattle.a64_word.specs.Words.{words_of};
ghost use Rattle.lfi_module.specs.Numbers.{most_words};
ghost use Rattle.lfi_model.specs.Texts.{lines_from};
ghost use Rattle.lfi_explain.specs.declared.explanation.Explanation.{Explanation};
ghost use Rattle.lfi_explain.specs.Explanations.{AreTold, IsToldAt, mended_among, one_or_none};
ghost use Rattle.lfi_file_commands.specs.Json as spec;

use a64_text::Assembly;
use a64_word::{Instruction, Words};
use lfi_check::Code;
use lfi_explain::{Explanation, explain};
use lfi_mends::{Mend, Reason};
use lfi_module::{ModuleNumber, Profile};
use lfi_rules::{Fault, broken_at};
use serde_json::Value;
use std::alloc::{AllocError, Global};
use std::fmt::Display;

/// Puts a text behind another as a JSON string.
///
/// # Errors
///
/// Where there is no memory for it, as in all functions here.
#[tactic(auto, unfolding(crate::specs::Json::quoted))]
pub fn push_quoted<T: Display + Drop>(
    alloc: Global,
    what: T,
    text: &mut String,
) -> Result<(), AllocError>
    ensures { IfSome (T.output what) (λ bytes. OnOk result (string_bytes text.new ≡ string_bytes text.old ++ spec.quoted bytes)) }
{
    let whole = format!(in alloc; "{what}")?;
    let value = Value::String(whole).to_string(alloc)?;
    text.push_str(&value)
}

/// Puts a text behind another as it is.
///
/// # Errors
///
/// Where there is no memory for it.
pub fn push_plain(plain: &str, text: &mut String) -> Result<(), AllocError>
    ensures { OnOk result (string_bytes text.new ≡ string_bytes text.old ++ plain.now) }
{
    text.push_str(plain)
}

/// Puts what stands before one of several, by how many of them stand before it.
///
/// # Errors
///
/// Where there is no memory for it.
pub fn push_comma(before: usize, text: &mut String) -> Result<(), AllocError>
    ensures { OnOk result (string_bytes text.new ≡ string_bytes text.old ++ spec.comma before) }
{
    match before {
        0 => Ok(()),
        _ => push_plain(",", text),
    }
}

/// Puts an instruction of a mend.
fn push_instruction(
    alloc: Global,
    number: usize,
    instruction: Instruction,
    text: &mut String,
) -> Result<(), AllocError>
    ensures { OnOk result (string_bytes text.new ≡ string_bytes text.old ++ spec.mend_item number instruction) }
{
    push_comma(number, text)?;
    push_quoted(alloc, Assembly(instruction), text)
}

/// Puts the instructions of a mend.
fn push_instructions(
    alloc: Global,
    instructions: &[Instruction],
    text: &mut String,
) -> Result<(), AllocError>
    ensures { OnOk result (string_bytes text.new ≡ string_bytes text.old ++ lines_from spec.mend_item 0 instructions.now) }
{
    for (number, instruction) in instructions.iter().enumerate() {
        push_instruction(alloc, number, *instruction, text)?;
    }
    Ok(())
}

/// Puts a mend, or that there is none.
fn push_mend(
    alloc: Global,
    mend: &Result<Mend, Reason>,
    text: &mut String,
) -> Result<(), AllocError>
    ensures { OnOk result (string_bytes text.new ≡ string_bytes text.old ++ spec.mend_value mend.now) }
{
    match mend {
        Ok(mend) => {
            push_plain("[", text)?;
            push_instructions(alloc, mend.instructions(), text)?;
            push_plain("]", text)
        }
        Err(_) => push_plain("null", text),
    }
}

/// Puts what is told of a fault beside its word and rule.
///
/// # Errors
///
/// Where there is no memory for it.
pub fn push_explanation(
    alloc: Global,
    explanation: &Explanation,
    text: &mut String,
) -> Result<(), AllocError>
    ensures { OnOk result (string_bytes text.new ≡ string_bytes text.old ++ spec.explained_members explanation.now) }
{
    push_plain(",\"explanation\":", text)?;
    push_quoted(alloc, format_args!("{explanation}"), text)?;
    push_plain(",\"mend\":", text)?;
    push_mend(alloc, &explanation.mend, text)
}

/// Puts a fault.
pub(crate) fn push_fault(fault: Fault, text: &mut String) -> Result<(), AllocError>
    ensures { OnOk result (string_bytes text.new ≡ string_bytes text.old ++ spec.fault_members fault) }
{
    let rule = fault.rule.number();
    write!(text, "\"word\":{},\"rule\":{rule}", fault.word)
}

/// Puts one of several words that break a rule.
fn push_refused_item(
    alloc: Global,
    before: usize,
    explanation: &Explanation,
    text: &mut String,
) -> Result<(), AllocError>
    ensures { OnOk result (string_bytes text.new ≡ string_bytes text.old ++ spec.refused_item before explanation.now) }
{
    push_comma(before, text)?;
    push_plain("{", text)?;
    push_fault(explanation.fault, text)?;
    push_explanation(alloc, explanation, text)?;
    push_plain("}", text)
}

/// Puts what is told of a word, if anything is.
fn push_told(
    alloc: Global,
    before: usize,
    told: &Option<Explanation>,
    text: &mut String,
) -> Result<(), AllocError>
    ensures { OnOk result (string_bytes text.new ≡ string_bytes text.old ++ lines_from spec.refused_item before (one_or_none told.now)) }
{
    match told {
        Some(explanation) => push_refused_item(alloc, before, explanation, text),
        None => Ok(()),
    }
}

/// What is told of the word at a place of code, where it breaks a rule: of those that it breaks, the one with the least number.
fn explained_at(code: &Code<'_>, place: usize, profile: Profile) -> Option<Explanation>
    requires inside { place < length (words_of code.now) }
    requires most { length (words_of code.now) ≤ most_words }
    ensures { IsToldAt profile (words_of code.now) 0 place result }
{
    let rule = broken_at(code, place, profile)?;
    let word = place as u32;
    let fault = Fault { word, rule };
    Some(explain(code, ModuleNumber::at(0), fault, profile))
}

/// How many words are refused, and of how many of them there is a mend.
#[derive(Clone, Copy)]
struct Counts {
    refused: usize,
    mended: usize,
}

/// The counts of one place.
fn counts_of(told: &Option<Explanation>) -> Counts
    ensures refused { result.refused ≡ length (one_or_none told.now) }
    ensures mended { result.mended ≡ mended_among (one_or_none told.now) }
{
    match told {
        Some(explanation) => Counts {
            refused: 1,
            mended: if explanation.mend.is_ok() { 1 } else { 0 },
        },
        None => Counts {
            refused: 0,
            mended: 0,
        },
    }
}

/// Puts each word of code that breaks a rule.
fn push_each_refused(
    alloc: Global,
    code: &Code<'_>,
    profile: Profile,
    text: &mut String,
) -> Result<Counts, AllocError>
    requires most { length (words_of code.now) ≤ most_words }
    ensures { IfOk result (λ counts. (told : List Explanation) × AreTold profile (words_of code.now) 0 (length (words_of code.now)) told × (counts.refused ≡ length told)
        × (counts.mended ≡ mended_among told) × (string_bytes text.new ≡ string_bytes text.old ++ lines_from spec.refused_item 0 told)) }
{
    let mut refused = 0;
    let mut mended = 0;
    for place in 0..code.count() {
        let told = explained_at(code, place, profile);
        push_told(alloc, refused, &told, text)?;
        let here = counts_of(&told);
        refused += here.refused;
        mended += here.mended;
    }
    Ok(Counts { refused, mended })
}

/// Puts a number behind a text.
fn push_number(plain: &str, number: usize, text: &mut String) -> Result<(), AllocError>
    ensures { OnOk result (string_bytes text.new ≡ string_bytes text.old ++ (plain.now ++ decimal number)) }
{
    write!(text, "{plain}{number}")
}

/// Puts how many words are refused, and of how many of them there is a mend.
fn push_counts(counts: Counts, text: &mut String) -> Result<(), AllocError>
    ensures { OnOk result (string_bytes text.new ≡ string_bytes text.old ++ spec.counts_members counts.refused counts.mended) }
{
    push_number("],\"words_refused\":", counts.refused, text)?;
    push_number(",\"words_with_a_mend\":", counts.mended, text)
}

/// Puts each word of code that breaks a rule, how many they are, and of how many there is a mend.
pub(crate) fn push_refused(
    alloc: Global,
    code: &Code<'_>,
    profile: Profile,
    text: &mut String,
) -> Result<(), AllocError>
    requires most { length (words_of code.now) ≤ most_words }
    ensures { OnOk result ((told : List Explanation) × AreTold profile (words_of code.now) 0 (length (words_of code.now)) told
        × (string_bytes text.new ≡ string_bytes text.old ++ spec.refused_members told)) }
{
    push_plain(",\"refused\":[", text)?;
    let counts = push_each_refused(alloc, code, profile, text)?;
    push_counts(counts, text)
}
