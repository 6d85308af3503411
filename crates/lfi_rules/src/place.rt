//! What the word at one place of a module breaks.

ghost use Rattle.std.specs.Prelude.{◌≡◌, ◌<◌, ◌≤◌, length};
ghost use Rattle.lfi_module.specs.Numbers.{most_words};
ghost use Rattle.lfi_rules.specs.Faults.{IsLeastAt};
ghost use Rattle.lfi_rules.specs.inner.Least.{unclosed};

use crate::inspect::inspect;
use crate::left::open_before;
use crate::needs::Need;
use crate::rule::Rule;
use a64_word::Words;
use lfi_module::Profile;

/// The rule that a word breaks where it is the last of its module and leaves a need open.
fn unclosed(left: Need) -> Option<Rule>
    ensures { result ≡ unclosed left }
{
    match left {
        Need::Nothing => None,
        _ => Some(Rule::NeedMet),
    }
}

/// The rule with the least number of those that the word at a place of a module breaks; None where it breaks none.
pub fn broken_at<W: Words>(words: &W, place: usize, profile: Profile) -> Option<Rule>
    requires inside { place < length (W.words words.now) }
    requires most { length (W.words words.now) ≤ most_words }
    ensures { IsLeastAt profile (W.words words.now) (length (W.words words.now)) place result }
{
    let n = words.count();
    let need = open_before(words, place, profile);
    let (rule, left) = inspect(words.word(place), need, place as u32, n as u32, profile);
    match rule {
        Some(rule) => Some(rule),
        None if place + 1 == n => unclosed(left),
        None => None,
    }
}
