//! Faults as C sees them.

ghost use Rattle.std.specs.Prelude.{◌≡◌};
ghost use Rattle.lfi_verifier.specs.Faults.{rule_at, fault_at, fault_told};

use lfi_rules::{Fault, Rule};

/// A fault: the place of a word, and the number of the rule that it breaks, 1 to 10; 0 and 0 for none.
#[repr(C)]
#[derive(Clone, Copy)]
pub struct LfiFault {
    pub word: u32,
    pub rule: u32,
}

/// No fault.
pub(crate) const NO_FAULT: LfiFault = LfiFault { word: 0, rule: 0 };

/// The rule with this number.
pub(crate) fn rule_of(number: u32) -> Option<Rule>
    ensures { result ≡ rule_at number }
{
    match number {
        1 => Some(Rule::Spelled),
        2 => Some(Rule::AccessConfined),
        3 => Some(Rule::BaseKept),
        4 => Some(Rule::AddressGuarded),
        5 => Some(Rule::LinkGuarded),
        6 => Some(Rule::OffsetNarrow),
        7 => Some(Rule::StackBounded),
        8 => Some(Rule::TargetInside),
        9 => Some(Rule::BranchBounded),
        10 => Some(Rule::NeedMet),
        _ => None,
    }
}

/// The fault that these numbers tell, if it is one; `None` where they are neither those of a fault nor of none.
pub(crate) fn fault_of(told: LfiFault) -> Option<Option<Fault>>
    ensures { result ≡ fault_at told }
{
    if told.rule == 0 {
        return if told.word == 0 { Some(None) } else { None };
    }
    let rule = rule_of(told.rule)?;
    Some(Some(Fault {
        word: told.word,
        rule,
    }))
}

/// The numbers that tell a fault, or none.
pub(crate) fn told_of(fault: Option<Fault>) -> LfiFault
    ensures { result ≡ fault_told fault }
{
    match fault {
        Some(fault) => LfiFault {
            word: fault.word,
            rule: u32::from(fault.rule.number()),
        },
        None => NO_FAULT,
    }
}
