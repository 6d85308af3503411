//! The rules asked one by one of what a word decodes to: slow, and without the pass.

use a64_effects::{Address, Form, address_of, target, writes};
use a64_word::{BranchKind, IndexExtend, Instruction, Width, decode};
use lfi_module::Profile;
use lfi_rules::{Fault, Need, Rule, meets, opens};

/// The rules that an instruction keeps by itself, in the order of their numbers.
const RULES: [Rule; 8] = [
    Rule::AccessConfined,
    Rule::BaseKept,
    Rule::AddressGuarded,
    Rule::LinkGuarded,
    Rule::OffsetNarrow,
    Rule::StackBounded,
    Rule::TargetInside,
    Rule::BranchBounded,
];

/// Whether an access is confined.
fn is_confined(address: &Address) -> bool {
    let base = address.base.number();
    match address.form {
        Form::Offset => matches!(base, 18 | 21 | 23 | 24 | 31),
        Form::PreIndex | Form::PostIndex => base == 31,
        Form::Index { extend, scaled, .. } => {
            base == 21 && extend == IndexExtend::Uxtw && !scaled
        }
    }
}

/// Whether an access changes sp.
fn is_indexed(instruction: &Instruction) -> bool {
    match address_of(instruction) {
        Some(address) => matches!(address.form, Form::PreIndex | Form::PostIndex),
        None => false,
    }
}

/// Whether a word is ADD Xd, X21, Wm, UXTW #0.
fn is_guard(word: u32) -> bool {
    word & 0xFFE0FFE0 == 0x8B2042A0
}

/// Whether an instruction is BL or BLR.
fn links(instruction: &Instruction) -> bool {
    match instruction {
        Instruction::Branch(branch) => branch.link,
        Instruction::BranchRegister(branch) => branch.kind == BranchKind::Blr,
        _ => false,
    }
}

/// Whether a branch to a register is bounded.
fn is_bounded(instruction: &Instruction) -> bool {
    match instruction {
        Instruction::BranchRegister(branch) => match branch.rn.number() {
            30 => true,
            18 | 23 | 24 => branch.kind != BranchKind::Ret,
            _ => false,
        },
        _ => true,
    }
}

/// Whether a word, which spells an instruction, keeps one of the rules at a place of n words.
fn keeps(word: u32, instruction: &Instruction, rule: Rule, place: u32, n: u32) -> bool {
    let written = writes(instruction);
    let guard = is_guard(word);
    let opened = opens(instruction, Profile::Two);
    match rule {
        Rule::AccessConfined => match address_of(instruction) {
            Some(address) => is_confined(&address),
            None => true,
        },
        Rule::BaseKept => written.register(21) == None,
        Rule::AddressGuarded => {
            guard
                || written.register(18) == None
                    && written.register(23) == None
                    && written.register(24) == None
        }
        Rule::LinkGuarded => {
            guard
                || written.register(30) == None
                || links(instruction)
                || opened == Need::Call
                || opened == Need::Guard
        }
        Rule::OffsetNarrow => written.register(22) != Some(Width::X),
        Rule::StackBounded => {
            guard
                || written.sp() == None
                || word == 0x8B3662BF
                || matches!(opened, Need::Probe(_))
                || is_indexed(instruction)
        }
        Rule::TargetInside => match target(instruction, place) {
            Some(place) => 0 <= place && place < i64::from(n),
            None => true,
        },
        Rule::BranchBounded => is_bounded(instruction),
        _ => true,
    }
}

/// Whether a word may stand between a move of sp and its probe, asked plainly.
pub fn is_calm_word(word: u32, profile: Profile) -> bool {
    let Some(instruction) = decode(word, profile) else {
        return false;
    };
    let through_stack = match address_of(&instruction) {
        Some(address) => address.base.number() == 31,
        None => false,
    };
    let leaves_line = matches!(
        instruction,
        Instruction::Branch(_)
            | Instruction::ConditionalBranch(_)
            | Instruction::CompareBranch(_)
            | Instruction::TestBranch(_)
            | Instruction::BranchRegister(_)
            | Instruction::Breakpoint(_)
    );
    !leaves_line
        && !through_stack
        && writes(&instruction).sp() == None
        && opens(&instruction, profile) == Need::Nothing
}

/// What is left of a need after a word, where it may go by before the need is met.
fn left_after(word: u32, need: Need, profile: Profile) -> Option<Need> {
    match need {
        Need::Probe(count) if count > 1 && is_calm_word(word, profile) => {
            Some(Need::Probe(count.saturating_sub(1)))
        }
        _ => None,
    }
}

/// The rule with the least number that a word breaks at a place of n words, where `need` is open; and what it leaves open.
pub fn rule_of(
    word: u32,
    need: Need,
    place: u32,
    n: u32,
    profile: Profile,
) -> (Option<Rule>, Need) {
    let Some(instruction) = decode(word, profile) else {
        return (Some(Rule::Spelled), Need::Nothing);
    };
    let gone_by = left_after(word, need, profile);
    let left = gone_by.unwrap_or(opens(&instruction, profile));
    for rule in RULES {
        if !keeps(word, &instruction, rule, place, n) {
            return (Some(rule), left);
        }
    }
    if gone_by.is_some() || meets(&instruction, need) {
        (None, left)
    } else {
        (Some(Rule::NeedMet), left)
    }
}

/// The first fault of a module, word by word.
pub fn fault_word_by_word(words: &[u32], profile: Profile) -> Option<Fault> {
    let n = words.len().min(4_194_304) as u32;
    let mut need = Need::Nothing;
    let mut place = 0u32;
    for word in words {
        let (rule, left) = rule_of(*word, need, place, n, profile);
        if let Some(rule) = rule {
            return Some(Fault { word: place, rule });
        }
        need = left;
        place = place.saturating_add(1);
    }
    if need == Need::Nothing {
        None
    } else {
        Some(Fault {
            word: n.saturating_sub(1),
            rule: Rule::NeedMet,
        })
    }
}
