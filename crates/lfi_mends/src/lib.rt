//! Mends: instructions that stand in the place of a word that breaks a rule, and are proved to keep the rules there.
//!
//! # How data flows
//!
//! `mend_of` takes a profile, the least rule that a word breaks, the word, the need that is open before it and the
//! instruction after it, to a `Mend`, or to the `Reason` why there is none. It decodes the word. What an instruction
//! spells goes by the rule: accesses to `confined` (accesses, pairs), registers that only few instructions may write to
//! `written`, branches to `bounded` (mending). What none spells is looked up in a table (outside), likened to an
//! instruction of the profile with the same operands, and replaced (replacing). All of them put a mend together one
//! instruction after another (`Mend::and`, building), of functions that make one each (builders, formulas).
//!
//! # What it may not know
//!
//! Modules, places of words, streams, texts of instructions.
//!
//! # Decisions
//!
//! - **No rule is stated here.** `KeepsRules` and `Leads` cite those of lfi_rules, of each instruction wherever it stands.
//! - **That there is a mend is a clause** (`IsReason`, specs/Obstacles.antt): it says of every word, rule and need whether
//!   there is one, else for which reason not. So a body that gives up is refused.
//! - **What a mend does is a clause for accesses** (`DoesTheSame`, `moves_plainly`): after what meets the need that is open,
//!   registers, flags and bytes are those of the refused access, wherever it lies in the slot, but for scratch registers. Where
//!   it writes reserved registers, each of them ends with what it may hold of its value (`DoesTheSameBounded`,
//!   `moves_bounded`): x22 with the lowest 32 bits, the others with the address in the slot that has these. Tests alone show
//!   it of mends of results and branches, and of words that no instruction of the profile spells.
//! - **A builder takes no word.** It makes an instruction, and says after what that stands and what it opens. A mend is a
//!   chain of these, so its proof needs no look at the chain.
//! - **An address goes by x21 and a sum in w22**, and not by a guarded base with an offset: the first is the address that
//!   was refused, wherever that lies in the slot, the second only where its base lies there too. Pairs, LDAR and STLR have
//!   no such form, and go by x18.
//! - **Scratch registers** are w22 and x18, which the rules reserve for it; and x16 and x17, where these don't suffice.
//! - **For rule 10 a mend stands beside the word**: before it, or after the last one. For all others it stands in its place,
//!   and begins with what meets the need.
//! - **Operands outside of the profile are read by likeness**: a row of the table has the word's fields where an instruction
//!   of the profile has them, so its decoding, which is proved, reads them.
//! - **RBIT is mended for the CLZ after it alone**: all bits in the other order take some 20 instructions, and so a reason of
//!   its own.
#![tactic(auto)]

mod accesses;
mod builders;
mod building;
mod computing;
mod edges;
mod formulas;
mod mend;
mod mending;
mod outside;
mod pairs;
mod reason;
mod replacing;

pub use edges::{
    accesses_are_mended, more_is_not_the_same, nothing_does_less, unlawful_words_keep_no_rules,
};
pub use mend::{MOST, Mend};
pub use mending::mend_of;
pub use outside::{Outside, outside_of};
pub use reason::Reason;
