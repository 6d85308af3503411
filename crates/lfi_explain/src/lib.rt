//! What is told of words and of the rules that they break: explanations of faults, all of them, and listings. Faults
//! and rules are those of lfi_rules. What is told of each is fixed by the definitions of specs/.
//!
//! # How data flows
//!
//! `explain` takes a list of words and a fault to an `Explanation`, which keeps the decoded words and the mend that
//! lfi_mends answers (mend_of_word); its `Display` is the text. `write_refusals` explains each place that breaks a rule,
//! `write_listing` writes a line for each word. Both write lines by 8,192 bytes, in memory taken before (`LineRoom`).
//!
//! # What it may not know
//!
//! Streams, files, the command line.
//!
//! # Decisions
//!
//! - **Texts have no aliases**: one name a class, so that what is read is what the rules speak of. `ret x30` has its
//!   register too.
//! - **Places are written from the instruction itself** (`.+8`). GNU as and LLVM read that the same way; `#8`, which
//!   LLVM prints, is an absolute address to GNU as. For ADRP both leave `.+4096` to the linker, which gives as many
//!   pages.
//! - **The text of every `Instruction` is fixed, also of one that no word spells**, since `Display` has no condition. A
//!   bitmask that is none prints as `#?`.
//! - **`mask_of` is a function beside the relation `IsMask`**, since what is printed has to be a function of the
//!   instruction. `gives_mask` is its test.
//! - **An `Explanation` keeps the decoded words** (`Spelling`) **and the mend**, so that its text is a function of its
//!   fields: what `mend_of` answers is said by a relation.
//! - **Six words explain a fault** (`explain_near`, the law `near_words_are_enough`): four before it, since no need waits
//!   for longer, and the next one. So a module that came in pages needn't be kept.
//! - **What a word breaks, by its place, is asked of lfi_rules** (`broken_at`), which has the order of the rules;
//!   lfi_explain tells it. It decodes the words before anew at each place: explanations are asked for by hand.
//! - **All refusals are told**, so a word after one that opens a need may be told for that need alone.
//! - **A word that no instruction of the profile spells is told with its group** (`Group`), by the manual's own tables, so
//!   that whoever meets it knows what to ask of a compiler. No group says that a word is an instruction.
//! - **A listing marks broken rules where that is asked for**: it looks at each place as `write_refusals` does.
//! - **A number is a line of its own form** (`words refused: 1`), which needs no plural.
//! - **A mend is lines of its own, below `mend:`**: the instructions of lfi_mends, one a line, so that they can be put
//!   into an assembler's file. Where there is none, the reason stands in that line. Direct branches, and what the next
//!   word owes, are told in a sentence: for the first there is no mend, for the second it stands beside another word.
//! - **A mend meets what is open before the word** (`need_of`), also where the word itself would meet it.
//! - **`Unmended` is all but the mend**: one `write!` of both has too many parts for the search.
#![tactic(auto)]

mod digits;
mod explanation;
mod group;
mod kept;
mod laws;
mod listing;
mod located;
mod mend_of_word;
mod mending;
mod opener;
mod refusals;
mod sentence;
mod spelling;

pub use explanation::{Explanation, KnownFault, explain, explain_near};
pub use group::Group;
pub use kept::LineRoom;
pub use laws::near_words_are_enough;
pub use listing::{ListedWord, Marks, write_listing};
pub use located::Located;
pub use mend_of_word::mend_near;
pub use opener::Opener;
pub use refusals::write_refusals;
pub use spelling::Spelling;
