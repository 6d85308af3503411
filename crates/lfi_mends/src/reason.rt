//! Why there is no mend.

ghost use Rattle.std.specs.Prelude.{Some};
ghost use Rattle.lfi_mends.specs.Texts.{reason_text};

use std::fmt;

/// Why there is no mend. `obstacle` in specs/Obstacles.antt says which word has which.
#[derive(Clone, Copy, PartialEq, Eq)]
pub enum Reason {
    /// The word writes x21, or changes it as the base of an access. No instruction may.
    Base,
    /// A result goes to a register that the profile reserves, where a mend would have to write it in two steps.
    Reserved,
    /// A mend needs a register of its own that the word names: x16 or x17.
    Scratch,
    /// What the word computes depends on its place: ADR and ADRP.
    Place,
    /// A direct branch leaves the module. Where it should go isn't known.
    Target,
    /// The load of a table entry stands before the word, and only its call may.
    Call,
    /// The word keeps the rule, or there is no need to be met.
    Kept,
    /// All bits in the other order take more instructions than a mend has.
    Bits,
    /// No instructions of the profile are known that do the same.
    Outside,
}

impl fmt::Display for Reason {
    ghost output = { λ reason. Some (reason_text reason) };

    /// Writes the reason in plain words.
    fn fmt<W: fmt::Write>(&self, f: &mut fmt::Formatter<W>) -> fmt::Result {
        f.write_str(match self {
            Reason::Base => "no instruction may write x21",
            Reason::Reserved => "a result goes to a register that the profile reserves",
            Reason::Scratch => "it names x16 or x17, which a mend would write",
            Reason::Place => "what it computes depends on where it stands",
            Reason::Target => "where it should go isn't known",
            Reason::Call => "only blr x30 may stand right after the load of a table entry",
            Reason::Kept => "it keeps this rule",
            Reason::Bits =>
                "bits in the other order take more than eight instructions, but where CLZ in the next word counts them in the same register",
            Reason::Outside => "no instructions of the profile are known that do the same",
        })
    }
}
