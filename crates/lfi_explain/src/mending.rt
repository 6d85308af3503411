//! How a word that breaks a rule is mended.

ghost use Rattle.std.specs.Prelude.{◌≡◌, ◌<◌, Some};
ghost use Rattle.std.specs.Fmt.{WritesOnOk};
ghost use Rattle.std.specs.List.{flat_map};
ghost use Rattle.lfi_mends.specs.Mends.{mended};
ghost use Rattle.lfi_explain.specs.Mendings as spec;

use crate::explanation::Explanation;
use crate::mend_of_word::owed;
use crate::spelling::is_written;
use a64_text::Assembly;
use a64_word::Instruction;
use lfi_mends::{Mend, Reason};
use lfi_rules::{Need, Rule};
use std::fmt;

/// A register that a mend may overwrite though no rule reserves it for that: x16.
const FIRST_SCRATCH: u8 = 16;

/// The other one: x17.
const SECOND_SCRATCH: u8 = 17;

/// Whether one of some instructions writes a register, by its number.
fn write(register: u8, instructions: &[Instruction]) -> bool
    requires { register < 31 }
    ensures { result ≡ spec.write register instructions.now }
{
    instructions.iter().any(|i| is_written(i, register))
}

/// Which of x16 and x17 are overwritten.
#[derive(Clone, Copy)]
struct Scratch {
    first: bool,
    second: bool,
}

impl fmt::Display for Scratch {
    ghost output = { λ scratch. Some (spec.scratch_text scratch.first scratch.second) };

    fn fmt<W: fmt::Write>(&self, f: &mut fmt::Formatter<W>) -> fmt::Result {
        f.write_str(match (self.first, self.second) {
            (true, true) => "; x16 and x17 are overwritten",
            (true, false) => "; x16 is overwritten",
            (false, true) => "; x17 is overwritten",
            (false, false) => "",
        })
    }
}

/// Where a mend stands, and what else there is to do.
#[derive(Clone, Copy)]
struct Head {
    rule: Rule,
    is_empty: bool,
    scratch: Scratch,
}

impl fmt::Display for Head {
    ghost output = { λ head. Some (spec.head_text head.rule head.is_empty head.scratch.first head.scratch.second) };

    fn fmt<W: fmt::Write>(&self, f: &mut fmt::Formatter<W>) -> fmt::Result {
        let place = if self.is_empty {
            "nothing in its place"
        } else {
            "in its place"
        };
        let more = if self.rule == Rule::LinkGuarded {
            "; where x30 isn't meant as an address, use another register"
        } else {
            ""
        };
        write!(f, "{place}{}{more}", self.scratch)
    }
}

/// The lines of some instructions.
fn write_instructions<W: fmt::Write>(
    instructions: &[Instruction],
    f: &mut fmt::Formatter<W>,
) -> fmt::Result
    ensures { WritesOnOk W.write_str_gives f.old result (flat_map spec.instruction_line instructions.now) f.new }
{
    for instruction in instructions {
        write!(f, "\n    {}", Assembly(*instruction))?;
    }
    Ok(())
}

/// A mend of a word that breaks a rule.
#[derive(Clone, Copy)]
struct Instead {
    rule: Rule,
    mend: Mend,
}

impl fmt::Display for Instead {
    ghost output = { λ instead. Some (spec.instructions_text instead.rule (mended instead.mend)) };

    fn fmt<W: fmt::Write>(&self, f: &mut fmt::Formatter<W>) -> fmt::Result {
        let instructions = self.mend.instructions();
        let scratch = Scratch {
            first: write(FIRST_SCRATCH, instructions),
            second: write(SECOND_SCRATCH, instructions),
        };
        let head = Head {
            rule: self.rule,
            is_empty: instructions.is_empty(),
            scratch,
        };
        f.write(head)?;
        write_instructions(instructions, f)
    }
}

/// Why there is no mend, and what to do then.
#[derive(Clone, Copy)]
struct Without(Reason);

impl fmt::Display for Without {
    ghost output = { λ without. Some (spec.without_text without.0) };

    fn fmt<W: fmt::Write>(&self, f: &mut fmt::Formatter<W>) -> fmt::Result {
        let reason = self.0;
        let instead = match reason {
            Reason::Base | Reason::Reserved => "; use another register",
            Reason::Bits | Reason::Outside => "; docs/PROFILE.md lists what stands in for others",
            _ => "",
        };
        write!(f, "none: {reason}{instead}")
    }
}

/// What meets a need.
#[derive(Clone, Copy)]
struct MetBy(Need);

impl fmt::Display for MetBy {
    ghost output = { λ met. Some (spec.met_text met.0) };

    fn fmt<W: fmt::Write>(&self, f: &mut fmt::Formatter<W>) -> fmt::Result {
        f.write_str(match self.0 {
            Need::Nothing => "nothing is to be mended",
            Need::Call =>
                "put blr x30 right after the load, and before the load what stood between them",
            Need::Guard => "put add x30, x21, w30, uxtw right after the load",
            Need::Probe(_) =>
                "put ldr xzr, [sp] right after the move, or let a pre- or post-indexed access move sp",
        })
    }
}

/// What is written instead of the word of a fault, or beside it.
#[derive(Clone, Copy)]
pub(crate) struct Mending(pub(crate) Explanation);

impl fmt::Display for Mending {
    ghost output = { λ mending. Some (spec.mending_text mending.0) };

    fn fmt<W: fmt::Write>(&self, f: &mut fmt::Formatter<W>) -> fmt::Result {
        let told = &self.0;
        let rule = told.fault.rule;
        match rule {
            Rule::TargetInside => f.write_str(
                "let it go to a word of the module; code outside is called by ldr x30, [x21, #8j], j being 0 to 511, with blr x30 right after it",
            ),
            Rule::NeedMet => f.write(MetBy(owed(&told.at, &told.opener))),
            _ => match told.mend {
                Ok(mend) => f.write(Instead { rule, mend }),
                Err(reason) => f.write(Without(reason)),
            },
        }
    }
}
