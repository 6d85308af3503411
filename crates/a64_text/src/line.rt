//! Lines of text: a name and its operands.

ghost use Rattle.std.specs.Prelude.{codes, Some};
ghost use Rattle.std.specs.Fmt.{◌++?◌};

use std::fmt;

/// What an operation is called, and its operands: a space stands between them.
#[derive(Drop)]
pub struct Statement<N, O>(pub N, pub O);

impl<N: fmt::Display, O: fmt::Display> fmt::Display for Statement<N, O> {
    ghost output = { λ line. N.output line.0 ++? Some (codes " ") ++? O.output line.1 };

    fn fmt<W: fmt::Write>(&self, f: &mut fmt::Formatter<W>) -> fmt::Result {
        write!(f, "{} {}", self.0, self.1)
    }
}

/// An operand, and those after it: a comma stands between them.
#[derive(Drop)]
pub struct Then<A, B>(pub A, pub B);

impl<A: fmt::Display, B: fmt::Display> fmt::Display for Then<A, B> {
    ghost output = { λ operands. A.output operands.0 ++? Some (codes ", ") ++? B.output operands.1 };

    fn fmt<W: fmt::Write>(&self, f: &mut fmt::Formatter<W>) -> fmt::Result {
        write!(f, "{}, {}", self.0, self.1)
    }
}

/// Two texts, with nothing between them.
#[derive(Drop)]
pub struct Beside<A, B>(pub A, pub B);

impl<A: fmt::Display, B: fmt::Display> fmt::Display for Beside<A, B> {
    ghost output = { λ both. A.output both.0 ++? B.output both.1 };

    fn fmt<W: fmt::Write>(&self, f: &mut fmt::Formatter<W>) -> fmt::Result {
        write!(f, "{}{}", self.0, self.1)
    }
}
