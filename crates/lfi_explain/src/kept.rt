//! Lines that are kept until they are many, so that a writer is asked seldom.

ghost use Rattle.std.specs.Prelude.{◌≡◌, [], OnOk};
ghost use Rattle.std.specs.Io.KnownBytes.{Keeps, append_known};

use std::alloc::{AllocError, Global};
use std::io::{self, Write};

/// How many bytes of lines are many.
const MANY_BYTES: usize = 8192;

/// Room for one line more: an explanation has at most 2,048 bytes.
const LINE_BYTES: usize = 4096;

/// Memory for the lines that are kept until they are many, so that whoever writes lines needs none while it writes. No line is
/// kept yet.
#[derive(Drop)]
pub struct LineRoom {
    lines: Vec<u8>,
    ghost none: { lines.items ≡ [] },
}

impl LineRoom {
    /// Takes the memory.
    ///
    /// # Errors
    ///
    /// Where it is refused.
    pub fn new(alloc: Global) -> Result<LineRoom, AllocError> {
        let lines = Vec::with_capacity(alloc, MANY_BYTES + LINE_BYTES)?;
        Ok(LineRoom { lines })
    }

    /// The lines that are kept: none.
    pub(crate) fn into_lines(self) -> Vec<u8>
        ensures { result.items ≡ [] }
    {
        self.lines
    }
}

/// Writes the lines that are kept, and keeps none.
pub(crate) fn write_kept<W: Write>(kept: &mut Vec<u8>, out: &mut W) -> io::Result<()>
    ensures moved { OnOk result (Keeps (append_known (W.contents out.old) kept.old.items) (append_known (W.contents out.new) kept.new.items)) }
    ensures none { OnOk result (kept.new.items ≡ []) }
{
    out.write_all(kept)?;
    kept.clear();
    Ok(())
}

/// Writes the lines that are kept, where they are many.
pub(crate) fn write_many<W: Write>(kept: &mut Vec<u8>, out: &mut W) -> io::Result<()>
    ensures { OnOk result (Keeps (append_known (W.contents out.old) kept.old.items) (append_known (W.contents out.new) kept.new.items)) }
{
    if kept.len() < MANY_BYTES {
        return Ok(());
    }
    write_kept(kept, out)
}
