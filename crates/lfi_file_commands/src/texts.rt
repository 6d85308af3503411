//! Texts that are written whole.

ghost use Rattle.std.specs.Prelude.{◌++◌, IfSome, OnOk, codes};
ghost use Rattle.std.specs.Io.KnownBytes.{Appends};

use std::alloc::Global;
use std::fmt::Display;
use std::io::{self, Write};

/// Writes a text by one write, as far as the writer takes it whole: so no other program that appends to the same file
/// writes into it. Where there is no memory for the text, it is written piece by piece.
///
/// # Errors
///
/// That of the writer.
pub fn write_text<W: Write, T: Display + Drop>(
    alloc: Global,
    writer: &mut W,
    text: T,
) -> io::Result<()>
    ensures { IfSome (T.output text) (λ bytes. OnOk result (Appends (W.contents writer.old) (W.contents writer.new) bytes)) }
{
    match format!(in alloc; "{text}") {
        Ok(whole) => writer.write_all(whole.as_bytes()),
        Err(_) => write!(writer, "{text}"),
    }
}

/// Writes a text as a line, as `write_text` does.
///
/// # Errors
///
/// That of the writer.
pub fn write_line<W: Write, T: Display + Drop>(
    alloc: Global,
    writer: &mut W,
    text: T,
) -> io::Result<()>
    ensures { IfSome (T.output text) (λ bytes. OnOk result (Appends (W.contents writer.old) (W.contents writer.new) (bytes ++ codes "\n"))) }
{
    match format!(in alloc; "{text}\n") {
        Ok(whole) => writer.write_all(whole.as_bytes()),
        Err(_) => writeln!(writer, "{text}"),
    }
}
