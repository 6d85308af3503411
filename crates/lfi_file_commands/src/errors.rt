//! Where the program tells what went wrong.

ghost use Rattle.std.specs.Prelude.{◌≡◌, ◌≢◌, ◌++◌, false, true, IfErr, IfOk, IfSome, OnErr, OnOk, codes};
ghost use Rattle.lfi_file_commands.specs.Errors.{is_lost_of, writer_of};
ghost use Rattle.std.specs.IoError.{error_kind};
ghost use Rattle.lfi_file_commands.specs.Failures.{failure_line, fault_of_read, IsOfReading, Told, TellsLines, TellsOf};
ghost use Rattle.lfi_file_commands.specs.Packing.{no_module_line};
ghost use Rattle.lfi_file_commands.specs.Endings.{EndsUnlessLost};

use crate::disk::ImageStore;
use crate::ending::Ending;
use crate::failure::Failure;
use crate::outputs::Outputs;
use crate::packing::NoModule;
use crate::texts::{self, write_line};
use std::alloc::Global;
use std::fmt::Display;
use std::io::{self, ErrorKind, Write};

/// The standard error, or what stands for it. What can't be written there is dropped, and it is kept that something was.
#[derive(Drop)]
pub struct Errors<W> {
    alloc: Global,
    writer: W,
    is_lost: bool,
}

impl<W> Errors<W> {
    /// Over this writer, to which nothing was told yet.
    pub fn new(alloc: Global, writer: W) -> Errors<W>
        ensures writer { writer_of result ≡ writer }
        ensures lost { is_lost_of result ≡ false }
    {
        Errors {
            alloc,
            writer,
            is_lost: false,
        }
    }

    /// The writer.
    pub fn writer(&self) -> &W
        ensures { result.now ≡ writer_of self.now }
    {
        &self.writer
    }

    /// Whether something could not be written.
    pub fn is_lost(&self) -> bool
        ensures { result ≡ is_lost_of self.now }
    {
        self.is_lost
    }

    /// This ending, of a run of which something was told here; where some of that is lost, the run has failed.
    pub fn unless_lost(&self, ending: Ending) -> Ending
        ensures { EndsUnlessLost (is_lost_of self.now) ending result }
    {
        if self.is_lost { Ending::Failed } else { ending }
    }

    /// Keeps that something was lost, where this write failed. Nothing else changes it.
    fn keep(&mut self, written: io::Result<()>)
        ensures written { OnOk written (self.new ≡ self.old) }
        ensures lost { OnErr written (is_lost_of self.new ≡ true) }
        ensures writer { writer_of self.new ≡ writer_of self.old }
    {
        if written.is_err() {
            self.is_lost = true;
        }
    }
}

impl<W: Write> Errors<W> {
    /// Tells of a failure by a line, where there is one for it.
    pub fn tell(&mut self, failure: &Failure<'_>)
        ensures told { Told (is_lost_of self.new) (W.contents (writer_of self.old)) (W.contents (writer_of self.new)) (failure_line failure.now) }
        ensures lost { is_lost_of self.old ≡ true → is_lost_of self.new ≡ true }
    {
        if failure.is_of_closed_output() {
            return;
        }
        let written = write_line(
            self.alloc,
            &mut self.writer,
            format_args!("lfiload: {failure}"),
        );
        self.keep(written);
    }

    /// Tells by a line that the code in a file is no module.
    pub(crate) fn tell_no_module(&mut self, no_module: NoModule<'_>)
        ensures told { Told (is_lost_of self.new) (W.contents (writer_of self.old)) (W.contents (writer_of self.new)) (no_module_line no_module.entry) }
        ensures lost { is_lost_of self.old ≡ true → is_lost_of self.new ≡ true }
    {
        let written = write_line(
            self.alloc,
            &mut self.writer,
            format_args!("lfiload: {no_module}"),
        );
        self.keep(written);
    }

    /// Writes a text as it is.
    pub fn write_text<T: Display + Drop>(&mut self, text: T)
        ensures told { IfSome (T.output text) (Told (is_lost_of self.new) (W.contents (writer_of self.old)) (W.contents (writer_of self.new))) }
        ensures lost { is_lost_of self.old ≡ true → is_lost_of self.new ≡ true }
    {
        let written = texts::write_text(self.alloc, &mut self.writer, text);
        self.keep(written);
    }

    /// Writes a text as a line.
    pub fn write_line<T: Display + Drop>(&mut self, text: T)
        ensures told { IfSome (T.output text) (λ bytes. Told (is_lost_of self.new) (W.contents (writer_of self.old)) (W.contents (writer_of self.new)) (bytes ++ codes "\n")) }
        ensures lost { is_lost_of self.old ≡ true → is_lost_of self.new ≡ true }
    {
        let written = write_line(self.alloc, &mut self.writer, text);
        self.keep(written);
    }
}

/// Tells of a failure. The run has failed then.
pub fn tell_failure<E: Write>(failure: Failure<'_>, errors: &mut Errors<E>) -> Ending
    ensures told { Told (is_lost_of errors.new) (E.contents (writer_of errors.old)) (E.contents (writer_of errors.new)) (failure_line failure.entry) }
    ensures lost { is_lost_of errors.old ≡ true → is_lost_of errors.new ≡ true }
    ensures failed { result ≡ Ending.Failed }
{
    errors.tell(&failure);
    Ending::Failed
}

/// Tells why the arguments can't be read. An argument that is no UTF-8 text is a usage error; else the run has failed.
pub fn tell_unread_arguments<E: Write>(error: &io::Error, errors: &mut Errors<E>) -> Ending
    ensures told { (failure : Failure) × IsOfReading (codes "the command line") failure × TellsOf (fault_of_read (error_kind error.now)) (codes "the command line") failure
        × Told (is_lost_of errors.new) (E.contents (writer_of errors.old)) (E.contents (writer_of errors.new)) (failure_line failure) }
    ensures usage { error_kind error.now ≡ ErrorKind.InvalidData → EndsUnlessLost (is_lost_of errors.new) Ending.WrongWords result }
    ensures failed { error_kind error.now ≢ ErrorKind.InvalidData → result ≡ Ending.Failed }
{
    let failure = Failure::reading("the command line", error);
    errors.tell(&failure);
    match error.kind() {
        ErrorKind::InvalidData => errors.unless_lost(Ending::WrongWords),
        _ => Ending::Failed,
    }
}

/// How a run ends, by what came of its line. A failure is told.
pub fn ended<P: ImageStore, O: Write, E: Write>(
    came: Result<Ending, Failure<'_>>,
    outputs: &mut Outputs<P, O, E>,
) -> Ending
    ensures well { IfOk came.entry (λ ending. (result ≡ ending) × (outputs.new ≡ outputs.old)) }
    ensures failed { IfErr came.entry (λ failure. (result ≡ Ending.Failed) × TellsLines (failure_line failure) outputs.old outputs.new) }
{
    match came {
        Ok(ending) => ending,
        Err(failure) => tell_failure(failure, &mut outputs.errors),
    }
}
