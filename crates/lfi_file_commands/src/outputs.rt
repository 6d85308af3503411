//! What a run of the program writes to.

use crate::disk::ImageStore;
use crate::errors::Errors;
use std::io::Write;
use std::marker::Model;

/// What a run of the program writes to. Contracts see what is left there.
#[derive(Drop)]
pub struct Outputs<P: ImageStore, O: Write, E: Write> {
    /// Where images are put.
    pub images: P,
    /// The standard output, or what stands for it.
    pub out: O,
    /// Where it tells what went wrong.
    pub errors: Errors<E>,
}

impl<P: ImageStore, O: Write, E: Write> Model for Outputs<P, O, E> {
    ghost use Rattle.lfi_file_commands.specs.Errors.{is_lost_of, writer_of};
    ghost use Rattle.lfi_file_commands.specs.Left.{Left, left};

    ghost Value = { Left };

    ghost view = { λ o. left (O.contents o.out) (P.put_files o.images) (is_lost_of o.errors) (E.contents (writer_of o.errors)) };
}
