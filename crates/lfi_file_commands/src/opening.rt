//! The files that the commands read, opened.

ghost use Rattle.std.specs.Prelude.{◌≡◌, ◌<◌, Some, IfOk, IfErr, IfSome, length, map, slice_get};
ghost use Rattle.lfi_file_commands.specs.Failures.{IsOfReading, IsOfReadingOne};
ghost use Rattle.lfi_sync.specs.Clients.{read_by};
ghost use Rattle.lfi_file_commands.specs.Opening.{IsInputOf, AreInputsOf};

use crate::disk::Disk;
use crate::failure::Failure;
use lfi_receive::Input;
use lfi_sync::{ReadErrors, Watched};
use std::alloc::Global;

/// Opens the file at this path.
pub(crate) fn open<'a, D: Disk>(disk: &D, path: &'a str) -> Result<D::Reader, Failure<'a>>
    ensures reader { IfOk result (λ reader. IfSome (D.file_at disk.now path.now) (λ bytes. D.Reader.remaining reader ≡ Some bytes)) }
    ensures failure { IfErr result (IsOfReading path.now) }
{
    match disk.open(path) {
        Ok(reader) => Ok(reader),
        Err(error) => Err(Failure::reading(path, &error)),
    }
}

/// The input of the file at this path, which is that of the connection with this number.
fn open_input<'a, 'e, D: Disk>(
    alloc: Global,
    disk: &D,
    path: &'a str,
    errors: &'e ReadErrors,
    number: usize,
) -> Result<Input<Watched<'e, D::Reader>>, Failure<'a>>
    ensures input { IfOk result (IsInputOf (read_by D.Reader.remaining) (D.file_at disk.now path.now)) }
    ensures failure { IfErr result (IsOfReading path.now) }
{
    let reader = match open(disk, path) {
        Ok(reader) => reader,
        Err(failure) => return Err(failure),
    };
    match Input::new(alloc, Watched::new(reader, errors, number)) {
        Ok(input) => Ok(input),
        Err(error) => Err(Failure::from(error)),
    }
}

/// The path at this place.
pub(crate) fn path_at<'a>(paths: &[&'a str], place: usize) -> &'a str
    requires { place < length paths.now }
    ensures { slice_get paths.now place ≡ Some result }
{
    paths[place]
}

/// Opens the files at these paths, in their order, up to the first that can't be opened. Why a read of
/// one fails is told there, by its place.
///
/// # Errors
///
/// Where one can't be opened: that one's path, and why. Where there is no memory for the readers.
pub fn open_all<'a, 'e, D: Disk>(
    alloc: Global,
    disk: &D,
    paths: &[&'a str],
    errors: &'e ReadErrors,
) -> Result<Vec<Input<Watched<'e, D::Reader>>>, Failure<'a>>
    ensures inputs { IfOk result (λ inputs. AreInputsOf (read_by D.Reader.remaining) (map (λ path. D.file_at disk.now path.now) paths.now) inputs.items) }
    ensures failure { IfErr result (IsOfReadingOne (map (λ path. path.now) paths.now)) }
{
    let mut inputs = Vec::new(alloc);
    for number in 0..paths.len() {
        let input = match open_input(alloc, disk, path_at(paths, number), errors, number) {
            Ok(input) => input,
            Err(failure) => return Err(failure),
        };
        if inputs.push(input).is_err() {
            return Err(Failure::NoMemory);
        }
    }
    Ok(inputs)
}
